// A vector made unit by one float, 1 over its length, that comes back in a register.
ghost use Rattle.std.specs.Prelude.{◌≡◌};
ghost use Rattle.floats.specs.B2Math.{b2_normalize, unit_or_same, unit_or};
ghost use Rattle.floats.specs.Unit.{inverse_root, unit_scale};

use crate::b2_common::B2_EPSILON;
use crate::b2_math::{B2vec2, b2_length, b2_length_squared, b2_sqrt};

// 1 over the root of s, or 1 where that is below B2_EPSILON. Both functions below call it, so that the compiler inlines
// them and not the root: a vector handed to a call is packed and unpacked, a float is not.
fn inverse_root(s: f32) -> f32
    ensures { result ≡ inverse_root s }
{
    let length = b2_sqrt(s);
    if length < B2_EPSILON {
        1.0
    } else {
        1.0 / length
    }
}

// 1 over the length of a, or 1 where that is below B2_EPSILON.
pub fn unit_scale(a: B2vec2) -> f32
    ensures { result ≡ unit_scale a }
{
    inverse_root(b2_length_squared(a))
}

// a made unit by b2_normalize, or a where it had no length.
pub fn unit(a: B2vec2) -> B2vec2
    ensures { result ≡ unit_or_same (b2_normalize a) }
{
    let k = inverse_root(b2_length_squared(a));
    B2vec2 {
        x: a.x * k,
        y: a.y * k,
    }
}

// a made unit by b2_normalize, or the other vector where a had no length.
pub fn unit_or(a: B2vec2, other: B2vec2) -> B2vec2
    ensures { result ≡ unit_or other (b2_normalize a) }
{
    let length = b2_length(a);
    if B2_EPSILON <= length {
        let k = 1.0 / length;
        return B2vec2 {
            x: a.x * k,
            y: a.y * k,
        };
    }
    other
}

// Sine and cosine of 4,096ths of a turn, by sign and mirror from the quarter wave.
ghost use Rattle.std.specs.Prelude.{◌≡◌};
ghost use Rattle.headings.specs.Headings.{quarter_waves, opposite, heading};

use crate::sines::SINES;
use floats::b2_math::B2Rot;

// The table, by value: a constant array is built anew wherever it is named, so who asks for many headings takes the
// table once and lends it.
pub fn sines() -> [f32; 1025]
    ensures { result ≡ quarter_waves }
{
    SINES
}

// -x; a zero is always +0.
fn opposite(x: f32) -> f32
    ensures { result ≡ opposite x }
{
    if x == 0.0 { 0.0 } else { -x }
}

// The heading of a turn number, from the lent table; from the last quarter on, that of the last quarter. The table is a
// slice and a clause, no type with an invariant: docs/CLAIMS.md names this function, and a caller that reads no heading
// lends an empty one.
pub fn heading(sines: &[f32], number: usize) -> B2Rot
    requires { sines.now ≡ quarter_waves }
    ensures { result ≡ heading number }
{
    let k = number % 1024;
    let t = sines[k];
    let mirror = sines[1024 - k];
    match number / 1024 {
        0 => B2Rot { s: t, c: mirror },
        1 => B2Rot {
            s: mirror,
            c: opposite(t),
        },
        2 => B2Rot {
            s: opposite(t),
            c: opposite(mirror),
        },
        _ => B2Rot {
            s: opposite(mirror),
            c: t,
        },
    }
}

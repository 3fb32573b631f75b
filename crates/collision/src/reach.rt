// How far apart two points are, against a radius.
ghost use Rattle.std.specs.Prelude.{◌≡◌};
ghost use Rattle.contact_definitions.specs.B2CollideCircle.{farther};

use floats::b2_math::{B2vec2, b2_distance_vec2_squared};

// Whether p and q are farther apart than the radius.
pub fn farther_than(radius: f32, p: B2vec2, q: B2vec2) -> bool
    ensures { result ≡ farther radius p q }
{
    b2_distance_vec2_squared(p, q) > radius * radius
}

// Tuning constants, in metres (Box2D's b2_common.h).
ghost use Rattle.std.specs.Prelude.{◌≡◌, [], ◌∷◌};
ghost use Rattle.rounding.specs.Literals.{one32};
ghost use Rattle.floats.specs.B2Common.{b2_max_float, b2_epsilon, b2_linear_slop, b2_polygon_radius};

use crate::b2_settings::B2_LENGTH_UNITS_PER_METER;

// The largest finite f32: (2^24 - 1) * 2^104.
pub const B2_MAX_FLOAT: f32 = 3.4028234663852886e38;

// The distance from 1 to the next f32: 1/2^23.
pub const B2_EPSILON: f32 = 1.1920928955078125e-7;

// The most points of a manifold.
pub const B2_MAX_MANIFOLD_POINTS: usize = 2;

// The collision tolerance, 0.005 rounded: 5368709/2^30.
pub const B2_LINEAR_SLOP: f32 = 0.005 * B2_LENGTH_UNITS_PER_METER;

// The skin of outlines and walls: 5368709/2^29.
pub const B2_POLYGON_RADIUS: f32 = 2.0 * B2_LINEAR_SLOP;

// Holds each f32 constant to the bits of its definition.
fn constants() -> [f32; 5]
    ensures { result ≡ one32 ∷ b2_max_float ∷ b2_epsilon ∷ b2_linear_slop ∷ b2_polygon_radius ∷ [] }
{
    [
        B2_LENGTH_UNITS_PER_METER,
        B2_MAX_FLOAT,
        B2_EPSILON,
        B2_LINEAR_SLOP,
        B2_POLYGON_RADIUS,
    ]
}

// The outline builder for C, on a lent slice of points.
#![tactic(auto)]

ghost use Rattle.std.specs.Prelude.{◌≡◌};
ghost use Rattle.shape_definitions.specs.Polygon.{b2_polygon_shape_set};

use floats::b2_math::B2vec2;
use shape_definitions::b2_polygon_shape::{B2polygonShape, PolygonAnswer};
use shape_definitions::refusal::ACCEPTED;
use shapes::b2_polygon_shape;

#[unsafe(no_mangle)]
pub extern "C" fn b2_polygon_shape_set(old: B2polygonShape, vertices: &[B2vec2]) -> PolygonAnswer
    ensures { result ≡ b2_polygon_shape_set old vertices.now }
{
    match b2_polygon_shape::b2_polygon_shape_set(old, vertices) {
        Ok(shape) => PolygonAnswer {
            refusal: ACCEPTED,
            shape,
        },
        Err(why) => PolygonAnswer {
            refusal: u8::from(why),
            shape: old,
        },
    }
}

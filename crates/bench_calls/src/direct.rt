// Calls on plain floats. The root's says what it answers; the others promise that they are safe and end.
ghost use Rattle.std.specs.Prelude.{◌≡◌};
ghost use Rattle.floats.specs.B2Math.{b2_sqrt};

use crate::outlines;
use floats::b2_common::B2_POLYGON_RADIUS;
use floats::b2_math;
use floats::b2_math::B2vec2;
use shape_definitions::b2_polygon_shape::B2polygonShape;
use shapes::b2_polygon_shape;

#[unsafe(no_mangle)]
pub extern "C" fn direct_root(x: f32) -> f32
    ensures { result ≡ b2_sqrt x }
{
    b2_math::b2_sqrt(x)
}

// Makes the vector at the front of v unit and returns the length that it had; a slice of fewer than two floats is left
// as it is, with 0.
#[unsafe(no_mangle)]
pub extern "C" fn direct_normalize(v: &mut [f32]) -> f32 {
    if v.len() < 2 {
        return 0.0;
    }
    let n = b2_math::b2_normalize(B2vec2 { x: v[0], y: v[1] });
    v[0] = n.v.x;
    v[1] = n.v.y;
    n.length
}

fn empty_outline() -> B2polygonShape {
    let origin = B2vec2 { x: 0.0, y: 0.0 };
    B2polygonShape {
        m_radius: B2_POLYGON_RADIUS,
        m_centroid: origin,
        m_vertices: [origin; 8],
        m_normals: [origin; 8],
        m_count: 0,
    }
}

// Builds the outline of the points and writes its corners, normals and centroid to the front of out: 1, or 256 and the
// refusal with nothing written. 0, with nothing written, where out has no room for 34 floats.
#[unsafe(no_mangle)]
pub extern "C" fn direct_outline(points: &[f32], out: &mut [f32]) -> u32 {
    if out.len() < 34 {
        return 0;
    }
    let n = points.len() / 2;
    let ps = outlines::points(points, n.min(8));
    let answer = b2_polygon_shape::b2_polygon_shape_set_core(empty_outline(), ps, n);
    outlines::put_answer(answer, out)
}

// The same of a box.
#[unsafe(no_mangle)]
pub extern "C" fn direct_box(hx: f32, hy: f32, out: &mut [f32]) -> u32 {
    if out.len() < 34 {
        return 0;
    }
    let answer = b2_polygon_shape::b2_polygon_shape_set_as_box(empty_outline(), hx, hy);
    outlines::put_answer(answer, out)
}

// Whether the outline of count corners, in 34 floats as above, is convex: 1, 0, or 256 and the refusal; 2 for fewer
// floats.
#[unsafe(no_mangle)]
pub extern "C" fn direct_validate(shape: &[f32], count: usize) -> u32 {
    if shape.len() < 34 {
        return 2;
    }
    let vertices = outlines::points(shape, 8);
    let normals = outlines::points(&shape[16..], 8);
    let convex = b2_polygon_shape::b2_polygon_shape_validate(B2polygonShape {
        m_radius: B2_POLYGON_RADIUS,
        m_centroid: outlines::point(shape, 16),
        m_vertices: vertices,
        m_normals: normals,
        m_count: count,
    });
    match convex {
        Ok(valid) => u32::from(valid),
        Err(why) => 256 + u32::from(u8::from(why)),
    }
}

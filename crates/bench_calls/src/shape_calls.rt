// Boxes and walls over a record that the caller has, as records that C can name: for the comparison of what is kept.
// Nothing but safety is promised.
use floats::b2_math::{B2Rot, B2vec2};
use shape_definitions::b2_edge_shape::B2edgeShape;
use shape_definitions::b2_polygon_shape::{B2polygonShape, PolygonAnswer};
use shape_definitions::refusal::{ACCEPTED, Refusal};
use shapes::{b2_edge_shape, b2_polygon_shape};

#[repr(C)]
#[derive(Clone, Copy)]
pub struct Wall {
    pub radius: f32,
    pub vertex0: B2vec2,
    pub vertex1: B2vec2,
    pub vertex2: B2vec2,
    pub vertex3: B2vec2,
    pub one_sided: bool,
    pub refusal: u8,
}

// The number of the refusal, 0 where there is none.
fn refusal_of<T: Copy>(answer: Result<T, Refusal>) -> u8 {
    match answer {
        Ok(_) => ACCEPTED,
        Err(why) => u8::from(why),
    }
}

impl From<Wall> for B2edgeShape {
    fn from(w: Wall) -> B2edgeShape {
        let m_vertex0 = w.vertex0;
        let m_vertex1 = w.vertex1;
        let m_vertex2 = w.vertex2;
        let m_vertex3 = w.vertex3;
        B2edgeShape {
            m_radius: w.radius,
            m_vertex0,
            m_vertex1,
            m_vertex2,
            m_vertex3,
            m_one_sided: w.one_sided,
        }
    }
}

// Where the call is refused, what was given, and why.
fn wall_out(given: B2edgeShape, answer: Result<B2edgeShape, Refusal>) -> Wall {
    let w = answer.unwrap_or(given);
    let vertex0 = w.m_vertex0;
    let vertex1 = w.m_vertex1;
    let vertex2 = w.m_vertex2;
    let vertex3 = w.m_vertex3;
    Wall {
        radius: w.m_radius,
        vertex0,
        vertex1,
        vertex2,
        vertex3,
        one_sided: w.m_one_sided,
        refusal: refusal_of(answer),
    }
}

fn outline_out(given: B2polygonShape, answer: Result<B2polygonShape, Refusal>) -> PolygonAnswer {
    PolygonAnswer {
        refusal: refusal_of(answer),
        shape: answer.unwrap_or(given),
    }
}

#[unsafe(no_mangle)]
pub extern "C" fn over_box(old: B2polygonShape, hx: f32, hy: f32) -> PolygonAnswer {
    outline_out(
        old,
        b2_polygon_shape::b2_polygon_shape_set_as_box(old, hx, hy),
    )
}

#[unsafe(no_mangle)]
pub extern "C" fn over_box_angle(
    old: B2polygonShape,
    hx: f32,
    hy: f32,
    center: B2vec2,
    sine: f32,
    cosine: f32,
) -> PolygonAnswer {
    let q = B2Rot { s: sine, c: cosine };
    let answer = b2_polygon_shape::b2_polygon_shape_set_as_box_angle(old, hx, hy, center, q);
    outline_out(old, answer)
}

#[unsafe(no_mangle)]
pub extern "C" fn over_one_sided(
    old: Wall,
    v0: B2vec2,
    v1: B2vec2,
    v2: B2vec2,
    v3: B2vec2,
) -> Wall {
    let old = B2edgeShape::from(old);
    wall_out(old, b2_edge_shape::b2_set_one_sided(old, v0, v1, v2, v3))
}

#[unsafe(no_mangle)]
pub extern "C" fn over_two_sided(old: Wall, v1: B2vec2, v2: B2vec2) -> Wall {
    let old = B2edgeShape::from(old);
    wall_out(old, b2_edge_shape::b2_set_two_sided(old, v1, v2))
}

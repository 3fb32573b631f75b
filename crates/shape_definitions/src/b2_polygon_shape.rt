// Outlines (Box2D's b2_polygon_shape.h): the record, and what C gets of a call that makes one.
use floats::b2_math::B2vec2;

#[repr(C)]
#[derive(Clone, Copy)]
pub struct B2polygonShape {
    pub m_radius: f32,
    pub m_centroid: B2vec2,
    pub m_vertices: [B2vec2; 8],
    pub m_normals: [B2vec2; 8],
    pub m_count: usize,
}

// A result as C gets it: 0 and the new outline, or the number of the refusal and the outline that was given.
#[repr(C)]
#[derive(Clone, Copy)]
pub struct PolygonAnswer {
    pub refusal: u8,
    pub shape: B2polygonShape,
}

// The sum of some triangles: their area, and their centroids, each times its area.
#[derive(Clone, Copy)]
pub struct FanSum {
    pub area: f32,
    pub moment: B2vec2,
}

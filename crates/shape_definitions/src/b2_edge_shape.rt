// Walls (Box2D's b2_edge_shape.h): the segment from vertex 1 to vertex 2. A one-sided wall has ghost points before and
// after it.
use floats::b2_math::B2vec2;

#[derive(Clone, Copy)]
pub struct B2edgeShape {
    pub m_radius: f32,
    pub m_vertex0: B2vec2,
    pub m_vertex1: B2vec2,
    pub m_vertex2: B2vec2,
    pub m_vertex3: B2vec2,
    pub m_one_sided: bool,
}

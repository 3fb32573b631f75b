// Circles (Box2D's b2_circle_shape.h).
use floats::b2_math::B2vec2;

#[derive(Clone, Copy)]
pub struct B2circleShape {
    pub m_radius: f32,
    pub m_p: B2vec2,
}

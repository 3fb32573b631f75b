// Walls against circles and outlines (Box2D's b2_collide_edge.cpp).
use floats::b2_math::B2vec2;

// A reference face for clipping, of outlines too: the places and positions of its ends, its normal, and the lines at
// its two sides.
#[derive(Clone, Copy)]
pub struct B2referenceFace {
    pub i1: usize,
    pub i2: usize,
    pub v1: B2vec2,
    pub v2: B2vec2,
    pub normal: B2vec2,
    pub side_normal1: B2vec2,
    pub side_offset1: f32,
    pub side_normal2: B2vec2,
    pub side_offset2: f32,
}

// Where the Gauss map of a one-sided wall puts a normal: no contact, the axis as it is, or the wall's own axis in its
// place.
#[derive(Clone, Copy)]
pub enum GaussRegion {
    Skip,
    Admit,
    Snap,
}

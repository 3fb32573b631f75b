// Searches for the place that keeps two shapes apart.
use floats::b2_math::B2vec2;

// A place and its value: the best of a search so far. Of b2_find_max_separation: the face and its separation.
#[derive(Clone, Copy)]
pub struct Best {
    pub place: usize,
    pub value: f32,
}

// A corner of an outline and its place.
#[derive(Clone, Copy)]
pub struct Corner {
    pub index: usize,
    pub v: B2vec2,
}

// What the axis search answers: apart with its separation, or a face of A or of B with its separation, its normal's x
// and y, and its place. For a wall, A has one face with two sides, 0 and 1; B is the outline.
#[derive(Clone, Copy)]
pub enum Axis {
    Apart(f32),
    FaceA(f32, f32, f32, usize),
    FaceB(f32, f32, f32, usize),
}

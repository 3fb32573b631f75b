// Circles, outlines and walls: their records, what each call answers (specs/), and the refusals. No functions but their
// number.

#![tactic(auto)]

pub mod b2_circle_shape;
pub mod b2_edge_shape;
pub mod b2_polygon_shape;
pub mod refusal;

// Wall against circle, and wall against outline.
pub use wall_contacts::b2_collide_edge::{b2_collide_edge_and_circle, b2_collide_edge_and_polygon};

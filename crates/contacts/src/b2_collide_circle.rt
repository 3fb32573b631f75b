// Circle against circle, and outline against circle.
pub use circle_contacts::b2_collide_circle::{b2_collide_circles, b2_collide_polygon_and_circle};

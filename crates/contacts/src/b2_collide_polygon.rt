// Outline against outline.
pub use outline_contacts::b2_collide_polygon::b2_collide_polygons;

// Box2D's b2_collide_polygon.cpp. The call tests its input, refuses what document 01 turns down, and answers as its
// definition says.

#![tactic(auto)]

pub mod b2_collide_polygon;

// How far each face of an outline keeps the corners of another off.
pub mod rows;

// The reference face of one outline and the incident edge of the other, gathered and placed for the clipping.
pub mod faces;

// Box2D's b2_collide_edge.cpp. Each call tests its input, refuses what document 01 turns down, and answers as its
// definition says.

#![tactic(auto)]

pub mod b2_collide_edge;

// Wall against circle, in the wall's frame.
pub mod edge_circle;

// Wall against outline, in the wall's frame: separations, the axis, the reference face, and the manifold on it.
pub mod edge_axis;
pub mod edge_manifold;
pub mod edge_reference;
pub mod edge_separation;

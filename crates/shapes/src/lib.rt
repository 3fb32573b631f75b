// Outlines, boxes and walls; each call tests its input and refuses what document 01 turns down.

#![tactic(auto)]

pub mod b2_edge_shape;
pub mod b2_polygon_shape;

// The steps of the outline builder (weld, start, walk, normals, area with moment), and the rows of coordinates that they
// lend to each other.
mod coordinates;
mod outline;

// The steps of the convexity test.
mod convex;

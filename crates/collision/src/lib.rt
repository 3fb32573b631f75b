// Box2D's b2_collision.cpp: clipping, point states and world points. Each call tests its input, refuses what document
// 01 turns down, and answers as its definition says.

#![tactic(auto)]

pub mod b2_collision;
pub mod b2_world_manifold;
pub mod clip;
pub mod world_points;

// What the contact calls share: how a call answers, the manifolds it makes, and the tests of its input and of distances.
pub mod manifold_answer;
pub mod manifolds;
pub mod pair_ranges;
pub mod reach;

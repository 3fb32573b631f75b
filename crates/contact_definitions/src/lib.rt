// Contacts: the records of manifolds, clip vertices, world manifolds and point states, and what the axis search
// answers. No functions but the numbers of kinds, states and feature types: specs/ defines what each call gives.

#![tactic(auto)]

pub mod axis;
pub mod b2_collide_edge;
pub mod b2_collision;

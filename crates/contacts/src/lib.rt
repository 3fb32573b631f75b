// The door to the contacts: the calls of four of Box2D's files, each under the name of its file. The record, the test
// entries and the benchmarks call through here; what a call is made of stands in the crate of its file.

#![tactic(auto)]

pub mod b2_collide_circle;
pub mod b2_collide_edge;
pub mod b2_collide_polygon;
pub mod b2_collision;

// Box2D's b2_collide_circle.cpp. Each call tests its input, refuses what document 01 turns down, and answers as its
// definition says; the manifold is made at one place, once it is known where the shapes meet.

#![tactic(auto)]

pub mod b2_collide_circle;
pub mod outline_meeting;

// f32 arithmetic of the collision code: constants, vectors, rotations and transforms, under the Rust's file names. Each
// function equals its definition in specs/ on every input.

#![tactic(auto)]

pub mod b2_common;
pub mod b2_math;
pub mod b2_settings;

// Vectors made unit by one factor, bit patterns, and the range tests of document 01.
pub mod bits;
pub mod ranges;
pub mod unit;

// The passes of the benchmark: cases stand in arrays, made from numbers, and a pass makes one call after another, each
// on the answer of the last. Nothing but safety is promised: the benchmark compares the answers with the references.

#![tactic(auto)]

pub mod numbers;
pub mod passes;

// Contact calls of two shapes, and the shapes with their placements.
pub mod pair_passes;
pub mod placed;

// Clips, and point states, with the records that C can name.
pub mod clip_passes;
pub mod clip_records;
pub mod state_passes;
pub mod state_records;

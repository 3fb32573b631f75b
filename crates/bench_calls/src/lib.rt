// C entry points for the benchmark, for the run over every operand of the root, and for the comparison of what is kept.
// Nothing but safety is promised, where nothing is said: the answers are compared with the references.

#![tactic(auto)]

pub mod direct;

// Passes over pairs of shapes, clips and point states; and over world points.
pub mod contact_passes;
pub mod world_passes;

// Boxes and walls over a record that the caller has.
pub mod shape_calls;

// The records and the coordinates that these hand over.
mod manifolds;
mod outlines;
mod world_records;

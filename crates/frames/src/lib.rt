// Frames: what any frame makes of the bodies and the pair that it names, and what is said of it.

#![tactic(auto)]

// Bodies, their pieces, pairs and the world; counts; and what a frame changes.
pub mod changes;
pub mod counts;
pub mod pieces;
pub mod world;

// Frames 01 to 04, 06 and 07.
pub mod body_frames;
pub mod chain_frame;

// Frame 05: which pairs are tested, the contact of such a pair, the ages of its points, the result, and that of each
// piece of a chain.
pub mod ages;
pub mod chain_test;
pub mod listed_pairs;
pub mod test_frame;
pub mod test_result;

// Any frame.
pub mod frame;

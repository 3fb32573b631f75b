// The touch record: answers written, input fed in pieces, and the export for a C match server.

#![tactic(auto)]

// Answers as bytes and as lines.
pub mod answer;

// What is taken of each piece of input, what it prints, and the state that it leaves.
pub mod feed;

// One call that tests two bodies.
pub mod export;

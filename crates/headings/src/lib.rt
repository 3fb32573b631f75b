// Headings by turn number: sine and cosine of 4,096ths of a turn.

#![tactic(auto)]

// The quarter wave.
mod sines;

// The table to lend, and a heading from it.
pub mod turns;

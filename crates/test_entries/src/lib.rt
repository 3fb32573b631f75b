// The entries that tests call, by number: each takes a request of bytes, whose first word is its number, writes the
// answer's words to the front of the lent output, and returns how many it wrote, as C gets it: 0, and the output as it
// was, for a malformed request or an output too short.

#![tactic(auto)]

pub mod numbers;
pub mod outlines;
pub mod walls;

// Two bodies measured with a tolerance.
pub mod measured;

// Contact calls.
pub mod pairs;
pub mod points;

// The entry of a number.
pub mod by_number;

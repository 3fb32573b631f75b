// Requests and answers of the C entry points for tests, as words of four bytes: records are read at a word of the
// request, and an answer is written to the front of the lent output.

#![tactic(auto)]

pub mod words;

// What requests hold: numbers, points, outlines and walls; what contact requests hold besides; and measured bodies,
// with the answers about them.
pub mod contact_records;
pub mod measured_records;
pub mod records;

// Answers: of the calls that make shapes, and of the contact calls.
pub mod answers;
pub mod contact_answers;

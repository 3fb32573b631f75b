// Lines of lowercase hexadecimal and the bytes that they say; the fields of frames and answers, read at a place and
// written at the front of what is left of a lent buffer. Nothing here knows of ids, frames or worlds.

#![tactic(auto)]

pub mod fields;
pub mod hex;

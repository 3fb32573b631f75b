// Document 02, request 08: whether two circles, or two unturned boxes, measured with a tolerance surely touch, are
// surely apart, or either. Whole numbers of 1/256 m; no float, no loop.

#![tactic(auto)]

pub mod axes;
pub mod boxes;
pub mod circles;
pub mod export;
pub mod measured;

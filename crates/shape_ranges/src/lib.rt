// Whether the numbers of a given shape are in their ranges (document 01, "Ranges"): what every call that is given a
// shape asks first.

#![tactic(auto)]

pub mod circle_range;
pub mod edge_range;
pub mod polygon_range;

// The places of an outline's corners, as the loops over them take them.
pub mod places;

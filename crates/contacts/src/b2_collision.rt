// Clipping, world points and point states. The record takes the world points by value, and keeps of a manifold only
// its count and ids, from which the states are found, and the ages, by the same test of ids.
pub use collision::b2_collision::{
    b2_clip_segment_to_line, b2_get_point_states, counted_ids, same_id, states_of_ids,
};
pub use collision::b2_world_manifold::{
    b2_world_manifold_initialize, b2_world_manifold_initialize_core,
};

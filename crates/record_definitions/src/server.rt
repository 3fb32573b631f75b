// The whole state.
use crate::world::World;

// The number of steps that have ended; bodies and pairs.
#[derive(Clone, Copy)]
pub struct Server {
    pub steps: u32,
    pub world: World,
}

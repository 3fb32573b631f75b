// States as records that C can name, with the refusal beside them.
use crate::passes::Left;
use contact_definitions::b2_collision::{B2pointState, PointStates};

// States by their numbers: 0 null, 1 add, 2 persist, 3 remove.
#[repr(C)]
#[derive(Clone, Copy)]
pub struct States {
    pub old0: u8,
    pub old1: u8,
    pub new0: u8,
    pub new1: u8,
    pub refusal: u8,
}

pub fn null_states() -> PointStates {
    PointStates {
        old0: B2pointState::B2NullState,
        old1: B2pointState::B2NullState,
        new0: B2pointState::B2NullState,
        new1: B2pointState::B2NullState,
    }
}

impl From<Left<PointStates>> for States {
    fn from(left: Left<PointStates>) -> States {
        let s = left.value;
        States {
            old0: u8::from(s.old0),
            old1: u8::from(s.old1),
            new0: u8::from(s.new0),
            new1: u8::from(s.new1),
            refusal: left.refusal(),
        }
    }
}

// Clips as records that C can name, with the refusal beside them.
use crate::passes::Left;
use contact_definitions::b2_collision;
use contact_definitions::b2_collision::{B2clipVertex, B2contactFeature, B2contactId};
use floats::b2_math::B2vec2;

#[repr(C)]
#[derive(Clone, Copy)]
pub struct ClipVertex {
    pub v: B2vec2,
    pub index_a: u8,
    pub index_b: u8,
    pub type_a: u8,
    pub type_b: u8,
}

#[repr(C)]
#[derive(Clone, Copy)]
pub struct Clip {
    pub first: ClipVertex,
    pub second: ClipVertex,
    pub count: usize,
    pub refusal: u32,
}

impl From<ClipVertex> for B2clipVertex {
    fn from(e: ClipVertex) -> B2clipVertex {
        let v = e.v;
        B2clipVertex {
            v,
            id: B2contactId {
                cf: B2contactFeature {
                    index_a: e.index_a,
                    index_b: e.index_b,
                    type_a: e.type_a,
                    type_b: e.type_b,
                },
            },
        }
    }
}

impl From<B2clipVertex> for ClipVertex {
    fn from(e: B2clipVertex) -> ClipVertex {
        let v = e.v;
        let f = e.id.cf;
        ClipVertex {
            v,
            index_a: f.index_a,
            index_b: f.index_b,
            type_a: f.type_a,
            type_b: f.type_b,
        }
    }
}

impl From<Left<b2_collision::Clip>> for Clip {
    fn from(left: Left<b2_collision::Clip>) -> Clip {
        let first = left.value.out[0];
        let second = left.value.out[1];
        Clip {
            first: first.into(),
            second: second.into(),
            count: if left.refused.is_some() {
                0
            } else {
                left.value.count
            },
            refusal: u32::from(left.refusal()),
        }
    }
}

impl From<Clip> for b2_collision::Clip {
    fn from(c: Clip) -> b2_collision::Clip {
        b2_collision::Clip {
            out: [c.first.into(), c.second.into()],
            count: c.count,
        }
    }
}

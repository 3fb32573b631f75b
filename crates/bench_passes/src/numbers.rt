// How many cases there are; vectors, placements and kinds of manifolds from numbers.
ghost use Rattle.std.specs.Prelude.{◌+◌, ◌≤◌, length};

use contact_definitions::b2_collision::B2manifoldType;
use floats::b2_math::{B2Rot, B2Transform, B2vec2};

// How many cases a pass is over.
pub const CASES: usize = 1024;

pub fn vector(x: &[f32], i: usize) -> B2vec2
    requires { i + 2 ≤ length x.now }
{
    B2vec2 {
        x: x[i],
        y: x[i + 1],
    }
}

// The placement whose position is at i.
pub fn placement(x: &[f32], i: usize) -> B2Transform
    requires { i + 4 ≤ length x.now }
{
    let p = vector(x, i);
    let q = B2Rot {
        s: x[i + 2],
        c: x[i + 3],
    };
    B2Transform { p, q }
}

pub fn origin() -> B2Transform {
    B2Transform {
        p: B2vec2 { x: 0.0, y: 0.0 },
        q: B2Rot { s: 0.0, c: 0.0 },
    }
}

// 0 circles, 1 face A, any other face B.
pub fn kind_in(kind: u32) -> B2manifoldType {
    B2manifoldType::try_from(kind).unwrap_or(B2manifoldType::EFaceB)
}

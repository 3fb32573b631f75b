// Passes over pairs of manifolds whose points are compared, each call given the states of the last.
ghost use Rattle.std.specs.Prelude.{◌+◌, ◌≤◌, length};

use crate::numbers::CASES;
use crate::state_records::States;
use crate::{passes, state_records};
use contact_definitions::b2_collision::{
    B2contactFeature, B2contactId, B2manifold, B2manifoldPoint, B2manifoldType,
};
use contacts::b2_collision;
use floats::b2_math::B2vec2;

// How many bytes two manifolds have here: each two ids and a count.
const MARKS: usize = 18;

fn point_of(index_a: u8, index_b: u8, type_a: u8, type_b: u8) -> B2manifoldPoint {
    B2manifoldPoint {
        local_point: B2vec2 { x: 0.0, y: 0.0 },
        normal_impulse: 0.0,
        tangent_impulse: 0.0,
        id: B2contactId {
            cf: B2contactFeature {
                index_a,
                index_b,
                type_a,
                type_b,
            },
        },
        age: 0,
    }
}

fn manifold_of(first: B2manifoldPoint, second: B2manifoldPoint, point_count: usize) -> B2manifold {
    let origin = B2vec2 { x: 0.0, y: 0.0 };
    B2manifold {
        points: [first, second],
        local_normal: origin,
        local_point: origin,
        manifold_type: B2manifoldType::EFaceA,
        point_count,
    }
}

fn no_manifold() -> B2manifold {
    manifold_of(point_of(0, 0, 0, 0), point_of(0, 0, 0, 0), 0)
}

fn point_at(x: &[u8], i: usize) -> B2manifoldPoint
    requires { i + 4 ≤ length x.now }
{
    point_of(x[i], x[i + 1], x[i + 2], x[i + 3])
}

fn manifold_at(x: &[u8], i: usize) -> B2manifold
    requires { i + 9 ≤ length x.now }
{
    manifold_of(point_at(x, i), point_at(x, i + 4), usize::from(x[i + 8]))
}

// Each case's first manifold, from 0 on, or its second, from 9 on: their bytes stand side by side.
fn all_manifolds(x: &[u8], from: usize) -> [B2manifold; CASES]
    requires { from ≤ 9 }
{
    passes::all(
        x.len() / MARKS,
        no_manifold(),
        |k| manifold_at(x, k * MARKS + from),
    )
}

pub fn states(x: &[u8], order: &[u32]) -> States {
    let first = all_manifolds(x, 0);
    let second = all_manifolds(x, 9);
    let left = passes::pass(state_records::null_states(), order, |given, k| {
        b2_collision::b2_get_point_states(given, first[k], second[k])
    });
    left.into()
}

// What world points are asked of, from numbers: a manifold's normal, point and two contact points, then each side's
// placement and radius. World manifolds as records that C can name. A case without numbers has none but 0.
ghost use Rattle.std.specs.Prelude.{◌+◌, ◌≤◌, length};

use bench_passes::numbers::{CASES, kind_in, origin, placement, vector};
use bench_passes::passes;
use bench_passes::passes::Left;
use contact_definitions::b2_collision::{
    B2contactFeature, B2contactId, B2manifold, B2manifoldPoint, B2manifoldType, B2worldManifold,
};
use floats::b2_math::{B2Transform, B2vec2};

// How many numbers a case has.
const NUMBERS: usize = 18;

#[repr(C)]
#[derive(Clone, Copy)]
pub struct World {
    pub normal: B2vec2,
    pub first: B2vec2,
    pub second: B2vec2,
    pub separation0: f32,
    pub separation1: f32,
    pub refusal: u32,
}

#[derive(Clone, Copy)]
pub struct Question {
    pub m: B2manifold,
    pub xf_a: B2Transform,
    pub radius_a: f32,
    pub xf_b: B2Transform,
    pub radius_b: f32,
}

impl From<World> for B2worldManifold {
    fn from(w: World) -> B2worldManifold {
        let normal = w.normal;
        let first = w.first;
        let second = w.second;
        B2worldManifold {
            normal,
            points: [first, second],
            separations: [w.separation0, w.separation1],
        }
    }
}

impl From<Left<B2worldManifold>> for World {
    fn from(left: Left<B2worldManifold>) -> World {
        let w = left.value;
        let normal = w.normal;
        let first = w.points[0];
        let second = w.points[1];
        let separation0 = w.separations[0];
        let separation1 = w.separations[1];
        World {
            normal,
            first,
            second,
            separation0,
            separation1,
            refusal: u32::from(left.refusal()),
        }
    }
}

fn point_of(local_point: B2vec2) -> B2manifoldPoint {
    B2manifoldPoint {
        local_point,
        normal_impulse: 0.0,
        tangent_impulse: 0.0,
        id: B2contactId {
            cf: B2contactFeature {
                index_a: 0,
                index_b: 0,
                type_a: 0,
                type_b: 0,
            },
        },
        age: 0,
    }
}

fn manifold(x: &[f32], i: usize, kind: u32, point_count: usize) -> B2manifold
    requires { i + 8 ≤ length x.now }
{
    let local_normal = vector(x, i);
    let local_point = vector(x, i + 2);
    B2manifold {
        points: [point_of(vector(x, i + 4)), point_of(vector(x, i + 6))],
        local_normal,
        local_point,
        manifold_type: kind_in(kind),
        point_count,
    }
}

fn nothing() -> Question {
    let zero = B2vec2 { x: 0.0, y: 0.0 };
    let m = B2manifold {
        points: [point_of(zero), point_of(zero)],
        local_normal: zero,
        local_point: zero,
        manifold_type: B2manifoldType::ECircles,
        point_count: 0,
    };
    Question {
        m,
        xf_a: origin(),
        radius_a: 0.0,
        xf_b: origin(),
        radius_b: 0.0,
    }
}

fn question_at(x: &[f32], i: usize, kind: u32, count: usize) -> Question
    requires { i + 18 ≤ length x.now }
{
    Question {
        m: manifold(x, i, kind, count),
        xf_a: placement(x, i + 8),
        radius_a: x[i + 12],
        xf_b: placement(x, i + 13),
        radius_b: x[i + 17],
    }
}

pub fn all_questions(x: &[f32], kind: u32, count: usize) -> [Question; CASES] {
    passes::all(
        x.len() / NUMBERS,
        nothing(),
        |k| question_at(x, k * NUMBERS, kind, count),
    )
}

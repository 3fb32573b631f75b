// Manifolds as records that C can name: without an enum, and with the refusal beside them.
use bench_passes::numbers::kind_in;
use bench_passes::passes::Left;
use contact_definitions::b2_collision::{
    B2contactFeature, B2contactId, B2manifold, B2manifoldPoint,
};
use floats::b2_math::B2vec2;

#[repr(C)]
#[derive(Clone, Copy)]
pub struct Point {
    pub local_point: B2vec2,
    pub normal_impulse: f32,
    pub tangent_impulse: f32,
    pub index_a: u8,
    pub index_b: u8,
    pub type_a: u8,
    pub type_b: u8,
}

// kind: 0 circles, 1 face A, 2 face B.
#[repr(C)]
#[derive(Clone, Copy)]
pub struct Manifold {
    pub first: Point,
    pub second: Point,
    pub local_normal: B2vec2,
    pub local_point: B2vec2,
    pub count: usize,
    pub kind: u32,
    pub refusal: u32,
}

impl From<Point> for B2manifoldPoint {
    fn from(p: Point) -> B2manifoldPoint {
        let local_point = p.local_point;
        B2manifoldPoint {
            local_point,
            normal_impulse: p.normal_impulse,
            tangent_impulse: p.tangent_impulse,
            id: B2contactId {
                cf: B2contactFeature {
                    index_a: p.index_a,
                    index_b: p.index_b,
                    type_a: p.type_a,
                    type_b: p.type_b,
                },
            },
            age: 0,
        }
    }
}

impl From<Manifold> for B2manifold {
    fn from(m: Manifold) -> B2manifold {
        let local_normal = m.local_normal;
        let local_point = m.local_point;
        B2manifold {
            points: [m.first.into(), m.second.into()],
            local_normal,
            local_point,
            manifold_type: kind_in(m.kind),
            point_count: m.count,
        }
    }
}

impl From<B2manifoldPoint> for Point {
    fn from(p: B2manifoldPoint) -> Point {
        let local_point = p.local_point;
        let f = p.id.cf;
        Point {
            local_point,
            normal_impulse: p.normal_impulse,
            tangent_impulse: p.tangent_impulse,
            index_a: f.index_a,
            index_b: f.index_b,
            type_a: f.type_a,
            type_b: f.type_b,
        }
    }
}

impl From<Left<B2manifold>> for Manifold {
    fn from(left: Left<B2manifold>) -> Manifold {
        let m = left.value;
        let p0 = m.points[0];
        let p1 = m.points[1];
        let local_normal = m.local_normal;
        let local_point = m.local_point;
        Manifold {
            first: p0.into(),
            second: p1.into(),
            local_normal,
            local_point,
            count: m.point_count,
            kind: u32::from(u8::from(m.manifold_type)),
            refusal: u32::from(left.refusal()),
        }
    }
}

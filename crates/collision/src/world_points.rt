// The world points of circles and of a face, once the input is tested. Of circles only the first place is written; of a
// face, 1 is the shape that has it and 2 the other.
ghost use Rattle.std.specs.Prelude.{◌≡◌, ◌<◌, ◌≤◌};
ghost use Rattle.contact_definitions.specs.WorldManifold.{circles_normal, world_of_circles, world_of_face};
ghost use Rattle.collision.specs.FacePoints.{at_plane, second_of};

use contact_definitions::b2_collision::{B2manifold, B2worldManifold};
use floats::b2_common::B2_EPSILON;
use floats::b2_math::{
    B2Transform, B2vec2, b2_add, b2_dot, b2_mul_rot_by_vec2, b2_mul_transform_by_vec2, b2_neg,
    b2_scale, b2_sqrt, b2_sub,
};

const EPSILON_SQUARED: f32 = B2_EPSILON * B2_EPSILON;

// From centre a to centre b, or (1, 0) where they are hardly apart. Else the distance is never below B2_EPSILON, so that
// normalising needs no test of its own.
fn circles_normal(a: B2vec2, b: B2vec2) -> B2vec2
    ensures { result ≡ circles_normal a b }
{
    let d = b2_sub(b, a);
    let squared = b2_dot(d, d);
    if squared > EPSILON_SQUARED {
        let inv_length = 1.0 / b2_sqrt(squared);
        return B2vec2 {
            x: d.x * inv_length,
            y: d.y * inv_length,
        };
    }
    B2vec2 { x: 1.0, y: 0.0 }
}

pub fn world_of_circles(
    old: B2worldManifold,
    m: B2manifold,
    xf_a: B2Transform,
    radius_a: f32,
    xf_b: B2Transform,
    radius_b: f32,
) -> B2worldManifold
    ensures { result ≡ world_of_circles old m xf_a radius_a xf_b radius_b }
{
    let p0 = m.points[0];
    let a = b2_mul_transform_by_vec2(xf_a, m.local_point);
    let b = b2_mul_transform_by_vec2(xf_b, p0.local_point);
    let normal = circles_normal(a, b);
    let on_a = b2_add(a, b2_scale(radius_a, normal));
    let on_b = b2_sub(b, b2_scale(radius_b, normal));
    let middle = b2_scale(0.5, b2_add(on_a, on_b));
    let separation = b2_dot(b2_sub(on_b, on_a), normal);
    let old1 = old.points[1];
    let old_separation = old.separations[1];
    B2worldManifold {
        normal,
        points: [middle, old1],
        separations: [separation, old_separation],
    }
}

// The middle between two surfaces, and how far they are apart there.
#[derive(Clone, Copy)]
pub struct WorldPoint {
    pub middle: B2vec2,
    pub separation: f32,
}

// At a point p of the other shape, of the face's normal and a point of its plane.
fn face_point(normal: B2vec2, plane: B2vec2, radius1: f32, radius2: f32, p: B2vec2) -> WorldPoint
    ensures { result ≡ at_plane normal plane radius1 radius2 p }
{
    let face = b2_add(
        p,
        b2_scale(radius1 - b2_dot(b2_sub(p, plane), normal), normal),
    );
    let other = b2_sub(p, b2_scale(radius2, normal));
    let middle = b2_scale(0.5, b2_add(face, other));
    let separation = b2_dot(b2_sub(other, face), normal);
    WorldPoint { middle, separation }
}

// What stands at the second place: what stood there where one point is counted.
fn second_point(
    old: B2worldManifold,
    m: B2manifold,
    normal: B2vec2,
    plane: B2vec2,
    radius1: f32,
    xf2: B2Transform,
    radius2: f32,
) -> WorldPoint
    ensures { result ≡ second_of old m normal plane radius1 xf2 radius2 }
{
    if m.point_count == 1 {
        let middle = old.points[1];
        let separation = old.separations[1];
        return WorldPoint { middle, separation };
    }
    let p1 = m.points[1];
    let carried = b2_mul_transform_by_vec2(xf2, p1.local_point);
    face_point(normal, plane, radius1, radius2, carried)
}

// A face, of B where OF_B: then the normal is turned round, to point from A to B. A parameter of the type gives each
// caller a function of its own, which is inlined.
pub fn world_of_face<const OF_B: bool>(
    old: B2worldManifold,
    m: B2manifold,
    xf1: B2Transform,
    radius1: f32,
    xf2: B2Transform,
    radius2: f32,
) -> B2worldManifold
    requires { (0 < m.point_count) × (m.point_count ≤ 2) }
    ensures { result ≡ world_of_face OF_B old m xf1 radius1 xf2 radius2 }
{
    let normal = b2_mul_rot_by_vec2(xf1.q, m.local_normal);
    let plane = b2_mul_transform_by_vec2(xf1, m.local_point);
    let p0 = m.points[0];
    let carried = b2_mul_transform_by_vec2(xf2, p0.local_point);
    let first = face_point(normal, plane, radius1, radius2, carried);
    let second = second_point(old, m, normal, plane, radius1, xf2, radius2);
    let middle0 = first.middle;
    let middle1 = second.middle;
    B2worldManifold {
        normal: if OF_B { b2_neg(normal) } else { normal },
        points: [middle0, middle1],
        separations: [first.separation, second.separation],
    }
}

// Where a circle meets an outline, in the outline's frame: the face that its centre is farthest out of, and then the
// middle of that face or one of its ends.
ghost use Rattle.std.specs.Prelude.{◌≡◌, cond, ◌≤◌, ◌<◌};
ghost use Rattle.circle_contacts.specs.Meetings.{AtCorner, AtFace, AtOutline, SideOf, out_of_face};
ghost use Rattle.circle_contacts.specs.FirstFour.{LastOfFour, some_above, taken, best_of_four};

use collision::reach::farther_than;
use contact_definitions::axis::Best;
use floats::b2_common::{B2_EPSILON, B2_MAX_FLOAT};
use floats::b2_math::B2vec2;
use floats::{b2_math, unit};
use shape_ranges::places;

// How a circle meets an outline: the normal's and a point's coordinates.
#[derive(Clone, Copy)]
pub struct Meeting {
    pub nx: f32,
    pub ny: f32,
    pub x: f32,
    pub y: f32,
}

// The face that a circle's centre is farthest out of: its ends, its normal, and by how much.
#[derive(Clone, Copy)]
pub struct Side {
    pub separation: f32,
    pub v1: B2vec2,
    pub v2: B2vec2,
    pub normal: B2vec2,
}

// How far c is out of face i.
fn out_of_face(vs: [B2vec2; 8], ns: [B2vec2; 8], i: usize, c: B2vec2) -> f32
    requires { i < 8 }
    ensures { result ≡ out_of_face vs ns c i }
{
    let v = B2vec2 {
        x: vs[i].x,
        y: vs[i].y,
    };
    let n = B2vec2 {
        x: ns[i].x,
        y: ns[i].y,
    };
    b2_math::b2_dot(n, b2_math::b2_sub(c, v))
}

// The last of the first four faces: of three, the third, which is then looked at twice.
fn last_of_four(count: usize) -> usize
    requires { 2 < count }
    ensures { LastOfFour count result }
{
    if count > 3 {
        return 3;
    }
    2
}

fn some_above(radius: f32, s0: f32, s1: f32, s2: f32, s3: f32) -> bool
    ensures { result ≡ some_above radius s0 s1 s2 s3 }
{
    let a0 = s0 > radius;
    let a1 = s1 > radius;
    let a2 = s2 > radius;
    let a3 = s3 > radius;
    a0 | a1 | a2 | a3
}

fn better(best: Best, place: usize, value: f32) -> Best
    ensures { result ≡ taken best place value }
{
    if value > best.value {
        return Best { place, value };
    }
    best
}

fn best_of_four(s0: f32, s1: f32, s2: f32, s3: f32) -> Best
    ensures { result ≡ best_of_four s0 s1 s2 s3 }
{
    let none = Best {
        place: 0,
        value: -B2_MAX_FLOAT,
    };
    let b0 = better(none, 0, s0);
    let b1 = better(b0, 1, s1);
    let b2 = better(b1, 2, s2);
    better(b2, 3, s3)
}

// The face that c is farthest out of, unless it is out of some face by more than the radius. The first four faces are
// worked out side by side, and one test asks all of them. The scan keeps the place alone, so
// that it is compiled to conditional moves: which face is the best is not to be foreseen.
fn circle_side(
    vs: [B2vec2; 8],
    ns: [B2vec2; 8],
    count: usize,
    c: B2vec2,
    radius: f32,
) -> Option<Side>
    requires { (2 < count) × (count ≤ 8) }
    ensures { SideOf vs ns count c radius result }
{
    let last = last_of_four(count);
    let s0 = out_of_face(vs, ns, 0, c);
    let s1 = out_of_face(vs, ns, 1, c);
    let s2 = out_of_face(vs, ns, 2, c);
    let s3 = out_of_face(vs, ns, last, c);
    if some_above(radius, s0, s1, s2, s3) {
        return None;
    }
    let best = best_of_four(s0, s1, s2, s3);
    let mut separation = best.value;
    let mut index = best.place;
    for i in last + 1..count {
        let s = out_of_face(vs, ns, i, c);
        if s > radius {
            return None;
        }
        if s > separation {
            separation = s;
            index = i;
        }
    }
    let next = places::after(index, count);
    let v1 = B2vec2 {
        x: vs[index].x,
        y: vs[index].y,
    };
    let v2 = B2vec2 {
        x: vs[next].x,
        y: vs[next].y,
    };
    let normal = B2vec2 {
        x: ns[index].x,
        y: ns[index].y,
    };
    Some(Side {
        separation,
        v1,
        v2,
        normal,
    })
}

// At a corner of a face with this normal, which stands in where c has no distance from the corner.
fn corner_meeting(v: B2vec2, normal: B2vec2, c: B2vec2, radius: f32) -> Option<Meeting>
    ensures { AtCorner v normal c radius result }
{
    if farther_than(radius, c, v) {
        return None;
    }
    let n = unit::unit_or(b2_math::b2_sub(c, v), normal);
    Some(Meeting {
        nx: n.x,
        ny: n.y,
        x: v.x,
        y: v.y,
    })
}

fn nearer_end(first: bool, v1: B2vec2, v2: B2vec2) -> B2vec2
    ensures { result ≡ cond first v1 v2 }
{
    if first { v1 } else { v2 }
}

// At the face from v1 to v2, out of which c is by the separation: at its middle, or at one of its ends.
fn face_meeting(
    v1: B2vec2,
    v2: B2vec2,
    normal: B2vec2,
    separation: f32,
    c: B2vec2,
    radius: f32,
) -> Option<Meeting>
    ensures { AtFace v1 v2 normal separation c radius result }
{
    let middle = b2_math::b2_scale(0.5, b2_math::b2_add(v1, v2));
    if separation < B2_EPSILON {
        return Some(Meeting {
            nx: normal.x,
            ny: normal.y,
            x: middle.x,
            y: middle.y,
        });
    }
    let first = b2_math::b2_dot(b2_math::b2_sub(c, v1), b2_math::b2_sub(v2, v1)) <= 0.0;
    let second = b2_math::b2_dot(b2_math::b2_sub(c, v2), b2_math::b2_sub(v1, v2)) <= 0.0;
    if first | second {
        let v = nearer_end(first, v1, v2);
        return corner_meeting(v, normal, c, radius);
    }
    if b2_math::b2_dot(b2_math::b2_sub(c, middle), normal) > radius {
        return None;
    }
    Some(Meeting {
        nx: normal.x,
        ny: normal.y,
        x: middle.x,
        y: middle.y,
    })
}

// Where a circle with its centre at c meets an outline, in the outline's frame. The outline's rows are handed on by
// themselves: an outline by value is copied whole.
pub fn polygon_meeting(
    vs: [B2vec2; 8],
    ns: [B2vec2; 8],
    count: usize,
    c: B2vec2,
    radius: f32,
) -> Option<Meeting>
    requires { (2 < count) × (count ≤ 8) }
    ensures { AtOutline vs ns count c radius result }
{
    let side = circle_side(vs, ns, count, c, radius)?;
    face_meeting(side.v1, side.v2, side.normal, side.separation, c, radius)
}

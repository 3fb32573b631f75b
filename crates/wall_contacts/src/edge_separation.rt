// b2_compute_edge_separation and b2_compute_polygon_separation, over the outline in the wall's frame as rows of one
// coordinate. Rows are filled to 4 or 8 places, so that the compiler takes four at a time; places past the outline's
// count are filled and never read.
ghost use Rattle.std.specs.Prelude.{◌≡◌, [], ◌∷◌, ◌≤◌, ℕ, Float};
ghost use Rattle.std.specs.Float.Ieee.{neg};
ghost use Rattle.rounding.specs.Literals.{zero32};
ghost use Rattle.floats.specs.B2Math.{b2_mul_transform_by_vec2, b2_sub, b2_neg, b2_dot, b2_mul_rot_by_vec2};
ghost use Rattle.floats.specs.declared.b2_math.B2Transform.{B2Transform};
ghost use Rattle.floats.specs.B2Common.{b2_max_float};
ghost use Rattle.shape_definitions.specs.Outline.{point_at};
ghost use Rattle.shape_definitions.specs.declared.b2_polygon_shape.B2polygonShape.{B2polygonShape};
ghost use Rattle.contact_definitions.specs.Searches.{least};
ghost use Rattle.contact_definitions.specs.Axis.{face_a, farthest};
ghost use Rattle.contact_definitions.specs.EdgeAxis.{placed_corner, b2_compute_edge_separation, placed_normal};
ghost use Rattle.contact_definitions.specs.EdgeAxis.{b2_compute_polygon_separation};
ghost use Rattle.wall_contacts.specs.PlacedRows.{PointRows, Row, face_distance};

use contact_definitions::axis::Axis;
use floats::b2_common::B2_MAX_FLOAT;
use floats::b2_math;
use floats::b2_math::{B2Rot, B2Transform, B2vec2};

// Points, or normals, of an outline in the wall's frame: a row for each coordinate.
#[derive(Clone, Copy)]
pub struct Rows {
    pub xs: [f32; 8],
    pub ys: [f32; 8],
}

// The first n corners, carried by xf.
pub fn place_rows(xf: B2Transform, vs: [B2vec2; 8], n: usize, corners: &mut Rows)
    requires { n ≤ 8 }
    ensures { PointRows (λ i. b2_mul_transform_by_vec2 xf (point_at vs i)) n corners.new.xs corners.new.ys }
{
    for i in 0..n {
        let v = b2_math::b2_mul_transform_by_vec2(xf, vs[i]);
        corners.xs[i] = v.x;
        corners.ys[i] = v.y;
    }
}

// The distances of n corners from the wall's line through v1, in front of it and behind it.
fn side_rows(
    corners: &Rows,
    n: usize,
    v1: B2vec2,
    n1: B2vec2,
    front: &mut [f32; 8],
    back: &mut [f32; 8],
)
    requires { n ≤ 8 }
    ensures { (corner : ℕ → B2vec2) → PointRows corner n corners.now.xs corners.now.ys
        → Row (λ i. b2_dot n1 (b2_sub (corner i) v1)) n front.new
        × Row (λ i. b2_dot (b2_neg n1) (b2_sub (corner i) v1)) n back.new }
{
    for i in 0..n {
        let v = B2vec2 {
            x: corners.xs[i],
            y: corners.ys[i],
        };
        let d = b2_math::b2_sub(v, v1);
        front[i] = b2_math::b2_dot(n1, d);
        back[i] = b2_math::b2_dot(b2_math::b2_neg(n1), d);
    }
}

// The least distance in front and the least behind.
#[derive(Clone, Copy)]
struct Least {
    front: f32,
    back: f32,
}

fn least_of(f: &[f32; 8], b: &[f32; 8], count: usize) -> Least
    requires { count ≤ 8 }
    ensures { (ahead behind : ℕ → Float) → Row ahead count f.now → Row behind count b.now
        → (result.front ≡ least ahead count) × (result.back ≡ least behind count) }
{
    let mut front: f32 = B2_MAX_FLOAT;
    let mut back: f32 = B2_MAX_FLOAT;
    for i in 0..count {
        front = b2_math::b2_min(f[i], front);
        back = b2_math::b2_min(b[i], back);
    }
    Least { front, back }
}

// The side of the greater distance, 0 with the normal and 1 with it reversed; no side where both are the largest float
// negated or below.
fn farther_side(l: Least, normal1: B2vec2) -> Axis
    ensures { result ≡ farthest (Axis.FaceA (neg b2_max_float) zero32 zero32 0)
        (face_a l.front normal1 0 ∷ face_a l.back (b2_neg normal1) 1 ∷ []) }
{
    let front = l.front;
    let back = l.back;
    if front > -B2_MAX_FLOAT {
        if back > front {
            return Axis::FaceA(back, -normal1.x, -normal1.y, 1);
        }
        return Axis::FaceA(front, normal1.x, normal1.y, 0);
    }
    if back > -B2_MAX_FLOAT {
        return Axis::FaceA(back, -normal1.x, -normal1.y, 1);
    }
    Axis::FaceA(-B2_MAX_FLOAT, 0.0, 0.0, 0)
}

// The rows hold the outline's corners in the wall's frame; n places of them are filled.
pub fn b2_compute_edge_separation(
    corners: &Rows,
    n: usize,
    count: usize,
    v1: B2vec2,
    normal1: B2vec2,
) -> Axis
    requires { (count ≤ n) × (n ≤ 8) }
    ensures { (xf : B2Transform) (poly : B2polygonShape) → poly.m_count ≡ count
        → PointRows (placed_corner xf poly) n corners.now.xs corners.now.ys
        → result ≡ b2_compute_edge_separation xf poly v1 normal1 }
{
    let mut front = [0.0f32; 8];
    let mut back = [0.0f32; 8];
    side_rows(corners, n, v1, normal1, &mut front, &mut back);
    farther_side(least_of(&front, &back, count), normal1)
}

// How far a face through v with the normal n keeps both v1 and v2 off.
fn face_distance(n: B2vec2, v: B2vec2, v1: B2vec2, v2: B2vec2) -> f32
    ensures { result ≡ face_distance n v v1 v2 }
{
    let m = b2_math::b2_neg(n);
    b2_math::b2_min(
        b2_math::b2_dot(m, b2_math::b2_sub(v, v1)),
        b2_math::b2_dot(m, b2_math::b2_sub(v, v2)),
    )
}

// The first n normals, turned by q, and how far each face keeps the wall from v1 to v2 off. The rows hold
// the corners.
pub fn normal_rows(
    q: B2Rot,
    ns: [B2vec2; 8],
    corners: &Rows,
    n: usize,
    v1: B2vec2,
    v2: B2vec2,
    normals: &mut Rows,
    faces: &mut [f32; 8],
)
    requires { n ≤ 8 }
    ensures { PointRows (λ i. b2_mul_rot_by_vec2 q (point_at ns i)) n normals.new.xs normals.new.ys
        × ((corner : ℕ → B2vec2) → PointRows corner n corners.now.xs corners.now.ys
        → Row (λ i. face_distance (b2_mul_rot_by_vec2 q (point_at ns i)) (corner i) v1 v2) n faces.new) }
{
    for i in 0..n {
        let m = b2_math::b2_mul_rot_by_vec2(q, ns[i]);
        normals.xs[i] = m.x;
        normals.ys[i] = m.y;
        let v = B2vec2 {
            x: corners.xs[i],
            y: corners.ys[i],
        };
        faces[i] = face_distance(m, v, v1, v2);
    }
}

// The rows hold the outline's normals in the wall's frame and how far each face keeps the wall off. The scan keeps the
// normal too, so that it is compiled to a branch.
pub fn b2_compute_polygon_separation(faces: &[f32; 8], normals: &Rows, count: usize) -> Axis
    requires { count ≤ 8 }
    ensures { (xf : B2Transform) (poly : B2polygonShape) (v1 v2 : B2vec2) → poly.m_count ≡ count
        → Row (λ i. face_distance (placed_normal xf poly i) (placed_corner xf poly i) v1 v2) count faces.now
        → PointRows (placed_normal xf poly) count normals.now.xs normals.now.ys
        → result ≡ b2_compute_polygon_separation xf poly v1 v2 }
{
    let mut separation: f32 = -B2_MAX_FLOAT;
    let mut x: f32 = 0.0;
    let mut y: f32 = 0.0;
    let mut place = 0usize;
    for i in 0..count {
        let s = faces[i];
        if s > separation {
            separation = s;
            x = -normals.xs[i];
            y = -normals.ys[i];
            place = i;
        }
    }
    Axis::FaceB(separation, x, y, place)
}

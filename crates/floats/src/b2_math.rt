// Vectors, rotations and transforms (Box2D's b2_math.h), as structs of f32 passed by value. Operators and methods of
// the Rust are plain functions here; each operation rounds once, in the Rust's order.
ghost use Rattle.std.specs.Prelude.{◌≡◌};
ghost use Rattle.floats.specs.B2Math.{b2_sqrt, b2_min};
ghost use Rattle.floats.specs.B2Math.{b2_add, b2_sub, b2_neg, b2_scale, b2_dot, b2_cross};
ghost use Rattle.floats.specs.B2Math.{b2_distance_vec2_squared};
ghost use Rattle.floats.specs.B2Math.{b2_cross_vec_by_scalar, b2_cross_scalar_by_vec};
ghost use Rattle.floats.specs.B2Math.{b2_length_squared, b2_length, b2_normalize};
ghost use Rattle.floats.specs.B2Math.{b2_mul_rot, b2_mul_t_rot, b2_mul_rot_by_vec2, b2_mul_t_rot_by_vec2};
ghost use Rattle.floats.specs.B2Math.{b2_mul_transform_by_vec2, b2_mul_t_transform_by_vec2};
ghost use Rattle.floats.specs.B2Math.{b2_mul_transform, b2_mul_t_transform};

use crate::b2_common::B2_EPSILON;
use sqrt::root;

#[repr(C)]
#[derive(Clone, Copy)]
pub struct B2vec2 {
    pub x: f32,
    pub y: f32,
}

// A vector made unit, with the length that it had, and whether that was at least B2_EPSILON: where it was below, 0 and
// the vector as it was. No Option: a length and a vector come back either way, of a NaN too, and entry 16 of the test
// door prints them.
#[derive(Clone, Copy)]
pub struct Normalized {
    pub had_length: bool,
    pub length: f32,
    pub v: B2vec2,
}

// A rotation: sine and cosine.
#[derive(Clone, Copy)]
pub struct B2Rot {
    pub s: f32,
    pub c: f32,
}

// A placement: position and rotation.
#[derive(Clone, Copy)]
pub struct B2Transform {
    pub p: B2vec2,
    pub q: B2Rot,
}

// The square root, correctly rounded.
pub fn b2_sqrt(x: f32) -> f32
    ensures { result ≡ b2_sqrt x }
{
    root::square_root(x)
}

// a where a < b, else b.
pub fn b2_min(a: f32, b: f32) -> f32
    ensures { result ≡ b2_min a b }
{
    if a < b { a } else { b }
}

pub fn b2_add(a: B2vec2, b: B2vec2) -> B2vec2
    ensures { result ≡ b2_add a b }
{
    B2vec2 {
        x: a.x + b.x,
        y: a.y + b.y,
    }
}

pub fn b2_sub(a: B2vec2, b: B2vec2) -> B2vec2
    ensures { result ≡ b2_sub a b }
{
    B2vec2 {
        x: a.x - b.x,
        y: a.y - b.y,
    }
}

pub fn b2_neg(a: B2vec2) -> B2vec2
    ensures { result ≡ b2_neg a }
{
    B2vec2 { x: -a.x, y: -a.y }
}

pub fn b2_scale(s: f32, a: B2vec2) -> B2vec2
    ensures { result ≡ b2_scale s a }
{
    B2vec2 {
        x: s * a.x,
        y: s * a.y,
    }
}

pub fn b2_dot(a: B2vec2, b: B2vec2) -> f32
    ensures { result ≡ b2_dot a b }
{
    a.x * b.x + a.y * b.y
}

pub fn b2_cross(a: B2vec2, b: B2vec2) -> f32
    ensures { result ≡ b2_cross a b }
{
    a.x * b.y - a.y * b.x
}

pub fn b2_cross_vec_by_scalar(a: B2vec2, s: f32) -> B2vec2
    ensures { result ≡ b2_cross_vec_by_scalar a s }
{
    B2vec2 {
        x: s * a.y,
        y: -s * a.x,
    }
}

pub fn b2_cross_scalar_by_vec(s: f32, a: B2vec2) -> B2vec2
    ensures { result ≡ b2_cross_scalar_by_vec s a }
{
    B2vec2 {
        x: -s * a.y,
        y: s * a.x,
    }
}

pub fn b2_length_squared(a: B2vec2) -> f32
    ensures { result ≡ b2_length_squared a }
{
    a.x * a.x + a.y * a.y
}

pub fn b2_length(a: B2vec2) -> f32
    ensures { result ≡ b2_length a }
{
    b2_sqrt(b2_length_squared(a))
}

pub fn b2_distance_vec2_squared(a: B2vec2, b: B2vec2) -> f32
    ensures { result ≡ b2_distance_vec2_squared a b }
{
    let c = b2_sub(a, b);
    b2_dot(c, c)
}

pub fn b2_normalize(a: B2vec2) -> Normalized
    ensures { result ≡ b2_normalize a }
{
    let length = b2_length(a);
    let had_length = B2_EPSILON <= length;
    if length < B2_EPSILON {
        return Normalized {
            had_length,
            length: 0.0,
            v: a,
        };
    }
    let inv_length = 1.0 / length;
    let v = B2vec2 {
        x: a.x * inv_length,
        y: a.y * inv_length,
    };
    Normalized {
        had_length,
        length,
        v,
    }
}

// q r
pub fn b2_mul_rot(q: B2Rot, r: B2Rot) -> B2Rot
    ensures { result ≡ b2_mul_rot q r }
{
    B2Rot {
        s: q.s * r.c + q.c * r.s,
        c: q.c * r.c - q.s * r.s,
    }
}

// q⁻¹ r
pub fn b2_mul_t_rot(q: B2Rot, r: B2Rot) -> B2Rot
    ensures { result ≡ b2_mul_t_rot q r }
{
    B2Rot {
        s: q.c * r.s - q.s * r.c,
        c: q.c * r.c + q.s * r.s,
    }
}

// q v
pub fn b2_mul_rot_by_vec2(q: B2Rot, v: B2vec2) -> B2vec2
    ensures { result ≡ b2_mul_rot_by_vec2 q v }
{
    B2vec2 {
        x: q.c * v.x - q.s * v.y,
        y: q.s * v.x + q.c * v.y,
    }
}

// q⁻¹ v
pub fn b2_mul_t_rot_by_vec2(q: B2Rot, v: B2vec2) -> B2vec2
    ensures { result ≡ b2_mul_t_rot_by_vec2 q v }
{
    B2vec2 {
        x: q.c * v.x + q.s * v.y,
        y: -q.s * v.x + q.c * v.y,
    }
}

// t v
pub fn b2_mul_transform_by_vec2(t: B2Transform, v: B2vec2) -> B2vec2
    ensures { result ≡ b2_mul_transform_by_vec2 t v }
{
    let x = (t.q.c * v.x - t.q.s * v.y) + t.p.x;
    let y = (t.q.s * v.x + t.q.c * v.y) + t.p.y;
    B2vec2 { x, y }
}

// t⁻¹ v
pub fn b2_mul_t_transform_by_vec2(t: B2Transform, v: B2vec2) -> B2vec2
    ensures { result ≡ b2_mul_t_transform_by_vec2 t v }
{
    let px = v.x - t.p.x;
    let py = v.y - t.p.y;
    let x = t.q.c * px + t.q.s * py;
    let y = -t.q.s * px + t.q.c * py;
    B2vec2 { x, y }
}

// a b
pub fn b2_mul_transform(a: B2Transform, b: B2Transform) -> B2Transform
    ensures { result ≡ b2_mul_transform a b }
{
    let q = b2_mul_rot(a.q, b.q);
    let p = b2_add(b2_mul_rot_by_vec2(a.q, b.p), a.p);
    B2Transform { p, q }
}

// a⁻¹ b
pub fn b2_mul_t_transform(a: B2Transform, b: B2Transform) -> B2Transform
    ensures { result ≡ b2_mul_t_transform a b }
{
    let q = b2_mul_t_rot(a.q, b.q);
    let p = b2_mul_t_rot_by_vec2(a.q, b2_sub(b.p, a.p));
    B2Transform { p, q }
}

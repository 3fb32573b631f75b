// Which numbers a call takes (document 01, "Ranges"). A NaN is in no range, and every limit is inside its own. Each
// range has its name; `within` and `vec2_within` are the one test, the limit an argument.
ghost use Rattle.std.specs.Prelude.{◌≡◌};
ghost use Rattle.floats.specs.Ranges as ranges;

use crate::b2_math::{B2Rot, B2Transform, B2vec2};

// 2, 8, 2^20, 2^30.
pub const NORMAL_LIMIT: f32 = 2.0;

const LOCAL_NORMAL_LIMIT: f32 = 8.0;

pub const SHAPE_LIMIT: f32 = 1048576.0;

const CONTACT_LIMIT: f32 = 1073741824.0;

// |x| ≤ limit.
fn within(limit: f32, x: f32) -> bool
    ensures { result ≡ ranges.within limit x }
{
    let low = x >= -limit;
    let high = x <= limit;
    low & high
}

pub fn vec2_within(limit: f32, v: B2vec2) -> bool
    ensures { result ≡ ranges.vec2_within limit v }
{
    let x = within(limit, v.x);
    let y = within(limit, v.y);
    x & y
}

// Shape coordinates, half-widths and positions.
pub fn coordinate_in_range(x: f32) -> bool
    ensures { result ≡ ranges.coordinate_in_range x }
{
    within(SHAPE_LIMIT, x)
}

pub fn point_in_range(v: B2vec2) -> bool
    ensures { result ≡ ranges.point_in_range v }
{
    vec2_within(SHAPE_LIMIT, v)
}

// Radii, from 0, either zero.
pub fn radius_in_range(radius: f32) -> bool
    ensures { result ≡ ranges.radius_in_range radius }
{
    let low = radius >= 0.0;
    let high = radius <= SHAPE_LIMIT;
    low & high
}

// Sine and cosine.
pub fn rotation_in_range(q: B2Rot) -> bool
    ensures { result ≡ ranges.rotation_in_range q }
{
    let s = within(1.0, q.s);
    let c = within(1.0, q.c);
    s & c
}

// A placement.
pub fn transform_in_range(t: B2Transform) -> bool
    ensures { result ≡ ranges.transform_in_range t }
{
    let p = point_in_range(t.p);
    let q = rotation_in_range(t.q);
    p & q
}

// A polygon's stored normal.
pub fn normal_in_range(v: B2vec2) -> bool
    ensures { result ≡ ranges.normal_in_range v }
{
    vec2_within(NORMAL_LIMIT, v)
}

// A manifold's local_normal.
pub fn local_normal_in_range(v: B2vec2) -> bool
    ensures { result ≡ ranges.local_normal_in_range v }
{
    vec2_within(LOCAL_NORMAL_LIMIT, v)
}

// The numbers of clip calls and of a manifold given for world points.
pub fn contact_number_in_range(x: f32) -> bool
    ensures { result ≡ ranges.contact_number_in_range x }
{
    within(CONTACT_LIMIT, x)
}

pub fn contact_point_in_range(v: B2vec2) -> bool
    ensures { result ≡ ranges.contact_point_in_range v }
{
    vec2_within(CONTACT_LIMIT, v)
}

// A segment clipped to a line, by cases, with stores at constant places (the core of Box2D's b2_clip_segment_to_line).
ghost use Rattle.std.specs.Prelude.{◌≡◌, [], ◌∷◌};
ghost use Rattle.contact_definitions.specs.Clip.{clip_distance, crossing, clipped_by, clipped};
ghost use Rattle.collision.specs.ClipPlaces.{two_ends, left_over};

use crate::manifolds::contact_id;
use contact_definitions::b2_collision::{B2clipVertex, B2contactFeatureType, Clip};
use floats::b2_math::{B2vec2, b2_add, b2_dot, b2_scale, b2_sub};

// The distance of an end from the line.
pub fn clip_distance(n: B2vec2, offset: f32, e: B2clipVertex) -> f32
    ensures { result ≡ clip_distance n offset e }
{
    b2_dot(n, e.v) - offset
}

// The point where the segment from a to b crosses the line, from which they lie d0 and d1.
pub fn cut(a: B2clipVertex, b: B2clipVertex, d0: f32, d1: f32, index: usize) -> B2clipVertex
    ensures { result ≡ crossing a b d0 d1 index }
{
    let interp = d0 / (d0 - d1);
    let v = b2_add(a.v, b2_scale(interp, b2_sub(b.v, a.v)));
    let index_a = (index % 256) as u8;
    B2clipVertex {
        v,
        id: contact_id(
            index_a,
            a.id.cf.index_b,
            B2contactFeatureType::EVertex,
            B2contactFeatureType::EFace,
        ),
    }
}

// Two ends that are left.
fn both_left(a: B2clipVertex, b: B2clipVertex) -> Clip
    ensures { result ≡ two_ends a b }
{
    Clip {
        out: [a, b],
        count: 2,
    }
}

// One that is left, over the first place.
fn one_left(out: [B2clipVertex; 2], a: B2clipVertex) -> Clip
    ensures { result ≡ left_over (a ∷ []) out }
{
    let o = out[1];
    Clip {
        out: [a, o],
        count: 1,
    }
}

// What is left of the segment from a to b, whose ends lie d0 and d1 from the line, over the places of out. An end that
// is left on the one side and a crossing are two, never three, and where no end is left there is no crossing.
fn clip_by(
    out: [B2clipVertex; 2],
    a: B2clipVertex,
    b: B2clipVertex,
    d0: f32,
    d1: f32,
    index: usize,
) -> Clip
    ensures { result ≡ left_over (clipped_by a b d0 d1 index) out }
{
    if d0 <= 0.0 {
        if d1 <= 0.0 {
            return both_left(a, b);
        }
        if d0 * d1 < 0.0 {
            return both_left(a, cut(a, b, d0, d1, index));
        }
        return one_left(out, a);
    }
    if d1 <= 0.0 {
        if d0 * d1 < 0.0 {
            return both_left(b, cut(a, b, d0, d1, index));
        }
        return one_left(out, b);
    }
    Clip { out, count: 0 }
}

// What is left of the segment vs, over the places of out.
pub fn clip_ends(
    out: [B2clipVertex; 2],
    vs: [B2clipVertex; 2],
    n: B2vec2,
    offset: f32,
    index: usize,
) -> Clip
    ensures { result ≡ left_over (clipped vs n offset index) out }
{
    let a = vs[0];
    let b = vs[1];
    let d0 = clip_distance(n, offset, a);
    let d1 = clip_distance(n, offset, b);
    clip_by(out, a, b, d0, d1, index)
}

// What is left of a segment clipped to side 1 and then to side 2, over its own ends: of fewer than two ends after the
// first, nothing is.
pub fn clip_to_sides(
    ends: [B2clipVertex; 2],
    normal1: B2vec2,
    offset1: f32,
    index1: usize,
    normal2: B2vec2,
    offset2: f32,
    index2: usize,
) -> Clip
    ensures { result ≡ left_over (clipped (clipped ends normal1 offset1 index1) normal2 offset2 index2) ends }
{
    let first = clip_ends(ends, ends, normal1, offset1, index1);
    if first.count < 2 {
        return Clip {
            out: ends,
            count: 0,
        };
    }
    let once = first.out;
    clip_ends(ends, once, normal2, offset2, index2)
}

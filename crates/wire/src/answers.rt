// Answers of the calls that make shapes, as words: the refusal, and the outline or the wall after the call.
ghost use Rattle.std.specs.Prelude.{◌≡◌, ◌∷◌, ◌++◌, ◌+◌, ◌≤◌, length, take};
ghost use Rattle.shape_definitions.specs.Refusal.{refusal_number, made_or};
ghost use Rattle.wire.specs.Words.{Written};
ghost use Rattle.wire.specs.Answers.{low_word, points_words, polygon_words, edge_words};

use crate::words;
use floats::b2_math::B2vec2;
use floats::bits;
use shape_definitions::b2_edge_shape::B2edgeShape;
use shape_definitions::b2_polygon_shape::B2polygonShape;
use shape_definitions::refusal::{ACCEPTED, Refusal};

// The number of a refusal, 0 where there is none.
pub fn refusal_word<T: Copy>(answer: Result<T, Refusal>) -> u32
    ensures { result ≡ refusal_number answer }
{
    match answer {
        Ok(_) => u32::from(ACCEPTED),
        Err(why) => u32::from(u8::from(why)),
    }
}

// What a call answers, as the wire has it: the number of its refusal, 0 for accepted, and the record after the call.
// Any byte is written as it is, one that is the number of no refusal too, and any record beside it.
#[derive(Clone, Copy)]
pub struct Answered<T> {
    pub refusal: u8,
    pub after: T,
}

impl<T: Copy> Answered<T> {
    // What was made; or what was given, where the call is refused.
    pub fn of(given: T, answer: Result<T, Refusal>) -> Answered<T>
        ensures { (result.refusal ≡ refusal_number answer) × (result.after ≡ made_or given answer) }
    {
        match answer {
            Ok(made) => Answered {
                refusal: ACCEPTED,
                after: made,
            },
            Err(why) => Answered {
                refusal: u8::from(why),
                after: given,
            },
        }
    }
}

// The rest by 2^32: `as` may lose no bits.
pub fn low_word(n: usize) -> u32
    ensures { result ≡ low_word n }
{
    (n % 4294967296) as u32
}

// Eight points from place i on; the places before them keep their words.
fn with_points(old: [u32; 37], i: usize, ps: [B2vec2; 8]) -> [u32; 37]
    requires { i + 16 ≤ 37 }
    ensures { (take (i + 16) result ≡ take i old ++ points_words ps) × (length result ≡ 37) }
{
    let mut all = old;
    for (k, p) in ps.iter().enumerate() {
        all[i + 2 * k] = bits::f32_to_bits(p.x);
        all[i + 2 * k + 1] = bits::f32_to_bits(p.y);
    }
    all
}

// The refusal and the outline.
pub fn put_polygon(out: &mut [u8], answer: Answered<B2polygonShape>) -> u32
    ensures { Written (answer.refusal ∷ polygon_words answer.after) out.old result out.new }
{
    let s = answer.after;
    let mut head = [0u32; 37];
    head[0] = u32::from(answer.refusal);
    head[1] = bits::f32_to_bits(s.m_radius);
    head[2] = bits::f32_to_bits(s.m_centroid.x);
    head[3] = bits::f32_to_bits(s.m_centroid.y);
    head[4] = low_word(s.m_count);
    let vertices = s.m_vertices;
    let normals = s.m_normals;
    let half = with_points(head, 5, vertices);
    let whole = with_points(half, 21, normals);
    words::put_words(out, &whole)
}

// The refusal and the wall.
pub fn put_edge(out: &mut [u8], answer: Answered<B2edgeShape>) -> u32
    ensures { Written (answer.refusal ∷ edge_words answer.after) out.old result out.new }
{
    let s = answer.after;
    let whole = [
        u32::from(answer.refusal),
        bits::f32_to_bits(s.m_radius),
        u32::from(s.m_one_sided),
        bits::f32_to_bits(s.m_vertex0.x),
        bits::f32_to_bits(s.m_vertex0.y),
        bits::f32_to_bits(s.m_vertex1.x),
        bits::f32_to_bits(s.m_vertex1.y),
        bits::f32_to_bits(s.m_vertex2.x),
        bits::f32_to_bits(s.m_vertex2.y),
        bits::f32_to_bits(s.m_vertex3.x),
        bits::f32_to_bits(s.m_vertex3.y),
    ];
    words::put_words(out, &whole)
}

// Answers of the contact calls, as words: the refusal, and the manifold, the clip points, the world manifold or the
// point states after the call.
ghost use Rattle.std.specs.Prelude.{◌≡◌};
ghost use Rattle.wire.specs.Words.{Written};
ghost use Rattle.wire.specs.ContactAnswers.{id_word, manifold_answer_words};
ghost use Rattle.wire.specs.ContactAnswers.{clip_answer_words, world_answer_words, states_answer_words};

use crate::answers::{self, Answered};
use crate::words;
use contact_definitions::b2_collision::{
    B2contactId, B2manifold, B2worldManifold, Clip, PointStates,
};
use floats::bits;

fn id_word(id: B2contactId) -> u32
    ensures { result ≡ id_word id }
{
    let cf = id.cf;
    u32::from_be_bytes([cf.index_a, cf.index_b, cf.type_a, cf.type_b])
}

// The refusal and the manifold.
pub fn put_manifold(out: &mut [u8], answer: Answered<B2manifold>) -> u32
    ensures { Written (manifold_answer_words (record { manifold = answer.after; refusal = answer.refusal }))
        out.old result out.new }
{
    let m = answer.after;
    let count = m.point_count;
    let n = m.local_normal;
    let q = m.local_point;
    let first = m.points[0];
    let second = m.points[1];
    let id0 = first.id;
    let id1 = second.id;
    let whole = [
        u32::from(answer.refusal),
        u32::from(u8::from(m.manifold_type)),
        answers::low_word(count),
        bits::f32_to_bits(n.x),
        bits::f32_to_bits(n.y),
        bits::f32_to_bits(q.x),
        bits::f32_to_bits(q.y),
        bits::f32_to_bits(first.local_point.x),
        bits::f32_to_bits(first.local_point.y),
        bits::f32_to_bits(first.normal_impulse),
        bits::f32_to_bits(first.tangent_impulse),
        id_word(id0),
        bits::f32_to_bits(second.local_point.x),
        bits::f32_to_bits(second.local_point.y),
        bits::f32_to_bits(second.normal_impulse),
        bits::f32_to_bits(second.tangent_impulse),
        id_word(id1),
    ];
    words::put_words(out, &whole)
}

// The refusal, the number of points, and both output places.
pub fn put_clip(out: &mut [u8], answer: Answered<Clip>) -> u32
    ensures { let left = answer.after in
        Written (clip_answer_words (record { points = left.out; count = left.count; refusal = answer.refusal }))
        out.old result out.new }
{
    let left = answer.after;
    let count = left.count;
    let first = left.out[0];
    let second = left.out[1];
    let id0 = first.id;
    let id1 = second.id;
    let whole = [
        u32::from(answer.refusal),
        answers::low_word(count),
        bits::f32_to_bits(first.v.x),
        bits::f32_to_bits(first.v.y),
        id_word(id0),
        bits::f32_to_bits(second.v.x),
        bits::f32_to_bits(second.v.y),
        id_word(id1),
    ];
    words::put_words(out, &whole)
}

// The refusal and the world manifold.
pub fn put_world(out: &mut [u8], answer: Answered<B2worldManifold>) -> u32
    ensures { Written (world_answer_words (record { world = answer.after; refusal = answer.refusal }))
        out.old result out.new }
{
    let w = answer.after;
    let n = w.normal;
    let p0 = w.points[0];
    let p1 = w.points[1];
    let s0 = w.separations[0];
    let s1 = w.separations[1];
    let whole = [
        u32::from(answer.refusal),
        bits::f32_to_bits(n.x),
        bits::f32_to_bits(n.y),
        bits::f32_to_bits(p0.x),
        bits::f32_to_bits(p0.y),
        bits::f32_to_bits(p1.x),
        bits::f32_to_bits(p1.y),
        bits::f32_to_bits(s0),
        bits::f32_to_bits(s1),
    ];
    words::put_words(out, &whole)
}

// The refusal and the four states.
pub fn put_states(out: &mut [u8], answer: Answered<PointStates>) -> u32
    ensures { Written (states_answer_words (record { states = answer.after; refusal = answer.refusal }))
        out.old result out.new }
{
    let s = answer.after;
    let whole = [
        u32::from(answer.refusal),
        u32::from(u8::from(s.old0)),
        u32::from(u8::from(s.old1)),
        u32::from(u8::from(s.new0)),
        u32::from(u8::from(s.new1)),
    ];
    words::put_words(out, &whole)
}

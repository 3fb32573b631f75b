// Point states and clipping as calls (Box2D's b2_collision.cpp): 7 for a count above 2, 9 for a number out of range.
// Its world points stand in b2_world_manifold.
ghost use Rattle.std.specs.Prelude.{◌≡◌, cond};
ghost use Rattle.contact_definitions.specs.Answers.{clip_answered, states_answered};
ghost use Rattle.contact_definitions.specs.PointStates.{same_id, id_among, ids_of, ids_in, states_of_ids};
ghost use Rattle.contact_definitions.specs.PointStates.{b2_get_point_states};
ghost use Rattle.contact_definitions.specs.declared.b2_collision.B2pointState.TheVariants.{B2NullState, B2PersistState};
ghost use Rattle.contact_definitions.specs.Clip.{clip_in_range, b2_clip_segment_to_line};

use crate::clip;
use contact_definitions::b2_collision::{
    B2clipVertex, B2contactId, B2manifold, B2pointState, Clip, CountedIds, PointStates,
};
use floats::b2_common::B2_MAX_MANIFOLD_POINTS;
use floats::b2_math::B2vec2;
use floats::ranges;
use shape_definitions::refusal::Refusal;

// Whether two ids are one: all four numbers.
pub fn same_id(a: B2contactId, b: B2contactId) -> bool
    ensures { result ≡ same_id a b }
{
    a == b
}

fn id_among(id: B2contactId, others: CountedIds) -> bool
    ensures { result ≡ id_among id (ids_in others) }
{
    let count = others.count;
    if count == 0 {
        return false;
    }
    let first = same_id(others.first, id);
    if count == 1 {
        return first;
    }
    let second = same_id(others.second, id);
    first | second
}

// The state of a point with this id: null where it isn't counted, and alone where the others have none of its id.
fn state_of(alone: B2pointState, counted: bool, id: B2contactId, others: CountedIds) -> B2pointState
    ensures { result ≡ cond counted (cond (id_among id (ids_in others)) B2PersistState alone) B2NullState }
{
    if !counted {
        return B2pointState::B2NullState;
    }
    if id_among(id, others) {
        return B2pointState::B2PersistState;
    }
    alone
}

// The states of the points of an old and of a new manifold, of which only the ids are kept.
pub fn states_of_ids(old: CountedIds, new: CountedIds) -> PointStates
    ensures { result ≡ states_of_ids (ids_in old) (ids_in new) }
{
    let old0 = state_of(B2pointState::B2RemoveState, old.count > 0, old.first, new);
    let old1 = state_of(B2pointState::B2RemoveState, old.count > 1, old.second, new);
    let new0 = state_of(B2pointState::B2AddState, new.count > 0, new.first, old);
    let new1 = state_of(B2pointState::B2AddState, new.count > 1, new.second, old);
    PointStates {
        old0,
        old1,
        new0,
        new1,
    }
}

// The ids of the points that a manifold counts.
pub fn counted_ids(m: B2manifold) -> CountedIds
    ensures { result ≡ ids_of m }
{
    let p0 = m.points[0];
    let p1 = m.points[1];
    let first = p0.id;
    let second = p1.id;
    CountedIds {
        count: (m.point_count % 256) as u8,
        first,
        second,
    }
}

// The states of both manifolds' points. given is what the caller has where it is refused: only the contract speaks
// of it.
pub fn b2_get_point_states(
    given: PointStates,
    manifold1: B2manifold,
    manifold2: B2manifold,
) -> Result<PointStates, Refusal>
    ensures { states_answered given result ≡ b2_get_point_states given manifold1 manifold2 }
{
    let count1 = manifold1.point_count;
    let count2 = manifold2.point_count;
    if count1 > B2_MAX_MANIFOLD_POINTS {
        return Err(Refusal::CountOutOfRange);
    }
    if count2 > B2_MAX_MANIFOLD_POINTS {
        return Err(Refusal::CountOutOfRange);
    }
    Ok(states_of_ids(counted_ids(manifold1), counted_ids(manifold2)))
}

fn clip_in_range(ends: [B2clipVertex; 2], normal: B2vec2, offset: f32) -> bool
    ensures { result ≡ clip_in_range ends normal offset }
{
    let a = ends[0];
    let b = ends[1];
    let a_in = ranges::contact_point_in_range(a.v);
    let b_in = ranges::contact_point_in_range(b.v);
    let normal_in = ranges::contact_point_in_range(normal);
    let offset_in = ranges::contact_number_in_range(offset);
    a_in & (b_in & (normal_in & offset_in))
}

// What is left of a segment behind a line, over the places of old; index names the line's vertex in a new point's id.
pub fn b2_clip_segment_to_line(
    old: [B2clipVertex; 2],
    ends: [B2clipVertex; 2],
    normal: B2vec2,
    offset: f32,
    index: usize,
) -> Result<Clip, Refusal>
    ensures { clip_answered old result ≡ b2_clip_segment_to_line old ends normal offset index }
{
    if clip_in_range(ends, normal, offset) {
        return Ok(clip::clip_ends(old, ends, normal, offset, index));
    }
    Err(Refusal::ContactOutOfRange)
}

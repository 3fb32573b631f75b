// What contact requests hold: circles, placements, manifolds, clip vertices, world manifolds and point states.
ghost use Rattle.std.specs.Prelude.{◌≡◌, ◌+◌, ◌*◌, ◌≤◌, length, cond};
ghost use Rattle.wire.specs.ContactRecords.{circle_at, transform_at, id_at, manifold_point_at};
ghost use Rattle.wire.specs.ContactRecords.{kind_of, manifold_at, kind_known};
ghost use Rattle.wire.specs.ContactRecords.{clip_vertex_at, clip_vertices_at, world_manifold_at};
ghost use Rattle.wire.specs.ContactRecords.{state_of, states_at, state_known, states_known};

use crate::{records, words};
use contact_definitions::b2_collision::{
    B2clipVertex, B2contactFeature, B2contactId, B2manifold, B2manifoldPoint, B2manifoldType,
    B2pointState, B2worldManifold, PointStates,
};
use floats::b2_math::B2Transform;
use lines::fields;
use shape_definitions::b2_circle_shape::B2circleShape;

pub fn circle(input: &[u8], i: usize) -> B2circleShape
    requires { 4 * i + 12 ≤ length input.now }
    ensures { result ≡ circle_at input.now i }
{
    let m_radius = records::float(input, i);
    let m_p = records::vector(input, i + 1);
    B2circleShape { m_radius, m_p }
}

pub fn transform(input: &[u8], i: usize) -> B2Transform
    requires { 4 * i + 16 ≤ length input.now }
    ensures { result ≡ transform_at input.now i }
{
    fields::placement(input, 4 * i)
}

// The four bytes of a word.
fn id(input: &[u8], i: usize) -> B2contactId
    requires { 4 * i + 4 ≤ length input.now }
    ensures { result ≡ id_at input.now i }
{
    let at = 4 * i;
    let index_a = input[at];
    let index_b = input[at + 1];
    let type_a = input[at + 2];
    let type_b = input[at + 3];
    B2contactId {
        cf: B2contactFeature {
            index_a,
            index_b,
            type_a,
            type_b,
        },
    }
}

// ---- manifolds: the age of a point is none of the Rust's fields and has no word, so it is 0
fn manifold_point(input: &[u8], i: usize) -> B2manifoldPoint
    requires { 4 * i + 20 ≤ length input.now }
    ensures { result ≡ manifold_point_at input.now i }
{
    let local_point = records::vector(input, i);
    let normal_impulse = records::float(input, i + 2);
    let tangent_impulse = records::float(input, i + 3);
    let id = id(input, i + 4);
    B2manifoldPoint {
        local_point,
        normal_impulse,
        tangent_impulse,
        id,
        age: 0,
    }
}

// The last kind, where the word is none: `known_manifold` turns such a word away, and `known_states` a state's.
fn kind(w: u32) -> B2manifoldType
    ensures { result ≡ kind_of w }
{
    B2manifoldType::try_from(w).unwrap_or(B2manifoldType::EFaceB)
}

pub fn manifold(input: &[u8], i: usize) -> B2manifold
    requires { 4 * i + 64 ≤ length input.now }
    ensures { result ≡ manifold_at input.now i }
{
    let manifold_type = kind(words::word(input, i));
    let point_count = words::word(input, i + 1) as usize;
    let local_normal = records::vector(input, i + 2);
    let local_point = records::vector(input, i + 4);
    let first = manifold_point(input, i + 6);
    let second = manifold_point(input, i + 11);
    let points = [first, second];
    B2manifold {
        points,
        local_normal,
        local_point,
        manifold_type,
        point_count,
    }
}

// Whether the word of a manifold's kind is one.
pub fn kind_known(input: &[u8], i: usize) -> bool
    requires { 4 * i + 4 ≤ length input.now }
    ensures { result ≡ kind_known input.now i }
{
    B2manifoldType::try_from(words::word(input, i)).is_ok()
}

// The manifold, where the word of its kind is one.
pub fn known_manifold(input: &[u8], i: usize) -> Option<B2manifold>
    requires { 4 * i + 64 ≤ length input.now }
    ensures { result ≡ cond (kind_known input.now i) (Some (manifold_at input.now i)) None }
{
    if kind_known(input, i) {
        Some(manifold(input, i))
    } else {
        None
    }
}

// ---- clip vertices
fn clip_vertex(input: &[u8], i: usize) -> B2clipVertex
    requires { 4 * i + 12 ≤ length input.now }
    ensures { result ≡ clip_vertex_at input.now i }
{
    let v = records::vector(input, i);
    let id = id(input, i + 2);
    B2clipVertex { v, id }
}

pub fn clip_vertices(input: &[u8], i: usize) -> [B2clipVertex; 2]
    requires { 4 * i + 24 ≤ length input.now }
    ensures { result ≡ clip_vertices_at input.now i }
{
    let first = clip_vertex(input, i);
    let second = clip_vertex(input, i + 3);
    [first, second]
}

// ---- world manifolds
pub fn world_manifold(input: &[u8], i: usize) -> B2worldManifold
    requires { 4 * i + 32 ≤ length input.now }
    ensures { result ≡ world_manifold_at input.now i }
{
    let normal = records::vector(input, i);
    let p0 = records::vector(input, i + 2);
    let p1 = records::vector(input, i + 4);
    let s0 = records::float(input, i + 6);
    let s1 = records::float(input, i + 7);
    let points = [p0, p1];
    let separations = [s0, s1];
    B2worldManifold {
        normal,
        points,
        separations,
    }
}

// ---- point states
fn state(w: u32) -> B2pointState
    ensures { result ≡ state_of w }
{
    B2pointState::try_from(w).unwrap_or(B2pointState::B2RemoveState)
}

pub fn states(input: &[u8], i: usize) -> PointStates
    requires { 4 * i + 16 ≤ length input.now }
    ensures { result ≡ states_at input.now i }
{
    let old0 = state(words::word(input, i));
    let old1 = state(words::word(input, i + 1));
    let new0 = state(words::word(input, i + 2));
    let new1 = state(words::word(input, i + 3));
    PointStates {
        old0,
        old1,
        new0,
        new1,
    }
}

fn state_known(input: &[u8], i: usize) -> bool
    requires { 4 * i + 4 ≤ length input.now }
    ensures { result ≡ state_known input.now i }
{
    B2pointState::try_from(words::word(input, i)).is_ok()
}

// Whether each of four words is a state.
pub fn states_known(input: &[u8], i: usize) -> bool
    requires { 4 * i + 16 ≤ length input.now }
    ensures { result ≡ states_known input.now i }
{
    let old0 = state_known(input, i);
    let old1 = state_known(input, i + 1);
    let new0 = state_known(input, i + 2);
    let new1 = state_known(input, i + 3);
    old0 & old1 & new0 & new1
}

// The four states, where each word is one.
pub fn known_states(input: &[u8], i: usize) -> Option<PointStates>
    requires { 4 * i + 16 ≤ length input.now }
    ensures { result ≡ cond (states_known input.now i) (Some (states_at input.now i)) None }
{
    if states_known(input, i) {
        Some(states(input, i))
    } else {
        None
    }
}

// The contact calls of two shapes. A request is a manifold, shape A, its placement, shape B, its placement; the answer
// is the refusal and the manifold.
ghost use Rattle.std.specs.Prelude.{◌≡◌, ◌+◌, ◌*◌, ◌≤◌, ℕ, Bool, true, List, length, cond};
ghost use Rattle.std.proofs.Common.{lit≤};
ghost use Rattle.wire.specs.Words.{Written};
ghost use Rattle.wire.specs.Records.{polygon_at, edge_at, edge_known};
ghost use Rattle.wire.specs.ContactRecords.{circle_at};
ghost use Rattle.test_entries.specs.Pairs.{circles_answer, polygon_and_circle_answer, polygons_answer};
ghost use Rattle.test_entries.specs.Pairs.{edge_and_circle_answer, edge_and_polygon_answer, pair_at};

use contact_definitions::b2_collision::B2manifold;
use contacts::{b2_collide_circle, b2_collide_edge, b2_collide_polygon};
use floats::b2_math::B2Transform;
use shape_definitions::b2_circle_shape::B2circleShape;
use shape_definitions::b2_edge_shape::B2edgeShape;
use shape_definitions::b2_polygon_shape::B2polygonShape;
use wire::answers::Answered;
use wire::{contact_answers, contact_records, records};

// A shape in a request, read at a word: the wall, only where the word of its flag is one.
trait Shape: Copy {
    ghost WORDS: { ℕ };

    const WORDS: usize;

    ghost known: { List ℕ → ℕ → Bool };

    ghost at: { List ℕ → ℕ → Self };

    fn read(input: &[u8], i: usize) -> Option<Self>
        requires { 4 * (i + WORDS) ≤ length input.now }
        ensures { result ≡ cond (known input.now i) (Some (at input.now i)) None };

    ghost few: { WORDS ≤ 36 };
}

impl Shape for B2circleShape {
    ghost WORDS = { 3 };

    const WORDS: usize = 3;

    ghost known = { λ input i. true };

    ghost at = { circle_at };

    fn read(input: &[u8], i: usize) -> Option<Self> {
        Some(contact_records::circle(input, i))
    }

    ghost few = { lit≤ tt };
}

impl Shape for B2polygonShape {
    ghost WORDS = { 36 };

    const WORDS: usize = 36;

    ghost known = { λ input i. true };

    ghost at = { polygon_at };

    fn read(input: &[u8], i: usize) -> Option<Self> {
        Some(records::polygon(input, i))
    }

    ghost few = { lit≤ tt };
}

impl Shape for B2edgeShape {
    ghost WORDS = { 10 };

    const WORDS: usize = 10;

    ghost known = { edge_known };

    ghost at = { edge_at };

    fn read(input: &[u8], i: usize) -> Option<Self> {
        records::known_edge(input, i)
    }

    ghost few = { lit≤ tt };
}

// What a request holds.
#[derive(Clone, Copy)]
struct Pair<A, B> {
    old: B2manifold,
    a: A,
    xfa: B2Transform,
    b: B,
    xfb: B2Transform,
}

#[tactic(auto, unfolding(crate::specs::Pairs::pair_at))]
fn read_pair<A: Shape, B: Shape>(input: &[u8]) -> Option<Pair<A, B>>
    ensures { result ≡ pair_at A.WORDS A.known A.at B.WORDS B.known B.at input.now }
{
    if input.len() != 4 * (25 + A::WORDS + B::WORDS) {
        return None;
    }
    let old = contact_records::known_manifold(input, 1)?;
    let a = A::read(input, 17)?;
    let xfa = contact_records::transform(input, 17 + A::WORDS);
    let b = B::read(input, 21 + A::WORDS)?;
    let xfb = contact_records::transform(input, 21 + A::WORDS + B::WORDS);
    Some(Pair {
        old,
        a,
        xfa,
        b,
        xfb,
    })
}

// 7, a manifold, circle A, placement A, circle B, placement B.
pub fn circles(input: &[u8], out: &mut [u8]) -> u32
    ensures { Written (circles_answer input.now) out.old result out.new }
{
    let Some(p) = read_pair::<B2circleShape, B2circleShape>(input) else {
        return 0;
    };
    let answer = b2_collide_circle::b2_collide_circles(p.old, p.a, p.xfa, p.b, p.xfb);
    contact_answers::put_manifold(out, Answered::of(p.old, answer))
}

// 8, a manifold, an outline A, placement A, a circle B, placement B.
pub fn polygon_and_circle(input: &[u8], out: &mut [u8]) -> u32
    ensures { Written (polygon_and_circle_answer input.now) out.old result out.new }
{
    let Some(p) = read_pair::<B2polygonShape, B2circleShape>(input) else {
        return 0;
    };
    let answer = b2_collide_circle::b2_collide_polygon_and_circle(p.old, p.a, p.xfa, p.b, p.xfb);
    contact_answers::put_manifold(out, Answered::of(p.old, answer))
}

// 9, a manifold, outline A, placement A, outline B, placement B.
pub fn polygons(input: &[u8], out: &mut [u8]) -> u32
    ensures { Written (polygons_answer input.now) out.old result out.new }
{
    let Some(p) = read_pair::<B2polygonShape, B2polygonShape>(input) else {
        return 0;
    };
    let answer = b2_collide_polygon::b2_collide_polygons(p.old, p.a, p.xfa, p.b, p.xfb);
    contact_answers::put_manifold(out, Answered::of(p.old, answer))
}

// 10, a manifold, a wall A, placement A, a circle B, placement B.
pub fn edge_and_circle(input: &[u8], out: &mut [u8]) -> u32
    ensures { Written (edge_and_circle_answer input.now) out.old result out.new }
{
    let Some(p) = read_pair::<B2edgeShape, B2circleShape>(input) else {
        return 0;
    };
    let answer = b2_collide_edge::b2_collide_edge_and_circle(p.old, p.a, p.xfa, p.b, p.xfb);
    contact_answers::put_manifold(out, Answered::of(p.old, answer))
}

// 11, a manifold, a wall A, placement A, an outline B, placement B.
pub fn edge_and_polygon(input: &[u8], out: &mut [u8]) -> u32
    ensures { Written (edge_and_polygon_answer input.now) out.old result out.new }
{
    let Some(p) = read_pair::<B2edgeShape, B2polygonShape>(input) else {
        return 0;
    };
    let answer = b2_collide_edge::b2_collide_edge_and_polygon(p.old, p.a, p.xfa, p.b, p.xfb);
    contact_answers::put_manifold(out, Answered::of(p.old, answer))
}

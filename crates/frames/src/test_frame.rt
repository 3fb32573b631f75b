// Frame 05 of a body that is no chain: contact, world points, point states, ages and touches.
ghost use Rattle.std.specs.Prelude.{◌≡◌};
ghost use Rattle.shape_definitions.specs.Refusal.{refusal_number};
ghost use Rattle.contact_definitions.specs.Answers.{world_answered};
ghost use Rattle.contact_definitions.specs.Manifold.{manifold_accepted};
ghost use Rattle.contact_definitions.specs.WorldManifold.{default_world_manifold, world_accepted};
ghost use Rattle.record_definitions.specs.World.{chain_kind};
ghost use Rattle.record_definitions.specs.Touch as results;
ghost use Rattle.record_definitions.specs.Frame as definitions;
ghost use Rattle.frames.specs.Made.{of_test, MadeAs, AnsweredAs};

use crate::changes::TestMade;
use crate::{ages, listed_pairs, test_result};
use contact_definitions::b2_collision::{B2manifold, B2worldManifold};
use contacts::b2_collision;
use floats::b2_math::B2vec2;
use record_definitions::touch::Touch;
use record_definitions::world::{Body, CIRCLE, Kept, NO_BODY, OUTLINE, Pair};
use shape_definitions::refusal::Refusal;

// The world points where there is no point.
fn default_world_manifold() -> B2worldManifold
    ensures { result ≡ default_world_manifold }
{
    let origin = B2vec2 { x: 0.0, y: 0.0 };
    let points = [origin; 2];
    B2worldManifold {
        normal: origin,
        points,
        separations: [0.0; 2],
    }
}

// The radius of a body's shape.
fn skin(body: Body) -> f32
    ensures { result ≡ results.skin body }
{
    let kind = body.kind;
    if kind == CIRCLE {
        let circle = body.circle;
        return circle.m_radius;
    }
    if kind == OUTLINE {
        let outline = body.outline;
        return outline.m_radius;
    }
    let wall = body.wall;
    wall.m_radius
}

// The world points of a contact, with the skins of both bodies.
fn world_points_of(a: Body, b: Body, m: B2manifold) -> Result<B2worldManifold, Refusal>
    ensures { world_answered default_world_manifold result ≡ results.world_points a b m }
{
    let old = default_world_manifold();
    let xfa = a.xf;
    let xfb = b.xf;
    let skin_a = skin(a);
    let skin_b = skin(b);
    b2_collision::b2_world_manifold_initialize_core(old, m, xfa, skin_a, xfb, skin_b)
}

// What the test of a piece makes: its result, and what is kept of it.
#[derive(Clone, Copy)]
pub struct PieceMade {
    pub touch: Touch,
    pub kept: Kept,
}

// Why the test of a piece is refused, and what it makes all the same.
#[derive(Clone, Copy)]
pub struct PieceRefused {
    pub why: Refusal,
    pub made: PieceMade,
}

impl From<PieceRefused> for Refusal {
    ghost from_gives = { λ piece why. why ≡ piece.why };

    fn from(refused: PieceRefused) -> Refusal {
        refused.why
    }
}

// What a contact and its world points make: states, ages and touches, against what was kept. Inlined, as `refused` is:
// a call would copy the manifold, and an accepted test would cost more.
#[inline(always)]
fn made_of(ida: u8, idb: u8, kept: Kept, m: B2manifold, w: B2worldManifold) -> PieceMade
    ensures { MadeAs result (results.tested_as ida idb kept (manifold_accepted m) (world_accepted w)) }
{
    let old = kept.ids;
    let new = b2_collision::counted_ids(m);
    let states = b2_collision::states_of_ids(old, new);
    let ages = ages::ages_of(kept, new);
    let touches = test_result::touches_after(kept.touches, old.count, m.point_count);
    PieceMade {
        touch: test_result::touch_of(ida, idb, ages::with_ages(m, ages), states, touches, w),
        kept: Kept {
            ids: new,
            ages,
            touches,
        },
    }
}

// A refused test, with what the contact makes where it has no world points.
#[inline(always)]
fn refused(ida: u8, idb: u8, kept: Kept, m: B2manifold, why: Refusal) -> PieceRefused
    ensures why { result.why ≡ why }
    ensures made { MadeAs result.made
        (results.tested_as ida idb kept (manifold_accepted m) (world_accepted default_world_manifold)) }
{
    let made = made_of(ida, idb, kept, m, default_world_manifold());
    PieceRefused { why, made }
}

// The test of bodies a and b under the ids that the frame gives: refused by the contact, then by its world points.
pub fn tested(ida: u8, idb: u8, a: Body, b: Body, kept: Kept) -> Result<PieceMade, PieceRefused>
    ensures { AnsweredAs result (results.tested ida idb a b kept) }
{
    let m = match listed_pairs::meet(a, b) {
        Ok(m) => m,
        Err(why) => return Err(refused(ida, idb, kept, listed_pairs::default_manifold(), why)),
    };
    let w = match world_points_of(a, b, m) {
        Ok(w) => w,
        Err(why) => return Err(refused(ida, idb, kept, m, why)),
    };
    Ok(made_of(ida, idb, kept, m, w))
}

// A body without a shape, then the pair.
pub fn check_test(ida: u8, idb: u8, kinda: u8, kindb: u8) -> Result<(), Refusal>
    ensures { refusal_number result ≡ definitions.test_refusal ida idb kinda kindb }
{
    let none_a = kinda == NO_BODY;
    let none_b = kindb == NO_BODY;
    if none_a | none_b {
        return Err(Refusal::NoShape);
    }
    let same = ida == idb;
    let fits = listed_pairs::listed(kinda, kindb);
    if same | !fits {
        return Err(Refusal::PairNotListed);
    }
    Ok(())
}

// 05 a b, where a is no chain, its own only piece. Nothing changes where the test is refused.
pub fn test_frame(ida: u8, idb: u8, a: Body, b: Body, pair: Pair) -> Result<TestMade, Refusal>
    requires { a.kind ≡ chain_kind → ⊥ }
    ensures { of_test result a pair ≡ definitions.test_change ida idb a b pair }
{
    check_test(ida, idb, a.kind, b.kind)?;
    let old = pair.pieces;
    let made = tested(ida, idb, a, b, old[0])?;
    let touch = made.touch;
    let mut pieces = old;
    pieces[0] = made.kept;
    Ok(TestMade {
        touch,
        pair: Pair { pieces },
    })
}

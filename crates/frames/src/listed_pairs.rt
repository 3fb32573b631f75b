// The pairs of bodies that are tested, and the contact of each, from a default manifold.
ghost use Rattle.std.specs.Prelude.{◌≡◌};
ghost use Rattle.contact_definitions.specs.Answers.{manifold_answered};
ghost use Rattle.contact_definitions.specs.Manifold as manifolds;
ghost use Rattle.record_definitions.specs.Touch as results;
ghost use Rattle.record_definitions.specs.Frame as definitions;

use crate::world;
use contact_definitions::b2_collision::{B2manifold, B2manifoldPoint, B2manifoldType};
use contacts::{b2_collide_circle, b2_collide_edge, b2_collide_polygon};
use floats::b2_math::B2vec2;
use record_definitions::world::{Body, CHAIN, CIRCLE, OUTLINE, WALL};
use shape_definitions::refusal::Refusal;

// The kinds that are tested: circle-circle, outline-circle, outline-outline, wall-circle, wall-outline, and a chain
// where a wall is.
pub fn listed(a: u8, b: u8) -> bool
    ensures { result ≡ definitions.listed a b }
{
    let circles = (a == CIRCLE) & (b == CIRCLE);
    let outline_circle = (a == OUTLINE) & (b == CIRCLE);
    let outlines = (a == OUTLINE) & (b == OUTLINE);
    let wall_circle = (a == WALL) & (b == CIRCLE);
    let wall_outline = (a == WALL) & (b == OUTLINE);
    let chain_circle = (a == CHAIN) & (b == CIRCLE);
    let chain_outline = (a == CHAIN) & (b == OUTLINE);
    circles | outline_circle | outlines | wall_circle | wall_outline | chain_circle | chain_outline
}

// Each test starts from this one.
pub(crate) fn default_manifold() -> B2manifold
    ensures { result ≡ manifolds.default_manifold }
{
    let origin = B2vec2 { x: 0.0, y: 0.0 };
    let point = B2manifoldPoint {
        local_point: origin,
        normal_impulse: 0.0,
        tangent_impulse: 0.0,
        id: world::default_id(),
        age: 0,
    };
    let points = [point; 2];
    B2manifold {
        points,
        local_normal: origin,
        local_point: origin,
        manifold_type: B2manifoldType::ECircles,
        point_count: 0,
    }
}

// Any body against a circle.
fn meet_circle(a: Body, b: Body) -> Result<B2manifold, Refusal>
    ensures { manifold_answered manifolds.default_manifold result ≡ results.meet_circle a b }
{
    let m = default_manifold();
    let kind = a.kind;
    let xfa = a.xf;
    let xfb = b.xf;
    let circle = b.circle;
    if kind == CIRCLE {
        let other = a.circle;
        return b2_collide_circle::b2_collide_circles(m, other, xfa, circle, xfb);
    }
    if kind == OUTLINE {
        let outline = a.outline;
        return b2_collide_circle::b2_collide_polygon_and_circle(m, outline, xfa, circle, xfb);
    }
    let wall = a.wall;
    b2_collide_edge::b2_collide_edge_and_circle(m, wall, xfa, circle, xfb)
}

// An outline or a wall against an outline.
fn meet_outline(a: Body, b: Body) -> Result<B2manifold, Refusal>
    ensures { manifold_answered manifolds.default_manifold result ≡ results.meet_outline a b }
{
    let m = default_manifold();
    let kind = a.kind;
    let xfa = a.xf;
    let xfb = b.xf;
    let outline = b.outline;
    if kind == OUTLINE {
        let other = a.outline;
        return b2_collide_polygon::b2_collide_polygons(m, other, xfa, outline, xfb);
    }
    let wall = a.wall;
    b2_collide_edge::b2_collide_edge_and_polygon(m, wall, xfa, outline, xfb)
}

// Any listed pair.
pub fn meet(a: Body, b: Body) -> Result<B2manifold, Refusal>
    ensures { manifold_answered manifolds.default_manifold result ≡ results.meet a b }
{
    let kind = b.kind;
    if kind == CIRCLE {
        return meet_circle(a, b);
    }
    meet_outline(a, b)
}

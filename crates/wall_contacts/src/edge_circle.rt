// Wall against circle, in the wall's frame: by regions, end 1, end 2, the middle. The manifold is touched in one
// place, once it is known how they touch.
ghost use Rattle.std.specs.Prelude.{◌≡◌, cond, ◌&&◌};
ghost use Rattle.std.specs.Float.Ieee.{lt};
ghost use Rattle.rounding.specs.Literals.{zero32};
ghost use Rattle.floats.specs.B2Math.{b2_neg, b2_dot};
ghost use Rattle.contact_definitions.specs.Answers.{manifold_answered};
ghost use Rattle.contact_definitions.specs.B2CollideEdge.{over_before, over_after, edge_circle_answer};
ghost use Rattle.wall_contacts.specs.EdgeCircle.{end_touch, face_touch, touch_answer};

use collision::manifolds;
use collision::reach::farther_than;
use contact_definitions::b2_collision::{B2contactFeatureType, B2manifold, B2manifoldType};
use floats::b2_math::B2vec2;
use floats::{b2_math, unit};
use shape_definitions::b2_edge_shape::B2edgeShape;
use shape_definitions::refusal::Refusal;

// How a circle meets a wall: not, at the end of an index with its place, along the face with its normal, or over the
// middle of a wall whose squared length is not above 0 (refusal 8).
#[derive(Clone, Copy)]
pub enum Touch {
    Nothing,
    End(u8, f32, f32),
    Face(f32, f32),
    Flat,
}

// At the end p of the wall.
fn end_touch(p: B2vec2, q: B2vec2, radius: f32, index_a: u8) -> Touch
    ensures { result ≡ end_touch p q radius index_a }
{
    if farther_than(radius, q, p) {
        return Touch::Nothing;
    }
    Touch::End(index_a, p.x, p.y)
}

// The normal on the side of the circle.
fn facing(n: B2vec2, offset: f32) -> B2vec2
    ensures { result ≡ cond (lt offset zero32) (b2_neg n) n }
{
    if offset < 0.0 { b2_math::b2_neg(n) } else { n }
}

// Over the middle of the wall from a along e to b; u and v are the weights of a and b.
fn face_touch(
    a: B2vec2,
    b: B2vec2,
    q: B2vec2,
    e: B2vec2,
    u: f32,
    v: f32,
    n: B2vec2,
    offset: f32,
    radius: f32,
) -> Touch
    ensures { result ≡ face_touch a b q e u v n offset radius }
{
    let den = b2_math::b2_dot(e, e);
    if den > 0.0 {
        let p = b2_math::b2_scale(
            1.0 / den,
            b2_math::b2_add(b2_math::b2_scale(u, a), b2_math::b2_scale(v, b)),
        );
        if farther_than(radius, q, p) {
            return Touch::Nothing;
        }
        let normal = unit::unit(facing(n, offset));
        return Touch::Face(normal.x, normal.y);
    }
    Touch::Flat
}

// Whether the circle is over the wall before vertex 1 of a one-sided wall.
fn over_before(edge: B2edgeShape, q: B2vec2) -> bool
    ensures { result ≡ over_before edge q }
{
    if edge.m_one_sided {
        let a = edge.m_vertex1;
        return b2_math::b2_dot(b2_math::b2_sub(a, edge.m_vertex0), b2_math::b2_sub(a, q)) > 0.0;
    }
    false
}

// Whether it is over the wall after vertex 2. Its differences are taken the other way round, so that one function for
// both ends would take four points and say less.
fn over_after(edge: B2edgeShape, q: B2vec2) -> bool
    ensures { result ≡ over_after edge q }
{
    if edge.m_one_sided {
        let b = edge.m_vertex2;
        return b2_math::b2_dot(b2_math::b2_sub(edge.m_vertex3, b), b2_math::b2_sub(q, b)) > 0.0;
    }
    false
}

// Whether the circle is behind a one-sided wall with the normal n. Where the wall has two sides nothing is compared:
// which side a circle is on is not to be foreseen.
fn behind(edge: B2edgeShape, n: B2vec2, qa: B2vec2) -> bool
    ensures { result ≡ (edge.m_one_sided && lt (b2_dot n qa) zero32) }
{
    if edge.m_one_sided {
        return b2_math::b2_dot(n, qa) < 0.0;
    }
    false
}

// How the circle with the centre q meets the wall.
fn wall_touch(edge: B2edgeShape, q: B2vec2, radius: f32) -> Touch
    ensures { (old : B2manifold) (centre : B2vec2)
        → touch_answer result old edge centre ≡ edge_circle_answer old edge q radius centre }
{
    let a = B2vec2 {
        x: edge.m_vertex1.x,
        y: edge.m_vertex1.y,
    };
    let b = B2vec2 {
        x: edge.m_vertex2.x,
        y: edge.m_vertex2.y,
    };
    let e = b2_math::b2_sub(b, a);
    let n = B2vec2 { x: e.y, y: -e.x };
    let qa = b2_math::b2_sub(q, a);
    if behind(edge, n, qa) {
        return Touch::Nothing;
    }
    let u = b2_math::b2_dot(e, b2_math::b2_sub(b, q));
    let v = b2_math::b2_dot(e, qa);
    if v <= 0.0 {
        if over_before(edge, q) {
            return Touch::Nothing;
        }
        return end_touch(a, q, radius, 0);
    }
    if u <= 0.0 {
        if over_after(edge, q) {
            return Touch::Nothing;
        }
        return end_touch(b, q, radius, 1);
    }
    face_touch(a, b, q, e, u, v, n, b2_math::b2_dot(n, qa), radius)
}

// What the call answers: q is the circle's centre in the wall's frame, centre in its own.
pub fn edge_circle_answer(
    m: B2manifold,
    edge: B2edgeShape,
    q: B2vec2,
    radius: f32,
    centre: B2vec2,
) -> Result<B2manifold, Refusal>
    ensures { manifold_answered m result ≡ edge_circle_answer m edge q radius centre }
{
    match wall_touch(edge, q, radius) {
        Touch::Nothing => Ok(manifolds::no_points(m)),
        Touch::End(i, x, y) => {
            let none = B2vec2 { x: 0.0, y: 0.0 };
            let end = B2vec2 { x, y };
            Ok(manifolds::circle_point(
                m,
                B2manifoldType::ECircles,
                none,
                end,
                centre,
                i,
                B2contactFeatureType::EVertex,
            ))
        }
        Touch::Face(x, y) => {
            let normal = B2vec2 { x, y };
            let a = B2vec2 {
                x: edge.m_vertex1.x,
                y: edge.m_vertex1.y,
            };
            Ok(manifolds::circle_point(
                m,
                B2manifoldType::EFaceA,
                normal,
                a,
                centre,
                0,
                B2contactFeatureType::EFace,
            ))
        }
        Touch::Flat => Err(Refusal::WallTooShort),
    }
}

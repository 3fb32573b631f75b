// Circle against circle, and outline against circle (Box2D's b2_collide_circle.cpp).
ghost use Rattle.std.specs.Prelude.{◌≡◌, ◌≤◌, ◌<◌};
ghost use Rattle.contact_definitions.specs.Answers.{manifold_answered};
ghost use Rattle.contact_definitions.specs.B2CollideCircle.{circles_manifold, b2_collide_circles};
ghost use Rattle.contact_definitions.specs.B2CollideCircle.{b2_collide_polygon_and_circle};
ghost use Rattle.contact_definitions.specs.Manifold.{with_count};
ghost use Rattle.circle_contacts.specs.Meetings.{outline_circle};

use crate::outline_meeting;
use collision::{manifold_answer, manifolds, pair_ranges, reach};
use contact_definitions::b2_collision::{B2contactFeatureType, B2manifold, B2manifoldType};
use floats::b2_math;
use floats::b2_math::{B2Transform, B2vec2};
use shape_definitions::b2_circle_shape::B2circleShape;
use shape_definitions::b2_polygon_shape::B2polygonShape;
use shape_definitions::refusal::Refusal;

// The manifold of two circles, of the given one: at the centres, where they are not farther apart than both radii.
fn circles_manifold(
    m: B2manifold,
    a: B2circleShape,
    xfa: B2Transform,
    b: B2circleShape,
    xfb: B2Transform,
) -> B2manifold
    ensures { result ≡ circles_manifold (with_count m 0) a xfa b xfb }
{
    let pa = a.m_p;
    let pb = b.m_p;
    let radius = a.m_radius + b.m_radius;
    let at_a = b2_math::b2_mul_transform_by_vec2(xfa, pa);
    let at_b = b2_math::b2_mul_transform_by_vec2(xfb, pb);
    if reach::farther_than(radius, at_b, at_a) {
        return manifolds::no_points(m);
    }
    let zero = B2vec2 { x: 0.0, y: 0.0 };
    manifolds::circle_point(
        m,
        B2manifoldType::ECircles,
        zero,
        pa,
        pb,
        0,
        B2contactFeatureType::EVertex,
    )
}

pub fn b2_collide_circles(
    m: B2manifold,
    a: B2circleShape,
    xfa: B2Transform,
    b: B2circleShape,
    xfb: B2Transform,
) -> Result<B2manifold, Refusal>
    ensures { manifold_answered m result ≡ b2_collide_circles m a xfa b xfb }
{
    let shapes = pair_ranges::circles_in_range(a, b);
    let placed = pair_ranges::placements_in_range(xfa, xfb);
    if shapes & placed {
        return Ok(circles_manifold(m, a, xfa, b, xfb));
    }
    Err(manifold_answer::out_of_range(shapes))
}

// The manifold of an outline and a circle, of the given one: the circle's centre is taken to the outline's frame.
fn polygon_circle_manifold(
    m: B2manifold,
    a: B2polygonShape,
    xfa: B2Transform,
    b: B2circleShape,
    xfb: B2Transform,
) -> B2manifold
    requires { (2 < a.m_count) × (a.m_count ≤ 8) }
    ensures { result ≡ outline_circle m a xfa b xfb }
{
    let centre = b.m_p;
    let radius = a.m_radius + b.m_radius;
    let vs = a.m_vertices;
    let ns = a.m_normals;
    let count = a.m_count;
    let c = b2_math::b2_mul_t_transform_by_vec2(
        xfa,
        b2_math::b2_mul_transform_by_vec2(xfb, centre),
    );
    match outline_meeting::polygon_meeting(vs, ns, count, c, radius) {
        None => manifolds::no_points(m),
        Some(at) => {
            let normal = B2vec2 { x: at.nx, y: at.ny };
            let point = B2vec2 { x: at.x, y: at.y };
            manifolds::circle_point(
                m,
                B2manifoldType::EFaceA,
                normal,
                point,
                centre,
                0,
                B2contactFeatureType::EVertex,
            )
        }
    }
}

pub fn b2_collide_polygon_and_circle(
    m: B2manifold,
    a: B2polygonShape,
    xfa: B2Transform,
    b: B2circleShape,
    xfb: B2Transform,
) -> Result<B2manifold, Refusal>
    ensures { manifold_answered m result ≡ b2_collide_polygon_and_circle m a xfa b xfb }
{
    let count = a.m_count;
    if manifold_answer::miscounted(count) {
        return Err(Refusal::CountOutOfRange);
    }
    let shapes = pair_ranges::polygon_circle_in_range(a, b);
    let placed = pair_ranges::placements_in_range(xfa, xfb);
    if shapes & placed {
        return Ok(polygon_circle_manifold(m, a, xfa, b, xfb));
    }
    Err(manifold_answer::out_of_range(shapes))
}

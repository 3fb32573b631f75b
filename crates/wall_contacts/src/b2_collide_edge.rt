// Wall against circle, and wall against outline (Box2D's b2_collide_edge.cpp).
ghost use Rattle.std.specs.Prelude.{◌≡◌, ◌&&◌, ◌<◌, ◌≤◌};
ghost use Rattle.std.specs.Float.Ieee.{lt};
ghost use Rattle.rounding.specs.Literals.{zero32};
ghost use Rattle.floats.specs.B2Math.{b2_sub, b2_dot, b2_normalize, unit_or_same, b2_mul_transform_by_vec2};
ghost use Rattle.floats.specs.Unit.{unit_scale};
ghost use Rattle.contact_definitions.specs.Answers.{manifold_answered};
ghost use Rattle.contact_definitions.specs.B2CollideEdge.{b2_collide_edge_and_circle, b2_collide_edge_and_polygon};
ghost use Rattle.contact_definitions.specs.B2CollideEdge.{edge_polygon_manifold};
ghost use Rattle.contact_definitions.specs.EdgeAxis.{placed_corner, right_of, b2_compute_edge_separation};
ghost use Rattle.contact_definitions.specs.EdgeAxis.{edge_polygon_axis};
ghost use Rattle.contact_definitions.specs.EdgeReference.{edge_manifold_on};
ghost use Rattle.contact_definitions.specs.Manifold.{with_count};
ghost use Rattle.wall_contacts.specs.EdgeCircle.{wall_circle};
ghost use Rattle.wall_contacts.specs.PlacedRows.{PointRows};

use crate::edge_separation::Rows;
use crate::{edge_axis, edge_circle, edge_manifold, edge_separation};
use collision::{manifold_answer, manifolds, pair_ranges};
use contact_definitions::axis::Axis;
use contact_definitions::b2_collision::B2manifold;
use floats::b2_math::{B2Transform, B2vec2};
use floats::{b2_math, unit};
use shape_definitions::b2_circle_shape::B2circleShape;
use shape_definitions::b2_edge_shape::B2edgeShape;
use shape_definitions::b2_polygon_shape::B2polygonShape;
use shape_definitions::refusal::Refusal;
use shape_ranges::places;

// The answer for a wall and a circle in range: the circle's centre is taken to the wall's frame.
fn wall_circle_answer(
    m: B2manifold,
    a: B2edgeShape,
    xfa: B2Transform,
    b: B2circleShape,
    xfb: B2Transform,
) -> Result<B2manifold, Refusal>
    ensures { manifold_answered m result ≡ wall_circle m a xfa b xfb }
{
    let centre = b.m_p;
    let radius = a.m_radius + b.m_radius;
    let q = b2_math::b2_mul_t_transform_by_vec2(
        xfa,
        b2_math::b2_mul_transform_by_vec2(xfb, centre),
    );
    edge_circle::edge_circle_answer(m, a, q, radius, centre)
}

pub fn b2_collide_edge_and_circle(
    m: B2manifold,
    a: B2edgeShape,
    xfa: B2Transform,
    b: B2circleShape,
    xfb: B2Transform,
) -> Result<B2manifold, Refusal>
    ensures { manifold_answered m result ≡ b2_collide_edge_and_circle m a xfa b xfb }
{
    let shapes = pair_ranges::edge_circle_in_range(a, b);
    let placed = pair_ranges::placements_in_range(xfa, xfb);
    if shapes & placed {
        return wall_circle_answer(m, a, xfa, b, xfb);
    }
    Err(manifold_answer::out_of_range(shapes))
}

// A vector times the factor that makes it unit.
fn scaled(e: B2vec2, k: f32) -> B2vec2
    requires { k ≡ unit_scale e }
    ensures { result ≡ unit_or_same (b2_normalize e) }
{
    B2vec2 {
        x: e.x * k,
        y: e.y * k,
    }
}

// Whether the outline's centroid lies behind a one-sided wall.
fn centroid_behind(edge: B2edgeShape, normal1: B2vec2, xf: B2Transform, centroid: B2vec2) -> bool
    ensures { result ≡ (edge.m_one_sided
        && lt (b2_dot normal1 (b2_sub (b2_mul_transform_by_vec2 xf centroid) edge.m_vertex1)) zero32) }
{
    if edge.m_one_sided {
        let c = b2_math::b2_mul_transform_by_vec2(xf, centroid);
        return b2_math::b2_dot(normal1, b2_math::b2_sub(c, edge.m_vertex1)) < 0.0;
    }
    false
}

// Where the wall's own sides do not keep the outline off, its faces are looked at too: the manifold of the axis found.
// The rows hold the first n corners in the wall's frame.
fn with_faces(
    m: B2manifold,
    edge: B2edgeShape,
    edge1: B2vec2,
    xf: B2Transform,
    polygon: B2polygonShape,
    radius: f32,
    corners: &Rows,
    n: usize,
    wall: Axis,
) -> B2manifold
    requires { (0 < polygon.m_count) × (polygon.m_count ≤ n) × (n ≤ 8)
        × (wall ≡ b2_compute_edge_separation xf polygon edge.m_vertex1 (right_of edge1))
        × PointRows (placed_corner xf polygon) n corners.now.xs corners.now.ys }
    ensures { result ≡ edge_manifold_on (edge_polygon_axis radius edge edge1 xf polygon)
        (with_count m 0) edge edge1 xf polygon radius }
{
    let count = polygon.m_count;
    let mut normals = Rows {
        xs: [0.0; 8],
        ys: [0.0; 8],
    };
    let mut faces = [0.0f32; 8];
    let ns = polygon.m_normals;
    edge_separation::normal_rows(
        xf.q,
        ns,
        corners,
        n,
        edge.m_vertex1,
        edge.m_vertex2,
        &mut normals,
        &mut faces,
    );
    let face = edge_separation::b2_compute_polygon_separation(&faces, &normals, count);
    let axis = edge_axis::edge_polygon_axis(
        edge,
        edge1,
        wall,
        edge_axis::primary_axis(radius, wall, face),
    );
    edge_manifold::edge_manifold_on(axis, m, edge, edge1, xf, polygon, radius, corners, &normals)
}

// xf carries the outline to the wall's frame; k is the factor that makes the wall's direction unit. It comes from the
// caller, who takes its root before anything else, since all waits for it.
fn edge_polygon_manifold(
    m: B2manifold,
    edge: B2edgeShape,
    k: f32,
    xf: B2Transform,
    polygon: B2polygonShape,
) -> B2manifold
    requires { (0 < polygon.m_count) × (polygon.m_count ≤ 8)
        × (k ≡ unit_scale (b2_sub edge.m_vertex2 edge.m_vertex1)) }
    ensures { result ≡ edge_polygon_manifold (with_count m 0) edge xf polygon }
{
    let count = polygon.m_count;
    let v1 = edge.m_vertex1;
    let edge1 = scaled(b2_math::b2_sub(edge.m_vertex2, v1), k);
    let normal1 = B2vec2 {
        x: edge1.y,
        y: -edge1.x,
    };
    if centroid_behind(edge, normal1, xf, polygon.m_centroid) {
        return manifolds::no_points(m);
    }
    let n = places::padded(count);
    let mut corners = Rows {
        xs: [0.0; 8],
        ys: [0.0; 8],
    };
    let vs = polygon.m_vertices;
    edge_separation::place_rows(xf, vs, n, &mut corners);
    let radius = polygon.m_radius + edge.m_radius;
    let wall = edge_separation::b2_compute_edge_separation(&corners, n, count, v1, normal1);
    if edge_axis::separation_of(wall) > radius {
        return manifolds::no_points(m);
    }
    with_faces(m, edge, edge1, xf, polygon, radius, &corners, n, wall)
}

// The wall's root is taken first, since all that follows waits for it.
pub fn b2_collide_edge_and_polygon(
    m: B2manifold,
    a: B2edgeShape,
    xfa: B2Transform,
    b: B2polygonShape,
    xfb: B2Transform,
) -> Result<B2manifold, Refusal>
    ensures { manifold_answered m result ≡ b2_collide_edge_and_polygon m a xfa b xfb }
{
    let v1 = a.m_vertex1;
    let v2 = a.m_vertex2;
    let count = b.m_count;
    let k = unit::unit_scale(b2_math::b2_sub(v2, v1));
    if manifold_answer::miscounted(count) {
        return Err(Refusal::CountOutOfRange);
    }
    let shapes = pair_ranges::edge_polygon_in_range(a, b);
    let placed = pair_ranges::placements_in_range(xfa, xfb);
    if shapes & placed {
        let xf = b2_math::b2_mul_t_transform(xfa, xfb);
        return Ok(edge_polygon_manifold(m, a, k, xf, b));
    }
    Err(manifold_answer::out_of_range(shapes))
}

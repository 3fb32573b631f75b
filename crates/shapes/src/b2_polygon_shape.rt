// Outlines (Box2D's b2_polygon_shape.h): boxes, the outline builder and the convexity test.
ghost use Rattle.std.specs.Prelude.{◌≡◌, Ok};
ghost use Rattle.shape_definitions.specs.Answers.{polygon_answered, validate_answered};
ghost use Rattle.shape_definitions.specs.Polygon.{put_first};
ghost use Rattle.shape_definitions.specs.Polygon.{b2_polygon_shape_set_counted, b2_polygon_shape_set};
ghost use Rattle.shape_definitions.specs.Boxes.{box_with};
ghost use Rattle.shape_definitions.specs.Boxes.{b2_polygon_shape_set_as_box, b2_polygon_shape_set_as_box_angle};
ghost use Rattle.shape_definitions.specs.Validate.{b2_polygon_shape_validate};

use crate::coordinates::Row;
use crate::{convex, outline};
use floats::b2_common::B2_EPSILON;
use floats::b2_math::B2vec2;
use floats::b2_settings::B2_MAX_POLYGON_VERTICES;
use floats::{b2_math, ranges};
use shape_definitions::b2_polygon_shape::B2polygonShape;
use shape_definitions::refusal::Refusal;
use shape_ranges::polygon_range;

const ORIGIN: B2vec2 = B2vec2 { x: 0.0, y: 0.0 };

// Four points over the old ones.
fn put_four(old: [B2vec2; 8], first: [B2vec2; 4]) -> [B2vec2; 8]
    ensures { result ≡ put_first first old }
{
    let mut new = old;
    [new[0], new[1], new[2], new[3]] = first;
    new
}

// The outline with four new corners and their normals.
fn box_with(
    old: B2polygonShape,
    centroid: B2vec2,
    corners: [B2vec2; 4],
    normals: [B2vec2; 4],
) -> B2polygonShape
    ensures { polygon_answered old (Ok result) ≡ box_with old centroid corners normals }
{
    B2polygonShape {
        m_centroid: centroid,
        m_vertices: put_four(old.m_vertices, corners),
        m_normals: put_four(old.m_normals, normals),
        m_count: 4,
        ..old
    }
}

// A box of half-widths hx and hy around the origin.
pub fn b2_polygon_shape_set_as_box(
    old: B2polygonShape,
    hx: f32,
    hy: f32,
) -> Result<B2polygonShape, Refusal>
    ensures { polygon_answered old result ≡ b2_polygon_shape_set_as_box old hx hy }
{
    let hx_in = ranges::coordinate_in_range(hx);
    let hy_in = ranges::coordinate_in_range(hy);
    if !(hx_in & hy_in) {
        return Err(Refusal::ShapeOutOfRange);
    }
    let corners = [
        B2vec2 { x: -hx, y: -hy },
        B2vec2 { x: hx, y: -hy },
        B2vec2 { x: hx, y: hy },
        B2vec2 { x: -hx, y: hy },
    ];
    let normals = [
        B2vec2 { x: 0.0, y: -1.0 },
        B2vec2 { x: 1.0, y: 0.0 },
        B2vec2 { x: 0.0, y: 1.0 },
        B2vec2 { x: -1.0, y: 0.0 },
    ];
    Ok(box_with(old, ORIGIN, corners, normals))
}

// A box of half-widths hx and hy, turned by q and moved to center.
pub fn b2_polygon_shape_set_as_box_angle(
    old: B2polygonShape,
    hx: f32,
    hy: f32,
    center: B2vec2,
    q: b2_math::B2Rot,
) -> Result<B2polygonShape, Refusal>
    ensures { polygon_answered old result ≡ b2_polygon_shape_set_as_box_angle old hx hy center q }
{
    let hx_in = ranges::coordinate_in_range(hx);
    let hy_in = ranges::coordinate_in_range(hy);
    let center_in = ranges::point_in_range(center);
    if !(hx_in & hy_in & center_in) {
        return Err(Refusal::ShapeOutOfRange);
    }
    if !ranges::rotation_in_range(q) {
        return Err(Refusal::PlacementOutOfRange);
    }
    let xf = b2_math::B2Transform { p: center, q };
    let place = |x: f32, y: f32| b2_math::b2_mul_transform_by_vec2(xf, B2vec2 { x, y });
    let turn = |x: f32, y: f32| b2_math::b2_mul_rot_by_vec2(q, B2vec2 { x, y });
    let corners = [
        place(-hx, -hy),
        place(hx, -hy),
        place(hx, hy),
        place(-hx, hy),
    ];
    let normals = [
        turn(0.0, -1.0),
        turn(1.0, 0.0),
        turn(0.0, 1.0),
        turn(-1.0, 0.0),
    ];
    Ok(box_with(old, center, corners, normals))
}

// The outline of the first count points: weld, start, walk, normals, centroid (the steps are in outline.rt).
pub fn b2_polygon_shape_set_core(
    old: B2polygonShape,
    points: [B2vec2; 8],
    count: usize,
) -> Result<B2polygonShape, Refusal>
    ensures { polygon_answered old result ≡ b2_polygon_shape_set_counted old points count }
{
    if count < 3 || count > B2_MAX_POLYGON_VERTICES {
        return Err(Refusal::WrongNumberOfPoints);
    }
    let given = Row::of(points);
    if !given.in_range(count) {
        return Err(Refusal::ShapeOutOfRange);
    }
    let mut ps = Row::of([ORIGIN; 8]);
    let n = outline::weld(&given, count, &mut ps);
    if n < 3 {
        return Err(Refusal::TooFewAfterWelding);
    }
    let i0 = outline::start(&ps, n);
    let mut vs = Row::of(old.m_vertices);
    let m = outline::walk(&ps, n, i0, &mut vs).ok_or(Refusal::WalkNotClosed)?;
    if m < 3 {
        return Err(Refusal::WalkNotClosed);
    }
    let mut ns = Row::of(old.m_normals);
    if !outline::normals(&vs, m, &mut ns) {
        return Err(Refusal::EdgeOrAreaTooSmall);
    }
    let sum = outline::fan(&vs, m);
    if !(sum.area > B2_EPSILON) {
        return Err(Refusal::EdgeOrAreaTooSmall);
    }
    let s = vs.at(0);
    let centroid = b2_math::b2_add(b2_math::b2_scale(1.0 / sum.area, sum.moment), s);
    Ok(B2polygonShape {
        m_centroid: centroid,
        m_vertices: vs.points(),
        m_normals: ns.points(),
        m_count: m,
        ..old
    })
}

// The outline of the points of a lent slice. C can call it (crate shapes_c).
pub fn b2_polygon_shape_set(
    old: B2polygonShape,
    vertices: &[B2vec2],
) -> Result<B2polygonShape, Refusal>
    ensures { polygon_answered old result ≡ b2_polygon_shape_set old vertices.now }
{
    // Written out: filled by a loop or a copy, the call was measured to take an eighth longer.
    let at = |i: usize| vertices.get(i).copied().unwrap_or(ORIGIN);
    let points = [at(0), at(1), at(2), at(3), at(4), at(5), at(6), at(7)];
    b2_polygon_shape_set_core(old, points, vertices.len())
}

// Whether an outline is convex, by the rounded cross products.
pub fn b2_polygon_shape_validate(shape: B2polygonShape) -> Result<bool, Refusal>
    ensures { validate_answered result ≡ b2_polygon_shape_validate shape }
{
    let count = shape.m_count;
    if count > B2_MAX_POLYGON_VERTICES {
        return Err(Refusal::CountOutOfRange);
    }
    if !polygon_range::polygon_in_range(shape) {
        return Err(Refusal::ShapeOutOfRange);
    }
    Ok(convex::faces_convex(shape.m_vertices, count))
}

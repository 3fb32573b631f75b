// Whether the numbers of two shapes, or of two placements, are in their ranges, as the contact calls ask. Numbers of
// both stand in one test: four, eight or sixteen side by side become one comparison.
ghost use Rattle.std.specs.Prelude.{◌≡◌, ◌&&◌, ◌≤◌};
ghost use Rattle.floats.specs.Ranges.{transform_in_range, coordinate_in_range, radius_in_range};
ghost use Rattle.shape_definitions.specs.Circle.{circle_in_range};
ghost use Rattle.shape_definitions.specs.Validate.{polygon_in_range};
ghost use Rattle.shape_definitions.specs.Edge.{edge_in_range};
ghost use Rattle.collision.specs.PairRanges.{points_in_range};

use floats::b2_math::{B2Transform, B2vec2};
use floats::ranges;
use shape_definitions::b2_circle_shape::B2circleShape;
use shape_definitions::b2_edge_shape::B2edgeShape;
use shape_definitions::b2_polygon_shape::B2polygonShape;
use shape_ranges::polygon_range;

// Two placements.
pub fn placements_in_range(a: B2Transform, b: B2Transform) -> bool
    ensures { result ≡ (transform_in_range a && transform_in_range b) }
{
    let a_in = ranges::transform_in_range(a);
    let b_in = ranges::transform_in_range(b);
    a_in & b_in
}

// The tests that pairs of shapes are made of.
fn four_in_range(a: f32, b: f32, c: f32, d: f32) -> bool
    ensures { result ≡ (coordinate_in_range a && coordinate_in_range b && coordinate_in_range c
        && coordinate_in_range d) }
{
    let a_in = ranges::coordinate_in_range(a);
    let b_in = ranges::coordinate_in_range(b);
    let c_in = ranges::coordinate_in_range(c);
    let d_in = ranges::coordinate_in_range(d);
    a_in & b_in & c_in & d_in
}

fn radii_in_range(a: f32, b: f32) -> bool
    ensures { result ≡ (radius_in_range a && radius_in_range b) }
{
    let a_in = ranges::radius_in_range(a);
    let b_in = ranges::radius_in_range(b);
    a_in & b_in
}

// An outline's corners and normals, a place at a time.
fn points_in_range(vs: [B2vec2; 8], ns: [B2vec2; 8], count: usize) -> bool
    ensures { result ≡ points_in_range vs ns count }
{
    if !polygon_range::counted_within(ranges::SHAPE_LIMIT, vs, count) {
        return false;
    }
    polygon_range::counted_within(ranges::NORMAL_LIMIT, ns, count)
}

pub fn circles_in_range(a: B2circleShape, b: B2circleShape) -> bool
    ensures { result ≡ (circle_in_range a && circle_in_range b) }
{
    let centres = four_in_range(a.m_p.x, a.m_p.y, b.m_p.x, b.m_p.y);
    let radii = radii_in_range(a.m_radius, b.m_radius);
    radii & centres
}

// The corners and normals of an outline: the first four places are tested always and, above a count of 4, the last
// four; only where that fails are the places below the count told from those past it. The number names the caller:
// it gives each a function of its own, which is inlined.
fn outline_points_in_range<const CALLER: u8>(vs: [B2vec2; 8], ns: [B2vec2; 8], count: usize) -> bool
    ensures { result ≡ points_in_range vs ns count }
{
    let v = polygon_range::four_within(ranges::SHAPE_LIMIT, vs, 0);
    let n = polygon_range::four_within(ranges::NORMAL_LIMIT, ns, 0);
    if v & n {
        if count <= 4 {
            return true;
        }
        let w = polygon_range::four_within(ranges::SHAPE_LIMIT, vs, 4);
        let m = polygon_range::four_within(ranges::NORMAL_LIMIT, ns, 4);
        if w & m {
            return true;
        }
    }
    points_in_range(vs, ns, count)
}

pub fn polygon_circle_in_range(a: B2polygonShape, b: B2circleShape) -> bool
    ensures { result ≡ (polygon_in_range a && circle_in_range b) }
{
    let centres = four_in_range(a.m_centroid.x, a.m_centroid.y, b.m_p.x, b.m_p.y);
    let radii = radii_in_range(a.m_radius, b.m_radius);
    if !(radii & centres) {
        return false;
    }
    let vs = a.m_vertices;
    let ns = a.m_normals;
    outline_points_in_range::<0>(vs, ns, a.m_count)
}

// The corners and normals of two outlines, handed on by themselves: an outline by value is copied whole.
fn points_of_both(
    va: [B2vec2; 8],
    na: [B2vec2; 8],
    ca: usize,
    vb: [B2vec2; 8],
    nb: [B2vec2; 8],
    cb: usize,
) -> bool
    ensures { result ≡ (points_in_range va na ca && points_in_range vb nb cb) }
{
    let v1 = polygon_range::four_within(ranges::SHAPE_LIMIT, va, 0);
    let n1 = polygon_range::four_within(ranges::NORMAL_LIMIT, na, 0);
    let v2 = polygon_range::four_within(ranges::SHAPE_LIMIT, vb, 0);
    let n2 = polygon_range::four_within(ranges::NORMAL_LIMIT, nb, 0);
    if (v1 & n1) & (v2 & n2) {
        if ca.max(cb) <= 4 {
            return true;
        }
        let w1 = polygon_range::four_within(ranges::SHAPE_LIMIT, va, 4);
        let m1 = polygon_range::four_within(ranges::NORMAL_LIMIT, na, 4);
        let w2 = polygon_range::four_within(ranges::SHAPE_LIMIT, vb, 4);
        let m2 = polygon_range::four_within(ranges::NORMAL_LIMIT, nb, 4);
        if (w1 & m1) & (w2 & m2) {
            return true;
        }
    }
    let a_in = points_in_range(va, na, ca);
    let b_in = points_in_range(vb, nb, cb);
    a_in & b_in
}

pub fn polygons_in_range(a: B2polygonShape, b: B2polygonShape) -> bool
    ensures { result ≡ (polygon_in_range a && polygon_in_range b) }
{
    let centres = four_in_range(
        a.m_centroid.x,
        a.m_centroid.y,
        b.m_centroid.x,
        b.m_centroid.y,
    );
    let radii = radii_in_range(a.m_radius, b.m_radius);
    if !(radii & centres) {
        return false;
    }
    let va = a.m_vertices;
    let na = a.m_normals;
    let vb = b.m_vertices;
    let nb = b.m_normals;
    points_of_both(va, na, a.m_count, vb, nb, b.m_count)
}

// A wall, and the radius and a place of another shape.
fn edge_and_head_in_range(a: B2edgeShape, radius: f32, x: f32, y: f32) -> bool
    ensures { result ≡ (edge_in_range a
        && (radius_in_range radius && (coordinate_in_range x && coordinate_in_range y))) }
{
    let radii = radii_in_range(a.m_radius, radius);
    let ends = four_in_range(a.m_vertex1.x, a.m_vertex1.y, a.m_vertex2.x, a.m_vertex2.y);
    let x_in = ranges::coordinate_in_range(x);
    let y_in = ranges::coordinate_in_range(y);
    if !(radii & ends & (x_in & y_in)) {
        return false;
    }
    if a.m_one_sided {
        return four_in_range(a.m_vertex0.x, a.m_vertex0.y, a.m_vertex3.x, a.m_vertex3.y);
    }
    true
}

pub fn edge_circle_in_range(a: B2edgeShape, b: B2circleShape) -> bool
    ensures { result ≡ (edge_in_range a && circle_in_range b) }
{
    edge_and_head_in_range(a, b.m_radius, b.m_p.x, b.m_p.y)
}

pub fn edge_polygon_in_range(a: B2edgeShape, b: B2polygonShape) -> bool
    ensures { result ≡ (edge_in_range a && polygon_in_range b) }
{
    if !edge_and_head_in_range(a, b.m_radius, b.m_centroid.x, b.m_centroid.y) {
        return false;
    }
    let vs = b.m_vertices;
    let ns = b.m_normals;
    outline_points_in_range::<1>(vs, ns, b.m_count)
}

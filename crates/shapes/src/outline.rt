// The steps of the outline builder: welding, the start, the walk, normals, and area with moment. Points stand in the
// first places of a row of sixteen coordinates, which is lent from step to step; the definitions are over the list of
// points.
ghost use Rattle.std.specs.Prelude.{◌≡◌, true, ◌||◌, ◌<◌, ◌≤◌, eqb, take, IfSome};
ghost use Rattle.std.specs.Float.Ieee.{lt};
ghost use Rattle.algebra.specs.Loops.{near_any};
ghost use Rattle.floats.specs.B2Common.{epsilon_squared};
ghost use Rattle.floats.specs.B2Math.{b2_length_squared};
ghost use Rattle.shape_definitions.specs.Outline.{too_near, welded, comes_before, start, turns_closer, next, row};
ghost use Rattle.shape_definitions.specs.Outline.{edges, long_enough, normal_of_edge, with_triangle, fan};
ghost use Rattle.shapes.specs.Coordinates.{points_in};
ghost use Rattle.shapes.specs.Parts.{WalkResult, NormalsResult};

use crate::coordinates::Row;
use floats::b2_common::{B2_EPSILON, B2_LINEAR_SLOP};
use floats::b2_math;
use floats::b2_math::B2vec2;
use shape_definitions::b2_polygon_shape::FanSum;
use shape_ranges::places;

// The square of half the slop, the weld limit: 13743895/2^41.
const WELD_LIMIT: f32 = (0.5 * B2_LINEAR_SLOP) * (0.5 * B2_LINEAR_SLOP);

// The square of 2^-23, which a squared edge has to be above: 2^-46.
const EPSILON_SQUARED: f32 = B2_EPSILON * B2_EPSILON;

// 1/3, rounded: 11184811/2^25.
const INV3: f32 = 1.0 / 3.0;

// Whether v is nearer to a kept point than the weld limit.
fn too_near(v: B2vec2, kept: B2vec2) -> bool
    ensures { result ≡ too_near v kept }
{
    b2_math::b2_distance_vec2_squared(v, kept) < WELD_LIMIT
}

// Whether v is too near to one of the first n points.
fn near_any(ps: &Row, n: usize, v: B2vec2) -> bool
    requires { n ≤ 8 }
    ensures { result ≡ near_any too_near v (take n (points_in ps.now.xs)) }
{
    for j in 0..n {
        if too_near(v, ps.at(j)) {
            return true;
        }
    }
    false
}

// The first count points without those too near to an earlier one that is kept, in the first places of ps, and their
// number.
pub fn weld(points: &Row, count: usize, ps: &mut Row) -> usize
    requires { count ≤ 8 }
    ensures { (result ≤ count)
        × (take result (points_in ps.new.xs) ≡ welded (take count (points_in points.now.xs))) }
{
    let mut n = 0usize;
    for i in 0..count {
        let v = points.at(i);
        if !near_any(ps, n, v) {
            ps.put(n, v);
            n += 1;
        }
    }
    n
}

// Whether p has a larger x than the best so far, or the same x and a smaller y. Floats have no `Ord`.
fn comes_before(best: B2vec2, p: B2vec2) -> bool
    ensures { result ≡ comes_before best p }
{
    let larger = best.x < p.x;
    let level = p.x == best.x;
    let lower = p.y < best.y;
    larger | (level & lower)
}

// The place of the largest x, smallest y among equals.
pub fn start(ps: &Row, n: usize) -> usize
    requires { (0 < n) × (n ≤ 8) }
    ensures { (result < n) × (result ≡ start (take n (points_in ps.now.xs))) }
{
    let mut i0 = 0usize;
    let mut best = ps.at(0);
    for i in 1..n {
        let p = ps.at(i);
        if comes_before(best, p) {
            i0 = i;
            best = p;
        }
    }
    i0
}

// Whether v turns right of r, or is on the same line and longer.
fn turns_closer(r: B2vec2, v: B2vec2) -> bool
    ensures { result ≡ turns_closer r v }
{
    let c = b2_math::b2_cross(r, v);
    if c < 0.0 {
        return true;
    }
    c == 0.0 && b2_math::b2_length_squared(r) < b2_math::b2_length_squared(v)
}

// Whether the candidate at ie is replaced, seen from the corner at ih: r leads to the candidate and v to the other
// point.
fn replaced(ih: usize, ie: usize, r: B2vec2, v: B2vec2) -> bool
    ensures { result ≡ (eqb ie ih || turns_closer r v) }
{
    if ie == ih {
        return true;
    }
    turns_closer(r, v)
}

// The place of the corner after the one at ih.
pub fn next(ps: &Row, n: usize, ih: usize) -> usize
    requires { (n ≤ 8) × (ih < n) }
    ensures { (result < n) × (result ≡ next (take n (points_in ps.now.xs)) ih) }
{
    let corner = ps.at(ih);
    let mut ie = 0usize;
    let mut r = b2_math::b2_sub(ps.at(0), corner);
    for j in 1..n {
        let v = b2_math::b2_sub(ps.at(j), corner);
        if replaced(ih, ie, r, v) {
            ie = j;
            r = v;
        }
    }
    ie
}

// The corners from the one at i0 on, over the points of corners, and their number; None where the walk is not back after
// eight.
pub fn walk(ps: &Row, n: usize, i0: usize, corners: &mut Row) -> Option<usize>
    requires { (n ≤ 8) × (i0 < n) × (i0 ≡ start (take n (points_in ps.now.xs))) }
    ensures { IfSome result (λ m. m ≤ 8)
        × WalkResult (take n (points_in ps.now.xs)) (points_in corners.old.xs)
        (row (take n (points_in ps.now.xs))) result (points_in corners.new.xs) }
{
    let mut ih = i0;
    for m in 0..8 {
        corners.put(m, ps.at(ih));
        ih = next(ps, n, ih);
        if ih == i0 {
            return Some(m + 1);
        }
    }
    None
}

// The unit normal of an edge that is long enough, on its right; squared is the edge's squared length.
fn normal_of_edge(edge: B2vec2, squared: f32) -> B2vec2
    requires { (squared ≡ b2_length_squared edge) × (lt epsilon_squared squared ≡ true) }
    ensures { result ≡ normal_of_edge edge }
{
    let turned = b2_math::b2_cross_vec_by_scalar(edge, 1.0);
    let inv_length = 1.0 / b2_math::b2_sqrt(squared);
    B2vec2 {
        x: turned.x * inv_length,
        y: turned.y * inv_length,
    }
}

// The normals of m corners, over those of ns, and whether every edge is long enough; where one is not, ns is left
// anyhow.
pub fn normals(vs: &Row, m: usize, ns: &mut Row) -> bool
    requires { m ≤ 8 }
    ensures { NormalsResult (edges (take m (points_in vs.now.xs))) (points_in ns.old.xs)
        (long_enough (edges (take m (points_in vs.now.xs)))) result (points_in ns.new.xs) }
{
    for i in 0..m {
        let edge = b2_math::b2_sub(vs.at(places::after(i, m)), vs.at(i));
        let squared = b2_math::b2_length_squared(edge);
        if squared > EPSILON_SQUARED {
            ns.put(i, normal_of_edge(edge, squared));
        } else {
            return false;
        }
    }
    true
}

// The triangle of p1, p2 and p3, added to a sum.
fn with_triangle(p1: B2vec2, p2: B2vec2, p3: B2vec2, sum: FanSum) -> FanSum
    ensures { result ≡ with_triangle p1 p2 p3 sum }
{
    let d = b2_math::b2_cross(b2_math::b2_sub(p2, p1), b2_math::b2_sub(p3, p1));
    let part = 0.5 * d;
    let centroid = b2_math::b2_add(b2_math::b2_add(p1, p2), p3);
    let moment = b2_math::b2_add(sum.moment, b2_math::b2_scale(part * INV3, centroid));
    FanSum {
        area: sum.area + part,
        moment: moment,
    }
}

// The triangles from the first corner to each edge, all measured from that corner, summed in corner order.
pub fn fan(vs: &Row, m: usize) -> FanSum
    requires { (0 < m) × (m ≤ 8) }
    ensures { result ≡ fan (take m (points_in vs.now.xs)) }
{
    let s = vs.at(0);
    let p1 = b2_math::b2_sub(s, s);
    let mut sum = FanSum {
        area: 0.0,
        moment: B2vec2 { x: 0.0, y: 0.0 },
    };
    for i in 0..m {
        let p2 = b2_math::b2_sub(vs.at(i), s);
        let p3 = b2_math::b2_sub(vs.at(places::after(i, m)), s);
        sum = with_triangle(p1, p2, p3, sum);
    }
    sum
}

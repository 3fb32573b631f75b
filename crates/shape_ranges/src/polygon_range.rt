// Whether the numbers of an outline are in their ranges. Four neighbouring places are tested at once: the first four
// always and, above a count of 4, the last four. Only where that fails are the places below the count told from those
// past it.
ghost use Rattle.std.specs.Prelude.{◌≡◌, ◌≤◌, take, drop};
ghost use Rattle.floats.specs.Ranges.{vec2_within};
ghost use Rattle.shape_definitions.specs.Polygon.{all_points};
ghost use Rattle.shape_definitions.specs.Validate.{polygon_in_range};

use floats::b2_math::B2vec2;
use floats::ranges;
use shape_definitions::b2_polygon_shape::B2polygonShape;

// Whether both coordinates of each of four points, from a place on, are within the limit.
pub fn four_within(limit: f32, ps: [B2vec2; 8], from: usize) -> bool
    requires { from ≤ 4 }
    ensures { result ≡ all_points (vec2_within limit) (take 4 (drop from ps)) }
{
    let mut ok = true;
    for j in 0..4 {
        ok = ok & ranges::vec2_within(limit, ps[from + j]);
    }
    ok
}

// Whether each of the first n points is within the limit, a point at a time.
pub fn counted_within(limit: f32, ps: [B2vec2; 8], n: usize) -> bool
    ensures { result ≡ all_points (vec2_within limit) (take n ps) }
{
    ps.iter().take(n).all(|p| ranges::vec2_within(limit, *p))
}

// The same, four points at a time where that decides.
pub fn points_within(limit: f32, ps: [B2vec2; 8], n: usize) -> bool
    ensures { result ≡ all_points (vec2_within limit) (take n ps) }
{
    if four_within(limit, ps, 0) {
        if n <= 4 {
            return true;
        }
        if four_within(limit, ps, 4) {
            return true;
        }
    }
    counted_within(limit, ps, n)
}

// Whether the numbers of an outline that its count takes in are in their ranges.
pub fn polygon_in_range(shape: B2polygonShape) -> bool
    ensures { result ≡ polygon_in_range shape }
{
    let radius = ranges::radius_in_range(shape.m_radius);
    let centroid = ranges::point_in_range(shape.m_centroid);
    if !(radius & centroid) {
        return false;
    }
    let vs = shape.m_vertices;
    let ns = shape.m_normals;
    let count = shape.m_count;
    if !points_within(ranges::SHAPE_LIMIT, vs, count) {
        return false;
    }
    points_within(ranges::NORMAL_LIMIT, ns, count)
}

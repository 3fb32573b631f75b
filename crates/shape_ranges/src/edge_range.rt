// Whether the numbers of a wall are in their ranges: its ghost points only where it is one-sided.
ghost use Rattle.std.specs.Prelude.{◌≡◌};
ghost use Rattle.shape_definitions.specs.Edge.{edge_in_range};

use floats::ranges;
use shape_definitions::b2_edge_shape::B2edgeShape;

pub fn edge_in_range(shape: B2edgeShape) -> bool
    ensures { result ≡ edge_in_range shape }
{
    let radius = ranges::radius_in_range(shape.m_radius);
    let v1 = ranges::point_in_range(shape.m_vertex1);
    let v2 = ranges::point_in_range(shape.m_vertex2);
    if !(radius & v1 & v2) {
        return false;
    }
    if shape.m_one_sided {
        let v0 = ranges::point_in_range(shape.m_vertex0);
        let v3 = ranges::point_in_range(shape.m_vertex3);
        return v0 & v3;
    }
    true
}

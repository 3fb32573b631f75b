// The axis of a wall and an outline: the choice between the wall's and the outline's, and the Gauss map of a one-sided
// wall, which keeps an outline from catching on the seam of two walls. Of the map only the ghost point on the normal's
// side is looked at, so one root is taken, not two.
ghost use Rattle.std.specs.Prelude.{◌≡◌, Float};
ghost use Rattle.floats.specs.declared.b2_math.B2Transform.{B2Transform};
ghost use Rattle.shape_definitions.specs.declared.b2_polygon_shape.B2polygonShape.{B2polygonShape};
ghost use Rattle.contact_definitions.specs.Axis.{separation_of};
ghost use Rattle.contact_definitions.specs.EdgeAxis.{right_of, b2_compute_edge_separation};
ghost use Rattle.contact_definitions.specs.EdgeAxis.{b2_compute_polygon_separation, primary_axis, region_by};
ghost use Rattle.contact_definitions.specs.EdgeAxis.{region_before, region_after, gauss_region, in_region, smoothed};
ghost use Rattle.contact_definitions.specs.EdgeAxis.{smoothed_if, edge_polygon_axis};
ghost use Rattle.wall_contacts.specs.AxisParts.{is_apart, axis_normal};

use contact_definitions::axis::Axis;
use contact_definitions::b2_collide_edge::GaussRegion;
use floats::b2_math::B2vec2;
use floats::{b2_math, unit};
use shape_definitions::b2_edge_shape::B2edgeShape;

pub fn separation_of(axis: Axis) -> f32
    ensures { result ≡ separation_of axis }
{
    match axis {
        Axis::Apart(s) => s,
        Axis::FaceA(s, _, _, _) => s,
        Axis::FaceB(s, _, _, _) => s,
    }
}

// Apart where either keeps the other off by more than the radius; else the outline's axis where it is clearly above.
pub fn primary_axis(radius: f32, edge_axis: Axis, polygon_axis: Axis) -> Axis
    ensures { result ≡ primary_axis radius edge_axis polygon_axis }
{
    let wall = separation_of(edge_axis);
    let face = separation_of(polygon_axis);
    if wall > radius {
        return Axis::Apart(wall);
    }
    if face > radius {
        return Axis::Apart(face);
    }
    if face - radius > 0.98 * (wall - radius) + 0.001 {
        return polygon_axis;
    }
    edge_axis
}

// A normal beyond the neighbour's by a sine above 0.1 is skipped where the corner is convex.
fn region_by(convex: bool, sine: f32) -> GaussRegion
    ensures { result ≡ region_by convex sine }
{
    if convex {
        if sine > 0.1 {
            return GaussRegion::Skip;
        }
        return GaussRegion::Admit;
    }
    GaussRegion::Snap
}

// The normal held against the wall before, with the direction edge0.
fn region_before(edge0: B2vec2, edge1: B2vec2, normal: B2vec2) -> GaussRegion
    ensures { result ≡ region_before edge0 edge1 normal }
{
    let convex = b2_math::b2_cross(edge0, edge1) >= 0.0;
    let right = B2vec2 {
        x: edge0.y,
        y: -edge0.x,
    };
    region_by(convex, b2_math::b2_cross(normal, right))
}

// The normal held against the wall after, with the direction edge2: the mirror image, with other operands first.
fn region_after(edge1: B2vec2, edge2: B2vec2, normal: B2vec2) -> GaussRegion
    ensures { result ≡ region_after edge1 edge2 normal }
{
    let convex = b2_math::b2_cross(edge1, edge2) >= 0.0;
    let right = B2vec2 {
        x: edge2.y,
        y: -edge2.x,
    };
    region_by(convex, b2_math::b2_cross(right, normal))
}

// Where the Gauss map puts a normal; edge1 is the wall's direction.
fn gauss_region(edge: B2edgeShape, edge1: B2vec2, normal: B2vec2) -> GaussRegion
    ensures { result ≡ gauss_region edge edge1 normal }
{
    if b2_math::b2_dot(normal, edge1) <= 0.0 {
        let edge0 = unit::unit(b2_math::b2_sub(edge.m_vertex1, edge.m_vertex0));
        return region_before(edge0, edge1, normal);
    }
    let edge2 = unit::unit(b2_math::b2_sub(edge.m_vertex3, edge.m_vertex2));
    region_after(edge1, edge2, normal)
}

fn is_apart(axis: Axis) -> bool
    ensures { result ≡ is_apart axis }
{
    matches!(axis, Axis::Apart(_))
}

fn axis_normal(axis: Axis) -> B2vec2
    ensures { result ≡ axis_normal axis }
{
    match axis {
        Axis::Apart(_) => B2vec2 { x: 0.0, y: 0.0 },
        Axis::FaceA(_, x, y, _) => B2vec2 { x, y },
        Axis::FaceB(_, x, y, _) => B2vec2 { x, y },
    }
}

fn in_region(region: GaussRegion, edge_axis: Axis, axis: Axis) -> Axis
    ensures { result ≡ in_region region edge_axis axis }
{
    match region {
        GaussRegion::Skip => Axis::Apart(separation_of(edge_axis)),
        GaussRegion::Admit => axis,
        GaussRegion::Snap => edge_axis,
    }
}

// The axis of a one-sided wall that the primary one becomes: apart in the skip region, the wall's own in the snap
// region.
fn smoothed(edge: B2edgeShape, edge1: B2vec2, edge_axis: Axis, axis: Axis) -> Axis
    ensures { result ≡ smoothed edge edge1 edge_axis axis }
{
    if is_apart(axis) {
        return axis;
    }
    in_region(
        gauss_region(edge, edge1, axis_normal(axis)),
        edge_axis,
        axis,
    )
}

// What the search answers, of the wall's own axis and the primary one: the Gauss map is asked of one-sided walls only.
// edge1 is the wall's direction; xf carries the outline to the wall's frame.
pub fn edge_polygon_axis(edge: B2edgeShape, edge1: B2vec2, edge_axis: Axis, primary: Axis) -> Axis
    ensures { (result ≡ smoothed_if edge.m_one_sided edge edge1 edge_axis primary)
        × ((radius : Float) (xf : B2Transform) (polygon : B2polygonShape)
        → edge_axis ≡ b2_compute_edge_separation xf polygon edge.m_vertex1 (right_of edge1)
        → primary ≡ primary_axis radius edge_axis
        (b2_compute_polygon_separation xf polygon edge.m_vertex1 edge.m_vertex2)
        → result ≡ edge_polygon_axis radius edge edge1 xf polygon) }
{
    if edge.m_one_sided {
        return smoothed(edge, edge1, edge_axis, primary);
    }
    primary
}

// Wall against outline, once the axis is known: the edge is clipped to the two sides of the reference face, and each
// end that is left within the radius becomes a point.
ghost use Rattle.std.specs.Prelude.{◌≡◌, ◌<◌, ◌≤◌};
ghost use Rattle.std.specs.Float.Ieee.{le};
ghost use Rattle.floats.specs.B2Math.{b2_sub, b2_dot};
ghost use Rattle.contact_definitions.specs.Manifold.{with_count};
ghost use Rattle.contact_definitions.specs.EdgeAxis.{placed_corner, placed_normal};
ghost use Rattle.contact_definitions.specs.EdgeReference.{edge_manifold_on};
ghost use Rattle.wall_contacts.specs.Reference.{placed_end, reference_manifold};
ghost use Rattle.wall_contacts.specs.PlacedRows.{PointRows};
ghost use Rattle.wall_contacts.specs.AxisParts.{place_below};

use crate::edge_reference;
use crate::edge_reference::Reference;
use crate::edge_separation::Rows;
use collision::{clip, manifolds};
use contact_definitions::axis::Axis;
use contact_definitions::b2_collision::{B2clipVertex, B2manifold};
use floats::b2_math;
use floats::b2_math::{B2Transform, B2vec2};
use shape_definitions::b2_edge_shape::B2edgeShape;
use shape_definitions::b2_polygon_shape::B2polygonShape;

// Whether v lies within the radius of the face through v1.
fn within_radius(radius: f32, normal: B2vec2, v1: B2vec2, v: B2vec2) -> bool
    ensures { result ≡ le (b2_dot normal (b2_sub v v1)) radius }
{
    b2_math::b2_dot(normal, b2_math::b2_sub(v, v1)) <= radius
}

// An end as the manifold has it: in the outline's frame where the wall's face is the reference, else as it is with its
// id swapped. Of two outlines the other case is taken to a frame too.
fn placed_end(flip: bool, xf: B2Transform, e: B2clipVertex) -> B2clipVertex
    ensures { result ≡ placed_end flip xf e }
{
    if flip {
        let v = e.v;
        return B2clipVertex {
            v,
            id: manifolds::swapped(e.id),
        };
    }
    let id = e.id;
    B2clipVertex {
        v: b2_math::b2_mul_t_transform_by_vec2(xf, e.v),
        id,
    }
}

// The manifold of a reference and what is clipped to it.
fn reference_manifold(m: B2manifold, f: Reference, xf: B2Transform, radius: f32) -> B2manifold
    ensures { result ≡ reference_manifold f m xf radius }
{
    let face = f.face;
    let a = f.a;
    let b = f.b;
    let c = clip::clip_to_sides(
        [a, b],
        face.side_normal1,
        face.side_offset1,
        face.i1,
        face.side_normal2,
        face.side_offset2,
        face.i2,
    );
    if c.count < 2 {
        return manifolds::only_kind(m, f.flip);
    }
    let e0 = c.out[0];
    let e1 = c.out[1];
    let near0 = within_radius(radius, face.normal, face.v1, e0.v);
    let near1 = within_radius(radius, face.normal, face.v1, e1.v);
    let old = m.points;
    let w0 = placed_end(f.flip, xf, e0);
    let w1 = placed_end(f.flip, xf, e1);
    let k = manifolds::kept_points(old, w0, w1, near0, near1);
    let points = k.points;
    let local_normal = f.local_normal;
    let local_point = f.local_point;
    B2manifold {
        points,
        local_normal,
        local_point,
        manifold_type: manifolds::kind_of(f.flip),
        point_count: k.count,
    }
}

// The rows hold the outline's corners and normals in the wall's frame.
pub fn edge_manifold_on(
    axis: Axis,
    m: B2manifold,
    edge: B2edgeShape,
    edge1: B2vec2,
    xf: B2Transform,
    polygon: B2polygonShape,
    radius: f32,
    corners: &Rows,
    normals: &Rows,
) -> B2manifold
    requires { (0 < polygon.m_count) × (polygon.m_count ≤ 8) × place_below polygon.m_count axis
        × PointRows (placed_corner xf polygon) polygon.m_count corners.now.xs corners.now.ys
        × PointRows (placed_normal xf polygon) polygon.m_count normals.now.xs normals.now.ys }
    ensures { result ≡ edge_manifold_on axis (with_count m 0) edge edge1 xf polygon radius }
{
    let count = polygon.m_count;
    let v1 = edge.m_vertex1;
    let v2 = edge.m_vertex2;
    let f = match axis {
        Axis::Apart(_) => {
            return manifolds::no_points(m);
        }
        Axis::FaceA(_, x, y, _) => edge_reference::reference_a(
            corners,
            normals,
            count,
            v1,
            v2,
            edge1,
            B2vec2 { x, y },
        ),
        Axis::FaceB(_, _, _, i) => {
            let vb = polygon.m_vertices;
            let nb = polygon.m_normals;
            edge_reference::reference_b(corners, normals, count, v1, v2, i, nb[i], vb[i])
        }
    };
    reference_manifold(m, f, xf, radius)
}

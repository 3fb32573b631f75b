// Wall against outline, the reference face: that of the wall, with the outline's edge most against it, or a face of
// the outline, with the wall. What is clipped is chosen first, so that the clipping has one caller.
ghost use Rattle.std.specs.Prelude.{◌≡◌, ℕ, ◌<◌, ◌≤◌};
ghost use Rattle.floats.specs.declared.b2_math.B2Transform.{B2Transform};
ghost use Rattle.shape_definitions.specs.declared.b2_polygon_shape.B2polygonShape.{B2polygonShape};
ghost use Rattle.contact_definitions.specs.Manifold.{feature_number, contact_id, as_byte};
ghost use Rattle.contact_definitions.specs.EdgeAxis.{placed_corner, placed_normal};
ghost use Rattle.contact_definitions.specs.EdgeReference.{face_between, most_against};
ghost use Rattle.wall_contacts.specs.PlacedRows.{PointRows};
ghost use Rattle.wall_contacts.specs.Reference.{wall_reference, face_reference};

use crate::edge_separation::Rows;
use collision::manifolds::contact_id;
use contact_definitions::axis::Corner;
use contact_definitions::b2_collide_edge::B2referenceFace;
use contact_definitions::b2_collision::{B2clipVertex, B2contactFeatureType};
use floats::b2_math;
use floats::b2_math::B2vec2;
use shape_ranges::places;

// The point at place i of the rows.
fn row_point(rows: &Rows, i: usize) -> B2vec2
    requires { i < 8 }
    ensures { (point : ℕ → B2vec2) (n : ℕ) → i < n → PointRows point n rows.now.xs rows.now.ys
        → result ≡ point i }
{
    B2vec2 {
        x: rows.xs[i],
        y: rows.ys[i],
    }
}

// The edge of the outline whose normal is most against n: its first corner. b2_find_incident_edge asks the same of the
// outline's own normals; here they stand in rows, and the corner is kept with them.
fn most_against(n: B2vec2, normals: &Rows, corners: &Rows, count: usize) -> Corner
    requires { (0 < count) × (count ≤ 8) }
    ensures { (result.index < count)
        × ((corner : ℕ → B2vec2) → PointRows corner count corners.now.xs corners.now.ys
        → result.v ≡ corner result.index)
        × ((xf : B2Transform) (poly : B2polygonShape) → poly.m_count ≡ count
        → PointRows (placed_normal xf poly) count normals.now.xs normals.now.ys
        → result.index ≡ most_against xf poly n) }
{
    let mut index = 0usize;
    let mut best = b2_math::b2_dot(n, row_point(normals, 0));
    let mut v = row_point(corners, 0);
    for i in 1..count {
        let value = b2_math::b2_dot(n, row_point(normals, i));
        if value < best {
            best = value;
            index = i;
            v = row_point(corners, i);
        }
    }
    Corner { index, v }
}

// What is clipped against what: the reference face, the ends of the edge that is clipped to it, the normal and the
// point of the manifold, and whether the face is the outline's.
#[derive(Clone, Copy)]
pub struct Reference {
    pub face: B2referenceFace,
    pub a: B2clipVertex,
    pub b: B2clipVertex,
    pub local_normal: B2vec2,
    pub local_point: B2vec2,
    pub flip: bool,
}

fn clip_vertex(
    v: B2vec2,
    index_a: usize,
    index_b: usize,
    type_a: B2contactFeatureType,
    type_b: B2contactFeatureType,
) -> B2clipVertex
    ensures { result ≡ record {
      v = v;
      id = contact_id (as_byte index_a) (as_byte index_b) (feature_number type_a) (feature_number type_b);
    } }
{
    let byte_a = (index_a % 256) as u8;
    let byte_b = (index_b % 256) as u8;
    B2clipVertex {
        v,
        id: contact_id(byte_a, byte_b, type_a, type_b),
    }
}

// A face whose sides pass through its ends.
fn face_between(
    i1: usize,
    i2: usize,
    v1: B2vec2,
    v2: B2vec2,
    normal: B2vec2,
    side1: B2vec2,
    side2: B2vec2,
) -> B2referenceFace
    ensures { result ≡ face_between i1 i2 v1 v2 normal side1 side2 }
{
    B2referenceFace {
        i1,
        i2,
        v1,
        v2,
        normal,
        side_normal1: side1,
        side_offset1: b2_math::b2_dot(side1, v1),
        side_normal2: side2,
        side_offset2: b2_math::b2_dot(side2, v2),
    }
}

// The wall from v1 along edge1 to v2 is the reference, with one of its normals.
pub fn reference_a(
    corners: &Rows,
    normals: &Rows,
    count: usize,
    v1: B2vec2,
    v2: B2vec2,
    edge1: B2vec2,
    normal: B2vec2,
) -> Reference
    requires { (0 < count) × (count ≤ 8) }
    ensures { (xf : B2Transform) (poly : B2polygonShape) → poly.m_count ≡ count
        → PointRows (placed_corner xf poly) count corners.now.xs corners.now.ys
        → PointRows (placed_normal xf poly) count normals.now.xs normals.now.ys
        → result ≡ wall_reference xf poly v1 v2 edge1 normal }
{
    let c = most_against(normal, normals, corners, count);
    let i1 = c.index;
    let i2 = places::after(i1, count);
    let w1 = c.v;
    let w2 = row_point(corners, i2);
    Reference {
        face: face_between(0, 1, v1, v2, normal, b2_math::b2_neg(edge1), edge1),
        a: clip_vertex(
            w1,
            0,
            i1,
            B2contactFeatureType::EFace,
            B2contactFeatureType::EVertex,
        ),
        b: clip_vertex(
            w2,
            0,
            i2,
            B2contactFeatureType::EFace,
            B2contactFeatureType::EVertex,
        ),
        local_normal: normal,
        local_point: v1,
        flip: false,
    }
}

// Face i1 of the outline is the reference, with the outline's own normal and corner there.
pub fn reference_b(
    corners: &Rows,
    normals: &Rows,
    count: usize,
    v1: B2vec2,
    v2: B2vec2,
    i1: usize,
    local_normal: B2vec2,
    local_point: B2vec2,
) -> Reference
    requires { (i1 < count) × (count ≤ 8) }
    ensures { (xf : B2Transform) (poly : B2polygonShape) → poly.m_count ≡ count
        → PointRows (placed_corner xf poly) count corners.now.xs corners.now.ys
        → PointRows (placed_normal xf poly) count normals.now.xs normals.now.ys
        → result ≡ face_reference xf poly v1 v2 i1 local_normal local_point }
{
    let i2 = places::after(i1, count);
    let w1 = row_point(corners, i1);
    let w2 = row_point(corners, i2);
    let normal = row_point(normals, i1);
    let side1 = B2vec2 {
        x: normal.y,
        y: -normal.x,
    };
    Reference {
        face: face_between(i1, i2, w1, w2, normal, side1, b2_math::b2_neg(side1)),
        a: clip_vertex(
            v2,
            1,
            i1,
            B2contactFeatureType::EVertex,
            B2contactFeatureType::EFace,
        ),
        b: clip_vertex(
            v1,
            0,
            i1,
            B2contactFeatureType::EVertex,
            B2contactFeatureType::EFace,
        ),
        local_normal,
        local_point,
        flip: true,
    }
}

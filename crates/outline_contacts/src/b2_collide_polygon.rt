// Outline against outline (Box2D's b2_collide_polygon.cpp): the axis search, the manifold on the face that it names,
// and the call.
ghost use Rattle.std.specs.Prelude.{◌≡◌, [], ◌<◌, ◌≤◌};
ghost use Rattle.std.specs.Float.{binary32};
ghost use Rattle.std.specs.Float.Ieee.{add};
ghost use Rattle.contact_definitions.specs.Answers.{manifold_answered};
ghost use Rattle.contact_definitions.specs.Searches.{first_greatest};
ghost use Rattle.contact_definitions.specs.B2CollidePolygon.{face_separation, polygons_axis, polygons_manifold};
ghost use Rattle.contact_definitions.specs.B2CollidePolygon.{b2_collide_polygons};
ghost use Rattle.contact_definitions.specs.Manifold.{with_count};
ghost use Rattle.outline_contacts.specs.FaceRows.{faced};
ghost use Rattle.outline_contacts.specs.Outlines.{outlined, Placed};
ghost use Rattle.outline_contacts.specs.OnFace.{placed_end, manifold_on_face};

use crate::faces::{Face, face_of, incident_ends, placed_face, within_skins};
use crate::rows;
use crate::rows::{FarthestFace, Rows};
use collision::clip::clip_to_sides;
use collision::manifolds::{flipped, kept_points, kind_of, no_points, only_kind};
use collision::{manifold_answer, pair_ranges};
use contact_definitions::axis::Axis;
use contact_definitions::b2_collision::{B2clipVertex, B2manifold};
use floats::b2_common::{B2_LINEAR_SLOP, B2_MAX_FLOAT};
use floats::b2_math::{
    B2Transform, B2vec2, b2_add, b2_cross_vec_by_scalar, b2_mul_t_transform,
    b2_mul_t_transform_by_vec2, b2_scale, b2_sub,
};
use floats::unit::unit;
use shape_definitions::b2_polygon_shape::B2polygonShape;
use shape_definitions::refusal::Refusal;
use shape_ranges::places;

// What B's separation has to be above A's by, to be the reference: 8589935/2^34.
const TOLERANCE: f32 = 0.1 * B2_LINEAR_SLOP;

// b2_find_max_separation; xf carries outline 1 to the frame of outline 2. OF_B where outline 1 is B: it gives each
// caller a function of its own, which is inlined.
fn max_separation<const OF_B: bool>(
    v1s: [B2vec2; 8],
    n1s: [B2vec2; 8],
    count1: usize,
    xf: B2Transform,
    v2s: [B2vec2; 8],
    count2: usize,
) -> FarthestFace
    requires { (0 < count1) × (count1 ≤ 8) × (count2 ≤ 8) }
    ensures { (result.place < count1) × (result ≡ faced n1s
        (first_greatest (face_separation xf (outlined v1s n1s count1) (outlined v2s [] count2)) count1)) }
{
    let n = places::padded(count1);
    let mut carried = Rows {
        nxs: [0.0; 8],
        nys: [0.0; 8],
        xs: [0.0; 8],
        ys: [0.0; 8],
    };
    rows::face_rows(xf, v1s, n1s, n, &mut carried);
    let mut s = [B2_MAX_FLOAT; 8];
    rows::lower_all(&carried, n, v2s, count2, &mut s);
    rows::greatest(&s, n1s, count1)
}

// The axis of two outlines, given by their corners, normals and counts: an outline handed on by value is copied whole.
pub fn polygons_axis(
    va: [B2vec2; 8],
    na: [B2vec2; 8],
    ca: usize,
    xa: B2Transform,
    vb: [B2vec2; 8],
    nb: [B2vec2; 8],
    cb: usize,
    xb: B2Transform,
    total_radius: f32,
) -> Axis
    requires { (0 < ca) × (ca ≤ 8) × (0 < cb) × (cb ≤ 8) }
    ensures { (result ≡ polygons_axis total_radius (outlined va na ca) xa (outlined vb nb cb) xb)
        × Placed na ca nb cb result }
{
    let a = max_separation::<false>(va, na, ca, b2_mul_t_transform(xb, xa), vb, cb);
    if a.value > total_radius {
        return Axis::Apart(a.value);
    }
    let b = max_separation::<true>(vb, nb, cb, b2_mul_t_transform(xa, xb), va, ca);
    if b.value > total_radius {
        return Axis::Apart(b.value);
    }
    if b.value > a.value + TOLERANCE {
        return Axis::FaceB(b.value, b.normal.x, b.normal.y, b.place);
    }
    Axis::FaceA(a.value, a.normal.x, a.normal.y, a.place)
}

// An end in the frame of the outline that it is of, its id as A and B have it.
fn placed_end(flip: bool, xf2: B2Transform, e: B2clipVertex) -> B2clipVertex
    ensures { result ≡ placed_end flip xf2 e }
{
    B2clipVertex {
        v: b2_mul_t_transform_by_vec2(xf2, e.v),
        id: flipped(e.id, flip),
    }
}

// The incident edge clipped to the sides of the reference face, and what is left of it within both skins.
fn collide_face(m: B2manifold, f: Face, total_radius: f32) -> B2manifold
    ensures { result ≡ manifold_on_face m f total_radius }
{
    let local_tangent = unit(b2_sub(f.v12, f.v11));
    let face = placed_face(f, local_tangent, total_radius);
    let ends = incident_ends(f);
    let c = clip_to_sides(
        ends,
        face.side_normal1,
        face.side_offset1,
        face.i1,
        face.side_normal2,
        face.side_offset2,
        face.i2,
    );
    if c.count < 2 {
        return only_kind(m, f.flip);
    }
    let e0 = c.out[0];
    let e1 = c.out[1];
    let near0 = within_skins(total_radius, face, e0);
    let near1 = within_skins(total_radius, face, e1);
    let old = m.points;
    let w0 = placed_end(f.flip, f.xf2, e0);
    let w1 = placed_end(f.flip, f.xf2, e1);
    let k = kept_points(old, w0, w1, near0, near1);
    let points = k.points;
    B2manifold {
        points,
        local_normal: b2_cross_vec_by_scalar(local_tangent, 1.0),
        local_point: b2_scale(0.5, b2_add(f.v11, f.v12)),
        manifold_type: kind_of(f.flip),
        point_count: k.count,
    }
}

// No point where the axis search says apart; else on the face that it names, with its data chosen first.
fn polygons_manifold(
    m: B2manifold,
    pa: B2polygonShape,
    xa: B2Transform,
    pb: B2polygonShape,
    xb: B2Transform,
) -> B2manifold
    requires { (0 < pa.m_count) × (pa.m_count ≤ 8) × (0 < pb.m_count) × (pb.m_count ≤ 8) }
    ensures { result ≡ polygons_manifold (with_count m 0)
        (add binary32 pa.m_radius pb.m_radius) pa xa pb xb }
{
    let total_radius = pa.m_radius + pb.m_radius;
    let va = pa.m_vertices;
    let na = pa.m_normals;
    let ca = pa.m_count;
    let vb = pb.m_vertices;
    let nb = pb.m_normals;
    let cb = pb.m_count;
    let axis = polygons_axis(va, na, ca, xa, vb, nb, cb, xb, total_radius);
    let f = match axis {
        Axis::Apart(_) => {
            return no_points(m);
        }
        Axis::FaceA(_, x, y, i) => face_of(va, i, B2vec2 { x, y }, ca, xa, vb, nb, cb, xb, false),
        Axis::FaceB(_, x, y, i) => face_of(vb, i, B2vec2 { x, y }, cb, xb, va, na, ca, xa, true),
    };
    collide_face(m, f, total_radius)
}

pub fn b2_collide_polygons(
    m: B2manifold,
    a: B2polygonShape,
    xfa: B2Transform,
    b: B2polygonShape,
    xfb: B2Transform,
) -> Result<B2manifold, Refusal>
    ensures { manifold_answered m result ≡ b2_collide_polygons m a xfa b xfb }
{
    let count_a = a.m_count;
    let count_b = b.m_count;
    let wrong_a = manifold_answer::miscounted(count_a);
    let wrong_b = manifold_answer::miscounted(count_b);
    if wrong_a | wrong_b {
        return Err(Refusal::CountOutOfRange);
    }
    let shapes = pair_ranges::polygons_in_range(a, b);
    let placed = pair_ranges::placements_in_range(xfa, xfb);
    if shapes & placed {
        return Ok(polygons_manifold(m, a, xfa, b, xfb));
    }
    Err(manifold_answer::out_of_range(shapes))
}

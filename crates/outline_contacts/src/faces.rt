// The reference face of one outline and the incident edge of the other.
ghost use Rattle.std.specs.Prelude.{◌≡◌, ◌<◌, ◌≤◌};
ghost use Rattle.floats.specs.B2Math.{b2_dot};
ghost use Rattle.shape_definitions.specs.Outline.{point_at};
ghost use Rattle.contact_definitions.specs.Searches.{first_least};
ghost use Rattle.contact_definitions.specs.B2CollidePolygon.{within_skins};
ghost use Rattle.outline_contacts.specs.Faces.{corner_of, face_of, face_vertex, incident_ends, placed_along};

use collision::manifolds::contact_id;
use contact_definitions::axis::Corner;
use contact_definitions::b2_collide_edge::B2referenceFace;
use contact_definitions::b2_collision::{B2clipVertex, B2contactFeatureType};
use floats::b2_common::B2_MAX_FLOAT;
use floats::b2_math::{
    B2Transform, B2vec2, b2_cross_vec_by_scalar, b2_dot, b2_mul_rot_by_vec2, b2_mul_t_rot_by_vec2,
    b2_mul_transform_by_vec2, b2_neg,
};
use shape_ranges::places;

// The reference face from v11 to v12 of outline 1, and the incident edge from w1 to w2 of outline 2, each in its own
// frame. flip where outline 1 is B.
#[derive(Clone, Copy)]
pub struct Face {
    pub v11: B2vec2,
    pub v12: B2vec2,
    pub edge: usize,
    pub iv2: usize,
    pub i1: usize,
    pub i2: usize,
    pub w1: B2vec2,
    pub w2: B2vec2,
    pub xf1: B2Transform,
    pub xf2: B2Transform,
    pub flip: bool,
}

// b2_find_incident_edge: the first corner of the edge whose normal turns most against n.
pub fn b2_find_incident_edge(n: B2vec2, ns: [B2vec2; 8], vs: [B2vec2; 8], count: usize) -> Corner
    requires { (0 < count) × (count ≤ 8) }
    ensures { (result.index < count)
        × (result ≡ corner_of vs (first_least (λ i. b2_dot n (point_at ns i)) count).place) }
{
    let mut index = 0usize;
    let mut min_dot: f32 = B2_MAX_FLOAT;
    for i in 0..count {
        let dot = n.x * ns[i].x + n.y * ns[i].y;
        if dot < min_dot {
            min_dot = dot;
            index = i;
        }
    }
    Corner {
        index,
        v: B2vec2 {
            x: vs[index].x,
            y: vs[index].y,
        },
    }
}

// The reference face at place edge, with its normal, and its incident edge.
pub fn face_of(
    v1s: [B2vec2; 8],
    edge: usize,
    normal: B2vec2,
    count1: usize,
    xf1: B2Transform,
    v2s: [B2vec2; 8],
    n2s: [B2vec2; 8],
    count2: usize,
    xf2: B2Transform,
    flip: bool,
) -> Face
    requires { (edge < count1) × (count1 ≤ 8) × (0 < count2) × (count2 ≤ 8) }
    ensures { result ≡ face_of v1s edge normal count1 xf1 v2s n2s count2 xf2 flip }
{
    let n = b2_mul_t_rot_by_vec2(xf2.q, b2_mul_rot_by_vec2(xf1.q, normal));
    let c = b2_find_incident_edge(n, n2s, v2s, count2);
    let i1 = c.index;
    let i2 = places::after(i1, count2);
    let iv2 = places::after(edge, count1);
    let v11 = B2vec2 {
        x: v1s[edge].x,
        y: v1s[edge].y,
    };
    let v12 = B2vec2 {
        x: v1s[iv2].x,
        y: v1s[iv2].y,
    };
    let w2 = B2vec2 {
        x: v2s[i2].x,
        y: v2s[i2].y,
    };
    let w1 = c.v;
    Face {
        v11,
        v12,
        edge,
        iv2,
        i1,
        i2,
        w1,
        w2,
        xf1,
        xf2,
        flip,
    }
}

// An end of the incident edge: corner i of outline 2, met by the face edge of outline 1.
pub fn face_vertex(edge: usize, i: usize, v: B2vec2) -> B2clipVertex
    ensures { result ≡ face_vertex edge i v }
{
    let index_a = (edge % 256) as u8;
    let index_b = (i % 256) as u8;
    B2clipVertex {
        v,
        id: contact_id(
            index_a,
            index_b,
            B2contactFeatureType::EFace,
            B2contactFeatureType::EVertex,
        ),
    }
}

// The ends of the incident edge, carried by the placement of outline 2.
pub fn incident_ends(f: Face) -> [B2clipVertex; 2]
    ensures { result ≡ incident_ends f }
{
    [
        face_vertex(f.edge, f.i1, b2_mul_transform_by_vec2(f.xf2, f.w1)),
        face_vertex(f.edge, f.i2, b2_mul_transform_by_vec2(f.xf2, f.w2)),
    ]
}

// The reference face, carried by the placement of outline 1; each side is moved out by both skins.
pub fn placed_face(f: Face, local_tangent: B2vec2, total_radius: f32) -> B2referenceFace
    ensures { result ≡ placed_along f local_tangent total_radius }
{
    let w11 = b2_mul_transform_by_vec2(f.xf1, f.v11);
    let w12 = b2_mul_transform_by_vec2(f.xf1, f.v12);
    let tangent = b2_mul_rot_by_vec2(f.xf1.q, local_tangent);
    B2referenceFace {
        i1: f.edge,
        i2: f.iv2,
        v1: w11,
        v2: w12,
        normal: b2_cross_vec_by_scalar(tangent, 1.0),
        side_normal1: b2_neg(tangent),
        side_offset1: -b2_dot(tangent, w11) + total_radius,
        side_normal2: tangent,
        side_offset2: b2_dot(tangent, w12) + total_radius,
    }
}

// Whether an end lies within both skins of the face.
pub fn within_skins(total_radius: f32, face: B2referenceFace, e: B2clipVertex) -> bool
    ensures { result ≡ within_skins total_radius face e }
{
    b2_dot(face.normal, e.v) - b2_dot(face.normal, face.v1) <= total_radius
}

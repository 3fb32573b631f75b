// Manifolds made anew from old ones. Vectors are handed on coordinate by coordinate, so that none is copied as a whole,
// and points are stored at constant places, by cases.
ghost use Rattle.std.specs.Prelude.{◌≡◌, cond};
ghost use Rattle.contact_definitions.specs.Manifold.{feature_number, vertex_feature, contact_id, swapped_id};
ghost use Rattle.contact_definitions.specs.Manifold.{with_local_point, with_count, with_kind, with_one_point};
ghost use Rattle.contact_definitions.specs.declared.b2_collision.B2manifoldType.TheVariants.{EFaceA, EFaceB};
ghost use Rattle.collision.specs.KeptPoints.{point_at_end, kept_ends, points_kept};

use contact_definitions::b2_collision::{
    B2clipVertex, B2contactFeature, B2contactFeatureType, B2contactId, B2manifold, B2manifoldPoint,
    B2manifoldType,
};
use floats::b2_math::B2vec2;

// The id of two features: a place on each shape, and what meets there.
pub fn contact_id(
    index_a: u8,
    index_b: u8,
    type_a: B2contactFeatureType,
    type_b: B2contactFeatureType,
) -> B2contactId
    ensures { result ≡ contact_id index_a index_b (feature_number type_a) (feature_number type_b) }
{
    B2contactId {
        cf: B2contactFeature {
            index_a,
            index_b,
            type_a: u8::from(type_a),
            type_b: u8::from(type_b),
        },
    }
}

// m with another kind and count.
pub fn made_anew(m: B2manifold, manifold_type: B2manifoldType, point_count: usize) -> B2manifold
    ensures { result ≡ with_kind (with_count m point_count) manifold_type }
{
    let p0 = m.points[0];
    let p1 = m.points[1];
    let id = p0.id;
    let q0 = B2manifoldPoint {
        local_point: B2vec2 {
            x: p0.local_point.x,
            y: p0.local_point.y,
        },
        normal_impulse: p0.normal_impulse,
        tangent_impulse: p0.tangent_impulse,
        id,
        age: p0.age,
    };
    B2manifold {
        points: [q0, p1],
        local_normal: B2vec2 {
            x: m.local_normal.x,
            y: m.local_normal.y,
        },
        local_point: B2vec2 {
            x: m.local_point.x,
            y: m.local_point.y,
        },
        manifold_type,
        point_count,
    }
}

// m without points.
pub fn no_points(m: B2manifold) -> B2manifold
    ensures { result ≡ with_count m 0 }
{
    let t = m.manifold_type;
    made_anew(m, t, 0)
}

// Face B where flip, else face A.
pub fn kind_of(flip: bool) -> B2manifoldType
    ensures { result ≡ cond flip EFaceB EFaceA }
{
    if flip {
        B2manifoldType::EFaceB
    } else {
        B2manifoldType::EFaceA
    }
}

// m without points, and with the kind of a face.
pub fn only_kind(m: B2manifold, flip: bool) -> B2manifold
    ensures { result ≡ with_kind (with_count m 0) (cond flip EFaceB EFaceA) }
{
    made_anew(m, kind_of(flip), 0)
}

// m with one point, at a circle's centre.
pub fn circle_point(
    m: B2manifold,
    t: B2manifoldType,
    local_normal: B2vec2,
    local_point: B2vec2,
    centre: B2vec2,
    index_a: u8,
    type_a: B2contactFeatureType,
) -> B2manifold
    ensures { result ≡ with_one_point m t local_normal local_point centre
        (contact_id index_a 0 (feature_number type_a) vertex_feature) }
{
    let id = contact_id(index_a, 0, type_a, B2contactFeatureType::EVertex);
    let p = m.points[0];
    let p1 = m.points[1];
    let p0 = B2manifoldPoint {
        local_point: centre,
        normal_impulse: p.normal_impulse,
        tangent_impulse: p.tangent_impulse,
        id,
        age: p.age,
    };
    B2manifold {
        points: [p0, p1],
        local_normal,
        local_point,
        manifold_type: t,
        point_count: 1,
    }
}

// The features with A and B exchanged.
pub fn swapped(id: B2contactId) -> B2contactId
    ensures { result ≡ swapped_id id }
{
    let f = id.cf;
    B2contactId {
        cf: B2contactFeature {
            index_a: f.index_b,
            index_b: f.index_a,
            type_a: f.type_b,
            type_b: f.type_a,
        },
    }
}

// The id swapped whole, or as it is: a choice byte by byte costs a shift for each byte.
pub fn flipped(id: B2contactId, flip: bool) -> B2contactId
    ensures { result ≡ cond flip (swapped_id id) id }
{
    if flip {
        return swapped(id);
    }
    id
}

// An old point with another place and id.
pub fn point_of(old: B2manifoldPoint, local_point: B2vec2, id: B2contactId) -> B2manifoldPoint
    ensures { result ≡ with_local_point old local_point id }
{
    B2manifoldPoint {
        local_point,
        normal_impulse: old.normal_impulse,
        tangent_impulse: old.tangent_impulse,
        id,
        age: old.age,
    }
}

// The two places, and how many points were written there. A place past the count keeps its old point, of which the
// contracts speak, and there is no heap: so both stand beside the count.
#[derive(Clone, Copy)]
pub struct Kept {
    pub points: [B2manifoldPoint; 2],
    pub count: usize,
}

// An old point with the place and the id of an end.
fn point_at_end(old: B2manifoldPoint, e: B2clipVertex) -> B2manifoldPoint
    ensures { result ≡ point_at_end old e }
{
    let v = e.v;
    let id = e.id;
    point_of(old, v, id)
}

// The points of the ends that are near, over the old ones.
pub fn kept_points(
    old: [B2manifoldPoint; 2],
    e0: B2clipVertex,
    e1: B2clipVertex,
    near0: bool,
    near1: bool,
) -> Kept
    ensures { result ≡ points_kept point_at_end old (kept_ends near0 near1 e0 e1) }
{
    let p0 = old[0];
    let p1 = old[1];
    if near0 {
        if near1 {
            return Kept {
                points: [point_at_end(p0, e0), point_at_end(p1, e1)],
                count: 2,
            };
        }
        return Kept {
            points: [point_at_end(p0, e0), p1],
            count: 1,
        };
    }
    if near1 {
        return Kept {
            points: [point_at_end(p0, e1), p1],
            count: 1,
        };
    }
    Kept {
        points: old,
        count: 0,
    }
}

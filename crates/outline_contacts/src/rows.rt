// Rows of one coordinate, lent from part to part and filled to 4 or 8 places, so that the compiler takes four places at
// a time. Places from the count on are worked out and never read.
ghost use Rattle.std.specs.Prelude.{◌≡◌, ℕ, ◌<◌, ◌≤◌};
ghost use Rattle.floats.specs.B2Math.{b2_min};
ghost use Rattle.contact_definitions.specs.Searches.{first_greatest};
ghost use Rattle.outline_contacts.specs.FaceRows.{at, FaceRows, distance_at, LeastRow, faced};

use floats::b2_common::B2_MAX_FLOAT;
use floats::b2_math::{B2Transform, B2vec2, b2_min, b2_mul_rot_by_vec2, b2_mul_transform_by_vec2};

// A face of an outline with its separation and its normal, in the outline's own frame.
#[derive(Clone, Copy)]
pub struct FarthestFace {
    pub place: usize,
    pub value: f32,
    pub normal: B2vec2,
}

// Faces of an outline, carried to another frame: a row for each coordinate of their normals and first corners.
#[derive(Clone, Copy)]
pub struct Rows {
    pub nxs: [f32; 8],
    pub nys: [f32; 8],
    pub xs: [f32; 8],
    pub ys: [f32; 8],
}

// The first n faces of one outline, normals and first corners, carried by xf.
pub fn face_rows(xf: B2Transform, vs: [B2vec2; 8], ns: [B2vec2; 8], n: usize, rows: &mut Rows)
    requires { n ≤ 8 }
    ensures { FaceRows xf vs ns n rows.new.nxs rows.new.nys rows.new.xs rows.new.ys }
{
    for i in 0..n {
        let m = b2_mul_rot_by_vec2(xf.q, ns[i]);
        let v = b2_mul_transform_by_vec2(xf, vs[i]);
        rows.nxs[i] = m.x;
        rows.nys[i] = m.y;
        rows.xs[i] = v.x;
        rows.ys[i] = v.y;
    }
}

// Every face's least distance so far, with one corner more.
pub fn lower(rows: &Rows, n: usize, v: B2vec2, s: &mut [f32; 8])
    requires { n ≤ 8 }
    ensures { (i : ℕ) → i < n
        → at s.new i ≡ b2_min (distance_at rows.now.nxs rows.now.nys rows.now.xs rows.now.ys v i) (at s.old i) }
{
    for i in 0..n {
        let d = rows.nxs[i] * (v.x - rows.xs[i]) + rows.nys[i] * (v.y - rows.ys[i]);
        s[i] = b2_min(d, s[i]);
    }
}

// Every face's least distance, over the first corners of the other outline.
pub fn lower_all(rows: &Rows, n: usize, v2s: [B2vec2; 8], count2: usize, s: &mut [f32; 8])
    requires { (n ≤ 8) × (count2 ≤ 8) }
    ensures { LeastRow rows.now.nxs rows.now.nys rows.now.xs rows.now.ys v2s count2 n s.old s.new }
{
    for j in 0..count2 {
        lower(rows, n, v2s[j], s);
    }
}

// The first place below count with the greatest separation, and the normal there.
pub fn greatest(s: &[f32; 8], ns: [B2vec2; 8], count: usize) -> FarthestFace
    requires { (0 < count) × (count ≤ 8) }
    ensures { (result.place < count) × (result ≡ faced ns (first_greatest (at s.now) count)) }
{
    let mut place = 0usize;
    let mut value: f32 = -B2_MAX_FLOAT;
    for i in 0..count {
        let x = s[i];
        if x > value {
            value = x;
            place = i;
        }
    }
    FarthestFace {
        place,
        value,
        normal: B2vec2 {
            x: ns[place].x,
            y: ns[place].y,
        },
    }
}

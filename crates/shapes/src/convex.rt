// The steps of the convexity test: whether a corner lies right of a face, by the rounded cross product. The corners are
// given by their coordinates, and all eight places are read at every face, so that the compiler can take them at once.
ghost use Rattle.std.specs.Prelude.{◌≡◌, not, ◌<◌, ◌≤◌};
ghost use mathlib.Core.List.{map, zip_with};
ghost use Rattle.std.specs.Float.Ieee.{lt};
ghost use Rattle.rounding.specs.Literals.{zero32};
ghost use Rattle.floats.specs.B2Math.{vec2, b2_sub, b2_cross};
ghost use Rattle.shape_definitions.specs.Outline.{point_at};
ghost use Rattle.shape_definitions.specs.Validate.{corners_not_right, faces_convex};

use floats::b2_math;
use floats::b2_math::B2vec2;
use shape_ranges::places;

// Whether v lies right of the line from p along e.
fn right_of(p: B2vec2, e: B2vec2, v: B2vec2) -> bool
    ensures { result ≡ lt (b2_cross e (b2_sub v p)) zero32 }
{
    b2_math::b2_cross(e, b2_math::b2_sub(v, p)) < 0.0
}

// The coordinates of eight points, those of one kind side by side.
#[derive(Clone, Copy)]
struct Coordinates {
    xs: [f32; 8],
    ys: [f32; 8],
}

impl Coordinates {
    fn of(vs: [B2vec2; 8]) -> Coordinates
        ensures { (result.xs ≡ map (λ v. v.x) vs) × (result.ys ≡ map (λ v. v.y) vs) }
    {
        let mut xs = [0.0f32; 8];
        let mut ys = [0.0f32; 8];
        for j in 0..8 {
            let v = vs[j];
            xs[j] = v.x;
            ys[j] = v.y;
        }
        Coordinates { xs, ys }
    }

    // The corner at place j.
    fn corner(&self, j: usize) -> B2vec2
        requires { j < 8 }
        ensures { result ≡ point_at (zip_with vec2 self.now.xs self.now.ys) j }
    {
        B2vec2 {
            x: self.xs[j],
            y: self.ys[j],
        }
    }

    // Whether some of the first count corners lies right of the face from i; its ends, which are corners too, do not.
    fn some_right(&self, count: usize, i: usize) -> bool
        requires { (count ≤ 8) × (i < count) }
        ensures { result ≡ not (corners_not_right (zip_with vec2 self.now.xs self.now.ys) count i count) }
    {
        let p = self.corner(i);
        let e = b2_math::b2_sub(self.corner(places::after(i, count)), p);
        let mut right = false;
        for j in 0..8 {
            let here = right_of(p, e, self.corner(j));
            right = right | (here & (j < count));
        }
        right
    }
}

// Whether no corner lies right of a face.
pub fn faces_convex(vs: [B2vec2; 8], count: usize) -> bool
    requires { count ≤ 8 }
    ensures { result ≡ faces_convex vs count count }
{
    let corners = Coordinates::of(vs);
    for i in 0..count {
        if corners.some_right(count, i) {
            return false;
        }
    }
    true
}

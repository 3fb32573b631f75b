// Eight points as a row of sixteen coordinates, x before y: what the steps of the outline builder lend to each other. How
// many of the first points a step means is passed beside the row, since a row always has eight: two of them hold an old
// outline's points past the new ones, which are kept.
ghost use Rattle.std.specs.Prelude.{◌≡◌, ◌<◌, ◌≤◌, set, take};
ghost use Rattle.floats.specs.Ranges.{point_in_range};
ghost use Rattle.shape_definitions.specs.Outline.{point_at};
ghost use Rattle.shape_definitions.specs.Polygon.{all_points};
ghost use Rattle.shapes.specs.Coordinates.{points_in, EightPoints};

use floats::b2_math::B2vec2;
use floats::ranges;

#[derive(Clone, Copy)]
pub struct Row {
    xs: [f32; 16],
    ghost eight: { EightPoints xs },
}

impl Row {
    // The row of eight points.
    pub fn of(vs: [B2vec2; 8]) -> Row
        ensures { points_in result.xs ≡ vs }
    {
        let mut row = Row { xs: [0.0f32; 16] };
        for i in 0..8 {
            row.put(i, vs[i]);
        }
        row
    }

    // The point at place i.
    pub fn at(&self, i: usize) -> B2vec2
        requires { i < 8 }
        ensures { result ≡ point_at (points_in self.now.xs) i }
    {
        let k = 2 * i;
        B2vec2 {
            x: self.xs[k],
            y: self.xs[k + 1],
        }
    }

    // v at place i.
    pub fn put(&mut self, i: usize, v: B2vec2)
        requires { i < 8 }
        ensures { points_in self.new.xs ≡ set (points_in self.old.xs) i v }
    {
        let k = 2 * i;
        self.xs[k] = v.x;
        self.xs[k + 1] = v.y;
    }

    // Whether each of the first n points is in the range of shape coordinates.
    pub fn in_range(&self, n: usize) -> bool
        requires { n ≤ 8 }
        ensures { result ≡ all_points point_in_range (take n (points_in self.now.xs)) }
    {
        for i in 0..n {
            if !ranges::point_in_range(self.at(i)) {
                return false;
            }
        }
        true
    }

    // The eight points.
    pub fn points(&self) -> [B2vec2; 8]
        ensures { result ≡ points_in self.now.xs }
    {
        let mut vs = [B2vec2 { x: 0.0, y: 0.0 }; 8];
        for i in 0..8 {
            vs[i] = self.at(i);
        }
        vs
    }
}

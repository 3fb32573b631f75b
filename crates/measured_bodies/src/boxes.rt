// Two measured boxes, unturned: the farthest choice with the smallest half-widths, and the nearest with the largest.
ghost use Rattle.std.specs.Prelude.{◌≡◌};
ghost use Rattle.measured_definitions.specs.Boxes.{BoxesRight};
ghost use Rattle.measured_definitions.specs.MeasuredBoxes.{box_in_limits, within, boxes_touch, box_pair};
ghost use Rattle.measured_definitions.specs.MeasuredBoxes.{nearest_boxes, farthest_boxes, measured_boxes};
ghost use Rattle.measured_bodies.specs.Widths.{Short, ShortBoxes};

use crate::axes;
use crate::measured::{Measured, verdict};
use measured_definitions::{AxisChoice, BoxPair, MEASURE_LIMIT, MeasuredBox, Verdict, WholeBox};
use shape_definitions::refusal::Refusal;

// Whether two numbers are no farther apart than reach.
fn within(a: i32, b: i32, reach: i32) -> bool
    requires { Short a × Short b }
    ensures { result ≡ within a b reach }
{
    (b - a <= reach) & (a - b <= reach)
}

fn box_pair(x: AxisChoice, y: AxisChoice, hx: AxisChoice, hy: AxisChoice) -> BoxPair
    ensures { result ≡ box_pair x y hx.a hy.a hx.b hy.b }
{
    BoxPair {
        a: WholeBox {
            x: x.a,
            y: y.a,
            hx: hx.a,
            hy: hy.a,
        },
        b: WholeBox {
            x: x.b,
            y: y.b,
            hx: hx.b,
            hy: hy.b,
        },
    }
}

impl Measured for MeasuredBox {
    type Pair = BoxPair;

    ghost in_limits = { box_in_limits };

    ghost nearest = { nearest_boxes };

    ghost farthest = { farthest_boxes };

    ghost touch = { boxes_touch };

    ghost Short = { ShortBoxes };

    fn in_limits(self) -> bool {
        axes::in_limits(-MEASURE_LIMIT, self.x)
            & axes::in_limits(-MEASURE_LIMIT, self.y)
            & axes::in_limits(0, self.hx)
            & axes::in_limits(0, self.hy)
    }

    fn nearest(self, other: MeasuredBox) -> BoxPair {
        let x = axes::nearest(self.x, other.x);
        let y = axes::nearest(self.y, other.y);
        let hx = axes::highest(self.hx, other.hx);
        let hy = axes::highest(self.hy, other.hy);
        box_pair(x, y, hx, hy)
    }

    fn farthest(self, other: MeasuredBox) -> BoxPair {
        let x = axes::farthest(self.x, other.x);
        let y = axes::farthest(self.y, other.y);
        let hx = axes::lowest(self.hx, other.hx);
        let hy = axes::lowest(self.hy, other.hy);
        box_pair(x, y, hx, hy)
    }

    // Whether on each axis the centres are no farther apart than both half-widths together.
    fn touch(pair: BoxPair) -> bool {
        within(pair.a.x, pair.b.x, pair.a.hx + pair.b.hx)
            & within(pair.a.y, pair.b.y, pair.a.hy + pair.b.hy)
    }
}

// The verdict, right of every two boxes inside the ranges; 17 where a number is out of its limits.
pub fn measured_boxes(a: MeasuredBox, b: MeasuredBox) -> Result<Verdict<BoxPair>, Refusal>
    ensures { (result ≡ measured_boxes a b) × BoxesRight a b result }
{
    verdict(a, b)
}

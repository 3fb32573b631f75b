// Two measured circles: the farthest choice with the smallest radii, and the nearest one with the largest.
ghost use Rattle.std.specs.Prelude.{◌≡◌};
ghost use Rattle.measured_definitions.specs.Circles.{CirclesRight};
ghost use Rattle.measured_definitions.specs.MeasuredCircles.{circle_in_limits, circles_touch, circle_pair};
ghost use Rattle.measured_definitions.specs.MeasuredCircles.{nearest_circles, farthest_circles, measured_circles};
ghost use Rattle.measured_bodies.specs.Widths.{ShortCircles};

use crate::axes;
use crate::measured::{Measured, verdict};
use measured_definitions::{
    AxisChoice, CirclePair, MEASURE_LIMIT, MeasuredCircle, Verdict, WholeCircle,
};
use shape_definitions::refusal::Refusal;

fn circle_pair(x: AxisChoice, y: AxisChoice, radius: AxisChoice) -> CirclePair
    ensures { result ≡ circle_pair x y radius.a radius.b }
{
    CirclePair {
        a: WholeCircle {
            x: x.a,
            y: y.a,
            radius: radius.a,
        },
        b: WholeCircle {
            x: x.b,
            y: y.b,
            radius: radius.b,
        },
    }
}

impl Measured for MeasuredCircle {
    type Pair = CirclePair;

    ghost in_limits = { circle_in_limits };

    ghost nearest = { nearest_circles };

    ghost farthest = { farthest_circles };

    ghost touch = { circles_touch };

    ghost Short = { ShortCircles };

    fn in_limits(self) -> bool {
        axes::in_limits(-MEASURE_LIMIT, self.x)
            & axes::in_limits(-MEASURE_LIMIT, self.y)
            & axes::in_limits(0, self.radius)
    }

    fn nearest(self, other: MeasuredCircle) -> CirclePair {
        let x = axes::nearest(self.x, other.x);
        let y = axes::nearest(self.y, other.y);
        let radius = axes::highest(self.radius, other.radius);
        circle_pair(x, y, radius)
    }

    fn farthest(self, other: MeasuredCircle) -> CirclePair {
        let x = axes::farthest(self.x, other.x);
        let y = axes::farthest(self.y, other.y);
        let radius = axes::lowest(self.radius, other.radius);
        circle_pair(x, y, radius)
    }

    // Whether the centres are no farther apart than both radii together.
    fn touch(pair: CirclePair) -> bool {
        let dx = pair.b.x - pair.a.x;
        let dy = pair.b.y - pair.a.y;
        let reach = pair.a.radius + pair.b.radius;
        dx * dx + dy * dy <= reach * reach
    }
}

// The verdict, right of every two circles inside the ranges; 17 where a number is out of its limits.
pub fn measured_circles(
    a: MeasuredCircle,
    b: MeasuredCircle,
) -> Result<Verdict<CirclePair>, Refusal>
    ensures { (result ≡ measured_circles a b) × CirclesRight a b result }
{
    verdict(a, b)
}

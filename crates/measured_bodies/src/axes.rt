// The spans of two bodies on one axis.
ghost use Rattle.std.specs.Prelude.{◌≡◌};
ghost use Rattle.measured_definitions.specs.Spans.{Coordinate};
ghost use Rattle.measured_definitions.specs.Axes.{in_limits, choice, nearest, farthest};

use measured_definitions::{AxisChoice, MEASURE_LIMIT, Span};

// Whether a span is in order and within the limits, from `least` to 1,024.
pub fn in_limits(least: i32, s: Span) -> bool
    ensures { result ≡ in_limits least s }
{
    (least <= s.lowest) & (s.lowest <= s.highest) & (s.highest <= MEASURE_LIMIT)
}

// The ends that face each other; where the spans share a number, the lowest that they share.
pub fn nearest(a: Span, b: Span) -> AxisChoice
    ensures { result ≡ nearest a b }
{
    if a.highest < b.lowest {
        return AxisChoice {
            a: a.highest,
            b: b.lowest,
        };
    }
    if b.highest < a.lowest {
        return AxisChoice {
            a: a.lowest,
            b: b.highest,
        };
    }
    let shared = a.lowest.max(b.lowest);
    AxisChoice {
        a: shared,
        b: shared,
    }
}

// The ends that look away from each other: the middles say which.
pub fn farthest(a: Span, b: Span) -> AxisChoice
    requires coordinate { Coordinate a }
    requires coordinate_2 { Coordinate b }
    ensures { result ≡ farthest a b }
{
    if a.lowest + a.highest <= b.lowest + b.highest {
        AxisChoice {
            a: a.lowest,
            b: b.highest,
        }
    } else {
        AxisChoice {
            a: a.highest,
            b: b.lowest,
        }
    }
}

// The lowest of both.
pub fn lowest(a: Span, b: Span) -> AxisChoice
    ensures { result ≡ choice a.lowest b.lowest }
{
    let (a, b) = (a.lowest, b.lowest);
    AxisChoice { a, b }
}

// The highest of both.
pub fn highest(a: Span, b: Span) -> AxisChoice
    ensures { result ≡ choice a.highest b.highest }
{
    let (a, b) = (a.highest, b.highest);
    AxisChoice { a, b }
}

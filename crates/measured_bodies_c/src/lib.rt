// The exports for the C match server, by value: a verdict as its numbers, and the two pairs that come with either.
#![tactic(auto)]

ghost use Rattle.std.specs.Prelude.{◌≡◌};
ghost use Rattle.measured_definitions.specs.MeasuredCircles.{measured_circles, circles_answer};
ghost use Rattle.measured_definitions.specs.MeasuredBoxes.{measured_boxes, boxes_answer};

use measured_bodies::export;
use measured_definitions::{BoxesAnswer, CirclesAnswer, MeasuredBox, MeasuredCircle};

#[unsafe(no_mangle)]
pub extern "C" fn netxurbil_measured_circles(a: MeasuredCircle, b: MeasuredCircle) -> CirclesAnswer
    ensures { result ≡ circles_answer (measured_circles a b) }
{
    export::netxurbil_measured_circles(a, b)
}

#[unsafe(no_mangle)]
pub extern "C" fn netxurbil_measured_boxes(a: MeasuredBox, b: MeasuredBox) -> BoxesAnswer
    ensures { result ≡ boxes_answer (measured_boxes a b) }
{
    export::netxurbil_measured_boxes(a, b)
}

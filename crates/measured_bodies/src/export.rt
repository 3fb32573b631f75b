// What the exports for the C match server answer (crate measured_bodies_c), by value: a verdict as its numbers, and the
// two pairs that come with either. C takes no generic record, so there are two, and two exports.
ghost use Rattle.std.specs.Prelude.{◌≡◌};
ghost use Rattle.measured_definitions.specs.MeasuredCircles.{measured_circles, circles_answer};
ghost use Rattle.measured_definitions.specs.MeasuredBoxes.{measured_boxes, boxes_answer};
ghost use Rattle.measured_bodies.specs.Numbers.{numbers_of, pairs_of};

use crate::{boxes, circles};
use measured_definitions::{
    BoxPair, BoxesAnswer, CirclePair, CirclesAnswer, MeasuredBox, MeasuredCircle, NO_VERDICT,
    Verdict,
};
use shape_definitions::refusal::{ACCEPTED, Refusal};

// The numbers of the refusal and of the verdict.
fn numbers<P: Copy>(said: Result<Verdict<P>, Refusal>) -> (u32, u32)
    ensures { result ≡ numbers_of said }
{
    match said {
        Ok(verdict) => (ACCEPTED.into(), verdict.into()),
        Err(why) => (u8::from(why).into(), NO_VERDICT),
    }
}

// The pair that touches and the one that is apart, or none.
fn pairs<P: Copy>(said: Result<Verdict<P>, Refusal>, none: P) -> (P, P)
    ensures { result ≡ pairs_of none said }
{
    match said {
        Ok(Verdict::Either { touching, apart }) => (touching, apart),
        _ => (none, none),
    }
}

pub fn netxurbil_measured_circles(a: MeasuredCircle, b: MeasuredCircle) -> CirclesAnswer
    ensures { result ≡ circles_answer (measured_circles a b) }
{
    let said = circles::measured_circles(a, b);
    let (refusal, verdict) = numbers(said);
    let (touching, apart) = pairs(said, CirclePair::default());
    CirclesAnswer {
        refusal,
        verdict,
        touching,
        apart,
    }
}

pub fn netxurbil_measured_boxes(a: MeasuredBox, b: MeasuredBox) -> BoxesAnswer
    ensures { result ≡ boxes_answer (measured_boxes a b) }
{
    let said = boxes::measured_boxes(a, b);
    let (refusal, verdict) = numbers(said);
    let (touching, apart) = pairs(said, BoxPair::default());
    BoxesAnswer {
        refusal,
        verdict,
        touching,
        apart,
    }
}

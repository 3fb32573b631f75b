// The verdict on two measured bodies, of whichever shape. Where the farthest choice with the smallest sizes touches, all
// do; where the nearest with the largest does not, none do.
ghost use Rattle.std.specs.Prelude.{◌≡◌, Bool, true};
ghost use Rattle.measured_bodies.specs.Verdict.{verdict_by};

use measured_definitions::Verdict;
use shape_definitions::refusal::Refusal;

pub trait Measured: Copy {
    // A choice of whole numbers for each of two bodies.
    type Pair: Copy;

    ghost in_limits: { Self → Bool };

    ghost nearest: { Self → Self → Self.Pair };

    ghost farthest: { Self → Self → Self.Pair };

    ghost touch: { Self.Pair → Bool };

    // Its numbers are small enough for the test.
    ghost Short: { Self.Pair → Type 0 };

    fn in_limits(self) -> bool
        ensures { result ≡ in_limits self };

    // The nearest choice, with the largest sizes.
    fn nearest(self, other: Self) -> Self::Pair
        requires this { in_limits self ≡ true }
        requires other { in_limits other ≡ true }
        ensures nearest { result ≡ nearest self other }
        ensures short { Short result };

    // The farthest choice, with the smallest sizes.
    fn farthest(self, other: Self) -> Self::Pair
        requires this { in_limits self ≡ true }
        requires other { in_limits other ≡ true }
        ensures farthest { result ≡ farthest self other }
        ensures short { Short result };

    fn touch(pair: Self::Pair) -> bool
        requires { Short pair }
        ensures { result ≡ touch pair };
}

pub fn verdict<M: Measured>(a: M, b: M) -> Result<Verdict<M::Pair>, Refusal>
    ensures { result ≡ verdict_by M.in_limits M.nearest M.farthest M.touch a b }
{
    if !(a.in_limits() & b.in_limits()) {
        return Err(Refusal::MeasureOutOfLimits);
    }
    let apart = a.farthest(b);
    if M::touch(apart) {
        return Ok(Verdict::SurelyTouching);
    }
    let touching = a.nearest(b);
    if M::touch(touching) {
        return Ok(Verdict::Either { touching, apart });
    }
    Ok(Verdict::SurelyApart)
}

// Document 02, request 08: circles and unturned boxes measured with a tolerance, in whole numbers of 1/256 m. Their
// records, and what each call answers (specs/). No functions but a verdict's number.

#![tactic(auto)]

ghost use Rattle.std.specs.Prelude.{◌≡◌};
ghost use Rattle.measured_definitions.specs.Numbers.{verdict_number};

// Coordinates are from -1,024 to 1,024, radii and half-widths from 0 to it.
pub const MEASURE_LIMIT: i32 = 1024;

// A number measured as something from lowest to highest.
#[repr(C)]
#[derive(Clone, Copy)]
pub struct Span {
    pub lowest: i32,
    pub highest: i32,
}

#[repr(C)]
#[derive(Clone, Copy)]
pub struct MeasuredCircle {
    pub x: Span,
    pub y: Span,
    pub radius: Span,
}

#[repr(C)]
#[derive(Clone, Copy)]
pub struct MeasuredBox {
    pub x: Span,
    pub y: Span,
    pub hx: Span,
    pub hy: Span,
}

// One choice of whole numbers.
#[repr(C)]
#[derive(Clone, Copy, Default)]
pub struct WholeCircle {
    pub x: i32,
    pub y: i32,
    pub radius: i32,
}

#[repr(C)]
#[derive(Clone, Copy, Default)]
pub struct WholeBox {
    pub x: i32,
    pub y: i32,
    pub hx: i32,
    pub hy: i32,
}

// Two records of each pair and each answer: C takes none with a type parameter.
#[repr(C)]
#[derive(Clone, Copy, Default)]
pub struct CirclePair {
    pub a: WholeCircle,
    pub b: WholeCircle,
}

#[repr(C)]
#[derive(Clone, Copy, Default)]
pub struct BoxPair {
    pub a: WholeBox,
    pub b: WholeBox,
}

// A choice on one axis: a number of A and one of B. With the pairs kept for C, it is the only one of its shape.
#[derive(Clone, Copy)]
pub struct AxisChoice {
    pub a: i32,
    pub b: i32,
}

// What is said of two measured bodies. Either comes with a pair that touches and a pair that is apart.
#[derive(Clone, Copy)]
pub enum Verdict<P> {
    SurelyTouching,
    SurelyApart,
    Either { touching: P, apart: P },
}

// The number of no verdict: the call was refused.
pub const NO_VERDICT: u32 = 0;

impl<P: Copy> From<Verdict<P>> for u32 {
    ghost from_gives = { λ verdict number. number ≡ verdict_number verdict };

    fn from(verdict: Verdict<P>) -> u32 {
        match verdict {
            Verdict::SurelyTouching => 1,
            Verdict::SurelyApart => 2,
            Verdict::Either { .. } => 3,
        }
    }
}

// What a host gets: 0 and the verdict, or the refusal and no verdict; pairs of zeros where there are none.
#[repr(C)]
#[derive(Clone, Copy)]
pub struct CirclesAnswer {
    pub refusal: u32,
    pub verdict: u32,
    pub touching: CirclePair,
    pub apart: CirclePair,
}

#[repr(C)]
#[derive(Clone, Copy)]
pub struct BoxesAnswer {
    pub refusal: u32,
    pub verdict: u32,
    pub touching: BoxPair,
    pub apart: BoxPair,
}

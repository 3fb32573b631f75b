// The square root of IEEE 754-2019, squareRoot (5.4.1), in the order of its text: special operands, exact results,
// rounding. digits.rt finds the digits of the last two.
ghost use Rattle.std.specs.Prelude.{◌≡◌, ◌*◌, ◌^◌, true};
ghost use Rattle.std.specs.Float.{binary32};
ghost use Rattle.sqrt.specs.Sqrt.{special, special_root, exact_or_rounded, root_by_steps, sqrt};

use crate::digits;
use crate::digits::{Found, LEADING};

// The step that an operand takes, and its root.
#[derive(Clone, Copy)]
pub enum Rooted {
    Special(f32),
    Exact(f32),
    Rounded(f32),
}

// Special operands: zeros, infinities, NaNs and all below 0. Below 0 the operation is invalid and gives NaN (7.2 g). A
// NaN gives NaN (6.2), infinity itself (6.1), and a zero itself, -0 too (6.3).
fn special_root(x: f32) -> f32
    requires { special x ≡ true }
    ensures { result ≡ special_root x }
{
    if x < 0.0 { 0.0 / 0.0 } else { x }
}

// Exact results, then rounding: the root is √n behind an exponent, and r the whole number nearest to √n.
fn exact_or_rounded(d: Found) -> Rooted
    ensures { result ≡ exact_or_rounded binary32 (d.n * 4 ^ d.exponent) }
{
    let r = d.root;
    let root = f32::from_bits((d.exponent * LEADING + r) as u32);
    // A result that fits is not rounded (4.3).
    if r * r == d.n {
        return Rooted::Exact(root);
    }
    // The nearest number is given (4.3.1), and no other is as near.
    Rooted::Rounded(root)
}

// 255 * 2^23: the bit pattern of infinity.
const INFINITE: u64 = 2139095040;

// The square root, correctly rounded, and the step that gives it. What is not special is normal or subnormal.
pub fn root_by_steps(x: f32) -> Rooted
    ensures { result ≡ root_by_steps binary32 x }
{
    if x == x {
        let b = f32::to_bits(x) as u64;
        if b >= LEADING {
            if b < INFINITE {
                return exact_or_rounded(digits::normal_digits(b));
            }
        } else if b > 0 {
            return exact_or_rounded(digits::subnormal_digits(b));
        }
    }
    Rooted::Special(special_root(x))
}

// The square root, whichever step gave it.
pub fn square_root(x: f32) -> f32
    ensures { result ≡ sqrt binary32 x }
{
    match root_by_steps(x) {
        Rooted::Special(r) => r,
        Rooted::Exact(r) => r,
        Rooted::Rounded(r) => r,
    }
}

// The digits of square roots, by whole numbers. Of normal numbers a parabola gives a candidate, of which nothing is
// promised: a test decides. Where that fails the candidate's neighbour is tested, and where that fails too, and for
// subnormal numbers, an interval is halved.
ghost use Rattle.std.specs.Prelude.{◌≡◌, ◌+◌, ◌*◌, ◌/◌, ◌%◌, ◌^◌, ◌<◌, ◌≤◌};
ghost use Rattle.sqrt.specs.Root.{NearestRoot, RoundedDigits, DigitsOf};

use crate::parabolas;

// 2^23, the first digit of a significand, is what the exponent counts: bit patterns from there on are normal numbers'.
pub const LEADING: u64 = 8388608;

// A number whose root is taken, as a whole number.
#[derive(Clone, Copy)]
struct Radicand {
    n: u64,
    ghost bounds: { (0 < n) × (n < 2 ^ 48) },
}

impl Radicand {
    // For the last 24 digits of g * 2^23 and the significand's: 2^23 times the significand, and twice that where g is
    // odd.
    fn of(u: u64) -> Radicand
        requires { u < 2 ^ 24 }
        ensures { result.n ≡ (u % 2 ^ 23 + 2 ^ 23) * 2 ^ 23 * (u / 2 ^ 23 + 1) }
    {
        Radicand {
            n: (u + u.max(LEADING)) * LEADING,
        }
    }

    // √n to the nearest whole number, by halving an interval.
    fn bisected_root(self) -> u64
        ensures { NearestRoot self.n result }
    {
        let n = self.n;
        let mut low: u64 = 0;
        let mut high: u64 = 16777216;
        while high - low > 1 {
            let middle = (low + high) / 2;
            if middle * middle <= n {
                low = middle;
            } else {
                high = middle;
            }
        }
        if n - low * low > low { low + 1 } else { low }
    }

    // √n to the nearest whole number: s where it passes the test, as it does where the candidate was off by one.
    fn second_root(self, s: u64) -> u64
        requires { s ≤ 2 ^ 25 }
        ensures { NearestRoot self.n result }
    {
        if self.n <= s * s + s {
            if s * s < self.n + s {
                return s;
            }
        }
        self.bisected_root()
    }

    // The neighbour of r on the side of √n.
    fn neighbour(self, r: u64) -> u64
        requires { r < 2 ^ 25 }
        ensures { result ≤ 2 ^ 25 }
    {
        if self.n > r * r + r {
            return r + 1;
        }
        r.saturating_sub(1)
    }

    // √n to the nearest whole number: the candidate r where it passes the test, 0 ≤ r r + r - n < 2 r, made in one
    // comparison by a difference that wraps. The bounds of r and s stay clauses: each says no more than that its square
    // fits, and a type that says that is no plainer.
    fn nearest_root(self, r: u64) -> u64
        requires { r < 2 ^ 25 }
        ensures { NearestRoot self.n result }
    {
        if (r * r + r).wrapping_sub(self.n) < 2 * r {
            return r;
        }
        self.second_root(self.neighbour(r))
    }
}

// About the root of n = Radicand::of(u), as a whole number of 24 digits, by a parabola in u with 39 digits right of the
// point: the first seven digits of u choose it. Nothing but r < 2^25 is promised.
fn candidate(u: u64) -> u64
    requires { u < 2 ^ 24 }
    ensures { result < 2 ^ 25 }
{
    let p = parabolas::of_segment(u / 131072);
    let height = p.0;
    let slope = p.1 as u64 * 256;
    let bend = height % 65536;
    let line = height.wrapping_add(slope * u);
    line.wrapping_sub(bend * ((u * u) >> 2)) >> 39
}

// The digits of a root: n, the number whose root is taken, the whole number nearest to √n, and the exponent that the
// result's pattern has.
#[derive(Clone, Copy)]
pub struct Found {
    pub n: u64,
    pub root: u64,
    pub exponent: u64,
    ghost rounded: { RoundedDigits n root exponent },
}

// The digits of the root of the normal number whose pattern is b, f * 2^(g - 277): f is its significand, and g its
// exponent and 127. b plus 125 * 2^23 holds g - 2 above the digits of f: the parity of g goes to n, half of g to the
// exponent.
pub fn normal_digits(b: u64) -> Found
    requires { (2 ^ 23 ≤ b) × (b < 255 * 2 ^ 23) }
    ensures { DigitsOf b result.n result.root result.exponent }
{
    let s = b + 1048576000;
    let u = s % 16777216;
    let radicand = Radicand::of(u);
    Found {
        n: radicand.n,
        root: radicand.nearest_root(candidate(u)),
        exponent: s / 16777216,
    }
}

// The digits of the root of the subnormal number whose pattern is b, by halving: f * 2^g stays b * 2^128.
pub fn subnormal_digits(b: u64) -> Found
    requires { (0 < b) × (b < 2 ^ 23) }
    ensures { DigitsOf b result.n result.root result.exponent }
{
    let mut f = b;
    let mut g: u64 = 128;
    while f < LEADING {
        f = f * 2;
        g = g - 1;
    }
    let radicand = Radicand {
        n: f * LEADING * (g % 2 + 1),
    };
    Found {
        n: radicand.n,
        root: radicand.bisected_root(),
        exponent: g / 2 - 1,
    }
}

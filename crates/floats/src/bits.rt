// Bit patterns of f32. There is one NaN: every NaN pattern reads as it, and it is written as 7fc00000.
ghost use Rattle.std.specs.Prelude.{◌≡◌};
ghost use Rattle.std.specs.Float.{binary32};
ghost use Rattle.std.specs.Float.Ieee.{of_bits, to_bits, nan_bits};

// 2^23, what the exponent counts, and 2^31, the sign.
const LEADING: u32 = 8388608;

const SIGN: u32 = 2147483648;

// Whether n is the pattern of a NaN: the exponent all ones, and some digit.
pub fn is_nan_bits(n: u32) -> bool
    ensures { result ≡ nan_bits binary32 n }
{
    n % SIGN / LEADING == 255 && n % LEADING != 0
}

// The f32 of any pattern.
pub fn f32_from_bits(n: u32) -> f32
    ensures { result ≡ of_bits binary32 n }
{
    if is_nan_bits(n) {
        0.0 / 0.0
    } else {
        f32::from_bits(n)
    }
}

// The pattern of any f32.
pub fn f32_to_bits(x: f32) -> u32
    ensures { result ≡ to_bits binary32 x }
{
    if x != x { 0x7fc0_0000 } else { f32::to_bits(x) }
}

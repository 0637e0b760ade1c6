// Casts, and a number's size.
ghost use Rattle.std.specs.Prelude.{◌≡◌, ◌-◌, ◌*◌, ◌/◌, ◌^◌, ◌<◌};
ghost use Rattle.std.specs.Float.Ieee.{to_unsigned};
ghost use Rattle.rounding.specs.Steps.{pattern, significand};
ghost use Rattle.rounding.specs.Casts.{narrow, absolute};
ghost use Rattle.float.specs.Truncating.{exactness};

use crate::{Exactness, Truncation};
use bits::settled64;

const SIGN: u64 = 0x8000_0000_0000_0000;

// An `f32`'s sign, in its own width and beside an `f64`'s numbers, and its infinity.
const SIGN32: u32 = 0x8000_0000;

const WIDE_SIGN32: u64 = 0x8000_0000;

const INFINITY32: u64 = 0x7f80_0000;

// Digits of an `f64` below its leading one, and how many of them an `f32` has no room for.
const FRACTION: u64 = 52;

const SPARE: u64 = 29;

// The pattern of the least normal `f32` as an `f64`, and how far an `f64`'s exponents lie above an
// `f32`'s: 897 and 896, each with 52 digits below.
const NORMAL: u64 = 0x3810_0000_0000_0000;

const EXPONENTS: u64 = 0x3800_0000_0000_0000;

// The exponent of half the smallest `f32`: what has a lesser one rounds to 0.
const HALF_SMALLEST: u64 = 873;

// Below the normal values one digit more is cut off for each exponent below 897: 29 and 897 in all.
const CUT: u64 = 926;

const TWO_TO_64: f32 = 18446744073709551616.0;

// From here on every `f32` is a whole number.
const TWO_TO_24: u64 = 0x0100_0000;

// From an `f64`'s bit pattern without its sign to an `f32`'s, which may lie past the infinity's.
fn rounded(m: u64) -> u64
    requires { m < 2 ^ 63 }
    ensures { result ≡ pattern (significand (2 ^ 52) m * 1024) (m / 2 ^ 52 - 1) 39 935 }
{
    if NORMAL <= m {
        return bits::nearest(m - EXPONENTS, SPARE);
    }
    let x = m >> FRACTION;
    if x < HALF_SMALLEST {
        return 0;
    }
    bits::nearest((1 << FRACTION) + m % (1 << FRACTION), CUT - x)
}

// x to an `f32` by one rounding, to nearest, ties to even.
pub fn narrowed(x: f64) -> f32
    ensures { result ≡ narrow x }
{
    if x.is_nan() {
        return f32::NAN;
    }
    let w = f64::to_bits(x);
    let size = rounded(w % SIGN).min(INFINITY32);
    f32::from_bits((w / SIGN * WIDE_SIGN32 + size) as u32)
}

// An `f64` holds every `f32`.
pub fn widened(x: f32) -> f64
    ensures { result ≡ x }
{
    settled64(std::num::f32_to_f64_with_nan(x))
}

// Toward zero; NaN and negatives give 0; at most 2 ^ 64 - 1.
pub fn truncated(x: f32) -> Truncation
    ensures { (result.whole ≡ to_unsigned 64 x) × (result.word ≡ exactness x) }
{
    if -1.0 < x && x < TWO_TO_64 {
        let whole = std::num::truncating_f32_to_u64(x);
        let word = if TWO_TO_24 <= whole || whole as f32 == x {
            Exactness::Exact
        } else {
            Exactness::Cut
        };
        return Truncation { whole, word };
    }
    Truncation {
        whole: if -1.0 < x { u64::MAX } else { 0 },
        word: Exactness::Cut,
    }
}

// x without its sign.
pub fn size32(x: f32) -> f32
    ensures { result ≡ absolute x }
{
    if x.is_nan() {
        return f32::NAN;
    }
    f32::from_bits(f32::to_bits(x) % SIGN32)
}

pub fn size64(x: f64) -> f64
    ensures { result ≡ absolute x }
{
    if x.is_nan() {
        return f64::NAN;
    }
    f64::from_bits(f64::to_bits(x) % SIGN)
}

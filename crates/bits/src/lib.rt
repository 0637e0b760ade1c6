// A float's bits, NaN settled, and the whole-number steps that both widths of fused multiply-add
// share. Every function is total.
#![tactic(auto)]

ghost use Rattle.std.specs.Prelude.{◌≡◌, ◌-◌, ◌*◌, ◌/◌, ◌^◌, ◌<◌};
ghost use Rattle.std.specs.Float.{binary32, binary64};
ghost use Rattle.std.specs.Float.Ieee.{of_bits, to_bits};
ghost use Rattle.std.specs.Float.Ieee.Nearest.{closest};
ghost use Rattle.rounding.specs.Steps as Steps;

// The two infinities' patterns without their sign: a NaN's lies above.
const INFINITY32: u32 = 0x7f80_0000;

const INFINITY64: u64 = 0x7ff0_0000_0000_0000;

const SIGN32: u32 = 0x8000_0000;

const SIGN64: u64 = 0x8000_0000_0000_0000;

// x, and any NaN as 7FC00000.
pub fn settled32(x: f32) -> f32
    ensures { result ≡ x }
{
    if x.is_nan() { f32::NAN } else { x }
}

// x, and any NaN as 7FF8000000000000.
pub fn settled64(x: f64) -> f64
    ensures { result ≡ x }
{
    if x.is_nan() { f64::NAN } else { x }
}

pub fn bits32(x: f32) -> u32
    ensures { result ≡ to_bits binary32 x }
{
    std::num::f32_to_bits_with_nan(x)
}

pub fn bits64(x: f64) -> u64
    ensures { result ≡ to_bits binary64 x }
{
    std::num::f64_to_bits_with_nan(x)
}

pub fn from_bits32(n: u32) -> f32
    ensures { result ≡ of_bits binary32 n }
{
    if INFINITY32 < n % SIGN32 {
        f32::NAN
    } else {
        std::num::f32_from_bits_with_nan(n)
    }
}

pub fn from_bits64(n: u64) -> f64
    ensures { result ≡ of_bits binary64 n }
{
    if INFINITY64 < n % SIGN64 {
        f64::NAN
    } else {
        std::num::f64_from_bits_with_nan(n)
    }
}

// The number m * 2 ^ k.
#[derive(Clone, Copy)]
pub struct Part {
    pub m: u64,
    pub k: u64,
}

// A finite value's size in units of its format's smallest value, from its bit pattern without the
// sign. `p` is how many digits the pattern has below the leading one.
pub fn part_of(b: u64, p: u64) -> Part
    ensures { (result.m ≡ Steps.significand (2 ^ p) b) × (result.k ≡ b / 2 ^ p - 1) }
{
    if 63 < p {
        return Part { m: b, k: 0 };
    }
    let x = b >> p;
    let t = b % (1 << p);
    if x == 0 {
        return Part { m: t, k: 0 };
    }
    Part {
        m: (1 << p) + t,
        k: x - 1,
    }
}

// The exponent of the product of two significands m and n, whose exponents add up to k: as small
// as can be where the product is 0.
pub fn exponent_of(m: u64, n: u64, k: u64) -> u64
    ensures { result ≡ Steps.exponent (m * n) k }
{
    if m == 0 || n == 0 {
        return 0;
    }
    k
}

// x / 2 ^ s to an odd number: cut, and with an odd last digit where something was cut off.
pub fn sticky(x: u64, s: u64) -> u64
    ensures { result ≡ Steps.stick x s }
{
    if 63 < s {
        if x == 0 {
            return 0;
        }
        return 1;
    }
    let q = x >> s;
    if x % (1 << s) == 0 {
        return q;
    }
    q + (1 - q % 2)
}

// The same of two words.
pub fn sticky128(x: u128, s: u64) -> u128
    ensures { result ≡ Steps.stick x s }
{
    if 127 < s {
        if x == 0 {
            return 0;
        }
        return 1;
    }
    let q = x >> s;
    if x % (1 << s) == 0 {
        return q;
    }
    q + (1 - q % 2)
}

// 2 ^ 64 / 2
const HALF: u64 = 0x8000_0000_0000_0000;

// n / 2 ^ i to the nearest where i is 64 or more, so that less than 1 is left. Half of 2 ^ 64 is a tie, and goes to 0.
fn nearest_far(n: u64, i: u64) -> u64
    requires { 63 < i }
    ensures { result ≡ closest n (2 ^ i) }
{
    if i == 64 && HALF < n { 1 } else { 0 }
}

// n / 2 ^ i to the nearest whole number, a tie to the even one.
pub fn nearest(n: u64, i: u64) -> u64
    ensures { result ≡ closest n (2 ^ i) }
{
    if i == 0 {
        return n;
    }
    if 63 < i {
        return nearest_far(n, i);
    }
    let q = n >> i;
    let rest = n % (1 << i);
    q + (rest + ((1 << (i - 1)) - 1) + q % 2 >> i)
}

// a * b + c for normal `f64` whose two terms, whole, have two words: one product, one sum, one
// normalisation.
ghost use Rattle.std.specs.Prelude.{◌≡◌, ◌+◌, ◌-◌, ◌*◌, ◌/◌, ◌%◌, ◌^◌, ◌<◌, ◌≤◌, if◌then◌else◌, from_bits};
ghost use Rattle.std.specs.Float.{binary64};
ghost use Rattle.std.specs.Float.Ieee.{round, sum};
ghost use Rattle.std.specs.Float.Ieee.Nearest.{closest};
ghost use Rattle.rounding.specs.Steps.{Near, Sticky};
ghost use Rattle.rounding.specs.Fma.{fma};

use crate::{FRACTION, SIGN};

// The weight of a significand's leading digit.
const HIDDEN: u64 = 0x10_0000_0000_0000;

// Of 63 digits 53 are kept. What is added before the rest is cut off is one less than half of it.
const SPARE: u64 = 10;

const UNDER_HALF: u64 = 0x1ff;

// The exponent at which the last digit kept has the smallest value's weight.
const NORMAL: u64 = 1064;

// A significand at the left end of a word has 11 zeros behind it; at its highest, 72 places up, it stands there moved
// by all but 3 of a word's 64.
const ZEROS: u64 = 11;

const HIGHEST: u64 = 3;

// The value of a sign and of a bit pattern without it. `double_general` has this step too: a bound is asked of its
// caller, and no function that another crate calls asks for one.
fn signed(s: bool, b: u64) -> f64
    requires { b ≤ 0x7ff0_0000_0000_0000 }
    ensures { result ≡ from_bits binary64 ((if s then 0x8000_0000_0000_0000 else 0) + b) }
{
    if s {
        return f64::from_bits(SIGN + b);
    }
    f64::from_bits(b)
}

// A number of 63 digits to the nearest of 53, a tie to the even one.
fn kept(m: u64) -> u64
    requires { m < 2 ^ 63 }
    ensures { result ≡ closest m (2 ^ 10) }
{
    (m + UNDER_HALF + (m >> SPARE) % 2) >> SPARE
}

// q * 2 ^ (64 - t), by one word's shifts: the compiler has no shorter shift of two words.
fn placed(q: u64, t: u64) -> u128
    requires t_least { 3 ≤ t }
    requires t_bound { t ≤ 63 }
    ensures value { result ≡ q * 2 ^ (64 - t) }
    ensures bound { result < 2 ^ 125 }
{
    (((q >> t) as u128) << 64) + (q << (64 - t)) as u128
}

// n * 2 ^ e as one of 63 digits, odd where digits are lost, and its exponent. Here n has two words, so its zeros are
// those of the upper one, and `% 64` only tells the compiler that the shift stays inside a word.
fn top(n: u128, e: u64) -> bits::Part
    requires n_least { 2 ^ 64 ≤ n }
    requires n_bound { n < 2 ^ 126 }
    requires e_least { 1063 ≤ e }
    requires e_bound { e ≤ 3046 }
    ensures m_least { 2 ^ 62 ≤ result.m }
    ensures m_bound { result.m < 2 ^ 63 }
    ensures sticky { Sticky result.m (n * 2 ^ e) (2 ^ result.k) }
    ensures k_least { e < result.k }
    ensures k_bound { result.k ≤ e + 63 }
{
    let t = u64::leading_zeros((n >> 64) as u64) as u64 - 1;
    bits::Part {
        m: bits::sticky128(n << (t % 64), 64) as u64,
        k: e + 64 - t,
    }
}

// ±n * 2 ^ e units of 2 ^ -2148, rounded, where that is a normal value.
fn normal(s: bool, n: u128, e: u64) -> f64
    requires n_least { 2 ^ 64 ≤ n }
    requires n_bound { n < 2 ^ 126 }
    requires e_least { 1063 ≤ e }
    requires e_bound { e ≤ 3046 }
    ensures { result ≡ round binary64 s (n * 2 ^ e) (2 ^ 2148) }
{
    let g = top(n, e);
    signed(s, (g.k - NORMAL << FRACTION) + kept(g.m))
}

// ±n * 2 ^ e units of 2 ^ -2148, rounded, which is a * b + c. What nearly cancels is left to `whole`.
fn apart(a: f64, b: f64, c: f64, s: bool, n: u128, e: u64) -> f64
    requires c_value { 0 < n → fma binary64 a b c ≡ round binary64 s (n * 2 ^ e) (2 ^ 2148) }
    requires n_bound { n < 2 ^ 126 }
    requires e_least { 1063 ≤ e }
    requires e_bound { e ≤ 3046 }
    ensures { result ≡ fma binary64 a b c }
{
    if n >> 64 == 0 {
        return double_general::whole(a, b, c);
    }
    normal(s, n, e)
}

// The sum of the terms p * 2 ^ e and v * 2 ^ e with their signs s and t, for a * b + c.
fn joined(a: f64, b: f64, c: f64, s: bool, t: bool, p: u128, v: u128, e: u64) -> f64
    requires c_value { fma binary64 a b c ≡ sum binary64 s (p * 2 ^ e) t (v * 2 ^ e) (2 ^ 2148) }
    requires p_least { 2 ^ 64 ≤ p }
    requires p_bound { p < 2 ^ 106 }
    requires v_bound { v < 2 ^ 125 }
    requires e_least { 1063 ≤ e }
    requires e_bound { e ≤ 3046 }
    ensures { result ≡ fma binary64 a b c }
{
    if s == t {
        return normal(s, p + v, e);
    }
    if v < p {
        return apart(a, b, c, s, p - v, e);
    }
    apart(a, b, c, t, v - p, e)
}

// a * b + c where the two terms, whole, have two words; x is the sum of the factors' exponents.
pub fn close(a: f64, b: f64, c: f64, i: u64, j: u64, k: u64, x: u64, d: u64) -> f64
    requires near { Near binary64 i j k (72 - d) }
    requires x_value { x ≡ i % 2 ^ 63 / 2 ^ 52 + j % 2 ^ 63 / 2 ^ 52 }
    requires d_bound { d ≤ 60 }
    requires c_value { fma binary64 a b c ≡ fma binary64 (from_bits binary64 i) (from_bits binary64 j) (from_bits binary64 k) }
    ensures { result ≡ fma binary64 a b c }
{
    let p = (HIDDEN + i % HIDDEN) as u128 * (HIDDEN + j % HIDDEN) as u128;
    let v = placed(SIGN + (k << ZEROS) % SIGN, d + HIGHEST);
    let s = (SIGN <= i) != (SIGN <= j);
    joined(a, b, c, s, SIGN <= k, p, v, x - 2)
}

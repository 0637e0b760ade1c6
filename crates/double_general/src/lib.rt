// a * b + c for `f64` by whole numbers, whatever the operands are: a product of significands and a
// third one at the left end of 124 digits, added or subtracted, and rounded once.
#![tactic(auto)]

ghost use Rattle.std.specs.Prelude.{◌≡◌, cond, ◌+◌, ◌-◌, ◌*◌, ◌^◌, ◌≤◌, ◌<◌, max, T};
ghost use Rattle.std.specs.Float.{binary64};
ghost use Rattle.std.specs.Float.Ieee.{of_bits, round, sum};
ghost use Rattle.std.specs.Float.Ieee.Scale.{finite};
ghost use Rattle.rounding.specs.Steps.{stick, Sticky};
ghost use Rattle.rounding.specs.Fma.{fma};

const INFINITY: u64 = 0x7ff0_0000_0000_0000;

const SIGN: u64 = 0x8000_0000_0000_0000;

// Digits of a pattern below its exponent.
const FRACTION: u64 = 52;

// Of 63 digits 53 are kept.
const SPARE: u64 = 10;

// The smallest value is 2 ^ 1092 units of 2 ^ -2166. From the exponent 1082 on, 10 below it, the
// digits to spare are all that is cut off.
const SMALLEST: u64 = 1092;

const NORMAL: u64 = 1082;

// How far a product of 106 digits and a third term of 53 are moved to have 124.
const PRODUCT_UP: u64 = 18;

const THIRD_UP: u64 = 71;

// The third term's exponent beside the product's: 1074 for its unit, 71 less and 18 more.
const THIRD: u64 = 1021;

// The value of a sign and of a bit pattern without it.
fn signed(s: bool, b: u64) -> f64
    requires { b ≤ 0x7ff0_0000_0000_0000 }
    ensures { result ≡ of_bits binary64 (cond s 0x8000_0000_0000_0000 0 + b) }
{
    if s {
        return f64::from_bits(SIGN + b);
    }
    f64::from_bits(b)
}

// n * 2 ^ e as one of 63 digits, odd where digits are lost, and its exponent; for an n that is not 0.
fn top(n: u128, e: u64) -> bits::Part
    requires n_nonzero { 0 < n }
    requires n_bound { n < 2 ^ 125 }
    requires e_least { 126 ≤ e }
    requires e_bound { e < 4200 }
    ensures m_least { 2 ^ 62 ≤ result.m }
    ensures m_bound { result.m < 2 ^ 63 }
    ensures sticky { Sticky result.m (n * 2 ^ e) (2 ^ result.k) }
    ensures k_bound { result.k ≤ e + 64 }
{
    let t = u128::leading_zeros(n) as u64 - 1;
    bits::Part {
        m: bits::sticky128(n << t, 64) as u64,
        k: e + 64 - t,
    }
}

// ±n * 2 ^ e units of 2 ^ -2166, rounded.
fn made(s: bool, n: u128, e: u64) -> f64
    requires n_bound { n < 2 ^ 125 }
    requires e_least { 126 ≤ e }
    requires e_bound { e < 4200 }
    ensures { result ≡ round binary64 s (n * 2 ^ e) (2 ^ 2166) }
{
    if n == 0 {
        return signed(s, 0);
    }
    let g = top(n, e);
    let k = g.k;
    if NORMAL <= k {
        let kept = bits::nearest(g.m, SPARE);
        return signed(s, ((k - NORMAL << FRACTION) + kept).min(INFINITY));
    }
    signed(s, bits::nearest(g.m, SMALLEST - k).min(INFINITY))
}

// The two terms, the one with the smaller exponent moved to the other's.
#[derive(Clone, Copy)]
struct Terms {
    u: u128,
    v: u128,
    e: u64,
}

// p * 2 ^ x and m * 2 ^ y with 124 digits each.
fn aligned(p: u128, x: u64, m: u64, y: u64) -> Terms
    requires p_bound { p < 2 ^ 106 }
    requires m_bound { m < 2 ^ 53 }
    ensures u_value { result.u ≡ stick (p * 2 ^ 18) (y - x) }
    ensures v_value { result.v ≡ stick (m * 2 ^ 71) (x - y) }
    ensures e_value { result.e ≡ max x y }
{
    let m = m as u128;
    if x < y {
        return Terms {
            u: bits::sticky128(p << PRODUCT_UP, y - x),
            v: m << THIRD_UP,
            e: y,
        };
    }
    Terms {
        u: p << PRODUCT_UP,
        v: bits::sticky128(m << THIRD_UP, x - y),
        e: x,
    }
}

// The sum of the terms, with their signs.
fn total(s: bool, t: bool, w: Terms) -> f64
    requires u_bound { w.u < 2 ^ 124 }
    requires v_bound { w.v < 2 ^ 124 }
    requires e_least { 126 ≤ w.e }
    requires e_bound { w.e < 4200 }
    ensures { result ≡ sum binary64 s (w.u * 2 ^ w.e) t (w.v * 2 ^ w.e) (2 ^ 2166) }
{
    if s == t {
        return made(s, w.u + w.v, w.e);
    }
    if w.u < w.v {
        return made(t, w.v - w.u, w.e);
    }
    if w.v < w.u {
        return made(s, w.u - w.v, w.e);
    }
    0.0
}

fn of_patterns(a: u64, b: u64, c: u64) -> f64
    requires a_finite { T (finite (of_bits binary64 a)) }
    requires b_finite { T (finite (of_bits binary64 b)) }
    requires c_finite { T (finite (of_bits binary64 c)) }
    ensures { result ≡ fma binary64 (of_bits binary64 a) (of_bits binary64 b) (of_bits binary64 c) }
{
    let x = bits::part_of(a % SIGN, FRACTION);
    let y = bits::part_of(b % SIGN, FRACTION);
    let z = bits::part_of(c % SIGN, FRACTION);
    let p = x.m as u128 * y.m as u128;
    let e = bits::exponent_of(x.m, y.m, x.k + y.k);
    let w = aligned(p, e, z.m, z.k + THIRD);
    let s = (SIGN <= a) != (SIGN <= b);
    total(s, SIGN <= c, w)
}

// a * b + c: by whole numbers where all three are finite, else what the infinity or NaN among them
// gives.
pub fn whole(a: f64, b: f64, c: f64) -> f64
    ensures { result ≡ fma binary64 a b c }
{
    if !a.is_finite() || !b.is_finite() {
        return bits::settled64(a * b + c);
    }
    if !c.is_finite() {
        return bits::settled64(c);
    }
    of_patterns(f64::to_bits(a), f64::to_bits(b), f64::to_bits(c))
}

// a * b + c for finite `f32` by whole numbers, whatever their sizes: a product of significands and a
// third one at the left end of 62 digits, added or subtracted, and rounded once.
ghost use Rattle.std.specs.Prelude.{◌≡◌, ◌+◌, ◌-◌, ◌*◌, ◌^◌, ◌<◌, ◌≤◌, max, T, if◌then◌else◌, from_bits};
ghost use Rattle.std.specs.Float.{binary32};
ghost use Rattle.std.specs.Float.Ieee.{round, sum};
ghost use Rattle.std.specs.Float.Ieee.Scale as Scale;
ghost use Rattle.rounding.specs.Steps.{stick};
ghost use Rattle.rounding.specs.Fma.{fma};

// A pattern is a sign, an exponent of 8 digits and a fraction of 23.
const SIGN: u64 = 0x8000_0000;

const FRACTION: u64 = 23;

const INFINITY: u64 = 0x7f80_0000;

// Of 63 digits 24 are kept.
const SPARE: u64 = 39;

// The smallest value is 2 ^ 163 units of 2 ^ -312. From the exponent 124 on, 39 below it, the digits
// to spare are all that is cut off.
const SMALLEST: u64 = 163;

const NORMAL: u64 = 124;

// How far a product of 48 digits and a third term of 24 are moved to have 62.
const PRODUCT_UP: u64 = 14;

const THIRD_UP: u64 = 38;

// The third term's exponent beside the product's: 149 for its unit, 38 less and 14 more.
const THIRD: u64 = 125;

// The value of a sign and of a bit pattern without it.
fn signed(s: bool, b: u64) -> f32
    requires { b ≤ 0x7f80_0000 }
    ensures { result ≡ from_bits binary32 ((if s then 0x8000_0000 else 0) + b) }
{
    if s {
        return f32::from_bits((SIGN + b) as u32);
    }
    f32::from_bits(b as u32)
}

// n * 2 ^ e with 63 digits, for an n that is not 0.
fn grown(n: u64, e: u64) -> bits::Part
    requires n_nonzero { 0 < n }
    requires n_bound { n < 2 ^ 63 }
    requires e_least { 62 ≤ e }
    ensures m_least { 2 ^ 62 ≤ result.m }
    ensures m_bound { result.m < 2 ^ 63 }
    ensures k_value { result.m * 2 ^ result.k ≡ n * 2 ^ e }
    ensures k_le_e { result.k ≤ e }
    ensures e_bound { e ≤ result.k + 62 }
{
    let t = u64::leading_zeros(n) as u64 - 1;
    bits::Part {
        m: n << t,
        k: e - t,
    }
}

// ±n * 2 ^ e units of 2 ^ -312, rounded.
fn made(s: bool, n: u64, e: u64) -> f32
    requires n_bound { n < 2 ^ 63 }
    requires e_least { 62 ≤ e }
    requires e_bound { e < 1024 }
    ensures { result ≡ round binary32 s (n * 2 ^ e) (2 ^ 312) }
{
    if n == 0 {
        return signed(s, 0);
    }
    let g = grown(n, e);
    let k = g.k;
    if NORMAL <= k {
        let kept = bits::nearest(g.m, SPARE);
        return signed(s, ((k - NORMAL << FRACTION) + kept).min(INFINITY));
    }
    signed(s, bits::nearest(g.m, SMALLEST - k).min(INFINITY))
}

// The two terms, the one with the smaller exponent moved to the other's.
#[derive(Clone, Copy)]
struct Terms {
    u: u64,
    v: u64,
    e: u64,
}

// p * 2 ^ x and m * 2 ^ y with 62 digits each.
fn aligned(p: u64, x: u64, m: u64, y: u64) -> Terms
    requires p_bound { p < 2 ^ 48 }
    requires m_bound { m < 2 ^ 24 }
    ensures u_value { result.u ≡ stick (p * 2 ^ 14) (y - x) }
    ensures v_value { result.v ≡ stick (m * 2 ^ 38) (x - y) }
    ensures e_value { result.e ≡ max x y }
{
    if x < y {
        return Terms {
            u: bits::sticky(p << PRODUCT_UP, y - x),
            v: m << THIRD_UP,
            e: y,
        };
    }
    Terms {
        u: p << PRODUCT_UP,
        v: bits::sticky(m << THIRD_UP, x - y),
        e: x,
    }
}

// The sum of the terms, with their signs.
fn total(s: bool, t: bool, w: Terms) -> f32
    requires u_bound { w.u < 2 ^ 62 }
    requires v_bound { w.v < 2 ^ 62 }
    requires e_least { 62 ≤ w.e }
    requires e_bound { w.e < 1024 }
    ensures { result ≡ sum binary32 s (w.u * 2 ^ w.e) t (w.v * 2 ^ w.e) (2 ^ 312) }
{
    if s == t {
        return made(s, w.u + w.v, w.e);
    }
    if w.u < w.v {
        return made(t, w.v - w.u, w.e);
    }
    if w.v < w.u {
        return made(s, w.u - w.v, w.e);
    }
    0.0
}

fn of_patterns(a: u64, b: u64, c: u64) -> f32
    requires a_bound { a < 2 ^ 32 }
    requires b_bound { b < 2 ^ 32 }
    requires c_bound { c < 2 ^ 32 }
    requires a_finite { T (Scale.finite (from_bits binary32 a)) }
    requires b_finite { T (Scale.finite (from_bits binary32 b)) }
    requires c_finite { T (Scale.finite (from_bits binary32 c)) }
    ensures { result ≡ fma binary32 (from_bits binary32 a) (from_bits binary32 b) (from_bits binary32 c) }
{
    let x = bits::part_of(a % SIGN, FRACTION);
    let y = bits::part_of(b % SIGN, FRACTION);
    let z = bits::part_of(c % SIGN, FRACTION);
    let p = x.m * y.m;
    let e = bits::exponent_of(x.m, y.m, x.k + y.k);
    let w = aligned(p, e, z.m, z.k + THIRD);
    let s = (SIGN <= a) != (SIGN <= b);
    total(s, SIGN <= c, w)
}

// a * b + c.
pub fn whole(a: f32, b: f32, c: f32) -> f32
    requires a_finite { T (Scale.finite a) }
    requires b_finite { T (Scale.finite b) }
    requires c_finite { T (Scale.finite c) }
    ensures { result ≡ fma binary32 a b c }
{
    of_patterns(
        f32::to_bits(a) as u64,
        f32::to_bits(b) as u64,
        f32::to_bits(c) as u64,
    )
}

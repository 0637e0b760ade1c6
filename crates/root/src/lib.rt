// The nearest square root of an `f32`.
#![tactic(auto)]

ghost use Rattle.std.specs.Prelude.{◌≡◌, ◌^◌, ◌<◌, ◌≤◌, from_bits};
ghost use Rattle.std.specs.Float.{binary32};
ghost use Rattle.root.specs.Root as Root;
ghost use Rattle.root.specs.Steps.{NearestWhole};

// Digits of an `f32` below its leading one, and the pattern of the least normal value.
const FRACTION: u64 = 23;

const NORMAL: u64 = 0x0080_0000;

// The pattern of 1/2.
const HALF: u64 = 0x3f00_0000;

// This and half the pattern of a value make the pattern of about its root.
const START: u32 = 0x1fbb_6800;

// About the root of x, which has the pattern b, less a pattern `base`. Only the time that
// `nearest_root` takes turns on how near it comes. The first guess is off by 35 in 1000. The mean of
// it and x divided by it is too large by 6 in 10000 at most, of which half is taken off, and the
// mean after that is off by what its roundings make.
fn guess(b: u32, base: u64) -> u64
    requires { b < 2139095040 }
    ensures { result ≤ 2 ^ 25 }
{
    let x = f32::from_bits(b);
    let first = f32::from_bits((b >> 1) + START);
    let second = (first + x / first) * 0.49985;
    let third = (second + x / second) * 0.5;
    let g = (bits::bits32(third) as u64).wrapping_sub(base);
    if g <= 0x0200_0000 { g } else { NORMAL }
}

// The whole number nearest to the root of n, from any g: q with q - 1/2 < root < q + 1/2.
fn nearest_root(n: u64, g: u64) -> u64
    requires n_least { 2 ^ 46 ≤ n }
    requires n_bound { n < 2 ^ 48 }
    requires g_bound { g ≤ 2 ^ 25 }
    ensures { NearestWhole n result }
{
    let mut q = g;
    while n + q <= q * q {
        q -= 1;
    }
    while q * q + q < n {
        q += 1;
    }
    q
}

// The root of a subnormal value with the pattern b. It is b units of 2 ^ -149, and n is b with 47 or
// 48 digits, as makes the power of two a square.
fn subnormal(b: u64) -> f32
    requires b_nonzero { 0 < b }
    requires b_bound { b < 2 ^ 23 }
    ensures { result ≡ Root.root binary32 (from_bits binary32 b) }
{
    let t = u64::leading_zeros(b) as u64 - 40;
    let odd = t % 2;
    let m = b << t;
    let g = guess((HALF + (odd << FRACTION) + m) as u32, HALF);
    let q = nearest_root(m << (FRACTION + odd), g);
    f32::from_bits((((126 - t - odd) / 2 << FRACTION) + q) as u32)
}

// The root of a finite value above zero with the pattern b. It is m * 2 ^ k units of 2 ^ -149 with 24
// digits in m, and n is m with 47 or 48 digits.
fn positive(b: u64) -> f32
    requires b_nonzero { 0 < b }
    requires b_bound { b < 2139095040 }
    ensures { result ≡ Root.root binary32 (from_bits binary32 b) }
{
    if b < NORMAL {
        return subnormal(b);
    }
    let k = (b >> FRACTION) - 1;
    let n = (b % NORMAL + NORMAL) << (FRACTION + k % 2);
    let base = (k + 126) / 2 << FRACTION;
    let q = nearest_root(n, guess(b as u32, base));
    f32::from_bits((base + q) as u32)
}

// The `f32` nearest to the root of x. Zeros keep their sign; a NaN and what is below zero give NaN.
pub fn root(x: f32) -> f32
    ensures { result ≡ Root.root binary32 x }
{
    if 0.0 < x && x < f32::INFINITY {
        positive(f32::to_bits(x) as u64)
    } else if 0.0 <= x {
        x
    } else {
        f32::NAN
    }
}

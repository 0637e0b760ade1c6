// Fused multiply-add for `f64`: a * b + c with the product exact and one rounding.
//
// A finite value is m * 2 ^ k units of its format's smallest value. The product of two is a number
// of squares of that unit, and so is the third value: `quick` takes both whole where their
// exponents are near, and `double_general` takes the rest, the smaller term cut to an odd number.
#![tactic(auto)]

mod quick;

ghost use Rattle.std.specs.Prelude.{◌≡◌};
ghost use Rattle.std.specs.Float.{binary64};
ghost use Rattle.rounding.specs.Fma as Spec;

// A pattern is a sign, an exponent of 11 digits and a fraction of 52.
const SIGN: u64 = 0x8000_0000_0000_0000;

const FRACTION: u64 = 52;

// How far a normal value's exponent lies above the least, 1: 2047 is an infinity's.
const NORMALS: u64 = 2045;

// The quick way's third term: its least exponent, and how far above that it may lie.
const THIRD_LEAST: u64 = 62;

const THIRD_ABOVE: u64 = 1923;

// Exponents z, x and y put the third term z + 1075 - (x + y) places above the product's last digit. It
// stands highest at 72, so x + y - (z + 1003) is how far below that, and at most 60 is taken.
const THIRD_DOWN: u64 = 1003;

const LOWEST: u64 = 60;

// a * b + c where none of the three is a zero, by whole numbers; it is right for zeros too. The
// quick way takes normal factors, and a third term whose exponent lies 62 or more inside the range
// and near the product's.
fn nonzero(a: f64, b: f64, c: f64) -> f64
    ensures { result ≡ Spec.fma binary64 a b c }
{
    if a.is_nan() || b.is_nan() || c.is_nan() {
        return f64::NAN;
    }
    let i = f64::to_bits(a);
    let j = f64::to_bits(b);
    let k = f64::to_bits(c);
    let x = i % SIGN >> FRACTION;
    let y = j % SIGN >> FRACTION;
    let z = k % SIGN >> FRACTION;
    if THIRD_ABOVE < z.wrapping_sub(THIRD_LEAST) {
        return double_general::whole(a, b, c);
    }
    if NORMALS < y.wrapping_sub(1) {
        return double_general::whole(a, b, c);
    }
    if NORMALS < x.wrapping_sub(1) {
        return double_general::whole(a, b, c);
    }
    let d = (x + y).wrapping_sub(z + THIRD_DOWN);
    if d <= LOWEST {
        return quick::close(a, b, c, i, j, k, x + y, d);
    }
    double_general::whole(a, b, c)
}

// A zero needs no whole numbers: without a factor the product is a zero exactly, and without a
// third term one product is the one rounding. Silence is zeros, so they are tested first.
pub fn fma(a: f64, b: f64, c: f64) -> f64
    ensures { result ≡ Spec.fma binary64 a b c }
{
    if a == 0.0 || b == 0.0 {
        return bits::settled64(a * b + c);
    }
    if c == 0.0 {
        return bits::settled64(a * b);
    }
    nonzero(a, b, c)
}

// Fused multiply-add for `f32`: a * b + c with the product exact and one rounding.
//
// An `f64` holds the product of two `f32`, so its one addition rounds the sum to 53 digits. Half of
// an `f32`'s last place added to that, and the 29 digits past it cut off, is the sum rounded once
// to 24, unless the 53 digits lie halfway between two `f32`, where what was lost decides. If nothing
// was, the even one is taken; what is left `general` takes by whole numbers.
#![tactic(auto)]

mod general;

ghost use Rattle.std.specs.Prelude.{◌≡◌};
ghost use Rattle.std.specs.Float.{binary32};
ghost use Rattle.rounding.specs.Fma as Spec;
ghost use Rattle.rounding.specs.Steps.{Summed};

// An `f64`'s pattern is a sign, an exponent of 11 digits and a fraction of 52.
pub const SIGN: u64 = 0x8000_0000_0000_0000;

pub const FRACTION: u64 = 52;

// The exponent of an infinity.
const ONES: u64 = 2047;

// Where the cut serves: the exponent of the least normal `f32`, and how far above it lies the last
// but one. A sum with the last may round to an infinity.
pub const LEAST: u64 = 897;

pub const ABOVE: u64 = 252;

// An `f32`'s last place in an `f64`'s pattern, half of it, and the next place up, which is 0 in the
// even one of two neighbours.
pub const LAST_PLACE: u64 = 0x2000_0000;

pub const HALF: u64 = 0x1000_0000;

const EVEN: u64 = 0x4000_0000;

// An `f32`'s pattern: its sign, and the digits below its exponent.
const SIGN32: u64 = 0x8000_0000;

const FRACTION32: u64 = 23;

// A sum with exponent e is exact where no digit of the product, whose factors have exponents x and y,
// and none of the third term, which has z, lies past its last: e is at most x + y + PRODUCT and
// z + THIRD.
const PRODUCT: u64 = 775;

const THIRD: u64 = 925;

// a * b + c where no cut of its `f64` s gives it. A zero and an infinity are exact. An s halfway between
// two `f32` is exact, and goes to the even one, where no digit of the product or of c lies past its last.
// It is long and called twice, so LLVM leaves it a function, and puts `fma` into the code of the stages.
fn rest(a: f32, b: f32, c: f32, s: f64) -> f32
    requires { Summed a b c s }
    ensures { result ≡ Spec.fma binary32 a b c }
{
    let n = f64::to_bits(s);
    let size = n % SIGN;
    let e = size >> FRACTION;
    if e.wrapping_sub(LEAST) <= ABOVE {
        let m = n + HALF;
        let x = f32::to_bits(a) as u64 % SIGN32 >> FRACTION32;
        let y = f32::to_bits(b) as u64 % SIGN32 >> FRACTION32;
        let z = f32::to_bits(c) as u64 % SIGN32 >> FRACTION32;
        if m % LAST_PLACE == 0 && e <= x + y + PRODUCT && e <= z + THIRD {
            return f64::from_bits(m - m % EVEN) as f32;
        }
    } else if size == 0 || e == ONES {
        return s as f32;
    }
    general::whole(a, b, c)
}

// With a zero for a factor the product is a zero exactly, and the sum is all the rounding there is;
// with one for the third term, the product is.
pub fn fma(a: f32, b: f32, c: f32) -> f32
    ensures { result ≡ Spec.fma binary32 a b c }
{
    if a.is_nan() || b.is_nan() || c.is_nan() {
        return f32::NAN;
    }
    let p = a as f64 * b as f64;
    let s = p + c as f64;
    if s.is_nan() {
        return f32::NAN;
    }
    let n = f64::to_bits(s);
    if ABOVE < (n % SIGN >> FRACTION).wrapping_sub(LEAST) {
        if p == 0.0 {
            return a * b + c;
        }
        if c == 0.0 {
            return a * b;
        }
        return rest(a, b, c, s);
    }
    let m = n + HALF;
    if m % LAST_PLACE == 0 {
        return rest(a, b, c, s);
    }
    f64::from_bits(m - m % LAST_PLACE) as f32
}

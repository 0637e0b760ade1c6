// Fused multiply-add of `f32` that an `f64` holds, so that a chain of steps casts nothing on its way.
ghost use Rattle.std.specs.Prelude.{◌≡◌, T};
ghost use Rattle.std.specs.Float.{binary32};
ghost use Rattle.std.specs.Float.Ieee.{fits};
ghost use Rattle.rounding.specs.Casts.{narrow};
ghost use Rattle.rounding.specs.Fma.{fma};

use crate::casts::{narrowed, widened};
use single::{ABOVE, FRACTION, HALF, LAST_PLACE, LEAST, SIGN};

// a * b + c of the `f32` nearest to a, b and c.
fn of_nearest(a: f64, b: f64, c: f64) -> f64
    ensures { result ≡ fma binary32 (narrow a) (narrow b) (narrow c) }
{
    widened(single::fma(narrowed(a), narrowed(b), narrowed(c)))
}

// a * b + c of three `f32`, as `single` takes it, and so an `f32` again. Where another `f64` is among
// them there is an answer, and no more is said of it.
pub fn wide32(a: f64, b: f64, c: f64) -> f64
    ensures { T (fits binary32 a) → T (fits binary32 b) → T (fits binary32 c) → result ≡ fma binary32 a b c }
{
    let s = a * b + c;
    if s.is_nan() {
        return f64::NAN;
    }
    let n = f64::to_bits(s);
    if ABOVE < (n % SIGN >> FRACTION).wrapping_sub(LEAST) {
        if s == 0.0 {
            return s;
        }
        return of_nearest(a, b, c);
    }
    let m = n + HALF;
    if m % LAST_PLACE == 0 {
        return of_nearest(a, b, c);
    }
    f64::from_bits(m - m % LAST_PLACE)
}

// Float arithmetic as document 01 has it: fused multiply-add in both widths, and of `f32` that an
// `f64` holds; size, truncation, `f64` to `f32` and back, and bits; and document 02's root. Every
// function is total, and every NaN that it returns is the quiet 7FC00000 or 7FF8000000000000.
#![tactic(auto)]

mod casts;
mod wide;

ghost use Rattle.std.specs.Prelude.{◌≡◌};
ghost use Rattle.std.specs.Float.{binary32, binary64};
ghost use Rattle.rounding.specs.Fma.{fma};
ghost use Rattle.root.specs.Root as Root;
ghost use Rattle.float.specs.Truncating as truncating;

pub use bits::{bits32, bits64, from_bits32, from_bits64, settled32, settled64};
pub use casts::{narrowed, size32, size64, truncated, widened};
pub use wide::wide32;

// What truncation says of the number that it took: that it is the whole number given back, or that something was
// thrown away.
#[derive(Clone, Copy, PartialEq, Eq, Debug)]
pub enum Exactness {
    Exact,
    Cut,
}

#[derive(Clone, Copy, PartialEq, Eq, Debug)]
pub struct Truncation {
    pub whole: u64,
    pub word: Exactness,
}

// The word as a host has it.
impl From<Exactness> for u32 {
    ghost from_gives = { λ w n. n ≡ truncating.number w };

    fn from(word: Exactness) -> u32 {
        match word {
            Exactness::Exact => 1,
            Exactness::Cut => 2,
        }
    }
}

// a * b + c, the product exact and one rounding.
pub fn fma32(a: f32, b: f32, c: f32) -> f32
    ensures { result ≡ fma binary32 a b c }
{
    single::fma(a, b, c)
}

pub fn fma64(a: f64, b: f64, c: f64) -> f64
    ensures { result ≡ fma binary64 a b c }
{
    double::fma(a, b, c)
}

// The nearest square root: zeros keep their sign, and below zero there is none.
pub fn root32(x: f32) -> f32
    ensures { result ≡ Root.root binary32 x }
{
    root::root(x)
}

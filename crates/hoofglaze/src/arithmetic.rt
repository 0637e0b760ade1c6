// Float arithmetic under C names, each call with the contract of the function that it hands on to.
// Assumes nothing.
ghost use Rattle.std.specs.Prelude.{◌≡◌};
ghost use Rattle.std.specs.Float.{binary32, binary64};
ghost use Rattle.std.specs.Float.Ieee.{of_bits, to_bits, to_unsigned};
ghost use Rattle.rounding.specs.Fma.{fma};
ghost use Rattle.rounding.specs.Casts.{narrow, absolute};
ghost use Rattle.float.specs.Truncating.{exactness, number};
ghost use Rattle.root.specs.Root.{root};

#[unsafe(no_mangle)]
pub extern "C" fn hoofglaze_fma32(a: f32, b: f32, c: f32) -> f32
    ensures { result ≡ fma binary32 a b c }
{
    float::fma32(a, b, c)
}

#[unsafe(no_mangle)]
pub extern "C" fn hoofglaze_fma64(a: f64, b: f64, c: f64) -> f64
    ensures { result ≡ fma binary64 a b c }
{
    float::fma64(a, b, c)
}

#[unsafe(no_mangle)]
pub extern "C" fn hoofglaze_root32(x: f32) -> f32
    ensures { result ≡ root binary32 x }
{
    float::root32(x)
}

#[unsafe(no_mangle)]
pub extern "C" fn hoofglaze_size32(x: f32) -> f32
    ensures { result ≡ absolute x }
{
    float::size32(x)
}

#[unsafe(no_mangle)]
pub extern "C" fn hoofglaze_size64(x: f64) -> f64
    ensures { result ≡ absolute x }
{
    float::size64(x)
}

#[repr(C)]
#[derive(Clone, Copy)]
pub struct TruncationNumbered {
    pub whole: u64,
    pub word: u32,
}

#[unsafe(no_mangle)]
pub extern "C" fn hoofglaze_truncated(x: f32) -> TruncationNumbered
    ensures { (result.whole ≡ to_unsigned 64 x) × (result.word ≡ number (exactness x)) }
{
    let t = float::truncated(x);
    TruncationNumbered {
        whole: t.whole,
        word: t.word.into(),
    }
}

#[unsafe(no_mangle)]
pub extern "C" fn hoofglaze_narrowed(x: f64) -> f32
    ensures { result ≡ narrow x }
{
    float::narrowed(x)
}

#[unsafe(no_mangle)]
pub extern "C" fn hoofglaze_widened(x: f32) -> f64
    ensures { result ≡ x }
{
    float::widened(x)
}

#[unsafe(no_mangle)]
pub extern "C" fn hoofglaze_bits32(x: f32) -> u32
    ensures { result ≡ to_bits binary32 x }
{
    float::bits32(x)
}

#[unsafe(no_mangle)]
pub extern "C" fn hoofglaze_bits64(x: f64) -> u64
    ensures { result ≡ to_bits binary64 x }
{
    float::bits64(x)
}

#[unsafe(no_mangle)]
pub extern "C" fn hoofglaze_from_bits32(n: u32) -> f32
    ensures { result ≡ of_bits binary32 n }
{
    float::from_bits32(n)
}

#[unsafe(no_mangle)]
pub extern "C" fn hoofglaze_from_bits64(n: u64) -> f64
    ensures { result ≡ of_bits binary64 n }
{
    float::from_bits64(n)
}

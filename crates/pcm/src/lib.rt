// Signed 16-bit samples: read from a word of two bytes as an f32, and written as one.
#![tactic(auto)]

ghost use Rattle.std.specs.Prelude.{◌≤◌, false, ◌≡◌};
ghost use Rattle.std.specs.Float.Ieee.{lt};
ghost use Rattle.answer.specs.Figures.{nought};
ghost use Rattle.pcm.specs.Samples as Samples;

// What a sample is divided by when it is read, and a number multiplied by when it is written.
const SCALE_IN: f32 = 32768.0;

const SCALE_OUT: f32 = 32768.0;

// The size of the lowest sample that is written, and of the highest.
const LOWEST: u64 = 32768;

const HIGHEST: u64 = 32767;

// The number that a word's sample is read as.
pub fn heard(word: u16) -> f32
    ensures { result ≡ Samples.heard (Samples.sample_of word) }
{
    word.cast_signed() as f32 / SCALE_IN
}

// A size to the nearest whole number, ties to even, held to most; NaN as 0.
fn whole_size(most: u64, size: f32) -> u64
    requires { (most ≤ 0x8000) × (lt size nought ≡ false) }
    ensures { result ≡ Samples.whole_size most size }
{
    let t = float::truncated(size);
    let n = t.whole;
    if most <= n {
        return most;
    }
    let tie = n as f32 + 0.5;
    if size < tie {
        return n;
    }
    if tie < size {
        return n + 1;
    }
    n + n % 2
}

// The word of the sample that x is written as.
pub fn written(x: f32) -> u16
    ensures { result ≡ Samples.word_of (Samples.written x) }
{
    let y = x * SCALE_OUT;
    if y < 0.0 {
        let n = whole_size(LOWEST, float::size32(y));
        ((0x1_0000 - n) % 0x1_0000) as u16
    } else {
        whole_size(HIGHEST, y) as u16
    }
}

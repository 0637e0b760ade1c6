// A block's samples, in parts: to f64, through the bands one after the other, and back by one rounding.
ghost use Rattle.std.specs.Prelude.{length, map, ◌≡◌};
ghost use Rattle.rounding.specs.Casts as Casts;
ghost use Rattle.eq.specs.Calls.{after, outputs};

use eq_bands::{Registers, Settings};

// A part of a block is at most as long: its samples as f64 lie on the stack.
const PART: usize = 64;

fn widen(input: &[f32], buffer: &mut [f64])
    requires { length input.now ≡ length buffer.old }
    ensures { buffer.new ≡ input.now }
{
    for (i, x) in input.iter().enumerate() {
        buffer[i] = float::widened(*x);
    }
}

fn narrow(buffer: &[f64], output: &mut [f32])
    requires { length buffer.now ≡ length output.old }
    ensures { output.new ≡ map Casts.narrow buffer.now }
{
    for (i, x) in buffer.iter().enumerate() {
        output[i] = float::narrowed(*x);
    }
}

// Band by band over a buffer, so that a band's numbers stay at hand.
fn run_in(s: &Settings, m: &mut Registers, input: &[f32], output: &mut [f32], buffer: &mut [f64])
    requires { (length input.now ≡ length output.old) × (length input.now ≡ length buffer.old) }
    ensures { (m.new ≡ after s.now m.old input.now) × (output.new ≡ outputs s.now m.old input.now) }
{
    widen(input, buffer);
    m.through(s, buffer);
    narrow(buffer, output);
}

// A block's samples, one after the other.
pub fn run(s: &Settings, m: &mut Registers, input: &[f32], output: &mut [f32])
    requires { length input.now ≡ length output.old }
    ensures { (m.new ≡ after s.now m.old input.now) × (output.new ≡ outputs s.now m.old input.now) }
{
    let mut buffer = [0.0; PART];
    for i in (0..input.len()).step_by(PART) {
        let n = PART.min(input.len() - i);
        let k = i + n;
        run_in(s, m, &input[i..k], &mut output[i..k], &mut buffer[..n]);
    }
}

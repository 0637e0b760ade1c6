// Samples one after the other, each a word of two bytes, the lower byte first.
ghost use Rattle.std.specs.Prelude.{length, ◌≡◌};
ghost use Rattle.answer.specs.Buffers.{over};
ghost use Rattle.noise_gate.specs.Answers.{passes};
ghost use Rattle.pcm_gate.specs.Pass as Pass;

use noise_gate::{Gate, Passed};

pub fn run(g: &mut Gate, input: &[u8], output: &mut [u8]) -> Passed
    requires { length input.now ≡ length output.old }
    ensures told { passes g.new result ≡ Pass.ran g.old.settings g.old.registers input.now }
    ensures written { output.new ≡ over (Pass.outputs g.old.settings g.old.registers input.now) output.old }
{
    let mut now = g.registers;
    let mut count: usize = 0;
    let (pairs, _) = input.as_chunks::<2>();
    for (k, pair) in pairs.iter().enumerate() {
        let x = pcm::heard(u16::from_le_bytes(*pair));
        let stepped = noise_gate_sample::step(g.settings, now, x);
        now = stepped.registers;
        let [low, high] = pcm::written(stepped.output).to_le_bytes();
        output[2 * k] = low;
        output[2 * k + 1] = high;
        if stepped.aim {
            count += 1;
        }
    }
    g.registers = now;
    Passed {
        count,
        quiet: now.quiet,
    }
}

// The noise gate over signed 16-bit samples, of any number, and the gate of document 01's program.
#![tactic(auto)]

mod program;
mod samples;

ghost use Rattle.std.specs.Prelude.{◌≡◌};
ghost use Rattle.noise_gate.specs.Answers.{told_block};
ghost use Rattle.pcm_gate.specs.Pass as Pass;

use answer::Refusal;
use noise_gate::{Gate, Passed};
pub use program::program_gate;
use stage::Stage;

// Bytes of samples, and the buffer for those that they give: 9, 7. A last odd byte of the output
// stays as it was.
#[tactic(auto, unfolding(crate::specs::Pass::pass))]
pub fn pass(g: &mut Gate, input: &[u8], output: &mut [u8]) -> Result<Passed, Refusal>
    ensures { (told_block g.new result, output.new) ≡ Pass.pass g.old input.now output.old }
{
    g.check()?;
    if input.len() != output.len() {
        return Err(Refusal::LengthsDiffer);
    }
    Ok(samples::run(g, input, output))
}

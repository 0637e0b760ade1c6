// A block's samples, with a record of their aims where there is room for it.
ghost use Rattle.std.specs.Prelude.{length, ◌≡◌};
ghost use Rattle.noise_gate.specs.Answers.{passes, told_block};
ghost use Rattle.noise_gate.specs.Calls as Calls;

use crate::{Gate, Passed};
use answer::Refusal;
use stage::Stage;

impl Gate {
    // A block's samples, one after the other. A record that is as long as they are holds their aims then.
    pub(crate) fn run_recorded(
        &mut self,
        input: &[f32],
        output: &mut [f32],
        aims: &mut [u8],
    ) -> Passed
        requires { length input.now ≡ length output.old }
        ensures ran { (passes self.new result, output.new) ≡ Calls.ran self.old.settings self.old.registers input.now }
        ensures recorded { length input.now ≡ length aims.old → aims.new ≡ Calls.aimed self.old.settings self.old.registers input.now }
    {
        let s = self.settings;
        let mut now = self.registers;
        let mut count: usize = 0;
        for (i, x) in input.iter().enumerate() {
            let stepped = noise_gate_sample::step(s, now, *x);
            now = stepped.registers;
            output[i] = stepped.output;
            if i < aims.len() {
                aims[i] = stepped.aim as u8;
            }
            if stepped.aim {
                count += 1;
            }
        }
        self.registers = now;
        Passed {
            count,
            quiet: now.quiet,
        }
    }

    // A block with a record of where the gate aims, a byte for each sample: 9, 7, 8, 6.
    #[tactic(auto, unfolding(crate::specs::Calls::block_recorded, crate::specs::Calls::block, answer::specs::Blocks::checked_block), using(answer::proofs::Refusals::not_done))]
    pub fn block_recorded(
        &mut self,
        input: &[f32],
        output: &mut [f32],
        aims: &mut [u8],
    ) -> Result<Passed, Refusal>
        ensures { (told_block self.new result, output.new, aims.new) ≡ Calls.block_recorded self.old input.now output.old aims.old }
    {
        self.check()?;
        if input.len() != aims.len() {
            return Err(Refusal::LengthsDiffer);
        }
        answer::check_block(input, output.len())?;
        Ok(self.run_recorded(input, output, aims))
    }
}

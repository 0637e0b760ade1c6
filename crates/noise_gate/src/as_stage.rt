// The gate as a stage: what 9 accepts, its settings, its samples, and what a done block tells.
ghost use Rattle.std.specs.Prelude.{◌≡◌};
ghost use Rattle.answer.specs.Crossing as crossing;
ghost use Rattle.noise_gate.specs.Answers as Answers;
ghost use Rattle.noise_gate.specs.Bounds as Bounds;
ghost use Rattle.noise_gate.specs.Calls as Calls;
ghost use Rattle.noise_gate.specs.AsStage as AsStage;
ghost use Rattle.noise_gate_settings.specs.Names as Names;

use crate::making::AT_REST;
use crate::{Gate, Passed};
use answer::{LARGEST_SAMPLE, Numbered, Refusal};
use float::Truncation;
use noise_gate_settings::Setting;

// The longest hold in samples.
const LONGEST_COUNT: u64 = 96000;

impl stage::Stage for Gate {
    type Setting = Setting;

    type Value = f32;

    type Numbers = f32;

    // Of the hold, its samples and the word of their truncation.
    type Said = Option<Truncation>;

    type Passed = Passed;

    ghost set = { Calls.set };

    ghost set_typed = { Calls.set_typed };

    ghost read = { Calls.read };

    ghost reset = { Calls.reset };

    ghost block = { Calls.block };

    ghost says = { Answers.says };

    ghost passes = { Answers.passes };

    ghost acceptable = { Bounds.acceptable };

    ghost find = { Names.named };

    ghost vet = { AsStage.vet };

    ghost take = { AsStage.take };

    ghost stored = { AsStage.stored };

    ghost rest = { AsStage.rest };

    ghost run = { AsStage.run };

    ghost set_typed_is = { AsStage.set_typed_is };

    ghost set_is = { AsStage.set_is };

    ghost read_is = { AsStage.read_is };

    ghost reset_is = { AsStage.reset_is };

    ghost block_is = { AsStage.block_is };

    #[tactic(auto, unfolding(crate::specs::Bounds::acceptable))]
    fn acceptable(&self) -> bool {
        let m = self.registers;
        self.settings.settable()
            && answer::in_range(0.0, LARGEST_SAMPLE, m.level)
            && answer::in_range(0.0, 1.0, m.state)
            && m.counter <= LONGEST_COUNT
    }

    fn find(name: &[u8], value: f32, number: f32) -> Option<Setting> {
        Setting::named(name, value, number)
    }

    fn vet(t: Setting) -> Result<(), Refusal> {
        t.vetted()
    }

    fn take(&mut self, t: Setting) -> Option<Truncation> {
        self.settings.take(t);
        if let Setting::Hold(_) = t {
            Some(noise_gate_sample::held(self.settings))
        } else {
            None
        }
    }

    fn stored(&self, name: &[u8]) -> Result<f32, Refusal> {
        let Some(t) = Setting::named(name, 0.0, 0.0) else {
            return Err(Refusal::NoSetting);
        };
        Ok(self.settings.kept(t))
    }

    fn rest(&mut self) {
        self.registers = AT_REST;
    }

    // With no record.
    fn run(&mut self, input: &[f32], output: &mut [f32]) -> Passed {
        self.run_recorded(input, output, &mut [])
    }
}

impl From<Passed> for Numbered {
    ghost from_gives = { λ p n. n ≡ crossing.of_passed p.count p.quiet };

    #[tactic(auto, unfolding(answer::specs::Crossing::of_passed, answer::specs::Crossing::of_done))]
    fn from(p: Passed) -> Numbered {
        Numbered {
            count: p.count,
            quiet: p.quiet,
            ..().into()
        }
    }
}

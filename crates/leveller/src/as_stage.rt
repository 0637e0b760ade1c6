// The leveller as a stage: what 9 accepts, its settings, its samples.
ghost use Rattle.std.specs.Prelude.{◌≡◌};
ghost use Rattle.answer.specs.Told.{done};
ghost use Rattle.leveller.specs.Bounds as Bounds;
ghost use Rattle.leveller.specs.Calls as Calls;
ghost use Rattle.leveller.specs.AsStage as AsStage;
ghost use Rattle.leveller_sample.specs.Step as Step;
ghost use Rattle.leveller_settings.specs.Names as Names;

use crate::Leveller;
use crate::making::AT_REST;
use answer::{LARGEST_SAMPLE, Refusal};
use leveller_sample::Registers;
use leveller_settings::Setting;

impl fold::Step for Leveller {
    type State = Registers;

    type Sample = f32;

    type Output = f32;

    ghost next = { λ l m x. Step.next l.settings m x };

    ghost given = { λ l m x. Step.output l.settings m x };

    #[tactic(auto, unfolding(leveller_sample::specs::Step::step))]
    fn step(&self, m: Registers, x: f32) -> (Registers, f32) {
        leveller_sample::step(self.settings, m, x)
    }
}

impl stage::Stage for Leveller {
    type Setting = Setting;

    type Value = f32;

    type Numbers = f32;

    type Said = ();

    type Passed = ();

    ghost set = { Calls.set };

    ghost set_typed = { Calls.set_typed };

    ghost read = { Calls.read };

    ghost reset = { Calls.reset };

    ghost block = { Calls.block };

    ghost says = { λ l _. done l };

    ghost passes = { λ l _. done l };

    ghost acceptable = { Bounds.acceptable };

    ghost find = { Names.named };

    ghost vet = { AsStage.vet };

    ghost take = { AsStage.take };

    ghost stored = { AsStage.stored };

    ghost rest = { AsStage.rest };

    ghost run = { AsStage.run };

    ghost set_typed_is = { AsStage.set_typed_is };

    ghost set_is = { AsStage.set_is };

    ghost read_is = { AsStage.read_is };

    ghost reset_is = { AsStage.reset_is };

    ghost block_is = { AsStage.block_is };

    #[tactic(auto, unfolding(crate::specs::Bounds::acceptable))]
    fn acceptable(&self) -> bool {
        self.settings.settable() && answer::in_range(0.0, LARGEST_SAMPLE, self.registers.level)
    }

    fn find(name: &[u8], value: f32, number: f32) -> Option<Setting> {
        Setting::named(name, value, number)
    }

    fn vet(t: Setting) -> Result<(), Refusal> {
        t.vetted()
    }

    fn take(&mut self, t: Setting) {
        self.settings.take(t);
    }

    fn stored(&self, name: &[u8]) -> Result<f32, Refusal> {
        let Some(t) = Setting::named(name, 0.0, 0.0) else {
            return Err(Refusal::NoSetting);
        };
        Ok(self.settings.kept(t))
    }

    fn rest(&mut self) {
        self.registers = AT_REST;
    }

    fn run(&mut self, input: &[f32], output: &mut [f32]) {
        self.registers = fold::run(self, self.registers, input, output);
    }
}

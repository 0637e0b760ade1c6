// The saturator as a stage: what 9 accepts, its settings, its samples.
ghost use Rattle.std.specs.Prelude.{◌≡◌};
ghost use Rattle.answer.specs.Told.{done};
ghost use Rattle.multiband_saturator.specs.Calls as Calls;
ghost use Rattle.multiband_saturator.specs.AsStage as AsStage;
ghost use Rattle.multiband_saturator_sample.specs.Step as Step;
ghost use Rattle.multiband_saturator_settings.specs.Names as Names;

use crate::making::{AT_REST, NO_CROSSOVER};
use crate::{Crossover, Saturator, Setting};
use answer::Refusal;
use multiband_saturator_sample::Registers;

impl fold::Step for Saturator {
    type State = Registers;

    type Sample = f32;

    type Output = f32;

    ghost next = { λ s m x. Step.next s.settings m x };

    ghost given = { λ s m x. Step.output s.settings m x };

    fn step(&self, m: Registers, x: f32) -> (Registers, f32) {
        let mut next = m;
        let output = next.step(&self.settings, x);
        (next, output)
    }
}

impl stage::Stage for Saturator {
    type Setting = Setting;

    type Value = f32;

    type Numbers = Crossover;

    type Said = ();

    type Passed = ();

    ghost set = { Calls.set };

    ghost set_typed = { Calls.set_typed };

    ghost read = { Calls.read };

    ghost reset = { Calls.reset };

    ghost block = { Calls.block };

    ghost says = { λ s _. done s };

    ghost passes = { λ s _. done s };

    ghost acceptable = { AsStage.acceptable };

    ghost find = { Names.named };

    ghost vet = { AsStage.vet };

    ghost take = { AsStage.take };

    ghost stored = { AsStage.stored };

    ghost rest = { AsStage.rest };

    ghost run = { AsStage.run };

    ghost set_typed_is = { AsStage.set_typed_is };

    ghost set_is = { AsStage.set_is };

    ghost read_is = { AsStage.read_is };

    ghost reset_is = { AsStage.reset_is };

    ghost block_is = { AsStage.block_is };

    fn acceptable(&self) -> bool {
        self.settings.settable()
    }

    fn find(name: &[u8], value: f32, numbers: Crossover) -> Option<Setting> {
        Setting::named(name, value, numbers)
    }

    fn vet(t: Setting) -> Result<(), Refusal> {
        t.vetted()
    }

    fn take(&mut self, t: Setting) {
        self.settings.take(t);
    }

    fn stored(&self, name: &[u8]) -> Result<f32, Refusal> {
        let Some(t) = Setting::named(name, 0.0, NO_CROSSOVER) else {
            return Err(Refusal::NoSetting);
        };
        Ok(self.settings.kept(t))
    }

    fn rest(&mut self) {
        self.registers = AT_REST;
    }

    fn run(&mut self, input: &[f32], output: &mut [f32]) {
        self.registers = fold::run(self, self.registers, input, output);
    }
}

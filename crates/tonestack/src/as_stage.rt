// The tone stack as a stage: what 9 accepts, its settings, its samples.
ghost use Rattle.std.specs.Prelude.{◌≡◌};
ghost use Rattle.answer.specs.Told.{done};
ghost use Rattle.tonestack.specs.Calls as Calls;
ghost use Rattle.tonestack.specs.AsStage as AsStage;
ghost use Rattle.tonestack_sample.specs.Names as Names;

use crate::Tone;
use crate::making::AT_REST;
use answer::Refusal;
use tonestack_sample::Setting;

impl stage::Stage for Tone {
    type Setting = Setting;

    type Value = f32;

    type Numbers = f32;

    type Said = ();

    type Passed = ();

    ghost set = { Calls.set };

    ghost set_typed = { Calls.set_typed };

    ghost read = { Calls.read };

    ghost reset = { Calls.reset };

    ghost block = { Calls.block };

    ghost says = { λ t _. done t };

    ghost passes = { λ t _. done t };

    ghost acceptable = { Calls.acceptable };

    ghost find = { Names.named };

    ghost vet = { AsStage.vet };

    ghost take = { AsStage.take };

    ghost stored = { AsStage.stored };

    ghost rest = { AsStage.rest };

    ghost run = { AsStage.run };

    ghost set_typed_is = { AsStage.set_typed_is };

    ghost set_is = { AsStage.set_is };

    ghost read_is = { AsStage.read_is };

    ghost reset_is = { AsStage.reset_is };

    ghost block_is = { AsStage.block_is };

    #[tactic(auto, unfolding(crate::specs::Calls::acceptable))]
    fn acceptable(&self) -> bool {
        self.settings.settable()
    }

    fn find(name: &[u8], value: f32, number: f32) -> Option<Setting> {
        Setting::named(name, value, number)
    }

    fn vet(v: Setting) -> Result<(), Refusal> {
        v.vetted()
    }

    fn take(&mut self, v: Setting) {
        self.settings.take(v);
    }

    fn stored(&self, name: &[u8]) -> Result<f32, Refusal> {
        let Some(v) = Setting::named(name, 0.0, 0.0) else {
            return Err(Refusal::NoSetting);
        };
        Ok(self.settings.kept(v))
    }

    fn rest(&mut self) {
        self.registers = AT_REST;
    }

    #[tactic(auto, unfolding(tonestack_sample::specs::Step::next, tonestack_sample::specs::Step::output))]
    fn run(&mut self, input: &[f32], output: &mut [f32]) {
        self.registers = fold::run(&self.settings.tuned(), self.registers, input, output);
    }
}

// The equaliser as a stage: what 9 accepts, its settings, its samples.
ghost use Rattle.std.specs.Prelude.{◌≡◌, ◌<◌};
ghost use Rattle.answer.specs.Told.{done};
ghost use Rattle.eq.specs.AsStage as AsStage;
ghost use Rattle.eq.specs.Calls as Calls;
ghost use Rattle.eq.specs.States as States;
ghost use Rattle.eq_bands.specs.Names as Names;

use crate::making::{AT_REST, NO_DELAY};
use crate::{Equaliser, samples};
use answer::{Decibels, Refusal};
use eq_bands::{BANDS, Numbers, Setting};

impl Equaliser {
    // Takes a setting of a band that there is.
    fn put(&mut self, band: usize, value: Decibels, numbers: Numbers)
        requires { band < 16 }
        ensures { self.new ≡ States.with_band self.old band value numbers }
    {
        let clears = eq_bands::clears(self.settings.bands[band].numbers, value);
        self.settings.bands[band] = eq_bands::taken(value, numbers);
        if clears {
            self.registers.bands[band] = NO_DELAY;
        }
    }
}

impl stage::Stage for Equaliser {
    type Setting = Setting;

    type Value = Decibels;

    type Numbers = Numbers;

    type Said = ();

    type Passed = ();

    ghost set = { Calls.set };

    ghost set_typed = { AsStage.set_typed };

    ghost read = { Calls.read };

    ghost reset = { Calls.reset };

    ghost block = { Calls.block };

    ghost says = { λ e _. done e };

    ghost passes = { λ e _. done e };

    ghost acceptable = { States.acceptable };

    ghost find = { Names.named };

    ghost vet = { AsStage.vet };

    ghost take = { AsStage.take };

    ghost stored = { AsStage.stored };

    ghost rest = { AsStage.rest };

    ghost run = { AsStage.run };

    ghost set_typed_is = { AsStage.set_typed_is };

    ghost set_is = { AsStage.set_is };

    ghost read_is = { AsStage.read_is };

    ghost reset_is = { AsStage.reset_is };

    ghost block_is = { AsStage.block_is };

    // Its registers may hold any bits.
    #[tactic(auto, unfolding(crate::specs::States::acceptable))]
    fn acceptable(&self) -> bool {
        self.settings.settable()
    }

    fn find(name: &[u8], value: Decibels, numbers: Numbers) -> Option<Setting> {
        Setting::named(name, value, numbers)
    }

    // 2, 3, 4.
    fn vet(t: Setting) -> Result<(), Refusal> {
        let Setting::Band(band, _, _) = t;
        if band >= BANDS {
            return Err(Refusal::NoBand);
        }
        t.vetted()
    }

    fn take(&mut self, t: Setting) {
        let Setting::Band(band, value, numbers) = t;
        self.put(band, value, numbers);
    }

    // 1, 2.
    #[tactic(auto, unfolding(crate::specs::States::value_at, crate::specs::States::band_at))]
    fn stored(&self, name: &[u8]) -> Result<f32, Refusal> {
        let Some(i) = eq_bands::index_of(name) else {
            return Err(Refusal::NoSetting);
        };
        let Some(band) = self.settings.bands.get(i) else {
            return Err(Refusal::NoBand);
        };
        Ok(band.value.0)
    }

    fn rest(&mut self) {
        self.registers = AT_REST;
    }

    fn run(&mut self, input: &[f32], output: &mut [f32]) {
        samples::run(&self.settings, &mut self.registers, input, output);
    }
}

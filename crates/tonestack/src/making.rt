// A tone stack as it is made.
ghost use Rattle.std.specs.Prelude.{◌≡◌};
ghost use Rattle.answer.specs.Told.{told_made};
ghost use Rattle.tonestack.specs.Calls as Calls;

use crate::Tone;
use answer::{Factor, Refusal};
use tonestack_sample::{Model, Registers, Settings};

pub const AT_REST: Registers = Registers {
    dc: 0.0,
    bass: 0.0,
    treble: 0.0,
    presence: 0.0,
};

const UNMADE: Tone = Tone {
    settings: Settings {
        rate: 0.0,
        model: 0,
        bass: 0.0,
        mid: 0.0,
        treble: 0.0,
        presence: 0.0,
        factor: Factor(0.0),
    },
    registers: AT_REST,
};

impl Tone {
    // What a refused making gives.
    pub fn unmade() -> Tone
        ensures { result ≡ Calls.unmade }
    {
        UNMADE
    }

    // A tone stack at rest, of that model at that rate: 5.
    pub fn make(model: Model, rate: f32) -> Result<Tone, Refusal>
        ensures { told_made Calls.unmade result ≡ Calls.make model rate }
    {
        if !answer::is_rate(rate) {
            return Err(Refusal::BadRate);
        }
        Ok(Tone {
            settings: Settings {
                rate,
                model: model as u32,
                bass: 1.0,
                mid: 1.0,
                treble: 1.0,
                presence: 1.0,
                factor: Factor(1.0),
            },
            registers: AT_REST,
        })
    }
}

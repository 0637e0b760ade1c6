// A leveller as it is made.
ghost use Rattle.std.specs.Prelude.{◌≡◌};
ghost use Rattle.answer.specs.Told.{told_made};
ghost use Rattle.leveller.specs.Calls as Calls;

use crate::Leveller;
use answer::{Decibels, Factor, Refusal, Timed};
use leveller_sample::Registers;
use leveller_settings::Settings;

pub const AT_REST: Registers = Registers { level: 0.0 };

const UNMADE: Leveller = Leveller {
    settings: Settings {
        rate: 0.0,
        threshold: Decibels(0.0),
        factor: Factor(0.0),
        ratio: 0.0,
        attack: Timed {
            ms: 0.0,
            number: 0.0,
        },
        release: Timed {
            ms: 0.0,
            number: 0.0,
        },
        makeup: Factor(0.0),
    },
    registers: AT_REST,
};

impl Leveller {
    // What a refused making gives.
    pub fn unmade() -> Leveller
        ensures { result ≡ Calls.unmade }
    {
        UNMADE
    }

    // A leveller at rest at that rate, attack's and release's smoothing numbers lent: 5, 4.
    pub fn make(rate: f32, rising: f32, falling: f32) -> Result<Leveller, Refusal>
        ensures { told_made Calls.unmade result ≡ Calls.make rate rising falling }
    {
        if !answer::is_rate(rate) {
            return Err(Refusal::BadRate);
        }
        if !(answer::is_smoothing(rising) && answer::is_smoothing(falling)) {
            return Err(Refusal::BadWorkedNumber);
        }
        Ok(Leveller {
            settings: Settings {
                rate,
                threshold: Decibels(0.0),
                factor: Factor(1.0),
                ratio: 1.0,
                attack: Timed {
                    ms: 1.0,
                    number: rising,
                },
                release: Timed {
                    ms: 100.0,
                    number: falling,
                },
                makeup: Factor(1.0),
            },
            registers: AT_REST,
        })
    }
}

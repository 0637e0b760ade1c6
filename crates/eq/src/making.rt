// An equaliser as it is made.
ghost use Rattle.std.specs.Prelude.{◌≡◌};
ghost use Rattle.answer.specs.Told.{told_made};
ghost use Rattle.eq.specs.Calls as Calls;
ghost use Rattle.eq.specs.States as States;

use crate::Equaliser;
use answer::{Decibels, Refusal};
use eq_bands::{BANDS, Band, Delay, Numbers, Registers, Settings};

pub const NO_DELAY: Delay = Delay {
    x1: 0.0,
    x2: 0.0,
    y1: 0.0,
    y2: 0.0,
};

pub const AT_REST: Registers = Registers {
    bands: [NO_DELAY; BANDS],
};

const UNMADE_BAND: Band = Band {
    value: Decibels(0.0),
    numbers: Numbers {
        b0: 0.0,
        b1: 0.0,
        b2: 0.0,
        a1: 0.0,
        a2: 0.0,
    },
};

const MADE_BAND: Band = Band {
    value: Decibels(0.0),
    numbers: Numbers {
        b0: 1.0,
        b1: 0.0,
        b2: 0.0,
        a1: 0.0,
        a2: 0.0,
    },
};

const UNMADE: Equaliser = Equaliser {
    settings: Settings {
        rate: 0.0,
        bands: [UNMADE_BAND; BANDS],
    },
    registers: AT_REST,
};

impl Equaliser {
    // What a refused making gives.
    pub fn unmade() -> Equaliser
        ensures { result ≡ States.unmade }
    {
        UNMADE
    }

    // An equaliser at rest at that rate, every band passthrough at 0 dB: 5.
    pub fn make(rate: f32) -> Result<Equaliser, Refusal>
        ensures { told_made States.unmade result ≡ Calls.make rate }
    {
        if !answer::is_rate(rate) {
            return Err(Refusal::BadRate);
        }
        Ok(Equaliser {
            settings: Settings {
                rate,
                bands: [MADE_BAND; BANDS],
            },
            registers: AT_REST,
        })
    }
}

// A saturator as it is made.
ghost use Rattle.std.specs.Prelude.{◌≡◌};
ghost use Rattle.answer.specs.Told.{told_made};
ghost use Rattle.multiband_saturator.specs.Calls as Calls;

use crate::Saturator;
use answer::Refusal;
use multiband_saturator_sample::{BandRegisters, Biquad, Filter, Registers, Split};
use multiband_saturator_settings::{Bands, Crossover, Frequencies, Numbers, Settings};

const BIQUAD_AT_REST: Biquad = Biquad {
    x1: 0.0,
    x2: 0.0,
    y1: 0.0,
    y2: 0.0,
};

const FILTER_AT_REST: Filter = Filter {
    first: BIQUAD_AT_REST,
    second: BIQUAD_AT_REST,
};

const SPLIT_AT_REST: Split = Split {
    lp: FILTER_AT_REST,
    hp: FILTER_AT_REST,
};

const BAND_AT_REST: BandRegisters = BandRegisters {
    level: 0.0,
    x1: 0.0,
    y1: 0.0,
};

// Every register 0.
pub const AT_REST: Registers = Registers {
    lowmid: SPLIT_AT_REST,
    midhigh: SPLIT_AT_REST,
    allpass: SPLIT_AT_REST,
    low: BAND_AT_REST,
    mid: BAND_AT_REST,
    high: BAND_AT_REST,
};

const NO_NUMBERS: Numbers = Numbers {
    b0: 0.0,
    b1: 0.0,
    b2: 0.0,
    a1: 0.0,
    a2: 0.0,
};

// What a refused making has, and what a read takes for the numbers beside its name.
pub const NO_CROSSOVER: Crossover = Crossover {
    lowpass: NO_NUMBERS,
    highpass: NO_NUMBERS,
};

const NO_DRIVES: Bands = Bands {
    low: 0.0,
    mid: 0.0,
    high: 0.0,
};

const UNMADE: Saturator = Saturator {
    settings: Settings {
        rate: 0.0,
        drives: NO_DRIVES,
        levels: Bands {
            low: 0.0,
            mid: 0.0,
            high: 0.0,
        },
        frequencies: Frequencies {
            low: 0.0,
            high: 0.0,
        },
        low: NO_CROSSOVER,
        high: NO_CROSSOVER,
        attack: 0.0,
        release: 0.0,
        blocker: 0.0,
    },
    registers: AT_REST,
};

impl Saturator {
    // What a refused making gives.
    pub fn unmade() -> Saturator
        ensures { result ≡ Calls.unmade }
    {
        UNMADE
    }

    // A saturator at rest at that rate, its worked numbers lent: 5, 4.
    pub fn make(
        rate: f32,
        low: Crossover,
        high: Crossover,
        attack: f32,
        release: f32,
        blocker: f32,
    ) -> Result<Saturator, Refusal>
        ensures { told_made Calls.unmade result ≡ Calls.make rate low high attack release blocker }
    {
        if !answer::is_rate(rate) {
            return Err(Refusal::BadRate);
        }
        let settings = Settings {
            rate,
            drives: NO_DRIVES,
            levels: Bands {
                low: 1.0,
                mid: 1.0,
                high: 1.0,
            },
            frequencies: Frequencies {
                low: 200.0,
                high: 2000.0,
            },
            low,
            high,
            attack,
            release,
            blocker,
        };
        if !settings.lent() {
            return Err(Refusal::BadWorkedNumber);
        }
        Ok(Saturator {
            settings,
            registers: AT_REST,
        })
    }
}

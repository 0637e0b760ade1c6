// A gate as it is made, and as it is loaded.
ghost use Rattle.std.specs.Prelude.{◌≡◌};
ghost use Rattle.answer.specs.Told.{told_made};
ghost use Rattle.noise_gate.specs.Calls as Calls;

use crate::{Before, Gate};
use answer::{Decibels, Factor, Refusal, Timed};
use noise_gate_sample::Registers;
use noise_gate_settings::Settings;

// The hold of a made gate, in milliseconds.
const MADE_HOLD: f32 = 100.0;

pub const AT_REST: Registers = Registers {
    level: 0.0,
    state: 0.0,
    counter: 0,
    quiet: 0,
};

const UNMADE: Gate = Gate {
    settings: Settings {
        rate: 0.0,
        threshold: Decibels(0.0),
        factor: Factor(0.0),
        ratio: 0.0,
        attack: Timed {
            ms: 0.0,
            number: 0.0,
        },
        release: Timed {
            ms: 0.0,
            number: 0.0,
        },
        hold: 0.0,
        rising: 0.0,
        falling: 0.0,
    },
    registers: AT_REST,
};

impl Gate {
    // What a refused making gives.
    pub fn unmade() -> Gate
        ensures { result ≡ Calls.unmade }
    {
        UNMADE
    }

    // A gate at rest at that rate, its follower's numbers lent: 5, 4.
    pub fn make(rate: f32, rising: f32, falling: f32) -> Result<Gate, Refusal>
        ensures { told_made Calls.unmade result ≡ Calls.make rate rising falling }
    {
        if !answer::is_rate(rate) {
            return Err(Refusal::BadRate);
        }
        if !(answer::is_smoothing(rising) && answer::is_smoothing(falling)) {
            return Err(Refusal::BadWorkedNumber);
        }
        Ok(Gate {
            settings: Settings {
                rate,
                threshold: Decibels(0.0),
                factor: Factor(1.0),
                ratio: 10.0,
                attack: Timed {
                    ms: 1.0,
                    number: 0.0,
                },
                release: Timed {
                    ms: 100.0,
                    number: 0.0,
                },
                hold: MADE_HOLD,
                rising,
                falling,
            },
            registers: AT_REST,
        })
    }
}

// A gate kept from before gates had a quiet count, with the count 0. Nothing is refused: 9 comes with the next
// call.
impl From<Before> for Gate {
    ghost from_gives = { λ b g. g ≡ Calls.load b };

    #[tactic(auto, unfolding(crate::specs::Calls::load))]
    fn from(b: Before) -> Gate {
        Gate {
            settings: b.settings,
            registers: Registers {
                level: b.registers.level,
                state: b.registers.state,
                counter: b.registers.counter,
                quiet: 0,
            },
        }
    }
}

// The multiband saturator: its state, its making, and what it is as a stage.
#![tactic(auto)]

mod as_stage;
mod making;

use multiband_saturator_sample::Registers;
use multiband_saturator_settings::Settings;
pub use multiband_saturator_settings::{Band, Crossover, Frequency, Setting};

// What a host sets, and what a sample moves.
#[repr(C)]
#[derive(Clone, Copy)]
pub struct Saturator {
    pub settings: Settings,
    pub registers: Registers,
}

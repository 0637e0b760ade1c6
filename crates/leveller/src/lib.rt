// The leveller for soft talkers: its state, its making, and what it is as a stage.
#![tactic(auto)]

mod as_stage;
mod making;

use leveller_sample::Registers;
pub use leveller_settings::Setting;
use leveller_settings::Settings;

// What a host sets, and what a sample moves.
#[repr(C)]
#[derive(Clone, Copy)]
pub struct Leveller {
    pub settings: Settings,
    pub registers: Registers,
}

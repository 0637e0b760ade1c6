// The equaliser: its state, its making, and what it is as a stage.
#![tactic(auto)]

mod as_stage;
mod making;
mod samples;

pub use eq_bands::Setting;
use eq_bands::{Registers, Settings};

// What a host sets, and what a sample moves.
#[repr(C)]
#[derive(Clone, Copy)]
pub struct Equaliser {
    pub settings: Settings,
    pub registers: Registers,
}

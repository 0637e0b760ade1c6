// The tone stack: its state, its making, and what it is as a stage.
#![tactic(auto)]

mod as_stage;
mod making;

pub use tonestack_sample::{Model, Registers, Setting, Settings};

// What a host sets, and what a sample moves.
#[repr(C)]
#[derive(Clone, Copy)]
pub struct Tone {
    pub settings: Settings,
    pub registers: Registers,
}

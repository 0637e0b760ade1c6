// The noise gate: its state, its making, what it is as a stage, and its block with a record.
#![tactic(auto)]

mod as_stage;
mod making;
mod samples;

use noise_gate_sample::Registers;
pub use noise_gate_settings::Setting;
use noise_gate_settings::Settings;

// What a host sets, and what a sample moves.
#[repr(C)]
#[derive(Clone, Copy)]
pub struct Gate {
    pub settings: Settings,
    pub registers: Registers,
}

// What a sample moved before gates had a quiet count.
#[repr(C)]
#[derive(Clone, Copy)]
pub struct Uncounted {
    pub level: f32,
    pub state: f32,
    pub counter: u64,
}

// A gate that a host kept from then.
#[repr(C)]
#[derive(Clone, Copy)]
pub struct Before {
    pub settings: Settings,
    pub registers: Uncounted,
}

// A done block: how many of its samples were aimed open, and the quiet count after the last.
#[derive(Clone, Copy)]
pub struct Passed {
    pub count: usize,
    pub quiet: u32,
}

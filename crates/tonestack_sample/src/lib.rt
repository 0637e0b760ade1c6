// The tone stack's settings, and one sample through them: the model by its number, the four controls and
// their names, what each may be; what a sample moves and what it gives.
#![tactic(auto)]

mod alpha;
mod models;
mod names;
mod ranges;
mod step;

use answer::Factor;
pub use common::frequencies::Model;

// What a host sets. `model` is 0 to 3: Modern, British, American, Flat; `factor` is presence's.
#[repr(C)]
#[derive(Clone, Copy)]
pub struct Settings {
    pub rate: f32,
    pub model: u32,
    pub bass: f32,
    pub mid: f32,
    pub treble: f32,
    pub presence: f32,
    pub factor: Factor,
}

// A setting: its value, and the worked number that presence takes.
#[derive(Clone, Copy)]
pub enum Setting {
    Bass(f32),
    Mid(f32),
    Treble(f32),
    Presence(f32, Factor),
}

// What a sample moves: the four one-pole filters.
#[repr(C)]
#[derive(Clone, Copy)]
pub struct Registers {
    pub dc: f32,
    pub bass: f32,
    pub treble: f32,
    pub presence: f32,
}

// The four filters' alphas.
#[derive(Clone, Copy)]
pub struct Alphas {
    pub dc: f32,
    pub bass: f32,
    pub treble: f32,
    pub presence: f32,
}

// What every sample of a block goes through: the settings, and the alphas worked out from them.
#[derive(Clone, Copy)]
pub struct Tuned<'a> {
    pub settings: &'a Settings,
    pub alphas: Alphas,
}

// The leveller's settings: what each may be, what it changes, and its name.
#![tactic(auto)]

mod names;
mod ranges;

use answer::{Decibels, Factor, Timed};

// What a host sets. `factor` is the threshold's; attack and release are the follower's, each with its smoothing
// number.
#[repr(C)]
#[derive(Clone, Copy)]
pub struct Settings {
    pub rate: f32,
    pub threshold: Decibels,
    pub factor: Factor,
    pub ratio: f32,
    pub attack: Timed,
    pub release: Timed,
    pub makeup: Factor,
}

// A setting: its value, and the worked number that it takes.
#[derive(Clone, Copy)]
pub enum Setting {
    Threshold(Decibels, Factor),
    Ratio(f32),
    Attack(f32, f32),
    Release(f32, f32),
    Makeup(Factor),
}

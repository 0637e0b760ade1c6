// The noise gate's settings: what each may be, what it changes, and its name.
#![tactic(auto)]

mod names;
mod ranges;

use answer::{Decibels, Factor, Timed};

// What a host sets. `factor` is the threshold's, `hold` is in milliseconds; `rising` and `falling` are the
// follower's smoothing numbers.
#[repr(C)]
#[derive(Clone, Copy)]
pub struct Settings {
    pub rate: f32,
    pub threshold: Decibels,
    pub factor: Factor,
    pub ratio: f32,
    pub attack: Timed,
    pub release: Timed,
    pub hold: f32,
    pub rising: f32,
    pub falling: f32,
}

// A setting: its value, and the worked number that it takes.
#[derive(Clone, Copy)]
pub enum Setting {
    Threshold(Decibels, Factor),
    Ratio(f32),
    Attack(f32, f32),
    Release(f32, f32),
    Hold(f32),
}

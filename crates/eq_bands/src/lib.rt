// A band of the equaliser: what a host sets, its name, its step; and sixteen in a row.
#![tactic(auto)]

mod bands;
mod names;
mod row;

use answer::Decibels;
pub use bands::{clears, in_its_range, taken};
pub use names::index_of;

pub const BANDS: usize = 16;

// A band's worked numbers.
#[repr(C)]
#[derive(Clone, Copy)]
pub struct Numbers {
    pub b0: f64,
    pub b1: f64,
    pub b2: f64,
    pub a1: f64,
    pub a2: f64,
}

#[repr(C)]
#[derive(Clone, Copy)]
pub struct Band {
    pub value: Decibels,
    pub numbers: Numbers,
}

// What a host sets.
#[repr(C)]
#[derive(Clone, Copy)]
pub struct Settings {
    pub rate: f32,
    pub bands: [Band; BANDS],
}

// A band's registers.
#[repr(C)]
#[derive(Clone, Copy)]
pub struct Delay {
    pub x1: f64,
    pub x2: f64,
    pub y1: f64,
    pub y2: f64,
}

// What a sample moves.
#[repr(C)]
#[derive(Clone, Copy)]
pub struct Registers {
    pub bands: [Delay; BANDS],
}

// A setting, of which there is one kind: a band, with the value and the worked numbers for it.
#[derive(Clone, Copy)]
pub enum Setting {
    Band(usize, Decibels, Numbers),
}

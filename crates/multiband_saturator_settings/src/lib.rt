// The multiband saturator's settings: what each may be, what it changes, and its name.
#![tactic(auto)]

mod names;
mod ranges;

pub use ranges::lent;

// A filter's five worked numbers.
#[repr(C)]
#[derive(Clone, Copy)]
pub struct Numbers {
    pub b0: f32,
    pub b1: f32,
    pub b2: f32,
    pub a1: f32,
    pub a2: f32,
}

// What a frequency carries: the numbers of the low-pass and of the high-pass filters at it.
#[repr(C)]
#[derive(Clone, Copy)]
pub struct Crossover {
    pub lowpass: Numbers,
    pub highpass: Numbers,
}

// A number for each band.
#[repr(C)]
#[derive(Clone, Copy)]
pub struct Bands {
    pub low: f32,
    pub mid: f32,
    pub high: f32,
}

// Where the bands meet, in Hz.
#[repr(C)]
#[derive(Clone, Copy)]
pub struct Frequencies {
    pub low: f32,
    pub high: f32,
}

// What a host sets. `low` and `high` are what the two frequencies carry, kept once for all filters;
// `attack` and `release` are the followers' numbers and `blocker` the DC blockers', shared by the bands.
#[repr(C)]
#[derive(Clone, Copy)]
pub struct Settings {
    pub rate: f32,
    pub drives: Bands,
    pub levels: Bands,
    pub frequencies: Frequencies,
    pub low: Crossover,
    pub high: Crossover,
    pub attack: f32,
    pub release: f32,
    pub blocker: f32,
}

// Which band a drive or a level is of.
#[derive(Clone, Copy)]
pub enum Band {
    Low,
    Mid,
    High,
}

// Which of the two frequencies where bands meet.
#[derive(Clone, Copy)]
pub enum Frequency {
    Low,
    High,
}

// A setting: what it is of, its value, and the worked numbers that it takes.
#[derive(Clone, Copy)]
pub enum Setting {
    Drive(Band, f32),
    Level(Band, f32),
    Freq(Frequency, f32, Crossover),
}

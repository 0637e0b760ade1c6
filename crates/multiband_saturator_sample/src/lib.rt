// One sample of the multiband saturator, over any bits: what it moves and what it gives.
#![tactic(auto)]

mod bands;
mod filters;

ghost use Rattle.std.specs.Prelude.{◌≡◌};
ghost use Rattle.multiband_saturator_sample.specs.Step as Step;

use float::settled32;
use multiband_saturator_settings::{Bands, Settings};

// One of a filter's two biquads: its last two inputs and outputs.
#[repr(C)]
#[derive(Clone, Copy)]
pub struct Biquad {
    pub x1: f32,
    pub x2: f32,
    pub y1: f32,
    pub y2: f32,
}

// The Rust's LR4Filter: one biquad after the other. Its latest output is the second one's y1.
#[repr(C)]
#[derive(Clone, Copy)]
pub struct Filter {
    pub first: Biquad,
    pub second: Biquad,
}

// A low-pass and a high-pass filter of one input at one frequency.
#[repr(C)]
#[derive(Clone, Copy)]
pub struct Split {
    pub lp: Filter,
    pub hp: Filter,
}

// What a band keeps, the Rust's low_env and low_dc: the follower's level, the DC blocker's last input and output.
#[repr(C)]
#[derive(Clone, Copy)]
pub struct BandRegisters {
    pub level: f32,
    pub x1: f32,
    pub y1: f32,
}

// What a sample moves. The low/mid split is the Rust's low_lp and mid_hp_low, the mid/high split its
// mid_lp_high and high_hp, the all-pass its low_allpass_lp and low_allpass_hp; then the three bands.
#[repr(C)]
#[derive(Clone, Copy)]
pub struct Registers {
    pub lowmid: Split,
    pub midhigh: Split,
    pub allpass: Split,
    pub low: BandRegisters,
    pub mid: BandRegisters,
    pub high: BandRegisters,
}

// The bands' outputs at their levels, summed: low and mid, then high.
#[tactic(auto, unfolding(crate::specs::Step::mixed))]
fn mix(levels: Bands, clean: Bands) -> f32
    ensures { result ≡ Step.mixed levels clean.low clean.mid clean.high }
{
    clean.low * levels.low + clean.mid * levels.mid + clean.high * levels.high
}

impl Registers {
    // A sample x, and what it gives. Every NaN in it is the quiet one.
    pub fn step(&mut self, s: &Settings, x: f32) -> f32
        ensures left { self.new ≡ Step.next s.now self.old x }
        ensures given { result ≡ Step.output s.now self.old x }
    {
        let (low_raw, high_side) = self.lowmid.pass(&s.low, x);
        let (mid, high) = self.midhigh.pass(&s.high, high_side);
        let (lp, hp) = self.allpass.pass(&s.high, low_raw);
        let clean = Bands {
            low: self.low.pass(s, s.drives.low, lp + hp),
            mid: self.mid.pass(s, s.drives.mid, mid),
            high: self.high.pass(s, s.drives.high, high),
        };
        settled32(mix(s.levels, clean))
    }
}

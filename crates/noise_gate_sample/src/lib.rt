// One sample of the noise gate, over any bits: what it moves and what it gives.
#![tactic(auto)]

ghost use Rattle.std.specs.Prelude.{suc, ◌-◌, min, cond, ◌≡◌};
ghost use Rattle.noise_gate_sample.specs.Figures.{longest_quiet};
ghost use Rattle.noise_gate_sample.specs.Step as Step;

use float::Truncation;
use noise_gate_settings::Settings;

// What a sample moves.
#[repr(C)]
#[derive(Clone, Copy)]
pub struct Registers {
    pub level: f32,
    pub state: f32,
    pub counter: u64,
    pub quiet: u32,
}

// What a sample leaves and gives, and whether the gate aims open at it.
#[derive(Clone, Copy)]
pub struct Stepped {
    pub registers: Registers,
    pub output: f32,
    pub aim: bool,
}

// The state from which the gain is 1.
const WIDE_OPEN: f32 = 0.999;

// H, the hold in samples, and the word of its truncation.
pub fn held(s: Settings) -> Truncation
    ensures { result ≡ Step.held s }
{
    float::truncated(s.hold * 0.001 * s.rate)
}

// The counter after a sample, n before it.
#[tactic(auto, unfolding(crate::specs::Step::held))]
fn counted(s: Settings, loud: bool, n: u64) -> u64
    ensures { result ≡ cond loud (Step.hold_samples s) (n - 1) }
{
    if loud {
        held(s).whole
    } else {
        n.saturating_sub(1)
    }
}

// The quiet count after a sample, n before it: it stops at the top.
fn quieted(loud: bool, n: u32) -> u32
    ensures { result ≡ cond loud 0 (min (suc n) longest_quiet) }
{
    if loud { 0 } else { n.saturating_add(1) }
}

fn gain(ratio: f32, state: f32) -> f32
    ensures { result ≡ Step.gain_at ratio state }
{
    if state < WIDE_OPEN {
        let g = 1.0 / ratio;
        float::fma32(1.0 - g, state, g)
    } else {
        1.0
    }
}

// What a sample x leaves and gives. Every NaN in it is the quiet one.
pub fn step(s: Settings, m: Registers, x: f32) -> Stepped
    ensures { result ≡ Step.step s m x }
{
    let level = common::follower::followed(s.rising, s.falling, m.level, x);
    let loud = s.factor.0 < level;
    let counter = counted(s, loud, m.counter);
    let aim = loud || 0 < counter;
    let target = if aim { 1.0 } else { 0.0 };
    let c = if m.state < target {
        s.attack.number
    } else {
        s.release.number
    };
    let state = common::toward(c, m.state, target);
    Stepped {
        registers: Registers {
            level: float::settled32(level),
            state: float::settled32(state),
            counter,
            quiet: quieted(loud, m.quiet),
        },
        output: float::settled32(x * gain(s.ratio, state)),
        aim,
    }
}

// One sample of the leveller, over any bits: what it moves and what it gives.
#![tactic(auto)]

ghost use Rattle.std.specs.Prelude.{◌≡◌};
ghost use Rattle.leveller_sample.specs.Step as Step;

use leveller_settings::Settings;

// What a sample moves.
#[repr(C)]
#[derive(Clone, Copy)]
pub struct Registers {
    pub level: f32,
}

// The least that the follower is fed.
const LEAST: f32 = 1e-10;

// The larger of x and a number a, which is a where x is NaN.
fn larger(x: f32, a: f32) -> f32
    ensures { result ≡ Step.larger x a }
{
    if a < x { x } else { a }
}

fn gain(ratio: f32, over: f32) -> f32
    ensures { result ≡ Step.gain_at ratio over }
{
    if ratio == 1.0 || over == 1.0 {
        return 1.0;
    }
    let s = float::root32(over);
    if ratio == 2.0 {
        return 1.0 / s;
    }
    let q = float::root32(s);
    1.0 / (s * q)
}

// What a sample x leaves and gives. Every NaN in it is the quiet one.
pub fn step(s: Settings, m: Registers, x: f32) -> (Registers, f32)
    ensures { result ≡ Step.step s m x }
{
    let fed = larger(float::size32(x), LEAST);
    let level = common::follower::followed(s.attack.number, s.release.number, m.level, fed);
    let over = larger(level / s.factor.0, 1.0);
    let g = gain(s.ratio, over);
    let output = x * g * s.makeup.0;
    let next = Registers {
        level: float::settled32(level),
    };
    (next, float::settled32(output))
}

// The follower and the DC blocker: steps over any bits for the stages to use, and each offered alone,
// one sample at a time. Document 01's frequencies in constant tables.
#![tactic(auto)]

pub mod blocker;
pub mod follower;
pub mod frequencies;

ghost use Rattle.std.specs.Prelude.{◌≡◌};
ghost use Rattle.common.specs.Follower as follower;

// From one number toward another: fma(c, from, (1-c)*to).
pub fn toward(c: f32, from: f32, to: f32) -> f32
    ensures { result ≡ follower.toward c from to }
{
    float::fma32(c, from, (1.0 - c) * to)
}

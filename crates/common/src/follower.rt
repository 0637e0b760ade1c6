// The follower of a signal's level.
ghost use Rattle.std.specs.Prelude.{◌≡◌};
ghost use Rattle.answer.specs.Checks.{nine};
ghost use Rattle.answer.specs.Told.{told, told_made, told_read};
ghost use Rattle.common.specs.Follower as follower;

use crate::toward;
use answer::Refusal;

#[repr(C)]
#[derive(Clone, Copy)]
pub struct Follower {
    pub attack: f32,
    pub release: f32,
    pub level: f32,
}

// The level after a sample x, for any bits.
pub fn followed(attack: f32, release: f32, level: f32, x: f32) -> f32
    ensures { result ≡ follower.followed attack release level x }
{
    let r = float::size32(x);
    if r > level {
        float::settled32(toward(attack, level, r))
    } else {
        float::settled32(toward(release, level, r))
    }
}

// Both c are worked numbers from 0 up to but excluding 1.
#[tactic(auto, unfolding(crate::specs::Follower::acceptable))]
fn acceptable(attack: f32, release: f32) -> bool
    ensures { result ≡ follower.acceptable attack release }
{
    answer::is_smoothing(attack) && answer::is_smoothing(release)
}

const UNMADE: Follower = Follower {
    attack: 1.0,
    release: 1.0,
    level: 0.0,
};

impl Follower {
    // What a refused making gives.
    pub fn unmade() -> Follower
        ensures { result ≡ follower.unmade }
    {
        UNMADE
    }

    pub fn make(attack: f32, release: f32) -> Result<Follower, Refusal>
        ensures { told_made follower.unmade result ≡ follower.make attack release }
    {
        if !acceptable(attack, release) {
            return Err(Refusal::BadWorkedNumber);
        }
        Ok(Follower {
            attack,
            release,
            level: 0.0,
        })
    }

    // 9.
    fn check(&self) -> Result<(), Refusal>
        ensures { result ≡ nine (follower.acceptable self.now.attack self.now.release) }
    {
        answer::checked(acceptable(self.attack, self.release))
    }

    #[tactic(auto, unfolding(crate::specs::Follower::step))]
    pub fn step(&mut self, x: f32) -> Result<f32, Refusal>
        ensures { told_read self.new result ≡ follower.step self.old x }
    {
        self.check()?;
        self.level = followed(self.attack, self.release, self.level, x);
        Ok(self.level)
    }

    #[tactic(auto, unfolding(crate::specs::Follower::reset))]
    pub fn reset(&mut self) -> Result<(), Refusal>
        ensures { told self.new result ≡ follower.reset self.old }
    {
        self.check()?;
        self.level = 0.0;
        Ok(())
    }
}

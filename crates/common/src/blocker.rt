// The DC blocker.
ghost use Rattle.std.specs.Prelude.{◌≡◌};
ghost use Rattle.answer.specs.Checks.{is_smoothing, nine};
ghost use Rattle.answer.specs.Told.{told, told_made, told_read};
ghost use Rattle.common.specs.Blocker as blocker;

use answer::Refusal;

#[repr(C)]
#[derive(Clone, Copy)]
pub struct Blocker {
    pub c: f32,
    pub x1: f32,
    pub y1: f32,
}

// The blocker after a sample x, for any bits. Its y1 is the output.
pub fn blocked(b: Blocker, x: f32) -> Blocker
    ensures { result ≡ blocker.blocked b x }
{
    let y = float::fma32(b.c, b.y1, x - b.x1);
    Blocker {
        c: b.c,
        x1: float::settled32(x),
        y1: float::settled32(y),
    }
}

const UNMADE: Blocker = Blocker {
    c: 1.0,
    x1: 0.0,
    y1: 0.0,
};

impl Blocker {
    // What a refused making gives.
    pub fn unmade() -> Blocker
        ensures { result ≡ blocker.unmade }
    {
        UNMADE
    }

    #[tactic(auto, unfolding(crate::specs::Blocker::make))]
    pub fn make(c: f32) -> Result<Blocker, Refusal>
        ensures { told_made blocker.unmade result ≡ blocker.make c }
    {
        if !answer::is_smoothing(c) {
            return Err(Refusal::BadWorkedNumber);
        }
        Ok(Blocker {
            c,
            x1: 0.0,
            y1: 0.0,
        })
    }

    // 9.
    fn check(&self) -> Result<(), Refusal>
        ensures { result ≡ nine (is_smoothing self.now.c) }
    {
        answer::checked(answer::is_smoothing(self.c))
    }

    #[tactic(auto, unfolding(crate::specs::Blocker::step))]
    pub fn step(&mut self, x: f32) -> Result<f32, Refusal>
        ensures { told_read self.new result ≡ blocker.step self.old x }
    {
        self.check()?;
        *self = blocked(*self, x);
        Ok(self.y1)
    }

    #[tactic(auto, unfolding(crate::specs::Blocker::reset))]
    pub fn reset(&mut self) -> Result<(), Refusal>
        ensures { told self.new result ≡ blocker.reset self.old }
    {
        self.check()?;
        self.x1 = 0.0;
        self.y1 = 0.0;
        Ok(())
    }
}

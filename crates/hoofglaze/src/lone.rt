// The lone follower and the lone DC blocker under C names, by value. Assumes nothing.
ghost use Rattle.std.specs.Prelude.{◌≡◌};
ghost use Rattle.common.specs.Blocker as blocker;
ghost use Rattle.common.specs.Follower as follower;
ghost use Rattle.answer.specs.Crossing.{told_in};

use answer::Numbered;
use common::blocker::Blocker;
use common::follower::Follower;

#[repr(C)]
#[derive(Clone, Copy)]
pub struct FollowerAnswered {
    pub follower: Follower,
    pub answer: Numbered,
}

#[repr(C)]
#[derive(Clone, Copy)]
pub struct BlockerAnswered {
    pub blocker: Blocker,
    pub answer: Numbered,
}

#[unsafe(no_mangle)]
pub extern "C" fn hoofglaze_follower_make(attack: f32, release: f32) -> FollowerAnswered
    ensures { told_in result.follower result.answer ≡ follower.make attack release }
{
    match Follower::make(attack, release) {
        Ok(follower) => FollowerAnswered {
            follower,
            answer: ().into(),
        },
        Err(r) => FollowerAnswered {
            follower: Follower::unmade(),
            answer: r.into(),
        },
    }
}

#[unsafe(no_mangle)]
pub extern "C" fn hoofglaze_follower_step(mut f: Follower, x: f32) -> FollowerAnswered
    ensures { told_in result.follower result.answer ≡ follower.step f x }
{
    let output = f.step(x);
    FollowerAnswered {
        follower: f,
        answer: output.into(),
    }
}

#[unsafe(no_mangle)]
pub extern "C" fn hoofglaze_follower_reset(mut f: Follower) -> FollowerAnswered
    ensures { told_in result.follower result.answer ≡ follower.reset f }
{
    let answer = f.reset();
    FollowerAnswered {
        follower: f,
        answer: answer.into(),
    }
}

#[unsafe(no_mangle)]
pub extern "C" fn hoofglaze_blocker_make(c: f32) -> BlockerAnswered
    ensures { told_in result.blocker result.answer ≡ blocker.make c }
{
    match Blocker::make(c) {
        Ok(blocker) => BlockerAnswered {
            blocker,
            answer: ().into(),
        },
        Err(r) => BlockerAnswered {
            blocker: Blocker::unmade(),
            answer: r.into(),
        },
    }
}

#[unsafe(no_mangle)]
pub extern "C" fn hoofglaze_blocker_step(mut b: Blocker, x: f32) -> BlockerAnswered
    ensures { told_in result.blocker result.answer ≡ blocker.step b x }
{
    let output = b.step(x);
    BlockerAnswered {
        blocker: b,
        answer: output.into(),
    }
}

#[unsafe(no_mangle)]
pub extern "C" fn hoofglaze_blocker_reset(mut b: Blocker) -> BlockerAnswered
    ensures { told_in result.blocker result.answer ≡ blocker.reset b }
{
    let answer = b.reset();
    BlockerAnswered {
        blocker: b,
        answer: answer.into(),
    }
}

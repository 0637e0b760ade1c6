// An answer in document 01's numbers, as it crosses to a host.
ghost use Rattle.std.specs.Prelude.{◌≡◌, MatchOption, MatchResult};
ghost use Rattle.answer.specs.Crossing as crossing;
ghost use Rattle.answer.specs.Figures.{nought};

use crate::{Numbered, Refusal};
use float::{Truncation, settled32};

const DONE: Numbered = Numbered {
    number: 0,
    value: 0.0,
    place: 0,
    count: 0,
    samples: 0,
    word: 0,
    quiet: 0,
};

impl From<Refusal> for Numbered {
    ghost from_gives = { λ r n. n ≡ crossing.of_refusal r };

    fn from(r: Refusal) -> Numbered {
        Numbered {
            number: r.number(),
            place: r.place(),
            ..DONE
        }
    }
}

// Done, with how many samples were aimed open, and a value read or stepped.
pub fn of_done(count: usize, value: f32) -> Numbered
    ensures { result ≡ crossing.of_done count value }
{
    Numbered {
        value: settled32(value),
        count,
        ..DONE
    }
}

// Done, with no more to say.
impl From<()> for Numbered {
    ghost from_gives = { λ _ n. n ≡ crossing.of_done 0 nought };

    fn from(_: ()) -> Numbered {
        DONE
    }
}

// Done, with a value read or stepped.
impl From<f32> for Numbered {
    ghost from_gives = { λ x n. n ≡ crossing.of_done 0 x };

    fn from(value: f32) -> Numbered {
        of_done(0, value)
    }
}

// A hold that was set.
impl From<Truncation> for Numbered {
    ghost from_gives = { λ t n. n ≡ crossing.of_hold t };

    fn from(t: Truncation) -> Numbered {
        Numbered {
            samples: t.whole,
            word: u32::from(t.word),
            ..DONE
        }
    }
}

// A gate's setting: a hold's, or another, which has no more to say.
impl From<Option<Truncation>> for Numbered {
    ghost from_gives = { λ o n. MatchOption o (n ≡ crossing.of_done 0 nought) (λ t. n ≡ crossing.of_hold t) };

    fn from(held: Option<Truncation>) -> Numbered {
        match held {
            Some(t) => t.into(),
            None => ().into(),
        }
    }
}

impl<T: Into<Numbered>> From<Result<T, Refusal>> for Numbered {
    ghost from_gives = { λ a n. MatchResult a (λ x. T.converts x n) (λ r. n ≡ crossing.of_refusal r) };

    fn from(a: Result<T, Refusal>) -> Numbered {
        match a {
            Ok(x) => x.into(),
            Err(r) => r.into(),
        }
    }
}

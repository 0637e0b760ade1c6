// What a band may hold, and what a setting leaves.
ghost use Rattle.std.specs.Prelude.{◌≡◌};
ghost use Rattle.answer.specs.Checks.{vetted};
ghost use Rattle.eq_bands.specs.Bands as Bands;

use crate::{Band, Numbers, Setting, Settings};
use answer::{Decibels, Refusal};

const LARGEST_GAIN: f32 = 12.0;

// The size below which a value is unity.
const SMALLEST_GAIN: f64 = 0.000001;

const PASSTHROUGH: Numbers = Numbers {
    b0: 1.0,
    b1: 0.0,
    b2: 0.0,
    a1: 0.0,
    a2: 0.0,
};

pub fn in_its_range(value: Decibels) -> bool
    ensures { result ≡ Bands.in_its_range value }
{
    answer::in_range(-LARGEST_GAIN, LARGEST_GAIN, value.0)
}

// Whether the size of the value as f64 is below 1e-6.
fn is_unity(value: Decibels) -> bool
    ensures { result ≡ Bands.is_unity value }
{
    float::size64(float::widened(value.0)) < SMALLEST_GAIN
}

impl Numbers {
    // Whether the five are finite.
    #[tactic(auto, unfolding(crate::specs::Bands::worked))]
    pub fn worked(self) -> bool
        ensures { result ≡ Bands.worked self }
    {
        answer::finite64(self.b0)
            && answer::finite64(self.b1)
            && answer::finite64(self.b2)
            && answer::finite64(self.a1)
            && answer::finite64(self.a2)
    }

    // Whether they are those of a passthrough, to the bit.
    #[tactic(auto, unfolding(crate::specs::Bands::is_passthrough))]
    fn is_passthrough(self) -> bool
        ensures { result ≡ Bands.is_passthrough self }
    {
        float::bits64(self.b0) == 0x3ff0_0000_0000_0000
            && float::bits64(self.b1) == 0
            && float::bits64(self.b2) == 0
            && float::bits64(self.a1) == 0
            && float::bits64(self.a2) == 0
    }

    // Every NaN in them the quiet one.
    fn settled(self) -> Numbers
        ensures { result ≡ self }
    {
        Numbers {
            b0: float::settled64(self.b0),
            b1: float::settled64(self.b1),
            b2: float::settled64(self.b2),
            a1: float::settled64(self.a1),
            a2: float::settled64(self.a2),
        }
    }
}

// The band that a setting leaves. Every NaN in it is the quiet one.
#[tactic(auto, unfolding(crate::specs::Bands::taken))]
pub fn taken(value: Decibels, numbers: Numbers) -> Band
    ensures { result ≡ Bands.taken value numbers }
{
    let numbers = if is_unity(value) {
        PASSTHROUGH
    } else {
        numbers.settled()
    };
    Band {
        value: Decibels(float::settled32(value.0)),
        numbers,
    }
}

// Whether a setting of the value zeroes the registers of a band that held these numbers.
#[tactic(auto, unfolding(crate::specs::Bands::clears))]
pub fn clears(old: Numbers, value: Decibels) -> bool
    ensures { result ≡ Bands.clears old value }
{
    is_unity(value) || (old.b1 == 0.0 && old.a1 == 0.0)
}

impl Setting {
    // 3, 4.
    pub fn vetted(self) -> Result<(), Refusal>
        ensures { result ≡ vetted (Bands.in_its_range (Bands.value_of self)) (Bands.worked (Bands.numbers_of self)) }
    {
        let Setting::Band(_, value, numbers) = self;
        answer::vetted(in_its_range(value), numbers.worked())
    }

    // The band that it leaves.
    pub fn taken(self) -> Band
        ensures { result ≡ Bands.taken (Bands.value_of self) (Bands.numbers_of self) }
    {
        let Setting::Band(_, value, numbers) = self;
        taken(value, numbers)
    }

    // Whether it zeroes the registers of a band that held these numbers.
    pub fn clears(self, old: Numbers) -> bool
        ensures { result ≡ Bands.clears old (Bands.value_of self) }
    {
        let Setting::Band(_, value, _) = self;
        clears(old, value)
    }
}

impl Band {
    // Whether a setting or making could have left it.
    #[tactic(auto, unfolding(crate::specs::Bands::band_settable))]
    fn settable(self) -> bool
        ensures { result ≡ Bands.band_settable self }
    {
        if !in_its_range(self.value) {
            return false;
        }
        if is_unity(self.value) {
            self.numbers.is_passthrough()
        } else {
            self.numbers.worked()
        }
    }
}

impl Settings {
    // Whether the rate and the bands could have been set or made.
    #[tactic(auto, unfolding(crate::specs::Bands::settable))]
    pub fn settable(&self) -> bool
        ensures { result ≡ Bands.settable self.now }
    {
        answer::is_rate(self.rate) && self.bands.iter().all(|b| b.settable())
    }
}

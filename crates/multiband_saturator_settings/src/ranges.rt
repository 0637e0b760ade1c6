// What a setting may be and what it changes.
ghost use Rattle.std.specs.Prelude.{◌≡◌};
ghost use Rattle.answer.specs.Checks.{vetted};
ghost use Rattle.multiband_saturator_settings.specs.Ranges as Ranges;

use crate::{Band, Bands, Crossover, Frequency, Numbers, Setting, Settings};
use answer::{Refusal, finite32, is_smoothing, settled32};

const HIGHEST_DRIVE: f32 = 1.0;

const HIGHEST_LEVEL: f32 = 2.0;

impl Frequency {
    fn in_its_range(self, v: f32) -> bool
        ensures { result ≡ Ranges.is_freq self v }
    {
        match self {
            Frequency::Low => answer::in_range(50.0, 500.0, v),
            Frequency::High => answer::in_range(1000.0, 6000.0, v),
        }
    }
}

impl Numbers {
    #[tactic(auto, unfolding(crate::specs::Ranges::finite_numbers))]
    fn finite(self) -> bool
        ensures { result ≡ Ranges.finite_numbers self }
    {
        finite32(self.b0)
            && finite32(self.b1)
            && finite32(self.b2)
            && finite32(self.a1)
            && finite32(self.a2)
    }

    // Every NaN in it the quiet one.
    fn settled(self) -> Numbers
        ensures { result ≡ self }
    {
        Numbers {
            b0: settled32(self.b0),
            b1: settled32(self.b1),
            b2: settled32(self.b2),
            a1: settled32(self.a1),
            a2: settled32(self.a2),
        }
    }
}

impl Crossover {
    // Whether its ten numbers are finite.
    #[tactic(auto, unfolding(crate::specs::Ranges::finite_all))]
    fn finite(self) -> bool
        ensures { result ≡ Ranges.finite_all self }
    {
        self.lowpass.finite() && self.highpass.finite()
    }

    // Every NaN in it the quiet one.
    fn settled(self) -> Crossover
        ensures { result ≡ self }
    {
        Crossover {
            lowpass: self.lowpass.settled(),
            highpass: self.highpass.settled(),
        }
    }
}

impl Setting {
    // Whether its value is in its range.
    pub fn in_its_range(self) -> bool
        ensures { result ≡ Ranges.in_its_range self }
    {
        match self {
            Setting::Drive(_, v) => answer::in_range(0.0, HIGHEST_DRIVE, v),
            Setting::Level(_, v) => answer::in_range(0.0, HIGHEST_LEVEL, v),
            Setting::Freq(f, v, _) => f.in_its_range(v),
        }
    }

    // Whether the worked numbers that it takes are acceptable.
    #[tactic(auto, unfolding(crate::specs::Ranges::worked))]
    pub fn worked(self) -> bool
        ensures { result ≡ Ranges.worked self }
    {
        match self {
            Setting::Freq(_, _, c) => c.finite(),
            _ => true,
        }
    }

    // 3, 4.
    pub fn vetted(self) -> Result<(), Refusal>
        ensures { result ≡ vetted (Ranges.in_its_range self) (Ranges.worked self) }
    {
        answer::vetted(self.in_its_range(), self.worked())
    }

    // Every NaN in it the quiet one.
    fn settled(self) -> Setting
        ensures { result ≡ self }
    {
        match self {
            Setting::Drive(b, v) => Setting::Drive(b, settled32(v)),
            Setting::Level(b, v) => Setting::Level(b, settled32(v)),
            Setting::Freq(f, v, c) => Setting::Freq(f, settled32(v), c.settled()),
        }
    }
}

impl Bands {
    #[tactic(auto, unfolding(crate::specs::Ranges::with_band))]
    fn put(&mut self, b: Band, v: f32)
        ensures { self.new ≡ Ranges.with_band self.old b v }
    {
        match b {
            Band::Low => self.low = v,
            Band::Mid => self.mid = v,
            Band::High => self.high = v,
        }
    }

    // Whether each band's number is from 0 to the highest.
    fn each_within(&self, highest: f32) -> bool
        ensures { result ≡ Ranges.each_within highest self.now }
    {
        answer::in_range(0.0, highest, self.low)
            && answer::in_range(0.0, highest, self.mid)
            && answer::in_range(0.0, highest, self.high)
    }
}

// Whether the numbers that making is lent are acceptable.
#[tactic(auto, unfolding(crate::specs::Ranges::lent))]
pub fn lent(low: Crossover, high: Crossover, attack: f32, release: f32, blocker: f32) -> bool
    ensures { result ≡ Ranges.lent low high attack release blocker }
{
    low.finite()
        && high.finite()
        && is_smoothing(attack)
        && is_smoothing(release)
        && is_smoothing(blocker)
}

impl Settings {
    // Takes t, its NaNs settled; the others stay as they are.
    #[tactic(auto, unfolding(crate::specs::Ranges::with_setting))]
    pub fn take(&mut self, t: Setting)
        ensures { self.new ≡ Ranges.with_setting self.old t }
    {
        match t.settled() {
            Setting::Drive(b, v) => self.drives.put(b, v),
            Setting::Level(b, v) => self.levels.put(b, v),
            Setting::Freq(Frequency::Low, v, c) => {
                self.frequencies.low = v;
                self.low = c;
            }
            Setting::Freq(Frequency::High, v, c) => {
                self.frequencies.high = v;
                self.high = c;
            }
        }
    }

    // Whether those of its numbers that making is lent are acceptable.
    pub fn lent(&self) -> bool
        ensures { result ≡ Ranges.lent self.now.low self.now.high self.now.attack self.now.release self.now.blocker }
    {
        lent(self.low, self.high, self.attack, self.release, self.blocker)
    }

    // Whether the settings, the rate and the worked numbers could have been set or made.
    pub fn settable(&self) -> bool
        ensures { result ≡ Ranges.settable self.now }
    {
        answer::is_rate(self.rate)
            && self.drives.each_within(HIGHEST_DRIVE)
            && self.levels.each_within(HIGHEST_LEVEL)
            && Frequency::Low.in_its_range(self.frequencies.low)
            && Frequency::High.in_its_range(self.frequencies.high)
            && self.lent()
    }
}

// What a setting may be and what it changes.
ghost use Rattle.std.specs.Prelude.{◌≡◌};
ghost use Rattle.answer.specs.Checks.{vetted};
ghost use Rattle.noise_gate_settings.specs.Ranges as Ranges;

use crate::{Setting, Settings};
use answer::{Decibels, Factor, Refusal, Timed, settled32};

// The longest hold that can be set, in milliseconds.
const LONGEST_HOLD: f32 = 500.0;

const LOWEST_FACTOR: f32 = 1.0 / 16384.0;

impl Setting {
    // Whether its value is in its range.
    pub fn in_its_range(self) -> bool
        ensures { result ≡ Ranges.in_its_range self }
    {
        match self {
            Setting::Threshold(d, _) => answer::in_range(-80.0, 0.0, d.0),
            Setting::Ratio(r) => answer::in_range(1.0, 100.0, r),
            Setting::Attack(t, _) => answer::in_range(0.1, 100.0, t),
            Setting::Release(t, _) => answer::in_range(1.0, 1000.0, t),
            Setting::Hold(t) => answer::in_range(0.0, LONGEST_HOLD, t),
        }
    }

    // Whether the worked number that it takes is acceptable.
    pub fn worked(self) -> bool
        ensures { result ≡ Ranges.worked self }
    {
        match self {
            Setting::Threshold(_, k) => answer::in_range(LOWEST_FACTOR, 1.0, k.0),
            Setting::Attack(_, c) => answer::is_smoothing(c),
            Setting::Release(_, c) => answer::is_smoothing(c),
            _ => true,
        }
    }

    // 3, 4.
    pub fn vetted(self) -> Result<(), Refusal>
        ensures { result ≡ vetted (Ranges.in_its_range self) (Ranges.worked self) }
    {
        answer::vetted(self.in_its_range(), self.worked())
    }

    #[tactic(auto, unfolding(crate::specs::Ranges::allowed))]
    fn allowed(self) -> bool
        ensures { result ≡ Ranges.allowed self }
    {
        self.in_its_range() && self.worked()
    }

    // Every NaN in it the quiet one.
    fn settled(self) -> Setting
        ensures { result ≡ self }
    {
        match self {
            Setting::Threshold(d, k) => {
                Setting::Threshold(Decibels(settled32(d.0)), Factor(settled32(k.0)))
            }
            Setting::Ratio(r) => Setting::Ratio(settled32(r)),
            Setting::Attack(t, c) => Setting::Attack(settled32(t), settled32(c)),
            Setting::Release(t, c) => Setting::Release(settled32(t), settled32(c)),
            Setting::Hold(t) => Setting::Hold(settled32(t)),
        }
    }
}

impl Settings {
    // Takes t, its NaNs settled; the others stay as they are.
    #[tactic(auto, unfolding(crate::specs::Ranges::with_setting))]
    pub fn take(&mut self, t: Setting)
        ensures { self.new ≡ Ranges.with_setting self.old t }
    {
        match t.settled() {
            Setting::Threshold(d, k) => {
                self.threshold = d;
                self.factor = k;
            }
            Setting::Ratio(r) => self.ratio = r,
            Setting::Attack(ms, number) => self.attack = Timed { ms, number },
            Setting::Release(ms, number) => self.release = Timed { ms, number },
            Setting::Hold(t) => self.hold = t,
        }
    }

    // Whether the settings, the rate and the worked numbers could have been set or made.
    #[tactic(auto, unfolding(crate::specs::Ranges::settable))]
    pub fn settable(&self) -> bool
        ensures { result ≡ Ranges.settable self.now }
    {
        answer::is_rate(self.rate)
            && Setting::Threshold(self.threshold, self.factor).allowed()
            && Setting::Ratio(self.ratio).allowed()
            && Setting::Attack(self.attack.ms, self.attack.number).allowed()
            && Setting::Release(self.release.ms, self.release.number).allowed()
            && Setting::Hold(self.hold).allowed()
            && answer::is_smoothing(self.rising)
            && answer::is_smoothing(self.falling)
    }
}

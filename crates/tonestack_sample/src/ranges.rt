// What a setting may be and what it changes.
ghost use Rattle.std.specs.Prelude.{◌≡◌};
ghost use Rattle.answer.specs.Checks.{vetted};
ghost use Rattle.tonestack_sample.specs.Ranges as Ranges;

use crate::{Setting, Settings};
use answer::{Factor, Refusal, settled32};

const HIGHEST_CONTROL: f32 = 2.0;

const LAST_MODEL: u32 = 3;

fn is_control(v: f32) -> bool
    ensures { result ≡ Ranges.is_control v }
{
    answer::in_range(0.0, HIGHEST_CONTROL, v)
}

fn is_factor(k: Factor) -> bool
    ensures { result ≡ Ranges.is_factor k }
{
    answer::in_range(0.5, 2.0, k.0)
}

// Any NaN as the quiet one.
fn clamped(v: f32) -> f32
    ensures { result ≡ Ranges.clamped v }
{
    settled32(v.clamp(0.0, HIGHEST_CONTROL))
}

impl Setting {
    #[tactic(auto, unfolding(crate::specs::Ranges::value))]
    fn value(self) -> f32
        ensures { result ≡ Ranges.value self }
    {
        match self {
            Setting::Bass(v) | Setting::Mid(v) | Setting::Treble(v) | Setting::Presence(v, _) => v,
        }
    }

    // Whether its value is a number.
    pub fn is_number(self) -> bool
        ensures { result ≡ Ranges.is_number self }
    {
        !self.value().is_nan()
    }

    // Whether the worked number that it takes is acceptable.
    #[tactic(auto, unfolding(crate::specs::Ranges::worked))]
    pub fn worked(self) -> bool
        ensures { result ≡ Ranges.worked self }
    {
        match self {
            Setting::Presence(_, k) => is_factor(k),
            _ => true,
        }
    }

    // 3, 4.
    pub fn vetted(self) -> Result<(), Refusal>
        ensures { result ≡ vetted (Ranges.is_number self) (Ranges.worked self) }
    {
        answer::vetted(self.is_number(), self.worked())
    }
}

impl Settings {
    // Takes t, its value clamped, any NaN as the quiet one; the others stay as they are.
    #[tactic(auto, unfolding(crate::specs::Ranges::with_setting))]
    pub fn take(&mut self, t: Setting)
        ensures { self.new ≡ Ranges.with_setting self.old t }
    {
        match t {
            Setting::Bass(v) => self.bass = clamped(v),
            Setting::Mid(v) => self.mid = clamped(v),
            Setting::Treble(v) => self.treble = clamped(v),
            Setting::Presence(v, k) => {
                self.presence = clamped(v);
                self.factor = Factor(settled32(k.0));
            }
        }
    }

    // Whether the settings, the rate and the worked number could have been set or made.
    #[tactic(auto, unfolding(crate::specs::Ranges::settable))]
    pub fn settable(&self) -> bool
        ensures { result ≡ Ranges.settable self.now }
    {
        answer::is_rate(self.rate)
            && self.model <= LAST_MODEL
            && is_control(self.bass)
            && is_control(self.mid)
            && is_control(self.treble)
            && is_control(self.presence)
            && is_factor(self.factor)
    }
}

// The names of the settings, as bytes.
ghost use Rattle.std.specs.Prelude.{◌≡◌, Option};
ghost use Rattle.noise_gate_settings.specs.Names as Names;

use crate::{Setting, Settings};
use answer::{Decibels, Factor, same, settled32};

impl Setting {
    // What a name asks for, v being the value and w the worked number beside it.
    #[tactic(auto, unfolding(crate::specs::Names::named))]
    pub fn named(name: &[u8], v: f32, w: f32) -> Option<Setting>
        ensures { result ≡ Names.named name.now v w }
    {
        if same(name, b"threshold") {
            Some(Setting::Threshold(Decibels(v), Factor(w)))
        } else if same(name, b"ratio") {
            Some(Setting::Ratio(v))
        } else if same(name, b"attack") {
            Some(Setting::Attack(v, w))
        } else if same(name, b"release") {
            Some(Setting::Release(v, w))
        } else if same(name, b"hold") {
            Some(Setting::Hold(v))
        } else {
            None
        }
    }
}

impl Settings {
    #[tactic(auto, unfolding(crate::specs::Names::kept))]
    fn held(&self, t: Setting) -> f32
        ensures { result ≡ Names.kept self.now t }
    {
        match t {
            Setting::Threshold(_, _) => self.threshold.0,
            Setting::Ratio(_) => self.ratio,
            Setting::Attack(_, _) => self.attack.ms,
            Setting::Release(_, _) => self.release.ms,
            Setting::Hold(_) => self.hold,
        }
    }

    // The value kept for the setting that t is one of, any NaN as the quiet one.
    pub fn kept(&self, t: Setting) -> f32
        ensures { result ≡ Names.kept self.now t }
    {
        settled32(self.held(t))
    }
}

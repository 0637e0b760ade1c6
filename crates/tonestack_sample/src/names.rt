// The names of the settings, as bytes.
ghost use Rattle.std.specs.Prelude.{◌≡◌, Option};
ghost use Rattle.tonestack_sample.specs.Names as Names;

use crate::{Setting, Settings};
use answer::{Factor, same, settled32};

impl Setting {
    // What a name asks for, v being the value and w the worked number beside it.
    #[tactic(auto, unfolding(crate::specs::Names::named))]
    pub fn named(name: &[u8], v: f32, w: f32) -> Option<Setting>
        ensures { result ≡ Names.named name.now v w }
    {
        if same(name, b"bass") {
            Some(Setting::Bass(v))
        } else if same(name, b"mid") {
            Some(Setting::Mid(v))
        } else if same(name, b"treble") {
            Some(Setting::Treble(v))
        } else if same(name, b"presence") {
            Some(Setting::Presence(v, Factor(w)))
        } else {
            None
        }
    }
}

impl Settings {
    #[tactic(auto, unfolding(crate::specs::Names::kept))]
    fn held(&self, t: Setting) -> f32
        ensures { result ≡ Names.kept self.now t }
    {
        match t {
            Setting::Bass(_) => self.bass,
            Setting::Mid(_) => self.mid,
            Setting::Treble(_) => self.treble,
            Setting::Presence(_, _) => self.presence,
        }
    }

    // The value kept for the setting that t is one of, any NaN as the quiet one.
    pub fn kept(&self, t: Setting) -> f32
        ensures { result ≡ Names.kept self.now t }
    {
        settled32(self.held(t))
    }
}

// The names of the settings, as bytes.
ghost use Rattle.std.specs.Prelude.{◌≡◌, Option};
ghost use Rattle.multiband_saturator_settings.specs.Names as Names;

use crate::{Band, Bands, Crossover, Frequency, Setting, Settings};
use answer::{same, settled32};

impl Setting {
    // What a name asks for, v being the value and c the worked numbers beside it.
    #[tactic(auto, unfolding(crate::specs::Names::named))]
    pub fn named(name: &[u8], v: f32, c: Crossover) -> Option<Setting>
        ensures { result ≡ Names.named name.now v c }
    {
        if same(name, b"low_drive") {
            Some(Setting::Drive(Band::Low, v))
        } else if same(name, b"mid_drive") {
            Some(Setting::Drive(Band::Mid, v))
        } else if same(name, b"high_drive") {
            Some(Setting::Drive(Band::High, v))
        } else if same(name, b"low_level") {
            Some(Setting::Level(Band::Low, v))
        } else if same(name, b"mid_level") {
            Some(Setting::Level(Band::Mid, v))
        } else if same(name, b"high_level") {
            Some(Setting::Level(Band::High, v))
        } else if same(name, b"low_freq") {
            Some(Setting::Freq(Frequency::Low, v, c))
        } else if same(name, b"high_freq") {
            Some(Setting::Freq(Frequency::High, v, c))
        } else {
            None
        }
    }
}

impl Bands {
    #[tactic(auto, unfolding(crate::specs::Names::of_band))]
    fn of(&self, b: Band) -> f32
        ensures { result ≡ Names.of_band self.now b }
    {
        match b {
            Band::Low => self.low,
            Band::Mid => self.mid,
            Band::High => self.high,
        }
    }
}

impl Settings {
    #[tactic(auto, unfolding(crate::specs::Names::kept))]
    fn held(&self, t: Setting) -> f32
        ensures { result ≡ Names.kept self.now t }
    {
        match t {
            Setting::Drive(b, _) => self.drives.of(b),
            Setting::Level(b, _) => self.levels.of(b),
            Setting::Freq(Frequency::Low, _, _) => self.frequencies.low,
            Setting::Freq(Frequency::High, _, _) => self.frequencies.high,
        }
    }

    // The value kept for the setting that t is one of, any NaN as the quiet one.
    pub fn kept(&self, t: Setting) -> f32
        ensures { result ≡ Names.kept self.now t }
    {
        settled32(self.held(t))
    }
}

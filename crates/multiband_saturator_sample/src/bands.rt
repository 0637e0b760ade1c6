// One band's step: its envelope, its saturation, its DC blocker.
ghost use Rattle.std.specs.Prelude.{◌≡◌};
ghost use Rattle.multiband_saturator_sample.specs.Bands as Bands;

use crate::BandRegisters;
use common::blocker::Blocker;
use float::fma32;
use multiband_saturator_settings::Settings;

// The envelope up to which saturation isn't made up for.
const SILENT: f32 = 0.0001;

fn saturate(input: f32, drive: f32) -> f32
    ensures { result ≡ Bands.saturate input drive }
{
    let x = input * fma32(drive, 9.0, 1.0);
    x / (1.0 + float::size32(x))
}

fn saturated(x: f32, drive: f32, env: f32) -> f32
    ensures { result ≡ Bands.saturated x drive env }
{
    if env > SILENT {
        saturate(x / (1.0 + env), drive) * fma32(env, 0.5, 1.0)
    } else {
        saturate(x, drive)
    }
}

impl BandRegisters {
    // A sample x, for any bits, and what the band with that drive gives: the follower's and the blocker's steps
    // write it.
    #[tactic(auto, unfolding(crate::specs::Bands::passed))]
    pub(crate) fn pass(&mut self, s: &Settings, drive: f32, x: f32) -> f32
        ensures left { self.new ≡ Bands.passed s.now.attack s.now.release s.now.blocker drive self.old x }
        ensures given { result ≡ self.new.y1 }
    {
        let level = common::follower::followed(s.attack, s.release, self.level, x);
        let blocker = Blocker {
            c: s.blocker,
            x1: self.x1,
            y1: self.y1,
        };
        let Blocker { x1, y1, .. } = common::blocker::blocked(blocker, saturated(x, drive, level));
        *self = BandRegisters { level, x1, y1 };
        y1
    }
}

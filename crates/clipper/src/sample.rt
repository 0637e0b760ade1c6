// One sample of the clipper, hard and triode, for any bits.
ghost use Rattle.std.specs.Prelude.{◌≡◌};
ghost use Rattle.clipper.specs.Process as samples;

use crate::{Kind, triode};

impl Kind {
    // The product of a sample and the drive, then clamp or table.
    pub(crate) fn process(self, input: f32, drive: f32) -> f32
        ensures { result ≡ samples.process self input drive }
    {
        let driven = input * drive;
        match self {
            Kind::Hard => float::settled32(driven.clamp(-1.0, 1.0)),
            Kind::Triode => float::settled32(triode::process(driven)),
        }
    }
}

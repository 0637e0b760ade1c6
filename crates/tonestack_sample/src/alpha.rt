// The alphas of the four one-pole filters, from the rate and the model's corners.
ghost use Rattle.std.specs.Prelude.{◌≡◌};
ghost use Rattle.tonestack_sample.specs.Alpha as Alpha;

use crate::{Alphas, Settings, Tuned, models};
use common::frequencies;

const PI: f32 = 3.14159265358979323846;

// The corner of the DC step, in Hz.
const DC_CORNER: f32 = 20.0;

// Any NaN as the quiet one: at a rate of 0 both sides of the division are infinite.
fn alpha(rate: f32, f: f32) -> f32
    ensures { result ≡ Alpha.alpha rate f }
{
    let dt = 1.0 / rate;
    float::settled32(dt / (dt + 1.0 / (2.0 * PI * f)))
}

impl Settings {
    // Kept out of a block's loop, whose stack they would take.
    #[inline(never)]
    fn alphas(&self) -> Alphas
        ensures { result ≡ Alpha.alphas_of self.now }
    {
        let corners = frequencies::model_corners(models::model_of(self.model));
        Alphas {
            dc: alpha(self.rate, DC_CORNER),
            bass: alpha(self.rate, corners.bass),
            treble: alpha(self.rate, corners.treble),
            presence: alpha(self.rate, corners.presence),
        }
    }

    // With the alphas, which are worked out once a block.
    pub fn tuned(&self) -> Tuned
        ensures { (result.settings.now ≡ self.now) × (result.alphas ≡ Alpha.alphas_of self.now) }
    {
        Tuned {
            settings: self,
            alphas: self.alphas(),
        }
    }
}

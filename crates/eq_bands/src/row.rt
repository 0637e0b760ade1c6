// A block's samples through the bands, over any bits: one band's biquad, a band over a buffer, and the
// sixteen in a row.
ghost use Rattle.std.specs.Prelude.{◌≡◌};
ghost use Rattle.eq_bands.specs.Biquad as Biquad;
ghost use Rattle.eq_bands.specs.Row as Row;

use crate::{Delay, Numbers, Registers, Settings};
use fold::Step;

// Every NaN in what a sample leaves and gives is the quiet one.
impl Step for Numbers {
    type State = Delay;

    type Sample = f64;

    type Output = f64;

    ghost next = { Biquad.next };

    ghost given = { Biquad.output };

    #[tactic(auto, unfolding(crate::specs::Biquad::next, crate::specs::Biquad::output))]
    fn step(&self, d: Delay, x: f64) -> (Delay, f64) {
        let forward = float::fma64(self.b0, x, float::fma64(self.b1, d.x1, self.b2 * d.x2));
        let back = float::fma64(self.a1, d.y1, self.a2 * d.y2);
        let y = float::settled64(forward - back);
        let left = Delay {
            x1: float::settled64(x),
            x2: float::settled64(d.x1),
            y1: y,
            y2: float::settled64(d.y1),
        };
        (left, y)
    }
}

impl Numbers {
    // A band over a buffer of samples, each replaced by what the band gives.
    fn over(self, d: Delay, samples: &mut [f64]) -> Delay
        ensures { (result, samples.new) ≡ Biquad.over self d samples.old }
    {
        let mut now = d;
        for x in samples.iter_mut() {
            let (next, y) = self.step(now, *x);
            *x = y;
            now = next;
        }
        now
    }
}

impl Registers {
    // The sixteen bands, one after the other, over a buffer of samples.
    pub fn through(&mut self, s: &Settings, samples: &mut [f64])
        ensures { (self.new, samples.new) ≡ Row.through s.now self.old samples.old }
    {
        for (k, b) in s.bands.iter().enumerate() {
            self.bands[k] = b.numbers.over(self.bands[k], samples);
        }
    }
}

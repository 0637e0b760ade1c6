// One filter's step, and that of the two at one frequency.
ghost use Rattle.std.specs.Prelude.{◌≡◌};
ghost use Rattle.multiband_saturator_sample.specs.Filters as Filters;

use crate::{Biquad, Filter, Split};
use float::{fma32, settled32};
use multiband_saturator_settings::{Crossover, Numbers};

impl Biquad {
    // Each product but the last fused with its sum.
    #[tactic(auto, unfolding(crate::specs::Filters::output))]
    fn output(&self, n: &Numbers, x: f32) -> f32
        ensures { result ≡ Filters.output n.now self.now x }
    {
        let inputs = fma32(n.b2, self.x2, fma32(n.b0, x, n.b1 * self.x1));
        fma32(n.a2, -self.y2, fma32(n.a1, -self.y1, inputs))
    }

    // A sample x, and what the biquad gives: the one place that writes a filter's registers. Every NaN in it is the
    // quiet one.
    #[tactic(auto, unfolding(crate::specs::Filters::biquad))]
    fn pass(&mut self, n: &Numbers, x: f32) -> f32
        ensures left { self.new ≡ Filters.biquad n.now self.old x }
        ensures given { result ≡ self.new.y1 }
    {
        let y = settled32(self.output(n, x));
        *self = Biquad {
            x1: settled32(x),
            x2: settled32(self.x1),
            y1: y,
            y2: settled32(self.y1),
        };
        y
    }
}

impl Filter {
    #[tactic(auto, unfolding(crate::specs::Filters::filtered))]
    fn pass(&mut self, n: &Numbers, x: f32) -> f32
        ensures left { self.new ≡ Filters.filtered n.now self.old x }
        ensures given { result ≡ Filters.given self.new }
    {
        let y = self.first.pass(n, x);
        self.second.pass(n, y)
    }
}

impl Split {
    // A sample x, for any bits, and what the two filters give, the low one's first.
    #[tactic(auto, unfolding(crate::specs::Filters::split))]
    pub(crate) fn pass(&mut self, c: &Crossover, x: f32) -> (f32, f32)
        ensures left { self.new ≡ Filters.split c.now self.old x }
        ensures given { result ≡ (Filters.given self.new.lp, Filters.given self.new.hp) }
    {
        let low = self.lp.pass(&c.lowpass, x);
        let high = self.hp.pass(&c.highpass, x);
        (low, high)
    }
}

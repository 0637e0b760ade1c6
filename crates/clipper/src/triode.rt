// A lookup in the triode's table: the place of an input, and the cubic through the four entries around it.
ghost use Rattle.std.specs.Prelude.{◌≡◌, ◌≤◌};
ghost use Rattle.clipper.specs.Process as samples;

use crate::table::Around;

const INPUT_MIN: f32 = -10.0;

const INPUT_MAX: f32 = 10.0;

pub fn process(input: f32) -> f32
    ensures { result ≡ samples.triode input }
{
    let place = place_of(input);
    let i = index_of(place);
    lookup(i, place - i as f32).clamp(-1.0, 1.0)
}

// Where the input lies in the table, counted in entries.
fn place_of(input: f32) -> f32
    ensures { result ≡ samples.place input }
{
    let clamped = input.clamp(INPUT_MIN, INPUT_MAX);
    let normalized = (clamped - INPUT_MIN) / (INPUT_MAX - INPUT_MIN);
    normalized * 255.0
}

#[tactic(auto, unfolding(crate::specs::Process::index))]
fn index_of(place: f32) -> usize
    ensures { (result ≡ samples.index place) × (result ≤ 254) }
{
    let t = float::truncated(place);
    (t.whole as usize).min(254)
}

#[tactic(auto, unfolding(crate::specs::Process::lookup))]
fn lookup(i: usize, fraction: f32) -> f32
    requires { i ≤ 254 }
    ensures { result ≡ samples.lookup i fraction }
{
    Around::at(i).interpolated(fraction)
}

impl Around {
    #[tactic(auto, unfolding(crate::specs::Process::interpolated, crate::specs::Process::cubic))]
    fn interpolated(self, fraction: f32) -> f32
        ensures { result ≡ samples.interpolated self.p0 self.p1 self.p2 self.p3 fraction }
    {
        let first = float::fma32(self.coeff_a(), fraction, self.coeff_b());
        let second = float::fma32(first, fraction, self.coeff_c());
        float::fma32(second, fraction, self.p1)
    }

    fn coeff_a(self) -> f32
        ensures { result ≡ samples.coeff_a self.p0 self.p1 self.p2 self.p3 }
    {
        float::fma32(-0.5, self.p0, 1.5 * self.p1) + float::fma32(-1.5, self.p2, 0.5 * self.p3)
    }

    fn coeff_b(self) -> f32
        ensures { result ≡ samples.coeff_b self.p0 self.p1 self.p2 self.p3 }
    {
        float::fma32(2.5, -self.p1, self.p0) + float::fma32(2.0, self.p2, -0.5 * self.p3)
    }

    fn coeff_c(self) -> f32
        ensures { result ≡ samples.coeff_c self.p0 self.p2 }
    {
        float::fma32(-0.5, self.p0, 0.5 * self.p2)
    }
}

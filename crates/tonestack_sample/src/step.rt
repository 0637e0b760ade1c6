// One sample of the tone stack, over any bits: what it moves and what it gives.
ghost use Rattle.std.specs.Prelude.{◌≡◌};
ghost use Rattle.tonestack_sample.specs.Step as Step;

use crate::{Registers, Tuned, models};
use common::frequencies::Model;
use float::{fma32, settled32};

const LEAST_GAIN: f32 = 0.001;

const HEADROOM: f32 = 0.7;

#[tactic(auto, unfolding(crate::specs::Step::one_pole))]
fn one_pole(alpha: f32, state: f32, x: f32) -> f32
    ensures { result ≡ Step.one_pole alpha state x }
{
    fma32(alpha, x - state, state)
}

fn gain(control: f32) -> f32
    ensures { result ≡ Step.gain control }
{
    if LEAST_GAIN < control {
        control
    } else {
        LEAST_GAIN
    }
}

// The shelf by the model's last factor; Flat has none.
fn flavoured(model: Model, shelf: f32) -> f32
    ensures { result ≡ Step.flavoured model shelf }
{
    match model {
        Model::Modern => shelf * 0.95,
        Model::British => shelf * 1.05,
        Model::American => shelf * 0.97,
        Model::Flat => shelf,
    }
}

impl fold::Step for Tuned<'_> {
    type State = Registers;

    type Sample = f32;

    type Output = f32;

    ghost next = { λ t m x. Step.next_with t.alphas t.settings.now m x };

    ghost given = { λ t m x. Step.output_with t.alphas t.settings.now m x };

    // Every NaN in what it leaves and gives is the quiet one.
    fn step(&self, m: Registers, input: f32) -> (Registers, f32) {
        let a = &self.alphas;
        let s = self.settings;
        let dc = m.dc + a.dc * (input - m.dc);
        let x = input - dc;
        let bass = one_pole(a.bass, m.bass, x);
        let treble = one_pole(a.treble, m.treble, x);
        let low = fma32(bass, gain(s.bass), (treble - bass) * gain(s.mid));
        let mix = fma32(x - treble, gain(s.treble), low);
        let presence = one_pole(a.presence, m.presence, mix);
        let shelf = fma32(mix - presence, s.factor.0, presence);
        let output = flavoured(models::model_of(s.model), shelf) * HEADROOM;
        let left = Registers {
            dc: settled32(dc),
            bass: settled32(bass),
            treble: settled32(treble),
            presence: settled32(presence),
        };
        (left, settled32(output))
    }
}

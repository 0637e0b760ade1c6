// The model that has a number, in the order of `common::frequencies`.
ghost use Rattle.std.specs.Prelude.{◌≡◌};
ghost use Rattle.tonestack_sample.specs.Models as Models;

use common::frequencies::Model;

// 9 lets no number past 3 through.
#[tactic(auto, unfolding(crate::specs::Models::model_of))]
pub fn model_of(number: u32) -> Model
    ensures { result ≡ Models.model_of number }
{
    match number {
        0 => Model::Modern,
        1 => Model::British,
        2 => Model::American,
        _ => Model::Flat,
    }
}

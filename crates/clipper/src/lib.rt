// The clipper, hard and triode: a block with a kind and a drive. It keeps no state.
#![tactic(auto)]

mod sample;
mod table;
mod triode;

ghost use Rattle.std.specs.Prelude.{◌≡◌, length};
ghost use Rattle.answer.specs.Told.{told};
ghost use Rattle.clipper.specs.Block as blocks;

use answer::{LONGEST_BLOCK, Refusal};

#[derive(Clone, Copy, Debug, PartialEq, Eq)]
pub enum Kind {
    Hard,
    Triode,
}

// A block: the product of each sample and the drive, then clamp or table. 7, 8, 3, 6.
#[tactic(auto, unfolding(crate::specs::Block::block))]
pub fn block(kind: Kind, drive: f32, input: &[f32], output: &mut [f32]) -> Result<(), Refusal>
    ensures { told output.new result ≡ blocks.block kind drive input.now output.old }
{
    if input.len() != output.len() {
        return Err(Refusal::LengthsDiffer);
    }
    if input.len() > LONGEST_BLOCK {
        return Err(Refusal::TooLong);
    }
    if !answer::finite32(drive) {
        return Err(Refusal::OutOfRange);
    }
    let place = answer::first_refused(input);
    if place < input.len() {
        return Err(Refusal::BadSample(place));
    }
    process_all(kind, drive, input, output);
    Ok(())
}

#[tactic(auto, unfolding(crate::specs::Block::processed))]
fn process_all(kind: Kind, drive: f32, input: &[f32], output: &mut [f32])
    requires { length input.now ≡ length output.old }
    ensures { output.new ≡ blocks.processed kind drive input.now }
{
    for (i, x) in input.iter().enumerate() {
        output[i] = kind.process(*x, drive);
    }
}

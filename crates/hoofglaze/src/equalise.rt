// The equaliser under C names. Assumes nothing.
ghost use Rattle.std.specs.Prelude.{◌≡◌};
ghost use Rattle.eq.specs.Calls as calls;
ghost use Rattle.answer.specs.Crossing.{told_in};

use answer::{Decibels, Numbered};
use eq::Equaliser;
use eq_bands::{Numbers, Setting};
use stage::Stage;

#[repr(C)]
#[derive(Clone, Copy)]
pub struct EqAnswered {
    pub equaliser: Equaliser,
    pub answer: Numbered,
}

#[unsafe(no_mangle)]
pub extern "C" fn hoofglaze_eq_make(rate: f32) -> EqAnswered
    ensures { told_in result.equaliser result.answer ≡ calls.make rate }
{
    match Equaliser::make(rate) {
        Ok(equaliser) => EqAnswered {
            equaliser,
            answer: ().into(),
        },
        Err(r) => EqAnswered {
            equaliser: Equaliser::unmade(),
            answer: r.into(),
        },
    }
}

#[unsafe(no_mangle)]
pub extern "C" fn hoofglaze_eq_set(
    mut e: Equaliser,
    name: &[u8],
    value: Decibels,
    worked: Numbers,
) -> EqAnswered
    ensures { told_in result.equaliser result.answer ≡ calls.set e name.now value worked }
{
    let answer = e.set(name, value, worked).into();
    EqAnswered {
        equaliser: e,
        answer,
    }
}

#[unsafe(no_mangle)]
pub extern "C" fn hoofglaze_eq_set_band(
    mut e: Equaliser,
    band: usize,
    value: Decibels,
    worked: Numbers,
) -> EqAnswered
    ensures { told_in result.equaliser result.answer ≡ calls.set_band e band value worked }
{
    let answer = e.set_typed(Setting::Band(band, value, worked)).into();
    EqAnswered {
        equaliser: e,
        answer,
    }
}

#[unsafe(no_mangle)]
pub extern "C" fn hoofglaze_eq_read(e: Equaliser, name: &[u8]) -> Numbered
    ensures { told_in e result ≡ calls.read e name.now }
{
    e.read(name).into()
}

#[unsafe(no_mangle)]
pub extern "C" fn hoofglaze_eq_reset(mut e: Equaliser) -> EqAnswered
    ensures { told_in result.equaliser result.answer ≡ calls.reset e }
{
    let answer = e.reset().into();
    EqAnswered {
        equaliser: e,
        answer,
    }
}

#[unsafe(no_mangle)]
pub extern "C" fn hoofglaze_eq_block(
    mut e: Equaliser,
    input: &[f32],
    output: &mut [f32],
) -> EqAnswered
    ensures { (told_in result.equaliser result.answer, output.new) ≡ calls.block e input.now output.old }
{
    let answer = e.block(input, output).into();
    EqAnswered {
        equaliser: e,
        answer,
    }
}

// The leveller under C names. Assumes nothing.
ghost use Rattle.std.specs.Prelude.{◌≡◌};
ghost use Rattle.answer.specs.Told.{told};
ghost use Rattle.leveller.specs.Calls as calls;
ghost use Rattle.leveller_settings.specs.declared.Setting.TheVariants.{Threshold, Ratio, Attack, Release, Makeup};
ghost use Rattle.answer.specs.Crossing.{told_in};

use answer::{Decibels, Factor, Numbered, Refusal};
use leveller::{Leveller, Setting};
use stage::Stage;

#[repr(C)]
#[derive(Clone, Copy)]
pub struct LevellerAnswered {
    pub leveller: Leveller,
    pub answer: Numbered,
}

fn answered(leveller: Leveller, answer: Result<(), Refusal>) -> LevellerAnswered
    ensures { told_in result.leveller result.answer ≡ told leveller answer }
{
    LevellerAnswered {
        leveller,
        answer: answer.into(),
    }
}

fn set_typed(mut l: Leveller, t: Setting) -> LevellerAnswered
    ensures { told_in result.leveller result.answer ≡ calls.set_typed l t }
{
    let answer = l.set_typed(t);
    answered(l, answer)
}

#[unsafe(no_mangle)]
pub extern "C" fn hoofglaze_leveller_make(rate: f32, rising: f32, falling: f32) -> LevellerAnswered
    ensures { told_in result.leveller result.answer ≡ calls.make rate rising falling }
{
    match Leveller::make(rate, rising, falling) {
        Ok(leveller) => answered(leveller, Ok(())),
        Err(r) => answered(Leveller::unmade(), Err(r)),
    }
}

#[unsafe(no_mangle)]
pub extern "C" fn hoofglaze_leveller_set(
    mut l: Leveller,
    name: &[u8],
    value: f32,
    worked: f32,
) -> LevellerAnswered
    ensures { told_in result.leveller result.answer ≡ calls.set l name.now value worked }
{
    let answer = l.set(name, value, worked);
    answered(l, answer)
}

#[unsafe(no_mangle)]
pub extern "C" fn hoofglaze_leveller_set_threshold(
    l: Leveller,
    value: Decibels,
    worked: Factor,
) -> LevellerAnswered
    ensures { told_in result.leveller result.answer ≡ calls.set_typed l (Threshold value worked) }
{
    set_typed(l, Setting::Threshold(value, worked))
}

#[unsafe(no_mangle)]
pub extern "C" fn hoofglaze_leveller_set_ratio(l: Leveller, value: f32) -> LevellerAnswered
    ensures { told_in result.leveller result.answer ≡ calls.set_typed l (Ratio value) }
{
    set_typed(l, Setting::Ratio(value))
}

#[unsafe(no_mangle)]
pub extern "C" fn hoofglaze_leveller_set_attack(
    l: Leveller,
    value: f32,
    worked: f32,
) -> LevellerAnswered
    ensures { told_in result.leveller result.answer ≡ calls.set_typed l (Attack value worked) }
{
    set_typed(l, Setting::Attack(value, worked))
}

#[unsafe(no_mangle)]
pub extern "C" fn hoofglaze_leveller_set_release(
    l: Leveller,
    value: f32,
    worked: f32,
) -> LevellerAnswered
    ensures { told_in result.leveller result.answer ≡ calls.set_typed l (Release value worked) }
{
    set_typed(l, Setting::Release(value, worked))
}

#[unsafe(no_mangle)]
pub extern "C" fn hoofglaze_leveller_set_makeup(l: Leveller, value: Factor) -> LevellerAnswered
    ensures { told_in result.leveller result.answer ≡ calls.set_typed l (Makeup value) }
{
    set_typed(l, Setting::Makeup(value))
}

#[unsafe(no_mangle)]
pub extern "C" fn hoofglaze_leveller_read(l: Leveller, name: &[u8]) -> Numbered
    ensures { told_in l result ≡ calls.read l name.now }
{
    l.read(name).into()
}

#[unsafe(no_mangle)]
pub extern "C" fn hoofglaze_leveller_reset(mut l: Leveller) -> LevellerAnswered
    ensures { told_in result.leveller result.answer ≡ calls.reset l }
{
    let answer = l.reset();
    answered(l, answer)
}

#[unsafe(no_mangle)]
pub extern "C" fn hoofglaze_leveller_block(
    mut l: Leveller,
    input: &[f32],
    output: &mut [f32],
) -> LevellerAnswered
    ensures { (told_in result.leveller result.answer, output.new) ≡ calls.block l input.now output.old }
{
    let answer = l.block(input, output);
    answered(l, answer)
}

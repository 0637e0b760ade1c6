// The multiband saturator under C names. Assumes nothing.
ghost use Rattle.std.specs.Prelude.{◌≡◌};
ghost use Rattle.multiband_saturator.specs.Calls as calls;
ghost use Rattle.multiband_saturator_settings.specs.declared.Band.TheVariants as band;
ghost use Rattle.multiband_saturator_settings.specs.declared.Frequency.TheVariants as frequency;
ghost use Rattle.multiband_saturator_settings.specs.declared.Setting.TheVariants.{Drive, Level, Freq};
ghost use Rattle.answer.specs.Crossing.{told_in};

use answer::Numbered;
use multiband_saturator::{Band, Crossover, Frequency, Saturator, Setting};
use stage::Stage;

#[repr(C)]
#[derive(Clone, Copy)]
pub struct SaturatorAnswered {
    pub saturator: Saturator,
    pub answer: Numbered,
}

fn set_typed(mut s: Saturator, t: Setting) -> SaturatorAnswered
    ensures { told_in result.saturator result.answer ≡ calls.set_typed s t }
{
    let answer = s.set_typed(t).into();
    SaturatorAnswered {
        saturator: s,
        answer,
    }
}

#[unsafe(no_mangle)]
pub extern "C" fn hoofglaze_saturator_make(
    rate: f32,
    low: Crossover,
    high: Crossover,
    attack: f32,
    release: f32,
    blocker: f32,
) -> SaturatorAnswered
    ensures { told_in result.saturator result.answer ≡ calls.make rate low high attack release blocker }
{
    match Saturator::make(rate, low, high, attack, release, blocker) {
        Ok(saturator) => SaturatorAnswered {
            saturator,
            answer: ().into(),
        },
        Err(r) => SaturatorAnswered {
            saturator: Saturator::unmade(),
            answer: r.into(),
        },
    }
}

#[unsafe(no_mangle)]
pub extern "C" fn hoofglaze_saturator_set(
    mut s: Saturator,
    name: &[u8],
    value: f32,
    worked: Crossover,
) -> SaturatorAnswered
    ensures { told_in result.saturator result.answer ≡ calls.set s name.now value worked }
{
    let answer = s.set(name, value, worked).into();
    SaturatorAnswered {
        saturator: s,
        answer,
    }
}

#[unsafe(no_mangle)]
pub extern "C" fn hoofglaze_saturator_set_low_drive(s: Saturator, value: f32) -> SaturatorAnswered
    ensures { told_in result.saturator result.answer ≡ calls.set_typed s (Drive band.Low value) }
{
    set_typed(s, Setting::Drive(Band::Low, value))
}

#[unsafe(no_mangle)]
pub extern "C" fn hoofglaze_saturator_set_mid_drive(s: Saturator, value: f32) -> SaturatorAnswered
    ensures { told_in result.saturator result.answer ≡ calls.set_typed s (Drive band.Mid value) }
{
    set_typed(s, Setting::Drive(Band::Mid, value))
}

#[unsafe(no_mangle)]
pub extern "C" fn hoofglaze_saturator_set_high_drive(s: Saturator, value: f32) -> SaturatorAnswered
    ensures { told_in result.saturator result.answer ≡ calls.set_typed s (Drive band.High value) }
{
    set_typed(s, Setting::Drive(Band::High, value))
}

#[unsafe(no_mangle)]
pub extern "C" fn hoofglaze_saturator_set_low_level(s: Saturator, value: f32) -> SaturatorAnswered
    ensures { told_in result.saturator result.answer ≡ calls.set_typed s (Level band.Low value) }
{
    set_typed(s, Setting::Level(Band::Low, value))
}

#[unsafe(no_mangle)]
pub extern "C" fn hoofglaze_saturator_set_mid_level(s: Saturator, value: f32) -> SaturatorAnswered
    ensures { told_in result.saturator result.answer ≡ calls.set_typed s (Level band.Mid value) }
{
    set_typed(s, Setting::Level(Band::Mid, value))
}

#[unsafe(no_mangle)]
pub extern "C" fn hoofglaze_saturator_set_high_level(s: Saturator, value: f32) -> SaturatorAnswered
    ensures { told_in result.saturator result.answer ≡ calls.set_typed s (Level band.High value) }
{
    set_typed(s, Setting::Level(Band::High, value))
}

#[unsafe(no_mangle)]
pub extern "C" fn hoofglaze_saturator_set_low_freq(
    s: Saturator,
    value: f32,
    worked: Crossover,
) -> SaturatorAnswered
    ensures { told_in result.saturator result.answer ≡ calls.set_typed s (Freq frequency.Low value worked) }
{
    set_typed(s, Setting::Freq(Frequency::Low, value, worked))
}

#[unsafe(no_mangle)]
pub extern "C" fn hoofglaze_saturator_set_high_freq(
    s: Saturator,
    value: f32,
    worked: Crossover,
) -> SaturatorAnswered
    ensures { told_in result.saturator result.answer ≡ calls.set_typed s (Freq frequency.High value worked) }
{
    set_typed(s, Setting::Freq(Frequency::High, value, worked))
}

#[unsafe(no_mangle)]
pub extern "C" fn hoofglaze_saturator_read(s: Saturator, name: &[u8]) -> Numbered
    ensures { told_in s result ≡ calls.read s name.now }
{
    s.read(name).into()
}

#[unsafe(no_mangle)]
pub extern "C" fn hoofglaze_saturator_reset(mut s: Saturator) -> SaturatorAnswered
    ensures { told_in result.saturator result.answer ≡ calls.reset s }
{
    let answer = s.reset().into();
    SaturatorAnswered {
        saturator: s,
        answer,
    }
}

#[unsafe(no_mangle)]
pub extern "C" fn hoofglaze_saturator_block(
    mut s: Saturator,
    input: &[f32],
    output: &mut [f32],
) -> SaturatorAnswered
    ensures { (told_in result.saturator result.answer, output.new) ≡ calls.block s input.now output.old }
{
    let answer = s.block(input, output).into();
    SaturatorAnswered {
        saturator: s,
        answer,
    }
}

// The tone stack under C names, with a making call for each model. Assumes nothing.
ghost use Rattle.std.specs.Prelude.{◌≡◌};
ghost use Rattle.common.specs.declared.frequencies.Model.TheVariants.{Modern, British, American, Flat};
ghost use Rattle.answer.specs.Told.{told};
ghost use Rattle.tonestack.specs.Calls as calls;
ghost use Rattle.tonestack_sample.specs.declared.Setting.TheVariants.{Bass, Mid, Treble, Presence};
ghost use Rattle.answer.specs.Crossing.{told_in};

use answer::{Factor, Numbered, Refusal};
use stage::Stage;
use tonestack::{Model, Setting, Tone};

#[repr(C)]
#[derive(Clone, Copy)]
pub struct ToneAnswered {
    pub tone: Tone,
    pub answer: Numbered,
}

fn answered(tone: Tone, answer: Result<(), Refusal>) -> ToneAnswered
    ensures { told_in result.tone result.answer ≡ told tone answer }
{
    ToneAnswered {
        tone,
        answer: answer.into(),
    }
}

fn make(model: Model, rate: f32) -> ToneAnswered
    ensures { told_in result.tone result.answer ≡ calls.make model rate }
{
    match Tone::make(model, rate) {
        Ok(tone) => answered(tone, Ok(())),
        Err(r) => answered(Tone::unmade(), Err(r)),
    }
}

fn set_typed(mut t: Tone, v: Setting) -> ToneAnswered
    ensures { told_in result.tone result.answer ≡ calls.set_typed t v }
{
    let answer = t.set_typed(v);
    answered(t, answer)
}

#[unsafe(no_mangle)]
pub extern "C" fn hoofglaze_tone_make_modern(rate: f32) -> ToneAnswered
    ensures { told_in result.tone result.answer ≡ calls.make Modern rate }
{
    make(Model::Modern, rate)
}

#[unsafe(no_mangle)]
pub extern "C" fn hoofglaze_tone_make_british(rate: f32) -> ToneAnswered
    ensures { told_in result.tone result.answer ≡ calls.make British rate }
{
    make(Model::British, rate)
}

#[unsafe(no_mangle)]
pub extern "C" fn hoofglaze_tone_make_american(rate: f32) -> ToneAnswered
    ensures { told_in result.tone result.answer ≡ calls.make American rate }
{
    make(Model::American, rate)
}

#[unsafe(no_mangle)]
pub extern "C" fn hoofglaze_tone_make_flat(rate: f32) -> ToneAnswered
    ensures { told_in result.tone result.answer ≡ calls.make Flat rate }
{
    make(Model::Flat, rate)
}

#[unsafe(no_mangle)]
pub extern "C" fn hoofglaze_tone_set(
    mut t: Tone,
    name: &[u8],
    value: f32,
    worked: f32,
) -> ToneAnswered
    ensures { told_in result.tone result.answer ≡ calls.set t name.now value worked }
{
    let answer = t.set(name, value, worked);
    answered(t, answer)
}

#[unsafe(no_mangle)]
pub extern "C" fn hoofglaze_tone_set_bass(t: Tone, value: f32) -> ToneAnswered
    ensures { told_in result.tone result.answer ≡ calls.set_typed t (Bass value) }
{
    set_typed(t, Setting::Bass(value))
}

#[unsafe(no_mangle)]
pub extern "C" fn hoofglaze_tone_set_mid(t: Tone, value: f32) -> ToneAnswered
    ensures { told_in result.tone result.answer ≡ calls.set_typed t (Mid value) }
{
    set_typed(t, Setting::Mid(value))
}

#[unsafe(no_mangle)]
pub extern "C" fn hoofglaze_tone_set_treble(t: Tone, value: f32) -> ToneAnswered
    ensures { told_in result.tone result.answer ≡ calls.set_typed t (Treble value) }
{
    set_typed(t, Setting::Treble(value))
}

#[unsafe(no_mangle)]
pub extern "C" fn hoofglaze_tone_set_presence(t: Tone, value: f32, worked: Factor) -> ToneAnswered
    ensures { told_in result.tone result.answer ≡ calls.set_typed t (Presence value worked) }
{
    set_typed(t, Setting::Presence(value, worked))
}

#[unsafe(no_mangle)]
pub extern "C" fn hoofglaze_tone_read(t: Tone, name: &[u8]) -> Numbered
    ensures { told_in t result ≡ calls.read t name.now }
{
    t.read(name).into()
}

#[unsafe(no_mangle)]
pub extern "C" fn hoofglaze_tone_reset(mut t: Tone) -> ToneAnswered
    ensures { told_in result.tone result.answer ≡ calls.reset t }
{
    let answer = t.reset();
    answered(t, answer)
}

#[unsafe(no_mangle)]
pub extern "C" fn hoofglaze_tone_block(
    mut t: Tone,
    input: &[f32],
    output: &mut [f32],
) -> ToneAnswered
    ensures { (told_in result.tone result.answer, output.new) ≡ calls.block t input.now output.old }
{
    let answer = t.block(input, output).into();
    ToneAnswered { tone: t, answer }
}

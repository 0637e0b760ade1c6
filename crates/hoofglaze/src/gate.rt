// The noise gate under C names, by value. Assumes nothing.
ghost use Rattle.std.specs.Prelude.{◌≡◌};
ghost use Rattle.noise_gate.specs.Answers.{told_set, told_block};
ghost use Rattle.noise_gate.specs.Calls as calls;
ghost use Rattle.noise_gate_settings.specs.declared.Setting.TheVariants.{Threshold, Ratio, Attack, Release, Hold};
ghost use Rattle.answer.specs.Crossing.{told_in};
ghost use Rattle.answer.specs.Told.{told};

use answer::{Decibels, Factor, Numbered, Refusal};
use float::Truncation;
use noise_gate::{Before, Gate, Passed, Setting};
use stage::Stage;

#[repr(C)]
#[derive(Clone, Copy)]
pub struct GateAnswered {
    pub gate: Gate,
    pub answer: Numbered,
}

fn answered(gate: Gate, answer: Result<(), Refusal>) -> GateAnswered
    ensures { told_in result.gate result.answer ≡ told gate answer }
{
    GateAnswered {
        gate,
        answer: answer.into(),
    }
}

fn set(gate: Gate, answer: Result<Option<Truncation>, Refusal>) -> GateAnswered
    ensures { told_in result.gate result.answer ≡ told_set gate answer }
{
    GateAnswered {
        gate,
        answer: answer.into(),
    }
}

fn ran(gate: Gate, answer: Result<Passed, Refusal>) -> GateAnswered
    ensures { told_in result.gate result.answer ≡ told_block gate answer }
{
    GateAnswered {
        gate,
        answer: answer.into(),
    }
}

fn set_typed(mut g: Gate, t: Setting) -> GateAnswered
    ensures { told_in result.gate result.answer ≡ calls.set_typed g t }
{
    let answer = g.set_typed(t);
    set(g, answer)
}

#[unsafe(no_mangle)]
pub extern "C" fn hoofglaze_gate_make(rate: f32, rising: f32, falling: f32) -> GateAnswered
    ensures { told_in result.gate result.answer ≡ calls.make rate rising falling }
{
    match Gate::make(rate, rising, falling) {
        Ok(gate) => answered(gate, Ok(())),
        Err(r) => answered(Gate::unmade(), Err(r)),
    }
}

#[unsafe(no_mangle)]
pub extern "C" fn hoofglaze_gate_load(b: Before) -> Gate
    ensures { result ≡ calls.load b }
{
    b.into()
}

#[unsafe(no_mangle)]
pub extern "C" fn hoofglaze_gate_set(
    mut g: Gate,
    name: &[u8],
    value: f32,
    worked: f32,
) -> GateAnswered
    ensures { told_in result.gate result.answer ≡ calls.set g name.now value worked }
{
    let answer = g.set(name, value, worked);
    set(g, answer)
}

#[unsafe(no_mangle)]
pub extern "C" fn hoofglaze_gate_set_threshold(
    g: Gate,
    value: Decibels,
    worked: Factor,
) -> GateAnswered
    ensures { told_in result.gate result.answer ≡ calls.set_typed g (Threshold value worked) }
{
    set_typed(g, Setting::Threshold(value, worked))
}

#[unsafe(no_mangle)]
pub extern "C" fn hoofglaze_gate_set_ratio(g: Gate, value: f32) -> GateAnswered
    ensures { told_in result.gate result.answer ≡ calls.set_typed g (Ratio value) }
{
    set_typed(g, Setting::Ratio(value))
}

#[unsafe(no_mangle)]
pub extern "C" fn hoofglaze_gate_set_attack(g: Gate, value: f32, worked: f32) -> GateAnswered
    ensures { told_in result.gate result.answer ≡ calls.set_typed g (Attack value worked) }
{
    set_typed(g, Setting::Attack(value, worked))
}

#[unsafe(no_mangle)]
pub extern "C" fn hoofglaze_gate_set_release(g: Gate, value: f32, worked: f32) -> GateAnswered
    ensures { told_in result.gate result.answer ≡ calls.set_typed g (Release value worked) }
{
    set_typed(g, Setting::Release(value, worked))
}

#[unsafe(no_mangle)]
pub extern "C" fn hoofglaze_gate_set_hold(g: Gate, value: f32) -> GateAnswered
    ensures { told_in result.gate result.answer ≡ calls.set_typed g (Hold value) }
{
    set_typed(g, Setting::Hold(value))
}

#[unsafe(no_mangle)]
pub extern "C" fn hoofglaze_gate_read(g: Gate, name: &[u8]) -> Numbered
    ensures { told_in g result ≡ calls.read g name.now }
{
    g.read(name).into()
}

#[unsafe(no_mangle)]
pub extern "C" fn hoofglaze_gate_reset(mut g: Gate) -> GateAnswered
    ensures { told_in result.gate result.answer ≡ calls.reset g }
{
    let answer = g.reset();
    answered(g, answer)
}

#[unsafe(no_mangle)]
pub extern "C" fn hoofglaze_gate_block(
    mut g: Gate,
    input: &[f32],
    output: &mut [f32],
) -> GateAnswered
    ensures { (told_in result.gate result.answer, output.new) ≡ calls.block g input.now output.old }
{
    let answer = g.block(input, output);
    ran(g, answer)
}

#[unsafe(no_mangle)]
pub extern "C" fn hoofglaze_gate_record(
    mut g: Gate,
    input: &[f32],
    output: &mut [f32],
    aims: &mut [u8],
) -> GateAnswered
    ensures { (told_in result.gate result.answer, output.new, aims.new) ≡ calls.block_recorded g input.now output.old aims.old }
{
    let answer = g.block_recorded(input, output, aims);
    ran(g, answer)
}

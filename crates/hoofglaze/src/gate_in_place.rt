// The gate where it lies: each call takes the host's own gate, calls the form by value and stores the settings
// and the registers that it gives, each by itself, so that the bytes between them stay. Assumes nothing.
ghost use Rattle.std.specs.Prelude.{◌≡◌};
ghost use Rattle.noise_gate.specs.Calls as calls;
ghost use Rattle.answer.specs.Crossing.{told_in};

use crate::gate::{hoofglaze_gate_block, hoofglaze_gate_reset, hoofglaze_gate_set};
use answer::Numbered;
use noise_gate::Gate;

#[unsafe(no_mangle)]
pub extern "C" fn hoofglaze_gate_set_in_place(
    g: &mut Gate,
    name: &[u8],
    value: f32,
    worked: f32,
) -> Numbered
    ensures { told_in g.new result ≡ calls.set g.old name.now value worked }
{
    let r = hoofglaze_gate_set(*g, name, value, worked);
    g.settings = r.gate.settings;
    g.registers = r.gate.registers;
    r.answer
}

#[unsafe(no_mangle)]
pub extern "C" fn hoofglaze_gate_reset_in_place(g: &mut Gate) -> Numbered
    ensures { told_in g.new result ≡ calls.reset g.old }
{
    let r = hoofglaze_gate_reset(*g);
    g.settings = r.gate.settings;
    g.registers = r.gate.registers;
    r.answer
}

#[unsafe(no_mangle)]
pub extern "C" fn hoofglaze_gate_block_in_place(
    g: &mut Gate,
    input: &[f32],
    output: &mut [f32],
) -> Numbered
    ensures { (told_in g.new result, output.new) ≡ calls.block g.old input.now output.old }
{
    let r = hoofglaze_gate_block(*g, input, output);
    g.settings = r.gate.settings;
    g.registers = r.gate.registers;
    r.answer
}

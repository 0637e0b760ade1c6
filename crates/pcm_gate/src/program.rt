// The gate of document 01's program.
ghost use Rattle.std.specs.Prelude.{◌≡◌};
ghost use Rattle.pcm_gate.specs.Program as Program;

use answer::{Decibels, Factor};
use noise_gate::{Gate, Setting};
use stage::Stage;

// Made at 48,000 Hz, and every setting set.
pub fn program_gate() -> Gate
    ensures { result ≡ Program.program_gate }
{
    let mut g = Gate::make(48000.0, 0.0, 0.0).unwrap_or(Gate::unmade());
    let _ = g.set_typed(Setting::Threshold(Decibels(-12.0), Factor(0.25)));
    let _ = g.set_typed(Setting::Ratio(2.0));
    let _ = g.set_typed(Setting::Attack(1.0, 0.0));
    let _ = g.set_typed(Setting::Release(100.0, 0.0));
    let _ = g.set_typed(Setting::Hold(0.0625));
    g
}

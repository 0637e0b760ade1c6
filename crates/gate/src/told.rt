// What the program says on standard error.
ghost use Rattle.std.specs.Prelude.{OnOk};
ghost use Rattle.std.specs.Io.KnownBytes.{Appends};
ghost use Rattle.gate.specs.Line.{counts_line};
ghost use Rattle.gate.specs.Runs.{Said};

use crate::Failed;
use std::io;
use std::io::Write;

// Says what failed.
pub fn failed(rt: &HostRuntime, what: &[u8]) -> Failed {
    let _ = rt.stderr().write_all(what);
    Failed
}

// Whoever has it say two counts shows that they are those of a run to the end of the input.
pub fn counts<W: Write>(to: &mut W, samples: u64, aimed: u64) -> io::Result<()>
    requires { Said samples aimed }
    ensures { OnOk result (Appends (W.contents to.old) (W.contents to.new) (counts_line samples aimed)) }
{
    writeln!(to, "gate: {samples} samples, {aimed} aimed open")
}

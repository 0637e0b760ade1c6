// Document 01's program: reads signed 16-bit samples from standard input to its end and writes what the
// gate makes of them to standard output. A last odd byte isn't written.
//
// At its end it says on standard error how many samples there were and how many the gate aimed open at.
// That line stands, and the exit status is 0, only where all was read and written: a read or a write that
// fails is named there instead and ends the run, and the status is 1.
#![tactic(auto)]

mod told;

ghost use Rattle.std.specs.Prelude.{IfOk, OnOk, ◌≡◌, ◌<◌, ◌≤◌, length, take};
ghost use Rattle.std.specs.Io.KnownBytes.{Consumes, Appends, IsAtEnd};
ghost use Rattle.pcm_gate.specs.Pass as Pass;
ghost use Rattle.pcm_gate.specs.Turns.{block_bytes};
ghost use Rattle.gate.specs.Carried.{Carried, CarriedAll, whole_samples};
ghost use Rattle.gate.specs.Runs as Runs;
ghost use Rattle.gate.specs.declared.Stopped.TheVariants as stopped;

use noise_gate::Gate;
use std::io::{Read, Write};
use std::process::ExitCode;

// The gate after a block, the samples so far and how many of them were aimed open at.
#[derive(Clone, Copy)]
struct Turn {
    gate: Gate,
    samples: u64,
    aimed: u64,
}

// A read or a write failed, or a block was refused; it was said.
#[derive(Clone, Copy)]
struct Failed;

// What stops a run before the end of its input.
#[derive(Clone, Copy)]
enum Stopped {
    Failed,
    // No turn is left after this one.
    Unended(Turn),
}

impl From<Failed> for Stopped {
    ghost from_gives = { λ _ s. s ≡ stopped.Failed };

    fn from(_: Failed) -> Stopped {
        Stopped::Failed
    }
}

// How many bytes a block has; the last one has fewer.
const BLOCK: usize = 4096;

// Reads until the buffer is full, the input ends or a read fails. The buffer's first bytes are those that
// were read, so many, and nothing is left where they are fewer than it holds and no read failed.
fn fill<R: Read>(rt: &HostRuntime, from: &mut R, buffer: &mut [u8]) -> (usize, Result<(), Failed>)
    ensures counted { result.0 ≤ length buffer.new }
    ensures taken { Consumes (R.remaining from.old) (R.remaining from.new) (take result.0 buffer.new) }
    ensures ended { OnOk result.1 (result.0 < length buffer.new → IsAtEnd (R.remaining from.new)) }
{
    let mut at: usize = 0;
    while at < buffer.len() {
        let Ok(n) = from.read(&mut buffer[at..]) else {
            return (at, Err(told::failed(rt, b"gate: a read failed\n")));
        };
        if n == 0 {
            return (at, Ok(()));
        }
        at += n;
    }
    (at, Ok(()))
}

// A block through the gate, and what it gives written.
fn passed<W: Write>(
    rt: &HostRuntime,
    to: &mut W,
    turn: Turn,
    input: &[u8],
    output: &mut [u8],
) -> Result<Turn, Failed>
    ensures gated { (output.new ≡ (Pass.pass turn.gate input.now output.old).1)
        × IfOk result (Runs.Done turn input.now output.old) }
    ensures added { OnOk result (Appends (W.contents to.old) (W.contents to.new) (whole_samples output.new)) }
{
    let mut gate = turn.gate;
    let Ok(p) = pcm_gate::pass(&mut gate, input, output) else {
        return Err(told::failed(rt, b"gate: a block was refused\n"));
    };
    let whole = output.len() / 2;
    let even = whole * 2;
    if to.write_all(&output[..even]).is_err() {
        return Err(told::failed(rt, b"gate: a write failed\n"));
    }
    Ok(Turn {
        gate,
        samples: turn.samples.wrapping_add(whole as u64),
        aimed: turn.aimed.wrapping_add(p.count as u64),
    })
}

// A block read into the first buffer, and passed by way of the second: the turn, and how many bytes were
// read.
fn block<R: Read, W: Write>(
    rt: &HostRuntime,
    from: &mut R,
    to: &mut W,
    turn: Turn,
    input: &mut [u8],
    output: &mut [u8],
) -> Result<(Turn, usize), Failed>
    requires { length input.old ≡ length output.old }
    ensures gated { IfOk result (Runs.Over turn input.new output.old output.new) }
    ensures carried { IfOk result (Carried turn (length input.new) (R.remaining from.old) (R.remaining from.new) (W.contents to.old) (W.contents to.new)) }
{
    let (n, read) = fill(rt, from, input);
    let next = passed(rt, to, turn, &input[..n], &mut output[..n])?;
    read?;
    Ok((next, n))
}

fn one_turn<R: Read, W: Write>(
    rt: &HostRuntime,
    from: &mut R,
    to: &mut W,
    turn: Turn,
) -> Result<(Turn, usize), Failed>
    ensures gated { Runs.OneTurn turn result }
    ensures carried { IfOk result (Carried turn block_bytes (R.remaining from.old) (R.remaining from.new) (W.contents to.old) (W.contents to.new)) }
{
    let mut input = [0u8; BLOCK];
    let mut output = [0u8; BLOCK];
    block(rt, from, to, turn, &mut input, &mut output)
}

// A proved loop has to end, and nothing says that the input does. So there are so many turns that no run
// uses them up.
fn run<R: Read, W: Write>(rt: &HostRuntime, from: &mut R, to: &mut W) -> Result<Turn, Stopped>
    ensures along { Runs.Along result }
    ensures carried { CarriedAll (R.remaining from.old) (R.remaining from.new) (W.contents to.old) (W.contents to.new) result }
{
    let mut turn = Turn {
        gate: pcm_gate::program_gate(),
        samples: 0,
        aimed: 0,
    };
    for _ in 0..u64::MAX {
        let (next, n) = one_turn(rt, from, to, turn)?;
        turn = next;
        if n < BLOCK {
            return Ok(turn);
        }
    }
    Err(Stopped::Unended(turn))
}

fn main(rt: HostRuntime) -> ExitCode {
    let Ok(turn) = run(&rt, &mut rt.stdin(), &mut rt.stdout()) else {
        return ExitCode::FAILURE;
    };
    match told::counts(&mut rt.stderr(), turn.samples, turn.aimed) {
        Ok(()) => ExitCode::SUCCESS,
        Err(_) => ExitCode::FAILURE,
    }
}

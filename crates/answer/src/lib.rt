// What every stage answers and checks: refusals by document 01's numbers, and the tests behind them.
#![tactic(auto)]

mod crossing;

ghost use Rattle.std.specs.Prelude.{◌&&◌, ◌≡◌, eqb, leb};
ghost use Rattle.std.specs.Float.Ieee.Scale.{finite};
ghost use Rattle.answer.specs.Checks as checks;
ghost use Rattle.answer.specs.Names as names;
ghost use Rattle.answer.specs.Refusals as refusals;

pub use crossing::of_done;
use float::Exactness;
pub use float::settled32;

// Document 01's answers 1 to 9. The one that carries something stands last, out of their order: so a compiled
// `number` is a table, which is looked up only where there is a refusal, and no branch hangs on one that isn't.
#[derive(Clone, Copy, Debug, PartialEq, Eq)]
pub enum Refusal {
    NoSetting,
    NoBand,
    OutOfRange,
    BadWorkedNumber,
    BadRate,
    LengthsDiffer,
    TooLong,
    BadState,
    // The place of the first sample that is refused.
    BadSample(usize),
}

impl Refusal {
    pub fn number(self) -> u32
        ensures { result ≡ refusals.number self }
    {
        match self {
            Refusal::NoSetting => 1,
            Refusal::NoBand => 2,
            Refusal::OutOfRange => 3,
            Refusal::BadWorkedNumber => 4,
            Refusal::BadRate => 5,
            Refusal::BadSample(_) => 6,
            Refusal::LengthsDiffer => 7,
            Refusal::TooLong => 8,
            Refusal::BadState => 9,
        }
    }

    // That of the first sample that is refused, and 0 wherever none is named.
    pub fn place(self) -> usize
        ensures { result ≡ refusals.place self }
    {
        match self {
            Refusal::BadSample(i) => i,
            _ => 0,
        }
    }
}

#[repr(C)]
#[derive(Clone, Copy)]
pub struct Decibels(pub f32);

#[repr(C)]
#[derive(Clone, Copy)]
pub struct Factor(pub f32);

// A time in milliseconds, and its smoothing number.
#[repr(C)]
#[derive(Clone, Copy)]
pub struct Timed {
    pub ms: f32,
    pub number: f32,
}

// An answer as it crosses to a host: document 01's number, the value read or stepped, the place of the
// first sample that is refused, the count of samples aimed open, of a hold that was set its samples and the
// word of their truncation, and of a gate's block the quiet count; each +0 or 0 where the call has none.
#[repr(C)]
#[derive(Clone, Copy)]
pub struct Numbered {
    pub number: u32,
    pub value: f32,
    pub place: usize,
    pub count: usize,
    pub samples: u64,
    pub word: u32,
    pub quiet: u32,
}

const LOWEST_RATE: f32 = 8000.0;

const HIGHEST_RATE: f32 = 192000.0;

pub const LARGEST_SAMPLE: f32 = 64.0;

pub const LONGEST_BLOCK: usize = 4096;

pub fn in_range(lowest: f32, highest: f32, x: f32) -> bool
    ensures { result ≡ checks.in_range lowest highest x }
{
    lowest <= x && x <= highest
}

// A whole number from 8,000 to 192,000.
pub fn is_rate(rate: f32) -> bool
    ensures { result ≡ checks.is_rate rate }
{
    in_range(LOWEST_RATE, HIGHEST_RATE, rate)
        && matches!(float::truncated(rate).word, Exactness::Exact)
}

// A worked number c, from 0 up to but excluding 1.
pub fn is_smoothing(c: f32) -> bool
    ensures { result ≡ checks.is_smoothing c }
{
    0.0 <= c && c < 1.0
}

pub fn finite32(x: f32) -> bool
    ensures { result ≡ finite x }
{
    float::size32(x) < 1.0 / 0.0
}

pub fn finite64(x: f64) -> bool
    ensures { result ≡ finite x }
{
    float::size64(x) < 1.0 / 0.0
}

// A state that is accepted or not: 9.
pub fn checked(accepted: bool) -> Result<(), Refusal>
    ensures { result ≡ checks.nine accepted }
{
    if accepted {
        Ok(())
    } else {
        Err(Refusal::BadState)
    }
}

// A setting whose value is in its range or not, and whose worked number is acceptable or not: 3, 4.
pub fn vetted(in_range: bool, worked: bool) -> Result<(), Refusal>
    ensures { result ≡ checks.vetted in_range worked }
{
    if !in_range {
        return Err(Refusal::OutOfRange);
    }
    if !worked {
        return Err(Refusal::BadWorkedNumber);
    }
    Ok(())
}

// NaN, infinite or larger in size than 64.
pub fn is_refused(x: f32) -> bool
    ensures { result ≡ checks.is_refused x }
{
    !(float::size32(x) <= LARGEST_SAMPLE)
}

// The place of the first sample that is refused, or the end where there is none.
pub fn first_refused(samples: &[f32]) -> usize
    ensures { result ≡ checks.first_refused samples.now }
{
    let mut place = samples.len();
    for (i, x) in samples.iter().enumerate() {
        if is_refused(*x) {
            place = i;
            break;
        }
    }
    place
}

// A block's samples beside the length of the buffer for its output: 7, 8, 6.
pub fn check_block(samples: &[f32], places: usize) -> Result<(), Refusal>
    ensures { result ≡ checks.check_block samples.now places }
{
    if samples.len() != places {
        return Err(Refusal::LengthsDiffer);
    }
    if samples.len() > LONGEST_BLOCK {
        return Err(Refusal::TooLong);
    }
    let place = first_refused(samples);
    if place < samples.len() {
        return Err(Refusal::BadSample(place));
    }
    Ok(())
}

// Whether two byte strings are equal.
pub fn same(a: &[u8], b: &[u8]) -> bool
    ensures { result ≡ names.same a.now b.now }
{
    a == b
}

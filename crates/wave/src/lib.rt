// Recordings as RIFF WAVE files in a lent buffer: their rate, and where their samples lie.
// Assumes nothing.
#![tactic(auto)]

ghost use Rattle.std.specs.Prelude.{◌≡◌, ◌+◌, ◌*◌, ◌≤◌, ◌<◌, ◌^◌, ℕ, eqb, length};
ghost use Rattle.wave.specs.Answers as Answers;
ghost use Rattle.wave.specs.Reading as Reading;
ghost use Rattle.wave.specs.Steps as Steps;

use answer::Refusal;
use words::{u16_at, u32_at};

// Samples of 16 bits: their rate, and so many bytes from a place on.
#[derive(Clone, Copy, Debug, PartialEq, Eq)]
pub struct Found {
    pub rate: u32,
    pub place: usize,
    pub length: usize,
}

// Document 02's 10 to 14, and document 01's 5.
#[derive(Clone, Copy, Debug, PartialEq, Eq)]
pub enum Fault {
    NotWave,
    CutShort,
    Missing,
    OtherFormat,
    BadRate,
    OddData,
}

// Where the chunks lead: a chunk's place, and the rate known there, none where no `fmt ` came before it.
#[derive(Clone, Copy, Debug, PartialEq, Eq)]
pub struct Place {
    pub at: usize,
    pub rate: Option<u32>,
}

// An answer as it crosses to a host.
#[repr(C)]
#[derive(Clone, Copy, Debug, PartialEq, Eq)]
pub struct Figures {
    pub number: u32,
    pub rate: u32,
    pub place: u64,
    pub length: u64,
}

const LOWEST_RATE: u32 = 8000;

const HIGHEST_RATE: u32 = 192000;

// A chunk's name and its size.
const HEAD: usize = 8;

// The RIFF chunk's name and size, and the form's name.
const RIFF_HEAD: usize = 12;

impl From<Fault> for u32 {
    ghost from_gives = { λ f n. n ≡ Answers.number f };

    fn from(f: Fault) -> u32 {
        match f {
            Fault::NotWave => 10,
            Fault::CutShort => 11,
            Fault::Missing => 12,
            Fault::OtherFormat => 13,
            Fault::BadRate => Refusal::BadRate.number(),
            Fault::OddData => 14,
        }
    }
}

impl From<Result<Found, Fault>> for Figures {
    ghost from_gives = { λ r f. f ≡ Answers.told r };

    fn from(r: Result<Found, Fault>) -> Figures {
        match r {
            Ok(found) => Figures {
                number: 0,
                rate: found.rate,
                place: found.place as u64,
                length: found.length as u64,
            },
            Err(fault) => Figures {
                number: fault.into(),
                rate: 0,
                place: 0,
                length: 0,
            },
        }
    }
}

#[tactic(auto, unfolding(crate::specs::Reading::is_rate))]
pub fn is_rate(rate: u32) -> bool
    ensures { result ≡ Reading.is_rate rate }
{
    (LOWEST_RATE..=HIGHEST_RATE).contains(&rate)
}

#[tactic(auto, unfolding(crate::specs::Reading::is_named))]
fn is_named(s: &[u8], at: usize, name: &[u8]) -> bool
    requires { at + 4 ≤ length s.now }
    ensures { result ≡ Reading.is_named s.now at name.now }
{
    answer::same(&s[at..at + 4], name)
}

// A head's size stands behind the four bytes of its name.
#[tactic(auto, using(words::proofs::Bytes::inside32))]
fn size_at(s: &[u8], at: usize) -> usize
    requires { at + 8 ≤ length s.now }
    ensures { (result ≡ Reading.size_at s.now at) × (result < 2 ^ 32) }
{
    u32_at(s, at + 4) as usize
}

// The byte rate is compared over whole numbers.
fn is_twice(double: u32, rate: u32) -> bool
    ensures { result ≡ eqb double (rate * 2) }
{
    u64::from(double) == u64::from(rate) * 2
}

#[tactic(auto, using(words::proofs::Bytes::inside16, words::proofs::Bytes::inside32), unfolding(crate::specs::Reading::is_format))]
fn is_format(s: &[u8], at: usize) -> bool
    requires { at + 16 ≤ length s.now }
    ensures { result ≡ Reading.is_format s.now at }
{
    u16_at(s, at) == 1
        && u16_at(s, at + 2) == 1
        && is_twice(u32_at(s, at + 8), u32_at(s, at + 4))
        && u16_at(s, at + 12) == 2
        && u16_at(s, at + 14) == 16
}

// The rate of the first `fmt `, its bytes at a place.
#[tactic(auto, using(words::proofs::Bytes::inside32), unfolding(crate::specs::Reading::format_step))]
fn format_rate(s: &[u8], place: usize, size: usize) -> Result<u32, Fault>
    requires { place + size ≤ length s.now }
    ensures { (next : ℕ) → Steps.rated next result ≡ Reading.format_step s.now place size next }
{
    if size != 16 || !is_format(s, place) {
        return Err(Fault::OtherFormat);
    }
    let rate = u32_at(s, place + 4);
    if !is_rate(rate) {
        return Err(Fault::BadRate);
    }
    Ok(rate)
}

// The chunk at a place: the next one's place, none where it is `data`.
#[tactic(auto, unfolding(crate::specs::Reading::step))]
fn chunk(s: &[u8], end: usize, here: Place) -> Result<Option<Place>, Fault>
    requires { end ≤ length s.now }
    ensures { Steps.stepped here result ≡ Reading.step s.now end here.at here.rate }
{
    let Place { at, rate } = here;
    if end <= at {
        return Err(Fault::Missing);
    }
    if end - at < HEAD {
        return Err(Fault::CutShort);
    }
    if is_named(s, at, b"data") {
        return Ok(None);
    }
    let place = at + HEAD;
    let size = size_at(s, at);
    let next = place + size + size % 2;
    if end < next {
        return Err(Fault::CutShort);
    }
    if is_named(s, at, b"fmt ") && rate.is_none() {
        let rate = format_rate(s, place, size)?;
        return Ok(Some(Place {
            at: next,
            rate: Some(rate),
        }));
    }
    Ok(Some(Place { at: next, rate }))
}

// The chunks from byte 12 up to the head of `data`, a limit or the buffer's end.
#[tactic(auto, using(crate::proofs::Budget::last, crate::proofs::Budget::ahead, crate::proofs::Budget::onward), unfolding(crate::specs::Reading::walk))]
pub fn walk(s: &[u8], limit: usize) -> Result<Place, Fault>
    ensures { Steps.met_by result ≡ Reading.walk s.now limit }
{
    let end = limit.min(s.len());
    let mut here = Place {
        at: RIFF_HEAD,
        rate: None,
    };
    while let Some(next) = chunk(s, end, here)? {
        here = next;
    }
    Ok(here)
}

// `data` at a place; its pad isn't looked at.
#[tactic(auto, unfolding(crate::specs::Reading::samples_at))]
fn samples_at(s: &[u8], end: usize, head: Place) -> Result<Found, Fault>
    requires { (head.at + 8 ≤ end) × (end ≤ length s.now) }
    ensures { Answers.told result ≡ Reading.samples_at s.now end head.at head.rate }
{
    let place = head.at + HEAD;
    let length = size_at(s, head.at);
    if end - place < length {
        return Err(Fault::CutShort);
    }
    let rate = head.rate.ok_or(Fault::Missing)?;
    if length % 2 != 0 {
        return Err(Fault::OddData);
    }
    Ok(Found {
        rate,
        place,
        length,
    })
}

#[tactic(auto, unfolding(crate::specs::Reading::is_wave))]
fn is_wave(s: &[u8]) -> bool
    ensures { result ≡ Reading.is_wave s.now }
{
    RIFF_HEAD <= s.len() && is_named(s, 0, b"RIFF") && is_named(s, 8, b"WAVE")
}

// Document 02's W1.
#[tactic(auto, using(crate::proofs::Tests::long, crate::proofs::Trail::head_inside), unfolding(crate::specs::Reading::read, crate::specs::Reading::walk))]
pub fn read(buffer: &[u8]) -> Result<Found, Fault>
    ensures { Answers.told result ≡ Reading.read buffer.now }
{
    if !is_wave(buffer) {
        return Err(Fault::NotWave);
    }
    let riff = size_at(buffer, 0);
    if riff < 4 {
        return Err(Fault::NotWave);
    }
    let limit = riff + HEAD;
    let head = walk(buffer, limit)?;
    samples_at(buffer, limit.min(buffer.len()), head)
}

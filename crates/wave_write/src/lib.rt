// Recordings written as RIFF WAVE files into a lent buffer.
// Assumes nothing.
#![tactic(auto)]

ghost use Rattle.std.specs.Prelude.{◌≡◌, ◌+◌, ◌*◌, ◌%◌, ◌≤◌, ◌<◌, ◌^◌, eqb, leb, length};
ghost use Rattle.answer.specs.Buffers.{over};
ghost use Rattle.wave.specs.Reading.{is_rate};
ghost use Rattle.wave_write.specs.Answers as Answers;
ghost use Rattle.wave_write.specs.Writing as Writing;

use answer::Refusal;
use words::put_u32;

// Document 01's 5, and document 02's 14, 17 and 15.
#[derive(Clone, Copy, Debug, PartialEq, Eq)]
pub enum Fault {
    BadRate,
    OddData,
    TooLong,
    NoRoom,
}

// An answer as it crosses to a host.
#[repr(C)]
#[derive(Clone, Copy, Debug, PartialEq, Eq)]
pub struct Figures {
    pub number: u32,
    pub length: u32,
}

// The most bytes of samples.
const LONGEST: u64 = 1048576;

// The most behind a head of its own: with the 36 bytes that the RIFF size counts beside them, 2^32 - 1.
const LONGEST_BEHIND: u64 = 4294967259;

// The bytes before the samples.
const HEAD: usize = 44;

impl From<Fault> for u32 {
    ghost from_gives = { λ f n. n ≡ Answers.number f };

    fn from(f: Fault) -> u32 {
        match f {
            Fault::BadRate => Refusal::BadRate.number(),
            Fault::OddData => 14,
            Fault::TooLong => 17,
            Fault::NoRoom => 15,
        }
    }
}

// Of how many bytes were written, or why none.
impl From<Result<u32, Fault>> for Figures {
    ghost from_gives = { λ r f. f ≡ Answers.told r };

    fn from(r: Result<u32, Fault>) -> Figures {
        match r {
            Ok(length) => Figures { number: 0, length },
            Err(fault) => Figures {
                number: fault.into(),
                length: 0,
            },
        }
    }
}

// The head of a file with so many bytes of samples: four of its words are written over zeros.
#[tactic(auto, unfolding(words::specs::Words::put16, words::specs::Words::put32, words::specs::Words::put32_at))]
fn head(rate: u32, size: u32) -> [u8; HEAD]
    requires { (36 + size < 2 ^ 32) × (rate * 2 < 2 ^ 32) }
    ensures { result ≡ Writing.head rate size }
{
    let mut head =
        *b"RIFF\0\0\0\0WAVEfmt \x10\0\0\0\x01\0\x01\0\0\0\0\0\0\0\0\0\x02\0\x10\0data\0\0\0\0";
    put_u32(&mut head, 4, 36 + size);
    put_u32(&mut head, 24, rate);
    put_u32(&mut head, 28, rate * 2);
    put_u32(&mut head, 40, size);
    head
}

fn put(bytes: &[u8], output: &mut [u8])
    requires { length bytes.now ≤ length output.old }
    ensures { output.new ≡ over bytes.now output.old }
{
    output[..bytes.len()].copy_from_slice(bytes);
}

fn put_file(rate: u32, samples: &[u8], output: &mut [u8])
    requires { (44 + length samples.now ≤ length output.old) × (36 + length samples.now < 2 ^ 32) × (rate * 2 < 2 ^ 32) }
    ensures { output.new ≡ over (Writing.file rate samples.now) output.old }
{
    put(&head(rate, samples.len() as u32), output);
    put(samples, &mut output[HEAD..]);
}

// In this order, of so many bytes of samples.
fn check(rate: u32, size: u64, longest: u64, has_room: bool) -> Result<(), Fault>
    ensures { result ≡ Answers.checked (is_rate rate) (eqb (size % 2) 0) (leb size longest) has_room }
{
    if !wave::is_rate(rate) {
        return Err(Fault::BadRate);
    }
    if size % 2 != 0 {
        return Err(Fault::OddData);
    }
    if longest < size {
        return Err(Fault::TooLong);
    }
    if !has_room {
        return Err(Fault::NoRoom);
    }
    Ok(())
}

// Document 02's W8.
#[tactic(auto, using(wave::proofs::Inside::between), unfolding(crate::specs::Writing::write))]
pub fn write(rate: u32, samples: &[u8], output: &mut [u8]) -> Result<u32, Fault>
    ensures { (Answers.told result, output.new) ≡ Writing.write rate samples.now output.old }
{
    let length = HEAD + samples.len();
    check(rate, samples.len() as u64, LONGEST, length <= output.len())?;
    put_file(rate, samples, output);
    Ok(length as u32)
}

// The head alone, for so many bytes of samples that a host writes behind it.
#[tactic(auto, using(wave::proofs::Inside::between), unfolding(crate::specs::Writing::write_head))]
pub fn write_head(rate: u32, size: u64, output: &mut [u8]) -> Result<u32, Fault>
    ensures { (Answers.told result, output.new) ≡ Writing.write_head rate size output.old }
{
    check(rate, size, LONGEST_BEHIND, HEAD <= output.len())?;
    put(&head(rate, size as u32), output);
    Ok(HEAD as u32)
}

// Words of two and four bytes in a slice of bytes, the lowest byte first: read and written.
#![tactic(auto)]

ghost use Rattle.std.specs.Prelude.{◌≡◌};
ghost use Rattle.words.specs.Words as Words;

// The word at a place, and 0 where not all of its bytes lie in the slice.
#[tactic(auto, using(crate::proofs::Inside::two), unfolding(crate::specs::Words::word16_at))]
pub fn u16_at(s: &[u8], at: usize) -> u16
    ensures { result ≡ Words.word16_at s.now at }
{
    bytes_at(s, at).map_or(0, u16::from_le_bytes)
}

#[tactic(auto, using(crate::proofs::Inside::four), unfolding(crate::specs::Words::word32_at))]
pub fn u32_at(s: &[u8], at: usize) -> u32
    ensures { result ≡ Words.word32_at s.now at }
{
    bytes_at(s, at).map_or(0, u32::from_le_bytes)
}

// Writes a word at a place, and nothing where not all of its bytes would lie in the slice.
#[tactic(auto, using(crate::proofs::Inside::over_two), unfolding(crate::specs::Words::put16_at, crate::specs::Words::put16))]
pub fn put_u16(s: &mut [u8], at: usize, n: u16)
    ensures { s.new ≡ Words.put16_at s.old at n }
{
    put(s, at, n.to_le_bytes());
}

#[tactic(auto, using(crate::proofs::Inside::over_four), unfolding(crate::specs::Words::put32_at, crate::specs::Words::put32, crate::specs::Words::put16))]
pub fn put_u32(s: &mut [u8], at: usize, n: u32)
    ensures { s.new ≡ Words.put32_at s.old at n }
{
    put(s, at, n.to_le_bytes());
}

fn bytes_at<const N: usize>(s: &[u8], at: usize) -> Option<[u8; N]>
    ensures { result ≡ Words.bytes_at N s.now at }
{
    s.get(at..)?.first_chunk().copied()
}

fn put<const N: usize>(s: &mut [u8], at: usize, bytes: [u8; N])
    ensures { s.new ≡ Words.put_at N s.old at bytes.entry }
{
    if at <= s.len() && N <= s.len() - at {
        s[at..at + N].copy_from_slice(&bytes);
    }
}

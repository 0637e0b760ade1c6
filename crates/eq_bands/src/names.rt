// The bands' names, as bytes.
ghost use Rattle.std.specs.Prelude.{◌≡◌};
ghost use Rattle.eq_bands.specs.Names as Names;

use crate::{Numbers, Setting};
use answer::Decibels;

// The number that the digits are, at most `usize::MAX`. Nothing is read behind the byte that decides.
fn number_of(digits: &[u8]) -> Option<usize>
    ensures { result ≡ Names.number_of digits.now }
{
    if digits.is_empty() {
        return None;
    }
    let mut number: usize = 0;
    for d in digits {
        if !d.is_ascii_digit() {
            return None;
        }
        number = number.checked_mul(10)?.checked_add(usize::from(*d - b'0'))?;
    }
    Some(number)
}

// The band that a name says: `band_`, an optional `+`, and digits.
pub fn index_of(name: &[u8]) -> Option<usize>
    ensures { result ≡ Names.index_of name.now }
{
    let number = name.strip_prefix(b"band_")?;
    number_of(number.strip_prefix(b"+").unwrap_or(number))
}

impl Setting {
    // What a name asks for, with the value and the worked numbers beside it.
    #[tactic(auto, unfolding(crate::specs::Names::named, crate::specs::Names::setting_at))]
    pub fn named(name: &[u8], value: Decibels, numbers: Numbers) -> Option<Setting>
        ensures { result ≡ Names.named name.now value numbers }
    {
        Some(Setting::Band(index_of(name)?, value, numbers))
    }
}

// SPDX-License-Identifier: MIT
//! Sizes, and changes of a size.
ghost use Rattle.std.specs.Prelude.{◌≡◌, ◌<◌, ◌≤◌, ◌^◌};
ghost use Rattle.imago_words.specs.Sizes.{bounded, size_of, unit_of, with_digit, with_unit};
ghost use Rattle.imago_words.specs.Sizes.{new_size_of};

use crate::command::NewSize;
use crate::cut::{begins_number, cut_letter};

/// The size that a text names: a decimal number of bytes, which may have a unit behind it. The
/// units are `k`, `M`, `G`, `T`, `P` and `E`, which are powers of 1024, and `B`, in upper or lower
/// case. A size is below 2 ^ 63, as the length of each file is.
#[tactic(auto, unfolding(crate::specs::Sizes::size_from))]
pub fn size_named(text: &str) -> Option<u64>
    ensures { result ≡ size_of text.now }
{
    let mut rest = text.as_bytes();
    if !begins_number(rest) {
        return None;
    }
    let mut number = 0u64;
    while let Some((byte, behind)) = rest.split_first() {
        if !begins_number(rest) {
            return with_unit(number, *byte, behind);
        }
        number = with_digit(number, *byte)?;
        rest = behind;
    }
    Some(number)
}

/// The size that a text asks for: a size, or `+` or `-` and by how much another one changes.
#[tactic(auto, unfolding(crate::specs::Sizes::new_size_by))]
pub fn new_size_named(text: &str) -> Option<NewSize>
    ensures { result ≡ new_size_of text.now }
{
    match cut_letter(text) {
        Some(("+", more)) => size_named(more).map(NewSize::More),
        Some(("-", fewer)) => size_named(fewer).map(NewSize::Fewer),
        _ => size_named(text).map(NewSize::Said),
    }
}

/// The number with one more digit behind it.
fn with_digit(number: u64, digit: u8) -> Option<u64>
    requires { 48 ≤ digit }
    ensures { result ≡ with_digit number digit }
{
    let tens = number.checked_mul(10)?;
    bounded(tens.checked_add((digit - 48) as u64)?)
}

/// The number of so many units, if the unit's letter is the last one of the text.
fn with_unit(number: u64, letter: u8, behind: &[u8]) -> Option<u64>
    ensures { result ≡ with_unit number letter behind.now }
{
    if !behind.is_empty() {
        return None;
    }
    bounded(number.checked_mul(unit_of(letter)?)?)
}

/// The unit that a letter stands for.
#[tactic(auto, unfolding(crate::specs::Sizes::unit_of))]
fn unit_of(letter: u8) -> Option<u64>
    ensures { result ≡ unit_of letter }
{
    match letter {
        b'B' | b'b' => Some(1),
        b'K' | b'k' => Some(1 << 10),
        b'M' | b'm' => Some(1 << 20),
        b'G' | b'g' => Some(1 << 30),
        b'T' | b't' => Some(1 << 40),
        b'P' | b'p' => Some(1 << 50),
        b'E' | b'e' => Some(1 << 60),
        _ => None,
    }
}

/// The number, if it is below 2 ^ 63.
fn bounded(number: u64) -> Option<u64>
    ensures { result ≡ bounded number }
{
    if number < 1 << 63 { Some(number) } else { None }
}

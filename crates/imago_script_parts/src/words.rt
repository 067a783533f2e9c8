// SPDX-License-Identifier: MIT
//! The words of a line, and what they spell.
ghost use Rattle.std.specs.Prelude.{◌≡◌, ◌^◌, ◌%◌, ◌<◌, ◌≤◌, ◌↔◌, length};
ghost use Rattle.std.specs.Prelude.{IsTrue, IfOk, IfErr};
ghost use Rattle.std.specs.Int.{is_power_of_two};
ghost use Rattle.std.specs.Option.{SomeIff};
ghost use Rattle.std.specs.Str.Parse.{IsNumeral, digits_value};
ghost use Rattle.imago.specs.Powers.{IsAlignment};
ghost use Rattle.imago_script_parts.specs.Words.{IsWord, IsCut, Spells, SpellsNone};
ghost use Rattle.imago_script_parts.specs.declared.words.Fault.TheVariants.{Malformed, Memory};

use crate::digits::read_digits;
use hex::decode_to_slice;
use imago::format::PreallocateMode;
use imago::storage::is_alignment;
use memchr::memchr;
use std::alloc::Global;

/// How many words the longest command has.
const MOST_WORDS: usize = 6;

/// The longest block of a copy-on-write disk, in bytes.
const LONGEST_BLOCK: u64 = 1 << 20;

/// Why a line gives no command.
#[derive(Drop)]
pub enum Fault {
    /// It is malformed.
    Malformed,
    /// There is no memory for its bytes.
    Memory,
}

/// What stands before the first byte of that value, and what behind it: all and nothing, where
/// there is none.
pub fn cut_at(separator: u8, text: &[u8]) -> (&[u8], &[u8])
    ensures cut { IsCut separator text.now result.0.now result.1.now }
    ensures shorter { 0 < length text.now → length result.1.now < length text.now }
{
    match memchr(separator, text) {
        Some(at) => (&text[..at], &text[at + 1..]),
        None => (text, &[]),
    }
}

/// A word, as text.
pub fn word(bytes: &[u8]) -> Option<&str> {
    if is_word(bytes) {
        str::from_utf8(bytes).ok()
    } else {
        None
    }
}

/// The words of a line, each two parted by one space, in front of empty texts, and how many they
/// are. `None` where the line isn't made of words, or has more than any command.
pub fn words_of(line: &[u8]) -> Option<([&str; MOST_WORDS], usize)> {
    let mut words = [""; MOST_WORDS];
    let mut rest = line;
    for place in 0..MOST_WORDS {
        let (part, behind) = cut_at(b' ', rest);
        words[place] = word(part)?;
        if part.len() == rest.len() {
            return Some((words, place + 1));
        }
        rest = behind;
    }
    None
}

/// Whether that is a word: bytes that print, and at least one.
fn is_word(bytes: &[u8]) -> bool
    ensures { IsTrue result ↔ IsWord bytes.now }
{
    !bytes.is_empty() && bytes.iter().all(|byte| 33 <= *byte && *byte <= 126)
}

/// The number that a word spells: decimal digits alone, with no sign, within `u64`.
pub fn number(word: &str) -> Option<u64>
    ensures { SomeIff result (IsNumeral 10 word.now × (digits_value 10 word.now < 2 ^ 64))
        (digits_value 10 word.now) }
{
    if word.starts_with('+') {
        return None;
    }
    word.parse().ok()
}

/// A power of two, in bytes.
#[derive(Clone, Copy)]
pub struct Alignment {
    bytes: usize,
    ghost power: { IsAlignment bytes },
}

impl Alignment {
    /// The alignment that a word spells.
    pub fn of(word: &str) -> Option<Self> {
        let bytes = number(word)? as usize;
        if is_alignment(bytes) {
            Some(Alignment { bytes })
        } else {
            None
        }
    }

    /// How many bytes it is.
    pub fn bytes(self) -> usize
        ensures { IsAlignment result }
    {
        self.bytes
    }
}

/// How long the blocks of a copy-on-write disk are, in bytes: a power of two, from a byte to 1 MiB.
#[derive(Clone, Copy)]
pub struct BlockSize {
    bytes: u64,
    ghost power: { IsTrue (is_power_of_two bytes) },
    ghost most: { bytes ≤ 2 ^ 20 },
}

impl BlockSize {
    /// The length that a word spells.
    pub fn of(word: &str) -> Option<Self> {
        let bytes = number(word)?;
        if bytes.is_power_of_two() && bytes <= LONGEST_BLOCK {
            Some(BlockSize { bytes })
        } else {
            None
        }
    }

    /// How many bytes it is.
    pub fn bytes(self) -> u64
        ensures power { IsTrue (is_power_of_two result) }
        ensures most { result ≤ 2 ^ 20 }
    {
        self.bytes
    }
}

/// The byte that two hexadecimal digits spell.
pub fn byte(word: &str) -> Option<u8> {
    let mut byte = [0];
    decode_to_slice(word, &mut byte).ok()?;
    Some(byte[0])
}

/// The word for no bytes.
pub const NO_BYTES: &str = "-";

/// The bytes that digits spell in hex: two for each, in either case, or `-` for none. Each digit is
/// looked at once.
pub fn bytes(alloc: Global, digits: &[u8]) -> Result<Vec<u8>, Fault>
    ensures spelt { IfOk result (λ v. Spells digits.now v.items) }
    ensures malformed { IfErr result (λ fault. fault ≡ Malformed → SpellsNone digits.now) }
    ensures memory { IfErr result (λ fault. fault ≡ Memory → (0 < length digits.now)
        × (length digits.now % 2 ≡ 0)) }
{
    if digits == NO_BYTES.as_bytes() {
        return Ok(Vec::new(alloc));
    }
    if digits.is_empty() || digits.len() % 2 != 0 {
        return Err(Fault::Malformed);
    }
    let Ok(mut bytes) = vec![in alloc; 0u8; digits.len() / 2] else {
        return Err(Fault::Memory);
    };
    if !read_digits(digits, bytes.as_mut_slice()) {
        return Err(Fault::Malformed);
    }
    Ok(bytes)
}

/// The mode that a word names.
pub fn mode(word: &str) -> Option<PreallocateMode> {
    match word {
        "none" => Some(PreallocateMode::None),
        "zero" => Some(PreallocateMode::Zero),
        "format" => Some(PreallocateMode::FormatAllocate),
        "full" => Some(PreallocateMode::FullAllocate),
        "data" => Some(PreallocateMode::WriteData),
        _ => None,
    }
}

/// Whether an image is to be writable: `ro` or `rw`.
pub fn writability(word: &str) -> Option<bool> {
    match word {
        "ro" => Some(false),
        "rw" => Some(true),
        _ => None,
    }
}

/// Whether what is mapped may be overwritten: `keep` or `over`.
pub fn overwriting(word: &str) -> Option<bool> {
    match word {
        "keep" => Some(false),
        "over" => Some(true),
        _ => None,
    }
}

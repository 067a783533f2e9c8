// SPDX-License-Identifier: MIT
//! Bytes as hexadecimal digits, two for each.
//!
//! The loops have no branch in them, so that they take many bytes at once.
ghost use Rattle.std.specs.Prelude.{◌≡◌, ◌↔◌, ◌+◌, ◌*◌, ◌<◌, ◌≤◌, length, slice_index};
ghost use Rattle.std.specs.Prelude.{IsTrue, IsFalse, IsOk, Ok, MatchOption};
ghost use Rattle.hex.specs.Hex.{decode_of, encode_lower, hex_digit_value, lower_digits};
ghost use Rattle.imago_script_parts.specs.Digits.{AreRead, HasOther};

/// How many values a digit has.
const RADIX: u8 = 16;

/// The digit of a value, in lower case.
fn digit_of(value: u8) -> u8
    requires { value < 16 }
    ensures { result ≡ slice_index lower_digits value }
{
    value + if value < 10 { b'0' } else { b'a' - 10 }
}

/// Writes the digits of bytes, in lower case.
pub fn write_digits(bytes: &[u8], digits: &mut [u8])
    requires { length digits.old ≡ 2 * length bytes.now }
    ensures { digits.new ≡ encode_lower bytes.now }
{
    'bytes: for place in 0..bytes.len() {
        let byte = bytes[place];
        digits[2 * place] = digit_of(byte / RADIX);
        digits[2 * place + 1] = digit_of(byte % RADIX);
    }
}

/// The value of a digit, in either case; and for what is none, more than the value of any.
fn value_of(digit: u8) -> u8
    ensures { MatchOption (hex_digit_value digit) (16 ≤ result) (λ value. result ≡ value) }
{
    let decimal = digit.wrapping_sub(b'0');
    let decimal = if decimal < 10 { decimal } else { RADIX };
    let lower = digit.wrapping_sub(b'a').saturating_add(10);
    let upper = digit.wrapping_sub(b'A').saturating_add(10);
    decimal.min(lower).min(upper)
}

/// The byte of two values; some byte, where one of them is too large.
fn byte_of(high: u8, low: u8) -> u8
    ensures { high < 16 → low < 16 → result ≡ 16 * high + low }
{
    high % RADIX * RADIX + low % RADIX
}

/// How many bytes are read before it is asked whether all of their digits were digits.
const PIECE: usize = 2048;

/// Reads the bytes that digits spell, in either case. Where one of them is no digit, it says so,
/// and some of the bytes are read.
pub fn read_digits(digits: &[u8], bytes: &mut [u8]) -> bool
    requires { length digits.now ≡ 2 * length bytes.old }
    ensures read { IsTrue result → decode_of digits.now ≡ Ok bytes.new }
    ensures found { IsTrue result ↔ IsOk (decode_of digits.now) }
{
    let mut start = 0;
    'pieces: while start < bytes.len() {
        let end = start + PIECE.min(bytes.len() - start);
        if !read_piece(digits, bytes, start, end) {
            return false;
        }
        start = end;
    }
    true
}

/// Reads the bytes from one place to another, those before it being read.
fn read_piece(digits: &[u8], bytes: &mut [u8], start: usize, end: usize) -> bool
    requires fit { length digits.now ≡ 2 * length bytes.old }
    requires within { end ≤ length bytes.old }
    requires before { AreRead digits.now bytes.old start }
    ensures len { length bytes.new ≡ length bytes.old }
    ensures read { IsTrue result → AreRead digits.now bytes.new end }
    ensures other { IsFalse result → HasOther digits.now }
{
    let mut worst = 0u8;
    'bytes: for place in start..end {
        let high = value_of(digits[2 * place]);
        let low = value_of(digits[2 * place + 1]);
        worst = worst.max(high).max(low);
        bytes[place] = byte_of(high, low);
    }
    worst < RADIX
}

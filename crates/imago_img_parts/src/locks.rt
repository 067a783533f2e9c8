// SPDX-License-Identifier: MIT
//! Which files QEMU holds, by the text of `/proc/locks`.
//!
//! The system tells each lock there in a line such as `1: OFDLCK ADVISORY  READ -1 fe:00:12345 100
//! 101`: its number, its kind, whether it is advisory, what it is for, its process, the major and
//! the minor number of the device and the number of the file, and the first and the last byte.
ghost use Rattle.std.specs.Prelude.{◌≡◌, option_map};
ghost use Rattle.imago_words.specs.Reading.{cut_at};
ghost use Rattle.imago_img_parts.specs.Locks.{behind, digit_of, field, holds_behind, is_file};
ghost use Rattle.imago_img_parts.specs.Locks.{is_held_between, is_held_from, is_held_in};
ghost use Rattle.imago_img_parts.specs.Locks.{is_holding, is_inode, is_lock, is_value, last_of};
ghost use Rattle.imago_img_parts.specs.Locks.{major_of, minor_of, number_of, with_digit};

/// Whether a text tells that QEMU holds the file of that device and number: that it writes it or may
/// change its length, or keeps others from that. No line tells that of a lock that is waited for.
pub fn is_held_in(text: &str, device: u64, inode: u64) -> bool
    ensures { result ≡ is_held_in device inode text.now }
{
    text.split('\n').any(|line| is_holding(line, device, inode))
}

/// Whether a line tells a lock by which QEMU holds that file.
fn is_holding(line: &str, device: u64, inode: u64) -> bool
    ensures { result ≡ is_holding device inode line.now }
{
    let kind = behind(line);
    is_lock(field(kind)) && holds_behind(behind(behind(behind(behind(kind)))), device, inode)
}

/// Whether a kind of locks is one of those on ranges: of a process or of an open file.
fn is_lock(kind: &str) -> bool
    ensures { result ≡ is_lock kind.now }
{
    kind == "POSIX" || kind == "OFDLCK"
}

/// Whether a line, from its file on, tells of that file, and of bytes by which QEMU holds it.
fn holds_behind(text: &str, device: u64, inode: u64) -> bool
    ensures { result ≡ holds_behind device inode text.now }
{
    let first = behind(text);
    is_file(field(text), device, inode) && is_held_from(field(first), field(behind(first)))
}

/// The first field of a text. Fields have spaces between them.
fn field(text: &str) -> &str
    ensures { result.now ≡ field text.now }
{
    let text = text.trim_start();
    match cut_at_space(text) {
        Some((first, _)) => first,
        None => text,
    }
}

/// What stands behind the first field of a text.
fn behind(text: &str) -> &str
    ensures { result.now ≡ behind text.now }
{
    match cut_at_space(text.trim_start()) {
        Some((_, behind)) => behind,
        None => "",
    }
}

/// What stands before and behind the first space.
fn cut_at_space(text: &str) -> Option<(&str, &str)>
    ensures { option_map (λ x. (x.0.now, x.1.now)) result ≡ cut_at 32 text.now }
{
    text.split_once(' ')
}

/// What stands before and behind the first colon.
fn cut_at_colon(text: &str) -> Option<(&str, &str)>
    ensures { option_map (λ x. (x.0.now, x.1.now)) result ≡ cut_at 58 text.now }
{
    text.split_once(':')
}

/// Whether `MAJOR:MINOR:INODE` is that file.
fn is_file(text: &str, device: u64, inode: u64) -> bool
    ensures { result ≡ is_file device inode text.now }
{
    match cut_at_colon(text) {
        Some((major, rest)) => {
            is_value(16, major, major_of(device)) && is_inode(rest, device, inode)
        }
        None => false,
    }
}

/// The same of `MINOR:INODE`.
fn is_inode(text: &str, device: u64, inode: u64) -> bool
    ensures { result ≡ is_inode device inode (cut_at 58 text.now) }
{
    match cut_at_colon(text) {
        Some((minor, number)) => {
            is_value(16, minor, minor_of(device)) && is_value(10, number, inode)
        }
        None => false,
    }
}

/// The major number of a device, which has 12 bits.
fn major_of(device: u64) -> u64
    ensures { result ≡ major_of device }
{
    device / (1 << 8) % (1 << 12)
}

/// The minor number of a device, which has 20 bits. The lowest 8 stand below the major number.
fn minor_of(device: u64) -> u64
    ensures { result ≡ minor_of device }
{
    device / (1 << 20) % (1 << 12) * (1 << 8) + device % (1 << 8)
}

/// Whether a text is that number in that base.
fn is_value(base: u64, text: &str, number: u64) -> bool
    ensures { result ≡ is_value number (number_of base text.now) }
{
    match number_of(base, text) {
        Some(found) => found == number,
        None => false,
    }
}

/// Whether a range of bytes has one by which QEMU holds a file.
fn is_held_from(first: &str, last: &str) -> bool
    ensures { result ≡ is_held_from (number_of 10 first.now) last.now }
{
    let Some(first) = number_of(10, first) else {
        return false;
    };
    match last_of(last) {
        Some(last) => is_held_between(first, last),
        None => false,
    }
}

/// The last byte of a range: `EOF` stands for the greatest.
fn last_of(text: &str) -> Option<u64>
    ensures { result ≡ last_of text.now }
{
    if text == "EOF" {
        return Some(u64::MAX);
    }
    number_of(10, text)
}

/// Whether a range has one of the bytes that stand for the rights to write a file and to change its
/// length: from 100 on those that QEMU has, from 200 on those that it leaves to nobody else.
fn is_held_between(first: u64, last: u64) -> bool
    ensures { result ≡ is_held_between first last }
{
    let has = |byte: u64| first <= byte && byte <= last;
    has(101) || has(103) || has(201) || has(203)
}

/// The number that a text is in that base: it has one digit or more.
#[tactic(auto, unfolding(crate::specs::Locks::number_from))]
fn number_of(base: u64, text: &str) -> Option<u64>
    ensures { result ≡ number_of base text.now }
{
    let mut rest = text.as_bytes();
    if rest.is_empty() {
        return None;
    }
    let mut number = 0u64;
    while let Some((byte, behind)) = rest.split_first() {
        number = with_digit(base, number, *byte)?;
        rest = behind;
    }
    Some(number)
}

/// The number with one more digit behind it.
fn with_digit(base: u64, number: u64, byte: u8) -> Option<u64>
    ensures { result ≡ with_digit base number byte }
{
    let digit = digit_of(byte)?;
    if digit >= base {
        return None;
    }
    number.checked_mul(base)?.checked_add(digit)
}

/// The value of a digit, of which those above 9 are lower-case letters.
#[tactic(auto, unfolding(crate::specs::Locks::digit_of))]
fn digit_of(byte: u8) -> Option<u64>
    ensures { result ≡ digit_of byte }
{
    match byte {
        b'0'..=b'9' => Some((byte - b'0') as u64),
        b'a'..=b'f' => Some((byte - b'a') as u64 + 10),
        _ => None,
    }
}

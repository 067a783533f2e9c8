// SPDX-License-Identifier: MIT
//! Long scripts of commands.

use crate::digest::Digest;
use crate::random::Random;
use imago_script_parts::script::script;
use std::alloc::Global;

/// The size of the disk, in bytes.
const SIZE: u64 = 4194304;

/// How many bytes the longest texts in hexadecimal stand for.
const LONG: u64 = 1048576;

/// Of how many lines one is refused, or has nothing to do.
const RARE: u64 = 16;

/// Digits of hexadecimal numbers.
const DIGITS: &[u8; 16] = b"0123456789abcdef";

/// Puts random bytes behind a text, two digits for each.
fn push_digits(text: &mut Vec<u8>, random: &mut Random, count: u64) -> Option<()> {
    for _ in 0..count.div_ceil(8) {
        let mut number = random.number();
        let mut digits = [0; 16];
        for digit in &mut digits {
            *digit = DIGITS[(number % 16) as usize];
            number /= 16;
        }
        text.extend_from_slice(&digits).ok()?;
    }
    Some(())
}

/// Puts a line behind a text.
fn push_line(text: &mut Vec<u8>, line: &str) -> Option<()> {
    text.extend_from_slice(line.as_bytes()).ok()?;
    text.push(b'\n').ok()
}

/// Puts a write of that many bytes, rounded up to eight.
fn push_write(alloc: Global, text: &mut Vec<u8>, random: &mut Random, count: u64) -> Option<()> {
    let offset = random.below(SIZE - LONG);
    let start = format!(in alloc; "write {offset} ").ok()?;
    text.extend_from_slice(start.as_bytes()).ok()?;
    push_digits(text, random, count)?;
    text.push(b'\n').ok()
}

/// Puts a line that is refused, or has nothing to do.
fn push_rare(alloc: Global, text: &mut Vec<u8>, random: &mut Random) -> Option<()> {
    let number = random.number();
    match random.below(4) {
        0 => push_line(text, &format!(in alloc; "read {number} 16").ok()?),
        1 => push_line(text, &format!(in alloc; "open raw none{number} ro").ok()?),
        2 => push_line(text, ""),
        _ => push_line(text, &format!(in alloc; "# line {number}").ok()?),
    }
}

/// Puts a command that has no bytes.
fn push_short(alloc: Global, text: &mut Vec<u8>, random: &mut Random) -> Option<()> {
    let offset = random.below(SIZE / 2);
    let count = random.below(65536);
    match random.below(8) {
        0 => push_line(text, &format!(in alloc; "map {offset} {count}").ok()?),
        1 => push_line(text, &format!(in alloc; "zero {offset} {count}").ok()?),
        2 => push_line(
            text,
            &format!(in alloc; "discard zero {offset} {count}").ok()?,
        ),
        3 => push_line(text, "flush"),
        4 => push_line(text, "size"),
        5 => push_line(text, "show"),
        6 => push_line(text, &format!(in alloc; "data {offset} {count} keep").ok()?),
        _ => {
            let size = SIZE + count;
            push_line(text, &format!(in alloc; "resize {size} zero").ok()?)
        }
    }
}

/// Puts a command.
fn push_command(alloc: Global, text: &mut Vec<u8>, random: &mut Random) -> Option<()> {
    if random.is_one_of(RARE) {
        return push_rare(alloc, text, random);
    }
    let count = 8 + random.below(512);
    match random.below(10) {
        0..=3 => {
            let offset = random.below(SIZE - LONG);
            push_line(text, &format!(in alloc; "read {offset} {count}").ok()?)
        }
        4..=6 => push_write(alloc, text, random, count),
        _ => push_short(alloc, text, random),
    }
}

/// A script of so many commands, and four long texts of hexadecimal digits in and out.
fn text_of(alloc: Global, random: &mut Random, commands: u64) -> Option<Vec<u8>> {
    let mut text = Vec::new(alloc);
    push_line(
        &mut text,
        &format!(in alloc; "mem base {SIZE} 3a 1 512").ok()?,
    )?;
    push_line(&mut text, "open raw base ro")?;
    push_line(&mut text, "mem data 0 00 1 1")?;
    push_line(&mut text, "open cow data 65536")?;
    for _ in 0..commands {
        push_command(alloc, &mut text, random)?;
    }
    for _ in 0..4u64 {
        push_write(alloc, &mut text, random, LONG)?;
        let offset = random.below(SIZE - LONG);
        push_line(&mut text, &format!(in alloc; "read {offset} {LONG}").ok()?)?;
    }
    Some(text)
}

/// Replays a script of so many commands.
pub fn replay(
    alloc: Global,
    random: &mut Random,
    commands: u64,
    digest: &mut Digest,
) -> Option<()> {
    let text = text_of(alloc, random, commands)?;
    let mut output = Vec::new(alloc);
    let status = script(alloc, &mut text.as_slice(), &mut output);
    digest.add(u64::from(status));
    digest.add_bytes(&output);
    Some(())
}

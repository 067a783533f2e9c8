// SPDX-License-Identifier: MIT
//! VMDK descriptors of many extents, as tools that split disks write them.

use crate::random::Random;
use std::alloc::Global;

/// The most sectors of an extent.
const MOST_SECTORS: u64 = 4;

/// The letters of names.
const LETTERS: &[u8] = b"abcdefghijklmnopqrstuvwxyz-_0123456789";

/// Puts a letter behind a text.
fn push_letter(text: &mut String, random: &mut Random) -> Option<()> {
    let index = random.below(LETTERS.len() as u64) as usize;
    match LETTERS.get(index) {
        Some(letter) => text.push(char::from(*letter)).ok(),
        None => Some(()),
    }
}

/// The name of an extent's file: most have 10 to 30 letters, one of sixteen up to 200.
fn name(alloc: Global, random: &mut Random, line: u64) -> Option<String> {
    let mut name = format!(in alloc; "extent{line}-").ok()?;
    let most = if random.is_one_of(16) { 180 } else { 15 };
    for _ in 0..random.below(most) {
        push_letter(&mut name, random)?;
    }
    Some(name)
}

/// A descriptor of that many lines: of ten six are `FLAT` extents, three `ZERO` ones, and one is a
/// comment.
pub fn descriptor(alloc: Global, random: &mut Random, lines: u64) -> Option<String> {
    let mut text = String::from_str(
        alloc,
        "# Disk DescriptorFile\nversion=1\nCID=fffffffe\nparentCID=ffffffff\n\
        createType=\"twoGbMaxExtentFlat\"\n",
    )
    .ok()?;
    for line in 0..lines {
        let sectors = 1 + random.below(MOST_SECTORS);
        match random.below(10) {
            0..=5 => {
                let name = name(alloc, random, line)?;
                let line = format!(in alloc; "RW {sectors} FLAT \"{name}\" 0\n").ok()?;
                text.push_str(&line).ok()?;
            }
            6..=8 => {
                let line = format!(in alloc; "RW {sectors} ZERO\n").ok()?;
                text.push_str(&line).ok()?;
            }
            _ => {
                let line = format!(in alloc; "# extent {line} was moved\n").ok()?;
                text.push_str(&line).ok()?;
            }
        }
    }
    Some(text)
}

/// The names of the files of a descriptor's extents.
pub fn names(alloc: Global, text: &str) -> Option<Vec<String>> {
    let mut names = Vec::new(alloc);
    for line in text.split('\n') {
        if line.starts_with("RW") {
            if let Some((_, behind)) = line.split_once('"') {
                if let Some((name, _)) = behind.split_once('"') {
                    names.push(String::from_str(alloc, name).ok()?).ok()?;
                }
            }
        }
    }
    Some(names)
}

// SPDX-License-Identifier: MIT
//! What the tests share: bytes, texts and names, each made again where memory is refused once.
use std::alloc::Global;
use std::fmt::Debug;
use std::process::Abort;

/// A value is the one that is expected. A call of this costs less proof than the macro in its
/// place.
pub(super) fn same<T: PartialEq + Debug>(rt: &impl Abort, found: &T, expected: &T) {
    assert_eq!(rt; found, expected);
}

/// Runs of equal bytes, one behind the other. Each is given by its length and its byte.
pub(super) fn runs(rt: &impl Abort, alloc: Global, runs: &[(usize, u8)]) -> Vec<u8> {
    let mut bytes = Vec::new(alloc);
    for &(count, byte) in runs {
        let len = bytes.len().saturating_add(count);
        if bytes.resize(len, byte).is_err() {
            bytes.resize(len, byte).expect(rt, "memory for bytes");
        }
    }
    bytes
}

/// So many bytes from 101 on, each of which tells its offset.
pub(super) fn offsets(rt: &impl Abort, alloc: Global, offset: u64, count: usize) -> Vec<u8> {
    let mut bytes = runs(rt, alloc, &[(count, 0)]);
    for (i, byte) in bytes.iter_mut().enumerate() {
        *byte = (offset.wrapping_add(i as u64) % 100) as u8 + 101;
    }
    bytes
}

/// The length of runs.
pub(super) fn total(runs: &[(usize, u8)]) -> u64 {
    let mut total: u64 = 0;
    for &(count, _) in runs {
        total = total.saturating_add(count as u64);
    }
    total
}

/// A copy.
pub(super) fn copied(rt: &impl Abort, alloc: Global, bytes: &[u8]) -> Vec<u8> {
    match bytes.to_vec(alloc) {
        Ok(copy) => copy,
        Err(_) => bytes.to_vec(alloc).expect(rt, "memory for a copy"),
    }
}

/// A string of that text.
pub(super) fn owned(rt: &impl Abort, alloc: Global, text: &str) -> String {
    match String::from_str(alloc, text) {
        Ok(string) => string,
        Err(_) => String::from_str(alloc, text).expect(rt, "memory for a string"),
    }
}

/// Whether each byte is the old or the new one, 0 past their ends, and the length between theirs.
pub(super) fn is_old_or_new(old: &[u8], new: &[u8], now: &[u8]) -> bool {
    for i in 0..new.len() {
        let byte = byte_at(now, i);
        if byte != byte_at(old, i) && byte != byte_at(new, i) {
            return false;
        }
    }
    old.len() <= now.len() && now.len() <= new.len()
}

fn byte_at(bytes: &[u8], i: usize) -> u8 {
    match bytes.get(i) {
        Some(byte) => *byte,
        None => 0,
    }
}

// SPDX-License-Identifier: MIT
//! Bytes to start from.
//!
//! A test's run refuses one request for memory at most. So what is refused is tried again, and has
//! its memory then.
use std::alloc::Global;
use std::fmt::Display;
use std::process::Abort;

/// So many equal bytes.
pub(super) fn equal(rt: &impl Abort, alloc: Global, count: u64, byte: u8) -> Vec<u8> {
    assert!(rt; count < 1 << 24, "a short list");
    match vec![in alloc; byte; count as usize] {
        Ok(bytes) => bytes,
        Err(_) => vec![in alloc; byte; count as usize].expect(rt, "memory for bytes"),
    }
}

/// So many bytes, each of them another than its neighbours: those from `first` on, again and again.
pub(super) fn numbers(rt: &impl Abort, alloc: Global, count: u64, first: u8) -> Vec<u8> {
    let mut bytes = equal(rt, alloc, count, 0);
    for (i, byte) in bytes.iter_mut().enumerate() {
        *byte = number(i as u64, first);
    }
    bytes
}

/// The byte at an index of such bytes.
pub(super) fn number(index: u64, first: u8) -> u8 {
    first.saturating_add((index % 100) as u8)
}

/// The byte at an offset, 0 past the end.
pub(super) fn byte_at(bytes: &[u8], offset: u64) -> u8 {
    match bytes.get(offset as usize) {
        Some(byte) => *byte,
        None => 0,
    }
}

/// What is printed of a value.
pub(super) fn printed<T: Display>(rt: &impl Abort, alloc: Global, value: &T) -> String {
    match format!(in alloc; "{value}") {
        Ok(text) => text,
        Err(_) => format!(in alloc; "{value}").expect(rt, "memory for a text"),
    }
}

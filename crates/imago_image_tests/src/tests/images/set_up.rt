// SPDX-License-Identifier: MIT
//! Bytes and storages to start from.
//!
//! A test's run refuses one request for memory at most. So what is refused is tried again, and has
//! its memory then.
use imago_storage::mem::MemStorage;
use imago_storage::storage::is_alignment;
use std::alloc::Global;
use std::fmt::Display;
use std::process::Abort;

/// Runs of equal bytes, one behind the other. Each is given by its length and its byte.
pub(super) fn runs(rt: &impl Abort, alloc: Global, runs: &[(usize, u8)]) -> Vec<u8> {
    let mut bytes = Vec::new(alloc);
    for &(count, byte) in runs {
        let len = bytes.len().saturating_add(count);
        if bytes.resize(len, byte).is_err() {
            bytes.resize(len, byte).expect(rt, "memory for bytes");
        }
    }
    bytes
}

/// So many bytes, each of them another than its neighbours: those from `first` on, again and again.
pub(super) fn numbers(rt: &impl Abort, alloc: Global, count: usize, first: u8) -> Vec<u8> {
    let mut bytes = runs(rt, alloc, &[(count, 0)]);
    for (i, byte) in bytes.iter_mut().enumerate() {
        *byte = number(i, first);
    }
    bytes
}

/// The byte at an index of such bytes.
pub(super) fn number(index: usize, first: u8) -> u8 {
    first.saturating_add((index % 100) as u8)
}

/// A buffer of so many bytes.
pub(super) fn buffer(rt: &impl Abort, alloc: Global, count: usize) -> Vec<u8> {
    runs(rt, alloc, &[(count, 0x77)])
}

/// A storage of runs of equal bytes.
pub(super) fn stored(rt: &impl Abort, alloc: Global, given: &[(usize, u8)]) -> MemStorage {
    MemStorage::new(runs(rt, alloc, given))
}

/// The storage in blocks of that length.
pub(super) fn in_blocks(rt: &impl Abort, storage: MemStorage, align: usize) -> MemStorage {
    assert!(rt; is_alignment(align));
    storage.with_align(align)
}

/// A copy.
pub(super) fn copied(rt: &impl Abort, alloc: Global, bytes: &[u8]) -> Vec<u8> {
    match Vec::from_slice(alloc, bytes) {
        Ok(copy) => copy,
        Err(_) => Vec::from_slice(alloc, bytes).expect(rt, "memory for bytes"),
    }
}

/// A storage of these bytes.
pub(super) fn storing(rt: &impl Abort, alloc: Global, bytes: &[u8]) -> MemStorage {
    MemStorage::new(copied(rt, alloc, bytes))
}

/// What is printed of a value.
pub(super) fn printed<T: Display>(rt: &impl Abort, alloc: Global, value: &T) -> String {
    match format!(in alloc; "{value}") {
        Ok(text) => text,
        Err(_) => format!(in alloc; "{value}").expect(rt, "memory for a text"),
    }
}

// SPDX-License-Identifier: MIT
//! Names, storages and gates to start from.
use imago_drivers::drivers::FormatDriverInstance;
use imago_drivers::gate::NamedGate;
use imago_drivers::raw::Raw;
use imago_storage::error::Error;
use imago_storage::mem::MemStorage;
use imago_storage::storage::Storage;
use std::alloc::Global;
use std::process::Abort;

/// A string of that text.
pub(super) fn text(rt: &impl Abort, alloc: Global, text: &str) -> String {
    match String::from_str(alloc, text) {
        Ok(string) => string,
        Err(_) => String::from_str(alloc, text).expect(rt, "memory for a string"),
    }
}

/// So many bytes ff in memory, under that name.
pub(super) fn stored(rt: &impl Abort, alloc: Global, name: &str, count: usize) -> MemStorage {
    let mut bytes = Vec::new(alloc);
    if bytes.resize(count, 0xff).is_err() {
        bytes.resize(count, 0xff).expect(rt, "memory for bytes");
    }
    MemStorage::named(text(rt, alloc, name), bytes)
}

/// Puts a storage into a gate under that name, once. One that there is no memory for is given back.
fn add(
    rt: &impl Abort,
    alloc: Global,
    gate: &mut NamedGate<MemStorage>,
    name: &str,
    storage: MemStorage,
) -> Result<(), MemStorage> {
    gate.add(text(rt, alloc, name), storage)
}

/// A gate with a storage under each of these names. The first is 1 byte long, the second 2, and so
/// on.
pub(super) fn named(rt: &impl Abort, alloc: Global, names: &[&str]) -> NamedGate<MemStorage> {
    let mut gate = NamedGate::new(alloc);
    let mut count = 0usize;
    for name in names {
        count = count.saturating_add(1);
        let storage = stored(rt, alloc, name, count);
        if let Err(storage) = add(rt, alloc, &mut gate, name, storage) {
            let added = add(rt, alloc, &mut gate, name, storage);
            assert!(rt; added.is_ok(), "memory for a storage");
        }
    }
    gate
}

/// The size of an opened image, or its refusal.
pub(super) fn size_of<S: Storage>(image: Result<Raw<S>, Error>) -> Result<u64, Error> {
    Ok(image?.size())
}

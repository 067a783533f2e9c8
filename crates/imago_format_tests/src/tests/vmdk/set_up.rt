// SPDX-License-Identifier: MIT
//! Descriptors, storages and gates to start from.
use imago_drivers::gate::NamedGate;
use imago_storage::error::Error;
use imago_storage::mem::MemStorage;
use imago_test_drivers::gates::{NthGate, RecordingGate};
use std::alloc::Global;

/// A gate of named storages that keeps what it is asked, and may refuse one opening.
pub(super) type Gate = RecordingGate<NthGate<NamedGate<MemStorage>>>;

/// A string of that text.
pub(super) fn name(alloc: Global, text: &str) -> Result<String, Error> {
    String::from_str(alloc, text).or(Err(Error::Memory))
}

/// A storage of these bytes.
pub(super) fn storage_of(alloc: Global, text: &[u8]) -> Result<MemStorage, Error> {
    let mut bytes = Vec::new(alloc);
    if bytes.extend_from_slice(text).is_err() {
        return Err(Error::Memory);
    }
    Ok(MemStorage::new(bytes))
}

/// Bytes of a storage: so many of each value, one after the other.
pub(super) type Runs = &'static [(usize, u8)];

/// These bytes.
pub(super) fn bytes_of(alloc: Global, runs: Runs) -> Result<Vec<u8>, Error> {
    let mut bytes = Vec::new(alloc);
    for (count, byte) in runs {
        for _ in 0..*count {
            if bytes.push(*byte).is_err() {
                return Err(Error::Memory);
            }
        }
    }
    Ok(bytes)
}

/// A storage of these bytes.
fn storage_of_runs(alloc: Global, runs: Runs) -> Result<MemStorage, Error> {
    Ok(MemStorage::new(bytes_of(alloc, runs)?))
}

/// Puts a storage into a gate, under that name.
pub(super) fn add(
    alloc: Global,
    gate: &mut NamedGate<MemStorage>,
    text: &str,
    storage: MemStorage,
) -> Result<(), Error> {
    gate.add(name(alloc, text)?, storage).or(Err(Error::Memory))
}

/// That gate, which keeps what it is asked, and refuses its nth opening, counted from 1, or none
/// for 0.
pub(super) fn recorded(alloc: Global, gate: NamedGate<MemStorage>, nth: u64) -> Gate {
    RecordingGate::new(alloc, NthGate::new(gate, nth))
}

/// Such a gate of storages under these names.
pub(super) fn gate_of(alloc: Global, storages: &[(&str, Runs)], nth: u64) -> Result<Gate, Error> {
    let mut gate = NamedGate::new(alloc);
    for (text, runs) in storages {
        let storage = storage_of_runs(alloc, runs)?;
        add(alloc, &mut gate, text, storage)?;
    }
    Ok(recorded(alloc, gate, nth))
}

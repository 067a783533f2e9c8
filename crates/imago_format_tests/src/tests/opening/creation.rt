// SPDX-License-Identifier: MIT
//! New images, and what a refused creation leaves of a storage that was lent.
use super::set_up::{size_of, stored};
use imago_drivers::builder::{FormatCreateBuilder, FormatDriverBuilder};
use imago_drivers::drivers::FormatDriverInstance;
use imago_drivers::format::PreallocateMode;
use imago_drivers::gate::DenyImplicitOpenGate;
use imago_drivers::raw::{Raw, create_in};
use imago_storage::error::Error;
use imago_storage::mem::MemStorage;
use imago_storage::storage;
use imago_storage::storage::Storage;
use imago_test_storages::faulty::Faulty;
use imago_test_storages::recording::{Recorded, Recording};
use std::alloc::Global;
use std::process::Abort;

/// A new image of that size.
fn created<S: Storage, B: FormatCreateBuilder<S>>(
    alloc: Global,
    builder: B,
    size: u64,
    mode: PreallocateMode,
) -> Result<S, Error> {
    builder.size(size).preallocate(mode).create(alloc)
}

/// A new image in a storage.
fn create<S: Storage>(
    alloc: Global,
    storage: S,
    size: u64,
    mode: PreallocateMode,
) -> Result<S, Error> {
    created(alloc, Raw::create_builder(storage), size, mode)
}

/// A storage of so many bytes ff whose next resizes fail, so many.
fn failing(rt: &impl Abort, alloc: Global, count: usize, resizes: u64) -> Faulty {
    let mut storage = Faulty::new(stored(rt, alloc, "a", count));
    storage.refuse_resizes(resizes);
    storage
}

fn check_a_storage_that_is_not_emptied_is_as_it_was(rt: &impl Abort, alloc: Global) {
    let mut storage = failing(rt, alloc, 3, 1);
    let created = create(alloc, &mut storage, 5, PreallocateMode::None);
    assert_eq!(rt; created.err(), Some(Error::Device));
    assert_eq!(rt; storage.as_bytes(), [0xff; 3].as_slice());
    assert_eq!(rt; storage.faults(), 1);
}

#[test]
fn a_storage_that_is_not_emptied_is_as_it_was(rt: HostRuntime) {
    check_a_storage_that_is_not_emptied_is_as_it_was(&rt, rt.alloc());
}

fn check_a_storage_that_does_not_grow_is_empty(rt: &impl Abort, alloc: Global) {
    let mut storage = failing(rt, alloc, 0, 1);
    let created = create_in(&mut storage, 5, PreallocateMode::Zero);
    assert_eq!(rt; created, Err(Error::Device));
    assert_eq!(rt; storage.as_bytes(), [].as_slice());
}

#[test]
fn a_storage_that_does_not_grow_is_empty(rt: HostRuntime) {
    check_a_storage_that_does_not_grow_is_empty(&rt, rt.alloc());
}

/// The size of a new image that is opened, by a builder that is told to be read-only, and whether
/// it is writable.
fn opened<S: Storage>(
    alloc: Global,
    storage: S,
    size: u64,
    mode: PreallocateMode,
) -> Result<(u64, bool), Error> {
    let builder = Raw::create_builder(storage).size(size).preallocate(mode);
    let gate = DenyImplicitOpenGate::default();
    let image = builder.create_open(alloc, gate, |s| Ok(Raw::builder(s).write(false)))?;
    Ok((image.size(), image.writable()))
}

/// The size of a new image of 5 bytes that is opened by no builder.
fn not_opened<S: Storage>(alloc: Global, storage: S) -> Result<u64, Error> {
    let builder = Raw::create_builder(storage).size(5);
    let gate = DenyImplicitOpenGate::default();
    size_of(builder.create_open(alloc, gate, |_| Err(Error::NoAccess)))
}

fn check_a_new_image_without_a_builder_is_not_opened(rt: &impl Abort, alloc: Global) {
    let mut storage = stored(rt, alloc, "a", 3);
    let refused = not_opened(alloc, &mut storage);
    assert_eq!(rt; refused, Err(Error::NoAccess));
    assert_eq!(rt; storage.as_bytes(), [].as_slice());
}

#[test]
fn a_new_image_without_a_builder_is_not_opened(rt: HostRuntime) {
    check_a_new_image_without_a_builder_is_not_opened(&rt, rt.alloc());
}

/// How an image is created.
#[derive(Clone, Copy)]
enum Way {
    /// In a storage that is there.
    InPlace,
    /// By a builder.
    Built,
    /// By a builder that opens it, too.
    Opened,
}

static WAYS: [Way; 3] = [Way::InPlace, Way::Built, Way::Opened];

/// Creates an image in a lent storage. One that is opened has its size, and is writable.
fn make<S: Storage>(
    rt: &impl Abort,
    alloc: Global,
    storage: &mut S,
    way: Way,
    size: u64,
    mode: PreallocateMode,
) -> Result<(), Error> {
    match way {
        Way::InPlace => create_in(storage, size, mode),
        Way::Built => match create(alloc, storage, size, mode) {
            Ok(_) => Ok(()),
            Err(refusal) => Err(refusal),
        },
        Way::Opened => {
            let told = opened(alloc, storage, size, mode)?;
            assert_eq!(rt; told, (size, true));
            Ok(())
        }
    }
}

/// Creates an image of a size in a storage of so many bytes ff, which records its calls. Answers
/// whether there was memory for it.
fn is_recorded(
    rt: &impl Abort,
    alloc: Global,
    way: Way,
    (count, size): (usize, u64),
    mode: PreallocateMode,
    calls: &[Recorded],
) -> bool {
    let mut storage = Recording::new(stored(rt, alloc, "a", count));
    let made = make(rt, alloc, &mut storage, way, size, mode);
    if made == Err(Error::Memory) {
        return false;
    }
    assert_eq!(rt; made, Ok(()));
    assert_eq!(rt; storage.calls(), calls);
    let zeroes = [0; 5];
    assert_eq!(rt; Some(storage.as_bytes()), zeroes.get(..size as usize));
    true
}

/// The same in each way.
fn are_recorded(
    rt: &impl Abort,
    alloc: Global,
    sizes: (usize, u64),
    mode: PreallocateMode,
    calls: &[Recorded],
) {
    for &way in &WAYS {
        let done = is_recorded(rt, alloc, way, sizes, mode, calls)
            || is_recorded(rt, alloc, way, sizes, mode, calls);
        assert!(rt; done, "memory was refused twice");
    }
}

/// A mode, and how a storage of that size grows by it.
static GROWTH: [(PreallocateMode, Recorded); 5] = [
    (
        PreallocateMode::None,
        Recorded::Resize(5, storage::PreallocateMode::None),
    ),
    (
        PreallocateMode::Zero,
        Recorded::Resize(5, storage::PreallocateMode::Zero),
    ),
    (
        PreallocateMode::FormatAllocate,
        Recorded::Resize(5, storage::PreallocateMode::Zero),
    ),
    (
        PreallocateMode::FullAllocate,
        Recorded::Resize(5, storage::PreallocateMode::Allocate),
    ),
    (
        PreallocateMode::WriteData,
        Recorded::Resize(5, storage::PreallocateMode::WriteData),
    ),
];

const EMPTIED: Recorded = Recorded::Resize(0, storage::PreallocateMode::None);

fn check_a_storage_is_emptied_once_and_grown_once(rt: &impl Abort, alloc: Global) {
    for &(mode, grown) in &GROWTH {
        are_recorded(rt, alloc, (3, 5), mode, &[EMPTIED, grown]);
        are_recorded(rt, alloc, (7, 5), mode, &[EMPTIED, grown]);
        are_recorded(rt, alloc, (0, 5), mode, &[grown]);
        are_recorded(rt, alloc, (3, 0), mode, &[EMPTIED]);
        are_recorded(rt, alloc, (0, 0), mode, &[]);
    }
}

#[test]
fn a_storage_is_emptied_once_and_grown_once(rt: HostRuntime) {
    check_a_storage_is_emptied_once_and_grown_once(&rt, rt.alloc());
}

// SPDX-License-Identifier: MIT
//! Opening and creating of storages, their names, and their bytes.
use super::set_up::{owned, runs, same};
use imago_storage::error::Error;
use imago_storage::mem::MemStorage;
use imago_storage::null::Null;
use imago_storage::storage::{Storage, StorageCreateOptions, StorageOpenOptions};
use imago_test_storages::created::Created;
use imago_test_storages::faulty::Faulty;
use imago_test_storages::recording::Recording;
use std::alloc::Global;
use std::process::Abort;

/// The length of a storage, or its refusal.
fn size_of<S: Storage>(storage: Result<S, Error>) -> Result<u64, Error> {
    storage?.size()
}

/// Without a name such a storage isn't opened but refused so, and it is created as it is expected
/// to be.
fn is_created<S: Storage>(
    rt: &impl Abort,
    alloc: Global,
    named: bool,
    open: Error,
    create_open: Result<u64, Error>,
    create: Result<(), Error>,
) {
    let opened = size_of(S::open(StorageOpenOptions::new()));
    same(rt, &opened, &Err(open));
    let created = size_of(S::create_open(options(rt, alloc, named)));
    same(rt, &created, &create_open);
    same(rt, &S::create(options(rt, alloc, named)), &create);
}

/// Options for 700 bytes.
fn options(rt: &impl Abort, alloc: Global, named: bool) -> StorageCreateOptions {
    let opts = StorageCreateOptions::new().size(700);
    if named {
        return opts.filename(owned(rt, alloc, "new.img"));
    }
    opts
}

fn check_storages_are_opened_and_created(rt: &impl Abort, alloc: Global) {
    let none = Error::Unsupported;
    is_created::<MemStorage>(rt, alloc, true, none, Err(none), Err(none));
    is_created::<Null>(rt, alloc, true, none, Err(none), Err(none));
    let missing = Error::NotFound;
    is_created::<Created>(rt, alloc, true, missing, Ok(700), Ok(()));
    is_created::<Created>(rt, alloc, false, missing, Err(missing), Err(missing));
    // a lent one is created as its own is, and let go
    is_created::<&mut Created>(rt, alloc, true, none, Err(none), Ok(()));
    is_created::<&mut Created>(rt, alloc, false, none, Err(none), Err(missing));
}

#[test]
fn storages_are_opened_and_created(rt: HostRuntime) {
    check_storages_are_opened_and_created(&rt, rt.alloc());
}

/// A name relative to a storage.
fn beside<S: Storage>(alloc: Global, storage: &S) -> Result<String, Error> {
    match storage.resolve_relative_path(alloc, "b.img") {
        Err(Error::Memory) => storage.resolve_relative_path(alloc, "b.img"),
        answer => answer,
    }
}

/// What a storage tells of itself: its length, its name, and what `b.img` beside it is called, or
/// none where there are no names.
type Told = (u64, Option<&'static str>, Option<&'static str>);

/// A storage tells that.
fn tells<S: Storage>(rt: &impl Abort, alloc: Global, storage: &S, told: Told) {
    same(rt, &storage.size(), &Ok(told.0));
    same(rt, &storage.get_filename(), &told.1);
    match beside(alloc, storage) {
        Ok(name) => same(rt, &Some(name.as_str()), &told.2),
        Err(refusal) => {
            same(rt, &refusal, &Error::Unsupported);
            same(rt, &told.2, &None);
        }
    }
}

/// One byte in memory.
fn memory(rt: &impl Abort, alloc: Global) -> MemStorage {
    MemStorage::named(owned(rt, alloc, "a.img"), runs(rt, alloc, &[(1, 4)]))
}

fn check_names_are_relative_to_storages(rt: &impl Abort, alloc: Global) {
    let name = Some("a.img");
    tells(rt, alloc, &memory(rt, alloc), (1, name, Some("b.img")));
    let mut storage = Recording::new(memory(rt, alloc));
    let lent = &mut storage;
    tells(rt, alloc, &lent, (1, name, Some("beside/b.img")));
    tells(rt, alloc, &Null::new(4), (4, None, None));
}

#[test]
fn names_are_relative_to_storages(rt: HostRuntime) {
    check_names_are_relative_to_storages(&rt, rt.alloc());
}

fn check_memory_has_bytes(rt: &impl Abort, alloc: Global) {
    let storage = MemStorage::new(runs(rt, alloc, &[(2, 5), (1, 6)]));
    same(rt, &storage.into_bytes().as_slice(), &[5, 5, 6].as_slice());
    let storage = Faulty::new(memory(rt, alloc)).into_inner();
    same(rt, &storage.as_bytes(), &[4].as_slice());
}

#[test]
fn memory_has_bytes(rt: HostRuntime) {
    check_memory_has_bytes(&rt, rt.alloc());
}

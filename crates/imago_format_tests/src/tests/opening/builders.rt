// SPDX-License-Identifier: MIT
//! What builders keep, and which options they open storages with.
use super::set_up::{size_of, stored, text};
use imago_drivers::builder::{
    FormatCreateBuilder, FormatCreateBuilderBase, FormatDriverBuilder, FormatDriverBuilderBase,
};
use imago_drivers::drivers::FormatDriverInstance;
use imago_drivers::format::PreallocateMode;
use imago_drivers::gate::PermissiveImplicitOpenGate;
use imago_drivers::raw::{Raw, RawOpenBuilder};
use imago_storage::error::Error;
use imago_storage::mem::MemStorage;
use imago_storage::storage::{Storage, StorageOpenOptions};
use imago_test_drivers::gates::RecordingGate;
use std::alloc::Global;
use std::process::Abort;

/// Options with a name of their own, which are writable, and bypass the host's cache.
fn options(rt: &impl Abort, alloc: Global) -> StorageOpenOptions {
    let opts = StorageOpenOptions::new().filename(text(rt, alloc, "other"));
    opts.write(true).direct(true)
}

/// A builder of that path keeps its settings, and a gate is asked once for them. No storage in
/// memory is opened by its name.
fn asks<S: Storage>(rt: &impl Abort, alloc: Global, writable: bool, with_options: bool) {
    let mut gate = RecordingGate::new(alloc, PermissiveImplicitOpenGate::default());
    let builder: RawOpenBuilder<S> = opening(rt, alloc, writable, with_options);
    assert_eq!(rt; builder.get_image_path(), Some("a.img"));
    assert_eq!(rt; builder.get_writable(), writable);
    assert_eq!(rt; builder.get_storage_open_options().is_some(), with_options);
    let opened = match builder.open(alloc, &mut gate) {
        Err(Error::Memory) => {
            let builder: RawOpenBuilder<S> = opening(rt, alloc, writable, with_options);
            builder.open(alloc, &mut gate)
        }
        answer => answer,
    };
    assert_eq!(rt; size_of(opened), Err(Error::Unsupported));
    let asked = gate.asked();
    assert_eq!(rt; asked.len(), 1);
    let Some(asked) = asked.first() else {
        return;
    };
    assert_eq!(rt; asked.filename.as_deref(), Some("a.img"));
    assert_eq!(rt; asked.writable, writable);
    assert_eq!(rt; asked.direct, with_options);
}

/// A builder of that path.
fn opening<S: Storage>(
    rt: &impl Abort,
    alloc: Global,
    writable: bool,
    with_options: bool,
) -> RawOpenBuilder<S> {
    let builder = Raw::builder_path(text(rt, alloc, "a.img")).write(writable);
    if with_options {
        builder.storage_open_options(options(rt, alloc))
    } else {
        builder
    }
}

fn check_a_gate_is_asked_with_the_set_options(rt: &impl Abort, alloc: Global) {
    for writable in [false, true] {
        for with_options in [false, true] {
            asks::<MemStorage>(rt, alloc, writable, with_options);
        }
    }
}

#[test]
fn a_gate_is_asked_with_the_set_options(rt: HostRuntime) {
    check_a_gate_is_asked_with_the_set_options(&rt, rt.alloc());
}

/// The options that a base makes at once.
fn made_once<S: Storage>(
    alloc: Global,
    base: &FormatDriverBuilderBase<S>,
) -> Result<StorageOpenOptions, Error> {
    base.make_storage_opts(alloc)
}

/// The options that a base makes.
fn made<S: Storage>(
    alloc: Global,
    base: &FormatDriverBuilderBase<S>,
) -> Result<StorageOpenOptions, Error> {
    match made_once(alloc, base) {
        Err(Error::Memory) => made_once(alloc, base),
        answer => answer,
    }
}

/// A base of that storage, which has the name `a`, makes options.
fn makes_options<S: Storage>(rt: &impl Abort, alloc: Global, storage: S) {
    let mut base = FormatDriverBuilderBase::new(storage);
    assert_eq!(rt; base.get_image_path(), Some("a"));
    let opts = made(alloc, &base).expect(rt, "new options");
    assert_eq!(rt; opts.get_filename(), None);
    assert!(rt; !opts.get_writable());
    base.set_storage_open_options(options(rt, alloc));
    let opts = made(alloc, &base).expect(rt, "a copy");
    assert_eq!(rt; opts.get_filename(), Some("other"));
    assert!(rt; !opts.get_writable());
    assert!(rt; opts.get_direct());
    base.set_write(true);
    assert!(rt; base.get_writable());
    let opts = made(alloc, &base).expect(rt, "a copy");
    assert!(rt; opts.get_writable());
    assert!(rt; base.get_storage_opts().is_some());
    let opened = base.open_image(alloc, &mut PermissiveImplicitOpenGate::default());
    assert!(rt; opened.is_ok());
}

fn check_a_base_makes_options(rt: &impl Abort, alloc: Global) {
    makes_options(rt, alloc, stored(rt, alloc, "a", 1));
}

#[test]
fn a_base_makes_options(rt: HostRuntime) {
    check_a_base_makes_options(&rt, rt.alloc());
}

/// A builder that creates keeps what is set, and its base the storage of 3 bytes.
fn keeps_creating<S: Storage>(rt: &impl Abort, first: S, second: S) {
    let builder = Raw::create_builder(first).size(700);
    let builder = builder.preallocate(PreallocateMode::FullAllocate);
    assert_eq!(rt; builder.get_size(), 700);
    assert_eq!(rt; builder.get_preallocate(), PreallocateMode::FullAllocate);
    let base = FormatCreateBuilderBase::new(second);
    assert_eq!(rt; base.get_image_ref().size(), Ok(3));
    assert_eq!(rt; base.get_image().size(), Ok(3));
}

fn check_a_creating_builder_keeps_what_is_set(rt: &impl Abort, alloc: Global) {
    let first = stored(rt, alloc, "a", 3);
    keeps_creating(rt, first, stored(rt, alloc, "a", 3));
}

#[test]
fn a_creating_builder_keeps_what_is_set(rt: HostRuntime) {
    check_a_creating_builder_keeps_what_is_set(&rt, rt.alloc());
}

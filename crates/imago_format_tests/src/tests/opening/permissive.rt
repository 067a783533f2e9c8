// SPDX-License-Identifier: MIT
//! Images of storages that are opened by their names.
use super::set_up::text;
use imago_drivers::builder::FormatDriverBuilder;
use imago_drivers::drivers::FormatDriverInstance;
use imago_drivers::gate::{ImplicitOpenGate, PermissiveImplicitOpenGate};
use imago_drivers::raw::Raw;
use imago_storage::error::Error;
use imago_storage::storage::{Storage, StorageOpenOptions};
use imago_test_storages::created::Created;
use std::alloc::Global;
use std::process::Abort;

/// The size of an image, and whether it can be written to.
type Opened = Result<(u64, bool), Error>;

/// The image of that name, opened by [`Raw::open_path`].
fn by_path<S: Storage>(name: String, writable: bool) -> Opened {
    let image = Raw::<S>::open_path(name, writable)?;
    Ok((image.size(), image.writable()))
}

/// The image of that name, opened by a builder and the permissive gate.
fn by_gate<S: Storage>(alloc: Global, name: String, writable: bool) -> Opened {
    let gate = PermissiveImplicitOpenGate::default();
    let builder = Raw::<S>::builder_path(name).write(writable);
    let image = builder.open(alloc, gate)?;
    Ok((image.size(), image.writable()))
}

/// A name, whether writes are allowed, and the image of that storage.
static NAMED: [(&str, bool, Opened); 3] = [
    ("", false, Ok((0, false))),
    ("a.img", false, Ok((5, false))),
    ("dir/b.img", true, Ok((9, true))),
];

fn check_an_image_is_opened_by_the_name_of_its_storage(rt: &impl Abort, alloc: Global) {
    for &(name, writable, expected) in &NAMED {
        let path = text(rt, alloc, name);
        assert_eq!(rt; by_path::<Created>(path, writable), expected);
        let path = text(rt, alloc, name);
        assert_eq!(rt; by_gate::<Created>(alloc, path, writable), expected);
    }
}

#[test]
fn an_image_is_opened_by_the_name_of_its_storage(rt: HostRuntime) {
    check_an_image_is_opened_by_the_name_of_its_storage(&rt, rt.alloc());
}

fn check_the_permissive_gate_passes_refusals_on(rt: &impl Abort, alloc: Global) {
    let mut gate = PermissiveImplicitOpenGate::default();
    let opened: Result<Created, Error> = gate.open_storage(alloc, StorageOpenOptions::new());
    assert_eq!(rt; opened.err(), Some(Error::NotFound));
}

#[test]
fn the_permissive_gate_passes_refusals_on(rt: HostRuntime) {
    check_the_permissive_gate_passes_refusals_on(&rt, rt.alloc());
}

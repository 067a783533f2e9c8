// SPDX-License-Identifier: MIT
//! What gates open.
use super::set_up::{named, size_of, stored, text};
use imago_drivers::builder::FormatDriverBuilder;
use imago_drivers::gate::{
    DenyImplicitOpenGate, ImplicitOpenGate, NamedGate, PermissiveImplicitOpenGate,
};
use imago_drivers::raw::Raw;
use imago_storage::error::Error;
use imago_storage::mem::MemStorage;
use imago_storage::storage::{Storage, StorageOpenOptions};
use imago_test_drivers::gates::NthGate;
use std::alloc::Global;
use std::process::Abort;

/// The sizes of the images that a lent gate opens under these names, one after the other.
fn open_each<G: ImplicitOpenGate<MemStorage>>(
    rt: &impl Abort,
    alloc: Global,
    gate: &mut G,
    expected: &[(&str, Result<u64, Error>)],
) {
    for &(name, answer) in expected {
        let builder = Raw::builder_path(text(rt, alloc, name));
        let opened = size_of(builder.open(alloc, &mut *gate));
        assert_eq!(rt; opened, answer, "{name}");
    }
}

fn open_denied(rt: &impl Abort, alloc: Global, expected: &[(&str, Result<u64, Error>)]) {
    open_each(rt, alloc, &mut DenyImplicitOpenGate::default(), expected);
}

fn open_permitted(rt: &impl Abort, alloc: Global, expected: &[(&str, Result<u64, Error>)]) {
    open_each(
        rt,
        alloc,
        &mut PermissiveImplicitOpenGate::default(),
        expected,
    );
}

fn open_named(
    rt: &impl Abort,
    alloc: Global,
    gate: &mut NamedGate<MemStorage>,
    expected: &[(&str, Result<u64, Error>)],
) {
    open_each(rt, alloc, gate, expected);
}

/// Opens three storages of one name by a gate that refuses its nth opening.
fn open_but_nth(rt: &impl Abort, alloc: Global, nth: u64, expected: [Result<u64, Error>; 3]) {
    let mut gate = NthGate::new(named(rt, alloc, &["a", "a", "a"]), nth);
    let rows = expected.map(|answer| ("a", answer));
    open_each(rt, alloc, &mut gate, &rows);
}

#[test]
fn a_gate_denies_or_permits_each_opening(rt: HostRuntime) {
    let alloc = rt.alloc();
    open_denied(&rt, alloc, &[("a", Err(Error::Denied))]);
    open_permitted(&rt, alloc, &[("a", Err(Error::Unsupported))]);
}

fn check_storages_are_handed_out_once_by_their_names(rt: &impl Abort, alloc: Global) {
    let mut gate = named(rt, alloc, &["a", "b", "a"]);
    let rows = [
        ("c", Err(Error::NotFound)),
        ("b", Ok(2)),
        ("a", Ok(1)),
        ("b", Err(Error::NotFound)),
        ("a", Ok(3)),
        ("a", Err(Error::NotFound)),
    ];
    open_named(rt, alloc, &mut gate, &rows);
}

#[test]
fn storages_are_handed_out_once_by_their_names(rt: HostRuntime) {
    check_storages_are_handed_out_once_by_their_names(&rt, rt.alloc());
}

/// The length of the storage that is handed out next under a name.
fn next(gate: &NamedGate<MemStorage>, name: &str) -> Option<Result<u64, Error>> {
    Some(gate.get(name)?.size())
}

#[test]
fn a_gate_shows_what_it_hands_out_next(rt: HostRuntime) {
    let alloc = rt.alloc();
    let mut gate = named(&rt, alloc, &["a", "a"]);
    assert_eq!(rt; next(&gate, "a"), Some(Ok(1)));
    assert_eq!(rt; next(&gate, "b"), None);
    open_named(&rt, alloc, &mut gate, &[("a", Ok(1))]);
    assert_eq!(rt; next(&gate, "a"), Some(Ok(2)));
    open_named(&rt, alloc, &mut gate, &[("a", Ok(2))]);
    assert_eq!(rt; next(&gate, "a"), None);
}

fn check_options_without_a_name_open_nothing(rt: &impl Abort, alloc: Global) {
    let mut gate = named(rt, alloc, &["a"]);
    let opened = gate.open_storage(alloc, StorageOpenOptions::new());
    assert!(rt; opened.is_err_and(|e| e == Error::NotFound));
    assert_eq!(rt; next(&gate, "a"), Some(Ok(1)));
}

#[test]
fn options_without_a_name_open_nothing(rt: HostRuntime) {
    check_options_without_a_name_open_nothing(&rt, rt.alloc());
}

#[test]
fn one_opening_is_refused(rt: HostRuntime) {
    let alloc = rt.alloc();
    let denied = Err(Error::Denied);
    open_but_nth(&rt, alloc, 0, [Ok(1), Ok(2), Ok(3)]);
    open_but_nth(&rt, alloc, 1, [denied, Ok(1), Ok(2)]);
    open_but_nth(&rt, alloc, 2, [Ok(1), Err(Error::Denied), Ok(2)]);
    open_but_nth(&rt, alloc, 3, [Ok(1), Ok(2), Err(Error::Denied)]);
}

fn check_what_was_handed_in_asks_no_gate(rt: &impl Abort, alloc: Global) {
    let builder = Raw::builder(stored(rt, alloc, "a", 4));
    assert_eq!(rt; builder.get_image_path(), Some("a"));
    let opened = builder.open(alloc, DenyImplicitOpenGate::default());
    assert_eq!(rt; size_of(opened), Ok(4));
}

#[test]
fn what_was_handed_in_asks_no_gate(rt: HostRuntime) {
    check_what_was_handed_in_asks_no_gate(&rt, rt.alloc());
}

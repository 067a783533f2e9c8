// SPDX-License-Identifier: MIT
//! Printed texts, and what is shown of refusals.
use super::set_up::{owned, runs, same};
use imago_storage::error::{Error, ErrorKind};
use imago_storage::mem::MemStorage;
use imago_storage::null::Null;
use imago_test_storages::counting::Counting;
use imago_test_storages::faulty::Faulty;
use imago_test_storages::forgetful::Forgetful;
use imago_test_storages::recording::Recording;
use std::alloc::Global;
use std::fmt::Display;
use std::process::Abort;

/// What is printed of a value.
fn printed<T: Display>(rt: &impl Abort, alloc: Global, value: &T) -> String {
    match format!(in alloc; "{value}") {
        Ok(text) => text,
        Err(_) => format!(in alloc; "{value}").expect(rt, "memory for a text"),
    }
}

/// So many zeroes in memory.
fn zeroes(rt: &impl Abort, alloc: Global, count: usize) -> MemStorage {
    MemStorage::new(runs(rt, alloc, &[(count, 0)]))
}

/// A storage prints that.
fn prints<T: Display>(rt: &impl Abort, alloc: Global, value: &T, text: &str) {
    same(rt, &printed(rt, alloc, value).as_str(), &text);
}

fn check_memory_is_printed_by_its_name_or_its_length(rt: &impl Abort, alloc: Global) {
    let named = MemStorage::named(owned(rt, alloc, "disk.img"), runs(rt, alloc, &[(3, 0)]));
    prints(rt, alloc, &named, "mem:disk.img");
    prints(rt, alloc, &zeroes(rt, alloc, 512), "mem:[512B]");
    prints(rt, alloc, &zeroes(rt, alloc, 0), "mem:[0B]");
}

fn check_other_storages_are_printed(rt: &impl Abort, alloc: Global) {
    prints(rt, alloc, &Null::new(7), "null:[7B]");
    prints(
        rt,
        alloc,
        &Null::new(u64::MAX),
        "null:[18446744073709551615B]",
    );
    // one that is lent as itself, and those for tests with what is inside
    let lent = &mut zeroes(rt, alloc, 9);
    prints(rt, alloc, &lent, "mem:[9B]");
    prints(
        rt,
        alloc,
        &Faulty::new(zeroes(rt, alloc, 4)),
        "faulty[mem:[4B]]",
    );
    prints(
        rt,
        alloc,
        &Forgetful::new(zeroes(rt, alloc, 4)),
        "forgetful[mem:[4B]]",
    );
    prints(
        rt,
        alloc,
        &Counting::new(zeroes(rt, alloc, 4)),
        "counting[mem:[4B]]",
    );
    prints(
        rt,
        alloc,
        &Recording::new(zeroes(rt, alloc, 4)),
        "recording[mem:[4B]]",
    );
}

#[test]
fn storages_are_printed(rt: HostRuntime) {
    check_memory_is_printed_by_its_name_or_its_length(&rt, rt.alloc());
    check_other_storages_are_printed(&rt, rt.alloc());
}

/// Each refusal, its kind and its message.
static REFUSALS: [(Error, ErrorKind, &str); 12] = [
    (Error::ReadOnly, ErrorKind::Other, "the image is read-only"),
    (
        Error::BeyondDisk,
        ErrorKind::UnexpectedEof,
        "the range passes the end of the disk",
    ),
    (
        Error::RangeOverflow,
        ErrorKind::InvalidInput,
        "the end of the range passes the greatest possible offset",
    ),
    (
        Error::WrapAround,
        ErrorKind::Other,
        "the request wraps around at the end of the storage's address space",
    ),
    (
        Error::InvalidData,
        ErrorKind::InvalidData,
        "the image's data is invalid",
    ),
    (
        Error::Unsupported,
        ErrorKind::Unsupported,
        "the driver or storage does not support this operation",
    ),
    (
        Error::NoAccess,
        ErrorKind::Other,
        "this part of the disk may not be accessed",
    ),
    (Error::Device, ErrorKind::Other, "the storage failed"),
    (Error::Memory, ErrorKind::OutOfMemory, "out of memory"),
    (
        Error::ForeignMapping,
        ErrorKind::InvalidInput,
        "the prepared mapping does not belong to this image",
    ),
    (
        Error::Denied,
        ErrorKind::PermissionDenied,
        "opening further storages is denied",
    ),
    (
        Error::NotFound,
        ErrorKind::NotFound,
        "there is no storage of that name",
    ),
];

fn check_each_refusal_has_its_kind_and_its_message(rt: &impl Abort, alloc: Global) {
    for &(refusal, kind, text) in &REFUSALS {
        assert_eq!(rt; refusal.kind(), kind, "{refusal:?}");
        prints(rt, alloc, &refusal, text);
    }
}

#[test]
fn each_refusal_has_its_kind_and_its_message(rt: HostRuntime) {
    check_each_refusal_has_its_kind_and_its_message(&rt, rt.alloc());
}

// SPDX-License-Identifier: MIT
//! Images over a driver whose writes wait for a commit, each layer copying the one below it at its
//! first write.
use super::answer::Answer;
use super::driver;
use super::driver::Give;
use super::image::{Call, on_two, script, two};
use super::runs::run_two;
use super::set_up::stored;
use imago_access::access::FormatAccess;
use imago_storage::error::Error;
use imago_storage::mem::MemStorage;
use imago_storage::storage::Storage;
use imago_test_drivers::copy_once::CopyOnce;
use std::alloc::Global;
use std::process::Abort;

const DONE: Answer = Answer::Done;

const NOT_OFFERED: Answer = Answer::Refused(Error::Unsupported);

/// What makes the bytes 1 to 8 of the layer below.
static COUNTED: [(Call, Answer); 1] = [(Call::Write(0, &[1, 2, 3, 4, 5, 6, 7, 8]), DONE)];

/// The driver of an image of 8 bytes, whose first write copies what is below.
fn copying<S: Storage>(storage: S) -> CopyOnce<S> {
    CopyOnce::new(storage, 8)
}

/// A storage of 8 other bytes.
fn elevens(rt: &impl Abort, alloc: Global) -> MemStorage {
    stored(rt, alloc, &[(8, 0x11)])
}

/// The calls on such an image above one of the bytes 1 to 8. Answers whether there was memory for
/// both.
fn on_storages<S: Storage>(
    rt: &impl Abort,
    alloc: Global,
    lower: S,
    upper: S,
    calls: &[(Call, Answer)],
) -> bool {
    let lower = (copying(lower), COUNTED.as_slice());
    on_two(rt, alloc, lower, copying(upper), calls)
}

/// The same in memory.
fn on_once(rt: &impl Abort, alloc: Global, calls: &[(Call, Answer)]) -> bool {
    let lower = elevens(rt, alloc);
    on_storages(rt, alloc, lower, elevens(rt, alloc), calls)
}

/// The calls on such an image above one of the bytes 1 to 8.
fn on(rt: &impl Abort, alloc: Global, calls: &[(Call, Answer)]) {
    let done = on_once(rt, alloc, calls) || on_once(rt, alloc, calls);
    assert!(rt; done, "memory was refused twice");
}

/// Above the bytes 1 to 8.
static WRITES: [(Call, Answer); 8] = [
    (Call::Map(0, 8, "1/0:0x0/ro"), Answer::Length(8)),
    (Call::Read(0, &[1, 2, 3, 4, 5, 6, 7, 8]), DONE),
    (Call::Write(3, &[0xaa, 0xbb]), DONE),
    (Call::Map(0, 8, "0/0:0x0/rw"), Answer::Length(8)),
    (Call::Read(0, &[1, 2, 3, 0xaa, 0xbb, 6, 7, 8]), DONE),
    (Call::Write(7, &[0xcc]), DONE),
    (Call::Read(0, &[1, 2, 3, 0xaa, 0xbb, 6, 7, 0xcc]), DONE),
    (Call::ReadBelow(0, &[1, 2, 3, 4, 5, 6, 7, 8]), DONE),
];

fn check_a_first_write_copies_what_is_below(rt: &impl Abort, alloc: Global) {
    on(rt, alloc, &WRITES);
}

#[test]
fn a_first_write_copies_what_is_below(rt: HostRuntime) {
    check_a_first_write_copies_what_is_below(&rt, rt.alloc());
}

/// Prepares 3 bytes at 2, and writes 8 and 9 from the second of them on.
macro_rules! eight_nine {
    ($commits:expr) => {
        Call::Prepare {
            offset: 2,
            count: 3,
            overwrite: false,
            at: 1,
            bytes: &[8, 9],
            commits: $commits,
        }
    };
}

/// Above the same.
static SPENT: [(Call, Answer); 6] = [
    (eight_nine!(false), Answer::Prepared(3, true)),
    (Call::Map(0, 8, "1/0:0x0/ro"), Answer::Length(8)),
    (Call::Read(0, &[1, 2, 3, 4, 5, 6, 7, 8]), DONE),
    (eight_nine!(true), Answer::Prepared(3, true)),
    (Call::Map(0, 8, "0/0:0x0/rw"), Answer::Length(8)),
    (Call::Read(0, &[1, 2, 3, 8, 9, 6, 7, 8]), DONE),
];

fn check_a_commit_shows_and_a_cancel_does_not(rt: &impl Abort, alloc: Global) {
    on(rt, alloc, &SPENT);
}

#[test]
fn a_commit_shows_and_a_cancel_does_not(rt: HostRuntime) {
    check_a_commit_shows_and_a_cancel_does_not(&rt, rt.alloc());
}

/// Prepares 3 bytes at 2, for overwriting or not, and writes 8 and 9 from the first of them on.
macro_rules! two_of_three {
    ($overwrite:expr, $commits:expr) => {
        Call::Prepare {
            offset: 2,
            count: 3,
            overwrite: $overwrite,
            at: 0,
            bytes: &[8, 9],
            commits: $commits,
        }
    };
}

/// Above the same, as a list.
static LISTED: [(Call, Answer); 6] = [
    (two_of_three!(true, false), Answer::Prepared(3, true)),
    (Call::Read(0, &[1, 2, 3, 4, 5, 6, 7, 8]), DONE),
    (two_of_three!(false, true), Answer::Prepared(3, true)),
    (Call::Read(0, &[1, 2, 8, 9, 5, 6, 7, 8]), DONE),
    (two_of_three!(false, false), Answer::Prepared(3, false)),
    (Call::MapData(1, 7, false), Answer::Data(0, 1, 7)),
];

/// Runs the calls as a list. Answers whether there was memory for it.
fn listed_on<S: Storage>(
    rt: &impl Abort,
    alloc: Global,
    lower: S,
    upper: S,
    calls: &[(Call, Answer)],
) -> bool {
    let lower = (copying(lower), COUNTED.as_slice());
    run_two(rt, alloc, lower, copying(upper), calls)
}

/// The same in memory.
fn listed_once(rt: &impl Abort, alloc: Global, calls: &[(Call, Answer)]) -> bool {
    let lower = elevens(rt, alloc);
    listed_on(rt, alloc, lower, elevens(rt, alloc), calls)
}

/// Runs the calls as a list.
fn listed(rt: &impl Abort, alloc: Global, calls: &[(Call, Answer)]) {
    let done = listed_once(rt, alloc, calls) || listed_once(rt, alloc, calls);
    assert!(rt; done, "memory was refused twice");
}

#[test]
fn a_list_commits_and_cancels(rt: HostRuntime) {
    listed(&rt, rt.alloc(), &LISTED);
}

/// Above the same: the driver offers no zero calls and no discards. An empty range makes none.
static NOT_GIVEN: [(Call, Answer); 17] = [
    (Call::Give(Give::EnsureZero, 2, 3), NOT_OFFERED),
    (Call::Give(Give::DiscardToZero, 2, 3), NOT_OFFERED),
    (Call::Give(Give::DiscardToAny, 2, 3), NOT_OFFERED),
    (Call::Give(Give::DiscardToBacking, 2, 3), NOT_OFFERED),
    (Call::Map(0, 8, "1/0:0x0/ro"), Answer::Length(8)),
    (Call::Read(0, &[1, 2, 3, 4, 5, 6, 7, 8]), DONE),
    (Call::Give(Give::EnsureZero, 8, 0), DONE),
    (Call::Give(Give::DiscardToAny, 8, 0), DONE),
    // the same once all is copied
    (Call::Write(3, &[0xaa]), DONE),
    (Call::Give(Give::EnsureZero, 0, 8), NOT_OFFERED),
    (Call::Give(Give::DiscardToZero, 0, 8), NOT_OFFERED),
    (Call::Give(Give::DiscardToAny, 0, 8), NOT_OFFERED),
    (Call::Give(Give::DiscardToBacking, 0, 8), NOT_OFFERED),
    (Call::Map(0, 8, "0/0:0x0/rw"), Answer::Length(8)),
    (Call::Read(0, &[1, 2, 3, 0xaa, 5, 6, 7, 8]), DONE),
    (Call::Give(Give::DiscardToZero, 8, 0), DONE),
    (Call::Give(Give::DiscardToBacking, 8, 0), DONE),
];

/// Above the same: the storage has the bytes of before.
static NOT_TOUCHED: [(Call, Answer); 7] = [
    (Call::Give(Give::EnsureZero, 0, 8), NOT_OFFERED),
    (Call::Give(Give::DiscardToZero, 0, 8), NOT_OFFERED),
    (Call::Give(Give::DiscardToAny, 0, 8), NOT_OFFERED),
    (Call::Give(Give::DiscardToBacking, 0, 8), NOT_OFFERED),
    (Call::Look(driver::Call::Stored(0, 0, &[0x11; 8])), DONE),
    (
        Call::Look(driver::Call::StorageLength(0)),
        Answer::Length(8),
    ),
    (Call::ReadBelow(0, &[1, 2, 3, 4, 5, 6, 7, 8]), DONE),
];

fn check_what_a_driver_does_not_offer_is_refused(rt: &impl Abort, alloc: Global) {
    on(rt, alloc, &NOT_GIVEN);
    listed(rt, alloc, &NOT_GIVEN);
    on(rt, alloc, &NOT_TOUCHED);
}

#[test]
fn what_a_driver_does_not_offer_is_refused(rt: HostRuntime) {
    check_what_a_driver_does_not_offer_is_refused(&rt, rt.alloc());
}

/// The call, and whether the driver is asked to prepare a mapping for overwriting.
static ASKED: [(Call, Answer, bool); 5] = [
    (Call::Write(3, &[1]), DONE, true),
    (Call::MapData(2, 3, false), Answer::Data(0, 2, 3), false),
    (Call::MapData(2, 3, true), Answer::Data(0, 2, 3), true),
    (
        Call::Prepare {
            offset: 2,
            count: 3,
            overwrite: false,
            at: 0,
            bytes: &[7],
            commits: true,
        },
        Answer::Prepared(3, false),
        false,
    ),
    (
        Call::Prepare {
            offset: 2,
            count: 3,
            overwrite: true,
            at: 0,
            bytes: &[7],
            commits: false,
        },
        Answer::Prepared(3, false),
        true,
    ),
];

/// Whether the driver was last asked to prepare a mapping for overwriting.
fn last_asked<S: Storage>(image: &FormatAccess<CopyOnce<S>>) -> Option<bool> {
    image.inner().overwrites()
}

/// Makes a call. Answers what the driver was asked last.
fn asked_by<S: Storage>(
    rt: &impl Abort,
    alloc: Global,
    image: &mut FormatAccess<CopyOnce<S>>,
    call: (Call, Answer),
) -> Option<bool> {
    script(rt, alloc, image, &[call]);
    last_asked(&*image)
}

/// Makes those calls, and looks at what the driver is asked.
fn are_asked<S: Storage>(
    rt: &impl Abort,
    alloc: Global,
    image: &mut FormatAccess<CopyOnce<S>>,
    asked: &[(Call, Answer, bool)],
) {
    assert_eq!(rt; last_asked(&*image), None);
    for &(call, answer, overwrites) in asked {
        assert_eq!(rt;
            asked_by(rt, alloc, image, (call, answer)),
            Some(overwrites)
        );
    }
}

/// The same of an image above one of the bytes 1 to 8. Answers whether there was memory for both.
fn is_told<S: Storage>(rt: &impl Abort, alloc: Global, lower: S, upper: S) -> bool {
    let lower = (copying(lower), COUNTED.as_slice());
    match two(rt, alloc, lower, copying(upper)) {
        Some(mut image) => {
            are_asked(rt, alloc, &mut image, &ASKED);
            true
        }
        None => false,
    }
}

/// The same in memory.
fn is_told_once(rt: &impl Abort, alloc: Global) -> bool {
    let lower = elevens(rt, alloc);
    is_told(rt, alloc, lower, elevens(rt, alloc))
}

#[test]
fn a_driver_is_told_whether_bytes_are_overwritten(rt: HostRuntime) {
    let alloc = rt.alloc();
    assert!(rt; is_told_once(&rt, alloc) || is_told_once(&rt, alloc));
}

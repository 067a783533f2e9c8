// SPDX-License-Identifier: MIT
//! What of an image's and a driver's calls reaches the storage.
use super::answer::Answer;
use super::driver::Give;
use super::image::{Call, on_raw};
use super::runs::run_raw;
use super::set_up::{in_blocks, runs, stored};
use super::{driver, faults};
use imago_drivers::drivers::PreallocateMode;
use imago_storage::error::Error;
use imago_storage::mem::MemStorage;
use imago_storage::storage;
use imago_test_storages::faulty::{Faulty, Tear};
use imago_test_storages::recording::{Recorded, Recording};
use std::alloc::Global;
use std::process::Abort;

const DONE: Answer = Answer::Done;

const DEVICE: Answer = Answer::Refused(Error::Device);

/// The bytes of a storage.
pub(super) const OLD: [(usize, u8); 1] = [(20000, 0xa5)];

/// A storage of these bytes in blocks of 4096.
fn blocks(rt: &impl Abort, alloc: Global) -> MemStorage {
    in_blocks(rt, stored(rt, alloc, &OLD), 4096)
}

/// The same, which records its calls.
fn recording(rt: &impl Abort, alloc: Global) -> Recording {
    Recording::new(blocks(rt, alloc))
}

/// Makes the calls on a writable raw image over a storage that records, which is lent to it. Where
/// one was refused for memory they are made on another storage, so that each call is made once.
/// Answers the storage.
fn on(rt: &impl Abort, alloc: Global, calls: &[(Call, Answer)]) -> Recording {
    let mut storage = recording(rt, alloc);
    if on_raw(rt, alloc, &mut storage, true, calls) {
        storage = recording(rt, alloc);
        assert!(rt;
            !on_raw(rt, alloc, &mut storage, true, calls),
            "memory was refused twice"
        );
    }
    storage
}

/// Runs the calls as a list. Answers whether there was memory for it.
fn run_on(
    rt: &impl Abort,
    alloc: Global,
    storage: &mut Recording,
    calls: &[(Call, Answer)],
) -> bool {
    run_raw(rt, alloc, storage, true, calls)
}

/// The same as a list.
fn listed(rt: &impl Abort, alloc: Global, calls: &[(Call, Answer)]) -> Recording {
    let mut storage = recording(rt, alloc);
    if !run_on(rt, alloc, &mut storage, calls) {
        storage = recording(rt, alloc);
        assert!(rt;
            run_on(rt, alloc, &mut storage, calls),
            "memory was refused twice"
        );
    }
    storage
}

/// These calls reached the storage, and no other.
fn was_reached(rt: &impl Abort, storage: &Recording, expected: &[Recorded]) {
    assert_eq!(rt; storage.calls(), expected);
}

/// A storage has these bytes, and no other.
fn are_left(rt: &impl Abort, bytes: &[u8], expected: &[u8]) {
    assert!(rt; bytes == expected, "other bytes are left");
}

/// In blocks of 4096: only the aligned part of a range is discarded.
static CALLS: [(Call, Answer); 12] = [
    (Call::Drive(driver::Call::Flush), DONE),
    (Call::Drive(driver::Call::Sync), DONE),
    (Call::Drive(driver::Call::Invalidate), DONE),
    (
        Call::Drive(driver::Call::Give(Give::DiscardToAny, 1000, 9000)),
        Answer::Part(4096, 4096),
    ),
    (
        Call::Drive(driver::Call::Give(Give::DiscardToAny, 1000, 7000)),
        Answer::Part(1000, 0),
    ),
    (
        Call::Drive(driver::Call::Grow(20001, PreallocateMode::None)),
        DONE,
    ),
    (
        Call::Drive(driver::Call::Grow(20002, PreallocateMode::Zero)),
        DONE,
    ),
    (
        Call::Drive(driver::Call::Grow(20003, PreallocateMode::FormatAllocate)),
        DONE,
    ),
    (
        Call::Drive(driver::Call::Grow(20004, PreallocateMode::FullAllocate)),
        DONE,
    ),
    (
        Call::Drive(driver::Call::Grow(20005, PreallocateMode::WriteData)),
        DONE,
    ),
    (
        Call::Drive(driver::Call::Grow(20005, PreallocateMode::Zero)),
        DONE,
    ),
    (Call::Drive(driver::Call::Shrink(5)), DONE),
];

/// What reaches the storage.
static REACHED: [Recorded; 10] = [
    Recorded::Flush,
    Recorded::Sync,
    Recorded::Invalidate,
    Recorded::Discard(4096, 4096),
    Recorded::Resize(20001, storage::PreallocateMode::None),
    Recorded::Resize(20002, storage::PreallocateMode::Zero),
    Recorded::Resize(20003, storage::PreallocateMode::Zero),
    Recorded::Resize(20004, storage::PreallocateMode::Allocate),
    Recorded::Resize(20005, storage::PreallocateMode::WriteData),
    Recorded::Resize(5, storage::PreallocateMode::None),
];

fn check_calls_of_a_driver_reach_its_storage(rt: &impl Abort, alloc: Global) {
    was_reached(rt, &on(rt, alloc, &CALLS), &REACHED);
}

#[test]
fn calls_of_a_driver_reach_its_storage(rt: HostRuntime) {
    check_calls_of_a_driver_reach_its_storage(&rt, rt.alloc());
}

static FLUSHES: [(Call, Answer); 4] = [
    (Call::Flush, DONE),
    (Call::Sync, DONE),
    (Call::Sync, DONE),
    (Call::Invalidate, DONE),
];

static FLUSHED: [Recorded; 4] = [
    Recorded::Flush,
    Recorded::Sync,
    Recorded::Sync,
    Recorded::Invalidate,
];

#[test]
fn flushes_of_an_image_and_of_a_run_reach_the_storage(rt: HostRuntime) {
    let alloc = rt.alloc();
    was_reached(&rt, &on(&rt, alloc, &FLUSHES), &FLUSHED);
    was_reached(&rt, &listed(&rt, alloc, &FLUSHES), &FLUSHED);
}

/// A call on an image of such a storage, what it answers, what it makes of the storage, and the
/// bytes that it leaves.
pub(super) type Row = (Call, Answer, &'static [Recorded], &'static [(usize, u8)]);

/// Makes the call of each row, which makes these calls, and no other.
pub(super) fn each_reaches(rt: &impl Abort, alloc: Global, rows: &[Row]) {
    for &(call, answer, reached, left) in rows {
        let storage = on(rt, alloc, &[(call, answer)]);
        was_reached(rt, &storage, reached);
        are_left(rt, storage.as_bytes(), &runs(rt, alloc, left));
    }
}

/// Such a storage whose device fails at that call, behind so many, and leaves nothing of it. No
/// device fails at a flush.
fn failing(rt: &impl Abort, alloc: Global, call: Recorded, pass: u64) -> Option<Faulty> {
    let mut storage = Faulty::new(blocks(rt, alloc));
    match call {
        Recorded::Read(_, _)
        | Recorded::Write(_, _)
        | Recorded::Zero(_, _, _)
        | Recorded::Discard(_, _) => storage.arm(pass, Tear::Nothing),
        Recorded::Resize(_, _) => storage.refuse_resizes(1),
        Recorded::Flush | Recorded::Sync | Recorded::Settle | Recorded::Invalidate => return None,
    }
    Some(storage)
}

/// Puts the bytes of a range of other ones in their place.
fn put(bytes: &mut [u8], (offset, count): (u64, u64), other: &[u8]) {
    let end = offset.saturating_add(count);
    for (i, byte) in bytes.iter_mut().enumerate() {
        let is_inside = offset <= i as u64 && (i as u64) < end;
        if let (true, Some(new)) = (is_inside, other.get(i)) {
            *byte = *new;
        }
    }
}

/// The bytes once these calls of a row are made, and no other: what they write is as all of the row
/// leaves it.
fn left_by(rt: &impl Abort, alloc: Global, calls: &[Recorded], left: &[(usize, u8)]) -> Vec<u8> {
    let mut bytes = runs(rt, alloc, &OLD);
    let left = runs(rt, alloc, left);
    for &call in calls {
        match call {
            Recorded::Write(offset, count) | Recorded::Zero(offset, count, _) => {
                put(&mut bytes, (offset, count), &left);
            }
            _ => {}
        }
    }
    bytes
}

/// Makes a call on a writable raw image over such a storage, which is lent to it: the device fails
/// once. Answers whether there was memory for it.
fn fails(rt: &impl Abort, alloc: Global, storage: &mut Faulty, call: Call) -> bool {
    if faults::on(rt, alloc, &mut *storage, &[(call, DEVICE)]) {
        return false;
    }
    assert_eq!(rt; storage.faults(), 1);
    true
}

/// Makes the call of a row where the device fails behind so many of its calls: it is refused, and
/// makes no other. Answers whether there was memory for it.
fn stops(rt: &impl Abort, alloc: Global, row: &Row, pass: usize) -> bool {
    let (call, _, reached, left) = *row;
    let (Some(made), Some(&failed)) = (reached.get(..pass), reached.get(pass)) else {
        return true;
    };
    let Some(mut storage) = failing(rt, alloc, failed, pass as u64) else {
        return true;
    };
    let done = fails(rt, alloc, &mut storage, call);
    if done {
        are_left(rt, storage.as_bytes(), &left_by(rt, alloc, made, left));
    }
    done
}

/// Makes the call of each row where the device fails at each of its calls in turn.
pub(super) fn each_stops(rt: &impl Abort, alloc: Global, rows: &[Row]) {
    for row in rows {
        for pass in 0..row.2.len() {
            let done = stops(rt, alloc, row, pass) || stops(rt, alloc, row, pass);
            assert!(rt; done, "memory was refused twice");
        }
    }
}

/// Prepares a range, writes bytes from its beginning on, and commits or cancels it.
macro_rules! prepared {
    (($offset:expr, $count:expr), $bytes:expr, $commits:expr) => {
        Call::Prepare {
            offset: $offset,
            count: $count,
            overwrite: false,
            at: 0,
            bytes: $bytes,
            commits: $commits,
        }
    };
}

/// Writes: the first and the last block are read where they are written in part, and whole blocks
/// are written at once.
static WRITES: [Row; 8] = [
    (
        Call::WriteRun(1000, 9000, 0x3c),
        DONE,
        &[
            Recorded::Read(0, 4096),
            Recorded::Write(0, 4096),
            Recorded::Write(4096, 4096),
            Recorded::Read(8192, 4096),
            Recorded::Write(8192, 4096),
        ],
        &[(1000, 0xa5), (9000, 0x3c), (10000, 0xa5)],
    ),
    (
        Call::WriteRun(4095, 4096, 0x3c),
        DONE,
        &[
            Recorded::Read(0, 4096),
            Recorded::Write(0, 4096),
            Recorded::Read(4096, 4096),
            Recorded::Write(4096, 4096),
        ],
        &[(4095, 0xa5), (4096, 0x3c), (11809, 0xa5)],
    ),
    (
        Call::WriteRun(4096, 4097, 0x3c),
        DONE,
        &[
            Recorded::Write(4096, 4096),
            Recorded::Read(8192, 4096),
            Recorded::Write(8192, 4096),
        ],
        &[(4096, 0xa5), (4097, 0x3c), (11807, 0xa5)],
    ),
    (
        Call::WriteRun(9999, 1, 0x3c),
        DONE,
        &[Recorded::Read(8192, 4096), Recorded::Write(8192, 4096)],
        &[(9999, 0xa5), (1, 0x3c), (10000, 0xa5)],
    ),
    (
        Call::WriteRun(4096, 8192, 0x3c),
        DONE,
        &[Recorded::Write(4096, 8192)],
        &[(4096, 0xa5), (8192, 0x3c), (7712, 0xa5)],
    ),
    (
        prepared!((1000, 9000), &[0x3c; 5000], true),
        Answer::Prepared(9000, false),
        &[
            Recorded::Read(0, 4096),
            Recorded::Write(0, 4096),
            Recorded::Read(4096, 4096),
            Recorded::Write(4096, 4096),
        ],
        &[(1000, 0xa5), (5000, 0x3c), (14000, 0xa5)],
    ),
    (
        prepared!((4096, 9000), &[0x3c; 8192], false),
        Answer::Prepared(9000, false),
        &[Recorded::Write(4096, 8192)],
        &[(4096, 0xa5), (8192, 0x3c), (7712, 0xa5)],
    ),
    (
        Call::MapData(1000, 9000, false),
        Answer::Data(0, 1000, 9000),
        &[],
        &OLD,
    ),
];

#[test]
fn an_image_reads_only_blocks_that_are_partly_written(rt: HostRuntime) {
    each_reaches(&rt, rt.alloc(), &WRITES);
}

#[test]
fn a_write_stops_where_its_storage_fails(rt: HostRuntime) {
    each_stops(&rt, rt.alloc(), &WRITES);
}

/// A growth to one byte more, and how the storage grows.
macro_rules! grown {
    ($call:ident, $mode:ident, $grown:ident) => {
        (
            Call::$call(20001, PreallocateMode::$mode),
            DONE,
            &[Recorded::Resize(20001, storage::PreallocateMode::$grown)],
            &[(20000, 0xa5), (1, 0)],
        )
    };
}

/// A call that makes the disk shorter, which is one cut.
macro_rules! cut {
    ($call:expr) => {
        (
            $call,
            DONE,
            &[Recorded::Resize(5, storage::PreallocateMode::None)],
            &[(5, 0xa5)],
        )
    };
}

/// A call that is passed on, or does nothing.
macro_rules! kept {
    ($call:expr, $calls:expr) => {
        ($call, DONE, $calls, &OLD)
    };
}

static SIZES: [Row; 14] = [
    grown!(Grow, None, None),
    grown!(Grow, Zero, Zero),
    grown!(Grow, FormatAllocate, Zero),
    grown!(Grow, FullAllocate, Allocate),
    grown!(Grow, WriteData, WriteData),
    grown!(Resize, FullAllocate, Allocate),
    cut!(Call::Resize(5, PreallocateMode::WriteData)),
    cut!(Call::Shrink(5)),
    kept!(Call::Grow(20000, PreallocateMode::Zero), &[]),
    kept!(Call::Resize(20000, PreallocateMode::Zero), &[]),
    kept!(Call::Shrink(20000), &[]),
    kept!(Call::Flush, &[Recorded::Flush]),
    kept!(Call::Sync, &[Recorded::Sync]),
    kept!(Call::Invalidate, &[Recorded::Invalidate]),
];

#[test]
fn each_resize_and_flush_is_one_call(rt: HostRuntime) {
    each_reaches(&rt, rt.alloc(), &SIZES);
}

#[test]
fn a_refused_resize_is_made_once(rt: HostRuntime) {
    each_stops(&rt, rt.alloc(), &SIZES);
}

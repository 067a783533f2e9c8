// SPDX-License-Identifier: MIT
//! An image over a storage that doesn't tell its bytes: the first byte that each pure read gives is
//! the complement of the one that stands there. Its calls, refusals, sizes and positions are those
//! of an image over the same bytes in memory.
//!
//! Where a part of a block is written, the rest of the block is written back as it was read.
use super::answer::Answer;
use super::driver;
use super::driver::Give;
use super::image::{Call, on_raw};
use super::reached::OLD;
use super::set_up::{in_blocks, runs, stored};
use imago_drivers::drivers::PreallocateMode;
use imago_storage::error::Error;
use imago_storage::storage;
use imago_storage::storage::ZeroKind;
use imago_test_storages::forgetful::Forgetful;
use imago_test_storages::recording::{Recorded, Recording};
use std::alloc::Global;
use std::process::Abort;

const DONE: Answer = Answer::Done;

/// A storage of bytes a5 in blocks of 4096 that records its calls.
fn recording(rt: &impl Abort, alloc: Global) -> Recording {
    Recording::new(in_blocks(rt, stored(rt, alloc, &OLD), 4096))
}

/// Makes the calls on a writable raw image over that storage, whose reads can't be relied on.
/// Answers whether any was made again.
fn make_on(
    rt: &impl Abort,
    alloc: Global,
    storage: &mut Recording,
    calls: &[(Call, Answer)],
) -> bool {
    on_raw(rt, alloc, Forgetful::new(storage), true, calls)
}

/// The same on a new storage. Where one was refused for memory they are made on another one, so
/// that each call is made once. Answers the storage.
fn on(rt: &impl Abort, alloc: Global, calls: &[(Call, Answer)]) -> Recording {
    let mut storage = recording(rt, alloc);
    if make_on(rt, alloc, &mut storage, calls) {
        storage = recording(rt, alloc);
        assert!(rt;
            !make_on(rt, alloc, &mut storage, calls),
            "memory was refused twice"
        );
    }
    storage
}

/// Calls that change nothing, and what each answers.
static ASKED: [(Call, Answer); 7] = [
    (Call::Size, Answer::Length(20000)),
    (Call::Aligns, Answer::Aligns(4096, 4096)),
    (Call::MapAlone(1000, 9000), Answer::Raw(0, 1000, 9000)),
    (
        Call::Map(1000, 90000, "0/0:0x3e8/rw"),
        Answer::Length(19000),
    ),
    (Call::MapData(1000, 9000, true), Answer::Data(0, 1000, 9000)),
    // three reads: of a first block, of whole ones, and of a last one
    (
        Call::ReadRuns(
            1000,
            &[
                (3096, 0xa5),
                (1, 0x5a),
                (4095, 0xa5),
                (1, 0x5a),
                (1807, 0xa5),
            ],
        ),
        DONE,
    ),
    (Call::Read(19999, &[0xa5, 0, 0]), DONE),
];

/// A call that changes the disk, what it answers, what it makes of the storage, and the bytes that
/// it leaves there.
type Row = (Call, Answer, &'static [Recorded], &'static [(usize, u8)]);

static CHANGES: [Row; 6] = [
    (
        Call::WriteRun(1000, 9000, 0x3c),
        DONE,
        &[
            Recorded::Read(0, 4096),
            Recorded::Write(0, 4096),
            Recorded::Write(4096, 4096),
            Recorded::Read(8192, 4096),
            Recorded::Write(8192, 4096),
        ],
        &[(1, 0x5a), (999, 0xa5), (9000, 0x3c), (10000, 0xa5)],
    ),
    (
        Call::WriteRun(4096, 8192, 0x3c),
        DONE,
        &[Recorded::Write(4096, 8192)],
        &[(4096, 0xa5), (8192, 0x3c), (7712, 0xa5)],
    ),
    (
        Call::Give(Give::EnsureZero, 4096, 4096),
        DONE,
        &[Recorded::Zero(4096, 4096, ZeroKind::Any)],
        &[(4096, 0xa5), (4096, 0), (11808, 0xa5)],
    ),
    (
        Call::Give(Give::DiscardToAny, 1000, 9000),
        DONE,
        &[Recorded::Discard(4096, 4096)],
        &[(20000, 0xa5)],
    ),
    (
        Call::Resize(20005, PreallocateMode::WriteData),
        DONE,
        &[Recorded::Resize(20005, storage::PreallocateMode::WriteData)],
        &[(20000, 0xa5), (5, 0)],
    ),
    // past the disk
    (
        Call::WriteRun(19999, 2, 0x3c),
        Answer::Refused(Error::BeyondDisk),
        &[],
        &[(20000, 0xa5)],
    ),
];

/// Three calls, and what the image tells of itself then.
static GROWN: [(Call, Answer); 6] = [
    (Call::Flush, DONE),
    (Call::Grow(20480, PreallocateMode::Zero), DONE),
    (Call::Size, Answer::Length(20480)),
    (
        Call::Look(driver::Call::StorageLength(0)),
        Answer::Length(20480),
    ),
    (Call::Sync, DONE),
    (Call::MapAlone(20479, 9), Answer::Raw(0, 20479, 1)),
];

static REACHED: [Recorded; 3] = [
    Recorded::Flush,
    Recorded::Resize(20480, storage::PreallocateMode::Zero),
    Recorded::Sync,
];

/// These calls reached the storage, and no other, and it has these bytes.
fn is_left(
    rt: &impl Abort,
    alloc: Global,
    storage: &Recording,
    reached: &[Recorded],
    left: &[(usize, u8)],
) {
    assert_eq!(rt; storage.calls(), reached);
    let bytes = runs(rt, alloc, left);
    assert!(rt;
        storage.as_bytes() == bytes.as_slice(),
        "other bytes are left"
    );
}

fn check_an_image_over_untold_bytes(rt: &impl Abort, alloc: Global) {
    is_left(rt, alloc, &on(rt, alloc, &ASKED), &[], &OLD);
    for &(call, answer, reached, left) in &CHANGES {
        is_left(rt, alloc, &on(rt, alloc, &[(call, answer)]), reached, left);
    }
    let left = [(20000, 0xa5), (480, 0)];
    is_left(rt, alloc, &on(rt, alloc, &GROWN), &REACHED, &left);
}

#[test]
fn an_image_over_untold_bytes(rt: HostRuntime) {
    check_an_image_over_untold_bytes(&rt, rt.alloc());
}

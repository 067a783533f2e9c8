// SPDX-License-Identifier: MIT
//! Drivers of raw images in memory.
use super::answer::Answer;
use super::driver::{Call, Give, on_raw};
use super::set_up::{runs, stored, storing};
use imago_drivers::drivers::{FormatDriverInstance, PreallocateMode, PreparedDataMapping, Ticket};
use imago_drivers::layer::LowerLayer;
use imago_drivers::raw::Raw;
use imago_storage::error::Error;
use imago_storage::mem::MemStorage;
use imago_storage::storage::Storage;
use std::alloc::Global;
use std::process::Abort;

const ZERO: PreallocateMode = PreallocateMode::Zero;

/// The calls on a raw image in memory. Answers its storage.
fn on(
    rt: &impl Abort,
    alloc: Global,
    storage: MemStorage,
    writable: bool,
    calls: &[(Call, Answer)],
) -> MemStorage {
    on_raw(rt, alloc, storage, writable, calls)
}

/// The calls on a writable raw image in that storage.
fn on_storage(rt: &impl Abort, alloc: Global, storage: MemStorage, calls: &[(Call, Answer)]) {
    on(rt, alloc, storage, true, calls);
}

/// The calls on a writable raw image of these bytes.
fn on_bytes(rt: &impl Abort, alloc: Global, bytes: &[u8], calls: &[(Call, Answer)]) {
    on(rt, alloc, storing(rt, alloc, bytes), true, calls);
}

/// On the bytes 1 to 4, whether they may be written or not.
static READS: [(Call, Answer); 11] = [
    (Call::Map(2, 6), Answer::Raw(0, 2, 2)),
    (Call::Map(0, 3), Answer::Raw(0, 0, 3)),
    (Call::Map(2, 0), Answer::Raw(0, 2, 0)),
    (Call::Map(4, 1), Answer::Eof),
    (Call::Map(4, 0), Answer::Eof),
    (Call::Map(u64::MAX, 2), Answer::Eof),
    (Call::Read(2, &[3, 4, 0, 0, 0, 0]), Answer::Done),
    // past the disk
    (Call::Read(4, &[0, 0]), Answer::Done),
    (Call::Read(u64::MAX - 2, &[0, 0]), Answer::Done),
    (
        Call::Read(u64::MAX, &[0, 0]),
        Answer::Refused(Error::WrapAround),
    ),
    (Call::Read(u64::MAX, &[]), Answer::Done),
];

#[test]
fn a_disk_of_four_bytes(rt: HostRuntime) {
    let alloc = rt.alloc();
    for writable in [false, true] {
        let storage = on(
            &rt,
            alloc,
            storing(&rt, alloc, &[1, 2, 3, 4]),
            writable,
            &READS,
        );
        let told = [(Call::Writable, Answer::Is(writable))];
        on(&rt, alloc, storage, writable, &told);
    }
}

/// On the bytes 1 to 3.
static PLAIN: [(Call, Answer); 14] = [
    (Call::IsRaw, Answer::Is(true)),
    (Call::Granularity, Answer::Missing),
    (Call::TakesBacking, Answer::Is(false)),
    (Call::HasPrepared, Answer::Is(false)),
    (Call::Size, Answer::Length(3)),
    (Call::StorageCount, Answer::Length(1)),
    (Call::StorageLength(0), Answer::Length(3)),
    (Call::StorageLength(1), Answer::Missing),
    (Call::Collect(&[1, 2, 3]), Answer::Length(1)),
    (Call::Stored(0, 0, &[1, 2, 3]), Answer::Done),
    // any bytes are a raw image, and none are special
    (Call::Probe(0), Answer::Is(true)),
    (
        Call::ReadSpecial(0, &[0; 2]),
        Answer::Refused(Error::Unsupported),
    ),
    (Call::ReadSpecial(0, &[]), Answer::Done),
    (Call::Print("raw[mem:[3B]]"), Answer::Is(true)),
];

fn check_plain_answers(rt: &impl Abort, alloc: Global) {
    on_bytes(rt, alloc, &[1, 2, 3], &PLAIN);
}

#[test]
fn plain_answers(rt: HostRuntime) {
    check_plain_answers(&rt, rt.alloc());
}

#[test]
fn bytes_of_another_format_are_raw_too(rt: HostRuntime) {
    on_bytes(
        &rt,
        rt.alloc(),
        b"KDMV",
        &[(Call::Probe(0), Answer::Is(true))],
    );
}

/// On 10000 bytes a5 in blocks of 4096.
static PADDED: [(Call, Answer); 15] = [
    (Call::MapData(9999, 1, true), Answer::Data(0, 9999, 1)),
    (
        Call::WriteStranger {
            offset: 9999,
            count: 1,
            bytes: &[1],
            commits: true,
        },
        Answer::Done,
    ),
    (Call::Size, Answer::Length(10000)),
    (Call::StorageLength(0), Answer::Length(12288)),
    (Call::Stored(0, 9998, &[0xa5, 1, 0]), Answer::Done),
    // the padding stays
    (Call::Flush, Answer::Done),
    (Call::StorageLength(0), Answer::Length(12288)),
    (Call::Sync, Answer::Done),
    (Call::Invalidate, Answer::Done),
    (Call::StorageLength(0), Answer::Length(12288)),
    (Call::Grow(11000, ZERO), Answer::Done),
    (Call::Size, Answer::Length(11000)),
    (Call::StorageLength(0), Answer::Length(11000)),
    (Call::Stored(0, 9998, &[0xa5, 1, 0]), Answer::Done),
    (Call::Stored(0, 10999, &[0]), Answer::Done),
];

fn check_writes_pad_the_storage_and_growth_cuts_it(rt: &impl Abort, alloc: Global) {
    let storage = stored(rt, alloc, &[(10000, 0xa5)]).with_align(4096);
    on_storage(rt, alloc, storage, &PADDED);
}

#[test]
fn writes_pad_the_storage_and_growth_cuts_it(rt: HostRuntime) {
    check_writes_pad_the_storage_and_growth_cuts_it(&rt, rt.alloc());
}

/// On the bytes 1 to 3 in blocks of a MiB.
static LONG_BLOCK: [(Call, Answer); 8] = [
    (
        Call::Prepare {
            offset: 1,
            count: 1,
            overwrite: true,
            at: 0,
            bytes: &[0xff],
            commits: true,
        },
        Answer::Prepared(1, false),
    ),
    (Call::Size, Answer::Length(3)),
    (Call::StorageLength(0), Answer::Length(1048576)),
    (Call::Stored(0, 0, &[1, 0xff, 3, 0, 0]), Answer::Done),
    (Call::Grow(5, ZERO), Answer::Done),
    (Call::Size, Answer::Length(5)),
    (Call::StorageLength(0), Answer::Length(5)),
    (Call::Stored(0, 0, &[1, 0xff, 3, 0, 0]), Answer::Done),
];

#[test]
fn an_alignment_longer_than_the_disk(rt: HostRuntime) {
    let alloc = rt.alloc();
    let storage = storing(&rt, alloc, &[1, 2, 3]).with_align(1048576);
    on_storage(&rt, alloc, storage, &LONG_BLOCK);
}

/// On the bytes 1 to 4.
static SIZES: [(Call, Answer); 14] = [
    (Call::Shrink(2), Answer::Done),
    (Call::Size, Answer::Length(2)),
    (Call::StorageLength(0), Answer::Length(2)),
    (Call::Stored(0, 0, &[1, 2]), Answer::Done),
    (Call::Grow(4, ZERO), Answer::Done),
    (Call::Stored(0, 0, &[1, 2, 0, 0]), Answer::Done),
    // the size is so already
    (Call::Grow(1, ZERO), Answer::Done),
    (Call::Shrink(9), Answer::Done),
    (Call::Size, Answer::Length(4)),
    // no memory can hold that
    (Call::Grow(u64::MAX, ZERO), Answer::Refused(Error::Memory)),
    (Call::Size, Answer::Length(4)),
    (Call::StorageLength(0), Answer::Length(4)),
    (Call::Stored(0, 0, &[1, 2, 0, 0]), Answer::Done),
    (Call::Print("raw[mem:[4B]]"), Answer::Is(true)),
];

fn check_a_shrink_and_a_growth(rt: &impl Abort, alloc: Global) {
    on_bytes(rt, alloc, &[1, 2, 3, 4], &SIZES);
}

#[test]
fn a_shrink_and_a_growth(rt: HostRuntime) {
    check_a_shrink_and_a_growth(&rt, rt.alloc());
}

/// On 4 bytes ff that have grown to 6.
static GROWN: [(Call, Answer); 5] = [
    (Call::Size, Answer::Length(6)),
    (Call::StorageLength(0), Answer::Length(6)),
    (
        Call::Stored(0, 0, &[0xff, 0xff, 0xff, 0xff, 0, 0]),
        Answer::Done,
    ),
    (Call::Give(Give::DiscardToBacking, 0, 4), Answer::Part(0, 4)),
    (Call::Stored(0, 0, &[0; 6]), Answer::Done),
];

fn check_new_bytes_of_a_raw_image_are_zero_in_each_mode(rt: &impl Abort, alloc: Global) {
    for mode in [
        PreallocateMode::Zero,
        PreallocateMode::FormatAllocate,
        PreallocateMode::FullAllocate,
        PreallocateMode::WriteData,
    ] {
        let growth = [(Call::Grow(6, mode), Answer::Done)];
        let storage = on(rt, alloc, storing(rt, alloc, &[0xff; 4]), true, &growth);
        on_storage(rt, alloc, storage, &GROWN);
    }
}

#[test]
fn new_bytes_of_a_raw_image_are_zero_in_each_mode(rt: HostRuntime) {
    check_new_bytes_of_a_raw_image_are_zero_in_each_mode(&rt, rt.alloc());
}

/// On 16 bytes ff, whose storage zeroes blocks of 8.
static BLOCKS: [(Call, Answer); 10] = [
    (
        Call::Give(Give::DiscardToBacking, 3, 13),
        Answer::Part(8, 8),
    ),
    (Call::Stored(0, 0, &[0xff; 8]), Answer::Done),
    (Call::Stored(0, 8, &[0; 8]), Answer::Done),
    (Call::Give(Give::EnsureZero, 1, 6), Answer::Part(1, 0)),
    (Call::Stored(0, 0, &[0xff; 8]), Answer::Done),
    (Call::Give(Give::DiscardToZero, 0, 8), Answer::Part(0, 8)),
    (Call::Stored(0, 0, &[0; 16]), Answer::Done),
    (Call::Give(Give::DiscardToAny, 2, 3), Answer::Part(2, 3)),
    (Call::Stored(0, 0, &[0; 2]), Answer::Done),
    (Call::Stored(0, 5, &[0; 11]), Answer::Done),
];

fn check_only_the_aligned_part_is_zeroed(rt: &impl Abort, alloc: Global) {
    let bytes = runs(rt, alloc, &[(16, 0xff)]);
    let storage = MemStorage::new(bytes).with_zero_align(8);
    on_storage(rt, alloc, storage, &BLOCKS);
}

#[test]
fn only_the_aligned_part_is_zeroed(rt: HostRuntime) {
    check_only_the_aligned_part_is_zeroed(&rt, rt.alloc());
}

#[test]
fn a_zero_call_of_one_byte_blocks(rt: HostRuntime) {
    let alloc = rt.alloc();
    for call in [Give::DiscardToZero, Give::EnsureZero] {
        let calls = [
            (Call::Give(call, 2, 3), Answer::Part(2, 3)),
            (
                Call::Stored(0, 0, &[0xff, 0xff, 0, 0, 0, 0xff, 0xff, 0xff]),
                Answer::Done,
            ),
        ];
        on_bytes(&rt, alloc, &[0xff; 8], &calls);
    }
}

/// On 1024 zeroes.
static NOTHING: [(Call, Answer); 8] = [
    (Call::Give(Give::EnsureZero, 1024, 0), Answer::Part(1024, 0)),
    (
        Call::Give(Give::DiscardToZero, 1024, 0),
        Answer::Part(1024, 0),
    ),
    (
        Call::Give(Give::DiscardToAny, 1024, 0),
        Answer::Part(1024, 0),
    ),
    (
        Call::Give(Give::DiscardToBacking, 1024, 0),
        Answer::Part(1024, 0),
    ),
    (Call::MapData(0, 0, true), Answer::Length(0)),
    (Call::MapData(1024, 0, true), Answer::Length(0)),
    (Call::Size, Answer::Length(1024)),
    (Call::StorageLength(0), Answer::Length(1024)),
];

fn check_ranges_of_nothing_at_the_end(rt: &impl Abort, alloc: Global) {
    on_storage(rt, alloc, stored(rt, alloc, &[(1024, 0)]), &NOTHING);
}

#[test]
fn ranges_of_nothing_at_the_end(rt: HostRuntime) {
    check_ranges_of_nothing_at_the_end(&rt, rt.alloc());
}

/// On 8 zeroes.
static PREPARED: [(Call, Answer); 6] = [
    (
        Call::Prepare {
            offset: 2,
            count: 4,
            overwrite: false,
            at: 0,
            bytes: &[0xaa, 0xbb],
            commits: false,
        },
        Answer::Prepared(4, false),
    ),
    (
        Call::Stored(0, 0, &[0, 0, 0xaa, 0xbb, 0, 0, 0, 0]),
        Answer::Done,
    ),
    (
        Call::Prepare {
            offset: 2,
            count: 4,
            overwrite: false,
            at: 2,
            bytes: &[0xcc, 0xdd],
            commits: false,
        },
        Answer::Prepared(4, false),
    ),
    (
        Call::Stored(0, 0, &[0, 0, 0xaa, 0xbb, 0xcc, 0xdd, 0, 0]),
        Answer::Done,
    ),
    (
        Call::Prepare {
            offset: 2,
            count: 4,
            overwrite: false,
            at: 0,
            bytes: &[1, 2, 3, 4],
            commits: true,
        },
        Answer::Prepared(4, false),
    ),
    (Call::Stored(0, 0, &[0, 0, 1, 2, 3, 4, 0, 0]), Answer::Done),
];

#[test]
fn a_prepared_mapping_takes_what_fits(rt: HostRuntime) {
    on_bytes(&rt, rt.alloc(), &[0; 8], &PREPARED);
}

/// A write into four bytes from there on that weren't prepared.
macro_rules! stranger {
    ($offset:expr, $bytes:expr, $commits:expr) => {
        Call::WriteStranger {
            offset: $offset,
            count: 4,
            bytes: $bytes,
            commits: $commits,
        }
    };
}

const FOREIGN: Answer = Answer::Refused(Error::ForeignMapping);

/// On 8 zeroes. A mapping without a state is spent all the same.
static STRANGERS: [(Call, Answer); 7] = [
    (stranger!(100, &[1], false), FOREIGN),
    (stranger!(100, &[1], true), FOREIGN),
    (stranger!(100, &[], true), FOREIGN),
    (stranger!(5, &[1], true), FOREIGN),
    (stranger!(4, &[], true), Answer::Done),
    (Call::Stored(0, 0, &[0; 8]), Answer::Done),
    (Call::StorageLength(0), Answer::Length(8)),
];

/// On 8 zeroes that may not be written.
static READ_ONLY: [(Call, Answer); 3] = [
    (stranger!(0, &[1], false), FOREIGN),
    (stranger!(0, &[], true), FOREIGN),
    (Call::Stored(0, 0, &[0; 8]), Answer::Done),
];

/// Commits a mapping with a state that wasn't prepared, which is refused. Answers the storage.
fn commit_stranger<S: Storage>(rt: &impl Abort, storage: S) -> S {
    let mut raw = Raw::open_image(storage, true).expect(rt, "a raw image");
    let refused = raw.commit_data_mapping(PreparedDataMapping::to_commit(0, 0, 4, Ticket::new(1)));
    assert_eq!(rt; refused, Err(Error::ForeignMapping));
    raw.into_inner()
}

fn check_foreign_mappings(rt: &impl Abort, alloc: Global) {
    let storage = commit_stranger(rt, storing(rt, alloc, &[0; 8]));
    on_storage(rt, alloc, storage, &STRANGERS);
    on(rt, alloc, storing(rt, alloc, &[0; 8]), false, &READ_ONLY);
}

#[test]
fn foreign_mappings(rt: HostRuntime) {
    check_foreign_mappings(&rt, rt.alloc());
}

/// On four zeroes.
static MAPPED: [(Call, Answer); 2] = [
    (Call::WriteMapped(1, &[0xaa, 0xbb]), Answer::Done),
    (Call::Stored(0, 0, &[0, 0xaa, 0xbb, 0]), Answer::Done),
];

fn check_mapped_writes(rt: &impl Abort, alloc: Global) {
    let storage = on(rt, alloc, storing(rt, alloc, &[0; 4]), true, &MAPPED);
    assert_eq!(rt; storage.as_bytes(), [0, 0xaa, 0xbb, 0].as_slice());
}

#[test]
fn mapped_writes(rt: HostRuntime) {
    check_mapped_writes(&rt, rt.alloc());
}

/// What is below a driver has no bytes, and is read as zeroes.
fn has_no_bytes<B: LowerLayer>(rt: &impl Abort, alloc: Global, below: &B) {
    let mut buf = [1; 4];
    assert_eq!(rt; below.size(), 0);
    assert_eq!(rt; below.read(alloc, &mut buf, 3), Ok(()));
    assert_eq!(rt; buf, [0; 4]);
}

fn check_no_layer_has_no_bytes(rt: &impl Abort, alloc: Global) {
    has_no_bytes(rt, alloc, &());
}

#[test]
fn no_layer_has_no_bytes(rt: HostRuntime) {
    check_no_layer_has_no_bytes(&rt, rt.alloc());
}

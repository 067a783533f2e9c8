// SPDX-License-Identifier: MIT
//! Images of raw drivers in memory.
use super::answer::Answer;
use super::driver;
use super::driver::Give;
use super::image::{Call, above, alone, on_raw, on_two, script};
use super::runs::{by_run, run_raw};
use super::set_up::{in_blocks, printed, stored, storing};
use imago_access::access::FormatAccess;
use imago_access::mapping::Mapping;
use imago_drivers::drivers::{FormatDriverInstance, PreallocateMode, PreparedDataMapping, Ticket};
use imago_drivers::layer::LowerLayer;
use imago_drivers::raw::Raw;
use imago_storage::error::Error;
use imago_storage::mem::MemStorage;
use imago_storage::storage::Storage;
use std::alloc::Global;
use std::process::Abort;

const ZERO: PreallocateMode = PreallocateMode::Zero;

const NONE: PreallocateMode = PreallocateMode::None;

const BEYOND: Answer = Answer::Refused(Error::BeyondDisk);

const READ_ONLY: Answer = Answer::Refused(Error::ReadOnly);

const FOREIGN: Answer = Answer::Refused(Error::ForeignMapping);

/// The calls on the raw image that a storage in memory is.
fn on(
    rt: &impl Abort,
    alloc: Global,
    storage: MemStorage,
    writable: bool,
    calls: &[(Call, Answer)],
) {
    on_raw(rt, alloc, storage, writable, calls);
}

/// The raw image that a storage is.
fn raw_of<S: Storage>(rt: &impl Abort, storage: S, writable: bool) -> Raw<S> {
    Raw::open_image(storage, writable).expect(rt, "a raw image")
}

/// The calls on a writable raw image in that storage.
pub(super) fn on_storage(
    rt: &impl Abort,
    alloc: Global,
    storage: MemStorage,
    calls: &[(Call, Answer)],
) {
    on(rt, alloc, storage, true, calls);
}

/// The calls on a writable raw image of these bytes.
pub(super) fn on_bytes(rt: &impl Abort, alloc: Global, bytes: &[u8], calls: &[(Call, Answer)]) {
    on(rt, alloc, storing(rt, alloc, bytes), true, calls);
}

/// The calls on a raw image of these bytes that may not be written.
pub(super) fn on_read_only(rt: &impl Abort, alloc: Global, bytes: &[u8], calls: &[(Call, Answer)]) {
    on(rt, alloc, storing(rt, alloc, bytes), false, calls);
}

/// Runs the calls as a list on a raw image of these bytes. Answers whether there was memory for it.
fn run_once(
    rt: &impl Abort,
    alloc: Global,
    (bytes, writable): (&[u8], bool),
    calls: &[(Call, Answer)],
) -> bool {
    run_raw(rt, alloc, storing(rt, alloc, bytes), writable, calls)
}

/// Runs the calls as a list on a raw image of these bytes.
fn run_on_bytes(
    rt: &impl Abort,
    alloc: Global,
    (bytes, writable): (&[u8], bool),
    calls: &[(Call, Answer)],
) {
    let done = run_once(rt, alloc, (bytes, writable), calls)
        || run_once(rt, alloc, (bytes, writable), calls);
    assert!(rt; done, "memory was refused twice");
}

/// On 16 zeroes.
static WRITES: [(Call, Answer); 5] = [
    (Call::Size, Answer::Length(16)),
    (Call::Write(3, &[1, 2]), Answer::Done),
    (Call::Read(0, &[0, 0, 0, 1, 2, 0]), Answer::Done),
    (Call::Writev(15, &[3]), Answer::Done),
    (Call::Readv(14, &[0, 3, 0]), Answer::Done),
];

fn check_what_is_written_is_read(rt: &impl Abort, alloc: Global) {
    on_bytes(rt, alloc, &[0; 16], &WRITES);
}

#[test]
fn what_is_written_is_read(rt: HostRuntime) {
    check_what_is_written_is_read(&rt, rt.alloc());
}

/// On the bytes 1 to 4 that may not be written.
static KEPT: [(Call, Answer); 10] = [
    (Call::Read(2, &[3, 4, 0, 0, 0, 0]), Answer::Done),
    (Call::Read(u64::MAX, &[0, 0]), Answer::Done),
    (Call::Write(0, &[]), READ_ONLY),
    (Call::Write(u64::MAX, &[9]), READ_ONLY),
    (Call::Resize(4, NONE), READ_ONLY),
    (Call::Grow(4, NONE), READ_ONLY),
    (Call::Shrink(4), READ_ONLY),
    (Call::Flush, Answer::Done),
    (Call::Size, Answer::Length(4)),
    (Call::Read(0, &[1, 2, 3, 4]), Answer::Done),
];

/// On the same.
static KEPT_STRANGER: [(Call, Answer); 1] = [(
    Call::WriteStranger {
        offset: 0,
        count: 4,
        bytes: &[1],
        commits: false,
    },
    FOREIGN,
)];

/// On the same, also as a list.
static KEPT_MAPPINGS: [(Call, Answer); 3] = [
    (
        Call::Prepare {
            offset: 2,
            count: 4,
            overwrite: false,
            at: 0,
            bytes: &[1],
            commits: true,
        },
        READ_ONLY,
    ),
    (Call::MapData(0, 4, true), READ_ONLY),
    (Call::Read(0, &[1, 2, 3, 4]), Answer::Done),
];

fn check_a_read_only_image_is_kept(rt: &impl Abort, alloc: Global) {
    on_read_only(rt, alloc, &[1, 2, 3, 4], &KEPT);
    on_read_only(rt, alloc, &[1, 2, 3, 4], &KEPT_STRANGER);
    on_read_only(rt, alloc, &[1, 2, 3, 4], &KEPT_MAPPINGS);
    run_on_bytes(rt, alloc, (&[1, 2, 3, 4], false), &KEPT_MAPPINGS);
    run_on_bytes(rt, alloc, (&[1, 2, 3, 4], false), &KEPT);
}

#[test]
fn a_read_only_image_is_kept(rt: HostRuntime) {
    check_a_read_only_image_is_kept(&rt, rt.alloc());
}

/// On the bytes 1 to 4.
static PAST_THE_END: [(Call, Answer); 5] = [
    (Call::Write(u64::MAX, &[9]), BEYOND),
    (Call::Write(3, &[8, 9]), BEYOND),
    (Call::Write(5, &[]), BEYOND),
    (Call::Write(4, &[]), Answer::Done),
    (Call::Read(0, &[1, 2, 3, 4, 0]), Answer::Done),
];

#[test]
fn a_write_past_the_end_changes_nothing(rt: HostRuntime) {
    let alloc = rt.alloc();
    on_bytes(&rt, alloc, &[1, 2, 3, 4], &PAST_THE_END);
    run_on_bytes(&rt, alloc, (&[1, 2, 3, 4], true), &PAST_THE_END);
}

/// On 8 zeroes, also as a list.
static PREPARED: [(Call, Answer); 9] = [
    (
        Call::Prepare {
            offset: 2,
            count: 4,
            overwrite: false,
            at: 0,
            bytes: &[0xaa, 0xbb],
            commits: false,
        },
        Answer::Prepared(4, false),
    ),
    (Call::Read(0, &[0, 0, 0xaa, 0xbb, 0, 0, 0, 0]), Answer::Done),
    // what doesn't fit isn't written
    (
        Call::Prepare {
            offset: 2,
            count: 4,
            overwrite: false,
            at: 0,
            bytes: &[1, 2, 3, 4, 5],
            commits: true,
        },
        Answer::Prepared(4, false),
    ),
    (Call::Read(0, &[0, 0, 1, 2, 3, 4, 0, 0]), Answer::Done),
    (
        Call::Prepare {
            offset: 6,
            count: 3,
            overwrite: true,
            at: 0,
            bytes: &[9],
            commits: true,
        },
        BEYOND,
    ),
    (Call::MapData(5, 2, true), Answer::Data(0, 5, 2)),
    (Call::MapData(7, 2, false), BEYOND),
    (Call::MapData(8, 0, false), Answer::Length(0)),
    (Call::Read(2, &[1, 2, 3, 4]), Answer::Done),
];

/// On 8 zeroes.
static STRANGERS: [(Call, Answer); 3] = [
    (
        Call::WriteStranger {
            offset: 100,
            count: 4,
            bytes: &[1],
            commits: false,
        },
        FOREIGN,
    ),
    (
        Call::WriteStranger {
            offset: 100,
            count: 4,
            bytes: &[],
            commits: true,
        },
        FOREIGN,
    ),
    (
        Call::Look(driver::Call::StorageLength(0)),
        Answer::Length(8),
    ),
];

/// Commits a mapping with a state that wasn't prepared, which is refused. Nothing has changed then.
fn commit_stranger<D: FormatDriverInstance<State = Ticket>>(
    rt: &impl Abort,
    alloc: Global,
    driver: D,
    calls: &[(Call, Answer)],
) {
    let mut image = alone(driver);
    let refused = image.commit_data_mapping(PreparedDataMapping::to_commit(
        0,
        0,
        4,
        Ticket::new(1),
    ));
    assert_eq!(rt; refused, Err(Error::ForeignMapping));
    script(rt, alloc, &mut image, calls);
}

/// The same on a writable raw image.
fn commit_stranger_to<S: Storage>(
    rt: &impl Abort,
    alloc: Global,
    storage: S,
    calls: &[(Call, Answer)],
) {
    commit_stranger(rt, alloc, raw_of(rt, storage, true), calls);
}

/// On 8 zeroes, as they were.
static EIGHT: [(Call, Answer); 1] = [(Call::Read(0, &[0; 8]), Answer::Done)];

fn check_data_mappings(rt: &impl Abort, alloc: Global) {
    on_bytes(rt, alloc, &[0; 8], &PREPARED);
    run_on_bytes(rt, alloc, (&[0; 8], true), &PREPARED);
    on_bytes(rt, alloc, &[0; 8], &STRANGERS);
}

#[test]
fn data_mappings(rt: HostRuntime) {
    check_data_mappings(&rt, rt.alloc());
}

fn check_a_mapping_that_was_not_prepared_is_not_committed(rt: &impl Abort, alloc: Global) {
    commit_stranger_to(rt, alloc, storing(rt, alloc, &[0; 8]), &EIGHT);
}

#[test]
fn a_mapping_that_was_not_prepared_is_not_committed(rt: HostRuntime) {
    check_a_mapping_that_was_not_prepared_is_not_committed(&rt, rt.alloc());
}

/// On the bytes 1 to 4.
static SIZES: [(Call, Answer); 25] = [
    (Call::Shrink(2), Answer::Done),
    (Call::Grow(4, ZERO), Answer::Done),
    (Call::Read(0, &[1, 2, 0, 0]), Answer::Done),
    (Call::Grow(1, ZERO), Answer::Done),
    (Call::Shrink(9), Answer::Done),
    (Call::Size, Answer::Length(4)),
    (Call::Read(0, &[1, 2, 0, 0]), Answer::Done),
    (Call::Write(0, &[1, 2, 3, 4]), Answer::Done),
    (Call::Resize(3, ZERO), Answer::Done),
    (Call::Size, Answer::Length(3)),
    (Call::Read(0, &[1, 2, 3, 0, 0]), Answer::Done),
    (Call::Resize(5, ZERO), Answer::Done),
    (Call::Size, Answer::Length(5)),
    (Call::Read(0, &[1, 2, 3, 0, 0]), Answer::Done),
    (Call::Resize(5, ZERO), Answer::Done),
    (Call::Size, Answer::Length(5)),
    (Call::Read(0, &[1, 2, 3, 0, 0]), Answer::Done),
    (Call::Resize(1, ZERO), Answer::Done),
    (Call::Size, Answer::Length(1)),
    (Call::Read(0, &[1, 0, 0, 0, 0]), Answer::Done),
    (Call::Resize(4, ZERO), Answer::Done),
    // no memory can hold that
    (Call::Grow(u64::MAX, ZERO), Answer::Refused(Error::Memory)),
    (Call::Resize(u64::MAX, ZERO), Answer::Refused(Error::Memory)),
    (Call::Size, Answer::Length(4)),
    (Call::Read(0, &[1, 0, 0, 0, 0]), Answer::Done),
];

/// On the same.
static STORED: [(Call, Answer); 3] = [
    (Call::Grow(u64::MAX, ZERO), Answer::Refused(Error::Memory)),
    (
        Call::Look(driver::Call::StorageLength(0)),
        Answer::Length(4),
    ),
    (
        Call::Look(driver::Call::Stored(0, 0, &[1, 2, 3, 4])),
        Answer::Done,
    ),
];

fn check_resizes(rt: &impl Abort, alloc: Global) {
    on_bytes(rt, alloc, &[1, 2, 3, 4], &SIZES);
    on_bytes(rt, alloc, &[1, 2, 3, 4], &STORED);
    run_on_bytes(rt, alloc, (&[1, 2, 3, 4], true), &SIZES);
}

#[test]
fn resizes(rt: HostRuntime) {
    check_resizes(&rt, rt.alloc());
}

/// On 10000 bytes a5 in blocks of 4096.
static PADDED: [(Call, Answer); 11] = [
    (Call::Write(9999, &[1]), Answer::Done),
    (Call::Read(9998, &[0xa5, 1, 0]), Answer::Done),
    (Call::Size, Answer::Length(10000)),
    (
        Call::Look(driver::Call::StorageLength(0)),
        Answer::Length(12288),
    ),
    (Call::Flush, Answer::Done),
    (Call::Invalidate, Answer::Done),
    (
        Call::Look(driver::Call::StorageLength(0)),
        Answer::Length(12288),
    ),
    (Call::Grow(11000, ZERO), Answer::Done),
    (Call::Read(9999, &[1, 0, 0]), Answer::Done),
    (Call::Size, Answer::Length(11000)),
    (
        Call::Look(driver::Call::StorageLength(0)),
        Answer::Length(11000),
    ),
];

fn check_growth_cuts_what_a_write_padded(rt: &impl Abort, alloc: Global) {
    let storage = stored(rt, alloc, &[(10000, 0xa5)]).with_align(4096);
    on_storage(rt, alloc, storage, &PADDED);
}

#[test]
fn growth_cuts_what_a_write_padded(rt: HostRuntime) {
    check_growth_cuts_what_a_write_padded(&rt, rt.alloc());
}

/// On the bytes 1 to 3 in blocks of any length. The storage is at least one block long once it was
/// written.
static SHORT: [(Call, Answer); 12] = [
    (Call::Write(1, &[2]), Answer::Done),
    (
        Call::Look(driver::Call::StorageLength(0)),
        Answer::Length(3),
    ),
    (Call::Write(1, &[0xff]), Answer::Done),
    (Call::Read(0, &[1, 0xff, 3, 0]), Answer::Done),
    (Call::Size, Answer::Length(3)),
    (Call::Give(Give::EnsureZero, 2, 1), Answer::Done),
    (Call::Give(Give::DiscardToZero, 0, 1), Answer::Done),
    (Call::Give(Give::DiscardToAny, 1, 0), Answer::Done),
    (Call::Read(0, &[0, 0xff, 0, 0]), Answer::Done),
    (Call::Grow(5, ZERO), Answer::Done),
    (Call::Read(0, &[0, 0xff, 0, 0, 0, 0]), Answer::Done),
    (
        Call::Look(driver::Call::StorageLength(0)),
        Answer::Length(5),
    ),
];

#[test]
fn a_disk_below_one_block_of_any_length(rt: HostRuntime) {
    let alloc = rt.alloc();
    let mut calls = SHORT;
    let mut align: usize = 1;
    for _ in 0..21 {
        calls[1].1 = Answer::Length((align as u64).max(3));
        let storage = in_blocks(&rt, storing(&rt, alloc, &[1, 2, 3]), align);
        on_storage(&rt, alloc, storage, &calls);
        align = align.saturating_mul(2);
    }
}

/// On the bytes 1 to 4.
static CUT: [(Call, Answer); 9] = [
    (Call::Map(1, 2, "0/0:0x1/rw"), Answer::Length(2)),
    (Call::Map(1, 100, "0/0:0x1/rw"), Answer::Length(3)),
    (Call::Map(4, 100, "<eof>"), Answer::Length(0)),
    (Call::MapAlone(1, 2), Answer::Raw(0, 1, 2)),
    (Call::MapAlone(1, 100), Answer::Raw(0, 1, 3)),
    (Call::MapAlone(4, 100), Answer::Eof),
    // a map of nothing
    (Call::Map(1, 0, "0/0:0x1/rw"), Answer::Length(0)),
    (Call::MapAlone(1, 0), Answer::Raw(0, 1, 0)),
    (Call::Print("raw[mem:[4B]]"), Answer::Is(true)),
];

fn check_mappings_are_cut_to_what_was_asked(rt: &impl Abort, alloc: Global) {
    on_bytes(rt, alloc, &[1, 2, 3, 4], &CUT);
}

#[test]
fn mappings_are_cut_to_what_was_asked(rt: HostRuntime) {
    check_mappings_are_cut_to_what_was_asked(&rt, rt.alloc());
}

/// On 4 zeroes, as a list.
static LISTED: [(Call, Answer); 15] = [
    (Call::Write(3, &[1, 2]), BEYOND),
    (Call::Write(1, &[1, 2]), Answer::Done),
    (Call::Read(0, &[0, 1, 2, 0, 0, 0]), Answer::Done),
    (Call::Map(1, 100, "0/0:0x1/rw"), Answer::Length(3)),
    (Call::Shrink(2), Answer::Done),
    (Call::Size, Answer::Length(2)),
    (Call::Grow(4, ZERO), Answer::Done),
    (Call::Read(0, &[0, 1, 0, 0]), Answer::Done),
    (Call::Resize(1, ZERO), Answer::Done),
    (Call::Flush, Answer::Done),
    (Call::Sync, Answer::Done),
    (Call::Invalidate, Answer::Done),
    (Call::Size, Answer::Length(1)),
    (Call::Map(1, 1, "<eof>"), Answer::Length(0)),
    (Call::Read(0, &[]), Answer::Done),
];

fn check_each_call_has_its_reply(rt: &impl Abort, alloc: Global) {
    run_on_bytes(rt, alloc, (&[0; 4], true), &LISTED);
}

#[test]
fn each_call_has_its_reply(rt: HostRuntime) {
    check_each_call_has_its_reply(&rt, rt.alloc());
}

/// On the bytes 1 to 4 that may not be written. There is no memory for that buffer.
static REFUSED: [(Call, Answer); 4] = [
    (Call::ReadLong(0, u64::MAX), Answer::Refused(Error::Memory)),
    (Call::Write(0, &[9]), READ_ONLY),
    (Call::Size, Answer::Length(4)),
    (Call::Read(0, &[1, 2, 3, 4]), Answer::Done),
];

/// Runs the calls three times on one image. At most one of the runs has no memory, and the replies
/// of the others are kept.
fn run_thrice<D: FormatDriverInstance>(
    rt: &impl Abort,
    alloc: Global,
    driver: D,
    calls: &[(Call, Answer)],
) {
    let mut image = alone(driver);
    let mut replies = Vec::new(alloc);
    let mut done: usize = 0;
    for _ in 0..3 {
        if by_run(rt, alloc, &mut image, calls, &mut replies) {
            done = done.saturating_add(1);
        }
    }
    assert!(rt; done >= 2 && replies.len() >= 8);
}

/// The same on a raw image that may not be written.
fn run_thrice_on<S: Storage>(rt: &impl Abort, alloc: Global, storage: S, calls: &[(Call, Answer)]) {
    run_thrice(rt, alloc, raw_of(rt, storage, false), calls);
}

fn check_a_run_appends_and_goes_on_after_a_refusal(rt: &impl Abort, alloc: Global) {
    run_thrice_on(rt, alloc, storing(rt, alloc, &[1, 2, 3, 4]), &REFUSED);
}

#[test]
fn a_run_appends_and_goes_on_after_a_refusal(rt: HostRuntime) {
    check_a_run_appends_and_goes_on_after_a_refusal(&rt, rt.alloc());
}

/// The size of what is below a driver, and its bytes from the offset on.
fn seen_once<B: LowerLayer>(
    alloc: Global,
    below: &B,
    offset: u64,
) -> Result<(u64, [u8; 3]), Error> {
    let mut buf = [0x77; 3];
    below.read(alloc, &mut buf, offset)?;
    Ok((below.size(), buf))
}

/// The same. What is refused for memory is made again.
fn seen_from_above<B: LowerLayer>(
    alloc: Global,
    below: &B,
    offset: u64,
) -> Result<(u64, [u8; 3]), Error> {
    match seen_once(alloc, below, offset) {
        Err(Error::Memory) => seen_once(alloc, below, offset),
        answer => answer,
    }
}

/// A driver above an image of that storage sees its size, and its last bytes.
fn is_seen<S: Storage>(rt: &impl Abort, alloc: Global, storage: S) {
    let image = alone(raw_of(rt, storage, false));
    let seen = seen_from_above(alloc, &image, 2);
    assert_eq!(rt; seen, Ok((4, [3, 4, 0])));
}

#[test]
fn an_image_is_a_layer_for_a_driver_above_it(rt: HostRuntime) {
    let alloc = rt.alloc();
    is_seen(&rt, alloc, storing(&rt, alloc, &[1, 2, 3, 4]));
}

/// The calls on a raw image above another one that may not be written. Answers whether there was
/// memory for both.
fn above_raw<S: Storage>(
    rt: &impl Abort,
    alloc: Global,
    lower: S,
    (upper, writable): (S, bool),
    calls: &[(Call, Answer)],
) -> bool {
    let lower = raw_of(rt, lower, false);
    on_two(rt, alloc, (lower, &[]), raw_of(rt, upper, writable), calls)
}

/// The same of images in memory.
fn above_mem(
    rt: &impl Abort,
    alloc: Global,
    lower: MemStorage,
    upper: (MemStorage, bool),
    calls: &[(Call, Answer)],
) -> bool {
    above_raw(rt, alloc, lower, upper, calls)
}

/// On 4 bytes ff above 8 bytes 11.
static HIDES: [(Call, Answer); 8] = [
    (Call::Read(2, &[0xff, 0xff, 0, 0, 0, 0]), Answer::Done),
    (Call::Grow(6, PreallocateMode::FullAllocate), Answer::Done),
    (Call::Read(2, &[0xff, 0xff, 0, 0]), Answer::Done),
    // what is given up is zero, as if nothing stood below
    (Call::Give(Give::DiscardToBacking, 0, 4), Answer::Done),
    (Call::Read(0, &[0; 4]), Answer::Done),
    (Call::ReadBelow(0, &[0x11; 8]), Answer::Done),
    (Call::ReadBelow(7, &[0x11, 0]), Answer::Done),
    (Call::Depth, Answer::Length(1)),
];

/// The calls on 4 bytes ff above 8 bytes 11. Answers whether there was memory for both.
fn hides(rt: &impl Abort, alloc: Global) -> bool {
    let lower = storing(rt, alloc, &[0x11; 8]);
    above_mem(
        rt,
        alloc,
        lower,
        (storing(rt, alloc, &[0xff; 4]), true),
        &HIDES,
    )
}

#[test]
fn a_raw_image_hides_what_is_below(rt: HostRuntime) {
    let alloc = rt.alloc();
    assert!(rt; hides(&rt, alloc) || hides(&rt, alloc));
}

/// On the bytes 7 and 8 above 8 bytes 11.
static EXCHANGED: [(Call, Answer); 4] = [
    (Call::Size, Answer::Length(2)),
    (Call::Read(0, &[7, 8, 0]), Answer::Done),
    (Call::ReadBelow(0, &[0x11; 8]), Answer::Done),
    (Call::Depth, Answer::Length(1)),
];

/// Puts another driver in the place of an image's. Answers whether writes are allowed from then on.
fn put<D: FormatDriverInstance>(image: &mut FormatAccess<D>, inner: D) -> bool {
    *image.inner_mut() = inner;
    image.inner().writable()
}

/// Puts another driver, which may not write, in the place of an image's driver, and makes the calls
/// then. Answers whether there was memory for the image.
fn exchange<D: FormatDriverInstance>(
    rt: &impl Abort,
    alloc: Global,
    (lower, upper, other): (D, D, D),
    calls: &[(Call, Answer)],
) -> bool {
    match above(alloc, upper, alone(lower)) {
        Some(mut image) => {
            assert!(rt; !put(&mut image, other));
            script(rt, alloc, &mut image, calls);
            true
        }
        None => false,
    }
}

/// The same of raw images.
fn exchange_raw<S: Storage>(
    rt: &impl Abort,
    alloc: Global,
    (lower, upper, other): (S, S, S),
    calls: &[(Call, Answer)],
) -> bool {
    let lower = raw_of(rt, lower, false);
    let upper = raw_of(rt, upper, true);
    exchange(rt, alloc, (lower, upper, raw_of(rt, other, false)), calls)
}

/// Puts the bytes 7 and 8 in the place of 4 bytes ff above 8 bytes 11. Answers whether there was
/// memory for the image.
fn exchanged(rt: &impl Abort, alloc: Global) -> bool {
    let lower = storing(rt, alloc, &[0x11; 8]);
    let upper = storing(rt, alloc, &[0xff; 4]);
    let other = storing(rt, alloc, &[7, 8]);
    exchange_raw(rt, alloc, (lower, upper, other), &EXCHANGED)
}

#[test]
fn a_driver_that_is_exchanged_shows_its_own_disk(rt: HostRuntime) {
    let alloc = rt.alloc();
    assert!(rt; exchanged(&rt, alloc) || exchanged(&rt, alloc));
}

/// On an image of alignments 64 and 4096 above one of 512 and 8, for requests and for memory.
static ALIGNED: [(Call, Answer); 1] = [(Call::Aligns, Answer::Aligns(512, 4096))];

/// The calls on such an image. Answers whether there was memory for it.
fn aligned(rt: &impl Abort, alloc: Global) -> bool {
    let lower = storing(rt, alloc, &[1]).with_aligns(8, 512);
    let upper = storing(rt, alloc, &[2]).with_aligns(4096, 64);
    above_mem(rt, alloc, lower, (upper, false), &ALIGNED)
}

#[test]
fn alignments_are_the_greatest_of_all_layers(rt: HostRuntime) {
    let alloc = rt.alloc();
    assert!(rt; aligned(&rt, alloc) || aligned(&rt, alloc));
}

/// Mappings, and how each is printed.
static PRINTED: [(Mapping, &str); 6] = [
    (
        Mapping::Raw {
            layer: 1,
            storage: 0,
            offset: 0x600,
            writable: false,
        },
        "1/0:0x600/ro",
    ),
    (
        Mapping::Raw {
            layer: 0,
            storage: 12,
            offset: 0xfffffffffffffe00,
            writable: true,
        },
        "0/12:0xfffffffffffffe00/rw",
    ),
    (Mapping::Zero { explicit: true }, "<zero:explicit>"),
    (Mapping::Zero { explicit: false }, "<zero:unallocated>"),
    (Mapping::Eof, "<eof>"),
    (
        Mapping::Special {
            layer: 1,
            offset: 0x200,
        },
        "<special:1:0x200>",
    ),
];

fn check_mappings_are_printed(rt: &impl Abort, alloc: Global) {
    for &(mapping, text) in &PRINTED {
        assert_eq!(rt; printed(rt, alloc, &mapping).as_str(), text);
        assert_eq!(rt; mapping.is_eof(), text == "<eof>");
    }
}

#[test]
fn mappings_are_printed(rt: HostRuntime) {
    check_mappings_are_printed(&rt, rt.alloc());
}

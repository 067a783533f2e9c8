// SPDX-License-Identifier: MIT
//! Images over a storage that fails at one call.
use super::answer::Answer;
use super::driver;
use super::driver::Give;
use super::image::{Call, on_raw};
use super::runs::run_raw;
use super::set_up::{in_blocks, runs, stored};
use imago_drivers::drivers::PreallocateMode;
use imago_storage::error::Error;
use imago_test_storages::faulty::{Faulty, Tear};
use std::alloc::Global;
use std::process::Abort;

const DONE: Answer = Answer::Done;

const DEVICE: Answer = Answer::Refused(Error::Device);

/// The calls on a writable raw image over a storage that fails, which is lent to it. Answers
/// whether any call was made again.
pub(super) fn on(
    rt: &impl Abort,
    alloc: Global,
    storage: &mut Faulty,
    calls: &[(Call, Answer)],
) -> bool {
    on_raw(rt, alloc, storage, true, calls)
}

/// Runs the calls as a list on such an image. Answers whether there was memory for it.
fn run_on(rt: &impl Abort, alloc: Global, storage: &mut Faulty, calls: &[(Call, Answer)]) -> bool {
    run_raw(rt, alloc, storage, true, calls)
}

/// A storage of runs of equal bytes, whose device doesn't fail yet.
fn faulty(rt: &impl Abort, alloc: Global, given: &[(usize, u8)]) -> Faulty {
    Faulty::new(stored(rt, alloc, given))
}

/// A storage has these bytes, and its device has failed so often.
fn is_left(rt: &impl Abort, storage: &Faulty, bytes: &[u8], faults: u64) {
    assert_eq!(rt; storage.as_bytes(), bytes);
    assert_eq!(rt; storage.faults(), faults);
}

const NONE: PreallocateMode = PreallocateMode::None;

/// The length of the storage.
const LENGTH: Call = Call::Look(driver::Call::StorageLength(0));

/// On 1024 zeroes whose next two resizes are refused.
static SIZES: [(Call, Answer); 12] = [
    (Call::Grow(2048, NONE), DEVICE),
    (Call::Size, Answer::Length(1024)),
    (LENGTH, Answer::Length(1024)),
    (Call::Shrink(512), DEVICE),
    (Call::Size, Answer::Length(1024)),
    (LENGTH, Answer::Length(1024)),
    (Call::Grow(2048, NONE), DONE),
    (Call::Size, Answer::Length(2048)),
    (LENGTH, Answer::Length(2048)),
    (Call::Shrink(512), DONE),
    (Call::Size, Answer::Length(512)),
    (LENGTH, Answer::Length(512)),
];

fn check_a_refused_resize_changes_neither_size(rt: &impl Abort, alloc: Global) {
    let mut storage = faulty(rt, alloc, &[(1024, 0)]);
    storage.refuse_resizes(2);
    on(rt, alloc, &mut storage, &SIZES);
    assert_eq!(rt; storage.faults(), 2);
}

#[test]
fn a_refused_resize_changes_neither_size(rt: HostRuntime) {
    check_a_refused_resize_changes_neither_size(&rt, rt.alloc());
}

/// A storage of 16 bytes ff in blocks of 8 that is armed.
fn armed(rt: &impl Abort, alloc: Global, pass: u64, tear: Tear) -> Faulty {
    let mut storage = Faulty::new(in_blocks(rt, stored(rt, alloc, &[(16, 0xff)]), 8));
    storage.arm(pass, tear);
    storage
}

/// Ten zeroes at 3. The calls are the read and the write of the first block, then those of the
/// last.
const TEN_ZEROES: Call = Call::Write(3, &[0; 10]);

/// The calls that go through, what the next one leaves, the answer, and the bytes that are there.
static STOPS: [(u64, Tear, Answer, [u8; 16]); 5] = [
    (0, Tear::Nothing, DEVICE, [0xff; 16]),
    (
        1,
        Tear::First(4),
        DEVICE,
        [
            0xff, 0xff, 0xff, 0, 0xff, 0xff, 0xff, 0xff, 0xff, 0xff, 0xff, 0xff, 0xff, 0xff, 0xff,
            0xff,
        ],
    ),
    (
        2,
        Tear::Nothing,
        DEVICE,
        [
            0xff, 0xff, 0xff, 0, 0, 0, 0, 0, 0xff, 0xff, 0xff, 0xff, 0xff, 0xff, 0xff, 0xff,
        ],
    ),
    (
        3,
        Tear::Odd,
        DEVICE,
        [
            0xff, 0xff, 0xff, 0, 0, 0, 0, 0, 0xff, 0, 0xff, 0, 0xff, 0xff, 0xff, 0xff,
        ],
    ),
    (
        4,
        Tear::All,
        DONE,
        [
            0xff, 0xff, 0xff, 0, 0, 0, 0, 0, 0, 0, 0, 0, 0, 0xff, 0xff, 0xff,
        ],
    ),
];

fn check_a_write_stops_at_each_call(rt: &impl Abort, alloc: Global) {
    for &(pass, tear, answer, left) in &STOPS {
        let mut storage = armed(rt, alloc, pass, tear);
        on(rt, alloc, &mut storage, &[(TEN_ZEROES, answer)]);
        is_left(rt, &storage, &left, u64::from(answer == DEVICE));
    }
}

#[test]
fn a_write_stops_at_each_call(rt: HostRuntime) {
    check_a_write_stops_at_each_call(&rt, rt.alloc());
}

/// The zero write of 3 MiB ff that is made as data, in pieces of 1 MiB.
static LONG: [(Call, Answer); 1] = [(Call::Give(Give::EnsureZero, 0, 3145728), DEVICE)];

fn check_a_zero_write_stops_in_its_second_piece(rt: &impl Abort, alloc: Global) {
    let mut storage = faulty(rt, alloc, &[(3145728, 0xff)]).without_zero_writes();
    storage.arm(1, Tear::Odd);
    on(rt, alloc, &mut storage, &LONG);
    let mut left = runs(rt, alloc, &[(1048576, 0), (2097152, 0xff)]);
    for (i, byte) in left.iter_mut().enumerate() {
        if i < 2097152 && i % 2 == 1 {
            *byte = 0;
        }
    }
    is_left(rt, &storage, &left, 1);
}

#[test]
fn a_zero_write_stops_in_its_second_piece(rt: HostRuntime) {
    check_a_zero_write_stops_in_its_second_piece(&rt, rt.alloc());
}

/// Where reads fail.
static UNREAD: [(Call, Answer); 3] = [
    (Call::Read(0, &[0; 4]), DEVICE),
    (Call::Write(1, &[1, 2]), DONE),
    (Call::Size, Answer::Length(4)),
];

/// Where they don't any more.
static READ: [(Call, Answer); 4] = [
    (Call::Read(0, &[0xff, 1, 2, 0xff]), DONE),
    (Call::Give(Give::EnsureZero, 0, 2), DONE),
    (Call::Give(Give::DiscardToZero, 3, 1), DONE),
    (Call::Read(0, &[0, 0, 2, 0]), DONE),
];

/// Four bytes ff whose reads fail.
fn unreadable(rt: &impl Abort, alloc: Global) -> Faulty {
    let mut storage = faulty(rt, alloc, &[(4, 0xff)]);
    storage.fail_reads(true);
    storage
}

fn check_a_read_fails_and_a_write_does_not(rt: &impl Abort, alloc: Global) {
    let mut storage = unreadable(rt, alloc);
    on(rt, alloc, &mut storage, &UNREAD);
    storage.fail_reads(false);
    on(rt, alloc, &mut storage, &READ);
    is_left(rt, &storage, &[0, 0, 2, 0], 0);
}

#[test]
fn a_read_fails_and_a_write_does_not(rt: HostRuntime) {
    check_a_read_fails_and_a_write_does_not(&rt, rt.alloc());
}

fn check_a_run_over_failing_reads(rt: &impl Abort, alloc: Global) {
    let mut storage = unreadable(rt, alloc);
    if !run_on(rt, alloc, &mut storage, &UNREAD) {
        storage = unreadable(rt, alloc);
        assert!(rt; run_on(rt, alloc, &mut storage, &UNREAD));
    }
    is_left(rt, &storage, &[0xff, 1, 2, 0xff], 0);
}

#[test]
fn a_run_over_failing_reads(rt: HostRuntime) {
    check_a_run_over_failing_reads(&rt, rt.alloc());
}

/// On 16 bytes ff in blocks of 8. The first write stops in its first block, and the growth is
/// refused.
static LISTED: [(Call, Answer); 9] = [
    (TEN_ZEROES, DEVICE),
    (Call::Read(0, &[0xff, 0xff, 0xff, 0, 0xff, 0xff]), DONE),
    (Call::Write(16, &[0]), Answer::Refused(Error::BeyondDisk)),
    (Call::Grow(32, PreallocateMode::Zero), DEVICE),
    (Call::Size, Answer::Length(16)),
    (TEN_ZEROES, DONE),
    (Call::Shrink(14), DONE),
    (
        Call::Read(2, &[0xff, 0, 0, 0, 0, 0, 0, 0, 0, 0, 0, 0xff, 0, 0]),
        DONE,
    ),
    (Call::Map(1, 100, "0/0:0x1/rw"), Answer::Length(13)),
];

/// Runs those calls. Answers whether there was memory for it.
fn is_listed(rt: &impl Abort, alloc: Global) -> bool {
    let mut storage = armed(rt, alloc, 1, Tear::First(4));
    storage.refuse_resizes(1);
    let done = run_on(rt, alloc, &mut storage, &LISTED);
    if done {
        let left = runs(rt, alloc, &[(3, 0xff), (10, 0), (1, 0xff)]);
        is_left(rt, &storage, &left, 2);
    }
    done
}

#[test]
fn a_run_goes_on_after_refused_calls(rt: HostRuntime) {
    let alloc = rt.alloc();
    assert!(rt; is_listed(&rt, alloc) || is_listed(&rt, alloc));
}

/// On four bytes ff whose reads fail.
static LENT_UNREAD: [(Call, Answer); 1] = [(Call::Drive(driver::Call::Read(3, &[0; 2])), DEVICE)];

/// Where they don't any more.
static LENT: [(Call, Answer); 6] = [
    (Call::Drive(driver::Call::Read(3, &[0xff, 0])), DONE),
    (Call::Drive(driver::Call::HasPrepared), Answer::Is(false)),
    (
        Call::Drive(driver::Call::Give(Give::DiscardToZero, 0, 4)),
        Answer::Part(0, 4),
    ),
    (Call::Drive(driver::Call::Stored(0, 0, &[0; 4])), DONE),
    (
        Call::Drive(driver::Call::Prepare {
            offset: 3,
            count: 1,
            overwrite: true,
            at: 0,
            bytes: &[1],
            commits: true,
        }),
        Answer::Prepared(1, false),
    ),
    (Call::Size, Answer::Length(4)),
];

#[test]
fn a_driver_of_a_storage_that_is_lent(rt: HostRuntime) {
    let alloc = rt.alloc();
    let mut storage = unreadable(&rt, alloc);
    on(&rt, alloc, &mut storage, &LENT_UNREAD);
    storage.fail_reads(false);
    on(&rt, alloc, &mut storage, &LENT);
    is_left(&rt, &storage, &[0, 0, 0, 1], 0);
}

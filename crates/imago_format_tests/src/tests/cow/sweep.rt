// SPDX-License-Identifier: MIT
//! A failure at each call that a change makes of the disk's storage, with each tear, and of the
//! layer below: what it leaves, byte for byte, and that the disk goes on from there.
//!
//! A new call is a row of `RANGES` or `SIZES`.
use super::call::{Answer, Call, InSteps, Level, Step};
use super::run::{MEMORY, Run, is_refusal};
use super::subject::{Disk, Fault, Form, LentDriver, PLAIN, Subject};
use super::trial::{Trial, try_cow};
use imago_drivers::drivers::{FormatDriverInstance, PreallocateMode};
use imago_storage::error::Error;
use imago_test_storages::faulty::{Faulty, Tear};
use std::alloc::Global;
use std::process::Abort;

static TEARS: [Tear; 4] = [Tear::Nothing, Tear::All, Tear::First(3), Tear::Odd];

/// More calls than any change makes of its storage.
const LIMIT: u64 = 200;

/// The size of the disk: five guest blocks of 16, the last of which its end cuts.
const SIZE: u64 = 70;

/// What is done first: the guest block 1 is an explicit zero, 2 and 4 are data, and 0 and 3 lead
/// below. Of the data blocks the first is free, with old bytes.
static FIRST: [Call; 5] = [
    Call::Write(48, 16, 1),
    Call::Write(32, 16, 31),
    Call::Write(64, 6, 61),
    Call::DiscardToBacking(48, 16),
    Call::WriteZeroes(16, 16),
];

/// The last guest block leads below.
const END_BELOW: Call = Call::DiscardToBacking(64, 6);

/// It is an explicit zero.
const END_ZERO: Call = Call::DiscardToZero(64, 6);

/// Nothing is changed.
const NONE: Call = Call::Shrink(SIZE);

/// A range that begins and ends inside a guest block: one that leads below, an explicit zero, data,
/// one that leads below.
const AT: u64 = 10;

const COUNT: u64 = 45;

/// A write in steps of three bytes at the second place of the mapping.
macro_rules! in_steps {
    ($offset:expr, $overwrite:expr, $commits:expr) => {
        Call::Prepare(InSteps {
            offset: $offset,
            count: 9,
            overwrite: $overwrite,
            at: 1,
            written: (3, 0xe0),
            commits: $commits,
        })
    };
}

/// A call, and one that is made before.
pub(super) type Row = (Call, Call);

/// The calls on ranges that an image has and a driver too.
static RANGES: [Row; 17] = [
    (NONE, Call::Write(AT, COUNT, 101)),
    (NONE, Call::WriteZeroes(AT, COUNT)),
    (NONE, Call::DiscardToZero(AT, COUNT)),
    (NONE, Call::DiscardToAny(AT, COUNT)),
    (NONE, Call::DiscardToBacking(AT, COUNT)),
    (NONE, Call::MapData(3, 40, false)),
    (NONE, Call::MapData(3, 4, true)),
    (NONE, Call::MapData(20, 5, false)),
    (NONE, Call::MapData(20, 5, true)),
    (NONE, Call::MapData(35, 5, true)),
    (NONE, in_steps!(3, false, true)),
    (NONE, in_steps!(3, true, true)),
    (NONE, in_steps!(3, false, false)),
    (NONE, in_steps!(20, false, true)),
    (NONE, in_steps!(20, true, false)),
    (NONE, in_steps!(35, false, true)),
    (NONE, in_steps!(35, true, false)),
];

/// The calls that change the size.
static SIZES: [Row; 13] = [
    (NONE, Call::Grow(100, PreallocateMode::None)),
    (NONE, Call::Grow(100, PreallocateMode::Zero)),
    (NONE, Call::Grow(100, PreallocateMode::FormatAllocate)),
    (END_BELOW, Call::Grow(100, PreallocateMode::None)),
    (END_BELOW, Call::Grow(100, PreallocateMode::Zero)),
    (END_BELOW, Call::Grow(100, PreallocateMode::FullAllocate)),
    (END_ZERO, Call::Grow(100, PreallocateMode::None)),
    (END_ZERO, Call::Grow(100, PreallocateMode::Zero)),
    (END_ZERO, Call::Grow(100, PreallocateMode::WriteData)),
    (END_BELOW, Call::Grow(75, PreallocateMode::WriteData)),
    (
        Call::Shrink(5),
        Call::Grow(100, PreallocateMode::FullAllocate),
    ),
    (NONE, Call::Shrink(21)),
    (NONE, Call::Shrink(0)),
];

/// More calls of an image.
static MORE: [Row; 8] = [
    // what lies before the part of a guest block that the layer below is read for
    (NONE, Call::Write(0, 49, 101)),
    // to the disk's end, and whole guest blocks
    (NONE, Call::WriteZeroes(AT, SIZE - AT)),
    (NONE, Call::DiscardToZero(16, 40)),
    (NONE, Call::Write(0, SIZE, 101)),
    (END_BELOW, Call::WriteZeroes(66, 2)),
    (NONE, Call::Resize(100, PreallocateMode::Zero)),
    (NONE, Call::Resize(100, PreallocateMode::FormatAllocate)),
    (NONE, Call::Resize(21, PreallocateMode::Zero)),
];

/// What the disk is used for after each refusal.
static USES: [Call; 3] = [
    Call::Resize(80, PreallocateMode::Zero),
    Call::Write(5, 60, 51),
    Call::WriteZeroes(3, 40),
];

/// A disk on which what is done first has been done, and then that call, where there was memory for
/// it.
fn begun<
    D: FormatDriverInstance<Storage = Faulty> + Disk,
    E: FormatDriverInstance<Storage = Faulty> + LentDriver,
>(rt: &impl Abort, alloc: Global, form: Form, fault: Fault, before: Call) -> Option<Run<D, E>> {
    let mut run = Run::open(rt, alloc, SIZE, form, fault);
    for &call in &FIRST {
        if !run.begin(rt, alloc, call) {
            return None;
        }
    }
    if !run.begin(rt, alloc, before) {
        return None;
    }
    if let Fault::Below = fault {
        run.subject.fail_below(rt, alloc, true);
    }
    Some(run)
}

/// Such a disk.
fn opened<
    D: FormatDriverInstance<Storage = Faulty> + Disk,
    E: FormatDriverInstance<Storage = Faulty> + LentDriver,
>(rt: &impl Abort, alloc: Global, form: Form, fault: Fault, before: Call) -> Run<D, E> {
    match begun(rt, alloc, form, fault, before) {
        Some(run) => run,
        None => begun(rt, alloc, form, fault, before).expect(rt, "memory for a disk"),
    }
}

/// How often the disk's storage fails in what is done first, where there is memory for it.
fn failures<
    D: FormatDriverInstance<Storage = Faulty> + Disk,
    E: FormatDriverInstance<Storage = Faulty> + LentDriver,
>(rt: &impl Abort, alloc: Global, form: Form, pass: u64) -> Option<u64> {
    let fault = Fault::Storage(pass, Tear::Nothing);
    let mut subject = Subject::<D, E>::open(rt, alloc, SIZE, form, fault);
    for &call in &FIRST {
        if subject.make(rt, alloc, (Level::Image, call)) == MEMORY {
            return None;
        }
    }
    Some(subject.faults(rt))
}

/// How many calls what is done first makes of the disk's storage.
fn made_first<
    D: FormatDriverInstance<Storage = Faulty> + Disk,
    E: FormatDriverInstance<Storage = Faulty> + LentDriver,
>(rt: &impl Abort, alloc: Global, form: Form) -> u64 {
    for pass in 0..LIMIT {
        let failed = match failures::<D, E>(rt, alloc, form, pass) {
            Some(failed) => failed,
            None => failures::<D, E>(rt, alloc, form, pass).expect(rt, "memory for a disk"),
        };
        if failed == 0 {
            return pass;
        }
    }
    rt.abort()
}

/// Makes a call that a fault is waiting for, and answers whether it met the fault. The disk is used
/// on then.
fn is_refused<
    D: FormatDriverInstance<Storage = Faulty> + Disk,
    E: FormatDriverInstance<Storage = Faulty> + LentDriver,
>(rt: &impl Abort, alloc: Global, form: Form, (before, step): (Call, Step), fault: Fault) -> bool {
    let mut run = opened::<D, E>(rt, alloc, form, fault, before);
    let mut answer = run.step(rt, alloc, step);
    if answer == MEMORY {
        run = opened(rt, alloc, form, fault, before);
        answer = run.step(rt, alloc, step);
    }
    if !is_refusal(answer) {
        assert_eq!(rt; run.subject.faults(rt), 0);
        return false;
    }
    assert_eq!(rt; answer, Answer::Refused(Error::Device));
    run.step_on(rt, alloc, step);
    run.on(rt, alloc, &USES);
    run.keeps_below(rt, alloc);
    true
}

/// Makes a call with a failure at each call of the storage, until it meets none.
fn sweep_row<
    D: FormatDriverInstance<Storage = Faulty> + Disk,
    E: FormatDriverInstance<Storage = Faulty> + LentDriver,
>(rt: &impl Abort, alloc: Global, form: Form, row: (Call, Step), first: u64) {
    for &tear in &TEARS {
        for pass in first..LIMIT {
            if !is_refused::<D, E>(rt, alloc, form, row, Fault::Storage(pass, tear)) {
                break;
            }
            assert!(rt; pass < LIMIT - 1, "it fails without an end");
        }
    }
    is_refused::<D, E>(rt, alloc, form, row, Fault::Below);
}

/// The same of each of the rows, over storages with that alignment.
pub(super) fn sweep<
    D: FormatDriverInstance<Storage = Faulty> + Disk,
    E: FormatDriverInstance<Storage = Faulty> + LentDriver,
>(rt: &impl Abort, alloc: Global, (level, align): (Level, usize), rows: &[Row]) {
    let form = Form { align };
    let first = made_first::<D, E>(rt, alloc, form);
    for &(before, call) in rows {
        sweep_row::<D, E>(rt, alloc, form, (before, (level, call)), first);
    }
}

/// Less than a guest block, more, and more than the disk.
static ALIGNS: [usize; 3] = [8, 64, 512];

#[test]
fn calls_of_an_image_on_ranges_fail_anywhere(rt: HostRuntime) {
    try_cow(&rt, rt.alloc(), Trial::Sweep((Level::Image, 1), &RANGES));
}

#[test]
fn calls_of_an_image_in_long_requests_fail_anywhere(rt: HostRuntime) {
    for &align in &ALIGNS {
        try_cow(
            &rt,
            rt.alloc(),
            Trial::Sweep((Level::Image, align), &RANGES),
        );
    }
}

#[test]
fn calls_of_a_driver_on_ranges_fail_anywhere(rt: HostRuntime) {
    try_cow(&rt, rt.alloc(), Trial::Sweep((Level::Driver, 1), &RANGES));
}

#[test]
fn calls_of_a_driver_in_long_requests_fail_anywhere(rt: HostRuntime) {
    for &align in &ALIGNS {
        try_cow(
            &rt,
            rt.alloc(),
            Trial::Sweep((Level::Driver, align), &RANGES),
        );
    }
}

#[test]
fn resizes_of_an_image_fail_anywhere(rt: HostRuntime) {
    for &align in &ALIGNS {
        try_cow(&rt, rt.alloc(), Trial::Sweep((Level::Image, align), &SIZES));
    }
}

#[test]
fn resizes_of_a_driver_fail_anywhere(rt: HostRuntime) {
    try_cow(&rt, rt.alloc(), Trial::Sweep((Level::Driver, 1), &SIZES));
}

#[test]
fn more_calls_of_an_image_fail_anywhere(rt: HostRuntime) {
    for &align in &ALIGNS {
        try_cow(&rt, rt.alloc(), Trial::Sweep((Level::Image, align), &MORE));
    }
}

/// A call that reads the layer below is refused where this fails.
static READS: [Row; 5] = [
    (NONE, Call::Write(AT, COUNT, 101)),
    (NONE, Call::Write(0, 49, 101)),
    (NONE, in_steps!(3, true, true)),
    (NONE, Call::MapData(3, 4, false)),
    (
        Call::Shrink(5),
        Call::Grow(100, PreallocateMode::FullAllocate),
    ),
];

/// One that reads nothing there isn't.
static READS_NOTHING: [Row; 4] = [
    (NONE, Call::Write(0, 48, 101)),
    (NONE, Call::WriteZeroes(16, 48)),
    (NONE, Call::Grow(100, PreallocateMode::Zero)),
    (NONE, in_steps!(20, false, true)),
];

/// Calls are refused where the layer below fails, if they read it.
pub(super) fn fail_below<
    D: FormatDriverInstance<Storage = Faulty> + Disk,
    E: FormatDriverInstance<Storage = Faulty> + LentDriver,
>(rt: &impl Abort, alloc: Global) {
    for &(before, call) in &READS {
        let row = (before, (Level::Image, call));
        assert!(rt; is_refused::<D, E>(rt, alloc, PLAIN, row, Fault::Below));
    }
    for &(before, call) in &READS_NOTHING {
        let row = (before, (Level::Image, call));
        assert!(rt; !is_refused::<D, E>(rt, alloc, PLAIN, row, Fault::Below));
    }
}

#[test]
fn a_layer_below_that_fails_is_told(rt: HostRuntime) {
    try_cow(&rt, rt.alloc(), Trial::Below);
}

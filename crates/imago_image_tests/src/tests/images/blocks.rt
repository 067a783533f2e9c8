// SPDX-License-Identifier: MIT
//! Images over a driver that does one block at a time.
use super::answer::Answer;
use super::driver;
use super::driver::Give;
use super::image::{Call, on_driver};
use super::set_up::stored;
use imago_drivers::raw::Raw;
use imago_storage::storage::Storage;
use imago_test_drivers::choppy::Choppy;
use imago_test_drivers::test_driver::TestDriver;
use std::alloc::Global;
use std::process::Abort;

const DONE: Answer = Answer::Done;

const ZERO: Give = Give::EnsureZero;

const TO_ZERO: Give = Give::DiscardToZero;

const TO_ANY: Give = Give::DiscardToAny;

const TO_BACKING: Give = Give::DiscardToBacking;

/// The calls on an image in blocks of that length, which it tells as its granularity or not.
fn on_storage<S: Storage>(
    rt: &impl Abort,
    alloc: Global,
    storage: S,
    (cut, granular): (u64, bool),
    calls: &[(Call, Answer)],
) {
    let raw = Raw::open_image(storage, true).expect(rt, "a raw image");
    let driver = if granular {
        Choppy::granular(raw, cut)
    } else {
        Choppy::new(raw, cut)
    };
    on_driver(rt, alloc, TestDriver::Choppy(driver), calls);
}

/// The calls on such an image of equal bytes.
fn on(
    rt: &impl Abort,
    alloc: Global,
    (count, byte): (usize, u8),
    (cut, granular): (u64, bool),
    calls: &[(Call, Answer)],
) {
    let storage = stored(rt, alloc, &[(count, byte)]);
    on_storage(rt, alloc, storage, (cut, granular), calls);
}

/// On 16 bytes ff in blocks of 4.
static PIECEWISE: [[(Call, Answer); 3]; 5] = [
    [
        (Call::Map(0, 16, "0/0:0x0/rw"), Answer::Length(4)),
        (Call::Map(7, 2, "0/0:0x7/rw"), Answer::Length(2)),
        (Call::Print("choppy[raw[mem:[16B]]]"), Answer::Is(true)),
    ],
    [
        (Call::Give(ZERO, 1, 14), DONE),
        (Call::ReadRuns(0, &[(1, 0xff), (14, 0), (1, 0xff)]), DONE),
        (Call::Size, Answer::Length(16)),
    ],
    [
        (Call::Give(TO_ZERO, 1, 14), DONE),
        (Call::ReadRuns(0, &[(1, 0xff), (14, 0), (1, 0xff)]), DONE),
        (Call::Size, Answer::Length(16)),
    ],
    [
        (Call::Give(TO_BACKING, 1, 14), DONE),
        (Call::ReadRuns(0, &[(4, 0xff), (8, 0), (4, 0xff)]), DONE),
        (Call::Size, Answer::Length(16)),
    ],
    // what is discarded to any may be anything
    [
        (Call::Give(TO_ANY, 1, 14), DONE),
        (Call::Read(0, &[0xff; 4]), DONE),
        (Call::Read(12, &[0xff; 4]), DONE),
    ],
];

fn check_a_range_is_zeroed_and_discarded_block_by_block(rt: &impl Abort, alloc: Global) {
    for calls in &PIECEWISE {
        on(rt, alloc, (16, 0xff), (4, false), calls);
    }
}

#[test]
fn a_range_is_zeroed_and_discarded_block_by_block(rt: HostRuntime) {
    check_a_range_is_zeroed_and_discarded_block_by_block(&rt, rt.alloc());
}

/// On 1000 bytes 22 in granules of more bytes.
static BELOW_ONE: [(Call, Answer); 4] = [
    (Call::Give(ZERO, 10, 10), DONE),
    (Call::ReadRuns(0, &[(10, 0x22), (10, 0), (980, 0x22)]), DONE),
    (Call::Give(ZERO, 0, 1000), DONE),
    (Call::ReadRuns(0, &[(1024, 0)]), DONE),
];

/// On 1000 bytes 22 in granules of 64.
static GRANULES: [[(Call, Answer); 2]; 6] = [
    [
        (Call::Give(ZERO, 70, 200), DONE),
        (
            Call::ReadRuns(0, &[(70, 0x22), (200, 0), (730, 0x22)]),
            DONE,
        ),
    ],
    // none is whole
    [
        (Call::Give(TO_ZERO, 70, 100), DONE),
        (
            Call::ReadRuns(0, &[(70, 0x22), (100, 0), (830, 0x22)]),
            DONE,
        ),
    ],
    // the last one ends with the disk
    [
        (Call::Give(ZERO, 950, 30), DONE),
        (Call::ReadRuns(0, &[(950, 0x22), (30, 0), (20, 0x22)]), DONE),
    ],
    [
        (Call::Give(ZERO, 970, 30), DONE),
        (Call::ReadRuns(0, &[(970, 0x22), (30, 0)]), DONE),
    ],
    [
        (Call::Give(TO_BACKING, 950, 50), DONE),
        (Call::ReadRuns(0, &[(960, 0x22), (40, 0)]), DONE),
    ],
    [
        (Call::Give(TO_BACKING, 70, 200), DONE),
        (
            Call::ReadRuns(0, &[(128, 0x22), (128, 0), (744, 0x22)]),
            DONE,
        ),
    ],
];

fn check_a_granule_is_not_zeroed_past_the_range(rt: &impl Abort, alloc: Global) {
    on(rt, alloc, (1000, 0x22), (65536, true), &BELOW_ONE);
    for calls in &GRANULES {
        on(rt, alloc, (1000, 0x22), (64, true), calls);
    }
}

#[test]
fn a_granule_is_not_zeroed_past_the_range(rt: HostRuntime) {
    check_a_granule_is_not_zeroed_past_the_range(&rt, rt.alloc());
}

/// On 16 bytes ff in blocks of 4, and on 14 where these are granules.
static PARTS: [(Call, Answer); 7] = [
    (Call::Drive(driver::Call::Granularity), Answer::Missing),
    (Call::Drive(driver::Call::Map(1, 100)), Answer::Raw(0, 1, 4)),
    (
        Call::Drive(driver::Call::Give(ZERO, 1, 14)),
        Answer::Part(4, 4),
    ),
    (
        Call::Drive(driver::Call::Give(TO_ZERO, 8, 8)),
        Answer::Part(8, 4),
    ),
    (
        Call::Drive(driver::Call::Give(TO_ANY, 5, 6)),
        Answer::Part(5, 0),
    ),
    (
        Call::Drive(driver::Call::Give(TO_BACKING, 12, 4)),
        Answer::Part(12, 4),
    ),
    (
        Call::Drive(driver::Call::Prepare {
            offset: 1,
            count: 9,
            overwrite: true,
            at: 0,
            bytes: &[7],
            commits: true,
        }),
        Answer::Prepared(4, false),
    ),
];

static SHORT_PARTS: [(Call, Answer); 4] = [
    (Call::Drive(driver::Call::Granularity), Answer::Length(4)),
    (
        Call::Drive(driver::Call::Give(ZERO, 9, 5)),
        Answer::Part(12, 2),
    ),
    (
        Call::Drive(driver::Call::Give(ZERO, 9, 4)),
        Answer::Part(9, 0),
    ),
    (
        Call::Drive(driver::Call::Stored(0, 11, &[0xff, 0, 0])),
        DONE,
    ),
];

fn check_a_driver_in_blocks_does_one_of_them(rt: &impl Abort, alloc: Global) {
    on(rt, alloc, (16, 0xff), (4, false), &PARTS);
    on(rt, alloc, (14, 0xff), (4, true), &SHORT_PARTS);
}

#[test]
fn a_driver_in_blocks_does_one_of_them(rt: HostRuntime) {
    check_a_driver_in_blocks_does_one_of_them(&rt, rt.alloc());
}

// SPDX-License-Identifier: MIT
//! Zero writes and discards of images.
use super::answer::Answer;
use super::driver;
use super::driver::Give;
use super::image::{Call, on_raw};
use super::mem::{on_bytes, on_read_only, on_storage};
use super::reached::{OLD, Row, each_reaches, each_stops};
use super::set_up::runs;
use super::zeroes::on_zeroes;
use imago_storage::error::Error;
use imago_storage::mem::MemStorage;
use imago_storage::storage::ZeroKind;
use imago_test_storages::recording::Recorded;
use imago_test_storages::wide_null::WideNull;
use std::alloc::Global;
use std::process::Abort;

const DONE: Answer = Answer::Done;

const READ_ONLY: Answer = Answer::Refused(Error::ReadOnly);

const OVERFLOW: Answer = Answer::Refused(Error::RangeOverflow);

const BEYOND: Answer = Answer::Refused(Error::BeyondDisk);

const ZERO: Give = Give::EnsureZero;

const TO_ZERO: Give = Give::DiscardToZero;

const TO_ANY: Give = Give::DiscardToAny;

const TO_BACKING: Give = Give::DiscardToBacking;

/// On the bytes 1 to 4 that may not be written. Nothing else is tested before that.
static FIXED: [(Call, Answer); 7] = [
    (Call::Give(ZERO, u64::MAX, 1), READ_ONLY),
    (Call::Give(TO_ZERO, u64::MAX, 1), READ_ONLY),
    (Call::Give(TO_ANY, u64::MAX, 1), READ_ONLY),
    (Call::Give(TO_BACKING, u64::MAX, 1), READ_ONLY),
    (Call::Give(ZERO, 4, 1), READ_ONLY),
    (Call::Give(ZERO, 0, 0), READ_ONLY),
    (Call::Read(0, &[1, 2, 3, 4]), DONE),
];

/// On the same where they may be written.
static PASSED: [(Call, Answer); 13] = [
    (Call::Give(ZERO, u64::MAX, 1), OVERFLOW),
    (Call::Give(TO_ZERO, u64::MAX, 1), OVERFLOW),
    (Call::Give(TO_ANY, u64::MAX, 1), OVERFLOW),
    (Call::Give(TO_BACKING, u64::MAX, 1), OVERFLOW),
    // an end at the greatest offset doesn't pass it, but the disk's size
    (Call::Give(ZERO, u64::MAX, 0), BEYOND),
    (Call::Give(TO_ANY, u64::MAX - 1, 1), BEYOND),
    (Call::Give(ZERO, 4, 1), BEYOND),
    (Call::Give(TO_ZERO, 5, 0), BEYOND),
    (Call::Give(TO_ANY, 1, 4), BEYOND),
    (Call::Give(TO_BACKING, 0, 5), BEYOND),
    (Call::Give(TO_ZERO, 4, 0), DONE),
    (Call::Read(0, &[1, 2, 3, 4, 0]), DONE),
    (Call::Size, Answer::Length(4)),
];

fn check_writability_the_end_and_the_size_are_tested_in_turn(rt: &impl Abort, alloc: Global) {
    on_read_only(rt, alloc, &[1, 2, 3, 4], &FIXED);
    on_bytes(rt, alloc, &[1, 2, 3, 4], &PASSED);
}

#[test]
fn writability_the_end_and_the_size_are_tested_in_turn(rt: HostRuntime) {
    check_writability_the_end_and_the_size_are_tested_in_turn(&rt, rt.alloc());
}

/// On 1024 zeroes.
static KEPT: [(Call, Answer); 14] = [
    (Call::Give(ZERO, 1024, 4096), BEYOND),
    (Call::Give(TO_ZERO, 1024, 4096), BEYOND),
    (Call::Give(TO_ANY, 1024, 4096), BEYOND),
    (Call::Give(TO_BACKING, 1024, 4096), BEYOND),
    (Call::Give(ZERO, 512, 4096), BEYOND),
    (Call::Give(TO_ZERO, 512, 4096), BEYOND),
    (Call::Give(TO_ANY, 512, 4096), BEYOND),
    (Call::Give(TO_BACKING, 512, 4096), BEYOND),
    (Call::Give(ZERO, 1024, 0), DONE),
    (Call::Give(TO_ZERO, 1024, 0), DONE),
    (Call::Give(TO_ANY, 1024, 0), DONE),
    (Call::Give(TO_BACKING, 1024, 0), DONE),
    (Call::Size, Answer::Length(1024)),
    (
        Call::Look(driver::Call::StorageLength(0)),
        Answer::Length(1024),
    ),
];

/// On as many zeroes as there are offsets.
static LONGEST: [(Call, Answer); 8] = [
    (Call::Give(ZERO, u64::MAX - 1, 1), DONE),
    (Call::Give(TO_ZERO, u64::MAX - 1, 1), DONE),
    (Call::Give(TO_ANY, u64::MAX - 1, 1), DONE),
    (Call::Give(TO_BACKING, u64::MAX - 1, 1), DONE),
    (Call::Give(ZERO, u64::MAX, 0), DONE),
    (Call::Give(ZERO, u64::MAX - 1, 2), OVERFLOW),
    (Call::Give(ZERO, 0, u64::MAX), DONE),
    (Call::Size, Answer::Length(u64::MAX)),
];

fn check_a_disk_of_zeroes_keeps_its_size(rt: &impl Abort, alloc: Global) {
    on_zeroes(rt, alloc, 1024, &KEPT);
    on_zeroes(rt, alloc, u64::MAX, &LONGEST);
}

#[test]
fn a_disk_of_zeroes_keeps_its_size(rt: HostRuntime) {
    check_a_disk_of_zeroes_keeps_its_size(&rt, rt.alloc());
}

/// On eight bytes ff.
static GIVEN_UP: [(Call, Answer); 7] = [
    (Call::Give(TO_ZERO, 2, 3), DONE),
    (
        Call::Read(0, &[0xff, 0xff, 0, 0, 0, 0xff, 0xff, 0xff]),
        DONE,
    ),
    (Call::Give(ZERO, 7, 1), DONE),
    (Call::Read(0, &[0xff, 0xff, 0, 0, 0, 0xff, 0xff, 0]), DONE),
    (Call::Give(TO_BACKING, 0, 1), DONE),
    (Call::Read(0, &[0, 0xff, 0, 0, 0, 0xff, 0xff, 0]), DONE),
    (Call::Size, Answer::Length(8)),
];

fn check_a_range_is_zeroed_alone(rt: &impl Abort, alloc: Global) {
    on_bytes(rt, alloc, &[0xff; 8], &GIVEN_UP);
}

#[test]
fn a_range_is_zeroed_alone(rt: HostRuntime) {
    check_a_range_is_zeroed_alone(&rt, rt.alloc());
}

/// A storage of 16 bytes ff whose zero writes have an alignment of 8.
fn sixteen(rt: &impl Abort, alloc: Global) -> MemStorage {
    MemStorage::new(runs(rt, alloc, &[(16, 0xff)])).with_zero_align(8)
}

/// On such storages: what the raw image zeroes alone, and what is zeroed around it.
static ALIGNED: [[(Call, Answer); 2]; 4] = [
    [
        (Call::Give(TO_BACKING, 3, 13), DONE),
        (Call::ReadRuns(0, &[(8, 0xff), (8, 0)]), DONE),
    ],
    [
        (Call::Give(ZERO, 3, 13), DONE),
        (Call::ReadRuns(0, &[(3, 0xff), (13, 0)]), DONE),
    ],
    [
        (Call::Give(TO_ZERO, 3, 12), DONE),
        (Call::ReadRuns(0, &[(3, 0xff), (12, 0), (1, 0xff)]), DONE),
    ],
    // no aligned part
    [
        (Call::Give(TO_ZERO, 3, 9), DONE),
        (Call::ReadRuns(0, &[(3, 0xff), (9, 0), (4, 0xff)]), DONE),
    ],
];

fn check_what_the_driver_leaves_is_zeroed_as_data(rt: &impl Abort, alloc: Global) {
    for calls in &ALIGNED {
        on_storage(rt, alloc, sixteen(rt, alloc), calls);
    }
}

#[test]
fn what_the_driver_leaves_is_zeroed_as_data(rt: HostRuntime) {
    check_what_the_driver_leaves_is_zeroed_as_data(&rt, rt.alloc());
}

/// In blocks of 4096. What is aligned is one call. A storage in memory keeps what is discarded to
/// any.
static REACHED: [Row; 7] = [
    (
        Call::Give(ZERO, 4096, 8192),
        DONE,
        &[Recorded::Zero(4096, 8192, ZeroKind::Any)],
        &[(4096, 0xa5), (8192, 0), (7712, 0xa5)],
    ),
    (
        Call::Give(TO_ZERO, 4096, 8192),
        DONE,
        &[Recorded::Zero(4096, 8192, ZeroKind::Any)],
        &[(4096, 0xa5), (8192, 0), (7712, 0xa5)],
    ),
    (
        Call::Give(TO_BACKING, 1000, 9000),
        DONE,
        &[Recorded::Zero(4096, 4096, ZeroKind::Any)],
        &[(4096, 0xa5), (4096, 0), (11808, 0xa5)],
    ),
    (
        Call::Give(TO_ANY, 4096, 8192),
        DONE,
        &[Recorded::Discard(4096, 8192)],
        &OLD,
    ),
    (
        Call::Give(TO_ANY, 1000, 9000),
        DONE,
        &[Recorded::Discard(4096, 4096)],
        &OLD,
    ),
    (Call::Give(TO_ANY, 1000, 7000), DONE, &[], &OLD),
    // what the driver leaves is written
    (
        Call::Give(ZERO, 1000, 9000),
        DONE,
        &[
            Recorded::Zero(4096, 4096, ZeroKind::Any),
            Recorded::Read(0, 4096),
            Recorded::Write(0, 4096),
            Recorded::Read(8192, 4096),
            Recorded::Write(8192, 4096),
        ],
        &[(1000, 0xa5), (9000, 0), (10000, 0xa5)],
    ),
];

#[test]
fn zero_writes_and_discards_of_an_image_reach_the_storage(rt: HostRuntime) {
    each_reaches(&rt, rt.alloc(), &REACHED);
}

#[test]
fn zero_writes_and_discards_stop_where_their_storage_fails(rt: HostRuntime) {
    each_stops(&rt, rt.alloc(), &REACHED);
}

const WRAPS: Answer = Answer::Refused(Error::WrapAround);

/// On as many zeroes as there are offsets, in blocks of 4096. Their last block would end past them.
static LAST_BLOCK: [(Call, Answer); 10] = [
    (Call::Read(u64::MAX - 4096, &[0]), DONE),
    (Call::Read(u64::MAX - 4095, &[0]), WRAPS),
    (Call::Write(u64::MAX - 4096, &[1]), DONE),
    (Call::Write(u64::MAX - 4095, &[1]), WRAPS),
    (Call::Give(ZERO, u64::MAX - 4096, 4096), WRAPS),
    (Call::Give(ZERO, u64::MAX - 10, 5), WRAPS),
    (Call::Give(TO_ZERO, u64::MAX - 10, 5), WRAPS),
    // what can't be discarded is left
    (Call::Give(TO_ANY, u64::MAX - 10, 5), DONE),
    (Call::Give(TO_BACKING, u64::MAX - 10, 5), DONE),
    (Call::Size, Answer::Length(u64::MAX)),
];

fn check_the_last_block_of_the_longest_disk_wraps_around(rt: &impl Abort, alloc: Global) {
    on_raw(rt, alloc, WideNull::new(u64::MAX), true, &LAST_BLOCK);
}

#[test]
fn the_last_block_of_the_longest_disk_wraps_around(rt: HostRuntime) {
    check_the_last_block_of_the_longest_disk_wraps_around(&rt, rt.alloc());
}

// SPDX-License-Identifier: MIT
//! Images of zeroes of any length.
use super::answer::Answer;
use super::driver;
use super::image::{Call, on_raw};
use imago_drivers::drivers::PreallocateMode;
use imago_storage::error::Error;
use imago_storage::null::Null;
use std::alloc::Global;
use std::process::Abort;

const ZERO: PreallocateMode = PreallocateMode::Zero;

const BEYOND: Answer = Answer::Refused(Error::BeyondDisk);

/// The calls on a writable image of that many zeroes.
pub(super) fn on_zeroes(rt: &impl Abort, alloc: Global, size: u64, calls: &[(Call, Answer)]) {
    on_raw(rt, alloc, Null::new(size), true, calls);
}

/// On 1024 zeroes.
static KEPT: [(Call, Answer); 11] = [
    (Call::WriteRun(512, 4096, 1), BEYOND),
    (Call::MapData(512, 4096, false), BEYOND),
    (Call::WriteRun(1024, 4096, 1), BEYOND),
    (Call::MapData(1024, 4096, false), BEYOND),
    (Call::Write(1024, &[]), Answer::Done),
    (Call::MapData(0, 0, false), Answer::Length(0)),
    (Call::MapData(1024, 0, false), Answer::Length(0)),
    (Call::Size, Answer::Length(1024)),
    (
        Call::Look(driver::Call::StorageLength(0)),
        Answer::Length(1024),
    ),
    (Call::Aligns, Answer::Aligns(1, 1)),
    (Call::Print("raw[null:[1024B]]"), Answer::Is(true)),
];

fn check_a_disk_of_zeroes_stays_one_at_its_end(rt: &impl Abort, alloc: Global) {
    on_zeroes(rt, alloc, 1024, &KEPT);
}

#[test]
fn a_disk_of_zeroes_stays_one_at_its_end(rt: HostRuntime) {
    check_a_disk_of_zeroes_stays_one_at_its_end(&rt, rt.alloc());
}

/// On as many zeroes as there are offsets.
static LONGEST: [(Call, Answer); 5] = [
    (Call::Read(u64::MAX - 1, &[0, 0]), Answer::Done),
    (Call::Write(u64::MAX - 1, &[1]), Answer::Done),
    (Call::Write(u64::MAX - 1, &[1, 2]), BEYOND),
    (Call::Size, Answer::Length(u64::MAX)),
    (
        Call::Look(driver::Call::StorageLength(0)),
        Answer::Length(u64::MAX),
    ),
];

fn check_the_largest_disk_is_written_at_its_end(rt: &impl Abort, alloc: Global) {
    on_zeroes(rt, alloc, u64::MAX, &LONGEST);
}

#[test]
fn the_largest_disk_is_written_at_its_end(rt: HostRuntime) {
    check_the_largest_disk_is_written_at_its_end(&rt, rt.alloc());
}

/// On no zeroes: the disk grows to the greatest size, and is cut to nothing.
static GROWN: [(Call, Answer); 16] = [
    (Call::Map(0, 1, "<eof>"), Answer::Length(0)),
    (Call::Grow(u64::MAX, ZERO), Answer::Done),
    (Call::Size, Answer::Length(u64::MAX)),
    (
        Call::Map(0, u64::MAX, "0/0:0x0/rw"),
        Answer::Length(u64::MAX),
    ),
    (Call::Map(u64::MAX, 1, "<eof>"), Answer::Length(0)),
    (
        Call::MapData(1, u64::MAX - 1, true),
        Answer::Data(0, 1, u64::MAX - 1),
    ),
    (Call::MapData(1, u64::MAX, true), BEYOND),
    (
        Call::Prepare {
            offset: 0,
            count: u64::MAX,
            overwrite: true,
            at: u64::MAX - 1,
            bytes: &[1],
            commits: true,
        },
        Answer::Prepared(u64::MAX, false),
    ),
    (
        Call::Prepare {
            offset: 1,
            count: u64::MAX,
            overwrite: false,
            at: 0,
            bytes: &[],
            commits: false,
        },
        BEYOND,
    ),
    (Call::Resize(u64::MAX, ZERO), Answer::Done),
    (Call::Resize(u64::MAX - 1, ZERO), Answer::Done),
    (Call::Write(u64::MAX - 1, &[1]), BEYOND),
    (Call::Shrink(0), Answer::Done),
    (Call::Size, Answer::Length(0)),
    (
        Call::Look(driver::Call::StorageLength(0)),
        Answer::Length(0),
    ),
    (Call::Write(0, &[1]), BEYOND),
];

#[test]
fn a_disk_grows_to_the_greatest_size(rt: HostRuntime) {
    on_zeroes(&rt, rt.alloc(), 0, &GROWN);
}

// SPDX-License-Identifier: MIT
//! Disks held as tables, alone and one above another. The first storage has ones, the second twos.
use super::answer::Answer;
use super::driver;
use super::driver::Give;
use super::image::{Call, alone, on_two, script};
use super::runs::run_two;
use super::set_up::stored;
use imago_drivers::drivers::PreallocateMode;
use imago_storage::error::Error;
use imago_storage::mem::MemStorage;
use imago_storage::storage::Storage;
use imago_test_tables::sparse::{Settings, Sparse};
use imago_test_tables::table::Origin;
use std::alloc::Global;
use std::process::Abort;

/// A disk in memory.
type Disk = Sparse<MemStorage>;

const DONE: Answer = Answer::Done;

const BARRED: Answer = Answer::Refused(Error::NoAccess);

const BEYOND: Answer = Answer::Refused(Error::BeyondDisk);

/// A table.
fn entries(rt: &impl Abort, alloc: Global, table: &[Origin]) -> Vec<Origin> {
    match Vec::from_slice(alloc, table) {
        Ok(entries) => entries,
        Err(_) => Vec::from_slice(alloc, table).expect(rt, "memory for a table"),
    }
}

/// Settings of a writable disk.
const WRITABLE: Settings = Settings {
    granularity: 4,
    writable: true,
    fail_commit_after: None,
    fail_granules: false,
};

/// The same, whose commits fail once they have made so many bytes show.
fn failing_commits(fail_commit_after: Option<u64>) -> Settings {
    Settings {
        fail_commit_after,
        ..WRITABLE
    }
}

/// A disk of that table and size, or none.
fn made(
    rt: &impl Abort,
    alloc: Global,
    table: &[Origin],
    size: u64,
    settings: Settings,
) -> Option<Disk> {
    let first = stored(rt, alloc, &[(8, 1)]);
    let second = stored(rt, alloc, &[(8, 2)]);
    Sparse::new(first, second, entries(rt, alloc, table), size, settings)
}

/// A writable disk of that table and size, which tells the granularity 4.
fn disk(rt: &impl Abort, alloc: Global, table: &[Origin], size: u64) -> Disk {
    made(rt, alloc, table, size, WRITABLE).expect(rt, "a table that fits")
}

/// The calls on a disk with nothing below it.
fn on_disk<S: Storage>(
    rt: &impl Abort,
    alloc: Global,
    disk: Sparse<S>,
    calls: &[(driver::Call, Answer)],
) {
    driver::on_driver(rt, alloc, disk, calls);
}

/// The calls on a disk of that table and size.
fn on_table(
    rt: &impl Abort,
    alloc: Global,
    (table, size): (&[Origin], u64),
    calls: &[(driver::Call, Answer)],
) {
    on_disk(rt, alloc, disk(rt, alloc, table, size), calls);
}

const FIRST: Origin = Origin::First;

const SECOND: Origin = Origin::Second;

const NONE: Origin = Origin::Zero;

const LOWER: Origin = Origin::Lower;

const BAR: Origin = Origin::Barred;

/// On bytes of the first storage, twice, of the layer below, and of the second storage.
static ZEROED: [(driver::Call, Answer); 5] = [
    (
        driver::Call::Give(Give::EnsureZero, 1, 1),
        Answer::Part(1, 1),
    ),
    (
        driver::Call::Give(Give::DiscardToZero, 2, 1),
        Answer::Part(2, 1),
    ),
    (driver::Call::Map(0, 8), Answer::Raw(0, 0, 1)),
    (driver::Call::Map(1, 8), Answer::Zeroes(2)),
    (driver::Call::Map(3, 8), Answer::Raw(1, 3, 1)),
];

fn check_zero_calls_change_places(rt: &impl Abort, alloc: Global) {
    let table = [FIRST, FIRST, LOWER, SECOND];
    on_table(rt, alloc, (&table, 4), &ZEROED);
}

#[test]
fn zero_calls_change_places(rt: HostRuntime) {
    check_zero_calls_change_places(&rt, rt.alloc());
}

/// On bytes of the first storage, of the second, and of none.
static DISCARDED: [(driver::Call, Answer); 4] = [
    (
        driver::Call::Give(Give::DiscardToBacking, 1, 1),
        Answer::Part(1, 1),
    ),
    (
        driver::Call::Give(Give::DiscardToAny, 2, 1),
        Answer::Part(2, 1),
    ),
    (driver::Call::Map(0, 8), Answer::Raw(0, 0, 1)),
    (driver::Call::Map(1, 8), Answer::BelowReadOnly(1, 2)),
];

#[test]
fn discards_lead_to_the_layer_below(rt: HostRuntime) {
    on_table(&rt, rt.alloc(), (&[FIRST, SECOND, NONE], 3), &DISCARDED);
}

/// On a byte of the first storage.
static GROWN: [(driver::Call, Answer); 8] = [
    (driver::Call::Grow(3, PreallocateMode::FormatAllocate), DONE),
    (driver::Call::Grow(5, PreallocateMode::Zero), DONE),
    (
        driver::Call::Grow(6, PreallocateMode::WriteData),
        Answer::Refused(Error::Unsupported),
    ),
    (driver::Call::Map(1, 8), Answer::BelowReadOnly(1, 2)),
    (driver::Call::Map(3, 8), Answer::Zeroes(2)),
    (driver::Call::Shrink(2), DONE),
    (driver::Call::Map(1, 8), Answer::BelowReadOnly(1, 1)),
    (driver::Call::Map(2, 8), Answer::Eof),
];

fn check_growth_shows_the_layer_below_or_zeroes(rt: &impl Abort, alloc: Global) {
    on_table(rt, alloc, (&[FIRST], 1), &GROWN);
}

#[test]
fn growth_shows_the_layer_below_or_zeroes(rt: HostRuntime) {
    check_growth_shows_the_layer_below_or_zeroes(&rt, rt.alloc());
}

/// On two bytes of the first storage, and a barred one.
static REFUSED: [(driver::Call, Answer); 4] = [
    (driver::Call::Map(2, 8), BARRED),
    (driver::Call::Give(Give::EnsureZero, 1, 2), BARRED),
    (driver::Call::Map(0, 8), Answer::Raw(0, 0, 1)),
    (driver::Call::Map(1, 8), Answer::Zeroes(1)),
];

#[test]
fn a_barred_place_refuses(rt: HostRuntime) {
    on_table(&rt, rt.alloc(), (&[FIRST, FIRST, BAR], 3), &REFUSED);
}

/// On a disk of four bytes, of which the table has two.
static SHORT: [(driver::Call, Answer); 5] = [
    (driver::Call::Map(2, 8), Answer::Eof),
    (driver::Call::Give(Give::DiscardToBacking, 1, 3), BEYOND),
    (driver::Call::Map(1, 8), Answer::BelowReadOnly(1, 1)),
    (
        driver::Call::Grow(5, PreallocateMode::None),
        Answer::Refused(Error::Unsupported),
    ),
    (driver::Call::Size, Answer::Length(4)),
];

fn check_a_short_table_ends_before_the_disk(rt: &impl Abort, alloc: Global) {
    on_table(rt, alloc, (&[FIRST, FIRST], 4), &SHORT);
}

#[test]
fn a_short_table_ends_before_the_disk(rt: HostRuntime) {
    check_a_short_table_ends_before_the_disk(&rt, rt.alloc());
}

/// On a byte of the first storage.
static PLAIN: [(driver::Call, Answer); 14] = [
    (driver::Call::Granularity, Answer::Length(4)),
    (driver::Call::IsRaw, Answer::Is(true)),
    (driver::Call::TakesBacking, Answer::Is(true)),
    (driver::Call::Probe(0), Answer::Is(false)),
    (driver::Call::Collect(&[1; 8]), Answer::Length(2)),
    (
        driver::Call::Print("sparse[mem:[8B], mem:[8B]]"),
        Answer::Is(true),
    ),
    (driver::Call::StorageCount, Answer::Length(2)),
    (driver::Call::StorageLength(1), Answer::Length(8)),
    (driver::Call::Stored(1, 0, &[2; 8]), DONE),
    (driver::Call::StorageLength(2), Answer::Missing),
    (driver::Call::Flush, DONE),
    (driver::Call::Sync, DONE),
    (driver::Call::Invalidate, DONE),
    (driver::Call::ReadSpecial(0, &[]), DONE),
];

fn check_plain_answers(rt: &impl Abort, alloc: Global) {
    on_table(rt, alloc, (&[FIRST], 1), &PLAIN);
    // neither a granularity of 0, nor a table that is longer than the disk
    let no_granules = Settings {
        granularity: 0,
        ..WRITABLE
    };
    assert!(rt; made(rt, alloc, &[FIRST], 1, no_granules).is_none());
    assert!(rt; made(rt, alloc, &[FIRST], 0, WRITABLE).is_none());
}

#[test]
fn plain_answers(rt: HostRuntime) {
    check_plain_answers(&rt, rt.alloc());
}

/// Prepares three bytes and writes 9 into the first.
macro_rules! nine {
    ($commits:expr) => {
        driver::Call::Prepare {
            offset: 0,
            count: 3,
            overwrite: false,
            at: 0,
            bytes: &[9],
            commits: $commits,
        }
    };
}

/// On two bytes of no storage and one of the layer below.
static SPENT: [(driver::Call, Answer); 6] = [
    (driver::Call::Map(0, 8), Answer::Zeroes(2)),
    (nine!(false), Answer::Prepared(2, true)),
    (driver::Call::Map(0, 8), Answer::Zeroes(2)),
    (nine!(true), Answer::Prepared(2, true)),
    (driver::Call::Map(0, 8), Answer::Raw(0, 0, 2)),
    (driver::Call::Read(0, &[9, 0, 1]), DONE),
];

fn check_a_commit_shows_and_a_cancel_does_not(rt: &impl Abort, alloc: Global) {
    on_table(rt, alloc, (&[NONE, NONE, LOWER], 3), &SPENT);
}

#[test]
fn a_commit_shows_and_a_cancel_does_not(rt: HostRuntime) {
    check_a_commit_shows_and_a_cancel_does_not(&rt, rt.alloc());
}

/// On three bytes of no storage, whose commit fails once it has made one show.
static TORN: [(driver::Call, Answer); 5] = [
    (nine!(true), Answer::Refused(Error::Device)),
    (driver::Call::HasPrepared, Answer::Is(false)),
    (driver::Call::Map(0, 8), Answer::Raw(0, 0, 1)),
    (driver::Call::Map(1, 8), Answer::Zeroes(2)),
    (driver::Call::Read(0, &[9, 0, 0]), DONE),
];

fn check_a_torn_commit_shows_its_first_bytes(rt: &impl Abort, alloc: Global) {
    let torn = made(rt, alloc, &[NONE; 3], 3, failing_commits(Some(1)));
    on_disk(rt, alloc, torn.expect(rt, "a table that fits"), &TORN);
}

#[test]
fn a_torn_commit_shows_its_first_bytes(rt: HostRuntime) {
    check_a_torn_commit_shows_its_first_bytes(&rt, rt.alloc());
}

/// A disk of that table and of 4 bytes. A commit fails once it has made so many bytes show.
fn upper(rt: &impl Abort, alloc: Global, table: &[Origin], fail: Option<u64>) -> Disk {
    made(rt, alloc, table, 4, failing_commits(fail)).expect(rt, "a table that fits")
}

/// The calls on an image of a disk above one of another disk. Answers whether there was memory for
/// both.
fn on_disks<S: Storage>(
    rt: &impl Abort,
    alloc: Global,
    lower: Sparse<S>,
    upper: Sparse<S>,
    calls: &[(Call, Answer)],
) -> bool {
    on_two(rt, alloc, (lower, &[]), upper, calls)
}

/// The calls on an image of such a disk above one of twos. Answers whether there was memory for
/// both.
fn on_once(
    rt: &impl Abort,
    alloc: Global,
    (table, fail): (&[Origin], Option<u64>),
    calls: &[(Call, Answer)],
) -> bool {
    let twos = disk(rt, alloc, &[SECOND; 4], 4);
    on_disks(rt, alloc, twos, upper(rt, alloc, table, fail), calls)
}

/// The calls on an image of such a disk above one of twos.
fn on(rt: &impl Abort, alloc: Global, table: (&[Origin], Option<u64>), calls: &[(Call, Answer)]) {
    let done = on_once(rt, alloc, table, calls) || on_once(rt, alloc, table, calls);
    assert!(rt; done, "memory was refused twice");
}

/// On a byte of the first storage, one of the layer below, one of none, and a barred one.
static LAYERS: [(Call, Answer); 14] = [
    (Call::Read(0, &[1, 2]), DONE),
    (Call::Read(1, &[2, 0]), DONE),
    (Call::Read(2, &[0, 0]), BARRED),
    (Call::Map(1, 3, "1/1:0x1/ro"), Answer::Length(1)),
    (Call::Map(3, 1, ""), BARRED),
    (Call::Write(1, &[8, 9]), DONE),
    (Call::Read(0, &[1, 8]), DONE),
    (Call::Read(1, &[8, 9]), DONE),
    (Call::ReadBelow(1, &[2, 2]), DONE),
    // the byte before the one that refuses is written
    (Call::Write(2, &[8, 9]), BARRED),
    (Call::Read(1, &[8, 8]), DONE),
    (Call::Flush, DONE),
    (Call::Depth, Answer::Length(1)),
    (
        Call::PrintChain("sparse[mem:[8B], mem:[8B]] over sparse[mem:[8B], mem:[8B]]"),
        Answer::Is(true),
    ),
];

fn check_an_image_above_another(rt: &impl Abort, alloc: Global) {
    on(rt, alloc, (&[FIRST, LOWER, NONE, BAR], None), &LAYERS);
}

#[test]
fn an_image_above_another(rt: HostRuntime) {
    check_an_image_above_another(&rt, rt.alloc());
}

/// On the same, as a list.
static LISTED: [(Call, Answer); 8] = [
    (Call::Read(0, &[1, 2]), DONE),
    (Call::Read(2, &[0, 0]), BARRED),
    (Call::Read(3, &[]), DONE),
    (Call::Map(3, 1, ""), BARRED),
    (Call::Write(1, &[8, 9]), DONE),
    (Call::Write(2, &[8, 9]), BARRED),
    (Call::Read(1, &[8, 8]), DONE),
    (Call::Size, Answer::Length(4)),
];

/// Runs the calls as a list on an image of a disk above one of another disk. Answers whether there
/// was memory for it.
fn listed_on<S: Storage>(
    rt: &impl Abort,
    alloc: Global,
    lower: Sparse<S>,
    upper: Sparse<S>,
    calls: &[(Call, Answer)],
) -> bool {
    run_two(rt, alloc, (lower, &[]), upper, calls)
}

/// Runs those calls. Answers whether there was memory for it.
fn runs_listed(rt: &impl Abort, alloc: Global) -> bool {
    let twos = disk(rt, alloc, &[SECOND; 4], 4);
    let upper = upper(rt, alloc, &[FIRST, LOWER, NONE, BAR], None);
    listed_on(rt, alloc, twos, upper, &LISTED)
}

#[test]
fn a_run_over_a_place_that_may_not_be_read(rt: HostRuntime) {
    let alloc = rt.alloc();
    assert!(rt; runs_listed(&rt, alloc) || runs_listed(&rt, alloc));
}

/// On four bytes of the first storage.
static GIVEN: [(Call, Answer); 10] = [
    (Call::Give(Give::EnsureZero, 0, 1), DONE),
    (Call::Read(0, &[0, 1, 1, 1]), DONE),
    (Call::Give(Give::DiscardToZero, 1, 1), DONE),
    (Call::Read(0, &[0, 0, 1, 1]), DONE),
    (Call::Give(Give::DiscardToAny, 2, 1), DONE),
    (Call::Read(0, &[0, 0, 2, 1]), DONE),
    (Call::Give(Give::DiscardToBacking, 3, 1), DONE),
    (Call::Read(0, &[0, 0, 2, 2]), DONE),
    (Call::Give(Give::EnsureZero, 3, 2), BEYOND),
    (Call::Read(0, &[0, 0, 2, 2]), DONE),
];

/// On two bytes of the first storage, a barred one, and one more of that storage. Those before the
/// barred one are given up.
static GIVEN_IN_PART: [(Call, Answer); 8] = [
    (Call::Give(Give::EnsureZero, 1, 2), BARRED),
    (Call::Read(0, &[1, 0]), DONE),
    (Call::Give(Give::DiscardToBacking, 0, 4), BARRED),
    (Call::Read(0, &[2, 2]), DONE),
    (Call::Give(Give::DiscardToZero, 0, 3), BARRED),
    (Call::Read(0, &[0, 0]), DONE),
    (Call::Give(Give::DiscardToAny, 1, 3), BARRED),
    (Call::Read(0, &[0, 2]), DONE),
];

fn check_each_way_to_give_up_bytes_reaches_the_driver(rt: &impl Abort, alloc: Global) {
    on(rt, alloc, (&[FIRST; 4], None), &GIVEN);
    on(
        rt,
        alloc,
        (&[FIRST, FIRST, BAR, FIRST], None),
        &GIVEN_IN_PART,
    );
}

#[test]
fn each_way_to_give_up_bytes_reaches_the_driver(rt: HostRuntime) {
    check_each_way_to_give_up_bytes_reaches_the_driver(&rt, rt.alloc());
}

/// On four bytes of the layer below.
static COPIED: [(Call, Answer); 3] = [
    (Call::MapData(1, 2, false), Answer::Data(0, 1, 2)),
    (Call::Read(1, &[2, 2]), DONE),
    (Call::Map(1, 3, "0/0:0x1/rw"), Answer::Length(2)),
];

#[test]
fn a_data_mapping_copies_what_is_below(rt: HostRuntime) {
    let alloc = rt.alloc();
    on(&rt, alloc, (&[LOWER; 4], None), &COPIED);
}

/// On the same, whose commit fails once it has made one byte show.
static TORN_IMAGE: [(Call, Answer); 3] = [
    (Call::Write(1, &[8, 9]), Answer::Refused(Error::Device)),
    (Call::Read(0, &[2, 8]), DONE),
    (Call::Read(2, &[2, 2]), DONE),
];

fn check_a_torn_commit_leaves_each_byte_old_or_new(rt: &impl Abort, alloc: Global) {
    on(rt, alloc, (&[LOWER; 4], Some(1)), &TORN_IMAGE);
}

#[test]
fn a_torn_commit_leaves_each_byte_old_or_new(rt: HostRuntime) {
    check_a_torn_commit_leaves_each_byte_old_or_new(&rt, rt.alloc());
}

/// On a disk of four bytes, of which the table has two.
static SHORT_IMAGE: [(Call, Answer); 3] = [
    (Call::Read(1, &[1, 0]), DONE),
    (Call::Write(1, &[8, 9]), BEYOND),
    (Call::Map(2, 2, "<eof>"), Answer::Length(0)),
];

fn check_a_disk_whose_places_end_before_its_size(rt: &impl Abort, alloc: Global) {
    on(rt, alloc, (&[FIRST; 2], None), &SHORT_IMAGE);
}

#[test]
fn a_disk_whose_places_end_before_its_size(rt: HostRuntime) {
    check_a_disk_whose_places_end_before_its_size(&rt, rt.alloc());
}

/// A disk of 8 bytes whose whole granules of 4 can't be zeroed: its table, the range that an image
/// of it zeroes, what that answers, how often the disk fails, and the bytes that are left.
type Granule = (&'static [Origin], (u64, u64), Answer, u64, &'static [u8]);

static GRANULES: [Granule; 5] = [
    // zeroes stand round the range: the granule is tried, and the range is written then
    (
        &[NONE, FIRST, FIRST, NONE, FIRST, FIRST, FIRST, FIRST],
        (1, 2),
        DONE,
        1,
        &[0, 0, 0, 0, 1, 1, 1, 1],
    ),
    // two granules: the second isn't tried
    (
        &[NONE, FIRST, FIRST, FIRST, FIRST, SECOND, NONE, NONE],
        (1, 5),
        DONE,
        1,
        &[0; 8],
    ),
    // data stand before the range, or behind it
    (
        &[FIRST, FIRST, FIRST, NONE, FIRST, FIRST, FIRST, FIRST],
        (1, 2),
        DONE,
        0,
        &[1, 0, 0, 0, 1, 1, 1, 1],
    ),
    (
        &[NONE, FIRST, FIRST, SECOND, FIRST, FIRST, FIRST, FIRST],
        (1, 2),
        DONE,
        0,
        &[0, 0, 0, 2, 1, 1, 1, 1],
    ),
    // a granule in the range is zeroed by the driver's own call
    (
        &[FIRST; 8],
        (1, 7),
        Answer::Refused(Error::Device),
        1,
        &[1; 8],
    ),
];

/// Makes the calls on an image of a disk. Answers how often that failed, if no call was made again.
fn failed_in<S: Storage>(
    rt: &impl Abort,
    alloc: Global,
    disk: Sparse<S>,
    calls: &[(Call, Answer)],
) -> Option<u64> {
    let mut image = alone(disk);
    if script(rt, alloc, &mut image, calls) {
        return None;
    }
    Some(image.inner().faults())
}

/// Zeroes the range of a row, and reads what is left. Answers how often the disk failed, if no call
/// was made again.
fn zeroed_by(rt: &impl Abort, alloc: Global, row: Granule) -> Option<u64> {
    let (table, (offset, count), answer, _, left) = row;
    let settings = Settings {
        fail_granules: true,
        ..WRITABLE
    };
    let disk = made(rt, alloc, table, 8, settings).expect(rt, "a table that fits");
    let calls = [
        (Call::Give(Give::EnsureZero, offset, count), answer),
        (Call::Read(0, left), DONE),
    ];
    failed_in(rt, alloc, disk, &calls)
}

fn check_refusals_of_granules_are_ignored(rt: &impl Abort, alloc: Global) {
    for &row in &GRANULES {
        let faults = match zeroed_by(rt, alloc, row) {
            Some(faults) => faults,
            None => zeroed_by(rt, alloc, row).expect(rt, "memory for zeroes"),
        };
        assert_eq!(rt; faults, row.3);
    }
}

#[test]
fn refusals_of_granules_are_ignored(rt: HostRuntime) {
    check_refusals_of_granules_are_ignored(&rt, rt.alloc());
}

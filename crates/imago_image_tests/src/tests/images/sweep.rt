// SPDX-License-Identifier: MIT
//! A failure at each call that a change makes of its storages, with each tear, over each driver:
//! what it leaves, byte for byte, and that the image goes on from there.
//!
//! A new call is a row of `CALLS` or `DRIVER_CALLS`, a new storage one of the forms. A row says how
//! many calls it makes.
use super::answer::Answer;
use super::driver;
use super::driver::Give;
use super::image::Call;
use super::rule::{Disk, Effect, How, New, is_refusal};
use super::subject::{Fault, Form, Kind, Subject, first_disk};
use imago_drivers::drivers::PreallocateMode;
use imago_storage::error::Error;
use imago_test_storages::faulty::Tear;
use std::alloc::Global;
use std::process::Abort;

/// A call, and what it does to the disk.
type Row = (Call, Effect);

/// How many calls of a storage a row makes, in blocks of 1, of 8 and of 512.
type Count = (u64, u64, u64);

/// How many it makes of the storage of a raw image, of that of one in pieces or granules, and of a
/// table's first and second storage.
type Counts = (Count, Count, Count, Count);

/// A row, and how many calls it makes.
type Counted = (Call, Effect, Counts);

const DEVICE: Answer = Answer::Refused(Error::Device);

const MEMORY: Answer = Answer::Refused(Error::Memory);

const NOT_OFFERED: Answer = Answer::Refused(Error::Unsupported);

static TEARS: [Tear; 4] = [Tear::Nothing, Tear::All, Tear::First(3), Tear::Odd];

/// More calls than any change makes of its storages.
const LIMIT: u64 = 300;

/// The offset and the length of the range that is changed. It begins and ends inside a block of 8
/// and of 512.
const AT: u64 = 515;

const COUNT: u64 = 1030;

const RANGE: (u64, u64) = (AT, COUNT);

/// The first bytes of a range.
const BEGIN: (u64, u64) = (AT, 70);

const ZEROES: New = New::Equal(0);

const EES: New = New::Equal(0xee);

const NONE: Count = (0, 0, 0);

const NO_CALLS: Counts = (NONE, NONE, NONE, NONE);

/// A block that is changed in part is read and written. So 1030 bytes from 515 on are one write, or
/// one and two blocks. In pieces of 256, 256, 256, 256 and 6 bytes, or of 512, 512 and 6, each
/// piece is written so. A table has eight runs that are written to its first storage in them, and
/// three that stand in the second.
const WRITE: Counts = ((1, 5, 5), (5, 24, 10), (8, 24, 18), (3, 11, 8));

/// What is aligned is zeroed by one call for each granule, and the rest of both ends is written. A
/// table zeroes its entries alone.
const ZEROED: Counts = ((1, 5, 5), (5, 9, 5), NONE, NONE);

/// What is aligned is discarded by one call for each granule, and the rest is left.
const DISCARDED: Counts = ((1, 1, 1), (3, 3, 1), NONE, NONE);

/// The driver's own call does one granule.
const ONE_GRANULE: Counts = ((1, 1, 1), (1, 1, 1), NONE, NONE);

/// The first 85 bytes come from the layer below, and are copied.
const COPIED: Counts = (NONE, NONE, (1, 3, 2), NONE);

/// The first 30 or 70 bytes are written, which end inside a block of 8, too.
const BEGUN: Counts = ((1, 5, 2), (1, 5, 2), (1, 5, 2), NONE);

/// They are written once these 85 bytes are copied.
const BEGUN_IN_COPY: Counts = ((1, 5, 2), (1, 5, 2), (2, 8, 4), NONE);

/// They are written once they are copied.
const COPIED_ALONE: Counts = ((1, 5, 2), (1, 5, 2), (2, 10, 4), NONE);

/// Prepares so many bytes at the range's offset, and writes these into the mapping.
macro_rules! prepared {
    ($count:expr, $overwrite:expr, $bytes:expr, $commits:expr) => {
        Call::Prepare {
            offset: AT,
            count: $count,
            overwrite: $overwrite,
            at: 0,
            bytes: $bytes,
            commits: $commits,
        }
    };
}

/// The same on the driver.
macro_rules! driver_prepared {
    ($count:expr, $overwrite:expr, $bytes:expr, $commits:expr) => {
        Call::Drive(driver::Call::Prepare {
            offset: AT,
            count: $count,
            overwrite: $overwrite,
            at: 0,
            bytes: $bytes,
            commits: $commits,
        })
    };
}

/// The changing calls of an image.
static CALLS: [Counted; 19] = [
    (
        Call::WriteNumbers(AT, COUNT as usize, 101),
        Effect::Changed(How::Done, RANGE, New::Numbers(101)),
        WRITE,
    ),
    (
        Call::Give(Give::EnsureZero, AT, COUNT),
        Effect::Changed(How::Done, RANGE, ZEROES),
        ZEROED,
    ),
    (
        Call::Give(Give::DiscardToZero, AT, COUNT),
        Effect::Changed(How::Done, RANGE, ZEROES),
        ZEROED,
    ),
    (
        Call::Give(Give::DiscardToAny, AT, COUNT),
        Effect::Changed(How::Done, RANGE, New::Unspecified),
        DISCARDED,
    ),
    (
        Call::Give(Give::DiscardToBacking, AT, COUNT),
        Effect::Changed(How::Partly, RANGE, New::Below),
        DISCARDED,
    ),
    (Call::MapData(AT, COUNT, false), Effect::Kept, COPIED),
    (
        Call::MapData(AT, COUNT, true),
        Effect::Changed(How::Done, RANGE, New::Unspecified),
        NO_CALLS,
    ),
    (
        prepared!(COUNT, false, &[0xee; 70], true),
        Effect::Changed(How::Done, BEGIN, EES),
        BEGUN_IN_COPY,
    ),
    (
        prepared!(COUNT, false, &[0xee; 70], false),
        Effect::Changed(How::Cancelled, BEGIN, EES),
        BEGUN_IN_COPY,
    ),
    // bytes that aren't written are unspecified then
    (
        prepared!(70, true, &[0xee; 70], true),
        Effect::Changed(How::Overwritten, BEGIN, EES),
        BEGUN,
    ),
    (
        Call::Grow(2148, PreallocateMode::Zero),
        Effect::Grown(2148, ZEROES),
        NO_CALLS,
    ),
    (
        Call::Grow(2148, PreallocateMode::None),
        Effect::Grown(2148, New::Unspecified),
        NO_CALLS,
    ),
    (
        Call::Grow(2148, PreallocateMode::FormatAllocate),
        Effect::Grown(2148, New::Below),
        NO_CALLS,
    ),
    (
        Call::Grow(2148, PreallocateMode::FullAllocate),
        Effect::Grown(2148, New::Below),
        NO_CALLS,
    ),
    (
        Call::Grow(2148, PreallocateMode::WriteData),
        Effect::Grown(2148, New::Below),
        NO_CALLS,
    ),
    (
        Call::Resize(2148, PreallocateMode::Zero),
        Effect::Grown(2148, ZEROES),
        NO_CALLS,
    ),
    (
        Call::Resize(1001, PreallocateMode::Zero),
        Effect::Cut(1001),
        NO_CALLS,
    ),
    (Call::Shrink(1001), Effect::Cut(1001), NO_CALLS),
    (
        Call::Writev(AT, &[0xee; 70]),
        Effect::Changed(How::Done, BEGIN, EES),
        BEGUN,
    ),
];

/// The changing calls of a driver.
static DRIVER_CALLS: [Counted; 16] = [
    (
        Call::Drive(driver::Call::Give(Give::EnsureZero, AT, COUNT)),
        Effect::Changed(How::Done, RANGE, ZEROES),
        ONE_GRANULE,
    ),
    (
        Call::Drive(driver::Call::Give(Give::DiscardToZero, AT, COUNT)),
        Effect::Changed(How::Done, RANGE, ZEROES),
        ONE_GRANULE,
    ),
    (
        Call::Drive(driver::Call::Give(Give::DiscardToAny, AT, COUNT)),
        Effect::Changed(How::Done, RANGE, New::Unspecified),
        ONE_GRANULE,
    ),
    (
        Call::Drive(driver::Call::Give(Give::DiscardToBacking, AT, COUNT)),
        Effect::Changed(How::Partly, RANGE, New::Below),
        ONE_GRANULE,
    ),
    (
        Call::Drive(driver::Call::MapData(AT, COUNT, false)),
        Effect::Kept,
        COPIED,
    ),
    (
        Call::Drive(driver::Call::MapData(AT, COUNT, true)),
        Effect::Changed(How::Done, RANGE, New::Unspecified),
        NO_CALLS,
    ),
    (
        Call::Drive(driver::Call::WriteMapped(AT, &[0xee; 30])),
        Effect::Changed(How::Done, (AT, 30), EES),
        COPIED_ALONE,
    ),
    (
        driver_prepared!(COUNT, false, &[0xee; 30], true),
        Effect::Changed(How::Done, (AT, 30), EES),
        BEGUN_IN_COPY,
    ),
    (
        driver_prepared!(COUNT, false, &[0xee; 30], false),
        Effect::Changed(How::Cancelled, (AT, 30), EES),
        BEGUN_IN_COPY,
    ),
    (
        driver_prepared!(30, true, &[0xee; 30], true),
        Effect::Changed(How::Overwritten, (AT, 30), EES),
        BEGUN,
    ),
    (
        Call::Drive(driver::Call::Grow(2148, PreallocateMode::Zero)),
        Effect::Grown(2148, ZEROES),
        NO_CALLS,
    ),
    (
        Call::Drive(driver::Call::Grow(2148, PreallocateMode::None)),
        Effect::Grown(2148, New::Unspecified),
        NO_CALLS,
    ),
    (
        Call::Drive(driver::Call::Grow(2148, PreallocateMode::FormatAllocate)),
        Effect::Grown(2148, New::Below),
        NO_CALLS,
    ),
    (
        Call::Drive(driver::Call::Grow(2148, PreallocateMode::FullAllocate)),
        Effect::Grown(2148, New::Below),
        NO_CALLS,
    ),
    (
        Call::Drive(driver::Call::Grow(2148, PreallocateMode::WriteData)),
        Effect::Grown(2148, New::Below),
        NO_CALLS,
    ),
    (
        Call::Drive(driver::Call::Shrink(1001)),
        Effect::Cut(1001),
        NO_CALLS,
    ),
];

/// What the image is used for after each refusal.
static USES: [Row; 3] = [
    (
        Call::WriteNumbers(700, 133, 51),
        Effect::Changed(How::Done, (700, 133), New::Numbers(51)),
    ),
    (
        Call::Give(Give::EnsureZero, 650, 103),
        Effect::Changed(How::Done, (650, 103), ZEROES),
    ),
    (
        Call::Resize(2200, PreallocateMode::Zero),
        Effect::Grown(2200, ZEROES),
    ),
];

/// Whether a driver offers a call. A table allocates nothing for what it grows by.
fn is_offered(kind: Kind, call: Call) -> bool {
    let mode = match call {
        Call::Grow(_, mode) | Call::Drive(driver::Call::Grow(_, mode)) => mode,
        _ => return true,
    };
    match (kind, mode) {
        (Kind::Table | Kind::Chain, PreallocateMode::FullAllocate | PreallocateMode::WriteData) =>
            false,
        _ => true,
    }
}

/// Makes a call once. What it leaves is what it may leave, and what the test goes on from.
fn step(
    rt: &impl Abort,
    alloc: Global,
    subject: &mut Subject,
    disk: &mut Disk,
    (call, effect): Row,
) -> Answer {
    let (answer, now) = subject.step(rt, alloc, call);
    assert!(rt; disk.may_be(effect, answer, &now), "other bytes are left");
    disk.bytes = now;
    answer
}

/// Makes a call that succeeds once it has its memory.
fn step_on(rt: &impl Abort, alloc: Global, subject: &mut Subject, disk: &mut Disk, row: Row) {
    let mut answer = step(rt, alloc, subject, disk, row);
    if answer == MEMORY {
        answer = step(rt, alloc, subject, disk, row);
    }
    assert!(rt; !is_refusal(answer), "refused without a fault");
}

/// Uses an image on.
fn use_on(rt: &impl Abort, alloc: Global, subject: &mut Subject, disk: &mut Disk) {
    for &next in &USES {
        step_on(rt, alloc, subject, disk, next);
    }
}

/// An image on which a call was made, what it has to show, and what the call answered.
type Called = (Subject, Disk, Answer);

/// Makes a call on a new image, which a fault is waiting for.
fn called(rt: &impl Abort, alloc: Global, form: Form, row: Row, fault: Fault) -> Called {
    let mut disk = first_disk(rt, alloc, form.kind);
    let mut subject = Subject::open(rt, alloc, form, fault);
    let answer = step(rt, alloc, &mut subject, &mut disk, row);
    (subject, disk, answer)
}

/// The same. What is refused for memory is made again, on another image.
fn called_again(rt: &impl Abort, alloc: Global, form: Form, row: Row, fault: Fault) -> Called {
    let first = called(rt, alloc, form, row, fault);
    if first.2 == MEMORY {
        return called(rt, alloc, form, row, fault);
    }
    first
}

/// Makes the call that met a fault again, and uses the image on. Its device has failed once, and
/// the layer below is as it was.
fn goes_on(rt: &impl Abort, alloc: Global, subject: &mut Subject, disk: &mut Disk, row: Row) {
    step_on(rt, alloc, subject, disk, row);
    use_on(rt, alloc, subject, disk);
    let (faults, below) = subject.end(rt, alloc);
    assert_eq!(rt; faults, 1);
    assert!(rt; below == disk.below, "the layer below has changed");
}

/// The call of a row answers so where a fault is waiting for it. Answers whether it met the fault.
fn meets_the_fault(rt: &impl Abort, form: Form, row: Row, answer: Answer) -> bool {
    let offered = is_offered(form.kind, row.0);
    assert!(rt;
        offered || answer == NOT_OFFERED,
        "a call that isn't offered"
    );
    if !offered || !is_refusal(answer) {
        return false;
    }
    assert_eq!(rt; answer, DEVICE);
    true
}

/// Makes a call that a fault is waiting for, and answers whether it met the fault. The image is
/// used on then.
fn is_refused(rt: &impl Abort, alloc: Global, form: Form, row: Row, fault: Fault) -> bool {
    let (mut subject, mut disk, answer) = called_again(rt, alloc, form, row, fault);
    let is_met = meets_the_fault(rt, form, row, answer);
    if is_met {
        goes_on(rt, alloc, &mut subject, &mut disk, row);
    } else {
        assert_eq!(rt; subject.end(rt, alloc).0, 0);
    }
    is_met
}

/// How many calls of the first storage, or of the second, a call makes: it is refused at each of
/// them, and at none behind them.
fn reached(rt: &impl Abort, alloc: Global, form: Form, row: Row, tear: Tear, second: bool) -> u64 {
    for pass in 0..LIMIT {
        let fault = if second {
            Fault::Second(pass, tear)
        } else {
            Fault::First(pass, tear)
        };
        if !is_refused(rt, alloc, form, row, fault) {
            return pass;
        }
    }
    assert!(rt; false, "it fails without an end");
    LIMIT
}

/// How many calls these are in blocks of that length.
fn in_blocks((bytes, short, long): Count, align: usize) -> u64 {
    match align {
        1 => bytes,
        8 => short,
        _ => long,
    }
}

/// How many calls of the first storage a row makes, and of the second, if there is one.
fn calls_of(form: Form, (raw, pieces, first, second): Counts) -> (u64, Option<u64>) {
    match form.kind {
        Kind::Raw => (in_blocks(raw, form.align), None),
        Kind::Choppy(_) | Kind::Granular(_) => (in_blocks(pieces, form.align), None),
        Kind::Table | Kind::Chain => (
            in_blocks(first, form.align),
            Some(in_blocks(second, form.align)),
        ),
    }
}

/// Whether a row resizes the storage. A table has storages of any length.
fn is_resize(kind: Kind, (_, effect): Row) -> bool {
    match (kind, effect) {
        (Kind::Table | Kind::Chain, _) => false,
        (_, Effect::Grown(_, _) | Effect::Cut(_)) => true,
        _ => false,
    }
}

/// The row of that index makes so many calls.
fn makes(rt: &impl Abort, index: usize, found: u64, expected: u64) {
    assert_eq!(rt; found, expected, "row {index}");
}

/// Sweeps over a row with that tear. It makes so many calls of the first storage, and of the
/// second, if there is one.
fn sweep_torn(
    rt: &impl Abort,
    alloc: Global,
    form: Form,
    (index, row): (usize, Row),
    tear: Tear,
    (first, second): (u64, Option<u64>),
) {
    makes(rt, index, reached(rt, alloc, form, row, tear, false), first);
    if let Some(second) = second {
        makes(rt, index, reached(rt, alloc, form, row, tear, true), second);
    }
}

/// Sweeps over the rows with each tear, and with a refused resize. Each row makes so many calls.
fn sweep(rt: &impl Abort, alloc: Global, form: Form, rows: &[Counted]) {
    for (i, &(call, effect, counts)) in rows.iter().enumerate() {
        let row = (call, effect);
        for &tear in &TEARS {
            sweep_torn(rt, alloc, form, (i, row), tear, calls_of(form, counts));
        }
        let resizes = is_refused(rt, alloc, form, row, Fault::Resize);
        assert_eq!(rt; resizes, is_resize(form.kind, row), "row {i}");
    }
}

/// Sweeps over the rows for storages with that alignment, with and without zero writes.
fn sweep_both(rt: &impl Abort, alloc: Global, kind: Kind, align: usize, rows: &[Counted]) {
    for zeroes in [true, false] {
        let form = Form {
            kind,
            align,
            zeroes,
        };
        sweep(rt, alloc, form, rows);
    }
}

/// Sweeps over the calls of an image for storages with that alignment.
fn sweep_image(rt: &impl Abort, alloc: Global, kind: Kind, align: usize) {
    sweep_both(rt, alloc, kind, align, &CALLS);
}

/// Sweeps over the calls of a driver for storages with alignments of 1, 8 and 512, and a driver for
/// each.
fn sweep_driver(rt: &impl Abort, alloc: Global, kinds: [Kind; 3]) {
    for (kind, align) in kinds.into_iter().zip([1, 8, 512]) {
        sweep_both(rt, alloc, kind, align, &DRIVER_CALLS);
    }
}

#[test]
fn a_raw_image_over_bytes_fails_anywhere(rt: HostRuntime) {
    sweep_image(&rt, rt.alloc(), Kind::Raw, 1);
}

#[test]
fn a_raw_image_over_short_blocks_fails_anywhere(rt: HostRuntime) {
    sweep_image(&rt, rt.alloc(), Kind::Raw, 8);
}

#[test]
fn a_raw_image_over_long_blocks_fails_anywhere(rt: HostRuntime) {
    sweep_image(&rt, rt.alloc(), Kind::Raw, 512);
}

#[test]
fn an_image_in_pieces_over_bytes_fails_anywhere(rt: HostRuntime) {
    sweep_image(&rt, rt.alloc(), Kind::Choppy(256), 1);
}

#[test]
fn an_image_in_pieces_over_short_blocks_fails_anywhere(rt: HostRuntime) {
    sweep_image(&rt, rt.alloc(), Kind::Choppy(256), 8);
}

#[test]
fn an_image_in_pieces_over_long_blocks_fails_anywhere(rt: HostRuntime) {
    sweep_image(&rt, rt.alloc(), Kind::Choppy(512), 512);
}

#[test]
fn an_image_in_granules_over_bytes_fails_anywhere(rt: HostRuntime) {
    sweep_image(&rt, rt.alloc(), Kind::Granular(256), 1);
}

#[test]
fn an_image_in_granules_over_short_blocks_fails_anywhere(rt: HostRuntime) {
    sweep_image(&rt, rt.alloc(), Kind::Granular(256), 8);
}

#[test]
fn an_image_in_granules_over_long_blocks_fails_anywhere(rt: HostRuntime) {
    sweep_image(&rt, rt.alloc(), Kind::Granular(512), 512);
}

#[test]
fn a_table_over_bytes_fails_anywhere(rt: HostRuntime) {
    sweep_image(&rt, rt.alloc(), Kind::Table, 1);
}

#[test]
fn a_table_over_short_blocks_fails_anywhere(rt: HostRuntime) {
    sweep_image(&rt, rt.alloc(), Kind::Table, 8);
}

#[test]
fn a_table_over_long_blocks_fails_anywhere(rt: HostRuntime) {
    sweep_image(&rt, rt.alloc(), Kind::Table, 512);
}

#[test]
fn a_chain_over_bytes_fails_anywhere(rt: HostRuntime) {
    sweep_image(&rt, rt.alloc(), Kind::Chain, 1);
}

#[test]
fn a_chain_over_short_blocks_fails_anywhere(rt: HostRuntime) {
    sweep_image(&rt, rt.alloc(), Kind::Chain, 8);
}

#[test]
fn a_chain_over_long_blocks_fails_anywhere(rt: HostRuntime) {
    sweep_image(&rt, rt.alloc(), Kind::Chain, 512);
}

#[test]
fn a_raw_driver_fails_anywhere(rt: HostRuntime) {
    sweep_driver(&rt, rt.alloc(), [Kind::Raw; 3]);
}

#[test]
fn a_driver_in_pieces_fails_anywhere(rt: HostRuntime) {
    let kinds = [Kind::Choppy(256), Kind::Choppy(256), Kind::Choppy(512)];
    sweep_driver(&rt, rt.alloc(), kinds);
}

#[test]
fn a_driver_in_granules_fails_anywhere(rt: HostRuntime) {
    let kinds = [
        Kind::Granular(256),
        Kind::Granular(256),
        Kind::Granular(512),
    ];
    sweep_driver(&rt, rt.alloc(), kinds);
}

#[test]
fn a_driver_of_a_table_fails_anywhere(rt: HostRuntime) {
    sweep_driver(&rt, rt.alloc(), [Kind::Table; 3]);
}

/// Makes each call once, and uses the image on. A call that is refused for memory leaves what it
/// may, and succeeds at a second try.
fn each_once(rt: &impl Abort, alloc: Global, kind: Kind, rows: &[Counted]) {
    let form = Form {
        kind,
        align: 8,
        zeroes: false,
    };
    for &(call, effect, _) in rows {
        let row = (call, effect);
        let mut disk = first_disk(rt, alloc, kind);
        let mut subject = Subject::open(rt, alloc, form, Fault::Never);
        if is_offered(kind, row.0) {
            step_on(rt, alloc, &mut subject, &mut disk, row);
        }
        use_on(rt, alloc, &mut subject, &mut disk);
    }
}

/// The same for the calls of an image.
fn each_of_an_image(rt: &impl Abort, alloc: Global, kind: Kind) {
    each_once(rt, alloc, kind, &CALLS);
}

#[test]
fn calls_of_a_raw_image_go_on_without_memory(rt: HostRuntime) {
    each_of_an_image(&rt, rt.alloc(), Kind::Raw);
}

#[test]
fn calls_of_an_image_in_granules_go_on_without_memory(rt: HostRuntime) {
    each_of_an_image(&rt, rt.alloc(), Kind::Granular(256));
}

fn check_calls_of_a_table_go_on_without_memory(rt: &impl Abort, alloc: Global) {
    each_once(rt, alloc, Kind::Table, &DRIVER_CALLS);
}

#[test]
fn calls_of_a_table_go_on_without_memory(rt: HostRuntime) {
    check_calls_of_a_table_go_on_without_memory(&rt, rt.alloc());
}

#[test]
fn calls_of_a_chain_go_on_without_memory(rt: HostRuntime) {
    each_of_an_image(&rt, rt.alloc(), Kind::Chain);
}

/// A driver and the alignment of its storage, a row, and how many calls it makes.
///
/// In blocks one is read and written at each end, where it is changed in part. The blocks between
/// are written or zeroed at once, or granule by granule.
static REACHED: [(Kind, usize, usize, u64); 15] = [
    (Kind::Raw, 1, 0, 1),
    (Kind::Raw, 8, 0, 5),
    (Kind::Raw, 512, 0, 5),
    (Kind::Raw, 1, 1, 1),
    (Kind::Raw, 8, 1, 5),
    (Kind::Raw, 512, 1, 5),
    // three granules, and a write for each end
    (Kind::Granular(256), 1, 1, 5),
    // fifteen, and whole blocks at each end besides
    (Kind::Granular(64), 8, 1, 21),
    // one
    (Kind::Granular(512), 512, 1, 5),
    (Kind::Raw, 1, 2, 1),
    (Kind::Raw, 8, 2, 5),
    (Kind::Raw, 512, 2, 5),
    (Kind::Granular(256), 1, 2, 5),
    (Kind::Granular(64), 8, 2, 21),
    (Kind::Granular(512), 512, 2, 5),
];

fn check_a_change_makes_so_many_calls(rt: &impl Abort, alloc: Global) {
    for &(kind, align, row, calls) in &REACHED {
        let form = Form {
            kind,
            align,
            zeroes: true,
        };
        let (call, effect, _) = *CALLS.get(row).expect(rt, "a row");
        let found = reached(rt, alloc, form, (call, effect), Tear::Odd, false);
        assert_eq!(rt; found, calls, "{align}");
    }
}

#[test]
fn a_change_makes_so_many_calls(rt: HostRuntime) {
    check_a_change_makes_so_many_calls(&rt, rt.alloc());
}

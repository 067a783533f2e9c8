// SPDX-License-Identifier: MIT
//! What a copy-on-write disk does with its data blocks, which mappings it refuses, and the sizes
//! that it can have.
use super::call::{
    Call, cancel, commit, is_spent, on, prepare, shown, told_mapping, write_at, write_prepared,
};
use super::set_up::{byte_at, equal, numbers};
use super::subject::{Disk, Fault, PLAIN, above, created, storage_of};
use super::trial::{Trial, try_cow};
use imago_access::access::FormatAccess;
use imago_access::run;
use imago_access::run::Reply;
use imago_cow::cow::CowState;
use imago_drivers::drivers::{FormatDriverInstance, PreparedDataMapping};
use imago_storage::error::Error;
use imago_test_storages::faulty::{Faulty, Tear};
use std::alloc::Global;
use std::process::Abort;

type Mapping = PreparedDataMapping<CowState>;

const FOREIGN: Result<(), Error> = Err(Error::ForeignMapping);

/// A disk with nothing below it.
fn alone<D: FormatDriverInstance<Storage = Faulty, State = CowState> + Disk>(
    rt: &impl Abort,
    alloc: Global,
    parts: (u64, u64),
    fault: Fault,
) -> FormatAccess<D> {
    FormatAccess::new(created(rt, alloc, parts, PLAIN, fault))
}

/// Prepares a range. What is refused for memory is made again.
fn prepared<D: FormatDriverInstance>(
    rt: &impl Abort,
    alloc: Global,
    image: &mut FormatAccess<D>,
    range: (u64, u64),
    overwrite: bool,
) -> Result<PreparedDataMapping<D::State>, Error> {
    match prepare(rt, alloc, image, range, overwrite) {
        Err(Error::Memory) => prepare(rt, alloc, image, range, overwrite),
        other => other,
    }
}

/// Writes equal bytes over all of a mapping.
fn write_to<D: FormatDriverInstance>(
    rt: &impl Abort,
    alloc: Global,
    image: &mut FormatAccess<D>,
    mapping: &PreparedDataMapping<D::State>,
) -> Result<(), Error> {
    let bytes = equal(rt, alloc, mapping.length(), 0xee);
    match write_prepared(rt, alloc, image, mapping, &bytes, 0) {
        Err(Error::Memory) => write_prepared(rt, alloc, image, mapping, &bytes, 0),
        other => other,
    }
}

/// How many guest blocks are in data blocks.
fn used<D: FormatDriverInstance<Storage = Faulty, State = CowState> + Disk>(
    image: &FormatAccess<D>,
) -> u64 {
    image.inner().used()
}

/// What is made on a disk and looked at.
#[derive(Clone, Copy)]
pub(super) enum Promise {
    /// A data block is added only where none is free.
    Blocks,
    /// A mapping that doesn't wait is refused by name.
    Strangers,
    /// So is a cancelled one.
    Cancelled,
    /// A new disk has its size, its block and its count of blocks.
    Created,
    /// Zeroes of a whole guest block use no data.
    Zeroed,
    /// A list prepares and cancels.
    List,
}

/// Makes that on disks.
pub(super) fn keep<D: FormatDriverInstance<Storage = Faulty, State = CowState> + Disk>(
    rt: &impl Abort,
    alloc: Global,
    promise: Promise,
) {
    match promise {
        Promise::Blocks => act_on_each::<D>(rt, alloc),
        Promise::Strangers => refuse_strangers::<D>(rt, alloc),
        Promise::Cancelled => refuse_cancelled::<D>(rt, alloc),
        Promise::Created => are_created::<D>(rt, alloc),
        Promise::Zeroed => are_zeroed::<D>(rt, alloc),
        Promise::List => cancel_by_a_list::<D>(rt, alloc),
    }
}

/// What is done with a range of a disk.
#[derive(Clone, Copy)]
enum Act {
    /// It is prepared, which is refused.
    Refuse,
    /// It is prepared, for overwriting or not, and cancelled.
    Cancel(bool),
    /// It is prepared, for overwriting or not, and committed.
    Commit(bool),
    /// It is given back.
    Give,
}

/// What is done with a range; and then where it was prepared in the storage, how many guest blocks
/// are in data blocks, and the storage's length.
type Row = ((u64, u64), Act, u64, u64, u64);

/// On a disk in guest blocks of 16, over a storage of 20 bytes.
static ROWS: [Row; 9] = [
    ((3, 5), Act::Refuse, 0, 0, 20),
    ((0, 16), Act::Cancel(true), 0, 0, 20),
    ((16, 16), Act::Cancel(true), 0, 0, 20),
    ((3, 5), Act::Commit(false), 3, 1, 20),
    ((20, 1), Act::Cancel(false), 20, 1, 32),
    ((40, 1), Act::Commit(false), 24, 2, 32),
    ((0, 16), Act::Give, 0, 1, 32),
    ((50, 1), Act::Commit(false), 2, 2, 32),
    ((0, 1), Act::Commit(false), 32, 3, 48),
];

/// Prepares a range at that offset of the storage.
fn prepared_at<D: FormatDriverInstance>(
    rt: &impl Abort,
    alloc: Global,
    image: &mut FormatAccess<D>,
    range: (u64, u64),
    overwrite: bool,
    at: u64,
) -> PreparedDataMapping<D::State> {
    let mapping = prepared(rt, alloc, image, range, overwrite).expect(rt, "a mapping");
    assert_eq!(rt; (mapping.offset(), mapping.length()), (at, range.1));
    mapping
}

/// Does that with a range, which is prepared at that offset of the storage.
fn act_on<D: FormatDriverInstance>(
    rt: &impl Abort,
    alloc: Global,
    image: &mut FormatAccess<D>,
    (range, act): ((u64, u64), Act),
    at: u64,
) {
    match act {
        Act::Refuse => match prepared(rt, alloc, image, range, false) {
            Ok(mapping) => {
                cancel(image, mapping);
                assert!(rt; false, "prepared in spite of a fault");
            }
            Err(refusal) => assert_eq!(rt; refusal, Error::Device),
        },
        Act::Cancel(overwrite) => {
            let mapping = prepared_at(rt, alloc, image, range, overwrite, at);
            cancel(image, mapping);
        }
        Act::Commit(overwrite) => {
            let mapping = prepared_at(rt, alloc, image, range, overwrite, at);
            assert_eq!(rt; commit(image, mapping), Ok(()));
        }
        Act::Give => on(rt, alloc, image, Call::DiscardToBacking(range.0, range.1)),
    }
}

/// The rows on a disk.
fn act_on_each<D: FormatDriverInstance<Storage = Faulty, State = CowState> + Disk>(
    rt: &impl Abort,
    alloc: Global,
) {
    let mut image = alone::<D>(rt, alloc, (64, 16), Fault::Storage(0, Tear::All));
    for &(range, act, at, expected, length) in &ROWS {
        act_on(rt, alloc, &mut image, (range, act), at);
        assert_eq!(rt; used(&image), expected);
        assert_eq!(rt; storage_of(rt, &image).as_bytes().len() as u64, length);
    }
}

#[test]
fn a_data_block_is_added_only_where_none_is_free(rt: HostRuntime) {
    try_cow(&rt, rt.alloc(), Trial::Promise(Promise::Blocks));
}

/// A mapping of bytes of a storage, with that state if there is one.
fn of_state(storage: usize, (offset, count): (u64, u64), state: Option<CowState>) -> Mapping {
    match state {
        Some(state) => PreparedDataMapping::to_commit(storage, offset, count, state),
        None => PreparedDataMapping::existing(storage, offset, count),
    }
}

/// What a mapping holds.
fn state_of(mapping: &Mapping) -> Option<CowState> {
    match mapping.state() {
        Some(state) => Some(*state),
        None => None,
    }
}

/// Equal bytes are written over all of a mapping, which is committed.
fn are_written_and_committed<D: FormatDriverInstance>(
    rt: &impl Abort,
    alloc: Global,
    image: &mut FormatAccess<D>,
    mapping: PreparedDataMapping<D::State>,
) {
    assert_eq!(rt; write_to(rt, alloc, image, &mapping), Ok(()));
    assert_eq!(rt; commit(image, mapping), Ok(()));
}

/// A write into the mapping is refused by name, and so is its commit where it has a state. A cancel
/// does nothing.
fn is_foreign<D: FormatDriverInstance<State = CowState>>(
    rt: &impl Abort,
    alloc: Global,
    image: &mut FormatAccess<D>,
    (storage, range): (usize, (u64, u64)),
    state: Option<CowState>,
) {
    let waits = image.inner().has_prepared();
    let mapping = of_state(storage, range, state);
    assert_eq!(rt; write_to(rt, alloc, image, &mapping), FOREIGN);
    let answer = commit(image, mapping);
    if state.is_some() {
        assert_eq!(rt; answer, FOREIGN);
    }
    cancel(image, of_state(storage, range, state));
    assert_eq!(rt; image.inner().has_prepared(), waits);
}

/// Bytes of storages that aren't those of the mapping that waits, which has the first storage's
/// bytes 3 to 6, and no places'.
static STRANGERS: [(usize, (u64, u64)); 7] = [
    (0, (2, 4)),
    (0, (3, 3)),
    (0, (3, 5)),
    (1, (3, 4)),
    (0, (16, 1)),
    (0, (u64::MAX - 3, 4)),
    (0, (u64::MAX, 1)),
];

/// The mapping with that state is refused while that one waits, and so is each stranger.
fn are_foreign<D: FormatDriverInstance<State = CowState>>(
    rt: &impl Abort,
    alloc: Global,
    image: &mut FormatAccess<D>,
    state: Option<CowState>,
) {
    is_foreign(rt, alloc, image, (0, (3, 4)), None);
    for &range in &STRANGERS {
        is_foreign(rt, alloc, image, range, state);
        is_foreign(rt, alloc, image, range, None);
    }
}

/// Places stand in the data block now, but none behind it. Only what was written is shown.
fn is_written_where_places_stand<D: FormatDriverInstance<State = CowState>>(
    rt: &impl Abort,
    alloc: Global,
    image: &mut FormatAccess<D>,
) {
    let existing = of_state(0, (9, 2), None);
    assert_eq!(rt; write_to(rt, alloc, image, &existing), Ok(()));
    cancel(image, existing);
    is_foreign(rt, alloc, image, (0, (15, 2)), None);
    let shown = shown(rt, alloc, &*image);
    for (i, &byte) in shown.iter().enumerate() {
        let is_written = (3 <= i && i <= 6) || (9 <= i && i <= 10);
        assert_eq!(rt; byte, if is_written { 0xee } else { 0 });
    }
}

/// What one disk prepares is foreign to another one, and what it didn't prepare to itself.
fn refuse_strangers<D: FormatDriverInstance<Storage = Faulty, State = CowState> + Disk>(
    rt: &impl Abort,
    alloc: Global,
) {
    let mut image = alone::<D>(rt, alloc, (64, 16), Fault::Never);
    let mut other = alone::<D>(rt, alloc, (64, 16), Fault::Never);
    let waiting = prepared_at(rt, alloc, &mut image, (3, 4), false, 3);
    let state = state_of(&waiting);
    is_foreign(rt, alloc, &mut other, (0, (3, 4)), state);
    are_foreign(rt, alloc, &mut image, state);
    // what waits has its data block already
    assert_eq!(rt; used(&image), 1);
    are_written_and_committed(rt, alloc, &mut image, waiting);
    is_foreign(rt, alloc, &mut image, (0, (3, 4)), state);
    assert_eq!(rt; used(&image), 1);
    assert_eq!(rt; used(&other), 0);
    is_written_where_places_stand(rt, alloc, &mut image);
}

#[test]
fn a_mapping_that_does_not_wait_is_refused_by_name(rt: HostRuntime) {
    try_cow(&rt, rt.alloc(), Trial::Promise(Promise::Strangers));
}

/// What a disk has cancelled is foreign to it.
fn refuse_cancelled<D: FormatDriverInstance<Storage = Faulty, State = CowState> + Disk>(
    rt: &impl Abort,
    alloc: Global,
) {
    let mut image = alone::<D>(rt, alloc, (64, 16), Fault::Never);
    let cancelled = prepared_at(rt, alloc, &mut image, (3, 4), false, 3);
    let state = state_of(&cancelled);
    cancel(&mut image, cancelled);
    is_foreign(rt, alloc, &mut image, (0, (3, 4)), state);
    let waiting = prepared_at(rt, alloc, &mut image, (3, 4), false, 3);
    is_foreign(rt, alloc, &mut image, (0, (3, 4)), state);
    are_written_and_committed(rt, alloc, &mut image, waiting);
    on(rt, alloc, &mut image, Call::DiscardToZero(0, 16));
    is_foreign(rt, alloc, &mut image, (0, (3, 4)), None);
    assert_eq!(rt; used(&image), 0);
    let shown = shown(rt, alloc, &image);
    assert_eq!(rt; byte_at(&shown, 3), 0);
}

#[test]
fn a_cancelled_mapping_is_refused_by_name(rt: HostRuntime) {
    try_cow(&rt, rt.alloc(), Trial::Promise(Promise::Cancelled));
}

/// A size, a guest block's length, and how many of them there are.
static CREATED: [(u64, u64, u64); 7] = [
    (0, 1, 0),
    (0, 1_048_576, 0),
    (1, 1, 1),
    (1, 1_048_576, 1),
    (5, 1, 5),
    (5, 2, 3),
    (1_048_577, 1_048_576, 2),
];

/// A new disk of that size, which is then written, has so many guest blocks.
fn is_created<D: FormatDriverInstance<Storage = Faulty, State = CowState> + Disk>(
    rt: &impl Abort,
    alloc: Global,
    (size, block, count): (u64, u64, u64),
) {
    let mut image = alone::<D>(rt, alloc, (size, block), Fault::Never);
    assert_eq!(rt; image.inner().block(), block);
    assert!(rt; shown(rt, alloc, &image) == equal(rt, alloc, size, 0));
    assert_eq!(rt; used(&image), 0);
    on(rt, alloc, &mut image, Call::Write(0, size, 1));
    assert!(rt; shown(rt, alloc, &image) == numbers(rt, alloc, size, 1));
    assert_eq!(rt; used(&image), count);
}

/// So is each disk of the rows.
fn are_created<D: FormatDriverInstance<Storage = Faulty, State = CowState> + Disk>(
    rt: &impl Abort,
    alloc: Global,
) {
    for &row in &CREATED {
        is_created::<D>(rt, alloc, row);
    }
}

#[test]
fn disks_of_any_size_are_created(rt: HostRuntime) {
    try_cow(&rt, rt.alloc(), Trial::Promise(Promise::Created));
}

/// A size and a guest block's length, the calls on the disk, what it is then from its beginning on,
/// and how many guest blocks are in data.
type Zeroed = ((u64, u64), &'static [Call], (&'static str, u64), u64);

/// Zeroes take a data block where their guest block has other bytes, and give it back where they
/// are all of it.
static ZEROED: [Zeroed; 4] = [
    (
        (16, 4),
        &[Call::WriteZeroes(1, 2)],
        ("<zero:explicit>", 4),
        0,
    ),
    (
        (10, 65536),
        &[Call::Write(0, 10, 1), Call::WriteZeroes(3, 4)],
        ("0/0:0x0/rw", 10),
        1,
    ),
    (
        (10, 65536),
        &[Call::Write(0, 10, 1), Call::WriteZeroes(0, 10)],
        ("<zero:explicit>", 10),
        0,
    ),
    (
        (10, 65536),
        &[Call::Write(2, 3, 1), Call::DiscardToZero(0, 10)],
        ("<zero:explicit>", 10),
        0,
    ),
];

/// The calls of a row on its disk, and what that is then.
fn is_zeroed<D: FormatDriverInstance<Storage = Faulty, State = CowState> + Disk>(
    rt: &impl Abort,
    alloc: Global,
    &(parts, calls, (text, length), expected): &Zeroed,
) {
    let mut image = alone::<D>(rt, alloc, parts, Fault::Never);
    for &call in calls {
        on(rt, alloc, &mut image, call);
    }
    let (mapping, count) = told_mapping(rt, alloc, &image, (0, parts.0));
    assert_eq!(rt; mapping.as_str(), text);
    assert_eq!(rt; count, length);
    assert_eq!(rt; used(&image), expected);
}

/// So is each disk of the rows.
fn are_zeroed<D: FormatDriverInstance<Storage = Faulty, State = CowState> + Disk>(
    rt: &impl Abort,
    alloc: Global,
) {
    for row in &ZEROED {
        is_zeroed::<D>(rt, alloc, row);
    }
}

#[test]
fn zeroes_of_a_whole_guest_block_use_no_data(rt: HostRuntime) {
    try_cow(&rt, rt.alloc(), Trial::Promise(Promise::Zeroed));
}

/// Runs a list that prepares the first guest block, writes a byte there, and cancels it. Answers
/// whether there was memory for it.
fn is_cancelled_by_a_list<D: FormatDriverInstance>(
    rt: &impl Abort,
    alloc: Global,
    image: &mut FormatAccess<D>,
) -> bool {
    let mut replies = Vec::new(alloc);
    let calls = [run::Call::Prepared {
        offset: 0,
        length: 4,
        overwrite: false,
        bytes: equal(rt, alloc, 1, 0xff),
        commit: false,
    }];
    assert!(rt; is_spent(&*image));
    if run::run(alloc, image, &calls, &mut replies).is_err() {
        return false;
    }
    match replies.first() {
        Some(
            Reply::Prepared {
                length,
                nonblocking,
            },
        ) => {
            assert_eq!(rt; (*length, *nonblocking), (4, false));
            true
        }
        _ => false,
    }
}

/// Writes equal bytes over all of a disk of 16.
fn fill<D: FormatDriverInstance>(rt: &impl Abort, alloc: Global, image: &mut FormatAccess<D>) {
    let bytes = equal(rt, alloc, 16, 0x11);
    let mut answer = write_at(rt, alloc, image, &bytes, 0);
    if answer == Err(Error::Memory) {
        answer = write_at(rt, alloc, image, &bytes, 0);
    }
    assert_eq!(rt; answer, Ok(()));
}

/// A disk of four guest blocks of 4, above one whose bytes are all the same, where there is memory
/// for it.
fn over_equal_bytes<D: FormatDriverInstance<Storage = Faulty, State = CowState> + Disk>(
    rt: &impl Abort,
    alloc: Global,
) -> Option<FormatAccess<D>> {
    let mut lower = alone(rt, alloc, (16, 4), Fault::Never);
    fill(rt, alloc, &mut lower);
    let below = Box::new(alloc, lower).ok()?;
    let driver = created(rt, alloc, (16, 4), PLAIN, Fault::Never);
    Some(above(rt, driver, Some(below)))
}

/// A list prepares and cancels on such a disk.
fn cancel_by_a_list<D: FormatDriverInstance<Storage = Faulty, State = CowState> + Disk>(
    rt: &impl Abort,
    alloc: Global,
) {
    let mut image = match over_equal_bytes::<D>(rt, alloc) {
        Some(image) => image,
        None => over_equal_bytes(rt, alloc).expect(rt, "memory for layers"),
    };
    if !is_cancelled_by_a_list(rt, alloc, &mut image) {
        assert!(rt; is_cancelled_by_a_list(rt, alloc, &mut image));
    }
    assert!(rt; shown(rt, alloc, &image) == equal(rt, alloc, 16, 0x11));
    assert_eq!(rt; used(&image), 0);
    // the data block is free again, with the byte that was written and those that were copied round
    // it
    let stored = storage_of(rt, &image).as_bytes();
    assert!(rt; stored.get(..5) == Some(&[0xff, 0x11, 0x11, 0x11, 0x99]));
    on(rt, alloc, &mut image, Call::Write(0, 1, 1));
    assert_eq!(rt; used(&image), 1);
    let shown = shown(rt, alloc, &image);
    assert_eq!(rt; byte_at(&shown, 0), 1);
    assert_eq!(rt; byte_at(&shown, 1), 0x11);
}

#[test]
fn a_list_prepares_and_cancels(rt: HostRuntime) {
    try_cow(&rt, rt.alloc(), Trial::Promise(Promise::List));
}

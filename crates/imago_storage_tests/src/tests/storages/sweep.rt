// SPDX-License-Identifier: MIT
//! A failure at each call of a change, with each tear, over several alignments.
use super::script::{Call, NAME};
use super::set_up::{copied, is_old_or_new, offsets, owned, runs, same};
use super::subject::{Kind, Subject};
use imago_storage::error::Error;
use imago_test_storages::faulty::Tear;
use std::alloc::Global;
use std::process::Abort;

/// The length of the storage, and the range that is changed. It begins and ends inside a block of 8
/// and of 512.
const SIZE: usize = 2048;

const OFFSET: usize = 515;

const COUNT: usize = 1030;

static TEARS: [Tear; 4] = [Tear::Nothing, Tear::All, Tear::First(3), Tear::Odd];

/// A storage, and a change of it, with the bytes that it is to leave.
#[derive(Clone, Copy)]
struct Change<'a> {
    kind: Kind,
    call: Call,
    before: &'a [u8],
    after: &'a [u8],
}

/// A storage in blocks of that length, which fails at that call.
fn armed(
    rt: &impl Abort,
    alloc: Global,
    align: usize,
    change: &Change,
    pass: u64,
    tear: Tear,
) -> Subject {
    let bytes = copied(rt, alloc, change.before);
    let name = owned(rt, alloc, NAME);
    let mut subject = Subject::new(rt, change.kind, name, bytes, (align, align, align));
    subject.arm(rt, pass, tear);
    subject
}

/// Makes the change, a second time where memory is refused.
fn make_for_sure(
    rt: &impl Abort,
    alloc: Global,
    subject: &mut Subject,
    change: &Change,
) -> Result<(), Error> {
    match subject.make(rt, alloc, change.call).0 {
        Err(Error::Memory) => subject.make(rt, alloc, change.call).0,
        answer => answer,
    }
}

/// Makes the change with a failure at that call, and answers whether it was refused. Once the
/// device has failed, it is made again and succeeds.
fn is_refused(
    rt: &impl Abort,
    alloc: Global,
    align: usize,
    change: &Change,
    pass: u64,
    tear: Tear,
) -> bool {
    let mut subject = armed(rt, alloc, align, change, pass, tear);
    let mut answer = subject.make(rt, alloc, change.call).0;
    if answer == Err(Error::Memory) {
        assert!(rt;
            is_old_or_new(change.before, change.after, subject.bytes()),
            "no memory at {pass}"
        );
        subject = armed(rt, alloc, align, change, pass, tear);
        answer = subject.make(rt, alloc, change.call).0;
    }
    if answer == Ok(()) {
        assert!(rt; subject.bytes() == change.after, "done at {pass}");
        same(rt, &subject.faults(1), &0);
        return false;
    }
    assert_eq!(rt; answer, Err(Error::Device), "{align} {pass}");
    assert!(rt;
        is_old_or_new(change.before, change.after, subject.bytes()),
        "refused at {pass}"
    );
    same(rt, &subject.faults(0), &1);
    let again = make_for_sure(rt, alloc, &mut subject, change);
    assert_eq!(rt; again, Ok(()), "{align} {pass}");
    assert!(rt; subject.bytes() == change.after, "done again at {pass}");
    true
}

/// How many calls a change makes: it is refused at each of them, and at none behind them.
fn calls(rt: &impl Abort, alloc: Global, align: usize, change: &Change, tear: Tear) -> u64 {
    for pass in 0..10 {
        if !is_refused(rt, alloc, align, change, pass, tear) {
            return pass;
        }
    }
    10
}

/// The bytes before a change, each of which tells its offset, and the bytes behind it.
fn bytes(rt: &impl Abort, alloc: Global, written: Option<bool>) -> (Vec<u8>, Vec<u8>) {
    let mut before = offsets(rt, alloc, 0, SIZE);
    for byte in before.iter_mut() {
        *byte = byte.saturating_sub(100);
    }
    let mut after = copied(rt, alloc, &before);
    let source = match written {
        Some(true) => offsets(rt, alloc, OFFSET as u64, COUNT),
        Some(false) => runs(rt, alloc, &[(COUNT, 0)]),
        None => Vec::new(alloc),
    };
    for (i, byte) in source.iter().enumerate() {
        if let Some(place) = after.get_mut(OFFSET.saturating_add(i)) {
            *place = *byte;
        }
    }
    (before, after)
}

/// A change, the storage that it is made on, whether it writes bytes, zeroes or nothing, and how
/// many calls it makes over blocks of
/// 1, of 8 and of 512 bytes.
///
/// In blocks of 1 byte a change makes one call. In others a block is read and written at each end,
/// and the blocks between are written. Without zero writes what stands before the first block is
/// written as data, and what follows: both read and write a block, and the second one writes whole
/// blocks too.
static CHANGES: [(Kind, Call, Option<bool>, [u64; 3]); 8] = [
    (
        Kind::Faulty,
        Call::WriteOffsets(515, 1030),
        Some(true),
        [1, 5, 5],
    ),
    (
        Kind::FaultyUnzeroed,
        Call::WriteOffsets(515, 1030),
        Some(true),
        [1, 5, 5],
    ),
    (Kind::Faulty, Call::Zero(515, 1030), Some(false), [1, 5, 5]),
    (
        Kind::FaultyUnzeroed,
        Call::Zero(515, 1030),
        Some(false),
        [1, 5, 5],
    ),
    (
        Kind::Faulty,
        Call::ZeroAllocated(515, 1030),
        Some(false),
        [1, 5, 5],
    ),
    (
        Kind::FaultyUnzeroed,
        Call::ZeroAllocated(515, 1030),
        Some(false),
        [1, 5, 5],
    ),
    // bytes in memory stay where they are discarded
    (Kind::Faulty, Call::Discard(515, 1030), None, [1, 1, 1]),
    (
        Kind::FaultyUnzeroed,
        Call::Discard(515, 1030),
        None,
        [1, 1, 1],
    ),
];

fn check_a_change_fails_at_each_call(rt: &impl Abort, alloc: Global) {
    for &(kind, call, written, expected) in &CHANGES {
        let (before, after) = bytes(rt, alloc, written);
        let change = Change {
            kind,
            call,
            before: &before,
            after: &after,
        };
        for &tear in &TEARS {
            for (align, expected) in [1, 8, 512].into_iter().zip(expected) {
                let made = calls(rt, alloc, align, &change, tear);
                assert_eq!(rt; made, expected, "{align}");
            }
        }
    }
}

#[test]
fn a_change_fails_at_each_call(rt: HostRuntime) {
    check_a_change_fails_at_each_call(&rt, rt.alloc());
}

/// What is left at an offset: zero in the first MiB, and at each odd offset of the second one.
fn left_at(offset: usize) -> u8 {
    let zeroed = offset < 1048576 || offset < 2097152 && offset % 2 == 1;
    if zeroed { 0 } else { 0xff }
}

/// Whether three MiB are left, with each byte as it should be.
fn is_zeroed_into_its_second_piece(bytes: &[u8]) -> bool {
    for (i, &byte) in bytes.iter().enumerate() {
        if byte != left_at(i) {
            return false;
        }
    }
    bytes.len() == 3145728
}

#[test]
fn a_zero_write_as_data_stops_in_its_second_piece(rt: HostRuntime) {
    let alloc = rt.alloc();
    let before = runs(&rt, alloc, &[(3145728, 0xff)]);
    let change = Change {
        kind: Kind::FaultyUnzeroed,
        call: Call::Zero(0, 3145728),
        before: &before,
        after: &[],
    };
    let mut subject = armed(&rt, alloc, 1, &change, 1, Tear::Odd);
    let mut answer = subject.make(&rt, alloc, change.call).0;
    if answer == Err(Error::Memory) {
        subject = armed(&rt, alloc, 1, &change, 1, Tear::Odd);
        answer = subject.make(&rt, alloc, change.call).0;
    }
    same(&rt, &answer, &Err(Error::Device));
    assert!(rt; is_zeroed_into_its_second_piece(subject.bytes()));
}

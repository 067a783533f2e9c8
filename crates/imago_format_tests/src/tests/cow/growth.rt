// SPDX-License-Identifier: MIT
//! A disk whose end cuts a guest block, grown in each mode.
use super::call::{Answer, Call, Level};
use super::set_up::byte_at;
use super::subject::{Disk, Fault, LentDriver, PLAIN, Subject};
use super::trial::{Trial, try_cow};
use imago_drivers::drivers::{FormatDriverInstance, PreallocateMode};
use imago_storage::error::Error;
use imago_test_storages::faulty::Faulty;
use std::alloc::Global;
use std::process::Abort;

/// The size: two guest blocks of 16, and 6 bytes of a third one.
const SIZE: u64 = 38;

/// The new size, which is behind the end of the layer below, at 50.
const GROWN: u64 = 52;

/// What some bytes are.
#[derive(Clone, Copy)]
enum Shown {
    /// That byte, each.
    Same(u8),
    /// That byte, and each the next one. The layer below has 150 at 0, and so on.
    From(u8),
    Any,
}

use Shown::{Any, From, Same};

/// What is done first, and then, with that mode, what is shown from 36 on, run by run, and how many
/// data blocks there are.
type Row = (Call, PreallocateMode, &'static [(u64, Shown)], u64);

/// The last guest block leads below.
const ABSENT: Call = Call::Shrink(SIZE);

/// It is an explicit zero.
const ZERO: Call = Call::WriteZeroes(32, 6);

/// It is data, and old bytes are behind.
const DATA: Call = Call::Write(32, 6, 1);

/// What the layer below has from 36 on, and behind its end.
const LOWER: &[(u64, Shown)] = &[(14, From(186)), (2, Same(0))];

/// Zeroes, and then the same from 38 on.
const ZERO_AND_LOWER: &[(u64, Shown)] = &[(2, Same(0)), (12, From(188)), (2, Same(0))];

/// Data, and then the same.
const DATA_AND_LOWER: &[(u64, Shown)] = &[(2, From(5)), (12, From(188)), (2, Same(0))];

static ROWS: [Row; 15] = [
    (ABSENT, PreallocateMode::None, LOWER, 0),
    (
        ZERO,
        PreallocateMode::None,
        &[(12, Same(0)), (2, From(198)), (2, Same(0))],
        0,
    ),
    (
        DATA,
        PreallocateMode::None,
        &[(2, From(5)), (10, Any), (2, From(198)), (2, Same(0))],
        1,
    ),
    (
        ABSENT,
        PreallocateMode::Zero,
        &[(2, From(186)), (14, Same(0))],
        1,
    ),
    (ZERO, PreallocateMode::Zero, &[(16, Same(0))], 0),
    (
        DATA,
        PreallocateMode::Zero,
        &[(2, From(5)), (14, Same(0))],
        1,
    ),
    (ABSENT, PreallocateMode::FormatAllocate, LOWER, 2),
    (ZERO, PreallocateMode::FormatAllocate, ZERO_AND_LOWER, 2),
    (DATA, PreallocateMode::FormatAllocate, DATA_AND_LOWER, 2),
    (ABSENT, PreallocateMode::FullAllocate, LOWER, 2),
    (ZERO, PreallocateMode::FullAllocate, ZERO_AND_LOWER, 2),
    (DATA, PreallocateMode::FullAllocate, DATA_AND_LOWER, 2),
    (ABSENT, PreallocateMode::WriteData, LOWER, 2),
    (ZERO, PreallocateMode::WriteData, ZERO_AND_LOWER, 2),
    (DATA, PreallocateMode::WriteData, DATA_AND_LOWER, 2),
];

/// Whether bytes from 36 on are those.
fn are_shown(bytes: &[u8], runs: &[(u64, Shown)]) -> bool {
    let mut at: u64 = SIZE - 2;
    for &(count, shown) in runs {
        for i in 0..count {
            let byte = byte_at(bytes, at);
            let right = match shown {
                Same(same) => byte == same,
                From(first) => byte as u64 == (first as u64).saturating_add(i),
                Any => true,
            };
            if !right {
                return false;
            }
            at = at.saturating_add(1);
        }
    }
    at == bytes.len() as u64
}

/// Makes a call of an image that succeeds.
fn on<
    D: FormatDriverInstance<Storage = Faulty> + Disk,
    E: FormatDriverInstance<Storage = Faulty> + LentDriver,
>(rt: &impl Abort, alloc: Global, subject: &mut Subject<D, E>, call: Call) {
    let step = (Level::Image, call);
    let mut answer = subject.make(rt, alloc, step);
    if answer == Answer::Refused(Error::Memory) {
        answer = subject.make(rt, alloc, step);
    }
    assert_eq!(rt; answer, Answer::Done);
}

/// A disk of each row is grown.
pub(super) fn grow_each<
    D: FormatDriverInstance<Storage = Faulty> + Disk,
    E: FormatDriverInstance<Storage = Faulty> + LentDriver,
>(rt: &impl Abort, alloc: Global) {
    for &(before, mode, runs, used) in &ROWS {
        let mut subject = Subject::<D, E>::open(rt, alloc, SIZE, PLAIN, Fault::Never);
        on(rt, alloc, &mut subject, before);
        on(rt, alloc, &mut subject, Call::Grow(GROWN, mode));
        let shown = subject.contents(rt, alloc);
        assert!(rt; are_shown(&shown, runs), "other bytes are shown");
        assert_eq!(rt; subject.used(), used);
    }
}

#[test]
fn a_cut_guest_block_is_filled_as_the_mode_says(rt: HostRuntime) {
    try_cow(&rt, rt.alloc(), Trial::Growth);
}

// SPDX-License-Identifier: MIT
//! Each call of the storages, once, where it succeeds.
use super::script::{Call, Script, Step, check_all};
use super::subject::Kind;
use imago_storage::storage::{PreallocateMode, ZeroKind};
use imago_test_storages::recording::Recorded;
use std::alloc::Global;
use std::process::Abort;

/// Bytes without alignments.
const BYTES: (usize, usize, usize) = (1, 1, 1);

static CALLS: [Script; 4] = [
    // aligned calls on memory
    Script {
        kind: Kind::Memory,
        aligns: BYTES,
        given: &[(6, 1)],
        steps: &[
            Step::AtOnce(
                Call::PureWrite(1, &[(1, 2), (1, 3)]),
                &[(1, 1), (1, 2), (1, 3), (3, 1)],
            ),
            Step::AtOnce(
                Call::PureRead(2, &[(1, 3), (1, 1)]),
                &[(1, 1), (1, 2), (1, 3), (3, 1)],
            ),
            Step::AtOnce(
                Call::PureReadMut(5, &[(1, 1), (1, 0)]),
                &[(1, 1), (1, 2), (1, 3), (3, 1)],
            ),
            Step::AtOnce(Call::PureZero(0, 2), &[(2, 0), (1, 3), (3, 1)]),
            Step::AtOnce(
                Call::PureZeroAllocated(5, 1),
                &[(2, 0), (1, 3), (2, 1), (1, 0)],
            ),
            Step::AtOnce(Call::PureDiscard(0, 2), &[(2, 0), (1, 3), (2, 1), (1, 0)]),
            Step::AtOnce(Call::Flush, &[(2, 0), (1, 3), (2, 1), (1, 0)]),
            Step::AtOnce(Call::Sync, &[(2, 0), (1, 3), (2, 1), (1, 0)]),
            Step::AtOnce(Call::Settle, &[(2, 0), (1, 3), (2, 1), (1, 0)]),
            Step::AtOnce(Call::Invalidate, &[(2, 0), (1, 3), (2, 1), (1, 0)]),
        ],
    },
    // aligned calls on zeroes
    Script {
        kind: Kind::Zeroes(4),
        aligns: BYTES,
        given: &[],
        steps: &[
            Step::AtOnce(Call::PureWrite(3, &[(1, 2), (1, 3)]), &[(5, 0)]),
            Step::AtOnce(Call::PureRead(3, &[(2, 0)]), &[(5, 0)]),
            Step::AtOnce(Call::PureReadMut(100, &[(2, 0)]), &[(5, 0)]),
            Step::AtOnce(Call::PureZero(4, 4), &[(8, 0)]),
            Step::AtOnce(Call::PureDiscard(0, 8), &[(8, 0)]),
            Step::AtOnce(Call::Flush, &[(8, 0)]),
            Step::AtOnce(Call::Sync, &[(8, 0)]),
            Step::AtOnce(Call::Settle, &[(8, 0)]),
            Step::AtOnce(Call::Invalidate, &[(8, 0)]),
            Step::AtOnce(Call::Resize(3, PreallocateMode::WriteData), &[(3, 0)]),
        ],
    },
    // zeroes that are allocated are made as data
    Script {
        kind: Kind::Zeroes(4),
        aligns: BYTES,
        given: &[],
        steps: &[Step::Done(Call::PureZeroAllocated(4, 5), &[(9, 0)])],
    },
    // calls of any range on memory
    Script {
        kind: Kind::Memory,
        aligns: BYTES,
        given: &[(8, 1)],
        steps: &[
            Step::AtOnce(Call::Write(1, &[(1, 2)]), &[(1, 1), (1, 2), (6, 1)]),
            Step::AtOnce(
                Call::Writev(2, &[(1, 3), (1, 4)]),
                &[(1, 1), (1, 2), (1, 3), (1, 4), (4, 1)],
            ),
            Step::AtOnce(
                Call::Read(0, &[(1, 1), (1, 2), (1, 3)]),
                &[(1, 1), (1, 2), (1, 3), (1, 4), (4, 1)],
            ),
            Step::AtOnce(
                Call::Readv(3, &[(1, 4), (2, 1)]),
                &[(1, 1), (1, 2), (1, 3), (1, 4), (4, 1)],
            ),
            Step::AtOnce(Call::Zero(0, 1), &[(1, 0), (1, 2), (1, 3), (1, 4), (4, 1)]),
            Step::AtOnce(
                Call::ZeroAllocated(7, 1),
                &[(1, 0), (1, 2), (1, 3), (1, 4), (3, 1), (1, 0)],
            ),
            Step::AtOnce(
                Call::Discard(4, 4),
                &[(1, 0), (1, 2), (1, 3), (1, 4), (3, 1), (1, 0)],
            ),
        ],
    },
];

fn check_each_call_succeeds(rt: &impl Abort, alloc: Global) {
    check_all(rt, alloc, &CALLS);
}

#[test]
fn each_call_succeeds(rt: HostRuntime) {
    check_each_call_succeeds(&rt, rt.alloc());
}

static RESIZES: [Script; 4] = [
    Script {
        kind: Kind::Memory,
        aligns: (512, 512, 512),
        given: &[(4, 7)],
        steps: &[
            Step::Done(Call::Resize(6, PreallocateMode::None), &[(4, 7), (2, 0)]),
            Step::AtOnce(Call::Resize(6, PreallocateMode::None), &[(4, 7), (2, 0)]),
            Step::AtOnce(Call::Resize(1, PreallocateMode::None), &[(1, 7)]),
            Step::Done(Call::Resize(3, PreallocateMode::None), &[(1, 7), (2, 0)]),
        ],
    },
    Script {
        kind: Kind::Memory,
        aligns: (512, 512, 512),
        given: &[(4, 7)],
        steps: &[
            Step::Done(Call::Resize(6, PreallocateMode::Zero), &[(4, 7), (2, 0)]),
            Step::AtOnce(Call::Resize(6, PreallocateMode::Zero), &[(4, 7), (2, 0)]),
            Step::AtOnce(Call::Resize(1, PreallocateMode::Zero), &[(1, 7)]),
            Step::Done(Call::Resize(3, PreallocateMode::Zero), &[(1, 7), (2, 0)]),
        ],
    },
    Script {
        kind: Kind::Memory,
        aligns: (512, 512, 512),
        given: &[(4, 7)],
        steps: &[
            Step::Done(
                Call::Resize(6, PreallocateMode::Allocate),
                &[(4, 7), (2, 0)],
            ),
            Step::AtOnce(
                Call::Resize(6, PreallocateMode::Allocate),
                &[(4, 7), (2, 0)],
            ),
            Step::AtOnce(Call::Resize(1, PreallocateMode::Allocate), &[(1, 7)]),
            Step::Done(
                Call::Resize(3, PreallocateMode::Allocate),
                &[(1, 7), (2, 0)],
            ),
        ],
    },
    Script {
        kind: Kind::Memory,
        aligns: (512, 512, 512),
        given: &[(4, 7)],
        steps: &[
            Step::Done(
                Call::Resize(6, PreallocateMode::WriteData),
                &[(4, 7), (2, 0)],
            ),
            Step::AtOnce(
                Call::Resize(6, PreallocateMode::WriteData),
                &[(4, 7), (2, 0)],
            ),
            Step::AtOnce(Call::Resize(1, PreallocateMode::WriteData), &[(1, 7)]),
            Step::Done(
                Call::Resize(3, PreallocateMode::WriteData),
                &[(1, 7), (2, 0)],
            ),
        ],
    },
];

fn check_memory_grows_by_zeroes_and_shrinks(rt: &impl Abort, alloc: Global) {
    check_all(rt, alloc, &RESIZES);
}

#[test]
fn memory_grows_by_zeroes_and_shrinks(rt: HostRuntime) {
    check_memory_grows_by_zeroes_and_shrinks(&rt, rt.alloc());
}

static LENT: [Script; 2] = [
    // aligned calls
    Script {
        kind: Kind::Lent,
        aligns: (2, 1, 1),
        given: &[(6, 1)],
        steps: &[
            Step::AtOnce(
                Call::PureWrite(1, &[(1, 2), (1, 3)]),
                &[(1, 1), (1, 2), (1, 3), (3, 1)],
            ),
            Step::Reached(&[Recorded::Write(1, 2)]),
            Step::AtOnce(
                Call::PureRead(2, &[(1, 3), (1, 1)]),
                &[(1, 1), (1, 2), (1, 3), (3, 1)],
            ),
            Step::Reached(&[]),
            Step::AtOnce(
                Call::PureReadMut(0, &[(1, 1), (1, 2)]),
                &[(1, 1), (1, 2), (1, 3), (3, 1)],
            ),
            Step::Reached(&[Recorded::Read(0, 2)]),
            Step::AtOnce(
                Call::PureZero(4, 2),
                &[(1, 1), (1, 2), (1, 3), (1, 1), (2, 0)],
            ),
            Step::Reached(&[Recorded::Zero(4, 2, ZeroKind::Any)]),
            Step::AtOnce(
                Call::PureZeroAllocated(0, 1),
                &[(1, 0), (1, 2), (1, 3), (1, 1), (2, 0)],
            ),
            Step::Reached(&[Recorded::Zero(0, 1, ZeroKind::Allocated)]),
            Step::AtOnce(
                Call::PureDiscard(4, 2),
                &[(1, 0), (1, 2), (1, 3), (1, 1), (2, 0)],
            ),
            Step::Reached(&[Recorded::Discard(4, 2)]),
            Step::AtOnce(Call::Flush, &[(1, 0), (1, 2), (1, 3), (1, 1), (2, 0)]),
            Step::Reached(&[Recorded::Flush]),
            Step::AtOnce(Call::Sync, &[(1, 0), (1, 2), (1, 3), (1, 1), (2, 0)]),
            Step::Reached(&[Recorded::Sync]),
            Step::AtOnce(Call::Settle, &[(1, 0), (1, 2), (1, 3), (1, 1), (2, 0)]),
            Step::Reached(&[Recorded::Settle]),
            Step::AtOnce(Call::Invalidate, &[(1, 0), (1, 2), (1, 3), (1, 1), (2, 0)]),
            Step::Reached(&[Recorded::Invalidate]),
            Step::AtOnce(
                Call::Resize(4, PreallocateMode::None),
                &[(1, 0), (1, 2), (1, 3), (1, 1)],
            ),
            Step::Reached(&[Recorded::Resize(4, PreallocateMode::None)]),
            Step::Done(
                Call::Resize(5, PreallocateMode::Allocate),
                &[(1, 0), (1, 2), (1, 3), (1, 1), (1, 0)],
            ),
            Step::Reached(&[Recorded::Resize(5, PreallocateMode::Allocate)]),
        ],
    },
    // calls of any range
    Script {
        kind: Kind::Lent,
        aligns: (8, 8, 8),
        given: &[(16, 0xff)],
        steps: &[
            Step::Done(Call::Write(3, &[(10, 0)]), &[(3, 0xff), (10, 0), (3, 0xff)]),
            Step::Reached(&[
                Recorded::Read(0, 8),
                Recorded::Write(0, 8),
                Recorded::Read(8, 8),
                Recorded::Write(8, 8),
            ]),
            Step::AtOnce(
                Call::Writev(0, &[(8, 0xee)]),
                &[(8, 0xee), (5, 0), (3, 0xff)],
            ),
            Step::Reached(&[Recorded::Write(0, 8)]),
            Step::Done(
                Call::Read(7, &[(1, 0xee), (1, 0)]),
                &[(8, 0xee), (5, 0), (3, 0xff)],
            ),
            Step::Reached(&[]),
            Step::Done(Call::Zero(0, 9), &[(13, 0), (3, 0xff)]),
            Step::Reached(&[
                Recorded::Zero(0, 8, ZeroKind::Any),
                Recorded::Read(8, 8),
                Recorded::Write(8, 8),
            ]),
            Step::AtOnce(Call::ZeroAllocated(8, 8), &[(16, 0)]),
            Step::Reached(&[Recorded::Zero(8, 8, ZeroKind::Allocated)]),
            Step::AtOnce(Call::Discard(7, 9), &[(16, 0)]),
            Step::Reached(&[Recorded::Discard(8, 8)]),
        ],
    },
];

#[test]
fn each_call_reaches_a_lent_storage(rt: HostRuntime) {
    check_all(&rt, rt.alloc(), &LENT);
}

// SPDX-License-Identifier: MIT
//! A storage that doesn't tell its bytes: the first byte that each pure read gives is the complement
//! of the one that stands there. Its calls, refusals and lengths are those of the storage inside.
//!
//! Where a part of a block is written, the rest of the block is written back as it was read.
use super::script::{Call, Script, Step, check_all};
use super::subject::Kind;
use imago_storage::error::Error;
use imago_storage::storage::{PreallocateMode, ZeroKind};
use imago_test_storages::faulty::Tear;
use imago_test_storages::recording::Recorded;
use std::alloc::Global;
use std::process::Abort;

/// Blocks of 8 bytes.
const BLOCKS: (usize, usize, usize) = (8, 8, 8);

/// Bytes without alignments.
const BYTES: (usize, usize, usize) = (1, 1, 1);

static READS: [Script; 2] = [
    // a short read is made at once, and a long one in three parts
    Script {
        kind: Kind::Untold,
        aligns: BLOCKS,
        given: &[(40, 0xa5)],
        steps: &[
            Step::Done(Call::Read(7, &[(2, 0xa5)]), &[(40, 0xa5)]),
            Step::Shared(&[Recorded::Read(0, 16)]),
            Step::Done(Call::Readv(8, &[(1, 0x5a), (2, 0xa5)]), &[(40, 0xa5)]),
            Step::Shared(&[Recorded::Read(8, 8)]),
            Step::Done(
                Call::Read(3, &[(5, 0xa5), (1, 0x5a), (23, 0xa5), (1, 0x5a)]),
                &[(40, 0xa5)],
            ),
            Step::Shared(&[
                Recorded::Read(0, 8),
                Recorded::Read(8, 24),
                Recorded::Read(32, 8),
            ]),
            // past the end
            Step::Done(Call::Read(39, &[(1, 0xa5), (2, 0)]), &[(40, 0xa5)]),
            Step::Shared(&[Recorded::Read(32, 16)]),
            Step::Done(Call::Read(41, &[(2, 0)]), &[(40, 0xa5)]),
            // an aligned one is made at once
            Step::AtOnce(Call::Read(16, &[(1, 0x5a), (15, 0xa5)]), &[(40, 0xa5)]),
            Step::Shared(&[Recorded::Read(16, 16)]),
            Step::Reached(&[]),
            Step::AtOnce(Call::Read(u64::MAX, &[]), &[(40, 0xa5)]),
            Step::Shared(&[]),
        ],
    },
    // pure reads
    Script {
        kind: Kind::Untold,
        aligns: BYTES,
        given: &[(4, 1)],
        steps: &[
            Step::AtOnce(Call::PureRead(1, &[(1, 0xfe), (2, 1)]), &[(4, 1)]),
            Step::Shared(&[Recorded::Read(1, 3)]),
            Step::AtOnce(Call::PureReadMut(2, &[(1, 0xfe), (1, 1)]), &[(4, 1)]),
            Step::Reached(&[Recorded::Read(2, 2)]),
            Step::AtOnce(Call::PureRead(4, &[(1, 0xff), (1, 0)]), &[(4, 1)]),
            Step::AtOnce(Call::PureRead(4, &[]), &[(4, 1)]),
        ],
    },
];

fn check_reads_give_other_bytes(rt: &impl Abort, alloc: Global) {
    check_all(rt, alloc, &READS);
}

#[test]
fn reads_give_other_bytes(rt: HostRuntime) {
    check_reads_give_other_bytes(&rt, rt.alloc());
}

static WRITES: [Script; 2] = [
    Script {
        kind: Kind::Untold,
        aligns: BLOCKS,
        given: &[(16, 0xff)],
        steps: &[
            Step::Done(
                Call::Write(3, &[(10, 0)]),
                &[(1, 0), (2, 0xff), (10, 0), (3, 0xff)],
            ),
            Step::Reached(&[
                Recorded::Read(0, 8),
                Recorded::Write(0, 8),
                Recorded::Read(8, 8),
                Recorded::Write(8, 8),
            ]),
            Step::AtOnce(
                Call::Writev(0, &[(8, 0xee)]),
                &[(8, 0xee), (5, 0), (3, 0xff)],
            ),
            Step::Reached(&[Recorded::Write(0, 8)]),
            Step::Done(Call::Zero(0, 9), &[(13, 0), (3, 0xff)]),
            Step::Reached(&[
                Recorded::Zero(0, 8, ZeroKind::Any),
                Recorded::Read(8, 8),
                Recorded::Write(8, 8),
            ]),
            Step::Done(Call::Zero(9, 3), &[(8, 0), (1, 0xff), (4, 0), (3, 0xff)]),
            Step::Reached(&[Recorded::Read(8, 8), Recorded::Write(8, 8)]),
            Step::AtOnce(Call::ZeroAllocated(8, 8), &[(16, 0)]),
            Step::Reached(&[Recorded::Zero(8, 8, ZeroKind::Allocated)]),
            Step::AtOnce(Call::Discard(7, 9), &[(16, 0)]),
            Step::Reached(&[Recorded::Discard(8, 8)]),
            // it grows up to the end of the last block
            Step::Done(Call::Write(8, &[(12, 0x77)]), &[(8, 0), (12, 0x77), (4, 0)]),
            Step::Reached(&[
                Recorded::Write(8, 8),
                Recorded::Read(16, 8),
                Recorded::Write(16, 8),
            ]),
            Step::Done(
                Call::Resize(30, PreallocateMode::Zero),
                &[(8, 0), (12, 0x77), (10, 0)],
            ),
            Step::Reached(&[Recorded::Resize(30, PreallocateMode::Zero)]),
            Step::AtOnce(
                Call::Resize(10, PreallocateMode::None),
                &[(8, 0), (2, 0x77)],
            ),
            Step::Reached(&[Recorded::Resize(10, PreallocateMode::None)]),
        ],
    },
    // aligned calls
    Script {
        kind: Kind::Untold,
        aligns: BYTES,
        given: &[(6, 1)],
        steps: &[
            Step::AtOnce(
                Call::PureWrite(1, &[(1, 2), (1, 3)]),
                &[(1, 1), (1, 2), (1, 3), (3, 1)],
            ),
            Step::Reached(&[Recorded::Write(1, 2)]),
            Step::AtOnce(Call::PureZero(0, 4), &[(4, 0), (2, 1)]),
            Step::Reached(&[Recorded::Zero(0, 4, ZeroKind::Any)]),
            Step::AtOnce(Call::PureZeroAllocated(5, 1), &[(4, 0), (1, 1), (1, 0)]),
            Step::Reached(&[Recorded::Zero(5, 1, ZeroKind::Allocated)]),
            Step::AtOnce(Call::PureDiscard(4, 2), &[(4, 0), (1, 1), (1, 0)]),
            Step::Reached(&[Recorded::Discard(4, 2)]),
            Step::AtOnce(Call::Flush, &[(4, 0), (1, 1), (1, 0)]),
            Step::Reached(&[Recorded::Flush]),
            Step::AtOnce(Call::Sync, &[(4, 0), (1, 1), (1, 0)]),
            Step::Reached(&[Recorded::Sync]),
            Step::AtOnce(Call::Settle, &[(4, 0), (1, 1), (1, 0)]),
            Step::Reached(&[Recorded::Settle]),
            Step::AtOnce(Call::Invalidate, &[(4, 0), (1, 1), (1, 0)]),
            Step::Reached(&[Recorded::Invalidate]),
        ],
    },
];

fn check_writes_make_the_same_calls(rt: &impl Abort, alloc: Global) {
    check_all(rt, alloc, &WRITES);
}

#[test]
fn writes_make_the_same_calls(rt: HostRuntime) {
    check_writes_make_the_same_calls(&rt, rt.alloc());
}

static REFUSALS: [Script; 3] = [
    // the read of the first block, its write, and the read of the last one
    Script {
        kind: Kind::UntoldFaulty,
        aligns: BLOCKS,
        given: &[(16, 0xff)],
        steps: &[
            Step::Arm(0, Tear::All),
            Step::Refused(Call::Write(3, &[(10, 0)]), Error::Device, &[(16, 0xff)]),
            Step::Arm(1, Tear::First(4)),
            Step::Refused(
                Call::Write(3, &[(10, 0)]),
                Error::Device,
                &[(1, 0), (2, 0xff), (1, 0), (12, 0xff)],
            ),
            Step::Arm(2, Tear::Nothing),
            Step::Refused(
                Call::Write(3, &[(10, 0)]),
                Error::Device,
                &[(3, 0xff), (5, 0), (8, 0xff)],
            ),
            Step::Done(
                Call::Write(3, &[(10, 0)]),
                &[(1, 0), (2, 0xff), (10, 0), (3, 0xff)],
            ),
        ],
    },
    // shared reads, a zero write, a discard and a resize
    Script {
        kind: Kind::UntoldFaulty,
        aligns: BLOCKS,
        given: &[(16, 0xff)],
        steps: &[
            Step::FailReads(true),
            Step::Refused(Call::Read(3, &[(2, 0xff)]), Error::Device, &[(16, 0xff)]),
            Step::Refused(Call::Read(0, &[(8, 0xff)]), Error::Device, &[(16, 0xff)]),
            Step::FailReads(false),
            Step::Done(Call::Read(3, &[(2, 0xff)]), &[(16, 0xff)]),
            Step::Arm(0, Tear::First(2)),
            Step::Refused(
                Call::Zero(8, 8),
                Error::Device,
                &[(8, 0xff), (2, 0), (6, 0xff)],
            ),
            Step::Arm(0, Tear::Nothing),
            Step::Refused(
                Call::Discard(0, 16),
                Error::Device,
                &[(8, 0xff), (2, 0), (6, 0xff)],
            ),
            Step::RefuseResizes(1),
            Step::Refused(
                Call::Resize(8, PreallocateMode::None),
                Error::Device,
                &[(8, 0xff), (2, 0), (6, 0xff)],
            ),
            Step::AtOnce(Call::Resize(8, PreallocateMode::None), &[(8, 0xff)]),
        ],
    },
    // requests that wrap around at the greatest offset
    Script {
        kind: Kind::Untold,
        aligns: (4096, 4096, 4096),
        given: &[(3, 0xa5)],
        steps: &[
            Step::Refused(
                Call::Read(u64::MAX - 100, &[(50, 0)]),
                Error::WrapAround,
                &[(3, 0xa5)],
            ),
            Step::Refused(
                Call::Write(u64::MAX - 100, &[(50, 0x5a)]),
                Error::WrapAround,
                &[(3, 0xa5)],
            ),
            Step::Refused(
                Call::Zero(u64::MAX - 10, 5),
                Error::WrapAround,
                &[(3, 0xa5)],
            ),
            Step::Refused(
                Call::Discard(u64::MAX - 10, 5),
                Error::WrapAround,
                &[(3, 0xa5)],
            ),
            Step::Reached(&[]),
        ],
    },
];

fn check_refusals_are_those_of_the_storage_inside(rt: &impl Abort, alloc: Global) {
    check_all(rt, alloc, &REFUSALS);
}

#[test]
fn refusals_are_those_of_the_storage_inside(rt: HostRuntime) {
    check_refusals_are_those_of_the_storage_inside(&rt, rt.alloc());
}

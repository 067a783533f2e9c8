// SPDX-License-Identifier: MIT
//! Zero writes and discards of any alignment.
use super::script::{Call, Script, Step, check_all};
use super::subject::Kind;
use imago_storage::error::Error;
use imago_storage::storage::ZeroKind;
use imago_test_storages::counting::Counts;
use imago_test_storages::faulty::Tear;
use imago_test_storages::recording::Recorded;
use std::alloc::Global;
use std::process::Abort;

static AS_DATA: [Script; 4] = [
    // 11 bytes are no multiple of 8, so they are padded as a write is: from 1 to 17
    Script {
        kind: Kind::AsData,
        aligns: (8, 1, 1),
        given: &[(16, 0xff)],
        steps: &[
            Step::Done(Call::Zero(1, 11), &[(1, 0xff), (11, 0), (4, 0xff), (1, 0)]),
            Step::Reached(&[
                Recorded::Zero(1, 11, ZeroKind::Any),
                Recorded::Write(1, 8),
                Recorded::Read(9, 8),
                Recorded::Write(9, 8),
            ]),
        ],
    },
    // a multiple is written by the default
    Script {
        kind: Kind::AsData,
        aligns: (8, 1, 1),
        given: &[(16, 0xff)],
        steps: &[
            Step::Done(Call::ZeroAllocated(1, 8), &[(1, 0xff), (8, 0), (7, 0xff)]),
            Step::Reached(&[
                Recorded::Zero(1, 8, ZeroKind::Allocated),
                Recorded::Write(1, 8),
            ]),
        ],
    },
    // the default writes no more than 1 MiB at once
    Script {
        kind: Kind::AsData,
        aligns: (8, 8, 8),
        given: &[(2097168, 0xff)],
        steps: &[
            Step::Done(Call::PureZero(8, 2097160), &[(8, 0xff), (2097160, 0)]),
            Step::Reached(&[
                Recorded::Zero(8, 2097160, ZeroKind::Any),
                Recorded::Write(8, 1048576),
                Recorded::Write(1048584, 1048576),
                Recorded::Write(2097160, 8),
            ]),
            Step::Done(Call::PureZeroAllocated(0, 8), &[(2097168, 0)]),
            Step::Reached(&[
                Recorded::Zero(0, 8, ZeroKind::Allocated),
                Recorded::Write(0, 8),
            ]),
        ],
    },
    // it refuses what is no multiple of the memory alignment
    Script {
        kind: Kind::AsData,
        aligns: (8, 1, 1),
        given: &[(16, 0xff)],
        steps: &[
            Step::Refused(Call::PureZero(1, 11), Error::Unsupported, &[(16, 0xff)]),
            Step::Reached(&[Recorded::Zero(1, 11, ZeroKind::Any)]),
        ],
    },
];

fn check_a_zero_write_is_made_as_data(rt: &impl Abort, alloc: Global) {
    check_all(rt, alloc, &AS_DATA);
}

#[test]
fn a_zero_write_is_made_as_data(rt: HostRuntime) {
    check_a_zero_write_is_made_as_data(&rt, rt.alloc());
}

static IN_PLACE: [Script; 5] = [
    // an edge of the zero alignment is zeroed as data
    Script {
        kind: Kind::Memory,
        aligns: (1, 1, 8),
        given: &[(16, 0xff)],
        steps: &[Step::Done(Call::Zero(3, 13), &[(3, 0xff), (13, 0)])],
    },
    Script {
        kind: Kind::Memory,
        aligns: (1, 1, 8),
        given: &[(16, 0xff)],
        steps: &[Step::Done(Call::ZeroAllocated(3, 13), &[(3, 0xff), (13, 0)])],
    },
    // a range with no aligned part is
    Script {
        kind: Kind::Memory,
        aligns: (1, 1, 8),
        given: &[(16, 0xff)],
        steps: &[Step::Done(Call::Zero(3, 9), &[(3, 0xff), (9, 0), (4, 0xff)])],
    },
    // a zero write past the end grows
    Script {
        kind: Kind::Memory,
        aligns: (8, 8, 8),
        given: &[(4, 0xff)],
        steps: &[
            Step::Done(Call::Zero(8, 8), &[(4, 0xff), (12, 0)]),
            Step::Done(Call::Zero(17, 2), &[(4, 0xff), (20, 0)]),
            Step::Done(Call::Zero(u64::MAX, 0), &[(4, 0xff), (20, 0)]),
        ],
    },
    // shared reads and zero writes count nothing
    Script {
        kind: Kind::Counting,
        aligns: (4096, 4096, 4096),
        given: &[(20000, 0xa5)],
        steps: &[
            Step::AtOnce(
                Call::Zero(4096, 8192),
                &[(4096, 0xa5), (8192, 0), (7712, 0xa5)],
            ),
            Step::AtOnce(
                Call::Read(8192, &[(4096, 0)]),
                &[(4096, 0xa5), (8192, 0), (7712, 0xa5)],
            ),
            Step::Counted(Counts {
                reads: 0,
                bytes_read: 0,
                writes: 0,
                bytes_written: 0,
                longest_write: 0,
            }),
        ],
    },
];

fn check_a_zero_write_zeroes_its_range_alone(rt: &impl Abort, alloc: Global) {
    check_all(rt, alloc, &IN_PLACE);
}

#[test]
fn a_zero_write_zeroes_its_range_alone(rt: HostRuntime) {
    check_a_zero_write_zeroes_its_range_alone(&rt, rt.alloc());
}

static DISCARDS: [Script; 4] = [
    // memory keeps its bytes
    Script {
        kind: Kind::Memory,
        aligns: (1, 1, 8),
        given: &[(3, 0xfe), (10, 0xff), (3, 0xfd)],
        steps: &[Step::AtOnce(Call::Discard(3, 10), &[(3, 0xfe), (10, 0xff), (3, 0xfd)])],
    },
    // the aligned part is discarded, if there is one
    Script {
        kind: Kind::Recording,
        aligns: (8, 8, 8),
        given: &[(32, 0xff)],
        steps: &[
            Step::AtOnce(Call::Discard(3, 22), &[(32, 0xff)]),
            Step::Reached(&[Recorded::Discard(8, 16)]),
            Step::AtOnce(Call::Discard(1, 14), &[(32, 0xff)]),
            Step::Reached(&[]),
            Step::AtOnce(Call::Discard(0, 32), &[(32, 0xff)]),
            Step::Reached(&[Recorded::Discard(0, 32)]),
            Step::AtOnce(Call::Discard(16, 0), &[(32, 0xff)]),
            Step::Reached(&[]),
        ],
    },
    // a storage that takes none is asked, and that is no refusal
    Script {
        kind: Kind::Undiscarded,
        aligns: (8, 8, 8),
        given: &[(32, 0xff)],
        steps: &[
            Step::AtOnce(Call::Discard(3, 22), &[(32, 0xff)]),
            Step::Reached(&[Recorded::Discard(8, 16)]),
            Step::Refused(Call::PureDiscard(8, 16), Error::Unsupported, &[(32, 0xff)]),
            Step::Reached(&[Recorded::Discard(8, 16)]),
        ],
    },
    // a device that fails refuses, and no whole block is in the first range
    Script {
        kind: Kind::Faulty,
        aligns: (8, 8, 8),
        given: &[(16, 0xff)],
        steps: &[
            Step::Arm(0, Tear::Nothing),
            Step::AtOnce(Call::Discard(1, 14), &[(16, 0xff)]),
            Step::Refused(Call::Discard(1, 15), Error::Device, &[(16, 0xff)]),
            Step::AtOnce(Call::Discard(1, 15), &[(16, 0xff)]),
        ],
    },
];

fn check_a_discard_takes_whole_blocks(rt: &impl Abort, alloc: Global) {
    check_all(rt, alloc, &DISCARDS);
}

#[test]
fn a_discard_takes_whole_blocks(rt: HostRuntime) {
    check_a_discard_takes_whole_blocks(&rt, rt.alloc());
}

// three pieces of 1 MiB, the second of which fails
static PIECES: [Script; 2] = [
    Script {
        kind: Kind::FaultyUnzeroed,
        aligns: (1, 1, 1),
        given: &[(3145728, 0xff)],
        steps: &[
            Step::Arm(1, Tear::Nothing),
            Step::Refused(
                Call::Zero(0, 3145728),
                Error::Device,
                &[(1048576, 0), (2097152, 0xff)],
            ),
        ],
    },
    Script {
        kind: Kind::FaultyUnzeroed,
        aligns: (1, 1, 1),
        given: &[(3145728, 0xff)],
        steps: &[
            Step::Arm(1, Tear::All),
            Step::Refused(
                Call::Zero(0, 3145728),
                Error::Device,
                &[(2097152, 0), (1048576, 0xff)],
            ),
        ],
    },
];

#[test]
fn a_fault_in_the_second_piece_leaves_the_third(rt: HostRuntime) {
    check_all(&rt, rt.alloc(), &PIECES);
}

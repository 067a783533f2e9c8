// SPDX-License-Identifier: MIT
//! What a failing device leaves.
use super::script::{Call, Script, Step, check_all};
use super::subject::Kind;
use imago_storage::error::Error;
use imago_storage::storage::PreallocateMode;
use imago_test_storages::faulty::Tear;
use std::alloc::Global;
use std::process::Abort;

/// Sixteen bytes in blocks of 8.
const BLOCKS: (usize, usize, usize) = (8, 8, 8);

/// Bytes without alignments.
const BYTES: (usize, usize, usize) = (1, 1, 1);

// read and write of the first block, read and write of the last
static WRITES: [Script; 9] = [
    Script {
        kind: Kind::Faulty,
        aligns: BLOCKS,
        given: &[(16, 0xff)],
        steps: &[
            Step::Arm(0, Tear::Nothing),
            Step::Refused(Call::Write(3, &[(10, 0)]), Error::Device, &[(16, 0xff)]),
            Step::Done(Call::Write(3, &[(10, 0)]), &[(3, 0xff), (10, 0), (3, 0xff)]),
        ],
    },
    Script {
        kind: Kind::Faulty,
        aligns: BLOCKS,
        given: &[(16, 0xff)],
        steps: &[
            Step::Arm(0, Tear::All),
            Step::Refused(Call::Write(3, &[(10, 0)]), Error::Device, &[(16, 0xff)]),
            Step::Done(Call::Write(3, &[(10, 0)]), &[(3, 0xff), (10, 0), (3, 0xff)]),
        ],
    },
    Script {
        kind: Kind::Faulty,
        aligns: BLOCKS,
        given: &[(16, 0xff)],
        steps: &[
            Step::Arm(1, Tear::Nothing),
            Step::Refused(Call::Write(3, &[(10, 0)]), Error::Device, &[(16, 0xff)]),
            Step::Done(Call::Write(3, &[(10, 0)]), &[(3, 0xff), (10, 0), (3, 0xff)]),
        ],
    },
    Script {
        kind: Kind::Faulty,
        aligns: BLOCKS,
        given: &[(16, 0xff)],
        steps: &[
            Step::Arm(1, Tear::All),
            Step::Refused(
                Call::Write(3, &[(10, 0)]),
                Error::Device,
                &[(3, 0xff), (5, 0), (8, 0xff)],
            ),
            Step::Done(Call::Write(3, &[(10, 0)]), &[(3, 0xff), (10, 0), (3, 0xff)]),
        ],
    },
    Script {
        kind: Kind::Faulty,
        aligns: BLOCKS,
        given: &[(16, 0xff)],
        steps: &[
            Step::Arm(2, Tear::Nothing),
            Step::Refused(
                Call::Write(3, &[(10, 0)]),
                Error::Device,
                &[(3, 0xff), (5, 0), (8, 0xff)],
            ),
            Step::Done(Call::Write(3, &[(10, 0)]), &[(3, 0xff), (10, 0), (3, 0xff)]),
        ],
    },
    Script {
        kind: Kind::Faulty,
        aligns: BLOCKS,
        given: &[(16, 0xff)],
        steps: &[
            Step::Arm(2, Tear::All),
            Step::Refused(
                Call::Write(3, &[(10, 0)]),
                Error::Device,
                &[(3, 0xff), (5, 0), (8, 0xff)],
            ),
            Step::Done(Call::Write(3, &[(10, 0)]), &[(3, 0xff), (10, 0), (3, 0xff)]),
        ],
    },
    Script {
        kind: Kind::Faulty,
        aligns: BLOCKS,
        given: &[(16, 0xff)],
        steps: &[
            Step::Arm(3, Tear::Nothing),
            Step::Refused(
                Call::Write(3, &[(10, 0)]),
                Error::Device,
                &[(3, 0xff), (5, 0), (8, 0xff)],
            ),
            Step::Done(Call::Write(3, &[(10, 0)]), &[(3, 0xff), (10, 0), (3, 0xff)]),
        ],
    },
    Script {
        kind: Kind::Faulty,
        aligns: BLOCKS,
        given: &[(16, 0xff)],
        steps: &[
            Step::Arm(3, Tear::All),
            Step::Refused(
                Call::Write(3, &[(10, 0)]),
                Error::Device,
                &[(3, 0xff), (10, 0), (3, 0xff)],
            ),
            Step::Done(Call::Write(3, &[(10, 0)]), &[(3, 0xff), (10, 0), (3, 0xff)]),
        ],
    },
    // there is no fifth call
    Script {
        kind: Kind::Faulty,
        aligns: BLOCKS,
        given: &[(16, 0xff)],
        steps: &[
            Step::Arm(4, Tear::Nothing),
            Step::Done(Call::Write(3, &[(10, 0)]), &[(3, 0xff), (10, 0), (3, 0xff)]),
        ],
    },
];

fn check_a_write_stops_at_each_call(rt: &impl Abort, alloc: Global) {
    check_all(rt, alloc, &WRITES);
}

#[test]
fn a_write_stops_at_each_call(rt: HostRuntime) {
    check_a_write_stops_at_each_call(&rt, rt.alloc());
}

// the zero write, then the byte behind it as data, read and written
static ZEROES: [Script; 5] = [
    Script {
        kind: Kind::Faulty,
        aligns: BLOCKS,
        given: &[(16, 0xff)],
        steps: &[
            Step::Arm(0, Tear::Nothing),
            Step::Refused(Call::Zero(0, 9), Error::Device, &[(16, 0xff)]),
        ],
    },
    Script {
        kind: Kind::Faulty,
        aligns: BLOCKS,
        given: &[(16, 0xff)],
        steps: &[
            Step::Arm(0, Tear::All),
            Step::Refused(Call::Zero(0, 9), Error::Device, &[(8, 0), (8, 0xff)]),
        ],
    },
    Script {
        kind: Kind::Faulty,
        aligns: BLOCKS,
        given: &[(16, 0xff)],
        steps: &[
            Step::Arm(1, Tear::Nothing),
            Step::Refused(Call::Zero(0, 9), Error::Device, &[(8, 0), (8, 0xff)]),
        ],
    },
    Script {
        kind: Kind::Faulty,
        aligns: BLOCKS,
        given: &[(16, 0xff)],
        steps: &[
            Step::Arm(2, Tear::Nothing),
            Step::Refused(Call::Zero(0, 9), Error::Device, &[(8, 0), (8, 0xff)]),
        ],
    },
    Script {
        kind: Kind::Faulty,
        aligns: BLOCKS,
        given: &[(16, 0xff)],
        steps: &[
            Step::Arm(2, Tear::All),
            Step::Refused(Call::Zero(0, 9), Error::Device, &[(9, 0), (7, 0xff)]),
        ],
    },
];

fn check_a_zero_write_stops_at_each_call(rt: &impl Abort, alloc: Global) {
    check_all(rt, alloc, &ZEROES);
}

#[test]
fn a_zero_write_stops_at_each_call(rt: HostRuntime) {
    check_a_zero_write_stops_at_each_call(&rt, rt.alloc());
}

static KINDS: [Script; 5] = [
    // a shared read fails, and a write does not
    Script {
        kind: Kind::Faulty,
        aligns: BYTES,
        given: &[(4, 0xff)],
        steps: &[
            Step::FailReads(true),
            Step::Refused(Call::Read(0, &[(4, 0xff)]), Error::Device, &[(4, 0xff)]),
            Step::AtOnce(Call::Write(0, &[(1, 1)]), &[(1, 1), (3, 0xff)]),
            Step::FailReads(false),
            Step::AtOnce(Call::Read(0, &[(1, 1), (3, 0xff)]), &[(1, 1), (3, 0xff)]),
            Step::AtOnce(Call::Zero(0, 4), &[(4, 0)]),
        ],
    },
    // one of each kind goes through, and the next is refused
    Script {
        kind: Kind::Faulty,
        aligns: BYTES,
        given: &[(8, 0xff)],
        steps: &[
            Step::Arm(3, Tear::First(2)),
            Step::AtOnce(
                Call::Write(0, &[(1, 1), (1, 2)]),
                &[(1, 1), (1, 2), (6, 0xff)],
            ),
            Step::AtOnce(Call::Zero(7, 1), &[(1, 1), (1, 2), (5, 0xff), (1, 0)]),
            Step::AtOnce(Call::Discard(4, 1), &[(1, 1), (1, 2), (5, 0xff), (1, 0)]),
            Step::Refused(
                Call::ZeroAllocated(1, 3),
                Error::Device,
                &[(1, 1), (2, 0), (4, 0xff), (1, 0)],
            ),
            Step::Arm(0, Tear::All),
            Step::Refused(
                Call::Discard(4, 1),
                Error::Device,
                &[(1, 1), (2, 0), (4, 0xff), (1, 0)],
            ),
            Step::AtOnce(Call::Discard(4, 1), &[(1, 1), (2, 0), (4, 0xff), (1, 0)]),
        ],
    },
    // a zero write that isn't offered is no call
    Script {
        kind: Kind::FaultyUnzeroed,
        aligns: BYTES,
        given: &[(4, 0xff)],
        steps: &[
            Step::Arm(0, Tear::Nothing),
            Step::Refused(Call::PureZero(0, 4), Error::Unsupported, &[(4, 0xff)]),
            Step::Refused(
                Call::PureZeroAllocated(0, 4),
                Error::Unsupported,
                &[(4, 0xff)],
            ),
            Step::Refused(Call::Write(0, &[(1, 1)]), Error::Device, &[(4, 0xff)]),
            Step::AtOnce(Call::Write(0, &[(1, 1)]), &[(1, 1), (3, 0xff)]),
        ],
    },
    // lent, it refuses as its own
    Script {
        kind: Kind::LentUnzeroed,
        aligns: BYTES,
        given: &[(4, 0xff)],
        steps: &[
            Step::Refused(Call::PureZero(0, 4), Error::Unsupported, &[(4, 0xff)]),
            Step::Refused(
                Call::PureZeroAllocated(0, 4),
                Error::Unsupported,
                &[(4, 0xff)],
            ),
        ],
    },
    // resizes are refused so often
    Script {
        kind: Kind::Faulty,
        aligns: BYTES,
        given: &[(4, 1)],
        steps: &[
            Step::RefuseResizes(1),
            Step::Refused(
                Call::Resize(2, PreallocateMode::None),
                Error::Device,
                &[(4, 1)],
            ),
            Step::Done(Call::Resize(2, PreallocateMode::None), &[(2, 1)]),
            Step::AtOnce(Call::Flush, &[(2, 1)]),
            Step::AtOnce(Call::Sync, &[(2, 1)]),
            Step::AtOnce(Call::Settle, &[(2, 1)]),
            Step::AtOnce(Call::Invalidate, &[(2, 1)]),
        ],
    },
];

fn check_each_kind_of_call_fails(rt: &impl Abort, alloc: Global) {
    check_all(rt, alloc, &KINDS);
}

#[test]
fn each_kind_of_call_fails(rt: HostRuntime) {
    check_each_kind_of_call_fails(&rt, rt.alloc());
}

static TEARS: [Script; 7] = [
    Script {
        kind: Kind::Faulty,
        aligns: BYTES,
        given: &[(4, 0xff)],
        steps: &[
            Step::Arm(0, Tear::Nothing),
            Step::Refused(
                Call::Write(2, &[(1, 1), (1, 2), (1, 3)]),
                Error::Device,
                &[(4, 0xff)],
            ),
        ],
    },
    Script {
        kind: Kind::Faulty,
        aligns: BYTES,
        given: &[(4, 0xff)],
        steps: &[
            Step::Arm(0, Tear::All),
            Step::Refused(
                Call::Write(2, &[(1, 1), (1, 2), (1, 3)]),
                Error::Device,
                &[(2, 0xff), (1, 1), (1, 2), (1, 3)],
            ),
        ],
    },
    Script {
        kind: Kind::Faulty,
        aligns: BYTES,
        given: &[(4, 0xff)],
        steps: &[
            Step::Arm(0, Tear::First(0)),
            Step::Refused(
                Call::Write(2, &[(1, 1), (1, 2), (1, 3)]),
                Error::Device,
                &[(4, 0xff), (1, 0)],
            ),
        ],
    },
    Script {
        kind: Kind::Faulty,
        aligns: BYTES,
        given: &[(4, 0xff)],
        steps: &[
            Step::Arm(0, Tear::First(1)),
            Step::Refused(
                Call::Write(2, &[(1, 1), (1, 2), (1, 3)]),
                Error::Device,
                &[(2, 0xff), (1, 1), (1, 0xff), (1, 0)],
            ),
        ],
    },
    Script {
        kind: Kind::Faulty,
        aligns: BYTES,
        given: &[(4, 0xff)],
        steps: &[
            Step::Arm(0, Tear::First(9)),
            Step::Refused(
                Call::Write(2, &[(1, 1), (1, 2), (1, 3)]),
                Error::Device,
                &[(2, 0xff), (1, 1), (1, 2), (1, 3)],
            ),
        ],
    },
    Script {
        kind: Kind::Faulty,
        aligns: BYTES,
        given: &[(4, 0xff)],
        steps: &[
            Step::Arm(0, Tear::Odd),
            Step::Refused(
                Call::Write(2, &[(1, 1), (1, 2), (1, 3)]),
                Error::Device,
                &[(3, 0xff), (1, 2), (1, 0)],
            ),
        ],
    },
    // a growth without memory changes nothing: no vector is so long
    Script {
        kind: Kind::Faulty,
        aligns: BYTES,
        given: &[(4, 0xff)],
        steps: &[
            Step::Arm(0, Tear::All),
            Step::Refused(
                Call::Write(1 << 63, &[(1, 1), (1, 2)]),
                Error::Memory,
                &[(4, 0xff)],
            ),
            Step::Arm(0, Tear::First(1)),
            Step::Refused(
                Call::Write(1 << 63, &[(1, 1), (1, 2)]),
                Error::Memory,
                &[(4, 0xff)],
            ),
            Step::Arm(0, Tear::Odd),
            Step::Refused(
                Call::Write(1 << 63, &[(1, 1), (1, 2)]),
                Error::Memory,
                &[(4, 0xff)],
            ),
            Step::Arm(0, Tear::Nothing),
            Step::Refused(
                Call::Write(1 << 63, &[(1, 1), (1, 2)]),
                Error::Device,
                &[(4, 0xff)],
            ),
        ],
    },
];

fn check_a_refused_write_tears_as_it_is_told(rt: &impl Abort, alloc: Global) {
    check_all(rt, alloc, &TEARS);
}

#[test]
fn a_refused_write_tears_as_it_is_told(rt: HostRuntime) {
    check_a_refused_write_tears_as_it_is_told(&rt, rt.alloc());
}

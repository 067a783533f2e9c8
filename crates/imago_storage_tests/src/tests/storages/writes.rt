// SPDX-License-Identifier: MIT
//! Writes of any alignment.
use super::script::{Call, Script, Step, check_all};
use super::subject::Kind;
use imago_test_storages::counting::Counts;
use imago_test_storages::recording::Recorded;
use std::alloc::Global;
use std::process::Abort;

static PADDED: [Script; 4] = [
    // a last block is padded by zeroes
    Script {
        kind: Kind::Memory,
        aligns: (4096, 4096, 4096),
        given: &[(10000, 0xa5)],
        steps: &[Step::Done(
            Call::Write(9999, &[(1, 1)]),
            &[(9999, 0xa5), (1, 1), (2288, 0)],
        )],
    },
    // a request starts at the request alignment: from 512 on, a multiple of 4096 is taken
    Script {
        kind: Kind::Memory,
        aligns: (4096, 512, 512),
        given: &[],
        steps: &[Step::Done(Call::Write(512, &[(1, 7)]), &[(512, 0), (1, 7), (4095, 0)])],
    },
    // a request starts anywhere at request alignment 1
    Script {
        kind: Kind::Memory,
        aligns: (512, 1, 1),
        given: &[],
        steps: &[
            Step::Done(
                Call::Write(5, &[(1, 0xaa), (1, 0xbb), (1, 0xcc)]),
                &[(5, 0), (1, 0xaa), (1, 0xbb), (1, 0xcc), (509, 0)],
            ),
            Step::Done(
                Call::Read(5, &[(1, 0xaa), (1, 0xbb), (1, 0xcc)]),
                &[(5, 0), (1, 0xaa), (1, 0xbb), (1, 0xcc), (509, 0)],
            ),
        ],
    },
    // an alignment of 1 MiB pads a short storage
    Script {
        kind: Kind::Memory,
        aligns: (1048576, 1048576, 1048576),
        given: &[(3, 0x11)],
        steps: &[Step::Done(
            Call::Write(1, &[(1, 0xff)]),
            &[(1, 0x11), (1, 0xff), (1, 0x11), (1048573, 0)],
        )],
    },
];

#[test]
fn a_request_is_padded(rt: HostRuntime) {
    check_all(&rt, rt.alloc(), &PADDED);
}

static EMPTY: [Script; 1] = [Script {
    kind: Kind::Memory,
    aligns: (4096, 4096, 4096),
    given: &[(4, 0x11)],
    steps: &[
        Step::Done(Call::Write(u64::MAX, &[]), &[(4, 0x11)]),
        Step::Done(Call::Read(u64::MAX, &[]), &[(4, 0x11)]),
    ],
}];

#[test]
fn an_empty_request_does_nothing(rt: HostRuntime) {
    check_all(&rt, rt.alloc(), &EMPTY);
}

static ALIGNED: [Script; 2] = [
    Script {
        kind: Kind::Memory,
        aligns: (512, 1, 1),
        given: &[(5, 0), (3, 0xaa), (509, 0)],
        steps: &[Step::AtOnce(
            Call::Read(5, &[(3, 0xaa), (509, 0)]),
            &[(5, 0), (3, 0xaa), (509, 0)],
        )],
    },
    Script {
        kind: Kind::Memory,
        aligns: (512, 512, 512),
        given: &[(1024, 0x11)],
        steps: &[Step::AtOnce(
            Call::Write(512, &[(512, 0x22)]),
            &[(512, 0x11), (512, 0x22)],
        )],
    },
];

#[test]
fn an_aligned_request_inside_takes_no_memory(rt: HostRuntime) {
    check_all(&rt, rt.alloc(), &ALIGNED);
}

/// The alignments of a storage in blocks of 4096.
const BLOCKS: (usize, usize, usize) = (4096, 4096, 4096);

static COUNTED: [Script; 5] = [
    Script {
        kind: Kind::Counting,
        aligns: BLOCKS,
        given: &[(20000, 0xa5)],
        steps: &[
            Step::Done(
                Call::Write(1000, &[(9000, 0x3c)]),
                &[(1000, 0xa5), (9000, 0x3c), (10000, 0xa5)],
            ),
            Step::Counted(Counts {
                reads: 2,
                bytes_read: 8192,
                writes: 3,
                bytes_written: 12288,
                longest_write: 4096,
            }),
            Step::Done(
                Call::Read(1000, &[(9000, 0x3c)]),
                &[(1000, 0xa5), (9000, 0x3c), (10000, 0xa5)],
            ),
        ],
    },
    Script {
        kind: Kind::Counting,
        aligns: BLOCKS,
        given: &[(20000, 0xa5)],
        steps: &[
            Step::Done(
                Call::Write(4095, &[(4096, 0x3c)]),
                &[(4095, 0xa5), (4096, 0x3c), (11809, 0xa5)],
            ),
            Step::Counted(Counts {
                reads: 2,
                bytes_read: 8192,
                writes: 2,
                bytes_written: 8192,
                longest_write: 4096,
            }),
            Step::Done(
                Call::Read(4095, &[(4096, 0x3c)]),
                &[(4095, 0xa5), (4096, 0x3c), (11809, 0xa5)],
            ),
        ],
    },
    Script {
        kind: Kind::Counting,
        aligns: BLOCKS,
        given: &[(20000, 0xa5)],
        steps: &[
            Step::Done(
                Call::Write(4096, &[(4097, 0x3c)]),
                &[(4096, 0xa5), (4097, 0x3c), (11807, 0xa5)],
            ),
            Step::Counted(Counts {
                reads: 1,
                bytes_read: 4096,
                writes: 2,
                bytes_written: 8192,
                longest_write: 4096,
            }),
            Step::Done(
                Call::Read(4096, &[(4097, 0x3c)]),
                &[(4096, 0xa5), (4097, 0x3c), (11807, 0xa5)],
            ),
        ],
    },
    Script {
        kind: Kind::Counting,
        aligns: BLOCKS,
        given: &[(20000, 0xa5)],
        steps: &[
            Step::Done(
                Call::Write(9999, &[(1, 0x3c)]),
                &[(9999, 0xa5), (1, 0x3c), (10000, 0xa5)],
            ),
            Step::Counted(Counts {
                reads: 1,
                bytes_read: 4096,
                writes: 1,
                bytes_written: 4096,
                longest_write: 4096,
            }),
            Step::Done(
                Call::Read(9999, &[(1, 0x3c)]),
                &[(9999, 0xa5), (1, 0x3c), (10000, 0xa5)],
            ),
        ],
    },
    Script {
        kind: Kind::Counting,
        aligns: BLOCKS,
        given: &[(20000, 0xa5)],
        steps: &[
            Step::Done(
                Call::Write(4096, &[(8192, 0x3c)]),
                &[(4096, 0xa5), (8192, 0x3c), (7712, 0xa5)],
            ),
            Step::Counted(Counts {
                reads: 0,
                bytes_read: 0,
                writes: 1,
                bytes_written: 8192,
                longest_write: 8192,
            }),
            Step::Done(
                Call::Read(4096, &[(8192, 0x3c)]),
                &[(4096, 0xa5), (8192, 0x3c), (7712, 0xa5)],
            ),
        ],
    },
];

// a long read at an odd place is made in three parts: a first block, whole blocks, a last block
static SHARED: [Script; 2] = [
    Script {
        kind: Kind::Recording,
        aligns: BLOCKS,
        given: &[(20000, 0xa5)],
        steps: &[
            Step::Done(Call::Read(1000, &[(9000, 0xa5)]), &[(20000, 0xa5)]),
            Step::Shared(&[
                Recorded::Read(0, 4096),
                Recorded::Read(4096, 4096),
                Recorded::Read(8192, 4096),
            ]),
            Step::Reached(&[]),
        ],
    },
    // an aligned one is made at once
    Script {
        kind: Kind::Lent,
        aligns: BLOCKS,
        given: &[(20000, 0xa5)],
        steps: &[
            Step::AtOnce(Call::Read(4096, &[(8192, 0xa5)]), &[(20000, 0xa5)]),
            Step::Shared(&[Recorded::Read(4096, 8192)]),
        ],
    },
];

#[test]
fn a_long_read_is_made_in_three_parts(rt: HostRuntime) {
    check_all(&rt, rt.alloc(), &SHARED);
}

// a first block, whole blocks, a last block
fn check_only_partly_written_blocks_are_read(rt: &impl Abort, alloc: Global) {
    check_all(rt, alloc, &COUNTED);
}

#[test]
fn only_partly_written_blocks_are_read(rt: HostRuntime) {
    check_only_partly_written_blocks_are_read(&rt, rt.alloc());
}

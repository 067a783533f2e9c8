// SPDX-License-Identifier: MIT
//! Files with faults, and what is said of each.
//!
//! Expected verdicts and numbers are those of `qemu-img check`, version 7.2, on the same files; only a
//! file whose entry of a bitmap's table is invalid it doesn't open at all, and where a snapshot has
//! too much extra data it reads none of them.
use imago_qcow2::fault::HeaderFault;
use imago_qcow2_check::check::{Limits, Report, check};
use imago_qcow2_check::fault::{CheckError, Verdict};
use imago_storage::mem::MemStorage;
use std::alloc::{AllocError, Global};
use std::process::Abort;

/// How long the file is that has no fault, in bytes: six clusters of 512, which are the header, the
/// table of blocks of counts, a block, the L1 table, an L2 table, and data.
const LENGTH: usize = 3072;

/// The bytes of that file that aren't 0, each behind its offset.
static BASE: [(usize, u8); 24] = [
    (0x0, 0x51),
    (0x1, 0x46),
    (0x2, 0x49),
    (0x3, 0xfb),
    (0x7, 0x3),
    (0x17, 0x9),
    (0x1e, 0x10),
    (0x27, 0x1),
    (0x2e, 0x6),
    (0x36, 0x2),
    (0x3b, 0x1),
    (0x63, 0x4),
    (0x67, 0x68),
    (0x206, 0x4),
    (0x401, 0x1),
    (0x403, 0x1),
    (0x405, 0x1),
    (0x407, 0x1),
    (0x409, 0x1),
    (0x40b, 0x1),
    (0x600, 0x80),
    (0x606, 0x8),
    (0x800, 0x80),
    (0x806, 0xa),
];

/// How long the file is with a bitmap, in bytes: three more clusters, which are the directory of
/// bitmaps, the bitmap's table, and its bits.
const BITMAP_LENGTH: usize = 4608;

/// What the bytes are then that aren't those of the file above.
static BITMAP: [(usize, u8); 19] = [
    (0x5f, 0x1),
    (0x68, 0x23),
    (0x69, 0x85),
    (0x6a, 0x28),
    (0x6b, 0x75),
    (0x6f, 0x18),
    (0x73, 0x1),
    (0x7f, 0x20),
    (0x86, 0xc),
    (0x40d, 0x1),
    (0x40f, 0x1),
    (0x411, 0x1),
    (0xc06, 0xe),
    (0xc0b, 0x1),
    (0xc10, 0x1),
    (0xc11, 0x9),
    (0xc13, 0x1),
    (0xc18, 0x61),
    (0xe06, 0x10),
];

/// Which bytes of the file are changed, how long it is, and what is said of it.
#[derive(Drop)]
struct Row {
    name: &'static str,
    changes: &'static [(usize, u8)],
    length: usize,
    verdict: Verdict,
    corruptions: u64,
    leaks: u64,
}

static ROWS: [Row; 40] = [
    Row {
        name: "an image without a fault",
        changes: &[],
        length: LENGTH,
        verdict: Verdict::Faultless,
        corruptions: 0,
        leaks: 0,
    },
    Row {
        name: "the last cluster is cut",
        changes: &[],
        length: 2600,
        verdict: Verdict::Faultless,
        corruptions: 0,
        leaks: 0,
    },
    Row {
        name: "a cluster with the count 0",
        changes: &[(0x40b, 0x0)],
        length: LENGTH,
        verdict: Verdict::Corrupt,
        corruptions: 2,
        leaks: 0,
    },
    Row {
        name: "a cluster with the count 2, but the copied bit",
        changes: &[(0x40b, 0x2)],
        length: LENGTH,
        verdict: Verdict::Corrupt,
        corruptions: 1,
        leaks: 1,
    },
    Row {
        name: "a cluster with the count 2",
        changes: &[(0x40b, 0x2), (0x800, 0x0)],
        length: LENGTH,
        verdict: Verdict::Leaks,
        corruptions: 0,
        leaks: 1,
    },
    Row {
        name: "an entry that was cleared",
        changes: &[(0x800, 0x0), (0x806, 0x0)],
        length: LENGTH,
        verdict: Verdict::Leaks,
        corruptions: 0,
        leaks: 1,
    },
    Row {
        name: "two entries that name one cluster",
        changes: &[(0x808, 0x80), (0x80e, 0xa)],
        length: LENGTH,
        verdict: Verdict::Corrupt,
        corruptions: 1,
        leaks: 0,
    },
    Row {
        name: "two entries that name one cluster with the count 2",
        changes: &[(0x40b, 0x2), (0x800, 0x0), (0x80e, 0xa)],
        length: LENGTH,
        verdict: Verdict::Faultless,
        corruptions: 0,
        leaks: 0,
    },
    Row {
        name: "an explicit zero with a cluster of its own",
        changes: &[(0x807, 0x1)],
        length: LENGTH,
        verdict: Verdict::Faultless,
        corruptions: 0,
        leaks: 0,
    },
    Row {
        name: "reserved bits of an L2 entry",
        changes: &[(0x807, 0x2)],
        length: LENGTH,
        verdict: Verdict::Corrupt,
        corruptions: 1,
        leaks: 0,
    },
    Row {
        name: "an L2 entry without the copied bit",
        changes: &[(0x800, 0x0)],
        length: LENGTH,
        verdict: Verdict::Corrupt,
        corruptions: 1,
        leaks: 0,
    },
    Row {
        name: "an L1 entry without the copied bit",
        changes: &[(0x600, 0x0)],
        length: LENGTH,
        verdict: Verdict::Corrupt,
        corruptions: 1,
        leaks: 0,
    },
    Row {
        name: "reserved bits of an L1 entry",
        changes: &[(0x607, 0x2)],
        length: LENGTH,
        verdict: Verdict::Corrupt,
        corruptions: 1,
        leaks: 0,
    },
    Row {
        name: "an L2 entry past the end",
        changes: &[(0x806, 0xc)],
        length: LENGTH,
        verdict: Verdict::Corrupt,
        corruptions: 2,
        leaks: 1,
    },
    Row {
        name: "an L1 entry past the end",
        changes: &[(0x606, 0xc)],
        length: LENGTH,
        verdict: Verdict::Corrupt,
        corruptions: 2,
        leaks: 2,
    },
    Row {
        name: "an L2 entry that names the L1 table",
        changes: &[(0x806, 0x6)],
        length: LENGTH,
        verdict: Verdict::Corrupt,
        corruptions: 1,
        leaks: 1,
    },
    Row {
        name: "reserved bits of an entry of the count table",
        changes: &[(0x207, 0x1)],
        length: LENGTH,
        verdict: Verdict::Corrupt,
        corruptions: 1,
        leaks: 1,
    },
    Row {
        name: "a block of counts past the end",
        changes: &[(0x20e, 0xc)],
        length: LENGTH,
        verdict: Verdict::Corrupt,
        corruptions: 1,
        leaks: 0,
    },
    Row {
        name: "a compressed cluster",
        changes: &[(0x800, 0x40)],
        length: LENGTH,
        verdict: Verdict::Faultless,
        corruptions: 0,
        leaks: 0,
    },
    Row {
        name: "a compressed cluster with the copied bit",
        changes: &[(0x800, 0xc0)],
        length: LENGTH,
        verdict: Verdict::Corrupt,
        corruptions: 1,
        leaks: 0,
    },
    Row {
        name: "a snapshot with the image's L1 table",
        changes: &[
            (0x3f, 0x1),
            (0x46, 0xa),
            (0x800, 0x0),
            (0x806, 0x0),
            (0xa06, 0x6),
            (0xa0b, 0x1),
            (0xa27, 0x10),
            (0x407, 0x2),
            (0x409, 0x2),
            (0x600, 0x0),
        ],
        length: LENGTH,
        verdict: Verdict::Faultless,
        corruptions: 0,
        leaks: 0,
    },
    Row {
        name: "the same, with the counts of an image alone",
        changes: &[
            (0x3f, 0x1),
            (0x46, 0xa),
            (0x800, 0x0),
            (0x806, 0x0),
            (0xa06, 0x6),
            (0xa0b, 0x1),
            (0xa27, 0x10),
        ],
        length: LENGTH,
        verdict: Verdict::Corrupt,
        corruptions: 2,
        leaks: 0,
    },
    Row {
        name: "a snapshot whose L1 table begins within a cluster",
        changes: &[
            (0x3f, 0x1),
            (0x46, 0xa),
            (0x800, 0x0),
            (0x806, 0x0),
            (0xa06, 0x6),
            (0xa07, 0x8),
            (0xa0b, 0x1),
            (0xa27, 0x10),
        ],
        length: LENGTH,
        verdict: Verdict::Corrupt,
        corruptions: 1,
        leaks: 0,
    },
    Row {
        name: "a snapshot with 1024 bytes of extra data",
        changes: &[
            (0x3f, 0x1),
            (0x46, 0xa),
            (0x800, 0x0),
            (0x806, 0x0),
            (0xa06, 0x6),
            (0xa0b, 0x1),
            (0xa26, 0x4),
            (0x407, 0x2),
            (0x409, 0x2),
            (0x600, 0x0),
            (0x40d, 0x1),
            (0x40f, 0x1),
        ],
        length: 4096,
        verdict: Verdict::Faultless,
        corruptions: 0,
        leaks: 0,
    },
    Row {
        name: "a snapshot with more extra data",
        changes: &[
            (0x3f, 0x1),
            (0x46, 0xa),
            (0x800, 0x0),
            (0x806, 0x0),
            (0xa06, 0x6),
            (0xa0b, 0x1),
            (0xa26, 0x4),
            (0xa27, 0x1),
            (0x407, 0x2),
            (0x409, 0x2),
            (0x600, 0x0),
            (0x40d, 0x1),
            (0x40f, 0x1),
        ],
        length: 4096,
        verdict: Verdict::Corrupt,
        corruptions: 1,
        leaks: 0,
    },
    Row {
        name: "a snapshot with 64 MiB of extra data",
        changes: &[
            (0x3f, 0x1),
            (0x46, 0xa),
            (0x800, 0x0),
            (0x806, 0x0),
            (0xa06, 0x6),
            (0xa0b, 0x1),
            (0xa24, 0x4),
            (0x407, 0x2),
            (0x409, 0x2),
            (0x600, 0x0),
        ],
        length: LENGTH,
        verdict: Verdict::Corrupt,
        corruptions: 3,
        leaks: 1,
    },
    Row {
        name: "a bitmap",
        changes: &[],
        length: BITMAP_LENGTH,
        verdict: Verdict::Faultless,
        corruptions: 0,
        leaks: 0,
    },
    Row {
        name: "bitmaps that aren't valid",
        changes: &[(0x5f, 0x0)],
        length: BITMAP_LENGTH,
        verdict: Verdict::Leaks,
        corruptions: 0,
        leaks: 3,
    },
    Row {
        name: "valid bitmaps, but no extension",
        changes: &[(0x68, 0x0), (0x69, 0x0), (0x6a, 0x0), (0x6b, 0x0)],
        length: BITMAP_LENGTH,
        verdict: Verdict::Leaks,
        corruptions: 0,
        leaks: 3,
    },
    Row {
        name: "a bitmap that was in use",
        changes: &[(0xc0f, 0x1)],
        length: BITMAP_LENGTH,
        verdict: Verdict::Faultless,
        corruptions: 0,
        leaks: 0,
    },
    Row {
        name: "a bitmap whose bits are all 1, without a cluster",
        changes: &[(0xe06, 0x0), (0xe07, 0x1)],
        length: BITMAP_LENGTH,
        verdict: Verdict::Leaks,
        corruptions: 0,
        leaks: 1,
    },
    Row {
        name: "an L2 entry that names a bitmap's bits",
        changes: &[(0x806, 0x10)],
        length: BITMAP_LENGTH,
        verdict: Verdict::Corrupt,
        corruptions: 1,
        leaks: 1,
    },
    Row {
        name: "a bitmap's table that names itself",
        changes: &[(0xe06, 0xe)],
        length: BITMAP_LENGTH,
        verdict: Verdict::Corrupt,
        corruptions: 1,
        leaks: 1,
    },
    Row {
        name: "the directory of bitmaps with the count 0",
        changes: &[(0x40d, 0x0)],
        length: BITMAP_LENGTH,
        verdict: Verdict::Corrupt,
        corruptions: 1,
        leaks: 0,
    },
    Row {
        name: "a bitmap's table with the count 2",
        changes: &[(0x40f, 0x2)],
        length: BITMAP_LENGTH,
        verdict: Verdict::Leaks,
        corruptions: 0,
        leaks: 1,
    },
    Row {
        name: "a bitmap's table past the end",
        changes: &[(0xc06, 0x12)],
        length: BITMAP_LENGTH,
        verdict: Verdict::Corrupt,
        corruptions: 1,
        leaks: 2,
    },
    Row {
        name: "a bitmap's bits past the end",
        changes: &[(0xe06, 0x12)],
        length: BITMAP_LENGTH,
        verdict: Verdict::Corrupt,
        corruptions: 1,
        leaks: 1,
    },
    Row {
        name: "a reserved bit of an entry of a bitmap's table",
        changes: &[(0xe00, 0x1)],
        length: BITMAP_LENGTH,
        verdict: Verdict::Corrupt,
        corruptions: 1,
        leaks: 0,
    },
    Row {
        name: "a bitmap's bits that don't begin where a cluster does",
        changes: &[(0xe07, 0x2)],
        length: BITMAP_LENGTH,
        verdict: Verdict::Corrupt,
        corruptions: 1,
        leaks: 0,
    },
    Row {
        name: "two extensions of bitmaps, of which the last one counts",
        changes: &[
            (0x7f, 0x0),
            (0x86, 0xe),
            (0x88, 0x23),
            (0x89, 0x85),
            (0x8a, 0x28),
            (0x8b, 0x75),
            (0x8f, 0x18),
            (0x93, 0x1),
            (0x9f, 0x20),
            (0xa6, 0xc),
        ],
        length: BITMAP_LENGTH,
        verdict: Verdict::Faultless,
        corruptions: 0,
        leaks: 0,
    },
];

/// Puts bytes at their offsets, as far as there are any.
fn put(bytes: &mut [u8], changes: &[(usize, u8)]) {
    for (at, byte) in changes {
        if *at < bytes.len() {
            bytes[*at] = *byte;
        }
    }
}

/// The file that has no fault, with these changes; from that of a bitmap's length on, it has one.
fn file(alloc: Global, changes: &[(usize, u8)], count: usize) -> Result<MemStorage, AllocError> {
    let mut bytes = vec![in alloc; 0u8; count]?;
    put(&mut bytes, &BASE);
    if count >= BITMAP_LENGTH {
        put(&mut bytes, &BITMAP);
    }
    put(&mut bytes, changes);
    Ok(MemStorage::new(bytes))
}

/// What a check of that file says, within that much memory.
fn answer(
    alloc: Global,
    changes: &[(usize, u8)],
    count: usize,
    memory: u64,
) -> Result<Report, CheckError> {
    let file = file(alloc, changes, count)?;
    check(&file, alloc, Limits { memory, faults: 2 })
}

/// Whether a row's file is told as it should be.
fn is_as_wanted(alloc: Global, row: &Row) -> bool {
    match answer(alloc, row.changes, row.length, 4096) {
        Ok(report) => {
            report.verdict() == row.verdict
                && report.corruptions == row.corruptions
                && report.leaks == row.leaks
        }
        Err(_) => false,
    }
}

/// Checks the file of each row.
fn check_rows(rt: &impl Abort, alloc: Global) {
    for row in &ROWS {
        // memory may have been refused the first time
        let name = row.name;
        let is_told = is_as_wanted(alloc, row) || is_as_wanted(alloc, row);
        assert!(rt; is_told, "{name}");
    }
}

/// What is changed, the limit on memory in bytes, and why the file can't be checked.
#[derive(Drop)]
struct Refused {
    changes: &'static [(usize, u8)],
    length: usize,
    memory: u64,
    fault: CheckError,
}

static REFUSED: [Refused; 22] = [
    // six clusters need 48 bytes
    Refused {
        changes: &[],
        length: LENGTH,
        memory: 47,
        fault: CheckError::TooLarge,
    },
    Refused {
        changes: &[(95, 4)],
        length: LENGTH,
        memory: 48,
        fault: CheckError::UnknownFeatures(4),
    },
    Refused {
        changes: &[(104, 0x12), (111, 8)],
        length: LENGTH,
        memory: 48,
        fault: CheckError::UnknownExtension(0x1200_0000),
    },
    Refused {
        changes: &[(104, 0x12), (110, 2)],
        length: LENGTH,
        memory: 48,
        fault: CheckError::Extensions,
    },
    Refused {
        changes: &[(36, 1)],
        length: LENGTH,
        memory: 48,
        fault: CheckError::Header(HeaderFault::TableBehindEnd),
    },
    Refused {
        changes: &[(55, 1)],
        length: LENGTH,
        memory: 48,
        fault: CheckError::CountTable,
    },
    Refused {
        changes: &[(63, 1), (71, 1)],
        length: LENGTH,
        memory: 48,
        fault: CheckError::SnapshotTable,
    },
    Refused {
        changes: &[(0x5f, 0x3)],
        length: BITMAP_LENGTH,
        memory: 72,
        fault: CheckError::UnknownFeatures(3),
    },
    Refused {
        changes: &[(0x6f, 0x20)],
        length: BITMAP_LENGTH,
        memory: 72,
        fault: CheckError::BitmapDirectory,
    },
    Refused {
        changes: &[(0x77, 0x1)],
        length: BITMAP_LENGTH,
        memory: 72,
        fault: CheckError::BitmapDirectory,
    },
    Refused {
        changes: &[(0x73, 0x0)],
        length: BITMAP_LENGTH,
        memory: 72,
        fault: CheckError::BitmapDirectory,
    },
    Refused {
        changes: &[(0x87, 0x8)],
        length: BITMAP_LENGTH,
        memory: 72,
        fault: CheckError::BitmapDirectory,
    },
    Refused {
        changes: &[(0x7f, 0x18)],
        length: BITMAP_LENGTH,
        memory: 72,
        fault: CheckError::BitmapDirectory,
    },
    Refused {
        changes: &[(0x7f, 0x28)],
        length: BITMAP_LENGTH,
        memory: 72,
        fault: CheckError::BitmapDirectory,
    },
    Refused {
        changes: &[(0x71, 0x1)],
        length: BITMAP_LENGTH,
        memory: 72,
        fault: CheckError::BitmapDirectory,
    },
    Refused {
        changes: &[(0x73, 0x2)],
        length: BITMAP_LENGTH,
        memory: 72,
        fault: CheckError::InvalidBitmap(0xc20),
    },
    Refused {
        changes: &[(0x86, 0x12)],
        length: BITMAP_LENGTH,
        memory: 72,
        fault: CheckError::InvalidBitmap(0x1200),
    },
    Refused {
        changes: &[(0xc0f, 0x4)],
        length: BITMAP_LENGTH,
        memory: 72,
        fault: CheckError::InvalidBitmap(0xc00),
    },
    Refused {
        changes: &[(0xc17, 0x8), (0x7f, 0x28)],
        length: BITMAP_LENGTH,
        memory: 72,
        fault: CheckError::InvalidBitmap(0xc00),
    },
    Refused {
        changes: &[(0xc06, 0x0)],
        length: BITMAP_LENGTH,
        memory: 72,
        fault: CheckError::InvalidBitmap(0xc00),
    },
    Refused {
        changes: &[(0xc09, 0x10)],
        length: BITMAP_LENGTH,
        memory: 72,
        fault: CheckError::InvalidBitmap(0xc00),
    },
    Refused {
        changes: &[(0xc0b, 0x0)],
        length: BITMAP_LENGTH,
        memory: 72,
        fault: CheckError::InvalidBitmap(0xc00),
    },
];

/// Whether a file is refused as it should be.
fn is_refused(alloc: Global, row: &Refused) -> bool {
    match answer(alloc, row.changes, row.length, row.memory) {
        Ok(_) => false,
        Err(fault) => fault == row.fault,
    }
}

/// Checks each file that can't be checked.
fn check_refused(rt: &impl Abort, alloc: Global) {
    for row in &REFUSED {
        let fault = row.fault;
        let refused = is_refused(alloc, row) || is_refused(alloc, row);
        assert!(rt; refused, "{fault}");
    }
}

#[test]
fn faults_are_told(rt: HostRuntime) {
    check_rows(&rt, rt.alloc());
}

#[test]
fn what_is_unknown_is_refused(rt: HostRuntime) {
    check_refused(&rt, rt.alloc());
}

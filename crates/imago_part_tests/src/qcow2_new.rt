// SPDX-License-Identifier: MIT
//! New files by their bytes, what a refusal leaves, and the largest disks.
//!
//! The bytes are those of the files that `qemu-img create`, version 7.2, makes, but that it leaves
//! out the zeroes behind the last table, and has a table of the names of features behind a header
//! of version 3. The largest disks are those for which it makes a file, too.

mod target;

use imago_qcow2_new::format::{Backing, Format, FormatError, Gaps, Version};
use imago_qcow2_new::layout::Layout;
use imago_qcow2_new::scan::layout_of_size;
use imago_qcow2_new::write::{NewFileError, write_zeroes};
use std::alloc::Global;
use std::io::ErrorKind;
use std::process::Abort;
use target::Refusing;

/// A new file of a disk of zeroes, and what it has.
#[derive(Drop)]
struct Row {
    version: Version,
    cluster_bits: u32,
    /// The disk's size in bytes.
    size: u64,
    /// Whether all clusters are stored.
    all: bool,
    /// The names of the file below and of its format.
    backing: Option<(&'static str, &'static str)>,
    /// How long the file is, in bytes.
    length: usize,
    /// Its words of 8 bytes that aren't 0, each behind its offset.
    words: &'static [(usize, u64)],
}

static ROWS: [Row; 4] = [
    Row {
        version: Version::Two,
        cluster_bits: 9,
        size: 8192,
        all: false,
        backing: None,
        length: 2048,
        words: &[
            (0x0, 0x514649fb_00000002),
            (0x10, 9),
            (0x18, 0x2000),
            (0x20, 1),
            (0x28, 0x600),
            (0x30, 0x200),
            (0x38, 0x1_00000000),
            (0x200, 0x400),
            (0x400, 0x0001_0001_0001_0001),
        ],
    },
    // The size is rounded up to whole sectors.
    Row {
        version: Version::Two,
        cluster_bits: 9,
        size: 3585,
        all: false,
        backing: Some(("base.raw", "raw")),
        length: 2048,
        words: &[
            (0x0, 0x514649fb_00000002),
            (0x8, 0x60),
            (0x10, 0x8_00000009),
            (0x18, 0x1000),
            (0x20, 1),
            (0x28, 0x600),
            (0x30, 0x200),
            (0x38, 0x1_00000000),
            (0x48, 0xe2792aca_00000003),
            (0x50, 0x72617700_00000000),
            (0x60, 0x62617365_2e726177),
            (0x200, 0x400),
            (0x400, 0x0001_0001_0001_0001),
        ],
    },
    Row {
        version: Version::Three,
        cluster_bits: 16,
        size: 1 << 30,
        all: false,
        backing: None,
        length: 0x40000,
        words: &[
            (0x0, 0x514649fb_00000003),
            (0x10, 16),
            (0x18, 0x40000000),
            (0x20, 2),
            (0x28, 0x30000),
            (0x30, 0x10000),
            (0x38, 0x1_00000000),
            (0x60, 0x4_00000070),
            (0x10000, 0x20000),
            (0x20000, 0x0001_0001_0001_0001),
        ],
    },
    Row {
        version: Version::Two,
        cluster_bits: 9,
        size: 1024,
        all: true,
        backing: None,
        length: 0xe00,
        words: &[
            (0x0, 0x514649fb_00000002),
            (0x10, 9),
            (0x18, 0x400),
            (0x20, 1),
            (0x28, 0x600),
            (0x30, 0x200),
            (0x38, 0x1_00000000),
            (0x200, 0x400),
            (0x400, 0x0001_0001_0001_0001),
            (0x408, 0x0001_0001_0001_0000),
            (0x600, 0x80000000_00000800),
            (0x800, 0x80000000_00000a00),
            (0x808, 0x80000000_00000c00),
        ],
    },
];

/// Where everything stands in a row's file.
fn layout(alloc: Global, row: &Row) -> Result<Layout, FormatError> {
    let format = Format {
        version: row.version,
        cluster_bits: row.cluster_bits,
        gaps: Gaps::Absent,
    };
    let backing = match row.backing {
        Some((file, format)) => Some(Backing { file, format }),
        None => None,
    };
    layout_of_size(alloc, format, row.size, row.all, backing)
}

/// What a target has of a row's file that takes bytes so many times, and whether that is all.
fn written(alloc: Global, row: &Row, left: u64) -> Result<(Refusing, bool), NewFileError> {
    let layout = layout(alloc, row)?;
    let mut target = Refusing::new(alloc, left);
    let mut buf = [0; 520];
    match write_zeroes(&layout, &mut target, &mut buf) {
        Ok(()) => Ok((target, true)),
        Err(NewFileError::Target(cause)) if cause.kind() == ErrorKind::StorageFull => {
            Ok((target, false))
        }
        Err(cause) => Err(cause),
    }
}

/// The word of 8 bytes at an offset of a row's file.
fn word_at(row: &Row, at: usize) -> u64 {
    for (offset, word) in row.words {
        if *offset == at {
            return *word;
        }
    }
    0
}

/// Whether bytes are the first ones of a row's file.
fn are_first(row: &Row, bytes: &[u8]) -> bool {
    let mut at: usize = 0;
    for part in bytes.chunks(8) {
        if !word_at(row, at).to_be_bytes().starts_with(part) {
            return false;
        }
        at = at.saturating_add(8);
    }
    true
}

/// Writes a row's file.
fn check_row(rt: &impl Abort, alloc: Global, row: &Row) {
    let Ok((target, whole)) = written(alloc, row, u64::MAX) else {
        // Memory may have been refused.
        return;
    };
    let size = row.size;
    assert!(rt; whole, "{size}");
    assert_eq!(rt; target.bytes.len(), row.length, "{size}");
    assert!(rt; are_first(row, &target.bytes), "{size}");
}

#[test]
fn new_files_have_those_bytes(rt: HostRuntime) {
    for row in &ROWS {
        check_row(&rt, rt.alloc(), row);
    }
}

/// How many times bytes are put into a target for the file of the fourth row, with that buffer: four
/// times up to its L2 table, once for that one, and once for its clusters.
const TIMES: u64 = 6;

/// Writes a file into a target that refuses: it has the first bytes of the file then.
fn check_refused(rt: &impl Abort, alloc: Global, left: u64) {
    let row = &ROWS[3];
    let Ok((target, whole)) = written(alloc, row, left) else {
        return;
    };
    assert_eq!(rt; whole, left >= TIMES, "{left}");
    assert!(rt; are_first(row, &target.bytes), "{left}");
    assert_eq!(rt; target.bytes.len() == row.length, whole, "{left}");
}

#[test]
fn a_refusal_leaves_the_first_bytes(rt: HostRuntime) {
    for left in 0..TIMES + 2 {
        check_refused(&rt, rt.alloc(), left);
    }
}

/// The size in bytes of the largest disk for clusters of that length.
static LARGEST: [(u32, u64); 13] = [
    (9, 137438953472),
    (10, 549755813888),
    (11, 2199023255552),
    (12, 8796093022208),
    (13, 35184372088832),
    (14, 140737488355328),
    (15, 562949953421312),
    (16, 2251799813685248),
    (17, 9007199254740992),
    (18, 36028797018963968),
    (19, 144115188075855872),
    (20, 576460752303423488),
    (21, 2305843009213693952),
];

/// The file of a disk of that size, in clusters of that length, of which nothing is stored.
fn empty(cluster_bits: u32, size: u64) -> Row {
    Row {
        version: Version::Three,
        cluster_bits,
        size,
        all: false,
        backing: None,
        length: 0,
        words: &[],
    }
}

/// Whether there can be a file of a disk of that size, in clusters of that length, unless it is
/// refused for that reason.
fn is_refused(alloc: Global, cluster_bits: u32, size: u64, reason: Option<FormatError>) -> bool {
    match layout(alloc, &empty(cluster_bits, size)) {
        Ok(layout) => reason.is_none() && layout.disk_size() == size,
        Err(FormatError::Memory) => true,
        Err(cause) => reason == Some(cause),
    }
}

/// Asks for the largest disk, and for one that is larger by a byte.
fn check_largest(rt: &impl Abort, alloc: Global, bits: u32, size: u64) {
    assert!(rt; is_refused(alloc, bits, size, None), "{bits}");
    let larger = is_refused(
        alloc,
        bits,
        size.saturating_add(1),
        Some(FormatError::TooLarge),
    );
    assert!(rt; larger, "{bits}");
}

#[test]
fn the_largest_disks_have_files(rt: HostRuntime) {
    for (bits, size) in &LARGEST {
        check_largest(&rt, rt.alloc(), *bits, *size);
    }
    for bits in [0, 8, 22, u32::MAX] {
        let refused = is_refused(rt.alloc(), bits, 512, Some(FormatError::ClusterBits));
        assert!(rt; refused, "{bits}");
    }
}

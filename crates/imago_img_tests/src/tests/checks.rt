// SPDX-License-Identifier: MIT
//! What `check` tells of qcow2 files: sound ones, leaks, faults of entries, and what can't be
//! checked.

use super::set_up::{Case, PartsRow, VERSION_2, VERSION_3, check_cases_over};
use std::alloc::Global;
use std::process::Abort;

/// A command line that makes no file, its status, its output, and what it tells as an error.
type Row = (&'static str, u8, &'static str, &'static str);

/// Images of clusters of 512 bytes and disks of 2048. The L1 table stands at 512, the L2 table at
/// 1024. Counts of references have 16 bits.
static PARTS: [PartsRow; 6] = [
    // The cluster at 1536 has a count, and nothing names it.
    (
        "leak.qcow2",
        3584,
        &[
            (0, VERSION_2),
            (23, b"\x09"),
            (30, b"\x08"),
            (39, b"\x01"),
            (46, b"\x02"),
            (54, b"\x0a\0\0\0\0\x01"),
            (512, b"\x80\0\0\0\0\0\x04"),
            (1032, b"\x80\0\0\0\0\0\x08"),
            (2566, b"\x0c"),
            (3073, b"\x01\0\x01\0\x01\0\x01\0\x01\0\x01\0\x01"),
        ],
    ),
    // Entries of the L2 table: a bit that version 2 doesn't have, no copied bit, an offset past the
    // end, and the first one's cluster again. The block of counts is named twice, and the last
    // cluster is leaked.
    (
        "corrupt.qcow2",
        4096,
        &[
            (0, VERSION_2),
            (23, b"\x09"),
            (30, b"\x08"),
            (39, b"\x01"),
            (46, b"\x02"),
            (54, b"\x0a\0\0\0\0\x01"),
            (512, b"\x80\0\0\0\0\0\x04"),
            (1024, b"\x80\0\0\0\0\0\x06\x01"),
            (1038, b"\x08"),
            (1046, b"\x10"),
            (1048, b"\x80\0\0\0\0\0\x06"),
            (2566, b"\x0c\0\0\0\0\0\0\0\x0c"),
            (3073, b"\x01\0\x01\0\x01\0\x01\0\x01\0\x01\0\x01\0\x01"),
        ],
    ),
    // Two compressed clusters in one sector, whose end the file lacks.
    (
        "shared.qcow2",
        2589,
        &[
            (0, VERSION_2),
            (23, b"\x09"),
            (30, b"\x08"),
            (39, b"\x01"),
            (46, b"\x02"),
            (54, b"\x06\0\0\0\0\x01"),
            (512, b"\x80\0\0\0\0\0\x04"),
            (1024, b"\x40\0\0\0\0\0\x0a\0\x40\0\0\0\0\0\x0a\x0f"),
            (1542, b"\x08"),
            (2049, b"\x01\0\x01\0\x01\0\x01\0\x01\0\x02"),
            (2560, b"streams"),
        ],
    ),
    // Left open, in version 3; the L1 table has no entry.
    (
        "open.qcow2",
        2048,
        &[
            (0, VERSION_3),
            (23, b"\x09"),
            (30, b"\x08"),
            (39, b"\x01"),
            (46, b"\x02"),
            (54, b"\x04\0\0\0\0\x01"),
            (79, b"\x01"),
            (99, b"\x04\0\0\0\x68"),
            (1030, b"\x06"),
            (1537, b"\x01\0\x01\0\x01\0\x01"),
        ],
    ),
    // A bitmap whose entry of the directory is empty.
    (
        "bitmaps.qcow2",
        1024,
        &[
            (0, VERSION_3),
            (23, b"\x09"),
            (30, b"\x08"),
            (39, b"\x01"),
            (46, b"\x02"),
            (95, b"\x01"),
            (99, b"\x04\0\0\0\x68"),
            (104, b"\x23\x85\x28\x75\0\0\0\x18\0\0\0\x01"),
            (127, b"\x20\0\0\0\0\0\0\x02"),
        ],
    ),
    // A header extension of a type that isn't known.
    (
        "extended.qcow2",
        1024,
        &[
            (0, VERSION_3),
            (23, b"\x09"),
            (30, b"\x08"),
            (39, b"\x01"),
            (46, b"\x02"),
            (99, b"\x04\0\0\0\x68\x12\x34\x56\x78"),
        ],
    ),
];

/// Command lines that make no file.
static ROWS: [Row; 10] = [
    (
        "check shared.qcow2",
        0,
        "No errors were found on the image.\n",
        "",
    ),
    (
        "check open.qcow2",
        0,
        "No errors were found on the image.\n",
        "",
    ),
    (
        "check --json open.qcow2",
        0,
        "{ \"filename\": \"open.qcow2\", \"format\": \"qcow2\", \"check-errors\": 0 }\n",
        "",
    ),
    (
        "check leak.qcow2",
        3,
        "\"leak.qcow2\": the cluster at 1536 isn't used, and its refcount is 1: a leak\n\n\
        1 leaked clusters were found on the image.\n\
        This means waste of disk space, but no harm to data.\n",
        "",
    ),
    (
        "check --output=json leak.qcow2",
        3,
        "{ \"filename\": \"leak.qcow2\", \"format\": \"qcow2\", \"check-errors\": 0, \
        \"leaks\": 1 }\n",
        "\"leak.qcow2\": the cluster at 1536 isn't used, and its refcount is 1: a leak\n",
    ),
    (
        "check corrupt.qcow2",
        2,
        "\"corrupt.qcow2\": the entry of an L2 table at 1024 is invalid\n\
        \"corrupt.qcow2\": the copied bit of the entry of an L2 table at 1032 disagrees with the \
        refcount\n\
        \"corrupt.qcow2\": the entry of an L2 table at 1040 names 512 bytes at 4096, which pass \
        the file's end\n\
        \"corrupt.qcow2\": the refcount block at 3072, which the refcount table names at 2560, is \
        used more than once\n\
        \"corrupt.qcow2\": the refcount block at 3072, which the refcount table names at 2568, is \
        used more than once\n\
        \"corrupt.qcow2\": the cluster at 1536 is used twice, and its refcount is only 1\n\
        \"corrupt.qcow2\": the cluster at 3072 is used twice, and its refcount is only 1\n\
        \"corrupt.qcow2\": the cluster at 3584 isn't used, and its refcount is 1: a leak\n\n\
        7 errors were found on the image.\n\
        Data may be corrupted, or further writes to the image may corrupt it.\n\n\
        1 leaked clusters were found on the image.\n\
        This means waste of disk space, but no harm to data.\n",
        "",
    ),
    (
        "check bitmaps.qcow2",
        1,
        "",
        "imago-img: \"bitmaps.qcow2\" can't be checked: the entry of the bitmap directory at 512 \
        is invalid\n",
    ),
    (
        "check --json extended.qcow2",
        1,
        "",
        "imago-img: \"extended.qcow2\" can't be checked: the header has an extension of the type \
        0x12345678, which isn't known\n",
    ),
    (
        "check --tables=55 one.qcow2",
        1,
        "",
        "imago-img: \"one.qcow2\" can't be checked: the check needs more memory than the limit \
        allows; --tables raises it\n",
    ),
    (
        "check --tables=56 one.qcow2",
        0,
        "No errors were found on the image.\n",
        "",
    ),
];

/// Tries command lines that make no file.
fn check_rows(rt: &impl Abort, alloc: Global, rows: &[Row]) {
    for (words, status, output, errors) in rows {
        check_cases_over(
            rt,
            alloc,
            &PARTS,
            &[Case {
                words,
                appends: 99,
                finishes: true,
                status: *status,
                output,
                errors,
                written: None,
            }],
        );
    }
}

#[test]
fn checks_tell_each_fault(rt: HostRuntime) {
    check_rows(&rt, rt.alloc(), &ROWS);
}

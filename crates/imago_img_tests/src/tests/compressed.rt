// SPDX-License-Identifier: MIT
//! qcow2 images with compressed clusters, alone and below others.
//!
//! The streams are those that zlib 1.2.13 makes at level 6 with a window of 4 KiB, as `qemu-img`
//! compresses clusters. Of the images below, `qemu-img` 7.2 (with a reference count table named at
//! 512, without which it opens none) made the disks that are expected here, and the same maps; it
//! refused to read the clusters at 512 that are refused here.

use super::set_up::{Case, PartsRow, VERSION_2, VERSION_3, check_cases_over};
use std::alloc::Global;
use std::process::Abort;

/// A command line that makes no file, its status, its output, and what it tells as an error.
type Row = (&'static str, u8, &'static str, &'static str);

/// A cluster of 512 bytes that begins with `deflated`, and else is zero.
const FIRST: &[u8] = b"KIM\xcbI,IMa\x18\x05#\x12\0\0";

/// One that is `zlib ` 102 times, and two exclamation marks.
const SECOND: &[u8] = b"\xab\xca\xc9LR\xa8\x1a%F&\xa1\xa8\x08\0";

/// What that stream puts out.
const REPEATED: &[u8] = b"zlib zlib zlib zlib zlib zlib zlib zlib zlib zlib zlib zlib zlib zlib \
    zlib zlib zlib zlib zlib zlib zlib zlib zlib zlib zlib zlib zlib zlib zlib zlib zlib zlib \
    zlib zlib zlib zlib zlib zlib zlib zlib zlib zlib zlib zlib zlib zlib zlib zlib zlib zlib \
    zlib zlib zlib zlib zlib zlib zlib zlib zlib zlib zlib zlib zlib zlib zlib zlib zlib zlib \
    zlib zlib zlib zlib zlib zlib zlib zlib zlib zlib zlib zlib zlib zlib zlib zlib zlib zlib \
    zlib zlib zlib zlib zlib zlib zlib zlib zlib zlib zlib zlib zlib zlib zlib zlib !!";

/// Images of clusters of 512 bytes and disks of 2048. The L1 table stands at 512, the L2 table at
/// 1024, a name of a backing file at 200.
static PARTS: [PartsRow; 10] = [
    // Two streams in one sector, whose end the file lacks; nothing; and a cluster as it is.
    (
        "packed.qcow2",
        2077,
        &[
            (0, VERSION_2),
            (23, b"\x09"),
            (30, b"\x08"),
            (39, b"\x01"),
            (46, b"\x02"),
            (518, b"\x04"),
            (1024, b"\x40\0\0\0\0\0\x08\0\x40\0\0\0\0\0\x08\x0f"),
            (1054, b"\x06"),
            (1536, b"stored"),
            (2048, FIRST),
            (2063, SECOND),
        ],
    ),
    (
        "packed.raw",
        2048,
        &[(0, b"deflated"), (512, REPEATED), (1536, b"stored")],
    ),
    // Its second cluster above.
    (
        "over.qcow2",
        2048,
        &[
            (0, VERSION_3),
            (15, b"\xc8\0\0\0\x0c"),
            (23, b"\x09"),
            (30, b"\x08"),
            (39, b"\x01"),
            (46, b"\x02"),
            (99, b"\x04\0\0\0\x68"),
            (200, b"packed.qcow2"),
            (518, b"\x04"),
            (1038, b"\x06"),
            (1536, b"top"),
        ],
    ),
    // The second stream begins with a block of a kind that there isn't.
    (
        "torn.qcow2",
        2077,
        &[
            (0, VERSION_2),
            (23, b"\x09"),
            (30, b"\x08"),
            (39, b"\x01"),
            (46, b"\x02"),
            (518, b"\x04"),
            (1024, b"\x40\0\0\0\0\0\x08\0\x40\0\0\0\0\0\x08\x0f"),
            (1054, b"\x06"),
            (1536, b"stored"),
            (2048, FIRST),
            (2063, b"\xff\xca\xc9LR\xa8\x1a%F&\xa1\xa8\x08"),
        ],
    ),
    (
        "over_torn.qcow2",
        2048,
        &[
            (0, VERSION_3),
            (15, b"\xc8\0\0\0\x0a"),
            (23, b"\x09"),
            (30, b"\x08"),
            (39, b"\x01"),
            (46, b"\x02"),
            (99, b"\x04\0\0\0\x68"),
            (200, b"torn.qcow2"),
            (518, b"\x04"),
            (1030, b"\x06"),
            (1536, b"top"),
        ],
    ),
    // The second one is above, so that the faulty stream doesn't show.
    (
        "hides.qcow2",
        2048,
        &[
            (0, VERSION_3),
            (15, b"\xc8\0\0\0\x0a"),
            (23, b"\x09"),
            (30, b"\x08"),
            (39, b"\x01"),
            (46, b"\x02"),
            (99, b"\x04\0\0\0\x68"),
            (200, b"torn.qcow2"),
            (518, b"\x04"),
            (1038, b"\x06"),
            (1536, b"top"),
        ],
    ),
    // The second stream begins behind the file's end; that of the third one ends a cluster behind.
    (
        "behind.qcow2",
        2063,
        &[
            (0, VERSION_2),
            (23, b"\x09"),
            (30, b"\x08"),
            (39, b"\x01"),
            (46, b"\x02"),
            (518, b"\x04"),
            (
                1024,
                b"\x40\0\0\0\0\0\x08\0\x40\0\0\0\0\0\x0a\x14\x60\0\0\0\0\0\x08\x0e",
            ),
            (2048, FIRST),
        ],
    ),
    // A frame of zstd that is `a` 256 times, which isn't read.
    (
        "zstd.qcow2",
        2048,
        &[
            (0, VERSION_3),
            (23, b"\x09"),
            (30, b"\x08"),
            (39, b"\x01"),
            (46, b"\x02"),
            (79, b"\x08"),
            (99, b"\x04\0\0\0\x70\x01"),
            (518, b"\x04"),
            (1032, b"\x40\0\0\0\0\0\x06\0"),
            (
                1536,
                b"\x28\xb5\x2f\xfd\x60\0\x01\x4d\0\0\x10aa\x01\0\xe3\x2b\x80\x05",
            ),
        ],
    ),
    (
        "over_zstd.qcow2",
        2048,
        &[
            (0, VERSION_3),
            (15, b"\xc8\0\0\0\x0a"),
            (23, b"\x09"),
            (30, b"\x08"),
            (39, b"\x01"),
            (46, b"\x02"),
            (99, b"\x04\0\0\0\x68"),
            (200, b"zstd.qcow2"),
            (518, b"\x04"),
            (1030, b"\x06"),
            (1536, b"top"),
        ],
    ),
    ("zeroes.raw", 2048, &[]),
];

/// Compressed clusters that are read, and told of.
static READ: [Row; 6] = [
    (
        "info packed.qcow2",
        0,
        "image: \"packed.qcow2\"\nfile format: qcow2\nvirtual size: 2 KiB (2048 bytes)\n\
        disk size: 2.03 KiB\ncluster_size: 512\n\
        Format specific information:\n\
        \x20   compat: 0.10\n\
        \x20   compression type: zlib\n\
        \x20   refcount bits: 16\n",
        "",
    ),
    (
        "map packed.qcow2",
        0,
        "start                length               kind offset               file\n\
        0                    1024                 compressed\n\
        1024                 512                  absent\n\
        1536                 6                    data 1536                 \"packed.qcow2\"\n\
        1542                 506                  zero 1542                 \"packed.qcow2\"\n",
        "",
    ),
    (
        "map --json over.qcow2",
        0,
        "[{ \"start\": 0, \"length\": 512, \"depth\": 1, \"present\": true, \"zero\": false, \
         \"data\": true, \"compressed\": true},\n\
        { \"start\": 512, \"length\": 3, \"depth\": 0, \"present\": true, \"zero\": false, \
        \"data\": true, \"offset\": 1536, \"filename\": \"over.qcow2\"},\n\
        { \"start\": 515, \"length\": 509, \"depth\": 0, \"present\": true, \"zero\": true, \
        \"data\": false, \"offset\": 1539, \"filename\": \"over.qcow2\"},\n\
        { \"start\": 1024, \"length\": 512, \"depth\": 1, \"present\": false, \"zero\": true, \
        \"data\": false},\n\
        { \"start\": 1536, \"length\": 6, \"depth\": 1, \"present\": true, \"zero\": false, \
        \"data\": true, \"offset\": 1536, \"filename\": \"packed.qcow2\"},\n\
        { \"start\": 1542, \"length\": 506, \"depth\": 1, \"present\": true, \"zero\": true, \
        \"data\": false, \"offset\": 1542, \"filename\": \"packed.qcow2\"}]\n",
        "",
    ),
    (
        "compare packed.qcow2 packed.raw",
        0,
        "Images are identical.\n",
        "",
    ),
    (
        "compare packed.qcow2 over.qcow2",
        1,
        "Content mismatch at offset 512!\n",
        "",
    ),
    (
        "compare hides.qcow2 over.qcow2",
        0,
        "Images are identical.\n",
        "",
    ),
];

/// Streams that can't be decoded. The file that has the stream is named.
static FAULTY: [Row; 6] = [
    (
        "convert torn.qcow2 out.raw",
        1,
        "",
        "imago-img: \"torn.qcow2\": the cluster at 512 of the disk can't be decoded: the \
         compressed stream has a block of an unknown kind; use an intact copy of the file\n",
    ),
    (
        "convert over_torn.qcow2 out.raw",
        1,
        "",
        "imago-img: \"torn.qcow2\": the cluster at 512 of the disk can't be decoded: the \
         compressed stream has a block of an unknown kind; use an intact copy of the file\n",
    ),
    (
        "compare packed.qcow2 torn.qcow2",
        2,
        "",
        "imago-img: \"torn.qcow2\": the cluster at 512 of the disk can't be decoded: the \
         compressed stream has a block of an unknown kind; use an intact copy of the file\n",
    ),
    (
        "compare --quiet torn.qcow2 zeroes.raw",
        2,
        "",
        "imago-img: \"torn.qcow2\": the cluster at 512 of the disk can't be decoded: the \
         compressed stream has a block of an unknown kind; use an intact copy of the file\n",
    ),
    (
        "convert behind.qcow2 out.raw",
        1,
        "",
        "imago-img: \"behind.qcow2\": the cluster at 512 of the disk can't be decoded: the \
         compressed stream has a stored block whose length contradicts itself; use an intact copy \
         of the file\n",
    ),
    (
        "map over_torn.qcow2",
        0,
        "start                length               kind offset               file\n\
        0                    3                    data 1536                 \"over_torn.qcow2\"\n\
        3                    509                  zero 1539                 \"over_torn.qcow2\"\n\
        512                  512                  compressed\n\
        1024                 512                  absent\n\
        1536                 6                    data 1536                 \"torn.qcow2\"\n\
        1542                 506                  zero 1542                 \"torn.qcow2\"\n",
        "",
    ),
];

/// Clusters that zstd compressed are told of, and aren't read.
static ZSTD: [Row; 6] = [
    (
        "info zstd.qcow2",
        0,
        "image: \"zstd.qcow2\"\nfile format: qcow2\nvirtual size: 2 KiB (2048 bytes)\n\
        disk size: 2 KiB\ncluster_size: 512\n\
        Format specific information:\n\
        \x20   compat: 1.1\n\
        \x20   compression type: zstd\n\
        \x20   lazy refcounts: false\n\
        \x20   refcount bits: 16\n\
        \x20   corrupt: false\n\
        \x20   extended l2: false\n",
        "",
    ),
    (
        "info --json zstd.qcow2",
        0,
        "{ \"filename\": \"zstd.qcow2\", \"format\": \"qcow2\", \"virtual-size\": 2048, \
        \"actual-size\": 2048, \"cluster-size\": 512, \"dirty-flag\": false, \
        \"format-specific\": { \"type\": \"qcow2\", \"data\": { \"compat\": \"1.1\", \
        \"compression-type\": \"zstd\", \"refcount-bits\": 16, \"lazy-refcounts\": false, \
        \"corrupt\": false, \"extended-l2\": false } } }\n",
        "",
    ),
    (
        "map zstd.qcow2",
        0,
        "start                length               kind offset               file\n\
        0                    512                  absent\n\
        512                  512                  compressed\n\
        1024                 1024                 absent\n",
        "",
    ),
    (
        "convert zstd.qcow2 out.raw",
        1,
        "",
        "imago-img: \"zstd.qcow2\": the cluster at 512 of the disk is compressed with zstd, which \
         isn't offered; qemu-img convert -O qcow2 FILE PLAIN makes a plain image of it\n",
    ),
    (
        "convert over_zstd.qcow2 out.raw",
        1,
        "",
        "imago-img: \"zstd.qcow2\": the cluster at 512 of the disk is compressed with zstd, which \
         isn't offered; qemu-img convert -O qcow2 FILE PLAIN makes a plain image of it\n",
    ),
    (
        "compare zeroes.raw over_zstd.qcow2",
        2,
        "",
        "imago-img: \"zstd.qcow2\": the cluster at 512 of the disk is compressed with zstd, which \
         isn't offered; qemu-img convert -O qcow2 FILE PLAIN makes a plain image of it\n",
    ),
];

/// Disks that are written to raw files.
static CONVERTED: [Case; 2] = [
    Case {
        words: "convert packed.qcow2 out.raw",
        appends: 99,
        finishes: true,
        status: 0,
        output: "",
        errors: "",
        written: Some((
            2048,
            &[(0, b"deflated"), (512, REPEATED), (1536, b"stored")],
        )),
    },
    Case {
        words: "convert over.qcow2 out.raw",
        appends: 99,
        finishes: true,
        status: 0,
        output: "",
        errors: "",
        written: Some((2048, &[(0, b"deflated"), (512, b"top"), (1536, b"stored")])),
    },
];

/// Tries command lines that make no file.
fn check_rows(rt: &impl Abort, alloc: Global, rows: &[Row]) {
    for (words, status, output, errors) in rows {
        check_cases_over(
            rt,
            alloc,
            &PARTS,
            &[Case {
                words,
                appends: 99,
                finishes: true,
                status: *status,
                output,
                errors,
                written: None,
            }],
        );
    }
}

#[test]
fn compressed_clusters_are_read_and_told(rt: HostRuntime) {
    check_rows(&rt, rt.alloc(), &READ);
}

#[test]
fn faulty_streams_are_named(rt: HostRuntime) {
    check_rows(&rt, rt.alloc(), &FAULTY);
}

#[test]
fn zstd_is_refused_by_name(rt: HostRuntime) {
    check_rows(&rt, rt.alloc(), &ZSTD);
}

#[test]
fn compressed_disks_are_converted(rt: HostRuntime) {
    check_cases_over(&rt, rt.alloc(), &PARTS, &CONVERTED);
}

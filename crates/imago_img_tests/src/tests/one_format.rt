// SPDX-License-Identifier: MIT
//! Files that are recognised as two formats, or as another than the one that is said, and disks that
//! are longer than is permitted.

use super::set_up::{Case, PartsRow, VERSION_2, VERSION_3, check_cases_over};

/// A case of a command line that is refused: its words, its status and what it tells as an error.
macro_rules! refused {
    ($words:literal, $status:literal, $errors:expr) => {
        Case {
            words: $words,
            appends: 99,
            finishes: true,
            status: $status,
            output: "",
            errors: $errors,
            written: None,
        }
    };
}

/// A case of a command line that makes a file, of that length and with these parts.
macro_rules! made {
    ($words:literal, $length:literal, $parts:expr) => {
        Case {
            words: $words,
            appends: 99,
            finishes: true,
            status: 0,
            output: "",
            errors: "",
            written: Some(($length, $parts)),
        }
    };
}

/// The mark of an ISO 9660 image.
const ISO: (usize, &[u8]) = (32769, b"CD001");

static MORE: [PartsRow; 10] = [
    ("old.qcow", 72, &[(0, b"QFI\xfb\0\0\0\x01")]),
    // A disk of 2048 bytes above one of 2560.
    (
        "lower.qcow2",
        1024,
        &[
            (0, VERSION_2),
            (15, b"\xc8\0\0\0\x0c"),
            (23, b"\x09"),
            (30, b"\x08"),
            (39, b"\x01"),
            (46, b"\x02"),
            (200, b"longer.qcow2"),
        ],
    ),
    (
        "longer.qcow2",
        1024,
        &[
            (0, VERSION_2),
            (23, b"\x09"),
            (30, b"\x0a"),
            (39, b"\x01"),
            (46, b"\x02"),
        ],
    ),
    ("iso.qcow2", 32774, &[(0, VERSION_3), ISO]),
    ("vhd.qcow2", 1024, &[(0, VERSION_3), (512, b"conectix")]),
    (
        "vdi.qcow2",
        512,
        &[(0, VERSION_3), (64, b"\x7f\x10\xda\xbe")],
    ),
    (
        "tar.vmdk",
        512,
        &[(0, b"# Disk DescriptorFile"), (257, b"ustar")],
    ),
    ("gzip.dmg", 1024, &[(0, b"\x1f\x8b"), (512, b"koly")]),
    // Both marks are those of a VHD image.
    ("dynamic.vhd", 1024, &[(0, b"conectix"), (512, b"conectix")]),
    ("boot.iso", 32774, &[(510, b"\x55\xaa"), ISO]),
];

static CASES: [Case; 23] = [
    refused!(
        "info --alone iso.qcow2",
        1,
        "imago-img: \"iso.qcow2\": it is a qcow2 image, and also an ISO 9660 image\n"
    ),
    refused!(
        "check --alone vhd.qcow2",
        1,
        "imago-img: \"vhd.qcow2\": it is a qcow2 image, and also a VHD image\n"
    ),
    refused!(
        "convert --alone -f qcow2 vhd.qcow2 out.raw",
        1,
        "imago-img: \"vhd.qcow2\": it is a qcow2 image, and also a VHD image\n"
    ),
    refused!(
        "map --alone vdi.qcow2",
        1,
        "imago-img: \"vdi.qcow2\": it is a qcow2 image, and also a VDI image\n"
    ),
    refused!(
        "convert --alone tar.vmdk out.raw",
        1,
        "imago-img: \"tar.vmdk\": it is a VMDK descriptor, and also a tar archive\n"
    ),
    refused!(
        "compare --alone gzip.dmg one.raw",
        2,
        "imago-img: \"gzip.dmg\": it is a file compressed by gzip, and also a DMG image\n"
    ),
    refused!(
        "compare --alone one.raw gzip.dmg",
        2,
        "imago-img: \"gzip.dmg\": it is a file compressed by gzip, and also a DMG image\n"
    ),
    refused!(
        "info --alone dynamic.vhd",
        1,
        "imago-img: \"dynamic.vhd\": a VHD image, which isn't supported; convert it with \
         qemu-img, or say -f raw for its bytes as they are\n"
    ),
    // What is said to be raw isn't recognised as anything.
    refused!(
        "convert --alone -f raw one.qcow2 out.raw",
        1,
        "imago-img: \"one.qcow2\": said to be raw, but it is a qcow2 image; say -f qcow2\n"
    ),
    refused!(
        "check --alone -f raw outside.vmdk",
        1,
        "imago-img: \"outside.vmdk\": said to be raw, but it is a VMDK descriptor; say -f vmdk\n"
    ),
    refused!(
        "info --alone -f raw dynamic.vhd",
        1,
        "imago-img: \"dynamic.vhd\": said to be raw, but it is a VHD image\n"
    ),
    // An ISO image by itself is the disk of a guest that boots from it.
    made!(
        "convert --alone boot.iso out.raw",
        32774,
        &[(510, b"\x55\xaa"), ISO]
    ),
    // Another format than the one that is said.
    refused!(
        "map -f vmdk one.qcow2",
        1,
        "imago-img: \"one.qcow2\": said to be vmdk, but it is a qcow2 image; say -f qcow2\n"
    ),
    refused!(
        "info -f qcow2 disk.vmdk",
        1,
        "imago-img: \"disk.vmdk\": said to be qcow2, but it is a VMDK descriptor; say -f vmdk\n"
    ),
    refused!(
        "check -f qcow2 dynamic.vhd",
        1,
        "imago-img: \"dynamic.vhd\": said to be qcow2, but it is a VHD image\n"
    ),
    refused!(
        "check -f qcow2 old.qcow",
        1,
        "imago-img: \"old.qcow\": said to be qcow2, but it is a qcow image of version 1\n"
    ),
    refused!(
        "convert -f qcow2 sparse.vmdk out.raw",
        1,
        "imago-img: \"sparse.vmdk\": said to be qcow2, but it is a sparse VMDK image\n"
    ),
    // Disks that are longer than is permitted, and as long.
    refused!(
        "info --max-size 2047 one.qcow2",
        1,
        "imago-img: \"one.qcow2\": its disk has 2048 bytes, and the limit is 2047; --max-size \
         raises it\n"
    ),
    refused!(
        "check --max-size=1k disk.vmdk",
        1,
        "imago-img: \"disk.vmdk\": its disk has 2048 bytes, and the limit is 1024; --max-size \
         raises it\n"
    ),
    refused!(
        "convert --max-size 6 plain.raw out.raw",
        1,
        "imago-img: \"plain.raw\": its disk has 7 bytes, and the limit is 6; --max-size raises \
         it\n"
    ),
    // A file below counts too.
    refused!(
        "map --max-size 2k lower.qcow2",
        1,
        "imago-img: \"lower.qcow2\" needs \"longer.qcow2\": its disk has 2560 bytes, and the limit \
         is 2048; --max-size raises it\n"
    ),
    refused!(
        "compare --max-size 2k one.raw longer.qcow2",
        2,
        "imago-img: \"longer.qcow2\": its disk has 2560 bytes, and the limit is 2048; \
         --max-size raises it\n"
    ),
    made!(
        "convert --max-size 2k one.qcow2 out.raw",
        2048,
        &[(512, b"2"), (1024, b"1")]
    ),
];

/// An image whose header says that its L1 table has an entry more than 32 MiB has room for, one
/// above it, and one whose table has as many as there is room for.
static LONG: [PartsRow; 3] = [
    (
        "long.qcow2",
        512 + 8 * 4_194_305,
        &[
            (0, VERSION_2),
            (23, b"\x09"),
            (30, b"\x08"),
            (36, b"\0\x40\0\x01"),
            (46, b"\x02"),
        ],
    ),
    (
        "over.qcow2",
        1024,
        &[
            (0, VERSION_2),
            (15, b"\xc8\0\0\0\x0a"),
            (23, b"\x09"),
            (30, b"\x08"),
            (39, b"\x01"),
            (46, b"\x02"),
            (200, b"long.qcow2"),
        ],
    ),
    (
        "longest.qcow2",
        512 + 8 * 4_194_304,
        &[
            (0, VERSION_2),
            (23, b"\x09"),
            (30, b"\x08"),
            (36, b"\0\x40\0\0"),
            (46, b"\x02"),
        ],
    ),
];

static LONG_CASES: [Case; 7] = [
    refused!(
        "map --tables 1G long.qcow2",
        1,
        "imago-img: \"long.qcow2\": its L1 table has 33554440 bytes, and 32 MiB is the limit\n"
    ),
    refused!(
        "convert long.qcow2 out.raw",
        1,
        "imago-img: \"long.qcow2\": its L1 table has 33554440 bytes, and 32 MiB is the limit\n"
    ),
    refused!(
        "map over.qcow2",
        1,
        "imago-img: \"over.qcow2\" needs \"long.qcow2\": its L1 table has 33554440 bytes, and 32 \
         MiB is the limit\n"
    ),
    made!("convert longest.qcow2 out.raw", 2048, &[]),
    Case {
        words: "info long.qcow2",
        appends: 99,
        finishes: true,
        status: 0,
        output: "image: \"long.qcow2\"\nfile format: qcow2\nvirtual size: 2 KiB (2048 bytes)\n\
                 disk size: 32 MiB\ncluster_size: 512\nFormat specific information:\n\
                 \x20   compat: 0.10\n\x20   compression type: zlib\n\
                 \x20   refcount bits: 16\n\
                 can't be opened: its L1 table has 33554440 bytes, and 32 MiB is the limit\n",
        errors: "",
        written: None,
    },
    Case {
        words: "info --json long.qcow2",
        appends: 99,
        finishes: true,
        status: 0,
        output: "{ \"filename\": \"long.qcow2\", \"format\": \"qcow2\", \"virtual-size\": 2048, \
                 \"actual-size\": 33554952, \"cluster-size\": 512, \"dirty-flag\": false, \
                 \"format-specific\": { \"type\": \"qcow2\", \"data\": { \"compat\": \"0.10\", \
                 \"compression-type\": \"zlib\", \"refcount-bits\": 16 } }, \"unsupported\": \
                 [\"its L1 table has 33554440 bytes, and 32 MiB is the limit\"] }\n",
        errors: "",
        written: None,
    },
    Case {
        words: "vet long.qcow2",
        appends: 99,
        finishes: true,
        status: 2,
        output: "\"long.qcow2\" is refused:\n\
                 too-large at 512: its L1 table has 33554440 bytes, and 32 MiB is the limit\n",
        errors: "",
        written: None,
    },
];

#[test]
fn files_are_of_one_format_and_no_longer_than_permitted(rt: HostRuntime) {
    check_cases_over(&rt, rt.alloc(), &MORE, &CASES);
    check_cases_over(&rt, rt.alloc(), &LONG, &LONG_CASES);
}

// SPDX-License-Identifier: MIT
//! Whether files from strangers are safe to hand on: the answer, each reason against it, and the
//! status.

use super::set_up::{Case, PartsRow, VERSION_2, VERSION_3, check_cases_over};

/// A case of a command line, its status, and its output.
macro_rules! told {
    ($words:literal, $status:literal, $output:literal) => {
        Case {
            words: $words,
            appends: 0,
            finishes: false,
            status: $status,
            output: $output,
            errors: "",
            written: None,
        }
    };
}

/// A case of a command line without an answer: what it tells as an error.
macro_rules! untold {
    ($words:literal, $errors:literal) => {
        Case {
            words: $words,
            appends: 0,
            finishes: false,
            status: 1,
            output: "",
            errors: $errors,
            written: None,
        }
    };
}

/// The files. The images begin as those of the other tests do: clusters of 512 bytes, an L1 table at
/// 512, and L2 tables behind it.
static MORE: [PartsRow; 12] = [
    (
        "zero.vmdk",
        49,
        &[(
            0,
            b"# Disk DescriptorFile\nversion=1\nRW 4 ZERO\n\n\n\n\n\n\n\n",
        )],
    ),
    (
        "extents.vmdk",
        104,
        &[(
            0,
            b"# Disk DescriptorFile\nversion=1\nRW 1 FLAT \"a\\b.bin\" 0\nRW x ZERO\n\
            NOACCESS 1 ZERO\nRW 1 SPARSE \"c.vmdk\"\n\n\n\n",
        )],
    ),
    // As QEMU writes it, in two sparse files.
    (
        "split.vmdk",
        115,
        &[(
            0,
            b"# Disk DescriptorFile\nversion=1\nCID=92f29a13\n\
            createType=\"twoGbMaxExtentSparse\"\nRW 4194304 SPARSE \"split-s001.vmdk\"\n",
        )],
    ),
    // Encrypted, marked as corrupt, with an external data file, an unknown feature and a backing
    // file whose name is no text. The disk has 4096 bytes.
    (
        "many.qcow2",
        1024,
        &[
            (0, VERSION_3),
            (15, b"\xc8\0\0\0\x02"),
            (23, b"\x09"),
            (30, b"\x10"),
            (35, b"\x01\0\0\0\x01"),
            (46, b"\x02"),
            (77, b"\x01\0\x06"),
            (99, b"\x04\0\0\0\x68"),
            (104, b"\x44\x41\x54\x41\0\0\0\x05disk\""),
            (200, b"\xff\xfe"),
        ],
    ),
    // Two L2 tables, at 1024 and 1536, for a disk of 64 KiB. The first has no fault. Of the second
    // the first entry has a reserved bit, and the next one names a cluster behind the end.
    (
        "second.qcow2",
        2560,
        &[
            (0, VERSION_2),
            (23, b"\x09"),
            (29, b"\x01"),
            (39, b"\x02"),
            (46, b"\x02"),
            (518, b"\x04"),
            (526, b"\x06"),
            (1030, b"\x08"),
            (1542, b"\x08\x02"),
            (1550, b"\x0a"),
        ],
    ),
    // A compressed cluster, which is said to be a frame of Zstandard.
    (
        "zstd.qcow2",
        2048,
        &[
            (0, VERSION_3),
            (23, b"\x09"),
            (30, b"\x08"),
            (39, b"\x01"),
            (46, b"\x02"),
            (79, b"\x08"),
            (99, b"\x04\0\0\0\x70\x01"),
            (518, b"\x04"),
            (1024, b"\x40\0\0\0\0\0\x06"),
        ],
    ),
    ("iso.qcow2", 32774, &[(0, VERSION_3), (32769, b"CD001")]),
    ("guest.vdi", 512, &[(64, b"\x7f\x10\xda\xbe")]),
    ("ends.dmg", 1024, &[(0, b"\x1f\x8b"), (512, b"koly")]),
    // What QEMU sees in these, qemu-img 7.2 was seen to.
    ("text.img", 14, &[(0, b"#\xff\0\nversion=1\n")]),
    ("short.img", 3, &[(0, b"QED")]),
    ("named.dmg", 7, &[(0, b"a disk\n")]),
];

static CASES: [Case; 25] = [
    told!(
        "vet one.qcow2",
        0,
        "\"one.qcow2\" is safe to hand on: qcow2 version 2, a disk of 2048 bytes in a file of 3584 \
         bytes\n"
    ),
    told!(
        "vet -f raw --output=json plain.raw",
        0,
        "{ \"filename\": \"plain.raw\", \"safe\": true, \"format\": \"raw\", \"virtual-size\": 7, \
         \"file-size\": 7, \"reasons\": [] }\n"
    ),
    told!(
        "vet --max-size=2K zero.vmdk",
        2,
        "\"zero.vmdk\" is refused:\n\
         descriptor: it is a VMDK descriptor, whose lines QEMU reads in another way\n"
    ),
    // Another file.
    told!(
        "vet top.qcow2",
        2,
        "\"top.qcow2\" is refused:\nbacking-file at 200: its backing file is \"mid.qcow2\"\n"
    ),
    told!(
        "vet --strict extents.vmdk",
        2,
        "\"extents.vmdk\" is refused:\n\
         descriptor: it is a VMDK descriptor, whose lines QEMU reads in another way\n\
         extent at 32: its extent is \"a\\\\b.bin\"\n\
         invalid at 54: a line of its descriptor is invalid\n\
         feature at 64: an extent may not be read\n\
         feature at 80: a line of its descriptor isn't supported\n"
    ),
    // A split disk of sparse files is refused by the name of its type.
    told!(
        "vet split.vmdk",
        2,
        "\"split.vmdk\" is refused:\n\
         descriptor: it is a VMDK descriptor, whose lines QEMU reads in another way\n\
         feature: its descriptor says the type twoGbMaxExtentSparse, which isn't supported\n\
         feature at 79: a line of its descriptor isn't supported\n"
    ),
    untold!(
        "info split.vmdk",
        "imago-img: \"split.vmdk\": a VMDK image of the type twoGbMaxExtentSparse, which isn't \
         supported; convert it with qemu-img\n"
    ),
    untold!(
        "map split.vmdk",
        "imago-img: \"split.vmdk\": a VMDK image of the type twoGbMaxExtentSparse, which isn't \
         supported; convert it with qemu-img\n"
    ),
    untold!(
        "convert split.vmdk out.raw",
        "imago-img: \"split.vmdk\": a VMDK image of the type twoGbMaxExtentSparse, which isn't \
         supported; convert it with qemu-img\n"
    ),
    // All reasons.
    told!(
        "vet --max-size=4K --output=json many.qcow2",
        2,
        "{ \"filename\": \"many.qcow2\", \"safe\": false, \"format\": \"qcow2\", \"version\": 3, \
         \"virtual-size\": 4096, \"file-size\": 1024, \"reasons\": [\
         { \"reason\": \"encrypted\", \"offset\": 32, \"text\": \"the header says encryption, \
         which isn't supported\" }, \
         { \"reason\": \"corrupt\", \"offset\": 72, \"text\": \"the header says corrupt, which \
         isn't supported\" }, \
         { \"reason\": \"data-file\", \"offset\": 112, \"name\": \"disk\\\"\", \"text\": \"its \
         external data file is \\\"disk\\\\\\\"\\\"\" }, \
         { \"reason\": \"feature\", \"offset\": 72, \"text\": \"the header says unknown bit 16, \
         which isn't supported\" }, \
         { \"reason\": \"backing-file\", \"offset\": 200, \"text\": \"it has a backing file, whose \
         name isn't UTF-8\" }] }\n"
    ),
    told!(
        "vet --max-size=2K many.qcow2",
        2,
        "\"many.qcow2\" is refused:\n\
         encrypted at 32: the header says encryption, which isn't supported\n\
         corrupt at 72: the header says corrupt, which isn't supported\n\
         data-file at 112: its external data file is \"disk\\\"\"\n\
         feature at 72: the header says unknown bit 16, which isn't supported\n\
         too-large at 24: its disk has 4096 bytes, and the limit is 2048\n\
         backing-file at 200: it has a backing file, whose name isn't UTF-8\n"
    ),
    // Another format, or two.
    told!(
        "vet -f raw one.qcow2",
        2,
        "\"one.qcow2\" is refused:\nanother-format at 0: said to be raw, but it is a qcow2 image\n"
    ),
    told!(
        "vet guest.vdi",
        2,
        "\"guest.vdi\" is refused:\nanother-format at 64: a VDI image, which isn't supported\n"
    ),
    told!(
        "vet ends.dmg",
        2,
        "\"ends.dmg\" is refused:\n\
         two-formats at 512: it is a file compressed by gzip, and also a DMG image\n\
         another-format at 0: a file compressed by gzip, which isn't supported\n"
    ),
    told!(
        "vet iso.qcow2",
        2,
        "\"iso.qcow2\" is refused:\n\
         two-formats at 32769: it is a qcow2 image, and also an ISO 9660 image\n\
         invalid at 20: the header says clusters of 2^0 bytes, which is out of range\n"
    ),
    told!(
        "vet text.img",
        2,
        "\"text.img\" is refused:\nanother-format: QEMU takes it for a VMDK image\n"
    ),
    told!(
        "vet --output=json -f raw short.img",
        2,
        "{ \"filename\": \"short.img\", \"safe\": false, \"format\": \"raw\", \
         \"virtual-size\": 3, \"file-size\": 3, \"reasons\": [{ \"reason\": \
         \"another-format\", \"text\": \"QEMU takes it for a QED image\" }] }\n"
    ),
    told!(
        "vet named.dmg",
        2,
        "\"named.dmg\" is refused:\nanother-format: QEMU takes it for a DMG image\n"
    ),
    // Limits.
    told!(
        "vet --max-size=1K --tables=519 one.qcow2",
        2,
        "\"one.qcow2\" is refused:\n\
         too-large at 24: its disk has 2048 bytes, and the limit is 1024\n\
         too-large at 512: its tables have 520 bytes, and 519 is the limit\n"
    ),
    told!(
        "vet --max-size=6 plain.raw",
        2,
        "\"plain.raw\" is refused:\n\
         too-large: its disk has 7 bytes, and the limit is 6\n"
    ),
    // Entries.
    told!(
        "vet second.qcow2",
        2,
        "\"second.qcow2\" is refused:\n\
         corrupt at 1536: an L2 entry is invalid\n\
         corrupt at 1544: an L2 entry names a cluster behind the file's end\n"
    ),
    told!(
        "vet zstd.qcow2",
        2,
        "\"zstd.qcow2\" is refused:\n\
         feature at 1024: an L2 entry names a cluster that is compressed with zstd, which isn't \
         offered\n"
    ),
    told!(
        "vet --output=json faulty.qcow2",
        2,
        "{ \"filename\": \"faulty.qcow2\", \"safe\": false, \"format\": \"qcow2\", \"version\": 2, \
         \"virtual-size\": 2048, \"file-size\": 2048, \"reasons\": [\
         { \"reason\": \"corrupt\", \"offset\": 1024, \"text\": \"an L2 entry is invalid\" }, \
         { \"reason\": \"corrupt\", \"offset\": 1048, \"text\": \"an L2 entry names a cluster \
         behind the file's end\" }] }\n"
    ),
    // Files that can't be looked at.
    untold!(
        "vet nowhere.raw",
        "imago-img: \"nowhere.raw\": entity not found\n"
    ),
    untold!(
        "vet parts",
        "imago-img: \"parts\": neither a regular file nor a block device\n"
    ),
];

#[test]
fn files_of_strangers_are_safe_or_not(rt: HostRuntime) {
    check_cases_over(&rt, rt.alloc(), &MORE, &CASES);
}

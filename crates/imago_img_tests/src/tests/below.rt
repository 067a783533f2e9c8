// SPDX-License-Identifier: MIT
//! What stands below a qcow2 image: of which format it is taken, and whether there is anything.

use super::set_up::{Case, PartsRow, VERSION_2, VERSION_3, check_cases_over};
use std::alloc::Global;
use std::process::Abort;

/// A command line that makes no file, its status, its output, and what it tells as an error.
type Row = (&'static str, u8, &'static str, &'static str);

/// qcow2 images whose disk of 2048 bytes is what is below, and files for below. A name of a backing
/// file stands at 200, the header extension with its format at 104.
static PARTS: [PartsRow; 19] = [
    // A raw file that begins as a qcow2 image does, and one that begins as a sparse VMDK image.
    ("begun.raw", 512, &[(0, b"QFI\xfb")]),
    ("sparse.raw", 512, &[(0, b"KDMV")]),
    (
        "says_raw.qcow2",
        1024,
        &[
            (0, VERSION_3),
            (15, b"\xc8\0\0\0\x09"),
            (23, b"\x09"),
            (30, b"\x08"),
            (39, b"\x01"),
            (46, b"\x02"),
            (99, b"\x04\0\0\0\x68"),
            (104, b"\xe2\x79\x2a\xca\0\0\0\x03raw"),
            (200, b"begun.raw"),
        ],
    ),
    (
        "says_raw_of_sparse.qcow2",
        1024,
        &[
            (0, VERSION_3),
            (15, b"\xc8\0\0\0\x0a"),
            (23, b"\x09"),
            (30, b"\x08"),
            (39, b"\x01"),
            (46, b"\x02"),
            (99, b"\x04\0\0\0\x68"),
            (104, b"\xe2\x79\x2a\xca\0\0\0\x03raw"),
            (200, b"sparse.raw"),
        ],
    ),
    // The old name of the raw format.
    (
        "says_file.qcow2",
        1024,
        &[
            (0, VERSION_3),
            (15, b"\xc8\0\0\0\x0a"),
            (23, b"\x09"),
            (30, b"\x08"),
            (39, b"\x01"),
            (46, b"\x02"),
            (99, b"\x04\0\0\0\x68"),
            (104, b"\xe2\x79\x2a\xca\0\0\0\x04file"),
            (200, b"sparse.raw"),
        ],
    ),
    (
        "says_qcow2.qcow2",
        1024,
        &[
            (0, VERSION_3),
            (15, b"\xc8\0\0\0\x09"),
            (23, b"\x09"),
            (30, b"\x08"),
            (39, b"\x01"),
            (46, b"\x02"),
            (99, b"\x04\0\0\0\x68"),
            (104, b"\xe2\x79\x2a\xca\0\0\0\x05qcow2"),
            (200, b"plain.raw"),
        ],
    ),
    (
        "says_none.qcow2",
        1024,
        &[
            (0, VERSION_2),
            (15, b"\xc8\0\0\0\x09"),
            (23, b"\x09"),
            (30, b"\x08"),
            (39, b"\x01"),
            (46, b"\x02"),
            (200, b"one.qcow2"),
        ],
    ),
    (
        "says_none_of_raw.qcow2",
        1024,
        &[
            (0, VERSION_2),
            (15, b"\xc8\0\0\0\x09"),
            (23, b"\x09"),
            (30, b"\x08"),
            (39, b"\x01"),
            (46, b"\x02"),
            (200, b"plain.raw"),
        ],
    ),
    (
        "says_none_of_sparse.qcow2",
        1024,
        &[
            (0, VERSION_2),
            (15, b"\xc8\0\0\0\x0a"),
            (23, b"\x09"),
            (30, b"\x08"),
            (39, b"\x01"),
            (46, b"\x02"),
            (200, b"sparse.raw"),
        ],
    ),
    // Two extensions with a format; and one behind that of a format, that passes the name.
    (
        "says_two.qcow2",
        1024,
        &[
            (0, VERSION_3),
            (15, b"\xc8\0\0\0\x09"),
            (23, b"\x09"),
            (30, b"\x08"),
            (39, b"\x01"),
            (46, b"\x02"),
            (99, b"\x04\0\0\0\x68"),
            (104, b"\xe2\x79\x2a\xca\0\0\0\x03raw"),
            (120, b"\xe2\x79\x2a\xca\0\0\0\x05qcow2"),
            (200, b"one.qcow2"),
        ],
    ),
    (
        "says_past.qcow2",
        1024,
        &[
            (0, VERSION_3),
            (15, b"\xc8\0\0\0\x09"),
            (23, b"\x09"),
            (30, b"\x08"),
            (39, b"\x01"),
            (46, b"\x02"),
            (99, b"\x04\0\0\0\x68"),
            (104, b"\xe2\x79\x2a\xca\0\0\0\x03raw"),
            (120, b"more\0\0\0\x49"),
            (200, b"begun.raw"),
        ],
    ),
    // A name of no bytes.
    (
        "nameless.qcow2",
        1024,
        &[
            (0, VERSION_2),
            (15, b"\xc8\0\0\0\0"),
            (23, b"\x09"),
            (30, b"\x08"),
            (39, b"\x01"),
            (46, b"\x02"),
        ],
    ),
    // Above VMDK images.
    (
        "says_vmdk.qcow2",
        1024,
        &[
            (0, VERSION_3),
            (15, b"\xc8\0\0\0\x09"),
            (23, b"\x09"),
            (30, b"\x08"),
            (39, b"\x01"),
            (46, b"\x02"),
            (99, b"\x04\0\0\0\x68"),
            (104, b"\xe2\x79\x2a\xca\0\0\0\x04vmdk"),
            (200, b"disk.vmdk"),
        ],
    ),
    (
        "says_vmdk_of_raw.qcow2",
        1024,
        &[
            (0, VERSION_3),
            (15, b"\xc8\0\0\0\x09"),
            (23, b"\x09"),
            (30, b"\x08"),
            (39, b"\x01"),
            (46, b"\x02"),
            (99, b"\x04\0\0\0\x68"),
            (104, b"\xe2\x79\x2a\xca\0\0\0\x04vmdk"),
            (200, b"plain.raw"),
        ],
    ),
    (
        "two_above.qcow2",
        2048,
        &[
            (0, VERSION_2),
            (15, b"\xc8\0\0\0\x0b"),
            (23, b"\x09"),
            (30, b"\x08"),
            (39, b"\x01"),
            (46, b"\x02"),
            (200, b"above.qcow2"),
            (518, b"\x04"),
            (1030, b"\x06"),
            (1536, b"t"),
        ],
    ),
    (
        "above_outside.qcow2",
        1024,
        &[
            (0, VERSION_2),
            (15, b"\xc8\0\0\0\x0c"),
            (23, b"\x09"),
            (30, b"\x08"),
            (39, b"\x01"),
            (46, b"\x02"),
            (200, b"outside.vmdk"),
        ],
    ),
    (
        "above_linked.qcow2",
        1024,
        &[
            (0, VERSION_2),
            (15, b"\xc8\0\0\0\x0b"),
            (23, b"\x09"),
            (30, b"\x08"),
            (39, b"\x01"),
            (46, b"\x02"),
            (200, b"linked.vmdk"),
        ],
    ),
    (
        "above_missing.qcow2",
        1024,
        &[
            (0, VERSION_2),
            (15, b"\xc8\0\0\0\x0c"),
            (23, b"\x09"),
            (30, b"\x08"),
            (39, b"\x01"),
            (46, b"\x02"),
            (200, b"missing.vmdk"),
        ],
    ),
    (
        "above_barred.qcow2",
        1024,
        &[
            (0, VERSION_2),
            (15, b"\xc8\0\0\0\x0b"),
            (23, b"\x09"),
            (30, b"\x08"),
            (39, b"\x01"),
            (46, b"\x02"),
            (200, b"barred.vmdk"),
        ],
    ),
];

/// The format of a file below: that of the last name that the header has, or else what the file
/// begins with, whatever the command line says of the first one.
static FORMATS: [Row; 12] = [
    (
        "map says_raw.qcow2",
        0,
        "start                length               kind offset               file\n\
        0                    4                    data 0                    \"begun.raw\"\n\
        4                    508                  zero 4                    \"begun.raw\"\n\
        512                  1536                 absent\n",
        "",
    ),
    (
        "map says_raw_of_sparse.qcow2",
        0,
        "start                length               kind offset               file\n\
        0                    4                    data 0                    \"sparse.raw\"\n\
        4                    508                  zero 4                    \"sparse.raw\"\n\
        512                  1536                 absent\n",
        "",
    ),
    (
        "map says_file.qcow2",
        0,
        "start                length               kind offset               file\n\
        0                    4                    data 0                    \"sparse.raw\"\n\
        4                    508                  zero 4                    \"sparse.raw\"\n\
        512                  1536                 absent\n",
        "",
    ),
    (
        "map says_qcow2.qcow2",
        1,
        "",
        "imago-img: \"says_qcow2.qcow2\" needs \"plain.raw\": it isn't a qcow2 image, or ends \
         within its header\n",
    ),
    (
        "compare says_none.qcow2 one.raw",
        0,
        "Images are identical.\n",
        "",
    ),
    (
        "map says_none_of_raw.qcow2",
        0,
        "start                length               kind offset               file\n\
        0                    2                    zero 0                    \"plain.raw\"\n\
        2                    5                    data 2                    \"plain.raw\"\n\
        7                    2041                 absent\n",
        "",
    ),
    (
        "map -f qcow2 says_none_of_raw.qcow2",
        0,
        "start                length               kind offset               file\n\
        0                    2                    zero 0                    \"plain.raw\"\n\
        2                    5                    data 2                    \"plain.raw\"\n\
        7                    2041                 absent\n",
        "",
    ),
    (
        "map says_none_of_sparse.qcow2",
        1,
        "",
        "imago-img: \"says_none_of_sparse.qcow2\" needs \"sparse.raw\": a sparse VMDK image, which \
         isn't supported\n",
    ),
    (
        "compare says_two.qcow2 one.raw",
        0,
        "Images are identical.\n",
        "",
    ),
    (
        "map says_past.qcow2",
        1,
        "",
        "imago-img: \"says_past.qcow2\": the image's data is invalid; imago-img check tells \
         where\n",
    ),
    (
        "info says_two.qcow2",
        0,
        "image: \"says_two.qcow2\"\nfile format: qcow2\nvirtual size: 2 KiB (2048 bytes)\n\
        disk size: 1 KiB\ncluster_size: 512\n\
        backing file: \"one.qcow2\"\n\
        backing file format: \"qcow2\"\n\
        Format specific information:\n\
        \x20   compat: 1.1\n\
        \x20   compression type: zlib\n\
        \x20   lazy refcounts: false\n\
        \x20   refcount bits: 16\n\
        \x20   corrupt: false\n\
        \x20   extended l2: false\n",
        "",
    ),
    (
        "compare -f qcow2 says_none_of_raw.qcow2 says_raw.qcow2",
        1,
        "Content mismatch at offset 0!\n",
        "",
    ),
];

/// A name of no bytes is no file below.
static NAMELESS: [Row; 2] = [
    (
        "map nameless.qcow2",
        0,
        "start                length               kind offset               file\n\
        0                    2048                 absent\n",
        "",
    ),
    (
        "info nameless.qcow2",
        0,
        "image: \"nameless.qcow2\"\nfile format: qcow2\nvirtual size: 2 KiB (2048 bytes)\n\
        disk size: 1 KiB\ncluster_size: 512\n\
        Format specific information:\n\
        \x20   compat: 0.10\n\
        \x20   compression type: zlib\n\
        \x20   refcount bits: 16\n",
        "",
    ),
];

/// The lowest image is a VMDK image.
static ABOVE_VMDK: [Row; 11] = [
    (
        "map above.qcow2",
        0,
        "start                length               kind offset               file\n\
        0                    3                    zero 0                    \"a.bin\"\n\
        3                    3                    data 3                    \"a.bin\"\n\
        6                    506                  zero 6                    \"a.bin\"\n\
        512                  1024                 zero\n\
        1536                 3                    data 512                  \"parts/b.bin\"\n\
        1539                 509                  zero 515                  \"parts/b.bin\"\n",
        "",
    ),
    (
        "map --json two_above.qcow2",
        0,
        "[{ \"start\": 0, \"length\": 1, \"depth\": 0, \"present\": true, \"zero\": false, \
         \"data\": true, \"offset\": 1536, \"filename\": \"two_above.qcow2\"},\n\
        { \"start\": 1, \"length\": 511, \"depth\": 0, \"present\": true, \"zero\": true, \
        \"data\": false, \"offset\": 1537, \"filename\": \"two_above.qcow2\"},\n\
        { \"start\": 512, \"length\": 1024, \"depth\": 2, \"present\": true, \"zero\": true, \
        \"data\": false},\n\
        { \"start\": 1536, \"length\": 3, \"depth\": 2, \"present\": true, \"zero\": false, \
        \"data\": true, \"offset\": 512, \"filename\": \"parts/b.bin\"},\n\
        { \"start\": 1539, \"length\": 509, \"depth\": 2, \"present\": true, \"zero\": true, \
        \"data\": false, \"offset\": 515, \"filename\": \"parts/b.bin\"}]\n",
        "",
    ),
    (
        "compare says_vmdk.qcow2 disk.vmdk",
        0,
        "Images are identical.\n",
        "",
    ),
    (
        "compare two_above.qcow2 disk.vmdk",
        1,
        "Content mismatch at offset 0!\n",
        "",
    ),
    (
        "info above.qcow2",
        0,
        "image: \"above.qcow2\"\nfile format: qcow2\nvirtual size: 2 KiB (2048 bytes)\n\
        disk size: 1 KiB\ncluster_size: 512\n\
        backing file: \"disk.vmdk\"\n\
        Format specific information:\n\
        \x20   compat: 0.10\n\
        \x20   compression type: zlib\n\
        \x20   refcount bits: 16\n",
        "",
    ),
    (
        "map says_vmdk_of_raw.qcow2",
        1,
        "",
        "imago-img: \"says_vmdk_of_raw.qcow2\" needs \"plain.raw\": the driver or storage does not \
         support this operation; imago-img check tells where\n",
    ),
    (
        "map above_outside.qcow2",
        1,
        "",
        "imago-img: \"above_outside.qcow2\" needs \"outside.vmdk\": its extent \"/etc/secret\" \
         isn't in the descriptor's folder; --allow-outside permits it, or, if it is there, \
         name the image by its absolute path\n",
    ),
    (
        "map above_linked.qcow2",
        1,
        "",
        "imago-img: \"above_linked.qcow2\" needs \"linked.vmdk\": its extent \"link.bin\" isn't in \
         the descriptor's folder; --allow-outside permits it\n",
    ),
    (
        "convert above_missing.qcow2 out.raw",
        1,
        "",
        "imago-img: \"above_missing.qcow2\" needs \"nowhere.bin\": entity not found\n",
    ),
    (
        "convert above_barred.qcow2 out.raw",
        1,
        "",
        "imago-img: \"above_barred.qcow2\": this part of the disk may not be accessed\n",
    ),
    (
        "convert --force above.qcow2 parts/b.bin",
        1,
        "",
        "imago-img: \"parts/b.bin\": a file of the image that is read is never replaced\n",
    ),
];

/// Disks above VMDK images that are written to raw files.
static CONVERTED: [Case; 2] = [
    Case {
        words: "convert two_above.qcow2 out.raw",
        appends: 99,
        finishes: true,
        status: 0,
        output: "",
        errors: "imago-img: warning: \"parts/b.bin\": 515 bytes, and the image uses it up to \
            1024: the missing bytes read as 0\n",
        written: Some((2048, &[(0, b"t"), (1536, b"xyz")])),
    },
    Case {
        words: "convert --allow-outside above_outside.qcow2 out.raw",
        appends: 99,
        finishes: true,
        status: 0,
        output: "",
        errors: "imago-img: warning: \"/etc/secret\": 3 bytes, and the image uses it up to 512: \
            the missing bytes read as 0\n",
        written: Some((2048, &[(0, b"top")])),
    },
];

/// Tries command lines that make no file.
fn check_rows(rt: &impl Abort, alloc: Global, rows: &[Row]) {
    for (words, status, output, errors) in rows {
        check_cases_over(
            rt,
            alloc,
            &PARTS,
            &[Case {
                words,
                appends: 99,
                finishes: true,
                status: *status,
                output,
                errors,
                written: None,
            }],
        );
    }
}

#[test]
fn a_file_below_has_the_format_that_is_said(rt: HostRuntime) {
    check_rows(&rt, rt.alloc(), &FORMATS);
}

#[test]
fn a_name_without_bytes_is_no_file_below(rt: HostRuntime) {
    check_rows(&rt, rt.alloc(), &NAMELESS);
}

#[test]
fn a_vmdk_image_stands_below(rt: HostRuntime) {
    check_rows(&rt, rt.alloc(), &ABOVE_VMDK);
}

#[test]
fn a_disk_above_a_vmdk_image_is_converted(rt: HostRuntime) {
    check_cases_over(&rt, rt.alloc(), &PARTS, &CONVERTED);
}

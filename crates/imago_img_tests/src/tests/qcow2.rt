// SPDX-License-Identifier: MIT
//! qcow2 images, alone and above others: what each command prints, and what is refused.

use super::set_up::{Case, PartsRow, VERSION_2, check_cases, check_cases_over};

/// A command line that makes no file, its status, its output, and what it tells as an error.
type Row = (&'static str, u8, &'static str, &'static str);

/// Command lines that make no file.
static ROWS: [Row; 22] = [
    // One image.
    (
        "info one.qcow2",
        0,
        "image: \"one.qcow2\"\nfile format: qcow2\nvirtual size: 2 KiB (2048 bytes)\n\
        disk size: 3.5 KiB\ncluster_size: 512\n\
        Format specific information:\n\
        \x20   compat: 0.10\n\
        \x20   compression type: zlib\n\
        \x20   refcount bits: 16\n",
        "",
    ),
    (
        "info --json one.qcow2",
        0,
        "{ \"filename\": \"one.qcow2\", \"format\": \"qcow2\", \"virtual-size\": 2048, \
        \"actual-size\": 3584, \"cluster-size\": 512, \"dirty-flag\": false, \
        \"format-specific\": { \"type\": \"qcow2\", \"data\": { \"compat\": \"0.10\", \
        \"compression-type\": \"zlib\", \"refcount-bits\": 16 } } }\n",
        "",
    ),
    (
        "map --json one.qcow2",
        0,
        "[{ \"start\": 0, \"length\": 512, \"depth\": 0, \"present\": false, \"zero\": true, \
         \"data\": false},\n\
        { \"start\": 512, \"length\": 1, \"depth\": 0, \"present\": true, \"zero\": false, \
        \"data\": true, \"offset\": 2048, \"filename\": \"one.qcow2\"},\n\
        { \"start\": 513, \"length\": 511, \"depth\": 0, \"present\": true, \"zero\": true, \
        \"data\": false, \"offset\": 2049, \"filename\": \"one.qcow2\"},\n\
        { \"start\": 1024, \"length\": 1, \"depth\": 0, \"present\": true, \"zero\": false, \
        \"data\": true, \"offset\": 1536, \"filename\": \"one.qcow2\"},\n\
        { \"start\": 1025, \"length\": 511, \"depth\": 0, \"present\": true, \"zero\": true, \
        \"data\": false, \"offset\": 1537, \"filename\": \"one.qcow2\"},\n\
        { \"start\": 1536, \"length\": 512, \"depth\": 0, \"present\": false, \"zero\": true, \
        \"data\": false}]\n",
        "",
    ),
    (
        "compare one.qcow2 one.raw",
        0,
        "Images are identical.\n",
        "",
    ),
    (
        "compare one.qcow2 top.qcow2",
        1,
        "Content mismatch at offset 0!\n",
        "",
    ),
    (
        "check one.qcow2",
        0,
        "No errors were found on the image.\n",
        "",
    ),
    // One above two others.
    (
        "info top.qcow2",
        0,
        "image: \"top.qcow2\"\nfile format: qcow2\nvirtual size: 2 KiB (2048 bytes)\n\
        disk size: 2 KiB\ncluster_size: 512\n\
        backing file: \"mid.qcow2\"\nbacking file format: \"qcow2\"\n\
        Format specific information:\n\
        \x20   compat: 1.1\n\
        \x20   compression type: zlib\n\
        \x20   lazy refcounts: true\n\
        \x20   refcount bits: 16\n\
        \x20   corrupt: false\n\
        \x20   extended l2: false\n",
        "",
    ),
    // All three, and as far as they are let through.
    (
        "info --backing-chain top.qcow2",
        0,
        "image: \"top.qcow2\"\nfile format: qcow2\nvirtual size: 2 KiB (2048 bytes)\n\
        disk size: 2 KiB\ncluster_size: 512\n\
        backing file: \"mid.qcow2\"\nbacking file format: \"qcow2\"\n\
        Format specific information:\n\
        \x20   compat: 1.1\n\
        \x20   compression type: zlib\n\
        \x20   lazy refcounts: true\n\
        \x20   refcount bits: 16\n\
        \x20   corrupt: false\n\
        \x20   extended l2: false\n\
        \nimage: \"mid.qcow2\"\nfile format: qcow2\nvirtual size: 2 KiB (2048 bytes)\n\
        disk size: 2 KiB\ncluster_size: 512\n\
        backing file: \"parts/base.raw\"\n\
        Format specific information:\n\
        \x20   compat: 0.10\n\
        \x20   compression type: zlib\n\
        \x20   refcount bits: 16\n\
        \nimage: \"parts/base.raw\"\nfile format: raw\nvirtual size: 1.5 KiB (1536 bytes)\n\
        disk size: 1.5 KiB\n",
        "",
    ),
    (
        "info --backing-chain --json outside.qcow2",
        1,
        "[\n{ \"filename\": \"outside.qcow2\", \"format\": \"qcow2\", \"virtual-size\": 2048, \
        \"actual-size\": 1024, \"cluster-size\": 512, \"backing-filename\": \"/etc/secret\", \
        \"full-backing-filename\": \"/etc/secret\", \"dirty-flag\": false, \
        \"format-specific\": { \"type\": \"qcow2\", \"data\": { \"compat\": \"0.10\", \
        \"compression-type\": \"zlib\", \"refcount-bits\": 16 } } }",
        "imago-img: \"outside.qcow2\": its backing file \"/etc/secret\" isn't in its folder; \
        --allow-outside permits it, or, if it is there, name the image by its absolute path\n",
    ),
    (
        "map top.qcow2",
        0,
        "start                length               kind offset               file\n\
        0                    1                    data 1536                 \"top.qcow2\"\n\
        1                    511                  zero 1537                 \"top.qcow2\"\n\
        512                  1                    data 1536                 \"mid.qcow2\"\n\
        513                  511                  zero 1537                 \"mid.qcow2\"\n\
        1024                 1                    data 1024                 \"parts/base.raw\"\n\
        1025                 511                  zero 1025                 \"parts/base.raw\"\n\
        1536                 512                  absent\n",
        "",
    ),
    (
        "compare top.qcow2 top.raw",
        0,
        "Images are identical.\n",
        "",
    ),
    // What is refused.
    (
        "map -f qcow2 one.raw",
        1,
        "",
        "imago-img: \"one.raw\": it isn't a qcow2 image, or ends within its header\n",
    ),
    (
        "map outside.qcow2",
        1,
        "",
        "imago-img: \"outside.qcow2\": its backing file \"/etc/secret\" isn't in its folder; \
        --allow-outside permits it, or, if it is there, name the image by its absolute path\n",
    ),
    (
        "map linked.qcow2",
        1,
        "",
        "imago-img: \"linked.qcow2\": its backing file \"link.bin\" isn't in its folder; \
        --allow-outside permits it\n",
    ),
    (
        "convert circle.qcow2 out.raw",
        1,
        "",
        "imago-img: \"circle.qcow2\": backing files lead in a circle: \
        \"circle.qcow2\", \"around.qcow2\", \"circle.qcow2\"\n",
    ),
    (
        "map lost.qcow2",
        1,
        "",
        "imago-img: \"lost.qcow2\" needs \"nowhere.raw\": entity not found\n",
    ),
    (
        "map other.qcow2",
        1,
        "",
        "imago-img: \"other.qcow2\": its backing file has the format \"luks\", which isn't \
         supported\n",
    ),
    // `qemu-img` takes `file:NAME` for the file, and looks for a protocol named json.
    (
        "compare file.qcow2 one.raw",
        0,
        "Images are identical.\n",
        "",
    ),
    (
        "map json.qcow2",
        1,
        "",
        "imago-img: \"json.qcow2\": its backing file \"json:b\" is named by a protocol, and only \
         files are supported\n",
    ),
    (
        "map --strict above.qcow2",
        1,
        "",
        "imago-img: \"above.qcow2\" needs \"disk.vmdk\": the image's data is invalid; imago-img \
         check tells where\n",
    ),
    (
        "convert faulty.qcow2 out.raw",
        1,
        "",
        "imago-img: \"faulty.qcow2\": the entry of an L2 table at 1024 is invalid; \
        imago-img check tells all faults\n",
    ),
    (
        "check -f qcow2 one.raw",
        1,
        "",
        "imago-img: \"one.raw\" can't be checked: it isn't a qcow2 image, or ends within its \
         header\n",
    ),
];

/// A file whose last byte is the first of a cluster, one that ends where that cluster begins, and one
/// of a disk of 1025 bytes, whose last cluster begins where the file ends.
static CUT: [PartsRow; 3] = [
    (
        "last.qcow2",
        2049,
        &[
            (0, VERSION_2),
            (23, b"\x09"),
            (30, b"\x08"),
            (39, b"\x01"),
            (46, b"\x02"),
            (512, b"\x80\0\0\0\0\0\x04"),
            (1032, b"\x80\0\0\0\0\0\x08\0\x80\0\0\0\0\0\x06"),
            (1536, b"1"),
            (2048, b"2"),
        ],
    ),
    (
        "cut.qcow2",
        2048,
        &[
            (0, VERSION_2),
            (23, b"\x09"),
            (30, b"\x08"),
            (39, b"\x01"),
            (46, b"\x02"),
            (512, b"\x80\0\0\0\0\0\x04"),
            (1032, b"\x80\0\0\0\0\0\x08\0\x80\0\0\0\0\0\x06"),
            (1536, b"1"),
        ],
    ),
    (
        "rest.qcow2",
        2048,
        &[
            (0, VERSION_2),
            (23, b"\x09"),
            (30, b"\x04\x01"),
            (39, b"\x01"),
            (46, b"\x02"),
            (512, b"\x80\0\0\0\0\0\x04"),
            (1032, b"\x80\0\0\0\0\0\x06\0\x80\0\0\0\0\0\x08"),
            (1536, b"1"),
        ],
    ),
];

/// Disks that are written to raw files.
static CONVERTED: [Case; 10] = [
    Case {
        words: "convert one.qcow2 out.raw",
        appends: 99,
        finishes: true,
        status: 0,
        output: "",
        errors: "",
        written: Some((2048, &[(512, b"2"), (1024, b"1")])),
    },
    Case {
        words: "convert top.qcow2 out.raw",
        appends: 99,
        finishes: true,
        status: 0,
        output: "",
        errors: "",
        written: Some((2048, &[(0, b"t"), (512, b"m"), (1024, b"b")])),
    },
    // Bytes that lack in a file's last cluster aren't told, as a cluster may be cut.
    Case {
        words: "convert last.qcow2 out.raw",
        appends: 99,
        finishes: true,
        status: 0,
        output: "",
        errors: "",
        written: Some((2048, &[(512, b"2"), (1024, b"1")])),
    },
    Case {
        words: "convert cut.qcow2 out.raw",
        appends: 99,
        finishes: true,
        status: 0,
        output: "",
        errors: "imago-img: warning: \"cut.qcow2\": 2048 bytes, and the image uses it up to 2560: \
            the missing bytes read as 0\n",
        written: Some((2048, &[(1024, b"1")])),
    },
    // Where no other file is opened, such a disk is refused, to whatever it is to be written.
    Case {
        words: "convert --alone last.qcow2 out.raw",
        appends: 99,
        finishes: true,
        status: 0,
        output: "",
        errors: "",
        written: Some((2048, &[(512, b"2"), (1024, b"1")])),
    },
    Case {
        words: "convert --alone cut.qcow2 out.raw",
        appends: 99,
        finishes: true,
        status: 1,
        output: "",
        errors: "imago-img: \"cut.qcow2\": 2048 bytes, and the image uses it up to 2560; \
            imago-img check tells where\n",
        written: None,
    },
    Case {
        words: "convert --alone -q -O qcow2 cut.qcow2 out.raw",
        appends: 99,
        finishes: true,
        status: 1,
        output: "",
        errors: "imago-img: \"cut.qcow2\": 2048 bytes, and the image uses it up to 2560; \
            imago-img check tells where\n",
        written: None,
    },
    Case {
        words: "convert --alone -n cut.qcow2 disk.dev",
        appends: 99,
        finishes: true,
        status: 1,
        output: "",
        errors: "imago-img: \"cut.qcow2\": 2048 bytes, and the image uses it up to 2560; \
            imago-img check tells where\n",
        written: None,
    },
    Case {
        words: "convert rest.qcow2 out.raw",
        appends: 99,
        finishes: true,
        status: 0,
        output: "",
        errors: "",
        written: Some((1025, &[(512, b"1")])),
    },
    Case {
        words: "convert --alone rest.qcow2 out.raw",
        appends: 99,
        finishes: true,
        status: 1,
        output: "",
        errors: "imago-img: \"rest.qcow2\": 2048 bytes, and the image uses it up to 2049; \
            imago-img check tells where\n",
        written: None,
    },
];

#[test]
fn qcow2_images_are_told_and_refused(rt: HostRuntime) {
    for (words, status, output, errors) in &ROWS {
        check_cases(
            &rt,
            rt.alloc(),
            &[Case {
                words,
                appends: 99,
                finishes: true,
                status: *status,
                output,
                errors,
                written: None,
            }],
        );
    }
}

#[test]
fn qcow2_images_are_converted(rt: HostRuntime) {
    check_cases_over(&rt, rt.alloc(), &CUT, &CONVERTED);
}

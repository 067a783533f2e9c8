// SPDX-License-Identifier: MIT
//! Files, and which format `qemu-img info` of version 7.2 opens each as.
//!
//! A file with the marks of two formats it opens as one of them; which one isn't told here.
use imago_formats::probe::{CLOOP, Probed, qemu_takes_for};
use std::process::Abort;

/// The longest file that is tried, in bytes.
const LONGEST: usize = 1024;

/// A file of that name and length, which has these bytes at these offsets and else zeroes.
struct Row {
    name: &'static str,
    parts: &'static [(usize, &'static [u8])],
    length: usize,
    seen: Option<Probed>,
}

/// A row of a file by no special name.
macro_rules! row {
    ($parts:expr, $length:literal, $seen:ident) => {
        Row {
            name: "disk",
            parts: &$parts,
            length: $length,
            seen: Some(Probed::$seen),
        }
    };
}

/// Files with one mark, and those next to them.
static MARKS: [Row; 26] = [
    row!([], 0, Raw),
    row!([], 1, Raw),
    row!([], 512, Raw),
    row!([(0, b"QFI\xfb"), (4, b"\0\0\0\0")], 8, Raw),
    row!([(0, b"QFI\xfb"), (4, b"\0\0\0\x01")], 8, Qcow1),
    row!([(0, b"QFI\xfb"), (4, b"\0\0\0\x02")], 8, Qcow2),
    row!([(0, b"QFI\xfb"), (4, b"\0\0\0\x03")], 8, Qcow2),
    row!([(0, b"QFI\xfb"), (4, b"\0\0\x01\0")], 8, Qcow2),
    row!([(0, b"QFI")], 3, Raw),
    row!([(0, b"QFI\xfb"), (4, b"\0\0\0")], 7, Raw),
    row!([(1, b"QFI\xfb\0\0\0\x03")], 9, Raw),
    row!([(0, b"QED\0")], 4, Qed),
    row!([(0, b"QED")], 3, Qed),
    row!([(0, b"QED1")], 4, Raw),
    row!([(0, b"QE")], 2, Raw),
    row!([(64, b"\x7f\x10\xda\xbe")], 68, Vdi),
    row!([(64, b"\x7f\x10\xda")], 67, Raw),
    row!([(65, b"\x7f\x10\xda\xbe")], 69, Raw),
    row!([(0, b"vhdxfile")], 8, Vhdx),
    row!([(0, b"vhdxfil")], 7, Raw),
    row!([(0, b"conectix")], 8, Vpc),
    row!([(0, b"conectiy")], 8, Raw),
    row!([(0, b"KDMV")], 4, Vmdk),
    row!([(0, b"COWD")], 4, Vmdk),
    row!([(0, b"KDM")], 3, Raw),
    Row {
        name: "disk",
        parts: &[(0, b"QFI\xfb\0\0\0\x03"), (64, b"\x7f\x10\xda\xbe")],
        length: 68,
        seen: None,
    },
];

/// Files with several marks or a number, and files by their names.
static MORE: [Row; 21] = [
    row!(
        [(0, b"WithoutFreeSpace"), (16, b"\x02\0\0\0")],
        20,
        Parallels
    ),
    row!([(0, b"WithoutFreeSpace"), (16, b"\x02")], 17, Parallels),
    row!(
        [(0, b"WithouFreSpacExt"), (16, b"\x02\0\0\0")],
        20,
        Parallels
    ),
    row!([(0, b"WithouFreSpacExt"), (16, b"\x02")], 17, Parallels),
    row!([(0, b"WithoutFreeSpace"), (16, b"\x03\0\0\0")], 20, Raw),
    row!([(0, b"WithoutFreeSpace")], 16, Raw),
    row!([(0, b"LUKS\xba\xbe\0\x01")], 8, Luks),
    row!([(0, b"LUKS\xba\xbe\0\x02")], 8, Raw),
    row!([(0, b"LUKS\xba\xbe\x01\0")], 8, Raw),
    row!(
        [
            (0, b"Bochs Virtual HD Image"),
            (32, b"Redolog"),
            (48, b"Growing"),
            (64, b"\0\0\x02\0")
        ],
        68,
        Bochs
    ),
    row!(
        [
            (0, b"Bochs Virtual HD Image"),
            (32, b"Redolog"),
            (48, b"Growing"),
            (64, b"\0\0\x01")
        ],
        67,
        Bochs
    ),
    row!(
        [
            (0, b"Bochs Virtual HD Image"),
            (32, b"Redolog"),
            (48, b"Growing"),
            (64, b"\0\0\x03\0")
        ],
        68,
        Raw
    ),
    row!(
        [
            (0, b"Bochs Virtual HD Image"),
            (32, b"Redolog"),
            (48, b"Undoable"),
            (64, b"\0\0\x02\0")
        ],
        68,
        Raw
    ),
    row!([(0, CLOOP)], 83, Cloop),
    row!(
        [(
            0,
            b"#!/bin/sh\n#V2.0 Format\nmodprobe cloop file=$0 && mount -r -t iso9660 /dev/cloop $1"
        )],
        82,
        Raw
    ),
    Row {
        name: "disk.dmg",
        parts: &[(0, CLOOP)],
        length: 83,
        seen: None,
    },
    Row {
        name: "disk.dmg",
        parts: &[(0, b"disk")],
        length: 4,
        seen: Some(Probed::Dmg),
    },
    Row {
        name: ".dmg",
        parts: &[(0, b"disk")],
        length: 4,
        seen: Some(Probed::Raw),
    },
    Row {
        name: "disk.DMG",
        parts: &[(0, b"disk")],
        length: 4,
        seen: Some(Probed::Raw),
    },
    Row {
        name: "disk.dmg",
        parts: &[],
        length: 0,
        seen: Some(Probed::Raw),
    },
    Row {
        name: "disk.dmg",
        parts: &[(0, b"KDMV")],
        length: 4,
        seen: Some(Probed::Vmdk),
    },
];

/// Texts.
static TEXTS: [Row; 20] = [
    row!([(0, b"version=1\n")], 10, Vmdk),
    row!([(0, b"version=2\r\n")], 11, Vmdk),
    row!([(0, b"version=3\n")], 10, Vmdk),
    row!([(0, b"version=4\n")], 10, Raw),
    row!([(0, b"version=1")], 9, Raw),
    row!([(0, b"version=1 \n")], 11, Raw),
    row!([(0, b"version=1\r\r\n")], 12, Raw),
    row!([(0, b"# Disk DescriptorFile\nversion=1\n")], 32, Vmdk),
    row!([(0, b"#\xff\0\nversion=1\n")], 14, Vmdk),
    row!([(0, b"#\n  \n \r\n# a\r\nversion=3\r\n")], 24, Vmdk),
    row!([(0, b"\nversion=1\n")], 11, Raw),
    row!([(0, b"#\n\nversion=1\n")], 13, Raw),
    row!([(0, b"#\n\r\nversion=1\n")], 14, Raw),
    row!([(0, b" \r\r\nversion=1\n")], 14, Raw),
    row!([(0, b" version=1\n")], 11, Raw),
    row!([(0, b"# version=1\n")], 12, Raw),
    row!([(0, b"#"), (501, b"\nversion=1\n")], 512, Vmdk),
    row!([(0, b"#"), (502, b"\nversion=1\n")], 513, Raw),
    row!([(0, b"#"), (500, b"\nversion=1\r\n")], 512, Vmdk),
    row!([(0, b"#"), (501, b"\nversion=1\r\n")], 513, Raw),
];

/// The file's bytes, at the beginning of that buffer.
fn write(row: &Row, file: &mut [u8; LONGEST]) {
    for (at, bytes) in row.parts {
        if *at <= LONGEST && bytes.len() <= LONGEST - *at {
            file[*at..*at + bytes.len()].copy_from_slice(bytes);
        }
    }
}

/// Whether the file is seen as it should be.
fn is_seen(row: &Row) -> bool {
    let mut file = [0u8; LONGEST];
    write(row, &mut file);
    qemu_takes_for(row.name, &file[..row.length.min(LONGEST)]) == row.seen
}

/// Looks at each file.
fn check_rows(rt: &impl Abort, rows: &[Row]) {
    let mut number = 0usize;
    for row in rows {
        assert!(rt; is_seen(row), "row {number}");
        number = number.saturating_add(1);
    }
}

#[test]
fn marks_are_seen(rt: HostRuntime) {
    check_rows(&rt, &MARKS);
}

#[test]
fn more_is_seen(rt: HostRuntime) {
    check_rows(&rt, &MORE);
}

#[test]
fn texts_are_seen(rt: HostRuntime) {
    check_rows(&rt, &TEXTS);
}

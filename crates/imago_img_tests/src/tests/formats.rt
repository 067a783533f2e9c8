// SPDX-License-Identifier: MIT
//! Formats that are recognised, and refused where they aren't said.

use super::set_up::{PartsRow, VERSION_2, check_line, expected};
use crate::memory_host::{MemoryHost, Nature};
use std::alloc::{AllocError, Global};
use std::process::Abort;

/// A file by its name, its length and what stands in it, and the line that refuses it, behind its
/// name.
type Row = (
    &'static str,
    usize,
    &'static [(usize, &'static [u8])],
    &'static str,
);

/// Ends the line of a disk image.
macro_rules! convert {
    ($what:literal) => {
        concat!(
            $what,
            ", which isn't supported; convert it with qemu-img, or say -f raw for its bytes as \
             they are\n"
        )
    };
}

/// Ends the line of an archive, or of a file that is compressed.
macro_rules! unpack {
    ($what:literal) => {
        concat!(
            $what,
            ", which isn't supported; unpack it, or say -f raw for its bytes as they are\n"
        )
    };
}

/// What a sparse VMDK image is refused by.
const SPARSE: &str =
    "a sparse VMDK image, which isn't supported; -f raw takes its bytes as they are\n";

/// What a descriptor in another spelling is refused by.
const SPELLED: &str = "a VMDK descriptor that doesn't begin with \"# Disk DescriptorFile\"; say -f \
    vmdk or -f raw\n";

/// Files of other formats, each by the signature that the format's own description gives.
static REFUSED: [Row; 31] = [
    (
        "a.vdi",
        512,
        &[(64, b"\x7f\x10\xda\xbe")],
        convert!("a VDI image"),
    ),
    // A dynamic disk has its footer's copy at the beginning, and a fixed one the footer alone.
    (
        "dynamic.vhd",
        2048,
        &[(0, b"conectix")],
        convert!("a VHD image"),
    ),
    (
        "fixed.vhd",
        2560,
        &[(2048, b"conectix")],
        convert!("a VHD image"),
    ),
    (
        "short.vhd",
        512,
        &[(0, b"conectix")],
        convert!("a VHD image"),
    ),
    ("a.vhdx", 100, &[(0, b"vhdxfile")], convert!("a VHDX image")),
    ("a.qed", 64, &[(0, b"QED\0")], convert!("a QED image")),
    (
        "a.qcow",
        48,
        &[(0, b"QFI\xfb\0\0\0\x01")],
        convert!("a qcow image of version 1"),
    ),
    (
        "a.hdd",
        64,
        &[(0, b"WithoutFreeSpace")],
        convert!("a Parallels image"),
    ),
    (
        "b.hdd",
        64,
        &[(0, b"WithouFreSpacExt")],
        convert!("a Parallels image"),
    ),
    (
        "a.luks",
        600,
        &[(0, b"LUKS\xba\xbe\0\x02")],
        convert!("a LUKS volume"),
    ),
    (
        "a.dmg",
        1024,
        &[(512, b"koly\0\0\0\x04")],
        convert!("a DMG image"),
    ),
    (
        "a.bochs",
        512,
        &[(0, b"Bochs Virtual HD Image"), (32, b"Redolog")],
        convert!("a Bochs image"),
    ),
    (
        "a.cloop",
        512,
        &[(
            0,
            b"#!/bin/sh\n#V2.0 Format\nmodprobe cloop file=$0 && mount -r",
        )],
        convert!("a cloop image"),
    ),
    ("a.vmdk", 512, &[(0, b"KDMV\x03\0\0\0")], SPARSE),
    ("cow.vmdk", 512, &[(0, b"COWD\x01\0\0\0")], SPARSE),
    (
        "a.ova",
        1024,
        &[(0, b"a.ovf"), (257, b"ustar")],
        unpack!("a tar archive"),
    ),
    (
        "a.gz",
        20,
        &[(0, b"\x1f\x8b\x08")],
        unpack!("a file compressed by gzip"),
    ),
    (
        "a.bz2",
        14,
        &[(0, b"BZh9")],
        unpack!("a file compressed by bzip2"),
    ),
    (
        "a.xz",
        32,
        &[(0, b"\xfd\x37\x7a\x58\x5a\0")],
        unpack!("a file compressed by xz"),
    ),
    (
        "a.zst",
        13,
        &[(0, b"\x28\xb5\x2f\xfd")],
        unpack!("a file compressed by zstd"),
    ),
    ("a.zip", 30, &[(0, b"PK\x03\x04")], unpack!("a ZIP archive")),
    (
        "small.vmdk",
        30,
        &[(0, b"# disk descriptorfile\nversion=1\n")],
        SPELLED,
    ),
    (
        "mark.vmdk",
        40,
        &[(0, b"\xef\xbb\xbf# Disk DescriptorFile\n")],
        SPELLED,
    ),
    (
        "text.vmdk",
        31,
        &[(0, b"# A comment\n\nversion=1\nCID=1234\n")],
        SPELLED,
    ),
    // What a guest can write doesn't choose the format.
    (
        "disk.img",
        50,
        &[(0, b"# Disk DescriptorFile\nversion=1\nRW 1 FLAT \"/x\" 0\n")],
        "a VMDK descriptor in a file whose name doesn't end in .vmdk; say -f vmdk or -f raw\n",
    ),
    (
        "disk.raw",
        50,
        &[(0, b"# Disk DescriptorFile\nversion=1\nRW 1 FLAT \"/x\" 0\n")],
        "a VMDK descriptor in a file whose name doesn't end in .vmdk; say -f vmdk or -f raw\n",
    ),
    (
        "qcow2.raw",
        512,
        &[(0, VERSION_2)],
        "a qcow2 image in a file whose name ends in .raw; say -f qcow2 or -f raw\n",
    ),
    (
        "vdi.raw",
        512,
        &[(64, b"\x7f\x10\xda\xbe")],
        convert!("a VDI image"),
    ),
    (
        "vmdk",
        21,
        &[(0, b"# Disk DescriptorFile")],
        "a VMDK descriptor in a file whose name doesn't end in .vmdk; say -f vmdk or -f raw\n",
    ),
    (
        "disk.vmdk.txt",
        21,
        &[(0, b"# Disk DescriptorFile")],
        "a VMDK descriptor in a file whose name doesn't end in .vmdk; say -f vmdk or -f raw\n",
    ),
    (
        "old.raw",
        48,
        &[(0, b"QFI\xfb\0\0\0\x01")],
        convert!("a qcow image of version 1"),
    ),
];

/// Files that have no signature, or have it elsewhere: all are raw.
static RAW: [PartsRow; 9] = [
    ("empty.img", 0, &[]),
    ("zero.img", 512, &[]),
    ("early.img", 512, &[(63, b"\x7f\x10\xda\xbe")]),
    ("cut.img", 66, &[(64, b"\x7f\x10")]),
    // Not 512 bytes before the end.
    ("late.img", 1025, &[(512, b"conectix")]),
    ("tiny.img", 511, &[(1, b"koly")]),
    ("behind.img", 1024, &[(511, b"koly")]),
    ("boot.img", 512, &[(0, b"\xeb\x3c\x90"), (510, b"\x55\xaa")]),
    ("text.img", 12, &[(0, b"version=400\n")]),
];

/// A host with a file.
fn with_file(
    alloc: Global,
    path: &str,
    length: usize,
    parts: &[(usize, &[u8])],
) -> Result<MemoryHost, AllocError> {
    let mut host = MemoryHost::new(alloc, 0, false);
    host.add(path, &expected(alloc, length, parts)?, Nature::Plain)?;
    Ok(host)
}

/// Tries `check` on a file, with these options.
fn check_file(
    rt: &impl Abort,
    alloc: Global,
    file: PartsRow,
    options: &str,
    wanted: (u8, &str, &str),
) {
    let (path, length, parts) = file;
    let made = with_file(alloc, path, length, parts);
    let line = format!(in alloc; "check {options}{path}");
    assert!(rt; made.is_ok() && line.is_ok(), "{path}");
    if let (Ok(mut host), Ok(line)) = (made, line) {
        check_line(rt, alloc, &mut host, &line, wanted);
    }
}

/// Tries `check` on a file that is taken as raw: it has nothing to check.
fn check_raw(rt: &impl Abort, alloc: Global, file: PartsRow, options: &str) {
    let path = file.0;
    let told = format!(in alloc; "imago-img: \"{path}\": a raw file has nothing to check\n");
    assert!(rt; told.is_ok(), "{path}");
    let Ok(told) = told else { return };
    check_file(rt, alloc, file, options, (63, "", &told));
}

/// Tries the files of all rows: those of other formats are raw only where that is said.
fn check_rows(rt: &impl Abort, alloc: Global) {
    for &(path, length, parts, told) in &REFUSED {
        let line = format!(in alloc; "imago-img: \"{path}\": {told}");
        assert!(rt; line.is_ok(), "{path}");
        let Ok(line) = line else { return };
        check_file(rt, alloc, (path, length, parts), "", (1, "", &line));
        check_raw(rt, alloc, (path, length, parts), "-f raw ");
    }
    for &file in &RAW {
        check_raw(rt, alloc, file, "");
    }
}

#[test]
fn other_formats_are_refused_by_name(rt: HostRuntime) {
    check_rows(&rt, rt.alloc());
}

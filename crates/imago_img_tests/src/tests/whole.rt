// SPDX-License-Identifier: MIT
//! Whole disks, converted and compared.

use crate::memory_host::{MemoryHost, Nature};
use imago_images::format::ImageFormat;
use imago_images::opening::{Accepted, OtherFiles};
use imago_img_files::host::Making;
use imago_img_parts::commands::{Opening, compare_images, convert_image};
use std::alloc::{AllocError, Global};
use std::io;

/// A descriptor: a byte `x` behind 512 zeroes, as the end of a disk.
const TEXT: &[u8] = b"# Disk DescriptorFile\nversion=1\nRW 1 ZERO\nRW 1 FLAT \"a.bin\" 0\n";

/// Each option of an opening as it is where none is given.
const PLAIN: Opening = Opening {
    format: None,
    accepted: Accepted::EVERYTHING,
    other_files: OtherFiles::InFolder,
    tables: None,
    longest: None,
};

/// A new file, which replaces none.
const NEW: Making = Making {
    replace: false,
    sparse: true,
};

/// A host with a disk.
fn disk(alloc: Global) -> Result<MemoryHost, AllocError> {
    let mut host = MemoryHost::new(alloc, 9, true);
    host.add("disk.vmdk", TEXT, Nature::Plain)?;
    host.add("a.bin", b"x", Nature::Plain)?;
    Ok(host)
}

#[test]
fn a_converted_disk_is_the_same(rt: HostRuntime) {
    let made = disk(rt.alloc());
    assert!(&rt; made.is_ok());
    let Ok(mut host) = made else { return };
    let done = convert_image(
        &mut host,
        "disk.vmdk",
        "out.raw",
        PLAIN,
        NEW,
        false,
        &mut io::sink(),
    );
    assert!(&rt; done.is_ok());
    let found = compare_images(&host, "disk.vmdk", "out.raw", PLAIN, None, false);
    assert!(&rt; matches!(&found, Ok(found) if found.difference.is_none()));
    let other = compare_images(&host, "out.raw", "a.bin", PLAIN, None, false);
    assert!(&rt; matches!(&other, Ok(found) if found.difference == Some(0)));
}

/// A host with two images whose data can't be read, each under two names.
fn unreadable(alloc: Global) -> io::Result<MemoryHost> {
    let mut host = MemoryHost::new(alloc, 9, true);
    host.add("one.raw", b"x", Nature::Torn(0))?;
    host.add("other.raw", b"x", Nature::Torn(0))?;
    host.link("one.raw", "parts/linked.raw")?;
    host.add("disk.vmdk", TEXT, Nature::Plain)?;
    host.add("a.bin", b"x", Nature::Torn(0))?;
    host.link("disk.vmdk", "second.vmdk")?;
    host.link("disk.vmdk", "disk.txt")?;
    Ok(host)
}

/// What comes of a comparison of two paths: whether the data was the same, where it was told.
type Pair = (&'static str, &'static str, Option<bool>);

/// Two names of one image are the same, and its data isn't read.
static PAIRS: [Pair; 6] = [
    ("one.raw", "one.raw", Some(true)),
    ("one.raw", "parts/linked.raw", Some(true)),
    ("disk.vmdk", "second.vmdk", Some(true)),
    // By that name it is no VMDK image.
    ("disk.vmdk", "disk.txt", None),
    ("one.raw", "other.raw", None),
    ("one.raw", "nothing.raw", None),
];

#[test]
fn names_of_one_image_are_the_same(rt: HostRuntime) {
    let made = unreadable(rt.alloc());
    assert!(&rt; made.is_ok());
    let Ok(host) = made else { return };
    let raw = Opening {
        format: Some(ImageFormat::Raw),
        ..PLAIN
    };
    for &(first, second, same) in &PAIRS {
        let how = if first == "one.raw" { raw } else { PLAIN };
        let found = compare_images(&host, first, second, how, how.format, false);
        let told = found.ok().map(|found| found.difference.is_none());
        assert!(&rt; told == same, "{first} and {second}");
    }
}

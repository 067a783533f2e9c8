// SPDX-License-Identifier: MIT
//! Commands on images whose disks are in many small pieces: files with small clusters whose data
//! stand in no order, a chain of such files, and a descriptor of short extents.

use crate::commands::{add_qcow2, obey};
use crate::digest::Digest;
use crate::files::Files;
use crate::qcow2::{Pattern, Shape};
use crate::random::Random;
use std::alloc::Global;

/// How many files of a chain stand above its base.
const ABOVE: u64 = 12;

/// Of how many clusters of the disk a file above the base has one.
const OF_CLUSTERS: u64 = 64;

/// The most sectors of an extent.
const MOST_SECTORS: u64 = 8;

/// Does commands.
fn obey_all(alloc: Global, files: &mut Files, lines: &[&str], digest: &mut Digest) -> Option<()> {
    for line in lines {
        obey(alloc, files, line, digest)?;
    }
    digest.add(files.written());
    Some(())
}

/// Two files of one shape, with clusters of that length as a power of two, of which one stands
/// above the other: a quarter of its clusters have data.
fn two_files(
    alloc: Global,
    random: &mut Random,
    cluster_bits: u32,
    clusters: u64,
    digest: &mut Digest,
) -> Option<()> {
    let mut files = Files::new(alloc);
    let layers = [
        ("base.qcow2", None, Pattern::Shuffled),
        (
            "top.qcow2",
            Some("base.qcow2"),
            Pattern::Scattered(clusters / 4),
        ),
    ];
    for (path, backing, pattern) in layers {
        let shape = Shape {
            cluster_bits,
            clusters,
            backing,
            pattern,
        };
        add_qcow2(alloc, random, &mut files, path, shape)?;
    }
    let lines = [
        "convert --quiet base.qcow2 base.raw",
        "convert --quiet top.qcow2 top.raw",
        "compare top.qcow2 base.qcow2",
        "map top.qcow2",
    ];
    obey_all(alloc, &mut files, &lines, digest)
}

/// A chain of thirteen files with clusters of 512 bytes. Each above the base has few of them.
fn chain(alloc: Global, random: &mut Random, clusters: u64, digest: &mut Digest) -> Option<()> {
    let mut files = Files::new(alloc);
    let mut below = String::from_str(alloc, "layer0.qcow2").ok()?;
    let base = Shape {
        cluster_bits: 9,
        clusters,
        backing: None,
        pattern: Pattern::Shuffled,
    };
    add_qcow2(alloc, random, &mut files, &below, base)?;
    for number in 1..=ABOVE {
        let path = format!(in alloc; "layer{number}.qcow2").ok()?;
        let shape = Shape {
            backing: Some(&below),
            pattern: Pattern::Scattered(clusters / OF_CLUSTERS),
            ..base
        };
        add_qcow2(alloc, random, &mut files, &path, shape)?;
        below = path;
    }
    let lines = [
        "convert --quiet layer12.qcow2 copy.raw",
        "compare layer12.qcow2 layer11.qcow2",
        "map layer12.qcow2",
    ];
    obey_all(alloc, &mut files, &lines, digest)
}

/// A descriptor of that many extents, of which a third stand in a few files.
fn descriptor(alloc: Global, random: &mut Random, extents: u64) -> Option<String> {
    let mut text = String::from_str(
        alloc,
        "# Disk DescriptorFile\nversion=1\nCID=fffffffe\nparentCID=ffffffff\n\
        createType=\"twoGbMaxExtentFlat\"\n",
    )
    .ok()?;
    for number in 0..extents {
        let sectors = 1 + random.below(MOST_SECTORS);
        let line = if number % 3 == 0 {
            let (file, start) = (random.below(8), random.below(1 << 20));
            format!(in alloc; "RW {sectors} FLAT \"extent{file}\" {start}\n").ok()?
        } else {
            format!(in alloc; "RW {sectors} ZERO\n").ok()?
        };
        text.push_str(&line).ok()?;
    }
    Some(text)
}

/// Commands on such a descriptor.
fn extents(alloc: Global, random: &mut Random, count: u64, digest: &mut Digest) -> Option<()> {
    let mut files = Files::new(alloc);
    let text = descriptor(alloc, random, count)?;
    let length = text.len() as u64;
    files.add("disk.vmdk", text.into_bytes(), length)?;
    let lines = ["convert --quiet disk.vmdk copy.raw", "map disk.vmdk"];
    obey_all(alloc, &mut files, &lines, digest)
}

/// Converts, compares and maps images in that many pieces.
pub fn pieces(alloc: Global, random: &mut Random, count: u64, digest: &mut Digest) -> Option<()> {
    two_files(alloc, random, 9, count, digest)?;
    two_files(alloc, random, 11, count, digest)?;
    chain(alloc, random, count, digest)?;
    extents(alloc, random, count, digest)
}

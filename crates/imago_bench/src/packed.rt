// SPDX-License-Identifier: MIT
//! Disks whose clusters are compressed.

use crate::commands::{obey, snapshot};
use crate::deflate::streams;
use crate::digest::Digest;
use crate::files::{Files, Written};
use crate::guest::{Guest, Image, Mix};
use crate::qcow2::{Pattern, Qcow2File, Shape, packed_file};
use crate::random::Random;
use crate::serving::laid;
use imago_access::access::FormatAccess;
use imago_any_driver::any::AnyDriver;
use imago_copy::copy::copy_disk;
use imago_qcow2::qcow2::Qcow2;
use imago_storage::mem::MemStorage;
use std::alloc::Global;

/// The length of a cluster is this power of two.
const CLUSTER_BITS: u32 = 16;

/// How many streams there are. Each compressed cluster has one of them.
const STREAMS: u64 = 16;

/// The calls of a guest that reads here and there.
const READS: Mix = Mix {
    reads: 60,
    writes: 0,
    odd: 30,
    mappings: 10,
    zeroes: 0,
};

/// A file whose disk has that many clusters, compressed where they have data.
fn compressed(alloc: Global, random: &mut Random, clusters: u64) -> Option<Qcow2File> {
    let streams = streams(alloc, random, 1 << CLUSTER_BITS, STREAMS)?;
    let shape = Shape {
        cluster_bits: CLUSTER_BITS,
        clusters,
        backing: None,
        pattern: Pattern::Worn,
    };
    packed_file(alloc, random, shape, &streams)
}

/// Looks at a snapshot above a compressed base, and converts it.
fn convert(alloc: Global, random: &mut Random, clusters: u64, digest: &mut Digest) -> Option<()> {
    let mut files = Files::new(alloc);
    let Qcow2File { head, length } = compressed(alloc, random, clusters)?;
    files.add("base.qcow2", head, length)?;
    let pattern = Pattern::Scattered(clusters / 16);
    snapshot(
        alloc,
        random,
        &mut files,
        ("top.qcow2", "base.qcow2"),
        clusters,
        pattern,
    )?;
    let lines = [
        "info top.qcow2",
        "map base.qcow2",
        "map --json top.qcow2",
        "convert --quiet top.qcow2 copy.raw",
    ];
    for line in lines {
        obey(alloc, &mut files, line, digest)?;
    }
    digest.add(files.written());
    Some(())
}

/// Reads a disk in order, in parts of that length.
fn read_in_order(alloc: Global, image: &Image, part: u64, digest: &mut Digest) -> Option<()> {
    let mut buf = vec![in alloc; 0u8; part as usize].ok()?;
    let mut target = Written::new(String::new(alloc), image.size());
    copy_disk(alloc, image, &mut target, &mut buf).ok()?;
    digest.add(target.value());
    Some(())
}

/// Serves the reads of a guest whose disk lies above a compressed base: in order, and here and
/// there.
fn read(alloc: Global, random: &mut Random, clusters: u64, digest: &mut Digest) -> Option<()> {
    let file = compressed(alloc, random, clusters)?;
    let base = Qcow2::open_image(alloc, MemStorage::new(file.head), false).ok()?;
    let mut guest = laid(alloc, FormatAccess::new(AnyDriver::Qcow2(base)))?;
    for part in [4096, 1048576] {
        read_in_order(alloc, guest.image(), part, digest)?;
    }
    guest.serve(alloc, random, READS, clusters / 4, digest)
}

/// Looks at, converts and reads disks of that many clusters above compressed bases.
pub fn packed(
    alloc: Global,
    random: &mut Random,
    clusters: u64,
    digest: &mut Digest,
) -> Option<()> {
    convert(alloc, random, clusters, digest)?;
    read(alloc, random, clusters, digest)
}

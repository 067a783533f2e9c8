// SPDX-License-Identifier: MIT
//! Commands of `imago-img`: on snapshots, and on descriptors of many extents.

use crate::descriptor::descriptor;
use crate::digest::Digest;
use crate::files::Files;
use crate::qcow2::{Pattern, Qcow2File, Shape, qcow2_file};
use crate::random::Random;
use imago_img_files::guarded::Confined;
use imago_img_parts::run::run;
use std::alloc::Global;
use std::mem;

/// The length of a cluster is this power of two.
const CLUSTER_BITS: u32 = 16;

/// How many clusters of a snapshot have data.
const FEW: u64 = 8;

/// Does a command, and adds its status and what it printed.
pub fn obey(alloc: Global, files: &mut Files, line: &str, digest: &mut Digest) -> Option<()> {
    let mut words = Vec::new(alloc);
    for word in line.split(' ') {
        words.push(String::from_str(alloc, word).ok()?).ok()?;
    }
    let mut output = Vec::new(alloc);
    let mut errors = Vec::new(alloc);
    let mut confined = Confined::new(mem::replace(files, Files::new(alloc)));
    let status = run(&mut confined, &words, &mut output, &mut errors);
    *files = confined.host;
    digest.add(u64::from(status));
    digest.add_bytes(&output);
    digest.add_bytes(&errors);
    Some(())
}

/// Adds a qcow2 file.
pub fn add_qcow2(
    alloc: Global,
    random: &mut Random,
    files: &mut Files,
    path: &str,
    shape: Shape<'_>,
) -> Option<()> {
    let Qcow2File { head, length } = qcow2_file(alloc, random, shape)?;
    files.add(path, head, length)
}

/// Adds a snapshot of that path above another one, of a disk of that many clusters.
pub fn snapshot(
    alloc: Global,
    random: &mut Random,
    files: &mut Files,
    (path, backing): (&str, &str),
    clusters: u64,
    pattern: Pattern,
) -> Option<()> {
    let shape = Shape {
        cluster_bits: CLUSTER_BITS,
        clusters,
        backing: Some(backing),
        pattern,
    };
    add_qcow2(alloc, random, files, path, shape)
}

/// A base that was used for years, a snapshot with a sixteenth of its clusters, one with a few, and
/// one that was just made.
fn snapshots(alloc: Global, random: &mut Random, clusters: u64) -> Option<Files> {
    let mut files = Files::new(alloc);
    let layers = [
        ("base.qcow2", None, Pattern::Worn),
        (
            "middle.qcow2",
            Some("base.qcow2"),
            Pattern::Scattered(clusters / 16),
        ),
        ("top.qcow2", Some("middle.qcow2"), Pattern::Scattered(FEW)),
        ("new.qcow2", Some("top.qcow2"), Pattern::Fresh),
    ];
    for (path, backing, pattern) in layers {
        let shape = Shape {
            cluster_bits: CLUSTER_BITS,
            clusters,
            backing,
            pattern,
        };
        add_qcow2(alloc, random, &mut files, path, shape)?;
    }
    Some(files)
}

/// Looks at snapshots of a disk of that many clusters.
pub fn look(alloc: Global, random: &mut Random, clusters: u64, digest: &mut Digest) -> Option<()> {
    let mut files = snapshots(alloc, random, clusters)?;
    let lines = [
        "info top.qcow2",
        "check base.qcow2",
        "map base.qcow2",
        "map --json middle.qcow2",
        "map top.qcow2",
    ];
    for line in lines {
        obey(alloc, &mut files, line, digest)?;
    }
    Some(())
}

/// Converts a snapshot of a disk of that many clusters, and compares it with the next one.
pub fn copy(alloc: Global, random: &mut Random, clusters: u64, digest: &mut Digest) -> Option<()> {
    let mut files = snapshots(alloc, random, clusters)?;
    let lines = [
        "convert --quiet top.qcow2 copy.raw",
        "compare new.qcow2 top.qcow2",
    ];
    for line in lines {
        obey(alloc, &mut files, line, digest)?;
    }
    digest.add(files.written());
    Some(())
}

/// Looks at a descriptor of that many lines.
pub fn look_at_extents(
    alloc: Global,
    random: &mut Random,
    lines: u64,
    digest: &mut Digest,
) -> Option<()> {
    let mut files = Files::new(alloc);
    let text = descriptor(alloc, random, lines)?;
    let length = text.len() as u64;
    files.add("disk.vmdk", text.into_bytes(), length)?;
    for line in ["info disk.vmdk", "map --json disk.vmdk"] {
        obey(alloc, &mut files, line, digest)?;
    }
    Some(())
}

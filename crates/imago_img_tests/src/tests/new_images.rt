// SPDX-License-Identifier: MIT
//! New qcow2 files, made by command lines one after the other over the files of one host.

use super::set_up::check_line;
use crate::memory_host::{MemoryHost, Nature};
use std::alloc::{AllocError, Global};
use std::process::Abort;

/// A raw disk of 70001 bytes, in which the first byte is set and the last one.
const LENGTH: usize = 70001;

/// A raw disk of ten clusters of 64 KiB. It is read in parts of 256 KiB, and behind data the first
/// 4 KiB of a cluster alone: of the fifth one, whose byte 4095 is set, and of the sixth and the
/// last one, in which these are zero.
const DENSE: usize = 10 * 65536;

/// A host with these disks.
fn files(alloc: Global) -> Result<MemoryHost, AllocError> {
    let mut disk = vec![in alloc; 0u8; LENGTH]?;
    disk[0] = 1;
    disk[LENGTH - 1] = 2;
    let mut dense = vec![in alloc; 0u8; DENSE]?;
    dense[0] = 3;
    dense[4 * 65536 - 1] = 3;
    dense[4 * 65536 + 4095] = 3;
    dense[5 * 65536 + 4096] = 3;
    dense[9 * 65536 - 1] = 3;
    let mut host = MemoryHost::new(alloc, 99, true);
    host.add("disk.raw", &disk, Nature::Plain)?;
    host.add("dense.raw", &dense, Nature::Plain)?;
    Ok(host)
}

/// What is printed of the disk and of an image of it.
const ALIKE: &str = "Warning: Image size mismatch!
Images are identical.
";

/// What is printed of a file without a fault.
const SOUND: &str = "No errors were found on the image.\n";

/// What is printed of the options of a qcow2 file.
const SETTINGS: &str = "Supported qcow2 options:
  cluster_size=<size>    - Cluster size: a power of two, 512 to 2M (default 64k)
  compat=<str>           - Format version: 0.10 or v2, 1.1 or v3 (default 1.1)
  compression_type=<str> - Only zlib is accepted
  extended_l2=<bool (on/off)> - Only off is accepted
  lazy_refcounts=<bool (on/off)> - Only off is accepted
  preallocation=<str>    - off or metadata: all tables are written (default off)
  refcount_bits=<num>    - Only 16 is accepted
";

/// A command line, its status, and what it prints or tells as an error.
type Row = (&'static str, u8, &'static str, &'static str);

static ROWS: [Row; 28] = [
    ("convert -O qcow2 disk.raw a.qcow2", 0, "", ""),
    ("compare disk.raw a.qcow2", 0, ALIKE, ""),
    ("check a.qcow2", 0, SOUND, ""),
    // Clusters of 512 bytes, of which two are stored; and all.
    (
        "convert -Oqcow2 -ocompat=0.10,cluster_size=512 a.qcow2 b.qcow2",
        0,
        "",
        "",
    ),
    (
        "compare -s a.qcow2 b.qcow2",
        0,
        "Images are identical.\n",
        "",
    ),
    ("convert -Oqcow2 -S 0 b.qcow2 c.qcow2", 0, "", ""),
    (
        "compare -s b.qcow2 c.qcow2",
        0,
        "Images are identical.\n",
        "",
    ),
    (
        "convert -Oqcow2 disk.raw a.qcow2",
        1,
        "",
        "imago-img: \"a.qcow2\": it exists already; --force replaces a file, -n writes into it\n",
    ),
    (
        "convert -Oqcow2 --force a.qcow2 a.qcow2",
        1,
        "",
        "imago-img: \"a.qcow2\": a file of the image that is read is never replaced\n",
    ),
    ("convert -Oqcow2 --force b.qcow2 a.qcow2", 0, "", ""),
    // Five of ten clusters are stored.
    ("convert -O qcow2 dense.raw dense.qcow2", 0, "", ""),
    (
        "compare dense.raw dense.qcow2",
        0,
        "Images are identical.\n",
        "",
    ),
    // A layer above a disk shows it, and names it.
    ("create -f qcow2 -b disk.raw -F raw top.qcow2", 0, "", ""),
    ("compare disk.raw top.qcow2", 0, ALIKE, ""),
    ("check top.qcow2", 0, SOUND, ""),
    (
        "create -fqcow2 -b disk.raw -Fraw --force disk.raw",
        1,
        "",
        "imago-img: \"disk.raw\": a file of the image that is read is never replaced\n",
    ),
    (
        "create -fqcow2 -opreallocation=metadata full.qcow2 70001",
        0,
        "",
        "",
    ),
    ("create empty.raw 70001", 0, "", ""),
    (
        "compare -s full.qcow2 empty.raw",
        0,
        "Images are identical.\n",
        "",
    ),
    (
        "create empty.raw 1",
        1,
        "",
        "imago-img: \"empty.raw\": it exists already; --force replaces a file, -n writes into it\n",
    ),
    // The lengths of the files that are there.
    (
        "measure -O qcow2 -o cluster_size=512 a.qcow2",
        0,
        "required size: 4096\nfully allocated size: 73728\n",
        "",
    ),
    (
        "measure --size 1G -Oqcow2 --output=json",
        0,
        "{\n    \"required\": 262144,\n    \"fully-allocated\": 1074135040\n}\n",
        "",
    ),
    (
        "measure disk.raw",
        0,
        "required size: 70144\nfully allocated size: 70144\n",
        "",
    ),
    // The largest disks: of files that can be made, and would grow past what can be counted.
    (
        "measure --size 2P -O qcow2",
        0,
        "required size: 33751040\nfully allocated size: 2252143463694336\n",
        "",
    ),
    (
        "measure --size 1E -O qcow2 -o cluster_size=2M",
        0,
        "required size: 23068672\nfully allocated size: 1152927002196443136\n",
        "",
    ),
    (
        "measure --size 2049T -O qcow2",
        1,
        "",
        "imago-img: \"--size\": the disk is too large for clusters of this length\n",
    ),
    // What -o may say.
    (
        "create -o help more.raw 1G",
        0,
        "There are no options for raw.\n",
        "",
    ),
    (
        "convert -O qcow2 -o compat=1.1,help nowhere.raw",
        0,
        SETTINGS,
        "",
    ),
];

/// How long files are then.
static LENGTHS: [(&str, usize); 5] = [
    ("a.qcow2", 7 * 65536),
    ("dense.qcow2", 10 * 65536),
    ("full.qcow2", 7 * 65536),
    ("top.qcow2", 4 * 65536),
    ("empty.raw", 70144),
];

/// A file has that length.
fn check_length(rt: &impl Abort, host: &MemoryHost, path: &str, length: usize) {
    let found = host.bytes(path).map(|bytes| bytes.len());
    assert_eq!(rt; found, Some(length), "{path}");
}

#[test]
fn new_images_are_what_was_asked_for(rt: HostRuntime) {
    let alloc = rt.alloc();
    let made = files(alloc);
    assert!(&rt; made.is_ok());
    let Ok(mut host) = made else { return };
    for &(line, status, output, errors) in &ROWS {
        check_line(&rt, alloc, &mut host, line, (status, output, errors));
    }
    for &(path, length) in &LENGTHS {
        check_length(&rt, &host, path, length);
    }
    assert_eq!(&rt; host.unfinished(), 0);
}

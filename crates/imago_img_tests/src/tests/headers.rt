// SPDX-License-Identifier: MIT
//! What headers of qcow2 files say, and what is told of files that aren't supported or can't be
//! meant.

use super::set_up::{VERSION_3, check_line, expected};
use crate::memory_host::{MemoryHost, Nature};
use imago_qcow2::header::{self, HEAD_LENGTH, Header};
use std::alloc::{AllocError, Global};
use std::process::Abort;

/// Parts of a file, from the lowest offset on.
type Parts = &'static [(usize, &'static [u8])];

/// What is changed in a file that is in order, and the fault of its header.
type Row = (Parts, &'static str);

/// A header of version 3: clusters of 512 bytes, a disk of 2048, the L1 table at 512.
const HEADER: Parts = &[
    (0, VERSION_3),
    (23, b"\x09"),
    (30, b"\x08"),
    (39, b"\x01"),
    (46, b"\x02"),
    (99, b"\x04\0\0\0\x68"),
];

/// Headers that are refused, and yet told by `info`, with what may be done about them.
static UNOPENED: [Row; 7] = [
    (
        &[(79, b"\x02")],
        "the header says corrupt, which isn't supported; qemu-img check -r all FILE may repair it",
    ),
    (
        &[(79, b"\x04")],
        "the header says external data file, which isn't supported",
    ),
    (
        &[(79, b"\x10")],
        "the header says extended L2 entries, which isn't supported; qemu-img convert -O qcow2 \
        FILE PLAIN makes a plain image of it",
    ),
    (
        &[(72, b"\x80")],
        "the header says unknown bit 63, which isn't supported",
    ),
    // Left open, corrupt, with extended L2 entries, and bit 9.
    (
        &[(78, b"\x02\x13")],
        "the header says corrupt, which isn't supported; qemu-img check -r all FILE may repair it",
    ),
    (
        &[(35, b"\x01")],
        "the header says encryption, which isn't supported; with its secret in the file KEY, \
        qemu-img convert --object secret,id=key,file=KEY --image-opts \
        driver=qcow2,file.filename=FILE,encrypt.key-secret=key -O qcow2 PLAIN makes a plain \
        image of it",
    ),
    (
        &[(46, b"\x08")],
        "the header says an L1 table that passes the file's end",
    ),
];

/// Headers that are refused.
static ROWS: [Row; 11] = [
    // Versions.
    (
        &[(7, b"\x04")],
        "the header says version 4, which isn't supported",
    ),
    // Invalid numbers.
    (
        &[(3, b"X")],
        "it isn't a qcow2 image, or ends within its header",
    ),
    (
        &[(23, b"\x08")],
        "the header says clusters of 2^8 bytes, which is out of range",
    ),
    (
        &[(23, b"\x16")],
        "the header says clusters of 2^22 bytes, which is out of range",
    ),
    (&[(103, b"\x60")], "the header's own length is invalid"),
    (
        &[(99, b"\x07")],
        "the header's width of reference counts is invalid",
    ),
    (
        &[(103, b"\x70\x01")],
        "the header's compression type contradicts its features",
    ),
    (
        &[(79, b"\x08"), (103, b"\x70\x02")],
        "the header says compression type 2, which isn't supported",
    ),
    // A name that begins behind the first cluster.
    (
        &[(14, b"\x02\x01")],
        "the header's name of a backing file passes its room",
    ),
    (
        &[(39, b"\0")],
        "the header says an L1 table that is too short for the disk",
    ),
    (
        &[(46, b"\x02\x08")],
        "the header says an L1 table that doesn't begin at a cluster's start",
    ),
];

/// What is changed in a header, the version, the lengths of the disk and of a cluster that it then
/// tells, and its features in the order of `info`.
type Told = (Parts, (u32, u64, u64), [bool; 5]);

/// Headers that are in order.
static TOLD: [Told; 9] = [
    (&[], (3, 2048, 512), [false; 5]),
    // A disk of 0x123456 bytes, in clusters of 64 KiB, whose L1 table is at 0.
    (
        &[(23, b"\x10"), (29, b"\x12\x34\x56"), (46, b"\0")],
        (3, 0x12_3456, 65536),
        [false; 5],
    ),
    // Left open; compressed in another way; then one of each other feature.
    (
        &[(79, b"\x01")],
        (3, 2048, 512),
        [true, false, false, false, false],
    ),
    (
        &[(79, b"\x08"), (103, b"\x70\x01")],
        (3, 2048, 512),
        [false, true, false, false, false],
    ),
    (
        &[(87, b"\x01")],
        (3, 2048, 512),
        [false, false, true, false, false],
    ),
    (
        &[(95, b"\x01")],
        (3, 2048, 512),
        [false, false, false, true, false],
    ),
    (
        &[(95, b"\x02")],
        (3, 2048, 512),
        [false, false, false, false, true],
    ),
    // All bits that have no name here.
    (
        &[
            (80, b"\xff\xff\xff\xff\xff\xff\xff\xfe"),
            (88, b"\xff\xff\xff\xff\xff\xff\xff\xfc"),
        ],
        (3, 2048, 512),
        [false; 5],
    ),
    // Version 2 has no features, whatever stands there.
    (
        &[(7, b"\x02"), (79, b"\xff"), (87, b"\xff"), (95, b"\xff")],
        (2, 2048, 512),
        [false; 5],
    ),
];

/// The file of that header, with other bytes in places.
fn changed_bytes(alloc: Global, parts: Parts) -> Result<Vec<u8>, AllocError> {
    let mut bytes = expected(alloc, 2048, HEADER)?;
    for (offset, part) in parts {
        for (index, byte) in part.iter().enumerate() {
            if let Some(place) = bytes.get_mut(offset.saturating_add(index)) {
                *place = *byte;
            }
        }
    }
    Ok(bytes)
}

/// A host with one file, `a`: that header, with other bytes in places.
fn changed(alloc: Global, parts: Parts, nature: Nature) -> Result<MemoryHost, AllocError> {
    let bytes = changed_bytes(alloc, parts)?;
    let mut host = MemoryHost::new(alloc, 0, false);
    host.add("a", &bytes, nature)?;
    Ok(host)
}

/// What the header of a file with these bytes says, if there is memory and it has no fault.
fn told(alloc: Global, parts: Parts) -> Option<Header> {
    let bytes = changed_bytes(alloc, parts).ok()?;
    if bytes.len() < HEAD_LENGTH {
        return None;
    }
    header::read(&bytes, bytes.len() as u64).ok()
}

/// The version, the lengths, and the features of a header.
fn parts_of(header: Header) -> ((u32, u64, u64), [bool; 5]) {
    let sizes = (header.version(), header.disk_size(), header.cluster_size());
    let features = [
        header.is_dirty(),
        header.has_compression_type(),
        header.has_lazy_refcounts(),
        header.has_bitmaps(),
        header.has_raw_external_data(),
    ];
    (sizes, features)
}

/// Tries a command line on a changed file.
fn check_changed(
    rt: &impl Abort,
    alloc: Global,
    parts: Parts,
    line: &str,
    wanted: (u8, &str, &str),
) {
    let made = changed(alloc, parts, Nature::Plain);
    assert!(rt; made.is_ok(), "{line}");
    let Ok(mut host) = made else { return };
    check_line(rt, alloc, &mut host, line, wanted);
}

#[test]
fn headers_tell_versions_sizes_and_features(rt: HostRuntime) {
    for (parts, sizes, features) in &TOLD {
        let header = told(rt.alloc(), parts);
        assert!(rt; header.is_some(), "{parts:?}");
        let Some(header) = header else { continue };
        assert!(rt;
            parts_of(header) == (*sizes, *features),
            "{parts:?}: {header:?}"
        );
    }
}

/// Tries commands on a changed file, whose header has that fault.
fn check_refused(rt: &impl Abort, alloc: Global, parts: Parts, fault: &str) {
    let unchecked = format!(in alloc; "imago-img: \"a\" can't be checked: {fault}\n");
    let refused = format!(in alloc; "imago-img: \"a\": {fault}\n");
    assert!(rt; unchecked.is_ok() && refused.is_ok(), "{fault}");
    if let (Ok(unchecked), Ok(refused)) = (&unchecked, &refused) {
        check_changed(rt, alloc, parts, "check -f qcow2 a", (1, "", unchecked));
        check_changed(rt, alloc, parts, "map -f qcow2 a", (1, "", refused));
    }
}

/// Tries `info` on a changed file, whose header has that fault.
fn check_untold(rt: &impl Abort, alloc: Global, parts: Parts, fault: &str) {
    let refused = format!(in alloc; "imago-img: \"a\": {fault}\n");
    assert!(rt; refused.is_ok(), "{fault}");
    if let Ok(refused) = &refused {
        check_changed(rt, alloc, parts, "info -f qcow2 a", (1, "", refused));
    }
}

#[test]
fn faults_of_headers_are_named(rt: HostRuntime) {
    for (parts, fault) in &ROWS {
        check_refused(&rt, rt.alloc(), parts, fault);
        check_untold(&rt, rt.alloc(), parts, fault);
    }
    for (parts, fault) in &UNOPENED {
        check_refused(&rt, rt.alloc(), parts, fault);
    }
}

/// Two header extensions for the name of an external data file: the last one counts.
const DATA_NAMES: Parts = &[
    (79, b"\x04"),
    (95, b"\x02"),
    (104, b"DATA\0\0\0\x06x.data"),
    (120, b"more\0\0\0\x01z"),
    (136, b"DATA\0\0\0\x07y\x1b.data"),
];

/// One whose name isn't UTF-8.
const DATA_NAME_BYTES: Parts = &[(79, b"\x04"), (104, b"DATA\0\0\0\x06\xff.data")];

/// An L1 table of 2^22 + 1 entries at 2048, where the file ends, and a table of snapshots there.
const LOST_TABLES: Parts = &[
    (37, b"\x40\0\x01"),
    (46, b"\x08"),
    (63, b"\x01"),
    (70, b"\x08"),
];

/// A LUKS header at 1024, with a key in its second slot.
const LUKS: Parts = &[
    (35, b"\x02"),
    (
        104,
        b"\x05\x37\xbe\x77\0\0\0\x10\0\0\0\0\0\0\x04\0\0\0\0\0\0\0\x02\x50",
    ),
    (1024, b"LUKS\xba\xbe\0\x01aes"),
    (1064, b"cbc-essiv:sha256"),
    (1096, b"sha1"),
    (1128, b"\0\0\x0f\xc8\0\0\0\x20"),
    (1188, b"\0\0\x05\x9e5e243c1f"),
    (1280, b"\0\xac\x71\xf3\0\0\x11\xf3"),
    (1320, b"\0\0\0\x08\0\0\x0f\xa0"),
    (1608, b"\0\0\x02\0"),
];

/// Two bitmaps in a directory of 64 bytes at 1024. The name of the second one isn't UTF-8.
const BITMAPS: Parts = &[
    (95, b"\x01"),
    (104, b"\x23\x85\x28\x75\0\0\0\x18\0\0\0\x02"),
    (127, b"\x40\0\0\0\0\0\0\x04"),
    (1039, b"\x02\x01\x10\0\x02"),
    (1048, b"b0"),
    (1071, b"\x01\x01\x09\0\x01"),
    (1080, b"\xff"),
];

/// The same with a directory of 63 bytes.
const LOST_BITMAPS: Parts = &[
    (95, b"\x01"),
    (104, b"\x23\x85\x28\x75\0\0\0\x18\0\0\0\x02"),
    (127, b"\x38\0\0\0\0\0\0\x04"),
    (1039, b"\x02\x01\x10\0\x02"),
    (1048, b"b0"),
    (1071, b"\x01\x01\x09\0\x01"),
    (1080, b"\xff"),
];

/// What `info` prints of files that aren't opened: one that was left open, is corrupt, and has
/// extended L2 entries and bit 9, and one that is encrypted and corrupt. Then of files with
/// external data: as `qemu-img` 7.2, the name is told where the header has it, and whether it is
/// raw where the data stand there; the last two of these are opened. Then of one whose L1 table
/// passes its end, as does its table of snapshots, and is too long besides; one with snapshots of a
/// machine; one that has a LUKS header, and one that has lost it; and two with bitmaps, of which the
/// second one has lost their directory.
static TOLD_UNOPENED: [(Parts, &str); 13] = [
    (
        &[(78, b"\x02\x13")],
        "image: \"a\"\nfile format: qcow2\nvirtual size: 2 KiB (2048 bytes)\ndisk size: 2 KiB\n\
        cluster_size: 512\nFormat specific information:\n\x20   compat: 1.1\n\
        \x20   compression type: zlib\n\x20   lazy refcounts: false\n\x20   refcount bits: 16\n\
        \x20   corrupt: true\n\x20   extended l2: true\ncleanly shut down: no\n\
        can't be opened: the header says corrupt, which isn't supported\n\
        can't be opened: the header says extended L2 entries, which isn't supported\n\
        can't be opened: the header says unknown bit 9, which isn't supported\n",
    ),
    (
        &[(35, b"\x01"), (79, b"\x02")],
        "image: \"a\"\nfile format: qcow2\nvirtual size: 2 KiB (2048 bytes)\ndisk size: 2 KiB\n\
        encrypted: yes\n\
        cluster_size: 512\nFormat specific information:\n\x20   compat: 1.1\n\
        \x20   compression type: zlib\n\x20   lazy refcounts: false\n\x20   refcount bits: 16\n\
        \x20   encrypt:\n\x20       format: aes\n\
        \x20   corrupt: true\n\x20   extended l2: false\n\
        can't be opened: the header says encryption, which isn't supported\n\
        can't be opened: the header says corrupt, which isn't supported\n",
    ),
    (
        DATA_NAMES,
        "image: \"a\"\nfile format: qcow2\nvirtual size: 2 KiB (2048 bytes)\ndisk size: 2 KiB\n\
        cluster_size: 512\nFormat specific information:\n\x20   compat: 1.1\n\
        \x20   compression type: zlib\n\x20   lazy refcounts: false\n\x20   refcount bits: 16\n\
        \x20   data file: \"y\\u{1b}.data\"\n\x20   data file raw: true\n\
        \x20   corrupt: false\n\x20   extended l2: false\n\
        can't be opened: the header says external data file, which isn't supported\n",
    ),
    (
        DATA_NAME_BYTES,
        "image: \"a\"\nfile format: qcow2\nvirtual size: 2 KiB (2048 bytes)\ndisk size: 2 KiB\n\
        cluster_size: 512\nFormat specific information:\n\x20   compat: 1.1\n\
        \x20   compression type: zlib\n\x20   lazy refcounts: false\n\x20   refcount bits: 16\n\
        \x20   data file: \"\u{fffd}.data\"\n\x20   data file raw: false\n\
        \x20   corrupt: false\n\x20   extended l2: false\n\
        can't be opened: the header says external data file, which isn't supported\n",
    ),
    (
        &[(79, b"\x04")],
        "image: \"a\"\nfile format: qcow2\nvirtual size: 2 KiB (2048 bytes)\ndisk size: 2 KiB\n\
        cluster_size: 512\nFormat specific information:\n\x20   compat: 1.1\n\
        \x20   compression type: zlib\n\x20   lazy refcounts: false\n\x20   refcount bits: 16\n\
        \x20   data file raw: false\n\
        \x20   corrupt: false\n\x20   extended l2: false\n\
        can't be opened: the header says external data file, which isn't supported\n",
    ),
    (
        &[(104, b"DATA\0\0\0\x06x.data")],
        "image: \"a\"\nfile format: qcow2\nvirtual size: 2 KiB (2048 bytes)\ndisk size: 2 KiB\n\
        cluster_size: 512\nFormat specific information:\n\x20   compat: 1.1\n\
        \x20   compression type: zlib\n\x20   lazy refcounts: false\n\x20   refcount bits: 16\n\
        \x20   data file: \"x.data\"\n\
        \x20   corrupt: false\n\x20   extended l2: false\n",
    ),
    (
        &[(95, b"\x02")],
        "image: \"a\"\nfile format: qcow2\nvirtual size: 2 KiB (2048 bytes)\ndisk size: 2 KiB\n\
        cluster_size: 512\nFormat specific information:\n\x20   compat: 1.1\n\
        \x20   compression type: zlib\n\x20   lazy refcounts: false\n\x20   refcount bits: 16\n\
        \x20   corrupt: false\n\x20   extended l2: false\n",
    ),
    (
        LOST_TABLES,
        "image: \"a\"\nfile format: qcow2\nvirtual size: 2 KiB (2048 bytes)\ndisk size: 2 KiB\n\
        cluster_size: 512\nFormat specific information:\n\x20   compat: 1.1\n\
        \x20   compression type: zlib\n\x20   lazy refcounts: false\n\x20   refcount bits: 16\n\
        \x20   corrupt: false\n\x20   extended l2: false\n\
        can't be opened: its L1 table has 33554440 bytes, and 32 MiB is the limit\n\
        can't be opened: the header says an L1 table that passes the file's end\n\
        can't be opened: the table of snapshots passes the file's end\n",
    ),
    (
        SNAPSHOTS,
        "image: \"a\"\nfile format: qcow2\nvirtual size: 2 KiB (2048 bytes)\ndisk size: 2 KiB\n\
        encrypted: yes\n\
        cluster_size: 512\nsnapshots: 2\n\
        \x20   id \"1\", name \"a\u{fffd}\", state of 256 B, date 1970-01-01 00:00:01 UTC, \
        VM clock 00:00:01.000\n\
        \x20   id \"2\", name \"\", state of 4 B, date 2000-02-29 12:34:56 UTC, \
        VM clock 26:01:59.250, icount 7\n\
        Format specific information:\n\x20   compat: 1.1\n\
        \x20   compression type: zlib\n\x20   lazy refcounts: false\n\x20   refcount bits: 16\n\
        \x20   encrypt:\n\x20       format: luks\n\
        \x20   corrupt: false\n\x20   extended l2: false\n\
        can't be opened: the header says encryption, which isn't supported\n",
    ),
    (
        LUKS,
        "image: \"a\"\nfile format: qcow2\nvirtual size: 2 KiB (2048 bytes)\ndisk size: 2 KiB\n\
        encrypted: yes\n\
        cluster_size: 512\nFormat specific information:\n\x20   compat: 1.1\n\
        \x20   compression type: zlib\n\x20   lazy refcounts: false\n\x20   refcount bits: 16\n\
        \x20   encrypt:\n\x20       ivgen alg: \"essiv\"\n\
        \x20       ivgen hash alg: \"sha256\"\n\x20       hash alg: \"sha1\"\n\
        \x20       cipher alg: \"aes-256\"\n\x20       uuid: \"5e243c1f\"\n\
        \x20       format: luks\n\x20       cipher mode: \"cbc\"\n\x20       slots:\n\
        \x20           [0]:\n\x20               active: false\n\
        \x20               key offset: 0\n\
        \x20           [1]:\n\x20               active: true\n\
        \x20               iters: 4595\n\x20               key offset: 4096\n\
        \x20               stripes: 4000\n\
        \x20           [2]:\n\x20               active: false\n\
        \x20               key offset: 0\n\
        \x20           [3]:\n\x20               active: false\n\
        \x20               key offset: 0\n\
        \x20           [4]:\n\x20               active: false\n\
        \x20               key offset: 0\n\
        \x20           [5]:\n\x20               active: false\n\
        \x20               key offset: 0\n\
        \x20           [6]:\n\x20               active: false\n\
        \x20               key offset: 0\n\
        \x20           [7]:\n\x20               active: false\n\
        \x20               key offset: 262144\n\
        \x20       payload offset: 2068480\n\x20       master key iters: 1438\n\
        \x20   corrupt: false\n\x20   extended l2: false\n\
        can't be opened: the header says encryption, which isn't supported\n",
    ),
    (
        &[
            (35, b"\x02"),
            (104, b"\x05\x37\xbe\x77\0\0\0\x10\0\0\0\0\0\0\x08"),
        ],
        "image: \"a\"\nfile format: qcow2\nvirtual size: 2 KiB (2048 bytes)\ndisk size: 2 KiB\n\
        encrypted: yes\n\
        cluster_size: 512\nFormat specific information:\n\x20   compat: 1.1\n\
        \x20   compression type: zlib\n\x20   lazy refcounts: false\n\x20   refcount bits: 16\n\
        \x20   encrypt:\n\x20       format: luks\n\
        \x20   corrupt: false\n\x20   extended l2: false\n\
        can't be opened: the header says encryption, which isn't supported\n",
    ),
    (
        BITMAPS,
        "image: \"a\"\nfile format: qcow2\nvirtual size: 2 KiB (2048 bytes)\ndisk size: 2 KiB\n\
        cluster_size: 512\nFormat specific information:\n\x20   compat: 1.1\n\
        \x20   compression type: zlib\n\x20   lazy refcounts: false\n\x20   bitmaps:\n\
        \x20       [0]:\n\x20           flags:\n\x20               [0]: auto\n\
        \x20           name: \"b0\"\n\x20           granularity: 65536\n\
        \x20       [1]:\n\x20           flags:\n\x20               [0]: in-use\n\
        \x20           name: \"\u{fffd}\"\n\x20           granularity: 512\n\
        \x20   refcount bits: 16\n\
        \x20   corrupt: false\n\x20   extended l2: false\n",
    ),
    (
        LOST_BITMAPS,
        "image: \"a\"\nfile format: qcow2\nvirtual size: 2 KiB (2048 bytes)\ndisk size: 2 KiB\n\
        cluster_size: 512\nFormat specific information:\n\x20   compat: 1.1\n\
        \x20   compression type: zlib\n\x20   lazy refcounts: false\n\x20   bitmaps: can't be told\n\
        \x20   refcount bits: 16\n\
        \x20   corrupt: false\n\x20   extended l2: false\n",
    ),
];

/// What `info --json` prints of an encrypted file with snapshots.
const TOLD_JSON: &str = "{ \"filename\": \"a\", \"format\": \"qcow2\", \"virtual-size\": 2048, \
    \"actual-size\": 2048, \"cluster-size\": 512, \"snapshots\": [\
    { \"id\": \"1\", \"name\": \"a\u{fffd}\", \"vm-state-size\": 256, \"date-sec\": 1, \
    \"date-nsec\": 2, \"vm-clock-sec\": 1, \"vm-clock-nsec\": 3 }, \
    { \"id\": \"2\", \"name\": \"\", \"vm-state-size\": 4, \"date-sec\": 951827696, \
    \"date-nsec\": 0, \"vm-clock-sec\": 93719, \"vm-clock-nsec\": 250000000, \"icount\": 7 }], \
    \"dirty-flag\": false, \"encrypted\": true, \
    \"format-specific\": { \"type\": \"qcow2\", \"data\": { \"compat\": \"1.1\", \
    \"compression-type\": \"zlib\", \"refcount-bits\": 16, \
    \"encrypt\": { \"format\": \"luks\" }, \"lazy-refcounts\": false, \
    \"corrupt\": false, \"extended-l2\": false } }, \"unsupported\": \
    [\"the header says encryption, which isn't supported\"] }\n";

/// What `info --json` prints of a file with external data.
const TOLD_DATA: &str = "{ \"filename\": \"a\", \"format\": \"qcow2\", \"virtual-size\": 2048, \
    \"actual-size\": 2048, \"cluster-size\": 512, \"dirty-flag\": false, \
    \"format-specific\": { \"type\": \"qcow2\", \"data\": { \"compat\": \"1.1\", \
    \"compression-type\": \"zlib\", \"refcount-bits\": 16, \
    \"data-file\": \"y\\u001b.data\", \"data-file-raw\": true, \"lazy-refcounts\": false, \
    \"corrupt\": false, \"extended-l2\": false } }, \"unsupported\": \
    [\"the header says external data file, which isn't supported\"] }\n";

/// What it prints of one whose name isn't UTF-8.
const TOLD_DATA_BYTES: &str = "{ \"filename\": \"a\", \"format\": \"qcow2\", \
    \"virtual-size\": 2048, \"actual-size\": 2048, \"cluster-size\": 512, \
    \"dirty-flag\": false, \"format-specific\": { \"type\": \"qcow2\", \"data\": { \
    \"compat\": \"1.1\", \"compression-type\": \"zlib\", \"refcount-bits\": 16, \
    \"data-file\": \"\u{fffd}.data\", \"data-file-raw\": false, \"lazy-refcounts\": false, \
    \"corrupt\": false, \"extended-l2\": false } }, \"unsupported\": \
    [\"the header says external data file, which isn't supported\"] }\n";

/// Two snapshots in a table at 1024. The first one has 8 bytes besides, and its name isn't UTF-8. The
/// second one has 24, and counts instructions.
const SNAPSHOTS: Parts = &[
    (35, b"\x02"),
    (63, b"\x02"),
    (70, b"\x04"),
    (
        1037,
        b"\x01\0\x02\0\0\0\x01\0\0\0\x02\0\0\0\0\x3b\x9a\xca\x03\0\0\0\x09\0\0\0\x08",
    ),
    (1070, b"\x01\0"),
    (1072, b"1a\xff"),
    (1093, b"\x01"),
    (1096, b"\x38\xbb\xbc\xf0"),
    (1106, b"\x55\x3c\xb6\x9a\xd8\x80"),
    (1119, b"\x18"),
    (1127, b"\x04"),
    (1143, b"\x07"),
    (1144, b"2"),
];

/// What it prints of a file whose tables pass its end.
const TOLD_LOST: &str = "{ \"filename\": \"a\", \"format\": \"qcow2\", \"virtual-size\": 2048, \
    \"actual-size\": 2048, \"cluster-size\": 512, \"dirty-flag\": false, \
    \"format-specific\": { \"type\": \"qcow2\", \"data\": { \"compat\": \"1.1\", \
    \"compression-type\": \"zlib\", \"refcount-bits\": 16, \
    \"lazy-refcounts\": false, \"corrupt\": false, \"extended-l2\": false } }, \"unsupported\": \
    [\"its L1 table has 33554440 bytes, and 32 MiB is the limit\", \
    \"the header says an L1 table that passes the file's end\", \
    \"the table of snapshots passes the file's end\"] }\n";

/// What it prints of one with a LUKS header.
const TOLD_LUKS: &str = "{ \"filename\": \"a\", \"format\": \"qcow2\", \"virtual-size\": 2048, \
    \"actual-size\": 2048, \"cluster-size\": 512, \"dirty-flag\": false, \
    \"encrypted\": true, \"format-specific\": { \"type\": \"qcow2\", \"data\": { \"compat\": \"1.1\", \
    \"compression-type\": \"zlib\", \"refcount-bits\": 16, \
    \"encrypt\": { \"format\": \"luks\", \"ivgen-alg\": \"essiv\", \
    \"ivgen-hash-alg\": \"sha256\", \"hash-alg\": \"sha1\", \"cipher-alg\": \"aes-256\", \
    \"cipher-mode\": \"cbc\", \"uuid\": \"5e243c1f\", \"slots\": [{ \"active\": false, \"key-offset\": 0 }, \
    { \"active\": true, \"iters\": 4595, \"stripes\": 4000, \"key-offset\": 4096 }, \
    { \"active\": false, \"key-offset\": 0 }, \
    { \"active\": false, \"key-offset\": 0 }, \
    { \"active\": false, \"key-offset\": 0 }, \
    { \"active\": false, \"key-offset\": 0 }, \
    { \"active\": false, \"key-offset\": 0 }, \
    { \"active\": false, \"key-offset\": 262144 }], \"payload-offset\": 2068480, \
    \"master-key-iters\": 1438 }, \"lazy-refcounts\": false, \"corrupt\": false, \"extended-l2\": false } }, \"unsupported\": \
    [\"the header says encryption, which isn't supported\"] }\n";

/// What it prints of one with bitmaps.
const TOLD_BITMAPS: &str = "{ \"filename\": \"a\", \"format\": \"qcow2\", \"virtual-size\": 2048, \
    \"actual-size\": 2048, \"cluster-size\": 512, \"dirty-flag\": false, \
    \"format-specific\": { \"type\": \"qcow2\", \"data\": { \"compat\": \"1.1\", \
    \"compression-type\": \"zlib\", \"refcount-bits\": 16, \
    \"bitmaps\": [{ \"flags\": [\"auto\"], \"name\": \"b0\", \"granularity\": 65536 }, \
    { \"flags\": [\"in-use\"], \"name\": \"\u{fffd}\", \"granularity\": 512 }], \"lazy-refcounts\": false, \"corrupt\": false, \"extended-l2\": false } } }\n";

/// What it prints of one with bitmaps that can't be told.
const TOLD_NO_BITMAPS: &str =
    "{ \"filename\": \"a\", \"format\": \"qcow2\", \"virtual-size\": 2048, \
    \"actual-size\": 2048, \"cluster-size\": 512, \"dirty-flag\": false, \
    \"format-specific\": { \"type\": \"qcow2\", \"data\": { \"compat\": \"1.1\", \
    \"compression-type\": \"zlib\", \"refcount-bits\": 16, \
    \"bitmaps\": null, \"lazy-refcounts\": false, \"corrupt\": false, \"extended-l2\": false } } }\n";

/// Files that `info --json` tells, and what it prints.
static TOLD_BY_JSON: [(Parts, &str); 7] = [
    (SNAPSHOTS, TOLD_JSON),
    (DATA_NAMES, TOLD_DATA),
    (DATA_NAME_BYTES, TOLD_DATA_BYTES),
    (LOST_TABLES, TOLD_LOST),
    (LUKS, TOLD_LUKS),
    (BITMAPS, TOLD_BITMAPS),
    (LOST_BITMAPS, TOLD_NO_BITMAPS),
];

#[test]
fn images_that_arent_opened_are_told(rt: HostRuntime) {
    for (parts, output) in &TOLD_UNOPENED {
        check_changed(&rt, rt.alloc(), parts, "info -f qcow2 a", (0, output, ""));
    }
    for (parts, output) in &TOLD_BY_JSON {
        let line = "info --json -f qcow2 a";
        check_changed(&rt, rt.alloc(), parts, line, (0, output, ""));
    }
    let refused = "imago-img: \"a\": the header says external data file, which isn't supported\n";
    let line = "info --alone -f qcow2 a";
    check_changed(&rt, rt.alloc(), DATA_NAMES, line, (1, "", refused));
}

/// Tables of snapshots that can't be told.
static LOST: [(Parts, &str); 2] = [
    (
        &[(63, b"\x01"), (70, b"\x08")],
        "imago-img: \"a\": the table of snapshots passes the file's end\n",
    ),
    (
        &[(63, b"\x01"), (70, b"\x04"), (1061, b"\xff")],
        "imago-img: \"a\": the table of snapshots passes the file's end\n",
    ),
];

#[test]
fn tables_of_snapshots_are_in_the_file(rt: HostRuntime) {
    for (parts, errors) in &LOST {
        check_changed(&rt, rt.alloc(), parts, "info a", (1, "", errors));
    }
}

/// Offsets whose byte can't be read, with a command line that then is refused: in the first bytes,
/// the header, the L1 table, the L2 table, and the name of the file below.
static TORN: [(u64, &str); 7] = [
    (0, "info a"),
    (0, "check a"),
    (100, "info a"),
    (100, "check a"),
    (512, "check a"),
    (1024, "check a"),
    (400, "info a"),
];

/// What `info` prints of a file whose L1 table and L2 table can't be read: it reads neither.
const UNREAD: &str = "image: \"a\"\nfile format: qcow2\nvirtual size: 2 KiB (2048 bytes)\n\
    disk size: 2 KiB\ncluster_size: 512\nbacking file: \"b\"\nFormat specific information:\n\
    \x20   compat: 1.1\n\x20   compression type: zlib\n\x20   lazy refcounts: false\n\
    \x20   refcount bits: 16\n\x20   corrupt: false\n\x20   extended l2: false\n";

/// A name at 400 and an L2 table at 1024.
const NAMED: Parts = &[(14, b"\x01\x90\0\0\0\x01"), (400, b"b"), (518, b"\x04")];

#[test]
fn refused_reads_are_told_by_the_host(rt: HostRuntime) {
    let refused = "imago-img: \"a\": permission denied\n";
    for (at, line) in &TORN {
        let made = changed(rt.alloc(), NAMED, Nature::Torn(*at));
        assert!(rt; made.is_ok(), "{line}");
        let Ok(mut host) = made else { continue };
        check_line(&rt, rt.alloc(), &mut host, line, (1, "", refused));
    }
}

#[test]
fn info_reads_no_table(rt: HostRuntime) {
    for at in [512, 1024] {
        let made = changed(rt.alloc(), NAMED, Nature::Torn(at));
        assert!(rt; made.is_ok(), "{at}");
        let Ok(mut host) = made else { continue };
        check_line(&rt, rt.alloc(), &mut host, "info a", (0, UNREAD, ""));
    }
}

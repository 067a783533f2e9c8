// SPDX-License-Identifier: MIT
//! Descriptors, what opening them answers, and what is told of them.
use super::set_up::storage_of;
use imago_drivers::drivers::FormatDriverInstance;
use imago_storage::error::Error;
use imago_storage::mem::MemStorage;
use imago_storage::storage::Storage;
use imago_test_storages::wide_null::WideNull;
use imago_vmdk::vmdk::Vmdk;
use std::alloc::Global;
use std::process::Abort;

/// What opening a descriptor answers: the size of its disk, or the refusal.
type Answer = Result<u64, Error>;

/// What `qemu-img create -f vmdk -o subformat=monolithicFlat disk.vmdk 1M` writes, by the template
/// in QEMU's `block/vmdk.c`.
const MONOLITHIC_FLAT: &[u8] =
    b"# Disk DescriptorFile\nversion=1\nCID=7ab3a6c1\nparentCID=ffffffff\n\
    createType=\"monolithicFlat\"\n\n# Extent description\nRW 2048 FLAT \"disk-flat.vmdk\" 0\n\n\
    # The Disk Data Base\n#DDB\n\nddb.virtualHWVersion = \"4\"\nddb.geometry.cylinders = \"2\"\n\
    ddb.geometry.heads = \"16\"\nddb.geometry.sectors = \"63\"\nddb.adapterType = \"ide\"\n\
    ddb.toolsVersion = \"2147483647\"\n";

/// The same for `subformat=twoGbMaxExtentFlat` and 5 GiB.
const TWO_GB_MAX_EXTENT_FLAT: &[u8] =
    b"# Disk DescriptorFile\nversion=1\nCID=1c8a4d02\nparentCID=ffffffff\n\
    createType=\"twoGbMaxExtentFlat\"\n\n# Extent description\n\
    RW 4194304 FLAT \"disk-f001.vmdk\" 0\nRW 4194304 FLAT \"disk-f002.vmdk\" 0\n\
    RW 2097152 FLAT \"disk-f003.vmdk\" 0\n\n# The Disk Data Base\n#DDB\n\n\
    ddb.virtualHWVersion = \"4\"\nddb.geometry.cylinders = \"10402\"\nddb.geometry.heads = \"16\"\n\
    ddb.geometry.sectors = \"63\"\nddb.adapterType = \"ide\"\nddb.toolsVersion = \"2147483647\"\n";

/// A descriptor, what opening it answers, and whether it is told to be one.
type Row = (&'static [u8], Answer, bool);

const INVALID: Answer = Err(Error::InvalidData);

const UNSUPPORTED: Answer = Err(Error::Unsupported);

static ROWS: [Row; 24] = [
    (MONOLITHIC_FLAT, Ok(1048576), true),
    (TWO_GB_MAX_EXTENT_FLAT, Ok(5368709120), true),
    (
        b"version=1\nRW 2 ZERO\nRDONLY 1 FLAT \"a.img\" 3\n",
        Ok(1536),
        true,
    ),
    (b"RW 2 ZERO", UNSUPPORTED, false),
    (b"version=4\nversion=2", Ok(0), false),
    (b"version=2\nversion=4", UNSUPPORTED, true),
    (b"version=1\nversion=0", UNSUPPORTED, true),
    (b"version=1\nversion=0\nRW x ZERO", INVALID, true),
    (b"KDMV", UNSUPPORTED, true),
    (b"KDM", INVALID, false),
    (b"version=1\nRW 18446744073709551615 ZERO", INVALID, true),
    (b"RW 18446744073709551615 ZERO", UNSUPPORTED, false),
    (b"version=1\nRW", Ok(0), true),
    (b"version=1\nencoding=\"UTF-8\"", INVALID, true),
    (
        b"version=1\nRW 18014398509481984 ZERO",
        Ok(9223372036854775808),
        true,
    ),
    (
        b"version=1\nRW 18014398509481984 ZERO\nRW 18014398509481984 ZERO",
        INVALID,
        true,
    ),
    (b"version=1\r\nRW 1 ZERO\r\n", Ok(512), true),
    (b"version=1\nparentFileNameHint=x\n\xff", UNSUPPORTED, true),
    (b"version=1\n\xff\nparentFileNameHint=x", INVALID, true),
    (b"\xff\nversion=1", INVALID, false),
    (b"version=0\nRW x ZERO", INVALID, false),
    (b"version=+2\nRW 1 ZERO", Ok(512), true),
    (b"# version=1\nversion=3", Ok(0), true),
    (b"version=1\nRW 0 ZERO\nRW 1 ZERO", Ok(512), true),
];

/// A disk of zeroes, and of a sector of a storage.
static TEXT: [u8; 44] = *b"version=1\nRW 2 ZERO\nRDONLY 1 FLAT \"a.img\" 3\n";

/// The same answer for each place before that one, from the last run's on.
type Run = (usize, Answer);

/// For each count of bytes, what the beginning of [`TEXT`] is opened as.
static BEGINNINGS: [Run; 10] = [
    (4, INVALID),
    (8, UNSUPPORTED),
    (9, INVALID),
    (14, Ok(0)),
    (16, INVALID),
    (19, UNSUPPORTED),
    (28, Ok(1024)),
    (30, INVALID),
    (33, UNSUPPORTED),
    (41, INVALID),
];

/// For each byte, and each place of [`TEXT`], what it is opened as with that byte there.
static REPLACED: [(u8, &[Run]); 5] = [
    (
        0x00,
        &[
            (7, INVALID),
            (8, UNSUPPORTED),
            (10, INVALID),
            (13, Ok(512)),
            (15, INVALID),
            (20, UNSUPPORTED),
            (27, Ok(1024)),
            (29, INVALID),
            (34, UNSUPPORTED),
            (35, INVALID),
            (40, Ok(1536)),
            (44, INVALID),
        ],
    ),
    (
        0x0a,
        &[
            (7, INVALID),
            (8, UNSUPPORTED),
            (9, INVALID),
            (10, Ok(1536)),
            (14, Ok(512)),
            (16, INVALID),
            (19, UNSUPPORTED),
            (20, Ok(1536)),
            (28, Ok(1024)),
            (30, INVALID),
            (33, UNSUPPORTED),
            (41, INVALID),
        ],
    ),
    (
        0x22,
        &[
            (7, INVALID),
            (8, UNSUPPORTED),
            (10, INVALID),
            (13, Ok(512)),
            (15, INVALID),
            (20, UNSUPPORTED),
            (27, Ok(1024)),
            (29, INVALID),
            (34, UNSUPPORTED),
            (35, Ok(1536)),
            (40, INVALID),
            (41, Ok(1536)),
            (44, INVALID),
        ],
    ),
    (
        0x3d,
        &[
            (7, INVALID),
            (8, Ok(1536)),
            (15, INVALID),
            (20, UNSUPPORTED),
            (29, INVALID),
            (34, UNSUPPORTED),
            (35, INVALID),
            (40, Ok(1536)),
            (44, INVALID),
        ],
    ),
    (0xff, &[(44, INVALID)]),
];

/// The answer of that place, which is the whole disk's size behind all runs.
fn answer_at(runs: &[Run], place: usize) -> Answer {
    for (end, answer) in runs {
        if place < *end {
            return *answer;
        }
    }
    Ok(1536)
}

fn open_storage<S: Storage>(alloc: Global, storage: S) -> Answer {
    let image = Vmdk::open_image(alloc, storage, false)?;
    Ok(image.size())
}

fn open(alloc: Global, text: &[u8]) -> Answer {
    open_storage(alloc, storage_of(alloc, text)?)
}

/// What a descriptor of that text is opened as.
fn opened(alloc: Global, text: &[u8]) -> Answer {
    match open(alloc, text) {
        Err(Error::Memory) => open(alloc, text),
        answer => answer,
    }
}

fn probe(alloc: Global, text: &[u8]) -> Result<bool, Error> {
    <Vmdk<MemStorage> as FormatDriverInstance>::probe(alloc, &storage_of(alloc, text)?)
}

/// What is told of a storage with that text.
fn told(alloc: Global, text: &[u8]) -> Result<bool, Error> {
    match probe(alloc, text) {
        Err(Error::Memory) => probe(alloc, text),
        answer => answer,
    }
}

#[test]
fn descriptors_are_opened_and_told(rt: HostRuntime) {
    for (text, answer, is_told) in &ROWS {
        assert!(rt; opened(rt.alloc(), text) == *answer);
        assert!(rt; told(rt.alloc(), text) == Ok(*is_told));
    }
}

fn check_each_beginning_is_read(rt: &impl Abort, alloc: Global) {
    for count in 0..45 {
        assert!(rt;
            opened(alloc, &TEXT[..count]) == answer_at(&BEGINNINGS, count),
            "{count}"
        );
    }
}

#[test]
fn each_beginning_is_read(rt: HostRuntime) {
    check_each_beginning_is_read(&rt, rt.alloc());
}

fn check_each_byte_is_replaced(rt: &impl Abort, alloc: Global) {
    for (byte, runs) in &REPLACED {
        for place in 0..44 {
            let mut text = TEXT;
            text[place] = *byte;
            assert!(rt;
                opened(alloc, &text) == answer_at(runs, place),
                "{byte} at {place}"
            );
        }
    }
}

#[test]
fn each_byte_is_replaced(rt: HostRuntime) {
    check_each_byte_is_replaced(&rt, rt.alloc());
}

/// What a descriptor of so many bytes is opened as: ten bytes, and then that line over and over
/// again.
fn open_long(alloc: Global, first: &[u8; 10], line: &[u8; 10], count: usize) -> Answer {
    let mut bytes = Vec::new(alloc);
    for byte in first {
        if bytes.push(*byte).is_err() {
            return Err(Error::Memory);
        }
    }
    for place in 10..count {
        if bytes.push(line[place % 10]).is_err() {
            return Err(Error::Memory);
        }
    }
    open_storage(alloc, MemStorage::new(bytes))
}

fn opened_long(alloc: Global, first: &[u8; 10], line: &[u8; 10], count: usize) -> Answer {
    match open_long(alloc, first, line, count) {
        Err(Error::Memory) => open_long(alloc, first, line, count),
        answer => answer,
    }
}

/// The ten bytes that a descriptor begins with, the line that it has over and over again then, its
/// length, and what it is opened as.
static LONG: [(&[u8; 10], &[u8; 10], usize, Answer); 4] = [
    // 209714 extents of 512 bytes, and the word of one more, which says nothing by itself
    (b"version=1\n", b"RW 1 ZERO\n", 2097152, Ok(107373568)),
    (b"version=1\n", b"RW 1 ZERO\n", 2097153, INVALID),
    // empty lines, none of which says the version
    (EMPTY_LINES, EMPTY_LINES, 2097152, UNSUPPORTED),
    (EMPTY_LINES, EMPTY_LINES, 2097153, INVALID),
];

const EMPTY_LINES: &[u8; 10] = b"\n\n\n\n\n\n\n\n\n\n";

fn check_the_longest_descriptor_is_read(rt: &impl Abort, alloc: Global) {
    for (first, line, count, answer) in &LONG {
        assert!(rt;
            opened_long(alloc, first, line, *count) == *answer,
            "{count}"
        );
    }
}

#[test]
fn the_longest_descriptor_is_read(rt: HostRuntime) {
    check_the_longest_descriptor_is_read(&rt, rt.alloc());
}

/// A storage of the greatest length, whose last block doesn't end within 64 bits, is no descriptor:
/// it isn't read.
#[test]
fn the_greatest_length_is_no_descriptor(rt: HostRuntime) {
    let longest = u64::MAX;
    assert!(rt; open_storage(rt.alloc(), WideNull::new(longest)) == INVALID);
    assert!(rt;
        <Vmdk<WideNull> as FormatDriverInstance>::probe(rt.alloc(), &WideNull::new(longest))
            == Ok(false)
    );
}

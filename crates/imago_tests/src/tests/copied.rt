// SPDX-License-Identifier: MIT
//! Disks in memory: what they are made of, how they are copied, and where two differ first.
ghost use Rattle.std.specs.Prelude.{None};

use super::files::stored;
use super::formats::{
    Image, above, alone, cow_driver, qcow2_driver, qcow2_file, raw_driver, write_to,
};
use imago::copy::{CopyError, Kind, Run, Runs, Target, copy_disk, first_difference};
use imago::error::Error;
use imago::mem::MemStorage;
use imago::{FormatAccess, FormatDriverInstance, Storage};
use std::alloc::Global;
use std::io;
use std::process::Abort;
use std::test::Fail;

/// A disk in memory.
#[derive(Clone, Copy)]
enum Disk {
    /// Those bytes, as a raw image.
    Raw(&'static [u8]),
    /// A copy-on-write disk of 1024 bytes, in blocks of 512, above a raw image of the first bytes,
    /// with the others written to it at that offset.
    Cow(&'static [u8], &'static [u8], u64),
    /// A qcow2 image of 1024 bytes, in clusters of 512. The first has no data. The second one is at
    /// 1536 in the file, of which it has four bytes: "data".
    Short,
}

/// What is done with a disk.
#[derive(Clone, Copy, Debug, PartialEq, Eq)]
enum Put {
    /// So many bytes are appended.
    Bytes(usize),
    /// So many zeroes are.
    Zeroes(u64),
}

/// A target that keeps which calls were made.
#[derive(Drop)]
struct Recorder {
    bytes: Vec<u8>,
    calls: Vec<Put>,
}

impl Target for Recorder {
    ghost contents = { λ _. None };

    ghost made_for = { λ _. None };

    fn append(&mut self, source: &[u8]) -> io::Result<()> {
        self.calls.push(Put::Bytes(source.len()))?;
        Target::append(&mut self.bytes, source)
    }

    fn append_zeroes(&mut self, count: u64) -> io::Result<()> {
        self.calls.push(Put::Zeroes(count))?;
        Target::append_zeroes(&mut self.bytes, count)
    }
}

/// The first bytes of the qcow2 file.
fn short_file(alloc: Global) -> Result<MemStorage, Error> {
    let file = qcow2_file(alloc)?;
    stored(alloc, file.as_bytes().get(..1540).unwrap_or_default())
}

/// A copy-on-write disk above a raw image, with bytes written to it.
fn written(
    rt: &impl Abort,
    alloc: Global,
    below: &[u8],
    source: (&[u8], u64),
) -> Result<Image<MemStorage>, Error> {
    let below = alone(raw_driver(stored(alloc, below)?)?);
    let mut image = above(alloc, cow_driver(alloc, stored(alloc, b"")?)?, below)?;
    write_to(rt, alloc, &mut image, source)?;
    Ok(image)
}

/// The image of a disk.
fn image_of(rt: &impl Abort, alloc: Global, disk: Disk) -> Result<Image<MemStorage>, Error> {
    match disk {
        Disk::Raw(bytes) => Ok(alone(raw_driver(stored(alloc, bytes)?)?)),
        Disk::Cow(below, bytes, at) => written(rt, alloc, below, (bytes, at)),
        Disk::Short => Ok(alone(qcow2_driver(alloc, short_file(alloc)?)?)),
    }
}

const TEXT: &[u8] = b"some text";

/// A block of bytes.
const BLOCK: &[u8] = &[b'x'; 512];

/// A run as a row has it: where it begins, and how many bytes it has; unless these are zero, also
/// the layer whose first storage has them, and the offset there.
type Row = (u64, u64, Option<(usize, u64)>);

/// Disks, and what each is made of.
static RUNS: [(Disk, &[Row]); 5] = [
    (Disk::Raw(b""), &[]),
    (Disk::Raw(TEXT), &[(0, 9, Some((0, 0)))]),
    // Below the first block are nine bytes; the second one is in the storage's first block.
    (
        Disk::Cow(TEXT, b"new", 600),
        &[
            (0, 9, Some((1, 0))),
            (9, 503, None),
            (512, 512, Some((0, 0))),
        ],
    ),
    // Both blocks are in the storage, one behind the other.
    (Disk::Cow(TEXT, b"new", 510), &[(0, 1024, Some((0, 0)))]),
    // What lies behind the file's end is the storage's.
    (Disk::Short, &[(0, 512, None), (512, 512, Some((0, 1536)))]),
];

/// The run of a row.
fn run_of((at, count, place): Row) -> Run {
    let kind = match place {
        Some((layer, offset)) => Kind::Stored {
            layer,
            storage: 0,
            offset,
        },
        None => Kind::Zero,
    };
    Run { at, count, kind }
}

/// An image is made of these runs.
fn is_made_of<D: FormatDriverInstance>(
    rt: &impl Abort,
    image: &FormatAccess<D>,
    expected: &[Row],
) -> Result<(), Error> {
    let mut runs = Runs::new(image)?;
    for &row in expected {
        assert_eq!(rt; runs.next_run()?, Some(run_of(row)));
    }
    assert_eq!(rt; runs.next_run()?, None);
    Ok(())
}

/// The same of an image of any format.
fn has_runs<S: Storage>(rt: &impl Abort, image: &Image<S>, expected: &[Row]) -> Result<(), Error> {
    is_made_of(rt, image, expected)
}

fn check_runs(rt: &impl Abort, alloc: Global) -> Result<(), Error> {
    for &(disk, expected) in &RUNS {
        has_runs(rt, &image_of(rt, alloc, disk)?, expected)?;
    }
    Ok(())
}

#[test]
fn disks_are_made_of_runs(rt: HostRuntime) -> Result<(), Fail> {
    check_runs(&rt, rt.alloc())?;
    Ok(())
}

/// Disks, the length of the buffer that each is copied by, the calls on the target, and some of the
/// bytes that it has then, at their offset.
static COPIES: [(Disk, usize, &[Put], (usize, &[u8])); 10] = [
    (Disk::Raw(b""), 4, &[], (0, b"")),
    // A buffer is needed only where there is something to read.
    (Disk::Raw(b""), 0, &[], (0, b"")),
    (
        Disk::Raw(TEXT),
        4,
        &[Put::Bytes(4), Put::Bytes(4), Put::Bytes(1)],
        (0, TEXT),
    ),
    (
        Disk::Cow(TEXT, b"new", 600),
        512,
        &[Put::Bytes(9), Put::Zeroes(503), Put::Bytes(512)],
        (598, b"\0\0new\0"),
    ),
    // Runs that follow one another are put in together, as long as the buffer has room for them.
    (
        Disk::Cow(BLOCK, b"new", 600),
        1024,
        &[Put::Bytes(1024)],
        (511, b"x\0"),
    ),
    (
        Disk::Cow(BLOCK, b"new", 600),
        1023,
        &[Put::Bytes(512), Put::Bytes(512)],
        (598, b"\0\0new\0"),
    ),
    // The second one is longer than the buffer, and begins at its start.
    (
        Disk::Cow(BLOCK, b"new", 600),
        500,
        &[
            Put::Bytes(500),
            Put::Bytes(12),
            Put::Bytes(500),
            Put::Bytes(12),
        ],
        (598, b"\0\0new\0"),
    ),
    // The file's end is the end of a part,
    (
        Disk::Short,
        4,
        &[Put::Zeroes(512), Put::Bytes(4), Put::Zeroes(508)],
        (510, b"\0\0data\0"),
    ),
    // is inside one,
    (
        Disk::Short,
        3,
        &[
            Put::Zeroes(512),
            Put::Bytes(3),
            Put::Bytes(3),
            Put::Zeroes(506),
        ],
        (510, b"\0\0data\0"),
    ),
    // and is inside the only one.
    (
        Disk::Short,
        512,
        &[Put::Zeroes(512), Put::Bytes(512)],
        (510, b"\0\0data\0"),
    ),
];

/// An image is copied by these calls, to a target that has its size and these bytes then.
fn is_copied_by<D: FormatDriverInstance>(
    rt: &impl Abort,
    alloc: Global,
    image: &FormatAccess<D>,
    room: usize,
    (calls, (at, bytes)): (&[Put], (usize, &[u8])),
) -> Result<(), CopyError> {
    let mut buf = vec![in alloc; 0xffu8; room].map_err(Error::from)?;
    let mut target = Recorder {
        bytes: Vec::new(alloc),
        calls: Vec::new(alloc),
    };
    copy_disk(alloc, image, &mut target, &mut buf)?;
    assert_eq!(rt; target.calls.as_slice(), calls);
    assert_eq!(rt; target.bytes.len() as u64, image.size());
    assert!(rt;
        target
            .bytes
            .get(at..)
            .unwrap_or_default()
            .starts_with(bytes)
    );
    Ok(())
}

/// The same of an image of any format.
fn makes_calls<S: Storage>(
    rt: &impl Abort,
    alloc: Global,
    image: &Image<S>,
    room: usize,
    expected: (&[Put], (usize, &[u8])),
) -> Result<(), CopyError> {
    is_copied_by(rt, alloc, image, room, expected)
}

fn check_copies(rt: &impl Abort, alloc: Global) -> Result<(), CopyError> {
    for &(disk, room, calls, bytes) in &COPIES {
        makes_calls(rt, alloc, &image_of(rt, alloc, disk)?, room, (calls, bytes))?;
    }
    Ok(())
}

#[test]
fn disks_are_copied(rt: HostRuntime) {
    let copied = check_copies(&rt, rt.alloc());
    assert!(&rt; copied.is_ok());
}

/// Pairs of disks, and where they differ first.
static PAIRS: [(Disk, Disk, Option<u64>); 8] = [
    (Disk::Raw(b""), Disk::Raw(b""), None),
    (Disk::Raw(b"ab"), Disk::Raw(b"ab\0\0\0\0\0"), None),
    (Disk::Raw(b"ab\0\0\0\0c"), Disk::Raw(b"ab"), Some(6)),
    (Disk::Raw(b"same text"), Disk::Raw(TEXT), Some(1)),
    // A disk above one of another size.
    (Disk::Cow(TEXT, b"\0", 600), Disk::Raw(TEXT), None),
    (Disk::Raw(TEXT), Disk::Cow(TEXT, b"new", 600), Some(600)),
    // The file ends at 516 of the disk.
    (Disk::Short, Disk::Cow(b"", b"data", 512), None),
    (Disk::Cow(b"", b"data!", 512), Disk::Short, Some(516)),
];

/// Two images differ first there.
fn differ_first_at<D: FormatDriverInstance>(
    rt: &impl Abort,
    alloc: Global,
    (left, right): (&FormatAccess<D>, &FormatAccess<D>),
    expected: Option<u64>,
) -> Result<(), Error> {
    let mut one = [0xff; 4];
    let mut other = [0; 5];
    let found = first_difference(alloc, left, right, &mut one, &mut other)?;
    assert_eq!(rt; found, expected);
    Ok(())
}

/// The same of images of any format.
fn differ_at<S: Storage>(
    rt: &impl Abort,
    alloc: Global,
    images: (&Image<S>, &Image<S>),
    expected: Option<u64>,
) -> Result<(), Error> {
    differ_first_at(rt, alloc, images, expected)
}

fn check_differences(rt: &impl Abort, alloc: Global) -> Result<(), Error> {
    for &(left, right, expected) in &PAIRS {
        let left = image_of(rt, alloc, left)?;
        let right = image_of(rt, alloc, right)?;
        differ_at(rt, alloc, (&left, &right), expected)?;
    }
    Ok(())
}

#[test]
fn first_differences_are_found(rt: HostRuntime) -> Result<(), Fail> {
    check_differences(&rt, rt.alloc())?;
    Ok(())
}

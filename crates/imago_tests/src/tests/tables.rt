// SPDX-License-Identifier: MIT
//! qcow2 images whose tables are limited, or can't be read; and what a refused opening leaves of
//! the storage that was lent to it.
ghost use Rattle.std.specs.Prelude.{None};
ghost use Rattle.imago.specs.FileCalls.{any_calls};

use imago::Storage;
use imago::cow::Cow;
use imago::error::Error;
use imago::file::{FileStorage, HostFile, MemoryFile};
use imago::qcow2::{OpenFault, Qcow2};
use imago::vmdk::Vmdk;
use std::alloc::Global;
use std::io::{self, ErrorKind};
use std::process::Abort;
use std::test::Fail;

/// What stands in the file of a qcow2 image of version 2, in clusters of 512 bytes, and where; all
/// else of its 2560 bytes is zero. The disk has 65536 bytes, so it needs two L1 entries. The first
/// one names the L2 table at 1024.
static PARTS: [(usize, &[u8]); 13] = [
    (0, b"QFI\xfb\0\0\0\x02"),
    // The offset of the backing file's name, its length, and the name.
    (15, &[200]),
    (19, &[4]),
    (200, b"base"),
    // The cluster's length, the disk's size, the number of L1 entries, and where their table is.
    (23, &[9]),
    (29, &[1]),
    (39, &[2]),
    (46, &[2]),
    // A header extension of an unknown type with 40 bytes, and one for the backing file's format.
    (75, &[1]),
    (79, &[40]),
    (120, b"\xe2\x79\x2a\xca\0\0\0\x03"),
    (128, b"raw"),
    // The first L1 entry.
    (518, &[4]),
];

/// The file of that image, whose second L1 entry has this as its last byte but one.
fn file_of(alloc: Global, second: u8) -> Result<Vec<u8>, Error> {
    let mut file = vec![in alloc; 0u8; 2560]?;
    for &(at, bytes) in &PARTS {
        for (to, &byte) in file.iter_mut().skip(at).zip(bytes) {
            *to = byte;
        }
    }
    for to in file.iter_mut().skip(526).take(1) {
        *to = second;
    }
    Ok(file)
}

/// A file in memory of which a range can't be read. It tells nothing of what it holds.
#[derive(Drop)]
struct Unreadable {
    inner: MemoryFile,
    from: u64,
    to: u64,
}

impl HostFile for Unreadable {
    ghost contents = { λ _. None };

    ghost calls = { any_calls };

    fn length(&self) -> io::Result<u64> {
        self.inner.length()
    }

    fn read_at(&self, buf: &mut [u8], offset: u64) -> io::Result<()> {
        if offset < self.to && self.from < offset + buf.len() as u64 {
            return Err(io::Error::from(ErrorKind::TimedOut));
        }
        self.inner.read_at(buf, offset)
    }

    fn write_at(&mut self, source: &[u8], offset: u64) -> io::Result<()> {
        self.inner.write_at(source, offset)
    }

    fn set_len(&mut self, size: u64) -> io::Result<()> {
        self.inner.set_len(size)
    }

    fn sync_data(&mut self) -> io::Result<()> {
        self.inner.sync_data()
    }
}

/// The second L1 entry of an image, a range of its file that can't be read, and the limit on its
/// tables, if it has one; and what its opening, and the names of its backing file and of that
/// file's format, are refused for.
struct Row(u8, (u64, u64), Option<u64>, Option<OpenFault>);

/// The L1 entry that names no table, the one that names the table of the first, and another one.
const ABSENT: u8 = 0;

const SHARED: u8 = 4;

const OTHER: u8 = 6;

/// All can be read.
const WHOLE: (u64, u64) = (0, 0);

const TOO_LARGE: Option<OpenFault> = Some(OpenFault::TablesTooLarge);

const DEVICE: Option<OpenFault> = Some(OpenFault::Driver(Error::Device));

static ROWS: [Row; 18] = [
    // Two L1 entries of 8 bytes, and each L2 table of 512 bytes once.
    Row(ABSENT, WHOLE, Some(528), None),
    Row(ABSENT, WHOLE, Some(527), TOO_LARGE),
    Row(SHARED, WHOLE, Some(528), None),
    Row(SHARED, WHOLE, Some(527), TOO_LARGE),
    Row(SHARED, WHOLE, Some(15), TOO_LARGE),
    Row(OTHER, WHOLE, Some(1040), None),
    Row(OTHER, WHOLE, Some(1039), TOO_LARGE),
    // Tables that are too large aren't read: neither the L1 table nor any L2 table is.
    Row(OTHER, (512, 528), Some(15), TOO_LARGE),
    Row(OTHER, (1024, 1536), Some(1039), TOO_LARGE),
    Row(OTHER, (1536, 2048), Some(1039), TOO_LARGE),
    Row(OTHER, (1536, 2048), Some(1040), DEVICE),
    // What can't be read is the device's refusal: the header, the L1 table, both L2 tables, a
    // header extension, and what stands behind it: the name of the format, and that of the file.
    Row(OTHER, (0, 1), None, DEVICE),
    Row(OTHER, (512, 513), None, DEVICE),
    Row(OTHER, (1024, 1025), None, DEVICE),
    Row(OTHER, (1536, 1537), None, DEVICE),
    Row(OTHER, (120, 121), None, DEVICE),
    Row(OTHER, (128, 129), None, DEVICE),
    Row(OTHER, (200, 201), None, DEVICE),
];

/// Opens the image of that file, within the limit if there is one.
fn opened<S: Storage>(alloc: Global, file: S, most: Option<u64>) -> Result<Qcow2<S>, OpenFault> {
    match most {
        Some(most) => Qcow2::open_within(alloc, file, most),
        None => Ok(Qcow2::open_image(alloc, file, false)?),
    }
}

/// Whether a name is this one.
fn is_name(name: Option<Vec<u8>>, expected: &[u8]) -> bool {
    match name {
        Some(name) => name.as_slice() == expected,
        None => false,
    }
}

/// Opens the image of that file, and asks it for what it says of its backing file. Answers whether
/// both names are those of the file.
fn names_of<S: Storage>(alloc: Global, file: S, most: Option<u64>) -> Result<bool, OpenFault> {
    let image = opened(alloc, file, most)?;
    let format = image.backing_format(alloc)?;
    let name = image.backing_file(alloc)?;
    Ok(is_name(format, b"raw") && is_name(name, b"base"))
}

/// The same of the image of a row.
fn asked(alloc: Global, row: &Row) -> Result<bool, OpenFault> {
    let &Row(second, (from, to), most, _) = row;
    let inner = MemoryFile::new(file_of(alloc, second)?);
    let Ok(file) = FileStorage::new(Unreadable { inner, from, to }, None, false) else {
        return Ok(false);
    };
    names_of(alloc, file, most)
}

/// The same, and once more where memory was refused.
fn answer(alloc: Global, row: &Row) -> Result<bool, OpenFault> {
    match asked(alloc, row) {
        Err(OpenFault::Driver(Error::Memory)) => asked(alloc, row),
        first => first,
    }
}

fn check_tables(rt: &impl Abort, alloc: Global) {
    for (i, row) in ROWS.iter().enumerate() {
        let Row(_, _, _, refused) = row;
        let expected = match refused {
            Some(fault) => Err(*fault),
            None => Ok(true),
        };
        assert!(rt; answer(alloc, row) == expected, "row {i}");
    }
}

#[test]
fn tables_are_limited_and_refused_reads_told(rt: HostRuntime) {
    check_tables(&rt, rt.alloc());
}

/// The text of a file that is no image.
static NO_IMAGE: &[u8] = b"no image, and no descriptor";

/// A storage with that text, which may be written to.
fn lent(alloc: Global) -> Result<FileStorage<MemoryFile>, Error> {
    let file = MemoryFile::new(Vec::from_slice(alloc, NO_IMAGE)?);
    match FileStorage::new(file, None, true) {
        Ok(storage) => Ok(storage),
        Err(_) => Err(Error::Device),
    }
}

/// Whether there is no memory for the table of a copy-on-write disk of the greatest size.
fn has_no_room<S: Storage>(alloc: Global, storage: S) -> bool {
    Cow::create(alloc, storage, u64::MAX, 512).is_err()
}

/// Whether each driver refuses a storage.
fn is_refused<S: Storage>(alloc: Global, storage: &mut S) -> bool {
    Qcow2::open_image(alloc, &mut *storage, false).is_err()
        && Qcow2::open_within(alloc, &mut *storage, 0).is_err()
        && Vmdk::open_image(alloc, &mut *storage, false).is_err()
        && has_no_room(alloc, &mut *storage)
}

/// Has each driver refuse a storage that is lent to it, which is as it was then.
fn check_lent(rt: &impl Abort, alloc: Global) -> Result<(), Error> {
    let mut storage = lent(alloc)?;
    for _ in 0..2 {
        assert!(rt; is_refused(alloc, &mut storage));
        assert!(rt; storage.file().as_bytes() == NO_IMAGE);
        assert!(rt; storage.file().syncs() == 0);
    }
    Ok(())
}

#[test]
fn what_is_lent_to_a_refused_opening_stays(rt: HostRuntime) -> Result<(), Fail> {
    check_lent(&rt, rt.alloc())?;
    Ok(())
}

// SPDX-License-Identifier: MIT
//! Compressed clusters of qcow2 images, alone and beside others.
//!
//! The streams are those of Python's zlib, without a frame and with a window of 12 bits:
//!
//! ```python
//! deflate = zlib.compressobj(9, zlib.DEFLATED, -12)
//! stream = deflate.compress(b"abcdefgh" * 64) + deflate.flush()
//! ```

use imago::error::Error;
use imago::mem::MemStorage;
use imago::qcow2::Qcow2;
use imago::{FormatAccess, Storage};
use imago_inflate::fault::InflateError;
use imago_qcow2::entry::GuestCluster;
use imago_qcow2::header::Compression;
use std::alloc::Global;
use std::process::Abort;
use std::test::Fail;

/// Bytes of a file, and where they stand.
type Part = (usize, &'static [u8]);

/// What stands in the file of an image of version 2, in clusters of 512 bytes. Its disk has five:
/// "abcdefgh" again and again, "01234567", nothing, a stream that is faulty, and "end.".
static DEFLATED: [Part; 13] = [
    (0, b"QFI\xfb\0\0\0\x02"),
    // The cluster's length, the disk's size, the number of L1 entries, and where their table is.
    (23, &[9]),
    (30, &[10]),
    (39, &[1]),
    (46, &[2]),
    // The L1 entry: the L2 table is at 1024. Its entries: the first stream is at 1541, and the
    // second is right behind it; there is none; the fourth begins with a block of kind 3; the last
    // ends where the file does, and its sectors go on behind that.
    (518, &[4]),
    (1024, &[0x40, 0, 0, 0, 0, 0, 0x06, 0x05]),
    (1032, &[0x40, 0, 0, 0, 0, 0, 0x06, 0x14]),
    (1048, &[0x40, 0, 0, 0, 0, 0, 0x06, 0x30]),
    (1056, &[0x60, 0, 0, 0, 0, 0, 0x07, 0xf5]),
    (1541, b"KLJNIMK\xcfH\x1c\xa5G$\r\0304261537\x18\xa5G$\r\0"),
    (1584, &[7]),
    (2037, b"K\xcdK\xd1K\x1d\xc5#\x16\x03\x00"),
];

/// What stands in that of an image of version 3, whose only cluster is compressed by Zstandard.
static BY_ZSTD: [Part; 10] = [
    (0, b"QFI\xfb\0\0\0\x03"),
    (23, &[9]),
    (30, &[2]),
    (39, &[1]),
    (46, &[2]),
    // Bit 3 of the incompatible features, the reference counts' width, the header's own length, and
    // the kind of compression.
    (79, &[8]),
    (99, &[4]),
    (103, &[112, 1]),
    (518, &[4]),
    (1024, &[0x40, 0, 0, 0, 0, 0, 0x06, 0x00]),
];

/// A file of 2048 bytes with those, and zeroes elsewhere.
fn file_of(alloc: Global, parts: &[Part]) -> Result<MemStorage, Error> {
    let mut file = vec![in alloc; 0u8; 2048]?;
    for &(at, bytes) in parts {
        for (to, &byte) in file.iter_mut().skip(at).zip(bytes) {
            *to = byte;
        }
    }
    Ok(MemStorage::new(file))
}

/// The image in a file.
fn image_in<S: Storage>(alloc: Global, file: S) -> Result<Qcow2<S>, Error> {
    Qcow2::open_image(alloc, file, false)
}

/// The image in such a file.
fn opened(alloc: Global, parts: &[Part]) -> Result<Qcow2<MemStorage>, Error> {
    image_in(alloc, file_of(alloc, parts)?)
}

/// A read: its offset, how many bytes, and what these are, again and again.
type Read = (u64, usize, Result<&'static [u8], Error>);

/// Reads of the first image: wholes, a part, and parts of several clusters.
static READS: [Read; 9] = [
    (0, 512, Ok(b"abcdefgh")),
    (512, 512, Ok(b"01234567")),
    (2048, 512, Ok(b"end.")),
    (3, 5, Ok(b"defgh")),
    (508, 8, Ok(b"efgh0123")),
    (1020, 8, Ok(b"4567\0\0\0\0")),
    (1536, 512, Err(Error::InvalidData)),
    (1030, 600, Err(Error::InvalidData)),
    (2047, 2, Err(Error::InvalidData)),
];

/// Each byte is that of the pattern, again and again.
fn has_pattern(rt: &impl Abort, bytes: &[u8], pattern: &[u8]) {
    for part in bytes.chunks(pattern.len().max(1)) {
        assert_eq!(rt; part, pattern);
    }
}

/// An image gives that at a read.
fn gives<S: Storage>(
    rt: &impl Abort,
    alloc: Global,
    image: &FormatAccess<Qcow2<S>>,
    (offset, count, expected): Read,
) -> Result<(), Error> {
    let mut buf = vec![in alloc; 0xffu8; count]?;
    let answer = image.read(alloc, &mut buf, offset);
    match expected {
        Ok(pattern) => {
            answer?;
            has_pattern(rt, &buf, pattern);
        }
        Err(_) => assert_eq!(rt; answer, expected.map(|_| ())),
    }
    Ok(())
}

/// An image gives that at each of these reads.
fn gives_all<S: Storage>(
    rt: &impl Abort,
    alloc: Global,
    image: Qcow2<S>,
    reads: &[Read],
) -> Result<(), Error> {
    let image = FormatAccess::new(image);
    for &read in reads {
        gives(rt, alloc, &image, read)?;
    }
    Ok(())
}

fn check_reads(rt: &impl Abort, alloc: Global) -> Result<(), Error> {
    gives_all(rt, alloc, opened(alloc, &DEFLATED)?, &READS)
}

#[test]
fn compressed_clusters_are_read(rt: HostRuntime) -> Result<(), Fail> {
    check_reads(&rt, rt.alloc())?;
    Ok(())
}

/// What the entries and streams of the first image are told to be.
fn is_told<S: Storage>(rt: &impl Abort, alloc: Global, image: &Qcow2<S>) -> Result<(), Error> {
    let second = GuestCluster::Compressed {
        at: 1556,
        length: 492,
    };
    let last = GuestCluster::Compressed {
        at: 2037,
        length: 523,
    };
    assert_eq!(rt; image.header().compression(), Compression::Deflate);
    assert_eq!(rt; image.guest_cluster(600), Some(second));
    assert_eq!(rt; image.guest_cluster(1024), Some(GuestCluster::Absent));
    assert_eq!(rt; image.guest_cluster(2559), Some(last));
    assert_eq!(rt; image.guest_cluster(2560), None);
    assert_eq!(rt; image.stream_fault(alloc, 600)?, None);
    assert_eq!(rt;
        image.stream_fault(alloc, 1536)?,
        Some(InflateError::BlockKind)
    );
    Ok(())
}

fn check_told(rt: &impl Abort, alloc: Global) -> Result<(), Error> {
    is_told(rt, alloc, &opened(alloc, &DEFLATED)?)
}

#[test]
fn compressed_clusters_are_told(rt: HostRuntime) -> Result<(), Fail> {
    check_told(&rt, rt.alloc())?;
    Ok(())
}

/// An image is compressed by Zstandard, and its first cluster isn't read.
fn is_by_zstd<S: Storage>(rt: &impl Abort, alloc: Global, image: Qcow2<S>) -> Result<(), Error> {
    let unsupported = Err(Error::Unsupported);
    assert_eq!(rt; image.header().compression(), Compression::Zstd);
    assert_eq!(rt; image.stream_fault(alloc, 0), Err(Error::Unsupported));
    gives_all(rt, alloc, image, &[(0, 512, unsupported)])
}

fn check_zstd(rt: &impl Abort, alloc: Global) -> Result<(), Error> {
    is_by_zstd(rt, alloc, opened(alloc, &BY_ZSTD)?)
}

/// The header of the second image, with another kind of compression.
fn check_unknown(rt: &impl Abort, alloc: Global) -> Result<(), Error> {
    let mut parts = BY_ZSTD;
    parts[7] = (103, &[112, 2]);
    assert_eq!(rt; opened(alloc, &parts).err(), Some(Error::Unsupported));
    parts[7] = (103, &[112, 0]);
    assert_eq!(rt; opened(alloc, &parts).err(), Some(Error::InvalidData));
    Ok(())
}

#[test]
fn other_compression_is_refused_by_name(rt: HostRuntime) -> Result<(), Fail> {
    check_zstd(&rt, rt.alloc())?;
    check_unknown(&rt, rt.alloc())?;
    Ok(())
}

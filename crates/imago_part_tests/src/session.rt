// SPDX-License-Identifier: MIT
//! Sessions that are given the blocks of files in memory, beside images over the same files.

ghost use Rattle.std.specs.Prelude.{◌<◌};

use imago_access::access::FormatAccess;
use imago_access::mapping::Mapping;
use imago_drivers::drivers::{Format, FormatDriverInstance};
use imago_inflate::inflate::inflate;
use imago_plan::piece::{Piece, Source};
use imago_qcow2::qcow2::Qcow2;
use imago_session::compressed::Compressed;
use imago_session::permitted::Permitted;
use imago_session::session::{Mapped, Session, Want};
use imago_storage::error::Error;
use imago_storage::mem::MemStorage;
use imago_vmdk::line::Accepted;
use std::alloc::Global;
use std::process::Abort;
use std::test::Fail;

/// Bytes of a file, and where they stand.
type Part = (usize, &'static [u8]);

/// A file: the name that the image above it has for it, its length in bytes, and what stands in it.
/// All else is zero.
#[derive(Drop)]
struct File {
    name: &'static [u8],
    length: usize,
    parts: &'static [Part],
}

/// A qcow2 image of version 2, in clusters of 512 bytes. Its disk has three: "top!", and two without
/// data, which lead to the image "base".
static TOP: File = File {
    name: b"",
    length: 2048,
    parts: &[
        (0, b"QFI\xfb\0\0\0\x02"),
        // Where the backing file's name is, and its length.
        (15, &[120]),
        (19, &[4]),
        // The cluster's length, the disk's size, the number of L1 entries, and where their table is.
        (23, &[9]),
        (30, &[6]),
        (39, &[1]),
        (46, &[2]),
        (120, b"base"),
        // The L1 entry: the L2 table is at 1024. Its first entry: the cluster is at 1536.
        (518, &[4]),
        (1030, &[6]),
        (1536, b"top!"),
    ],
};

/// The same, with nothing below. Its disk has five clusters: "abcdefgh" again and again and
/// "01234567", which are compressed, nothing, a stream that is faulty, and "end.".
static PACKED: File = File {
    name: b"base",
    length: 2048,
    parts: &[
        (0, b"QFI\xfb\0\0\0\x02"),
        (23, &[9]),
        (30, &[10]),
        (39, &[1]),
        (46, &[2]),
        (518, &[4]),
        (1024, &[0x40, 0, 0, 0, 0, 0, 0x06, 0x05]),
        (1032, &[0x40, 0, 0, 0, 0, 0, 0x06, 0x14]),
        (1048, &[0x40, 0, 0, 0, 0, 0, 0x06, 0x30]),
        (1056, &[0x60, 0, 0, 0, 0, 0, 0x07, 0xf5]),
        (1541, b"KLJNIMK\xcfH\x1c\xa5G$\r\0304261537\x18\xa5G$\r\0"),
        (1584, &[7]),
        (2037, b"K\xcdK\xd1K\x1d\xc5#\x16\x03\x00"),
    ],
};

/// The first block of a file in clusters of 64 KiB whose L1 table has 32 MiB, of which its disk needs
/// the first entry.
static FULL_L1: File = File {
    name: b"",
    length: 65536,
    parts: &[
        (0, b"QFI\xfb\0\0\0\x02"),
        (23, &[16]),
        (29, &[3]),
        (36, &[0, 0x40, 0, 0]),
        (45, &[1]),
    ],
};

/// The same with an entry more.
static LONG_L1: File = File {
    name: b"",
    length: 65536,
    parts: &[
        (0, b"QFI\xfb\0\0\0\x02"),
        (23, &[16]),
        (29, &[3]),
        (36, &[0, 0x40, 0, 1]),
        (45, &[1]),
    ],
};

/// A qcow2 image in clusters of 64 KiB, which are as long as the blocks that are asked for. Of its
/// disk's three clusters the second one has data.
static WIDE: File = File {
    name: b"",
    length: 262144,
    parts: &[
        (0, b"QFI\xfb\0\0\0\x02"),
        (23, &[16]),
        (29, &[3]),
        (39, &[1]),
        (45, &[1]),
        // The L1 entry: the L2 table is at 131072. Its second entry: the cluster is at 196608.
        (65541, &[2]),
        (131085, &[3]),
        (196608, b"wide"),
    ],
};

/// A descriptor of three extents, and their files.
static DESCRIPTOR: File = File {
    name: b"base",
    length: 89,
    parts: &[
        (0, b"# Disk DescriptorFile\nversion=1\n"),
        (
            32,
            b"RW 1 ZERO\nRW 1 FLAT \"a.img\" 0\nRW 1 FLAT \"b.img\" 1\n\n\n\n\n\n\n\n",
        ),
    ],
};

/// A qcow2 file of version 4, and one whose clusters have 4 MiB.
static NEWER: File = File {
    name: b"",
    length: 2048,
    parts: &[(0, b"QFI\xfb\0\0\0\x04")],
};

static LARGE: File = File {
    name: b"",
    length: 2048,
    parts: &[(0, b"QFI\xfb\0\0\0\x02"), (23, &[22])],
};

/// A qcow2 file that names one below, the name of whose format passes the first cluster.
static CUT_OFF: File = File {
    name: b"",
    length: 2048,
    parts: &[
        (0, b"QFI\xfb\0\0\0\x02"),
        (15, &[120]),
        (19, &[4]),
        (23, &[9]),
        (72, &[0xe2, 0x79, 0x2a, 0xca, 0, 0, 0, 200]),
    ],
};

/// A descriptor with an invalid line, and one whose extent begins at the offset 2^64.
static UNCLEAR: File = File {
    name: b"",
    length: 30,
    parts: &[(0, b"version=1\nRW x FLAT \"a.img\" 0\n")],
};

static FAR: File = File {
    name: b"",
    length: 46,
    parts: &[(0, b"version=1\nRW 1 FLAT \"a.img\" 36028797018963968\n")],
};

/// Files of other formats, each with its mark: a VHDX and a LUKS image, a sparse VMDK image of 3 MiB,
/// a VDI image, a gzip file, a descriptor that doesn't begin as one does, and a VHD and a DMG image
/// by what they end with.
static FOREIGN: [File; 8] = [
    File {
        name: b"",
        length: 1024,
        parts: &[(0, b"vhdxfile")],
    },
    File {
        name: b"",
        length: 1024,
        parts: &[(0, b"LUKS\xba\xbe\0\x01")],
    },
    File {
        name: b"",
        length: 3145728,
        parts: &[(0, b"KDMV\x01\0\0\0")],
    },
    File {
        name: b"",
        length: 1024,
        parts: &[(64, b"\x7f\x10\xda\xbe")],
    },
    File {
        name: b"",
        length: 20,
        parts: &[(0, b"\x1f\x8b\x08")],
    },
    File {
        name: b"",
        length: 20,
        parts: &[(0, b"version=1\nRW 1 ZERO\n")],
    },
    File {
        name: b"",
        length: 262656,
        parts: &[(262144, b"conectix")],
    },
    File {
        name: b"",
        length: 512,
        parts: &[(0, b"koly")],
    },
];

/// A raw disk that begins and ends with none of these marks: its last block begins a byte too late
/// for that of a VHD image.
static RAW: File = File {
    name: b"",
    length: 262656,
    parts: &[(0, b"raw"), (262145, b"conectix")],
};

static FIRST_EXTENT: File = File {
    name: b"a.img",
    length: 512,
    parts: &[],
};

static SECOND_EXTENT: File = File {
    name: b"b.img",
    length: 1024,
    parts: &[],
};

/// All bytes of a file.
fn bytes_of(alloc: Global, file: &File) -> Result<Vec<u8>, Error> {
    let mut bytes = vec![in alloc; 0u8; file.length]?;
    for &(at, part) in file.parts {
        for (to, &byte) in bytes.iter_mut().skip(at).zip(part) {
            *to = byte;
        }
    }
    Ok(bytes)
}

/// So many bytes of a file from an offset on, with zeroes past its end.
fn part_of(alloc: Global, file: &File, offset: u64, count: u64) -> Result<Vec<u8>, Error> {
    let whole = bytes_of(alloc, file)?;
    let mut part = vec![in alloc; 0u8; count as usize]?;
    for (to, &byte) in part.iter_mut().zip(whole.iter().skip(offset as usize)) {
        *to = byte;
    }
    Ok(part)
}

/// The file of that number.
fn numbered<'a>(files: &[&'a File], number: usize) -> Result<&'a File, Error> {
    files.get(number).copied().ok_or(Error::NotFound)
}

/// Gives a session what it asks for, of these files. Whether it asked for something.
fn answer(
    rt: &impl Abort,
    alloc: Global,
    session: &mut Session,
    files: &[&File],
) -> Result<bool, Error> {
    match session.want() {
        Want::Bytes(number, offset, count) => {
            let file = numbered(files, number)?;
            let bytes = part_of(alloc, file, offset, count)?;
            session.give(&bytes)?;
            Ok(true)
        }
        Want::Backing(number) | Want::Extent(number) => {
            let file = numbered(files, number)?;
            if !file.name.is_empty() {
                assert_eq!(rt; session.name(), Some(file.name));
            }
            session.give_file(file.length as u64, None)?;
            Ok(true)
        }
        Want::Nothing => Ok(false),
        Want::Refused => Err(Error::InvalidData),
    }
}

/// The session of an image of these files, the top one first.
fn opened(rt: &impl Abort, alloc: Global, files: &[&File]) -> Result<Session, Error> {
    let accepted = Accepted {
        unknown_keys: false,
        vmfs: false,
    };
    let top = numbered(files, 0)?;
    let mut session = Session::new(alloc, accepted, top.length as u64, None)?;
    // of each file at most three blocks are asked for, and the file itself
    for _ in 0..4 * files.len() {
        if !answer(rt, alloc, &mut session, files)? {
            return Ok(session);
        }
    }
    assert_eq!(rt; session.want(), Want::Nothing);
    Ok(session)
}

/// What is read of a part of a compressed cluster.
fn unpacked(alloc: Global, files: &[&File], part: Compressed) -> Result<Vec<u8>, Error> {
    let stream = part_of(alloc, numbered(files, part.file)?, part.offset, part.length)?;
    let mut cluster = vec![in alloc; 0u8; part.cluster as usize]?;
    if inflate(&stream, &mut cluster).is_err() {
        return Err(Error::InvalidData);
    }
    let mut bytes = vec![in alloc; 0u8; part.count as usize]?;
    for (to, &byte) in bytes
        .iter_mut()
        .zip(cluster.iter().skip(part.skip as usize))
    {
        *to = byte;
    }
    Ok(bytes)
}

/// Whether a session tells of bytes what an image's own mapping of them says.
fn is_so(mapping: Mapping, count: u64, mapped: Mapped) -> bool {
    match (mapping, mapped) {
        (Mapping::Zero { .. }, Mapped::Plain(piece)) => {
            piece.source == Source::Zero && piece.count == count
        }
        (
            Mapping::Raw {
                layer,
                storage,
                offset,
                ..
            },
            Mapped::Plain(
                Piece {
                    count: told,
                    source: Source::Stored(from),
                    ..
                },
            ),
        ) => {
            told == count && from.layer == layer && from.storage == storage && from.offset == offset
        }
        (Mapping::Special { layer, .. }, Mapped::Compressed(part)) => part.file == layer,
        _ => false,
    }
}

/// An image over two of these files in memory.
fn image_of(
    alloc: Global,
    top: &File,
    base: &File,
) -> Result<FormatAccess<Qcow2<MemStorage>>, Error> {
    let lower = Qcow2::open_image(alloc, MemStorage::new(bytes_of(alloc, base)?), false)?;
    let upper = Qcow2::open_image(alloc, MemStorage::new(bytes_of(alloc, top)?), false)?;
    let below = Box::new(alloc, FormatAccess::new(lower))?;
    Ok(FormatAccess::with_backing(upper, below))
}

/// The image over one file in memory.
fn lone_image(alloc: Global, file: &File) -> Result<FormatAccess<Qcow2<MemStorage>>, Error> {
    let storage = MemStorage::new(bytes_of(alloc, file)?);
    Ok(FormatAccess::new(Qcow2::open_image(alloc, storage, false)?))
}

/// At that offset the session of these files tells what the image's own mapping is, as far as its
/// cluster goes, and what is unpacked is what the image reads.
fn check_mapping<D: FormatDriverInstance>(
    rt: &impl Abort,
    alloc: Global,
    files: &[&File],
    image: &FormatAccess<D>,
    cluster: u64,
    offset: u64,
) -> Result<(), Error>
    requires { 0 < cluster }
{
    let session = opened(rt, alloc, files)?;
    assert_eq!(rt; session.size(), Some(image.size()));
    let most = cluster - offset % cluster;
    let mapped = session.map(offset, most)?;
    let (mapping, count) = image.get_mapping(offset, most)?;
    assert!(rt; is_so(mapping, count, mapped), "{offset}");
    if let Mapped::Compressed(part) = mapped {
        let mut read = vec![in alloc; 0u8; part.count as usize]?;
        image.read(alloc, &mut read, offset)?;
        let bytes = unpacked(alloc, files, part)?;
        assert_eq!(rt; bytes.as_slice(), read.as_slice());
    }
    Ok(())
}

#[test]
fn sessions_tell_the_mappings_of_images(rt: HostRuntime) -> Result<(), Fail> {
    let image = image_of(rt.alloc(), &TOP, &PACKED)?;
    for offset in [0, 5, 511, 512, 517, 1023, 1024, 1535] {
        check_mapping(&rt, rt.alloc(), &[&TOP, &PACKED], &image, 512, offset)?;
    }
    Ok(())
}

#[test]
fn images_of_wide_clusters_tell_the_same_mappings(rt: HostRuntime) -> Result<(), Fail> {
    let image = lone_image(rt.alloc(), &WIDE)?;
    for offset in [0, 65535, 65536, 131071, 131072, 196607] {
        check_mapping(&rt, rt.alloc(), &[&WIDE], &image, 65536, offset)?;
    }
    Ok(())
}

/// The extents of a descriptor are the files behind it.
fn check_extents(rt: &impl Abort, alloc: Global) -> Result<(), Error> {
    let files = [&TOP, &DESCRIPTOR, &FIRST_EXTENT, &SECOND_EXTENT];
    let session = opened(rt, alloc, &files)?;
    let mut told = Vec::new(alloc);
    for offset in [512u64, 1024] {
        if let Mapped::Plain(
            Piece {
                source: Source::Stored(from),
                ..
            },
        ) = session.map(offset, 512)?
        {
            told.push((from.layer.saturating_add(from.storage), from.offset))?;
        }
    }
    assert_eq!(rt; told.as_slice(), [(2usize, 0u64), (3, 512)].as_slice());
    Ok(())
}

#[test]
fn extents_are_numbered_behind_the_layers(rt: HostRuntime) -> Result<(), Fail> {
    check_extents(&rt, rt.alloc())?;
    Ok(())
}

/// What isn't asked for is refused, and a session goes on as if nothing had been given.
fn check_refusals(rt: &impl Abort, alloc: Global) -> Result<(), Error> {
    let mut session = Session::new(
        alloc,
        Accepted {
            unknown_keys: false,
            vmfs: false,
        },
        2048,
        None,
    )?;
    let wanted = session.want();
    assert_eq!(rt; wanted, Want::Bytes(0, 0, 2048));
    assert_eq!(rt; session.give(&[0; 5]), Err(Error::InvalidData));
    assert_eq!(rt; session.give_file(5, None), Err(Error::Unsupported));
    assert_eq!(rt; session.want(), wanted);
    assert_eq!(rt; session.map(0, 1), Err(Error::NotFound));
    Ok(())
}

#[test]
fn what_is_not_asked_for_is_refused(rt: HostRuntime) -> Result<(), Fail> {
    check_refusals(&rt, rt.alloc())?;
    Ok(())
}

/// The block of a file is refused for its fault, and the opening is over.
fn check_fault(
    rt: &impl Abort,
    alloc: Global,
    file: &File,
    format: Format,
    fault: Error,
) -> Result<(), Error> {
    let accepted = Accepted {
        unknown_keys: false,
        vmfs: false,
    };
    let mut session = Session::new(alloc, accepted, file.length as u64, Some(format))?;
    let block = bytes_of(alloc, file)?;
    assert_eq!(rt; session.give(&block), Err(fault));
    assert_eq!(rt; session.want(), Want::Refused);
    Ok(())
}

#[test]
fn faults_are_refused(rt: HostRuntime) -> Result<(), Fail> {
    for (file, format, fault) in [
        (&NEWER, Format::Qcow2, Error::Unsupported),
        (&LARGE, Format::Qcow2, Error::InvalidData),
        (&CUT_OFF, Format::Qcow2, Error::InvalidData),
        (&UNCLEAR, Format::Vmdk, Error::InvalidData),
        (&FAR, Format::Vmdk, Error::InvalidData),
        (&TOP, Format::Vmdk, Error::InvalidData),
    ] {
        check_fault(&rt, rt.alloc(), file, format, fault)?;
    }
    Ok(())
}

/// Whether the tables of a file, which begins with that block, are as many as they may be.
fn give_within(
    alloc: Global,
    block: &File,
    length: u64,
    tables: u64,
) -> Result<Result<(), Error>, Error> {
    let permitted = Permitted {
        accepted: Accepted {
            unknown_keys: false,
            vmfs: false,
        },
        tables,
    };
    let mut session = Session::within(alloc, permitted, length, Some(Format::Qcow2))?;
    let block = bytes_of(alloc, block)?;
    Ok(session.give(&block))
}

/// The tables of a file have no more bytes than they may: 8 for its L1 entry, and 512 for the L2
/// table. Its L1 table has at most 32 MiB.
fn check_limits(rt: &impl Abort, alloc: Global) -> Result<(), Error> {
    let unsupported = Err(Error::Unsupported);
    assert_eq!(rt; give_within(alloc, &PACKED, 2048, 520)?, Ok(()));
    assert_eq!(rt; give_within(alloc, &PACKED, 2048, 519)?, unsupported);
    assert_eq!(rt;
        give_within(alloc, &LONG_L1, 1 << 26, 1 << 40)?,
        unsupported
    );
    assert_eq!(rt; give_within(alloc, &FULL_L1, 1 << 26, 1 << 40)?, Ok(()));
    Ok(())
}

#[test]
fn tables_have_no_more_bytes_than_they_may(rt: HostRuntime) -> Result<(), Fail> {
    check_limits(&rt, rt.alloc())?;
    Ok(())
}

/// A file of another format is refused where none is said, and so is what is below an image; where
/// it is said to be raw, none of its bytes is asked for.
fn check_foreign(rt: &impl Abort, alloc: Global, file: &File) -> Result<(), Error> {
    let unsupported = Some(Error::Unsupported);
    assert_eq!(rt; opened(rt, alloc, &[file]).err(), unsupported);
    assert_eq!(rt; opened(rt, alloc, &[&TOP, file]).err(), unsupported);
    let accepted = Accepted {
        unknown_keys: false,
        vmfs: false,
    };
    let session = Session::new(alloc, accepted, file.length as u64, Some(Format::Raw))?;
    assert_eq!(rt; session.want(), Want::Nothing);
    assert_eq!(rt; session.size(), Some(file.length as u64));
    Ok(())
}

#[test]
fn other_formats_are_refused(rt: HostRuntime) -> Result<(), Fail> {
    for file in &FOREIGN {
        check_foreign(&rt, rt.alloc(), file)?;
    }
    Ok(())
}

#[test]
fn what_is_recognised_as_nothing_is_raw(rt: HostRuntime) -> Result<(), Fail> {
    let session = opened(&rt, rt.alloc(), &[&RAW])?;
    assert_eq!(rt; session.size(), Some(262656));
    Ok(())
}

// SPDX-License-Identifier: MIT
//! Storages over files in memory, whole and torn.
use super::set_up::{bytes, kind_of, owned};
use super::torn_file::TornFile;
use imago_file::file::FileStorage;
use imago_file::host::{HostFile, MemoryFile};
use imago_storage::error::Error;
use imago_storage::ext::StorageExt;
use imago_storage::storage::{PreallocateMode, Storage};
use std::alloc::Global;
use std::io::ErrorKind;
use std::process::Abort;

/// A call of a storage.
enum Call {
    /// A write at an offset.
    Write(u64, &'static [u8]),
    /// A resize.
    Resize(u64, PreallocateMode),
    /// Zeroes over a range.
    Zero(u64, u64),
    /// A discard of a range.
    Discard(u64, u64),
    /// A read at an offset, of these bytes.
    Read(u64, &'static [u8]),
    /// A flush.
    Flush,
    /// A sync.
    Sync,
}

/// What a storage over a file answers to a call, and for which cause; and how long it is then.
struct Step(Call, Option<(Error, ErrorKind)>, u64);

/// Makes a call.
fn make<F: HostFile>(
    alloc: Global,
    storage: &mut FileStorage<F>,
    call: &Call,
) -> Result<(), Error> {
    match call {
        Call::Write(offset, source) => storage.write(alloc, *source, *offset),
        Call::Resize(size, mode) => storage.resize(*size, *mode),
        Call::Zero(offset, count) => storage.write_zeroes(alloc, *offset, *count),
        Call::Discard(offset, count) => storage.discard(*offset, *count),
        Call::Read(..) => Ok(()),
        Call::Flush => storage.flush(),
        Call::Sync => storage.sync(),
    }
}

/// Makes a call, and once more where memory was refused.
fn answer<F: HostFile>(
    alloc: Global,
    storage: &mut FileStorage<F>,
    call: &Call,
) -> Result<(), Error> {
    let first = make(alloc, storage, call);
    let lacks_memory = match first {
        Ok(()) => false,
        Err(Error::Memory) => true,
        Err(_) => kind_of(storage.last_error()) == Some(ErrorKind::OutOfMemory),
    };
    if lacks_memory {
        return make(alloc, storage, call);
    }
    first
}

/// Reads at the offset, and compares.
fn shows<F: HostFile>(
    rt: &impl Abort,
    alloc: Global,
    storage: &FileStorage<F>,
    offset: u64,
    expected: &[u8],
) -> Result<(), Error> {
    let mut buf = bytes(rt, alloc, expected);
    buf.fill(0xee);
    storage.read(alloc, &mut buf, offset)?;
    assert!(rt; buf.as_slice() == expected, "a read at {offset}");
    Ok(())
}

/// Makes each call, and compares its answer, its cause, and the length.
fn run<F: HostFile>(rt: &impl Abort, alloc: Global, storage: &mut FileStorage<F>, steps: &[Step]) {
    for (i, Step(call, expected, length)) in steps.iter().enumerate() {
        let result = match call {
            Call::Read(offset, source) => shows(rt, alloc, storage, *offset, source),
            _ => answer(alloc, storage, call),
        };
        match expected {
            None => assert!(rt; result.is_ok(), "step {i}"),
            Some((error, kind)) => {
                assert!(rt; result == Err(*error), "step {i}");
                if *error == Error::Device {
                    assert!(rt; kind_of(storage.last_error()) == Some(*kind), "step {i}");
                }
            }
        }
        assert!(rt; storage.size() == Ok(*length), "the length after step {i}");
    }
}

static WHOLE: [Step; 12] = [
    Step(Call::Read(2, b"cdef\0\0"), None, 6),
    Step(Call::Read(9, b"\0\0"), None, 6),
    Step(Call::Write(4, b"XYZ"), None, 7),
    Step(Call::Write(9, b"end"), None, 12),
    Step(Call::Read(0, b"abcdXYZ\0\0end\0"), None, 12),
    Step(Call::Zero(1, 3), None, 12),
    Step(Call::Discard(0, 12), None, 12),
    Step(Call::Flush, None, 12),
    Step(Call::Sync, None, 12),
    Step(Call::Resize(5, PreallocateMode::WriteData), None, 5),
    Step(Call::Resize(7, PreallocateMode::None), None, 7),
    Step(Call::Read(0, b"a\0\0\0X\0\0"), None, 7),
];

fn check_whole_file(rt: &impl Abort, alloc: Global) {
    let file = MemoryFile::new(bytes(rt, alloc, b"abcdef"));
    let mut storage = FileStorage::new(file, None, true).expect(rt, "a length");
    run(rt, alloc, &mut storage, &WHOLE);
    assert!(rt;
        storage.file().syncs() == 2,
        "a flush and a sync reach the file"
    );
    assert!(rt; storage.file().as_bytes() == b"a\0\0\0X\0\0".as_slice());
    assert!(rt;
        storage.last_error().is_none()
            || kind_of(storage.last_error()) == Some(ErrorKind::OutOfMemory)
    );
}

/// The refusal of a storage that isn't writable.
const READING: Option<(Error, ErrorKind)> = Some((Error::Device, ErrorKind::PermissionDenied));

static READING_ONLY: [Step; 5] = [
    Step(Call::Read(0, b"abcdef\0"), None, 6),
    Step(Call::Write(4, b"XYZ"), READING, 6),
    Step(
        Call::Resize(9, PreallocateMode::Zero),
        Some((Error::Unsupported, ErrorKind::Other)),
        6,
    ),
    Step(Call::Zero(0, 2), READING, 6),
    Step(Call::Sync, None, 6),
];

fn check_reading_only(rt: &impl Abort, alloc: Global) {
    let file = MemoryFile::new(bytes(rt, alloc, b"abcdef"));
    let name = owned(rt, alloc, "disk.raw");
    let mut storage = FileStorage::new(file, Some(name), false).expect(rt, "a length");
    assert!(rt; !storage.is_writable());
    run(rt, alloc, &mut storage, &READING_ONLY);
    assert!(rt; storage.file().as_bytes() == b"abcdef".as_slice());
}

/// A file that takes so many calls and so much of a refused write, the calls on its storage, and
/// what it holds afterwards.
struct Torn {
    taken: u64,
    torn: usize,
    steps: &'static [Step],
    holds: &'static [u8],
}

const FULL: Option<(Error, ErrorKind)> = Some((Error::Device, ErrorKind::StorageFull));

const QUOTA: Option<(Error, ErrorKind)> = Some((Error::Device, ErrorKind::QuotaExceeded));

static TORN: [Torn; 5] = [
    // the part that was written past the end counts
    Torn {
        taken: 0,
        torn: 3,
        steps: &[Step(Call::Write(4, b"UVWXYZ"), FULL, 7)],
        holds: b"abcdUVW",
    },
    // nothing of it lies past the end
    Torn {
        taken: 0,
        torn: 2,
        steps: &[Step(Call::Write(2, b"UVWXYZ"), FULL, 6)],
        holds: b"abUVef",
    },
    // zeroes as data that are refused, and then the cut
    Torn {
        taken: 0,
        torn: 0,
        steps: &[Step(Call::Resize(9, PreallocateMode::Allocate), FULL, 6)],
        holds: b"abcdef",
    },
    // a length that isn't set
    Torn {
        taken: 0,
        torn: 0,
        steps: &[Step(Call::Resize(3, PreallocateMode::Zero), QUOTA, 6)],
        holds: b"abcdef",
    },
    // what is refused after a call that isn't, by a flush, a sync and a read
    Torn {
        taken: 1,
        torn: 0,
        steps: &[
            Step(Call::Write(6, b"gh"), None, 8),
            Step(
                Call::Flush,
                Some((Error::Device, ErrorKind::ResourceBusy)),
                8,
            ),
            Step(
                Call::Read(0, b"abc"),
                Some((Error::Device, ErrorKind::TimedOut)),
                8,
            ),
            Step(
                Call::Sync,
                Some((Error::Device, ErrorKind::ResourceBusy)),
                8,
            ),
        ],
        holds: b"abcdefgh",
    },
];

/// Whether the run of a table was spoiled by memory that was refused.
fn check_torn_files(rt: &impl Abort, alloc: Global) {
    for Torn {
        taken,
        torn,
        steps,
        holds,
    } in &TORN {
        let mut held = bytes(rt, alloc, b"abcdef");
        if held.reserve(64).is_err() {
            held.reserve(64).expect(rt, "memory for a file");
        }
        let file = TornFile::new(MemoryFile::new(held), *taken, *torn);
        let mut storage = FileStorage::new(file, None, true).expect(rt, "a length");
        run(rt, alloc, &mut storage, steps);
        assert!(rt; storage.file().as_bytes() == *holds);
    }
}

fn check_zeroes_in_pieces(rt: &impl Abort, alloc: Global) {
    // the first piece is 65536 bytes long, and the second one is refused after 10 bytes
    let file = TornFile::new(MemoryFile::new(bytes(rt, alloc, b"abc")), 2, 10);
    let mut storage = FileStorage::new(file, None, true).expect(rt, "a length");
    let refused = storage.resize(200000, PreallocateMode::WriteData);
    assert!(rt; refused == Err(Error::Device));
    assert!(rt; storage.size() == Ok(3));
}

fn check_printed(rt: &impl Abort, alloc: Global) {
    let plain = FileStorage::new(MemoryFile::new(bytes(rt, alloc, b"abc")), None, true);
    let plain = plain.expect(rt, "a length");
    let name = owned(rt, alloc, "images/disk.raw");
    let named = FileStorage::new(MemoryFile::new(bytes(rt, alloc, b"abc")), Some(name), true);
    let named = named.expect(rt, "a length");
    for (storage, text) in [(&plain, "file:[3B]"), (&named, "file:images/disk.raw")] {
        let printed = match format!(in alloc; "{storage}") {
            Ok(printed) => printed,
            Err(_) => format!(in alloc; "{storage}").expect(rt, "memory for a text"),
        };
        assert!(rt; printed.as_str() == text);
    }
}

#[test]
fn a_file_in_memory_answers_as_a_list_of_bytes(rt: HostRuntime) {
    check_whole_file(&rt, rt.alloc());
}

#[test]
fn a_storage_for_reading_only_refuses_changes(rt: HostRuntime) {
    check_reading_only(&rt, rt.alloc());
}

#[test]
fn causes_and_lengths_are_kept_up_with(rt: HostRuntime) {
    check_torn_files(&rt, rt.alloc());
}

#[test]
fn zeroes_are_written_in_pieces(rt: HostRuntime) {
    check_zeroes_in_pieces(&rt, rt.alloc());
}

#[test]
fn names_and_lengths_are_printed(rt: HostRuntime) {
    check_printed(&rt, rt.alloc());
}

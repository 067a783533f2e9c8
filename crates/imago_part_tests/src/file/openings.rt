// SPDX-License-Identifier: MIT
//! Files that are opened and created by options, and by a gate.
use super::mute_file::{MuteFile, MuteFiles};
use super::named_files::{NamedFiles, REFUSED};
use super::set_up::{kind_of, owned};
use imago_drivers::gate::ImplicitOpenGate;
use imago_file::file::FileStorage;
use imago_file::gate::FileGate;
use imago_file::host::MemoryFile;
use imago_file::opening::error_of;
use imago_storage::error::Error;
use imago_storage::storage::{PreallocateMode, Storage, StorageCreateOptions, StorageOpenOptions};
use std::alloc::Global;
use std::cell::Cell;
use std::io::{self, ErrorKind};
use std::process::Abort;

type Opened = io::Result<FileStorage<MemoryFile>>;

/// Opens a file of that name.
fn open(
    rt: &impl Abort,
    alloc: Global,
    host: &mut NamedFiles,
    name: &str,
    writable: bool,
    direct: bool,
) -> Opened {
    let name = owned(rt, alloc, name);
    let options = StorageOpenOptions::new().filename(name).write(writable);
    FileStorage::open_file(host, alloc, options.direct(direct))
}

/// Creates a file of that name.
fn create(
    rt: &impl Abort,
    alloc: Global,
    host: &mut NamedFiles,
    name: &str,
    mode: PreallocateMode,
) -> Opened {
    let options = StorageCreateOptions::new().filename(owned(rt, alloc, name));
    FileStorage::create_file(host, alloc, options.size(9).preallocate(mode))
}

/// The kind of what was refused.
fn refused(opened: Opened) -> Option<ErrorKind> {
    match opened {
        Ok(_) => None,
        Err(cause) => Some(cause.kind()),
    }
}

/// What a refusal of each kind is for an image, in the order of [`REFUSED`].
static ERRORS: [Error; 11] = [
    Error::NotFound,
    Error::NotFound,
    Error::Denied,
    Error::Denied,
    Error::Denied,
    Error::InvalidData,
    Error::InvalidData,
    Error::InvalidData,
    Error::Unsupported,
    Error::Memory,
    Error::Device,
];

fn check_refusals(rt: &impl Abort, alloc: Global) {
    let mut host = NamedFiles::new(alloc);
    for ((name, kind), error) in REFUSED.iter().zip(&ERRORS) {
        assert!(rt; error_of(&io::Error::from(*kind)) == *error, "{name}");
        let opened = refused(open(rt, alloc, &mut host, name, true, false));
        assert!(rt;
            opened == Some(*kind) || opened == Some(ErrorKind::OutOfMemory),
            "{name}"
        );
        let created = refused(create(rt, alloc, &mut host, name, PreallocateMode::None));
        assert!(rt;
            created == Some(*kind) || created == Some(ErrorKind::OutOfMemory),
            "{name}"
        );
    }
    let asked = host.asked();
    let direct = refused(open(rt, alloc, &mut host, "disk.raw", false, true));
    assert!(rt; direct == Some(ErrorKind::Unsupported));
    let unnamed = FileStorage::open_file(&mut host, alloc, StorageOpenOptions::new());
    assert!(rt; refused(unnamed) == Some(ErrorKind::InvalidInput));
    assert!(rt; host.asked() == asked, "no file was asked for");
}

fn check_options(rt: &impl Abort, alloc: Global) {
    let mut host = NamedFiles::new(alloc);
    for writable in [false, true] {
        let Ok(storage) = open(rt, alloc, &mut host, "images/disk.raw", writable, false) else {
            continue;
        };
        assert!(rt; storage.is_writable() == writable);
        assert!(rt; storage.get_filename() == Some("images/disk.raw"));
        assert!(rt; storage.file().as_bytes() == b"stored".as_slice());
    }
    for mode in [PreallocateMode::None, PreallocateMode::WriteData] {
        let Ok(storage) = create(rt, alloc, &mut host, "images/new.raw", mode) else {
            continue;
        };
        assert!(rt; storage.is_writable());
        assert!(rt; storage.file().as_bytes() == [0; 9].as_slice());
        if let Ok(path) = storage.resolve_relative_path(alloc, "part.raw") {
            assert!(rt; path.as_str() == "images/part.raw");
        }
    }
}

/// A name, what a gate for the folder `images` answers, and for which cause of the host.
static GATE: [(&str, Result<(), Error>, Option<ErrorKind>); 5] = [
    ("images/disk.raw", Ok(()), None),
    ("images/../disk.raw", Err(Error::Denied), None),
    ("disk.raw", Err(Error::Denied), None),
    ("/etc/passwd", Err(Error::Denied), None),
    ("missing", Err(Error::Denied), None),
];

/// What a gate for any folder answers.
static ANY: [(&str, Result<(), Error>, Option<ErrorKind>); 3] = [
    ("../disk.raw", Ok(()), None),
    ("missing", Err(Error::NotFound), Some(ErrorKind::NotFound)),
    ("broken", Err(Error::Device), Some(ErrorKind::TimedOut)),
];

fn check_gate(
    rt: &impl Abort,
    alloc: Global,
    gate: &mut FileGate<NamedFiles>,
    rows: &[(&str, Result<(), Error>, Option<ErrorKind>)],
) {
    for (name, expected, cause) in rows {
        let options = StorageOpenOptions::new().filename(owned(rt, alloc, name));
        let answer = match gate.open_storage(alloc, options) {
            Ok(_) => Ok(()),
            Err(error) => Err(error),
        };
        if answer == Err(Error::Memory) {
            continue;
        }
        assert!(rt; answer == *expected, "{name}");
        assert!(rt; kind_of(gate.last_error()) == *cause, "{name}");
    }
    let unnamed = gate.open_storage(alloc, StorageOpenOptions::new());
    assert!(rt; matches!(unnamed, Err(Error::NotFound)));
}

fn check_gates(rt: &impl Abort, alloc: Global) {
    let folder = owned(rt, alloc, "images");
    check_gate(
        rt,
        alloc,
        &mut FileGate::below(NamedFiles::new(alloc), folder),
        &GATE,
    );
    check_gate(rt, alloc, &mut FileGate::any(NamedFiles::new(alloc)), &ANY);
}

/// What a file that doesn't tell its length is opened or created for.
enum Asked {
    /// A storage over the file that is open.
    Storage,
    /// An opening, for writing too.
    Opening,
    /// A creation, with 9 bytes in that mode.
    Creation(PreallocateMode),
}

/// What is asked, and how many calls change or sync the file until its length is asked for, which
/// is refused: those alone that give a file that is created its size.
static UNTOLD: [(Asked, u64); 4] = [
    (Asked::Storage, 0),
    (Asked::Opening, 0),
    (Asked::Creation(PreallocateMode::None), 1),
    (Asked::Creation(PreallocateMode::WriteData), 1),
];

/// What is asked of files whose changes and syncs are counted there is refused for.
fn untold<'a>(
    rt: &impl Abort,
    alloc: Global,
    changes: &'a Cell<u64>,
    asked: &Asked,
) -> Option<ErrorKind> {
    let mut host = MuteFiles::new(changes);
    let opened = match asked {
        Asked::Storage => FileStorage::new(MuteFile::new(changes), None, true),
        Asked::Opening => {
            let options = StorageOpenOptions::new().filename(owned(rt, alloc, "disk.raw"));
            FileStorage::open_file(&mut host, alloc, options.write(true))
        }
        Asked::Creation(mode) => {
            let options = StorageCreateOptions::new().filename(owned(rt, alloc, "disk.raw"));
            FileStorage::create_file(&mut host, alloc, options.size(9).preallocate(*mode))
        }
    };
    match opened {
        Ok(_) => None,
        Err(cause) => Some(cause.kind()),
    }
}

fn check_untold(rt: &impl Abort, alloc: Global) {
    for (i, (asked, expected)) in UNTOLD.iter().enumerate() {
        let changes = Cell::new(0);
        let mut refused = untold(rt, alloc, &changes, asked);
        if refused == Some(ErrorKind::OutOfMemory) {
            refused = untold(rt, alloc, &changes, asked);
        }
        assert!(rt; refused == Some(ErrorKind::TimedOut), "row {i}");
        assert!(rt; changes.get() == *expected, "row {i}");
    }
}

#[test]
fn files_that_tell_no_length_are_left_alone(rt: HostRuntime) {
    check_untold(&rt, rt.alloc());
}

#[test]
fn refusals_are_passed_on_by_their_kinds(rt: HostRuntime) {
    check_refusals(&rt, rt.alloc());
}

#[test]
fn options_say_what_is_opened_and_created(rt: HostRuntime) {
    check_options(&rt, rt.alloc());
}

#[test]
fn gates_let_names_through_or_deny_them(rt: HostRuntime) {
    check_gates(&rt, rt.alloc());
}

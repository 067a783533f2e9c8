// SPDX-License-Identifier: MIT
//! An example: a file of the system as a storage. It opens `disk.raw`, writes, reads, resizes and
//! syncs it, opens it again, creates another file, and prints what each step answers.
#![tactic(auto)]

use imago_drivers::gate::ImplicitOpenGate;
use imago_file::file::FileStorage;
use imago_file::gate::FileGate;
use imago_storage::error::Error;
use imago_storage::ext::StorageExt;
use imago_storage::storage::{PreallocateMode, Storage, StorageCreateOptions, StorageOpenOptions};
use std::fs::File;
use std::io;
use std::process::ExitCode;

/// A file of the system as a storage.
type Disk = FileStorage<File>;

/// Opens a file of that name.
fn open(rt: &HostRuntime, name: &str, writable: bool) -> io::Result<Disk> {
    let alloc = rt.alloc();
    let name = String::from_str(alloc, name)?;
    let options = StorageOpenOptions::new().filename(name).write(writable);
    let mut host = rt;
    FileStorage::open_file(&mut host, alloc, options)
}

/// Creates a file of that name and size.
fn create(rt: &HostRuntime, name: &str, size: u64, overwrite: bool) -> io::Result<Disk> {
    let alloc = rt.alloc();
    let name = String::from_str(alloc, name)?;
    let options = StorageCreateOptions::new()
        .filename(name)
        .size(size)
        .preallocate(PreallocateMode::WriteData)
        .overwrite(overwrite);
    let mut host = rt;
    FileStorage::create_file(&mut host, alloc, options)
}

/// Prints what a call answered, with the cause where the file refused it.
fn show(rt: &HostRuntime, call: &str, disk: &Disk, answer: Result<(), Error>) {
    let _ = match (answer, disk.last_error()) {
        (Ok(()), _) => println!(rt; "{call}: ok, {} bytes", disk.size().unwrap_or(0)),
        (Err(Error::Device), Some(cause)) => println!(rt; "{call}: {} ({cause})", Error::Device),
        (Err(error), _) => println!(rt; "{call}: {error}"),
    };
}

/// Prints the bytes of a range, those that are no letter by their numbers.
fn show_bytes(rt: &HostRuntime, disk: &Disk, offset: u64) {
    let mut buf = [0xff; 24];
    let answer = disk.read(rt.alloc(), &mut buf, offset);
    let _ = print!(rt; "at {offset}:");
    for byte in &buf {
        let _ = print!(rt; " {byte:02x}");
    }
    let _ = println!(rt);
    show(rt, "read", disk, answer);
}

/// Changes the disk.
fn change(rt: &HostRuntime, disk: &mut Disk) {
    let alloc = rt.alloc();
    let answer = disk.write(alloc, b"hello, unaligned", 513);
    show(rt, "write", disk, answer);
    show_bytes(rt, disk, 509);
    let answer = disk.write_zeroes(alloc, 516, 3);
    show(rt, "write zeroes", disk, answer);
    let answer = disk.resize(200000, PreallocateMode::WriteData);
    show(rt, "resize", disk, answer);
    let answer = disk.write(alloc, b"end", 200007);
    show(rt, "write", disk, answer);
    let answer = disk.flush();
    show(rt, "flush", disk, answer);
    let answer = disk.sync();
    show(rt, "sync", disk, answer);
}

/// Changes and shows the disk, and opens it again.
fn use_disk(rt: &HostRuntime) -> io::Result<()> {
    let mut disk = open(rt, "disk.raw", true)?;
    let _ = println!(rt; "{disk}");
    change(rt, &mut disk);
    let mut again = open(rt, "disk.raw", false)?;
    show_bytes(rt, &again, 509);
    show_bytes(rt, &again, 199995);
    let answer = again.write(rt.alloc(), b"refused", 0);
    show(rt, "write", &again, answer);
    let answer = again.resize(0, PreallocateMode::None);
    show(rt, "resize", &again, answer);
    Ok(())
}

/// Prints what an opening or a creation answered.
fn show_opened(rt: &HostRuntime, what: &str, opened: io::Result<Disk>) {
    let _ = match opened {
        Ok(disk) => println!(rt; "{what}: {disk}, {} bytes", disk.size().unwrap_or(0)),
        Err(cause) => println!(rt; "{what}: {cause}"),
    };
}

/// Opens and creates others.
fn use_others(rt: &HostRuntime) {
    show_opened(rt, "open missing.raw", open(rt, "missing.raw", false));
    show_opened(rt, "open parts", open(rt, "parts", false));
    show_opened(rt, "create new.raw", create(rt, "new.raw", 100000, false));
    show_opened(rt, "create new.raw again", create(rt, "new.raw", 5, false));
    show_opened(rt, "create new.raw over it", create(rt, "new.raw", 5, true));
}

/// Asks a gate for a file.
fn ask(rt: &HostRuntime, gate: &mut FileGate<&HostRuntime>, name: &str) -> io::Result<()> {
    let alloc = rt.alloc();
    let options = StorageOpenOptions::new().filename(String::from_str(alloc, name)?);
    let _ = match gate.open_storage(alloc, options) {
        Ok(disk) => println!(rt; "gate: {disk}, {} bytes", disk.size().unwrap_or(0)),
        Err(error) => println!(rt; "gate: {name}: {error}"),
    };
    Ok(())
}

/// Asks a gate for files of one folder.
fn use_gate(rt: &HostRuntime) -> io::Result<()> {
    let folder = String::from_str(rt.alloc(), "parts")?;
    let mut gate = FileGate::below(rt, folder);
    ask(rt, &mut gate, "parts/part.raw")?;
    ask(rt, &mut gate, "parts/../disk.raw")?;
    ask(rt, &mut gate, "disk.raw")?;
    ask(rt, &mut gate, "parts/missing.raw")
}

fn main(rt: HostRuntime) -> ExitCode {
    let used = use_disk(&rt);
    use_others(&rt);
    match used.and(use_gate(&rt)) {
        Ok(()) => ExitCode::from(0),
        Err(cause) => {
            let _ = println!(rt; "{cause}");
            ExitCode::from(1)
        }
    }
}

// SPDX-License-Identifier: MIT
//! A first tool: it opens a raw image, a chain of qcow2 images and a VMDK image by their paths, and
//! prints what each of them begins with. Then it lays a copy-on-write disk above the chain, writes to
//! it, reads that back, and makes a list of calls on it.
#![tactic(auto)]

ghost use Rattle.std.specs.Prelude.{◌≡◌, None};
ghost use Rattle.imago.specs.Chain.{driver};

use imago::disk::{Disk, SystemFiles};
use imago::images::{OpenError, Opening, PathFile, PathStorage, storage_of};
use imago::run::{Call, Reply, run};
use imago::{FormatAccess, FormatDriverInstance, Storage, error};
use imago_examples::files::{Image, copy_on_write, write_and_read};
use std::fs::File;
use std::process::ExitCode;

/// Prints what the disk of the image of a path begins with, with the format and the size.
fn show(rt: &HostRuntime, path: &str) -> Result<(), OpenError> {
    let host = SystemFiles::new(rt);
    let disk = Disk::open(&host, path, Opening::new())?;
    let mut buf = [0; 9];
    let _ = match disk.read(&mut buf, 0) {
        Ok(()) => {
            let text = str::from_utf8(&buf).unwrap_or("no text");
            let format = disk.format().name();
            println!(rt; "{format} {path}: {} bytes, {text:?}", disk.size())
        }
        Err(cause) => println!(rt; "{path}: {cause}"),
    };
    Ok(())
}

/// A new file of that path, empty, as a storage that is written.
fn new_file<'a>(
    rt: &HostRuntime,
    host: &'a SystemFiles<'a>,
    path: &str,
) -> Result<PathStorage<'a, SystemFiles<'a>>, OpenError> {
    let file = OpenError::or_system(rt.alloc(), path, File::create_new(rt, path))?;
    storage_of(PathFile::opened(host, path, file)?, path)
}

/// The calls that are made on the copy-on-write disk.
fn calls(rt: &HostRuntime) -> Result<Vec<Call>, error::Error> {
    let mut calls = Vec::new(rt.alloc());
    calls.push(Call::Size)?;
    calls.push(Call::WriteZeroes {
        offset: 2,
        length: 3,
    })?;
    calls.push(Call::Read {
        offset: 0,
        length: 8,
    })?;
    calls.push(Call::WriteZeroes {
        offset: 1 << 40,
        length: 3,
    })?;
    calls.push(Call::Sync)?;
    Ok(calls)
}

/// Prints a reply.
fn print_reply(rt: &HostRuntime, reply: &Reply) {
    let _ = match reply {
        Reply::Data(bytes) => println!(rt; "  bytes {:?}", bytes.as_slice()),
        Reply::Size(size) => println!(rt; "  {size} bytes"),
        Reply::Refused(error) => println!(rt; "  refused: {error}"),
        _ => println!(rt; "  done"),
    };
}

/// Writes to an image, reads that back, and makes the calls on it.
fn change<D: FormatDriverInstance>(
    rt: &HostRuntime,
    image: &mut FormatAccess<D>,
) -> Result<(), error::Error>
    requires { (D.view (driver image.old)).pending ≡ None }
{
    let mut buf = [0; 5];
    write_and_read(rt.alloc(), image, b"hello", &mut buf, 1)?;
    let _ = println!(rt; "wrote and read {buf:?}");
    let mut replies = Vec::new(rt.alloc());
    run(rt.alloc(), image, &calls(rt)?, &mut replies)?;
    for reply in &replies {
        print_reply(rt, reply);
    }
    Ok(())
}

/// Lays a copy-on-write disk above an image, with its data in that storage, and changes it.
fn change_above<S: Storage>(
    rt: &HostRuntime,
    data: S,
    below: Image<S>,
) -> Result<(), error::Error> {
    let mut image = copy_on_write(rt.alloc(), data, below)?;
    let _ = println!(rt; "{}", image.chain_text());
    change(rt, &mut image)?;
    show_changed(rt, &image)
}

/// Prints the size and the first nine bytes of an image of any driver.
fn show_changed<D: FormatDriverInstance>(
    rt: &HostRuntime,
    image: &FormatAccess<D>,
) -> Result<(), error::Error> {
    let mut buf = [0; 9];
    image.read(rt.alloc(), &mut buf, 0)?;
    let text = str::from_utf8(&buf).unwrap_or("no text");
    let _ = println!(rt; "changed: {} bytes, {text:?}", image.size());
    Ok(())
}

/// Changes a disk above the overlay, whose data stands in a new file.
fn use_overlay<'a>(rt: &HostRuntime, host: &'a SystemFiles<'a>) -> Result<(), OpenError> {
    let below = Disk::open(host, "overlay.qcow2", Opening::new())?;
    let data = new_file(rt, host, "changes.raw")?;
    let changed = change_above(rt, data, below.into_image());
    OpenError::or_image(rt.alloc(), "changes.raw", changed)
}

/// All that the tool does.
fn use_images(rt: &HostRuntime) -> Result<(), OpenError> {
    show(rt, "disk.raw")?;
    show(rt, "overlay.qcow2")?;
    show(rt, "disk.vmdk")?;
    use_overlay(rt, &SystemFiles::new(rt))?;
    show(rt, "overlay.qcow2")
}

fn main(rt: HostRuntime) -> ExitCode {
    match use_images(&rt) {
        Ok(()) => ExitCode::SUCCESS,
        Err(refusal) => {
            let _ = eprintln!(rt; "{refusal}");
            ExitCode::FAILURE
        }
    }
}

// SPDX-License-Identifier: MIT
//! A tour of images in files: a raw image, a qcow2 image with an overlay, and a copy-on-write disk
//! above them whose data stands in a file of its own. It prints what each of them reads, and why a
//! step was refused, if one was.
#![tactic(auto)]

ghost use Rattle.std.specs.Prelude.{◌≡◌, None};
ghost use Rattle.imago.specs.Chain.{driver};

use imago::error::Error;
use imago::file::FileStorage;
use imago::format::PreallocateMode;
use imago::{FormatAccess, FormatDriverInstance};
use imago_examples::files::{
    Image, copy_on_write, create, grow_raw, open, qcow2_image, qcow2_overlay, raw_image,
    write_and_read,
};
use std::fs::File;
use std::process::ExitCode;

/// An image in a file of the system.
type Disk = Image<FileStorage<File>>;

/// Prints sixteen bytes of an image, with a dot for each that is no letter, digit or sign.
fn show<D: FormatDriverInstance>(
    rt: &HostRuntime,
    name: &str,
    image: &FormatAccess<D>,
    offset: u64,
) -> Result<(), Error> {
    let mut buf = [0xff; 16];
    image.read(rt.alloc(), &mut buf, offset)?;
    let _ = print!(rt; "{name} at {offset}: ");
    for &byte in &buf {
        let is_text = byte == b' ' || byte.is_ascii_graphic();
        let _ = print!(rt; "{}", if is_text { char::from(byte) } else { '.' });
    }
    let _ = println!(rt);
    Ok(())
}

/// Writes a word to an image, and prints what is read back.
fn write_word<D: FormatDriverInstance>(
    rt: &HostRuntime,
    name: &str,
    image: &mut FormatAccess<D>,
    offset: u64,
) -> Result<(), Error>
    requires { (D.view (driver image.old)).pending ≡ None }
    ensures { (D.view (driver image.new)).pending ≡ None }
{
    let mut buf = [0xff; 7];
    write_and_read(rt.alloc(), image, b"WRITTEN", &mut buf, offset)?;
    let _ = println!(rt; "{name}: wrote and read 7 bytes at {offset}");
    show(rt, name, &*image, offset - offset % 16)
}

/// Writes to an image, makes it longer, and has the host write all of it to the device.
fn change<D: FormatDriverInstance>(
    rt: &HostRuntime,
    name: &str,
    image: &mut FormatAccess<D>,
) -> Result<(), Error>
    requires { (D.view (driver image.old)).pending ≡ None }
{
    write_word(rt, name, image, 4099)?;
    image.resize(rt.alloc(), 9000, PreallocateMode::Zero)?;
    image.flush()?;
    image.sync()
}

/// Changes a raw image, and opens it again.
fn use_raw(rt: &HostRuntime) -> Result<(), Error> {
    let mut host = rt;
    let mut disk = raw_image(open(&mut host, rt.alloc(), "disk.raw", true)?, true)?;
    change(rt, "disk.raw", &mut disk)?;
    let again = raw_image(open(&mut host, rt.alloc(), "disk.raw", false)?, false)?;
    let _ = println!(rt; "disk.raw, opened again: {} bytes", again.size());
    show(rt, "disk.raw", &again, 4096)?;
    show(rt, "disk.raw", &again, 4992)
}

/// Opens a qcow2 overlay above its backing file's image.
fn open_overlay(rt: &HostRuntime) -> Result<Disk, Error> {
    let mut host = rt;
    let alloc = rt.alloc();
    let base = qcow2_image(alloc, open(&mut host, alloc, "base.qcow2", false)?)?;
    show(rt, "base.qcow2", &base, 8192)?;
    qcow2_overlay(alloc, open(&mut host, alloc, "overlay.qcow2", false)?, base)
}

/// Lays a copy-on-write disk above the overlay, and writes to it.
fn use_chain(rt: &HostRuntime) -> Result<(), Error> {
    let mut host = rt;
    let overlay = open_overlay(rt)?;
    show(rt, "overlay.qcow2", &overlay, 0)?;
    show(rt, "overlay.qcow2", &overlay, 8192)?;
    let data = create(&mut host, rt.alloc(), "data.raw")?;
    let mut disk = copy_on_write(rt.alloc(), data, overlay)?;
    let _ = println!(rt; "copy-on-write disk: {}", disk.chain_text());
    write_word(rt, "copy-on-write disk", &mut disk, 8200)?;
    match disk.backing() {
        Some(below) => show(rt, "overlay.qcow2", below, 8192),
        None => Ok(()),
    }
}

/// Makes a new file, grows the raw image in it, and prints the bytes around its former end.
fn use_new(rt: &HostRuntime) -> Result<(), Error> {
    let mut host = rt;
    let alloc = rt.alloc();
    let _ = create(&mut host, alloc, "new.raw")?;
    let bytes = grow_raw(&mut host, alloc, String::from_str(alloc, "new.raw")?)?;
    let _ = println!(rt; "new.raw: {bytes:?} at 9999");
    Ok(())
}

/// Prints why a step was refused, if it was.
fn is_done(rt: &HostRuntime, step: &str, answer: Result<(), Error>) -> bool {
    match answer {
        Ok(()) => true,
        Err(error) => {
            let _ = println!(rt; "{step}: {error}");
            false
        }
    }
}

/// Opens what can't be opened.
fn use_refused(rt: &HostRuntime) -> Result<(), Error> {
    let mut host = rt;
    let _ = is_done(
        rt,
        "missing.raw",
        open(&mut host, rt.alloc(), "missing.raw", false).map(|_| ()),
    );
    let overlay = open(&mut host, rt.alloc(), "overlay.qcow2", false)?;
    let _ = is_done(
        rt,
        "overlay.qcow2 alone",
        qcow2_image(rt.alloc(), overlay).map(|_| ()),
    );
    Ok(())
}

fn main(rt: HostRuntime) -> ExitCode {
    let raw = is_done(&rt, "raw image", use_raw(&rt));
    let chain = is_done(&rt, "chain", use_chain(&rt));
    let new = is_done(&rt, "new file", use_new(&rt));
    let refused = is_done(&rt, "refusals", use_refused(&rt));
    ExitCode::from(u8::from(!(raw && chain && new && refused)))
}

// SPDX-License-Identifier: MIT
//! Images opened by their paths, over any host.
//!
//! A host that states what its files hold, as one in memory, has the images' bytes said by
//! [`Disk::open`]. No contract says what the system's files hold.
ghost use Rattle.std.specs.Prelude.{IfOk, IfSome, IsTrue};
ghost use Rattle.imago.specs.DiskParts.{values, is_told};
ghost use Rattle.imago.specs.FileDisks.{ShowsDisk, HasDisk};
ghost use Rattle.imago_examples.specs.ByPath.{as_found, BeginsWith};

use imago::FormatDriverInstance;
use imago::any::AnyDriver;
use imago::copy::CopyError;
use imago::disk::Disk;
use imago::images::{Accepted, Files, OpenError, Opening, OtherFiles, PathStorage, Reason};

/// Opens the disk of the image of that path, of any format, with the files that it names in its own
/// folder and below.
pub fn open_disk<'a, H: Files>(
    host: &'a H,
    path: &str,
) -> Result<Disk<PathStorage<'a, H>>, OpenError>
    ensures shows { IfOk result (λ disk. IfSome (H.contents host.now)
        (λ files. ShowsDisk as_found files path.now
        (values ⟦<AnyDriver<PathStorage<'a, H>> as FormatDriverInstance>⟧.view disk))) }
    ensures told { IfOk result (λ disk. IfSome (H.contents host.now) (λ _. IsTrue
        (is_told ⟦<AnyDriver<PathStorage<'a, H>> as FormatDriverInstance>⟧.view disk))) }
{
    let how = Opening {
        format: None,
        accepted: Accepted::EVERYTHING,
        other_files: OtherFiles::InFolder,
        tables: None,
        longest: None,
    };
    Disk::open(host, path, how)
}

/// The first 512 bytes of the disk of the image of that path. Where the disk is shorter, zeroes
/// follow it.
pub fn first_sector<H: Files>(host: &H, path: &str) -> Result<[u8; 512], OpenError>
    ensures { IfOk result (λ sector. IfSome (H.contents host.now)
        (λ files. BeginsWith files path.now sector)) }
{
    let disk = open_disk(host, path)?;
    let mut sector = [0; 512];
    let read = disk.read(&mut sector, 0);
    OpenError::or_image(host.alloc(), path, read)?;
    Ok(sector)
}

/// The whole disk of the image of that path, in memory.
pub fn whole_disk<H: Files>(host: &H, path: &str) -> Result<Vec<u8>, OpenError>
    ensures { IfOk result (λ bytes. IfSome (H.contents host.now)
        (λ files. HasDisk as_found files path.now bytes.items)) }
{
    let alloc = host.alloc();
    let disk = open_disk(host, path)?;
    let mut bytes = Vec::new(alloc);
    match disk.copy_to(&mut bytes, &mut [0; 4096]) {
        Ok(()) => Ok(bytes),
        Err(CopyError::Image(cause)) => Err(OpenError::of_file(alloc, path, Reason::Image(cause))),
        Err(CopyError::Target(cause)) => {
            Err(OpenError::of_file(alloc, path, Reason::System(cause)))
        }
    }
}

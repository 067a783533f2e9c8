// SPDX-License-Identifier: MIT
//! Images in files: raw and qcow2 images, and copy-on-write disks above them.
//!
//! The functions take any host of files: for those of the system it is a `&HostRuntime`, lent as
//! `&mut rt`. Of the system's files no contract says what they hold, so what is promised here of
//! bytes holds where `tells_bytes` or `keeps_data` does, as over files in memory.
ghost use Rattle.std.specs.Prelude.{◌≡◌, None, Some, IfOk, OnOk, IsTrue, length};
ghost use Rattle.imago.specs.Chain.{driver, backing, keeps_data};

use imago::any::AnyDriver;
use imago::cow::Cow;
use imago::error::Error;
use imago::file::{FileStorage, HostFiles, error_of};
use imago::format::PreallocateMode;
use imago::qcow2::Qcow2;
use imago::raw::Raw;
use imago::storage::{Storage, StorageCreateOptions, StorageOpenOptions};
use imago::{DenyImplicitOpenGate, FormatAccess, FormatDriverBuilder, FormatDriverInstance};
use std::alloc::Global;

/// An image of any format, over storages of one type.
pub type Image<S> = FormatAccess<AnyDriver<S>>;

/// Makes the raw image in a file 10000 bytes long, writes its last byte, and reads that and the two
/// bytes behind it, which a second growth adds.
pub fn grow_raw<H: HostFiles>(host: &mut H, alloc: Global, path: String) -> Result<[u8; 3], Error> {
    let options = StorageOpenOptions::new().filename(path).write(true);
    let file = FileStorage::open_file(host, alloc, options).map_err(|cause| error_of(&cause))?;
    let mut image = FormatAccess::new(Raw::open_image(file, true)?);
    image.resize(alloc, 10000, PreallocateMode::Zero)?;
    image.write(alloc, &[1], 9999)?; // neither the offset nor the length is aligned
    image.resize(alloc, 11000, PreallocateMode::Zero)?;
    image.sync()?;
    let mut bytes = [0xff; 3];
    image.read(alloc, &mut bytes, 9999)?;
    Ok(bytes) // [1, 0, 0]
}

/// Opens the file of that path as a storage. What the host refuses is answered as [`error_of`]
/// says.
pub fn open<H: HostFiles>(
    host: &mut H,
    alloc: Global,
    path: &str,
    writable: bool,
) -> Result<FileStorage<H::File>, Error> {
    let name = String::from_str(alloc, path)?;
    let options = StorageOpenOptions::new().filename(name).write(writable);
    match FileStorage::open_file(host, alloc, options) {
        Ok(file) => Ok(file),
        Err(cause) => Err(error_of(&cause)),
    }
}

/// Creates an empty file of that path as a storage. A file that has the path already is kept, and
/// the answer is [`Error::Denied`]; other refusals are as [`error_of`] says.
pub fn create<H: HostFiles>(
    host: &mut H,
    alloc: Global,
    path: &str,
) -> Result<FileStorage<H::File>, Error> {
    let name = String::from_str(alloc, path)?;
    let options = StorageCreateOptions::new().filename(name);
    match FileStorage::create_file(host, alloc, options) {
        Ok(file) => Ok(file),
        Err(cause) => Err(error_of(&cause)),
    }
}

/// A raw image.
pub fn raw_image<S: Storage>(file: S, writable: bool) -> Result<Image<S>, Error>
    ensures none_waits { IfOk result (λ image.
        (⟦<AnyDriver<S> as FormatDriverInstance>⟧.view (driver image)).pending ≡ None) }
{
    let driver = Raw::open_image(file, writable)?;
    Ok(FormatAccess::new(AnyDriver::from(driver)))
}

/// A qcow2 image that names no backing file; one that does is [`Error::Unsupported`].
pub fn qcow2_image<S: Storage>(alloc: Global, file: S) -> Result<Image<S>, Error> {
    let gate = DenyImplicitOpenGate::default();
    let driver = Qcow2::builder(file).open(alloc, gate)?;
    Ok(FormatAccess::new(AnyDriver::from(driver)))
}

/// A qcow2 overlay above the image of its backing file.
pub fn qcow2_overlay<S: Storage>(alloc: Global, file: S, below: Image<S>) -> Result<Image<S>, Error>
    ensures below { IfOk result (λ image. backing image ≡ Some below) }
{
    let driver = Qcow2::open_image(alloc, file, false)?;
    let below = Box::new(alloc, below)?;
    Ok(FormatAccess::with_backing(AnyDriver::from(driver), below))
}

/// A copy-on-write disk above an image: what is written to it stands in `data_file`, in blocks of 64
/// KiB, and reads fall through to the image where nothing was written.
pub fn copy_on_write<S: Storage>(
    alloc: Global,
    data_file: S,
    below: Image<S>,
) -> Result<Image<S>, Error>
    ensures none_waits { IfOk result (λ image.
        (⟦<AnyDriver<S> as FormatDriverInstance>⟧.view (driver image)).pending ≡ None) }
    ensures below { IfOk result (λ image. backing image ≡ Some below) }
{
    let driver = Cow::create(alloc, data_file, below.size(), 65536)?;
    let below = Box::new(alloc, below)?;
    Ok(FormatAccess::with_backing(AnyDriver::from(driver), below))
}

/// Writes to an image, and reads back what was written. The images below stay as they are. The buffer
/// is as long as the source.
pub fn write_and_read<D: FormatDriverInstance>(
    alloc: Global,
    image: &mut FormatAccess<D>,
    source: &[u8],
    buf: &mut [u8],
    offset: u64,
) -> Result<(), Error>
    requires none_waits { (D.view (driver image.old)).pending ≡ None }
    requires same_length { length buf.old ≡ length source.now }
    ensures bytes { IsTrue (keeps_data D.view image.old) → OnOk result (buf.new ≡ source.now) }
    ensures below { backing image.new ≡ backing image.old }
    ensures none_waits { (D.view (driver image.new)).pending ≡ None }
{
    image.write(alloc, source, offset)?;
    image.read(alloc, buf, offset)
}

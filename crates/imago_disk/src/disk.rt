// SPDX-License-Identifier: MIT
//! The disk of an image in files.
ghost use Rattle.std.specs.Prelude.{◌≡◌, ◌<◌, [], IfOk, IfErr, IfSome, IsTrue, OnOk, OnErr, length};
ghost use Rattle.std.specs.Prelude.{false, true, None};
ghost use Rattle.std.specs.Int.{next_multiple_of};
ghost use Rattle.imago_access.specs.Calls.{IsWrite};
ghost use Rattle.imago_access.specs.Chain.{driver, keeps_data};
ghost use Rattle.imago_access.specs.Disk.{value_at, IsPartOf, WritesDisk, ZeroesDisk};
ghost use Rattle.imago_access.specs.Sizes.{IsFlushed};
ghost use Rattle.imago_access.specs.Zeroing.{IsZeroWrite};
ghost use Rattle.imago_drivers.specs.Operation.{Zero};
ghost use Rattle.imago_copy.specs.Copies.{IsDiskPut, IsDiskPartlyPut};
ghost use Rattle.imago_copy.specs.Differences.{IsFirstDifferentValue};
ghost use Rattle.imago_images.specs.Chains.{IsImageRefused};
ghost use Rattle.imago_images.specs.Formats.{IsFormatBy};
ghost use Rattle.imago_images.specs.HostBytes.{SaysAlike};
ghost use Rattle.imago_images.specs.Images.{IsImageIn, IsToWrite};
ghost use Rattle.imago_images.specs.ImageFiles.{HasFiles};
ghost use Rattle.imago_disk.specs.Disk.{image_of, format_of, values, is_told};
ghost use Rattle.imago_disk.specs.Shows.{ShowsDisk};
ghost use Rattle.imago_qcow2_new.specs.Layout.{IsLayoutOf, StoresAll, size_of};
ghost use Rattle.imago_qcow2_new.specs.Space.{StoresData};
ghost use Rattle.imago_qcow2_new.specs.Names.{HasNoNames};
ghost use Rattle.imago_qcow2_new.specs.Image.{IsNewFileIn};

use crate::cause::{Cause, ClusterFault, FaultyFile};
use crate::faulty::invalid_entry_in;
use crate::layers::{FileDriver, chain_has, refusal_in};
use crate::named::NamedFile;
use crate::short::ShortFiles;
use crate::streams::{stream_fault_in, unoffered_in};
use imago_access::access::FormatAccess;
use imago_any_driver::any::AnyDriver;
use imago_copy::compare::first_difference;
use imago_copy::copy::{CopyError, copy_disk};
use imago_copy::target::Target;
use imago_drivers::drivers::FormatDriverInstance;
use imago_file::file::FileStorage;
use imago_images::failure::OpenError;
use imago_images::file::PathStorage;
use imago_images::files::{FileStatus, Files, WritableFiles};
use imago_images::format::ImageFormat;
use imago_images::opener::{open_image, open_image_to_write};
use imago_images::opening::Opening;
use imago_qcow2_new::format::Format;
use imago_qcow2_new::layout::Layout;
use imago_qcow2_new::scan::{layout_of, layout_of_size};
use imago_qcow2_new::write::{NewFileError, write_image};
use imago_storage::error::Error;
use imago_storage::storage::Storage;
use std::alloc::Global;

/// The disk of an image in files: what the image shows, through all of its layers.
#[derive(Drop)]
pub struct Disk<S: Storage> {
    alloc: Global,
    format: ImageFormat,
    image: FormatAccess<AnyDriver<S>>,
}

impl<'a, H: Files> Disk<PathStorage<'a, H>> {
    /// Opens the image of a path, as [`open_image`] does: its file, and all files below it.
    ///
    /// # Errors
    ///
    /// Those of [`open_image`].
    pub fn open(host: &'a H, path: &str, how: Opening) -> Result<Self, OpenError>
        ensures format { IfOk result (λ d. IfSome (H.contents host.now)
            (λ files. IsFormatBy how.format path.now (files path.now) (format_of d))) }
        ensures shows { IfOk result (λ d. IfSome (H.contents host.now)
            (λ files. ShowsDisk how files path.now
            (values ⟦<AnyDriver<PathStorage<'a, H>> as FormatDriverInstance>⟧.view d))) }
        ensures told { IfOk result (λ d. IfSome (H.contents host.now) (λ _. IsTrue
            (is_told ⟦<AnyDriver<PathStorage<'a, H>> as FormatDriverInstance>⟧.view d))) }
        ensures image { IfOk result (λ d. IfSome (H.contents host.now)
            (λ files. IsImageIn ⟦<AnyDriver<PathStorage<'a, H>> as FormatDriverInstance>⟧.view
            how files path.now (format_of d) (image_of d))) }
        ensures files { IfOk result (λ d. IfSome (H.contents host.now)
            (λ files. HasFiles ⟦<AnyDriver<PathStorage<'a, H>> as FormatDriverInstance>⟧.view
            how.accepted files path.now (format_of d) (image_of d))) }
        ensures refused { IfErr result (λ e. IfSome (H.contents host.now)
            (λ files. IsImageRefused false files (H.statuses host.now) (H.real_paths host.now)
            how.other_files how how.format path.now e)) }
    {
        let (format, image) = open_image(host, path, how)?;
        Ok(Disk {
            alloc: host.alloc(),
            format,
            image,
        })
    }
}

impl<S: Storage> Disk<S> {
    /// The format of the image's own file.
    pub fn format(&self) -> ImageFormat
        ensures { result ≡ format_of self.now }
    {
        self.format
    }

    /// The size in bytes.
    pub fn size(&self) -> u64
        ensures size { result
            ≡ (⟦<AnyDriver<S> as FormatDriverInstance>⟧.view (driver (image_of self.now))).size }
        ensures length { result ≡ length
            (values ⟦<AnyDriver<S> as FormatDriverInstance>⟧.view self.now) }
    {
        self.image.size()
    }

    /// The image, for functions over images of any driver.
    pub fn image(&self) -> &FormatAccess<AnyDriver<S>>
        ensures { result.now ≡ image_of self.now }
    {
        &self.image
    }

    /// Gives the image away, for those who go on with it: a layer above it, or a server.
    pub fn into_image(self) -> FormatAccess<AnyDriver<S>>
        ensures { result ≡ image_of self }
    {
        self.image
    }

    /// Fills the buffer with bytes of the disk, as [`FormatAccess::read`] does: 0 past its end.
    ///
    /// # Errors
    ///
    /// Those of [`FormatAccess::read`].
    pub fn read(&self, buf: &mut [u8], offset: u64) -> Result<(), Error>
        ensures { IsTrue
            (is_told ⟦<AnyDriver<S> as FormatDriverInstance>⟧.view self.now)
            → OnOk result (IsPartOf
            (values ⟦<AnyDriver<S> as FormatDriverInstance>⟧.view self.now) offset
            (length buf.old) buf.new) }
    {
        self.image.read(self.alloc, buf, offset)
    }

    /// Copies the disk to a target, from its start to its end, as [`copy_disk`] does.
    ///
    /// # Errors
    ///
    /// Those of [`copy_disk`].
    pub fn copy_to<T: Target>(&self, target: &mut T, buf: &mut [u8]) -> Result<(), CopyError>
        ensures same { T.made_for target.new ≡ T.made_for target.old }
        ensures put { IsTrue
            (is_told ⟦<AnyDriver<S> as FormatDriverInstance>⟧.view self.now)
            → OnOk result (IsDiskPut
            (values ⟦<AnyDriver<S> as FormatDriverInstance>⟧.view self.now)
            (T.contents target.old) (T.contents target.new)) }
        ensures refused { IsTrue
            (is_told ⟦<AnyDriver<S> as FormatDriverInstance>⟧.view self.now)
            → OnErr result (IsDiskPartlyPut
            (values ⟦<AnyDriver<S> as FormatDriverInstance>⟧.view self.now)
            (T.contents target.old) (T.contents target.new)) }
    {
        copy_disk(self.alloc, &self.image, target, buf)
    }

    /// The first offset at which it differs from another disk, if it does, as
    /// [`first_difference`] tells it. Behind the end of the shorter one all is 0.
    ///
    /// # Errors
    ///
    /// Those of [`first_difference`].
    pub fn first_difference(
        &self,
        other: &Disk<S>,
        buf: &mut [u8],
        other_buf: &mut [u8],
    ) -> Result<Option<u64>, Error>
        requires buf { 0 < length buf.old }
        requires other_buf { 0 < length other_buf.old }
        ensures { IsTrue
            (is_told ⟦<AnyDriver<S> as FormatDriverInstance>⟧.view self.now)
            → IsTrue
            (is_told ⟦<AnyDriver<S> as FormatDriverInstance>⟧.view other.now)
            → IfOk result (λ found. IsFirstDifferentValue
            (values ⟦<AnyDriver<S> as FormatDriverInstance>⟧.view self.now)
            (values ⟦<AnyDriver<S> as FormatDriverInstance>⟧.view other.now) found) }
    {
        first_difference(self.alloc, &self.image, &other.image, buf, other_buf)
    }

    /// Where everything stands in a new qcow2 file of the disk, which is read by way of the buffer:
    /// clusters that are zero aren't stored, unless all are to be. Then nothing is read.
    ///
    /// # Errors
    ///
    /// Those of [`layout_of`].
    pub fn qcow2_layout(
        &self,
        format: Format,
        all: bool,
        buf: &mut [u8],
    ) -> Result<Layout, NewFileError>
        ensures layout { IfOk result (IsLayoutOf format
            (⟦<AnyDriver<S> as FormatDriverInstance>⟧.view (driver (image_of self.now))).size) }
        ensures names { IfOk result HasNoNames }
        ensures all { all ≡ true → IfOk result StoresAll }
        ensures sparse { all ≡ false → IsTrue
            (is_told ⟦<AnyDriver<S> as FormatDriverInstance>⟧.view self.now)
            → IfOk result (λ l. StoresData l.clusters (value_at
            (values ⟦<AnyDriver<S> as FormatDriverInstance>⟧.view self.now))) }
    {
        if all {
            return Ok(layout_of_size(self.alloc, format, self.image.size(), true, None)?);
        }
        layout_of(self.alloc, &self.image, format, None, buf)
    }

    /// Puts a new qcow2 file of the disk into a target, as [`write_image`] does.
    ///
    /// # Errors
    ///
    /// Those of [`write_image`].
    pub fn write_qcow2<T: Target>(
        &self,
        layout: &Layout,
        target: &mut T,
        buf: &mut [u8],
    ) -> Result<(), NewFileError>
        ensures same { T.made_for target.new ≡ T.made_for target.old }
        ensures size { OnOk result (size_of layout.now ≡ next_multiple_of
            (⟦<AnyDriver<S> as FormatDriverInstance>⟧.view (driver (image_of self.now))).size
            512) }
        ensures written { IfSome (T.contents target.old) (λ there. there ≡ [])
            → IsTrue
            (is_told ⟦<AnyDriver<S> as FormatDriverInstance>⟧.view self.now)
            → OnOk result (IsNewFileIn layout.now (value_at
            (values ⟦<AnyDriver<S> as FormatDriverInstance>⟧.view self.now))
            (T.contents target.old) (T.contents target.new)) }
    {
        write_image(self.alloc, &self.image, layout, target, buf)
    }
}

impl<S: NamedFile> Disk<S> {
    /// Tells which files end before bytes of the disk do, where each place of it is mapped and no
    /// cluster that shows there is compressed in a way that isn't offered. No cluster is decoded.
    ///
    /// # Errors
    ///
    /// [`Unread::File`] tells the file because of which a place isn't mapped, or that has a cluster
    /// which can't be read; [`Unread::Other`] is the image's own refusal, where none is known.
    pub fn short_files(&self) -> Result<ShortFiles<'_>, Unread<'_>> {
        let mut short = ShortFiles::new();
        match unoffered_in(&self.image, &mut short) {
            Ok(None) => Ok(short),
            Ok(Some((path, offset))) => Err(Unread::File(FaultyFile {
                path,
                cause: Cause::Cluster {
                    offset,
                    fault: ClusterFault::Zstd,
                },
            })),
            Err(cause) => Err(self.why(cause)),
        }
    }

    /// Why the disk wasn't read, of which the image's refusal is given: the first file that the host
    /// refused to read, the first compressed cluster that can't be decoded, or the first entry that
    /// is invalid. These are looked for now.
    pub fn why(&self, cause: Error) -> Unread<'_> {
        match cause_in(self.alloc, &self.image, cause) {
            Some(found) => Unread::File(found),
            None => Unread::Other(cause),
        }
    }

    /// Whether a file is one of the image, by its device and number.
    pub fn has_file(&self, file: FileStatus) -> bool {
        chain_has(&self.image, file)
    }
}

impl<S: Storage> Disk<S> {
    /// Writes bytes to the disk at that offset, as [`FormatAccess::write`] does. Only a disk that was
    /// opened for that, by [`open_to_write`], can be written to.
    ///
    /// # Errors
    ///
    /// Those of [`FormatAccess::write`]. Each byte of the range is old or new then, and all others
    /// are as they were.
    pub fn write(&mut self, source: &[u8], offset: u64) -> Result<(), Error>
        requires { (⟦<AnyDriver<S> as FormatDriverInstance>⟧.view
            (driver (image_of self.old))).pending ≡ None }
        ensures disk { IsTrue
            (keeps_data ⟦<AnyDriver<S> as FormatDriverInstance>⟧.view (image_of self.old))
            → WritesDisk (values ⟦<AnyDriver<S> as FormatDriverInstance>⟧.view self.old) offset
            source.now result (values ⟦<AnyDriver<S> as FormatDriverInstance>⟧.view self.new) }
        ensures written { IsWrite ⟦<AnyDriver<S> as FormatDriverInstance>⟧.view
            (image_of self.old) (image_of self.new) offset source.now result }
    {
        self.image.write(self.alloc, source, offset)
    }

    /// Writes that many zeroes to the disk at that offset, as [`FormatAccess::write_zeroes`] does.
    ///
    /// # Errors
    ///
    /// Those of [`FormatAccess::write_zeroes`]. Each byte of the range is old or 0 then, and all
    /// others are as they were.
    pub fn write_zeroes(&mut self, offset: u64, count: u64) -> Result<(), Error>
        requires { (⟦<AnyDriver<S> as FormatDriverInstance>⟧.view
            (driver (image_of self.old))).pending ≡ None }
        ensures disk { IsTrue
            (keeps_data ⟦<AnyDriver<S> as FormatDriverInstance>⟧.view (image_of self.old))
            → ZeroesDisk (values ⟦<AnyDriver<S> as FormatDriverInstance>⟧.view self.old) offset
            count result (values ⟦<AnyDriver<S> as FormatDriverInstance>⟧.view self.new) }
        ensures zeroed { IsZeroWrite ⟦<AnyDriver<S> as FormatDriverInstance>⟧.view Zero
            (image_of self.old) (image_of self.new) offset count result }
    {
        self.image.write_zeroes(self.alloc, offset, count)
    }

    /// Writes what is buffered. The disk stays as it is.
    ///
    /// # Errors
    ///
    /// Those of [`FormatAccess::flush`].
    pub fn flush(&mut self) -> Result<(), Error>
        ensures { IsFlushed ⟦<AnyDriver<S> as FormatDriverInstance>⟧.view
            ⟦<AnyDriver<S> as FormatDriverInstance>⟧.calls.flushed (image_of self.old)
            (image_of self.new) result }
    {
        self.image.flush()
    }
}

/// Opens the raw image of a path for writing, as [`open_image_to_write`] does. Say its format: else
/// a guest that writes to the disk chooses it.
///
/// # Errors
///
/// Those of [`open_image_to_write`].
pub fn open_to_write<H: WritableFiles>(
    host: &mut H,
    path: &str,
    how: Opening,
) -> Result<Disk<FileStorage<H::File>>, OpenError>
    ensures format { IfOk result (λ d. format_of d ≡ ImageFormat.Raw) }
    ensures shows { IfOk result (λ d. IfSome (H.contents host.old)
        (λ files. ShowsDisk how files path.now
        (values ⟦<AnyDriver<FileStorage<H::File>> as FormatDriverInstance>⟧.view d))) }
    ensures writable { IfOk result (λ d. IsToWrite
        ⟦<AnyDriver<FileStorage<H::File>> as FormatDriverInstance>⟧.view (image_of d)) }
    ensures others { IfSome (H.contents host.old)
        (λ files. SaysAlike (H.contents host.new) files path.now) }
    ensures refused { IfErr result (λ e. IfSome (H.contents host.old)
        (λ files. IsImageRefused true files (H.statuses host.old) (H.real_paths host.old)
        how.other_files how how.format path.now e)) }
{
    let image = open_image_to_write(host, path, how)?;
    Ok(Disk {
        alloc: (*host).alloc(),
        format: ImageFormat::Raw,
        image,
    })
}

/// Why a disk isn't read.
#[derive(Debug, Drop)]
pub enum Unread<'a> {
    /// Because of that file.
    File(FaultyFile<'a>),
    /// For another reason.
    Other(Error),
}

/// The file because of which an image wasn't read, where one is known.
fn cause_in<D: FileDriver>(
    alloc: Global,
    image: &FormatAccess<D>,
    cause: Error,
) -> Option<FaultyFile<'_>> {
    match cause {
        Error::Device => {
            let (path, answer) = refusal_in(image)?;
            Some(FaultyFile {
                path,
                cause: Cause::Host(answer),
            })
        }
        Error::InvalidData => {
            if let Some((path, offset, fault)) = stream_fault_in(alloc, image) {
                return Some(FaultyFile {
                    path,
                    cause: Cause::Cluster { offset, fault },
                });
            }
            let (path, fault) = invalid_entry_in(alloc, image)?;
            Some(FaultyFile {
                path,
                cause: Cause::Entry(fault),
            })
        }
        _ => None,
    }
}

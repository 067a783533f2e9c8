// SPDX-License-Identifier: MIT
//! Disk images in files, opened by their paths: raw files, VMDK descriptors with the files of
//! their extents, and qcow2 images with all of their backing files.
//!
//! [`open_image`](opener::open_image) takes a host, a path and an [`Opening`](opening::Opening),
//! and gives an image that is read like any other:
//!
//! ```ignore
//! let (format, image) = open_image(&host, "disk.qcow2", Opening::new())?;
//! let mut first = [0u8; 512];
//! image.read(alloc, &mut first, 0)?; // the first 512 bytes of the disk
//! ```
//!
//! The host implements [`Files`](files::Files): it finds files by their paths, and reads them.
//! Where it states what its files hold, the contract of `open_image` says what each byte of the
//! disk is. Images are only read, unless a raw one is opened for writing. Which of the files that
//! an image names are looked at is said by [`OtherFiles`](opening::OtherFiles): none, those in its
//! folder and below, or any. A host by way of [`Confined`](confined::Confined) is asked for no other
//! paths than those that it is confined to, whatever is done with it.
#![tactic(auto)]

pub mod alone;
mod backing_name;
pub mod confined;
mod door;
pub mod failure;
pub mod file;
pub mod files;
mod folder;
pub mod format;
pub mod gate;
pub mod guarded;
pub mod layer;
mod layered;
pub mod longest;
pub mod opener;
pub mod opening;
pub mod over;
pub mod recognised;
mod way;

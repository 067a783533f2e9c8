// SPDX-License-Identifier: MIT
//! Disks of images in files, whatever their formats.
//!
//! [`Disk::open`](disk::Disk::open) takes a host, a path and an
//! [`Opening`](imago_images::opening::Opening), and gives a [`Disk`](disk::Disk): what the image of
//! that path shows, through all of its layers. It is read, copied to a target, and compared with
//! another one. Where it can't be read, it tells which of its files is why.
//!
//! A disk is a type of its own, and not the image inside, so that whoever uses it needn't name the
//! drivers of all formats. Functions over any driver take the image by
//! [`image`](disk::Disk::image) or [`into_image`](disk::Disk::into_image).
#![tactic(auto)]

pub mod cause;
pub mod disk;
mod faulty;
mod layers;
pub mod named;
pub mod short;
mod streams;
pub mod system;

pub use faulty::invalid_entry_at;

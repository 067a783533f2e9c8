// SPDX-License-Identifier: MIT
//! What the commands of `imago-img` stand on: a host in which files are made, why a command isn't
//! done, how images are opened; and `info`, which tells what an image file is.
//!
//! The commands find files by a [`Host`](host::Host).
#![tactic(auto)]

mod bitmaps;
mod chain;
pub mod extension;
pub mod extents;
pub mod failure;
pub mod guarded;
pub mod host;
pub mod info;
pub mod json;
pub mod looked;
mod luks;
pub mod opening;
pub mod printed;
pub mod qcow2_info;
mod sizes;
mod snapshots;
pub mod sparse;
mod times;
mod vmdk_info;

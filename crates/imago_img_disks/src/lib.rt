// SPDX-License-Identifier: MIT
//! The commands of `imago-img` on whole disks: where the bytes of a disk stand, whether two disks
//! show the same, and the way of one into a raw file or a new qcow2 file.
#![tactic(auto)]

pub mod compare;
pub mod convert;
pub mod create;
mod held;
mod image;
mod lines;
pub mod map;
pub mod measure;
pub mod new_qcow2;
pub mod overwrite;
mod progress;
pub mod resize;
mod short;
mod text;
mod unfinished;

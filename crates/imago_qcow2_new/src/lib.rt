// SPDX-License-Identifier: MIT
//! New qcow2 files, written from their first byte to their last one.
//!
//! [`file`](mod@file) makes one of an image in one call. [`scan`] finds which clusters of a disk have
//! to be stored, [`layout`] decides where everything stands in the file, and [`write`](mod@write) puts
//! it into a target.
#![tactic(auto)]

mod counts;
mod entries;
pub mod extent;
pub mod extents;
pub mod file;
pub mod format;
pub mod grown;
mod header;
mod l2;
pub mod laws;
pub mod layout;
mod names;
pub mod scan;
mod words;
pub mod write;
mod zero;

// SPDX-License-Identifier: MIT
//! The driver of qcow2 images of versions 2 and 3, read-only.
//!
//! [`qcow2`] has the driver, [`header`] what a file's header says, [`fault`] why one is refused,
//! [`entry`] what the entries of its tables say, [`number`] the numbers that these are made of, and
//! [`memory`] which tables needn't be read.
#![tactic(auto)]

mod absent;
mod backing;
mod cluster;
mod compressed;
pub mod entry;
pub mod fault;
pub mod header;
pub mod laws;
pub mod layout;
mod map;
pub mod memory;
pub mod number;
pub mod qcow2;
mod qcow2_builder;
pub mod sound;
mod table;

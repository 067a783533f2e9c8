// SPDX-License-Identifier: MIT
//! What a file is recognised as whose format isn't said, and which format QEMU sees in it.
//!
//! [`signature`] has the marks by which files are recognised here. [`probe::qemu_takes_for`] takes
//! the first bytes of a file and its name, as the probes of QEMU 7.2 do, and [`laws`] says that no
//! others count. [`text`] is their rule for a VMDK descriptor.
#![tactic(auto)]

pub mod laws;
pub mod probe;
pub mod signature;
mod text;

// SPDX-License-Identifier: MIT
//! Drivers for tests: patterns of places that no storage holds, special bytes in blocks, a raw
//! image in blocks, a copy on the first write, and an enum of drivers; and gates.
//!
//! They keep the laws of the driver interface by proof, so that a test of what stands above them
//! tests that alone.
#![tactic(auto)]

pub mod choppy;
pub mod copy_once;
pub mod gates;
pub mod making;
pub mod pattern;
pub mod test_driver;

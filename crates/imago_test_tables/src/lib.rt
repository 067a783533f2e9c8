// SPDX-License-Identifier: MIT
//! A driver for tests: a disk held as a table over two storages.
//!
//! It keeps the laws of the driver interface by proof, so that a test of what stands above it tests
//! that alone.
#![tactic(auto)]

mod pair;
pub mod sparse;
pub mod table;

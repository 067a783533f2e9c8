// SPDX-License-Identifier: MIT
//! Image formats, under the paths of the Rust crate.

pub use crate::access;
pub use imago_drivers::drivers::{Format, PreallocateMode};
pub use imago_drivers::{builder, drivers, gate};

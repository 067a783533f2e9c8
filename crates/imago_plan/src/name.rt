// SPDX-License-Identifier: MIT
//! Names of files in a descriptor.
pub use imago_file::name::{path_beside, stays_below};

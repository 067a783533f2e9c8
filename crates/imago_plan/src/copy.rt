// SPDX-License-Identifier: MIT
//! What the bytes of a disk are put into.
pub use imago_copy::target::Target;

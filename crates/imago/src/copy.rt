// SPDX-License-Identifier: MIT
//! What a disk is made of, and its bytes copied and compared.

pub use imago_copy::compare::first_difference;
pub use imago_copy::copy::{CopyError, copy_disk};
pub use imago_copy::runs::{Kind, Run, Runs};
pub use imago_copy::target::Target;

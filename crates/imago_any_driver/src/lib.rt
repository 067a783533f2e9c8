// SPDX-License-Identifier: MIT
//! One driver for images of any format.
//!
//! [`any::AnyDriver`] is the driver of a raw image, a VMDK image, a copy-on-write disk or a qcow2
//! image, so that the layers of one image can have different formats.
#![tactic(auto)]

pub mod any;

// SPDX-License-Identifier: MIT
//! The driver of VMDK images that a text descriptor describes.
//!
//! [`line`] says what one line of a descriptor means, [`descriptor`] what all of them mean
//! together, and [`vmdk`] has the driver.
#![tactic(auto)]

pub mod descriptor;
pub mod laws;
pub mod line;
pub mod vmdk;
mod vmdk_builder;

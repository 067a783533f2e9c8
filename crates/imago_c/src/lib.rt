// SPDX-License-Identifier: MIT
//! The layer for C, and for Rust by way of C: numbers, slices of bytes and the handles of images
//! cross, nothing else.
//!
//! `include/imago.h` declares what is exported here, and says who owns what. A result is
//! [`DONE`](code::DONE), or the number of a refusal.
#![tactic(auto)]

pub mod code;
mod front;
pub mod handle;
pub mod image;
pub mod opaque;
pub mod opening;
pub mod plan;
pub mod reading;
mod record;
pub mod script;
pub mod vmdk;

// SPDX-License-Identifier: MIT
//! The interface of a format driver, and the driver of raw images.
//!
//! A driver shows a disk: a layer of places, each a byte of one of its storages, a zero, a special
//! byte, or what the layer below has there. [`drivers::FormatDriverInstance`] says what each of its
//! calls does to that layer, and what a refused one leaves. [`raw::Raw`] is the driver whose disk
//! is its storage.
#![tactic(auto)]

pub mod builder;
pub mod drivers;
pub mod format;
pub mod gate;
pub mod laws;
pub mod layer;
pub mod mapping;
pub mod raw;
mod raw_builder;
pub mod stored;

// SPDX-License-Identifier: MIT
//! Copy-on-write disks: a disk in blocks, each of which leads to the layer below until it is
//! written.
//!
//! [`table::Table`] says what each block is, and which data blocks are free.
#![tactic(auto)]

mod block;
mod block_bytes;
mod commit;
mod copy;
pub mod cow;
mod cut;
mod entries;
mod free;
mod grow;
mod guest;
mod guest_blocks;
pub mod laws;
mod map;
mod named;
mod prepare_block;
mod room;
pub mod table;
mod zero;

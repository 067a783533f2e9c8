// SPDX-License-Identifier: MIT
//! Images that are opened without any input of their own: they ask for bytes, and their caller
//! gives them.
//!
//! [`session`] opens an image so, and says where each byte of its disk stands. [`loaded`] is a file
//! of which some blocks are in memory, as a storage. [`permitted`] is what an image may contain.
//! [`laws`] are laws of the layers that it opens.
#![tactic(auto)]

mod block;
pub mod compressed;
mod extents;
pub mod laws;
mod layer;
pub mod loaded;
mod loading;
pub mod permitted;
pub mod session;
mod tables;

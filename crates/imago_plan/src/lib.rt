// SPDX-License-Identifier: MIT
//! Where the bytes of an image's disk stand.
//!
//! [`plan`] lists the pieces of a disk: zeroes, or bytes of one storage. A plan is right whatever
//! the storages hold, so an image may be opened over storages that are empty.
#![tactic(auto)]

pub mod copy;
pub mod laws;
pub mod name;
pub mod piece;
pub mod plan;

// SPDX-License-Identifier: MIT
//! The check of a qcow2 file: how often each of its clusters is used, against its reference count.
//!
//! [`check`] has the check, and [`fault`] what it finds and why a file can't be checked.
#![tactic(auto)]

mod bitmaps;
mod blocks;
pub mod check;
mod counts;
mod entry;
pub mod fault;
mod head;
mod shape;
mod snapshots;
mod tables;
mod tally;

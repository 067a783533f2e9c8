// SPDX-License-Identifier: MIT
//! Storages for tests: one that fails where a test says so, one that counts what reaches it, one
//! that records it, one whose reads can't be relied on, one that can be created, and zeroes in
//! blocks.
//!
//! They keep the laws of a storage by proof, so that a test of what stands above them tests that
//! alone.
#![tactic(auto)]

pub mod counting;
pub mod created;
pub mod faulty;
pub mod forgetful;
pub mod recording;
pub mod wide_null;

// SPDX-License-Identifier: MIT
//! Storages, and requests of any alignment on them.
//!
//! A storage is a list of bytes behind an interface of aligned calls, [`storage::Storage`].
//! [`ext::StorageExt`] makes any range of it readable and writable, and says what a refused call
//! leaves.
#![tactic(auto)]

pub mod align;
mod bytes;
pub mod error;
pub mod ext;
pub mod laws;
pub mod lent;
pub mod mem;
pub mod null;
pub mod options;
mod request;
pub mod storage;
mod zeroes;

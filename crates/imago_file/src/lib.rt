// SPDX-License-Identifier: MIT
//! Storages over files.
//!
//! [`host`] has what an open file can do, with the system's files as one implementation and files
//! in memory as another. [`file`] is a storage over one, [`opening`] opens and creates it by
//! options, and [`gate`] opens what images name. [`name`] says which names lead out of a folder.
#![tactic(auto)]

pub mod file;
pub mod gate;
pub mod host;
pub mod laws;
pub mod name;
pub mod opening;
mod size;

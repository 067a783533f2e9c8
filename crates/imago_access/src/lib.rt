// SPDX-License-Identifier: MIT
//! Images over chains of layers.
//!
//! An [`access::FormatAccess`] has a driver and, below it, another image that the driver may refer
//! to, and so on to any depth. It maps, reads and writes the disk that the whole chain shows.
//! [`run::run`] makes a list of calls on it.
#![tactic(auto)]

pub mod access;
mod alignments;
mod chain;
mod discard;
mod flush;
pub mod laws;
pub mod mapping;
mod prepare;
mod read;
pub mod reader;
mod resize;
pub mod run;
pub mod text;
mod write;
mod zero;

// SPDX-License-Identifier: MIT
//! Tests of the program `imago-img`, over a host whose files are in memory.
#![tactic(auto)]

pub mod asked;
pub mod memory_host;
pub mod pair_host;
#[cfg(test)]
mod tests;

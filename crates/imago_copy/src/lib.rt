// SPDX-License-Identifier: MIT
//! What an image's disk is made of, and its bytes copied and compared.
//!
//! [`Runs`](runs::Runs) tells what a disk is made of, run by run, and
//! [`LayerRuns`](layers::LayerRuns) also of which layer each run is;
//! [`data_count`](ends::data_count) tells where the data of one ends.
//! [`copy_disk`](copy::copy_disk) puts its bytes into a [`Target`](target::Target), and
//! [`first_difference`](compare::first_difference) tells where two disks differ first. All go by
//! the calls of [`FormatAccess`](imago_access::access::FormatAccess) alone, and so over any driver.
#![tactic(auto)]

pub mod allocation;
pub mod compare;
pub mod copy;
pub mod ends;
pub mod layers;
pub mod runs;
mod stored;
pub mod target;
mod way;

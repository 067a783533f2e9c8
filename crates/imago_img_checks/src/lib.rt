// SPDX-License-Identifier: MIT
//! The commands `check`, which looks for the faults of an image file, and `vet`, which tells whether
//! one from a stranger is safe to hand on.
#![tactic(auto)]

pub mod check;
mod check_qcow2;
mod check_vmdk;
mod finding;
pub mod vet;
mod vet_qcow2;
mod vet_seen;
mod vet_tables;
mod vet_vmdk;

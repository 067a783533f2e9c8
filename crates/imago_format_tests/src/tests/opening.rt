// SPDX-License-Identifier: MIT
//! Builders and gates: what is opened and created, by which options, and what a refusal leaves.
//!
//! A test's run refuses one request for memory at most. So what is refused is tried again, and has
//! its memory then.
mod builders;
mod creation;
mod gates;
mod permissive;
mod set_up;

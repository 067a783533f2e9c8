// SPDX-License-Identifier: MIT
//! Storages over files. What no clause says: each public function once, what is kept of a refusal,
//! and what a refused write leaves of a file that tells nothing.
//!
//! Each test passes as well where one of its requests for memory is refused.

mod mute_file;
mod named_files;
mod names;
mod openings;
mod set_up;
mod storages;
mod torn_file;

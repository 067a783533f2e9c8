// SPDX-License-Identifier: MIT
//! What no clause says: worked examples, printed text, each public function once, and what a
//! refusal leaves.
//!
//! Each test passes as well where one of its requests for memory is refused.
mod cow;
mod opening;
mod vmdk;

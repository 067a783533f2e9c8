// SPDX-License-Identifier: MIT
//! What VMDK descriptors are opened as, and what their images answer.
//!
//! A test's run refuses one request for memory at most. So what is refused is tried again, and has
//! its memory then.
mod builders;
mod descriptors;
mod extents;
mod set_up;

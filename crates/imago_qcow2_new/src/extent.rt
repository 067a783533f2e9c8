// SPDX-License-Identifier: MIT
//! Parts of a space of bytes. All numbers are in bytes.

/// A part that is stored.
#[derive(Clone, Copy, Debug, PartialEq, Eq)]
pub struct Extent {
    /// Where it begins in the space.
    pub start: u64,
    /// How long it is.
    pub count: u64,
    /// How much of the space is stored before it.
    pub before: u64,
}

/// What stands from an offset of a space on.
#[derive(Clone, Copy, Debug, PartialEq, Eq)]
pub struct Part {
    /// Whether it is stored.
    pub is_stored: bool,
    /// How much of the space is stored before it.
    pub before: u64,
    /// How many bytes of the space are so, at least.
    pub count: u64,
}

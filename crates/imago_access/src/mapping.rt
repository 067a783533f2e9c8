// SPDX-License-Identifier: MIT
//! What a range of an image is, resolved through its layers.
ghost use Rattle.std.specs.Prelude.{◌≡◌, ◌↔◌, IsTrue, Some, true};
ghost use Rattle.imago_access.specs.declared.mapping.Mapping.TheVariants as M;
ghost use Rattle.imago_access.specs.Text.{mapping_text};
ghost use Rattle.imago_access.specs.Resolved.{IsEndOfImage};

use std::fmt::{self, Formatter, Write};

/// What a range of an image is. Offsets are in bytes.
#[derive(Clone, Copy, Debug, PartialEq, Eq)]
pub enum Mapping {
    /// Bytes of a storage of one layer's driver.
    Raw {
        /// The layer's depth: 0 at the top. `usize::MAX` stands for each depth from there on.
        layer: usize,
        /// The storage's index in that layer's driver.
        storage: usize,
        /// Where the range begins in the storage.
        offset: u64,
        /// Whether the range may be written there: each layer on the way says so.
        writable: bool,
    },
    /// Zeroes that stand in no storage.
    Zero {
        /// Whether the top layer says so itself, and doesn't only lack data there.
        explicit: bool,
    },
    /// Nothing: the offset is past the end of the top layer.
    Eof,
    /// Bytes that one layer's driver makes up.
    Special {
        /// The layer's depth: 0 at the top.
        layer: usize,
        /// Where the range begins for that driver.
        offset: u64,
    },
}

impl Mapping {
    /// Whether the offset is past the end of the image.
    pub fn is_eof(&self) -> bool
        ensures { IsTrue result ↔ IsEndOfImage self.now }
    {
        matches!(self, Mapping::Eof)
    }

    /// Whether the range is explicit zeroes: those of the top layer, which stand in no storage.
    pub(crate) fn is_explicit_zero(&self) -> bool
        ensures { IsTrue result ↔ (self.now ≡ M.Zero true) }
    {
        matches!(self, Mapping::Zero { explicit: true })
    }
}

impl fmt::Display for Mapping {
    ghost output = { λ m. Some (mapping_text m) };

    fn fmt<W: Write>(&self, f: &mut Formatter<W>) -> fmt::Result {
        match self {
            Mapping::Raw {
                layer,
                storage,
                offset,
                writable,
            } => {
                let access = if *writable { "rw" } else { "ro" };
                write!(f, "{layer}/{storage}:0x{offset:x}/{access}")
            }
            Mapping::Zero { explicit } => {
                let kind = if *explicit { "explicit" } else { "unallocated" };
                write!(f, "<zero:{kind}>")
            }
            Mapping::Eof => write!(f, "<eof>"),
            Mapping::Special { layer, offset } => write!(f, "<special:{layer}:0x{offset:x}>"),
        }
    }
}

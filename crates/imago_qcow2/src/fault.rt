// SPDX-License-Identifier: MIT
//! Why the header of a file is refused, and why an image isn't opened within a limit.
ghost use Rattle.std.specs.Prelude.{◌≡◌};
ghost use Rattle.imago_qcow2.specs.Fault.{error_of};
ghost use Rattle.imago_qcow2.specs.declared.fault.OpenFault.TheVariants.{Driver};
ghost use Rattle.imago_storage.specs.declared.error.Error.TheVariants.{Memory};

use imago_storage::error;
use std::alloc::{AllocError, AllocFailed};
use thiserror::Error;

/// Why the header of a file is refused.
#[derive(Clone, Copy, Debug, PartialEq, Eq, Error)]
pub enum HeaderFault {
    /// The file is too short for one, or begins otherwise.
    #[error("it isn't a qcow2 image, or ends within its header")]
    NoImage,
    /// Another version than 2 and 3.
    #[error("the header says version {0}, which isn't supported")]
    Version(u32),
    /// Any encryption.
    #[error("the header says encryption, which isn't supported")]
    Encryption,
    /// Incompatible features that aren't supported, each by its bit. The lowest one is told.
    #[error("the header says {feature}, which isn't supported", feature = lowest(*.0))]
    Features(u64),
    /// A cluster of less than 512 bytes or more than 2 MiB, by the base 2 logarithm.
    #[error("the header says clusters of 2^{0} bytes, which is out of range")]
    ClusterBits(u32),
    /// Its own length.
    #[error("the header's own length is invalid")]
    OwnLength,
    /// How many bits a reference count has.
    #[error("the header's width of reference counts is invalid")]
    RefcountWidth,
    /// Clusters that are compressed by neither deflate nor Zstandard, by the number that says how.
    #[error("the header says compression type {0}, which isn't supported")]
    CompressionType(u8),
    /// How clusters are compressed: the number for it doesn't fit the feature that says whether it
    /// is 0.
    #[error("the header's compression type contradicts its features")]
    Compression,
    /// A name that is too long, or behind the first cluster.
    #[error("the header's name of a backing file passes its room")]
    BackingName,
    /// An L1 table that hasn't an entry for each L2 table of the disk.
    #[error("the header says an L1 table that is too short for the disk")]
    ShortTable,
    /// An L1 table that isn't at a cluster's start.
    #[error("the header says an L1 table that doesn't begin at a cluster's start")]
    UnevenTable,
    /// An L1 table that isn't in the file.
    #[error("the header says an L1 table that passes the file's end")]
    TableBehindEnd,
}

/// An incompatible feature that isn't supported.
#[derive(Clone, Copy, Debug, PartialEq, Eq, Error)]
enum Feature {
    /// The image is marked as corrupt.
    #[error("corrupt")]
    Corrupt,
    /// The data stand in a file of their own.
    #[error("external data file")]
    ExternalData,
    /// L2 entries have subclusters.
    #[error("extended L2 entries")]
    ExtendedEntries,
    /// One that has no name, by its bit.
    #[error("unknown bit {0}")]
    Unknown(u32),
}

/// The feature of the lowest bit that is set.
fn lowest(features: u64) -> Feature {
    match features.trailing_zeros() {
        1 => Feature::Corrupt,
        2 => Feature::ExternalData,
        4 => Feature::ExtendedEntries,
        bit => Feature::Unknown(bit),
    }
}

impl HeaderFault {
    /// What the image's opening answers for this fault.
    pub fn error(self) -> error::Error
        ensures { result ≡ error_of self }
    {
        match self {
            HeaderFault::Version(_)
            | HeaderFault::Encryption
            | HeaderFault::Features(_)
            | HeaderFault::CompressionType(_) => error::Error::Unsupported,
            HeaderFault::NoImage
            | HeaderFault::ClusterBits(_)
            | HeaderFault::OwnLength
            | HeaderFault::RefcountWidth
            | HeaderFault::Compression
            | HeaderFault::BackingName
            | HeaderFault::ShortTable
            | HeaderFault::UnevenTable
            | HeaderFault::TableBehindEnd => error::Error::InvalidData,
        }
    }
}

/// Why an image isn't opened within a limit on its tables.
#[derive(Clone, Copy, Debug, PartialEq, Eq, Error)]
pub enum OpenFault {
    /// What an opening without a limit is refused for too.
    #[error("{0}")]
    Driver(error::Error),
    /// The tables of the image have more bytes than the limit.
    #[error("the image's tables have more bytes than the limit allows")]
    TablesTooLarge,
}

impl From<error::Error> for OpenFault {
    ghost from_gives = { λ e fault. fault ≡ Driver e };

    fn from(error: error::Error) -> OpenFault {
        OpenFault::Driver(error)
    }
}

impl<T: Drop> From<AllocFailed<T>> for OpenFault {
    ghost from_gives = { λ _ fault. fault ≡ Driver Memory };

    fn from(_refused: AllocFailed<T>) -> OpenFault {
        OpenFault::Driver(error::Error::Memory)
    }
}

impl From<AllocError> for OpenFault {
    ghost from_gives = { λ _ fault. fault ≡ Driver Memory };

    fn from(_refused: AllocError) -> OpenFault {
        OpenFault::Driver(error::Error::Memory)
    }
}

// SPDX-License-Identifier: MIT
//! What a new file is to be, and why it can't be.

use std::alloc::{AllocError, AllocFailed};
use thiserror::Error;

/// The versions of the format.
#[derive(Clone, Copy, Debug, PartialEq, Eq)]
pub enum Version {
    /// Version 2, which `compat=0.10` asks for.
    Two,
    /// Version 3, which `compat=1.1` asks for.
    Three,
}

/// What clusters of the disk show that aren't stored.
#[derive(Clone, Copy, Debug, PartialEq, Eq)]
pub enum Gaps {
    /// What the layer below has, or zero where there is none.
    Absent,
    /// Zero, whatever the layer below has. Version 2 doesn't offer it.
    Zero,
}

/// The layer below.
#[derive(Clone, Copy)]
pub struct Backing<'a> {
    /// The name of its file: at most 1023 bytes.
    pub file: &'a str,
    /// The name of its format: at most 1023 bytes.
    pub format: &'a str,
}

/// What a new file is to be.
#[derive(Clone, Copy, Debug, PartialEq, Eq)]
pub struct Format {
    /// The version of the format.
    pub version: Version,
    /// The base 2 logarithm of a cluster's length in bytes: 9 to 21.
    pub cluster_bits: u32,
    /// What clusters of the disk show that aren't stored.
    pub gaps: Gaps,
}

/// Why there can be no such file.
#[derive(Clone, Copy, Debug, PartialEq, Eq, Error)]
pub enum FormatError {
    /// A cluster has less than 512 bytes, or more than 2 MiB.
    #[error("a cluster has 512 bytes to 2 MiB")]
    ClusterBits,
    /// The disk has more than 2^62 bytes, or its L1 table would have more than 4194304 entries, or
    /// the file more than 2^56 bytes.
    #[error("the disk is too large for clusters of this length")]
    TooLarge,
    /// The names of the backing file and of its format have more than 1023 bytes, or don't fit
    /// into the first cluster.
    #[error("the backing file's name is too long")]
    LongName,
    /// Version 2 has no zero clusters.
    #[error("version 2 has no zero clusters")]
    NoZeroes,
    /// What is to be stored isn't made of clusters of the disk.
    #[error("what is to be stored isn't made of clusters of the disk")]
    OtherClusters,
    /// Memory was refused.
    #[error("out of memory")]
    Memory,
}

impl From<AllocError> for FormatError {
    fn from(_refused: AllocError) -> FormatError {
        FormatError::Memory
    }
}

impl<T: Drop> From<AllocFailed<T>> for FormatError {
    fn from(_refused: AllocFailed<T>) -> FormatError {
        FormatError::Memory
    }
}

impl Version {
    ghost use Rattle.std.specs.Prelude.{◌≡◌, ◌≤◌};
    ghost use Rattle.imago_qcow2_new.specs.Header.{words_of, number_of};

    /// How many words of 8 bytes the header has.
    pub(crate) fn words(self) -> u64
        ensures { result ≡ words_of self }
    {
        match self {
            Version::Two => 9,
            Version::Three => 14,
        }
    }

    /// Its number.
    pub(crate) fn number(self) -> u64
        ensures value { result ≡ number_of self }
        ensures least { 2 ≤ result }
    {
        match self {
            Version::Two => 2,
            Version::Three => 3,
        }
    }
}

impl Gaps {
    ghost use Rattle.std.specs.Prelude.{◌≡◌, ◌≤◌};
    ghost use Rattle.imago_qcow2_new.specs.Layout.{gap_entry};

    /// The L2 entry of a cluster that isn't stored.
    pub(crate) fn entry(self) -> u64
        ensures value { result ≡ gap_entry self }
        ensures most { result ≤ 1 }
    {
        match self {
            Gaps::Absent => 0,
            Gaps::Zero => 1,
        }
    }
}

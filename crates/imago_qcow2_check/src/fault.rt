// SPDX-License-Identifier: MIT
//! What a check finds, and why a file can't be checked.
ghost use Rattle.std.specs.Prelude.{◌≡◌};
ghost use Rattle.imago_qcow2_check.specs.Verdicts.{status_of};

use imago_qcow2::fault::HeaderFault;
use imago_storage::error;
use std::alloc::{AllocError, AllocFailed};
use std::fmt::{self, Display};
use thiserror::Error;

/// A part of a file whose entries name other parts.
#[derive(Clone, Copy, Debug, PartialEq, Eq)]
pub enum Table {
    /// The L1 table of the image or of a snapshot.
    L1,
    /// An L2 table.
    L2,
    /// The table of snapshots.
    Snapshots,
    /// The table of blocks of reference counts.
    CountBlocks,
    /// The directory of bitmaps.
    Bitmaps,
    /// The table of a bitmap.
    Bitmap,
    /// The header.
    Header,
}

/// A fault of a file. All offsets and lengths are in bytes of the file.
#[derive(Clone, Copy, Debug, PartialEq, Eq)]
pub enum Fault {
    /// The entry of a table at that offset is invalid: bits that are reserved are set, or what it
    /// names doesn't begin where a cluster does, or is a table that the file doesn't hold.
    InvalidEntry {
        /// The table that the entry belongs to.
        table: Table,
        /// Where the entry stands.
        at: u64,
    },
    /// What the entry of a table at that offset names passes the end of the file.
    PastEnd {
        /// The table that the entry belongs to.
        table: Table,
        /// Where the entry stands.
        at: u64,
        /// Where what it names begins.
        start: u64,
        /// How long that is.
        length: u64,
    },
    /// The copied bit of the entry at that offset disagrees with the reference count of what it
    /// names: it is set exactly where that is 1, and never for a compressed cluster.
    CopiedBit {
        /// The table that the entry belongs to.
        table: Table,
        /// Where the entry stands.
        at: u64,
    },
    /// The entry of the table of snapshots at that offset has more extra data than QEMU reads: 1024
    /// bytes.
    LongExtra {
        /// Where the entry stands.
        at: u64,
        /// How many bytes of extra data it has.
        length: u32,
    },
    /// The table of snapshots is longer than QEMU reads: 64 MiB.
    LongSnapshots {
        /// Where the table begins.
        start: u64,
        /// How long it is.
        length: u64,
    },
    /// The block of reference counts that the entry at that offset names is used for something
    /// else, or named twice.
    SharedBlock {
        /// Where the entry stands.
        at: u64,
        /// Where the block begins.
        start: u64,
    },
    /// A cluster is used more often than its reference count says.
    Overused {
        /// Where the cluster begins.
        at: u64,
        /// Its reference count.
        count: u32,
        /// How often it is used.
        uses: u32,
    },
    /// A cluster is used less often than its reference count says.
    Leaked {
        /// Where the cluster begins.
        at: u64,
        /// Its reference count, or 2^32 - 1 where it is greater.
        count: u32,
        /// How often it is used.
        uses: u32,
    },
}

impl Display for Table {
    fn fmt<W: fmt::Write>(&self, f: &mut fmt::Formatter<W>) -> fmt::Result {
        f.write_str(match self {
            Table::L1 => "an L1 table",
            Table::L2 => "an L2 table",
            Table::Snapshots => "the snapshot table",
            Table::CountBlocks => "the refcount table",
            Table::Bitmaps => "the bitmap directory",
            Table::Bitmap => "a bitmap's table",
            Table::Header => "the header",
        })
    }
}

/// How often a cluster is used, in words.
#[derive(Clone, Copy)]
struct Uses(u32);

impl Display for Uses {
    fn fmt<W: fmt::Write>(&self, f: &mut fmt::Formatter<W>) -> fmt::Result {
        match self.0 {
            0 => f.write_str("isn't used"),
            1 => f.write_str("is used once"),
            2 => f.write_str("is used twice"),
            count => write!(f, "is used {count} times"),
        }
    }
}

/// A fault is told without a full stop, and its offsets are in bytes of the file.
impl Display for Fault {
    fn fmt<W: fmt::Write>(&self, f: &mut fmt::Formatter<W>) -> fmt::Result {
        match *self {
            Fault::InvalidEntry { table, at } => {
                write!(f, "the entry of {table} at {at} is invalid")
            }
            Fault::PastEnd {
                table,
                at,
                start,
                length,
            } => fmt_past_end(f, table, at, start, length),
            Fault::CopiedBit { table, at } => write!(
                f,
                "the copied bit of the entry of {table} at {at} disagrees with the refcount"
            ),
            Fault::LongExtra { at, length } => write!(
                f,
                "the entry of the snapshot table at {at} has {length} bytes of extra data, and 1024 \
                is the limit"
            ),
            Fault::LongSnapshots { start, length } => write!(
                f,
                "the snapshot table at {start} has {length} bytes, and 64 MiB is the limit"
            ),
            Fault::SharedBlock { at, start } => write!(
                f,
                "the refcount block at {start}, which the refcount table names at {at}, is used \
                more than once"
            ),
            Fault::Overused { at, count, uses } => {
                let uses = Uses(uses);
                write!(
                    f,
                    "the cluster at {at} {uses}, and its refcount is only {count}"
                )
            }
            Fault::Leaked { at, count, uses } => {
                let uses = Uses(uses);
                write!(
                    f,
                    "the cluster at {at} {uses}, and its refcount is {count}: a leak"
                )
            }
        }
    }
}

/// Tells that what an entry names passes the end of the file. Of an L1 table its own place is told.
fn fmt_past_end<W: fmt::Write>(
    f: &mut fmt::Formatter<W>,
    table: Table,
    at: u64,
    start: u64,
    length: u64,
) -> fmt::Result {
    match table {
        Table::L1 => write!(
            f,
            "the L1 table of {length} bytes at {start} passes the file's end"
        ),
        Table::Header => write!(
            f,
            "the header names at {at} a table of {length} bytes at {start}, which passes the file's \
            end"
        ),
        _ => write!(
            f,
            "the entry of {table} at {at} names {length} bytes at {start}, which pass the file's end"
        ),
    }
}

/// What is said of a file that was checked.
#[derive(Clone, Copy, Debug, PartialEq, Eq)]
pub enum Verdict {
    /// Nothing is wrong.
    Faultless,
    /// A cluster is used more often than its count says, or an entry is invalid.
    Corrupt,
    /// Clusters are used less often than their counts say, and nothing else is wrong.
    Leaks,
}

impl Verdict {
    /// The exit status of `qemu-img check` for it.
    pub fn status(self) -> u8
        ensures { result ≡ status_of self }
    {
        match self {
            Verdict::Faultless => 0,
            Verdict::Corrupt => 2,
            Verdict::Leaks => 3,
        }
    }
}

/// Why a file can't be checked.
#[derive(Clone, Copy, Debug, PartialEq, Eq, Error)]
pub enum CheckError {
    /// The storage, or memory.
    #[error("{0}")]
    Storage(error::Error),
    /// The header.
    #[error("{0}")]
    Header(HeaderFault),
    /// What is kept in memory has more bytes than the limit.
    #[error("the check needs more memory than the limit allows")]
    TooLarge,
    /// The L1 table has more than 32 MiB.
    #[error("the header says an L1 table of more than 32 MiB")]
    LongTable,
    /// The table of blocks of reference counts isn't at a cluster's start, or has more than 8 MiB.
    #[error("the header describes an invalid table of reference counts")]
    CountTable,
    /// The table of snapshots passes the file's end, has more than 65536 entries, or isn't at a
    /// cluster's start.
    #[error("the header describes an invalid snapshot table")]
    SnapshotTable,
    /// A cluster is used more than 2^32 - 2 times.
    #[error("a cluster is used too often to count")]
    TooManyUses,
    /// The directory of bitmaps isn't at a cluster's start, has no entry, more than 65535 of them or
    /// more bytes than these may have, or its entries end before it or behind it.
    #[error("the header describes an invalid bitmap directory")]
    BitmapDirectory,
    /// The entry of the directory of bitmaps at that offset, in bytes, says a bitmap that can't be
    /// meant, or has flags or extra data that aren't known.
    #[error("the entry of the bitmap directory at {0} is invalid")]
    InvalidBitmap(u64),
    /// The tables of all bitmaps have more than 64 MiB.
    #[error("the tables of the bitmaps have more than 64 MiB")]
    BitmapTables,
    /// Autoclear features that aren't known, which may use clusters.
    #[error("the header says autoclear features that aren't known")]
    UnknownFeatures(u64),
    /// A header extension of a type that isn't known, which may use clusters.
    #[error("the header has an extension of the type {0:#010x}, which isn't known")]
    UnknownExtension(u32),
    /// Header extensions that pass their room.
    #[error("the header's extensions pass their room")]
    Extensions,
}

impl From<error::Error> for CheckError {
    fn from(error: error::Error) -> CheckError {
        CheckError::Storage(error)
    }
}

impl<T: Drop> From<AllocFailed<T>> for CheckError {
    fn from(_refused: AllocFailed<T>) -> CheckError {
        CheckError::Storage(error::Error::Memory)
    }
}

impl From<AllocError> for CheckError {
    fn from(_refused: AllocError) -> CheckError {
        CheckError::Storage(error::Error::Memory)
    }
}

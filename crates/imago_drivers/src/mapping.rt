// SPDX-License-Identifier: MIT
//! What a range of a layer is, and where the data of a range is to be written.
ghost use Rattle.std.specs.Prelude.{◌≡◌, Option, Some, None, is_none};
ghost use Rattle.std.specs.Option.{option_copied};
ghost use Rattle.imago_drivers.specs.Parts.{storage_of, offset_of, length_of, state_of, number_of};

use std::fmt::{self, Formatter, Write};

/// What a range of a layer is. Offsets are in bytes.
#[derive(Clone, Copy, Debug, PartialEq, Eq)]
pub enum ShallowMapping {
    /// Bytes of a storage of the driver.
    Raw {
        /// The storage's index in the driver.
        storage: usize,
        /// Where the range begins in the storage.
        offset: u64,
        /// Whether the range may be written there.
        writable: bool,
    },
    /// What the layer below has there; an unallocated zero where there is none.
    Indirect {
        /// Where the range begins in the layer below.
        offset: u64,
        /// Whether the range may be written there.
        writable: bool,
    },
    /// Zeroes that stand in no storage.
    Zero {
        /// Whether the image says so itself, and doesn't only lack data there.
        explicit: bool,
    },
    /// Nothing: the offset is past the end.
    Eof,
    /// Bytes that the driver makes up, read by
    /// [`readv_special`](crate::drivers::FormatDriverInstance::readv_special).
    Special {
        /// Where the range begins for that call.
        offset: u64,
    },
}

/// What a prepared mapping of a driver of any format holds until it is committed: its number among
/// those that the driver prepared. Two drivers count alike, so it doesn't tell whose the mapping
/// is.
#[derive(Clone, Copy, Debug, PartialEq, Eq)]
pub struct Ticket {
    number: u64,
}

impl Ticket {
    /// The ticket of that number. For drivers.
    pub fn new(number: u64) -> Self
        ensures { number_of result ≡ «number» }
    {
        Ticket { number }
    }

    /// Its number. For drivers.
    pub fn number(self) -> u64
        ensures { result ≡ number_of self }
    {
        self.number
    }
}

/// Where the data of a range is to be written: bytes of a storage of the driver, which show their
/// data at once, or, with a state, from commit on.
///
/// It can't be dropped: it has to be spent by
/// [`commit_data_mapping`](crate::drivers::FormatDriverInstance::commit_data_mapping) or
/// [`cancel_data_mapping`](crate::drivers::FormatDriverInstance::cancel_data_mapping).
pub struct PreparedDataMapping<St> {
    pub(crate) storage: usize,
    pub(crate) offset: u64,
    pub(crate) length: u64,
    pub(crate) state: Option<St>,
}

impl<St> PreparedDataMapping<St> {
    /// Bytes that are mapped already: data written there shows at once, and there is nothing to
    /// commit.
    pub fn existing(storage: usize, offset: u64, count: u64) -> Self
        ensures storage { storage_of result ≡ «storage» }
        ensures offset { offset_of result ≡ «offset» }
        ensures length { length_of result ≡ count }
        ensures state { state_of result ≡ None }
    {
        PreparedDataMapping {
            storage,
            offset,
            length: count,
            state: None,
        }
    }

    /// Bytes that show their data once the mapping is committed.
    pub fn to_commit(storage: usize, offset: u64, count: u64, state: St) -> Self
        ensures storage { storage_of result ≡ «storage» }
        ensures offset { offset_of result ≡ «offset» }
        ensures length { length_of result ≡ count }
        ensures state { state_of result ≡ Some «state» }
    {
        PreparedDataMapping {
            storage,
            offset,
            length: count,
            state: Some(state),
        }
    }

    /// The index of the storage in its driver.
    pub fn storage(&self) -> usize
        ensures { result ≡ storage_of self.now }
    {
        self.storage
    }

    /// Where the range begins in the storage, in bytes.
    pub fn offset(&self) -> u64
        ensures { result ≡ offset_of self.now }
    {
        self.offset
    }

    /// The range's length in bytes.
    pub fn length(&self) -> u64
        ensures { result ≡ length_of self.now }
    {
        self.length
    }

    /// Whether there is nothing to commit, so that other calls need not wait for it.
    pub fn is_nonblocking(&self) -> bool
        ensures { result ≡ is_none (state_of self.now) }
    {
        self.state.is_none()
    }

    /// What its driver put into the mapping, where there is something to commit. For drivers.
    pub fn state(&self) -> Option<&St>
        ensures { option_copied result ≡ state_of self.now }
    {
        self.state.as_ref()
    }

    /// Spends the mapping, and gives what its driver put into it. For drivers.
    pub fn into_state(self) -> Option<St>
        ensures { result ≡ state_of self }
    {
        let PreparedDataMapping {
            storage: _,
            offset: _,
            length: _,
            state,
        } = self;
        state
    }
}

impl<St> fmt::Debug for PreparedDataMapping<St> {
    fn fmt<W: Write>(&self, f: &mut Formatter<W>) -> fmt::Result {
        write!(
            f,
            "PreparedDataMapping {{ storage: {}, offset: {}, length: {} }}",
            self.storage, self.offset, self.length
        )
    }
}

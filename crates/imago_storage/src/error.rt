// SPDX-License-Identifier: MIT
//! What a call is refused for.
ghost use Rattle.std.specs.Prelude.{◌≡◌};
ghost use Rattle.imago_storage.specs.Error.{kind_of};
ghost use Rattle.imago_storage.specs.declared.error.Error.TheVariants.{Memory};

use std::alloc::{AllocError, AllocFailed};
use thiserror::Error;

/// A refusal. Each call says which of these it may answer, for which cause, and what it leaves.
#[derive(Clone, Copy, Debug, PartialEq, Eq, Drop, Error)]
pub enum Error {
    /// A changing call on an image whose driver isn't writable.
    #[error("the image is read-only")]
    ReadOnly,
    /// The range passes the disk's size, or the driver's mapping ends before the range does.
    #[error("the range passes the end of the disk")]
    BeyondDisk,
    /// The end of a guest range passes the greatest offset, `u64::MAX`, in a zero write or discard.
    #[error("the end of the range passes the greatest possible offset")]
    RangeOverflow,
    /// A range at a storage, also once it is padded or rounded up to an alignment, passes
    /// `u64::MAX`.
    #[error("the request wraps around at the end of the storage's address space")]
    WrapAround,
    /// A descriptor, or an offset that it names, is at fault.
    #[error("the image's data is invalid")]
    InvalidData,
    /// The driver or the storage doesn't offer this call.
    #[error("the driver or storage does not support this operation")]
    Unsupported,
    /// A part of the disk that its descriptor bars from access.
    #[error("this part of the disk may not be accessed")]
    NoAccess,
    /// The storage failed in this call.
    #[error("the storage failed")]
    Device,
    /// Memory was refused.
    #[error("out of memory")]
    Memory,
    /// A prepared mapping that isn't this image's.
    #[error("the prepared mapping does not belong to this image")]
    ForeignMapping,
    /// A gate that opens nothing was asked to open a storage.
    #[error("opening further storages is denied")]
    Denied,
    /// No storage of that name is left.
    #[error("there is no storage of that name")]
    NotFound,
}

/// Memory that is refused is [`Error::Memory`].
impl From<AllocError> for Error {
    ghost from_gives = { λ _ e. e ≡ Memory };

    fn from(_refused: AllocError) -> Error {
        Error::Memory
    }
}

/// Room that is refused for a value is [`Error::Memory`]. The value is let go.
impl<T: Drop> From<AllocFailed<T>> for Error {
    ghost from_gives = { λ _ e. e ≡ Memory };

    fn from(_refused: AllocFailed<T>) -> Error {
        Error::Memory
    }
}

/// The kinds of `std::io::ErrorKind` that the refusals have.
#[derive(Clone, Copy, Debug, PartialEq, Eq)]
pub enum ErrorKind {
    /// None of the others.
    Other,
    /// A range ended too early.
    UnexpectedEof,
    /// An argument can't be meant.
    InvalidInput,
    /// Bytes that were read can't be meant.
    InvalidData,
    /// Not offered.
    Unsupported,
    /// Memory was refused.
    OutOfMemory,
    /// Not allowed.
    PermissionDenied,
    /// Not there.
    NotFound,
}

impl Error {
    /// The kind that the Rust crate answers for this refusal.
    pub fn kind(&self) -> ErrorKind
        ensures { result ≡ kind_of self.now }
    {
        match self {
            Error::ReadOnly | Error::WrapAround | Error::NoAccess | Error::Device => {
                ErrorKind::Other
            }
            Error::BeyondDisk => ErrorKind::UnexpectedEof,
            Error::RangeOverflow | Error::ForeignMapping => ErrorKind::InvalidInput,
            Error::InvalidData => ErrorKind::InvalidData,
            Error::Unsupported => ErrorKind::Unsupported,
            Error::Memory => ErrorKind::OutOfMemory,
            Error::Denied => ErrorKind::PermissionDenied,
            Error::NotFound => ErrorKind::NotFound,
        }
    }
}

// SPDX-License-Identifier: MIT
//! Why an image isn't opened.
ghost use Rattle.std.specs.Prelude.{◌≡◌, MatchResult, IsErr, IfErr};
ghost use Rattle.imago_images.specs.declared.failure.OpenError.TheVariants.{Memory};
ghost use Rattle.imago_images.specs.Refusals.{IsRefused, IsBySystem, IsByDriver};

use crate::format::ImageFormat;
use imago_formats::signature::Signature;
use imago_qcow2::fault::HeaderFault;
use imago_storage::error;
use std::alloc::{AllocError, AllocFailed, Global};
use std::io;
use thiserror::Error;

/// Why an image isn't opened. It is printed as one line.
#[derive(Debug, Drop, Error)]
pub enum OpenError {
    /// A file can't be used.
    #[error("{path:?}: {reason}")]
    OfFile {
        /// The path of the file, as it was opened.
        path: String,
        /// Why.
        reason: Reason,
    },
    /// An allocation failed.
    #[error("out of memory")]
    Memory,
}

/// Why a file can't be used.
#[derive(Debug, Drop, Error)]
pub enum Reason {
    /// The system refused to look at the file, or to read it, and this is its answer.
    #[error("{0}")]
    System(io::Error),
    /// The driver of the image's format refused it.
    #[error("{0}")]
    Image(error::Error),
    /// A qcow2 image whose header has this fault.
    #[error("{0}")]
    Header(HeaderFault),
    /// A qcow2 image whose tables have more than so many bytes, which is the limit.
    #[error("its tables have more than {0} bytes, which is the limit")]
    TablesTooLarge(u64),
    /// A qcow2 image whose L1 table has so many bytes, which are more than 32 MiB.
    #[error("its L1 table has {0} bytes, and 32 MiB is the limit")]
    L1TooLong(u64),
    /// A file whose disk is longer than the limit.
    #[error("its disk has {size} bytes, and the limit is {most}")]
    DiskTooLong {
        /// How many bytes the disk has.
        size: u64,
        /// How many it may have.
        most: u64,
    },
    /// A VMDK image of another kind than a text descriptor with extents.
    #[error("a sparse VMDK image, which isn't supported")]
    Sparse,
    /// A file whose format isn't said, of a format that isn't supported, or whose name doesn't fit
    /// what it begins as.
    #[error("{0}")]
    Recognised(Signature),
    /// A file that is said to have a format, and is recognised as another.
    #[error("said to be {said}, but it is {found}", said = .said.name(), found = .found.name())]
    Another {
        /// The format that is said.
        said: ImageFormat,
        /// What the file is recognised as.
        found: Signature,
    },
    /// A file that is recognised as two formats, where no other files are opened.
    #[error("it is {found}, and also {other}", found = .0.name(), other = .1.name())]
    TwoFormats(Signature, Signature),
    /// A qcow2 image whose backing file of that name or path isn't beside it, nor below.
    #[error("its backing file {0:?} isn't in its folder")]
    BackingOutside(String),
    /// A qcow2 image with a backing file of that path, where no other files are opened.
    #[error("its backing file {0:?} isn't opened: other files aren't permitted")]
    BackingNotPermitted(String),
    /// A qcow2 image whose backing file of that name is reached by a protocol, as `nbd:` and
    /// `json:` are: the name has a colon before its first slash, and doesn't begin with `file:`.
    #[error("its backing file {0:?} is named by a protocol, and only files are supported")]
    BackingProtocol(String),
    /// A qcow2 image which says that its backing file has this format.
    #[error("its backing file has the format {0:?}, which isn't supported")]
    BackingFormat(String),
    /// A backing file that stands above itself in the chain of these paths.
    #[error("backing files lead in a circle: {0}")]
    Loop(String),
    /// A chain of more than 200 files, which begins with these paths.
    #[error("more than 200 files stand one below the other: {0}")]
    TooManyBelow(String),
    /// A descriptor whose extent of that name or path isn't beside it, nor below.
    #[error("its extent {0:?} isn't in the descriptor's folder")]
    Outside(String),
    /// A descriptor with an extent in the file of that path, where no other files are opened.
    #[error("its extent {0:?} isn't opened: other files aren't permitted")]
    NotPermitted(String),
    /// An image that is opened for writing, and isn't a raw one.
    #[error("only raw images can be opened for writing")]
    OnlyRead,
    /// What has no bytes at offsets: a folder, a pipe, a socket, a terminal.
    #[error("neither a regular file nor a block device")]
    NotAFile,
}

impl Reason {
    /// Whether a driver answers that memory was refused.
    fn is_memory(&self) -> bool {
        matches!(self, Reason::Image(error::Error::Memory))
    }
}

impl OpenError {
    /// The system's answer for a file, or why the file can't be used.
    pub fn or_system<T>(alloc: Global, path: &str, answer: io::Result<T>) -> Result<T, OpenError>
        ensures given { MatchResult answer (λ x. result ≡ Ok x) (λ _. IsErr result) }
        ensures refused { IfErr result (IsRefused path.now IsBySystem) }
    {
        match answer {
            Ok(found) => Ok(found),
            Err(cause) => Err(OpenError::of_file(alloc, path, Reason::System(cause))),
        }
    }

    /// A driver's answer for an image's file, or why the file can't be used.
    pub fn or_image<T>(
        alloc: Global,
        path: &str,
        answer: Result<T, error::Error>,
    ) -> Result<T, OpenError>
        ensures given { MatchResult answer (λ x. result ≡ Ok x) (λ _. IsErr result) }
        ensures refused { IfErr result (IsRefused path.now IsByDriver) }
        ensures told { IfErr answer (λ cause. IfErr result
            (IsRefused path.now (λ told. told ≡ Reason.Image cause))) }
    {
        match answer {
            Ok(found) => Ok(found),
            Err(cause) => Err(OpenError::of_file(alloc, path, Reason::Image(cause))),
        }
    }

    /// The file of that path can't be used, for that reason. Where memory was refused, or there is
    /// none for the path, it is [`OpenError::Memory`].
    pub fn of_file(alloc: Global, path: &str, reason: Reason) -> OpenError
        ensures { IsRefused path.now (λ told. told ≡ reason) result }
    {
        if reason.is_memory() {
            return OpenError::Memory;
        }
        match String::from_str(alloc, path) {
            Ok(path) => OpenError::OfFile { path, reason },
            Err(_) => OpenError::Memory,
        }
    }
}

impl From<AllocError> for OpenError {
    ghost from_gives = { λ _ e. e ≡ Memory };

    fn from(_refused: AllocError) -> OpenError {
        OpenError::Memory
    }
}

impl<T: Drop> From<AllocFailed<T>> for OpenError {
    ghost from_gives = { λ _ e. e ≡ Memory };

    fn from(refused: AllocFailed<T>) -> OpenError {
        let _ = refused;
        OpenError::Memory
    }
}

// SPDX-License-Identifier: MIT
//! Why a command isn't done.
ghost use Rattle.std.specs.Prelude.{◌≡◌, MatchResult, IsErr};
ghost use Rattle.imago_img_files.specs.Failures.{IsHostRefusal, IsHostFailure};

use crate::sparse::SparseType;
use imago_disk::cause::{Cause, ClusterFault, FaultyFile};
use imago_disk::disk::Unread;
use imago_formats::signature::Signature;
pub use imago_images::failure::{OpenError, Reason};
use imago_images::format::ImageFormat;
use imago_qcow2::fault::HeaderFault;
use imago_qcow2_check::fault::{CheckError, Fault};
use imago_qcow2_new::format::FormatError;
use imago_storage::error;
use std::alloc::{AllocError, AllocFailed, Global};
use std::io;
use thiserror::Error;

/// Why a command isn't done. What it prints is one line.
#[derive(Debug, Drop, Error)]
pub enum Failure {
    /// A file can't be opened, read or written. What can be done about it, if anything, ends the
    /// line.
    #[error("{0}{advice}", advice = advice_on(.0))]
    NotOpened(OpenError),
    /// An image can't be opened, since a file that it needs can't be used.
    #[error("{image:?} needs {cause}{advice}", advice = advice_on_needed(.cause))]
    Needed {
        /// The image, as the program was given it.
        image: String,
        /// Which file, and why.
        cause: OpenError,
    },
    /// A file isn't begun, written over, or given another size, because of what has its path, or
    /// hasn't.
    #[error("{path:?}: {refusal}")]
    NotMade {
        /// The file, as the program was given it.
        path: String,
        /// Why.
        refusal: Refusal,
    },
    /// A file can't be checked. What can be done about it, if anything, ends the line.
    #[error("{path:?} can't be checked: {cause}{advice}", advice = advice_on_check(.cause))]
    NotChecked {
        /// The file, as the program was given it.
        path: String,
        /// Why.
        cause: Unchecked,
    },
    /// The snapshots of a file can't be told.
    #[error("{path:?}: the table of snapshots {fault}")]
    OfSnapshots {
        /// The file, as the program was given it.
        path: String,
        /// Why.
        fault: SnapshotFault,
    },
    /// A qcow2 image can't be read, since an entry of one of its tables is invalid.
    #[error("{path:?}: {fault}; imago-img check tells all faults")]
    Entry {
        /// The file that has it, which may be one below the image's own.
        path: String,
        /// Where the entry stands.
        fault: Fault,
    },
    /// A compressed cluster of an image can't be read.
    #[error("{path:?}: the cluster at {offset} of the disk {fault}")]
    Compressed {
        /// The file that has it, which may be one below the image's own.
        path: String,
        /// Where it begins on the disk, in bytes.
        offset: u64,
        /// Why.
        fault: ClusterFault,
    },
    /// A descriptor is that of an image of a type whose extents are sparse files.
    #[error("{path:?}: a VMDK image of the type {kind}, which isn't supported; convert it with qemu-img")]
    SparseType {
        /// The file, as it was opened.
        path: String,
        /// The type, as it says.
        kind: SparseType,
    },
    /// The file of a disk ends before bytes that the disk has there, where no other file is to stand
    /// for them. Both numbers are in bytes.
    #[error("{path:?}: {length} bytes, and the image uses it up to {end}; imago-img check tells where")]
    Short {
        /// The file, as the program was given it.
        path: String,
        /// How many it has.
        length: u64,
        /// Where the last one ends that the disk has there.
        end: u64,
    },
    /// The standard output can't be written.
    #[error("the output can't be written: {0}")]
    Output(io::Error),
    /// Memory was refused.
    #[error("out of memory")]
    Memory,
}

/// Why a file can't be checked.
#[derive(Clone, Copy, Debug, Error)]
pub enum Unchecked {
    /// A qcow2 file.
    #[error("{0}")]
    Qcow2(CheckError),
    /// A descriptor with lines that aren't supported.
    #[error("not all of its lines are supported")]
    Lines,
    /// A descriptor of another version, or a file that begins as a sparse image.
    #[error("no line says one of the versions 1 to 3, or the file begins as a sparse image")]
    Version,
}

/// Why the snapshots of a file can't be told.
#[derive(Clone, Copy, Debug, Error)]
pub enum SnapshotFault {
    /// The storage refused to read it, or memory was refused.
    #[error("isn't read: {0}")]
    Storage(error::Error),
    /// It isn't all in the file.
    #[error("passes the file's end")]
    PastEnd,
    /// It has more than 8 MiB.
    #[error("has more than 8 MiB, which is the limit")]
    TooLong,
}

impl From<error::Error> for SnapshotFault {
    fn from(error: error::Error) -> SnapshotFault {
        SnapshotFault::Storage(error)
    }
}

impl From<AllocError> for SnapshotFault {
    fn from(_refused: AllocError) -> SnapshotFault {
        SnapshotFault::Storage(error::Error::Memory)
    }
}

impl<T: Drop> From<AllocFailed<T>> for SnapshotFault {
    fn from(refused: AllocFailed<T>) -> SnapshotFault {
        let _ = refused;
        SnapshotFault::Storage(error::Error::Memory)
    }
}

/// Why a file isn't made, written over, or given another size.
#[derive(Debug, Drop, Error)]
pub enum Refusal {
    /// What is to be made is there already.
    #[error("it exists already; --force replaces a file, -n writes into it")]
    Exists,
    /// A copy that was killed left it, or one that runs writes it, and nothing is to be replaced.
    #[error("another convert writes it, or left it when it was interrupted; --force removes it")]
    LeftOver,
    /// What is to be replaced isn't a regular file.
    #[error("only a regular file can be replaced; -n writes into a block device")]
    NotReplaced,
    /// What is to be replaced is a file of the image that is read.
    #[error("a file of the image that is read is never replaced")]
    IsSource,
    /// What is to be written over isn't there.
    #[error("it doesn't exist; without -n it is made")]
    Missing,
    /// What is to be written over has no bytes at offsets.
    #[error("only a regular file or a block device can be written into")]
    NotWritten,
    /// What is to be written over has fewer bytes than the disk. Both numbers are in bytes.
    #[error("it has {length} bytes, and the disk has {size}")]
    TooSmall {
        /// How many it has.
        length: u64,
        /// How many the disk has.
        size: u64,
    },
    /// What is to be written over is a file of the image that is read.
    #[error("a file of the image that is read is never written into")]
    IsRead,
    /// QEMU holds what is to be replaced, written over, or given another size.
    #[error("Failed to get \"write\" lock. Is another process using the image?")]
    Held,
    /// What was to be read twice isn't what it was.
    #[error("the image changed while it was read")]
    Changed,
    /// There can be no such qcow2 file.
    #[error("{0}")]
    NoSuchFile(FormatError),
    /// What is to get another size isn't a regular file.
    #[error("only a regular file can be resized")]
    NotRegular,
    /// What is to get another size has that format.
    #[error("a {name} image, and only raw ones are resized", name = name_of(*.0))]
    NotRaw(ImageFormat),
    /// The size that is asked for is 0, or less.
    #[error("the new size has to be greater than 0")]
    NoBytes,
    /// No file has as many bytes as are asked for.
    #[error("no file is that long")]
    TooLong,
    /// The disk would become smaller. Both sizes are in bytes.
    #[error("--shrink cuts it from {now} to {size} bytes, and the rest is lost")]
    Shrinks {
        /// The one that it has.
        now: u64,
        /// The one that is asked for.
        size: u64,
    },
}

/// The name of a format.
fn name_of(format: ImageFormat) -> &'static str {
    format.name()
}

/// What to do about a file that can't be used, as the end of its line.
fn advice_on(cause: &OpenError) -> &'static str {
    match cause {
        OpenError::OfFile {
            path,
            reason: Reason::BackingOutside(named) | Reason::Outside(named),
        } => advice_for_outside(path.as_str(), named.as_str()),
        OpenError::OfFile { reason, .. } => advice_for(reason),
        OpenError::Memory => "",
    }
}

/// The same where another image needs the file, so that no option of the command says its format.
fn advice_on_needed(cause: &OpenError) -> &'static str {
    match cause {
        OpenError::OfFile {
            reason: Reason::Sparse | Reason::Recognised(_),
            ..
        } => "",
        cause => advice_on(cause),
    }
}

/// The same, by the reason.
fn advice_for(reason: &Reason) -> &'static str {
    match reason {
        Reason::Image(error::Error::InvalidData | error::Error::Unsupported) => {
            "; imago-img check tells where"
        }
        Reason::Sparse => "; -f raw takes its bytes as they are",
        Reason::Recognised(signature) => advice_for_signature(*signature),
        Reason::TablesTooLarge(_) => "; --tables raises it",
        Reason::DiskTooLong { .. } => "; --max-size raises it",
        Reason::Another { found, .. } => advice_for_another(*found),
        Reason::Header(fault) => advice_for_header(*fault),
        _ => "",
    }
}

/// The same, where the header of a qcow2 file says what isn't supported. What `qemu-img` 7.2 doesn't
/// read either has no cure. An external data file has none either: `qemu-img` would read whatever
/// file an image from a stranger names.
fn advice_for_header(fault: HeaderFault) -> &'static str {
    match fault {
        HeaderFault::Encryption => {
            "; with its secret in the file KEY, qemu-img convert --object secret,id=key,file=KEY \
            --image-opts driver=qcow2,file.filename=FILE,encrypt.key-secret=key -O qcow2 PLAIN makes \
            a plain image of it"
        }
        HeaderFault::Features(features) => match features.trailing_zeros() {
            1 => "; qemu-img check -r all FILE may repair it",
            4 => "; qemu-img convert -O qcow2 FILE PLAIN makes a plain image of it",
            _ => "",
        },
        _ => "",
    }
}

/// The same, where another format was said than the one that the file is recognised as.
fn advice_for_another(found: Signature) -> &'static str {
    match found {
        Signature::Qcow2 => "; say -f qcow2",
        Signature::Descriptor | Signature::OtherDescriptor => "; say -f vmdk",
        _ => "",
    }
}

/// The same where the file of that path names another, which isn't in its folder by the texts of
/// both. So an absolute name isn't in the folder of a relative path, whatever that stands for.
fn advice_for_outside(path: &str, named: &str) -> &'static str {
    if named.starts_with("/") && !path.starts_with("/") {
        return "; --allow-outside permits it, or, if it is there, name the image by its absolute \
                path";
    }
    "; --allow-outside permits it"
}

/// What to do about a file that can't be checked.
fn advice_on_check(cause: &Unchecked) -> &'static str {
    match cause {
        Unchecked::Qcow2(CheckError::TooLarge) => "; --tables raises it",
        Unchecked::Qcow2(CheckError::Header(fault)) => advice_for_header(*fault),
        _ => "",
    }
}

/// What to do about a file of another format, by what it is recognised as.
fn advice_for_signature(signature: Signature) -> &'static str {
    match signature {
        Signature::Qcow2 => "; say -f qcow2 or -f raw",
        Signature::Descriptor | Signature::OtherDescriptor => "; say -f vmdk or -f raw",
        Signature::Tar
        | Signature::Gzip
        | Signature::Bzip2
        | Signature::Xz
        | Signature::Zstd
        | Signature::Zip => "; unpack it, or say -f raw for its bytes as they are",
        _ => "; convert it with qemu-img, or say -f raw for its bytes as they are",
    }
}

/// Whether no other file than that of an image's path is named.
fn is_of(image: &str, cause: &OpenError) -> bool {
    match cause {
        OpenError::OfFile { path, .. } => path.as_str() == image,
        OpenError::Memory => true,
    }
}

impl Failure {
    /// What the system answers for a file, or why the file can't be used.
    pub fn or_system<T>(alloc: Global, path: &str, answer: io::Result<T>) -> Result<T, Failure>
        ensures { MatchResult answer (λ x. result ≡ Ok x) (λ _. IsErr result) }
    {
        match answer {
            Ok(found) => Ok(found),
            Err(cause) => Err(Failure::of_file(alloc, path, Reason::System(cause))),
        }
    }

    /// What the image layer answers for an image's file, or why the file can't be used.
    pub fn or_image<T>(
        alloc: Global,
        path: &str,
        answer: Result<T, error::Error>,
    ) -> Result<T, Failure>
        ensures { MatchResult answer (λ x. result ≡ Ok x) (λ _. IsErr result) }
    {
        match answer {
            Ok(found) => Ok(found),
            Err(cause) => Err(Failure::of_file(alloc, path, Reason::Image(cause))),
        }
    }

    /// What the opening of the image of that path answers, or why it isn't opened. A file that it
    /// needs and that can't be used is named with it.
    pub fn or_opened<T>(
        alloc: Global,
        image: &str,
        answer: Result<T, OpenError>,
    ) -> Result<T, Failure>
        ensures { MatchResult answer (λ x. result ≡ Ok x) (λ _. IsErr result) }
    {
        match answer {
            Ok(found) => Ok(found),
            Err(cause) => Err(Failure::of_image(alloc, image, cause)),
        }
    }

    /// The image of that path isn't opened, for that cause.
    pub fn of_image(alloc: Global, image: &str, cause: OpenError) -> Failure
        ensures { IsHostRefusal cause → IsHostFailure result }
    {
        if is_of(image, &cause) {
            return Failure::from(cause);
        }
        match String::from_str(alloc, image) {
            Ok(image) => Failure::Needed { image, cause },
            Err(_) => Failure::Memory,
        }
    }

    /// What is found of a file that the image of that path needs, or why it isn't: a file that can't
    /// be used is named with the image.
    pub fn or_needed<T>(
        alloc: Global,
        image: &str,
        answer: Result<T, Failure>,
    ) -> Result<T, Failure>
        ensures { MatchResult answer (λ x. result ≡ Ok x) (λ _. IsErr result) }
    {
        match answer {
            Ok(found) => Ok(found),
            Err(Failure::NotOpened(cause)) => Err(Failure::of_image(alloc, image, cause)),
            Err(refused) => Err(refused),
        }
    }

    /// That file can't be used, for that reason.
    pub fn of_file(alloc: Global, path: &str, reason: Reason) -> Failure {
        Failure::from(OpenError::of_file(alloc, path, reason))
    }

    /// An entry of that file has that fault.
    pub fn of_entry(alloc: Global, path: &str, fault: Fault) -> Failure {
        match String::from_str(alloc, path) {
            Ok(path) => Failure::Entry { path, fault },
            Err(_) => Failure::Memory,
        }
    }

    /// A compressed cluster of that file can't be read, which begins at that offset of the disk.
    fn of_cluster(alloc: Global, path: &str, offset: u64, fault: ClusterFault) -> Failure {
        match String::from_str(alloc, path) {
            Ok(path) => Failure::Compressed {
                path,
                offset,
                fault,
            },
            Err(_) => Failure::Memory,
        }
    }

    /// That file describes an image of a type whose extents are sparse files.
    pub fn of_sparse_type(alloc: Global, path: &str, kind: SparseType) -> Failure {
        match String::from_str(alloc, path) {
            Ok(path) => Failure::SparseType { path, kind },
            Err(_) => Failure::Memory,
        }
    }

    /// That file has so many bytes, and its disk has bytes there up to an offset behind its end.
    pub fn of_short(alloc: Global, path: &str, length: u64, end: u64) -> Failure {
        match String::from_str(alloc, path) {
            Ok(path) => Failure::Short { path, length, end },
            Err(_) => Failure::Memory,
        }
    }

    /// A disk isn't read because of that file.
    pub fn of_faulty(alloc: Global, file: FaultyFile<'_>) -> Failure {
        match file.cause {
            Cause::Host(answer) => Failure::of_file(alloc, file.path, Reason::System(answer)),
            Cause::Cluster { offset, fault } => {
                Failure::of_cluster(alloc, file.path, offset, fault)
            }
            Cause::Entry(fault) => Failure::of_entry(alloc, file.path, fault),
        }
    }

    /// The disk of the image of that path isn't read.
    pub fn of_unread(alloc: Global, path: &str, why: Unread<'_>) -> Failure {
        match why {
            Unread::File(file) => Failure::of_faulty(alloc, file),
            Unread::Other(cause) => Failure::of_file(alloc, path, Reason::Image(cause)),
        }
    }

    /// That file can't be checked, for that reason.
    pub fn of_check(alloc: Global, path: &str, cause: Unchecked) -> Failure {
        match String::from_str(alloc, path) {
            Ok(path) => Failure::NotChecked { path, cause },
            Err(_) => Failure::Memory,
        }
    }

    /// The snapshots of that file can't be told, for that reason.
    pub fn of_snapshots(alloc: Global, path: &str, fault: SnapshotFault) -> Failure {
        match String::from_str(alloc, path) {
            Ok(path) => Failure::OfSnapshots { path, fault },
            Err(_) => Failure::Memory,
        }
    }

    /// That file isn't made, for that reason.
    pub fn of_target(alloc: Global, path: &str, refusal: Refusal) -> Failure {
        match String::from_str(alloc, path) {
            Ok(path) => Failure::NotMade { path, refusal },
            Err(_) => Failure::Memory,
        }
    }
}

impl From<OpenError> for Failure {
    ghost from_gives = { λ cause failure. IsHostRefusal cause → IsHostFailure failure };

    fn from(cause: OpenError) -> Failure {
        match cause {
            OpenError::Memory => Failure::Memory,
            cause => Failure::NotOpened(cause),
        }
    }
}

impl From<AllocError> for Failure {
    fn from(_refused: AllocError) -> Failure {
        Failure::Memory
    }
}

impl<T: Drop> From<AllocFailed<T>> for Failure {
    fn from(refused: AllocFailed<T>) -> Failure {
        let _ = refused;
        Failure::Memory
    }
}

// SPDX-License-Identifier: MIT
//! Why a file isn't safe to hand on.
ghost use Rattle.std.specs.Prelude.{◌≡◌, is_some, OnOk};
ghost use Rattle.imago_img_checks.specs.VettedParts.{is_of_file, is_told, IsTold};

use imago_formats::probe::Probed;
use imago_images::format::ImageFormat;
use imago_img_files::failure::{Failure, OpenError, Reason};
use imago_img_files::sparse::SparseType;
use imago_qcow2::fault::HeaderFault;
use imago_storage::error;
use std::alloc::{AllocError, Global};
use thiserror::Error;

/// How many reasons are listed; the rest are only counted.
const MOST_LISTED: usize = 100;

/// The longest name of a file that is shown, in bytes.
pub const LONGEST_SHOWN: usize = 4096;

/// What a reason is about. Each kind has a fixed name, which a script can test.
#[derive(Clone, Copy, Debug, PartialEq, Eq)]
pub enum Kind {
    /// The image names the file below it.
    BackingFile,
    /// Its data stand in a file of their own.
    DataFile,
    /// A descriptor has an extent in another file.
    Extent,
    /// The file is a text descriptor.
    Descriptor,
    /// The file is of another format than the one that is said, or of one that isn't offered, or
    /// QEMU takes it for another one.
    AnotherFormat,
    /// The file is of two formats.
    TwoFormats,
    /// The disk, a table or the descriptor is longer than a limit.
    TooLarge,
    /// Something isn't offered: a version, a feature, a kind of compression or of extent.
    Feature,
    /// The image is marked as corrupt, or an entry of a table is invalid.
    Corrupt,
    /// The image is encrypted.
    Encrypted,
    /// A number of the header, or a line of the descriptor, is invalid.
    Invalid,
}

impl Kind {
    /// The name.
    pub fn name(self) -> &'static str {
        match self {
            Kind::BackingFile => "backing-file",
            Kind::DataFile => "data-file",
            Kind::Extent => "extent",
            Kind::Descriptor => "descriptor",
            Kind::AnotherFormat => "another-format",
            Kind::TwoFormats => "two-formats",
            Kind::TooLarge => "too-large",
            Kind::Feature => "feature",
            Kind::Corrupt => "corrupt",
            Kind::Encrypted => "encrypted",
            Kind::Invalid => "invalid",
        }
    }
}

/// What is wrong with an entry of a table.
#[derive(Clone, Copy, Debug, PartialEq, Eq, Error)]
pub enum EntryFault {
    /// Bits of it are set that are reserved, or its offset isn't on a cluster's bounds. An L1 entry
    /// may also name an L2 table that isn't all in the file.
    #[error("is invalid")]
    Invalid,
    /// The cluster that it names isn't in the file.
    #[error("names a cluster behind the file's end")]
    PastEnd,
    /// The cluster that it names is compressed in a way that isn't offered.
    #[error("names a cluster that is compressed with zstd, which isn't offered")]
    Zstd,
}

/// What is wrong with a file.
#[derive(Debug, Drop, Error)]
pub enum Fault {
    /// What its opening is refused for.
    #[error("{0}")]
    Opening(Reason),
    /// A backing file of that name.
    #[error("its backing file is {0:?}")]
    Backing(String),
    /// A backing file whose name isn't UTF-8.
    #[error("it has a backing file, whose name isn't UTF-8")]
    BackingOfNoText,
    /// An external data file of that name.
    #[error("its external data file is {0:?}")]
    Data(String),
    /// An external data file whose name isn't there, isn't UTF-8, or is too long to be shown.
    #[error("it has an external data file, whose name isn't told")]
    DataUnnamed,
    /// The format that QEMU takes it for, where that isn't its own. None where QEMU sees two.
    #[error("QEMU takes it for {seen}", seen = seen_of(*.0))]
    Seen(Option<Probed>),
    /// That it is a descriptor.
    #[error("it is a VMDK descriptor, whose lines QEMU reads in another way")]
    Descriptor,
    /// That it describes an image of that type, whose extents are sparse files.
    #[error("its descriptor says the type {0}, which isn't supported")]
    SparseType(SparseType),
    /// An extent in the file of that name.
    #[error("its extent is {0:?}")]
    Extent(String),
    /// An extent in another file, whose name has so many bytes, which are too many to be shown.
    #[error("its extent is in a file whose name has {0} bytes")]
    ExtentOfLongName(usize),
    /// An extent that may not be read.
    #[error("an extent may not be read")]
    NoAccess,
    /// A line of a descriptor that isn't accepted.
    #[error("a line of its descriptor {fault}", fault = line_fault(*.0))]
    Line(error::Error),
    /// A descriptor of which each line is accepted, but not the whole.
    #[error("its descriptor {fault}", fault = text_fault(*.0))]
    Text(error::Error),
    /// A descriptor of so many bytes.
    #[error("its descriptor has {0} bytes, and 2 MiB is the limit")]
    LongText(u64),
    /// An L1 table of so many bytes.
    #[error("its L1 table has {0} bytes, and 32 MiB is the limit")]
    LongTable(u64),
    /// Tables of so many bytes in all.
    #[error("its tables have {taken} bytes, and {most} is the limit")]
    Tables {
        /// How many they have.
        taken: u64,
        /// How many they may have.
        most: u64,
    },
    /// An entry of an L1 table.
    #[error("an L1 entry {0}")]
    L1Entry(EntryFault),
    /// An entry of an L2 table.
    #[error("an L2 entry {0}")]
    L2Entry(EntryFault),
}

/// What QEMU sees in a file.
fn seen_of(seen: Option<Probed>) -> &'static str {
    match seen {
        Some(found) => found.description(),
        None => "two formats",
    }
}

/// What is wrong with a line.
fn line_fault(cause: error::Error) -> &'static str {
    match cause {
        error::Error::InvalidData => "is invalid",
        _ => "isn't supported",
    }
}

/// What is wrong with a descriptor whose lines are all accepted.
fn text_fault(cause: error::Error) -> &'static str {
    match cause {
        error::Error::InvalidData => {
            "has fewer bytes than any, or its disk's size passes the greatest offset"
        }
        _ => "says none of the versions 1 to 3",
    }
}

/// The kind of a header's fault. Features are told one by one.
fn kind_of_header(fault: HeaderFault) -> Kind {
    match fault {
        HeaderFault::Encryption => Kind::Encrypted,
        HeaderFault::Features(CORRUPT) => Kind::Corrupt,
        HeaderFault::Version(_) | HeaderFault::Features(_) | HeaderFault::CompressionType(_) =>
            Kind::Feature,
        _ => Kind::Invalid,
    }
}

/// The incompatible feature that an image is corrupt.
pub const CORRUPT: u64 = 1 << 1;

/// The kind of a driver's answer. None is one that says nothing of the file.
fn kind_of_error(cause: error::Error) -> Option<Kind>
    ensures { is_some result ≡ is_of_file cause }
{
    match cause {
        error::Error::InvalidData => Some(Kind::Invalid),
        error::Error::Unsupported => Some(Kind::Feature),
        _ => None,
    }
}

/// The kind of a reason for which a file isn't opened. None is one that says nothing of the file.
fn kind_of_reason(reason: &Reason) -> Option<Kind>
    ensures { is_some result ≡ is_told reason.now }
{
    match reason {
        Reason::Another { .. } | Reason::Recognised(_) | Reason::Sparse => {
            Some(Kind::AnotherFormat)
        }
        Reason::TwoFormats(_, _) => Some(Kind::TwoFormats),
        Reason::DiskTooLong { .. } => Some(Kind::TooLarge),
        Reason::Header(fault) => Some(kind_of_header(*fault)),
        Reason::Image(cause) => kind_of_error(*cause),
        _ => None,
    }
}

/// The kind of an entry's fault.
fn kind_of_entry(fault: EntryFault) -> Kind {
    match fault {
        EntryFault::Invalid | EntryFault::PastEnd => Kind::Corrupt,
        EntryFault::Zstd => Kind::Feature,
    }
}

impl Fault {
    /// What it is about.
    fn kind(&self) -> Kind {
        match self {
            Fault::Opening(reason) => kind_of_reason(reason).unwrap_or(Kind::Invalid),
            Fault::Backing(_) | Fault::BackingOfNoText => Kind::BackingFile,
            Fault::Data(_) | Fault::DataUnnamed => Kind::DataFile,
            Fault::Seen(Some(_)) => Kind::AnotherFormat,
            Fault::Seen(None) => Kind::TwoFormats,
            Fault::Descriptor => Kind::Descriptor,
            Fault::Extent(_) | Fault::ExtentOfLongName(_) => Kind::Extent,
            Fault::NoAccess | Fault::SparseType(_) => Kind::Feature,
            Fault::Line(cause) | Fault::Text(cause) => {
                kind_of_error(*cause).unwrap_or(Kind::Invalid)
            }
            Fault::LongText(_) | Fault::LongTable(_) | Fault::Tables { .. } => Kind::TooLarge,
            Fault::L1Entry(fault) | Fault::L2Entry(fault) => kind_of_entry(*fault),
        }
    }

    /// The name of another file, where it is about one.
    fn name(&self) -> Option<&str> {
        match self {
            Fault::Backing(name) | Fault::Data(name) | Fault::Extent(name) => Some(name.as_str()),
            _ => None,
        }
    }
}

/// Why a file isn't safe to hand on.
#[derive(Debug, Drop)]
pub struct Finding {
    /// What is wrong.
    pub fault: Fault,
    /// Where it stands in the file, in bytes, if it stands somewhere.
    pub at: Option<u64>,
}

impl Finding {
    /// What it is about.
    pub fn kind(&self) -> Kind {
        self.fault.kind()
    }

    /// The name of another file, where it is about one.
    pub fn name(&self) -> Option<&str> {
        self.fault.name()
    }
}

/// What is told of a file.
#[derive(Drop)]
pub struct Told {
    /// Its length in bytes.
    pub length: u64,
    /// Its format, where it has one that is offered.
    pub format: Option<ImageFormat>,
    /// The version of that format, where its header says one.
    pub version: Option<u32>,
    /// The disk's size in bytes, where it is said.
    pub disk: Option<u64>,
    /// Why it isn't safe to hand on.
    pub findings: Findings,
}

impl Told {
    /// Nothing is told of a file of that length but this.
    pub fn new(alloc: Global, length: u64) -> Told {
        Told {
            length,
            format: None,
            version: None,
            disk: None,
            findings: Findings::new(alloc),
        }
    }
}

/// Why a file isn't safe to hand on: all that was found.
#[derive(Drop)]
pub struct Findings {
    /// The first of them.
    pub list: Vec<Finding>,
    /// How many others there are.
    pub more: u64,
}

impl Findings {
    /// None.
    pub fn new(alloc: Global) -> Findings {
        Findings {
            list: Vec::new(alloc),
            more: 0,
        }
    }

    /// Puts one more behind them, which stands at that offset of the file.
    pub fn add(&mut self, fault: Fault, at: Option<u64>) -> Result<(), AllocError> {
        if self.list.len() >= MOST_LISTED {
            self.more = self.more.saturating_add(1);
            return Ok(());
        }
        match self.list.push(Finding { fault, at }) {
            Ok(()) => Ok(()),
            Err(_) => Err(AllocError),
        }
    }

    /// The same by why the file isn't opened. A reason that says nothing of the file is passed on.
    pub fn refuse(&mut self, refused: OpenError, at: Option<u64>) -> Result<(), Failure>
        ensures { OnOk result (IsTold refused) }
    {
        let OpenError::OfFile { path, reason } = refused else {
            return Err(Failure::Memory);
        };
        if kind_of_reason(&reason).is_none() {
            return Err(Failure::from(OpenError::OfFile { path, reason }));
        }
        self.add(Fault::Opening(reason), at)?;
        Ok(())
    }
}

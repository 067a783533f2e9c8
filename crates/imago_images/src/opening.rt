// SPDX-License-Identifier: MIT
//! How images are to be opened.
ghost use Rattle.std.specs.Prelude.{◌≡◌};
ghost use Rattle.imago_images.specs.Opening.{may_be_outside, usual, with_format};
ghost use Rattle.imago_images.specs.Opening.{with_accepted, with_longest, with_other_files};
ghost use Rattle.imago_images.specs.Opening.{with_tables};

use crate::format::ImageFormat;
pub use imago_qcow2::layout::USUAL_TABLES;
pub use imago_vmdk::line::Accepted;

/// Which files are opened besides the one whose path is given.
#[derive(Clone, Copy, PartialEq, Eq)]
pub enum OtherFiles {
    /// None. An image that names another file is refused, and that file isn't looked at.
    None,
    /// Those that an image names in its own folder and below.
    InFolder,
    /// Any that an image names.
    Any,
}

/// How images are to be opened.
#[derive(Clone, Copy)]
pub struct Opening {
    /// The format, if it isn't to be told from the file's name and from what it begins with
    /// ([`ImageFormat::taken`]).
    pub format: Option<ImageFormat>,
    /// What a VMDK descriptor may contain besides the lines that are always accepted.
    pub accepted: Accepted,
    /// Which other files are opened.
    pub other_files: OtherFiles,
    /// The most bytes that the tables of each qcow2 file of the image may have, if that is limited:
    /// 8 for each L1 entry that its disk needs, and a cluster for each L2 table. They stay in
    /// memory while the image is open. An image that needs more is refused.
    pub tables: Option<u64>,
    /// The most bytes that the disk of each file of the image may have, if that is limited. A longer
    /// one is refused by the header, the descriptor or a raw file's length alone, before any table
    /// of that file is read.
    pub longest: Option<u64>,
}

impl Opening {
    /// The usual way: the format is told from the file, and so are those of the files below it;
    /// other files may stand in the image's folder and below; a descriptor may have any line that is
    /// known; the tables of each qcow2 file have at most [`USUAL_TABLES`]; and disks are of any size.
    pub fn new() -> Self
        ensures { result ≡ usual }
    {
        Opening {
            format: None,
            accepted: Accepted::EVERYTHING,
            other_files: OtherFiles::InFolder,
            tables: Some(USUAL_TABLES),
            longest: None,
        }
    }

    /// The same, where the image has that format. Say it of an image that a guest has written to:
    /// else the guest chooses it, by the first bytes of its disk.
    pub fn format(self, format: ImageFormat) -> Self
        ensures { result ≡ with_format format self }
    {
        Opening {
            format: Some(format),
            ..self
        }
    }

    /// The same, where a VMDK descriptor may contain that besides the lines that are always
    /// accepted.
    pub fn accepted(self, accepted: Accepted) -> Self
        ensures { result ≡ with_accepted accepted self }
    {
        Opening { accepted, ..self }
    }

    /// The same, where those other files are opened.
    pub fn other_files(self, other_files: OtherFiles) -> Self
        ensures { result ≡ with_other_files other_files self }
    {
        Opening {
            other_files,
            ..self
        }
    }

    /// The same, where the tables of each qcow2 file have at most so many bytes.
    pub fn tables(self, most: u64) -> Self
        ensures { result ≡ with_tables most self }
    {
        Opening {
            tables: Some(most),
            ..self
        }
    }

    /// The same, where the disk of each file has at most so many bytes.
    pub fn longest(self, most: u64) -> Self
        ensures { result ≡ with_longest most self }
    {
        Opening {
            longest: Some(most),
            ..self
        }
    }

    /// Whether an image may name files elsewhere than in its folder and below.
    pub fn allows_outside(self) -> bool
        ensures { result ≡ may_be_outside self.other_files }
    {
        self.other_files == OtherFiles::Any
    }
}

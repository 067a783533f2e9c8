// SPDX-License-Identifier: MIT
//! What the files of each format begin or end with, by which a file is recognised.
ghost use Rattle.std.specs.Prelude.{◌≡◌, map, take, drop};
ghost use Rattle.imago_formats.specs.Signatures.{known, stands, counts, found_first};
ghost use Rattle.imago_formats.specs.Signatures.{format_number, is_beside as is_beside_by};
ghost use Rattle.imago_formats.specs.Signatures.{excludes_iso as excludes_iso_by};
ghost use Rattle.imago_formats.specs.Signatures.{told_by_text as told_text};
ghost use Rattle.imago_formats.specs.Signatures.{told_by_first, told_by_last};

use imago_vmdk::descriptor;
use std::fmt::{self, Display};

/// What a file is recognised as by its bytes.
#[derive(Clone, Copy, Debug, PartialEq, Eq)]
pub enum Signature {
    /// A qcow2 image.
    Qcow2,
    /// The text descriptor of a VMDK image.
    Descriptor,
    /// A sparse VMDK image, of VMware's hosted products or of ESX.
    Sparse,
    /// A text that describes a VMDK image, but doesn't begin with `# Disk DescriptorFile`.
    OtherDescriptor,
    /// A qcow image of version 1.
    Qcow1,
    /// A QED image.
    Qed,
    /// A VDI image, of VirtualBox.
    Vdi,
    /// A VHD image, of Virtual PC.
    Vhd,
    /// A VHDX image, of Hyper-V.
    Vhdx,
    /// A Parallels image.
    Parallels,
    /// A LUKS volume.
    Luks,
    /// A DMG image, of macOS.
    Dmg,
    /// An image of Bochs.
    Bochs,
    /// A compressed image of Linux' cloop.
    Cloop,
    /// A tar archive, as OVA files are.
    Tar,
    /// A file that gzip compressed.
    Gzip,
    /// A file that bzip2 compressed.
    Bzip2,
    /// A file that xz compressed.
    Xz,
    /// A file that zstd compressed.
    Zstd,
    /// A ZIP archive.
    Zip,
    /// An ISO 9660 image, of an optical disc. It is told only of a file that is recognised as
    /// something else too: by itself it is the disk of a guest that boots from it.
    Iso,
}

/// What the files of a format have at an offset of their first or last 512 bytes.
#[derive(Clone, Copy)]
pub struct Mark {
    /// What such a file is.
    pub signature: Signature,
    /// Where it stands there, in bytes.
    pub offset: usize,
    /// The bytes that stand there.
    pub bytes: &'static [u8],
    /// Whether letters of ASCII may be of either case.
    pub any_case: bool,
}

/// A mark by its signature, its offset and its bytes.
macro_rules! mark {
    ($signature:ident, $offset:literal, $bytes:literal) => {
        Mark {
            signature: Signature::$signature,
            offset: $offset,
            bytes: $bytes,
            any_case: false,
        }
    };
}

/// A mark at the beginning of a file, in letters of either case.
macro_rules! text_mark {
    ($signature:ident, $bytes:literal) => {
        Mark {
            signature: Signature::$signature,
            offset: 0,
            bytes: $bytes,
            any_case: true,
        }
    };
}

/// How long the first and the last block of a file are that are looked at, in bytes.
pub const BLOCK: usize = 512;

/// The numbers of the formats of QEMU and of VMware.
const QCOW: u8 = 0;

const VMDK: u8 = 1;

/// Where an ISO 9660 image has its mark, in bytes: behind the first byte of its sector 16, of 2048
/// bytes each.
pub const ISO_OFFSET: u64 = 16 * 2048 + 1;

/// The mark.
pub const ISO_MARK: &[u8] = b"CD001";

/// The marks in the first 512 bytes of a file. The first one that stands there counts.
pub static FIRST_MARKS: [Mark; 22] = [
    mark!(Qcow1, 0, b"QFI\xfb\0\0\0\x01"),
    mark!(Qcow2, 0, b"QFI\xfb"),
    mark!(Descriptor, 0, b"# Disk DescriptorFile"),
    text_mark!(OtherDescriptor, b"# disk descriptorfile"),
    text_mark!(OtherDescriptor, b"\xef\xbb\xbf# disk descriptorfile"),
    mark!(Sparse, 0, b"KDMV"),
    mark!(Sparse, 0, b"COWD"),
    mark!(Vhdx, 0, b"vhdxfile"),
    mark!(Vhd, 0, b"conectix"),
    mark!(Vdi, 64, b"\x7f\x10\xda\xbe"),
    mark!(Qed, 0, b"QED\0"),
    mark!(Parallels, 0, b"WithoutFreeSpace"),
    mark!(Parallels, 0, b"WithouFreSpacExt"),
    mark!(Luks, 0, b"LUKS\xba\xbe"),
    mark!(Bochs, 0, b"Bochs Virtual HD Image\0"),
    mark!(Cloop, 0, b"#!/bin/sh\n#V2.0 Format\nmodprobe cloop"),
    mark!(Tar, 257, b"ustar"),
    mark!(Gzip, 0, b"\x1f\x8b"),
    mark!(Bzip2, 0, b"BZh"),
    mark!(Xz, 0, b"\xfd7zXZ\0"),
    mark!(Zstd, 0, b"\x28\xb5\x2f\xfd"),
    mark!(Zip, 0, b"PK\x03\x04"),
];

/// The marks in the last 512 bytes of a file that has so many.
pub static LAST_MARKS: [Mark; 2] = [mark!(Vhd, 0, b"conectix"), mark!(Dmg, 0, b"koly")];

impl Mark {
    /// Whether the mark stands in that block of a file.
    pub fn stands_in(&self, block: &[u8]) -> bool
        ensures { result ≡ stands block.now (known self.now) }
    {
        let text = part_of(block, self.offset, self.bytes.len());
        if self.any_case {
            text.eq_ignore_ascii_case(self.bytes)
        } else {
            text == self.bytes
        }
    }

    /// Whether the mark stands in that block, and isn't one of the format that is passed over.
    fn counts_in(&self, block: &[u8], besides: Option<Signature>) -> bool
        ensures { result ≡ counts besides block.now (known self.now) }
    {
        self.stands_in(block) && self.signature.is_beside(besides)
    }
}

/// So many bytes of a block from the offset on, as far as it has them.
#[tactic(auto, using(std::proofs::lemmas::List::take_min))]
fn part_of(block: &[u8], offset: usize, count: usize) -> &[u8]
    ensures { result.now ≡ take count (drop offset block.now) }
{
    let rest = &block[offset.min(block.len())..];
    &rest[..count.min(rest.len())]
}

/// The signature of the first of these marks that stands in a block, where those of one format are
/// passed over.
fn first_found(marks: &[Mark], block: &[u8], besides: Option<Signature>) -> Option<Signature>
    ensures { result ≡ found_first besides (map known marks.now) block.now }
{
    let mut rest = marks;
    while let Some((mark, behind)) = rest.split_first() {
        if mark.counts_in(block, besides) {
            return Some(mark.signature);
        }
        rest = behind;
    }
    None
}

/// What the text of a block tells without a mark.
fn told_by_text(block: &[u8], besides: Option<Signature>) -> Option<Signature>
    ensures { result ≡ told_text besides block.now }
{
    if Signature::OtherDescriptor.is_beside(besides) && descriptor::probe(block) {
        return Some(Signature::OtherDescriptor);
    }
    None
}

impl Signature {
    /// What a file is recognised as by its first 512 bytes, or by all of them if it is shorter:
    /// besides the format that one signature is of, if one is given.
    pub fn of_first(block: &[u8], besides: Option<Signature>) -> Option<Signature>
        ensures { result ≡ told_by_first besides block.now }
    {
        match first_found(&FIRST_MARKS, block, besides) {
            Some(found) => Some(found),
            None => told_by_text(block, besides),
        }
    }

    /// The same by its last 512 bytes.
    #[tactic(auto, unfolding(crate::specs::Signatures::told_by_last))]
    pub fn of_last(block: &[u8], besides: Option<Signature>) -> Option<Signature>
        ensures { result ≡ told_by_last besides block.now }
    {
        first_found(&LAST_MARKS, block, besides)
    }

    /// The number of the format that it is of. Signatures of one format have the same.
    pub fn format(self) -> u8
        ensures { result ≡ format_number self }
    {
        match self {
            Signature::Qcow2 | Signature::Qcow1 => QCOW,
            Signature::Descriptor | Signature::OtherDescriptor | Signature::Sparse => VMDK,
            Signature::Qed => 2,
            Signature::Vdi => 3,
            Signature::Vhd => 4,
            Signature::Vhdx => 5,
            Signature::Parallels => 6,
            Signature::Luks => 7,
            Signature::Dmg => 8,
            Signature::Tar => 9,
            Signature::Gzip => 10,
            Signature::Bzip2 => 11,
            Signature::Xz => 12,
            Signature::Zstd => 13,
            Signature::Zip => 14,
            Signature::Iso => 15,
            Signature::Bochs => 16,
            Signature::Cloop => 17,
        }
    }

    /// Whether it is of another format than that one, if there is one.
    fn is_beside(self, besides: Option<Signature>) -> bool
        ensures { result ≡ is_beside_by besides self }
    {
        match besides {
            None => true,
            Some(other) => other.format() != self.format(),
        }
    }

    /// Whether it is of the formats whose files may be those of ISO 9660 images too: qcow2 and
    /// VMDK. A mark of ISO 9660 in a file of another format is passed over.
    pub fn excludes_iso(self) -> bool
        ensures { result ≡ excludes_iso_by self }
    {
        self.format() == QCOW || self.format() == VMDK
    }

    /// What a file of its format is, with its article.
    pub fn name(self) -> &'static str {
        match self {
            Signature::Qcow2 => "a qcow2 image",
            Signature::Descriptor | Signature::OtherDescriptor => "a VMDK descriptor",
            Signature::Sparse => "a sparse VMDK image",
            Signature::Qcow1 => "a qcow image of version 1",
            Signature::Qed => "a QED image",
            Signature::Vdi => "a VDI image",
            Signature::Vhd => "a VHD image",
            Signature::Vhdx => "a VHDX image",
            Signature::Parallels => "a Parallels image",
            Signature::Luks => "a LUKS volume",
            Signature::Dmg => "a DMG image",
            Signature::Bochs => "a Bochs image",
            Signature::Cloop => "a cloop image",
            Signature::Tar => "a tar archive",
            Signature::Gzip => "a file compressed by gzip",
            Signature::Bzip2 => "a file compressed by bzip2",
            Signature::Xz => "a file compressed by xz",
            Signature::Zstd => "a file compressed by zstd",
            Signature::Zip => "a ZIP archive",
            Signature::Iso => "an ISO 9660 image",
        }
    }
}

/// Prints what such a file is, and why it isn't opened where its format isn't said.
impl Display for Signature {
    fn fmt<W: fmt::Write>(&self, f: &mut fmt::Formatter<W>) -> fmt::Result {
        f.write_str(self.name())?;
        f.write_str(match self {
            Signature::Qcow2 => " in a file whose name ends in .raw",
            Signature::Descriptor => " in a file whose name doesn't end in .vmdk",
            Signature::OtherDescriptor => " that doesn't begin with \"# Disk DescriptorFile\"",
            _ => ", which isn't supported",
        })
    }
}

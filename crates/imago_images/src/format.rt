// SPDX-License-Identifier: MIT
//! The formats of images in files, and which one a file is taken to have.
ghost use Rattle.std.specs.Prelude.{◌≡◌};
ghost use Rattle.imago_images.specs.Formats.{qcow2_by_name, descriptor_by_name};
ghost use Rattle.imago_images.specs.Formats.{vmdk_unless as vmdk_unless_by};
ghost use Rattle.imago_images.specs.Formats.{qcow2_unless as qcow2_unless_by};

use imago_formats::signature::Signature;

/// The format of an image in files.
#[derive(Clone, Copy, Debug, PartialEq, Eq)]
pub enum ImageFormat {
    /// The file is the disk.
    Raw,
    /// The file is the text descriptor of a VMDK image.
    Vmdk,
    /// The file is a qcow2 image.
    Qcow2,
}

impl ImageFormat {
    ghost use Rattle.imago_images.specs.Formats.{format_named, format_by_name, taken_for};
    ghost use Rattle.imago_images.specs.Formats.{said_for, name_of};

    /// The format of that name, if one has it. `file` is an old name of `raw`, which headers may have
    /// for a backing file.
    #[tactic(auto, unfolding(crate::specs::Formats::format_named))]
    pub fn named(name: &str) -> Option<ImageFormat>
        ensures { result ≡ format_named name.now }
    {
        match name {
            "raw" | "file" => Some(ImageFormat::Raw),
            "vmdk" => Some(ImageFormat::Vmdk),
            "qcow2" => Some(ImageFormat::Qcow2),
            _ => None,
        }
    }

    /// The name by which a command line and qcow2 headers know it.
    #[tactic(auto, unfolding(crate::specs::Formats::name_of))]
    pub fn name(self) -> &'static str
        ensures { result.now ≡ name_of self }
    {
        match self {
            ImageFormat::Raw => "raw",
            ImageFormat::Vmdk => "vmdk",
            ImageFormat::Qcow2 => "qcow2",
        }
    }

    /// The format that the name of a file ends in, as `.raw` or `.vmdk`, if it does. It decides
    /// nothing by itself: see [`taken`](Self::taken).
    #[tactic(auto, unfolding(crate::specs::Formats::format_by_name))]
    pub fn by_name(path: &str) -> Option<ImageFormat>
        ensures { result ≡ format_by_name path.now }
    {
        let name = path.as_bytes();
        if name.ends_with(b".raw") {
            return Some(ImageFormat::Raw);
        }
        if name.ends_with(b".vmdk") {
            return Some(ImageFormat::Vmdk);
        }
        None
    }

    /// The format that the file of a path is taken to have where nobody says it, by what it is
    /// recognised as. A file that is recognised as nothing is raw. Whoever writes a disk can write
    /// the beginning of another format there, so the name of the file has to agree: a descriptor
    /// is one only in a file whose name ends in `.vmdk`, and a qcow2 image is none in one whose
    /// name ends in `.raw`. Otherwise the format has to be said, and this is why.
    pub fn taken(path: &str, found: Option<Signature>) -> Result<ImageFormat, Signature>
        ensures { result ≡ taken_for (format_by_name path.now) found }
    {
        match found {
            None => Ok(ImageFormat::Raw),
            Some(Signature::Qcow2) => qcow2_named(ImageFormat::by_name(path)),
            Some(Signature::Descriptor) => descriptor_named(ImageFormat::by_name(path)),
            Some(other) => Err(other),
        }
    }

    /// This format, which is said of a file, by what the file is recognised as: one that is
    /// recognised as another format isn't of this one, unless it is to be raw.
    pub fn said(self, found: Option<Signature>) -> Result<ImageFormat, Signature>
        ensures { result ≡ said_for self found }
    {
        match self {
            ImageFormat::Raw => Ok(self),
            ImageFormat::Vmdk => vmdk_unless(found),
            ImageFormat::Qcow2 => qcow2_unless(found),
        }
    }
}

/// What a file is that is said to be a VMDK descriptor.
fn vmdk_unless(found: Option<Signature>) -> Result<ImageFormat, Signature>
    ensures { result ≡ vmdk_unless_by found }
{
    match found {
        None | Some(Signature::Descriptor | Signature::OtherDescriptor) => Ok(ImageFormat::Vmdk),
        Some(other) => Err(other),
    }
}

/// What a file is that is said to be a qcow2 image.
fn qcow2_unless(found: Option<Signature>) -> Result<ImageFormat, Signature>
    ensures { result ≡ qcow2_unless_by found }
{
    match found {
        None | Some(Signature::Qcow2) => Ok(ImageFormat::Qcow2),
        Some(other) => Err(other),
    }
}

/// What a file is taken for that begins as a qcow2 image, by the format that its name ends in.
fn qcow2_named(name: Option<ImageFormat>) -> Result<ImageFormat, Signature>
    ensures { result ≡ qcow2_by_name name }
{
    match name {
        Some(ImageFormat::Raw) => Err(Signature::Qcow2),
        _ => Ok(ImageFormat::Qcow2),
    }
}

/// The same of a file that begins as a descriptor.
fn descriptor_named(name: Option<ImageFormat>) -> Result<ImageFormat, Signature>
    ensures { result ≡ descriptor_by_name name }
{
    match name {
        Some(ImageFormat::Vmdk) => Ok(ImageFormat::Vmdk),
        _ => Err(Signature::Descriptor),
    }
}

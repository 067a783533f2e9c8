// SPDX-License-Identifier: MIT
//! The formats of images.
ghost use Rattle.std.specs.Prelude.{◌≡◌};
ghost use Rattle.imago_words.specs.Commands.{format_named};

/// The format of an image.
#[derive(Clone, Copy, PartialEq, Eq)]
pub enum Format {
    /// The file is the disk.
    Raw,
    /// The file is the text descriptor of a VMDK image.
    Vmdk,
    /// The file is a qcow2 image.
    Qcow2,
}

impl Format {
    /// The format of that name.
    #[tactic(auto, unfolding(crate::specs::Commands::format_named))]
    pub fn named(name: &str) -> Option<Format>
        ensures { result ≡ format_named name.now }
    {
        match name {
            "raw" => Some(Format::Raw),
            "vmdk" => Some(Format::Vmdk),
            "qcow2" => Some(Format::Qcow2),
            _ => None,
        }
    }
}

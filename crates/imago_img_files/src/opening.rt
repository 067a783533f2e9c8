// SPDX-License-Identifier: MIT
//! How the images that a command line names are opened.
ghost use Rattle.std.specs.Prelude.{◌≡◌, option_map};
ghost use Rattle.imago_img_files.specs.Openings.{how_by, image_format, others_by, TooLongByHead};

use imago_images::format::ImageFormat;
use imago_images::opening::{Opening, OtherFiles};
use imago_vmdk::line::Accepted;
use imago_words::command::Opening as Said;
use imago_words::format::Format;

/// How many bytes of memory the tables of an image may take, and the reference counts and the uses
/// of its clusters while it is checked, if nothing else is said: 256 MiB.
pub const MOST_MEMORY: u64 = 256 << 20;

/// How an image is opened, by its format, if it was said, and by what is said of all images of the
/// command.
pub fn how_to_open(format: Option<Format>, said: Said) -> Opening
    ensures { result ≡ how_by format said }
{
    Opening {
        format: said_format(format),
        accepted: Accepted {
            unknown_keys: !said.strict,
            vmfs: true,
        },
        other_files: other_files(said.alone, said.allow_outside),
        tables: Some(said.tables.unwrap_or(MOST_MEMORY)),
        longest: said.max_size,
    }
}

/// The format of an image, if it was said.
pub fn said_format(format: Option<Format>) -> Option<ImageFormat>
    ensures { result ≡ option_map image_format format }
{
    match format {
        None => None,
        Some(Format::Raw) => Some(ImageFormat::Raw),
        Some(Format::Vmdk) => Some(ImageFormat::Vmdk),
        Some(Format::Qcow2) => Some(ImageFormat::Qcow2),
    }
}

/// Which other files are opened.
fn other_files(alone: bool, allow_outside: bool) -> OtherFiles
    ensures { result ≡ others_by alone allow_outside }
{
    match (alone, allow_outside) {
        (true, _) => OtherFiles::None,
        (false, true) => OtherFiles::Any,
        (false, false) => OtherFiles::InFolder,
    }
}

/// That a disk is longer than `--max-size` allows is told by the length of a raw file, by the length
/// and the first 112 bytes of a qcow2 file, and by the text of a descriptor: files that are alike in
/// these are refused alike. This is a law of what is meant by these words, and nothing is done.
pub fn too_long_by_head()
    ensures { TooLongByHead }
{}

// SPDX-License-Identifier: MIT
//! Raw images that get another size.
ghost use Rattle.std.specs.Prelude.{◌≡◌, ◌^◌, ◌≤◌, OnOk, OnErr, IfOk, IfSome, MatchOption, length};
ghost use Rattle.std.specs.Prelude.{option_map};
ghost use Rattle.imago_images.specs.Formats.{IsFormatBy};
ghost use Rattle.imago_images.specs.declared.format.ImageFormat.TheVariants.{Raw};
ghost use Rattle.imago_img_files.specs.Files.{IsUnheld};
ghost use Rattle.imago_img_files.specs.Openings.{image_format};
ghost use Rattle.imago_img_disks.specs.Resized.{IsImageResized, IsNewSize, IsRegular, IsSizeAsked};
ghost use Rattle.imago_img_disks.specs.Resized.{size_after};

use crate::create::raw_length;
use crate::held::test_unheld;
use imago_images::file::look_at;
use imago_images::format::ImageFormat;
use imago_images::layer::format_of;
use imago_img_files::failure::{Failure, Reason, Refusal};
use imago_img_files::host::{FileKind, Host};
use imago_img_files::opening::said_format;
use imago_words::command::{NewSize, Resize};
use imago_words::format::Format;

/// No file has as many bytes as that.
const TOO_LONG: u64 = 1 << 63;

/// Gives a raw image another size: its file is cut there, or zeroes are put behind its bytes. Where
/// the size is one by which it changes, the disk counts as whole sectors of 512 bytes before; the
/// size that it gets isn't rounded.
///
/// What isn't a regular file is refused; so are an image of another format, which this would
/// destroy, a size of 0, a smaller one unless the disk may become smaller, and a file that QEMU
/// holds. No file was changed then, and none is made.
pub fn resize_image<H: Host>(host: &mut H, asked: Resize<'_>) -> Result<(), Failure>
    ensures resized { OnOk result (IsImageResized asked.entry (H.contents host.old)
        (H.contents host.new)) }
    ensures refused { OnErr result (H.contents host.new ≡ H.contents host.old) }
    ensures around { H.around host.new ≡ H.around host.old }
    ensures unheld { OnOk result (IsUnheld (H.around host.old) asked.entry.file.now) }
    ensures regular { OnOk result (IsRegular (H.statuses host.old) asked.entry.file.now) }
{
    let size = new_size(&*host, asked)?;
    test_unheld(&*host, asked.file)?;
    match host.set_length(asked.file, size) {
        Ok(()) => Ok(()),
        Err(cause) => Err(Failure::of_file(host.alloc(), asked.file, Reason::System(cause))),
    }
}

/// The size in bytes that an image gets, which is a raw one.
fn new_size<H: Host>(host: &H, asked: Resize<'_>) -> Result<u64, Failure>
    ensures size { IfOk result (λ size. IfSome (H.contents host.now)
        (λ files. IsNewSize asked.entry files size)) }
    ensures regular { OnOk result (IsRegular (H.statuses host.now) asked.entry.file.now) }
{
    let length = regular_length(host, asked.file)?;
    test_raw(host, asked.file, asked.format)?;
    let now = raw_length(host.alloc(), asked.file, length)?;
    match size_from(asked, now) {
        Ok(size) => Ok(size),
        Err(refusal) => Err(Failure::of_target(host.alloc(), asked.file, refusal)),
    }
}

/// The length in bytes of the file of a path, which is a regular one.
fn regular_length<H: Host>(host: &H, path: &str) -> Result<u64, Failure>
    ensures length { IfOk result (λ n. IfSome (H.contents host.now)
        (λ files. n ≡ length (files path.now))) }
    ensures regular { OnOk result (IsRegular (H.statuses host.now) path.now) }
{
    let there = Failure::or_system(host.alloc(), path, host.status(path))?;
    if there.kind != FileKind::Regular {
        return Err(Failure::of_target(host.alloc(), path, Refusal::NotRegular));
    }
    Ok(there.length)
}

/// Refuses the image of a path unless it is a raw one, as is said or as its file is taken to be.
fn test_raw<H: Host>(host: &H, path: &str, said: Option<Format>) -> Result<(), Failure>
    ensures { OnOk result (IfSome (H.contents host.now)
        (λ files. IsFormatBy (option_map image_format said) path.now (files path.now) Raw)) }
{
    match format_at(host, path, said)? {
        ImageFormat::Raw => Ok(()),
        other => Err(Failure::of_target(host.alloc(), path, Refusal::NotRaw(other))),
    }
}

/// The format of the image of a path: the one that is said, or else the one that its file is taken
/// to have.
fn format_at<H: Host>(host: &H, path: &str, said: Option<Format>) -> Result<ImageFormat, Failure>
    ensures { IfOk result (λ format. IfSome (H.contents host.now)
        (λ files. IsFormatBy (option_map image_format said) path.now (files path.now) format)) }
{
    let file = look_at(host, path)?;
    let format = format_of(host.alloc(), path, &file, said_format(said))?;
    Ok(format)
}

/// The size in bytes that a disk gets which has that size, or why it gets none.
fn size_from(asked: Resize<'_>, now: u64) -> Result<u64, Refusal>
    ensures { IfOk result (IsSizeAsked asked.entry now) }
{
    let Some(size) = size_after(asked.size, now) else {
        return Err(Refusal::TooLong);
    };
    if size == 0 {
        return Err(Refusal::NoBytes);
    }
    if size < now && !asked.shrink {
        return Err(Refusal::Shrinks { now, size });
    }
    Ok(size)
}

/// The size that is asked for of a disk which has that size, if a file can be that long. One that
/// would be less than 0 is 0.
fn size_after(asked: NewSize, now: u64) -> Option<u64>
    ensures { MatchOption result (2 ^ 63 ≤ size_after asked now)
        (λ size. size ≡ size_after asked now) }
{
    let size = match asked {
        NewSize::Said(size) => size,
        NewSize::More(more) => now.checked_add(more)?,
        NewSize::Fewer(fewer) => now.saturating_sub(fewer),
    };
    if size >= TOO_LONG { None } else { Some(size) }
}

// SPDX-License-Identifier: MIT
//! How an image is opened: it asks for bytes and for files, and its caller gives them.
ghost use Rattle.std.specs.Prelude.{◌≡◌, ◌<◌, ◌≤◌, ℕ, None, Some, length, Err, IfOk, IfErr, OnOk};
ghost use Rattle.std.specs.Prelude.{IsOk, IsErr, OnErr, IfSome};
ghost use Rattle.imago_storage.specs.declared.error.Error.{Error};
ghost use Rattle.imago_session.specs.Files.{File};
ghost use Rattle.imago_session.specs.Limits.{usual};
ghost use Rattle.imago_session.specs.Opening.{IsOf, wanted, IsAnswer, IsFileAnswer, IsNameWanted};
ghost use Rattle.imago_session.specs.Opening.{AsksNoBytes, AsksOtherCount, AsksCount, AsksNoFile};
ghost use Rattle.imago_session.specs.Opening.{AsksFile, IsAtFirst, IsLedOn};
ghost use Rattle.imago_session.specs.Refusals.{IsCause, IsRefusalOf};
ghost use Rattle.imago_c.specs.Answer.{IsFront, code_of, answer_code};
ghost use Rattle.imago_c.specs.Images.{Has, format_of as format_named, accepted_by, want_record};
ghost use Rattle.imago_c.specs.Images.{most_formats, permitted_by, AsksBacking, AsksExtent};
ghost use Rattle.imago_c.specs.Images.{IsRefusedBegin, IsRefusedGive};
ghost use Rattle.imago_session.specs.declared.session.State.{State};
ghost use Rattle.imago_session.specs.declared.session.Want.{Want};

use crate::code::{DONE, code};
use crate::front::put_front;
use crate::image::Image;
use imago_drivers::drivers::Format;
use imago_session::permitted::Permitted;
use imago_session::session::{Session, Want};
use imago_storage::error::Error;
use imago_vmdk::line::Accepted;
use std::alloc::Global;

/// What an image asks for. Offsets and counts are in bytes.
#[repr(C)]
#[derive(Clone, Copy, Debug, PartialEq, Eq)]
pub struct WantRecord {
    /// The number of the file that it is of.
    pub file: u64,
    /// Where the bytes begin in the file.
    pub offset: u64,
    /// How many bytes are asked for.
    pub count: u64,
    /// 0 where nothing is asked for, since the image is open; 1 for bytes; 2 for the backing file of
    /// the last file; 3 for the file of an extent.
    pub kind: u32,
    /// The same length on each machine.
    pub unused: u32,
}

/// The format of a number, of which 0 leaves it open. Another number is [`Error::Unsupported`].
fn format_of(number: u32) -> Result<Option<Format>, Error>
    ensures format { IfOk result (λ f. (f ≡ format_named number) × (number ≤ most_formats)) }
    ensures none { IfErr result (λ e. (e ≡ Error.Unsupported) × (most_formats < number)) }
{
    match number {
        0 => Ok(None),
        1 => Ok(Some(Format::Raw)),
        2 => Ok(Some(Format::Vmdk)),
        3 => Ok(Some(Format::Qcow2)),
        _ => Err(Error::Unsupported),
    }
}

/// What a descriptor may contain.
fn accepted(strict: bool) -> Accepted
    ensures { result ≡ accepted_by strict }
{
    Accepted {
        unknown_keys: !strict,
        vmfs: true,
    }
}

/// The session of an opening that begins.
fn begun(
    alloc: Global,
    count: u64,
    format: u32,
    permitted: Permitted,
) -> Result<Box<Session>, Error>
    ensures begun { IfOk result (λ s. (s.value.permitted ≡ permitted)
        × ((files : ℕ → File) → length (files 0).bytes ≡ count
        → (files 0).format ≡ format_named format
        → IsOf files s.value × IsAtFirst files s.value.state)) }
    ensures unknown { most_formats < format → result ≡ Err Error.Unsupported }
    ensures refused { format ≤ most_formats → IfErr result (λ e. (f : File)
        → length f.bytes ≡ count → f.format ≡ format_named format → IsCause permitted f e) }
{
    let format = format_of(format)?;
    let session = Session::within(alloc, permitted, count, format)?;
    Ok(Box::new(alloc, session)?)
}

/// Begins with a top file of that many bytes, of whose image so much is permitted. What the image
/// had is freed. Refused, it is closed.
fn open(alloc: Global, image: &mut Image, count: u64, format: u32, permitted: Permitted) -> u32
    ensures opened { result ≡ 0 → Has image.new.handle.value (λ s. (s.permitted ≡ permitted)
        × ((files : ℕ → File) → length (files 0).bytes ≡ count
        → (files 0).format ≡ format_named format → IsOf files s × IsAtFirst files s.state)) }
    ensures refused { 0 < result → image.new.handle.value ≡ None }
    ensures unknown { most_formats < format → result ≡ code_of Error.Unsupported }
    ensures cause { format ≤ most_formats → 0 < result
        → IsRefusedBegin permitted count (format_named format) result }
{
    match begun(alloc, count, format, permitted) {
        Ok(session) => {
            *image = Image::of(session);
            DONE
        }
        Err(refusal) => {
            *image = Image::closed(alloc);
            code(refusal)
        }
    }
}

/// Begins with a top file of that many bytes, which is opened in the format of that number, or in
/// the one that its bytes are recognised as. The tables of each qcow2 file have at most
/// [`USUAL_TABLES`](imago_qcow2::layout::USUAL_TABLES) bytes. What the image had is freed. Refused,
/// it is closed: by the number of no format, or for a cause of the file's.
#[unsafe(no_mangle)]
pub extern "C" fn imago_image_open(
    alloc: Global,
    image: &mut Image,
    count: u64,
    format: u32,
    strict: bool,
) -> u32
    ensures opened { result ≡ 0 → Has image.new.handle.value
        (λ s. (s.permitted ≡ usual (accepted_by strict))
        × ((files : ℕ → File) → length (files 0).bytes ≡ count
        → (files 0).format ≡ format_named format → IsOf files s × IsAtFirst files s.state)) }
    ensures refused { 0 < result → image.new.handle.value ≡ None }
    ensures unknown { most_formats < format → result ≡ code_of Error.Unsupported }
    ensures cause { format ≤ most_formats → 0 < result
        → IsRefusedBegin (usual (accepted_by strict)) count (format_named format) result }
{
    open(
        alloc,
        image,
        count,
        format,
        Permitted::usual(accepted(strict)),
    )
}

/// Begins as [`imago_image_open`] does, where the tables of each qcow2 file have at most so many
/// bytes.
#[unsafe(no_mangle)]
pub extern "C" fn imago_image_open_within(
    alloc: Global,
    image: &mut Image,
    count: u64,
    format: u32,
    strict: bool,
    tables: u64,
) -> u32
    ensures opened { result ≡ 0 → Has image.new.handle.value
        (λ s. (s.permitted ≡ permitted_by strict tables)
        × ((files : ℕ → File) → length (files 0).bytes ≡ count
        → (files 0).format ≡ format_named format → IsOf files s × IsAtFirst files s.state)) }
    ensures refused { 0 < result → image.new.handle.value ≡ None }
    ensures unknown { most_formats < format → result ≡ code_of Error.Unsupported }
    ensures cause { format ≤ most_formats → 0 < result
        → IsRefusedBegin (permitted_by strict tables) count (format_named format) result }
{
    let permitted = Permitted {
        accepted: accepted(strict),
        tables,
    };
    open(alloc, image, count, format, permitted)
}

/// What is asked for, as a record. An opening that was refused is [`Error::InvalidData`].
fn record_of(want: Want) -> Result<WantRecord, Error>
    ensures told { IfOk result (λ r. r ≡ want_record want) }
    ensures refused { IsErr result → want ≡ Want.Refused }
{
    let (kind, file, offset, count) = match want {
        Want::Nothing => (0, 0, 0, 0),
        Want::Bytes(file, offset, count) => (1, file as u64, offset, count),
        Want::Backing(file) => (2, file as u64, 0, 0),
        Want::Extent(file) => (3, file as u64, 0, 0),
        Want::Refused => return Err(Error::InvalidData),
    };
    Ok(WantRecord {
        file,
        offset,
        count,
        kind,
        unused: 0,
    })
}

/// Tells what the image asks for.
#[unsafe(no_mangle)]
pub extern "C" fn imago_image_want(alloc: Global, image: &mut Image, want: &mut WantRecord) -> u32
    ensures same { image.new.handle.value ≡ image.old.handle.value }
    ensures told { result ≡ 0
        → Has image.old.handle.value (λ s. want.new ≡ want_record (wanted s)) }
    ensures refused { 0 < result → want.new ≡ want.old }
    ensures cause { 0 < result → IfSome image.old.handle.value (λ s. wanted s ≡ Want.Refused) }
    ensures closed { image.old.handle.value ≡ None → result ≡ code_of Error.NotFound }
{
    let Some(session) = image.take(alloc) else {
        return code(Error::NotFound);
    };
    let told = record_of(session.want());
    *image = Image::of(session);
    match told {
        Ok(told) => {
            *want = told;
            DONE
        }
        Err(refusal) => code(refusal),
    }
}

/// The number of an answer.
fn answer(answer: Result<(), Error>) -> u32
    ensures { result ≡ answer_code answer }
{
    match answer {
        Ok(()) => DONE,
        Err(refusal) => code(refusal),
    }
}

/// Gives the bytes that are asked for.
#[unsafe(no_mangle)]
pub extern "C" fn imago_image_give(alloc: Global, image: &mut Image, bytes: &[u8]) -> u32
    ensures agrees { result ≡ 0 → Has image.old.handle.value (λ a. Has image.new.handle.value
        (λ b. (files : ℕ → File) → IsAnswer files (wanted a) bytes.now → IsOf files a
        → IsOf files b × IsLedOn files a.state b.state)) }
    ensures unasked { IfSome image.old.handle.value (λ s. AsksNoBytes (wanted s)
        → (result ≡ code_of Error.Unsupported) × (image.new.handle.value ≡ Some s)) }
    ensures miscounted { IfSome image.old.handle.value
        (λ s. AsksOtherCount (wanted s) (length bytes.now)
        → (result ≡ code_of Error.InvalidData) × (image.new.handle.value ≡ Some s)) }
    ensures refused { IfSome image.old.handle.value (λ a. AsksCount (wanted a) (length bytes.now)
        → 0 < result → IsRefusedGive a image.new.handle.value
        (λ files. IsAnswer files (wanted a) bytes.now) result) }
    ensures closed { image.old.handle.value ≡ None
        → (result ≡ code_of Error.NotFound) × (image.new.handle.value ≡ None) }
{
    let Some(mut session) = image.take(alloc) else {
        return code(Error::NotFound);
    };
    let given = session.give(bytes);
    *image = Image::of(session);
    answer(given)
}

/// Gives a session the file that is asked for.
fn give_file(session: &mut Session, count: u64, format: u32) -> Result<(), Error>
    ensures agrees { OnOk result ((files : ℕ → File)
        → IsFileAnswer files (wanted session.old) count (format_named format)
        → IsOf files session.old
        → IsOf files session.new × IsLedOn files session.old.state session.new.state) }
    ensures unasked { AsksNoFile (wanted session.old)
        → (result ≡ Err Error.Unsupported) × (session.new ≡ session.old) }
    ensures unknown { most_formats < format
        → (result ≡ Err Error.Unsupported) × (session.new ≡ session.old) }
    ensures over { AsksBacking (wanted session.old) → format ≤ most_formats
        → OnErr result (session.new.state ≡ State.Refused) }
    ensures cause { format ≤ most_formats → IfErr result (λ e. (files : ℕ → File)
        → IsFileAnswer files (wanted session.old) count (format_named format)
        → IsOf files session.old → IsRefusalOf files session.old e) }
    ensures extent { AsksExtent (wanted session.old) → format ≤ most_formats → IsOk result }
{
    match format_of(format) {
        Ok(format) => session.give_file(count, format),
        Err(_) => Err(Error::Unsupported),
    }
}

/// Gives the file that is asked for, which has that many bytes, and is opened in the format of that
/// number, or in the one that its bytes are recognised as.
#[unsafe(no_mangle)]
pub extern "C" fn imago_image_give_file(
    alloc: Global,
    image: &mut Image,
    count: u64,
    format: u32,
) -> u32
    ensures agrees { result ≡ 0 → Has image.old.handle.value (λ a. Has image.new.handle.value
        (λ b. (files : ℕ → File)
        → IsFileAnswer files (wanted a) count (format_named format) → IsOf files a
        → IsOf files b × IsLedOn files a.state b.state)) }
    ensures unasked { IfSome image.old.handle.value (λ s. AsksNoFile (wanted s)
        → (result ≡ code_of Error.Unsupported) × (image.new.handle.value ≡ Some s)) }
    ensures unknown { most_formats < format → IfSome image.old.handle.value
        (λ s. (result ≡ code_of Error.Unsupported) × (image.new.handle.value ≡ Some s)) }
    ensures refused { format ≤ most_formats → IfSome image.old.handle.value
        (λ a. AsksBacking (wanted a) → 0 < result → IsRefusedGive a image.new.handle.value
        (λ files. IsFileAnswer files (wanted a) count (format_named format)) result) }
    ensures extent { format ≤ most_formats → IfSome image.old.handle.value
        (λ a. AsksExtent (wanted a) → result ≡ 0) }
    ensures closed { image.old.handle.value ≡ None
        → (result ≡ code_of Error.NotFound) × (image.new.handle.value ≡ None) }
{
    let Some(mut session) = image.take(alloc) else {
        return code(Error::NotFound);
    };
    let given = give_file(&mut session, count, format);
    *image = Image::of(session);
    answer(given)
}

/// Tells the name of the file that is asked for: as much of it as fits, and how long it is.
#[unsafe(no_mangle)]
pub extern "C" fn imago_image_name(
    alloc: Global,
    image: &mut Image,
    name: &mut [u8],
    told: &mut usize,
) -> u32
    ensures same { image.new.handle.value ≡ image.old.handle.value }
    ensures told { result ≡ 0 → Has image.old.handle.value (λ s. (whole : _)
        × IsFront name.old whole name.new × (told.new ≡ length whole)
        × ((files : ℕ → File) → IsOf files s → IsNameWanted files s whole)) }
    ensures refused { 0 < result → (name.new ≡ name.old) × (told.new ≡ told.old) }
    ensures cause { 0 < result → IfSome image.old.handle.value (λ s. AsksFile (wanted s) → ⊥) }
    ensures closed { image.old.handle.value ≡ None → result ≡ code_of Error.NotFound }
{
    let Some(session) = image.take(alloc) else {
        return code(Error::NotFound);
    };
    let answer = match session.name() {
        Some(whole) => {
            put_front(name, whole);
            *told = whole.len();
            DONE
        }
        None => code(Error::NotFound),
    };
    *image = Image::of(session);
    answer
}

/// Tells the name of the format that the file is said to have which is asked for: as much of it as
/// fits, and how long it is. [`Error::NotFound`] is one of which nothing is said.
#[unsafe(no_mangle)]
pub extern "C" fn imago_image_format_name(
    alloc: Global,
    image: &mut Image,
    name: &mut [u8],
    told: &mut usize,
) -> u32
    ensures same { image.new.handle.value ≡ image.old.handle.value }
    ensures refused { 0 < result → (name.new ≡ name.old) × (told.new ≡ told.old) }
    ensures closed { image.old.handle.value ≡ None → result ≡ code_of Error.NotFound }
{
    let Some(session) = image.take(alloc) else {
        return code(Error::NotFound);
    };
    let answer = match session.format_name() {
        Some(whole) => {
            put_front(name, whole);
            *told = whole.len();
            DONE
        }
        None => code(Error::NotFound),
    };
    *image = Image::of(session);
    answer
}

/// Closes the image: what it had is freed. A closed one stays so.
#[unsafe(no_mangle)]
pub extern "C" fn imago_image_close(alloc: Global, image: &mut Image)
    ensures { image.new.handle.value ≡ None }
{
    *image = Image::closed(alloc);
}

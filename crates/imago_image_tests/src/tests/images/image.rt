// SPDX-License-Identifier: MIT
//! Calls on an image, and what each answers.
ghost use Rattle.std.specs.Prelude.{◌≡◌, IsTrue, None};
ghost use Rattle.imago_access.specs.Chain.{driver};

use super::answer::{Answer, data, done, is_answered, place, prepared};
use super::driver;
use super::driver::Give;
use super::set_up::{buffer, numbers, printed, runs};
use imago_access::access::FormatAccess;
use imago_drivers::drivers::{FormatDriverInstance, PreallocateMode, PreparedDataMapping};
use imago_drivers::raw::Raw;
use imago_storage::error::Error;
use imago_storage::storage::Storage;
use std::alloc::Global;
use std::process::Abort;

/// A call on an image. Offsets and lengths are in bytes.
#[derive(Clone, Copy)]
pub(super) enum Call {
    /// The disk's size.
    Size,
    /// The alignments of all layers together.
    Aligns,
    /// How many layers are below.
    Depth,
    /// Prints the image.
    Print(&'static str),
    /// Prints all its layers.
    PrintChain(&'static str),
    /// Reads bytes from the offset on, which are to be these.
    Read(u64, &'static [u8]),
    /// The same by the call's other name.
    Readv(u64, &'static [u8]),
    /// Reads bytes from the offset on, which are to be these runs of equal bytes, each given by its
    /// length and its byte.
    ReadRuns(u64, &'static [(usize, u8)]),
    /// Reads so many bytes, by a buffer that `run` makes.
    ReadLong(u64, u64),
    /// Reads bytes of the layer below, which are to be these.
    ReadBelow(u64, &'static [u8]),
    /// What a range is, through all layers, at most so long. It is to be printed like that, and the
    /// length is answered.
    Map(u64, u64, &'static str),
    /// What a range is, by the top layer alone.
    MapAlone(u64, u64),
    /// Writes bytes.
    Write(u64, &'static [u8]),
    /// The same by the call's other name.
    Writev(u64, &'static [u8]),
    /// Writes so many equal bytes.
    WriteRun(u64, usize, u8),
    /// Writes so many bytes that differ, the first of them that one.
    WriteNumbers(u64, usize, u8),
    Resize(u64, PreallocateMode),
    Grow(u64, PreallocateMode),
    Shrink(u64),
    /// Zeroes a range, or gives up its data.
    Give(Give, u64, u64),
    /// Maps a range to bytes that may be written, for overwriting or not.
    MapData(u64, u64, bool),
    /// Prepares the range, writes the bytes from the `at`-th of the mapping on, as many as fit, and
    /// commits or cancels it.
    Prepare {
        offset: u64,
        count: u64,
        overwrite: bool,
        at: u64,
        bytes: &'static [u8],
        commits: bool,
    },
    /// Writes into a mapping of bytes of the first storage that wasn't prepared, and commits or
    /// cancels it.
    WriteStranger {
        offset: u64,
        count: u64,
        bytes: &'static [u8],
        commits: bool,
    },
    Flush,
    Sync,
    Invalidate,
    /// Looks at the top layer's driver.
    Look(driver::Call),
    /// Makes a call of the top layer's driver, which nothing is lent to.
    Drive(driver::Call),
}

/// Whether a changing call may be made: no prepared mapping waits to be spent.
pub(super) fn is_spent<D: FormatDriverInstance>(image: &FormatAccess<D>) -> bool
    ensures { IsTrue result → (D.view (driver image.now)).pending ≡ None }
{
    !image.inner().has_prepared()
}

/// Reads bytes.
fn read<D: FormatDriverInstance>(
    rt: &impl Abort,
    alloc: Global,
    image: &FormatAccess<D>,
    offset: u64,
    expected: &[u8],
) -> Answer {
    let mut buf = buffer(rt, alloc, expected.len());
    let answer = image.read(alloc, &mut buf, offset);
    driver::filled(rt, answer, &buf, expected)
}

/// Reads bytes by the call's other name.
fn readv<D: FormatDriverInstance>(
    rt: &impl Abort,
    alloc: Global,
    image: &FormatAccess<D>,
    offset: u64,
    expected: &[u8],
) -> Answer {
    let mut buf = buffer(rt, alloc, expected.len());
    let answer = image.readv(alloc, &mut buf, offset);
    driver::filled(rt, answer, &buf, expected)
}

/// How many layers are below.
fn depth<D: FormatDriverInstance>(image: &FormatAccess<D>) -> u64 {
    let mut layer = image;
    let mut count: u64 = 0;
    while let Some(below) = layer.backing() {
        layer = below;
        count = count.saturating_add(1);
    }
    count
}

/// What a range is, through all layers.
fn map<D: FormatDriverInstance>(
    rt: &impl Abort,
    alloc: Global,
    image: &FormatAccess<D>,
    (offset, most): (u64, u64),
    text: &str,
) -> Answer {
    match image.get_mapping(offset, most) {
        Ok((mapping, count)) => {
            assert_eq!(rt; printed(rt, alloc, &mapping).as_str(), text);
            Answer::Length(count)
        }
        Err(refusal) => Answer::Refused(refusal),
    }
}

/// Makes a call that changes nothing.
pub(super) fn ask<D: FormatDriverInstance>(
    rt: &impl Abort,
    alloc: Global,
    image: &FormatAccess<D>,
    call: Call,
) -> Answer {
    match call {
        Call::Size => Answer::Length(image.size()),
        Call::Aligns => Answer::Aligns(image.req_align(), image.mem_align()),
        Call::Depth => Answer::Length(depth(image)),
        Call::Print(text) => Answer::Is(printed(rt, alloc, image).as_str() == text),
        Call::PrintChain(text) => {
            Answer::Is(printed(rt, alloc, &image.chain_text()).as_str() == text)
        }
        Call::Read(offset, bytes) => read(rt, alloc, image, offset, bytes),
        Call::Readv(offset, bytes) => readv(rt, alloc, image, offset, bytes),
        Call::ReadRuns(offset, given) => read(rt, alloc, image, offset, &runs(rt, alloc, given)),
        Call::ReadBelow(offset, bytes) => match image.backing() {
            Some(below) => read(rt, alloc, below, offset, bytes),
            None => Answer::Missing,
        },
        Call::Map(offset, most, text) => map(rt, alloc, image, (offset, most), text),
        Call::MapAlone(offset, most) => place(image.get_shallow_mapping(offset, most)),
        Call::Look(call) => driver::look(rt, alloc, image.inner(), call),
        _ => rt.abort(),
    }
}

/// Writes bytes.
fn write<D: FormatDriverInstance>(
    rt: &impl Abort,
    alloc: Global,
    image: &mut FormatAccess<D>,
    offset: u64,
    source: &[u8],
) -> Answer {
    assert!(rt; is_spent(&*image));
    done(image.write(alloc, source, offset))
}

/// Zeroes a range, or gives up its data.
fn give_up<D: FormatDriverInstance>(
    rt: &impl Abort,
    alloc: Global,
    image: &mut FormatAccess<D>,
    give: Give,
    offset: u64,
    count: u64,
) -> Answer {
    assert!(rt; is_spent(&*image));
    done(match give {
        Give::EnsureZero => image.write_zeroes(alloc, offset, count),
        Give::DiscardToZero => image.discard_to_zero(alloc, offset, count),
        Give::DiscardToAny => image.discard_to_any(alloc, offset, count),
        Give::DiscardToBacking => image.discard_to_backing(alloc, offset, count),
    })
}

/// Writes into a mapping as many bytes as fit.
fn write_inside<D: FormatDriverInstance>(
    alloc: Global,
    image: &mut FormatAccess<D>,
    mapping: &PreparedDataMapping<D::State>,
    at: u64,
    bytes: &[u8],
) -> Result<(), Error> {
    let Some(room) = mapping.length().checked_sub(at) else {
        return Err(Error::BeyondDisk);
    };
    if bytes.len() as u64 <= room {
        return image.write_prepared(alloc, mapping, bytes, at);
    }
    image.write_prepared(alloc, mapping, &bytes[..room as usize], at)
}

/// Commits a mapping, or cancels it.
fn spend<D: FormatDriverInstance>(
    image: &mut FormatAccess<D>,
    mapping: PreparedDataMapping<D::State>,
    commits: bool,
) -> Result<(), Error> {
    if commits {
        return image.commit_data_mapping(mapping);
    }
    image.cancel_data_mapping(mapping);
    Ok(())
}

/// Prepares a range, writes into it, and spends the mapping.
fn prepare<D: FormatDriverInstance>(
    rt: &impl Abort,
    alloc: Global,
    image: &mut FormatAccess<D>,
    (offset, count, overwrite): (u64, u64, bool),
    (at, bytes): (u64, &[u8]),
    commits: bool,
) -> Result<(u64, bool), Error> {
    assert!(rt; is_spent(&*image));
    let mapping = image.prepare_data_mapping(alloc, offset, count, overwrite)?;
    let told = (mapping.length(), !mapping.is_nonblocking());
    assert_eq!(rt; is_spent(&*image), !told.1);
    let written = write_inside(alloc, image, &mapping, at, bytes);
    let spent = spend(image, mapping, commits);
    assert!(rt; is_spent(&*image));
    written?;
    spent?;
    Ok(told)
}

/// Writes into a mapping that wasn't prepared, and spends it.
fn write_stranger<D: FormatDriverInstance>(
    rt: &impl Abort,
    alloc: Global,
    image: &mut FormatAccess<D>,
    mapping: PreparedDataMapping<D::State>,
    bytes: &[u8],
    commits: bool,
) -> Answer {
    let written = write_inside(alloc, image, &mapping, 0, bytes);
    assert_eq!(rt; spend(image, mapping, commits), Ok(()));
    done(written)
}

/// Makes a call that changes the size.
fn resize<D: FormatDriverInstance>(
    rt: &impl Abort,
    alloc: Global,
    image: &mut FormatAccess<D>,
    call: Call,
) -> Answer {
    assert!(rt; is_spent(&*image));
    match call {
        Call::Resize(size, mode) => done(image.resize(alloc, size, mode)),
        Call::Grow(size, mode) => done(image.resize_grow(alloc, size, mode)),
        Call::Shrink(size) => done(image.resize_shrink(size)),
        _ => rt.abort(),
    }
}

/// Makes a call of those on data mappings.
fn handle<D: FormatDriverInstance>(
    rt: &impl Abort,
    alloc: Global,
    image: &mut FormatAccess<D>,
    call: Call,
) -> Answer {
    match call {
        Call::MapData(offset, count, overwrite) => {
            assert!(rt; is_spent(&*image));
            data(image.ensure_data_mapping(alloc, offset, count, overwrite))
        }
        Call::Prepare {
            offset,
            count,
            overwrite,
            at,
            bytes,
            commits,
        } => {
            let range = (offset, count, overwrite);
            prepared(prepare(rt, alloc, image, range, (at, bytes), commits))
        }
        Call::WriteStranger {
            offset,
            count,
            bytes,
            commits,
        } => {
            let mapping = PreparedDataMapping::existing(0, offset, count);
            write_stranger(rt, alloc, image, mapping, bytes, commits)
        }
        _ => rt.abort(),
    }
}

/// Makes a call.
pub(super) fn make<D: FormatDriverInstance>(
    rt: &impl Abort,
    alloc: Global,
    image: &mut FormatAccess<D>,
    call: Call,
) -> Answer {
    match call {
        Call::Write(offset, bytes) => write(rt, alloc, image, offset, bytes),
        Call::WriteRun(offset, count, byte) => {
            write(rt, alloc, image, offset, &runs(rt, alloc, &[(count, byte)]))
        }
        Call::WriteNumbers(offset, count, first) => write(
            rt,
            alloc,
            image,
            offset,
            &numbers(rt, alloc, count, first),
        ),
        Call::Writev(offset, bytes) => {
            assert!(rt; is_spent(&*image));
            done(image.writev(alloc, bytes, offset))
        }
        Call::Give(give, offset, count) => give_up(rt, alloc, image, give, offset, count),
        Call::Resize(_, _) | Call::Grow(_, _) | Call::Shrink(_) => resize(rt, alloc, image, call),
        Call::MapData(_, _, _) | Call::Prepare { .. } | Call::WriteStranger { .. } => {
            handle(rt, alloc, image, call)
        }
        Call::Flush => done(image.flush()),
        Call::Sync => done(image.sync()),
        Call::Invalidate => done(image.invalidate_cache()),
        Call::Drive(call) => driver::make(rt, alloc, image.inner_mut(), call),
        _ => ask(rt, alloc, &*image, call),
    }
}

/// Makes a call. One that is refused for memory leaves the size, and is made again, unless that is
/// expected. Answers whether it was made again, too.
fn make_again<D: FormatDriverInstance>(
    rt: &impl Abort,
    alloc: Global,
    image: &mut FormatAccess<D>,
    call: Call,
    expected: Answer,
) -> (Answer, bool) {
    let size = image.size();
    let answer = make(rt, alloc, image, call);
    if answer != Answer::Refused(Error::Memory) || answer == expected {
        return (answer, false);
    }
    assert_eq!(rt; image.size(), size);
    (make(rt, alloc, image, call), true)
}

/// Makes the calls, each of which answers like that once it has its memory. Answers whether any was
/// made again.
pub(super) fn script<D: FormatDriverInstance>(
    rt: &impl Abort,
    alloc: Global,
    image: &mut FormatAccess<D>,
    calls: &[(Call, Answer)],
) -> bool {
    let mut again = false;
    for (i, &(call, expected)) in calls.iter().enumerate() {
        let (answer, is_again) = make_again(rt, alloc, image, call, expected);
        is_answered(rt, i, answer, expected);
        again |= is_again;
    }
    again
}

/// An image of a driver with nothing below it.
pub(super) fn alone<D: FormatDriverInstance>(driver: D) -> FormatAccess<D> {
    FormatAccess::new(driver)
}

/// An image of a driver above another image, where there is memory for it.
pub(super) fn above<D: FormatDriverInstance>(
    alloc: Global,
    driver: D,
    below: FormatAccess<D>,
) -> Option<FormatAccess<D>> {
    match Box::new(alloc, below) {
        Ok(below) => Some(FormatAccess::with_backing(driver, below)),
        Err(_) => None,
    }
}

/// The calls on an image of a driver with nothing below it. Answers whether any was made again.
pub(super) fn on_driver<D: FormatDriverInstance>(
    rt: &impl Abort,
    alloc: Global,
    driver: D,
    calls: &[(Call, Answer)],
) -> bool {
    script(rt, alloc, &mut FormatAccess::new(driver), calls)
}

/// The calls on the raw image that a storage is. A storage that is lent can be looked at
/// afterwards. Answers whether any call was made again.
pub(super) fn on_raw<S: Storage>(
    rt: &impl Abort,
    alloc: Global,
    storage: S,
    writable: bool,
    calls: &[(Call, Answer)],
) -> bool {
    let driver = Raw::open_image(storage, writable).expect(rt, "a raw image");
    on_driver(rt, alloc, driver, calls)
}

/// An image of a driver above an image of another one, on which the first calls are made before,
/// where there is memory for it.
pub(super) fn two<D: FormatDriverInstance>(
    rt: &impl Abort,
    alloc: Global,
    (lower, first): (D, &[(Call, Answer)]),
    upper: D,
) -> Option<FormatAccess<D>> {
    let mut below = alone(lower);
    script(rt, alloc, &mut below, first);
    above(alloc, upper, below)
}

/// The calls on an image of a driver above an image of another one, on which the first calls are
/// made before. Answers whether there was memory for both.
pub(super) fn on_two<D: FormatDriverInstance>(
    rt: &impl Abort,
    alloc: Global,
    lower: (D, &[(Call, Answer)]),
    upper: D,
    calls: &[(Call, Answer)],
) -> bool {
    match two(rt, alloc, lower, upper) {
        Some(mut image) => {
            script(rt, alloc, &mut image, calls);
            true
        }
        None => false,
    }
}

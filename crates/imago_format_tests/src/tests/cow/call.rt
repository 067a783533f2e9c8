// SPDX-License-Identifier: MIT
//! Changing calls, made on an image or on its driver, and what each answers.
ghost use Rattle.std.specs.Prelude.{◌≡◌, ◌+◌, ◌≤◌, IsTrue, None, true};
ghost use Rattle.imago_access.specs.Chain.{driver};

use super::set_up::{equal, numbers, printed};
use imago_access::access::FormatAccess;
use imago_drivers::drivers::{
    FormatDriverInstance, PreallocateMode, PreparedDataMapping, ShallowMapping,
};
use imago_drivers::layer::LowerLayer;
use imago_storage::error::Error;
use std::alloc::Global;
use std::process::Abort;

/// Which value a call is made on.
#[derive(Clone, Copy, PartialEq, Eq)]
pub(super) enum Level {
    Image,
    /// The image's driver. It is lent a layer with the bytes of the one below.
    Driver,
}

/// A write in steps: a range is prepared, bytes that differ are written from the `at`-th of the
/// mapping on, as many as fit, and the mapping is committed or cancelled. Where the write is
/// refused it is cancelled.
#[derive(Clone, Copy)]
pub(super) struct InSteps {
    pub(super) offset: u64,
    pub(super) count: u64,
    pub(super) overwrite: bool,
    pub(super) at: u64,
    /// How many bytes are written, and the first of them.
    pub(super) written: (u64, u8),
    pub(super) commits: bool,
}

/// A changing call. Offsets and lengths are in bytes.
#[derive(Clone, Copy)]
pub(super) enum Call {
    /// Writes so many bytes that differ, the first of them that one. A driver maps the first part
    /// of the range, and writes there.
    Write(u64, u64, u8),
    WriteZeroes(u64, u64),
    DiscardToZero(u64, u64),
    DiscardToAny(u64, u64),
    DiscardToBacking(u64, u64),
    /// Maps a range to bytes that may be written, for overwriting or not.
    MapData(u64, u64, bool),
    Prepare(InSteps),
    Grow(u64, PreallocateMode),
    /// Grows or cuts. A driver only grows by this call.
    Resize(u64, PreallocateMode),
    Shrink(u64),
}

/// What a call answers.
#[derive(Clone, Copy, Debug, PartialEq, Eq, Drop)]
pub(super) enum Answer {
    Done,
    /// The part that was done, by its offset and its length. One of nothing has offset 0.
    Part(u64, u64),
    /// How many bytes are mapped to bytes of the storage.
    Mapped(u64),
    /// The length of a prepared mapping, and whether it waited for its commit.
    Prepared(u64, bool),
    Refused(Error),
}

/// A call, and what it is made on.
pub(super) type Step = (Level, Call);

/// What a guest block is.
#[derive(Clone, Copy, PartialEq, Eq, Drop)]
pub(super) enum Kind {
    Absent,
    Zero,
    Data,
}

/// The answer to a call that answers nothing.
fn done(answer: Result<(), Error>) -> Answer {
    match answer {
        Ok(()) => Answer::Done,
        Err(refusal) => Answer::Refused(refusal),
    }
}

/// The answer to a call that takes a part of a range.
fn part(answer: Result<(u64, u64), Error>) -> Answer {
    match answer {
        Ok((_, 0)) => Answer::Part(0, 0),
        Ok((offset, count)) => Answer::Part(offset, count),
        Err(refusal) => Answer::Refused(refusal),
    }
}

/// The answer to a call that maps a range to bytes of the first storage.
fn mapped(rt: &impl Abort, answer: Result<(usize, u64, u64), Error>) -> Answer {
    match answer {
        Ok((storage, _, count)) => {
            assert!(rt; storage == 0);
            Answer::Mapped(count)
        }
        Err(refusal) => Answer::Refused(refusal),
    }
}

/// The answer to a call that prepares a mapping.
fn prepared(answer: Result<(u64, bool), Error>) -> Answer {
    match answer {
        Ok((count, waits)) => Answer::Prepared(count, waits),
        Err(refusal) => Answer::Refused(refusal),
    }
}

/// Whether a changing call may be made on that range.
pub(super) fn is_ready<D: FormatDriverInstance>(driver: &D, offset: u64, count: u64) -> bool
    ensures writable { IsTrue result → (D.view driver.now).abilities.is_writable ≡ true }
    ensures spent { IsTrue result → (D.view driver.now).pending ≡ None }
    ensures inside { IsTrue result → offset + count ≤ (D.view driver.now).size }
{
    let size = driver.size();
    driver.writable() && !driver.has_prepared() && count <= size && offset <= size - count
}

/// Whether a changing call may be made: no prepared mapping waits to be spent.
pub(super) fn is_spent<D: FormatDriverInstance>(image: &FormatAccess<D>) -> bool
    ensures { IsTrue result → (D.view (driver image.now)).pending ≡ None }
{
    !image.inner().has_prepared()
}

/// How many of the bytes of a write in steps fit into a mapping of that length.
fn fitting(steps: InSteps, length: u64) -> u64 {
    steps.written.0.min(length.saturating_sub(steps.at))
}

/// Prepares a range of an image, once.
pub(super) fn prepare<D: FormatDriverInstance>(
    rt: &impl Abort,
    alloc: Global,
    image: &mut FormatAccess<D>,
    (offset, count): (u64, u64),
    overwrite: bool,
) -> Result<PreparedDataMapping<D::State>, Error> {
    assert!(rt; is_spent(&*image));
    image.prepare_data_mapping(alloc, offset, count, overwrite)
}

/// Writes bytes into a mapping of an image, from the `at`-th on, once.
pub(super) fn write_prepared<D: FormatDriverInstance>(
    rt: &impl Abort,
    alloc: Global,
    image: &mut FormatAccess<D>,
    mapping: &PreparedDataMapping<D::State>,
    bytes: &[u8],
    at: u64,
) -> Result<(), Error> {
    let count = bytes.len() as u64;
    assert!(rt; count <= mapping.length() && at <= mapping.length() - count);
    image.write_prepared(alloc, mapping, bytes, at)
}

/// Commits a mapping of an image.
pub(super) fn commit<D: FormatDriverInstance>(
    image: &mut FormatAccess<D>,
    mapping: PreparedDataMapping<D::State>,
) -> Result<(), Error> {
    image.commit_data_mapping(mapping)
}

/// Cancels a mapping of an image.
pub(super) fn cancel<D: FormatDriverInstance>(
    image: &mut FormatAccess<D>,
    mapping: PreparedDataMapping<D::State>,
) {
    image.cancel_data_mapping(mapping);
}

/// Commits a mapping, or cancels it.
fn spend<D: FormatDriverInstance>(
    rt: &impl Abort,
    image: &mut FormatAccess<D>,
    mapping: PreparedDataMapping<D::State>,
    commits: bool,
) {
    if commits {
        assert_eq!(rt; commit(image, mapping), Ok(()));
    } else {
        cancel(image, mapping);
    }
    assert!(rt; is_spent(&*image));
}

/// Makes a write in steps on an image.
fn write_in_steps<D: FormatDriverInstance>(
    rt: &impl Abort,
    alloc: Global,
    image: &mut FormatAccess<D>,
    steps: InSteps,
) -> Result<(u64, bool), Error> {
    let range = (steps.offset, steps.count);
    let mapping = prepare(rt, alloc, image, range, steps.overwrite)?;
    let told = (mapping.length(), !mapping.is_nonblocking());
    assert_eq!(rt; is_spent(&*image), !told.1);
    let bytes = numbers(rt, alloc, fitting(steps, told.0), steps.written.1);
    let written = write_prepared(rt, alloc, image, &mapping, &bytes, steps.at);
    spend(rt, image, mapping, written.is_ok() && steps.commits);
    written?;
    Ok(told)
}

/// Writes bytes into an image, from that offset on, once.
pub(super) fn write_at<D: FormatDriverInstance>(
    rt: &impl Abort,
    alloc: Global,
    image: &mut FormatAccess<D>,
    bytes: &[u8],
    offset: u64,
) -> Result<(), Error> {
    assert!(rt; is_spent(&*image));
    image.write(alloc, bytes, offset)
}

/// Makes a call on an image.
fn on_image<D: FormatDriverInstance>(
    rt: &impl Abort,
    alloc: Global,
    image: &mut FormatAccess<D>,
    call: Call,
) -> Answer {
    match call {
        Call::Prepare(steps) => prepared(write_in_steps(rt, alloc, image, steps)),
        Call::Write(offset, count, first) => {
            let bytes = numbers(rt, alloc, count, first);
            done(write_at(rt, alloc, image, &bytes, offset))
        }
        _ => change_spent(rt, alloc, image, call),
    }
}

/// Makes a call on an image that neither writes nor prepares.
fn change_spent<D: FormatDriverInstance>(
    rt: &impl Abort,
    alloc: Global,
    image: &mut FormatAccess<D>,
    call: Call,
) -> Answer {
    assert!(rt; is_spent(&*image));
    match call {
        Call::WriteZeroes(offset, count) => done(image.write_zeroes(alloc, offset, count)),
        Call::DiscardToZero(offset, count) => done(image.discard_to_zero(alloc, offset, count)),
        Call::DiscardToAny(offset, count) => done(image.discard_to_any(alloc, offset, count)),
        Call::DiscardToBacking(offset, count) => {
            done(image.discard_to_backing(alloc, offset, count))
        }
        Call::MapData(offset, count, overwrite) => {
            mapped(
                rt,
                image.ensure_data_mapping(alloc, offset, count, overwrite),
            )
        }
        Call::Grow(size, mode) => done(image.resize_grow(alloc, size, mode)),
        Call::Resize(size, mode) => done(image.resize(alloc, size, mode)),
        Call::Shrink(size) => done(image.resize_shrink(size)),
        Call::Write(_, _, _) | Call::Prepare(_) => rt.abort(),
    }
}

/// Makes a write in steps on a driver.
fn drive_in_steps<D: FormatDriverInstance, B: LowerLayer>(
    rt: &impl Abort,
    alloc: Global,
    driver: &mut D,
    lent: &B,
    steps: InSteps,
) -> Result<(u64, bool), Error> {
    let (offset, count) = (steps.offset, steps.count);
    assert!(rt; is_ready(&*driver, offset, count));
    let mapping = driver.prepare_data_mapping(alloc, Some(lent), offset, count, steps.overwrite)?;
    let told = (mapping.length(), driver.has_prepared());
    assert!(rt; mapping.is_nonblocking() != told.1);
    let bytes = numbers(rt, alloc, fitting(steps, told.0), steps.written.1);
    let count = bytes.len() as u64;
    assert!(rt; count <= mapping.length() && steps.at <= mapping.length() - count);
    let written = driver.write_prepared(alloc, &mapping, &bytes, steps.at);
    if written.is_ok() && steps.commits {
        assert_eq!(rt; driver.commit_data_mapping(mapping), Ok(()));
    } else {
        driver.cancel_data_mapping(mapping);
    }
    assert!(rt; !driver.has_prepared());
    written?;
    Ok(told)
}

/// Maps the first part of a range, and writes what fits of the bytes there. The part is answered.
fn write_mapped<D: FormatDriverInstance, B: LowerLayer>(
    rt: &impl Abort,
    alloc: Global,
    driver: &mut D,
    lent: &B,
    offset: u64,
    bytes: &[u8],
) -> Result<(u64, u64), Error> {
    let count = bytes.len() as u64;
    assert!(rt; is_ready(&*driver, offset, count));
    let mapped = driver.ensure_data_mapping(alloc, Some(lent), offset, count, false)?;
    let fitting = &bytes[..mapped.2 as usize];
    assert!(rt; mapped.0 < driver.storage_count());
    driver.write_mapped(alloc, mapped.0, fitting, mapped.1)?;
    Ok((offset, mapped.2))
}

/// Gives up the data of a range of a driver.
fn give_up<D: FormatDriverInstance>(
    rt: &impl Abort,
    alloc: Global,
    driver: &mut D,
    call: Call,
) -> Answer {
    let (offset, count) = match call {
        Call::WriteZeroes(offset, count)
        | Call::DiscardToZero(offset, count)
        | Call::DiscardToAny(offset, count)
        | Call::DiscardToBacking(offset, count) => (offset, count),
        _ => rt.abort(),
    };
    assert!(rt; is_ready(&*driver, offset, count));
    part(match call {
        Call::WriteZeroes(_, _) => driver.ensure_zero_mapping(alloc, offset, count),
        Call::DiscardToZero(_, _) => driver.discard_to_zero(alloc, offset, count),
        Call::DiscardToAny(_, _) => driver.discard_to_any(alloc, offset, count),
        _ => driver.discard_to_backing(alloc, offset, count),
    })
}

/// Makes a call on a driver, which is lent that layer.
fn on_driver<D: FormatDriverInstance, B: LowerLayer>(
    rt: &impl Abort,
    alloc: Global,
    driver: &mut D,
    lent: &B,
    call: Call,
) -> Answer {
    match call {
        Call::Write(offset, count, first) => {
            let bytes = numbers(rt, alloc, count, first);
            part(write_mapped(rt, alloc, driver, lent, offset, &bytes))
        }
        Call::MapData(offset, count, overwrite) => {
            assert!(rt; is_ready(&*driver, offset, count));
            let answer = driver.ensure_data_mapping(alloc, Some(lent), offset, count, overwrite);
            mapped(rt, answer)
        }
        Call::Prepare(steps) => prepared(drive_in_steps(rt, alloc, driver, lent, steps)),
        Call::Grow(size, mode) | Call::Resize(size, mode) => {
            assert!(rt; is_ready(&*driver, 0, 0));
            done(driver.resize_grow(alloc, Some(lent), size, mode))
        }
        Call::Shrink(size) => {
            assert!(rt; is_ready(&*driver, 0, 0));
            done(driver.resize_shrink(size))
        }
        _ => give_up(rt, alloc, driver, call),
    }
}

/// Makes a call once.
fn make<D: FormatDriverInstance, B: LowerLayer>(
    rt: &impl Abort,
    alloc: Global,
    image: &mut FormatAccess<D>,
    lent: &B,
    (level, call): Step,
) -> Answer {
    match level {
        Level::Image => on_image(rt, alloc, image, call),
        Level::Driver => on_driver(rt, alloc, image.inner_mut(), lent, call),
    }
}

/// Makes a call of an image that succeeds. What is refused for memory is made again.
pub(super) fn on<D: FormatDriverInstance>(
    rt: &impl Abort,
    alloc: Global,
    image: &mut FormatAccess<D>,
    call: Call,
) {
    let mut answer = on_image(rt, alloc, image, call);
    if answer == Answer::Refused(Error::Memory) {
        answer = on_image(rt, alloc, image, call);
    }
    assert_eq!(rt; answer, Answer::Done);
}

/// Makes a call once on an image, whose driver is lent an image of another driver.
pub(super) fn make_lent<D: FormatDriverInstance, E: FormatDriverInstance>(
    rt: &impl Abort,
    alloc: Global,
    image: &mut FormatAccess<D>,
    lent: &FormatAccess<E>,
    step: Step,
) -> Answer {
    make(rt, alloc, image, lent, step)
}

/// The bytes of an image.
pub(super) fn shown<D: FormatDriverInstance>(
    rt: &impl Abort,
    alloc: Global,
    image: &FormatAccess<D>,
) -> Vec<u8> {
    contents(rt, alloc, image)
}

/// The bytes of a layer.
fn contents<B: LowerLayer>(rt: &impl Abort, alloc: Global, layer: &B) -> Vec<u8> {
    let mut bytes = equal(rt, alloc, layer.size(), 0x77);
    let mut answer = layer.read(alloc, &mut bytes, 0);
    if answer == Err(Error::Memory) {
        answer = layer.read(alloc, &mut bytes, 0);
    }
    assert_eq!(rt; answer, Ok(()));
    bytes
}

/// What a range of an image is, as that is printed, and how much of it.
pub(super) fn told_mapping<D: FormatDriverInstance>(
    rt: &impl Abort,
    alloc: Global,
    image: &FormatAccess<D>,
    (offset, count): (u64, u64),
) -> (String, u64) {
    let (mapping, count) = image.get_mapping(offset, count).expect(rt, "a mapping");
    (printed(rt, alloc, &mapping), count)
}

/// What the guest block that begins at an offset is. Its mapping names all of it, as far as the
/// disk goes.
fn kind_at<D: FormatDriverInstance>(rt: &impl Abort, driver: &D, block: u64, at: u64) -> Kind {
    let (mapping, count) = driver.get_mapping(at, u64::MAX).expect(rt, "a mapping");
    assert_eq!(rt; count, block.min(driver.size().saturating_sub(at)));
    match mapping {
        ShallowMapping::Raw {
            storage: 0,
            offset,
            writable: true,
        } => {
            assert!(rt;
                offset.checked_rem(block) == Some(0),
                "a data block begins there"
            );
            Kind::Data
        }
        ShallowMapping::Indirect {
            offset,
            writable: false,
        } => {
            assert_eq!(rt; offset, at);
            Kind::Absent
        }
        ShallowMapping::Zero { explicit: true } => Kind::Zero,
        _ => rt.abort(),
    }
}

/// What the guest blocks of a driver are, each of that length.
pub(super) fn kinds<D: FormatDriverInstance>(
    rt: &impl Abort,
    alloc: Global,
    driver: &D,
    block: u64,
) -> Vec<Kind> {
    let mut kinds = Vec::new(alloc);
    let mut at: u64 = 0;
    for _ in 0..64 {
        if at >= driver.size() {
            return kinds;
        }
        let kind = kind_at(rt, driver, block, at);
        if kinds.push(kind).is_err() {
            kinds.push(kind).expect(rt, "memory for a table");
        }
        at = at.saturating_add(block);
    }
    rt.abort()
}

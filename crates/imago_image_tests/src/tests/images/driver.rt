// SPDX-License-Identifier: MIT
//! Calls on a driver with nothing below it, and what each answers.
ghost use Rattle.std.specs.Prelude.{◌≡◌, ◌+◌, ◌≤◌, IsTrue, None, true};

use super::answer::{Answer, data, done, is_answered, part, place, prepared};
use super::set_up::{buffer, printed};
use imago_drivers::drivers::{Format, FormatDriverInstance, PreallocateMode, PreparedDataMapping};
use imago_drivers::raw::Raw;
use imago_storage::error::Error;
use imago_storage::ext::StorageExt;
use imago_storage::storage::Storage;
use std::alloc::Global;
use std::process::Abort;

/// A call that gives up the data of a range.
#[derive(Clone, Copy)]
pub(super) enum Give {
    EnsureZero,
    DiscardToZero,
    DiscardToAny,
    DiscardToBacking,
}

/// A call on a driver. Offsets and lengths are in bytes.
#[derive(Clone, Copy)]
pub(super) enum Call {
    /// The disk's size.
    Size,
    /// Whether changing calls may be made.
    Writable,
    /// Whether it may lead to a layer below.
    TakesBacking,
    /// Whether a prepared mapping waits.
    HasPrepared,
    /// Whether its format is that of a raw image.
    IsRaw,
    /// The granularity that ranges are zeroed with.
    Granularity,
    /// How many storages it has.
    StorageCount,
    /// The storages are collected. The first of them begins with these bytes, and so many there
    /// are.
    Collect(&'static [u8]),
    /// Whether the storage of that index has an image of the format.
    Probe(usize),
    /// Prints the driver.
    Print(&'static str),
    /// What stands from the offset on, at most so many bytes.
    Map(u64, u64),
    /// Reads bytes of the first storage from the offset on, as a mapping names them. They are to be
    /// these.
    Read(u64, &'static [u8]),
    /// Reads special bytes.
    ReadSpecial(u64, &'static [u8]),
    /// The length of the storage of that index.
    StorageLength(usize),
    /// Reads the storage of that index, whose bytes from the offset on are to be these.
    Stored(usize, u64, &'static [u8]),
    /// Gives up the data of a range.
    Give(Give, u64, u64),
    /// Maps a range to bytes that may be written, for overwriting or not.
    MapData(u64, u64, bool),
    /// Maps a range to bytes that may be written, and writes these there.
    WriteMapped(u64, &'static [u8]),
    /// Prepares the range, writes the bytes from the `at`-th of the mapping on, and commits or
    /// cancels it.
    Prepare {
        offset: u64,
        count: u64,
        overwrite: bool,
        at: u64,
        bytes: &'static [u8],
        commits: bool,
    },
    /// Writes into a mapping of bytes of the first storage that wasn't prepared, and commits or
    /// cancels it.
    WriteStranger {
        offset: u64,
        count: u64,
        bytes: &'static [u8],
        commits: bool,
    },
    Grow(u64, PreallocateMode),
    Shrink(u64),
    Flush,
    Sync,
    Invalidate,
}

/// Whether a changing call may be made on that range.
pub(super) fn is_ready<D: FormatDriverInstance>(driver: &D, offset: u64, count: u64) -> bool
    ensures writable { IsTrue result → (D.view driver.now).abilities.is_writable ≡ true }
    ensures spent { IsTrue result → (D.view driver.now).pending ≡ None }
    ensures inside { IsTrue result → offset + count ≤ (D.view driver.now).size }
{
    let size = driver.size();
    driver.writable() && !driver.has_prepared() && count <= size && offset <= size - count
}

/// The answer to a read, which has filled the buffer with these bytes.
pub(super) fn filled(
    rt: &impl Abort,
    answer: Result<(), Error>,
    buf: &[u8],
    expected: &[u8],
) -> Answer {
    if answer.is_ok() {
        assert_eq!(rt; buf, expected);
    }
    done(answer)
}

/// Reads a storage.
fn read_storage<S: Storage>(
    rt: &impl Abort,
    alloc: Global,
    storage: &S,
    offset: u64,
    expected: &[u8],
) -> Answer {
    let mut buf = buffer(rt, alloc, expected.len());
    let answer = storage.read(alloc, &mut buf, offset);
    filled(rt, answer, &buf, expected)
}

/// The length of a storage.
fn length_of<S: Storage>(storage: &S) -> Answer {
    match storage.size() {
        Ok(size) => Answer::Length(size),
        Err(refusal) => Answer::Refused(refusal),
    }
}

/// The storage that a call looks at.
fn index_of(rt: &impl Abort, call: Call) -> usize {
    match call {
        Call::StorageLength(index) | Call::Stored(index, _, _) | Call::Probe(index) => index,
        _ => rt.abort(),
    }
}

/// Looks at a storage of a driver.
fn look_at<D: FormatDriverInstance>(
    rt: &impl Abort,
    alloc: Global,
    storage: &D::Storage,
    call: Call,
) -> Answer {
    match call {
        Call::StorageLength(_) => length_of(storage),
        Call::Stored(_, offset, bytes) => read_storage(rt, alloc, storage, offset, bytes),
        _ => match D::probe(alloc, storage) {
            Ok(found) => Answer::Is(found),
            Err(refusal) => Answer::Refused(refusal),
        },
    }
}

/// Looks at the storage of that index, or at all of them.
pub(super) fn look<D: FormatDriverInstance>(
    rt: &impl Abort,
    alloc: Global,
    driver: &D,
    call: Call,
) -> Answer {
    if let Call::Collect(bytes) = call {
        return collect(rt, alloc, driver, bytes);
    }
    match driver.storage(index_of(rt, call)) {
        Some(storage) => look_at::<D>(rt, alloc, storage, call),
        None => Answer::Missing,
    }
}

/// Collects the storages.
fn collect<D: FormatDriverInstance>(
    rt: &impl Abort,
    alloc: Global,
    driver: &D,
    bytes: &[u8],
) -> Answer {
    match driver.collect_storage_dependencies(alloc) {
        Ok(storages) => {
            let first = *storages.get(0).expect(rt, "a storage");
            match read_storage(rt, alloc, first, 0, bytes) {
                Answer::Done => Answer::Length(storages.len() as u64),
                refused => refused,
            }
        }
        Err(refusal) => Answer::Refused(refusal),
    }
}

/// Reads bytes as a mapping names them.
fn read_mapped<D: FormatDriverInstance>(
    rt: &impl Abort,
    alloc: Global,
    driver: &D,
    offset: u64,
    expected: &[u8],
) -> Answer {
    let mut buf = buffer(rt, alloc, expected.len());
    assert!(rt; driver.storage_count() > 0);
    let answer = driver.read_mapped(alloc, 0, &mut buf, offset);
    filled(rt, answer, &buf, expected)
}

/// Reads special bytes.
fn read_special<D: FormatDriverInstance>(
    rt: &impl Abort,
    alloc: Global,
    driver: &D,
    offset: u64,
    expected: &[u8],
) -> Answer {
    let mut buf = buffer(rt, alloc, expected.len());
    let answer = driver.readv_special(alloc, &mut buf, offset);
    filled(rt, answer, &buf, expected)
}

/// Makes a call that changes nothing.
fn ask<D: FormatDriverInstance>(rt: &impl Abort, alloc: Global, driver: &D, call: Call) -> Answer {
    match call {
        Call::Size => Answer::Length(driver.size()),
        Call::Writable => Answer::Is(driver.writable()),
        Call::TakesBacking => Answer::Is(driver.takes_backing()),
        Call::HasPrepared => Answer::Is(driver.has_prepared()),
        Call::IsRaw => Answer::Is(driver.format() == Format::Raw),
        Call::Granularity => match driver.zero_granularity() {
            Some(granularity) => Answer::Length(granularity),
            None => Answer::Missing,
        },
        Call::StorageCount => Answer::Length(driver.storage_count() as u64),
        Call::Print(text) => Answer::Is(printed(rt, alloc, driver).as_str() == text),
        Call::Map(offset, most) => place(driver.get_mapping(offset, most)),
        Call::Read(offset, bytes) => read_mapped(rt, alloc, driver, offset, bytes),
        Call::ReadSpecial(offset, bytes) => read_special(rt, alloc, driver, offset, bytes),
        _ => look(rt, alloc, driver, call),
    }
}

/// Gives up the data of a range.
fn give_up<D: FormatDriverInstance>(
    rt: &impl Abort,
    alloc: Global,
    driver: &mut D,
    give: Give,
    offset: u64,
    count: u64,
) -> Answer {
    assert!(rt; is_ready(&*driver, offset, count));
    match give {
        Give::EnsureZero => part(driver.ensure_zero_mapping(alloc, offset, count)),
        Give::DiscardToZero => part(driver.discard_to_zero(alloc, offset, count)),
        Give::DiscardToAny => part(driver.discard_to_any(alloc, offset, count)),
        Give::DiscardToBacking => part(driver.discard_to_backing(alloc, offset, count)),
    }
}

/// Maps a range to bytes that may be written, for overwriting or not.
fn map_data<D: FormatDriverInstance>(
    rt: &impl Abort,
    alloc: Global,
    driver: &mut D,
    (offset, count, overwrite): (u64, u64, bool),
) -> Answer {
    assert!(rt; is_ready(&*driver, offset, count));
    data(driver.ensure_data_mapping::<()>(alloc, None, offset, count, overwrite))
}

/// Maps a range to bytes that may be written, and writes these there.
fn write_mapped<D: FormatDriverInstance>(
    rt: &impl Abort,
    alloc: Global,
    driver: &mut D,
    offset: u64,
    source: &[u8],
) -> Result<(), Error> {
    let count = source.len() as u64;
    assert!(rt; is_ready(&*driver, offset, count));
    let mapped = driver.ensure_data_mapping::<()>(alloc, None, offset, count, false)?;
    assert!(rt; mapped.2 == count && mapped.0 < driver.storage_count());
    driver.write_mapped(alloc, mapped.0, source, mapped.1)
}

/// Writes into a mapping.
fn write_inside<D: FormatDriverInstance>(
    rt: &impl Abort,
    alloc: Global,
    driver: &mut D,
    mapping: &PreparedDataMapping<D::State>,
    at: u64,
    bytes: &[u8],
) -> Result<(), Error> {
    let count = bytes.len() as u64;
    assert!(rt; count <= mapping.length() && at <= mapping.length() - count);
    driver.write_prepared(alloc, mapping, bytes, at)
}

/// Commits a mapping, or cancels it.
fn spend<D: FormatDriverInstance>(
    driver: &mut D,
    mapping: PreparedDataMapping<D::State>,
    commits: bool,
) -> Result<(), Error> {
    if commits {
        return driver.commit_data_mapping(mapping);
    }
    driver.cancel_data_mapping(mapping);
    Ok(())
}

/// Prepares a range, writes into it, and spends the mapping.
fn prepare<D: FormatDriverInstance>(
    rt: &impl Abort,
    alloc: Global,
    driver: &mut D,
    (offset, count, overwrite): (u64, u64, bool),
    (at, bytes): (u64, &[u8]),
    commits: bool,
) -> Result<(u64, bool), Error> {
    assert!(rt; is_ready(&*driver, offset, count));
    let mapping = driver.prepare_data_mapping::<()>(alloc, None, offset, count, overwrite)?;
    let told = (mapping.length(), driver.has_prepared());
    assert!(rt; mapping.is_nonblocking() != told.1);
    let written = write_inside(rt, alloc, driver, &mapping, at, bytes);
    let spent = spend(driver, mapping, commits);
    assert!(rt; !driver.has_prepared());
    written?;
    spent?;
    Ok(told)
}

/// Writes into a mapping that wasn't prepared, and spends it.
fn write_stranger<D: FormatDriverInstance>(
    rt: &impl Abort,
    alloc: Global,
    driver: &mut D,
    mapping: PreparedDataMapping<D::State>,
    bytes: &[u8],
    commits: bool,
) -> Answer {
    let written = write_inside(rt, alloc, driver, &mapping, 0, bytes);
    assert_eq!(rt; spend(driver, mapping, commits), Ok(()));
    done(written)
}

/// Makes a call that changes the size.
fn resize<D: FormatDriverInstance>(
    rt: &impl Abort,
    alloc: Global,
    driver: &mut D,
    call: Call,
) -> Answer {
    assert!(rt; is_ready(&*driver, 0, 0));
    match call {
        Call::Grow(size, mode) => done(driver.resize_grow::<()>(alloc, None, size, mode)),
        Call::Shrink(size) => done(driver.resize_shrink(size)),
        _ => rt.abort(),
    }
}

/// Makes a call.
pub(super) fn make<D: FormatDriverInstance>(
    rt: &impl Abort,
    alloc: Global,
    driver: &mut D,
    call: Call,
) -> Answer {
    match call {
        Call::Give(kind, offset, count) => give_up(rt, alloc, driver, kind, offset, count),
        Call::MapData(offset, count, overwrite) => {
            map_data(rt, alloc, driver, (offset, count, overwrite))
        }
        Call::WriteMapped(offset, bytes) => done(write_mapped(rt, alloc, driver, offset, bytes)),
        Call::Prepare {
            offset,
            count,
            overwrite,
            at,
            bytes,
            commits,
        } => {
            let range = (offset, count, overwrite);
            prepared(prepare(rt, alloc, driver, range, (at, bytes), commits))
        }
        Call::WriteStranger {
            offset,
            count,
            bytes,
            commits,
        } => {
            let mapping = PreparedDataMapping::existing(0, offset, count);
            write_stranger(rt, alloc, driver, mapping, bytes, commits)
        }
        Call::Grow(_, _) | Call::Shrink(_) => resize(rt, alloc, driver, call),
        Call::Flush => done(driver.flush()),
        Call::Sync => done(driver.sync()),
        Call::Invalidate => done(driver.invalidate_cache()),
        _ => ask(rt, alloc, &*driver, call),
    }
}

/// Makes the calls, each of which answers like that. One that is refused for memory leaves the
/// size, and is made again.
pub(super) fn script<D: FormatDriverInstance>(
    rt: &impl Abort,
    alloc: Global,
    driver: &mut D,
    calls: &[(Call, Answer)],
) {
    for (i, &(call, expected)) in calls.iter().enumerate() {
        let size = driver.size();
        let mut answer = make(rt, alloc, driver, call);
        if answer == Answer::Refused(Error::Memory) && answer != expected {
            assert_eq!(rt; driver.size(), size);
            answer = make(rt, alloc, driver, call);
        }
        is_answered(rt, i, answer, expected);
    }
}

/// The calls on the raw image that a storage is. Answers the storage.
pub(super) fn on_raw<S: Storage>(
    rt: &impl Abort,
    alloc: Global,
    storage: S,
    writable: bool,
    calls: &[(Call, Answer)],
) -> S {
    let mut raw = Raw::open_image(storage, writable).expect(rt, "a raw image");
    script(rt, alloc, &mut raw, calls);
    raw.into_inner()
}

/// The calls on a driver.
pub(super) fn on_driver<D: FormatDriverInstance>(
    rt: &impl Abort,
    alloc: Global,
    driver: D,
    calls: &[(Call, Answer)],
) {
    let mut driver = driver;
    script(rt, alloc, &mut driver, calls);
}

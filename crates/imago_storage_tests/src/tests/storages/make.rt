// SPDX-License-Identifier: MIT
//! One call on any storage.
ghost use Rattle.std.specs.Prelude.{◌≡◌, true};
ghost use Rattle.imago_storage.specs.Features.{IsAlignedRequest, IsAlignedTo};

use super::script::{Call, Runs};
use super::set_up::{offsets, runs, same};
use imago_storage::align::{discard_align, zero_align};
use imago_storage::error::Error;
use imago_storage::ext::StorageExt;
use imago_storage::storage::Storage;
use std::alloc::Global;
use std::process::Abort;

/// What a call answers, and the length of the storage then.
pub(super) type Told = (Result<(), Error>, Result<u64, Error>);

/// Makes a call once, on a storage of that name.
pub(super) fn make<S: Storage>(
    rt: &impl Abort,
    alloc: Global,
    storage: &mut S,
    name: Option<&str>,
    call: Call,
) -> Told {
    let answer = make_call(rt, alloc, storage, call);
    same(rt, &Storage::get_filename(&*storage), &name);
    (answer, Storage::size(&*storage))
}

/// Makes a call once.
fn make_call<S: Storage>(
    rt: &impl Abort,
    alloc: Global,
    storage: &mut S,
    call: Call,
) -> Result<(), Error> {
    match call {
        Call::Read(at, bytes) => read(rt, alloc, storage, at, bytes, false),
        Call::Readv(at, bytes) => read(rt, alloc, storage, at, bytes, true),
        Call::Write(at, bytes) => storage.write(alloc, &runs(rt, alloc, bytes), at),
        Call::WriteOffsets(at, count) => storage.write(alloc, &offsets(rt, alloc, at, count), at),
        Call::Writev(at, bytes) => storage.writev(alloc, &runs(rt, alloc, bytes), at),
        Call::Zero(at, count) => storage.write_zeroes(alloc, at, count),
        Call::ZeroAllocated(at, count) => storage.write_allocated_zeroes(alloc, at, count),
        Call::Discard(at, count) => storage.discard(at, count),
        Call::PureRead(at, bytes) => pure_read(rt, alloc, storage, at, bytes),
        Call::PureReadMut(at, bytes) => pure_read_mut(rt, alloc, storage, at, bytes),
        Call::PureWrite(at, bytes) => pure_write(rt, storage, at, &runs(rt, alloc, bytes)),
        Call::PureZero(at, count) => pure_zero(rt, alloc, storage, at, count, false),
        Call::PureZeroAllocated(at, count) => pure_zero(rt, alloc, storage, at, count, true),
        Call::PureDiscard(at, count) => pure_discard(rt, storage, at, count),
        Call::Resize(size, mode) => Storage::resize(storage, size, mode),
        Call::Flush => Storage::flush(storage),
        Call::Sync => Storage::sync(storage),
        Call::Settle => Storage::settle_writes(storage),
        Call::Invalidate => Storage::invalidate_cache(storage),
    }
}

/// Reads bytes, and sees that they are those that are expected.
fn read<S: Storage>(
    rt: &impl Abort,
    alloc: Global,
    storage: &S,
    offset: u64,
    expected: Runs,
    vectored: bool,
) -> Result<(), Error> {
    let expected = runs(rt, alloc, expected);
    let mut buf = runs(rt, alloc, &[(expected.len(), 0x77)]);
    if vectored {
        storage.readv(alloc, &mut buf, offset)?;
    } else {
        storage.read(alloc, &mut buf, offset)?;
    }
    assert!(rt; buf == expected, "other bytes were read");
    Ok(())
}

/// Whether the storage takes a read or write of that range as it is.
fn is_aligned<S: Storage>(storage: &S, offset: u64, count: u64) -> bool
    ensures { result ≡ true → IsAlignedRequest (S.features storage.now) offset count }
{
    let request = storage.req_align() as u64;
    let memory = storage.mem_align() as u64;
    if request == 0 || memory == 0 {
        return false;
    }
    offset % request == 0 && count % request.max(memory) == 0 && offset <= u64::MAX - count
}

/// Whether that range is aligned.
fn is_aligned_to(align: u64, offset: u64, count: u64) -> bool
    ensures { result ≡ true → IsAlignedTo align offset count }
{
    align > 0 && offset % align == 0 && count % align == 0 && offset <= u64::MAX - count
}

/// Reads bytes by one call, and sees that they are those that are expected.
fn pure_read<S: Storage>(
    rt: &impl Abort,
    alloc: Global,
    storage: &S,
    offset: u64,
    expected: Runs,
) -> Result<(), Error> {
    let expected = runs(rt, alloc, expected);
    let mut buf = runs(rt, alloc, &[(expected.len(), 0x77)]);
    assert!(rt; is_aligned(storage, offset, buf.len() as u64));
    storage.pure_readv(&mut buf, offset)?;
    assert!(rt; buf == expected, "other bytes were read");
    Ok(())
}

/// Reads bytes by one call through an exclusive borrow, and sees that they are those that are
/// expected.
fn pure_read_mut<S: Storage>(
    rt: &impl Abort,
    alloc: Global,
    storage: &mut S,
    offset: u64,
    expected: Runs,
) -> Result<(), Error> {
    let expected = runs(rt, alloc, expected);
    let mut buf = runs(rt, alloc, &[(expected.len(), 0x77)]);
    assert!(rt; is_aligned(&*storage, offset, buf.len() as u64));
    Storage::pure_readv_mut(storage, &mut buf, offset)?;
    assert!(rt; buf == expected, "other bytes were read");
    Ok(())
}

/// Writes bytes by one call.
fn pure_write<S: Storage>(
    rt: &impl Abort,
    storage: &mut S,
    offset: u64,
    source: &[u8],
) -> Result<(), Error> {
    assert!(rt; is_aligned(&*storage, offset, source.len() as u64));
    Storage::pure_writev(storage, source, offset)
}

/// Zeroes a range by one call.
fn pure_zero<S: Storage>(
    rt: &impl Abort,
    alloc: Global,
    storage: &mut S,
    offset: u64,
    count: u64,
    allocated: bool,
) -> Result<(), Error> {
    assert!(rt; is_aligned_to(zero_align(&*storage), offset, count));
    if allocated {
        return Storage::pure_write_allocated_zeroes(storage, alloc, offset, count);
    }
    Storage::pure_write_zeroes(storage, alloc, offset, count)
}

/// Discards a range by one call.
fn pure_discard<S: Storage>(
    rt: &impl Abort,
    storage: &mut S,
    offset: u64,
    count: u64,
) -> Result<(), Error> {
    assert!(rt; is_aligned_to(discard_align(&*storage), offset, count));
    Storage::pure_discard(storage, offset, count)
}

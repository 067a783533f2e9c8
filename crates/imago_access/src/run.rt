// SPDX-License-Identifier: MIT
//! Lists of calls on an image.
ghost use Rattle.std.specs.Prelude.{◌≡◌, ◌<◌, ◌++◌, List, length, None, IsTrue, IfOk, IfErr, OnOk};
ghost use Rattle.std.specs.Prelude.{OnErr};
ghost use Rattle.imago_access.specs.declared.run.Reply.{Reply};
ghost use Rattle.imago_access.specs.Chain.{driver, keeps_data};
ghost use Rattle.imago_access.specs.Disk.{disk, backed_value};
ghost use Rattle.imago_access.specs.Runs.{reply_of, told_done, told_data, told_prepared};
ghost use Rattle.imago_access.specs.Runs.{IsBufferRead, IsStep, IsRun};
ghost use Rattle.imago_access.specs.Writing.{commits};
ghost use Rattle.imago_access.specs.Histories.{IsFlatHistory};

use crate::access::FormatAccess;
use crate::mapping::Mapping;
use crate::write::{MappingRequest, Spending};
use imago_drivers::drivers::{FormatDriverInstance, PreallocateMode};
use imago_storage::error::Error;
use std::alloc::Global;

/// A call on an image. Offsets, lengths and sizes are in bytes.
#[derive(Drop)]
pub enum Call {
    /// [`FormatAccess::read`], into a buffer of that length.
    Read {
        /// Where to read from.
        offset: u64,
        /// How much to read.
        length: u64,
    },
    /// [`FormatAccess::write`].
    Write {
        /// Where to write to.
        offset: u64,
        /// What to write.
        bytes: Vec<u8>,
    },
    /// [`FormatAccess::write_zeroes`].
    WriteZeroes {
        /// Where the range begins.
        offset: u64,
        /// How long it is.
        length: u64,
    },
    /// [`FormatAccess::discard_to_zero`].
    DiscardToZero {
        /// Where the range begins.
        offset: u64,
        /// How long it is.
        length: u64,
    },
    /// [`FormatAccess::discard_to_any`].
    DiscardToAny {
        /// Where the range begins.
        offset: u64,
        /// How long it is.
        length: u64,
    },
    /// [`FormatAccess::discard_to_backing`].
    DiscardToBacking {
        /// Where the range begins.
        offset: u64,
        /// How long it is.
        length: u64,
    },
    /// [`FormatAccess::ensure_data_mapping`].
    EnsureData {
        /// Where the range begins.
        offset: u64,
        /// How long it is at most.
        length: u64,
        /// Whether what is mapped may show anything.
        overwrite: bool,
    },
    /// [`FormatAccess::prepare_data_mapping`], then one [`FormatAccess::write_prepared`] of as many
    /// bytes as fit, and [`FormatAccess::commit_data_mapping`] or
    /// [`FormatAccess::cancel_data_mapping`]. A refused write cancels.
    Prepared {
        /// Where the range begins.
        offset: u64,
        /// How long it is at most.
        length: u64,
        /// Whether what is mapped and not written may show anything.
        overwrite: bool,
        /// What to write from the range's beginning on.
        bytes: Vec<u8>,
        /// Whether to commit.
        commit: bool,
    },
    /// [`FormatAccess::resize`].
    Resize {
        /// The new size.
        size: u64,
        /// What new bytes show.
        mode: PreallocateMode,
    },
    /// [`FormatAccess::resize_grow`].
    ResizeGrow {
        /// The new size.
        size: u64,
        /// What new bytes show.
        mode: PreallocateMode,
    },
    /// [`FormatAccess::resize_shrink`].
    ResizeShrink {
        /// The new size.
        size: u64,
    },
    /// [`FormatAccess::get_mapping`].
    GetMapping {
        /// Where the range begins.
        offset: u64,
        /// How long it is at most.
        max_length: u64,
    },
    /// [`FormatAccess::size`].
    Size,
    /// [`FormatAccess::flush`].
    Flush,
    /// [`FormatAccess::sync`].
    Sync,
    /// [`FormatAccess::invalidate_cache`].
    InvalidateCache,
}

/// The reply to a call.
#[derive(Drop)]
pub enum Reply {
    /// It succeeded, and answers nothing.
    Done,
    /// The bytes that were read.
    Data(Vec<u8>),
    /// The size.
    Size(u64),
    /// What a range is.
    Mapped {
        /// What the range is.
        mapping: Mapping,
        /// How long it is.
        length: u64,
    },
    /// Where the data of a range stand: the storage's index in the top driver, and the offset
    /// there.
    DataMapped {
        /// The storage's index.
        storage: usize,
        /// Where they begin in the storage.
        offset: u64,
        /// How long the range is: at least 1 and at most what was asked for, 0 for 0.
        length: u64,
    },
    /// What a prepared mapping was, which is spent.
    Prepared {
        /// How long it was: at least 1 and at most what was asked for, 0 for 0.
        length: u64,
        /// Whether there was nothing to commit, so that what was written shows, also where it was
        /// cancelled.
        nonblocking: bool,
    },
    /// It was refused.
    Refused(Error),
}

/// The reply to a call that answers nothing.
fn done_or_refused(outcome: Result<(), Error>) -> Reply
    ensures { result ≡ reply_of told_done outcome }
{
    match outcome {
        Ok(()) => Reply::Done,
        Err(error) => Reply::Refused(error),
    }
}

/// The reply to a data mapping.
fn data_or_refused(outcome: Result<(usize, u64, u64), Error>) -> Reply
    ensures { result ≡ reply_of told_data outcome }
{
    match outcome {
        Ok((storage, offset, count)) => Reply::DataMapped {
            storage,
            offset,
            length: count,
        },
        Err(error) => Reply::Refused(error),
    }
}

/// The reply to a write through a prepared mapping.
fn prepared_or_refused(outcome: Result<(u64, bool), Error>) -> Reply
    ensures { result ≡ reply_of told_prepared outcome }
{
    match outcome {
        Ok((count, nonblocking)) => Reply::Prepared {
            length: count,
            nonblocking,
        },
        Err(error) => Reply::Refused(error),
    }
}

/// A buffer of that many zeroes.
fn zeroes(alloc: Global, count: usize) -> Result<Vec<u8>, Error>
    ensures buffer { IfOk result (λ v. length v.items ≡ count) }
    ensures memory { IfErr result (λ e. (e ≡ Error.Memory) × (0 < count)) }
{
    let mut bytes = Vec::new(alloc);
    bytes.resize(count, 0)?;
    Ok(bytes)
}

/// Reads into a buffer of its own.
fn read_bytes<D: FormatDriverInstance>(
    alloc: Global,
    image: &FormatAccess<D>,
    offset: u64,
    count: u64,
) -> Result<Vec<u8>, Error>
    ensures { IsBufferRead D.view D.calls image.now offset count result }
{
    let mut bytes = zeroes(alloc, count as usize)?;
    image.read(alloc, &mut bytes, offset)?;
    Ok(bytes)
}

/// Makes one call, and answers its reply.
fn step<D: FormatDriverInstance>(alloc: Global, image: &mut FormatAccess<D>, call: &Call) -> Reply
    requires { (D.view (driver image.old)).pending ≡ None }
    ensures step { IsStep D.view D.calls image.old call.now result image.new }
    ensures spent { (D.view (driver image.new)).pending ≡ None }
{
    match call {
        Call::Read { offset, length } => match read_bytes(alloc, image, *offset, *length) {
            Ok(bytes) => Reply::Data(bytes),
            Err(error) => Reply::Refused(error),
        },
        Call::GetMapping { offset, max_length } => match image.get_mapping(*offset, *max_length) {
            Ok((mapping, length)) => Reply::Mapped { mapping, length },
            Err(error) => Reply::Refused(error),
        },
        Call::Size => Reply::Size(image.size()),
        Call::Write { offset, bytes } => done_or_refused(image.write(alloc, bytes, *offset)),
        Call::WriteZeroes { offset, length } => {
            done_or_refused(image.write_zeroes(alloc, *offset, *length))
        }
        Call::DiscardToZero { offset, length } => {
            done_or_refused(image.discard_to_zero(alloc, *offset, *length))
        }
        Call::DiscardToAny { offset, length } => {
            done_or_refused(image.discard_to_any(alloc, *offset, *length))
        }
        Call::DiscardToBacking { offset, length } => {
            done_or_refused(image.discard_to_backing(alloc, *offset, *length))
        }
        Call::EnsureData {
            offset,
            length,
            overwrite,
        } => data_or_refused(image.ensure_data_mapping(alloc, *offset, *length, *overwrite)),
        Call::Prepared {
            offset,
            length,
            overwrite,
            bytes,
            commit,
        } => {
            let request = MappingRequest {
                offset: *offset,
                count: *length,
                overwrite: *overwrite,
            };
            prepared_or_refused(image.write_mapping(alloc, request, bytes, spending_of(*commit)))
        }
        Call::Resize { size, mode } => done_or_refused(image.resize(alloc, *size, *mode)),
        Call::ResizeGrow { size, mode } => done_or_refused(image.resize_grow(alloc, *size, *mode)),
        Call::ResizeShrink { size } => done_or_refused(image.resize_shrink(*size)),
        Call::Flush => done_or_refused(image.flush()),
        Call::Sync => done_or_refused(image.sync()),
        Call::InvalidateCache => done_or_refused(image.invalidate_cache()),
    }
}

/// How a mapping is spent, by whether to commit it.
fn spending_of(commit: bool) -> Spending
    ensures { commits result ≡ commit }
{
    if commit {
        Spending::Commit
    } else {
        Spending::Cancel
    }
}

/// Makes the calls in order, and appends one reply for each. A refused call is a reply too, and the
/// run goes on.
///
/// Room for all replies is taken first: [`Error::Memory`] where there is none, and then nothing
/// changed. No prepared mapping may wait before, which
/// [`has_prepared`](FormatDriverInstance::has_prepared) of the driver tells, and none does
/// afterwards.
pub fn run<D: FormatDriverInstance>(
    alloc: Global,
    image: &mut FormatAccess<D>,
    calls: &[Call],
    replies: &mut Vec<Reply>,
) -> Result<(), Error>
    requires { (D.view (driver image.old)).pending ≡ None }
    ensures run { OnOk result
        ((rs : List Reply) × (replies.new.items ≡ replies.old.items ++ rs) × IsRun D.view
        D.calls image.old calls.now rs image.new) }
    ensures history { IsTrue (keeps_data D.view image.old)
        → OnOk result
        ((rs : List Reply) × (replies.new.items ≡ replies.old.items ++ rs) × IsFlatHistory
        (backed_value D.view image.old) (disk D.view image.old) calls.now rs
        (disk D.view image.new)) }
    ensures refused { OnErr result ((replies.new.items ≡ replies.old.items)
        × (image.new ≡ image.old)) }
    ensures memory { IfErr result (λ e. e ≡ Error.Memory) }
    ensures spent { (D.view (driver image.new)).pending ≡ None }
{
    replies.reserve(calls.len())?;
    for call in calls {
        let reply = step(alloc, image, call);
        match replies.push(reply) {
            Ok(()) => {}
            Err(_) => unreachable!(),
        }
    }
    Ok(())
}

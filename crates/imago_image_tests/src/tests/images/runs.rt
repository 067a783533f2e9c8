// SPDX-License-Identifier: MIT
//! The same calls as a list for `run`, and the replies.
use super::answer::{Answer, data, is_answered, prepared};
use super::driver::Give;
use super::image::{Call, alone, is_spent, two};
use super::set_up::{copied, printed, runs};
use imago_access::access::FormatAccess;
use imago_access::run::{self, Reply};
use imago_drivers::drivers::FormatDriverInstance;
use imago_drivers::raw::Raw;
use imago_storage::error::Error;
use imago_storage::storage::Storage;
use std::alloc::Global;
use std::process::Abort;

/// A call that gives up the data of a range, as `run` takes it.
fn given(give: Give, offset: u64, length: u64) -> run::Call {
    match give {
        Give::EnsureZero => run::Call::WriteZeroes { offset, length },
        Give::DiscardToZero => run::Call::DiscardToZero { offset, length },
        Give::DiscardToAny => run::Call::DiscardToAny { offset, length },
        Give::DiscardToBacking => run::Call::DiscardToBacking { offset, length },
    }
}

/// The call, as `run` takes it.
fn listed(rt: &impl Abort, alloc: Global, call: Call) -> run::Call {
    match call {
        Call::Size => run::Call::Size,
        Call::Read(offset, bytes) => run::Call::Read {
            offset,
            length: bytes.len() as u64,
        },
        Call::ReadLong(offset, length) => run::Call::Read { offset, length },
        Call::Write(offset, bytes) => run::Call::Write {
            offset,
            bytes: copied(rt, alloc, bytes),
        },
        Call::WriteRun(offset, count, byte) => run::Call::Write {
            offset,
            bytes: runs(rt, alloc, &[(count, byte)]),
        },
        Call::Give(give, offset, count) => given(give, offset, count),
        Call::Map(offset, max_length, _) => run::Call::GetMapping { offset, max_length },
        Call::MapData(offset, length, overwrite) => run::Call::EnsureData {
            offset,
            length,
            overwrite,
        },
        Call::Prepare {
            offset,
            count,
            overwrite,
            at: 0,
            bytes,
            commits,
        } => run::Call::Prepared {
            offset,
            length: count,
            overwrite,
            bytes: copied(rt, alloc, bytes),
            commit: commits,
        },
        Call::Resize(size, mode) => run::Call::Resize { size, mode },
        Call::Grow(size, mode) => run::Call::ResizeGrow { size, mode },
        Call::Shrink(size) => run::Call::ResizeShrink { size },
        Call::Flush => run::Call::Flush,
        Call::Sync => run::Call::Sync,
        Call::Invalidate => run::Call::InvalidateCache,
        _ => rt.abort(),
    }
}

/// The list of calls.
fn list(rt: &impl Abort, alloc: Global, calls: &[(Call, Answer)]) -> Vec<run::Call> {
    let mut list = Vec::new(alloc);
    if list.reserve(calls.len()).is_err() {
        list.reserve(calls.len()).expect(rt, "memory for calls");
    }
    for &(call, _) in calls {
        list.push(listed(rt, alloc, call))
            .expect(rt, "room for a call");
    }
    list
}

/// The answer that a reply to the call is. What it holds is as the call says.
fn told(rt: &impl Abort, alloc: Global, call: Call, reply: &Reply) -> Answer {
    match reply {
        Reply::Done => Answer::Done,
        Reply::Size(size) => Answer::Length(*size),
        Reply::Refused(refusal) => Answer::Refused(*refusal),
        Reply::Data(bytes) => match call {
            Call::Read(_, expected) => {
                assert_eq!(rt; bytes.as_slice(), expected);
                Answer::Done
            }
            _ => Answer::Missing,
        },
        Reply::DataMapped {
            storage,
            offset,
            length,
        } => data(Ok((*storage, *offset, *length))),
        Reply::Prepared {
            length,
            nonblocking,
        } => prepared(Ok((*length, !*nonblocking))),
        Reply::Mapped { mapping, length } => match call {
            Call::Map(_, _, text) => {
                assert_eq!(rt; printed(rt, alloc, mapping).as_str(), text);
                Answer::Length(*length)
            }
            _ => Answer::Missing,
        },
    }
}

/// The replies are the answers to the calls. Answers whether there was memory for each.
fn are_told(rt: &impl Abort, alloc: Global, calls: &[(Call, Answer)], replies: &[Reply]) -> bool {
    assert_eq!(rt; replies.len(), calls.len());
    for (i, (&(call, expected), reply)) in calls.iter().zip(replies).enumerate() {
        let answer = told(rt, alloc, call, reply);
        if answer == Answer::Refused(Error::Memory) && answer != expected {
            return false;
        }
        is_answered(rt, i, answer, expected);
    }
    true
}

/// Runs a list of calls, and appends the replies. Answers whether there was memory for it.
fn run_list<D: FormatDriverInstance>(
    rt: &impl Abort,
    alloc: Global,
    image: &mut FormatAccess<D>,
    list: &[run::Call],
    replies: &mut Vec<Reply>,
) -> bool {
    assert!(rt; is_spent(&*image));
    run::run(alloc, image, list, replies).is_ok()
}

/// Runs the calls as one list, each of which is answered like that, and appends the replies.
/// Answers whether there was memory for it.
pub(super) fn by_run<D: FormatDriverInstance>(
    rt: &impl Abort,
    alloc: Global,
    image: &mut FormatAccess<D>,
    calls: &[(Call, Answer)],
    replies: &mut Vec<Reply>,
) -> bool {
    let before = replies.len();
    if !run_list(rt, alloc, image, &list(rt, alloc, calls), replies) {
        assert_eq!(rt; replies.len(), before);
        return false;
    }
    are_told(
        rt,
        alloc,
        calls,
        replies.get(before..).expect(rt, "replies"),
    )
}

/// Runs the calls as one list on an image of a driver with nothing below it. Answers whether there
/// was memory for it.
fn run_driver<D: FormatDriverInstance>(
    rt: &impl Abort,
    alloc: Global,
    driver: D,
    calls: &[(Call, Answer)],
) -> bool {
    by_run(rt, alloc, &mut alone(driver), calls, &mut Vec::new(alloc))
}

/// Runs the calls as one list on the raw image that a storage is. Answers whether there was memory
/// for it.
pub(super) fn run_raw<S: Storage>(
    rt: &impl Abort,
    alloc: Global,
    storage: S,
    writable: bool,
    calls: &[(Call, Answer)],
) -> bool {
    let driver = Raw::open_image(storage, writable).expect(rt, "a raw image");
    run_driver(rt, alloc, driver, calls)
}

/// Runs the calls as one list on an image of a driver above an image of another one, on which the
/// first calls are made before. Answers whether there was memory for it.
pub(super) fn run_two<D: FormatDriverInstance>(
    rt: &impl Abort,
    alloc: Global,
    lower: (D, &[(Call, Answer)]),
    upper: D,
    calls: &[(Call, Answer)],
) -> bool {
    match two(rt, alloc, lower, upper) {
        Some(mut image) => by_run(rt, alloc, &mut image, calls, &mut Vec::new(alloc)),
        None => false,
    }
}

// SPDX-License-Identifier: MIT
//! What calls on drivers and images answer.
use imago_drivers::drivers::ShallowMapping;
use imago_storage::error::Error;
use std::process::Abort;

/// What a call answers. Offsets and lengths are in bytes.
#[derive(Clone, Copy, Debug, PartialEq, Eq, Drop)]
pub(super) enum Answer {
    Done,
    Is(bool),
    Length(u64),
    /// There is none.
    Missing,
    /// The part of a range that was done.
    Part(u64, u64),
    /// So many bytes of a storage from the offset there on, which may be written.
    Raw(usize, u64, u64),
    /// So many bytes of a storage from the offset there on, which may not be written.
    RawReadOnly(usize, u64, u64),
    /// So many explicit zeroes.
    Zeroes(u64),
    /// What the layer below has from the offset there on, so many bytes, which may be written
    /// there.
    Below(u64, u64),
    /// What the layer below has from the offset there on, so many bytes, which may not be written
    /// there.
    BelowReadOnly(u64, u64),
    /// So many special bytes from the offset on.
    Special(u64, u64),
    /// The end of the disk.
    Eof,
    /// The storage, the offset there and the length that a range is mapped to.
    Data(usize, u64, u64),
    /// The length of a prepared mapping, and whether it waits for its commit.
    Prepared(u64, bool),
    /// The alignments of requests and of memory.
    Aligns(usize, usize),
    Refused(Error),
}

/// The call of that index in a table is answered like that.
pub(super) fn is_answered(rt: &impl Abort, index: usize, answer: Answer, expected: Answer) {
    assert_eq!(rt; answer, expected, "call {index}");
}

/// The answer to a call that answers nothing.
pub(super) fn done(answer: Result<(), Error>) -> Answer {
    match answer {
        Ok(()) => Answer::Done,
        Err(refusal) => Answer::Refused(refusal),
    }
}

/// The answer to a call that takes a part of a range.
pub(super) fn part(answer: Result<(u64, u64), Error>) -> Answer {
    match answer {
        Ok((offset, count)) => Answer::Part(offset, count),
        Err(refusal) => Answer::Refused(refusal),
    }
}

/// The answer to a call that maps a range to bytes of a storage. Nothing may stand anywhere.
pub(super) fn data(answer: Result<(usize, u64, u64), Error>) -> Answer {
    match answer {
        Ok((_, _, 0)) => Answer::Length(0),
        Ok((storage, offset, count)) => Answer::Data(storage, offset, count),
        Err(refusal) => Answer::Refused(refusal),
    }
}

/// The answer to a call that prepares a mapping.
pub(super) fn prepared(answer: Result<(u64, bool), Error>) -> Answer {
    match answer {
        Ok((count, waits)) => Answer::Prepared(count, waits),
        Err(refusal) => Answer::Refused(refusal),
    }
}

/// The answer to a call that says what a range is.
pub(super) fn place(answer: Result<(ShallowMapping, u64), Error>) -> Answer {
    match answer {
        Ok((mapping, count)) => mapped(mapping, count),
        Err(refusal) => Answer::Refused(refusal),
    }
}

/// So many bytes are that.
fn mapped(mapping: ShallowMapping, count: u64) -> Answer {
    match mapping {
        ShallowMapping::Raw {
            storage,
            offset,
            writable,
        } => {
            if writable {
                return Answer::Raw(storage, offset, count);
            }
            Answer::RawReadOnly(storage, offset, count)
        }
        ShallowMapping::Indirect { offset, writable } => {
            if writable {
                return Answer::Below(offset, count);
            }
            Answer::BelowReadOnly(offset, count)
        }
        ShallowMapping::Zero { explicit } => {
            if explicit {
                return Answer::Zeroes(count);
            }
            Answer::Part(0, count)
        }
        ShallowMapping::Special { offset } => Answer::Special(offset, count),
        ShallowMapping::Eof => {
            if count == 0 {
                return Answer::Eof;
            }
            Answer::Length(count)
        }
    }
}

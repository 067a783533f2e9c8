// SPDX-License-Identifier: MIT
//! What a call may leave of a disk: a list that the test keeps, and a rule for each byte.
use super::answer::Answer;
use super::set_up::number;

/// A range of a disk, by its offset and its length in bytes.
pub(super) type Range = (u64, u64);

/// What new bytes are.
#[derive(Clone, Copy)]
pub(super) enum New {
    /// Bytes that differ, the first of them that one.
    Numbers(u8),
    /// Equal bytes.
    Equal(u8),
    /// Those of the layer below at the same offsets, 0 where it has none.
    Below,
    /// Anything.
    Unspecified,
}

/// What a call does with the bytes of a range.
#[derive(Clone, Copy)]
pub(super) enum How {
    /// All are new. Where the call is refused, each is old or new.
    Done,
    /// Each is old or new, whatever the call answers.
    Partly,
    /// All are new. Where the call is refused, each is unspecified, since a mapping for overwriting
    /// was committed.
    Overwritten,
    /// All are new where the mapping has no state, and none where it has one, since it is
    /// cancelled.
    Cancelled,
}

/// What a call does to a disk. It does it on the part that it answers, if it answers one.
#[derive(Clone, Copy)]
pub(super) enum Effect {
    /// Nothing changes.
    Kept,
    /// The bytes of a range change.
    Changed(How, Range, New),
    /// The disk grows to that size. Where the call is refused, nothing changes.
    Grown(u64, New),
    /// The disk is cut to that size. Where the call is refused, nothing changes.
    Cut(u64),
}

/// The bytes of a disk, and those of the layer below.
#[derive(Drop)]
pub(super) struct Disk {
    pub(super) bytes: Vec<u8>,
    pub(super) below: Vec<u8>,
}

/// The byte at an offset, 0 past the end.
fn byte_at(bytes: &[u8], offset: usize) -> u8 {
    match bytes.get(offset) {
        Some(byte) => *byte,
        None => 0,
    }
}

/// Whether a call was refused.
pub(super) fn is_refusal(answer: Answer) -> bool {
    matches!(answer, Answer::Refused(_))
}

/// The part of a range that a call did.
fn part_of((start, count): Range, answer: Answer) -> Range {
    match answer {
        Answer::Part(offset, done) => (offset, done),
        Answer::Data(_, _, done) | Answer::Prepared(done, _) => (start, count.min(done)),
        _ => (start, count),
    }
}

/// Whether a part lies in a range. One of nothing may stand anywhere.
fn is_part((start, count): Range, (offset, done): Range) -> bool {
    if done == 0 {
        return true;
    }
    if offset < start {
        return false;
    }
    let skipped = offset - start;
    skipped <= count && done <= count - skipped
}

/// What a call did by its answer.
fn effect_of(effect: Effect, answer: Answer) -> Effect {
    if is_refusal(answer) {
        return match effect {
            Effect::Changed(How::Overwritten, range, _) => {
                Effect::Changed(How::Partly, range, New::Unspecified)
            }
            Effect::Changed(_, range, new) => Effect::Changed(How::Partly, range, new),
            Effect::Kept | Effect::Grown(_, _) | Effect::Cut(_) => Effect::Kept,
        };
    }
    match (effect, answer) {
        (Effect::Changed(How::Cancelled, _, _), Answer::Prepared(_, true)) => Effect::Kept,
        (Effect::Changed(How::Cancelled, range, new), _) => {
            Effect::Changed(How::Done, part_of(range, answer), new)
        }
        (Effect::Changed(how, range, new), _) => {
            Effect::Changed(how, part_of(range, answer), new)
        }
        _ => effect,
    }
}

impl Disk {
    /// Whether a byte is what new ones are. The first of them stands at the start.
    fn is_new(&self, new: New, start: u64, offset: usize, byte: u8) -> bool {
        match new {
            New::Numbers(first) => byte == number(offset.saturating_sub(start as usize), first),
            New::Equal(other) => byte == other,
            New::Below => byte == byte_at(&self.below, offset),
            New::Unspecified => true,
        }
    }

    /// Whether a byte of the range that changes may stand at an offset.
    fn may_hold(&self, effect: Effect, offset: usize, byte: u8) -> bool {
        match effect {
            Effect::Changed(how, range, new) => {
                let stays = matches!(how, How::Partly) && byte == byte_at(&self.bytes, offset);
                stays || self.is_new(new, range.0, offset, byte)
            }
            Effect::Grown(_, new) => self.is_new(new, 0, offset, byte),
            Effect::Kept | Effect::Cut(_) => false,
        }
    }

    /// The range of a disk that changes, which may end behind it.
    fn changed(&self, effect: Effect) -> Range {
        match effect {
            Effect::Changed(_, range, _) => range,
            Effect::Grown(_, _) | Effect::Kept | Effect::Cut(_) => {
                (self.bytes.len() as u64, u64::MAX)
            }
        }
    }

    /// Whether the bytes outside a range are as they were, as far as there are any.
    fn is_kept_outside(&self, (start, count): Range, now: &[u8]) -> bool {
        let kept = now.len().min(self.bytes.len());
        let end = start.saturating_add(count).min(kept as u64) as usize;
        let start = start.min(kept as u64) as usize;
        now.get(..start) == self.bytes.get(..start)
            && now.get(end..kept) == self.bytes.get(end..kept)
    }

    /// The size after a call.
    fn size_after(&self, effect: Effect) -> u64 {
        let size = self.bytes.len() as u64;
        match effect {
            Effect::Grown(new, _) => size.max(new),
            Effect::Cut(new) => size.min(new),
            _ => size,
        }
    }

    /// Whether a call that was answered like that may leave these bytes.
    pub(super) fn may_be(&self, effect: Effect, answer: Answer, now: &[u8]) -> bool {
        if let Effect::Changed(_, range, _) = effect {
            if !is_part(range, part_of(range, answer)) {
                return false;
            }
        }
        let effect = effect_of(effect, answer);
        let range = self.changed(effect);
        if now.len() as u64 != self.size_after(effect) || !self.is_kept_outside(range, now) {
            return false;
        }
        let end = range.0.saturating_add(range.1);
        for offset in range.0..end.min(now.len() as u64) {
            let offset = offset as usize;
            if !self.may_hold(effect, offset, byte_at(now, offset)) {
                return false;
            }
        }
        true
    }
}

// SPDX-License-Identifier: MIT
//! What a disk shows: a list of bytes and a table of guest blocks that the test keeps, and what
//! each call makes of them.
use super::call::{Answer, Call, InSteps, Kind, Level, Step};
use super::set_up::{byte_at, number};
use imago_drivers::drivers::PreallocateMode;
use std::process::Abort;

/// The length of a guest block.
pub(super) const BLOCK: u64 = 16;

/// A range of a disk, by its offset and its length in bytes.
type Range = (u64, u64);

/// What bytes become.
#[derive(Clone, Copy)]
enum New {
    Zero,
    /// Those of the layer below at the same offsets, 0 past its end.
    Below,
    /// Bytes that differ, the first of them that one.
    Numbers(u8),
}

/// A disk above a layer.
#[derive(Drop)]
pub(super) struct Model {
    pub(super) bytes: Vec<u8>,
    pub(super) kinds: Vec<Kind>,
    pub(super) below: Vec<u8>,
    /// How many data blocks were taken at once, at most.
    pub(super) peak: u64,
}

/// How many guest blocks so many bytes are in.
fn blocks(size: u64) -> u64 {
    size.saturating_add(BLOCK - 1) / BLOCK
}

/// How many bytes of a range that begins at an offset are in its first guest block.
pub(super) fn in_block(offset: u64, count: u64) -> u64 {
    count.min(BLOCK - offset % BLOCK)
}

/// Whether an offset lies in a range.
fn is_inside((start, count): Range, offset: u64) -> bool {
    start <= offset && offset - start < count
}

/// Gives a list that length.
fn resize<T: Copy>(rt: &impl Abort, list: &mut Vec<T>, count: u64, new: T) {
    assert!(rt; count < 1 << 16, "a short list");
    if list.resize(count as usize, new).is_err() {
        list.resize(count as usize, new)
            .expect(rt, "memory for a list");
    }
}

/// Whether new places of a growth show the layer below, in data blocks.
fn is_filled(mode: PreallocateMode) -> bool {
    !matches!(mode, PreallocateMode::None | PreallocateMode::Zero)
}

impl Model {
    /// The size of the disk.
    pub(super) fn size(&self) -> u64 {
        self.bytes.len() as u64
    }

    /// How many guest blocks are in data blocks.
    pub(super) fn used(&self) -> u64 {
        let mut used: u64 = 0;
        for kind in self.kinds.iter() {
            if *kind == Kind::Data {
                used = used.saturating_add(1);
            }
        }
        used
    }

    /// What the guest block of that index is.
    fn kind(&self, index: u64) -> Kind {
        match self.kinds.get(index as usize) {
            Some(kind) => *kind,
            None => Kind::Absent,
        }
    }

    /// Makes the guest block of that index such a one.
    fn set(&mut self, index: u64, kind: Kind) {
        if let Some(entry) = self.kinds.get_mut(index as usize) {
            *entry = kind;
        }
    }

    /// What a byte becomes. The range begins at `start`.
    fn new_byte(&self, new: New, start: u64, offset: u64) -> u8 {
        match new {
            New::Zero => 0,
            New::Below => byte_at(&self.below, offset),
            New::Numbers(first) => number(offset.saturating_sub(start), first),
        }
    }

    /// Changes the bytes of a range.
    fn put(&mut self, (start, count): Range, new: New) {
        for offset in start..start.saturating_add(count).min(self.size()) {
            let byte = self.new_byte(new, start, offset);
            if let Some(entry) = self.bytes.get_mut(offset as usize) {
                *entry = byte;
            }
        }
    }

    /// Takes over the bytes of a range, which are unspecified.
    fn adopt(&mut self, (start, count): Range, now: &[u8]) {
        for offset in start..start.saturating_add(count).min(self.size()) {
            if let Some(entry) = self.bytes.get_mut(offset as usize) {
                *entry = byte_at(now, offset);
            }
        }
    }

    /// The guest blocks that lie in a range: the first, and the one behind the last. The disk's end
    /// ends the last one.
    fn whole(&self, (start, count): Range) -> (u64, u64) {
        let end = start.saturating_add(count);
        if end == self.size() {
            return (blocks(start), blocks(end));
        }
        (blocks(start), end / BLOCK)
    }

    /// The guest blocks that a range touches: the first, and the one behind the last.
    fn touched(&self, (start, count): Range) -> (u64, u64) {
        if count == 0 {
            return (0, 0);
        }
        (start / BLOCK, blocks(start.saturating_add(count)))
    }

    /// Makes the whole guest blocks of a range explicit zeroes, or absent. The part that they hold
    /// is answered.
    fn clear(&mut self, range: Range, kind: Kind, new: New) -> Range {
        let (first, last) = self.whole(range);
        if last <= first {
            return (0, 0);
        }
        for index in first..last {
            self.set(index, kind);
        }
        let start = first.saturating_mul(BLOCK);
        let end = last.saturating_mul(BLOCK).min(self.size());
        let part = (start, end.saturating_sub(start));
        self.put(part, new);
        part
    }

    /// Whether the bytes of a guest block outside a range are zeroes that stand in no storage.
    fn is_zero_outside(&self, index: u64, range: Range) -> bool {
        let start = index.saturating_mul(BLOCK);
        for offset in start..start.saturating_add(BLOCK).min(self.size()) {
            let stands_nowhere = match self.kind(index) {
                Kind::Absent => self.below.len() as u64 <= offset,
                Kind::Zero => true,
                Kind::Data => false,
            };
            if !is_inside(range, offset) && !stands_nowhere {
                return false;
            }
        }
        true
    }

    /// Zeroes a range of an image. A guest block whose rest is zero already becomes an explicit
    /// zero, and each other one that isn't gets data.
    fn zero(&mut self, range: Range) {
        let (first, last) = self.touched(range);
        for index in first..last {
            if self.is_zero_outside(index, range) {
                self.set(index, Kind::Zero);
            } else if self.kind(index) != Kind::Zero {
                self.set(index, Kind::Data);
            }
        }
        self.put(range, New::Zero);
    }

    /// Writes bytes that differ.
    fn write(&mut self, range: Range, first: u8) {
        let (from, until) = self.touched(range);
        for index in from..until {
            self.set(index, Kind::Data);
        }
        self.put(range, New::Numbers(first));
    }

    /// Maps a range to data, and answers how much of it. What is mapped for overwriting is
    /// unspecified.
    fn map_data(&mut self, range: Range, overwrite: bool, now: &[u8]) -> u64 {
        let (start, count) = range;
        let count = in_block(start, count);
        let index = start / BLOCK;
        if count > 0 && self.kind(index) != Kind::Data {
            self.set(index, Kind::Data);
            if overwrite {
                self.adopt((start, count), now);
            }
        }
        count
    }

    /// Where the bytes of a write in steps stand.
    fn written_in(&self, steps: InSteps) -> Range {
        let room = in_block(steps.offset, steps.count).saturating_sub(steps.at);
        (
            steps.offset.saturating_add(steps.at),
            steps.written.0.min(room),
        )
    }

    /// Whether a write in steps waits for its commit.
    fn waits(&self, steps: InSteps) -> bool {
        steps.count > 0 && self.kind(steps.offset / BLOCK) != Kind::Data
    }

    /// Makes a write in steps.
    fn write_in_steps(&mut self, steps: InSteps, now: &[u8]) -> Answer {
        let count = in_block(steps.offset, steps.count);
        let waits = self.waits(steps);
        if waits && !steps.commits {
            self.peak = self.peak.max(self.used().saturating_add(1));
            return Answer::Prepared(count, true);
        }
        self.map_data((steps.offset, steps.count), steps.overwrite, now);
        self.put(self.written_in(steps), New::Numbers(steps.written.1));
        Answer::Prepared(count, waits)
    }

    /// Makes what a growth adds to the guest block that the old end cuts, up to that offset.
    fn grow_cut(&mut self, old: u64, until: u64, mode: PreallocateMode, now: &[u8]) {
        let index = old / BLOCK;
        let kind = self.kind(index);
        let added = (old, until.saturating_sub(old));
        if is_filled(mode) {
            self.set(index, Kind::Data);
            self.put(added, New::Below);
            return;
        }
        let to_zero = mode == PreallocateMode::Zero;
        match kind {
            Kind::Absent if to_zero => self.set(index, Kind::Data),
            Kind::Absent => self.put(added, New::Below),
            Kind::Data if !to_zero => self.adopt(added, now),
            Kind::Data | Kind::Zero => {}
        }
    }

    /// Grows the disk. New bytes are zero where nothing else is put there.
    fn grow(&mut self, rt: &impl Abort, size: u64, mode: PreallocateMode, now: &[u8]) {
        let old = self.size();
        if size <= old {
            return;
        }
        let (kind, new) = match mode {
            PreallocateMode::None => (Kind::Absent, New::Below),
            PreallocateMode::Zero => (Kind::Zero, New::Zero),
            _ => (Kind::Data, New::Below),
        };
        resize(rt, &mut self.bytes, size, 0);
        resize(rt, &mut self.kinds, blocks(size), kind);
        let until = blocks(old).saturating_mul(BLOCK).min(size);
        if old < until {
            self.grow_cut(old, until, mode, now);
        }
        self.put((until, size - until), new);
    }

    /// Cuts the disk.
    fn cut(&mut self, rt: &impl Abort, size: u64) {
        if size < self.size() {
            resize(rt, &mut self.bytes, size, 0);
            resize(rt, &mut self.kinds, blocks(size), Kind::Absent);
        }
    }

    /// Makes a call of an image. What it answers is answered.
    fn on_image(&mut self, rt: &impl Abort, call: Call, now: &[u8]) -> Answer {
        match call {
            Call::Write(offset, count, first) => self.write((offset, count), first),
            Call::WriteZeroes(offset, count) | Call::DiscardToZero(offset, count) => {
                self.zero((offset, count));
            }
            Call::DiscardToAny(offset, count) => {
                self.clear((offset, count), Kind::Zero, New::Zero);
            }
            Call::DiscardToBacking(offset, count) => {
                self.clear((offset, count), Kind::Absent, New::Below);
            }
            Call::MapData(offset, count, overwrite) => {
                return Answer::Mapped(self.map_data((offset, count), overwrite, now));
            }
            Call::Prepare(steps) => return self.write_in_steps(steps, now),
            Call::Grow(size, mode) => self.grow(rt, size, mode, now),
            Call::Resize(size, mode) => {
                self.grow(rt, size, mode, now);
                self.cut(rt, size);
            }
            Call::Shrink(size) => self.cut(rt, size),
        }
        Answer::Done
    }

    /// Makes a call of a driver. What it answers is answered.
    fn on_driver(&mut self, rt: &impl Abort, call: Call, now: &[u8]) -> Answer {
        let (start, count) = match call {
            Call::Write(offset, count, first) => {
                let part = (offset, in_block(offset, count));
                self.write(part, first);
                part
            }
            Call::WriteZeroes(offset, count)
            | Call::DiscardToZero(offset, count)
            | Call::DiscardToAny(offset, count) => {
                self.clear((offset, count), Kind::Zero, New::Zero)
            }
            Call::DiscardToBacking(offset, count) => {
                self.clear((offset, count), Kind::Absent, New::Below)
            }
            Call::Resize(size, mode) => return self.on_image(rt, Call::Grow(size, mode), now),
            _ => return self.on_image(rt, call, now),
        };
        if count == 0 {
            return Answer::Part(0, 0);
        }
        Answer::Part(start, count)
    }

    /// Makes a call, which has left these bytes. What it answers is answered.
    pub(super) fn make(&mut self, rt: &impl Abort, (level, call): Step, now: &[u8]) -> Answer {
        let answer = match level {
            Level::Image => self.on_image(rt, call, now),
            Level::Driver => self.on_driver(rt, call, now),
        };
        self.peak = self.peak.max(self.used());
        answer
    }

    /// Where a refused call may have left new bytes, and which.
    fn torn(&self, (level, call): Step) -> (Range, New) {
        let is_image = level == Level::Image;
        match call {
            Call::Write(offset, count, first) => {
                let written = if is_image {
                    count
                } else {
                    in_block(offset, count)
                };
                ((offset, written), New::Numbers(first))
            }
            Call::WriteZeroes(offset, count) | Call::DiscardToZero(offset, count) => {
                let zeroed = if is_image { count } else { 0 };
                ((offset, zeroed), New::Zero)
            }
            Call::Prepare(steps) => {
                if self.waits(steps) {
                    return ((0, 0), New::Zero);
                }
                (self.written_in(steps), New::Numbers(steps.written.1))
            }
            _ => ((0, 0), New::Zero),
        }
    }

    /// How many data blocks a refused call may have taken.
    fn taken(&self, (_, call): Step) -> u64 {
        let (first, last) = match call {
            Call::Write(offset, count, _)
            | Call::WriteZeroes(offset, count)
            | Call::DiscardToZero(offset, count)
            | Call::MapData(offset, count, _) => self.touched((offset, count)),
            Call::Prepare(_) => (0, 1),
            Call::Grow(size, _) | Call::Resize(size, _) => (self.size() / BLOCK, blocks(size)),
            _ => (0, 0),
        };
        last.saturating_sub(first)
    }

    /// Takes over what a refused call left, if it may have left that: each byte that it writes old
    /// or new, and all else as it was.
    pub(super) fn refuse(&mut self, step: Step, now: Vec<u8>, kinds: Vec<Kind>) -> bool {
        let (range, new) = self.torn(step);
        if now.len() != self.bytes.len() || kinds.len() != self.kinds.len() {
            return false;
        }
        for (i, (&byte, &old)) in now.iter().zip(self.bytes.iter()).enumerate() {
            let may_be_new = is_inside(range, i as u64);
            if byte != old && !(may_be_new && byte == self.new_byte(new, range.0, i as u64)) {
                return false;
            }
        }
        let (first, last) = self.touched(range);
        for (i, (&kind, &old)) in kinds.iter().zip(self.kinds.iter()).enumerate() {
            if kind != old && !(first <= i as u64 && (i as u64) < last) {
                return false;
            }
        }
        self.peak = self.peak.max(self.used().saturating_add(self.taken(step)));
        self.bytes = now;
        self.kinds = kinds;
        true
    }
}

// SPDX-License-Identifier: MIT
//! A thousand calls beside a table that the test keeps.
use super::call::{Call, InSteps, Level, Step};
use super::model::in_block;
use super::run::Run;
use super::subject::{Disk, Fault, LentDriver, PLAIN};
use super::trial::{Trial, try_cow};
use imago_drivers::drivers::{FormatDriverInstance, PreallocateMode};
use imago_test_storages::faulty::Faulty;
use std::alloc::Global;
use std::process::Abort;

const CALLS: u64 = 1000;

/// The size that a disk begins with, and the one that it grows to at most.
const SIZE: u64 = 70;

const MOST: u64 = 170;

/// Numbers that follow from a first one.
#[derive(Drop)]
struct Numbers {
    state: u64,
}

impl Numbers {
    /// The next number, which is less than the limit.
    fn next(&mut self, limit: u64) -> u64 {
        let product = self.state.wrapping_mul(6364136223846793005);
        self.state = product.wrapping_add(1442695040888963407);
        match (self.state >> 33).checked_rem(limit) {
            Some(number) => number,
            None => 0,
        }
    }

    /// A range of a disk of that size. Every fourth one ends with it.
    fn range(&mut self, size: u64) -> (u64, u64) {
        let offset = self.next(size.saturating_add(1));
        let rest = size.saturating_sub(offset);
        if self.next(4) == 0 {
            return (offset, rest);
        }
        (offset, self.next(rest.saturating_add(1)))
    }

    /// The mode of a growth.
    fn mode(&mut self) -> PreallocateMode {
        match self.next(5) {
            0 => PreallocateMode::None,
            1 => PreallocateMode::Zero,
            2 => PreallocateMode::FormatAllocate,
            3 => PreallocateMode::FullAllocate,
            _ => PreallocateMode::WriteData,
        }
    }

    /// A write in steps.
    fn in_steps(&mut self, (offset, count): (u64, u64)) -> InSteps {
        InSteps {
            offset,
            count,
            overwrite: self.next(2) == 0,
            at: self.next(in_block(offset, count).saturating_add(1)),
            written: (self.next(20), 1),
            commits: self.next(2) == 0,
        }
    }

    /// A call on a disk of that size.
    fn call(&mut self, size: u64) -> Call {
        let (offset, count) = self.range(size);
        match self.next(13) {
            0 => Call::WriteZeroes(offset, count),
            1 => Call::DiscardToZero(offset, count),
            2 => Call::DiscardToAny(offset, count),
            3 => Call::DiscardToBacking(offset, count),
            4 => Call::MapData(offset, count, self.next(2) == 0),
            5 | 6 | 7 => Call::Prepare(self.in_steps((offset, count))),
            8 => Call::Grow(size.saturating_add(self.next(40)).min(MOST), self.mode()),
            9 => Call::Resize(self.next(MOST), self.mode()),
            10 => Call::Shrink(self.next(MOST)),
            _ => Call::Write(offset, count.min(40), (self.next(150) % 150) as u8),
        }
    }
}

/// Makes calls that follow from a first number.
pub(super) fn follow<
    D: FormatDriverInstance<Storage = Faulty> + Disk,
    E: FormatDriverInstance<Storage = Faulty> + LentDriver,
>(rt: &impl Abort, alloc: Global, state: u64) {
    let mut numbers = Numbers { state };
    let mut run = Run::<D, E>::open(rt, alloc, SIZE, PLAIN, Fault::Never);
    for _ in 0..CALLS {
        let level = match numbers.next(2) {
            0 => Level::Image,
            _ => Level::Driver,
        };
        let step: Step = (level, numbers.call(run.model.size()));
        run.step_on(rt, alloc, step);
    }
    run.keeps_below(rt, alloc);
}

#[test]
fn a_thousand_calls_are_followed(rt: HostRuntime) {
    try_cow(&rt, rt.alloc(), Trial::Random(7));
}

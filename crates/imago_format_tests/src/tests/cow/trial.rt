// SPDX-License-Identifier: MIT
//! What is tried of copy-on-write disks.
use super::call::Level;
use super::growth::grow_each;
use super::layers::stand_on_one_another;
use super::promises::{Promise, keep};
use super::random::follow;
use super::subject::{Disk, LentDriver};
use super::sweep::{Row, fail_below, sweep};
use imago_cow::cow::{Cow, CowState};
use imago_drivers::drivers::FormatDriverInstance;
use imago_drivers::raw::Raw;
use imago_test_storages::faulty::Faulty;
use std::alloc::Global;
use std::process::Abort;

/// What is tried.
#[derive(Clone, Copy)]
pub(super) enum Trial {
    /// A disk whose end cuts a guest block grows.
    Growth,
    /// Disks stand on one another.
    Layers,
    /// What a disk does with its data blocks.
    Promise(Promise),
    /// Calls that follow from that number.
    Random(u64),
    /// Calls on that level, over storages with that alignment, each of whose calls fails.
    Sweep((Level, usize), &'static [Row]),
    /// Calls over a layer that fails.
    Below,
}

/// Tries that of the disks of a driver, which are lent images of another driver.
fn try_on<
    D: FormatDriverInstance<Storage = Faulty, State = CowState> + Disk,
    E: FormatDriverInstance<Storage = Faulty> + LentDriver,
>(rt: &impl Abort, alloc: Global, trial: Trial) {
    match trial {
        Trial::Growth => grow_each::<D, E>(rt, alloc),
        Trial::Layers => stand_on_one_another::<D>(rt, alloc),
        Trial::Promise(promise) => keep::<D>(rt, alloc, promise),
        Trial::Random(state) => follow::<D, E>(rt, alloc, state),
        Trial::Sweep(form, rows) => sweep::<D, E>(rt, alloc, form, rows),
        Trial::Below => fail_below::<D, E>(rt, alloc),
    }
}

/// Tries that of copy-on-write disks, which are lent raw images.
pub(super) fn try_cow(rt: &impl Abort, alloc: Global, trial: Trial) {
    try_on::<Cow<Faulty>, Raw<Faulty>>(rt, alloc, trial);
}

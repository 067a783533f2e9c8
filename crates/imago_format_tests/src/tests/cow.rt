// SPDX-License-Identifier: MIT
//! Copy-on-write disks: here their table, where there is memory enough, and in the modules the
//! disks.
mod call;
mod growth;
mod layers;
mod model;
mod promises;
mod random;
mod run;
mod set_up;
mod subject;
mod sweep;
mod trial;

use imago_cow::table::{GuestBlock, Table, WithoutData};
use std::alloc::Global;
use std::process::Abort;

/// What is done to a table.
#[derive(Clone, Copy)]
enum Step {
    /// Takes a data block.
    Take,
    /// Gives the held one back.
    Release,
    /// Enters the held one there.
    Enter(usize),
    /// Makes a guest block an explicit zero.
    Clear(usize),
    /// Adds absent guest blocks.
    Grow(usize),
    /// Adds a guest block in the held one.
    Push,
    /// Drops the guest blocks from there on.
    Truncate(usize),
}

/// A step, and then how many guest blocks there are, how many data blocks, how many of these are
/// named, and which one is the lowest unused.
type Row = (Step, usize, u64, u64, u64);

static ROWS: [Row; 14] = [
    (Step::Take, 3, 1, 0, 1),
    (Step::Enter(2), 3, 1, 1, 1),
    (Step::Take, 3, 2, 1, 2),
    (Step::Enter(0), 3, 2, 2, 2),
    (Step::Take, 3, 3, 2, 3),
    (Step::Release, 3, 3, 2, 2),
    (Step::Clear(2), 3, 3, 1, 0),
    (Step::Take, 3, 3, 1, 2),
    (Step::Push, 4, 3, 2, 2),
    (Step::Grow(2), 6, 3, 2, 2),
    (Step::Truncate(1), 1, 3, 1, 0),
    (Step::Take, 1, 3, 1, 2),
    (Step::Release, 1, 3, 1, 0),
    (Step::Truncate(0), 0, 3, 0, 0),
];

/// A table of so many absent guest blocks.
fn table(rt: &impl Abort, alloc: Global, guest_blocks: usize) -> Table {
    match Table::new(alloc, guest_blocks) {
        Ok(table) => table,
        Err(_) => Table::new(alloc, guest_blocks).expect(rt, "memory for a table"),
    }
}

/// Takes the lowest unused data block.
fn take(rt: &impl Abort, table: &mut Table) {
    assert!(rt; table.held().is_none());
    let next = table.next();
    if table.held().is_some() {
        return;
    }
    let taken = match table.take() {
        Ok(block) => Ok(block),
        Err(_) => table.take(),
    };
    assert!(rt; taken.is_ok_and(|block| block == next));
    assert!(rt; table.held().is_some_and(|block| block == next));
}

/// Enters the held data block in a guest block without data.
fn enter(rt: &impl Abort, table: &mut Table, index: usize) {
    assert!(rt; index < table.len() && table.held().is_some());
    if index >= table.len() || table.held().is_none() {
        return;
    }
    match table.get(index) {
        GuestBlock::Absent | GuestBlock::Zero => table.enter(index),
        GuestBlock::Data(_) => assert!(rt; false),
    }
}

/// Adds a guest block in the held data block.
fn push(rt: &impl Abort, table: &mut Table) {
    assert!(rt; table.held().is_some());
    if table.held().is_none() {
        return;
    }
    match table.reserve(1) {
        Ok(()) => table.push_held(),
        Err(_) => match table.reserve(1) {
            Ok(()) => table.push_held(),
            Err(_) => assert!(rt; false),
        },
    }
}

/// Makes a guest block an explicit zero.
fn clear(rt: &impl Abort, table: &mut Table, index: usize) {
    assert!(rt; index < table.len());
    if index < table.len() {
        table.clear(index, WithoutData::Zero);
        assert_eq!(rt; table.get(index), GuestBlock::Zero);
    }
}

/// Adds absent guest blocks.
fn grow(rt: &impl Abort, table: &mut Table, additional: usize) {
    if table.grow(additional, WithoutData::Absent).is_err() {
        assert!(rt; table.grow(additional, WithoutData::Absent).is_ok());
    }
}

/// Does a step.
fn make(rt: &impl Abort, table: &mut Table, step: Step) {
    match step {
        Step::Take => take(rt, table),
        Step::Release => table.release(),
        Step::Enter(index) => enter(rt, table, index),
        Step::Clear(index) => clear(rt, table, index),
        Step::Grow(additional) => grow(rt, table, additional),
        Step::Push => push(rt, table),
        Step::Truncate(guest_blocks) => table.truncate(guest_blocks),
    }
}

fn check_the_lowest_free_data_block_is_taken(rt: &impl Abort, alloc: Global) {
    let mut table = table(rt, alloc, 3);
    for &(step, guest_blocks, count, used, next) in &ROWS {
        make(rt, &mut table, step);
        assert_eq!(rt; table.len(), guest_blocks);
        assert_eq!(rt; table.block_count(), count);
        assert_eq!(rt; table.used(), used);
        assert_eq!(rt; table.next(), next);
    }
}

#[test]
fn the_lowest_free_data_block_is_taken(rt: HostRuntime) {
    check_the_lowest_free_data_block_is_taken(&rt, rt.alloc());
}

// SPDX-License-Identifier: MIT
//! The preparing of a data block for a write.
ghost use Rattle.std.specs.Prelude.{◌≡◌, ℕ, ◌+◌, ◌*◌, ◌^◌, ◌<◌, ◌≤◌, length};
ghost use Rattle.std.specs.Prelude.{max, Option, Some, None, IfOk, IfErr, OnOk, OnErr};
ghost use Rattle.std.specs.Prelude.{true, false};
ghost use Rattle.imago_drivers.specs.Operation.{Write};
ghost use Rattle.imago_drivers.specs.Lengths.{padded_to};
ghost use Rattle.imago_drivers.specs.Reasons.{allowed};
ghost use Rattle.imago_drivers.specs.Done.{lending_reasons};
ghost use Rattle.imago_drivers.specs.Place.{values};
ghost use Rattle.imago_drivers.specs.LayerBelow.{lent};
ghost use Rattle.imago_drivers.specs.Prepared.{IsPrepared};
ghost use Rattle.imago_drivers.specs.Frame.{IsUnchanged};
ghost use Rattle.imago_drivers.specs.Causes.{IsSettled, IsOnRange};
ghost use Rattle.imago_cow.specs.Table.{named_count, without_data, is_absent};
ghost use Rattle.imago_cow.specs.CopyCalls.{outcome, IsRoundTaken};
ghost use Rattle.imago_cow.specs.TableView.{entries_of, held_of, count_of, HasTaken, IsIdle};
ghost use Rattle.imago_cow.specs.Guest.{IsEmptyPart, cow_place};
ghost use Rattle.imago_cow.specs.Copies.{IsLendingCall, over_reasons};
ghost use Rattle.imago_cow.specs.Cow.{table_view, cow_cause, cow_copies, data_count, in_block};
ghost use Rattle.imago_cow.specs.Cow.{IsMappingOf, IsWaitingFor};

use crate::copy::{Part, copy_round};
use crate::cow::Waiting;
use crate::table::Table;
use imago_drivers::layer::LowerLayer;
use imago_storage::error::Error;
use imago_storage::storage::Storage;
use std::alloc::Global;

/// Takes the lowest free data block, or a new one, for a part of a guest block without data, and
/// copies what stands round the part. Refused, the data block is given back.
pub(crate) fn prepare_part<S: Storage, B: LowerLayer>(
    storage: &mut S,
    faults: &mut u64,
    table: &mut Table,
    alloc: Global,
    below: Option<&B>,
    part: Part,
) -> Result<Waiting, Error>
    requires idle { IsIdle part.size part.block.length table.old }
    requires part { IsEmptyPart part.block.length part.size part.offset part.run
        (without_data part.kind) (entries_of table.old) }
    ensures table { HasTaken part.block.length table.old table.new }
    ensures waits { IfOk result
        (IsWaitingFor part.block.length part.size part.offset part.run part.state table.old
        table.new) }
    ensures released { OnErr result (held_of table.new ≡ None) }
    ensures prepared { IfOk result
        (λ w. (most now_faults old_faults : ℕ) (m : _)
        → 0 < most
        → part.run ≡ in_block part.block.length part.offset most
        → IsMappingOf w m
        → IsPrepared part.offset most part.overwrite
        (lent B.as_layer_below below.entry).tells_bytes
        (values (lent B.as_layer_below below.entry).at
        (cow_place (S.bytes storage.old) part.size part.block.length (entries_of table.old)))
        (table_view (S.features storage.old) old_faults (S.bytes storage.old) part.size
        part.block.length table.old None)
        (table_view (S.features storage.old) now_faults (S.bytes storage.new) part.size
        part.block.length table.new (Some w)) m) }
    ensures copies { IsRoundTaken S.features S.bytes S.fault_count S.work S.maintenance
        (lent B.as_layer_below below.entry) (is_absent part.kind) part.overwrite
        (entries_of table.old) (count_of table.old) part.block.length part.size part.offset part.run
        storage.old storage.new (outcome result) }
    ensures unchanged { (now_faults old_faults : ℕ) (waiting : _)
        → IsUnchanged
        (table_view (S.features storage.old) old_faults (S.bytes storage.old) part.size
        part.block.length table.old None)
        (table_view (S.features storage.old) now_faults (S.bytes storage.new) part.size
        part.block.length table.new waiting) }
    ensures settled { IfOk result
        (λ w. IsSettled IsOnRange
        (cow_cause (S.features storage.old) part.block.length part.size (entries_of table.old)
        (count_of table.old) None)
        (cow_cause (S.features storage.old) part.block.length part.size (entries_of table.old)
        (count_of table.new) (Some w))
        (cow_copies part.block.length part.size (entries_of table.old))
        (cow_copies part.block.length part.size (entries_of table.old))
        w.start w.length) }
    ensures no_longer { (most : ℕ)
        → 0 < most
        → length (S.bytes storage.new)
        ≤ max (length (S.bytes storage.old))
        (padded_to (S.features storage.old) 0
        (data_count part.block.length part.size (entries_of table.old) (count_of table.old) None
        Write part.offset most
        * part.block.length)) }
    ensures call { IsLendingCall B.as_layer_below B.reads below.entry (S.features storage.old)
        (S.features storage.new) (S.bytes storage.old) (S.bytes storage.new)
        (S.fault_count storage.old + faults.old) (S.fault_count storage.new + faults.new) result }
    ensures refusals { (old_faults most : ℕ)
        → 0 < most
        → IfErr result
        (allowed
        (lending_reasons
        (table_view (S.features storage.old) old_faults (S.bytes storage.old) part.size
        part.block.length table.old None)
        (lent B.as_layer_below below.entry) Write part.offset most)) }
    ensures over { (most : ℕ)
        → 0 < most
        → part.run ≡ in_block part.block.length part.offset most
        → part.overwrite ≡ true
        → IfErr result
        (allowed
        (over_reasons (S.features storage.old) (lent B.as_layer_below below.entry) part.block.length
        part.size
        (entries_of table.old) (count_of table.old) part.offset most)) }
{
    if !fits_next(table, part.block.length) {
        return Err(Error::WrapAround);
    }
    let number = table.take()?;
    let start = number * part.block.length;
    match copy_round(storage, faults, alloc, below, part, start) {
        Ok(()) => Ok(Waiting {
            start: part.offset,
            length: part.run,
            offset: start + part.block.rest(part.offset),
            number,
            state: part.state,
        }),
        Err(e) => {
            table.release();
            Err(e)
        }
    }
}

/// Whether a data block is free, or a new one ends by the greatest offset.
fn fits_next(table: &Table, block: u64) -> bool
    requires { count_of table.now * block < 2 ^ 64 }
    ensures fits { result ≡ true
        → count_of table.now ≤ named_count (entries_of table.now)
        → count_of table.now * block + block < 2 ^ 64 }
    ensures full { result ≡ false
        → (count_of table.now ≤ named_count (entries_of table.now))
        × (2 ^ 64 ≤ count_of table.now * block + block) }
{
    if table.used() < table.block_count() {
        return true;
    }
    let end = table.block_count() * block;
    block <= u64::MAX - end
}

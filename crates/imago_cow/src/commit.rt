// SPDX-License-Identifier: MIT
//! What a commit makes of the write that waits.
ghost use Rattle.std.specs.Prelude.{◌≡◌, ℕ, ◌+◌, ◌*◌, ◌/◌, ◌<◌, ◌≤◌, length, slice_get, Some, None};
ghost use Rattle.std.specs.Prelude.{false};
ghost use Rattle.imago_storage.specs.Features.{Features};
ghost use Rattle.imago_drivers.specs.Commit.{is_committed, commit_moves};
ghost use Rattle.imago_drivers.specs.Outside.{StayBut};
ghost use Rattle.imago_drivers.specs.Frame.{IsFramed, ReachesNoMore};
ghost use Rattle.imago_drivers.specs.Causes.{IsSettled, IsOnRange};
ghost use Rattle.imago_cow.specs.TableView.{entries_of, held_of, count_of};
ghost use Rattle.imago_cow.specs.Guest.{Covers, IsEntered, cow_place};
ghost use Rattle.imago_cow.specs.Cow.{table_view, cow_pending, cow_cause, cow_copies, WaitsApart};

use crate::block::BlockSize;
use crate::cow::Waiting;
use crate::table::Table;

/// Enters the data block of the write that waits: it shows from now on, and what stands round it in
/// its guest block.
pub(crate) fn enter_waiting(table: &mut Table, block: BlockSize, size: u64, waiting: Waiting)
    requires positive { 0 < block.length }
    requires covers { Covers size block.length (entries_of table.old) }
    requires held { held_of table.old ≡ Some waiting.number }
    requires apart { WaitsApart block.length size (entries_of table.old) (count_of table.old)
        waiting }
    ensures entered { IsEntered (waiting.start / block.length) waiting.number (entries_of table.old)
        (entries_of table.new) }
    ensures held_none { held_of table.new ≡ None }
    ensures count { count_of table.new ≡ count_of table.old }
    ensures committed { (f : _) (faults : ℕ) (bytes : _)
        → is_committed (cow_pending block.length size bytes (Some waiting)) (Some waiting.state)
        false
        (table_view f faults bytes size block.length table.old (Some waiting))
        (table_view f faults bytes size block.length table.new None) }
    ensures reaches { (f : _) (faults : ℕ) (bytes : _)
        → ReachesNoMore
        (table_view f faults bytes size block.length table.old (Some waiting))
        (table_view f faults bytes size block.length table.new None) }
    ensures framed { (f : _) (faults : ℕ) (bytes : _)
        → IsFramed
        (table_view f faults bytes size block.length table.old (Some waiting))
        (table_view f faults bytes size block.length table.new None) }
    ensures outside { (f : Features) (bytes : _)
        → StayBut f.keeps_data (commit_moves (cow_pending block.length size bytes (Some waiting))
        (Some waiting.state))
        (cow_place bytes size block.length (entries_of table.old))
        (cow_place bytes size block.length (entries_of table.new)) }
    ensures settled { (f : _) (o n : ℕ)
        → IsSettled IsOnRange
        (cow_cause f block.length size (entries_of table.old) (count_of table.old) (Some waiting))
        (cow_cause f block.length size (entries_of table.new) (count_of table.new) None)
        (cow_copies block.length size (entries_of table.old))
        (cow_copies block.length size (entries_of table.new)) o n }
{
    table.enter(block.number(waiting.start) as usize);
}

// SPDX-License-Identifier: MIT
//! What holds of every table. The functions do nothing; their contracts are proved.
ghost use Rattle.std.specs.Prelude.{◌≡◌, ℕ, ◌+◌, ◌<◌, Some, slice_get, slice_set, None};
ghost use Rattle.imago_cow.specs.declared.table.GuestBlock.{GuestBlock};
ghost use Rattle.imago_cow.specs.declared.table.WithoutData.{WithoutData};
ghost use Rattle.imago_cow.specs.Worked.{two_named, one_named};
ghost use Rattle.imago_cow.specs.Table.{IsLowestUnused, without_data, named_count, held_count};
ghost use Rattle.imago_cow.specs.Table.{times_used, one_below};
ghost use Rattle.imago_cow.specs.Free.{times_free, free_count};
ghost use Rattle.imago_cow.specs.Cow.{number_of_waiting};
ghost use Rattle.imago_cow.specs.CowImage.{storage_in, blocks_of, data_blocks_of, free_in, used_in};
ghost use Rattle.imago_cow.specs.CowImage.{waiting_in};
ghost use Rattle.imago_cow.specs.TableView.{entries_of, held_of, count_of, free_of};

use crate::cow::Cow;
use crate::table::Table;
use imago_drivers::drivers::FormatDriverInstance;
use imago_storage::storage::Storage;

/// Each data block is free, or named by exactly one entry, or held; one that is not there is none
/// of these.
pub fn each_data_block_is_used_once(table: &Table)
    ensures once { (j : ℕ)
        → times_free j (free_of table.now) + times_used j (entries_of table.now) (held_of table.now)
        ≡ one_below j (count_of table.now) }
    ensures named_once { (i k j : ℕ)
        → slice_get (entries_of table.now) i ≡ Some (GuestBlock.Data j)
        → slice_get (entries_of table.now) k ≡ Some (GuestBlock.Data j)
        → i ≡ k }
    ensures named_below { (i j : ℕ) → slice_get (entries_of table.now) i ≡ Some (GuestBlock.Data j)
        → j < count_of table.now }
    ensures held_below { (j : ℕ) → held_of table.now ≡ Some j → j < count_of table.now }
    ensures held_apart { (i j : ℕ)
        → held_of table.now ≡ Some j
        → slice_get (entries_of table.now) i ≡ Some (GuestBlock.Data j)
        → ⊥ }
{}

/// Each data block of a disk is free, or named by exactly one entry, or that of the prepared write
/// that waits; one that is not there is none of these.
pub fn data_blocks_of_a_disk<S: Storage>(disk: &Cow<S>)
    ensures { (j : ℕ)
        → times_free j (free_in disk.now) + times_used j (blocks_of disk.now)
        (number_of_waiting (waiting_in disk.now))
        ≡ one_below j (data_blocks_of disk.now) }
{}

/// The free data blocks of a disk and the used ones, as [`Cow::blocks_used`] counts them, are all.
pub fn data_blocks_of_a_disk_are_counted<S: Storage>(disk: &Cow<S>)
    ensures { free_count (free_in disk.now) + used_in disk.now ≡ data_blocks_of disk.now }
{}

/// A disk keeps what is written to it exactly where its storage does, and tells its bytes where the
/// storage tells them.
pub fn a_disk_keeps_what_its_storage_keeps<S: Storage>(disk: &Cow<S>)
    ensures keeps { (⟦<Cow<S> as FormatDriverInstance>⟧.view disk.now).abilities.keeps_data
        ≡ (S.features (storage_in disk.now)).keeps_data }
    ensures tells { (⟦<Cow<S> as FormatDriverInstance>⟧.view disk.now).abilities.tells_bytes
        ≡ (S.features (storage_in disk.now)).tells_bytes }
{}

/// The free ones, the named ones and the held one are all.
pub fn data_blocks_are_counted(table: &Table)
    ensures { free_count (free_of table.now) + named_count (entries_of table.now)
        + held_count (held_of table.now)
        ≡ count_of table.now }
{}

/// Worked by hand: of three data blocks, two of which are named, the third is the lowest unused
/// one. Where it is held, that is a fourth, which isn't there yet. Once the guest block in the
/// first one is cleared, it is the first.
pub fn lowest_unused_ones()
    ensures free { IsLowestUnused two_named None 3 2 }
    ensures new { IsLowestUnused two_named (Some 2) 3 3 }
    ensures cleared { slice_set two_named 3 (without_data WithoutData.Absent) ≡ one_named }
    ensures first { IsLowestUnused one_named (Some 2) 3 0 }
    ensures named { named_count two_named ≡ 2 }
{}

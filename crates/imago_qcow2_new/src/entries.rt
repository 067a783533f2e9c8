// SPDX-License-Identifier: MIT
//! The words of a new file's tables.
ghost use Rattle.std.specs.Prelude.{◌≡◌, ℕ, true, ◌+◌, ◌*◌, ◌/◌, ◌^◌, ◌<◌, ◌≤◌};
ghost use Rattle.imago_qcow2_new.specs.Extents.{spot};
ghost use Rattle.imago_qcow2_new.specs.Layout.{entry_at, count_word, block_word, ones};
ghost use Rattle.imago_qcow2_new.specs.Layout.{l1_word, head_word, table_word};

use crate::extents::Extents;
use crate::l2::has_cluster;
use crate::layout::Layout;
use crate::words::Words;

/// The bit of an entry which says that what it names has the reference count 1.
const COPIED: u64 = 1 << 63;

/// The word of an entry: what is stored there in a space whose stored bytes begin there, or that
/// one.
fn entry(stored: &Extents, start: u64, offset: u64, gap: u64) -> u64
    requires { start + stored.now.stored ≤ 2 ^ 56 }
    ensures { result
        ≡ entry_at start gap (spot stored.now.stored stored.now.extents.items «offset») }
{
    let part = stored.part_at(offset);
    if part.is_stored {
        return COPIED + (start + part.before);
    }
    gap
}

/// The word of that index of the table of reference counts.
fn count_at(layout: &Layout, index: u64) -> u64
    requires { layout.now.header.l1_start < 2 ^ 57 }
    ensures { result ≡ count_word layout.now index }
{
    if index < layout.blocks {
        return layout.blocks_start + index * layout.cluster;
    }
    0
}

/// Four reference counts, of which so many are 1.
fn ones(count: u64) -> u64
    ensures { result ≡ ones count }
{
    match count {
        0 => 0,
        1 => 0x0001_0000_0000_0000,
        2 => 0x0001_0001_0000_0000,
        3 => 0x0001_0001_0001_0000,
        _ => 0x0001_0001_0001_0001,
    }
}

/// The word of that index of the blocks of reference counts.
fn block_at(layout: &Layout, index: u64) -> u64
    requires { index < 2 ^ 60 }
    ensures { result ≡ block_word layout.now index }
{
    ones((layout.end / layout.cluster).saturating_sub(4 * index))
}

/// The L1 entry of that index.
fn l1_at(layout: &Layout, index: u64) -> u64
    requires { index < 2 ^ 32 }
    ensures { result ≡ l1_word layout.now index }
{
    entry(
        &layout.tables,
        layout.tables_start,
        index * layout.cluster,
        0,
    )
}

/// What stands in a file before the L2 tables.
#[derive(Drop)]
pub(crate) struct HeadWords<'a> {
    pub(crate) layout: &'a Layout,
}

impl<'a> Words for HeadWords<'a> {
    ghost word = { λ s. head_word s.layout.now };

    ghost count = { λ s. s.layout.now.tables_start / 8 };

    #[tactic(auto, unfolding(crate::specs::Layout::head_word))]
    fn word(&self, index: u64) -> u64 {
        let layout = self.layout;
        let counts = layout.cluster / 8;
        let blocks = layout.blocks_start / 8;
        let l1 = layout.header.l1_start / 8;
        if index < counts {
            return layout.header.word(index);
        }
        if index < blocks {
            return count_at(layout, index - counts);
        }
        if index < l1 {
            return block_at(layout, index - blocks);
        }
        l1_at(layout, index - l1)
    }
}

/// The entries of all L2 tables that there may be.
#[derive(Drop)]
pub(crate) struct TableWords<'a> {
    pub(crate) layout: &'a Layout,
}

impl<'a> Words for TableWords<'a> {
    ghost word = { λ s. table_word s.layout.now };

    ghost count = { λ s. s.layout.now.header.l1_count * (s.layout.now.cluster / 8) };

    fn word(&self, index: u64) -> u64 {
        let layout = self.layout;
        entry(
            &layout.clusters,
            layout.data_start,
            index * layout.cluster,
            layout.gap,
        )
    }
}

/// Whether no cluster of an L2 table is stored.
pub(crate) fn is_empty(layout: &Layout, table: u64) -> bool
    requires { table < layout.now.header.l1_count }
    ensures { result ≡ true → (i : ℕ) → i < layout.now.cluster / 8
        → table_word layout.now (table * (layout.now.cluster / 8) + i) ≡ layout.now.gap }
{
    !has_cluster(&layout.clusters, layout.cluster, table)
}

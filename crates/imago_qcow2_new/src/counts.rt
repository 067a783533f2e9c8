// SPDX-License-Identifier: MIT
//! How many reference counts a new file needs, and where its parts stand behind them.
ghost use Rattle.std.specs.Prelude.{◌≡◌, ◌+◌, ◌*◌, ◌/◌, ◌%◌, ◌^◌, ◌<◌, ◌≤◌, IfOk};
ghost use Rattle.std.specs.Int.{div_ceil, next_multiple_of};
ghost use Rattle.imago_qcow2_new.specs.Layout.{per_block, per_table};
ghost use Rattle.imago_qcow2_new.specs.Grown.{with_counts, IsTooLong};

use crate::extents::rounded_up;
use crate::format::FormatError;
use crate::layout::LONGEST_FILE;

/// The greatest length of the table of reference count blocks, in bytes, as qemu opens it.
const LONGEST_COUNT_TABLE: u64 = 8 << 20;

/// The sum of two lengths.
pub(crate) fn plus(left: u64, right: u64) -> Result<u64, FormatError>
    ensures { IfOk result (λ n. n ≡ left + right) }
{
    left.checked_add(right).ok_or(FormatError::TooLarge)
}

/// The length of so many clusters.
pub(crate) fn times(count: u64, cluster: u64) -> Result<u64, FormatError>
    ensures { IfOk result (λ n. n ≡ count * cluster) }
{
    count.checked_mul(cluster).ok_or(FormatError::TooLarge)
}

/// How many clusters the table of reference counts has, for so many other clusters, and how many
/// blocks there are: as few as can be.
fn counts_of(others: u64, cluster: u64) -> Result<(u64, u64), FormatError>
    requires least { 512 ≤ cluster }
    requires most { cluster ≤ 2097152 }
    ensures table { IfOk result (λ r. r.0 ≡ div_ceil others (per_table cluster)) }
    ensures blocks { IfOk result (λ r. r.1 ≡ div_ceil (others + r.0) (per_block cluster)) }
{
    let in_block = cluster / 2 - 1;
    let table = others.div_ceil(in_block * (cluster / 8) - 1);
    let blocks = plus(others, table)?.div_ceil(in_block);
    Ok((table, blocks))
}

/// The length of a file of so many clusters besides those of its reference counts, where the table
/// of these is longer than qemu opens, or the file than an entry's offset can say.
pub(crate) fn grown(others: u64, cluster: u64) -> Result<u64, FormatError>
    requires least { 512 ≤ cluster }
    requires most { cluster ≤ 2097152 }
    ensures length { IfOk result (λ n. n ≡ with_counts others cluster * cluster) }
    ensures long { IfOk result (λ _. IsTooLong others cluster) }
{
    let (table, blocks) = counts_of(others, cluster)?;
    let length = times(plus(plus(others, table)?, blocks)?, cluster)?;
    if table > LONGEST_COUNT_TABLE / cluster {
        return Ok(length);
    }
    if length > LONGEST_FILE {
        return Ok(length);
    }
    Err(FormatError::TooLarge)
}

/// Where the parts of a file of so many clusters stand.
#[derive(Clone, Copy)]
pub(crate) struct Starts {
    pub(crate) counts: u32,
    pub(crate) blocks: u64,
    pub(crate) blocks_start: u64,
    pub(crate) l1_start: u64,
    pub(crate) tables_start: u64,
}

/// Where the parts of a file stand that has so many clusters besides reference counts.
pub(crate) fn starts_of(others: u64, l1_count: u32, cluster: u64) -> Result<Starts, FormatError>
    requires least { 512 ≤ cluster }
    requires most { cluster ≤ 2097152 }
    requires few { l1_count ≤ 4194304 }
    ensures table { IfOk result (λ s. s.counts ≡ div_ceil others (per_table cluster)) }
    ensures blocks { IfOk result
        (λ s. s.blocks ≡ div_ceil (others + s.counts) (per_block cluster)) }
    ensures counts_few { IfOk result (λ s. s.counts < 2 ^ 32) }
    ensures blocks_at { IfOk result (λ s. s.blocks_start ≡ cluster + s.counts * cluster) }
    ensures blocks_named { IfOk result (λ s. s.blocks ≤ s.counts * (cluster / 8)) }
    ensures blocks_behind { IfOk result (λ s. cluster ≤ s.blocks_start) }
    ensures blocks_whole { IfOk result (λ s. s.blocks_start % cluster ≡ 0) }
    ensures l1_at { IfOk result (λ s. s.l1_start ≡ s.blocks_start + s.blocks * cluster) }
    ensures l1_whole { IfOk result (λ s. s.l1_start % cluster ≡ 0) }
    ensures tables_behind { IfOk result (λ s. s.l1_start + 8 * l1_count ≤ s.tables_start) }
    ensures tables_near { IfOk result
        (λ s. s.tables_start < s.l1_start + 8 * l1_count + cluster) }
    ensures tables_whole { IfOk result (λ s. s.tables_start % cluster ≡ 0) }
{
    let (counts, blocks) = counts_of(others, cluster)?;
    let counts_length = times(counts, cluster)?;
    if counts > u32::MAX as u64
        || counts_length > LONGEST_COUNT_TABLE
        || blocks > times(counts, cluster / 8)?
    {
        return Err(FormatError::TooLarge);
    }
    let blocks_start = plus(cluster, counts_length)?;
    let l1_start = plus(blocks_start, times(blocks, cluster)?)?;
    let tables_start = plus(l1_start, rounded_up(8 * l1_count as u64, cluster))?;
    Ok(Starts {
        counts: counts as u32,
        blocks,
        blocks_start,
        l1_start,
        tables_start,
    })
}

/// How many clusters need a reference count, where so many bytes have those of L2 tables and of the
/// disk: these, the header's, and those of an L1 table of so many entries.
pub(crate) fn counted(used: u64, l1_count: u32, cluster: u64) -> Result<u64, FormatError>
    requires least { 512 ≤ cluster }
    requires most { cluster ≤ 2097152 }
    requires few { l1_count ≤ 4194304 }
    ensures { IfOk result (λ n. n
        ≡ used / cluster + 1 + next_multiple_of (8 * l1_count) cluster / cluster) }
{
    plus(
        used / cluster + 1,
        rounded_up(8 * l1_count as u64, cluster) / cluster,
    )
}

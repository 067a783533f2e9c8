// SPDX-License-Identifier: MIT
//! Which L2 tables a new file has.
ghost use Rattle.std.specs.Prelude.{◌≡◌, ℕ, ◌+◌, ◌*◌, ◌/◌, ◌<◌, ◌≤◌, true, false, IfOk, OnOk};
ghost use Rattle.imago_qcow2_new.specs.Space.{stores};
ghost use Rattle.imago_qcow2_new.specs.Layout.{tables_for, HasCluster, NeedsTable, AreNeeded};

use crate::extents::Extents;
use crate::format::FormatError;
use std::alloc::{AllocError, Global};

/// How many entries an L1 table has at most, as qemu opens it.
const MOST_TABLES: u64 = 4194304;

/// How many entries the L1 table of a disk has: one for each L2 table that its size needs.
pub(crate) fn count_tables(size: u64, cluster: u64) -> Result<u32, FormatError>
    requires least { 512 ≤ cluster }
    requires most { cluster ≤ 2097152 }
    ensures covers { IfOk result (λ n. size ≤ n * (cluster / 8 * cluster)) }
    ensures few { IfOk result (λ n. n ≤ 4194304) }
    ensures value { IfOk result (λ n. n ≡ tables_for cluster size) }
{
    let count = size.div_ceil(cluster / 8 * cluster);
    if count > MOST_TABLES {
        return Err(FormatError::TooLarge);
    }
    Ok(count as u32)
}

/// Whether a cluster of that L2 table is stored.
pub(crate) fn has_cluster(clusters: &Extents, cluster: u64, table: u64) -> bool
    requires least { 512 ≤ cluster }
    requires most { cluster ≤ 2097152 }
    requires unit { clusters.now.unit ≡ cluster }
    requires few { table < 4194304 }
    ensures some { result ≡ true → HasCluster cluster clusters.now table }
    ensures none { result ≡ false → (k : ℕ) → k < cluster / 8
        → stores clusters.now ((table * (cluster / 8) + k) * cluster) ≡ false }
{
    let span = cluster / 8 * cluster;
    let part = clusters.part_at(table * span);
    if part.is_stored {
        return true;
    }
    part.count < span
}

/// Whether that L2 table is needed.
fn is_needed(clusters: &Extents, cluster: u64, table: u64, gap: u64) -> bool
    requires least { 512 ≤ cluster }
    requires most { cluster ≤ 2097152 }
    requires unit { clusters.now.unit ≡ cluster }
    requires few { table < 4194304 }
    ensures yes { result ≡ true → NeedsTable gap cluster clusters.now table }
    ensures no { NeedsTable gap cluster clusters.now table → result ≡ true }
{
    if gap > 0 {
        return true;
    }
    has_cluster(clusters, cluster, table)
}

/// Makes an L2 table stored behind others.
fn add_table(tables: &mut Extents, cluster: u64, table: u64) -> Result<(), AllocError>
    requires least { 512 ≤ cluster }
    requires most { cluster ≤ 2097152 }
    requires few { table < 4194304 }
    requires unit { tables.old.unit ≡ cluster }
    requires behind { tables.old.end ≤ table * cluster }
    ensures unit { tables.new.unit ≡ cluster }
    ensures behind { OnOk result (tables.new.end ≤ table * cluster + cluster) }
    ensures there { OnOk result (stores tables.new (table * cluster) ≡ true) }
    ensures others { OnOk result ((i : ℕ) → i < table
        → stores tables.new (i * cluster) ≡ stores tables.old (i * cluster)) }
{
    let start = table * cluster;
    tables.cover(start, start + cluster)?;
    Ok(())
}

/// Makes an L2 table stored behind others, if it is needed.
fn take_table(
    tables: &mut Extents,
    clusters: &Extents,
    cluster: u64,
    table: u64,
    gap: u64,
) -> Result<(), AllocError>
    requires least { 512 ≤ cluster }
    requires most { cluster ≤ 2097152 }
    requires few { table < 4194304 }
    requires of_clusters { clusters.now.unit ≡ cluster }
    requires unit { tables.old.unit ≡ cluster }
    requires behind { tables.old.end ≤ table * cluster }
    ensures unit { tables.new.unit ≡ cluster }
    ensures behind { OnOk result (tables.new.end ≤ table * cluster + cluster) }
    ensures needed { AreNeeded gap cluster clusters.now tables.old table
        → OnOk result (AreNeeded gap cluster clusters.now tables.new (table + 1)) }
{
    if !is_needed(clusters, cluster, table, gap) {
        return Ok(());
    }
    add_table(tables, cluster, table)?;
    Ok(())
}

/// The L2 tables of a disk, of so many that there may be: those that stored clusters need, or all,
/// where other clusters have an entry too.
pub(crate) fn tables_of(
    alloc: Global,
    stored: &Extents,
    cluster: u64,
    count: u32,
    gap: u64,
) -> Result<Extents, FormatError>
    requires least { 512 ≤ cluster }
    requires most { cluster ≤ 2097152 }
    requires few { count ≤ 4194304 }
    requires unit { stored.now.unit ≡ cluster }
    ensures unit { IfOk result (λ r. r.unit ≡ cluster) }
    ensures inside { IfOk result (λ r. r.end ≤ count * cluster) }
    ensures needed { IfOk result (λ r. AreNeeded gap cluster stored.now r count) }
{
    let mut tables = Extents::new(alloc, cluster);
    for table in 0..count as u64 {
        take_table(&mut tables, stored, cluster, table, gap)?;
    }
    Ok(tables)
}

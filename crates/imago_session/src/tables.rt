// SPDX-License-Identifier: MIT
//! The tables of a qcow2 file, as far as they are in memory.
ghost use Rattle.std.specs.Prelude.{◌≡◌, ℕ, ◌+◌, ◌*◌, ◌/◌, ◌^◌, ◌<◌, ◌≤◌, ◌⊎◌, List, length, min};
ghost use Rattle.std.specs.Prelude.{None, Err, IfOk, OnOk, IfErr, IfSome};
ghost use Rattle.imago_storage.specs.Bytes.{IsReadAt};
ghost use Rattle.imago_qcow2.specs.Disk.{HaveSameTables};
ghost use Rattle.imago_qcow2.specs.Entry.{cluster_length, l1_start};
ghost use Rattle.imago_qcow2.specs.Limit.{tables_length, l1_length as l1_length_of};
ghost use Rattle.imago_qcow2.specs.Opening.{table_count};
ghost use Rattle.imago_session.specs.Loaded.{loaded_bytes, file_length, AreThere};
ghost use Rattle.imago_session.specs.Tables.{AreLoaded};
ghost use Rattle.imago_session.specs.Blocks.{IsMissing, IsPartOf};
ghost use Rattle.imago_session.specs.Known.{AreTablesOf, AreKnownOf};
ghost use Rattle.imago_session.specs.Limits.{IsHeadFault, IsTableFault};
ghost use Rattle.imago_session.specs.Steps.{IfMissing, IfReady};

use crate::block::{Step, first_missing, part};
use crate::loaded::LoadedFile;
use crate::loading::Tables;
use imago_qcow2::entry::L2Table;
use imago_qcow2::fault::OpenFault;
use imago_qcow2::header::HEAD_LENGTH;
use imago_qcow2::layout::{L1Table, LONGEST_L1, l1_length, l1_table, l2_table, refuse_tables};
use imago_storage::error::Error;
use std::alloc::Global;

/// The L1 table of the file, by its header, which is in memory. [`Error::Unsupported`] is one of more
/// than 32 MiB.
fn table_of(alloc: Global, file: &LoadedFile) -> Result<L1Table, Error>
    ensures head { IfOk result (λ t. (head : List ℕ) × (length head ≡ 112)
        × IsReadAt (loaded_bytes file.now) 0 head × (t.start ≡ l1_start head)
        × (t.count ≡ table_count head) × (t.cluster ≡ cluster_length head)
        × (l1_length_of head ≤ 2 ^ 25)) }
    ensures least { IfOk result (λ t. 512 ≤ t.cluster) }
    ensures most { IfOk result (λ t. t.cluster ≤ 2 ^ 21) }
    ensures inside { IfOk result (λ t. t.start + 8 * t.count ≤ file_length file.now) }
    ensures fits { IfOk result (λ t. t.start + 8 * t.count < 2 ^ 64) }
    ensures refused { IfErr result (λ e. (e ≡ Error.Memory) ⊎ ((head : List ℕ)
        × (length head ≡ 112) × IsReadAt (loaded_bytes file.now) 0 head
        × IsHeadFault head (file_length file.now) e)) }
{
    let head = part(alloc, file, 0, HEAD_LENGTH as u64)?;
    let table = match l1_table(&head, file.length()) {
        Ok(table) => table,
        Err(fault) => return Err(fault.error()),
    };
    if l1_length(&head) > LONGEST_L1 {
        return Err(Error::Unsupported);
    }
    Ok(table)
}

/// Refuses the tables of a file of that length, by the L1 entries that its disk needs, where they
/// have more than so many bytes: they are [`Error::Unsupported`]. [`Error::Memory`] is no memory.
fn refuse_many(
    alloc: Global,
    entries: &[u8],
    cluster: u64,
    file: u64,
    most: u64,
) -> Result<(), Error>
    requires positive { 0 < cluster }
    requires longest { cluster ≤ 2 ^ 21 }
    ensures few { (bytes : List ℕ) (count : ℕ) → file ≡ length bytes
        → length entries.now ≡ 8 * count
        → OnOk result (tables_length bytes cluster entries.now count ≤ most) }
    ensures refused { IfErr result (λ e. (e ≡ Error.Memory) ⊎ ((e ≡ Error.Unsupported)
        × ((bytes : List ℕ) (count : ℕ) → file ≡ length bytes → length entries.now ≡ 8 * count
        → most < tables_length bytes cluster entries.now count))) }
{
    match refuse_tables(alloc, entries, cluster, file, most) {
        Ok(()) => Ok(()),
        Err(OpenFault::TablesTooLarge) => Err(Error::Unsupported),
        Err(OpenFault::Driver(refusal)) => Err(refusal),
    }
}

/// What the header of the file says of its tables, and the L1 table. The L2 tables that it names are
/// counted, and none of them is asked for yet.
fn head_step(alloc: Global, file: &LoadedFile, most: u64) -> Result<Step<Tables>, Error>
    ensures missing { IfOk result (IfMissing (IsMissing file.now)) }
    ensures ready { IfOk result (IfReady (λ t. (bytes : List ℕ) → IsPartOf bytes file.now
        → AreTablesOf most bytes file.now t)) }
    ensures refused { IfErr result (λ e. (e ≡ Error.Memory) ⊎ ((bytes : List ℕ)
        → IsPartOf bytes file.now → IsTableFault most bytes e)) }
{
    let length = file.length();
    if let Some(number) = first_missing(file, 0, length.min(HEAD_LENGTH as u64)) {
        return Ok(Step::Missing(number));
    }
    let table = table_of(alloc, file)?;
    if let Some(number) = first_missing(file, 0, table.cluster.min(length)) {
        return Ok(Step::Missing(number));
    }
    if let Some(number) = first_missing(file, table.start, 8 * table.count) {
        return Ok(Step::Missing(number));
    }
    let entries = part(alloc, file, table.start, 8 * table.count)?;
    refuse_many(alloc, &entries, table.cluster, length, most)?;
    Ok(Step::Ready(Tables {
        table,
        entries,
        index: 0,
    }))
}

/// What is known of the tables, if that is something already, or else what the header says.
pub(crate) fn tables_of(
    alloc: Global,
    file: &LoadedFile,
    known: Option<Tables>,
    most: u64,
) -> Result<Step<Tables>, Error>
    ensures missing { IfOk result (IfMissing (IsMissing file.now)) }
    ensures ready { IfOk result (IfReady (λ t. (bytes : List ℕ) → IsPartOf bytes file.now
        → AreKnownOf most bytes file.now known → AreTablesOf most bytes file.now t)) }
    ensures refused { IfErr result (λ e. (e ≡ Error.Memory) ⊎ ((bytes : List ℕ)
        → IsPartOf bytes file.now → IsTableFault most bytes e)) }
{
    match known {
        Some(tables) => Ok(Step::Ready(tables)),
        None => head_step(alloc, file, most),
    }
}

/// The first block that isn't in memory of the L2 table of an L1 entry.
fn missing_of(file: &LoadedFile, says: L2Table, cluster: u64) -> Option<u64>
    requires inside { (at : ℕ) → says ≡ L2Table.Stored at → at + cluster ≤ file_length file.now }
    requires fits { (at : ℕ) → says ≡ L2Table.Stored at → at + cluster < 2 ^ 64 }
    ensures there { result ≡ None
        → (at : ℕ) → says ≡ L2Table.Stored at → AreThere file.now at cluster }
    ensures missing { IfSome result (IsMissing file.now) }
{
    let L2Table::Stored(at) = says else {
        return None;
    };
    first_missing(file, at, cluster)
}

/// The first block that isn't in memory of the L2 tables that the L1 table of a file of that length
/// names.
pub(crate) fn next_missing(file: &LoadedFile, length: u64, tables: &mut Tables) -> Option<u64>
    requires { length ≡ file_length file.now }
    ensures missing { IfSome result (IsMissing file.now) }
    ensures known { (most : ℕ) (bytes : List ℕ) → IsPartOf bytes file.now
        → AreTablesOf most bytes file.now tables.old
        → AreTablesOf most bytes file.now tables.new }
    ensures tables { result ≡ None → (most : ℕ) (bytes : List ℕ) → IsPartOf bytes file.now
        → AreTablesOf most bytes file.now tables.old
        → HaveSameTables bytes (loaded_bytes file.now) }
{
    while tables.index < tables.table.count {
        let says = l2_table(&tables.entries, tables.index, tables.table.cluster, length);
        let missing = missing_of(file, says, tables.table.cluster);
        if missing.is_some() {
            return missing;
        }
        tables.index += 1;
    }
    None
}

// SPDX-License-Identifier: MIT
//! The tables of an image, as they are in memory.
ghost use Rattle.std.specs.Prelude.{◌≡◌, ℕ, suc, ◌+◌, ◌*◌, ◌/◌, ◌^◌, ◌<◌, ◌≤◌, length, slice_get};
ghost use Rattle.std.specs.Prelude.{List, [], Option, Some, IfOk, IfErr, IfSome, IsTrue, OnOk};
ghost use Rattle.std.specs.BTreeMap.{Updates};
ghost use Rattle.std.specs.Arc.{arc_slice_items};
ghost use Rattle.std.specs.Ordering.{nat_cmp};
ghost use Rattle.imago_storage.specs.declared.error.Error.TheVariants.{Memory};
ghost use Rattle.imago_storage.specs.Bytes.{IsReadAt};
ghost use Rattle.imago_drivers.specs.Reasons.{allowed};
ghost use Rattle.imago_qcow2.specs.Numbers.{be64};
ghost use Rattle.imago_qcow2.specs.Tables.{IsLoaded, IsHeld, AreHeld, AreTables, AreKnown};
ghost use Rattle.imago_qcow2.specs.Tables.{KeepsLoaded};
ghost use Rattle.imago_qcow2.specs.Fault.{by_fault};
ghost use Rattle.imago_qcow2.specs.Limit.{IsBeyond, IsWithin, HasRoom, IsAccount, NeedMore};
ghost use Rattle.imago_qcow2.specs.Limit.{with_offset, with_table, table_offsets};
ghost use Rattle.imago_qcow2.specs.Limit.{AreReadWithin, tables_length};
ghost use Rattle.imago_qcow2.specs.Opening.{read_reasons, entries_reasons, tables_reasons};

use crate::entry::{L2Table, table_in};
use crate::fault::OpenFault;
use crate::memory::TableMemory;
use crate::number::number64;
use imago_storage::error::Error;
use imago_storage::ext::StorageExt;
use imago_storage::storage::Storage;
use std::alloc::{AllocError, Global};
use std::collections::BTreeMap;
use std::sync::ArcSlice;

/// What is in memory of an L1 entry.
#[derive(Clone, Copy)]
pub(crate) enum HeldTable {
    /// There is no L2 table.
    Absent,
    /// The L2 table is loaded, under that number.
    Loaded(usize),
    /// The entry is invalid.
    Invalid,
}

/// The tables of an image.
#[derive(Drop)]
pub(crate) struct Tables {
    /// What is held of each L1 entry of the disk.
    pub(crate) l1: Vec<HeldTable>,
    /// The bytes of each L2 table, by its number.
    pub(crate) l2: Vec<ArcSlice<u8>>,
}

/// The L2 tables that are loaded, each once, or that are counted, without their bytes.
#[derive(Drop)]
struct Loaded {
    tables: Vec<ArcSlice<u8>>,
    /// The number of each by its offset in the file.
    numbers: BTreeMap<u64, usize>,
    /// How many bytes more tables may have, where that is limited.
    room: Option<u64>,
}

/// The bytes of the file from the offset on.
pub(crate) fn read_bytes<S: Storage>(
    storage: &S,
    alloc: Global,
    at: u64,
    count: u64,
) -> Result<Vec<u8>, Error>
    ensures whole { IfOk result (λ v. length v.items ≡ count) }
    ensures read { IsTrue (S.features storage.now).tells_bytes
        → IfOk result (λ v. IsReadAt (S.bytes storage.now) at v.items) }
    ensures refusals { IfErr result (allowed (read_reasons (S.features storage.now) at count)) }
{
    let mut bytes = vec![in alloc; 0u8; count as usize]?;
    storage.read(alloc, &mut bytes, at)?;
    Ok(bytes)
}

/// What a limit leaves behind so many bytes, where there is one.
fn room_behind(room: Option<u64>, taken: u64) -> Result<Option<u64>, OpenFault>
    ensures left { IfOk result (HasRoom room taken) }
    ensures full { IfErr result (by_fault (λ _. ⊥) (IsBeyond room taken)) }
{
    let Some(most) = room else {
        return Ok(None);
    };
    if taken > most {
        return Err(OpenFault::TablesTooLarge);
    }
    Ok(Some(most - taken))
}

/// The L2 table at that offset of the file: shared where it is in memory already, or else read.
fn table_at<S: Storage, M: TableMemory<S>>(
    storage: &S,
    memory: &M,
    alloc: Global,
    at: u64,
    cluster: u64,
) -> Result<ArcSlice<u8>, Error>
    ensures whole { IfOk result (λ v. length (arc_slice_items v) ≡ cluster) }
    ensures read { IsTrue (S.features storage.now).tells_bytes
        → IfOk result (λ v. IsReadAt (S.bytes storage.now) at (arc_slice_items v)) }
    ensures refusals { IfErr result (allowed (read_reasons (S.features storage.now) at cluster)) }
{
    if let Some(table) = memory.shared(storage, at, cluster) {
        return Ok(table);
    }
    let table = read_bytes(storage, alloc, at, cluster)?;
    Ok(ArcSlice::from_vec(table)?)
}

/// Loads the L2 table at that offset of the file, which isn't loaded yet, and answers its number.
fn add<S: Storage, M: TableMemory<S>>(
    storage: &S,
    memory: &M,
    alloc: Global,
    at: u64,
    cluster: u64,
    loaded: &mut Loaded,
) -> Result<usize, Error>
    requires known { AreKnown (S.features storage.now) (S.bytes storage.now) cluster loaded.old }
    ensures known { OnOk result
        (AreKnown (S.features storage.now) (S.bytes storage.now) cluster loaded.new) }
    ensures loaded { IfOk result
        (λ n. IsLoaded (S.features storage.now) (S.bytes storage.now) cluster
        loaded.new.tables.items n at) }
    ensures kept { OnOk result (KeepsLoaded loaded.old.tables.items loaded.new.tables.items) }
    ensures count { OnOk result
        (length loaded.new.tables.items ≡ suc (length loaded.old.tables.items)) }
    ensures numbers { IfOk result
        (λ n. Updates nat_cmp loaded.old.numbers loaded.new.numbers at (Some n)) }
    ensures refusals { IfErr result (allowed (read_reasons (S.features storage.now) at cluster)) }
{
    let number = loaded.tables.len();
    let table = table_at(storage, memory, alloc, at, cluster)?;
    loaded.tables.push(table)?;
    loaded.numbers.insert(at, number)?;
    Ok(number)
}

/// The number of the L2 table at that offset of the file. It is loaded, unless another L1 entry named
/// it before; and it isn't, nor is memory taken for it, where the limit leaves no room.
fn load<S: Storage, M: TableMemory<S>>(
    storage: &S,
    memory: &M,
    alloc: Global,
    at: u64,
    cluster: u64,
    loaded: &mut Loaded,
) -> Result<usize, OpenFault>
    requires known { AreKnown (S.features storage.now) (S.bytes storage.now) cluster loaded.old }
    ensures known { OnOk result
        (AreKnown (S.features storage.now) (S.bytes storage.now) cluster loaded.new) }
    ensures loaded { IfOk result
        (λ n. IsLoaded (S.features storage.now) (S.bytes storage.now) cluster
        loaded.new.tables.items n at) }
    ensures kept { OnOk result (KeepsLoaded loaded.old.tables.items loaded.new.tables.items) }
    ensures account { (offsets : List ℕ) (limit : Option ℕ)
        → IsAccount offsets limit cluster loaded.old
        → OnOk result (IsAccount (with_offset at offsets) limit cluster loaded.new) }
    ensures refusals { (offsets : List ℕ) (limit : Option ℕ)
        → IsAccount offsets limit cluster loaded.old
        → IfErr result
        (by_fault (allowed (read_reasons (S.features storage.now) at cluster))
        (IsBeyond limit (cluster * length (with_offset at offsets)))) }
{
    if let Some(number) = loaded.numbers.get(&at) {
        return Ok(*number);
    }
    let room = room_behind(loaded.room, cluster)?;
    let number = add(storage, memory, alloc, at, cluster, loaded)?;
    loaded.room = room;
    Ok(number)
}

/// What is held of an L1 entry, whose L2 table is loaded if it has one.
fn hold<S: Storage, M: TableMemory<S>>(
    storage: &S,
    memory: &M,
    alloc: Global,
    says: L2Table,
    cluster: u64,
    loaded: &mut Loaded,
) -> Result<HeldTable, OpenFault>
    requires known { AreKnown (S.features storage.now) (S.bytes storage.now) cluster loaded.old }
    ensures known { OnOk result
        (AreKnown (S.features storage.now) (S.bytes storage.now) cluster loaded.new) }
    ensures held { IfOk result
        (IsHeld (S.features storage.now) (S.bytes storage.now) cluster loaded.new.tables.items
        says) }
    ensures kept { OnOk result (KeepsLoaded loaded.old.tables.items loaded.new.tables.items) }
    ensures account { (offsets : List ℕ) (limit : Option ℕ)
        → IsAccount offsets limit cluster loaded.old
        → OnOk result (IsAccount (with_table says offsets) limit cluster loaded.new) }
    ensures refusals { (offsets : List ℕ) (limit : Option ℕ)
        → IsAccount offsets limit cluster loaded.old
        → IfErr result
        (by_fault
        (λ e. (at : ℕ) × (says ≡ L2Table.Stored at)
        × allowed (read_reasons (S.features storage.now) at cluster) e)
        (IsBeyond limit (cluster * length (with_table says offsets)))) }
{
    match says {
        L2Table::Absent => Ok(HeldTable::Absent),
        L2Table::Stored(at) => {
            let number = load(storage, memory, alloc, at, cluster, loaded)?;
            Ok(HeldTable::Loaded(number))
        }
        L2Table::Invalid => Ok(HeldTable::Invalid),
    }
}

/// What is held of the L1 entries that stand in these bytes, whose L2 tables are loaded. They were
/// counted before, and the limit leaves room for all of them.
fn hold_all<S: Storage, M: TableMemory<S>>(
    storage: &S,
    memory: &M,
    alloc: Global,
    entries: &[u8],
    cluster: u64,
    file: u64,
    loaded: &mut Loaded,
) -> Result<Vec<HeldTable>, OpenFault>
    requires file { file ≡ length (S.bytes storage.now) }
    requires positive { 0 < cluster }
    requires most { cluster ≤ 2 ^ 21 }
    requires known { AreKnown (S.features storage.now) (S.bytes storage.now) cluster loaded.old }
    requires account { IsAccount [] loaded.old.room cluster loaded.old }
    requires counted { IsWithin loaded.old.room (cluster * length
        (table_offsets (S.bytes storage.now) cluster entries.now (length entries.now / 8))) }
    ensures held { IfOk result
        (λ v. AreHeld (S.features storage.now) (S.bytes storage.now) cluster entries.now v.items
        loaded.new.tables.items) }
    ensures all { IfOk result (λ v. length v.items ≡ length entries.now / 8) }
    ensures account { OnOk result
        (IsAccount
        (table_offsets (S.bytes storage.now) cluster entries.now (length entries.now / 8))
        loaded.old.room cluster loaded.new) }
    ensures refusals { IfErr result
        (by_fault
        (allowed
        (entries_reasons (S.features storage.now) (S.bytes storage.now) cluster entries.now))
        (IsBeyond loaded.old.room
        (cluster * length
        (table_offsets (S.bytes storage.now) cluster entries.now (length entries.now / 8))))) }
{
    let mut l1 = Vec::new(alloc);
    for i in 0..entries.len() / 8 {
        let says = table_in(file, cluster, number64(entries, 8 * i));
        l1.push(hold(storage, memory, alloc, says, cluster, loaded)?)?;
    }
    Ok(l1)
}

/// A table without bytes, for one that is only counted. It is the same one for all of them.
fn without_bytes(alloc: Global, counted: &Loaded) -> Result<ArcSlice<u8>, AllocError> {
    match counted.tables.first() {
        Some(table) => table.clone(),
        None => ArcSlice::from_vec(Vec::new(alloc)),
    }
}

/// Counts the L2 table at that offset of the file, unless another L1 entry named it before. It isn't
/// read: a table without bytes stands for it.
fn count_one(alloc: Global, at: u64, cluster: u64, counted: &mut Loaded) -> Result<(), OpenFault>
    ensures account { (offsets : List ℕ) (limit : Option ℕ)
        → IsAccount offsets limit cluster counted.old
        → OnOk result (IsAccount (with_offset at offsets) limit cluster counted.new) }
    ensures refusals { (offsets : List ℕ) (limit : Option ℕ)
        → IsAccount offsets limit cluster counted.old
        → IfErr result
        (by_fault (λ e. e ≡ Memory) (IsBeyond limit (cluster * length (with_offset at offsets)))) }
{
    if let Some(_) = counted.numbers.get(&at) {
        return Ok(());
    }
    let room = room_behind(counted.room, cluster)?;
    let number = counted.tables.len();
    let empty = without_bytes(alloc, counted)?;
    counted.tables.push(empty)?;
    counted.numbers.insert(at, number)?;
    counted.room = room;
    Ok(())
}

/// Counts the L2 table that an L1 entry names, if it names one.
fn count_said(
    alloc: Global,
    says: L2Table,
    cluster: u64,
    counted: &mut Loaded,
) -> Result<(), OpenFault>
    ensures account { (offsets : List ℕ) (limit : Option ℕ)
        → IsAccount offsets limit cluster counted.old
        → OnOk result (IsAccount (with_table says offsets) limit cluster counted.new) }
    ensures refusals { (offsets : List ℕ) (limit : Option ℕ)
        → IsAccount offsets limit cluster counted.old
        → IfErr result
        (by_fault (λ e. e ≡ Memory) (IsBeyond limit (cluster * length (with_table says offsets)))) }
{
    match says {
        L2Table::Stored(at) => count_one(alloc, at, cluster, counted),
        L2Table::Absent | L2Table::Invalid => Ok(()),
    }
}

/// Counts the L2 tables that the L1 entries in these bytes name, each once, and refuses them where
/// they need more than the room. It reads none of them.
fn count_all(
    alloc: Global,
    entries: &[u8],
    cluster: u64,
    file: u64,
    room: Option<u64>,
) -> Result<(), OpenFault>
    requires positive { 0 < cluster }
    requires most { cluster ≤ 2 ^ 21 }
    ensures within { (bytes : List ℕ) → file ≡ length bytes
        → OnOk result (IsWithin room
        (cluster * length
        (table_offsets bytes cluster entries.now (length entries.now / 8)))) }
    ensures refusals { (bytes : List ℕ) → file ≡ length bytes
        → IfErr result
        (by_fault (λ e. e ≡ Memory)
        (IsBeyond room
        (cluster * length
        (table_offsets bytes cluster entries.now (length entries.now / 8))))) }
{
    let mut counted = Loaded {
        tables: Vec::new(alloc),
        numbers: BTreeMap::new(alloc),
        room,
    };
    for i in 0..entries.len() / 8 {
        let says = table_in(file, cluster, number64(entries, 8 * i));
        count_said(alloc, says, cluster, &mut counted)?;
    }
    Ok(())
}

/// Refuses these L1 entries of a file of that length, and the L2 tables that they name, where they
/// have more than so many bytes, each table counted once. It reads none of them.
pub(crate) fn refuse_over(
    alloc: Global,
    entries: &[u8],
    cluster: u64,
    file: u64,
    most: u64,
) -> Result<(), OpenFault>
    requires positive { 0 < cluster }
    requires longest { cluster ≤ 2 ^ 21 }
    ensures within { (bytes : List ℕ) (count : ℕ) → file ≡ length bytes
        → length entries.now ≡ 8 * count
        → OnOk result (tables_length bytes cluster entries.now count ≤ most) }
    ensures refusals { IfErr result (by_fault (λ e. e ≡ Memory)
        ((bytes : List ℕ) (count : ℕ) → file ≡ length bytes → length entries.now ≡ 8 * count
        → most < tables_length bytes cluster entries.now count)) }
{
    let room = room_behind(Some(most), entries.len() as u64)?;
    count_all(alloc, entries, cluster, file, room)
}

/// Reads the L1 table of a file of that length, of so many entries from `start` on, and the L2
/// tables that it names, each of them once, or shares those that are in memory already. All of them
/// have at most so many bytes, where that is limited: they are counted first, and where they have
/// more, none of them is read, nor is memory taken for it.
pub(crate) fn read_tables<S: Storage, M: TableMemory<S>>(
    storage: &S,
    memory: &M,
    alloc: Global,
    start: u64,
    count: u64,
    cluster: u64,
    file: u64,
    most: Option<u64>,
) -> Result<Tables, OpenFault>
    requires file { file ≡ length (S.bytes storage.now) }
    requires positive { 0 < cluster }
    requires longest { cluster ≤ 2 ^ 21 }
    requires inside { start + 8 * count ≤ file }
    ensures held { IfOk result
        (λ t. AreTables (S.features storage.now) (S.bytes storage.now) start count cluster
        t.l1.items t.l2.items) }
    ensures within { IfOk result
        (λ t. IsWithin most (8 * length t.l1.items + cluster * length t.l2.items)) }
    ensures counted { OnOk result (AreReadWithin (S.features storage.now) (S.bytes storage.now)
        start count cluster most) }
    ensures refusals { IfErr result
        (by_fault
        (allowed
        (tables_reasons (S.features storage.now) (S.bytes storage.now) start count cluster))
        (NeedMore (S.features storage.now) (S.bytes storage.now) start count cluster most)) }
{
    let room = room_behind(most, 8 * count)?;
    let entries = read_bytes(storage, alloc, start, 8 * count)?;
    count_all(alloc, &entries, cluster, file, room)?;
    let mut loaded = Loaded {
        tables: Vec::new(alloc),
        numbers: BTreeMap::new(alloc),
        room,
    };
    let l1 = hold_all(storage, memory, alloc, &entries, cluster, file, &mut loaded)?;
    let Loaded {
        tables,
        numbers: _,
        room: _,
    } = loaded;
    Ok(Tables { l1, l2: tables })
}

/// The entry at that index of the L2 table that is loaded under that number.
pub(crate) fn entry_at(l2: &[ArcSlice<u8>], number: usize, index: u64) -> u64
    requires loaded { number < length l2.now }
    requires within { IfSome (slice_get l2.now number)
        (λ table. 8 * index + 8 ≤ length (arc_slice_items table)) }
    ensures { IfSome (slice_get l2.now number)
        (λ table. result ≡ be64 (arc_slice_items table) (8 * index)) }
{
    number64(&l2[number], (8 * index) as usize)
}

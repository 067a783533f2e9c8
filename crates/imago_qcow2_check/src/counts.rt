// SPDX-License-Identifier: MIT
//! The reference counts of a file.
ghost use Rattle.std.specs.Prelude.{◌≡◌, ℕ, List, ◌+◌, ◌-◌, ◌*◌, ◌/◌, ◌%◌, ◌^◌, ◌<◌, ◌≤◌, length};
ghost use Rattle.std.specs.Prelude.{slice_index, min, OnOk, IfOk, IfSome, None, IsTrue};
ghost use Rattle.imago_qcow2.specs.Numbers.{be64};
ghost use Rattle.imago_qcow2_check.specs.Counts.{be_number, count_in, per_block, count_by};
ghost use Rattle.imago_qcow2_check.specs.Counts.{block_start};
ghost use Rattle.imago_qcow2_check.specs.CountParts.{AppendsCounts, block_in, count_from};
ghost use Rattle.imago_qcow2_check.specs.CountParts.{most_counted};

use crate::fault::CheckError;
use crate::shape::Shape;
use crate::tables::read_bytes;
use imago_qcow2::number::{number32, number64};
use imago_storage::ext::StorageExt;
use imago_storage::storage::Storage;
use std::alloc::Global;

/// The number of two bytes, the highest first.
pub(crate) fn number16(bytes: &[u8], at: usize) -> u64
    requires { at + 2 ≤ length bytes.now }
    ensures value { result ≡ be_number bytes.now at 2 }
    ensures small { result < 2 ^ 16 }
{
    bytes[at] as u64 * 256 + bytes[at + 1] as u64
}

/// The number of so many bits, in a list of such numbers that begin with a byte's lowest bit.
fn bits_at(bytes: &[u8], width: usize, index: usize) -> u64
    requires width { 0 < width }
    requires most { width ≤ 8 }
    requires inside { index * width < 8 * length bytes.now }
    requires few { length bytes.now ≤ 2 ^ 21 }
    ensures { result ≡ slice_index bytes.now (index * width / 8) / 2 ^ (index * width % 8)
        % 2 ^ width }
{
    let bit = index * width;
    let byte = bytes[bit / 8] as u64;
    byte / 2u64.pow((bit % 8) as u32) % 2u64.pow(width as u32)
}

/// The count of that index in a block, whose counts have 2 to the power of `order` bits.
fn count_at(block: &[u8], order: u32, index: usize) -> u64
    requires order { order ≤ 6 }
    requires inside { index < per_block order (length block.now) }
    requires few { length block.now ≤ 2 ^ 21 }
    ensures { result ≡ count_in order block.now 0 index }
{
    match order {
        0 => bits_at(block, 1, index),
        1 => bits_at(block, 2, index),
        2 => bits_at(block, 4, index),
        3 => block[index] as u64,
        4 => number16(block, 2 * index),
        5 => number32(block, 4 * index) as u64,
        _ => number64(block, 8 * index),
    }
}

/// Puts the first counts of a block, so many of them, behind others. One that has more than 32 bits
/// becomes the greatest of these.
fn put_counts(
    block: &[u8],
    order: u32,
    count: usize,
    counts: &mut Vec<u32>,
) -> Result<(), CheckError>
    requires order { order ≤ 6 }
    requires inside { count ≤ per_block order (length block.now) }
    requires few { length block.now ≤ 2 ^ 21 }
    ensures { OnOk result (AppendsCounts (count_in order block.now 0) count counts.old.items
        counts.new.items) }
{
    for index in 0..count {
        let number = count_at(block, order, index);
        counts.push(number.min(u32::MAX as u64) as u32)?;
    }
    Ok(())
}

/// Puts so many zeroes behind other counts.
fn put_zeroes(count: usize, counts: &mut Vec<u32>) -> Result<(), CheckError>
    ensures { OnOk result (AppendsCounts (λ i. 0) count counts.old.items counts.new.items) }
{
    for _index in 0..count {
        counts.push(0)?;
    }
    Ok(())
}

/// How many counts a block has.
#[tactic(auto, unfolding(crate::specs::Counts::per_block))]
fn per_block_of(shape: Shape, order: u32) -> usize
    requires { order ≤ 6 }
    ensures { result ≡ per_block order shape.cluster }
{
    (shape.cluster * 8) as usize >> order
}

/// Where the block of an entry of the table of blocks begins, if there is one.
fn block_of(shape: Shape, entry: u64) -> Option<u64>
    ensures some { IfSome result (λ start. start ≡ block_start entry) }
    ensures there { (order i : ℕ) (bytes : List ℕ) → IfSome result
        (λ start. count_by order shape.cluster bytes entry i ≡ count_in order bytes start i) }
    ensures none { (order i : ℕ) (bytes : List ℕ) → result ≡ None
        → count_by order shape.cluster bytes entry i ≡ 0 }
{
    let start = entry - entry % 512;
    if start == 0 {
        return None;
    }
    if shape.rest(start) != 0 {
        return None;
    }
    Some(start)
}

/// Puts the counts of the block of that entry behind others, as far as the file has clusters for
/// them.
fn put_block<S: Storage>(
    storage: &S,
    alloc: Global,
    shape: Shape,
    order: u32,
    entry: u64,
    block: &mut [u8],
    counts: &mut Vec<u32>,
) -> Result<(), CheckError>
    requires order { order ≤ 6 }
    requires whole { length block.old ≡ shape.cluster }
    requires few { length counts.old.items < shape.clusters }
    ensures more { OnOk result (length counts.old.items < length counts.new.items) }
    ensures few { OnOk result (length counts.new.items
        ≡ min (length counts.old.items + per_block order shape.cluster) shape.clusters) }
    ensures told { IsTrue (S.features storage.now).tells_bytes → OnOk result
        (AppendsCounts (count_by order shape.cluster (S.bytes storage.now) entry)
        (min (per_block order shape.cluster) (shape.clusters - length counts.old.items))
        counts.old.items counts.new.items) }
{
    let count = per_block_of(shape, order).min(shape.clusters - counts.len());
    let Some(start) = block_of(shape, entry) else {
        put_zeroes(count, counts)?;
        return Ok(());
    };
    storage.read(alloc, block, start)?;
    put_counts(block, order, count, counts)?;
    Ok(())
}

/// The entry of that index in the table of blocks, or 0 past its end.
fn block_at(table: &[u8], index: usize) -> u64
    ensures { result ≡ block_in table.now index }
{
    if index < table.len() / 8 {
        return number64(table, 8 * index);
    }
    0
}

/// Puts the reference counts of all clusters of a file into a list, by the table of blocks.
fn put_blocks<S: Storage>(
    storage: &S,
    alloc: Global,
    shape: Shape,
    order: u32,
    table: &[u8],
    block: &mut [u8],
    counts: &mut Vec<u32>,
) -> Result<(), CheckError>
    requires order { order ≤ 6 }
    requires whole { length block.old ≡ shape.cluster }
    requires none { length counts.old.items ≡ 0 }
    ensures all { OnOk result (length counts.new.items ≡ shape.clusters) }
    ensures told { IsTrue (S.features storage.now).tells_bytes → OnOk result
        ((n : ℕ) → n < shape.clusters → slice_index counts.new.items n
        ≡ min (count_from order shape.cluster (S.bytes storage.now) table.now n) most_counted) }
{
    let mut index: usize = 0;
    'each: while counts.len() < shape.clusters {
        let entry = block_at(table, index);
        put_block(storage, alloc, shape, order, entry, block, counts)?;
        index += 1;
    }
    Ok(())
}

/// The reference counts of all clusters of a file, by the table of blocks.
pub(crate) fn read_counts<S: Storage>(
    storage: &S,
    alloc: Global,
    shape: Shape,
    order: u32,
    table: &[u8],
) -> Result<Vec<u32>, CheckError>
    requires order { order ≤ 6 }
    ensures all { IfOk result (λ v. length v.items ≡ shape.clusters) }
    ensures told { IsTrue (S.features storage.now).tells_bytes → IfOk result
        (λ v. (n : ℕ) → n < shape.clusters → slice_index v.items n
        ≡ min (count_from order shape.cluster (S.bytes storage.now) table.now n) most_counted) }
{
    let mut block = read_bytes(storage, alloc, 0, shape.cluster as usize)?;
    let mut counts = Vec::new(alloc);
    counts.reserve(shape.clusters)?;
    put_blocks(storage, alloc, shape, order, table, &mut block, &mut counts)?;
    Ok(counts)
}

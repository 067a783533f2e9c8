// SPDX-License-Identifier: MIT
//! The table of a sparse disk: where each byte of the disk comes from.
ghost use Rattle.std.specs.Prelude.{◌≡◌, ℕ, ◌+◌, ◌^◌, ◌<◌, ◌≤◌, ◌⊎◌, ◌≢◌, length, Option, Some};
ghost use Rattle.std.specs.Prelude.{None, IfOk, IfErr, OnOk, OnErr, IsOk, IsErrOf, MatchOption};
ghost use Rattle.std.specs.Prelude.{slice_get};
ghost use Rattle.imago_test_tables.specs.Table.{IsFilled, IsPartlyFilled, AllClear, IsClear};
ghost use Rattle.imago_test_tables.specs.Table.{HasBarred, HasEnd, index_of, IsGrownTable};

use imago_storage::error::Error;
use std::alloc::Global;

/// Where a byte of a sparse disk comes from.
#[derive(Clone, Copy, Debug, PartialEq, Eq)]
pub enum Origin {
    /// The byte of the first storage at the same offset.
    First,
    /// The byte of the second storage at the same offset.
    Second,
    /// An explicit zero.
    Zero,
    /// What the layer below has at the same offset.
    Lower,
    /// Nothing: a read is refused as [`Error::NoAccess`].
    Barred,
}

/// The index of the storage that bytes of that origin stand in.
pub(crate) fn storage_index(origin: Origin) -> Option<usize>
    ensures { result ≡ index_of origin }
{
    match origin {
        Origin::First => Some(0),
        Origin::Second => Some(1),
        Origin::Zero | Origin::Lower | Origin::Barred => None,
    }
}

/// The origin of bytes that stand in the storage of that index.
pub(crate) fn stored_origin(index: usize) -> Option<Origin>
    ensures { MatchOption result (2 ≤ index) (λ o. (index < 2) × (index_of o ≡ Some «index»)) }
{
    match index {
        0 => Some(Origin::First),
        1 => Some(Origin::Second),
        _ => None,
    }
}

/// The entry at the offset.
pub(crate) fn entry(table: &[Origin], offset: u64) -> Option<Origin>
    ensures { result ≡ slice_get table.now offset }
{
    if offset >= table.len() as u64 {
        return None;
    }
    Some(table[offset as usize])
}

/// The entry at the offset, if it is there and not barred.
pub(crate) fn clear_entry(table: &[Origin], offset: u64) -> Result<Origin, Error>
    ensures found { IfOk result (λ o. (slice_get table.now offset ≡ Some o) × IsClear (Some o)) }
    ensures only { IfErr result (λ e. (e ≡ Error.NoAccess) ⊎ (e ≡ Error.BeyondDisk)) }
    ensures barred { IsErrOf result Error.NoAccess → slice_get table.now offset
        ≡ Some Origin.Barred }
    ensures beyond { IsErrOf result Error.BeyondDisk → slice_get table.now offset ≡ None }
{
    match entry(table, offset) {
        Some(Origin::Barred) => Err(Error::NoAccess),
        Some(origin) => Ok(origin),
        None => Err(Error::BeyondDisk),
    }
}

/// How many entries from the offset on are that one, at most `most`.
pub(crate) fn run_of(table: &[Origin], offset: u64, origin: Origin, most: u64) -> u64
    ensures most { result ≤ most }
    ensures inside { 0 < result → offset + result ≤ length table.now }
    ensures equal { (k : ℕ) → k < result → slice_get table.now (offset + k) ≡ Some origin }
    ensures ends { result < most → slice_get table.now (offset + result) ≢ Some origin }
{
    let len = table.len() as u64;
    if len <= offset {
        return 0;
    }
    let rest = most.min(len - offset);
    for run in 0..rest {
        if table[(offset + run) as usize] != origin {
            return run;
        }
    }
    rest
}

/// How many entries from the offset on are there and not barred, at most `most`.
pub(crate) fn clear_run(table: &[Origin], offset: u64, most: u64) -> u64
    ensures most { result ≤ most }
    ensures inside { 0 < result → offset + result ≤ length table.now }
    ensures clear { (k : ℕ) → k < result → IsClear (slice_get table.now (offset + k)) }
    ensures ends { result < most
        → (slice_get table.now (offset + result) ≡ None)
        ⊎ (slice_get table.now (offset + result) ≡ Some
        Origin.Barred) }
{
    let len = table.len() as u64;
    if len <= offset {
        return 0;
    }
    let rest = most.min(len - offset);
    for run in 0..rest {
        if table[(offset + run) as usize] == Origin::Barred {
            return run;
        }
    }
    rest
}

/// Sets each entry of a range to that origin.
pub(crate) fn put_run(table: &mut Vec<Origin>, offset: u64, count: u64, origin: Origin)
    requires { 0 < count → offset + count ≤ length table.old.items }
    ensures { IsFilled offset count origin table.old.items table.new.items }
{
    for done in 0..count {
        table[(offset + done) as usize] = origin;
    }
}

/// Makes the entries of a range that one, and answers the range. An entry that is barred or missing
/// refuses it: those before are made all the same.
pub(crate) fn put_part(
    table: &mut Vec<Origin>,
    offset: u64,
    count: u64,
    origin: Origin,
) -> Result<(u64, u64), Error>
    requires { offset + count < 2 ^ 64 }
    ensures answered { IfOk result (λ r. (r.0 ≡ offset) × (r.1 ≡ count)) }
    ensures filled { OnOk result (IsFilled offset count origin table.old.items table.new.items) }
    ensures torn { OnErr result
        (IsPartlyFilled offset count origin table.old.items table.new.items) }
    ensures only { IfErr result (λ e. (e ≡ Error.NoAccess) ⊎ (e ≡ Error.BeyondDisk)) }
    ensures barred { IsErrOf result Error.NoAccess → HasBarred table.old.items offset count }
    ensures beyond { IsErrOf result Error.BeyondDisk → HasEnd table.old.items offset count }
    ensures whole { AllClear table.old.items offset count → IsOk result }
{
    let run = clear_run(table, offset, count);
    let barred = entry(table, offset + run).is_some();
    put_run(table, offset, run, origin);
    if run == count {
        return Ok((offset, count));
    }
    if barred {
        return Err(Error::NoAccess);
    }
    Err(Error::BeyondDisk)
}

/// Adds entries of that kind up to that size. Refused, it is [`Error::Memory`], and the table is as
/// it was.
pub(crate) fn grow(table: &mut Vec<Origin>, size: u64, origin: Origin) -> Result<(), Error>
    requires { length table.old.items ≤ size }
    ensures grown { OnOk result (IsGrownTable size origin table.old.items table.new.items) }
    ensures unchanged { OnErr result (table.new.items ≡ table.old.items) }
    ensures memory { IfErr result (λ e. e ≡ Error.Memory) }
{
    table.resize(size as usize, origin)?;
    Ok(())
}

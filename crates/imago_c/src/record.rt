// SPDX-License-Identifier: MIT
//! Extents of a descriptor as records of fixed length, and a text that has their names.
ghost use Rattle.std.specs.Prelude.{◌≡◌, ◌++◌, ◌∷◌, [], length, map, OnOk, IfErr};
ghost use Rattle.std.specs.List.{flat_map};
ghost use Rattle.std.specs.String.{string_bytes};
ghost use Rattle.imago_storage.specs.declared.error.Error.TheVariants as Error;
ghost use Rattle.imago_vmdk.specs.Line.{extent_with};
ghost use Rattle.imago_c.specs.Records.{name_of, record_of, records_from};

use imago_storage::error::Error;
use imago_vmdk::line::Extent;

/// An extent that is all explicit zeroes.
const ZERO: u32 = 0;

/// One that may not be read.
const NO_ACCESS: u32 = 1;

/// One whose bytes stand in a file.
const FLAT: u32 = 2;

/// An extent of a descriptor. A sector has 512 bytes.
#[repr(C)]
#[derive(Clone, Copy, Debug, PartialEq, Eq)]
pub struct ExtentRecord {
    /// The length in sectors.
    pub sectors: u64,
    /// Where the bytes begin in the file, in sectors; 0 where there is none.
    pub offset: u64,
    /// Where the file's name begins in the text of names, in bytes.
    pub name_start: u64,
    /// The name's length in bytes; 0 where there is no file.
    pub name_length: u64,
    /// 0 for zeroes, 1 for a part that may not be read, 2 for bytes of a file.
    pub kind: u32,
    /// 1 where a mapping says that the bytes may be written, else 0.
    pub writable: u32,
}

/// The name of an extent's file, which is none for one without a file.
fn name(extent: &Extent<String>) -> &[u8]
    ensures { result.now ≡ name_of (extent_with string_bytes extent.now) }
{
    match extent {
        Extent::Flat { name, .. } => name.as_bytes(),
        Extent::Zero { .. } | Extent::NoAccess { .. } => &[],
    }
}

/// The record of an extent whose name begins there.
fn record(extent: &Extent<String>, name_start: u64) -> ExtentRecord
    ensures { result ≡ record_of name_start (extent_with string_bytes extent.now) }
{
    let (kind, offset, name_length, writable) = match extent {
        Extent::Zero { .. } => (ZERO, 0, 0, false),
        Extent::NoAccess { .. } => (NO_ACCESS, 0, 0, false),
        Extent::Flat {
            name,
            offset,
            writable,
            ..
        } => (FLAT, *offset, name.len() as u64, *writable),
    };
    ExtentRecord {
        sectors: extent.sectors(),
        offset,
        name_start,
        name_length,
        kind,
        writable: writable as u32,
    }
}

/// Puts the record of an extent behind the others, and its name behind their names. Refused, it is
/// [`Error::Memory`].
fn tell(
    extent: &Extent<String>,
    records: &mut Vec<ExtentRecord>,
    names: &mut Vec<u8>,
) -> Result<(), Error>
    ensures record { let told = extent_with string_bytes extent.now in
        OnOk result
        (records.new.items ≡ records.old.items ++ record_of (length names.old.items) told ∷ []) }
    ensures name { let told = extent_with string_bytes extent.now in
        OnOk result (names.new.items ≡ names.old.items ++ name_of told) }
    ensures memory { IfErr result (λ e. e ≡ Error.Memory) }
{
    records.push(record(extent, names.len() as u64))?;
    names.extend_from_slice(name(extent))?;
    Ok(())
}

/// Puts the records of extents behind the others, and their names behind their names. Refused, it
/// is [`Error::Memory`].
pub(crate) fn tell_all(
    extents: &[Extent<String>],
    records: &mut Vec<ExtentRecord>,
    names: &mut Vec<u8>,
) -> Result<(), Error>
    ensures records { let told = map (extent_with string_bytes) extents.now in
        OnOk result
        (records.new.items ≡ records.old.items ++ records_from (length names.old.items) told) }
    ensures names { let told = map (extent_with string_bytes) extents.now in
        OnOk result (names.new.items ≡ names.old.items ++ flat_map name_of told) }
    ensures memory { IfErr result (λ e. e ≡ Error.Memory) }
{
    for extent in extents {
        tell(extent, records, names)?;
    }
    Ok(())
}

// SPDX-License-Identifier: MIT
//! The bitmaps of a qcow2 file, as their directory names them.

use crate::extension::BitmapPlace;
use crate::failure::SnapshotFault;
use crate::json::quoted;
use crate::snapshots::{Table, number16, read_part, read_text};
use imago_qcow2::number::number32;
use imago_storage::storage::Storage;
use std::alloc::Global;
use std::io::{self, Write};

/// What comes before the name of a bitmap in the directory, and before what its entry has besides,
/// in bytes.
const FIXED: usize = 24;

/// The flag that a bitmap was in use when the file was left.
const IN_USE: u32 = 1;

/// The flag that a bitmap follows what is written.
const AUTO: u32 = 2;

/// The least base 2 logarithm of how many bytes of the disk a bit is for.
const FINEST: u8 = 9;

/// The greatest one.
const COARSEST: u8 = 31;

/// A bitmap.
#[derive(Drop)]
pub struct Bitmap {
    /// Its name. What isn't UTF-8 in it is replaced.
    pub name: String,
    /// How many bytes of the disk a bit is for.
    pub granularity: u64,
    /// Whether it was in use when the file was left, so that its bits can't be relied on.
    pub in_use: bool,
    /// Whether it follows what is written.
    pub auto: bool,
}

/// All bitmaps of a file of that length, or nothing if an entry of their directory is invalid.
pub fn read_bitmaps<S: Storage>(
    alloc: Global,
    file: &S,
    place: BitmapPlace,
    length: u64,
) -> Result<Option<Vec<Bitmap>>, SnapshotFault> {
    let table = Table {
        start: place.start,
        count: place.count,
        end: length.min(place.start.saturating_add(place.size)),
    };
    let mut all = Vec::new(alloc);
    let mut at = table.start;
    for _index in 0..table.count {
        let Some((bitmap, end)) = read_bitmap(alloc, file, table, at)? else {
            return Ok(None);
        };
        all.push(bitmap)?;
        at = end;
    }
    Ok(Some(all))
}

/// The bitmap whose entry begins there, and where the next one begins, unless the entry is invalid.
fn read_bitmap<S: Storage>(
    alloc: Global,
    file: &S,
    table: Table,
    at: u64,
) -> Result<Option<(Bitmap, u64)>, SnapshotFault> {
    let mut fixed = [0u8; FIXED];
    let behind = read_part(alloc, file, table, at, &mut fixed)?;
    let finest = fixed[17];
    if finest < FINEST || finest > COARSEST {
        return Ok(None);
    }
    let flags = number32(&fixed, 12);
    let start = behind.saturating_add(u64::from(number32(&fixed, 20)));
    let (name, end) = read_text(alloc, file, table, start, number16(&fixed, 18))?;
    let next = end
        .checked_next_multiple_of(8)
        .ok_or(SnapshotFault::PastEnd)?;
    let bitmap = Bitmap {
        name,
        granularity: 1u64.wrapping_shl(u32::from(finest)),
        in_use: flags & IN_USE != 0,
        auto: flags & AUTO != 0,
    };
    Ok(Some((bitmap, next)))
}

/// The names of the flags that a bitmap has.
fn flags_of(bitmap: &Bitmap) -> &'static [&'static str] {
    match (bitmap.in_use, bitmap.auto) {
        (true, true) => &["in-use", "auto"],
        (true, false) => &["in-use"],
        (false, true) => &["auto"],
        (false, false) => &[],
    }
}

/// Prints bitmaps as lines, if there are any, or that they can't be told.
pub fn print_bitmaps<W: Write>(bitmaps: &Option<Vec<Bitmap>>, output: &mut W) -> io::Result<()> {
    let Some(bitmaps) = bitmaps else {
        return writeln!(output, "    bitmaps: can't be told");
    };
    if bitmaps.is_empty() {
        return Ok(());
    }
    writeln!(output, "    bitmaps:")?;
    for (index, bitmap) in bitmaps.iter().enumerate() {
        writeln!(output, "        [{index}]:")?;
        print_bitmap(bitmap, output)?;
    }
    Ok(())
}

/// Prints a bitmap as lines.
fn print_bitmap<W: Write>(bitmap: &Bitmap, output: &mut W) -> io::Result<()> {
    writeln!(output, "            flags:")?;
    for (index, flag) in flags_of(bitmap).iter().enumerate() {
        writeln!(output, "                [{index}]: {flag}")?;
    }
    writeln!(output, "            name: {:?}", bitmap.name)?;
    writeln!(output, "            granularity: {}", bitmap.granularity)
}

/// Prints bitmaps as a member of a JSON object, if there are any; `null` if they can't be told.
pub fn print_bitmaps_json<W: Write>(
    alloc: Global,
    bitmaps: &Option<Vec<Bitmap>>,
    output: &mut W,
) -> io::Result<()> {
    let Some(bitmaps) = bitmaps else {
        return write!(output, ", \"bitmaps\": null");
    };
    if bitmaps.is_empty() {
        return Ok(());
    }
    let mut start = ", \"bitmaps\": [";
    for bitmap in bitmaps {
        write!(output, "{start}")?;
        print_bitmap_json(alloc, bitmap, output)?;
        start = ", ";
    }
    write!(output, "]")
}

/// Prints a bitmap as a JSON object.
fn print_bitmap_json<W: Write>(alloc: Global, bitmap: &Bitmap, output: &mut W) -> io::Result<()> {
    write!(output, "{{ \"flags\": [")?;
    let mut start = "";
    for flag in flags_of(bitmap) {
        write!(output, "{start}\"{flag}\"")?;
        start = ", ";
    }
    let name = quoted(alloc, &bitmap.name)?;
    let granularity = bitmap.granularity;
    write!(
        output,
        "], \"name\": {name}, \"granularity\": {granularity} }}"
    )
}

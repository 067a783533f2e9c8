// SPDX-License-Identifier: MIT
//! The directory of bitmaps, and their tables.
ghost use Rattle.std.specs.Prelude.{◌≡◌, ℕ, List, ◌+◌, ◌-◌, ◌*◌, ◌/◌, ◌%◌, ◌^◌, ◌<◌, ◌≤◌, length};
ghost use Rattle.std.specs.Prelude.{OnOk, IfOk, IsTrue};
ghost use Rattle.imago_qcow2.specs.Numbers.{be64};
ghost use Rattle.imago_qcow2_check.specs.Sums.{total};
ghost use Rattle.imago_qcow2_check.specs.Bitmaps.{is_valid_bits, bits_use, bits_faults};
ghost use Rattle.imago_qcow2_check.specs.Bitmaps.{bitmap_uses, bitmap_faults, bitmap_end};
ghost use Rattle.imago_qcow2_check.specs.Bitmaps.{bitmap_at};
ghost use Rattle.imago_qcow2_check.specs.Bitmaps.{directory_uses, directory_faults};
ghost use Rattle.imago_qcow2_check.specs.Bitmaps.{bitmaps_uses, bitmaps_faults};
ghost use Rattle.imago_qcow2_check.specs.BitmapParts.{IsDirectory, IsBitmap};
ghost use Rattle.imago_qcow2_check.specs.Tallies.{setting_of, Adds};

use crate::counts::number16;
use crate::entry::{OFFSETS, length_of, offset_in};
use crate::fault::{CheckError, Fault, Table};
use crate::shape::Shape;
use crate::tables::read_bytes;
use crate::tally::Tally;
use imago_qcow2::number::{number32, number64};
use imago_storage::ext::StorageExt;
use imago_storage::storage::Storage;
use std::alloc::Global;

/// The most bitmaps that there may be.
const MOST_BITMAPS: u32 = 65535;

/// The most bytes that their directory may have.
const LONGEST_DIRECTORY: u64 = 65535 * 1024;

/// The most bytes that the clusters of a bitmap's bits may have.
const LONGEST_BITMAP: u64 = 512 << 20;

/// The most bytes that a bitmap's name may have.
const LONGEST_NAME: u64 = 1023;

/// The most entries that the tables of all bitmaps may have: 64 MiB.
const MOST_ENTRIES: u32 = 8 << 20;

/// The type of a bitmap that says what was written.
const DIRTY_TRACKING: u8 = 1;

/// The flags that are known: the bitmap was in use when the file was left, and it follows what is
/// written.
const KNOWN_FLAGS: u32 = 3;

/// The least base 2 logarithm of how many bytes of the disk a bit is for.
const FINEST: u8 = 9;

/// The greatest one.
const COARSEST: u8 = 31;

/// How many bytes the header extension holds.
const EXTENSION_LENGTH: u32 = 24;

/// How many bytes an entry of the directory has before the bitmap's name.
const ENTRY_LENGTH: u64 = 24;

/// How far behind the beginning of the header extension the place of the directory stands.
const DIRECTORY_FIELD: u64 = 24;

/// What the header says of the directory of bitmaps.
#[derive(Clone, Copy)]
pub(crate) struct Directory {
    /// Where it begins, and how long it is, in bytes.
    pub(crate) start: u64,
    pub(crate) size: u64,
    /// How many bitmaps there are.
    pub(crate) count: u32,
}

/// What is looked at of a bitmap.
#[derive(Clone, Copy)]
pub(crate) struct Bitmap {
    /// Where its table begins, and how many entries that has.
    pub(crate) table: u64,
    pub(crate) count: u32,
    /// Where its own entry ends.
    pub(crate) end: u64,
}

/// How far the directory was looked at.
#[derive(Clone, Copy)]
pub(crate) struct Spot {
    /// Where the next entry begins.
    pub(crate) at: u64,
    /// How many entries the tables of all further bitmaps may have.
    pub(crate) left: u32,
}

/// What the header extension says that begins there.
fn read_directory<S: Storage>(
    storage: &S,
    alloc: Global,
    shape: Shape,
    at: u64,
) -> Result<Directory, CheckError>
    ensures says { IsTrue (S.features storage.now).tells_bytes
        → IfOk result (IsDirectory (S.bytes storage.now) at) }
    ensures ends { IfOk result (λ d. d.start + d.size < 2 ^ 63) }
{
    let mut head = [0u8; 32];
    storage.read(alloc, &mut head, at)?;
    let directory = Directory {
        start: number64(&head, 24),
        size: number64(&head, 16),
        count: number32(&head, 8),
    };
    if number32(&head, 4) != EXTENSION_LENGTH || number32(&head, 12) != 0 {
        return Err(CheckError::BitmapDirectory);
    }
    if directory.count == 0 || directory.count > MOST_BITMAPS {
        return Err(CheckError::BitmapDirectory);
    }
    if directory.size > LONGEST_DIRECTORY || directory.start > 1 << 62 {
        return Err(CheckError::BitmapDirectory);
    }
    if shape.rest(directory.start) != 0 {
        return Err(CheckError::BitmapDirectory);
    }
    Ok(directory)
}

/// Whether the first bytes of an entry of the directory say a bitmap that can be meant, of which
/// everything is known.
fn is_sound(head: &[u8], shape: Shape) -> bool
    requires { 24 ≤ length head.now }
{
    let table = number64(head, 0);
    let bits = number32(head, 8) as u64 * shape.cluster;
    let name = number16(head, 18);
    if table == 0 || shape.rest(table) != 0 || bits == 0 || bits > LONGEST_BITMAP {
        return false;
    }
    if number32(head, 12) > KNOWN_FLAGS || head[16] != DIRTY_TRACKING || number32(head, 20) != 0 {
        return false;
    }
    head[17] >= FINEST && head[17] <= COARSEST && name > 0 && name <= LONGEST_NAME
}

/// The bitmap whose entry begins there, and ends before the directory's end.
fn read_bitmap<S: Storage>(
    storage: &S,
    alloc: Global,
    shape: Shape,
    at: u64,
    end: u64,
) -> Result<Bitmap, CheckError>
    requires { at < 2 ^ 63 }
    ensures says { IsTrue (S.features storage.now).tells_bytes
        → IfOk result (IsBitmap (S.bytes storage.now) at) }
    ensures within { IfOk result (λ b. b.end ≤ end) }
{
    let mut head = [0u8; 24];
    storage.read(alloc, &mut head, at)?;
    if !is_sound(&head, shape) {
        return Err(CheckError::InvalidBitmap(at));
    }
    let count = ENTRY_LENGTH + number32(&head, 20) as u64 + number16(&head, 18);
    let next = at + count.next_multiple_of(8);
    if next > end {
        return Err(CheckError::BitmapDirectory);
    }
    Ok(Bitmap {
        table: number64(&head, 0),
        count: number32(&head, 8),
        end: next,
    })
}

/// Whether an entry of a bitmap's table is valid.
fn is_valid(shape: Shape, entry: u64) -> bool
    ensures { result ≡ is_valid_bits shape.cluster entry }
{
    if entry < 2 {
        return true;
    }
    entry < OFFSETS && shape.rest(entry) == 0
}

/// Looks at an entry of a bitmap's table, which stands at that offset.
fn look_at_bits(shape: Shape, entry: u64, at: u64, tally: &mut Tally) -> Result<(), CheckError>
    requires all { length tally.old.uses.items ≡ shape.clusters }
    ensures { (counts : List ℕ) → OnOk result
        (Adds tally.old tally.new (bits_use (setting_of shape counts) entry)
        (bits_faults (setting_of shape counts) entry)) }
{
    let fault = Fault::InvalidEntry {
        table: Table::Bitmap,
        at,
    };
    tally.tell(!is_valid(shape, entry), fault)?;
    let offset = offset_in(entry);
    let count = length_of(shape, offset);
    tally.name(shape, offset, count, Table::Bitmap, at)?;
    Ok(())
}

/// Looks at the entries of a bitmap's table, which begins at that offset.
fn look_at_entries(
    shape: Shape,
    table: &[u8],
    start: u64,
    tally: &mut Tally,
) -> Result<(), CheckError>
    requires all { length tally.old.uses.items ≡ shape.clusters }
    ensures { (counts : List ℕ) → OnOk result
        (Adds tally.old tally.new
        (λ n. total (λ i. bits_use (setting_of shape counts) (be64 table.now (8 * i)) n)
        (length table.now / 8))
        (total (λ i. bits_faults (setting_of shape counts) (be64 table.now (8 * i)))
        (length table.now / 8))) }
{
    for index in 0..table.len() / 8 {
        let entry = number64(table, 8 * index);
        let at = start.wrapping_add(8 * index as u64);
        look_at_bits(shape, entry, at, tally)?;
    }
    Ok(())
}

/// Looks at the table of a bitmap, whose own entry begins there.
fn look_at_table<S: Storage>(
    storage: &S,
    alloc: Global,
    shape: Shape,
    bitmap: Bitmap,
    at: u64,
    tally: &mut Tally,
) -> Result<(), CheckError>
    requires all { length tally.old.uses.items ≡ shape.clusters }
    ensures all { OnOk result (length tally.new.uses.items ≡ shape.clusters) }
    ensures told { (counts : List ℕ) → IsTrue (S.features storage.now).tells_bytes
        → IsBitmap (S.bytes storage.now) at bitmap → OnOk result
        (Adds tally.old tally.new
        (bitmap_uses (setting_of shape counts) (S.bytes storage.now) at)
        (bitmap_faults (setting_of shape counts) (S.bytes storage.now) at)) }
{
    let bytes = 8 * bitmap.count as u64;
    tally.name(shape, bitmap.table, bytes, Table::Bitmaps, at)?;
    let table = read_bytes(storage, alloc, bitmap.table, bytes as usize)?;
    look_at_entries(shape, &table, bitmap.table, tally)?;
    Ok(())
}

/// Looks at the next bitmap of a directory that ends there.
fn look_at_next<S: Storage>(
    storage: &S,
    alloc: Global,
    shape: Shape,
    end: u64,
    spot: Spot,
    tally: &mut Tally,
) -> Result<Spot, CheckError>
    requires all { length tally.old.uses.items ≡ shape.clusters }
    requires within { spot.at < 2 ^ 63 }
    ensures all { OnOk result (length tally.new.uses.items ≡ shape.clusters) }
    ensures told { (counts : List ℕ) → IsTrue (S.features storage.now).tells_bytes → OnOk result
        (Adds tally.old tally.new
        (bitmap_uses (setting_of shape counts) (S.bytes storage.now) spot.at)
        (bitmap_faults (setting_of shape counts) (S.bytes storage.now) spot.at)) }
    ensures next { IsTrue (S.features storage.now).tells_bytes
        → IfOk result (λ s. s.at ≡ bitmap_end (S.bytes storage.now) spot.at) }
    ensures within { IfOk result (λ s. s.at ≤ end) }
{
    let bitmap = read_bitmap(storage, alloc, shape, spot.at, end)?;
    if bitmap.count > spot.left {
        return Err(CheckError::BitmapTables);
    }
    look_at_table(storage, alloc, shape, bitmap, spot.at, tally)?;
    Ok(Spot {
        at: bitmap.end,
        left: spot.left - bitmap.count,
    })
}

/// Looks at each bitmap of a directory.
fn look_at_each<S: Storage>(
    storage: &S,
    alloc: Global,
    shape: Shape,
    directory: Directory,
    tally: &mut Tally,
) -> Result<(), CheckError>
    requires all { length tally.old.uses.items ≡ shape.clusters }
    requires ends { directory.start + directory.size < 2 ^ 63 }
    ensures all { OnOk result (length tally.new.uses.items ≡ shape.clusters) }
    ensures told { (counts : List ℕ) → IsTrue (S.features storage.now).tells_bytes → OnOk result
        (Adds tally.old tally.new
        (λ n. total (λ i. bitmap_uses (setting_of shape counts) (S.bytes storage.now)
        (bitmap_at (S.bytes storage.now) directory.start i) n) directory.count)
        (total (λ i. bitmap_faults (setting_of shape counts) (S.bytes storage.now)
        (bitmap_at (S.bytes storage.now) directory.start i)) directory.count)) }
{
    let end = directory.start + directory.size;
    let mut spot = Spot {
        at: directory.start,
        left: MOST_ENTRIES,
    };
    for _index in 0..directory.count {
        spot = look_at_next(storage, alloc, shape, end, spot, tally)?;
    }
    if spot.at != end {
        return Err(CheckError::BitmapDirectory);
    }
    Ok(())
}

/// Looks at the directory of bitmaps, and at each bitmap, by where the header extension begins that
/// says where it is; 0 if no bitmap is valid.
pub(crate) fn look_at_bitmaps<S: Storage>(
    storage: &S,
    alloc: Global,
    shape: Shape,
    at: u64,
    tally: &mut Tally,
) -> Result<(), CheckError>
    requires all { length tally.old.uses.items ≡ shape.clusters }
    ensures told { (counts : List ℕ) → IsTrue (S.features storage.now).tells_bytes → OnOk result
        (Adds tally.old tally.new
        (bitmaps_uses (setting_of shape counts) (S.bytes storage.now) at)
        (bitmaps_faults (setting_of shape counts) (S.bytes storage.now) at)) }
    ensures all { OnOk result (length tally.new.uses.items ≡ shape.clusters) }
{
    if at == 0 {
        return Ok(());
    }
    let directory = read_directory(storage, alloc, shape, at)?;
    let place = at.wrapping_add(DIRECTORY_FIELD);
    tally.name(shape, directory.start, directory.size, Table::Header, place)?;
    look_at_each(storage, alloc, shape, directory, tally)?;
    Ok(())
}

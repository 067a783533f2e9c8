// SPDX-License-Identifier: MIT
//! A new file, put into a target.
ghost use Rattle.std.specs.Prelude.{◌≡◌, ℕ, List, Option, ◌+◌, ◌*◌, ◌<◌, ◌≤◌, []};
ghost use Rattle.std.specs.Prelude.{OnOk, IfOk, IfSome, IsTrue};
ghost use Rattle.std.specs.Int.{next_multiple_of};
ghost use Rattle.imago_access.specs.Chain.{driver, tells_bytes};
ghost use Rattle.imago_access.specs.Disk.{disk, value_at};
ghost use Rattle.imago_access.specs.ReaderOf.{image_of, IsKeeping};
ghost use Rattle.imago_copy.specs.Appended.{IsAppended};
ghost use Rattle.imago_copy.specs.Copies.{IsPut};
ghost use Rattle.imago_drivers.specs.Place.{Byte};
ghost use Rattle.imago_qcow2_new.specs.Space.{AreZero, Fills};
ghost use Rattle.imago_qcow2_new.specs.Layout.{entry_value, heads, size_of};
ghost use Rattle.imago_qcow2_new.specs.Image.{IsNewFileIn};

use crate::entries::{HeadWords, TableWords, is_empty};
use crate::format::FormatError;
use crate::layout::{Layout, rounded_size};
use crate::words::put_words;
use crate::zero::is_zero;
use imago_access::access::FormatAccess;
use imago_access::mapping::Mapping;
use imago_access::reader::Reader;
use imago_copy::target::Target;
use imago_drivers::drivers::FormatDriverInstance;
use imago_storage::error;
use std::alloc::{AllocError, Global};
use std::io::{self, ErrorKind};
use thiserror::Error;

/// Why a new file isn't written.
#[derive(Debug, Drop, Error)]
pub enum NewFileError {
    /// There can be no such file.
    #[error("{0}")]
    Format(FormatError),
    /// A mapping or a read of the image was refused.
    #[error("{0}")]
    Image(error::Error),
    /// The target refused, or the buffer has no room for a word of 8 bytes.
    #[error("{0}")]
    Target(io::Error),
    /// The image isn't the one that the layout was made of: it has another size, or a byte that
    /// isn't 0 in a cluster that is left out.
    #[error("the image changed while it was read")]
    Changed,
}

impl From<FormatError> for NewFileError {
    fn from(error: FormatError) -> NewFileError {
        NewFileError::Format(error)
    }
}

impl From<error::Error> for NewFileError {
    fn from(error: error::Error) -> NewFileError {
        NewFileError::Image(error)
    }
}

impl From<io::Error> for NewFileError {
    fn from(error: io::Error) -> NewFileError {
        NewFileError::Target(error)
    }
}

impl From<AllocError> for NewFileError {
    fn from(refused: AllocError) -> NewFileError {
        NewFileError::Target(io::Error::from(refused))
    }
}

/// A buffer without room.
pub(crate) fn no_room() -> NewFileError {
    NewFileError::Target(io::Error::from(ErrorKind::InvalidInput))
}

/// Puts in what stands before the L2 tables.
fn put_head<T: Target>(layout: &Layout, target: &mut T, buf: &mut [u8]) -> Result<(), NewFileError>
    ensures same { T.made_for target.new ≡ T.made_for target.old }
    ensures put { OnOk result (IsAppended (T.contents target.old) (T.contents target.new)
        (heads layout.now)) }
{
    let head = HeadWords { layout };
    put_words(&head, target, 0, layout.tables_start / 8, buf)?;
    Ok(())
}

/// Puts an L2 table in, if it is one of those that there are. Another one has to be empty.
fn put_table<T: Target>(
    layout: &Layout,
    target: &mut T,
    table: u64,
    buf: &mut [u8],
) -> Result<(), NewFileError>
    requires { table < layout.now.header.l1_count }
    ensures same { T.made_for target.new ≡ T.made_for target.old }
    ensures put { (first : Option (List ℕ)) → Fills layout.now.tables layout.now.tables_start
        (entry_value layout.now) first (T.contents target.old) (table * layout.now.cluster)
        → OnOk result (Fills layout.now.tables layout.now.tables_start (entry_value layout.now)
        first (T.contents target.new) (table * layout.now.cluster + layout.now.cluster)) }
{
    let part = layout.tables.part_at(table * layout.cluster);
    if part.is_stored {
        let words = TableWords { layout };
        let per_table = layout.cluster / 8;
        put_words(&words, target, table * per_table, per_table, buf)?;
        return Ok(());
    }
    if layout.gap != 0 || !is_empty(layout, table) {
        return Err(NewFileError::Changed);
    }
    Ok(())
}

/// Puts the L2 tables in that there are.
fn put_tables<T: Target>(
    layout: &Layout,
    target: &mut T,
    buf: &mut [u8],
) -> Result<(), NewFileError>
    ensures same { T.made_for target.new ≡ T.made_for target.old }
    ensures put { OnOk result (Fills layout.now.tables layout.now.tables_start
        (entry_value layout.now) (T.contents target.old) (T.contents target.new)
        (layout.now.header.l1_count * layout.now.cluster)) }
{
    for table in 0..layout.header.l1_count as u64 {
        put_table(layout, target, table, buf)?;
    }
    Ok(())
}

/// Reads the first bytes of a range of the disk and puts them in: as many as the buffer has room
/// for, and at most `most`. It answers how many.
fn put_stored<D: FormatDriverInstance, T: Target>(
    alloc: Global,
    reader: &mut Reader<'_, D>,
    target: &mut T,
    at: u64,
    most: u64,
    buf: &mut [u8],
) -> Result<u64, NewFileError>
    requires { IsKeeping D.view reader.old }
    ensures image { image_of reader.new ≡ image_of reader.old }
    ensures keeping { IsKeeping D.view reader.new }
    ensures some { IfOk result (λ n. (0 < n) × (n ≤ most)) }
    ensures same { T.made_for target.new ≡ T.made_for target.old }
    ensures put { IsTrue (tells_bytes D.view (image_of reader.old)) → IfOk result (λ n.
        IsPut (value_at (disk D.view (image_of reader.old))) at n (T.contents target.old)
        (T.contents target.new)) }
{
    let count = most.min(buf.len() as u64);
    if count == 0 {
        return Err(no_room());
    }
    let chunk = &mut buf[..count as usize];
    reader.read(alloc, chunk, at)?;
    target.append(chunk)?;
    Ok(count)
}

/// How many of the first bytes of a range are known to be zero, without a look at them.
fn known_zeroes<D: FormatDriverInstance>(
    image: &FormatAccess<D>,
    at: u64,
    most: u64,
) -> Result<u64, error::Error>
    ensures within { IfOk result (λ n. n ≤ most) }
    ensures zero { IfOk result (AreZero (value_at (disk D.view image.now)) at) }
{
    let (mapping, count) = image.get_mapping(at, most)?;
    match mapping {
        Mapping::Zero { .. } => Ok(count),
        _ => Ok(0),
    }
}

/// Passes over the first bytes of a range of the disk, which have to be 0: as many as are known to
/// be zero, or as the buffer has room for. It answers how many.
fn pass_gap<D: FormatDriverInstance>(
    alloc: Global,
    reader: &mut Reader<'_, D>,
    at: u64,
    most: u64,
    buf: &mut [u8],
) -> Result<u64, NewFileError>
    requires { IsKeeping D.view reader.old }
    ensures image { image_of reader.new ≡ image_of reader.old }
    ensures keeping { IsKeeping D.view reader.new }
    ensures some { IfOk result (λ n. (0 < n) × (n ≤ most)) }
    ensures zero { IsTrue (tells_bytes D.view (image_of reader.old)) → IfOk result
        (AreZero (value_at (disk D.view (image_of reader.old))) at) }
{
    let known = known_zeroes(reader.image(), at, most)?;
    if known > 0 {
        return Ok(known);
    }
    let count = most.min(buf.len() as u64);
    if count == 0 {
        return Err(no_room());
    }
    let chunk = &mut buf[..count as usize];
    reader.read(alloc, chunk, at)?;
    if !is_zero(chunk) {
        return Err(NewFileError::Changed);
    }
    Ok(count)
}

/// Puts in what is stored of the disk from an offset on, as far as it is all stored, or none of it,
/// and answers how far.
fn put_part<D: FormatDriverInstance, T: Target>(
    alloc: Global,
    reader: &mut Reader<'_, D>,
    layout: &Layout,
    target: &mut T,
    at: u64,
    buf: &mut [u8],
) -> Result<u64, NewFileError>
    requires keeping { IsKeeping D.view reader.old }
    requires inside { at ≤ layout.now.length }
    ensures image { image_of reader.new ≡ image_of reader.old }
    ensures keeping { IsKeeping D.view reader.new }
    ensures some { IfOk result (λ n. (0 < n) × (at + n ≤ layout.now.length)) }
    ensures same { T.made_for target.new ≡ T.made_for target.old }
    ensures put { (first : Option (List ℕ)) → IsTrue (tells_bytes D.view (image_of reader.old))
        → Fills layout.now.clusters layout.now.data_start
        (value_at (disk D.view (image_of reader.old))) first (T.contents target.old) at
        → IfOk result (λ n. Fills layout.now.clusters layout.now.data_start
        (value_at (disk D.view (image_of reader.old))) first (T.contents target.new) (at + n)) }
{
    let part = layout.clusters.part_at(at);
    let most = part.count.min(layout.length - at);
    if part.is_stored {
        let count = put_stored(alloc, reader, target, at, most, buf)?;
        return Ok(count);
    }
    let count = pass_gap(alloc, reader, at, most, buf)?;
    Ok(count)
}

/// Puts the clusters of the disk in that are stored.
fn put_disk<D: FormatDriverInstance, T: Target>(
    alloc: Global,
    image: &FormatAccess<D>,
    layout: &Layout,
    target: &mut T,
    buf: &mut [u8],
) -> Result<(), NewFileError>
    ensures same { T.made_for target.new ≡ T.made_for target.old }
    ensures put { IsTrue (tells_bytes D.view image.now) → OnOk result (Fills layout.now.clusters
        layout.now.data_start (value_at (disk D.view image.now)) (T.contents target.old)
        (T.contents target.new) layout.now.length) }
{
    let mut reader = Reader::new(alloc, image);
    let mut at: u64 = 0;
    while at < layout.length {
        at += put_part(alloc, &mut reader, layout, target, at, buf)?;
    }
    Ok(())
}

/// Puts a new file into a target that is empty, from its first byte to its last one: the header and
/// the tables that the layout says, and the clusters of the image's disk that it has stored. All
/// others have to be zero.
///
/// The disk is read by way of the buffer. Bytes of clusters that aren't stored are read too, and
/// tested, unless a mapping tells that they are zero.
///
/// # Errors
///
/// [`NewFileError::Changed`] says that the image isn't the one that the layout was made of. The
/// other refusals are those of the image and of the target; [`NewFileError::Target`] is
/// [`ErrorKind::InvalidInput`] where the buffer has less than 8 bytes. A refusal ends all, and what
/// was put in until then stays in the target: it is no file to keep.
pub fn write_image<D: FormatDriverInstance, T: Target>(
    alloc: Global,
    image: &FormatAccess<D>,
    layout: &Layout,
    target: &mut T,
    buf: &mut [u8],
) -> Result<(), NewFileError>
    ensures same { T.made_for target.new ≡ T.made_for target.old }
    ensures size { OnOk result
        (size_of layout.now ≡ next_multiple_of (D.view (driver image.now)).size 512) }
    ensures written { IfSome (T.contents target.old) (λ there. there ≡ [])
        → IsTrue (tells_bytes D.view image.now) → OnOk result
        (IsNewFileIn layout.now (value_at (disk D.view image.now)) (T.contents target.old)
        (T.contents target.new)) }
{
    if rounded_size(image.size())? != layout.header.size {
        return Err(NewFileError::Changed);
    }
    put_head(layout, target, buf)?;
    put_tables(layout, target, buf)?;
    put_disk(alloc, image, layout, target, buf)?;
    Ok(())
}

/// Puts a new file of a disk of zeroes into a target that is empty, from its first byte to its last
/// one. The clusters that are stored are zero.
///
/// # Errors
///
/// [`NewFileError::Target`] is the refusal of the target, or [`ErrorKind::InvalidInput`] where the
/// buffer has less than 8 bytes. What was put in until then stays in the target: it is no file to
/// keep.
pub fn write_zeroes<T: Target>(
    layout: &Layout,
    target: &mut T,
    buf: &mut [u8],
) -> Result<(), NewFileError>
    ensures same { T.made_for target.new ≡ T.made_for target.old }
    ensures written { IfSome (T.contents target.old) (λ there. there ≡ []) → OnOk result
        (IsNewFileIn layout.now (λ _. Byte 0) (T.contents target.old) (T.contents target.new)) }
{
    put_head(layout, target, buf)?;
    put_tables(layout, target, buf)?;
    target.append_zeroes(layout.clusters.stored)?;
    Ok(())
}

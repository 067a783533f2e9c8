// SPDX-License-Identifier: MIT
//! Which clusters of a disk are to be stored in a new file of it.
ghost use Rattle.std.specs.Prelude.{◌≡◌, ℕ, ◌+◌, ◌%◌, ◌^◌, ◌<◌, ◌≤◌, [], length, true, false, IfOk};
ghost use Rattle.std.specs.Prelude.{OnOk, IsTrue};
ghost use Rattle.std.specs.Int.{next_multiple_of};
ghost use Rattle.imago_access.specs.Chain.{driver, tells_bytes};
ghost use Rattle.imago_access.specs.Disk.{disk, value_at};
ghost use Rattle.imago_access.specs.ReaderOf.{image_of, IsKeeping};
ghost use Rattle.imago_drivers.specs.Place.{Value, HasValues};
ghost use Rattle.imago_qcow2_new.specs.Space.{stores, StoresData};
ghost use Rattle.imago_qcow2_new.specs.Layout.{IsLayoutOf, StoresNothing, StoresAll};
ghost use Rattle.imago_qcow2_new.specs.Names.{HasNamesOf};

use crate::extents::Extents;
use crate::format::{Backing, Format, FormatError};
use crate::layout::{Layout, cluster_length, rounded_size};
use crate::write::{NewFileError, no_room};
use crate::zero::is_zero;
use imago_access::access::FormatAccess;
use imago_access::reader::Reader;
use imago_copy::ends::data_count;
use imago_copy::runs::Runs;
use imago_drivers::drivers::FormatDriverInstance;
use std::alloc::{AllocError, Global};

/// How many bytes of a cluster are read before the others, where those that were looked at last
/// have data.
const FIRST: u64 = 4096;

/// Which units of a disk have a byte that isn't 0, as far as it was looked at.
#[derive(Drop)]
struct Scan {
    stored: Extents,
    /// The length of a unit in bytes.
    unit: u64,
    /// Whether such a byte was among those that were looked at last.
    is_amid_data: bool,
    ghost positive: { 0 < unit },
    ghost unit_is: { stored.unit ≡ unit },
}

impl Scan {
    /// Nothing of a disk in such units.
    fn new(alloc: Global, unit: u64) -> Self
        requires { 0 < unit }
        ensures unit { result.unit ≡ unit }
        ensures none { result.stored.extents.items ≡ [] }
    {
        Scan {
            stored: Extents::new(alloc, unit),
            unit,
            is_amid_data: false,
        }
    }

    /// What was found.
    fn into_stored(self) -> Extents
        ensures { result ≡ self.stored }
    {
        self.stored
    }

    /// How many bytes from an offset on are of its unit, at most that many.
    fn left_of_unit(&self, at: u64, most: u64) -> u64
        requires { 0 < most }
        ensures some { 0 < result }
        ensures within { result ≤ most }
        ensures inside { at % self.now.unit + result ≤ self.now.unit }
    {
        most.min(self.unit - at % self.unit)
    }

    /// Looks at bytes that are of one unit, and begin at that offset of the disk.
    fn look_in(&mut self, source: &[u8], at: u64) -> Result<(), AllocError>
        requires small { at + length source.now + self.old.unit < 2 ^ 64 }
        requires inside { at % self.old.unit + length source.now ≤ self.old.unit }
        ensures unit { self.new.unit ≡ self.old.unit }
        ensures sparse { (values : ℕ → Value) → HasValues values at source.now
            → StoresData self.old.stored values → OnOk result (StoresData self.new.stored values) }
    {
        self.is_amid_data = !is_zero(source);
        if self.is_amid_data {
            self.stored.cover(at, at + source.len() as u64)?;
        }
        Ok(())
    }

    /// Looks at bytes that begin at that offset of the disk, unit by unit.
    fn look_at(&mut self, source: &[u8], at: u64) -> Result<(), AllocError>
        requires { at + length source.now + self.old.unit < 2 ^ 64 }
        ensures unit { self.new.unit ≡ self.old.unit }
        ensures sparse { (values : ℕ → Value) → HasValues values at source.now
            → StoresData self.old.stored values → OnOk result (StoresData self.new.stored values) }
    {
        let mut done: usize = 0;
        while done < source.len() {
            let here = at + done as u64;
            let count = self.left_of_unit(here, (source.len() - done) as u64) as usize;
            self.look_in(&source[done..done + count], here)?;
            done += count;
        }
        Ok(())
    }

    /// Reads the first bytes of a range, as many as the buffer has room for, looks at them, and
    /// answers how many they are.
    fn read_part<D: FormatDriverInstance>(
        &mut self,
        alloc: Global,
        reader: &mut Reader<'_, D>,
        at: u64,
        most: u64,
        buf: &mut [u8],
    ) -> Result<u64, NewFileError>
        requires keeping { IsKeeping D.view reader.old }
        requires small { at + most + self.old.unit < 2 ^ 64 }
        ensures image { image_of reader.new ≡ image_of reader.old }
        ensures keeping { IsKeeping D.view reader.new }
        ensures unit { self.new.unit ≡ self.old.unit }
        ensures sparse { IsTrue (tells_bytes D.view (image_of reader.old))
            → StoresData self.old.stored (value_at (disk D.view (image_of reader.old)))
            → OnOk result
            (StoresData self.new.stored (value_at (disk D.view (image_of reader.old)))) }
        ensures some { IfOk result (λ n. (0 < n) × (n ≤ most)) }
    {
        let count = most.min(buf.len() as u64);
        if count == 0 {
            return Err(no_room());
        }
        let chunk = &mut buf[..count as usize];
        reader.read(alloc, chunk, at)?;
        self.look_at(chunk, at)?;
        Ok(count)
    }

    /// Whether the first bytes of a unit have data. They are read if those that were looked at last
    /// have data, and the unit is longer.
    fn shows_data<D: FormatDriverInstance>(
        &mut self,
        alloc: Global,
        reader: &mut Reader<'_, D>,
        at: u64,
        rest: u64,
        buf: &mut [u8],
    ) -> Result<bool, NewFileError>
        requires keeping { IsKeeping D.view reader.old }
        requires small { at + rest + self.old.unit < 2 ^ 64 }
        ensures image { image_of reader.new ≡ image_of reader.old }
        ensures keeping { IsKeeping D.view reader.new }
        ensures unit { self.new.unit ≡ self.old.unit }
        ensures sparse { IsTrue (tells_bytes D.view (image_of reader.old))
            → StoresData self.old.stored (value_at (disk D.view (image_of reader.old)))
            → OnOk result
            (StoresData self.new.stored (value_at (disk D.view (image_of reader.old)))) }
    {
        if !self.is_amid_data || rest <= FIRST {
            return Ok(false);
        }
        self.read_part(alloc, reader, at, FIRST, buf)?;
        Ok(self.is_amid_data)
    }

    /// Finds out which of the first units of a range are stored, and answers how many bytes that
    /// settles.
    ///
    /// Behind data, the next unit mostly has data too, and its first bytes show it. So most of a
    /// dense disk isn't read.
    fn read_first<D: FormatDriverInstance>(
        &mut self,
        alloc: Global,
        reader: &mut Reader<'_, D>,
        at: u64,
        most: u64,
        buf: &mut [u8],
    ) -> Result<u64, NewFileError>
        requires keeping { IsKeeping D.view reader.old }
        requires some { 0 < most }
        requires small { at + most + self.old.unit < 2 ^ 64 }
        ensures image { image_of reader.new ≡ image_of reader.old }
        ensures keeping { IsKeeping D.view reader.new }
        ensures unit { self.new.unit ≡ self.old.unit }
        ensures sparse { IsTrue (tells_bytes D.view (image_of reader.old))
            → StoresData self.old.stored (value_at (disk D.view (image_of reader.old)))
            → OnOk result
            (StoresData self.new.stored (value_at (disk D.view (image_of reader.old)))) }
        ensures some { IfOk result (λ n. (0 < n) × (n ≤ most)) }
    {
        let rest = self.left_of_unit(at, most);
        if self.shows_data(alloc, reader, at, rest, buf)? {
            return Ok(rest);
        }
        let count = self.read_part(alloc, reader, at, most, buf)?;
        Ok(count)
    }

    /// Reads as much of a range as it takes to know which of its units are stored.
    fn read_range<D: FormatDriverInstance>(
        &mut self,
        alloc: Global,
        reader: &mut Reader<'_, D>,
        at: u64,
        count: u64,
        buf: &mut [u8],
    ) -> Result<(), NewFileError>
        requires keeping { IsKeeping D.view reader.old }
        requires small { at + count + self.old.unit < 2 ^ 64 }
        ensures image { image_of reader.new ≡ image_of reader.old }
        ensures keeping { IsKeeping D.view reader.new }
        ensures unit { self.new.unit ≡ self.old.unit }
        ensures sparse { IsTrue (tells_bytes D.view (image_of reader.old))
            → StoresData self.old.stored (value_at (disk D.view (image_of reader.old)))
            → OnOk result
            (StoresData self.new.stored (value_at (disk D.view (image_of reader.old)))) }
    {
        let mut done: u64 = 0;
        while done < count {
            done += self.read_first(alloc, reader, at + done, count - done, buf)?;
        }
        Ok(())
    }
}

/// The clusters of an image's disk in which a byte isn't 0, for clusters of that length. What is
/// known to be zero isn't read, nor is most of a cluster whose first bytes show that it is stored.
fn stored_clusters<D: FormatDriverInstance>(
    alloc: Global,
    image: &FormatAccess<D>,
    cluster: u64,
    buf: &mut [u8],
) -> Result<Extents, NewFileError>
    requires least { 512 ≤ cluster }
    requires most { cluster ≤ 2097152 }
    ensures { IsTrue (tells_bytes D.view image.now)
        → IfOk result (λ e. StoresData e (value_at (disk D.view image.now))) }
{
    // A disk that is too large for any file is refused before it is read.
    rounded_size(image.size())?;
    let mut scan = Scan::new(alloc, cluster);
    let mut reader = Reader::new(alloc, image);
    let mut runs = Runs::new(image)?;
    while let Some(run) = runs.next_run()? {
        let count = data_count(runs.image(), run);
        scan.read_range(alloc, &mut reader, run.at, count, buf)?;
    }
    Ok(scan.into_stored())
}

/// Where everything stands in a new file of an image's disk, in which clusters that are zero aren't
/// stored. The disk is read by way of the buffer, but for what is known to be zero. Behind data,
/// the first 4 KiB of a longer cluster are read alone, and show in most cases that it is stored.
///
/// Clusters that aren't stored are read again by [`write_image`](crate::write::write_image), and
/// tested there: so nothing has to be trusted of what is found here.
///
/// # Errors
///
/// [`NewFileError::Format`] says that there can be no such file, [`NewFileError::Image`] is a
/// refusal of the image, and [`NewFileError::Target`] is
/// [`OutOfMemory`](std::io::ErrorKind::OutOfMemory), or
/// [`InvalidInput`](std::io::ErrorKind::InvalidInput) where the buffer is empty.
pub fn layout_of<D: FormatDriverInstance>(
    alloc: Global,
    image: &FormatAccess<D>,
    format: Format,
    backing: Option<Backing<'_>>,
    buf: &mut [u8],
) -> Result<Layout, NewFileError>
    ensures layout { IfOk result (IsLayoutOf format (D.view (driver image.now)).size) }
    ensures names { IfOk result (HasNamesOf backing.entry) }
    ensures sparse { IsTrue (tells_bytes D.view image.now)
        → IfOk result (λ l. StoresData l.clusters (value_at (disk D.view image.now))) }
{
    let cluster = cluster_length(format.cluster_bits)?;
    let stored = stored_clusters(alloc, image, cluster, buf)?;
    let layout = Layout::new(alloc, format, image.size(), stored, backing)?;
    Ok(layout)
}

/// The clusters of a disk of that size that are stored, where all of them are, or none is.
fn all_or_none(
    alloc: Global,
    cluster: u64,
    size: u64,
    is_stored: bool,
) -> Result<Extents, FormatError>
    requires least { 512 ≤ cluster }
    requires most { cluster ≤ 2097152 }
    ensures none { is_stored ≡ false → IfOk result (λ e. e.extents.items ≡ []) }
    ensures all { is_stored ≡ true → IfOk result
        (λ e. (p : ℕ) → p < next_multiple_of size 512 → stores e p ≡ true) }
{
    let mut stored = Extents::new(alloc, cluster);
    if !is_stored {
        return Ok(stored);
    }
    let size = rounded_size(size)?;
    stored.cover(0, size)?;
    Ok(stored)
}

/// Where everything stands in a new file of a disk of that size, of which each cluster is stored,
/// or none is.
///
/// # Errors
///
/// Those of [`Layout::new`].
pub fn layout_of_size(
    alloc: Global,
    format: Format,
    size: u64,
    is_stored: bool,
    backing: Option<Backing<'_>>,
) -> Result<Layout, FormatError>
    ensures layout { IfOk result (IsLayoutOf format size) }
    ensures names { IfOk result (HasNamesOf backing.entry) }
    ensures none { is_stored ≡ false → IfOk result StoresNothing }
    ensures all { is_stored ≡ true → IfOk result StoresAll }
{
    let cluster = cluster_length(format.cluster_bits)?;
    let stored = all_or_none(alloc, cluster, size, is_stored)?;
    let layout = Layout::new(alloc, format, size, stored, backing)?;
    Ok(layout)
}

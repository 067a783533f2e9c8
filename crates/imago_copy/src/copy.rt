// SPDX-License-Identifier: MIT
//! A disk, copied to a target.
ghost use Rattle.std.specs.Prelude.{◌≡◌, ◌+◌, ◌-◌, ◌<◌, ◌≤◌, ◌^◌, ℕ, IsTrue, OnOk, OnErr, IfOk};
ghost use Rattle.std.specs.Prelude.{List, Option, length, take};
ghost use Rattle.imago_access.specs.Chain.{disk_value, tells_bytes};
ghost use Rattle.imago_access.specs.Disk.{disk};
ghost use Rattle.imago_access.specs.ReaderOf.{image_of, IsKeeping};
ghost use Rattle.imago_access.specs.Target.{target as leads_to};
ghost use Rattle.imago_drivers.specs.Place.{Value, Byte};
ghost use Rattle.imago_copy.specs.Appended.{IsAppended, IsPartlyAppended};
ghost use Rattle.imago_copy.specs.Copies.{IsPut, IsPartlyPut, IsGathered};
ghost use Rattle.imago_copy.specs.Copies.{IsDiskPut, IsDiskPartlyPut};
ghost use Rattle.imago_copy.specs.Runs.{IsRunAt};

use crate::ends::data_count;
use crate::runs::{Run, Runs};
use crate::stored::read_run;
use crate::target::Target;
use imago_access::access::FormatAccess;
use imago_access::reader::Reader;
use imago_drivers::drivers::FormatDriverInstance;
use imago_storage::error::Error;
use std::alloc::Global;
use std::fmt::{self, Display, Formatter, Write};
use std::io::{self, ErrorKind};

/// Why a disk isn't copied.
#[derive(Debug, Drop)]
pub enum CopyError {
    /// A mapping or a read of the image was refused.
    Image(Error),
    /// The target refused, or the buffer is empty.
    Target(io::Error),
}

impl Display for CopyError {
    fn fmt<W: Write>(&self, f: &mut Formatter<W>) -> fmt::Result {
        match self {
            CopyError::Image(error) => write!(f, "{error}"),
            CopyError::Target(error) => write!(f, "{error}"),
        }
    }
}

impl From<Error> for CopyError {
    fn from(error: Error) -> CopyError {
        CopyError::Image(error)
    }
}

impl From<io::Error> for CopyError {
    fn from(error: io::Error) -> CopyError {
        CopyError::Target(error)
    }
}

/// Puts the bytes that the buffer holds at its start into the target.
fn put_held<T: Target>(target: &mut T, buf: &[u8], held: usize) -> Result<(), CopyError>
    requires within { held ≤ length buf.now }
    ensures same { T.made_for target.new ≡ T.made_for target.old }
    ensures appended { OnOk result (IsAppended (T.contents target.old) (T.contents target.new)
        (take held buf.now)) }
    ensures refused { OnErr result (IsPartlyAppended (T.contents target.old)
        (T.contents target.new) (take held buf.now)) }
{
    if held > 0 {
        target.append(&buf[..held])?;
    }
    Ok(())
}

/// Puts what the buffer holds into the target, unless it has room for so many bytes more. It answers
/// how many it holds then.
fn make_room<T: Target>(
    target: &mut T,
    buf: &[u8],
    held: usize,
    count: u64,
) -> Result<usize, CopyError>
    requires within { held ≤ length buf.now }
    ensures held { IfOk result (λ n. n ≤ length buf.now) }
    ensures same { T.made_for target.new ≡ T.made_for target.old }
    ensures put { (at : ℕ → Value) (p : ℕ) (s : Option (List ℕ))
        → IsGathered at p s (T.contents target.old) buf.now held
        → IfOk result (IsGathered at p s (T.contents target.new) buf.now) }
    ensures refused { (at : ℕ → Value) (p : ℕ) (s : Option (List ℕ))
        → IsGathered at p s (T.contents target.old) buf.now held
        → OnErr result (IsPartlyPut at 0 p s (T.contents target.new)) }
{
    if count <= (buf.len() - held) as u64 {
        return Ok(held);
    }
    put_held(target, buf, held)?;
    Ok(0)
}

/// Reads bytes of a run, from that many of it on, behind those that the buffer holds: as many as it
/// has room for, or all that are left. Where it has no room, it is put into the target before. It
/// answers how many were read, and how many the buffer holds then.
fn copy_first<D: FormatDriverInstance, T: Target>(
    alloc: Global,
    reader: &mut Reader<'_, D>,
    target: &mut T,
    run: Run,
    done: u64,
    buf: &mut [u8],
    held: usize,
) -> Result<(u64, usize), CopyError>
    requires keeping { IsKeeping D.view reader.old }
    requires run { IsRunAt (leads_to D.view (image_of reader.old)) run.at run }
    requires inside { run.at + run.count < 2 ^ 64 }
    requires within { done ≤ run.count }
    requires held { held ≤ length buf.old }
    ensures image { image_of reader.new ≡ image_of reader.old }
    ensures keeping { IsKeeping D.view reader.new }
    ensures some { IfOk result (λ r. (0 < r.0) × (r.0 ≤ run.count - done)) }
    ensures held { IfOk result (λ r. r.1 ≤ length buf.new) }
    ensures same { T.made_for target.new ≡ T.made_for target.old }
    ensures put { IsTrue (tells_bytes D.view (image_of reader.old)) → (s : Option (List ℕ))
        → IsGathered (disk_value D.view (image_of reader.old)) (run.at + done) s
        (T.contents target.old) buf.old held → IfOk result (λ r.
        IsGathered (disk_value D.view (image_of reader.old)) (run.at + done + r.0) s
        (T.contents target.new) buf.new r.1) }
    ensures refused { IsTrue (tells_bytes D.view (image_of reader.old)) → (s : Option (List ℕ))
        → IsGathered (disk_value D.view (image_of reader.old)) (run.at + done) s
        (T.contents target.old) buf.old held → OnErr result
        (IsPartlyPut (disk_value D.view (image_of reader.old)) 0 (run.at + done) s
        (T.contents target.new)) }
{
    let start = make_room(target, buf, held, 1)?;
    let count = (run.count - done).min((buf.len() - start) as u64);
    if count == 0 {
        return Err(CopyError::Target(io::Error::from(ErrorKind::InvalidInput)));
    }
    let end = start + count as usize;
    read_run(alloc, reader, run, done, &mut buf[start..end])?;
    Ok((count, end))
}

/// Reads at least the first `least` bytes of a run behind those that the buffer holds, and puts
/// those into the target for which it has no room. It answers how many were read, and how many the
/// buffer holds then. No part begins behind these, but the last one may go on there.
fn copy_data<D: FormatDriverInstance, T: Target>(
    alloc: Global,
    reader: &mut Reader<'_, D>,
    target: &mut T,
    run: Run,
    least: u64,
    buf: &mut [u8],
    held: usize,
) -> Result<(u64, usize), CopyError>
    requires keeping { IsKeeping D.view reader.old }
    requires run { IsRunAt (leads_to D.view (image_of reader.old)) run.at run }
    requires inside { run.at + run.count < 2 ^ 64 }
    requires within { least ≤ run.count }
    requires held { held ≤ length buf.old }
    ensures image { image_of reader.new ≡ image_of reader.old }
    ensures keeping { IsKeeping D.view reader.new }
    ensures least { IfOk result (λ r. least ≤ r.0) }
    ensures within { IfOk result (λ r. r.0 ≤ run.count) }
    ensures held { IfOk result (λ r. r.1 ≤ length buf.new) }
    ensures same { T.made_for target.new ≡ T.made_for target.old }
    ensures put { IsTrue (tells_bytes D.view (image_of reader.old)) → (s : Option (List ℕ))
        → IsGathered (disk_value D.view (image_of reader.old)) run.at s (T.contents target.old)
        buf.old held → IfOk result (λ r.
        IsGathered (disk_value D.view (image_of reader.old)) (run.at + r.0) s
        (T.contents target.new) buf.new r.1) }
    ensures refused { IsTrue (tells_bytes D.view (image_of reader.old)) → (s : Option (List ℕ))
        → IsGathered (disk_value D.view (image_of reader.old)) run.at s (T.contents target.old)
        buf.old held → OnErr result
        (IsPartlyPut (disk_value D.view (image_of reader.old)) 0 (run.at + run.count) s
        (T.contents target.new)) }
{
    let mut done: u64 = 0;
    let mut held = held;
    while done < least {
        let (more, now) = copy_first(alloc, reader, target, run, done, buf, held)?;
        done += more;
        held = now;
    }
    Ok((done, held))
}

/// Puts what the buffer holds into the target, and that many zeroes behind it.
fn put_zeroes<T: Target>(
    target: &mut T,
    buf: &[u8],
    held: usize,
    count: u64,
) -> Result<(), CopyError>
    requires within { held ≤ length buf.now }
    ensures same { T.made_for target.new ≡ T.made_for target.old }
    ensures put { (at : ℕ → Value) (p : ℕ) (s : Option (List ℕ))
        → IsGathered at p s (T.contents target.old) buf.now held
        → ((i : ℕ) → i < count → at (p + i) ≡ Byte 0)
        → OnOk result (IsPut at 0 (p + count) s (T.contents target.new)) }
    ensures refused { (at : ℕ → Value) (p : ℕ) (s : Option (List ℕ))
        → IsGathered at p s (T.contents target.old) buf.now held
        → ((i : ℕ) → i < count → at (p + i) ≡ Byte 0)
        → OnErr result (IsPartlyPut at 0 (p + count) s (T.contents target.new)) }
{
    put_held(target, buf, held)?;
    target.append_zeroes(count)?;
    Ok(())
}

/// Copies a run of the disk: its data by way of the buffer, behind what that holds, and then what is
/// known to be zero. It answers how many bytes the buffer holds then, which aren't put into the
/// target yet.
fn copy_run<D: FormatDriverInstance, T: Target>(
    alloc: Global,
    reader: &mut Reader<'_, D>,
    target: &mut T,
    run: Run,
    buf: &mut [u8],
    held: usize,
) -> Result<usize, CopyError>
    requires keeping { IsKeeping D.view reader.old }
    requires run { IsRunAt (leads_to D.view (image_of reader.old)) run.at run }
    requires inside { run.at + run.count < 2 ^ 64 }
    requires held { held ≤ length buf.old }
    ensures image { image_of reader.new ≡ image_of reader.old }
    ensures keeping { IsKeeping D.view reader.new }
    ensures held { IfOk result (λ n. n ≤ length buf.new) }
    ensures same { T.made_for target.new ≡ T.made_for target.old }
    ensures put { IsTrue (tells_bytes D.view (image_of reader.old)) → (s : Option (List ℕ))
        → IsGathered (disk_value D.view (image_of reader.old)) run.at s (T.contents target.old)
        buf.old held → IfOk result
        (IsGathered (disk_value D.view (image_of reader.old)) (run.at + run.count) s
        (T.contents target.new) buf.new) }
    ensures refused { IsTrue (tells_bytes D.view (image_of reader.old)) → (s : Option (List ℕ))
        → IsGathered (disk_value D.view (image_of reader.old)) run.at s (T.contents target.old)
        buf.old held → OnErr result
        (IsPartlyPut (disk_value D.view (image_of reader.old)) 0 (run.at + run.count) s
        (T.contents target.new)) }
{
    let data = data_count(reader.image(), run);
    let room = make_room(target, buf, held, data)?;
    let (done, held) = copy_data(alloc, reader, target, run, data, buf, room)?;
    if done == run.count {
        return Ok(held);
    }
    put_zeroes(target, buf, held, run.count - done)?;
    Ok(0)
}

/// Copies an image's disk to a target, from its start to its end: all of its bytes, behind what was
/// put into the target before.
///
/// The disk is copied run by run, as [`Runs`] has them. Zeroes that stand in no storage are put in
/// as zeroes, by one call for each run. Stored and special bytes are read into the buffer, and put
/// in a part at a time: when it is full, before zeroes, and at the disk's end. So short runs that
/// follow one another are put in by one call. A run for which the buffer has no room behind others
/// begins at its start. A part of a stored run that would begin behind the end of its storage isn't
/// read: all that is left of the run is zero then, and is put in as zeroes by one call. A storage is
/// asked for its length when a run of it begins; where it refuses to tell it, all of the run is
/// read. Bytes that were read aren't tested for being zero.
///
/// Stored bytes are read from the storage that the run names, and not mapped again. Special bytes
/// are read through a [`Reader`], so each block of them is made up once, however large the buffer
/// is; where a part cuts a block, memory is taken for that block.
///
/// # Errors
///
/// [`CopyError::Image`] is the refusal of a mapping, as by
/// [`get_mapping`](FormatAccess::get_mapping), or of a read, as by [`read`](FormatAccess::read); or
/// it is [`Error::Unsupported`], where the driver maps nothing inside the disk.
/// [`CopyError::Target`] is what the target refused; or it is [`ErrorKind::InvalidInput`], where
/// there is something to read and the buffer is empty. A refusal ends the copy. What was put in
/// until then stays in the target: the first bytes of the disk, or none. What the buffer holds isn't
/// put in any more, and the buffer is unspecified.
pub fn copy_disk<D: FormatDriverInstance, T: Target>(
    alloc: Global,
    image: &FormatAccess<D>,
    target: &mut T,
    buf: &mut [u8],
) -> Result<(), CopyError>
    ensures same { T.made_for target.new ≡ T.made_for target.old }
    ensures put { IsTrue (tells_bytes D.view image.now) → OnOk result
        (IsDiskPut (disk D.view image.now) (T.contents target.old) (T.contents target.new)) }
    ensures refused { IsTrue (tells_bytes D.view image.now) → OnErr result
        (IsDiskPartlyPut (disk D.view image.now) (T.contents target.old) (T.contents target.new)) }
{
    let mut runs = Runs::new(image)?;
    let mut reader = Reader::new(alloc, image);
    let mut held = 0;
    while let Some(run) = runs.next_run()? {
        held = copy_run(alloc, &mut reader, target, run, buf, held)?;
    }
    put_held(target, buf, held)
}

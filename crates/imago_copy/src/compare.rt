// SPDX-License-Identifier: MIT
//! Whether two disks show the same.
ghost use Rattle.std.specs.Prelude.{◌≡◌, ◌&&◌, ◌+◌, ◌<◌, ◌≤◌, ◌^◌, ◌-◌, true, IsTrue, OnOk, IfOk, IfSome};
ghost use Rattle.std.specs.Prelude.{length};
ghost use Rattle.imago_access.specs.Chain.{tells_bytes};
ghost use Rattle.imago_access.specs.Disk.{disk, IsPartOf};
ghost use Rattle.imago_copy.specs.Differences.{IsFirstDifference, IsFirstDifferentValue};
ghost use Rattle.imago_copy.specs.Compared.{IsZeroIn, IsDifferenceIn};
ghost use Rattle.imago_copy.specs.RestOf.{disk_of, end_of, HasPart};

use crate::ends::data_count;
use crate::runs::{Run, Runs};
use crate::stored::read_run;
use imago_access::access::FormatAccess;
use imago_access::reader::Reader;
use imago_drivers::drivers::FormatDriverInstance;
use imago_storage::error::Error;
use std::alloc::Global;

/// Bytes of a disk from an offset on.
#[derive(Clone, Copy)]
struct Part {
    /// Where they end.
    end: u64,
    /// Whether they are known to be zero, without a look at them.
    is_zero: bool,
}

/// Whether both are known to be zero.
fn are_zero(one: Part, other: Part) -> bool
    ensures { result ≡ (one.is_zero && other.is_zero) }
{
    one.is_zero && other.is_zero
}

/// What is left of a disk. Behind its end all is zero.
#[derive(Drop)]
struct Rest<'a, D> {
    runs: Runs<'a, D>,
    reader: Reader<'a, D>,
    /// The run at hand, if there is one.
    run: Option<Run>,
    /// Where what isn't known to be zero of the run at hand ends.
    data_end: u64,
    /// Where the run at hand ends.
    end: u64,
}

impl<'a, D: FormatDriverInstance> Rest<'a, D> {
    /// All of a disk, of which no run is at hand.
    fn new(alloc: Global, image: &'a FormatAccess<D>) -> Result<Self, Error>
        ensures disk { IfOk result (λ r. disk_of r ≡ image.now) }
        ensures part { IfOk result (HasPart D.view 0) }
    {
        Ok(Rest {
            runs: Runs::new(image)?,
            reader: Reader::new(alloc, image),
            run: None,
            data_end: 0,
            end: 0,
        })
    }

    /// Takes the next run at hand where the offset lies behind the last one. Behind the disk the
    /// run at hand is zeroes without an end.
    fn reach(&mut self, at: u64) -> Result<(), Error>
        requires part { HasPart D.view «at» self.old }
        requires inside { at < 2 ^ 64 - 1 }
        ensures disk { disk_of self.new ≡ disk_of self.old }
        ensures part { OnOk result (HasPart D.view «at» self.new) }
        ensures some { OnOk result (at < end_of self.new) }
    {
        if at < self.end {
            return Ok(());
        }
        let next = self.runs.next_run()?;
        self.run = next;
        match next {
            Some(run) => {
                self.data_end = run.at + data_count(self.runs.image(), run);
                self.end = run.at + run.count;
            }
            None => {
                self.data_end = at;
                self.end = u64::MAX;
            }
        }
        Ok(())
    }

    /// The next bytes from the offset on, which nothing before is left of.
    fn part(&mut self, at: u64) -> Result<Part, Error>
        requires part { HasPart D.view «at» self.old }
        requires inside { at < 2 ^ 64 - 1 }
        ensures disk { disk_of self.new ≡ disk_of self.old }
        ensures rest { OnOk result (HasPart D.view «at» self.new) }
        ensures some { IfOk result (λ part. at < part.end) }
        ensures within { IfOk result (λ part. part.end ≤ end_of self.new) }
        ensures zero { IfOk result (λ part. part.is_zero ≡ true
            → IsZeroIn (disk D.view (disk_of self.new)) «at» part.end) }
    {
        self.reach(at)?;
        if at < self.data_end {
            return Ok(Part {
                end: self.data_end,
                is_zero: false,
            });
        }
        Ok(Part {
            end: self.end,
            is_zero: true,
        })
    }

    /// Fills the buffer with bytes of the run at hand, or with zeroes behind the disk.
    fn read(&mut self, alloc: Global, buf: &mut [u8], at: u64) -> Result<(), Error>
        requires part { HasPart D.view «at» self.old }
        requires inside { at + length buf.old ≤ end_of self.old }
        ensures disk { disk_of self.new ≡ disk_of self.old }
        ensures end { end_of self.new ≡ end_of self.old }
        ensures part { HasPart D.view «at» self.new }
        ensures bytes { IsTrue (tells_bytes D.view (disk_of self.old)) → OnOk result
            (IsPartOf (disk D.view (disk_of self.old)) «at» (length buf.old) buf.new) }
    {
        match self.run {
            Some(run) => read_run(alloc, &mut self.reader, run, at - run.at, buf),
            None => self.reader.read(alloc, buf, at),
        }
    }
}

/// The index of the first byte in which two buffers of one length differ.
fn first_unlike(left: &[u8], right: &[u8]) -> Option<usize>
    requires { length left.now ≡ length right.now }
    ensures inside { IfSome result (λ i. i < length left.now) }
    ensures first { IsFirstDifference left.now right.now result }
{
    if left == right {
        return None;
    }
    for i in 0..left.len() {
        if left[i] != right[i] {
            return Some(i);
        }
    }
    None
}

/// The first offset at which two disks differ, of as many from that one on as each buffer has,
/// which are all of the runs at hand.
fn unequal<D: FormatDriverInstance, E: FormatDriverInstance>(
    alloc: Global,
    left: &mut Rest<'_, D>,
    right: &mut Rest<'_, E>,
    at: u64,
    left_buf: &mut [u8],
    right_buf: &mut [u8],
) -> Result<Option<u64>, Error>
    requires left { HasPart D.view at left.old }
    requires right { HasPart E.view at right.old }
    requires lengths { length left_buf.old ≡ length right_buf.old }
    requires left_inside { at + length left_buf.old ≤ end_of left.old }
    requires right_inside { at + length left_buf.old ≤ end_of right.old }
    ensures left { disk_of left.new ≡ disk_of left.old }
    ensures right { disk_of right.new ≡ disk_of right.old }
    ensures left_end { end_of left.new ≡ end_of left.old }
    ensures right_end { end_of right.new ≡ end_of right.old }
    ensures left_part { HasPart D.view at left.new }
    ensures right_part { HasPart E.view at right.new }
    ensures found { IsTrue (tells_bytes D.view (disk_of left.old))
        → IsTrue (tells_bytes E.view (disk_of right.old)) → IfOk result (λ found.
        IsDifferenceIn (disk D.view (disk_of left.old)) (disk E.view (disk_of right.old))
        at (length left_buf.old) found) }
{
    left.read(alloc, left_buf, at)?;
    right.read(alloc, right_buf, at)?;
    match first_unlike(left_buf, right_buf) {
        Some(index) => Ok(Some(at + index as u64)),
        None => Ok(None),
    }
}

/// The first offset at which the disks of two images differ, if they do. Behind the end of the
/// shorter one it is zero: so a disk that ends in zeroes is the same as the one without these.
///
/// What is known to be zero on both disks is passed over without a look at it: zeroes that stand in
/// no storage, and what lies behind the end of a storage. A storage is asked for its length when a
/// run of it begins; where it refuses to tell it, all of the run is read. All else is read into the
/// buffers and compared, a part at a time: at most as many bytes as either buffer has room for.
/// Stored bytes are read from the storage that their run names, and not mapped again. Special bytes
/// are read through a [`Reader`], so each block of them is made up once; where a part cuts a block,
/// memory is taken for that block.
///
/// # Errors
///
/// A refusal of either image ends the comparison, and tells nothing of the disks. It is that of a
/// mapping, as by [`get_mapping`](FormatAccess::get_mapping), or of a read, as by
/// [`read`](FormatAccess::read); or it is [`Error::Unsupported`], where a driver maps nothing
/// inside the disk. Nothing but the buffers is changed; they are unspecified afterwards.
pub fn first_difference<D: FormatDriverInstance, E: FormatDriverInstance>(
    alloc: Global,
    left: &FormatAccess<D>,
    right: &FormatAccess<E>,
    left_buf: &mut [u8],
    right_buf: &mut [u8],
) -> Result<Option<u64>, Error>
    requires left { 0 < length left_buf.old }
    requires right { 0 < length right_buf.old }
    ensures { IsTrue (tells_bytes D.view left.now) → IsTrue (tells_bytes E.view right.now)
        → IfOk result (λ found.
        IsFirstDifferentValue (disk D.view left.now) (disk E.view right.now) found) }
{
    let size = left.size().max(right.size());
    let most = left_buf.len().min(right_buf.len()) as u64;
    let mut one = Rest::new(alloc, left)?;
    let mut other = Rest::new(alloc, right)?;
    let mut at: u64 = 0;
    while at < size {
        let here = one.part(at)?;
        let there = other.part(at)?;
        let mut end = here.end.min(there.end).min(size);
        if !are_zero(here, there) {
            end = end.min(at.saturating_add(most));
            let count = (end - at) as usize;
            let found = unequal(
                alloc,
                &mut one,
                &mut other,
                at,
                &mut left_buf[..count],
                &mut right_buf[..count],
            )?;
            if found.is_some() {
                return Ok(found);
            }
        }
        at = end;
    }
    Ok(None)
}

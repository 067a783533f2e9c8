// SPDX-License-Identifier: MIT
//! Reading an image.
ghost use Rattle.std.specs.Prelude.{◌≡◌, ◌+◌, ◌<◌, ◌≤◌, ℕ, length, take, slice_index, EachIndex};
ghost use Rattle.std.specs.Prelude.{IfOk, IfErr, IsOk, IsTrue, OnOk};
ghost use Rattle.imago_drivers.specs.Place.{HasValues, own_values};
ghost use Rattle.imago_drivers.specs.Reasons.{allowed};
ghost use Rattle.imago_access.specs.Chain.{disk_value, tells_bytes, chain_no_memory, inside_part};
ghost use Rattle.imago_access.specs.Chain.{as_layer_below, read_reasons};
ghost use Rattle.imago_access.specs.Disk.{disk, IsPartOf};
ghost use Rattle.imago_access.specs.ChainLaws.{image_is_layer};
ghost use Rattle.imago_access.specs.Answered.{IsNamedRead, IsFirstRead, IsReadBy};
ghost use Rattle.imago_access.specs.Named.{IsKnown, IsNamedAt, named_read_reasons};
ghost use Rattle.imago_access.specs.Named.{chunk_read_reasons};

use crate::access::FormatAccess;
use imago_drivers::drivers::FormatDriverInstance;
use imago_drivers::layer::LowerLayer;
use imago_drivers::mapping::ShallowMapping;
use imago_storage::error::Error;
use std::alloc::Global;

/// Fills the buffer with the bytes that a driver's mapping names: zeroes for what stands in no
/// storage.
pub(crate) fn read_named<D: FormatDriverInstance>(
    inner: &D,
    alloc: Global,
    mapping: ShallowMapping,
    buf: &mut [u8],
) -> Result<(), Error>
    requires { IsKnown «mapping» (D.view inner.now).stores.count }
    ensures bytes { IsTrue (D.view inner.now).abilities.tells_bytes → OnOk result
        ((at : ℕ)
        → IsNamedAt (D.view inner.now).place «mapping» at (length buf.old)
        → HasValues (own_values (D.view inner.now).place) at buf.new) }
    ensures refusals { IfErr result
        (allowed (named_read_reasons (D.view inner.now) «mapping» (length buf.old))) }
    ensures answered { IsNamedRead D.calls inner.now «mapping» (length buf.old) result }
{
    match mapping {
        ShallowMapping::Raw {
            storage,
            offset,
            ..
        } => inner.read_mapped(alloc, storage, buf, offset),
        ShallowMapping::Special { offset } => inner.readv_special(alloc, buf, offset),
        _ => {
            clear(buf);
            Ok(())
        }
    }
}

/// Fills the buffer with zeroes.
pub(crate) fn clear(buf: &mut [u8])
    ensures { EachIndex buf.new (λ k. slice_index buf.new k ≡ 0) }
{
    buf.fill(0);
}

/// How many bytes of a range lie inside a disk.
pub(crate) fn part_inside(size: u64, offset: u64, count: usize) -> usize
    ensures { result ≡ inside_part size offset count }
{
    if offset < size {
        (size - offset).min(count as u64) as usize
    } else {
        0
    }
}

impl<D: FormatDriverInstance> FormatAccess<D> {
    /// Reads the first bytes of a range, as many as one mapping is for, and answers how many these
    /// are.
    fn read_chunk(&self, alloc: Global, buf: &mut [u8], offset: u64) -> Result<usize, Error>
        requires { 0 < length buf.old }
        ensures some { IfOk result (λ n. (0 < n) × (n ≤ length buf.new)) }
        ensures bytes { IsTrue (tells_bytes D.view self.now) → IfOk result
            (λ n. HasValues (disk_value D.view self.now) offset (take n buf.new)) }
        ensures whole { chain_no_memory D.view self.now offset (length buf.old)
            → IfOk result (λ n. n ≡ length buf.old) }
        ensures refusals { IfErr result
            (allowed (chunk_read_reasons D.view self.now offset (length buf.old))) }
        ensures answered { IsFirstRead D.calls self.now offset (length buf.old) result }
    {
        let (layer, way, mapping) = self.descend(offset, buf.len() as u64)?;
        let count = way.length as usize;
        read_named(&layer.inner, alloc, mapping, &mut buf[..count])?;
        Ok(count)
    }

    /// Fills the buffer with the image's bytes from the offset on, with 0 past its end.
    fn read_range(&self, alloc: Global, buf: &mut [u8], offset: u64) -> Result<(), Error>
        ensures bytes { IsTrue (tells_bytes D.view self.now)
            → OnOk result (HasValues (disk_value D.view self.now) offset buf.new) }
        ensures empty { length buf.old ≡ 0 → IsOk result }
        ensures refusals { IfErr result
            (allowed (read_reasons D.view self.now offset (length buf.old))) }
        ensures answered { IsReadBy D.view D.calls self.now offset (length buf.old) result }
    {
        let size = self.inner.size();
        let inside = part_inside(size, offset, buf.len());
        let mut done: usize = 0;
        while done < inside {
            done += self.read_chunk(alloc, &mut buf[done..inside], offset + done as u64)?;
        }
        clear(&mut buf[inside..]);
        Ok(())
    }

    /// Fills the buffer with the disk's bytes from the offset on, with 0 past its end. Refused, the
    /// buffer is unspecified. The disk stays as it is.
    ///
    /// It is refused where a byte that it reads can't be read: [`Error::InvalidData`],
    /// [`Error::NoAccess`], [`Error::WrapAround`] and [`Error::Unsupported`] as the layers' drivers
    /// say, [`Error::Device`] only where a device of the chain isn't reliable, [`Error::Memory`]
    /// only where a driver takes memory. A read of no bytes is never refused.
    ///
    /// The range is read part after part, up to the end of the disk. A refusal is, by its own name,
    /// what the driver of a layer answered that the next part reaches, to the mapping of that part
    /// or to the read of what it maps.
    pub fn read(&self, alloc: Global, buf: &mut [u8], offset: u64) -> Result<(), Error>
        ensures disk { IsTrue (tells_bytes D.view self.now)
            → OnOk result (IsPartOf (disk D.view self.now) offset (length buf.old) buf.new) }
        ensures bytes { IsTrue (tells_bytes D.view self.now)
            → OnOk result (HasValues (disk_value D.view self.now) offset buf.new) }
        ensures empty { length buf.old ≡ 0 → IsOk result }
        ensures refusals { IfErr result
            (allowed (read_reasons D.view self.now offset (length buf.old))) }
        ensures answered { IsReadBy D.view D.calls self.now offset (length buf.old) result }
    {
        self.read_range(alloc, buf, offset)
    }

    /// The same as [`read`](Self::read).
    pub fn readv(&self, alloc: Global, buf: &mut [u8], offset: u64) -> Result<(), Error>
        ensures disk { IsTrue (tells_bytes D.view self.now)
            → OnOk result (IsPartOf (disk D.view self.now) offset (length buf.old) buf.new) }
        ensures bytes { IsTrue (tells_bytes D.view self.now)
            → OnOk result (HasValues (disk_value D.view self.now) offset buf.new) }
        ensures empty { length buf.old ≡ 0 → IsOk result }
        ensures refusals { IfErr result
            (allowed (read_reasons D.view self.now offset (length buf.old))) }
        ensures answered { IsReadBy D.view D.calls self.now offset (length buf.old) result }
    {
        self.read(alloc, buf, offset)
    }
}

/// An image can be what is below another driver.
impl<D: FormatDriverInstance> LowerLayer for FormatAccess<D> {
    ghost as_layer_below = { λ x. as_layer_below D.view x };

    ghost reads = { λ o n x result. IsReadBy D.view D.calls x o n result };

    ghost lawful = { λ x. image_is_layer D.view D.causes_lawful D.lawful x };

    fn size(&self) -> u64 {
        self.inner.size()
    }

    fn read(&self, alloc: Global, buf: &mut [u8], offset: u64) -> Result<(), Error> {
        self.read_range(alloc, buf, offset)
    }
}

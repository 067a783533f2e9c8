// SPDX-License-Identifier: MIT
//! Reading an image by one who goes on: special bytes are made up in blocks, and a block of which
//! only a part was read is kept.
ghost use Rattle.std.specs.Prelude.{◌≡◌, ◌+◌, ◌-◌, ◌^◌, ◌<◌, ◌≤◌, ℕ, length, take, Err};
ghost use Rattle.std.specs.Prelude.{IfOk, IfErr, IfSome, IsOk, IsTrue, OnOk, OnErr};
ghost use Rattle.imago_drivers.specs.Done.{special_read_reasons};
ghost use Rattle.imago_drivers.specs.Place.{HasValues, own_values};
ghost use Rattle.imago_drivers.specs.Reasons.{allowed};
ghost use Rattle.imago_access.specs.Chain.{driver, disk_value, tells_bytes, chain_no_memory};
ghost use Rattle.imago_access.specs.Chain.{read_reasons};
ghost use Rattle.imago_access.specs.Disk.{disk, IsPartOf};
ghost use Rattle.imago_access.specs.Kept.{IsKeptRead, IsFirstKept, IsReadThrough};
ghost use Rattle.imago_access.specs.Named.{IsKnown, IsNamedAt, named_read_reasons};
ghost use Rattle.imago_access.specs.Named.{chunk_read_reasons};
ghost use Rattle.imago_access.specs.Specials.{special_at, MakesUp, IsMade};

use crate::access::FormatAccess;
use crate::read::{clear, part_inside, read_named};
use imago_drivers::drivers::FormatDriverInstance;
use imago_drivers::mapping::ShallowMapping;
use imago_storage::error::Error;
use std::alloc::Global;

/// Where a block of special bytes stands.
#[derive(Clone, Copy)]
struct Block {
    /// The depth of the layer whose driver makes it up.
    depth: usize,
    /// Where it begins for that driver.
    start: u64,
}

/// The block that an offset of a layer's special bytes lies in.
fn block_around(depth: usize, offset: u64, size: u64) -> Block
    requires { 0 < size }
    ensures { result.depth ≡ «depth» }
{
    Block {
        depth,
        start: offset - offset % size,
    }
}

/// How many bytes of a range are read at once: all of its whole blocks, if it begins with one, and
/// else those up to the end of the block that it begins in.
fn piece_of(offset: u64, count: usize, block: u64) -> usize
    requires { 0 < block }
    ensures { result ≤ count }
{
    let left = (block - offset % block).min(count as u64) as usize;
    if left as u64 == block {
        count - count % left
    } else {
        left
    }
}

/// Makes the room that many bytes long, and answers whether it could. What it was longer before
/// stays in hand, and costs no memory later.
fn fit(room: &mut Vec<u8>, count: u64) -> bool
    ensures { IsTrue result → length room.new.items ≡ count }
{
    room.len() as u64 == count || room.resize(count as usize, 0).is_ok()
}

/// Has the layer's driver make up special bytes, and answers how many: all, or none where it
/// refuses.
fn made<D: FormatDriverInstance>(
    alloc: Global,
    layer: &FormatAccess<D>,
    offset: u64,
    buf: &mut [u8],
) -> usize
    ensures within { result ≤ length buf.new }
    ensures bytes { IsTrue (D.view (driver layer.now)).abilities.tells_bytes
        → HasValues (D.view (driver layer.now)).special offset (take result buf.new) }
{
    match layer.inner.readv_special(alloc, buf, offset) {
        Ok(()) => buf.len(),
        Err(_) => 0,
    }
}

/// Has the layer's driver make up special bytes, as many as the room is long, and answers whether
/// it did.
fn fill<D: FormatDriverInstance>(
    alloc: Global,
    layer: &FormatAccess<D>,
    offset: u64,
    room: &mut Vec<u8>,
) -> bool
    ensures { IsTrue result → IsTrue (D.view (driver layer.now)).abilities.tells_bytes
        → HasValues (D.view (driver layer.now)).special offset room.new.items }
{
    layer.inner.readv_special(alloc, room, offset).is_ok()
}

/// A reader of an image. It reads the same as the image itself, and is for one who reads on.
///
/// Where a driver makes up special bytes in blocks, as those of compressed clusters, a read of a
/// part of a block costs as much as one of all of it. The reader keeps the block of which a part
/// was read last, so that reads that follow one another have each block made once. A block is of
/// the layer that makes it up: it serves all that leads there, also where layers above take it
/// apart.
///
/// It takes memory when a part of a block is read first, and for each larger block: as much as the
/// block. Where it gets none, and for all that isn't special, it reads as the image does.
#[derive(Drop)]
pub struct Reader<'a, D> {
    image: &'a FormatAccess<D>,
    /// The block that is kept, if one is.
    kept: Option<Block>,
    /// Its bytes.
    room: Vec<u8>,
}

impl<'a, D: FormatDriverInstance> Reader<'a, D> {
    ghost use Rattle.imago_access.specs.ReaderOf.{image_of, KeepsNothing, IsKeeping};

    /// A reader of that image, which keeps nothing. It takes no memory.
    pub fn new(alloc: Global, image: &'a FormatAccess<D>) -> Self
        ensures image { image_of result ≡ image.now }
        ensures empty { KeepsNothing result }
        ensures keeping { IsKeeping D.view result }
    {
        Reader {
            image,
            kept: None,
            room: Vec::new(alloc),
        }
    }

    /// The image that it reads.
    pub fn image(&self) -> &'a FormatAccess<D>
        ensures { result.now ≡ image_of self.now }
    {
        self.image
    }

    /// What is kept of a layer's special bytes from an offset on, if anything is.
    fn kept_from(&self, depth: usize, offset: u64) -> Option<&[u8]>
        requires { IsKeeping D.view self.now }
        ensures { IfSome result (λ bytes. depth < 2 ^ 64 - 1
            × (IsTrue (tells_bytes D.view (image_of self.now))
            → HasValues (special_at D.view (image_of self.now) depth) offset bytes.now)) }
    {
        let Some(block) = self.kept else {
            return None;
        };
        if block.depth != depth || offset < block.start {
            return None;
        }
        let skipped = offset - block.start;
        if skipped >= self.room.len() as u64 {
            return None;
        }
        Some(&self.room[skipped as usize..])
    }

    /// Copies what is kept of a layer's special bytes from an offset on, and answers how many bytes
    /// that are.
    fn copy_kept(&self, layer: &FormatAccess<D>, depth: usize, offset: u64, buf: &mut [u8]) -> usize
        requires keeping { IsKeeping D.view self.now }
        requires layer { MakesUp D.view (image_of self.now) depth layer.now }
        ensures within { result ≤ length buf.new }
        ensures bytes { IsMade D.view (image_of self.now) layer.now offset result buf.new }
    {
        let Some(kept) = self.kept_from(depth, offset) else {
            return 0;
        };
        let count = kept.len().min(buf.len());
        buf[..count].copy_from_slice(&kept[..count]);
        count
    }

    /// Has a block of that size kept, in place of the one before, if there is room for it and the
    /// layer's driver makes it up; else nothing is kept.
    fn keep(&mut self, alloc: Global, layer: &FormatAccess<D>, block: Block, size: u64)
        requires { MakesUp D.view (image_of self.old) block.depth layer.now }
        ensures image { image_of self.new ≡ image_of self.old }
        ensures keeping { IsKeeping D.view self.new }
    {
        self.kept = None;
        if block.depth == usize::MAX || !fit(&mut self.room, size) {
            return;
        }
        if fill(alloc, layer, block.start, &mut self.room) {
            self.kept = Some(block);
        }
    }

    /// Reads a part of a block, by way of what is kept of it, and answers how many bytes were read:
    /// none where it is refused.
    fn read_part(
        &mut self,
        alloc: Global,
        layer: &FormatAccess<D>,
        block: Block,
        size: u64,
        offset: u64,
        buf: &mut [u8],
    ) -> usize
        requires { MakesUp D.view (image_of self.old) block.depth layer.now }
        ensures image { image_of self.new ≡ image_of self.old }
        ensures keeping { IsKeeping D.view self.new }
        ensures within { result ≤ length buf.new }
        ensures bytes { IsMade D.view (image_of self.old) layer.now offset result buf.new }
    {
        self.keep(alloc, layer, block, size);
        let copied = self.copy_kept(layer, block.depth, offset, buf);
        if copied > 0 {
            return copied;
        }
        made(alloc, layer, offset, buf)
    }

    /// Reads the first bytes of a range of a layer's special bytes, and answers how many: none where
    /// it is refused.
    fn read_piece(
        &mut self,
        alloc: Global,
        layer: &FormatAccess<D>,
        depth: usize,
        offset: u64,
        buf: &mut [u8],
    ) -> usize
        requires keeping { IsKeeping D.view self.old }
        requires layer { MakesUp D.view (image_of self.old) depth layer.now }
        ensures image { image_of self.new ≡ image_of self.old }
        ensures keeping { IsKeeping D.view self.new }
        ensures within { result ≤ length buf.new }
        ensures bytes { IsMade D.view (image_of self.old) layer.now offset result buf.new }
    {
        let copied = self.copy_kept(layer, depth, offset, buf);
        if copied > 0 {
            return copied;
        }
        let size = layer.inner.special_block();
        let count = piece_of(offset, buf.len(), size);
        if (count as u64) < size {
            let block = block_around(depth, offset, size);
            return self.read_part(alloc, layer, block, size, offset, &mut buf[..count]);
        }
        made(alloc, layer, offset, &mut buf[..count])
    }

    /// Reads a range of a layer's special bytes by its blocks, and answers whether it could: not
    /// where these are single bytes.
    fn read_blocks(
        &mut self,
        alloc: Global,
        layer: &FormatAccess<D>,
        depth: usize,
        offset: u64,
        buf: &mut [u8],
    ) -> bool
        requires keeping { IsKeeping D.view self.old }
        requires layer { MakesUp D.view (image_of self.old) depth layer.now }
        ensures image { image_of self.new ≡ image_of self.old }
        ensures keeping { IsKeeping D.view self.new }
        ensures bytes { IsTrue result
            → IsMade D.view (image_of self.old) layer.now offset (length buf.new) buf.new }
    {
        if layer.inner.special_block() == 1 {
            return false;
        }
        let mut done: usize = 0;
        while done < buf.len() {
            let Some(at) = offset.checked_add(done as u64) else {
                return false;
            };
            let count = self.read_piece(alloc, layer, depth, at, &mut buf[done..]);
            if count == 0 {
                return false;
            }
            done += count;
        }
        true
    }

    /// Fills the buffer with special bytes of a layer. Where they can't be read by their blocks,
    /// they are read at once, and that answer is passed on.
    fn read_special(
        &mut self,
        alloc: Global,
        layer: &FormatAccess<D>,
        depth: usize,
        offset: u64,
        buf: &mut [u8],
    ) -> Result<(), Error>
        requires keeping { IsKeeping D.view self.old }
        requires layer { MakesUp D.view (image_of self.old) depth layer.now }
        ensures image { image_of self.new ≡ image_of self.old }
        ensures keeping { IsKeeping D.view self.new }
        ensures bytes { IsTrue (tells_bytes D.view (image_of self.old)) → OnOk result
            (HasValues (D.view (driver layer.now)).special offset buf.new) }
        ensures refusals { IfErr result
            (allowed (special_read_reasons (D.view (driver layer.now)) offset (length buf.old))) }
        ensures answered { IfErr result (λ e.
            D.calls.read_special offset (length buf.old) (driver layer.now) (Err e)) }
    {
        if self.read_blocks(alloc, layer, depth, offset, buf) {
            return Ok(());
        }
        layer.inner.readv_special(alloc, buf, offset)
    }

    /// Fills the buffer with the bytes that a mapping of a layer names, as the image does, but for
    /// special bytes, which may be kept.
    fn read_mapped(
        &mut self,
        alloc: Global,
        layer: &FormatAccess<D>,
        depth: usize,
        mapping: ShallowMapping,
        buf: &mut [u8],
    ) -> Result<(), Error>
        requires known { IsKnown «mapping» (D.view (driver layer.now)).stores.count }
        requires keeping { IsKeeping D.view self.old }
        requires layer { MakesUp D.view (image_of self.old) depth layer.now }
        ensures image { image_of self.new ≡ image_of self.old }
        ensures keeping { IsKeeping D.view self.new }
        ensures bytes { IsTrue (tells_bytes D.view (image_of self.old)) → OnOk result
            ((at : ℕ)
            → IsNamedAt (D.view (driver layer.now)).place «mapping» at (length buf.old)
            → HasValues (own_values (D.view (driver layer.now)).place) at buf.new) }
        ensures refusals { IfErr result
            (allowed
            (named_read_reasons (D.view (driver layer.now)) «mapping» (length buf.old))) }
        ensures answered { IsKeptRead D.calls (driver layer.now) «mapping» (length buf.old) result }
    {
        match mapping {
            ShallowMapping::Special { offset } => {
                self.read_special(alloc, layer, depth, offset, buf)
            }
            _ => read_named(&layer.inner, alloc, mapping, buf),
        }
    }

    /// Reads the first bytes of a range, as many as one mapping is for, and answers how many these
    /// are.
    fn read_chunk(&mut self, alloc: Global, buf: &mut [u8], offset: u64) -> Result<usize, Error>
        requires some { 0 < length buf.old }
        requires keeping { IsKeeping D.view self.old }
        ensures image { image_of self.new ≡ image_of self.old }
        ensures keeping { IsKeeping D.view self.new }
        ensures some { IfOk result (λ n. (0 < n) × (n ≤ length buf.new)) }
        ensures bytes { IsTrue (tells_bytes D.view (image_of self.old)) → IfOk result
            (λ n. HasValues (disk_value D.view (image_of self.old)) offset (take n buf.new)) }
        ensures whole { chain_no_memory D.view (image_of self.old) offset (length buf.old)
            → IfOk result (λ n. n ≡ length buf.old) }
        ensures refusals { IfErr result
            (allowed (chunk_read_reasons D.view (image_of self.old) offset (length buf.old))) }
        ensures answered { IsFirstKept D.calls (image_of self.old) offset (length buf.old) result }
    {
        let image = self.image;
        let (layer, way, mapping) = image.descend(offset, buf.len() as u64)?;
        let count = way.length as usize;
        self.read_mapped(alloc, layer, way.depth, mapping, &mut buf[..count])?;
        Ok(count)
    }

    /// Fills the buffer with the image's bytes from the offset on, with 0 past its end.
    fn read_range(&mut self, alloc: Global, buf: &mut [u8], offset: u64) -> Result<(), Error>
        requires { IsKeeping D.view self.old }
        ensures image { image_of self.new ≡ image_of self.old }
        ensures keeping { IsKeeping D.view self.new }
        ensures bytes { IsTrue (tells_bytes D.view (image_of self.old))
            → OnOk result (HasValues (disk_value D.view (image_of self.old)) offset buf.new) }
        ensures empty { length buf.old ≡ 0 → IsOk result }
        ensures refusals { IfErr result
            (allowed (read_reasons D.view (image_of self.old) offset (length buf.old))) }
        ensures answered { IsReadThrough D.view D.calls (image_of self.old) offset
            (length buf.old) result }
    {
        let size = self.image.size();
        let inside = part_inside(size, offset, buf.len());
        let mut done: usize = 0;
        while done < inside {
            done += self.read_chunk(alloc, &mut buf[done..inside], offset + done as u64)?;
        }
        clear(&mut buf[inside..]);
        Ok(())
    }

    /// Fills the buffer with the disk's bytes from the offset on, with 0 past its end, as
    /// [`read`](FormatAccess::read) of the image does, and with the same refusals. Refused, the
    /// buffer is unspecified, and nothing is kept any more.
    ///
    /// Special bytes that are kept are copied. Whole blocks of others are made up in the buffer,
    /// all that follow one another at once. Of a block of which only a part is read, all is made up
    /// and kept. Where the driver refuses to make up some of a mapping, that mapping is read at
    /// once, as the image reads it, and the answer is passed on.
    pub fn read(&mut self, alloc: Global, buf: &mut [u8], offset: u64) -> Result<(), Error>
        requires { IsKeeping D.view self.old }
        ensures image { image_of self.new ≡ image_of self.old }
        ensures keeping { IsKeeping D.view self.new }
        ensures forgets { OnErr result (KeepsNothing self.new) }
        ensures disk { IsTrue (tells_bytes D.view (image_of self.old)) → OnOk result
            (IsPartOf (disk D.view (image_of self.old)) offset (length buf.old) buf.new) }
        ensures bytes { IsTrue (tells_bytes D.view (image_of self.old))
            → OnOk result (HasValues (disk_value D.view (image_of self.old)) offset buf.new) }
        ensures empty { length buf.old ≡ 0 → IsOk result }
        ensures refusals { IfErr result
            (allowed (read_reasons D.view (image_of self.old) offset (length buf.old))) }
        ensures answered { IsReadThrough D.view D.calls (image_of self.old) offset
            (length buf.old) result }
    {
        let result = self.read_range(alloc, buf, offset);
        if result.is_err() {
            self.kept = None;
        }
        result
    }
}

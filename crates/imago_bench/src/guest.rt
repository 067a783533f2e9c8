// SPDX-License-Identifier: MIT
//! Images that calls are made on. Their storages are in memory.
ghost use Rattle.std.specs.Prelude.{◌≡◌, None, IfSome};
ghost use Rattle.imago_access.specs.Chain.{driver};

use crate::digest::Digest;
use crate::random::Random;
use imago_access::access::FormatAccess;
use imago_access::run::{Call, Reply, run};
use imago_any_driver::any::AnyDriver;
use imago_cow::cow::Cow;
use imago_drivers::drivers::FormatDriverInstance;
use imago_storage::mem::MemStorage;
use std::alloc::Global;

/// An image whose storages are in memory.
pub type Image = FormatAccess<AnyDriver<MemStorage>>;

/// A copy-on-write disk of that size, in blocks of that length, over a storage.
pub fn overlay(
    alloc: Global,
    storage: MemStorage,
    size: u64,
    block: u64,
) -> Option<AnyDriver<MemStorage>>
    ensures { IfSome result
        (λ d. (⟦<AnyDriver<MemStorage> as FormatDriverInstance>⟧.view d).pending ≡ None) }
{
    if !block.is_power_of_two() || block > 1048576 {
        return None;
    }
    let cow = Cow::create(alloc, storage, size, block).ok()?;
    Some(AnyDriver::Cow(cow))
}

/// An image in which no prepared mapping waits.
#[derive(Drop)]
pub struct Guest {
    image: Image,
    ghost spent: { (⟦<AnyDriver<MemStorage> as FormatDriverInstance>⟧.view (driver image)).pending
        ≡ None },
}

/// Of a hundred calls how many are of each kind. The others are flushes.
#[derive(Clone, Copy)]
pub struct Mix {
    /// Reads of whole units.
    pub reads: u64,
    /// Writes of whole units.
    pub writes: u64,
    /// Reads and writes of up to 9,000 bytes anywhere.
    pub odd: u64,
    /// Mappings of up to 1 MiB.
    pub mappings: u64,
    /// Zero writes, and discards to zero, of up to 64 KiB anywhere.
    pub zeroes: u64,
}

/// How long a unit is, in bytes.
const UNIT: u64 = 4096;

/// The most bytes of a read or write that is no unit.
const MOST: u64 = 9000;

/// What is written: bytes of this many, from some place on.
const PATTERN: u64 = 32768;

/// The buffers of a guest.
#[derive(Drop)]
struct Buffers {
    /// What is read into.
    read: Vec<u8>,
    /// What is written.
    pattern: Vec<u8>,
}

impl Buffers {
    fn new(alloc: Global, random: &mut Random) -> Option<Self> {
        let read = vec![in alloc; 0u8; MOST as usize].ok()?;
        let mut pattern = Vec::new(alloc);
        for _ in 0..PATTERN {
            pattern.push(random.byte()).ok()?;
        }
        Some(Buffers { read, pattern })
    }
}

/// A call that moves no bytes, on a disk of that size.
fn other_call(random: &mut Random, mix: Mix, kind: u64, size: u64) -> Call {
    let offset = random.below(size);
    let length = random.below(65536).min(size - offset);
    if kind < mix.mappings {
        return Call::GetMapping {
            offset,
            max_length: random.below(1048576),
        };
    }
    if kind - mix.mappings >= mix.zeroes {
        return Call::Flush;
    }
    if random.is_one_of(2) {
        return Call::WriteZeroes { offset, length };
    }
    Call::DiscardToZero { offset, length }
}

impl Guest {
    /// An image.
    pub fn new(image: Image) -> Self
        requires { (⟦<AnyDriver<MemStorage> as FormatDriverInstance>⟧.view (driver image)).pending
            ≡ None }
    {
        Guest { image }
    }

    /// The image.
    pub fn image(&self) -> &Image {
        &self.image
    }

    /// The image, for another one to be laid above it.
    pub fn into_image(self) -> Image {
        self.image
    }

    /// Makes calls in order, and adds their replies.
    pub fn make(&mut self, alloc: Global, calls: &[Call], digest: &mut Digest) -> Option<()> {
        let mut replies: Vec<Reply> = Vec::new(alloc);
        run(alloc, &mut self.image, calls, &mut replies).ok()?;
        for reply in &replies {
            digest.add_reply(alloc, reply)?;
        }
        Some(())
    }

    /// Reads bytes.
    fn read(
        &self,
        alloc: Global,
        buffers: &mut Buffers,
        offset: u64,
        count: u64,
        digest: &mut Digest,
    ) -> Option<()> {
        let buf = buffers.read.as_mut_slice().get_mut(..count as usize)?;
        let outcome = self.image.read(alloc, buf, offset);
        digest.add_bytes(buf);
        digest.add_outcome(alloc, outcome)
    }

    /// Writes bytes.
    fn write(
        &mut self,
        alloc: Global,
        source: &[u8],
        offset: u64,
        digest: &mut Digest,
    ) -> Option<()> {
        let outcome = self.image.write(alloc, source, offset);
        digest.add_outcome(alloc, outcome)
    }

    /// Reads or writes bytes.
    fn move_bytes(
        &mut self,
        alloc: Global,
        random: &mut Random,
        buffers: &mut Buffers,
        range: (u64, u64),
        is_read: bool,
        digest: &mut Digest,
    ) -> Option<()> {
        let (offset, count) = range;
        if is_read {
            return self.read(alloc, buffers, offset, count, digest);
        }
        let start = random.below(PATTERN / 2) as usize;
        let source = buffers.pattern.get(start..)?.get(..count as usize)?;
        self.write(alloc, source, offset, digest)
    }

    /// Makes a call.
    fn serve_one(
        &mut self,
        alloc: Global,
        random: &mut Random,
        mix: Mix,
        buffers: &mut Buffers,
        digest: &mut Digest,
    ) -> Option<()> {
        let size = self.image.size();
        let unit = (random.below(size / UNIT).wrapping_mul(UNIT), UNIT);
        let mut kind = random.below(100);
        if kind < mix.reads {
            return self.move_bytes(alloc, random, buffers, unit, true, digest);
        }
        kind -= mix.reads;
        if kind < mix.writes {
            return self.move_bytes(alloc, random, buffers, unit, false, digest);
        }
        kind -= mix.writes;
        if kind < mix.odd {
            let count = random.below(MOST);
            let range = (random.below(size.saturating_sub(count)), count);
            let is_read = random.is_one_of(2);
            return self.move_bytes(alloc, random, buffers, range, is_read, digest);
        }
        let call = other_call(random, mix, kind - mix.odd, size);
        self.make_one(alloc, call, digest)
    }

    /// Makes so many calls.
    pub fn serve(
        &mut self,
        alloc: Global,
        random: &mut Random,
        mix: Mix,
        calls: u64,
        digest: &mut Digest,
    ) -> Option<()> {
        let mut buffers = Buffers::new(alloc, random)?;
        for _ in 0..calls {
            self.serve_one(alloc, random, mix, &mut buffers, digest)?;
        }
        Some(())
    }

    /// Makes one call.
    pub fn make_one(&mut self, alloc: Global, call: Call, digest: &mut Digest) -> Option<()> {
        self.make(alloc, &[call], digest)
    }
}

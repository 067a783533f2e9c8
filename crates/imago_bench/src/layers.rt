// SPDX-License-Identifier: MIT
//! Long chains of copy-on-write disks, as continuous backup makes them.
ghost use Rattle.std.specs.Prelude.{◌≡◌, None, IfSome};

use crate::digest::Digest;
use crate::guest::{Guest, Mix, overlay};
use crate::random::Random;
use imago_access::access::FormatAccess;
use imago_access::run::Call;
use imago_any_driver::any::AnyDriver;
use imago_drivers::drivers::FormatDriverInstance;
use imago_plan::piece::Source;
use imago_plan::plan::plan;
use imago_storage::mem::MemStorage;
use std::alloc::Global;

/// How long a block is, in bytes.
const BLOCK: u64 = 16384;

/// How many blocks a disk has.
const BLOCKS: u64 = 1024;

/// How many blocks are written in each layer but the lowest.
const WRITTEN: u64 = 2;

/// What is asked of a chain.
const CALLS: Mix = Mix {
    reads: 45,
    writes: 3,
    odd: 2,
    mappings: 49,
    zeroes: 1,
};

/// An empty disk.
fn layer(alloc: Global) -> Option<AnyDriver<MemStorage>>
    ensures { IfSome result
        (λ d. (⟦<AnyDriver<MemStorage> as FormatDriverInstance>⟧.view d).pending ≡ None) }
{
    let storage = MemStorage::new(Vec::new(alloc));
    overlay(alloc, storage, BLOCK * BLOCKS, BLOCK)
}

/// Writes to so many blocks.
fn write_blocks(
    alloc: Global,
    random: &mut Random,
    layers: &mut Guest,
    blocks: u64,
    digest: &mut Digest,
) -> Option<()> {
    for _ in 0..blocks {
        let bytes = vec![in alloc; random.byte(); 4096].ok()?;
        let offset = random.below(BLOCKS).wrapping_mul(BLOCK);
        layers.make_one(alloc, Call::Write { offset, bytes }, digest)?;
    }
    Some(())
}

/// A chain of that many layers, in each of which something was written.
fn chain(alloc: Global, random: &mut Random, count: u64, digest: &mut Digest) -> Option<Guest> {
    let mut layers = Guest::new(FormatAccess::new(layer(alloc)?));
    write_blocks(alloc, random, &mut layers, BLOCKS / 2, digest)?;
    for _ in 1..count {
        let below = Box::new(alloc, layers.into_image()).ok()?;
        layers = Guest::new(FormatAccess::with_backing(layer(alloc)?, below));
        write_blocks(alloc, random, &mut layers, WRITTEN, digest)?;
    }
    Some(layers)
}

/// Adds the plan of a chain.
fn add_plan(alloc: Global, layers: &Guest, digest: &mut Digest) -> Option<()> {
    for piece in plan(alloc, layers.image()).ok()? {
        digest.add(piece.at);
        digest.add(piece.count);
        if let Source::Stored(from) = piece.source {
            digest.add(from.layer as u64);
            digest.add(from.offset);
        }
    }
    Some(())
}

/// Asks a chain of that many layers for what it has, in so many calls.
pub fn ask(
    alloc: Global,
    random: &mut Random,
    layers: u64,
    calls: u64,
    digest: &mut Digest,
) -> Option<()> {
    let mut chain = chain(alloc, random, layers, digest)?;
    add_plan(alloc, &chain, digest)?;
    chain.serve(alloc, random, CALLS, calls, digest)?;
    add_plan(alloc, &chain, digest)
}

// SPDX-License-Identifier: MIT
//! Guests that are served: copy-on-write disks above images of each format.
use crate::descriptor::{descriptor, names};
use crate::digest::Digest;
use crate::guest::{Guest, Image, Mix, overlay};
use crate::qcow2::{Pattern, Shape, qcow2_file};
use crate::random::Random;
use imago_access::access::FormatAccess;
use imago_access::run::Call;
use imago_any_driver::any::AnyDriver;
use imago_drivers::builder::FormatDriverBuilder;
use imago_drivers::drivers::PreallocateMode;
use imago_drivers::gate::NamedGate;
use imago_drivers::raw::Raw;
use imago_qcow2::qcow2::Qcow2;
use imago_storage::mem::MemStorage;
use imago_storage::storage::is_alignment;
use imago_vmdk::vmdk::Vmdk;
use std::alloc::Global;

/// The calls of a guest: seven reads to three writes, and flushes between them.
const CALLS: Mix = Mix {
    reads: 60,
    writes: 26,
    odd: 6,
    mappings: 1,
    zeroes: 2,
};

/// How many calls each guest makes, before its disk is changed and afterwards.
const COUNT: u64 = 40000;

/// How long a block of a copy-on-write disk is, in bytes.
const BLOCK: u64 = 65536;

/// A storage of so many zeroes, with requests of that alignment.
fn zeroes(alloc: Global, count: u64, align: usize) -> Option<MemStorage> {
    if !is_alignment(align) {
        return None;
    }
    let bytes = vec![in alloc; 0u8; count as usize].ok()?;
    Some(MemStorage::new(bytes).with_align(align))
}

/// A raw image of that size, over a storage with requests of 4096 bytes.
fn raw(alloc: Global, size: u64) -> Option<Image> {
    let raw = Raw::open_image(zeroes(alloc, size, 4096)?, false).ok()?;
    Some(FormatAccess::new(AnyDriver::Raw(raw)))
}

/// The image of a qcow2 file with clusters of 64 KiB.
fn qcow2(alloc: Global, random: &mut Random, size: u64) -> Option<Image> {
    let shape = Shape {
        cluster_bits: 16,
        clusters: size / 65536,
        backing: None,
        pattern: Pattern::Worn,
    };
    let file = qcow2_file(alloc, random, shape)?;
    let mut bytes = file.head;
    bytes.resize(file.length as usize, 7).ok()?;
    let qcow2 = Qcow2::open_image(alloc, MemStorage::new(bytes), false).ok()?;
    Some(FormatAccess::new(AnyDriver::Qcow2(qcow2)))
}

/// The driver of a descriptor of that many lines, whose extents have as many bytes as they can.
pub fn vmdk(alloc: Global, random: &mut Random, lines: u64) -> Option<Vmdk<MemStorage>> {
    let text = descriptor(alloc, random, lines)?;
    let mut gate = NamedGate::new(alloc);
    for name in names(alloc, &text)? {
        let bytes = vec![in alloc; 5u8; 2048].ok()?;
        gate.add(name, MemStorage::new(bytes)).ok()?;
    }
    let builder = Vmdk::builder(MemStorage::new(text.into_bytes()));
    builder.open(alloc, &mut gate).ok()
}

/// The image above another one that is a copy-on-write disk, whose storage has requests of 512
/// bytes.
pub fn laid(alloc: Global, below: Image) -> Option<Guest> {
    let size = below.size();
    let disk = overlay(alloc, zeroes(alloc, 0, 512)?, size, BLOCK)?;
    let below = Box::new(alloc, below).ok()?;
    Some(Guest::new(FormatAccess::with_backing(disk, below)))
}

/// Writes the first half of a disk in order, 1 MiB at a time, and reads the second.
fn install(alloc: Global, guest: &mut Guest, digest: &mut Digest) -> Option<()> {
    let most = 1048576;
    let size = guest.image().size();
    for part in 0..size / most {
        let offset = part.wrapping_mul(most);
        let call = if offset < size / 2 {
            let bytes = vec![in alloc; (part % 256) as u8; most as usize].ok()?;
            Call::Write { offset, bytes }
        } else {
            Call::Read {
                offset,
                length: most,
            }
        };
        guest.make_one(alloc, call, digest)?;
    }
    Some(())
}

/// Grows a disk, zeroes and discards much of it, and cuts it again.
fn change(alloc: Global, guest: &mut Guest, digest: &mut Digest) -> Option<()> {
    let size = guest.image().size();
    let longer = size.saturating_add(size / 4).saturating_add(513);
    let calls = [
        Call::Resize {
            size: longer,
            mode: PreallocateMode::Zero,
        },
        Call::WriteZeroes {
            offset: size / 8 + 1,
            length: size / 4,
        },
        Call::DiscardToZero {
            offset: size / 2,
            length: size / 4,
        },
        Call::DiscardToBacking {
            offset: 0,
            length: size / 8,
        },
        Call::Resize {
            size,
            mode: PreallocateMode::Zero,
        },
        Call::Sync,
    ];
    guest.make(alloc, &calls, digest)
}

/// Serves a guest.
fn serve(alloc: Global, random: &mut Random, guest: &mut Guest, digest: &mut Digest) -> Option<()> {
    guest.serve(alloc, random, CALLS, COUNT, digest)?;
    install(alloc, guest, digest)?;
    change(alloc, guest, digest)?;
    guest.serve(alloc, random, CALLS, COUNT, digest)
}

/// Serves guests whose disks have that many units of 64 KiB: above a raw image, above a qcow2 image
/// with a snapshot between, and above a VMDK image.
pub fn serve_all(
    alloc: Global,
    random: &mut Random,
    units: u64,
    digest: &mut Digest,
) -> Option<()> {
    let size = units.checked_mul(65536)?;
    let mut above_raw = laid(alloc, raw(alloc, size)?)?;
    serve(alloc, random, &mut above_raw, digest)?;
    let snapshot = laid(alloc, qcow2(alloc, random, size)?)?;
    let mut above_qcow2 = laid(alloc, snapshot.into_image())?;
    serve(alloc, random, &mut above_qcow2, digest)?;
    let extents = vmdk(alloc, random, units.checked_mul(16)?)?;
    let mut above_vmdk = laid(alloc, FormatAccess::new(AnyDriver::Vmdk(extents)))?;
    serve(alloc, random, &mut above_vmdk, digest)
}

/// Maps and reads a VMDK image of that many lines.
pub fn read_extents(
    alloc: Global,
    random: &mut Random,
    lines: u64,
    digest: &mut Digest,
) -> Option<()> {
    let reading = Mix {
        reads: 40,
        writes: 0,
        odd: 0,
        mappings: 60,
        zeroes: 0,
    };
    let vmdk = AnyDriver::Vmdk(vmdk(alloc, random, lines)?);
    let mut guest = Guest::new(FormatAccess::new(vmdk));
    guest.serve(alloc, random, reading, lines, digest)
}

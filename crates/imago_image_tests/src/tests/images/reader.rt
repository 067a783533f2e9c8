// SPDX-License-Identifier: MIT
//! Readers: what they read, and how often a driver makes up blocks of special bytes for it.
//!
//! Where a request for memory is refused a reader reads as the image does, which makes up more: so
//! what made too much is tried again.

use imago_access::access::FormatAccess;
use imago_access::reader::Reader;
use imago_copy::compare::first_difference;
use imago_copy::copy::{CopyError, copy_disk};
use imago_storage::error::Error;
use imago_test_drivers::making::Making;
use std::alloc::Global;
use std::process::Abort;

/// A disk of special bytes, by its size and how many bytes a block has.
#[derive(Clone, Copy)]
enum Disk {
    /// All of its blocks can be made up.
    Whole(u64, u64),
    /// That one of its blocks can't be.
    Faulty(u64, u64, u64),
    /// Above it is a disk that leaves all to it, in pieces of that many bytes.
    Cut(u64, u64, u64),
}

/// The image of a disk.
fn image_of(alloc: Global, disk: Disk) -> Result<FormatAccess<Making>, Error> {
    match disk {
        Disk::Whole(size, block) => Ok(FormatAccess::new(Making::blocks(size, block, None))),
        Disk::Faulty(size, block, faulty) => {
            Ok(FormatAccess::new(Making::blocks(size, block, Some(faulty))))
        }
        Disk::Cut(size, block, piece) => {
            let blocks = FormatAccess::new(Making::blocks(size, block, None));
            let above = Making::above(size, piece);
            Ok(FormatAccess::with_backing(above, Box::new(alloc, blocks)?))
        }
    }
}

/// How many blocks were made up so far.
fn made(image: &FormatAccess<Making>) -> u64 {
    match image.backing() {
        Some(below) => below.inner().made(),
        None => image.inner().made(),
    }
}

/// The buffer holds the bytes of a disk of that size from the offset on.
fn is_read(rt: &impl Abort, size: u64, offset: u64, buf: &[u8]) {
    for i in 0..buf.len() {
        let at = offset.saturating_add(i as u64);
        let byte = if at < size { (at % 251) as u8 } else { 0 };
        assert_eq!(rt; buf[i], byte);
    }
}

/// Reads a disk in order, that many bytes at a time, and answers how many blocks were made up.
fn in_order(rt: &impl Abort, alloc: Global, disk: Disk, step: usize) -> Result<u64, Error> {
    let image = image_of(alloc, disk)?;
    let mut reader = Reader::new(alloc, &image);
    let mut buf = vec![in alloc; 0u8; step]?;
    for i in 0..image.size() / 1.max(step as u64) {
        let offset = i.saturating_mul(step as u64);
        reader.read(alloc, &mut buf, offset)?;
        is_read(rt, image.size(), offset, &buf);
    }
    Ok(made(&image))
}

/// Reads a disk backward, that many bytes at a time, and answers how many blocks were made up.
fn backward(rt: &impl Abort, alloc: Global, disk: Disk, step: usize) -> Result<u64, Error> {
    let image = image_of(alloc, disk)?;
    let mut reader = Reader::new(alloc, &image);
    let mut buf = vec![in alloc; 0u8; step]?;
    let count = image.size() / 1.max(step as u64);
    for i in 0..count {
        let offset = (count - 1 - i).saturating_mul(step as u64);
        reader.read(alloc, &mut buf, offset)?;
        is_read(rt, image.size(), offset, &buf);
    }
    Ok(made(&image))
}

/// Disks, how many bytes are read at a time, and how many blocks there are: each is made up once.
static ONCE: [(Disk, usize, u64); 8] = [
    (Disk::Whole(0x40000, 0x10000), 0x1000, 4),
    (Disk::Whole(0x20000, 0x1000), 0x10000, 32),
    (Disk::Whole(0x40000, 0x20000), 0x10000, 2),
    // The steps cut blocks, and the disk's end cuts one.
    (Disk::Whole(10_000, 512), 1000, 20),
    // The disk above cuts each block into four, and blocks unevenly.
    (Disk::Cut(0x8000, 0x1000, 0x400), 0x100, 8),
    (Disk::Cut(0x8000, 0x1000, 0x400), 0x8000, 8),
    (Disk::Cut(0x9000, 0x1000, 0x600), 0x900, 9),
    // Single bytes are no blocks: each is made up once where it is read once.
    (Disk::Whole(0x1000, 1), 0x100, 0x1000),
];

/// The same for reads backward, whose steps cut no two blocks at once.
static BACKWARD: [(Disk, usize, u64); 3] = [
    (Disk::Whole(0x40000, 0x10000), 0x1000, 4),
    (Disk::Whole(0x8000, 0x1000), 0x2000, 8),
    (Disk::Cut(0x8000, 0x1000, 0x400), 0x100, 8),
];

fn check_each_block_is_made_up_once(rt: &impl Abort, alloc: Global) {
    for &(disk, step, blocks) in &ONCE {
        let done = in_order(rt, alloc, disk, step) == Ok(blocks)
            || in_order(rt, alloc, disk, step) == Ok(blocks);
        assert!(rt; done, "in order, more blocks were made up");
    }
    for &(disk, step, blocks) in &BACKWARD {
        let done = backward(rt, alloc, disk, step) == Ok(blocks)
            || backward(rt, alloc, disk, step) == Ok(blocks);
        assert!(rt; done, "backward, more blocks were made up");
    }
}

#[test]
fn each_block_is_made_up_once(rt: HostRuntime) {
    check_each_block_is_made_up_once(&rt, rt.alloc());
}

/// A read: its offset, its length, and how many blocks are made up for it, or its refusal.
type Row = (u64, usize, Result<u64, Error>);

/// Makes the reads of a table, one after another, and answers whether each did what its row says.
fn are_read(rt: &impl Abort, alloc: Global, disk: Disk, rows: &[Row]) -> Result<bool, Error> {
    let image = image_of(alloc, disk)?;
    let mut reader = Reader::new(alloc, &image);
    let mut same = true;
    for &(offset, count, expected) in rows {
        let before = made(&image);
        let mut buf = vec![in alloc; 0u8; count]?;
        let result = reader.read(alloc, &mut buf, offset);
        if result.is_ok() {
            is_read(rt, image.size(), offset, &buf);
        }
        let answer = result.map(|()| made(&image).saturating_sub(before));
        same = same && answer == expected;
    }
    Ok(same)
}

/// On four blocks of 16 bytes.
static PARTS: [Row; 13] = [
    (4, 4, Ok(1)),
    (8, 8, Ok(0)),
    (0, 16, Ok(0)),
    // Backward: the block before isn't kept any more.
    (24, 8, Ok(1)),
    (16, 8, Ok(0)),
    (12, 4, Ok(1)),
    // Across: the first part is kept.
    (12, 8, Ok(1)),
    // Whole blocks are made up at once, and what is kept stays.
    (32, 32, Ok(2)),
    (20, 4, Ok(0)),
    // A part, two blocks, and a part.
    (8, 48, Ok(4)),
    (56, 8, Ok(0)),
    // Past the end nothing is made up.
    (60, 8, Ok(0)),
    (64, 8, Ok(0)),
];

/// On four blocks of 16 bytes, the second of which is faulty.
static FAULTY: [Row; 6] = [
    (4, 4, Ok(1)),
    (16, 4, Err(Error::Unsupported)),
    // Refused, the first block isn't kept any more.
    (4, 4, Ok(1)),
    (8, 16, Err(Error::Unsupported)),
    (0, 64, Err(Error::Unsupported)),
    (36, 4, Ok(1)),
];

fn check_parts_of_blocks_are_kept(rt: &impl Abort, alloc: Global) {
    let parts = Disk::Whole(64, 16);
    let faulty = Disk::Faulty(64, 16, 1);
    let done = are_read(rt, alloc, parts, &PARTS) == Ok(true)
        || are_read(rt, alloc, parts, &PARTS) == Ok(true);
    assert!(rt; done, "parts of blocks");
    let done = are_read(rt, alloc, faulty, &FAULTY) == Ok(true)
        || are_read(rt, alloc, faulty, &FAULTY) == Ok(true);
    assert!(rt; done, "a faulty block");
}

#[test]
fn parts_of_blocks_are_kept(rt: HostRuntime) {
    check_parts_of_blocks_are_kept(&rt, rt.alloc());
}

/// Copies a disk by way of a buffer of that many bytes, and answers how many blocks were made up.
fn copied(rt: &impl Abort, alloc: Global, disk: Disk, step: usize) -> Result<u64, CopyError> {
    let image = image_of(alloc, disk)?;
    let mut target = Vec::new(alloc);
    let mut buf = vec![in alloc; 0u8; step].map_err(Error::from)?;
    copy_disk(alloc, &image, &mut target, &mut buf)?;
    assert_eq!(rt; target.len() as u64, image.size());
    is_read(rt, image.size(), 0, &target);
    Ok(made(&image))
}

/// Compares a disk with one of the same bytes, and answers how many blocks were made up for each.
fn compared(rt: &impl Abort, alloc: Global, disk: Disk, step: usize) -> Result<u64, Error> {
    if step == 0 {
        return Err(Error::Unsupported);
    }
    let left = image_of(alloc, disk)?;
    let right = image_of(alloc, disk)?;
    let mut left_buf = vec![in alloc; 0u8; step]?;
    let mut right_buf = vec![in alloc; 0u8; step]?;
    let found = first_difference(alloc, &left, &right, &mut left_buf, &mut right_buf)?;
    assert_eq!(rt; found, None);
    Ok(made(&left).max(made(&right)))
}

fn check_copies_and_comparisons_make_up_each_block_once(rt: &impl Abort, alloc: Global) {
    for &(disk, step, blocks) in &ONCE {
        let done = matches!(copied(rt, alloc, disk, step), Ok(made) if made == blocks)
            || matches!(copied(rt, alloc, disk, step), Ok(made) if made == blocks);
        assert!(rt; done, "a copy made up more blocks");
        let done = compared(rt, alloc, disk, step) == Ok(blocks)
            || compared(rt, alloc, disk, step) == Ok(blocks);
        assert!(rt; done, "a comparison made up more blocks");
    }
}

#[test]
fn copies_and_comparisons_make_up_each_block_once(rt: HostRuntime) {
    check_copies_and_comparisons_make_up_each_block_once(&rt, rt.alloc());
}

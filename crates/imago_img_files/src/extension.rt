// SPDX-License-Identifier: MIT
//! The header extensions of a qcow2 file: one names its external data file, one says where bitmaps
//! are, and one where the header of its encryption is.

use imago_qcow2::header::HEAD_LENGTH;
use imago_qcow2::number::{number32, number64};

/// The type of the extension that names an external data file.
const DATA_NAME: u32 = 0x4441_5441;

/// The type of the one that says where bitmaps are.
const BITMAPS: u32 = 0x2385_2875;

/// The type of the one that says where the header of the encryption is.
const ENCRYPTION_HEADER: u32 = 0x0537_be77;

/// What a header extension says of the directory of bitmaps.
#[derive(Clone, Copy)]
pub struct BitmapPlace {
    /// How many bitmaps there are.
    pub count: u32,
    /// How many bytes the directory has, and where it begins.
    pub size: u64,
    pub start: u64,
}

/// The name of the external data file in the first cluster of a file that begins so, and the offset
/// at which it stands. The last extension of that type counts, and a zero ends the name, as for
/// QEMU.
pub fn data_name<'a>(cluster: &'a [u8], head: &[u8; HEAD_LENGTH]) -> Option<(usize, &'a [u8])> {
    let (begin, count) = last_of(cluster, head, DATA_NAME)?;
    let name = slice_of(cluster, begin, count)
        .split(|byte| *byte == 0)
        .next()?;
    Some((begin, name))
}

/// Where the bitmaps of a file are that has this first cluster and begins so, if it says so. The
/// extension has 24 bytes.
pub fn bitmap_place(cluster: &[u8], head: &[u8; HEAD_LENGTH]) -> Option<BitmapPlace> {
    let (begin, count) = last_of(cluster, head, BITMAPS)?;
    let said = slice_of(cluster, begin, count);
    if said.len() < 24 {
        return None;
    }
    Some(BitmapPlace {
        count: number32(said, 0),
        size: number64(said, 8),
        start: number64(said, 16),
    })
}

/// Where the header of the encryption begins in such a file, in bytes, if it says so.
pub fn encryption_place(cluster: &[u8], head: &[u8; HEAD_LENGTH]) -> Option<u64> {
    let (begin, count) = last_of(cluster, head, ENCRYPTION_HEADER)?;
    let said = slice_of(cluster, begin, count);
    if said.len() < 16 {
        return None;
    }
    Some(number64(said, 0))
}

/// Where the contents of the last extension of that type begin, and how many bytes they are. In
/// version 2 extensions stand behind the 72 bytes of the header.
fn last_of(cluster: &[u8], head: &[u8; HEAD_LENGTH], kind: u32) -> Option<(usize, usize)> {
    let start = if number32(head.as_slice(), 4) < 3 {
        72
    } else {
        number32(head.as_slice(), 100) as usize
    };
    last_extension(extensions_in(cluster, head), kind, start)
}

/// The part of the first cluster in which extensions stand: up to the name of the backing file, if
/// that stands there.
fn extensions_in<'a>(cluster: &'a [u8], head: &[u8; HEAD_LENGTH]) -> &'a [u8] {
    let backing = number64(head.as_slice(), 8);
    if backing == 0 || backing >= cluster.len() as u64 {
        return cluster;
    }
    &cluster[..backing as usize]
}

/// The last header extension of that type: where its contents begin, and how many bytes they are.
/// Extensions stand from an offset on.
fn last_extension(bytes: &[u8], kind: u32, start: usize) -> Option<(usize, usize)> {
    let mut last = None;
    let mut at = start;
    for _step in 0..bytes.len() / 8 {
        if at >= bytes.len() || bytes.len() - at < 8 {
            return last;
        }
        let found = number32(bytes, at);
        let count = number32(bytes, at + 4) as usize;
        let begin = at + 8;
        if found == 0 || bytes.len() - begin < count {
            return last;
        }
        if found == kind {
            last = Some((begin, count));
        }
        at = begin + count.div_ceil(8).saturating_mul(8);
    }
    last
}

/// So many bytes from an offset on, as far as they are there.
fn slice_of(bytes: &[u8], at: usize, count: usize) -> &[u8] {
    let rest = &bytes[at.min(bytes.len())..];
    &rest[..count.min(rest.len())]
}

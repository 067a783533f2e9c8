// SPDX-License-Identifier: MIT
//! Qcow2 files.
ghost use Rattle.std.specs.Prelude.{◌<◌};

use crate::random::Random;
use std::alloc::Global;

/// Which clusters of a disk have data.
#[derive(Clone, Copy)]
pub enum Pattern {
    /// As after years of use: a few with data and a few without, in turn. Of sixteen L2 tables one
    /// is absent.
    Worn,
    /// So many, scattered over the disk. Each L2 table is there.
    Scattered(u64),
    /// None. Of two L2 tables one is absent.
    Fresh,
    /// All, and they stand in the file in no order.
    Shuffled,
}

/// What a qcow2 file is to have.
#[derive(Clone, Copy)]
pub struct Shape<'a> {
    /// A cluster's length, as a power of two.
    pub cluster_bits: u32,
    /// How many clusters the disk has.
    pub clusters: u64,
    /// The name of the file below it, if there is one.
    pub backing: Option<&'a str>,
    pub pattern: Pattern,
}

/// A qcow2 file: its header, reference counts and tables, and how long the file is. Data stand
/// behind the tables.
#[derive(Drop)]
pub struct Qcow2File {
    pub head: Vec<u8>,
    pub length: u64,
}

/// The flag of an entry whose cluster is used once.
const COPIED: u64 = 0x8000_0000_0000_0000;

/// The flag of an entry whose cluster is compressed.
const COMPRESSED: u64 = 0x4000_0000_0000_0000;

/// Puts a number of four bytes, the highest first.
fn put32(bytes: &mut [u8], at: usize, number: u32) {
    put(bytes, at, &number.to_be_bytes());
}

/// Puts a number of eight bytes, the highest first.
fn put64(bytes: &mut [u8], at: usize, number: u64) {
    put(bytes, at, &number.to_be_bytes());
}

/// Puts bytes, if they are inside.
fn put(bytes: &mut [u8], at: usize, source: &[u8]) {
    if at > bytes.len() || bytes.len() - at < source.len() {
        return;
    }
    bytes[at..at + source.len()].copy_from_slice(source);
}

/// Where the parts of a file begin, in clusters, in this order: the table of reference counts, its
/// blocks, the L1 table, L2 tables, data.
#[derive(Drop)]
struct Layout {
    /// A cluster's length, in bytes.
    cluster: u64,
    /// How many clusters the table of reference counts has.
    count_table: u64,
    first_block: u64,
    /// How many blocks of reference counts there are.
    blocks: u64,
    l1_table: u64,
    /// How many L2 tables there is room for.
    tables: u64,
    first_table: u64,
    first_data: u64,
}

impl Layout {
    /// The layout of a file with so many L2 tables, and so many clusters behind them. There are as
    /// many blocks of counts as all clusters of the file need, their own among them.
    fn new(cluster: u64, tables: u64, data: u64) -> Self {
        let l1_clusters = tables.saturating_mul(8).div_ceil(cluster.max(1));
        let others = 1u64
            .saturating_add(l1_clusters)
            .saturating_add(tables)
            .saturating_add(data);
        let mut blocks = 1;
        let mut count_table = 1;
        for _ in 0..8u64 {
            let all = others.saturating_add(blocks).saturating_add(count_table);
            blocks = all.div_ceil((cluster / 2).max(1));
            count_table = blocks.saturating_mul(8).div_ceil(cluster.max(1));
        }
        let first_block = count_table.saturating_add(1);
        let l1_table = first_block.saturating_add(blocks);
        let first_table = l1_table.saturating_add(l1_clusters);
        Layout {
            cluster,
            count_table,
            first_block,
            blocks,
            l1_table,
            tables,
            first_table,
            first_data: first_table.saturating_add(tables),
        }
    }

    /// The offset of a cluster, in bytes.
    fn offset(&self, cluster: u64) -> u64 {
        cluster.wrapping_mul(self.cluster)
    }
}

/// Puts the header of version 3, the extension with the format of the file below, and its name.
fn put_header(bytes: &mut [u8], shape: Shape<'_>, layout: &Layout) {
    put(bytes, 0, b"QFI\xfb");
    put32(bytes, 4, 3);
    put32(bytes, 20, shape.cluster_bits);
    put64(bytes, 24, layout.offset(shape.clusters));
    put32(bytes, 36, (layout.tables % (1 << 32)) as u32);
    put64(bytes, 40, layout.offset(layout.l1_table));
    put64(bytes, 48, layout.cluster);
    put32(bytes, 56, (layout.count_table % (1 << 32)) as u32);
    put32(bytes, 96, 4);
    put32(bytes, 100, 104);
    if let Some(name) = shape.backing {
        put64(bytes, 8, 256);
        put32(bytes, 16, (name.len() % 256) as u32);
        put32(bytes, 104, 0xe279_2aca);
        put32(bytes, 108, 5);
        put(bytes, 112, b"qcow2");
        put(bytes, 256, name.as_bytes());
    }
}

/// Counts a cluster as used once.
fn count_cluster(bytes: &mut [u8], layout: &Layout, cluster: u64) {
    let at = layout
        .offset(layout.first_block)
        .wrapping_add(cluster.wrapping_mul(2));
    put(bytes, at as usize, &[0, 1]);
}

/// Puts the table of reference counts, and counts what every file has: all in front of the L2
/// tables.
fn put_counts(bytes: &mut [u8], layout: &Layout) {
    for block in 0..layout.blocks {
        let entry = layout.cluster.wrapping_add(block.wrapping_mul(8));
        let at = layout.offset(layout.first_block.wrapping_add(block));
        put64(bytes, entry as usize, at);
    }
    for cluster in 0..layout.first_table {
        count_cluster(bytes, layout, cluster);
    }
}

/// Which clusters have data, in order.
fn used_clusters(alloc: Global, random: &mut Random, shape: Shape<'_>) -> Option<Vec<bool>> {
    let mut used = vec![in alloc; false; shape.clusters as usize].ok()?;
    match shape.pattern {
        Pattern::Worn => {
            let mut is_data = false;
            let mut left = 0;
            for place in &mut used {
                if left == 0 {
                    is_data = !is_data;
                    left = 1 + random.below(4);
                }
                left -= 1;
                *place = is_data;
            }
        }
        Pattern::Scattered(count) => {
            for _ in 0..count {
                let at = random.below(shape.clusters) as usize;
                if let Some(place) = used.get_mut(at) {
                    *place = true;
                }
            }
        }
        Pattern::Fresh => {}
        Pattern::Shuffled => used.fill(true),
    }
    Some(used)
}

/// Whether an L2 table is left out.
fn is_left_out(random: &mut Random, pattern: Pattern) -> bool {
    match pattern {
        Pattern::Worn => random.is_one_of(16),
        Pattern::Scattered(_) | Pattern::Shuffled => false,
        Pattern::Fresh => random.is_one_of(2),
    }
}

/// What the entries of a file's tables lead to.
#[derive(Drop)]
struct Entries {
    /// Which L2 tables there are.
    tables: Vec<bool>,
    /// For each cluster of the disk that has data, how far behind the file's first data it stands,
    /// in clusters.
    places: Vec<Option<u64>>,
    /// How many clusters the data take, with what is free between them.
    count: u64,
}

/// The entries of a disk of which all clusters have data, which stand in no order.
fn shuffled(alloc: Global, random: &mut Random, clusters: u64, table_length: u64) -> Option<Entries>
    requires { 0 < table_length }
{
    let tables = clusters.div_ceil(table_length);
    let mut places = Vec::new(alloc);
    for number in 0..clusters {
        places.push(Some(number)).ok()?;
    }
    for number in 0..clusters {
        let other = random.below(clusters) as usize;
        if other < places.len() && (number as usize) < places.len() {
            places.swap(number as usize, other);
        }
    }
    Some(Entries {
        tables: vec![in alloc; true; tables as usize].ok()?,
        places,
        count: clusters,
    })
}

/// Decides what the entries of a file's tables lead to, for so many entries in a table.
fn entries_of(
    alloc: Global,
    random: &mut Random,
    shape: Shape<'_>,
    table_length: usize,
) -> Option<Entries>
    requires { 0 < table_length }
{
    if matches!(shape.pattern, Pattern::Shuffled) {
        return shuffled(alloc, random, shape.clusters, table_length as u64);
    }
    let used = used_clusters(alloc, random, shape)?;
    let mut tables = Vec::new(alloc);
    let mut places = Vec::new(alloc);
    let mut count: u64 = 0;
    for clusters in used.chunks(table_length) {
        let is_there = !is_left_out(random, shape.pattern);
        tables.push(is_there).ok()?;
        for &is_used in clusters {
            let mut place = None;
            if is_there && is_used {
                if random.is_one_of(8) {
                    count = count.wrapping_add(random.below(16));
                }
                place = Some(count);
                count = count.wrapping_add(1);
            }
            places.push(place).ok()?;
        }
    }
    Some(Entries {
        tables,
        places,
        count,
    })
}

/// Puts the L1 table and the L2 tables, and counts these and the data.
fn put_tables(bytes: &mut [u8], layout: &Layout, entries: &Entries, table_length: usize)
    requires { 0 < table_length }
{
    let mut table = layout.first_table;
    for (index, places) in entries.places.chunks(table_length).enumerate() {
        if entries.tables.get(index) != Some(&true) {
            continue;
        }
        let at = layout.offset(table);
        let entry = layout
            .offset(layout.l1_table)
            .wrapping_add((index as u64).wrapping_mul(8));
        put64(bytes, entry as usize, at | COPIED);
        count_cluster(bytes, layout, table);
        for (number, place) in places.iter().enumerate() {
            if let Some(place) = place {
                let cluster = layout.first_data.wrapping_add(*place);
                let entry = at.wrapping_add((number as u64).wrapping_mul(8));
                put64(bytes, entry as usize, layout.offset(cluster) | COPIED);
                count_cluster(bytes, layout, cluster);
            }
        }
        table = table.wrapping_add(1);
    }
}

/// Makes a file.
pub fn qcow2_file(alloc: Global, random: &mut Random, shape: Shape<'_>) -> Option<Qcow2File> {
    let cluster = 1u64 << (shape.cluster_bits % 22).max(9);
    let table_length = (cluster / 8).max(1);
    let tables = shape.clusters.div_ceil(table_length).min(4_194_304);
    let entries = entries_of(alloc, random, shape, table_length as usize)?;
    let layout = Layout::new(cluster, tables, entries.count);
    let mut head = Vec::new(alloc);
    head.resize(layout.first_data.checked_mul(cluster)? as usize, 0u8)
        .ok()?;
    put_header(&mut head, shape, &layout);
    put_counts(&mut head, &layout);
    put_tables(&mut head, &layout, &entries, table_length as usize);
    let length = layout.first_data.checked_add(entries.count)?;
    Some(Qcow2File {
        head,
        length: length.checked_mul(cluster)?,
    })
}

/// Puts a stream behind what the file has, and answers its entry: where it begins, and how many
/// sectors of 512 bytes it goes on in.
fn put_stream(file: &mut Vec<u8>, cluster_bits: u32, stream: &[u8]) -> Option<u64> {
    let at = file.len() as u64;
    file.extend_from_slice(stream).ok()?;
    let last = (file.len() as u64).saturating_sub(1);
    let sectors = (last / 512).wrapping_sub(at / 512);
    let shift = 70u32.wrapping_sub(cluster_bits);
    Some(COMPRESSED | sectors.wrapping_shl(shift) | at)
}

/// Counts the clusters of a stream once more.
fn count_stream(bytes: &mut [u8], layout: &Layout, start: u64, end: u64) {
    let cluster = layout.cluster.max(1);
    for number in start / cluster..end.div_ceil(cluster) {
        let at = layout
            .offset(layout.first_block)
            .wrapping_add(number.wrapping_mul(2)) as usize;
        if at < bytes.len() && bytes.len() - at >= 2 {
            let count = u16::from_be_bytes([bytes[at], bytes[at + 1]]);
            put(bytes, at, &count.wrapping_add(1).to_be_bytes());
        }
    }
}

/// Makes a file whose clusters are compressed where they have data: each has one of these streams,
/// and they stand one behind the other.
pub fn packed_file(
    alloc: Global,
    random: &mut Random,
    shape: Shape<'_>,
    streams: &[Vec<u8>],
) -> Option<Qcow2File> {
    let cluster = 1u64 << (shape.cluster_bits % 22).max(9);
    let table_length = (cluster / 8).max(1);
    let tables = shape.clusters.div_ceil(table_length).min(4_194_304);
    let used = used_clusters(alloc, random, shape)?;
    // No stream is longer than its cluster.
    let layout = Layout::new(cluster, tables, shape.clusters);
    let mut file = Vec::new(alloc);
    file.resize(layout.first_data.checked_mul(cluster)? as usize, 0u8)
        .ok()?;
    put_header(&mut file, shape, &layout);
    put_counts(&mut file, &layout);
    for table in 0..tables {
        let at = layout.offset(layout.first_table.wrapping_add(table));
        let entry = layout
            .offset(layout.l1_table)
            .wrapping_add(table.wrapping_mul(8));
        put64(&mut file, entry as usize, at | COPIED);
        count_cluster(&mut file, &layout, layout.first_table.wrapping_add(table));
    }
    for (number, is_used) in used.iter().enumerate() {
        if *is_used {
            let stream = streams.get(random.below(streams.len() as u64) as usize)?;
            let start = file.len() as u64;
            let entry = put_stream(&mut file, shape.cluster_bits, stream)?;
            let at = layout
                .offset(layout.first_table)
                .wrapping_add((number as u64).wrapping_mul(8));
            put64(&mut file, at as usize, entry);
            let end = file.len() as u64;
            count_stream(&mut file, &layout, start, end);
        }
    }
    let length = file.len() as u64;
    Some(Qcow2File { head: file, length })
}

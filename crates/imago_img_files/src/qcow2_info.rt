// SPDX-License-Identifier: MIT
//! What a qcow2 file is, by its header, the names that stand in its first cluster, its table of
//! snapshots, its directory of bitmaps, and the header of its encryption. No L1 and no L2 table is
//! read.
ghost use Rattle.std.specs.Prelude.{◌≡◌, ℕ, ◌<◌, ◌≤◌, List, None, false, IfOk, OnOk, IsTrue};
ghost use Rattle.std.specs.Prelude.{length, slice_index};
ghost use Rattle.imago_storage.specs.Bytes.{IsReadAt};
ghost use Rattle.imago_qcow2.specs.Entry.{disk_size};
ghost use Rattle.imago_qcow2.specs.Header.{features_at, has_bit};
ghost use Rattle.imago_qcow2.specs.Qcow2Image.{storage_in};
ghost use Rattle.imago_images.specs.declared.opening.OtherFiles.TheVariants as Others;
ghost use Rattle.imago_images.specs.HostBytes.{HasBytes};
ghost use Rattle.imago_images.specs.Layers.{SaysBacking};
ghost use Rattle.imago_img_files.specs.Described.{NamesNoFile};

use crate::bitmaps::{Bitmap, print_bitmaps, print_bitmaps_json, read_bitmaps};
use crate::chain::{NamedBelow, full_path};
use crate::extension::{BitmapPlace, bitmap_place, data_name, encryption_place};
use crate::failure::{Failure, OpenError, Reason, SnapshotFault};
use crate::host::Host;
use crate::json::quoted;
use crate::looked::unread;
use crate::luks::{LUKS, Luks, print_encryption, print_encryption_json, read_luks};
use crate::snapshots::{Snapshot, Table, print_snapshots, print_snapshots_json, read_snapshots};
use imago_file::file::FileStorage;
use imago_file::host::HostFile;
use imago_images::alone::refuse_below;
use imago_images::file::PathStorage;
use imago_images::layer::{text_of, told_by_host};
use imago_images::opening::OtherFiles;
use imago_qcow2::fault::HeaderFault;
use imago_qcow2::header::{self, Compression, HEAD_LENGTH, Header};
use imago_qcow2::layout::{LONGEST_L1, l1_length};
use imago_qcow2::number::{number32, number64};
use imago_qcow2::qcow2::Qcow2;
use imago_storage::error::Error;
use imago_storage::ext::StorageExt;
use imago_storage::mem::MemStorage;
use imago_storage::storage::Storage;
use std::alloc::{AllocError, Global};
use std::fmt::Display;
use std::io::{self, Write};

/// What a qcow2 file is.
#[derive(Drop)]
pub struct Qcow2Report {
    /// What its header says, but for encryption, features that aren't supported, and where an L1 table
    /// begins that passes the file's end.
    pub header: Header,
    unsupported: Unsupported,
    /// How many bits a reference count has.
    refcount_bits: u32,
    below: NamesBelow,
    /// Where the data stand in a file of their own.
    data_file: DataFile,
    listed: Listed,
}

/// What stands in a file besides its header and the names of other files.
#[derive(Drop)]
struct Listed {
    snapshots: Vec<Snapshot>,
    /// The bitmaps, if they can be told.
    bitmaps: Option<Vec<Bitmap>>,
    /// What the header of its encryption says, if that is LUKS and can be told.
    luks: Option<Luks>,
}

/// Where header extensions say that more stands in a file.
#[derive(Clone, Copy)]
struct Places {
    /// The directory of bitmaps.
    bitmaps: Option<BitmapPlace>,
    /// The header of the encryption, by its offset in bytes.
    encryption: Option<u64>,
}

/// What a header says for which an image isn't opened, and yet is told.
#[derive(Clone, Copy)]
struct Unsupported {
    /// How it is encrypted, if it is: by AES, by LUKS, or in a way that isn't known.
    encryption: Option<u32>,
    /// Incompatible features, each by its bit.
    features: u64,
    /// How many bytes its L1 table has, if these are too many.
    long_l1: Option<u64>,
    /// Whether its L1 table passes the file's end.
    cut_l1: bool,
    /// Whether its table of snapshots does so too.
    cut_snapshots: bool,
}

impl Unsupported {
    /// Nothing.
    const NONE: Unsupported = Unsupported {
        encryption: None,
        features: 0,
        long_l1: None,
        cut_l1: false,
        cut_snapshots: false,
    };

    /// Whether the feature of a bit is one of them.
    fn has(self, bit: u32) -> bool {
        bit < 64 && self.features & 1 << bit != 0
    }
}

/// The incompatible feature that the image is corrupt, by its bit.
const CORRUPT: u32 = 1;

/// The one that the data stand in a file of their own.
const EXTERNAL_DATA: u32 = 2;

/// The one that L2 entries have subclusters.
const EXTENDED_ENTRIES: u32 = 4;

/// What a file says of the one below it.
#[derive(Drop)]
struct NamesBelow {
    /// The backing file's name.
    name: Option<String>,
    /// The path that it stands for, if it is a file's.
    path: Option<String>,
    /// That of its format.
    format: Option<String>,
}

/// What a file says of the one in which its data stand.
#[derive(Drop)]
struct DataFile {
    /// Its name, which some files have that have their data themselves.
    name: Option<String>,
    /// Whether the data stand there.
    is_used: bool,
    /// Whether it is also a raw image of the disk.
    is_raw: bool,
}

impl Qcow2Report {
    /// What the image says of the one below it, if there is one.
    pub fn named_below(&self) -> Option<NamedBelow<'_>> {
        let name = self.below.name.as_deref()?;
        Some(NamedBelow {
            name,
            format: self.below.format.as_deref(),
        })
    }
}

/// A header that was read.
#[derive(Clone, Copy)]
struct Head {
    /// Its bytes, without encryption, features that aren't supported, and where an L1 table begins
    /// that passes the file's end.
    bytes: [u8; HEAD_LENGTH],
    header: Header,
    unsupported: Unsupported,
}

/// Puts bytes over others from an offset on, if all of them are there.
pub fn put(bytes: &mut [u8], at: usize, source: &[u8])
    ensures before { (i : ℕ) → i < at
        → slice_index bytes.new i ≡ slice_index bytes.old i }
{
    if at > bytes.len() || bytes.len() - at < source.len() {
        return;
    }
    bytes[at..at + source.len()].copy_from_slice(source);
}

/// Where the header says where the L1 table begins.
const L1_START: usize = 40;

/// Takes what isn't supported out of the first bytes of a file of that length, if it is the first
/// for which the header is refused, and gives the length with which the rest is read.
fn take_out(bytes: &mut [u8; HEAD_LENGTH], length: u64, unsupported: &mut Unsupported) -> u64
    ensures first { (i : ℕ) → i < 32 → slice_index bytes.new i ≡ slice_index bytes.old i }
{
    match header::read(&*bytes, length) {
        Err(HeaderFault::Encryption) => {
            unsupported.encryption = Some(number32(&*bytes, 32));
            put(&mut *bytes, 32, &[0; 4]);
            length
        }
        Err(HeaderFault::Features(features)) => {
            unsupported.features = features;
            let rest = number64(&*bytes, 72) & !features;
            put(&mut *bytes, 72, &rest.to_be_bytes());
            length
        }
        Err(HeaderFault::TableBehindEnd) => {
            // No L1 table is read here, so the header is told as of a file that holds it.
            unsupported.cut_l1 = true;
            put(&mut *bytes, L1_START, &[0; 8]);
            u64::MAX
        }
        _ => length,
    }
}

/// What the first bytes of a file of that length say. Encryption, features that aren't supported and
/// the beginning of an L1 table that passes the file's end are taken out of them; an L1 table that
/// is too long stays.
fn head_of(mut bytes: [u8; HEAD_LENGTH], file: u64) -> Result<Head, HeaderFault>
    ensures { IfOk result (λ head. head.header.size ≡ disk_size bytes) }
{
    let mut unsupported = Unsupported::NONE;
    let length = take_out(&mut bytes, file, &mut unsupported);
    let length = take_out(&mut bytes, length, &mut unsupported);
    let length = take_out(&mut bytes, length, &mut unsupported);
    let header = header::read(&bytes, length)?;
    let taken = l1_length(&bytes);
    if taken > LONGEST_L1 {
        unsupported.long_l1 = Some(taken);
    }
    Ok(Head {
        bytes,
        header,
        unsupported,
    })
}

/// Whether a file that begins so says that its data stand in a file of their own. Only those of
/// version 3 can.
#[tactic(auto, unfolding(imago_qcow2::specs::Header::features_at, imago_qcow2::specs::Header::has_bit))]
fn has_data_file(head: &[u8]) -> bool
    requires { 112 ≤ length head.now }
    ensures { result ≡ has_bit (features_at head.now 72) 2 }
{
    if number32(head, 4) < 3 {
        return false;
    }
    number64(head, 72) / 4 % 2 == 1
}

/// A name that stands in a file, if it does. One without bytes is none.
fn named(alloc: Global, path: &str, name: Option<Vec<u8>>) -> Result<Option<String>, OpenError> {
    match name {
        Some(name) if !name.is_empty() => Ok(Some(text_of(alloc, path, name)?)),
        _ => Ok(None),
    }
}

/// How many bytes a cluster has at least.
const SHORTEST_CLUSTER: u64 = 512;

/// The first cluster of a file.
fn first_cluster<F: HostFile>(
    alloc: Global,
    path: &str,
    file: &FileStorage<F>,
    head: &Head,
) -> Result<Vec<u8>, OpenError>
    ensures read { (bytes : List ℕ) → HasBytes ⟦<FileStorage<F> as Storage>⟧.features
        ⟦<FileStorage<F> as Storage>⟧.bytes bytes file.now
        → IfOk result (λ v. IsReadAt bytes 0 v.items) }
    ensures len { IfOk result (λ v. 512 ≤ length v.items) }
{
    let count = head.header.cluster_size().max(SHORTEST_CLUSTER);
    let mut bytes = vec![in alloc; 0u8; count as usize]?;
    match file.read(alloc, &mut bytes, 0) {
        Ok(()) => Ok(bytes),
        Err(cause) => Err(unread(alloc, path, file, cause)),
    }
}

/// The first cluster of a file as an image of its own, which isn't encrypted and has these features
/// alone: its disk has no bytes, and needs no table.
fn alone_image(alloc: Global, mut bytes: Vec<u8>, features: u64) -> Result<Qcow2<MemStorage>, Error>
    ensures tells { IfOk result (λ d.
        IsTrue (⟦<MemStorage as Storage>⟧.features (storage_in d)).tells_bytes) }
    ensures first { IfOk result (λ d. (i : ℕ) → i < 24
        → slice_index (⟦<MemStorage as Storage>⟧.bytes (storage_in d)) i
        ≡ slice_index bytes.items i) }
{
    put(&mut bytes, 24, &[0; 24]);
    put(&mut bytes, 72, &features.to_be_bytes());
    Qcow2::open_image(alloc, MemStorage::new(bytes), false)
}

/// Refuses a file whose data stand in another one, where no other files are opened.
fn refuse_data_file(
    alloc: Global,
    path: &str,
    is_used: bool,
    others: OtherFiles,
) -> Result<(), OpenError>
    ensures { OnOk result (others ≡ Others.None → is_used ≡ false) }
{
    if others != OtherFiles::None || !is_used {
        return Ok(());
    }
    let fault = HeaderFault::Features(1 << EXTERNAL_DATA);
    Err(OpenError::of_file(alloc, path, Reason::Header(fault)))
}

/// What a file with that first cluster says of the one below it. Where no other files are opened,
/// it may name none.
fn names_below(
    alloc: Global,
    path: &str,
    cluster: Vec<u8>,
    head: &Head,
    others: OtherFiles,
) -> Result<NamesBelow, OpenError>
    ensures { OnOk result (others ≡ Others.None → SaysBacking cluster.items None) }
{
    let features = number64(&head.bytes, 72);
    let first = OpenError::or_image(alloc, path, alone_image(alloc, cluster, features))?;
    refuse_below(alloc, path, &first, others)?;
    let name = OpenError::or_image(alloc, path, first.backing_file(alloc))?;
    let format = OpenError::or_image(alloc, path, first.backing_format(alloc))?;
    let name = named(alloc, path, name)?;
    Ok(NamesBelow {
        path: match &name {
            Some(name) => path_named(alloc, path, name)?,
            None => None,
        },
        name,
        format: named(alloc, path, format)?,
    })
}

/// Where the header extensions in that first cluster say that more stands in the file. Bitmaps
/// count only if the header says that they are in order.
fn places_in(cluster: &[u8], head: &Head) -> Places {
    Places {
        bitmaps: match bitmap_place(cluster, &head.bytes) {
            Some(place) if head.header.has_bitmaps() => Some(place),
            _ => None,
        },
        encryption: encryption_place(cluster, &head.bytes),
    }
}

/// What a file with that first cluster says of the one in which its data stand, and where more
/// stands in it.
fn told_in(
    alloc: Global,
    cluster: &[u8],
    head: &Head,
    is_used: bool,
) -> Result<(DataFile, Places), AllocError> {
    let data_file = data_file_of(alloc, cluster, head, is_used)?;
    Ok((data_file, places_in(cluster, head)))
}

/// What a file with that first cluster says of the one in which its data stand. Only those of
/// version 3 do. What isn't UTF-8 in its name is told as U+FFFD, as by `qemu-img`.
fn data_file_of(
    alloc: Global,
    cluster: &[u8],
    head: &Head,
    is_used: bool,
) -> Result<DataFile, AllocError> {
    let name = match data_name(cluster, &head.bytes) {
        Some((_, name)) if head.header.version() >= 3 => {
            Some(String::from_utf8_lossy(alloc, name)?)
        }
        _ => None,
    };
    Ok(DataFile {
        name,
        is_used,
        is_raw: head.header.has_raw_external_data(),
    })
}

/// The other files that a file names, the one below it and the one in which its data stand, and where
/// more stands in the file itself. Where no other files are opened, it may name none.
fn names_in<F: HostFile>(
    alloc: Global,
    path: &str,
    file: &FileStorage<F>,
    head: &Head,
    others: OtherFiles,
) -> Result<(NamesBelow, DataFile, Places), OpenError>
    ensures { (bytes : List ℕ) → HasBytes ⟦<FileStorage<F> as Storage>⟧.features
        ⟦<FileStorage<F> as Storage>⟧.bytes bytes file.now
        → OnOk result (others ≡ Others.None → NamesNoFile bytes) }
{
    let cluster = first_cluster(alloc, path, file, head)?;
    let is_used = has_data_file(&cluster);
    refuse_data_file(alloc, path, is_used, others)?;
    let (data_file, places) = told_in(alloc, &cluster, head, is_used)?;
    let below = names_below(alloc, path, cluster, head, others)?;
    Ok((below, data_file, places))
}

/// The path that a name stands for which the file of that path has, if it is a file's.
fn path_named(alloc: Global, path: &str, name: &str) -> Result<Option<String>, OpenError> {
    match full_path(alloc, path, name) {
        Ok(path) => Ok(Some(path)),
        Err(OpenError::Memory) => Err(OpenError::Memory),
        Err(_) => Ok(None),
    }
}

/// How many bits a reference count has. In version 2 all have 16.
fn refcount_bits(head: &Head) -> u32 {
    if head.header.version() < 3 {
        return 16;
    }
    1u32.wrapping_shl(number32(&head.bytes, 96))
}

/// The header of a file, and the file's length.
fn read_head<S: Storage>(alloc: Global, path: &str, file: &S) -> Result<(Head, u64), OpenError>
    ensures { (bytes : List ℕ) → HasBytes S.features S.bytes bytes file.now
        → IfOk result (λ r. r.0.header.size ≡ disk_size bytes) }
{
    let length = OpenError::or_image(alloc, path, file.size())?;
    let mut bytes = [0u8; HEAD_LENGTH];
    if let Err(cause) = file.read(alloc, &mut bytes, 0) {
        return Err(OpenError::of_file(alloc, path, Reason::Image(cause)));
    }
    match head_of(bytes, length) {
        Ok(head) => Ok((head, length)),
        Err(fault) => Err(OpenError::of_file(alloc, path, Reason::Header(fault))),
    }
}

/// The snapshots of a file of that length.
fn snapshots_of<S: Storage>(
    alloc: Global,
    file: &S,
    head: &Head,
    length: u64,
) -> Result<Vec<Snapshot>, SnapshotFault> {
    let table = Table {
        start: number64(&head.bytes, 64),
        count: number32(&head.bytes, 60),
        end: length,
    };
    read_snapshots(alloc, file, table)
}

/// The bitmaps of a file of that length, if they can be told: those of which a header extension says
/// where they are.
fn bitmaps_of<S: Storage>(
    alloc: Global,
    file: &S,
    place: Option<BitmapPlace>,
    length: u64,
) -> Result<Option<Vec<Bitmap>>, Error> {
    let Some(place) = place else {
        return Ok(Some(Vec::new(alloc)));
    };
    match read_bitmaps(alloc, file, place, length) {
        Ok(bitmaps) => Ok(bitmaps),
        Err(SnapshotFault::Storage(cause)) => Err(cause),
        Err(SnapshotFault::PastEnd | SnapshotFault::TooLong) => Ok(None),
    }
}

/// What the header of the encryption says, if that is LUKS and can be told.
fn luks_of<S: Storage>(
    alloc: Global,
    file: &S,
    head: &Head,
    place: Option<u64>,
) -> Result<Option<Luks>, Error> {
    match place {
        Some(place) if head.unsupported.encryption == Some(LUKS) => read_luks(alloc, file, place),
        _ => Ok(None),
    }
}

/// What stands in a file of that length besides its header and the names of other files, but for a
/// table of snapshots that passes the end where the L1 table does.
fn listed_in<S: Storage>(
    alloc: Global,
    file: &S,
    head: &mut Head,
    places: Places,
    length: u64,
) -> Result<Listed, SnapshotFault> {
    let snapshots = match snapshots_of(alloc, file, head, length) {
        Err(SnapshotFault::PastEnd) if head.unsupported.cut_l1 => {
            head.unsupported.cut_snapshots = true;
            Vec::new(alloc)
        }
        found => found?,
    };
    Ok(Listed {
        snapshots,
        bitmaps: bitmaps_of(alloc, file, places.bitmaps, length)?,
        luks: luks_of(alloc, file, head, places.encryption)?,
    })
}

/// What was found in the file of that path, or why it can't be told.
fn or_untold<F: HostFile>(
    alloc: Global,
    path: &str,
    file: &FileStorage<F>,
    found: Result<Listed, SnapshotFault>,
) -> Result<Listed, Failure> {
    match found {
        Ok(listed) => Ok(listed),
        Err(SnapshotFault::Storage(cause)) => {
            let refused = OpenError::of_file(alloc, path, Reason::Image(cause));
            Ok(told_by_host(alloc, path, file, Err(refused))?)
        }
        Err(fault) => Err(Failure::of_snapshots(alloc, path, fault)),
    }
}

/// Tells what a qcow2 file is, what it says of the one below it, its snapshots and bitmaps, and how
/// it is encrypted. Where no other files are opened, it may name none.
pub fn report_on_qcow2<'a, H: Host>(
    host: &H,
    path: &str,
    file: &PathStorage<'a, H>,
    others: OtherFiles,
) -> Result<Qcow2Report, Failure>
    ensures size { (bytes : List ℕ) → HasBytes ⟦<PathStorage<'a, H> as Storage>⟧.features
        ⟦<PathStorage<'a, H> as Storage>⟧.bytes bytes file.now
        → IfOk result (λ r. r.header.size ≡ disk_size bytes) }
    ensures alone { (bytes : List ℕ) → HasBytes ⟦<PathStorage<'a, H> as Storage>⟧.features
        ⟦<PathStorage<'a, H> as Storage>⟧.bytes bytes file.now
        → OnOk result (others ≡ Others.None → NamesNoFile bytes) }
{
    let alloc = host.alloc();
    let read = read_head(alloc, path, file);
    let (mut head, length) = told_by_host(alloc, path, file, read)?;
    let header = head.header;
    let (below, data_file, places) = names_in(alloc, path, file, &head, others)?;
    let listed = listed_in(alloc, file, &mut head, places, length);
    let listed = or_untold(alloc, path, file, listed)?;
    Ok(Qcow2Report {
        header,
        unsupported: head.unsupported,
        refcount_bits: refcount_bits(&head),
        below,
        data_file,
        listed,
    })
}

/// The version, as `qemu-img` tells it.
fn compat(header: Header) -> &'static str {
    if header.version() < 3 { "0.10" } else { "1.1" }
}

/// How clusters are compressed, as `qemu-img` tells it.
fn compression(header: Header) -> &'static str {
    match header.compression() {
        Compression::Deflate => "zlib",
        Compression::Zstd => "zstd",
    }
}

/// Prints it as lines.
pub fn print_qcow2<W: Write>(report: &Qcow2Report, output: &mut W) -> io::Result<()> {
    let header = report.header;
    if report.unsupported.encryption.is_some() {
        writeln!(output, "encrypted: yes")?;
    }
    writeln!(output, "cluster_size: {}", header.cluster_size())?;
    print_below(&report.below, output)?;
    print_snapshots(&report.listed.snapshots, output)?;
    writeln!(output, "Format specific information:")?;
    writeln!(output, "    compat: {}", compat(header))?;
    writeln!(output, "    compression type: {}", compression(header))?;
    if header.version() >= 3 {
        writeln!(
            output,
            "    lazy refcounts: {}",
            header.has_lazy_refcounts()
        )?;
    }
    print_bitmaps(&report.listed.bitmaps, output)?;
    writeln!(output, "    refcount bits: {}", report.refcount_bits)?;
    print_data_file(&report.data_file, output)?;
    print_encryption(report.unsupported.encryption, &report.listed.luks, output)?;
    if header.version() >= 3 {
        let unsupported = report.unsupported;
        writeln!(output, "    corrupt: {}", unsupported.has(CORRUPT))?;
        writeln!(
            output,
            "    extended l2: {}",
            unsupported.has(EXTENDED_ENTRIES)
        )?;
    }
    if header.is_dirty() {
        writeln!(output, "cleanly shut down: no")?;
    }
    print_unsupported(report.unsupported, output)
}

/// Prints what is said of the file in which the data stand as lines.
fn print_data_file<W: Write>(data_file: &DataFile, output: &mut W) -> io::Result<()> {
    if let Some(name) = &data_file.name {
        writeln!(output, "    data file: {name:?}")?;
    }
    if data_file.is_used {
        writeln!(output, "    data file raw: {}", data_file.is_raw)?;
    }
    Ok(())
}

/// Why snapshots aren't told of a file whose L1 table passes its end.
const CUT_SNAPSHOTS: &str = "the table of snapshots passes the file's end";

/// Prints why an image can't be opened, each reason in a line.
fn print_unsupported<W: Write>(unsupported: Unsupported, output: &mut W) -> io::Result<()> {
    if unsupported.encryption.is_some() {
        writeln!(output, "can't be opened: {}", HeaderFault::Encryption)?;
    }
    for bit in 0..64u32 {
        if unsupported.has(bit) {
            writeln!(
                output,
                "can't be opened: {}",
                HeaderFault::Features(1 << bit)
            )?;
        }
    }
    if let Some(taken) = unsupported.long_l1 {
        writeln!(output, "can't be opened: {}", Reason::L1TooLong(taken))?;
    }
    if unsupported.cut_l1 {
        writeln!(output, "can't be opened: {}", HeaderFault::TableBehindEnd)?;
    }
    if unsupported.cut_snapshots {
        writeln!(output, "can't be opened: {CUT_SNAPSHOTS}")?;
    }
    Ok(())
}

/// Prints what is said of the file below as lines.
fn print_below<W: Write>(below: &NamesBelow, output: &mut W) -> io::Result<()> {
    if let Some(name) = &below.name {
        write!(output, "backing file: {name:?}")?;
        match &below.path {
            Some(path) if path != name => writeln!(output, " (actual path: {path:?})")?,
            _ => writeln!(output)?,
        }
    }
    if let Some(format) = &below.format {
        writeln!(output, "backing file format: {format:?}")?;
    }
    Ok(())
}

/// Prints it as members of a JSON object.
pub fn print_qcow2_json<W: Write>(
    alloc: Global,
    report: &Qcow2Report,
    output: &mut W,
) -> io::Result<()> {
    let header = report.header;
    write!(output, ", \"cluster-size\": {}", header.cluster_size())?;
    print_below_json(alloc, &report.below, output)?;
    print_snapshots_json(alloc, &report.listed.snapshots, output)?;
    write!(output, ", \"dirty-flag\": {}", header.is_dirty())?;
    if report.unsupported.encryption.is_some() {
        write!(output, ", \"encrypted\": true")?;
    }
    write!(
        output,
        ", \"format-specific\": {{ \"type\": \"qcow2\", \"data\": {{ \"compat\": \"{}\", \
        \"compression-type\": \"{}\", \"refcount-bits\": {}",
        compat(header),
        compression(header),
        report.refcount_bits
    )?;
    print_data_file_json(alloc, &report.data_file, output)?;
    print_bitmaps_json(alloc, &report.listed.bitmaps, output)?;
    let encryption = report.unsupported.encryption;
    print_encryption_json(alloc, encryption, &report.listed.luks, output)?;
    if header.version() >= 3 {
        print_features_json(report, output)?;
    }
    write!(output, " }} }}")?;
    print_unsupported_json(alloc, report.unsupported, output)
}

/// Prints what is said of the file in which the data stand as members of a JSON object.
fn print_data_file_json<W: Write>(
    alloc: Global,
    data_file: &DataFile,
    output: &mut W,
) -> io::Result<()> {
    if let Some(name) = &data_file.name {
        write!(output, ", \"data-file\": {}", quoted(alloc, name)?)?;
    }
    if data_file.is_used {
        write!(output, ", \"data-file-raw\": {}", data_file.is_raw)?;
    }
    Ok(())
}

/// Prints the features of version 3 as members of a JSON object.
fn print_features_json<W: Write>(report: &Qcow2Report, output: &mut W) -> io::Result<()> {
    write!(
        output,
        ", \"lazy-refcounts\": {}, \"corrupt\": {}, \"extended-l2\": {}",
        report.header.has_lazy_refcounts(),
        report.unsupported.has(CORRUPT),
        report.unsupported.has(EXTENDED_ENTRIES)
    )
}

/// Prints why an image can't be opened as a member of a JSON object, if it can't.
fn print_unsupported_json<W: Write>(
    alloc: Global,
    unsupported: Unsupported,
    output: &mut W,
) -> io::Result<()> {
    let mut is_first = true;
    if unsupported.encryption.is_some() {
        print_reason(alloc, &mut is_first, HeaderFault::Encryption, output)?;
    }
    for bit in 0..64u32 {
        if unsupported.has(bit) {
            print_reason(
                alloc,
                &mut is_first,
                HeaderFault::Features(1 << bit),
                output,
            )?;
        }
    }
    if let Some(length) = unsupported.long_l1 {
        print_reason(alloc, &mut is_first, Reason::L1TooLong(length), output)?;
    }
    if unsupported.cut_l1 {
        print_reason(alloc, &mut is_first, HeaderFault::TableBehindEnd, output)?;
    }
    if unsupported.cut_snapshots {
        print_reason(alloc, &mut is_first, CUT_SNAPSHOTS, output)?;
    }
    if !is_first {
        write!(output, "]")?;
    }
    Ok(())
}

/// Prints a reason as a JSON string: behind the member's name and `[` if it is the first one, else
/// behind a comma.
fn print_reason<R: Display + Drop, W: Write>(
    alloc: Global,
    is_first: &mut bool,
    reason: R,
    output: &mut W,
) -> io::Result<()> {
    let start = if *is_first {
        ", \"unsupported\": ["
    } else {
        ", "
    };
    let text = format!(in alloc; "{reason}")?;
    *is_first = false;
    write!(output, "{start}{}", quoted(alloc, &text)?)
}

/// Prints what is said of the file below as members of a JSON object.
fn print_below_json<W: Write>(alloc: Global, below: &NamesBelow, output: &mut W) -> io::Result<()> {
    if let Some(name) = &below.name {
        write!(output, ", \"backing-filename\": {}", quoted(alloc, name)?)?;
    }
    if let Some(path) = &below.path {
        let path = quoted(alloc, path)?;
        write!(output, ", \"full-backing-filename\": {path}")?;
    }
    if let Some(format) = &below.format {
        let format = quoted(alloc, format)?;
        write!(output, ", \"backing-filename-format\": {format}")?;
    }
    Ok(())
}

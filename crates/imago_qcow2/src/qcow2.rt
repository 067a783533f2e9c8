// SPDX-License-Identifier: MIT
//! The driver of qcow2 images.
ghost use Rattle.std.specs.Prelude.{◌≡◌, ℕ, ◌+◌, ◌-◌, ◌*◌, ◌/◌, ◌%◌, ◌^◌, ◌<◌, ◌≤◌, ◌⊎◌, length};
ghost use Rattle.std.specs.Prelude.{List, Some, true, false, IsErrOf, IfErr, IfOk, OnOk, IsTrue};
ghost use Rattle.std.specs.Prelude.{Err, Ok, None, take};
ghost use Rattle.std.proofs.Props.{props};
ghost use Rattle.imago_storage.specs.declared.error.Error.{Error};
ghost use Rattle.imago_storage.specs.Error.{IsExtRefusal};
ghost use Rattle.imago_drivers.specs.Commit.{IsCommit, IsCancel};
ghost use Rattle.imago_drivers.specs.Mapping.{Names};
ghost use Rattle.imago_drivers.specs.Place.{Refused, HasValues, own_values};
ghost use Rattle.imago_drivers.specs.Reasons.{allowed};
ghost use Rattle.imago_qcow2.specs.Absent.{IsAbsentIndex};
ghost use Rattle.imago_qcow2.specs.Entry.{cluster_length, cluster_of, disk_size};
ghost use Rattle.imago_qcow2.specs.Fault.{by_fault};
ghost use Rattle.imago_qcow2.specs.Header.{header_of, NamesBacking};
ghost use Rattle.imago_qcow2.specs.Limit.{IsWithin, loaded_length, HasTablesWithin};
ghost use Rattle.imago_qcow2.specs.Limit.{TablesNeedMore};
ghost use Rattle.imago_qcow2.specs.Tables.{IsHeadRead, IsAccepted, IsLoadedImage};
ghost use Rattle.imago_qcow2.specs.Tables.{header_cluster, loaded_cluster, loaded_of, loaded_place};
ghost use Rattle.imago_qcow2.specs.Tables.{loaded_disk};
ghost use Rattle.imago_qcow2.specs.Backing.{IsBackingName, IsBackingNameRead, IsFormatName};
ghost use Rattle.imago_qcow2.specs.Backing.{IsFormatRefusal, extensions_end, format_of};
ghost use Rattle.imago_qcow2.specs.Opening.{read_reasons, header_reasons, probe_of};
ghost use Rattle.imago_qcow2.specs.Opening.{IsOpened, IsRefusedOpening, IsRefusedOverlay};
ghost use Rattle.imago_qcow2.specs.Opening.{IsRefusedAlone};
ghost use Rattle.imago_qcow2.specs.Opening.{probe_reasons_of};
ghost use Rattle.imago_qcow2.specs.Qcow2.{loaded_view, NamesFirst, StopsAt};
ghost use Rattle.imago_qcow2.specs.Qcow2Calls.{qcow2_calls, IsClusterRead, IsFirstRead};
ghost use Rattle.imago_qcow2.specs.Qcow2Calls.{IsClusterFault, IsFaultUnknown};
ghost use Rattle.imago_qcow2.specs.Qcow2Calls.{IsSpecialRead};
ghost use Rattle.imago_qcow2.specs.Qcow2Laws.{qcow2_lawful, qcow2_causes};

use crate::absent::AbsentRuns;
use crate::backing::find_format;
use crate::cluster::ClusterSize;
use crate::compressed::{fault_of, unpack};
use crate::entry::{GuestCluster, cluster_in, says_stored};
pub use crate::fault::OpenFault;
use crate::header::{self, Compression, HEAD_LENGTH, Header, MAGIC};
use crate::map::{goes_on, mapping_of, stored_from};
use crate::memory::NothingShared;
pub use crate::memory::TableMemory;
use crate::number::number32;
pub use crate::qcow2_builder::Qcow2OpenBuilder;
use crate::table::{HeldTable, Tables, entry_at, read_bytes, read_tables};
use imago_drivers::drivers::{
    Format, FormatDriverInstance, PreallocateMode, PreparedDataMapping, ShallowMapping, Ticket,
};
use imago_drivers::layer::LowerLayer;
use imago_inflate::fault::InflateError;
use imago_storage::error::Error;
use imago_storage::ext::StorageExt;
use imago_storage::storage::Storage;
use std::alloc::Global;
use std::fmt::{self, Display, Formatter, Write};

/// The disk of a qcow2 file. It can't be written to.
///
/// It follows from the bytes of the file alone, and from the layer below where a guest cluster has
/// no data. The header and the tables are read once, or shared, when the image is opened; each L2
/// table is kept once, also where several L1 entries name it.
///
/// Compressed clusters are mapped as special. One that is deflated is decoded whenever a byte of it
/// is read: with memory for its stream, of two clusters at most, and for a cluster unless all of it
/// is read. A read is [`Error::InvalidData`] where a stream of its range is faulty, and
/// [`Error::Unsupported`] where clusters are compressed otherwise.
#[derive(Drop)]
pub struct Qcow2<S: Storage> {
    storage: S,
    pub(crate) header: Header,
    pub(crate) cluster: ClusterSize,
    pub(crate) tables: Tables,
    pub(crate) absent: AbsentRuns,
    ghost cluster_is: { cluster.length ≡ header_cluster header },
    ghost fits: { header.size < 2 ^ 64 },
    ghost covers: { header.size ≤ length tables.l1.items
        * (cluster.length / 8 * cluster.length) },
    ghost loaded: { ∥ IsLoadedImage (S.features storage) (S.bytes storage) header tables ∥₁ },
    ghost absent_runs: { IsAbsentIndex (loaded_of header cluster.length tables) absent } by { Prim.hlevel props },
}

/// What the header of a storage of that length says.
fn load_header<S: Storage>(storage: &S, alloc: Global, file: u64) -> Result<Header, Error>
    requires { file ≡ length (S.bytes storage.now) }
    ensures header { IfOk result
        (IsAccepted (S.features storage.now) (S.bytes storage.now)) }
    ensures refusals { IfErr result
        (λ e. ((head : List ℕ) × IsHeadRead (S.features storage.now) (S.bytes storage.now) head
        × (header_of head (length (S.bytes storage.now)) ≡ Err e))
        ⊎ allowed (header_reasons (S.features storage.now) (S.bytes storage.now)) e) }
{
    let mut head = [0u8; HEAD_LENGTH];
    storage.read(alloc, &mut head, 0)?;
    match header::read(&head, file) {
        Ok(header) => Ok(header),
        Err(fault) => Err(fault.error()),
    }
}

/// Whether a storage has the magic number, and a version that is known.
#[tactic(auto, unfolding(crate::specs::Opening::probe_of))]
fn is_recognized(head: &[u8]) -> bool
    requires { 8 ≤ length head.now }
    ensures { result ≡ probe_of head.now }
{
    let version = number32(head, 4);
    number32(head, 0) == MAGIC && (version == 2 || version == 3)
}

impl<S: Storage> Qcow2<S> {
    ghost use Rattle.imago_qcow2.specs.Qcow2Image.{storage_in, header_in, loaded_in};

    /// Opens the image whose file the storage is. The caller lays the image of its backing file
    /// below, if it names one: with nothing below, guest clusters without data read as zeroes.
    ///
    /// [`Error::Unsupported`] is an image that is to be written, before anything else. Then the
    /// header is looked at. The first of these is the answer: [`Error::InvalidData`], the file is
    /// no qcow2 image; [`Error::Unsupported`], it has another version than 2 and 3, is encrypted,
    /// or needs what isn't offered, such as an external data file, extended L2 entries, or a
    /// repair; [`Error::InvalidData`], a number of the header is out of the format's bounds;
    /// [`Error::Unsupported`], its clusters are compressed by neither deflate nor Zstandard;
    /// [`Error::InvalidData`], the feature for the latter doesn't fit that, or the L1 table is too
    /// small for the disk, off a cluster's bounds, or not wholly in the file. [`Error::Device`],
    /// [`Error::Memory`] and [`Error::WrapAround`] are passed on from the storage.
    /// [`Error::Memory`] is also no room for the tables.
    pub fn open_image(alloc: Global, storage: S, writable: bool) -> Result<Self, Error>
        ensures read_only { writable ≡ true → result ≡ Err Error.Unsupported }
        ensures opened { IfOk result
            (λ d. (storage_in d ≡ «storage»)
            × IsOpened (S.features storage) (S.bytes storage) (header_in d)) }
        ensures refused { writable ≡ false
            → IfErr result (IsRefusedOpening (S.features storage) (S.bytes storage)) }
    {
        if writable {
            return Err(Error::Unsupported);
        }
        Qcow2::open_read_only(alloc, storage, &NothingShared, true)
    }

    /// Opens the image as [`open_image`](Self::open_image) does, for reading only, and shares the
    /// L2 tables that `memory` has: they aren't read, and no memory is taken for their bytes.
    pub fn open_sharing<M: TableMemory<S>>(
        alloc: Global,
        storage: S,
        memory: &M,
    ) -> Result<Self, Error>
        ensures opened { IfOk result
            (λ d. (storage_in d ≡ «storage»)
            × IsOpened (S.features storage) (S.bytes storage) (header_in d)) }
        ensures refused { IfErr result (IsRefusedOpening (S.features storage) (S.bytes storage)) }
    {
        Qcow2::open_read_only(alloc, storage, memory, true)
    }

    /// Opens the image whose file the storage is, for reading only, as
    /// [`open_image`](Self::open_image) does, if its tables have at most so many bytes: 8 for each
    /// entry of the L1 table that the disk needs, and a cluster for each L2 table that these name,
    /// counted once.
    ///
    /// [`OpenFault::TablesTooLarge`] is an image whose tables have more. They are counted before
    /// the first L2 table is read, and before memory is taken for its bytes. [`OpenFault::Driver`]
    /// is what [`open_image`](Self::open_image) would be refused for.
    pub fn open_within(alloc: Global, storage: S, most_tables: u64) -> Result<Self, OpenFault>
        ensures opened { IfOk result
            (λ d. (storage_in d ≡ «storage»)
            × IsOpened (S.features storage) (S.bytes storage) (header_in d)) }
        ensures within { IfOk result (λ d. loaded_length (loaded_in d) ≤ most_tables) }
        ensures told { IsTrue (S.features storage).tells_bytes
            → OnOk result (HasTablesWithin (Some most_tables) (S.bytes storage)) }
        ensures refused { IfErr result
            (by_fault (IsRefusedOpening (S.features storage) (S.bytes storage))
            (TablesNeedMore (S.features storage) (S.bytes storage) (Some most_tables))) }
    {
        Qcow2::open_limited(alloc, storage, &NothingShared, true, Some(most_tables))
    }

    /// Opens the image. One that names a backing file is unsupported, unless its caller lays that
    /// below.
    pub(crate) fn open_read_only<M: TableMemory<S>>(
        alloc: Global,
        storage: S,
        memory: &M,
        backing_laid: bool,
    ) -> Result<Self, Error>
        ensures opened { IfOk result
            (λ d. (storage_in d ≡ «storage»)
            × IsOpened (S.features storage) (S.bytes storage) (header_in d)
            × (backing_laid ≡ false → NamesBacking (header_in d) → ⊥)) }
        ensures refused { IfErr result
            (λ e. IsRefusedOpening (S.features storage) (S.bytes storage) e
            ⊎ ((backing_laid ≡ false)
            × IsRefusedOverlay (S.features storage) (S.bytes storage) e)) }
        ensures alone { backing_laid ≡ false
            → IfErr result (IsRefusedAlone (S.features storage) (S.bytes storage)) }
    {
        match Qcow2::open_limited(alloc, storage, memory, backing_laid, None) {
            Ok(image) => Ok(image),
            Err(OpenFault::Driver(error)) => Err(error),
            Err(OpenFault::TablesTooLarge) => unreachable!(),
        }
    }

    /// Opens the image, if its tables have at most so many bytes, where that is limited. One that
    /// names a backing file is unsupported, unless its caller lays that below.
    fn open_limited<M: TableMemory<S>>(
        alloc: Global,
        storage: S,
        memory: &M,
        backing_laid: bool,
        most_tables: Option<u64>,
    ) -> Result<Self, OpenFault>
        ensures opened { IfOk result
            (λ d. (storage_in d ≡ «storage»)
            × IsOpened (S.features storage) (S.bytes storage) (header_in d)
            × (backing_laid ≡ false → NamesBacking (header_in d) → ⊥)) }
        ensures within { IfOk result (λ d. IsWithin most_tables (loaded_length (loaded_in d))) }
        ensures told { IsTrue (S.features storage).tells_bytes
            → OnOk result (HasTablesWithin most_tables (S.bytes storage)) }
        ensures refused { IfErr result
            (by_fault
            (λ e. IsRefusedOpening (S.features storage) (S.bytes storage) e
            ⊎ ((backing_laid ≡ false)
            × IsRefusedOverlay (S.features storage) (S.bytes storage) e))
            (TablesNeedMore (S.features storage) (S.bytes storage) most_tables)) }
        ensures alone { backing_laid ≡ false → IfErr result
            (by_fault (IsRefusedAlone (S.features storage) (S.bytes storage))
            (TablesNeedMore (S.features storage) (S.bytes storage) most_tables)) }
    {
        let file = storage.size()?;
        let header = load_header(&storage, alloc, file)?;
        if !backing_laid && header.names_backing() {
            return Err(OpenFault::Driver(Error::Unsupported));
        }
        let cluster = ClusterSize::of_length(header.cluster_size);
        let count = header.size.div_ceil(cluster.length / 8 * cluster.length);
        let tables = read_tables(
            &storage,
            memory,
            alloc,
            header.l1_start,
            count,
            cluster.length,
            file,
            most_tables,
        )?;
        let absent = AbsentRuns::new(alloc, &tables, cluster.length / 8)?;
        Ok(Qcow2 {
            storage,
            header,
            cluster,
            tables,
            absent,
        })
    }

    /// What the header says.
    pub fn header(&self) -> Header
        ensures header { result ≡ header_in self.now }
        ensures cluster { 512 ≤ result.cluster_size }
    {
        self.header
    }

    /// What the guest cluster at that offset of the disk is, in bytes, as its entry says. None is
    /// an offset that isn't one of the disk.
    pub fn guest_cluster(&self, offset: u64) -> Option<GuestCluster>
        ensures inside { offset < (header_in self.now).size
            → result
            ≡ Some (loaded_cluster (loaded_in self.now) (offset / (loaded_in self.now).cluster)) }
        ensures past { (header_in self.now).size ≤ offset → result ≡ None }
        ensures told { let bytes = S.bytes (storage_in self.now) in
            IsTrue (S.features (storage_in self.now)).tells_bytes → offset < disk_size bytes
            → result ≡ Some (cluster_of bytes (offset / cluster_length bytes)) }
    {
        if offset >= self.header.size {
            return None;
        }
        Some(self.cluster_at(offset).0)
    }

    /// Why the compressed cluster at that offset of the disk can't be decoded. None is one that
    /// can, a guest cluster that isn't compressed, and an offset that isn't one of the disk. The
    /// cluster is decoded, with memory for it and for its stream.
    ///
    /// [`Error::Unsupported`] is a cluster that is compressed otherwise than by deflate, and
    /// [`Error::Memory`] also no room for these. What the storage is refused for is passed on.
    pub fn stream_fault(&self, alloc: Global, offset: u64) -> Result<Option<InflateError>, Error>
        ensures inside { offset < (header_in self.now).size
            → IfOk result
            (IsClusterFault (S.features (storage_in self.now)) (S.bytes (storage_in self.now))
            (loaded_in self.now).cluster
            (loaded_cluster (loaded_in self.now) (offset / (loaded_in self.now).cluster))) }
        ensures past { (header_in self.now).size ≤ offset → result ≡ Ok None }
        ensures refusals { IfErr result
            (IsFaultUnknown (S.features (storage_in self.now)) (loaded_in self.now).compression
            (loaded_cluster (loaded_in self.now) (offset / (loaded_in self.now).cluster))) }
    {
        if offset >= self.header.size {
            return Ok(None);
        }
        let (cluster, _) = self.cluster_at(offset);
        let Some((at, count)) = cluster.stream() else {
            return Ok(None);
        };
        if self.header.compression == Compression::Zstd {
            return Err(Error::Unsupported);
        }
        let stream = read_bytes(&self.storage, alloc, at, count)?;
        fault_of(alloc, &stream, self.cluster.length)
    }

    /// The name of the backing file, as it stands in the file, where there is one. It is in the
    /// caller's hands to open it, and to lay its image below. [`Error::Memory`] is no room for the
    /// name; what the storage is refused for is passed on.
    pub fn backing_file(&self, alloc: Global) -> Result<Option<Vec<u8>>, Error>
        ensures name { IsTrue (S.features (storage_in self.now)).tells_bytes
            → IfOk result (IsBackingName (S.bytes (storage_in self.now))) }
        ensures read { IfOk result
            (IsBackingNameRead (S.features (storage_in self.now)) (S.bytes (storage_in self.now))
            (header_in self.now)) }
        ensures refusals { IfErr result
            (allowed
            (read_reasons (S.features (storage_in self.now)) (header_in self.now).name_start
            (header_in self.now).name_length)) }
    {
        if self.header.name_start == 0 {
            return Ok(None);
        }
        let count = self.header.name_length as u64;
        Ok(Some(read_bytes(&self.storage, alloc, self.header.name_start, count)?))
    }

    /// The name of the backing file's format, as the last header extension for it has it, where
    /// there is one.
    ///
    /// [`Error::InvalidData`] is a header extension that passes the first cluster, or the begin of
    /// the backing file's name; [`Error::Memory`] no room for the name. What the storage is refused
    /// for is passed on.
    pub fn backing_format(&self, alloc: Global) -> Result<Option<Vec<u8>>, Error>
        ensures name { IsTrue (S.features (storage_in self.now)).tells_bytes
            → IfOk result (IsFormatName (S.bytes (storage_in self.now))) }
        ensures refusals { IfErr result
            (IsFormatRefusal (S.features (storage_in self.now))
            (header_cluster (header_in self.now)) (format_of (S.bytes (storage_in self.now)))) }
    {
        let end = self.extensions_end();
        let found = find_format(&self.storage, alloc, self.header.own_length as u64, end)?;
        let Some((at, count)) = found else {
            return Ok(None);
        };
        Ok(Some(read_bytes(&self.storage, alloc, at, count)?))
    }

    /// Where header extensions end in the file, in bytes.
    fn extensions_end(&self) -> u64
        ensures value { IsTrue (S.features self.now.storage).tells_bytes
            → result ≡ extensions_end (S.bytes self.now.storage) }
        ensures inside { result ≤ self.now.cluster.length }
    {
        if self.header.name_start == 0 {
            return self.cluster.length;
        }
        self.cluster.length.min(self.header.name_start)
    }

    /// The index of the L1 entry for that offset of the disk.
    fn l1_index(&self, offset: u64) -> usize
        requires { offset < self.now.header.size }
        ensures value { result ≡ offset / (self.now.cluster.length / 8 * self.now.cluster.length) }
        ensures within { result < length self.now.tables.l1.items }
    {
        self.cluster.l1_index(offset) as usize
    }

    /// What the guest cluster at that offset of the disk is, and how many bytes from there on stand
    /// in such guest clusters: the rest of its own, or, where its L2 table is absent or invalid,
    /// the rest of those that this table would have been for.
    fn cluster_at(&self, offset: u64) -> (GuestCluster, u64)
        requires { offset < self.now.header.size }
        ensures same { (i : ℕ)
            → i < result.1
            → loaded_cluster (loaded_in self.now) ((offset + i) / self.now.cluster.length)
            ≡ result.0 }
        ensures some { 0 < result.1 }
        ensures stored { (at : ℕ)
            → result.0 ≡ GuestCluster.Stored at
            → (at < 2 ^ 56)
            × (result.1 ≡ self.now.cluster.length - offset % self.now.cluster.length) }
        ensures packed { (at n : ℕ)
            → result.0 ≡ GuestCluster.Compressed at n
            → result.1 ≡ self.now.cluster.length - offset % self.now.cluster.length }
    {
        let cluster = self.cluster;
        match self.tables.l1[self.l1_index(offset)] {
            HeldTable::Absent => (GuestCluster::Absent, cluster.left_of_table(offset)),
            HeldTable::Loaded(number) => {
                let entry = entry_at(&self.tables.l2, number, cluster.l2_index(offset));
                (
                    cluster_in(self.header.version, cluster, entry),
                    cluster.length - cluster.rest(offset),
                )
            }
            HeldTable::Invalid => (GuestCluster::Invalid, cluster.left_of_table(offset)),
        }
    }

    /// How many bytes from that offset of the disk on are known to stand in absent guest clusters.
    fn absent_at(&self, offset: u64) -> u64
        requires { offset < self.now.header.size }
        ensures { (i : ℕ)
            → i < result
            → loaded_cluster (loaded_in self.now) ((offset + i) / self.now.cluster.length)
            ≡ GuestCluster.Absent }
    {
        let cluster = self.cluster;
        let table = self.l1_index(offset);
        let index = cluster.l2_index(offset);
        let count = self
            .absent
            .count_from(&self.tables, table, index, cluster.entries());
        count
            .saturating_mul(cluster.length)
            .saturating_sub(cluster.rest(offset))
    }

    /// What the guest cluster at that offset of the disk is, and how many bytes from there on stand
    /// in such guest clusters: of absent ones as many as are known.
    pub(crate) fn run_at(&self, offset: u64) -> (GuestCluster, u64)
        requires { offset < self.now.header.size }
        ensures same { (i : ℕ)
            → i < result.1
            → loaded_cluster (loaded_in self.now) ((offset + i) / self.now.cluster.length)
            ≡ result.0 }
        ensures some { 0 < result.1 }
        ensures stored { (at : ℕ)
            → result.0 ≡ GuestCluster.Stored at
            → (at < 2 ^ 56)
            × (result.1 ≡ self.now.cluster.length - offset % self.now.cluster.length) }
        ensures packed { (at n : ℕ)
            → result.0 ≡ GuestCluster.Compressed at n
            → result.1 ≡ self.now.cluster.length - offset % self.now.cluster.length }
    {
        let (cluster, same) = self.cluster_at(offset);
        match cluster {
            GuestCluster::Absent => (cluster, same.max(self.absent_at(offset))),
            _ => (cluster, same),
        }
    }

    /// The mapping of the places from that offset of the disk on, and of how many it is known: at
    /// least one.
    fn part_at(&self, offset: u64) -> Result<(ShallowMapping, u64), Error>
        requires { offset < self.now.header.size }
        ensures names { IfOk result
            (λ r. (i : ℕ) → i < r.1
            → Names r.0 i
            (loaded_place (S.features self.now.storage) (loaded_in self.now)
            (S.bytes self.now.storage) (offset + i))) }
        ensures some { IfOk result (λ r. 0 < r.1) }
        ensures inside { IfOk result (λ r. offset + r.1 ≤ self.now.header.size) }
        ensures only { IfErr result (λ e. e ≡ Error.InvalidData) }
        ensures refused { IfErr result
            (λ e. loaded_place (S.features self.now.storage) (loaded_in self.now)
            (S.bytes self.now.storage) offset ≡ Refused e) }
    {
        let (cluster, same) = self.run_at(offset);
        let mapping = mapping_of(cluster, self.cluster.rest(offset), offset)?;
        Ok((mapping, same.min(self.header.size - offset)))
    }

    /// Whether the guest cluster at that offset of the disk stands at that offset of the file.
    fn is_stored_at(&self, offset: u64, at: u64) -> bool
        requires { offset < self.now.header.size }
        ensures yes { result ≡ true
            → loaded_cluster (loaded_in self.now) (offset / self.now.cluster.length)
            ≡ GuestCluster.Stored at }
        ensures no { result ≡ false
            → loaded_cluster (loaded_in self.now) (offset / self.now.cluster.length)
            ≡ GuestCluster.Stored at
            → ⊥ }
    {
        match self.tables.l1[self.l1_index(offset)] {
            HeldTable::Loaded(number) => {
                let entry = entry_at(&self.tables.l2, number, self.cluster.l2_index(offset));
                says_stored(self.cluster, entry, at)
            }
            HeldTable::Absent | HeldTable::Invalid => false,
        }
    }

    /// How many bytes from that offset of the disk on are known to stand from that offset of the
    /// file on: none, where the first one doesn't.
    fn stored_part(&self, offset: u64, at: u64) -> u64
        requires { offset < self.now.header.size }
        ensures names { NamesFirst
            (loaded_place (S.features self.now.storage) (loaded_in self.now)
            (S.bytes self.now.storage))
            offset (ShallowMapping.Raw 0 at false) result }
        ensures inside { offset + result ≤ self.now.header.size }
        ensures none { result ≡ 0
            → Names (ShallowMapping.Raw 0 at false) 0
            (loaded_place (S.features self.now.storage) (loaded_in self.now)
            (S.bytes self.now.storage) offset)
            → ⊥ }
    {
        let rest = self.cluster.rest(offset);
        if at < rest || !self.is_stored_at(offset, at - rest) {
            return 0;
        }
        (self.cluster.length - rest).min(self.header.size - offset)
    }

    /// How many places from that offset of the disk on stand from that offset of the file on, up to
    /// `most` of them. It is known of the first ones.
    fn longest_stored(&self, at: u64, offset: u64, known: u64, most: u64) -> u64
        requires names { NamesFirst
            (loaded_place (S.features self.now.storage) (loaded_in self.now)
            (S.bytes self.now.storage))
            offset (ShallowMapping.Raw 0 at false) known }
        requires known { offset + known ≤ self.now.header.size }
        requires most { offset + most ≤ self.now.header.size }
        requires reach { at + most < 2 ^ 64 }
        ensures names { NamesFirst
            (loaded_place (S.features self.now.storage) (loaded_in self.now)
            (S.bytes self.now.storage))
            offset (ShallowMapping.Raw 0 at false) result }
        ensures most { result ≤ most }
        ensures ends { StopsAt
            (loaded_place (S.features self.now.storage) (loaded_in self.now)
            (S.bytes self.now.storage))
            offset (ShallowMapping.Raw 0 at false) most result }
    {
        let mut count = known;
        while count < most {
            let more = self.stored_part(offset + count, at + count);
            if more == 0 {
                return count;
            }
            count += more;
        }
        most
    }

    /// The same of any mapping.
    fn longest_of_any(&self, mapping: ShallowMapping, offset: u64, known: u64, most: u64) -> u64
        requires names { NamesFirst
            (loaded_place (S.features self.now.storage) (loaded_in self.now)
            (S.bytes self.now.storage))
            offset mapping known }
        requires known { offset + known ≤ self.now.header.size }
        requires most { offset + most ≤ self.now.header.size }
        ensures names { NamesFirst
            (loaded_place (S.features self.now.storage) (loaded_in self.now)
            (S.bytes self.now.storage))
            offset mapping result }
        ensures most { result ≤ most }
        ensures ends { StopsAt
            (loaded_place (S.features self.now.storage) (loaded_in self.now)
            (S.bytes self.now.storage))
            offset mapping most result }
    {
        let mut count = known;
        while count < most {
            let Ok((next, more)) = self.part_at(offset + count) else {
                return count;
            };
            if !goes_on(mapping, count, next) {
                return count;
            }
            count += more;
        }
        most
    }

    /// How many places from that offset of the disk on the mapping names, up to `most` of them. It
    /// is known of the first ones. Its loops aren't inlined: else a mapping of a driver of another
    /// format pays for their registers.
    #[inline(never)]
    fn longest(&self, mapping: ShallowMapping, offset: u64, known: u64, most: u64) -> u64
        requires names { (i : ℕ)
            → i < known
            → Names mapping i
            (loaded_place (S.features self.now.storage) (loaded_in self.now)
            (S.bytes self.now.storage) (offset + i)) }
        requires known { offset + known ≤ self.now.header.size }
        requires most { offset + most ≤ self.now.header.size }
        ensures names { (i : ℕ)
            → i < result
            → Names mapping i
            (loaded_place (S.features self.now.storage) (loaded_in self.now)
            (S.bytes self.now.storage) (offset + i)) }
        ensures most { result ≤ most }
        ensures ends { (result ≡ most)
            ⊎ (Names mapping result
            (loaded_place (S.features self.now.storage) (loaded_in self.now)
            (S.bytes self.now.storage) (offset + result))
            → ⊥) }
    {
        match stored_from(mapping, most) {
            Some(at) => self.longest_stored(at, offset, known, most),
            None => self.longest_of_any(mapping, offset, known, most),
        }
    }

    /// Whether compressed clusters are deflated, and a range that isn't empty lies in the disk.
    fn may_unpack(&self, offset: u64, count: u64) -> bool
        requires { 0 < count }
        ensures yes { result ≡ true
            → (self.now.header.compression ≡ Compression.Deflate)
            × (offset + count ≤ self.now.header.size) }
        ensures no { result ≡ false
            → (self.now.header.compression ≡ Compression.Zstd)
            ⊎ (self.now.header.size < offset + count) }
    {
        if self.header.compression == Compression::Zstd || offset > self.header.size {
            return false;
        }
        count <= self.header.size - offset
    }

    /// Fills the output with bytes of one guest cluster, which has to be compressed.
    fn unpack_part(&self, alloc: Global, out: &mut [u8], offset: u64) -> Result<(), Error>
        requires deflated { self.now.header.compression ≡ Compression.Deflate }
        requires some { 0 < length out.old }
        requires inside { offset + length out.old ≤ self.now.header.size }
        requires within { length out.old
            ≤ self.now.cluster.length - offset % self.now.cluster.length }
        ensures bytes { IsTrue (S.features self.now.storage).tells_bytes
            → OnOk result
            (HasValues
            (own_values
            (loaded_place (S.features self.now.storage) (loaded_in self.now)
            (S.bytes self.now.storage)))
            offset out.new) }
        ensures answered { IsClusterRead (S.features self.now.storage)
            (S.bytes self.now.storage) self.now.cluster.length
            (loaded_cluster (loaded_in self.now) (offset / self.now.cluster.length)) result }
    {
        let (cluster, _) = self.cluster_at(offset);
        let Some((at, count)) = cluster.stream() else {
            return Err(Error::Unsupported);
        };
        let stream = read_bytes(&self.storage, alloc, at, count)?;
        unpack(
            alloc,
            &stream,
            self.cluster.length,
            self.cluster.rest(offset),
            out,
        )
    }

    /// Fills the first bytes of the output with those of the guest cluster at that offset of the
    /// disk, and answers how many these are.
    fn unpack_next(&self, alloc: Global, out: &mut [u8], offset: u64) -> Result<usize, Error>
        requires deflated { self.now.header.compression ≡ Compression.Deflate }
        requires some { 0 < length out.old }
        requires inside { offset + length out.old ≤ self.now.header.size }
        ensures some { IfOk result (λ n. (0 < n) × (n ≤ length out.new)) }
        ensures bytes { IsTrue (S.features self.now.storage).tells_bytes
            → IfOk result
            (λ n. HasValues
            (own_values
            (loaded_place (S.features self.now.storage) (loaded_in self.now)
            (S.bytes self.now.storage)))
            offset (take n out.new)) }
        ensures answered { IsFirstRead (S.features self.now.storage)
            (S.bytes self.now.storage) (loaded_disk (loaded_in self.now)) offset result }
    {
        let left = (self.cluster.length - self.cluster.rest(offset)) as usize;
        let count = left.min(out.len());
        self.unpack_part(alloc, &mut out[..count], offset)?;
        Ok(count)
    }

    /// Fills the output with bytes of compressed guest clusters, from that offset of the disk on.
    fn unpack_range(&self, alloc: Global, out: &mut [u8], offset: u64) -> Result<(), Error>
        requires deflated { self.now.header.compression ≡ Compression.Deflate }
        requires inside { offset + length out.old ≤ self.now.header.size }
        ensures bytes { IsTrue (S.features self.now.storage).tells_bytes
            → OnOk result
            (HasValues
            (own_values
            (loaded_place (S.features self.now.storage) (loaded_in self.now)
            (S.bytes self.now.storage)))
            offset out.new) }
        ensures answered { IsSpecialRead (S.features self.now.storage)
            (S.bytes self.now.storage) (loaded_disk (loaded_in self.now)) offset (length out.old)
            result }
    {
        let mut done: usize = 0;
        while done < out.len() {
            done += self.unpack_next(alloc, &mut out[done..], offset + done as u64)?;
        }
        Ok(())
    }
}

impl<S: Storage> Display for Qcow2<S> {
    fn fmt<W: Write>(&self, f: &mut Formatter<W>) -> fmt::Result {
        write!(f, "qcow2[{}]", self.storage)
    }
}

impl<S: Storage> FormatDriverInstance for Qcow2<S> {
    type Storage = S;

    type State = Ticket;

    ghost use Rattle.imago_qcow2.specs.Qcow2Image.{loaded_in};

    ghost view = { λ d. loaded_view (S.features d.storage) (S.bytes d.storage) (loaded_in d) };

    ghost recognizes = { probe_of };

    ghost probe_reasons = { λ s. probe_reasons_of (S.features s) (S.bytes s) };

    ghost calls = { qcow2_calls (λ d. S.features d.storage) (λ d. S.bytes d.storage)
        (λ d. loaded_disk (loaded_in d)) };

    ghost lawful = { λ d. qcow2_lawful (S.features d.storage) (S.bytes d.storage) (loaded_in d) };

    ghost causes_lawful = { λ d. qcow2_causes (S.features d.storage) (S.bytes d.storage)
        (loaded_in d) };

    fn format(&self) -> Format {
        Format::Qcow2
    }

    fn size(&self) -> u64 {
        self.header.size
    }

    fn zero_granularity(&self) -> Option<u64> {
        None
    }

    fn writable(&self) -> bool {
        false
    }

    fn takes_backing(&self) -> bool {
        true
    }

    fn has_prepared(&self) -> bool {
        false
    }

    fn probe(alloc: Global, storage: &S) -> Result<bool, Error> {
        let mut head = [0u8; 8];
        storage.read(alloc, &mut head, 0)?;
        Ok(is_recognized(&head))
    }

    fn collect_storage_dependencies(&self, alloc: Global) -> Result<Vec<&S>, Error> {
        let mut storages = Vec::new(alloc);
        storages.push(&self.storage)?;
        Ok(storages)
    }

    fn storage_count(&self) -> usize {
        1
    }

    fn storage(&self, index: usize) -> Option<&S> {
        if index == 0 {
            Some(&self.storage)
        } else {
            None
        }
    }

    fn special_block(&self) -> u64 {
        self.cluster.length
    }

    #[inline(never)]
    fn get_mapping(&self, offset: u64, max_length: u64) -> Result<(ShallowMapping, u64), Error> {
        if offset >= self.header.size {
            return Ok((ShallowMapping::Eof, 0));
        }
        let (mapping, known) = self.part_at(offset)?;
        let most = max_length.min(self.header.size - offset);
        Ok((mapping, self.longest(mapping, offset, known, most)))
    }

    fn read_mapped(
        &self,
        alloc: Global,
        _storage: usize,
        buf: &mut [u8],
        offset: u64,
    ) -> Result<(), Error> {
        self.storage.read(alloc, buf, offset)
    }

    fn readv_special(&self, alloc: Global, buf: &mut [u8], offset: u64) -> Result<(), Error> {
        if buf.is_empty() {
            return Ok(());
        }
        if !self.may_unpack(offset, buf.len() as u64) {
            return Err(Error::Unsupported);
        }
        self.unpack_range(alloc, buf, offset)
    }

    fn write_mapped(
        &mut self,
        _alloc: Global,
        _storage: usize,
        _source: &[u8],
        _offset: u64,
    ) -> Result<(), Error>
        ensures unsupported { IsErrOf result Error.Unsupported }
        ensures untouched { self.new ≡ self.old }
    {
        Err(Error::Unsupported)
    }

    fn ensure_zero_mapping(
        &mut self,
        _alloc: Global,
        _offset: u64,
        _count: u64,
    ) -> Result<(u64, u64), Error>
        ensures unsupported { IsErrOf result Error.Unsupported }
        ensures untouched { self.new ≡ self.old }
    {
        Err(Error::Unsupported)
    }

    fn discard_to_zero(
        &mut self,
        _alloc: Global,
        _offset: u64,
        _count: u64,
    ) -> Result<(u64, u64), Error>
        ensures unsupported { IsErrOf result Error.Unsupported }
        ensures untouched { self.new ≡ self.old }
    {
        Err(Error::Unsupported)
    }

    fn discard_to_any(
        &mut self,
        _alloc: Global,
        _offset: u64,
        _count: u64,
    ) -> Result<(u64, u64), Error>
        ensures unsupported { IsErrOf result Error.Unsupported }
        ensures untouched { self.new ≡ self.old }
    {
        Err(Error::Unsupported)
    }

    fn discard_to_backing(
        &mut self,
        _alloc: Global,
        _offset: u64,
        _count: u64,
    ) -> Result<(u64, u64), Error>
        ensures unsupported { IsErrOf result Error.Unsupported }
        ensures untouched { self.new ≡ self.old }
    {
        Err(Error::Unsupported)
    }

    fn prepare_data_mapping<B: LowerLayer>(
        &mut self,
        _alloc: Global,
        _below: Option<&B>,
        _offset: u64,
        _count: u64,
        _overwrite: bool,
    ) -> Result<PreparedDataMapping<Ticket>, Error>
        ensures unsupported { IsErrOf result Error.Unsupported }
        ensures untouched { self.new ≡ self.old }
    {
        Err(Error::Unsupported)
    }

    fn write_prepared(
        &mut self,
        _alloc: Global,
        _mapping: &PreparedDataMapping<Ticket>,
        _source: &[u8],
        _at: u64,
    ) -> Result<(), Error> {
        Err(Error::ForeignMapping)
    }

    fn commit_data_mapping(&mut self, mapping: PreparedDataMapping<Ticket>) -> Result<(), Error>
        ensures call { IsCommit ⟦<Qcow2<S> as FormatDriverInstance>⟧.view self.old self.new mapping
            result }
        ensures untouched { self.new ≡ self.old }
        ensures performed { ⟦<Qcow2<S> as FormatDriverInstance>⟧.calls.committed mapping self.old
            self.new result }
    {
        match mapping.into_state() {
            None => Ok(()),
            Some(_) => Err(Error::ForeignMapping),
        }
    }

    fn cancel_data_mapping(&mut self, mapping: PreparedDataMapping<Ticket>)
        ensures call { IsCancel ⟦<Qcow2<S> as FormatDriverInstance>⟧.view self.old self.new
            mapping }
        ensures untouched { self.new ≡ self.old }
        ensures performed { ⟦<Qcow2<S> as FormatDriverInstance>⟧.calls.cancelled mapping self.old
            self.new }
    {
        let _ = mapping.into_state();
    }

    fn ensure_data_mapping<B: LowerLayer>(
        &mut self,
        _alloc: Global,
        _below: Option<&B>,
        _offset: u64,
        _count: u64,
        _overwrite: bool,
    ) -> Result<(usize, u64, u64), Error>
        ensures unsupported { IsErrOf result Error.Unsupported }
        ensures untouched { self.new ≡ self.old }
    {
        Err(Error::Unsupported)
    }

    fn resize_grow<B: LowerLayer>(
        &mut self,
        _alloc: Global,
        _below: Option<&B>,
        _new_size: u64,
        _mode: PreallocateMode,
    ) -> Result<(), Error>
        ensures unsupported { IsErrOf result Error.Unsupported }
        ensures untouched { self.new ≡ self.old }
    {
        Err(Error::Unsupported)
    }

    fn resize_shrink(&mut self, _new_size: u64) -> Result<(), Error>
        ensures unsupported { IsErrOf result Error.Unsupported }
        ensures untouched { self.new ≡ self.old }
    {
        Err(Error::Unsupported)
    }

    fn flush(&mut self) -> Result<(), Error> {
        Ok(())
    }

    fn sync(&mut self) -> Result<(), Error> {
        Ok(())
    }

    fn invalidate_cache(&mut self) -> Result<(), Error> {
        Ok(())
    }
}

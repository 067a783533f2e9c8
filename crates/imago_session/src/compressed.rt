// SPDX-License-Identifier: MIT
//! Compressed clusters: where their streams stand.
ghost use Rattle.std.specs.Prelude.{◌≡◌, ℕ, ◌+◌, ◌^◌, ◌<◌, ◌≤◌, ◌%◌, List, true, IfSome};
ghost use Rattle.imago_session.specs.declared.permitted.Permitted.{Permitted};
ghost use Rattle.imago_qcow2.specs.declared.entry.GuestCluster.{GuestCluster};
ghost use Rattle.imago_qcow2.specs.declared.header.Compression.{Compression};
ghost use Rattle.imago_qcow2.specs.Compressed.{packed_value};
ghost use Rattle.imago_qcow2.specs.Disk.{HaveSameTables};
ghost use Rattle.imago_qcow2.specs.Entry.{place_by, qcow2_place};
ghost use Rattle.imago_qcow2.specs.Qcow2Image.{storage_in};
ghost use Rattle.imago_session.specs.Loaded.{loaded_bytes};
ghost use Rattle.imago_session.specs.Files.{File, IsOver, AreLayersOf, described_by};
ghost use Rattle.imago_session.specs.Streams.{IsPartOfCluster, ShowsStream};

use crate::layer::Layer;
use crate::loaded::LoadedFile;
use imago_access::access::FormatAccess;
use imago_any_driver::any::AnyDriver;
use imago_qcow2::entry::GuestCluster;
use imago_qcow2::header::Compression;
use imago_qcow2::laws::image_of_bytes;
use imago_qcow2::qcow2::Qcow2;

/// Bytes of the disk that are a part of a compressed cluster: no file has them as they are read.
/// The cluster is what a stream of deflate puts out. Offsets, counts and lengths are in bytes.
#[derive(Clone, Copy, Debug, PartialEq, Eq)]
pub struct Compressed {
    /// The first byte's offset on the disk.
    pub at: u64,
    /// How many bytes there are.
    pub count: u64,
    /// The number of the file that has the stream.
    pub file: usize,
    /// Where the stream begins in that file.
    pub offset: u64,
    /// How many bytes of the file the stream may have. Those past the file's end are zeroes.
    pub length: u64,
    /// How many bytes the cluster has.
    pub cluster: u64,
    /// How many bytes of the cluster come before the first one.
    pub skip: u64,
}

/// What the guest cluster is in which an offset of a layer's disk lies.
#[derive(Drop)]
struct Part {
    cluster: GuestCluster,
    /// How it is compressed, if it is.
    compression: Compression,
    /// How many bytes it has.
    length: u64,
    /// How many of them come before the offset.
    skip: u64,
    /// How many from there on are bytes of the disk as well.
    left: u64,
}

/// What a qcow2 image says of an offset of its disk.
fn part_of_qcow2(qcow2: &Qcow2<LoadedFile>, at: u64) -> Option<Part>
    ensures places { let own = loaded_bytes (storage_in qcow2.now) in
        IfSome result (λ r. (bytes : List ℕ) (i : ℕ) → HaveSameTables bytes own → i < r.left
        → qcow2_place bytes («at» + i) ≡ place_by (packed_value true r.compression bytes r.length)
        bytes (r.skip + i) («at» + i) r.cluster) }
    ensures some { IfSome result (λ r. 0 < r.left) }
    ensures inside { IfSome result (λ r. r.skip + r.left ≤ r.length) }
{
    image_of_bytes(qcow2);
    let header = qcow2.header();
    let size = header.disk_size();
    if at >= size {
        return None;
    }
    let cluster = qcow2.guest_cluster(at)?;
    let length = header.cluster_size();
    let skip = at % length;
    Some(Part {
        cluster,
        compression: header.compression(),
        length,
        skip,
        left: (length - skip).min(size - at),
    })
}

/// What a layer says of an offset of its disk. Only qcow2 images have guest clusters.
fn part_at(layer: &Layer, at: u64) -> Option<Part>
    ensures places { IfSome result (λ r. (permitted : Permitted) (bytes : ℕ → List ℕ) (i : ℕ)
        → IsOver permitted layer.now (bytes 0) → i < r.left
        → described_by layer.now bytes («at» + i) ≡ place_by
        (packed_value true r.compression (bytes 0) r.length) (bytes 0) (r.skip + i) («at» + i)
        r.cluster) }
    ensures some { IfSome result (λ r. 0 < r.left) }
    ensures inside { IfSome result (λ r. r.skip + r.left ≤ r.length) }
{
    match layer {
        AnyDriver::Qcow2(qcow2) => part_of_qcow2(qcow2, at),
        AnyDriver::Raw(_) | AnyDriver::Vmdk(_) | AnyDriver::Cow(_) => None,
    }
}

/// So many bytes from an offset on of a guest cluster of that file, if it is deflated.
fn stream_of(part: Part, at: u64, count: u64, file: usize) -> Option<Compressed>
    ensures told { IfSome result (λ c. (c.at ≡ «at») × (c.count ≡ count) × (c.file ≡ file)
        × (c.cluster ≡ part.length) × (c.skip ≡ part.skip)) }
    ensures stream { IfSome result
        (λ c. part.cluster ≡ GuestCluster.Compressed c.offset c.length) }
    ensures deflated { IfSome result (λ c. part.compression ≡ Compression.Deflate) }
{
    match (part.compression, part.cluster) {
        (Compression::Deflate, GuestCluster::Compressed { at: offset, length }) => Some(
            Compressed {
                at,
                count,
                file,
                offset,
                length,
                cluster: part.length,
                skip: part.skip,
            },
        ),
        _ => None,
    }
}

/// The part of a compressed cluster that begins at an offset of an image's disk, of at most that
/// many bytes, if a cluster that is deflated is what stands there.
pub(crate) fn compressed_at(image: &FormatAccess<Layer>, at: u64, most: u64) -> Option<Compressed>
    requires { 0 < most }
    ensures part { IfSome result (IsPartOfCluster «at» most) }
    ensures shows { IfSome result (λ c. (permitted : Permitted) (files : ℕ → File)
        → AreLayersOf permitted files image.now → ShowsStream files c image.now) }
{
    let mut layer = image;
    let mut file: usize = 0;
    let mut left = most;
    loop {
        let part = part_at(layer.inner(), at)?;
        left = left.min(part.left);
        match part.cluster {
            GuestCluster::Absent => {
                layer = layer.backing()?;
                file = file.checked_add(1)?;
            }
            _ => return stream_of(part, at, left, file),
        }
    }
}

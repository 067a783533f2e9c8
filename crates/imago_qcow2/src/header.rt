// SPDX-License-Identifier: MIT
//! The header of an image's file.
ghost use Rattle.std.specs.Prelude.{◌≡◌, ◌≤◌, ◌<◌, ◌^◌, ◌+◌, ◌*◌, ◌/◌, length, OnOk, IfOk};
ghost use Rattle.std.specs.Prelude.{true, false};
ghost use Rattle.imago_qcow2.specs.Numbers.{be32, be64};
ghost use Rattle.imago_qcow2.specs.Fault.{answer_of};
ghost use Rattle.imago_qcow2.specs.Header.{features_at, own_length, magic_fault, support_fault};
ghost use Rattle.imago_qcow2.specs.Header.{added_fault, bounds_fault, table_fault, size_fault};
ghost use Rattle.imago_qcow2.specs.Header.{name_fault, header_of, IsSound, NamesBacking};
ghost use Rattle.imago_qcow2.specs.Header.{compression_of};
ghost use Rattle.imago_qcow2.specs.Header.{has_bit as is_bit_set};

use crate::fault::HeaderFault;
use crate::number::{number32, number64};

/// How many bytes of the file's start are looked at as its header.
pub const HEAD_LENGTH: usize = 112;

/// What a file begins with: `QFI\xfb`.
pub(crate) const MAGIC: u32 = 0x5146_49fb;

/// How compressed guest clusters are made.
#[derive(Clone, Copy, Debug, PartialEq, Eq)]
pub enum Compression {
    /// Each is a stream of deflate, without a frame around it.
    Deflate,
    /// Each is a frame of Zstandard. A read of them isn't offered.
    Zstd,
}

/// What the header says of the disk.
#[derive(Clone, Copy, Debug, PartialEq, Eq)]
pub struct Header {
    pub(crate) version: u32,
    /// Features that a reader has to know, each by its bit. Version 2 has none of any kind.
    pub(crate) incompatible_features: u64,
    /// Features that may be passed over.
    pub(crate) compatible_features: u64,
    /// Features that a writer who doesn't know them has to clear.
    pub(crate) autoclear_features: u64,
    /// The header's own length in bytes.
    pub(crate) own_length: u32,
    /// A cluster's length in bytes.
    pub(crate) cluster_size: u64,
    /// The disk's size in bytes.
    pub(crate) size: u64,
    /// Where the L1 table begins in the file, in bytes.
    pub(crate) l1_start: u64,
    /// How many entries it has.
    pub(crate) l1_count: u32,
    /// Where the backing file's name begins in the file, in bytes; 0 where there is none.
    pub(crate) name_start: u64,
    /// The name's length in bytes.
    pub(crate) name_length: u32,
    /// How compressed guest clusters are made.
    pub(crate) compression: Compression,
}

impl Header {
    /// The version of the format, which is 2 or 3.
    pub fn version(self) -> u32
        ensures { result ≡ self.version }
    {
        self.version
    }

    /// The disk's size in bytes.
    pub fn disk_size(self) -> u64
        ensures { result ≡ self.size }
    {
        self.size
    }

    /// A cluster's length in bytes.
    pub fn cluster_size(self) -> u64
        ensures { result ≡ self.cluster_size }
    {
        self.cluster_size
    }

    /// Whether the image wasn't closed, so that its reference counts may be wrong.
    pub fn is_dirty(self) -> bool
        ensures { result ≡ is_bit_set self.incompatible_features 0 }
    {
        has_bit(self.incompatible_features, 0)
    }

    /// Whether the kind of compression is told, and isn't deflate.
    pub fn has_compression_type(self) -> bool
        ensures { result ≡ is_bit_set self.incompatible_features 3 }
    {
        has_bit(self.incompatible_features, 3)
    }

    /// How compressed guest clusters are made, if there are any.
    pub fn compression(self) -> Compression
        ensures { result ≡ self.compression }
    {
        self.compression
    }

    /// Whether a writer may leave reference counts behind while the image is open.
    pub fn has_lazy_refcounts(self) -> bool
        ensures { result ≡ is_bit_set self.compatible_features 0 }
    {
        has_bit(self.compatible_features, 0)
    }

    /// Whether the image has bitmaps that are in order.
    pub fn has_bitmaps(self) -> bool
        ensures { result ≡ is_bit_set self.autoclear_features 0 }
    {
        has_bit(self.autoclear_features, 0)
    }

    /// Whether an external data file, if the image has one, is the disk as it is.
    pub fn has_raw_external_data(self) -> bool
        ensures { result ≡ is_bit_set self.autoclear_features 1 }
    {
        has_bit(self.autoclear_features, 1)
    }

    /// Whether a backing file is named. A name without bytes is none.
    pub(crate) fn names_backing(self) -> bool
        ensures yes { result ≡ true → NamesBacking self }
        ensures no { result ≡ false → NamesBacking self → ⊥ }
    {
        self.name_start != 0 && self.name_length != 0
    }
}

/// Whether a file of that length, which begins so, is no qcow2 image.
#[tactic(auto, unfolding(crate::specs::Header::magic_fault))]
fn check_magic(head: &[u8], file: u64) -> Result<(), HeaderFault>
    requires { 112 ≤ length head.now }
    ensures { answer_of result ≡ magic_fault head.now file }
{
    if file < 72 || number32(head, 0) != MAGIC {
        return Err(HeaderFault::NoImage);
    }
    Ok(())
}

/// Whether a word of features has that bit.
#[tactic(auto, unfolding(crate::specs::Header::has_bit))]
fn has_bit(features: u64, bit: u32) -> bool
    requires { bit < 64 }
    ensures { result ≡ is_bit_set features bit }
{
    features >> bit & 1 == 1
}

/// The features in the word at that offset of the header. Version 2 has none.
#[tactic(auto, unfolding(crate::specs::Header::features_at))]
fn features(head: &[u8], at: usize) -> u64
    requires len { 112 ≤ length head.now }
    requires within { at ≤ 104 }
    ensures { result ≡ features_at head.now at }
{
    if number32(head, 4) < 3 {
        return 0;
    }
    number64(head, at)
}

/// The header's own length in bytes.
#[tactic(auto, unfolding(crate::specs::Header::own_length))]
fn own_length_of(head: &[u8]) -> u32
    requires { 112 ≤ length head.now }
    ensures { result ≡ own_length head.now }
{
    if number32(head, 4) < 3 {
        return 72;
    }
    number32(head, 100)
}

/// Which part of what the image needs isn't offered: another version, encryption, or an
/// incompatible feature but bit 0, that the image wasn't closed, and bit 3, that compressed
/// clusters aren't deflated.
#[tactic(auto, unfolding(crate::specs::Header::support_fault))]
fn check_support(head: &[u8]) -> Result<(), HeaderFault>
    requires { 112 ≤ length head.now }
    ensures fault { answer_of result ≡ support_fault head.now }
{
    let version = number32(head, 4);
    if version < 2 || version > 3 {
        return Err(HeaderFault::Version(version));
    }
    if number32(head, 32) != 0 {
        return Err(HeaderFault::Encryption);
    }
    let features = features(head, 72);
    if features > 15 || features / 2 % 4 != 0 {
        return Err(HeaderFault::Features(features & !9));
    }
    Ok(())
}

/// Which of the numbers that version 3 adds is out of bounds.
#[tactic(auto, unfolding(crate::specs::Header::added_fault))]
fn check_added(head: &[u8], cluster: u64) -> Result<(), HeaderFault>
    requires { 112 ≤ length head.now }
    ensures { answer_of result ≡ added_fault head.now cluster }
{
    if number32(head, 4) < 3 {
        return Ok(());
    }
    let own = number32(head, 100);
    if own < 104 || own % 8 != 0 || own as u64 > cluster {
        return Err(HeaderFault::OwnLength);
    }
    if number32(head, 96) > 6 {
        return Err(HeaderFault::RefcountWidth);
    }
    let compression = if own > 104 { head[104] } else { 0 };
    if compression > 1 {
        return Err(HeaderFault::CompressionType(compression));
    }
    if (compression == 0) != (number64(head, 72) < 8) {
        return Err(HeaderFault::Compression);
    }
    Ok(())
}

/// How compressed clusters are made, as a header without a fault says it.
#[tactic(auto, unfolding(crate::specs::Header::compression_of))]
fn kind_of_compression(head: &[u8]) -> Compression
    requires { 112 ≤ length head.now }
    ensures { result ≡ compression_of head.now }
{
    if number32(head, 4) < 3 || number32(head, 100) <= 104 || head[104] == 0 {
        return Compression::Deflate;
    }
    Compression::Zstd
}

/// Whether a cluster's length is out of bounds.
#[tactic(auto, unfolding(crate::specs::Header::bounds_fault))]
fn check_bounds(head: &[u8]) -> Result<(), HeaderFault>
    requires { 112 ≤ length head.now }
    ensures fault { answer_of result ≡ bounds_fault head.now }
    ensures least { OnOk result (9 ≤ be32 head.now 20) }
    ensures most { OnOk result (be32 head.now 20 ≤ 21) }
{
    let bits = number32(head, 20);
    if bits < 9 || bits > 21 {
        return Err(HeaderFault::ClusterBits(bits));
    }
    Ok(())
}

/// Whether the L1 table isn't on a cluster's bounds, or not in the file.
#[tactic(auto, unfolding(crate::specs::Header::table_fault))]
fn check_table(head: &[u8], file: u64, cluster: u64) -> Result<(), HeaderFault>
    requires len { 112 ≤ length head.now }
    requires positive { 512 ≤ cluster }
    ensures fault { answer_of result ≡ table_fault head.now file cluster }
    ensures inside { OnOk result (be64 head.now 40 + be32 head.now 36 * 8 ≤ file) }
{
    let start = number64(head, 40);
    let count = number32(head, 36) as u64;
    if start % cluster != 0 {
        return Err(HeaderFault::UnevenTable);
    }
    if file < count * 8 || file - count * 8 < start {
        return Err(HeaderFault::TableBehindEnd);
    }
    Ok(())
}

/// Whether the L1 table has too few entries for the disk.
#[tactic(auto, unfolding(crate::specs::Header::size_fault))]
fn check_size(head: &[u8], cluster: u64) -> Result<(), HeaderFault>
    requires len { 112 ≤ length head.now }
    requires positive { 512 ≤ cluster }
    requires most { cluster ≤ 2 ^ 21 }
    ensures fault { answer_of result ≡ size_fault head.now cluster }
    ensures covers { OnOk result (be64 head.now 24 ≤ be32 head.now 36 * (cluster / 8 * cluster)) }
{
    let size = number64(head, 24);
    let count = number32(head, 36) as u64;
    if let Some(most) = count.checked_mul(cluster / 8 * cluster) {
        if most < size {
            return Err(HeaderFault::ShortTable);
        }
    }
    Ok(())
}

/// Whether there is a name of a backing file that is too long, or not in the first cluster.
#[tactic(auto, unfolding(crate::specs::Header::name_fault))]
fn check_name(head: &[u8], cluster: u64) -> Result<(), HeaderFault>
    requires len { 112 ≤ length head.now }
    ensures { answer_of result ≡ name_fault head.now cluster }
{
    let name = number64(head, 8);
    let count = number32(head, 16) as u64;
    if name == 0 {
        return Ok(());
    }
    if count > 1023 || name > cluster || count > cluster - name {
        return Err(HeaderFault::BackingName);
    }
    Ok(())
}

/// The length of a cluster, in bytes.
pub(crate) fn cluster_of_bits(bits: u32) -> u64
    requires least { 9 ≤ bits }
    requires most { bits ≤ 21 }
    ensures value { result ≡ 2 ^ bits }
    ensures least { 512 ≤ result }
    ensures most { result ≤ 2 ^ 21 }
{
    2u64.pow(bits)
}

/// What the header of a file of that length says, or its first fault: by the first
/// [`HEAD_LENGTH`] bytes of the file, with 0 past its end. The fault is the one for which
/// [`open_image`](crate::qcow2::Qcow2::open_image) refuses the file.
#[tactic(auto, unfolding(crate::specs::Header::header_of))]
pub fn read(head: &[u8], file: u64) -> Result<Header, HeaderFault>
    requires { 112 ≤ length head.now }
    ensures header { answer_of result ≡ header_of head.now file }
    ensures sound { IfOk result (λ h. IsSound head.now file h) }
{
    check_magic(head, file)?;
    check_support(head)?;
    check_bounds(head)?;
    let cluster = cluster_of_bits(number32(head, 20));
    check_added(head, cluster)?;
    check_name(head, cluster)?;
    check_size(head, cluster)?;
    check_table(head, file, cluster)?;
    Ok(Header {
        version: number32(head, 4),
        incompatible_features: features(head, 72),
        compatible_features: features(head, 80),
        autoclear_features: features(head, 88),
        own_length: own_length_of(head),
        cluster_size: cluster,
        size: number64(head, 24),
        l1_start: number64(head, 40),
        l1_count: number32(head, 36),
        name_start: number64(head, 8),
        name_length: number32(head, 16),
        compression: kind_of_compression(head),
    })
}

// SPDX-License-Identifier: MIT
//! Laws of disks, and what the definitions give for entries that are written out. The functions do
//! nothing; their contracts are proved.
ghost use Rattle.std.specs.Prelude.{◌≡◌, ℕ, ◌/◌, ◌≤◌, List, length, IsTrue, Ok};
ghost use Rattle.imago_drivers.specs.Place.{Value, shown};
ghost use Rattle.imago_qcow2.specs.Numbers.{be32, be64};
ghost use Rattle.imago_qcow2.specs.Header.{header_of};
ghost use Rattle.imago_qcow2.specs.declared.entry.L2Table.{L2Table};
ghost use Rattle.imago_qcow2.specs.declared.entry.GuestCluster.{GuestCluster};
ghost use Rattle.imago_qcow2.specs.Entry.{cluster_length, cluster_in_entry, table_in_entry};
ghost use Rattle.imago_qcow2.specs.Entry.{disk_size, cluster_of, qcow2_place};
ghost use Rattle.imago_qcow2.specs.Tables.{header_cluster};
ghost use Rattle.imago_qcow2.specs.Qcow2Image.{storage_in, header_in};
ghost use Rattle.imago_qcow2.specs.Disk.{AreSameBytes, HaveSameTables, StandsAlike};

use crate::qcow2::Qcow2;
use imago_drivers::drivers::FormatDriverInstance;
use imago_storage::storage::Storage;

/// What is read of an image follows from the bytes of its file, where its storage tells these, and
/// from the layer below where these lead there.
pub fn disk_of_bytes<S: Storage>(image: &Qcow2<S>)
    ensures { let view = ⟦<Qcow2<S> as FormatDriverInstance>⟧.view in
        IsTrue (view image.now).abilities.tells_bytes → (below : ℕ → Value) (p : ℕ)
        → shown below ((view image.now).place p)
        ≡ shown below (qcow2_place ((view image.now).stores.bytes 0) p) }
{
    let _ = image;
}

/// An image's disk, and its header, are those that the bytes of its file give, where its storage
/// tells these.
pub fn image_of_bytes<S: Storage>(image: &Qcow2<S>)
    ensures size { let view = ⟦<Qcow2<S> as FormatDriverInstance>⟧.view in
        IsTrue (view image.now).abilities.tells_bytes
        → (view image.now).size ≡ disk_size ((view image.now).stores.bytes 0) }
    ensures places { let view = ⟦<Qcow2<S> as FormatDriverInstance>⟧.view in
        IsTrue (view image.now).abilities.tells_bytes
        → (view image.now).place ≡ qcow2_place ((view image.now).stores.bytes 0) }
    ensures header { IsTrue (S.features (storage_in image.now)).tells_bytes
        → header_of (S.bytes (storage_in image.now)) (length (S.bytes (storage_in image.now)))
        ≡ Ok (header_in image.now) }
    ensures name_start { IsTrue (S.features (storage_in image.now)).tells_bytes
        → (header_in image.now).name_start ≡ be64 (S.bytes (storage_in image.now)) 8 }
    ensures name_length { IsTrue (S.features (storage_in image.now)).tells_bytes
        → (header_in image.now).name_length ≡ be32 (S.bytes (storage_in image.now)) 16 }
    ensures cluster { IsTrue (S.features (storage_in image.now)).tells_bytes
        → header_cluster (header_in image.now) ≡ cluster_length (S.bytes (storage_in image.now)) }
{
    let _ = image;
}

/// Where the bytes of a disk stand follows from the header and the tables of its file alone:
/// another file that has the same ones says the same, whatever its clusters hold, and is an image
/// too. What a compressed cluster shows follows from these and from the bytes of its stream.
pub fn same_tables_stand_alike()
    ensures header { (a b : List ℕ) → HaveSameTables a b → header_of b (length b)
        ≡ header_of a (length a) }
    ensures places { (a b : List ℕ) → HaveSameTables a b → 8 ≤ cluster_length a → (p : ℕ)
        → StandsAlike (qcow2_place a p) (qcow2_place b p) }
    ensures streams { (a b : List ℕ) → HaveSameTables a b → 8 ≤ cluster_length a → (p at n : ℕ)
        → cluster_of a (p / cluster_length a) ≡ GuestCluster.Compressed at n
        → AreSameBytes a b at n → qcow2_place a p ≡ qcow2_place b p }
{}

/// What entries of L2 tables say: in version 3 and in clusters of 64 KiB, unless the name says
/// else.
pub fn worked_l2_entries()
    ensures stored { cluster_in_entry 3 65536 0x8000000000050000 ≡ GuestCluster.Stored 0x50000 }
    ensures not_allocated { cluster_in_entry 3 65536 0 ≡ GuestCluster.Absent }
    ensures copied_bit_alone { cluster_in_entry 3 65536 0x8000000000000000 ≡ GuestCluster.Absent }
    ensures zero { cluster_in_entry 3 65536 1 ≡ GuestCluster.Zero }
    ensures zero_with_a_cluster { cluster_in_entry 3 65536 0x50001 ≡ GuestCluster.Zero }
    ensures zero_in_version_2 { cluster_in_entry 2 65536 1 ≡ GuestCluster.Invalid }
    ensures compressed { cluster_in_entry 3 65536 0x4000000000050123
        ≡ GuestCluster.Compressed 0x50123 221 }
    ensures unaligned { cluster_in_entry 3 65536 0x50200 ≡ GuestCluster.Invalid }
    ensures in_clusters_of_512 { cluster_in_entry 3 512 0x50200 ≡ GuestCluster.Stored 0x50200 }
    ensures reserved_bit { cluster_in_entry 3 65536 0x100000000050000 ≡ GuestCluster.Invalid }
{}

/// Where L2 entries say that the streams of compressed clusters stand, in clusters of 512 bytes, 4
/// KiB, 64 KiB and 2 MiB: from the sector of their first byte on 1, 1, 255 and 4095 more.
pub fn worked_compressed_entries()
    ensures bits_9 { cluster_in_entry 3 512 0x6000000000000a01
        ≡ GuestCluster.Compressed 0xa01 1023 }
    ensures bits_12 { cluster_in_entry 3 4096 0x4400000000012345
        ≡ GuestCluster.Compressed 0x12345 699 }
    ensures bits_16 { cluster_in_entry 3 65536 0xffc0000000050123
        ≡ GuestCluster.Compressed 0x50123 130781 }
    ensures bits_21 { cluster_in_entry 3 2097152 0x5ffe0000003ffe00
        ≡ GuestCluster.Compressed 0x3ffe00 2097152 }
{}

/// What entries of an L1 table say, in clusters of 64 KiB: in a file of 1 MiB, and of the table's
/// end.
pub fn worked_l1_entries()
    ensures stored { table_in_entry 1048576 65536 0x8000000000030000 ≡ L2Table.Stored 0x30000 }
    ensures absent { table_in_entry 1048576 65536 0 ≡ L2Table.Absent }
    ensures low_bit { table_in_entry 1048576 65536 0x30001 ≡ L2Table.Invalid }
    ensures high_bit { table_in_entry 1048576 65536 0x200000000030000 ≡ L2Table.Invalid }
    ensures to_the_end { table_in_entry 262144 65536 0x30000 ≡ L2Table.Stored 0x30000 }
    ensures past_the_end { table_in_entry 262143 65536 0x30000 ≡ L2Table.Invalid }
{}

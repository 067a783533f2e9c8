// SPDX-License-Identifier: MIT
//! Laws of what descriptors say and of the disks that they describe, and what the definitions give
//! for lines that are written out. The functions do nothing; their contracts are proved.
ghost use Rattle.std.specs.Prelude.{◌≡◌, Bool, true, false, ℕ, List, ◌++◌, ◌∷◌, [], Ok, Err, IsOk};
ghost use Rattle.std.specs.Prelude.{length};
ghost use Rattle.std.specs.Prelude.{codes, IsTrue};
ghost use Rattle.imago_storage.specs.declared.error.Error.{Error};
ghost use Rattle.imago_storage.specs.declared.error.Error.TheVariants.{InvalidData, Unsupported};
ghost use Rattle.imago_vmdk.specs.declared.line.Extent.{Extent};
ghost use Rattle.imago_vmdk.specs.declared.line.Line.{Line};
ghost use Rattle.imago_vmdk.specs.declared.line.Accepted.{Accepted};
ghost use Rattle.imago_vmdk.specs.Text.{lines_of};
ghost use Rattle.imago_vmdk.specs.Line.{verdict_of, nothing_accepted, keys_accepted};
ghost use Rattle.imago_vmdk.specs.Line.{vmfs_accepted};
ghost use Rattle.imago_vmdk.specs.Vmfs.{is_vmfs_line, has_vmfs_line};
ghost use Rattle.imago_vmdk.specs.Reading.{lines_say, reading_of, is_length};
ghost use Rattle.imago_vmdk.specs.Image.{extents_in, is_opened, accepted_in};
ghost use Rattle.imago_vmdk.specs.Vmdk.{places_from};
ghost use Rattle.imago_vmdk.specs.Disk.{described_place, described_value, with_bytes};
ghost use Rattle.imago_drivers.specs.Place.{Value, shown};

use crate::vmdk::Vmdk;
use imago_drivers::drivers::FormatDriverInstance;
use imago_storage::storage::Storage;

/// The places of an image whose extents are opened are those of its extents, one after the other,
/// in storages that follow the descriptor's: also where the storages don't tell their bytes.
pub fn places_of_extents<S: Storage>(image: &Vmdk<S>)
    requires { is_opened image.now ≡ true }
    ensures { let vmdk = ⟦<Vmdk<S> as FormatDriverInstance>⟧.view image.now in
        (p : ℕ) → vmdk.place p ≡ places_from vmdk.stores.bytes 1 (extents_in image.now) p }
{
    let _ = image;
}

/// The places of an image whose extents are opened follow from the bytes of its storages: those of
/// the descriptor say which byte of which storage an offset has, if its storage tells them.
pub fn places_of_bytes<S: Storage>(image: &Vmdk<S>)
    requires { is_opened image.now ≡ true }
    ensures { let vmdk = ⟦<Vmdk<S> as FormatDriverInstance>⟧.view image.now in
        IsTrue (vmdk.stores.features 0).tells_bytes → (p : ℕ)
        → vmdk.place p ≡ described_place (accepted_in image.now) vmdk.stores.bytes p }
{
    places_of_extents(image);
}

/// Which byte of which storage an offset has follows from the descriptor's bytes alone: where the
/// other storages have other bytes, the same places show these.
pub fn same_stands()
    ensures { (accepted : Accepted) (old new : ℕ → List ℕ) (p : ℕ) → new 0 ≡ old 0
        → described_place accepted new p ≡ with_bytes new (described_place accepted old p) }
{}

/// What is read of an image whose extents are opened follows from the bytes of its storages,
/// whatever lies below: those of the descriptor say which byte of which storage an offset has, if
/// its storage tells them.
pub fn disk_of_bytes<S: Storage>(image: &Vmdk<S>)
    requires { is_opened image.now ≡ true }
    ensures { IsTrue
        ((⟦<Vmdk<S> as FormatDriverInstance>⟧.view image.now).stores.features 0).tells_bytes
        → (below : ℕ → Value) (p : ℕ)
        → shown below ((⟦<Vmdk<S> as FormatDriverInstance>⟧.view image.now).place p)
        ≡ described_value (accepted_in image.now)
        (⟦<Vmdk<S> as FormatDriverInstance>⟧.view image.now).stores.bytes p }
{
    places_of_bytes(image);
}

/// The first fault is the answer, whatever stands behind it.
pub fn first_fault()
    ensures { (accepted : Accepted) (before after : List (List ℕ)) (x : List ℕ) (e : Error)
        → IsOk (lines_say accepted before) → verdict_of accepted x ≡ Err e
        → lines_say accepted (before ++ x ∷ after) ≡ Err e }
{}

/// Where VMFS extents aren't accepted, such a line is as unsupported as one of a type that isn't
/// known, and so is a descriptor that has one, unless a line before it is at fault.
pub fn vmfs_lines_refused()
    ensures line { (accepted : Accepted) (line : List ℕ) → accepted.vmfs ≡ false
        → is_vmfs_line line ≡ true → verdict_of accepted line ≡ Err Unsupported }
    ensures text { (accepted : Accepted) (text line : List ℕ) (before after : List (List ℕ))
        → accepted.vmfs ≡ false → is_length (length text) ≡ true
        → lines_of text ≡ before ++ line ∷ after → IsOk (lines_say accepted before)
        → is_vmfs_line line ≡ true → reading_of accepted text ≡ Err Unsupported }
{
    first_fault();
}

/// Where no line is a VMFS extent, it makes no difference whether these are accepted.
pub fn other_lines_alike()
    ensures line { (unknown_keys : Bool) (line : List ℕ) → is_vmfs_line line ≡ false
        → verdict_of (record { unknown_keys = unknown_keys; vmfs = true }) line
        ≡ verdict_of (record { unknown_keys = unknown_keys; vmfs = false }) line }
    ensures text { (unknown_keys : Bool) (text : List ℕ) → has_vmfs_line (lines_of text) ≡ false
        → reading_of (record { unknown_keys = unknown_keys; vmfs = true }) text
        ≡ reading_of (record { unknown_keys = unknown_keys; vmfs = false }) text }
{}

/// Extents, with their sector counts, types, names and offsets.
pub fn extent_lines()
    ensures zero { verdict_of nothing_accepted (codes "RW 3 ZERO")
        ≡ Ok (Line.Extent (Extent.Zero 3)) }
    ensures plus_sign { verdict_of nothing_accepted (codes "RW +3 ZERO rest")
        ≡ Ok (Line.Extent (Extent.Zero 3)) }
    ensures no_access { verdict_of nothing_accepted (codes "NOACCESS 5 anything")
        ≡ Ok (Line.Extent (Extent.NoAccess 5)) }
    ensures read_only { verdict_of nothing_accepted (codes "RDONLY 1 FLAT \"a.img\"")
        ≡ Ok (Line.Extent (Extent.Flat 1 (codes "a.img") 0 false false)) }
    ensures trimmed_name { verdict_of nothing_accepted (codes "RW 1 FLAT \"  my disk.img \" 7 x")
        ≡ Ok (Line.Extent (Extent.Flat 1 (codes "my disk.img") 7 true false)) }
    ensures offset_at_the_quote { verdict_of nothing_accepted (codes "RW 1 FLAT \"a.img\"5")
        ≡ Ok (Line.Extent (Extent.Flat 1 (codes "a.img") 5 true false)) }
    ensures empty_name { verdict_of nothing_accepted (codes "RW 1 FLAT \"\" 0")
        ≡ Ok (Line.Extent (Extent.Flat 1 [] 0 true false)) }
    ensures no_sectors { verdict_of nothing_accepted (codes "RW 0 ZERO")
        ≡ Ok (Line.Extent (Extent.Zero 0)) }
    ensures wide_space { verdict_of nothing_accepted (194 ∷ 160 ∷ codes "RW 3 ZERO" ++ 194 ∷ 160 ∷ [])
        ≡ Ok (Line.Extent (Extent.Zero 3)) }
{}

/// Extents that are invalid, or whose type isn't offered: the first field that fails decides.
pub fn faulty_extent_lines()
    ensures no_quotes { verdict_of nothing_accepted (codes "RW 1 FLAT a.img 0") ≡ Err InvalidData }
    ensures open_quotes { verdict_of nothing_accepted (codes "RW 1 FLAT \"a.img")
        ≡ Err InvalidData }
    ensures four_fields { verdict_of nothing_accepted (codes "RW 1 FLAT x \"a.img\"")
        ≡ Err InvalidData }
    ensures bad_offset { verdict_of nothing_accepted (codes "RW 1 FLAT \"a\" \"b\"")
        ≡ Err InvalidData }
    ensures glued_type { verdict_of nothing_accepted (codes "RW 1 FLAT\"a.img\"")
        ≡ Err Unsupported }
    ensures sparse { verdict_of nothing_accepted (codes "RW 1 SPARSE \"a.vmdk\"")
        ≡ Err Unsupported }
    ensures no_type { verdict_of nothing_accepted (codes "RW 1") ≡ Err InvalidData }
    ensures bad_count { verdict_of nothing_accepted (codes "RW x ZERO") ≡ Err InvalidData }
    ensures count_before_type { verdict_of nothing_accepted (codes "RW x SPARSE")
        ≡ Err InvalidData }
    ensures minus_sign { verdict_of nothing_accepted (codes "RW -1 ZERO") ≡ Err InvalidData }
    ensures large_count { verdict_of nothing_accepted (codes "RW 18446744073709551616 ZERO")
        ≡ Err InvalidData }
{}

/// Lines that say nothing, and keys that aren't known.
pub fn other_lines()
    ensures word_alone { verdict_of nothing_accepted (codes "RW") ≡ Ok Line.Nothing }
    ensures small_letters { verdict_of nothing_accepted (codes "rw 1 ZERO") ≡ Ok Line.Nothing }
    ensures key_like_a_word { verdict_of nothing_accepted (codes "RW=1") ≡ Err InvalidData }
    ensures comment { verdict_of nothing_accepted (codes "# RW 1 SPARSE") ≡ Ok Line.Nothing }
    ensures no_key { verdict_of nothing_accepted (codes "hello") ≡ Ok Line.Nothing }
    ensures unknown_key { verdict_of nothing_accepted (codes "foo=1") ≡ Err InvalidData }
    ensures other_ddb_key { verdict_of nothing_accepted (codes "ddb.uuid = \"x\"")
        ≡ Ok Line.Nothing }
{}

/// Settings, and those that are invalid or aren't offered.
pub fn setting_lines()
    ensures geometry { verdict_of nothing_accepted (codes "ddb.geometry.heads = \"16\"")
        ≡ Ok Line.Setting }
    ensures bad_geometry { verdict_of nothing_accepted (codes "ddb.geometry.heads = \"x\"")
        ≡ Err InvalidData }
    ensures create_type { verdict_of nothing_accepted (codes "createType=\"monolithicFlat\"")
        ≡ Ok Line.Setting }
    ensures content_id { verdict_of nothing_accepted (codes "CID=fffffffe") ≡ Ok Line.Setting }
    ensures parent { verdict_of nothing_accepted (codes "parentFileNameHint=\"p.vmdk\"")
        ≡ Err Unsupported }
    ensures version { verdict_of nothing_accepted (codes "version = 3") ≡ Ok (Line.Version 3) }
    ensures quoted_version { verdict_of nothing_accepted (codes "version=\"1\"") ≡ Err InvalidData }
    ensures version_zero { verdict_of nothing_accepted (codes "version=0") ≡ Ok (Line.Version 0) }
{}

/// Lines where keys that aren't known are accepted: they say nothing, and nothing else changes.
pub fn lines_with_unknown_keys()
    ensures encoding { verdict_of (keys_accepted true) (codes "encoding=\"UTF-8\"")
        ≡ Ok Line.Nothing }
    ensures key_like_a_word { verdict_of (keys_accepted true) (codes "RW=1") ≡ Ok Line.Nothing }
    ensures unknown_key { verdict_of (keys_accepted true) (codes "foo=1") ≡ Ok Line.Nothing }
    ensures bad_count { verdict_of (keys_accepted true) (codes "RW x ZERO") ≡ Err InvalidData }
    ensures bad_geometry { verdict_of (keys_accepted true) (codes "ddb.geometry.heads = \"x\"")
        ≡ Err InvalidData }
    ensures parent { verdict_of (keys_accepted true) (codes "parentFileNameHint=\"p.vmdk\"")
        ≡ Err Unsupported }
{}

/// VMFS extents: unsupported, or, where they are accepted, FLAT ones that begin where their files
/// do.
pub fn vmfs_extent_lines()
    ensures refused { verdict_of nothing_accepted (codes "RW 8 VMFS \"a-flat.vmdk\"")
        ≡ Err Unsupported }
    ensures refused_beside_unknown_keys { verdict_of (keys_accepted true) (codes "RW 8 VMFS \"a-flat.vmdk\"")
        ≡ Err Unsupported }
    ensures read_write { verdict_of vmfs_accepted (codes "RW 8 VMFS \"a-flat.vmdk\"")
        ≡ Ok (Line.Extent (Extent.Flat 8 (codes "a-flat.vmdk") 0 true true)) }
    ensures read_only { verdict_of vmfs_accepted (codes "RDONLY 8 VMFS \" a-flat.vmdk\" ")
        ≡ Ok (Line.Extent (Extent.Flat 8 (codes "a-flat.vmdk") 0 false true)) }
    ensures no_access { verdict_of vmfs_accepted (codes "NOACCESS 8 VMFS \"a-flat.vmdk\"")
        ≡ Ok (Line.Extent (Extent.NoAccess 8)) }
    ensures offset { verdict_of vmfs_accepted (codes "RW 8 VMFS \"a-flat.vmdk\" 0")
        ≡ Err InvalidData }
    ensures no_quotes { verdict_of vmfs_accepted (codes "RW 8 VMFS a-flat.vmdk")
        ≡ Err InvalidData }
    ensures flat { verdict_of vmfs_accepted (codes "RW 8 FLAT \"a-flat.vmdk\" 1")
        ≡ Ok (Line.Extent (Extent.Flat 8 (codes "a-flat.vmdk") 1 true false)) }
    ensures sparse { verdict_of vmfs_accepted (codes "RW 8 VMFSSPARSE \"a-delta.vmdk\"")
        ≡ Err Unsupported }
    ensures small_letters { verdict_of vmfs_accepted (codes "RW 8 vmfs \"a-flat.vmdk\"")
        ≡ Err Unsupported }
    ensures unknown_key { verdict_of vmfs_accepted (codes "foo=1") ≡ Err InvalidData }
{}

/// Whole descriptors: what lines say together.
pub fn whole_descriptors()
    ensures extents { reading_of nothing_accepted
        (codes "version=1" ++ 10 ∷ codes "RW 2 ZERO" ++ 10 ∷ codes "RDONLY 1 FLAT \"a.img\" 3" ++ 10
        ∷ []) ≡ Ok (Extent.Zero 2 ∷ Extent.Flat 1 (codes "a.img") 3 false false ∷ [], 1536) }
    ensures vmfs { reading_of vmfs_accepted
        (codes "version=1" ++ 10 ∷ codes "createType=\"vmfs\"" ++ 10 ∷ codes
        "RW 8 VMFS \"a-flat.vmdk\"")
        ≡ Ok (Extent.Flat 8 (codes "a-flat.vmdk") 0 true true ∷ [], 4096) }
    ensures vmfs_refused { reading_of nothing_accepted
        (codes "version=1" ++ 10 ∷ codes "createType=\"vmfs\"" ++ 10 ∷ codes
        "RW 8 VMFS \"a-flat.vmdk\"") ≡ Err Unsupported }
    ensures no_version { reading_of nothing_accepted (codes "RW 2 ZERO") ≡ Err Unsupported }
    ensures last_version { reading_of nothing_accepted (codes "version=4" ++ 10 ∷ codes "version=2")
        ≡ Ok ([], 0) }
    ensures fault_before_version { reading_of nothing_accepted (codes "version=4" ++ 10 ∷ codes "foo=1")
        ≡ Err InvalidData }
    ensures other_kind { reading_of nothing_accepted (codes "KDMV") ≡ Err Unsupported }
    ensures three_bytes { reading_of nothing_accepted (codes "abc") ≡ Err InvalidData }
    ensures size_past_64_bits { reading_of nothing_accepted
        (codes "version=1" ++ 10 ∷ codes "RW 18446744073709551615 ZERO") ≡ Err InvalidData }
    ensures version_before_size { reading_of nothing_accepted (codes "RW 18446744073709551615 ZERO")
        ≡ Err Unsupported }
    ensures sum_past_64_bits { reading_of nothing_accepted
        (codes "version=1" ++ 10 ∷ codes "RW 18014398509481984 ZERO" ++ 10 ∷ codes
        "RW 18014398509481984 ZERO" ++ 10 ∷ codes "RW 18014398509481984 ZERO" ++ 10 ∷ codes
        "RW 18014398509481984 ZERO") ≡ Err InvalidData }
{}

// SPDX-License-Identifier: MIT
//! Laws of images that follow from what each call promises. The functions do nothing.
ghost use Rattle.std.specs.Prelude.{◌≡◌, ℕ, ◌+◌, ◌≤◌, List, length, IsTrue};
ghost use Rattle.imago_drivers.specs.Place.{Value, Byte, shown};
ghost use Rattle.imago_drivers.specs.declared.format.PreallocateMode.{PreallocateMode};
ghost use Rattle.imago_access.specs.declared.access.FormatAccess.{FormatAccess};
ghost use Rattle.imago_access.specs.declared.run.Call.{Call};
ghost use Rattle.imago_access.specs.declared.run.Reply.{Reply};
ghost use Rattle.imago_access.specs.Chain.{driver, disk_value, keeps_data};
ghost use Rattle.imago_access.specs.Target.{target};
ghost use Rattle.imago_access.specs.Calls.{IsKept};
ghost use Rattle.imago_access.specs.Runs.{IsRun};
ghost use Rattle.imago_access.specs.Disk.{disk, backed_value, IsSameWrite, IsSameResize};
ghost use Rattle.imago_access.specs.Histories.{IsFlatHistory};
ghost use Rattle.imago_access.specs.Determined.{AreDetermined, IsFlatRun};
ghost use Rattle.imago_access.specs.Success.{ReadsSucceed, ReadableRangesAreRead, MappingsSucceed};
ghost use Rattle.imago_access.specs.Success.{WritesSucceed, DataMappingsSucceed, PreparesSucceed};
ghost use Rattle.imago_access.specs.Success.{ZeroWritesSucceed, DiscardsSucceed};
ghost use Rattle.imago_access.specs.Success.{PreparedWritesSucceed, CommitsSucceed, GrowthsSucceed};
ghost use Rattle.imago_access.specs.Success.{CutsSucceed, FlushesSucceed};

use imago_drivers::drivers::FormatDriverInstance;

/// Every run is a history of one flat list, from the first disk to the last: a write or zero write
/// that succeeds is spliced in, a refused one leaves each byte of its range old or new and all
/// others old, a discard changes its range alone, what fits of a prepared write is spliced in where
/// it is committed or has no state, a resize cuts the list or extends it, and nothing else changes
/// it; each read, each size and each mapping answers the list as it stands then.
pub fn flat_histories<D: FormatDriverInstance>()
    ensures { (old new : FormatAccess D) (calls : List Call) (replies : List Reply)
        → IsTrue (keeps_data D.view old)
        → IsRun D.view D.calls old calls replies new
        → IsFlatHistory (backed_value D.view old) (disk D.view old) calls replies
        (disk D.view new) }
{}

/// No run changes a layer below, or what the driver is good for, whatever its storages keep.
pub fn runs_keep_layers_below<D: FormatDriverInstance>()
    ensures { (old new : FormatAccess D) (calls : List Call) (replies : List Reply)
        → IsRun D.view D.calls old calls replies new
        → IsKept D.view old new }
{}

/// A history of one list whose replies say what the list is afterwards: at its end it is the first
/// one with each successful write, cut and growth applied, in order, and each reply is that of a
/// step from the list at its point of the history: a read, a size and a mapping answer it. A write
/// or zero write that is refused past its tests doesn't say what the list is, nor does a growth
/// without preallocation, a discard to any or to backing, or a mapping that may be overwritten and
/// isn't filled.
pub fn flat_runs()
    ensures { (below : ℕ → Value) (xs zs : List Value) (calls : List Call) (replies : List Reply)
        → AreDetermined below xs calls replies
        → IsFlatHistory below xs calls replies zs
        → IsFlatRun below xs calls replies zs }
{}

/// A write inside a disk whose size stays is the same offset by offset as on lists, one that
/// succeeds and a refused one.
pub fn writes_on_lists<D: FormatDriverInstance>()
    ensures { (old new : FormatAccess D) (o : ℕ) (bytes : List ℕ)
        → (D.view (driver new)).size ≡ (D.view (driver old)).size
        → o + length bytes ≤ (D.view (driver old)).size
        → IsSameWrite D.view old o bytes new }
{}

/// A cut or a growth of an image over storages that keep data is the same offset by offset as on
/// lists.
pub fn resizes_on_lists<D: FormatDriverInstance>()
    ensures { (old new : FormatAccess D) (mode : PreallocateMode) (n : ℕ)
        → IsTrue (keeps_data D.view old)
        → IsSameResize D.view old mode n new }
{}

/// What a read of an offset gives is what stands where the offset leads, as its resolved mapping
/// tells it.
pub fn reads_show_targets<D: FormatDriverInstance>()
    ensures { (x : FormatAccess D) (p : ℕ) → disk_value D.view x p ≡ shown (λ (q : ℕ). Byte 0)
        (target D.view x p).place }
{}

/// A read of an image whose devices are reliable, with no cause of a refusal in the range, is
/// refused for want of memory alone, and succeeds where no driver takes any for a part of it, or
/// each driver maps the whole at once and takes none for it.
pub fn reads_succeed<D: FormatDriverInstance>()
    ensures { ReadsSucceed D.view }
{}

/// A read of an image whose devices are reliable, and whose bytes in the range can all be read, is
/// refused for nothing but want of memory, a range that wraps around at a storage, or special bytes
/// that a driver doesn't read.
pub fn readable_ranges_are_read<D: FormatDriverInstance>()
    ensures { ReadableRangesAreRead D.view }
{}

/// A mapping of an image whose devices are reliable, with no cause of a refusal in the range,
/// succeeds.
pub fn mappings_succeed<D: FormatDriverInstance>()
    ensures { MappingsSucceed D.view }
{}

/// A write of a range inside the disk, and not past the driver's places, to a writable image whose
/// devices are reliable and whose count of faults is below its greatest value, with no cause of a
/// refusal, is refused for want of memory alone, and succeeds where the driver writes the range at
/// once, and takes none for it or for a commit.
pub fn writes_succeed<D: FormatDriverInstance>()
    ensures { WritesSucceed D.view }
{}

/// The same of a data mapping.
pub fn data_mappings_succeed<D: FormatDriverInstance>()
    ensures { DataMappingsSucceed D.view }
{}

/// The same of the preparing of a data mapping.
pub fn prepares_succeed<D: FormatDriverInstance>()
    ensures { PreparesSucceed D.view }
{}

/// A zero write or a discard to zero of an image whose devices are reliable and whose count of
/// faults is below its greatest value, with no cause of a refusal but that the driver doesn't offer
/// it, is refused for that or for want of memory alone, and succeeds where it is offered, and the
/// driver does the range at once and takes no memory for it.
pub fn zero_writes_succeed<D: FormatDriverInstance>()
    ensures { ZeroWritesSucceed D.view }
{}

/// The same of the two other discards.
pub fn discards_succeed<D: FormatDriverInstance>()
    ensures { DiscardsSucceed D.view D.calls }
{}

/// The same of a growth to a size, which may also be refused as unsupported, where the driver
/// doesn't offer it. A resize is a growth or a cut.
pub fn growths_succeed<D: FormatDriverInstance>()
    ensures { GrowthsSucceed D.view }
{}

/// The same of a cut to a size.
pub fn cuts_succeed<D: FormatDriverInstance>()
    ensures { CutsSucceed D.view }
{}

/// A write into a prepared mapping of the image's own, with no cause of a refusal, is refused for
/// want of memory alone where the driver's device is reliable and its count of faults below the
/// greatest value, and succeeds where the driver takes none.
pub fn prepared_writes_succeed<D: FormatDriverInstance>()
    ensures { PreparedWritesSucceed D.view }
{}

/// The same of the commit of a mapping, which takes none where the mapping has no state, or the
/// driver says so.
pub fn commits_succeed<D: FormatDriverInstance>()
    ensures { CommitsSucceed D.view }
{}

/// The same of a flush, a sync and an invalidation of caches.
pub fn flushes_succeed<D: FormatDriverInstance>()
    ensures flushed { FlushesSucceed D.view D.calls.flushed }
    ensures synced { FlushesSucceed D.view D.calls.synced }
    ensures invalidated { FlushesSucceed D.view D.calls.invalidated }
{}

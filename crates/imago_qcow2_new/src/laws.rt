// SPDX-License-Identifier: MIT
//! Laws of new files. The functions do nothing; their contracts are proved.
ghost use Rattle.std.specs.Prelude.{ℕ, ◌<◌, ◌≤◌, List, length, IsOk};
ghost use Rattle.imago_drivers.specs.Place.{Value};
ghost use Rattle.imago_qcow2.specs.Header.{header_of};
ghost use Rattle.imago_qcow2_check.specs.Known.{IsKnown};
ghost use Rattle.imago_qcow2_check.specs.Verdicts.{IsFaultless};
ghost use Rattle.imago_qcow2_new.specs.declared.format.Format.{Format};
ghost use Rattle.imago_qcow2_new.specs.declared.layout.Layout.{Layout};
ghost use Rattle.imago_qcow2_new.specs.Layout.{IsLayoutOf, CountsAll};
ghost use Rattle.imago_qcow2_new.specs.Names.{HasNames, HasNoNames, IsNamed};
ghost use Rattle.imago_qcow2_new.specs.Image.{IsWritten, ShowsOver, IsUsedOnce};

/// The header of a new file has no fault.
pub fn new_files_open()
    ensures { (l : Layout) (values : ℕ → Value) (file : List ℕ) → IsWritten l values file
        → IsOk (header_of file (length file)) }
{}

/// What a new file shows by its reader's definition, over a layer below.
pub fn new_files_show_disks()
    ensures { (l : Layout) (values : ℕ → Value) (file : List ℕ) → IsWritten l values file
        → ShowsOver l values file }
{}

/// No entry of a new file has a fault, and each of its clusters is used as often as its reference
/// count says.
pub fn new_files_are_faultless()
    ensures { (l : Layout) (values : ℕ → Value) (file : List ℕ) → IsWritten l values file
        → IsFaultless file }
{}

/// Each cluster of a new file is used once, and has the reference count 1.
pub fn new_files_use_clusters_once()
    ensures { (l : Layout) (values : ℕ → Value) (file : List ℕ) → IsWritten l values file
        → IsUsedOnce file }
{}

/// No fewer blocks of reference counts count all clusters of a new file, and no shorter table names as
/// many as do.
pub fn new_files_have_fewest_counts()
    ensures { (format : Format) (size : ℕ) (l : Layout) → IsLayoutOf format size l
        → (table blocks : ℕ) → CountsAll l table blocks
        → (l.header.counts_clusters ≤ table) × (l.blocks ≤ blocks) }
{}

/// What a new file says of the layer below, where it has these names: the file's, which isn't
/// empty, and the format's. Everything in it that may use clusters is known.
pub fn new_files_name_the_layer_below()
    ensures { (l : Layout) (values : ℕ → Value) (file name format : List ℕ)
        → IsWritten l values file → HasNames l name format → 0 < length name
        → IsNamed name format file }
{}

/// Everything in a new file without a layer below that may use clusters is known.
pub fn new_files_are_known()
    ensures { (l : Layout) (values : ℕ → Value) (file : List ℕ) → IsWritten l values file
        → HasNoNames l → IsKnown file }
{}

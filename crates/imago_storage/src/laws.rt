// SPDX-License-Identifier: MIT
//! What the definitions imply, for readers and for proofs above this crate. The functions do
//! nothing.
ghost use Rattle.std.specs.Prelude.{◌≡◌, ℕ, slice_index};
ghost use Rattle.imago_storage.specs.Bytes.{SpliceByOffset};
ghost use Rattle.imago_storage.specs.Padding.{WrapCauses};

use crate::null::Null;
use crate::storage::Storage;

/// A splice has the new bytes in their range and every other byte as it was, 0 where the list had
/// none; its length is that of the list or the end of the range, whichever is greater.
pub fn splice_by_offset()
    ensures { SpliceByOffset }
{}

/// A request that isn't empty is refused as [`Error::WrapAround`](crate::error::Error::WrapAround)
/// exactly where its end, its end rounded up to the request alignment, or the end of its padded
/// range passes `u64::MAX`.
pub fn wrap_causes()
    ensures { WrapCauses }
{}

/// A [`Null`] storage reads as zeroes at every offset, whatever was written to it.
pub fn null_reads_zero(storage: &Null)
    ensures { (offset : ℕ) → slice_index (⟦<Null as Storage>⟧.bytes storage.now) offset ≡ 0 }
{
    let _ = storage;
}

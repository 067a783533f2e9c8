// SPDX-License-Identifier: MIT
//! Tables that a storage has in memory already.
ghost use Rattle.std.specs.Prelude.{◌≡◌, length, IfSome, IsTrue};
ghost use Rattle.std.specs.Arc.{arc_slice_items};
ghost use Rattle.imago_storage.specs.Bytes.{IsReadAt};

use imago_storage::storage::Storage;
use std::sync::ArcSlice;

/// Which bytes of a storage are in memory already. An image shares those that are one of its tables,
/// so that the table isn't read again, nor held twice.
pub trait TableMemory<S: Storage> {
    /// So many bytes of the storage from the offset on, if they are in memory and may be shared.
    fn shared(&self, storage: &S, at: u64, count: u64) -> Option<ArcSlice<u8>>
        ensures whole { IfSome result (λ v. length (arc_slice_items v) ≡ count) }
        ensures read { IsTrue (S.features storage.now).tells_bytes
            → IfSome result (λ v. IsReadAt (S.bytes storage.now) at (arc_slice_items v)) };
}

/// No bytes of any storage: each table is read.
pub(crate) struct NothingShared;

impl<S: Storage> TableMemory<S> for NothingShared {
    fn shared(&self, _storage: &S, _at: u64, _count: u64) -> Option<ArcSlice<u8>> {
        None
    }
}

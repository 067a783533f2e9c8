// SPDX-License-Identifier: MIT
//! Storages, and requests of any range on them.

pub use imago_storage::ext;
pub use imago_storage::storage::{
    PreallocateMode, Storage, StorageCreateOptions, StorageOpenOptions, ZeroKind, is_alignment,
};

// SPDX-License-Identifier: MIT
//! Storages over files, and a gate that opens the files that images name.

pub use imago_file::file::FileStorage;
pub use imago_file::gate::FileGate;
pub use imago_file::host::{HostFile, MemoryFile};
pub use imago_file::name::{lies_below, path_beside, stays_below};
pub use imago_file::opening::{HostFiles, error_of};

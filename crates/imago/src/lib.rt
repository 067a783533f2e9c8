// SPDX-License-Identifier: MIT
//! Access to virtual disk images.
//!
//! A [`Storage`] holds bytes, a driver shows a disk that stands in storages, and a [`FormatAccess`]
//! reads and writes the disk of a driver and of the images below it. Names and modules are those of
//! the Rust crate imago; everything here but [`laws`] is defined in `imago_storage`,
//! `imago_drivers`, `imago_vmdk`, `imago_qcow2`, `imago_cow`, `imago_any_driver`, `imago_access`,
//! `imago_file`, `imago_copy`, `imago_plan`, `imago_images` and `imago_disk`, and their documentation
//! says what each item does.
//!
//! A contract over these items names what it needs by this crate alone: definitions as
//! `Rattle.imago.specs.Bytes.{splice}`, and types as `Rattle.imago.specs.MemStorage.{MemStorage}`.
//! `specs/Lib.antt` lists them; [`laws`] has the laws.
#![tactic(auto)]

pub mod access;
pub mod copy;
pub mod disk;
pub mod file;
pub mod format;
pub mod images;
pub mod laws;
pub mod plan;
pub mod storage;

pub use access::{FormatAccess, Mapping, Reader};
pub use imago_access::run;
pub use imago_any_driver::any;
pub use imago_cow::cow;
pub use imago_drivers::builder::{
    FormatCreateBuilder, FormatCreateBuilderBase, FormatDriverBuilder, FormatDriverBuilderBase,
};
pub use imago_drivers::drivers::{FormatDriverInstance, PreparedDataMapping, ShallowMapping};
pub use imago_drivers::gate::{DenyImplicitOpenGate, ImplicitOpenGate, PermissiveImplicitOpenGate};
pub use imago_drivers::{builder, drivers, gate, layer, raw, stored};
pub use imago_qcow2::qcow2;
pub use imago_storage::ext::StorageExt;
pub use imago_storage::{align, error, ext, mem, null};
pub use imago_vmdk::vmdk;
pub use storage::{Storage, StorageCreateOptions, StorageOpenOptions};

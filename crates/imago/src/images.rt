// SPDX-License-Identifier: MIT
//! Images in files, opened by their paths.

pub use imago_formats::signature::Signature;
pub use imago_images::confined::{Confined, Reach};
pub use imago_images::failure::{OpenError, Reason};
pub use imago_images::file::{PathFile, PathStorage, storage_of};
pub use imago_images::files::{FileKind, FileStatus, Files, WritableFiles};
pub use imago_images::format::ImageFormat;
pub use imago_images::guarded::{GuardedFiles, GuardedWritableFiles};
pub use imago_images::opener::{FileImage, WritableImage, open_image, open_image_to_write};
pub use imago_images::opening::{Accepted, Opening, OtherFiles};

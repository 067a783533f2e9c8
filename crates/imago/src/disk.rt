// SPDX-License-Identifier: MIT
//! Disks of images in files, whatever their formats; and the system's files.

pub use imago_disk::cause::{Cause, ClusterFault, FaultyFile};
pub use imago_disk::disk::{Disk, Unread, open_to_write};
pub use imago_disk::named::NamedFile;
pub use imago_disk::short::{ShortFile, ShortFiles};
pub use imago_disk::system::SystemFiles;

// SPDX-License-Identifier: MIT
//! The commands on whole disks, by the files that they read and make.

pub use imago_images::format::ImageFormat;
pub use imago_images::opening::{Accepted, Opening, OtherFiles};
pub use imago_img_disks::compare::{Comparison, compare_images};
pub use imago_img_disks::convert::convert_image;
pub use imago_img_disks::overwrite::overwrite;
pub use imago_img_files::failure::Failure;

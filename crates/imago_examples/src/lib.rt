// SPDX-License-Identifier: MIT
//! Images that are opened by their paths, images over files, and a storage and a driver of one's own
//! over `imago`, whole and proved: what `docs/USING.md` explains.
#![tactic(auto)]

pub mod behind_header;
pub mod by_path;
pub mod files;
pub mod read_only;

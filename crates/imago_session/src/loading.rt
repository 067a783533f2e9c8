// SPDX-License-Identifier: MIT
//! Files that aren't opened yet, since a block of them has to be in memory first.
ghost use Rattle.std.specs.Prelude.{◌≡◌, ◌*◌, ◌^◌, ◌≤◌, length};
ghost use Rattle.imago_session.specs.Blocks.{IsMissing};

use crate::loaded::LoadedFile;
use imago_drivers::drivers::Format;
use imago_qcow2::layout::L1Table;

/// What is known of the tables of a qcow2 file.
#[derive(Drop)]
pub(crate) struct Tables {
    pub(crate) table: L1Table,
    /// The L1 table.
    pub(crate) entries: Vec<u8>,
    /// How many entries were looked at: the L2 tables that they name are in memory. So each entry
    /// is looked at once, however many blocks are asked for.
    pub(crate) index: u64,
    ghost whole: { length entries.items ≡ 8 * table.count },
    ghost least: { 512 ≤ table.cluster },
    ghost most: { table.cluster ≤ 2 ^ 21 },
}

/// A file that isn't opened yet, since a block of it has to be in memory first.
#[derive(Drop)]
pub(crate) struct Loading {
    pub(crate) file: LoadedFile,
    /// The format that it is to be opened in, if it isn't to be recognised.
    pub(crate) format: Option<Format>,
    /// What is known of its tables, if it is a qcow2 file.
    pub(crate) tables: Option<Tables>,
    /// The number of the block.
    pub(crate) number: u64,
    ghost missing: { IsMissing file number },
}

// SPDX-License-Identifier: MIT
//! What an image may contain, and how large its tables may be.

ghost use Rattle.std.specs.Prelude.{◌≡◌};
ghost use Rattle.imago_session.specs.Limits.{usual};

use imago_qcow2::layout::USUAL_TABLES;
use imago_vmdk::line::Accepted;

/// What an image may contain, and how large its tables may be.
#[derive(Clone, Copy)]
pub struct Permitted {
    /// What a VMDK descriptor may contain besides the lines that are always accepted.
    pub accepted: Accepted,
    /// The most bytes that the tables of each qcow2 file of the image may have: 8 for each L1 entry
    /// that its disk needs, and a cluster for each L2 table that these name, counted once. They
    /// stay in memory while the image is open.
    pub tables: u64,
}

impl Permitted {
    /// What is permitted unless whoever opens the image says otherwise: tables of at most
    /// [`USUAL_TABLES`], and so much of a descriptor.
    pub fn usual(accepted: Accepted) -> Permitted
        ensures { result ≡ usual accepted }
    {
        Permitted {
            accepted,
            tables: USUAL_TABLES,
        }
    }
}

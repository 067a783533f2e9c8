// SPDX-License-Identifier: MIT
//! Which layer of an image has the bytes at an offset of its disk, if one has.
ghost use Rattle.std.specs.Prelude.{◌≡◌, ◌≢◌, ◌+◌, ◌-◌, ◌^◌, ◌<◌, ◌≤◌, ◌↔◌, IsTrue, IfOk};
ghost use Rattle.imago_access.specs.Target.{target};
ghost use Rattle.imago_copy.specs.Allocations.{in_layer, in_none, allocation_of, AreAllocated};

use crate::way::Way;
use imago_access::access::FormatAccess;
use imago_drivers::drivers::FormatDriverInstance;
use imago_storage::error::Error;

/// Which layer of an image has bytes of its disk, if one has.
///
/// From the top down, each layer is asked, until one doesn't leave the bytes to the layer below.
#[derive(Clone, Copy, Debug, PartialEq, Eq)]
pub struct Allocation {
    /// The depth of the layer that has them: 0 at the top. Where none has, it is that of the last
    /// layer that leaves them to the one below: that one ends before, or there is none. The
    /// greatest depth that is told stands for each from there on.
    pub depth: usize,
    /// Whether the layer has them: as data, or as zeroes. Bytes that no layer has are 0 as well.
    pub is_present: bool,
}

impl Allocation {
    /// Bytes that the layer of that depth has.
    pub(crate) fn in_layer(depth: usize) -> Self
        ensures { result ≡ in_layer «depth» }
    {
        Allocation {
            depth,
            is_present: true,
        }
    }

    /// Bytes that no layer has, and that the layer above the one of that depth leaves to it.
    pub(crate) fn in_none(depth: usize) -> Self
        requires { 0 < depth }
        ensures { result ≡ in_none («depth» - 1) }
    {
        Allocation {
            depth: depth - 1,
            is_present: false,
        }
    }

    /// Whether both are the same.
    pub(crate) fn is_same(self, other: Self) -> bool
        ensures { IsTrue result ↔ (self ≡ other) }
    {
        self.depth == other.depth && self.is_present == other.is_present
    }
}

/// Which layer has the byte at an offset of the disk, if one has, and how many bytes from there on
/// are allocated so: as many as there are, or `most`.
///
/// No byte is read. A refusal is that of [`get_mapping`](FormatAccess::get_mapping), or
/// [`Error::Unsupported`] where the top layer's driver maps nothing at one of the offsets.
pub fn allocation_at<D: FormatDriverInstance>(
    image: &FormatAccess<D>,
    at: u64,
    most: u64,
) -> Result<(Allocation, u64), Error>
    requires some { 0 < most }
    requires fits { at + most < 2 ^ 64 }
    ensures some { IfOk result (λ r. 0 < r.1) }
    ensures within { IfOk result (λ r. r.1 ≤ most) }
    ensures allocated { IfOk result (λ r. AreAllocated (target D.view image.now) at r.1 r.0) }
    ensures apart { IfOk result
        (λ r. r.1 < most → allocation_of (target D.view image.now (at + r.1)) ≢ r.0) }
{
    let mut way = Way::new(image);
    let first = way.first_run(image, at, most)?;
    let found = first.allocation;
    let mut count = first.run.count;
    while count < most {
        let next = way.first_run(image, at + count, most - count)?;
        if !next.allocation.is_same(found) {
            return Ok((found, count));
        }
        count += next.run.count;
    }
    Ok((found, count))
}

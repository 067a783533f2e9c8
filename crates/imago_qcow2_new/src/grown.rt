// SPDX-License-Identifier: MIT
//! How long a file grows that is too long to be made.
ghost use Rattle.std.specs.Prelude.{◌≡◌, ◌^◌, ◌≤◌, IfOk};
ghost use Rattle.std.specs.Int.{next_multiple_of};
ghost use Rattle.imago_qcow2_new.specs.Grown.{clusters_of_all, grown_length, IsTooLong};

use crate::counts::{counted, grown, plus, times};
use crate::extents::rounded_up;
use crate::format::FormatError;
use crate::l2::count_tables;
use crate::layout::{cluster_length, rounded_size};

/// The length that a file of a disk of that size grows to, in bytes, once each of its clusters is
/// stored, where no such file can be made by a [`Layout`](crate::layout::Layout): the table of its
/// reference count blocks is longer then than the 8 MiB that qemu opens, or the file has more than
/// 2^56 bytes. An empty one of that disk can be made.
///
/// # Errors
///
/// [`FormatError::TooLarge`] says that the file isn't that long, so that a layout tells the length or
/// why there is none; that no file of such a disk can be made; or that it would have 2^64 bytes.
pub fn grown_length(size: u64, cluster_bits: u32) -> Result<u64, FormatError>
    ensures value { IfOk result (λ n. n ≡ grown_length size (2 ^ cluster_bits)) }
    ensures long { IfOk result (λ _. IsTooLong
        (clusters_of_all (next_multiple_of size 512) (2 ^ cluster_bits)) (2 ^ cluster_bits)) }
{
    let size = rounded_size(size)?;
    let cluster = cluster_length(cluster_bits)?;
    grown(stored_whole(size, cluster)?, cluster)
}

/// How many clusters a file of a disk of that size has, besides those of its reference counts, where
/// each cluster of the disk is stored.
fn stored_whole(size: u64, cluster: u64) -> Result<u64, FormatError>
    requires small { size ≤ 2 ^ 62 }
    requires least { 512 ≤ cluster }
    requires most { cluster ≤ 2097152 }
    ensures { IfOk result (λ n. n ≡ clusters_of_all size cluster) }
{
    let tables = count_tables(size, cluster)?;
    let used = plus(times(tables as u64, cluster)?, rounded_up(size, cluster))?;
    counted(used, tables, cluster)
}

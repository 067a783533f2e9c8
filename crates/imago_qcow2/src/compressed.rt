// SPDX-License-Identifier: MIT
//! The bytes of compressed guest clusters.
ghost use Rattle.std.specs.Prelude.{◌≡◌, ◌+◌, ◌≤◌, ◌^◌, length, IfOk, IfErr};
ghost use Rattle.imago_storage.specs.declared.error.Error.TheVariants.{Memory};
ghost use Rattle.imago_inflate.specs.Inflate.{inflated};
ghost use Rattle.imago_qcow2.specs.Compressed.{fault_in, IsPutOut, IsUnpacked};

use imago_inflate::fault::InflateError;
use imago_inflate::inflate::inflate;
use imago_storage::error::Error;
use std::alloc::Global;

/// Fills the output with the first bytes that a stream puts out. [`Error::InvalidData`] is a faulty
/// stream.
fn put_out(stream: &[u8], out: &mut [u8]) -> Result<(), Error>
    ensures { IsPutOut (inflated stream.now (length out.old)) out.new result }
{
    match inflate(stream, out) {
        Ok(()) => Ok(()),
        Err(_) => Err(Error::InvalidData),
    }
}

/// The fault of a stream from which a cluster of that length is made, if it has one.
/// [`Error::Memory`] is no room for the cluster.
pub(crate) fn fault_of(
    alloc: Global,
    stream: &[u8],
    cluster: u64,
) -> Result<Option<InflateError>, Error>
    requires longest { cluster ≤ 2 ^ 21 }
    ensures fault { IfOk result (λ fault. fault ≡ fault_in (inflated stream.now cluster)) }
    ensures refusals { IfErr result (λ e. e ≡ Memory) }
{
    let mut whole = vec![in alloc; 0u8; cluster as usize]?;
    match inflate(stream, &mut whole) {
        Ok(()) => Ok(None),
        Err(fault) => Ok(Some(fault)),
    }
}

/// Fills the output with bytes of a guest cluster of that length, from an index in it on, by its
/// stream. All of the cluster is decoded: a part into memory that is taken for it.
///
/// [`Error::InvalidData`] is a faulty stream, and [`Error::Memory`] no room for the cluster.
pub(crate) fn unpack(
    alloc: Global,
    stream: &[u8],
    cluster: u64,
    rest: u64,
    out: &mut [u8],
) -> Result<(), Error>
    requires within { rest + length out.old ≤ cluster }
    requires longest { cluster ≤ 2 ^ 21 }
    ensures { IsUnpacked (inflated stream.now cluster) rest out.new result }
{
    if out.len() as u64 == cluster {
        return put_out(stream, out);
    }
    let mut whole = vec![in alloc; 0u8; cluster as usize]?;
    put_out(stream, &mut whole)?;
    let start = rest as usize;
    out.copy_from_slice(&whole[start..start + out.len()]);
    Ok(())
}

// SPDX-License-Identifier: MIT
//! Which block of a file has to be in memory next.
ghost use Rattle.std.specs.Prelude.{◌≡◌, ◌+◌, ◌^◌, ◌<◌, ◌≤◌, length, None, IfOk, IfErr, IfSome};
ghost use Rattle.imago_storage.specs.Bytes.{IsReadAt};
ghost use Rattle.imago_session.specs.Loaded.{loaded_bytes, file_length, AreThere};
ghost use Rattle.imago_session.specs.Blocks.{IsMissing};

use crate::loaded::LoadedFile;
use imago_storage::error::Error;
use imago_storage::storage::Storage;
use std::alloc::Global;

/// How many bytes a block has. So many are asked for at once.
pub const BLOCK: u64 = 65536;

/// What is found in a file of which some blocks are in memory.
#[derive(Drop)]
pub(crate) enum Step<T> {
    /// Nothing yet: the block of that number has to be in memory first.
    Missing(u64),
    /// This.
    Ready(T),
}

/// The first block of a range of the file that isn't in memory.
pub(crate) fn first_missing(file: &LoadedFile, at: u64, count: u64) -> Option<u64>
    requires inside { at + count ≤ file_length file.now }
    requires fits { at + count < 2 ^ 64 }
    ensures there { result ≡ None → AreThere file.now at count }
    ensures missing { IfSome result (IsMissing file.now) }
{
    if count == 0 {
        return None;
    }
    let block = file.block_length();
    let last = (at + (count - 1)) / block;
    let mut number = at / block;
    while number < last {
        if !file.has_block(number) {
            return Some(number);
        }
        number += 1;
    }
    if file.has_block(last) {
        return None;
    }
    Some(last)
}

/// So many bytes of the file from the offset on, with 0 past its end. Refused, it is
/// [`Error::Memory`].
pub(crate) fn part(alloc: Global, file: &LoadedFile, at: u64, count: u64) -> Result<Vec<u8>, Error>
    requires { at + count < 2 ^ 64 }
    ensures whole { IfOk result (λ v. length v.items ≡ count) }
    ensures bytes { IfOk result (λ v. IsReadAt (loaded_bytes file.now) at v.items) }
    ensures memory { IfErr result (λ e. e ≡ Error.Memory) }
{
    let mut part = vec![in alloc; 0u8; count as usize]?;
    Storage::pure_readv(file, &mut part, at)?;
    Ok(part)
}

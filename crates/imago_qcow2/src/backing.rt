// SPDX-License-Identifier: MIT
//! What an image says of its backing file.
ghost use Rattle.std.specs.Prelude.{◌≡◌, ℕ, ◌+◌, ◌^◌, ◌<◌, ◌≤◌, IfOk, IfErr, IfSome, IsTrue, Ok};
ghost use Rattle.std.specs.Prelude.{None, Some, if◌then◌else◌, nat_eq};
ghost use Rattle.imago_drivers.specs.Reasons.{allowed};
ghost use Rattle.imago_qcow2.specs.Numbers.{be32};
ghost use Rattle.imago_qcow2.specs.Opening.{read_reasons};
ghost use Rattle.imago_qcow2.specs.Backing.{backing_format, format_from, IsFormatRefusal};

use crate::number::number32;
use imago_storage::error::Error;
use imago_storage::ext::StorageExt;
use imago_storage::storage::Storage;
use std::alloc::Global;

/// The type of the header extension that holds the name of the backing file's format.
const BACKING_FORMAT: u32 = 0xe279_2aca;

/// The type of the header extension at that offset of the file, and the length of what it holds, in
/// bytes.
fn extension_at<S: Storage>(storage: &S, alloc: Global, at: u64) -> Result<(u32, u64), Error>
    ensures kind { IsTrue (S.features storage.now).tells_bytes
        → IfOk result (λ r. r.0 ≡ be32 (S.bytes storage.now) at) }
    ensures count { IsTrue (S.features storage.now).tells_bytes
        → IfOk result (λ r. r.1 ≡ be32 (S.bytes storage.now) (at + 4)) }
    ensures small { IfOk result (λ r. r.1 < 2 ^ 32) }
    ensures refusals { IfErr result (allowed (read_reasons (S.features storage.now) at 8)) }
{
    let mut head = [0u8; 8];
    storage.read(alloc, &mut head, at)?;
    Ok((number32(&head, 0), number32(&head, 4) as u64))
}

/// Where the last name of a format stands, behind the extension at that offset: in it, or where one
/// was found before.
fn name_by(kind: u32, at: u64, count: u64, found: Option<(u64, u64)>) -> Option<(u64, u64)>
    requires { at ≤ 2 ^ 21 }
    ensures { result ≡ (if nat_eq kind backing_format then Some (at + 8, count) else found) }
{
    if kind == BACKING_FORMAT {
        return Some((at + 8, count));
    }
    found
}

/// Where the name of the backing file's format begins in the file, and its length in bytes: in the
/// last extension that has one. Header extensions stand from the offset on, and don't pass the end.
pub(crate) fn find_format<S: Storage>(
    storage: &S,
    alloc: Global,
    start: u64,
    end: u64,
) -> Result<Option<(u64, u64)>, Error>
    requires most { end ≤ 2 ^ 21 }
    ensures found { IsTrue (S.features storage.now).tells_bytes
        → IfOk result (λ o. format_from (S.bytes storage.now) None start end ≡ Ok o) }
    ensures inside { IfOk result (λ o. IfSome o (λ p. p.0 + p.1 ≤ end)) }
    ensures refusals { IfErr result
        (IsFormatRefusal (S.features storage.now) end
        (format_from (S.bytes storage.now) None start end)) }
{
    let mut at = start;
    let mut found = None;
    while at < end {
        let (kind, count) = extension_at(storage, alloc, at)?;
        if end - at < 8 + count {
            return Err(Error::InvalidData);
        }
        if kind == 0 {
            return Ok(found);
        }
        found = name_by(kind, at, count, found);
        at += 8 + count.next_multiple_of(8);
    }
    Ok(found)
}

// SPDX-License-Identifier: MIT
//! The length of a file, set as a preallocation mode asks.
ghost use Rattle.std.specs.Prelude.{◌≡◌, ◌≤◌, ◌<◌, ◌^◌, Ok, OnOk, OnErr, MatchResult};
ghost use Rattle.imago_file.specs.Contents.{IsLong, resized, IsPartlyGrown};
ghost use Rattle.imago_file.specs.FileCalls.{IsZeroed, IsStopped, IsGrownByData, IsSizeSet};

use crate::host::HostFile;
use imago_storage::storage::PreallocateMode;
use std::io;

/// How many zeroes are written at once, in bytes.
const PIECE: usize = 65536;

/// Zeroes that are written as data.
static ZEROES: [u8; PIECE] = [0; PIECE];

/// Sets the length of a file that is as long as `length` says. A growth by
/// [`PreallocateMode::Allocate`] or [`PreallocateMode::WriteData`] is made of zeroes as data.
/// Refused, a file that is told is as it was.
pub(crate) fn set_size<F: HostFile>(
    file: &mut F,
    length: u64,
    new_size: u64,
    mode: PreallocateMode,
) -> io::Result<()>
    requires { IsLong (F.contents file.old) length }
    ensures sized { OnOk result (F.contents file.new ≡ resized (F.contents file.old) new_size) }
    ensures refused { OnErr result (F.contents file.new ≡ F.contents file.old) }
    ensures performed { IsSizeSet F.calls length new_size mode file.old file.new result }
{
    let is_data = matches!(mode, PreallocateMode::Allocate | PreallocateMode::WriteData);
    if is_data && length < new_size {
        return add_zeroes(file, length, new_size);
    }
    file.set_len(new_size)
}

/// Writes zeroes from a file's end up to the new one. Refused, the file is cut back.
fn add_zeroes<F: HostFile>(file: &mut F, length: u64, new_size: u64) -> io::Result<()>
    requires long { IsLong (F.contents file.old) length }
    requires grows { length < new_size }
    ensures sized { OnOk result (F.contents file.new ≡ resized (F.contents file.old) new_size) }
    ensures refused { OnErr result (F.contents file.new ≡ F.contents file.old) }
    ensures performed { IsGrownByData F.calls length new_size file.old file.new result }
{
    let written = write_zeroes(file, length, new_size);
    if written.is_err() {
        let _ = file.set_len(length);
    }
    written
}

/// Writes zeroes from a file's end up to the new one, piece by piece. Refused, some are written.
fn write_zeroes<F: HostFile>(file: &mut F, length: u64, new_size: u64) -> io::Result<()>
    requires long { IsLong (F.contents file.old) length }
    requires grows { length < new_size }
    ensures sized { OnOk result (F.contents file.new ≡ resized (F.contents file.old) new_size) }
    ensures partly { OnErr result
        (IsPartlyGrown (F.contents file.old) length (F.contents file.new)) }
    ensures performed { MatchResult result
        (λ _. IsZeroed F.calls length file.old new_size file.new)
        (λ e. IsStopped F.calls length file.old e file.new) }
{
    let mut at = length;
    while at < new_size {
        let count = (new_size - at).min(PIECE as u64);
        file.write_at(&ZEROES[..count as usize], at)?;
        at += count;
    }
    Ok(())
}

// SPDX-License-Identifier: MIT
//! Descriptors of VMDK images.
ghost use Rattle.std.specs.Prelude.{◌≡◌, length};
ghost use Rattle.imago_vmdk.specs.Line.{keys_accepted};
ghost use Rattle.imago_vmdk.specs.Probe.{probe_of};
ghost use Rattle.imago_vmdk.specs.Reading.{reading_of, GivesOrMemory};
ghost use Rattle.imago_c.specs.Answer.{IsAnswer, IsMemory, IsFront};
ghost use Rattle.imago_c.specs.Records.{told_of};

use crate::code::{DONE, code};
use crate::front::put_front;
use crate::record::{ExtentRecord, tell_all};
use imago_storage::error::Error;
use imago_vmdk::descriptor;
use imago_vmdk::line::Accepted;
use std::alloc::Global;

/// Whether these bytes look like a VMDK image's: of another kind, or a descriptor whose first
/// version line has a version that is known.
#[unsafe(no_mangle)]
pub extern "C" fn imago_vmdk_probe(text: &[u8]) -> bool
    ensures { result ≡ probe_of text.now }
{
    descriptor::probe(text)
}

/// What a descriptor may contain: no VMFS extents.
fn accepted(unknown_keys: bool) -> Accepted
    ensures { result ≡ keys_accepted unknown_keys }
{
    Accepted {
        unknown_keys,
        ..Accepted::NOTHING
    }
}

/// Tells the size in bytes of the disk that a descriptor describes. Refused, `size` is as it was.
///
/// Keys that aren't known are accepted, or are refused as invalid data.
#[unsafe(no_mangle)]
pub extern "C" fn imago_vmdk_size(
    alloc: Global,
    text: &[u8],
    accept_unknown_keys: bool,
    size: &mut u64,
) -> u32
    ensures { let reading = reading_of (keys_accepted accept_unknown_keys) text.now in
        IsAnswer reading (IsMemory reading) (λ d. size.new ≡ d.1) (size.new ≡ size.old) result }
{
    match descriptor::read(alloc, accepted(accept_unknown_keys), text) {
        Ok(read) => {
            *size = read.size;
            DONE
        }
        Err(refusal) => code(refusal),
    }
}

/// How long a descriptor's list of extents is.
#[repr(C)]
#[derive(Clone, Copy, Debug, PartialEq, Eq)]
pub struct ExtentCounts {
    /// How many extents there are.
    pub extents: u64,
    /// The length in bytes of all their names.
    pub names: u64,
}

/// What a descriptor's extents are, as a caller in C is told.
#[derive(Drop)]
struct Extents {
    records: Vec<ExtentRecord>,
    names: Vec<u8>,
}

/// The extents of a descriptor.
fn extents_of(alloc: Global, accept_unknown_keys: bool, text: &[u8]) -> Result<Extents, Error>
    ensures { GivesOrMemory (λ x. (x.records.items, x.names.items)) result
        (told_of (reading_of (keys_accepted accept_unknown_keys) text.now)) }
{
    let read = descriptor::read(alloc, accepted(accept_unknown_keys), text)?;
    let mut records = Vec::new(alloc);
    let mut names = Vec::new(alloc);
    tell_all(&read.extents, &mut records, &mut names)?;
    Ok(Extents { records, names })
}

/// Tells the extents of a descriptor, in the order in which the disk has them: the records of as
/// many as fit, as much of the text of their names as fits, and how many extents and bytes there
/// are. Refused, all is as it was.
#[unsafe(no_mangle)]
pub extern "C" fn imago_vmdk_extents(
    alloc: Global,
    text: &[u8],
    accept_unknown_keys: bool,
    extents: &mut [ExtentRecord],
    names: &mut [u8],
    counts: &mut ExtentCounts,
) -> u32
    ensures { let told = told_of (reading_of (keys_accepted accept_unknown_keys) text.now) in
        IsAnswer told (IsMemory told)
        (λ t. IsFront extents.old t.0 extents.new × IsFront names.old t.1 names.new
        × (counts.new.extents ≡ length t.0) × (counts.new.names ≡ length t.1))
        ((extents.new ≡ extents.old) × (names.new ≡ names.old) × (counts.new ≡ counts.old)) result }
{
    match extents_of(alloc, accept_unknown_keys, text) {
        Ok(told) => {
            put_front(extents, &told.records);
            put_front(names, &told.names);
            *counts = ExtentCounts {
                extents: told.records.len() as u64,
                names: told.names.len() as u64,
            };
            DONE
        }
        Err(refusal) => code(refusal),
    }
}

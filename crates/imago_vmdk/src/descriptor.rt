// SPDX-License-Identifier: MIT
//! What the text of a descriptor says, and whether bytes look like one.
ghost use Rattle.std.specs.Prelude.{◌≡◌, ℕ, List, MatchOption, IfSome, option_map, length, ◌+◌};
ghost use Rattle.std.specs.Prelude.{◌*◌, ◌++◌, ◌∷◌, [], map, Ok, MatchResult, OnOk, IfOk, IfErr};
ghost use Rattle.std.specs.Prelude.{◌<◌, ◌^◌};
ghost use Rattle.std.specs.List.{sum_by};
ghost use Rattle.std.specs.String.{string_bytes};
ghost use Rattle.imago_vmdk.specs.Text.{lines_of, lines_left, number_of};
ghost use Rattle.imago_vmdk.specs.Line.{Gives, extent_with, line_with};
ghost use Rattle.imago_vmdk.specs.Reading.{survey_of, version_with, size_in, extent_in, AreKept};
ghost use Rattle.imago_vmdk.specs.Reading.{GivesSize, extents_of, size_of, is_version};
ghost use Rattle.imago_vmdk.specs.Reading.{is_length as may_be_long, fitting, reading_of};
ghost use Rattle.imago_vmdk.specs.Reading.{GivesOrMemory};
ghost use Rattle.imago_vmdk.specs.Probe.{line_decides, names_version, probe_lines, probe_of};

use crate::line::{
    Accepted, Extent, Line, SECTOR_SIZE, cut_at_equals, utf8, verdict, version_number,
};
use imago_storage::error::Error;
use memchr::memchr;
use std::alloc::Global;

/// What a descriptor says.
#[derive(Debug, Drop)]
pub struct Descriptor {
    /// The extents, in the order in which the disk has them.
    pub extents: Vec<Extent<String>>,
    /// The disk's size in bytes.
    pub size: u64,
}

/// What the lines of a descriptor say together.
#[derive(Drop)]
struct Survey {
    version: u32,
    /// The disk's size in bytes, if it fits.
    size: Option<u64>,
    /// The extents, if there is memory for them.
    extents: Option<Vec<Extent<String>>>,
}

/// How many bytes a descriptor has at least.
const SHORTEST: u64 = 4;

/// How many bytes a descriptor has at most.
const LONGEST: u64 = 1 << 21;

/// Whether a descriptor may be that long, in bytes.
pub(crate) fn is_length(length: u64) -> bool
    ensures { result ≡ may_be_long «length» }
{
    SHORTEST <= length && length <= LONGEST
}

fn is_known_version(version: u32) -> bool
    ensures { result ≡ is_version version }
{
    0 < version && version < 4
}

/// The size of a disk, with that many sectors more.
fn longer(size: Option<u64>, sectors: u64) -> Option<u64>
    ensures { (n : _) → size ≡ fitting n → result ≡ fitting (n + sectors * 512) }
{
    size?.checked_add(sectors.checked_mul(SECTOR_SIZE)?)
}

/// The extent with a name of its own. Refused, it is [`Error::Memory`].
fn owned(alloc: Global, extent: Extent<&str>) -> Result<Extent<String>, Error>
    ensures { MatchResult result
        (λ e. extent_with string_bytes e ≡ extent_with (λ s. s.now) extent.entry)
        (λ e. e ≡ Error.Memory) }
{
    match extent {
        Extent::Zero { sectors } => Ok(Extent::Zero { sectors }),
        Extent::NoAccess { sectors } => Ok(Extent::NoAccess { sectors }),
        Extent::Flat {
            sectors,
            name,
            offset,
            writable,
            vmfs,
        } => {
            let name = String::from_str(alloc, name)?;
            Ok(Extent::Flat {
                sectors,
                name,
                offset,
                writable,
                vmfs,
            })
        }
    }
}

/// Puts an extent behind the others, with a name of its own. Refused, it is [`Error::Memory`].
fn push_extent(
    alloc: Global,
    extents: &mut Vec<Extent<String>>,
    extent: Extent<&str>,
) -> Result<(), Error>
    ensures items { OnOk result (map (extent_with string_bytes) extents.new.items
        ≡ map (extent_with string_bytes) extents.old.items ++ extent_with (λ s. s.now) extent.entry
        ∷ []) }
    ensures memory { IfErr result (λ e. e ≡ Error.Memory) }
{
    let extent = owned(alloc, extent)?;
    extents.push(extent)?;
    Ok(())
}

/// The extents with one more behind them, if there is memory for it.
fn kept(
    alloc: Global,
    extents: Option<Vec<Extent<String>>>,
    extent: Extent<&str>,
) -> Option<Vec<Extent<String>>>
    ensures { (es : List (Extent (List ℕ))) → AreKept (λ v. map (extent_with string_bytes) v.items)
        extents es
        → AreKept (λ v. map (extent_with string_bytes) v.items) result
        (es ++ extent_with (λ s. s.now) extent.entry ∷ []) }
{
    let mut extents = extents?;
    match push_extent(alloc, &mut extents, extent) {
        Ok(()) => Some(extents),
        Err(_) => None,
    }
}

impl Survey {
    /// What the lines say with one more. Of versions the last one counts. Where memory is refused,
    /// no extents are kept from there on.
    fn with(self, alloc: Global, line: Line<&str>) -> Self
        ensures version { result.version ≡ version_with self.version line.entry }
        ensures size { (n : ℕ) → self.size ≡ fitting n
            → result.size ≡ fitting (n + size_in line.entry) }
        ensures extents { (es : List (Extent (List ℕ)))
            → AreKept (λ v. map (extent_with string_bytes) v.items) self.extents es
            → AreKept (λ v. map (extent_with string_bytes) v.items) result.extents
            (es ++ extent_in (line_with (λ s. s.now) line.entry)) }
    {
        let Survey {
            version,
            size,
            extents,
        } = self;
        match line {
            Line::Nothing | Line::Setting => Survey {
                version,
                size,
                extents,
            },
            Line::Version(number) => Survey {
                version: number,
                size,
                extents,
            },
            Line::Extent(extent) => Survey {
                version,
                size: longer(size, extent.sectors()),
                extents: kept(alloc, extents, extent),
            },
        }
    }
}

/// The first line of a text, and what stands behind its end, if it has one.
fn cut_line(text: &[u8]) -> (&[u8], Option<&[u8]>)
    ensures lines { lines_of text.now ≡ result.0.now ∷ lines_left
        (option_map (λ s. s.now) result.1) }
    ensures shorter { IfSome result.1 (λ rest. length rest.now < length text.now) }
{
    match memchr(b'\n', text) {
        Some(end) => (&text[..end], Some(&text[end + 1..])),
        None => (text, None),
    }
}

/// Reads all lines. Where memory is refused, only the faults, the version and the size are looked
/// for from there on.
fn survey_lines(alloc: Global, accepted: Accepted, text: &[u8]) -> Result<Survey, Error>
    ensures found { Gives (λ s. (s.version, s.size)) result
        (survey_of accepted (lines_of text.now)) }
    ensures extents { IfOk result
        (λ s. MatchOption s.extents (Unit {0})
        (λ v. extents_of accepted (lines_of text.now)
        ≡ Ok (map (extent_with string_bytes) v.items))) }
{
    let mut survey = Survey {
        version: 0,
        size: Some(0),
        extents: Some(Vec::new(alloc)),
    };
    let mut left = Some(text);
    while let Some(text) = left {
        let (line, rest) = cut_line(text);
        let said = verdict(accepted, line)?;
        survey = survey.with(alloc, said);
        left = rest;
    }
    Ok(survey)
}

/// The size in bytes of the disk that lines describe, by their version and its size, if that fits.
fn disk_size(version: u32, size: Option<u64>) -> Result<u64, Error>
    ensures { GivesSize version size result }
{
    if !is_known_version(version) {
        return Err(Error::Unsupported);
    }
    size.ok_or(Error::InvalidData)
}

/// What a descriptor says, whose bytes these are. `accepted` allows more lines than those that are
/// accepted anyway.
///
/// [`Error::InvalidData`] is a length under 4 bytes or over 2 MiB. Then [`Error::Unsupported`] is
/// another kind of VMDK file, then the first line that is invalid or isn't offered is answered,
/// then as unsupported a version that isn't known, and then as invalid a disk whose size in bytes
/// doesn't fit. [`Error::Memory`] is answered only where none of these is.
#[tactic(auto, unfolding(crate::specs::Reading::reading_of))]
pub fn read(alloc: Global, accepted: Accepted, text: &[u8]) -> Result<Descriptor, Error>
    ensures reading { GivesOrMemory (λ d. (map (extent_with string_bytes) d.extents.items, d.size))
        result (reading_of accepted text.now) }
    ensures size { IfOk result (λ d. (d.size ≡ sum_by size_of d.extents.items)
        × (d.size < 2 ^ 64)) }
{
    if !is_length(text.len() as u64) {
        return Err(Error::InvalidData);
    }
    if text.starts_with(b"KDMV") {
        return Err(Error::Unsupported);
    }
    let Survey {
        version,
        size,
        extents,
    } = survey_lines(alloc, accepted, text)?;
    let size = disk_size(version, size)?;
    let extents = extents.ok_or(Error::Memory)?;
    Ok(Descriptor { extents, size })
}

fn is_version_text(text: &str) -> bool
    ensures { result ≡ names_version (number_of 32 text.now) }
{
    match version_number(text) {
        Some(number) => is_known_version(number),
        None => false,
    }
}

/// What a line decides of whether this is a descriptor, if anything.
fn decision(line: &[u8]) -> Option<bool>
    ensures { result ≡ line_decides line.now }
{
    let Some(line) = utf8(line) else {
        return Some(false);
    };
    match cut_at_equals(line) {
        None => None,
        Some((key, value)) => match key.trim() {
            "version" => Some(is_version_text(value.trim())),
            _ => None,
        },
    }
}

/// What the first line decides that decides anything.
fn first_decision(text: &[u8]) -> bool
    ensures { result ≡ probe_lines (lines_of text.now) }
{
    let mut left = Some(text);
    while let Some(text) = left {
        let (line, rest) = cut_line(text);
        if let Some(answer) = decision(line) {
            return answer;
        }
        left = rest;
    }
    false
}

/// Whether these bytes look like a VMDK image's: of another kind, or a descriptor whose first
/// version line has a version that is known.
#[tactic(auto, unfolding(crate::specs::Probe::probe_of))]
pub fn probe(text: &[u8]) -> bool
    ensures { result ≡ probe_of text.now }
{
    if !is_length(text.len() as u64) {
        return false;
    }
    text.starts_with(b"KDMV") || first_decision(text)
}

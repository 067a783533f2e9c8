// SPDX-License-Identifier: MIT
//! What one line of a descriptor says.
ghost use Rattle.std.specs.Prelude.{◌≡◌, option_map, MatchOption, [], ◌∷◌, length, ◌==◌};
ghost use Rattle.std.specs.Str.{IsUtf8};
ghost use Rattle.std.specs.Str.Iter.{split_whitespace_rest};
ghost use Rattle.imago_vmdk.specs.Text.{utf8_of, words_of, cut_at, number_of};
ghost use Rattle.imago_vmdk.specs.Line.{Gives, extent_with, line_with, access_of as access_named};
ghost use Rattle.imago_vmdk.specs.Line.{unquoted, offset_of, flat_of, typed_of, sized_of};
ghost use Rattle.imago_vmdk.specs.Line.{extent_of, setting_of, pair_of, text_of, verdict_of};
ghost use Rattle.imago_vmdk.specs.Reading.{sectors_of};

use imago_storage::error::Error;
use std::str::SplitWhitespace;

/// How many bytes a sector has.
pub(crate) const SECTOR_SIZE: u64 = 512;

/// What a descriptor may contain besides the lines that every reading of one accepts.
#[derive(Clone, Copy, Debug, PartialEq, Eq)]
pub struct Accepted {
    /// Lines with a key that isn't known. They are ignored if they are accepted, and
    /// [`Error::InvalidData`] otherwise.
    pub unknown_keys: bool,
    /// Extents of type VMFS, as ESX writes them. They are read as FLAT extents that begin at the
    /// first byte of their file if they are accepted, and are [`Error::Unsupported`] otherwise.
    pub vmfs: bool,
}

impl Accepted {
    /// None of these.
    pub const NOTHING: Accepted = Accepted {
        unknown_keys: false,
        vmfs: false,
    };

    /// All of these.
    pub const EVERYTHING: Accepted = Accepted {
        unknown_keys: true,
        vmfs: true,
    };
}

/// What may be done with an extent, by the word that it begins with.
#[derive(Clone, Copy, Debug, PartialEq, Eq)]
pub(crate) enum Access {
    /// `RW`.
    ReadWrite,
    /// `RDONLY`.
    ReadOnly,
    /// `NOACCESS`.
    NoAccess,
}

/// A part of the disk, whose file name is an `N`. A sector has 512 bytes.
#[derive(Debug, Drop)]
pub enum Extent<N> {
    /// Explicit zeroes.
    Zero {
        /// The length in sectors.
        sectors: u64,
    },
    /// A part that may not be read.
    NoAccess {
        /// The length in sectors.
        sectors: u64,
    },
    /// Bytes of a storage.
    Flat {
        /// The length in sectors.
        sectors: u64,
        /// The storage's name, relative to the descriptor's.
        name: N,
        /// Where the bytes begin in the storage, in sectors.
        offset: u64,
        /// Whether a mapping says that they may be written there.
        writable: bool,
        /// Whether the extent's type is VMFS, and not FLAT.
        vmfs: bool,
    },
}

impl<N> Extent<N> {
    /// The length in sectors.
    pub fn sectors(&self) -> u64
        ensures { result ≡ sectors_of self.now }
    {
        match self {
            Extent::Zero { sectors } | Extent::NoAccess { sectors } => *sectors,
            Extent::Flat { sectors, .. } => *sectors,
        }
    }
}

/// What a line says.
#[derive(Debug, Drop)]
pub enum Line<N> {
    /// Nothing that counts.
    Nothing,
    /// An extent: the next part of the disk.
    Extent(Extent<N>),
    /// The descriptor's version. The last such line counts.
    Version(u32),
    /// A setting that is known, and changes nothing here.
    Setting,
}

/// The word that makes a line an extent.
#[tactic(auto, unfolding(crate::specs::Line::access_of))]
fn access_of(word: &str) -> Option<Access>
    ensures { result ≡ access_named word.now }
{
    match word {
        "RW" => Some(Access::ReadWrite),
        "RDONLY" => Some(Access::ReadOnly),
        "NOACCESS" => Some(Access::NoAccess),
        _ => None,
    }
}

/// What stands before and after the first equals sign.
pub(crate) fn cut_at_equals(text: &str) -> Option<(&str, &str)>
    ensures { option_map (λ x. (x.0.now, x.1.now)) result ≡ cut_at 61 text.now }
{
    text.split_once('=')
}

/// What stands before and after the first double quote.
fn cut_at_quote(text: &str) -> Option<(&str, &str)>
    ensures { option_map (λ x. (x.0.now, x.1.now)) result ≡ cut_at 34 text.now }
{
    text.split_once('"')
}

/// The number that the text is: a plus sign or none, then one digit or more.
fn number(text: &str) -> Option<u64>
    ensures { result ≡ number_of 64 text.now }
{
    text.parse::<u64>().ok()
}

/// The number that the text is, if it is one of 32 bits.
pub(crate) fn version_number(text: &str) -> Option<u32>
    ensures { result ≡ number_of 32 text.now }
{
    text.parse::<u32>().ok()
}

/// The text without the pair of double quotes round it, if it has one.
#[tactic(auto, unfolding(crate::specs::Line::unquoted))]
fn inside_quotes(text: &str) -> &str
    ensures { result.now ≡ unquoted text.now }
{
    let Some(rest) = text.strip_prefix('"') else {
        return text;
    };
    let Some(inner) = rest.strip_suffix('"') else {
        return text;
    };
    inner
}

fn next_word<'a>(words: &mut SplitWhitespace<'a>) -> Option<&'a str>
    requires { IsUtf8 (split_whitespace_rest words.old) }
    ensures utf8 { IsUtf8 (split_whitespace_rest words.new) }
    ensures words { MatchOption result (words_of (split_whitespace_rest words.old) ≡ [])
        (λ word. words_of (split_whitespace_rest words.old) ≡ word.now ∷ words_of
        (split_whitespace_rest words.new)) }
{
    words.next()
}

fn is_three_words(text: &str) -> bool
    ensures { result ≡ (length (words_of text.now) == 3) }
{
    text.split_whitespace().count() == 3
}

/// The offset behind a file name, in sectors: the first word, or 0. Behind that of a VMFS extent
/// nothing may stand.
fn flat_offset(vmfs: bool, text: &str) -> Result<u64, Error>
    ensures { Gives (λ x. x) result (offset_of vmfs (words_of text.now)) }
{
    let mut words = text.split_whitespace();
    match next_word(&mut words) {
        None => Ok(0),
        Some(_) if vmfs => Err(Error::InvalidData),
        Some(word) => number(word).ok_or(Error::InvalidData),
    }
}

/// The FLAT or VMFS extent that a whole line is.
#[tactic(auto, unfolding(crate::specs::Line::flat_of))]
fn flat_extent(vmfs: bool, writable: bool, sectors: u64, text: &str) -> Result<Extent<&str>, Error>
    ensures { Gives (extent_with (λ s. s.now)) result (flat_of vmfs writable sectors text.now) }
{
    let (before, rest) = cut_at_quote(text).ok_or(Error::InvalidData)?;
    let (name, after) = cut_at_quote(rest).ok_or(Error::InvalidData)?;
    let offset = flat_offset(vmfs, after)?;
    if !is_three_words(before) {
        return Err(Error::InvalidData);
    }
    let name = name.trim();
    Ok(Extent::Flat {
        sectors,
        name,
        offset,
        writable,
        vmfs,
    })
}

/// The extent that a line is, by its type, which is the next word.
#[tactic(auto, unfolding(crate::specs::Line::typed_of))]
fn typed_extent<'a>(
    accepted: Accepted,
    writable: bool,
    sectors: u64,
    words: &mut SplitWhitespace<'_>,
    text: &'a str,
) -> Result<Extent<&'a str>, Error>
    requires { IsUtf8 (split_whitespace_rest words.old) }
    ensures { Gives (extent_with (λ s. s.now)) result
        (typed_of accepted writable sectors (words_of (split_whitespace_rest words.old))
        text.now) }
{
    match next_word(words) {
        Some("ZERO") => Ok(Extent::Zero { sectors }),
        Some("FLAT") => flat_extent(false, writable, sectors, text),
        Some("VMFS") if accepted.vmfs => flat_extent(true, writable, sectors, text),
        Some(_) => Err(Error::Unsupported),
        None => Err(Error::InvalidData),
    }
}

/// What a line says that begins with such a word: an extent, unless nothing follows.
#[tactic(auto, unfolding(crate::specs::Line::sized_of, crate::specs::Line::extent_of))]
fn extent_line<'a>(
    accepted: Accepted,
    access: Access,
    words: &mut SplitWhitespace<'_>,
    text: &'a str,
) -> Result<Line<&'a str>, Error>
    requires { IsUtf8 (split_whitespace_rest words.old) }
    ensures { Gives (line_with (λ s. s.now)) result
        (extent_of accepted access (words_of (split_whitespace_rest words.old)) text.now) }
{
    let Some(sectors) = next_word(words) else {
        return Ok(Line::Nothing);
    };
    let sectors = number(sectors).ok_or(Error::InvalidData)?;
    let extent = match access {
        Access::NoAccess => Extent::NoAccess { sectors },
        Access::ReadOnly => typed_extent(accepted, false, sectors, words, text)?,
        Access::ReadWrite => typed_extent(accepted, true, sectors, words, text)?,
    };
    Ok(Line::Extent(extent))
}

/// What a key and its value say.
#[tactic(auto, unfolding(crate::specs::Line::setting_of))]
fn setting<'a>(accepted: Accepted, key: &str, value: &str) -> Result<Line<&'a str>, Error>
    ensures { Gives (line_with (λ s. s.now)) result (setting_of accepted key.now value.now) }
{
    match key {
        "version" => {
            let version = version_number(value).ok_or(Error::InvalidData)?;
            Ok(Line::Version(version))
        }
        "CID" | "parentCID" | "createType" => Ok(Line::Setting),
        "parentFileNameHint" => Err(Error::Unsupported),
        "ddb.geometry.sectors" | "ddb.geometry.heads" | "ddb.geometry.cylinders" => {
            number(inside_quotes(value)).ok_or(Error::InvalidData)?;
            Ok(Line::Setting)
        }
        _ if accepted.unknown_keys || key.starts_with("ddb.") => Ok(Line::Nothing),
        _ => Err(Error::InvalidData),
    }
}

/// What a line says that is no extent.
fn pair(accepted: Accepted, text: &str) -> Result<Line<&str>, Error>
    ensures { Gives (line_with (λ s. s.now)) result (pair_of accepted (cut_at 61 text.now)) }
{
    match cut_at_equals(text) {
        None => Ok(Line::Nothing),
        Some((key, value)) => setting(accepted, key.trim(), value.trim()),
    }
}

/// What a trimmed line says.
#[tactic(auto, unfolding(crate::specs::Line::text_of))]
fn trimmed(accepted: Accepted, text: &str) -> Result<Line<&str>, Error>
    ensures { Gives (line_with (λ s. s.now)) result
        (text_of accepted (words_of text.now) text.now) }
{
    if text.starts_with('#') {
        return Ok(Line::Nothing);
    }
    let mut words = text.split_whitespace();
    let Some(first) = next_word(&mut words) else {
        return Ok(Line::Nothing);
    };
    match access_of(first) {
        None => pair(accepted, text),
        Some(access) => extent_line(accepted, access, &mut words, text),
    }
}

/// The bytes as text, if they are UTF-8.
pub(crate) fn utf8(bytes: &[u8]) -> Option<&str>
    ensures { option_map (λ s. s.now) result ≡ utf8_of bytes.now }
{
    str::from_utf8(bytes).ok()
}

/// What a line of a descriptor says, by itself. `accepted` allows more lines than those that are
/// accepted anyway.
///
/// [`Error::InvalidData`] is an invalid line, and [`Error::Unsupported`] an extent of
/// another type, or an image that stands over another one.
#[tactic(auto, unfolding(crate::specs::Line::verdict_of))]
pub fn verdict(accepted: Accepted, line: &[u8]) -> Result<Line<&str>, Error>
    ensures { Gives (line_with (λ s. s.now)) result (verdict_of accepted line.now) }
{
    if line.is_empty() {
        return Ok(Line::Nothing);
    }
    let text = utf8(line).ok_or(Error::InvalidData)?;
    trimmed(accepted, text.trim())
}

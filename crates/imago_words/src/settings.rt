// SPDX-License-Identifier: MIT
//! What `-o` says of a new file.
ghost use Rattle.std.specs.Prelude.{◌≡◌, ◌+◌, ◌<◌, length, is_ok, is_some, IfOk, IfSome, Some};
ghost use Rattle.std.specs.Prelude.{◌∷◌, [], MatchOption, option_and_then};
ghost use Rattle.imago_words.specs.Reading.{state_of};
ghost use Rattle.imago_words.specs.Settings.{bits_of, is_default, plain, version_named};
ghost use Rattle.imago_words.specs.Settings.{preallocation_named, set, set_all, set_one};
ghost use Rattle.imago_words.specs.Settings.{texts_of};
ghost use Rattle.imago_words.specs.Settings.{has_help, is_help};
ghost use Rattle.imago_words.specs.Settings.{new_format, qcow2_format, raw_format};
ghost use Rattle.imago_words.specs.Settings.{target_format, target_named};
ghost use Rattle.imago_words.specs.Sizes.{size_of};

use crate::cut::cut_at_equals;
use crate::fault::Fault;
use crate::size::size_named;
use crate::words::Words;

/// The versions of the qcow2 format.
#[derive(Clone, Copy, Debug, PartialEq, Eq)]
pub enum Version {
    /// Version 2, which is `compat=0.10`.
    Two,
    /// Version 3, which is `compat=1.1`.
    Three,
}

/// How a new qcow2 file is made.
#[derive(Clone, Copy, Debug, PartialEq, Eq)]
pub struct Settings {
    /// The version of the format: 3, if it wasn't said.
    pub version: Version,
    /// The base 2 logarithm of a cluster's length in bytes: 16, if it wasn't said.
    pub cluster_bits: u32,
    /// Whether all tables are written, and each cluster has its place in the file.
    pub preallocated: bool,
}

/// The format of a new file.
#[derive(Clone, Copy, Debug, PartialEq, Eq)]
pub enum NewFormat {
    /// The file is the disk.
    Raw,
    /// The file is a qcow2 image with these settings.
    Qcow2(Settings),
}

/// The formats of the files that commands make.
#[derive(Clone, Copy, Debug, PartialEq, Eq)]
pub enum TargetFormat {
    /// The file is the disk.
    Raw,
    /// The file is a qcow2 image.
    Qcow2,
}

impl TargetFormat {
    /// The format of that name.
    #[tactic(auto, unfolding(crate::specs::Settings::target_named))]
    pub fn named(name: &str) -> Option<TargetFormat>
        ensures { result ≡ target_named name.now }
    {
        match name {
            "raw" => Some(TargetFormat::Raw),
            "qcow2" => Some(TargetFormat::Qcow2),
            _ => None,
        }
    }
}

impl Settings {
    /// Those of a file of which nothing is said.
    pub fn plain() -> Settings
        ensures { result ≡ plain }
    {
        Settings {
            version: Version::Three,
            cluster_bits: 16,
            preallocated: false,
        }
    }

    /// These settings with another one, of that name.
    #[tactic(auto, unfolding(crate::specs::Settings::set))]
    fn set(self, name: &str, value: &str) -> Option<Settings>
        ensures { result ≡ set name.now value.now self }
    {
        match name {
            "compat" => Some(Settings {
                version: version_named(value)?,
                ..self
            }),
            "cluster_size" => Some(Settings {
                cluster_bits: bits_of(value)?,
                ..self
            }),
            "preallocation" => Some(Settings {
                preallocated: preallocation_named(value)?,
                ..self
            }),
            _ => {
                if is_default(name, value) {
                    Some(self)
                } else {
                    None
                }
            }
        }
    }

    /// These settings with the one that a text `NAME=VALUE` is.
    fn set_one<'a>(self, setting: &'a str) -> Result<Settings, Fault<'a>>
        ensures ok { IfOk result (λ s. set_one setting.entry.now self ≡ Some s) }
        ensures exact { is_ok result ≡ is_some (set_one setting.entry.now self) }
    {
        let Some((name, value)) = cut_at_equals(setting) else {
            return Err(Fault::Setting(setting));
        };
        match self.set(name, value) {
            Some(settings) => Ok(settings),
            None => Err(Fault::Setting(setting)),
        }
    }

    /// These settings with those of a text, in which commas part one from the next.
    pub(crate) fn set_all<'a>(self, text: &'a str) -> Result<Settings, Fault<'a>>
        ensures ok { IfOk result (λ s. set_all (texts_of text.entry.now) self ≡ Some s) }
        ensures exact { is_ok result ≡ is_some (set_all (texts_of text.entry.now) self) }
    {
        let mut settings = self;
        let mut rest = text;
        while let Some((first, behind)) = cut_at_comma(rest) {
            settings = settings.set_one(first)?;
            rest = behind;
        }
        settings.set_one(rest)
    }
}

/// What stands before and behind the first comma.
fn cut_at_comma(text: &str) -> Option<(&str, &str)>
    ensures texts { MatchOption result (texts_of text.now ≡ text.now ∷ [])
        (λ x. texts_of text.now ≡ x.0.now ∷ texts_of x.1.now) }
    ensures shorter { IfSome result (λ x. length x.1.now < length text.now) }
{
    text.split_once(',')
}

/// The version that `compat` names, by the version of QEMU that brought it, or by its own.
#[tactic(auto, unfolding(crate::specs::Settings::version_named))]
fn version_named(value: &str) -> Option<Version>
    ensures { result ≡ version_named value.now }
{
    match value {
        "0.10" | "v2" => Some(Version::Two),
        "1.1" | "v3" => Some(Version::Three),
        _ => None,
    }
}

/// The base 2 logarithm of a cluster's length in bytes, if a cluster may have that size.
#[tactic(auto, unfolding(crate::specs::Settings::bits_of))]
fn bits_of(size: &str) -> Option<u32>
    ensures { result ≡ option_and_then bits_of (size_of size.now) }
{
    match size_named(size)? {
        0x200 => Some(9),
        0x400 => Some(10),
        0x800 => Some(11),
        0x1000 => Some(12),
        0x2000 => Some(13),
        0x4000 => Some(14),
        0x8000 => Some(15),
        0x1_0000 => Some(16),
        0x2_0000 => Some(17),
        0x4_0000 => Some(18),
        0x8_0000 => Some(19),
        0x10_0000 => Some(20),
        0x20_0000 => Some(21),
        _ => None,
    }
}

/// Whether the tables are written for the whole disk.
#[tactic(auto, unfolding(crate::specs::Settings::preallocation_named))]
fn preallocation_named(value: &str) -> Option<bool>
    ensures { result ≡ preallocation_named value.now }
{
    match value {
        "off" => Some(false),
        "metadata" => Some(true),
        _ => None,
    }
}

/// Whether a setting is one that has only this value, which all new files have.
#[tactic(auto, unfolding(crate::specs::Settings::is_default))]
fn is_default(name: &str, value: &str) -> bool
    ensures { result ≡ is_default name.now value.now }
{
    match name {
        "lazy_refcounts" | "extended_l2" => value == "off",
        "refcount_bits" => value == "16",
        "compression_type" => value == "zlib",
        _ => false,
    }
}

/// Whether one of the texts behind an `-o`, which commas part, asks which settings there are.
pub(crate) fn has_help(text: &str) -> bool
    ensures { result ≡ has_help text.now }
{
    let mut rest = text;
    while let Some((first, behind)) = cut_at_comma(rest) {
        if is_help(first) {
            return true;
        }
        rest = behind;
    }
    is_help(rest)
}

/// Whether a text behind an `-o` asks which settings there are.
#[tactic(auto, unfolding(crate::specs::Settings::is_help))]
fn is_help(text: &str) -> bool
    ensures { result ≡ is_help text.now }
{
    match text {
        "help" | "?" => true,
        _ => false,
    }
}

/// The format of the file that a command makes, whatever its settings are.
pub(crate) fn target_format<'a>(words: &Words<'a>) -> Result<TargetFormat, Fault<'a>>
    ensures ok { IfOk result (λ f. target_format (state_of words.now) ≡ Some f) }
    ensures exact { is_ok result ≡ is_some (target_format (state_of words.now)) }
{
    let Some(given) = words.last("target-format") else {
        return Ok(TargetFormat::Raw);
    };
    match TargetFormat::named(given.value) {
        Some(format) => Ok(format),
        None => Err(Fault::Value(given.row.key, given.value)),
    }
}

/// The format of the file that a command makes.
pub(crate) fn new_format<'a>(words: &Words<'a>) -> Result<NewFormat, Fault<'a>>
    ensures ok { IfOk result (λ f. new_format (state_of words.now) ≡ Some f) }
    ensures exact { is_ok result ≡ is_some (new_format (state_of words.now)) }
{
    match target_format(words)? {
        TargetFormat::Raw => raw_format(words),
        TargetFormat::Qcow2 => qcow2_format(words),
    }
}

/// The format of a qcow2 file.
fn qcow2_format<'a>(words: &Words<'a>) -> Result<NewFormat, Fault<'a>>
    ensures ok { IfOk result (λ f. qcow2_format (state_of words.now) ≡ Some f) }
    ensures exact { is_ok result ≡ is_some (qcow2_format (state_of words.now)) }
{
    let settings = words.add_options(Settings::plain())?;
    Ok(NewFormat::Qcow2(settings))
}

/// The format of a raw file, which has no settings.
fn raw_format<'a>(words: &Words<'a>) -> Result<NewFormat, Fault<'a>>
    ensures ok { IfOk result (λ f. raw_format (state_of words.now) ≡ Some f) }
    ensures exact { is_ok result ≡ is_some (raw_format (state_of words.now)) }
{
    if words.has("options") {
        return Err(Fault::Unfit("a raw file has no options, so -o doesn't go with it"));
    }
    Ok(NewFormat::Raw)
}

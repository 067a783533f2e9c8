// SPDX-License-Identifier: MIT
//! What the words behind a command's name ask of it: a function for each command.
ghost use Rattle.std.specs.Prelude.{◌≡◌, ◌∷◌, ◌&&◌, ◌||◌, [], IfOk, Some, codes, is_ok, is_some};
ghost use Rattle.std.specs.Prelude.{not, option_map};
ghost use Rattle.imago_words.specs.Commands.{IsCheck, IsCompare, IsConvert, IsInfo, IsMap, IsVet};
ghost use Rattle.imago_words.specs.Commands.{IsCreate, IsMeasure, IsResize};
ghost use Rattle.imago_words.specs.Commands.{IsBacking, IsMeasured, IsOpening};
ghost use Rattle.imago_words.specs.Commands.{format_given, output_given, size_given};
ghost use Rattle.imago_words.specs.Commands.{format_is_meant, size_is_meant, opening_is_meant};
ghost use Rattle.imago_words.specs.Commands.{info_is_meant, compare_is_meant, convert_is_meant};
ghost use Rattle.imago_words.specs.Commands.{create_is_meant, measure_is_meant, resize_is_meant};
ghost use Rattle.imago_words.specs.Commands.{pair_is_meant, copy_is_meant, new_disk_is_meant};
ghost use Rattle.imago_words.specs.Commands.{output_is_meant, leaves_holes, sparse_is_meant};
ghost use Rattle.imago_words.specs.Commands.{backing_is_meant, measured_is_meant};
ghost use Rattle.imago_words.specs.Commands.{goes_below, size_said};
ghost use Rattle.imago_words.specs.Reading.{state_of, value_given, was_given};
ghost use Rattle.imago_words.specs.Settings.{new_format};
ghost use Rattle.imago_words.specs.Sizes.{new_size_of};

use crate::command::{
    Backing, Check, Compare, Convert, Create, Info, Map, Measure, Measured, NewSize, Opening,
    Output, Resize, Vet,
};
use crate::fault::Fault;
use crate::format::Format;
use crate::settings::{NewFormat, new_format};
use crate::size::{new_size_named, size_named};
use crate::words::Words;

/// What words ask of `info`: what they ask of `map`, and whether all layers are told.
pub fn info_of<'a>(words: &Words<'a>) -> Result<Info<'a>, Fault<'a>>
    ensures ok { IfOk result (λ info. IsInfo (state_of words.now) info) }
    ensures exact { is_ok result ≡ info_is_meant (state_of words.now) }
{
    let map = map_of(words)?;
    Ok(Info {
        file: map.file,
        format: map.format,
        output: map.output,
        backing_chain: words.has("backing-chain"),
        opening: map.opening,
    })
}

/// What words ask of `map`.
pub fn map_of<'a>(words: &Words<'a>) -> Result<Map<'a>, Fault<'a>>
    ensures ok { IfOk result (λ map. IsMap (state_of words.now) map) }
    ensures exact { is_ok result ≡ info_is_meant (state_of words.now) }
{
    Ok(Map {
        file: words.one_file()?,
        format: format(words, "format")?,
        output: output(words)?,
        opening: opening(words)?,
    })
}

/// What words ask of `check`, which is what they ask of `map`.
pub fn check_of<'a>(words: &Words<'a>) -> Result<Check<'a>, Fault<'a>>
    ensures ok { IfOk result (λ check. IsCheck (state_of words.now) check) }
    ensures exact { is_ok result ≡ info_is_meant (state_of words.now) }
{
    let map = map_of(words)?;
    Ok(Check {
        file: map.file,
        format: map.format,
        output: map.output,
        opening: map.opening,
    })
}

/// What words ask of `vet`: what they ask of `map`, but no file is opened that isn't named.
pub fn vet_of<'a>(words: &Words<'a>) -> Result<Vet<'a>, Fault<'a>>
    ensures ok { IfOk result (λ vet. IsVet (state_of words.now) vet) }
    ensures exact { is_ok result ≡ info_is_meant (state_of words.now) }
{
    let map = map_of(words)?;
    Ok(Vet {
        file: map.file,
        format: map.format,
        output: map.output,
        opening: Opening {
            allow_outside: false,
            alone: true,
            ..map.opening
        },
    })
}

/// What words ask of `compare`.
pub fn compare_of<'a>(words: &Words<'a>) -> Result<Compare<'a>, Fault<'a>>
    ensures ok { IfOk result (λ compare. IsCompare (state_of words.now) compare) }
    ensures exact { is_ok result ≡ compare_is_meant (state_of words.now) }
{
    let (first, second, first_format) = pair(words)?;
    let second_format = format(words, "second-format")?;
    let opening = opening(words)?;
    Ok(Compare {
        first,
        second,
        first_format,
        second_format,
        same_size: words.has("same-size"),
        progress: words.has("progress"),
        quiet: words.has("quiet"),
        opening,
    })
}

/// What words ask of `convert`.
pub fn convert_of<'a>(words: &Words<'a>) -> Result<Convert<'a>, Fault<'a>>
    ensures ok { IfOk result (λ convert. IsConvert (state_of words.now) convert) }
    ensures exact { is_ok result ≡ convert_is_meant (state_of words.now) }
{
    let (source, target, source_format) = pair(words)?;
    let (target_format, existing, sparse) = copy(words)?;
    let opening = opening(words)?;
    Ok(Convert {
        source,
        target,
        source_format,
        target_format,
        force: words.has("force"),
        existing,
        sparse,
        progress: words.has("progress"),
        quiet: words.has("quiet"),
        opening,
    })
}

/// The two files, and the format of the first.
fn pair<'a>(words: &Words<'a>) -> Result<(&'a str, &'a str, Option<Format>), Fault<'a>>
    ensures files { IfOk result
        (λ pair. (state_of words.now).files ≡ pair.0.now ∷ pair.1.now ∷ []) }
    ensures format { IfOk result
        (λ pair. pair.2 ≡ format_given (codes "format") (state_of words.now)) }
    ensures exact { is_ok result ≡ pair_is_meant (state_of words.now) }
{
    let (first, second) = words.two_files()?;
    let format = format(words, "format")?;
    Ok((first, second, format))
}

/// The format of a copy, whether it is written over a file that is there, and whether zeroes are
/// left out as holes. Only a raw image, whose bytes are those of its disk, is written over a file.
fn copy<'a>(words: &Words<'a>) -> Result<(NewFormat, bool, bool), Fault<'a>>
    ensures format { IfOk result (λ copy. new_format (state_of words.now) ≡ Some copy.0) }
    ensures existing { IfOk result
        (λ copy. copy.1 ≡ was_given (codes "existing") (state_of words.now)) }
    ensures sparse { IfOk result (λ copy. copy.2 ≡ leaves_holes (state_of words.now)) }
    ensures exact { is_ok result ≡ copy_is_meant (state_of words.now) }
{
    let format = new_format(words)?;
    let existing = words.has("existing");
    if existing && format != NewFormat::Raw {
        return Err(Fault::Unfit(
            "-n writes over the bytes of a raw disk; -O qcow2 makes a new file",
        ));
    }
    let sparse = sparse(words)?;
    Ok((format, existing, sparse))
}

/// What words ask of `create`.
pub fn create_of<'a>(words: &Words<'a>) -> Result<Create<'a>, Fault<'a>>
    ensures ok { IfOk result (λ create. IsCreate (state_of words.now) create) }
    ensures exact { is_ok result ≡ create_is_meant (state_of words.now) }
{
    let (target, word) = words.file_and_word()?;
    let (format, backing, size) = new_disk(words, word)?;
    let opening = opening(words)?;
    Ok(Create {
        target,
        format,
        backing,
        size,
        force: words.has("force"),
        quiet: words.has("quiet"),
        opening,
    })
}

/// The format of a new image, the layer below it, and its size, which a word says. Without a word
/// the size is that of the layer below.
fn new_disk<'a>(
    words: &Words<'a>,
    word: Option<&'a str>,
) -> Result<(NewFormat, Option<Backing<'a>>, Option<u64>), Fault<'a>>
    ensures format { IfOk result (λ disk. new_format (state_of words.now) ≡ Some disk.0) }
    ensures backing { IfOk result (λ disk. IsBacking (state_of words.now) disk.1) }
    ensures size { IfOk result
        (λ disk. disk.2 ≡ size_said (option_map (λ w. w.now) word.entry)) }
    ensures exact { is_ok result
        ≡ new_disk_is_meant (option_map (λ w. w.now) word.entry) (state_of words.now) }
{
    let format = new_format(words)?;
    let backing = backing(words, format)?;
    match word {
        Some(word) => match size_named(word) {
            Some(size) => Ok((format, backing, Some(size))),
            None => Err(Fault::NoSize(word)),
        },
        None if backing.is_some() => Ok((format, backing, None)),
        None => Err(Fault::FewFiles),
    }
}

/// The layer below a new image of that format.
fn backing<'a>(words: &Words<'a>, target: NewFormat) -> Result<Option<Backing<'a>>, Fault<'a>>
    ensures ok { IfOk result (λ backing. IsBacking (state_of words.now) backing) }
    ensures exact { is_ok result ≡ (backing_is_meant (state_of words.now)
        && (not (is_some (value_given (codes "backing") (state_of words.now)))
        || goes_below target)) }
{
    let format = format(words, "backing-format")?;
    match (words.last("backing"), format) {
        (None, None) => Ok(None),
        (Some(given), Some(format)) => {
            test_below(target)?;
            Ok(Some(Backing {
                file: given.value,
                format,
            }))
        }
        (Some(_), None) => Err(Fault::Unfit("-b FILE takes -F FMT too, the format of FILE")),
        (None, Some(_)) => Err(Fault::Unfit("-F is the format of -b FILE, which is missing")),
    }
}

/// Refuses a layer below a new image whose format offers none: only a qcow2 file has one, and only
/// where clusters are left to it.
fn test_below<'a>(format: NewFormat) -> Result<(), Fault<'a>>
    ensures { is_ok result ≡ goes_below format }
{
    match format {
        NewFormat::Raw => Err(Fault::Unfit("a raw file has no backing file; say -f qcow2")),
        NewFormat::Qcow2(settings) if settings.preallocated => Err(Fault::Unfit(
            "preallocation=metadata leaves nothing to a backing file",
        )),
        NewFormat::Qcow2(_) => Ok(()),
    }
}

/// What words ask of `measure`.
pub fn measure_of<'a>(words: &Words<'a>) -> Result<Measure<'a>, Fault<'a>>
    ensures ok { IfOk result (λ measure. IsMeasure (state_of words.now) measure) }
    ensures exact { is_ok result ≡ measure_is_meant (state_of words.now) }
{
    Ok(Measure {
        disk: measured(words)?,
        source_format: format(words, "format")?,
        target_format: new_format(words)?,
        output: output(words)?,
        opening: opening(words)?,
    })
}

/// The disk that is measured: that of a file, or one of a size.
fn measured<'a>(words: &Words<'a>) -> Result<Measured<'a>, Fault<'a>>
    ensures ok { IfOk result (λ disk. IsMeasured (state_of words.now) disk) }
    ensures exact { is_ok result ≡ measured_is_meant (state_of words.now) }
{
    let Some(size) = size(words, "size")? else {
        return Ok(Measured::File(words.one_file()?));
    };
    words.no_file()?;
    Ok(Measured::Size(size))
}

/// What words ask of `resize`.
pub fn resize_of<'a>(words: &Words<'a>) -> Result<Resize<'a>, Fault<'a>>
    ensures ok { IfOk result (λ resize. IsResize (state_of words.now) resize) }
    ensures exact { is_ok result ≡ resize_is_meant (state_of words.now) }
{
    let (file, word) = words.two_files()?;
    Ok(Resize {
        file,
        size: new_size(word)?,
        format: format(words, "format")?,
        shrink: words.has("shrink"),
        quiet: words.has("quiet"),
    })
}

/// The size that a word asks for.
fn new_size<'a>(word: &'a str) -> Result<NewSize, Fault<'a>>
    ensures ok { IfOk result (λ size. new_size_of word.entry.now ≡ Some size) }
    ensures exact { is_ok result ≡ is_some (new_size_of word.entry.now) }
{
    match new_size_named(word) {
        Some(size) => Ok(size),
        None => Err(Fault::NoSize(word)),
    }
}

/// What is said of each image.
fn opening<'a>(words: &Words<'a>) -> Result<Opening, Fault<'a>>
    ensures ok { IfOk result (λ opening. IsOpening (state_of words.now) opening) }
    ensures exact { is_ok result ≡ opening_is_meant (state_of words.now) }
{
    let tables = size(words, "tables")?;
    let max_size = size(words, "max-size")?;
    Ok(Opening {
        strict: words.has("strict"),
        allow_outside: words.has("allow-outside"),
        alone: words.has("alone"),
        tables,
        max_size,
    })
}

/// The format that an option gives.
fn format<'a>(words: &Words<'a>, key: &str) -> Result<Option<Format>, Fault<'a>>
    ensures ok { IfOk result (λ format. format ≡ format_given key.now (state_of words.now)) }
    ensures exact { is_ok result ≡ format_is_meant key.now (state_of words.now) }
{
    let Some(given) = words.last(key) else {
        return Ok(None);
    };
    match Format::named(given.value) {
        Some(format) => Ok(Some(format)),
        None => Err(Fault::Value(given.row.key, given.value)),
    }
}

/// Whether zeroes are left out as holes. Blocks of other sizes aren't offered.
fn sparse<'a>(words: &Words<'a>) -> Result<bool, Fault<'a>>
    ensures ok { IfOk result (λ sparse. sparse ≡ leaves_holes (state_of words.now)) }
    ensures exact { is_ok result ≡ sparse_is_meant (state_of words.now) }
{
    let Some(given) = words.last("sparse") else {
        return Ok(true);
    };
    match size_named(given.value) {
        Some(0) => Ok(false),
        Some(4096) => Ok(true),
        _ => Err(Fault::Value(given.row.key, given.value)),
    }
}

/// How the command prints.
fn output<'a>(words: &Words<'a>) -> Result<Output, Fault<'a>>
    ensures ok { IfOk result (λ output. output ≡ output_given (state_of words.now)) }
    ensures exact { is_ok result ≡ output_is_meant (state_of words.now) }
{
    let given = match words.last("output") {
        None => Output::Human,
        Some(given) => match Output::named(given.value) {
            Some(output) => output,
            None => return Err(Fault::Value(given.row.key, given.value)),
        },
    };
    if words.has("json") {
        Ok(Output::Json)
    } else {
        Ok(given)
    }
}

/// The size that an option gives.
fn size<'a>(words: &Words<'a>, key: &str) -> Result<Option<u64>, Fault<'a>>
    ensures ok { IfOk result (λ size. size ≡ size_given key.now (state_of words.now)) }
    ensures exact { is_ok result ≡ size_is_meant key.now (state_of words.now) }
{
    let Some(given) = words.last(key) else {
        return Ok(None);
    };
    match size_named(given.value) {
        Some(size) => Ok(Some(size)),
        None => Err(Fault::Value(given.row.key, given.value)),
    }
}

// SPDX-License-Identifier: MIT
//! How a command line is tried.

use imago_words::command::{Backing, Command, Measured, Opening, Output};
use imago_words::format::Format;
use imago_words::help::{Help, SettingsHelp, VERSION};
use imago_words::settings::NewFormat;
use std::alloc::{AllocError, Global};
use std::process::Abort;

/// A command line, its status, and what is told of it.
#[derive(Drop)]
pub struct Case {
    /// Its words.
    pub words: &'static [&'static str],
    /// The status of a refusal; 0 where it is none.
    pub status: u8,
    /// What a refusal or help prints; or the command and its fields.
    pub text: &'static str,
}

/// Tries command lines. One that is told otherwise is tried again: memory may have been refused.
pub fn check_cases(rt: &impl Abort, alloc: Global, cases: &[Case]) {
    for case in cases {
        if !is_as_wanted(alloc, case) {
            check_case(rt, alloc, case);
        }
    }
}

/// Whether a command line comes to what is wanted.
fn is_as_wanted(alloc: Global, case: &Case) -> bool {
    match answer(alloc, case.words) {
        Ok((status, text)) => status == case.status && text.as_str() == case.text,
        Err(_) => false,
    }
}

/// Tries a command line.
fn check_case(rt: &impl Abort, alloc: Global, case: &Case) {
    let answer = answer(alloc, case.words);
    let wanted = case.text;
    assert!(rt; answer.is_ok(), "{wanted}");
    let Ok((status, text)) = answer else { return };
    assert!(rt; text.as_str() == wanted, "{text}");
    assert_eq!(rt; status, case.status, "{wanted}");
}

/// The status and the text of a command line.
fn answer(alloc: Global, list: &[&str]) -> Result<(u8, String), AllocError> {
    let mut words = Vec::new(alloc);
    for word in list {
        words.push(String::from_str(alloc, word)?)?;
    }
    match Command::read(alloc, &words) {
        Ok(command) => Ok((0, shown(alloc, command)?)),
        Err(refusal) => Ok((refusal.status(), format!(in alloc; "{refusal}")?)),
    }
}

/// What help prints, or a command with its fields.
fn shown(alloc: Global, command: Command<'_>) -> Result<String, AllocError> {
    match command {
        Command::Help(kind) => format!(in alloc; "{}", Help(kind)),
        Command::Version => format!(in alloc; "imago-img {VERSION}"),
        Command::Settings(format) => format!(in alloc; "{}", SettingsHelp(format)),
        Command::Info(info) => {
            let rules = opening(alloc, info.opening)?;
            let (format, output) = (format(info.format), output(info.output));
            let chain = if info.backing_chain { " chain" } else { "" };
            format!(in alloc; "info {:?} {format} {output}{chain}{rules}", info.file)
        }
        Command::Map(map) => {
            let rules = opening(alloc, map.opening)?;
            let (format, output) = (format(map.format), output(map.output));
            format!(in alloc; "map {:?} {format} {output}{rules}", map.file)
        }
        Command::Check(check) => {
            let rules = opening(alloc, check.opening)?;
            let (format, output) = (format(check.format), output(check.output));
            format!(in alloc; "check {:?} {format} {output}{rules}", check.file)
        }
        Command::Vet(vet) => {
            let rules = opening(alloc, vet.opening)?;
            let (format, output) = (format(vet.format), output(vet.output));
            format!(in alloc; "vet {:?} {format} {output}{rules}", vet.file)
        }
        Command::Compare(compare) => {
            let rules = opening(alloc, compare.opening)?;
            let told = told(compare.progress, compare.quiet);
            let same = if compare.same_size { " same-size" } else { "" };
            let (first, second) = (format(compare.first_format), format(compare.second_format));
            format!(in alloc;
                "compare {:?} {first} {:?} {second}{same}{told}{rules}",
                compare.first, compare.second
            )
        }
        Command::Convert(convert) => {
            let rules = opening(alloc, convert.opening)?;
            let told = told(convert.progress, convert.quiet);
            let force = if convert.force { " force" } else { "" };
            let existing = if convert.existing { " existing" } else { "" };
            let full = if convert.sparse { "" } else { " full" };
            let source = format(convert.source_format);
            let target = new_format(alloc, convert.target_format)?;
            format!(in alloc;
                "convert {:?} {source} {:?} {target}{force}{existing}{full}{told}{rules}",
                convert.source, convert.target
            )
        }
        Command::Create(create) => {
            let rules = opening(alloc, create.opening)?;
            let told = told(false, create.quiet);
            let force = if create.force { " force" } else { "" };
            let new = new_format(alloc, create.format)?;
            let (below, size) = (below(alloc, create.backing)?, create.size);
            format!(in alloc;
                "create {:?} {new}{below} {size:?}{force}{told}{rules}",
                create.target
            )
        }
        Command::Measure(measure) => {
            let rules = opening(alloc, measure.opening)?;
            let (source, output) = (format(measure.source_format), output(measure.output));
            let new = new_format(alloc, measure.target_format)?;
            match measure.disk {
                Measured::File(file) => {
                    format!(in alloc; "measure {file:?} {source} {new} {output}{rules}")
                }
                Measured::Size(size) => {
                    format!(in alloc; "measure {size} {source} {new} {output}{rules}")
                }
            }
        }
        Command::Resize(resize) => {
            let told = told(false, resize.quiet);
            let shrink = if resize.shrink { " shrink" } else { "" };
            let (format, size) = (format(resize.format), resize.size);
            format!(in alloc; "resize {:?} {format} {size:?}{shrink}{told}", resize.file)
        }
    }
}

/// The format of a new file, and its settings.
fn new_format(alloc: Global, format: NewFormat) -> Result<String, AllocError> {
    match format {
        NewFormat::Raw => format!(in alloc; "raw"),
        NewFormat::Qcow2(settings) => {
            let (version, bits) = (settings.version, settings.cluster_bits);
            let tables = if settings.preallocated { " tables" } else { "" };
            format!(in alloc; "qcow2 {version:?} {bits}{tables}")
        }
    }
}

/// The layer below a new image.
fn below(alloc: Global, backing: Option<Backing<'_>>) -> Result<String, AllocError> {
    match backing {
        None => format!(in alloc; ""),
        Some(backing) => {
            let format = format(Some(backing.format));
            format!(in alloc; " over {:?} {format}", backing.file)
        }
    }
}

fn format(format: Option<Format>) -> &'static str {
    match format {
        None => "any",
        Some(Format::Raw) => "raw",
        Some(Format::Vmdk) => "vmdk",
        Some(Format::Qcow2) => "qcow2",
    }
}

fn output(output: Output) -> &'static str {
    match output {
        Output::Human => "human",
        Output::Json => "json",
    }
}

fn told(progress: bool, quiet: bool) -> &'static str {
    match (progress, quiet) {
        (false, false) => "",
        (true, false) => " progress",
        (false, true) => " quiet",
        (true, true) => " progress quiet",
    }
}

fn opening(alloc: Global, opening: Opening) -> Result<String, AllocError> {
    let strict = if opening.strict { " strict" } else { "" };
    let outside = if opening.allow_outside {
        " outside"
    } else {
        ""
    };
    let alone = if opening.alone { " alone" } else { "" };
    match opening.tables {
        None => format!(in alloc; "{strict}{outside}{alone}"),
        Some(size) => format!(in alloc; "{strict}{outside}{alone} tables {size}"),
    }
}

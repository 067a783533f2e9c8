// SPDX-License-Identifier: MIT
//! A whole command line.
ghost use Rattle.std.specs.Prelude.{◌≡◌, ◌⊎◌, Some, IfErr, IfOk, is_ok, map, string_bytes};
ghost use Rattle.std.specs.Prelude.{true, false};
ghost use Rattle.imago_words.specs.declared.fault.Fault.TheVariants.{Memory};
ghost use Rattle.imago_words.specs.Line.{Asks, IsBehind, IsNamed, IsOf, IsToldOr, answer_of};
ghost use Rattle.imago_words.specs.Line.{behind_is_meant, line_is_meant, named_is_meant};
ghost use Rattle.imago_words.specs.Line.{of_is_meant, told_or_is_meant};
ghost use Rattle.imago_words.specs.Line.{kind_typed, status_for, status_of};
ghost use Rattle.imago_words.specs.Reading.{state_of};
ghost use Rattle.imago_words.specs.Settings.{asks_settings};

use crate::asked::{
    check_of, compare_of, convert_of, create_of, info_of, map_of, measure_of, resize_of, vet_of,
};
use crate::command::Command;
use crate::fault::Fault;
use crate::kind::Kind;
use crate::refusal::Refusal;
use crate::settings::target_format;
use crate::words::Words;
use std::alloc::Global;

impl<'a> Command<'a> {
    /// What the words of a command line ask for, behind the program's name. Except for `Memory`, it
    /// refuses exactly the lines that `line_is_meant` calls unmeant.
    pub fn read(alloc: Global, words: &'a [String]) -> Result<Command<'a>, Refusal<'a>>
        ensures ok { IfOk result (λ command. Asks (map string_bytes words.entry.now) command) }
        ensures meant { IfOk result
            (λ _. line_is_meant (map string_bytes words.entry.now) ≡ true) }
        ensures err { IfErr result (λ refusal. (refusal.fault ≡ Memory)
            ⊎ (line_is_meant (map string_bytes words.entry.now) ≡ false)) }
        ensures status { IfErr result
            (λ refusal. status_of refusal
            ≡ status_for (kind_typed (map string_bytes words.entry.now))) }
    {
        let Some((first, behind)) = words.split_first() else {
            return Err(Refusal::new(alloc, Fault::NoCommand, None));
        };
        let first = first.as_str();
        if let Some(answer) = answer_of(first) {
            return Ok(answer);
        }
        let Some(kind) = Kind::named(first) else {
            return Err(Refusal::new(alloc, Fault::UnknownCommand(first), None));
        };
        match read_behind(alloc, kind, behind) {
            Ok(command) => Ok(command),
            Err(fault) => Err(Refusal::new(alloc, fault, Some(kind))),
        }
    }
}

/// What a first word asks for that is no command's name.
#[tactic(auto, unfolding(crate::specs::Line::answer_of))]
fn answer_of<'a>(word: &str) -> Option<Command<'a>>
    ensures { result ≡ answer_of word.now }
{
    match word {
        "-h" | "--help" => Some(Command::Help(None)),
        "-V" | "--version" => Some(Command::Version),
        _ => None,
    }
}

/// What the words behind a command's name ask for.
fn read_behind<'a>(
    alloc: Global,
    kind: Kind,
    behind: &'a [String],
) -> Result<Command<'a>, Fault<'a>>
    ensures ok { IfOk result
        (λ command. IsNamed (Some kind) (map string_bytes behind.entry.now) command) }
    ensures meant { IfOk result (λ _.
        named_is_meant (Some kind) (map string_bytes behind.entry.now) ≡ true) }
    ensures err { IfErr result (λ fault. (fault ≡ Memory)
        ⊎ (named_is_meant (Some kind) (map string_bytes behind.entry.now) ≡ false)) }
{
    let words = Words::read(alloc, kind.page().rows, behind)?;
    asked(kind, &words)
}

/// What options ask for in place of a command, and else what the command is asked.
fn asked<'a>(kind: Kind, words: &Words<'a>) -> Result<Command<'a>, Fault<'a>>
    ensures ok { IfOk result (λ command. IsBehind kind (state_of words.now) command) }
    ensures exact { is_ok result ≡ behind_is_meant kind (state_of words.now) }
{
    if words.has("help") {
        return Ok(Command::Help(Some(kind)));
    }
    if words.has("version") {
        return Ok(Command::Version);
    }
    told_or_asked(kind, words)
}

/// The settings of a new file, where `-o help` asks for them, and else what the command is asked.
fn told_or_asked<'a>(kind: Kind, words: &Words<'a>) -> Result<Command<'a>, Fault<'a>>
    ensures ok { IfOk result
        (λ command. IsToldOr (asks_settings (state_of words.now)) kind (state_of words.now)
        command) }
    ensures exact { is_ok result
        ≡ told_or_is_meant (asks_settings (state_of words.now)) kind (state_of words.now) }
{
    if words.asks_settings() {
        return Ok(Command::Settings(target_format(words)?));
    }
    asked_of(kind, words)
}

/// What a command is asked.
fn asked_of<'a>(kind: Kind, words: &Words<'a>) -> Result<Command<'a>, Fault<'a>>
    ensures ok { IfOk result (λ command. IsOf kind (state_of words.now) command) }
    ensures exact { is_ok result ≡ of_is_meant kind (state_of words.now) }
{
    match kind {
        Kind::Info => info_of(words).map(Command::Info),
        Kind::Map => map_of(words).map(Command::Map),
        Kind::Check => check_of(words).map(Command::Check),
        Kind::Vet => vet_of(words).map(Command::Vet),
        Kind::Compare => compare_of(words).map(Command::Compare),
        Kind::Convert => convert_of(words).map(Command::Convert),
        Kind::Create => create_of(words).map(Command::Create),
        Kind::Measure => measure_of(words).map(Command::Measure),
        Kind::Resize => resize_of(words).map(Command::Resize),
    }
}

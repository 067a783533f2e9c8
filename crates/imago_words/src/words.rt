// SPDX-License-Identifier: MIT
//! The words behind a command's name, read by the table of its options.
ghost use Rattle.std.specs.Prelude.{◌≡◌, ◌∷◌, ◌⊎◌, [], if◌then◌else◌, Some, None, IfErr, IfOk};
ghost use Rattle.std.specs.Prelude.{◌||◌, OnOk, is_ok, is_some};
ghost use Rattle.std.specs.Option.{option_to_list};
ghost use Rattle.std.specs.Prelude.{map, option_map, string_bytes, length, nat_eq};
ghost use Rattle.std.specs.List.{list_any};
ghost use Rattle.std.specs.Str.{bytes_eq};
ghost use Rattle.imago_words.specs.declared.fault.Fault.TheVariants.{Memory};
ghost use Rattle.imago_words.specs.Reading.{known, letters, named, read_of, state_of, step};
ghost use Rattle.imago_words.specs.Reading.{valued_letter, with_file, with_given};
ghost use Rattle.imago_words.specs.Reading.{is_key, last_given, last_of, shown, was_given};
ghost use Rattle.imago_words.specs.Settings.{asks_help, asks_settings, with_option, with_options};

use crate::cut::{begins_number, cut_at_equals, cut_dash, cut_letter};
use crate::fault::Fault;
use crate::row::{Row, find_letter, find_name};
use crate::settings::{Settings, has_help};
use std::alloc::Global;

/// An option that was given.
#[derive(Clone, Copy)]
pub struct Given<'a> {
    /// The option.
    pub row: Row,
    /// Its value; empty if it takes none.
    pub value: &'a str,
}

/// What the words behind a command's name are.
#[derive(Drop)]
pub struct Words<'a> {
    waiting: Option<Row>,
    only_files: bool,
    given: Vec<Given<'a>>,
    files: Vec<&'a str>,
}

impl<'a> Words<'a> {
    /// Reads the words behind a command's name by its options. Except for `Memory`, it refuses
    /// exactly what `read_of` gives no reading.
    #[tactic(auto, unfolding(crate::specs::Reading::steps))]
    pub fn read(alloc: Global, rows: &[Row], words: &'a [String]) -> Result<Words<'a>, Fault<'a>>
        ensures ok { IfOk result
            (λ read. read_of (map known rows.now) (map string_bytes words.entry.now)
            ≡ Some (state_of read)) }
        ensures err { IfErr result (λ e. (e ≡ Memory)
            ⊎ (read_of (map known rows.now) (map string_bytes words.entry.now) ≡ None)) }
    {
        let mut read = Words {
            waiting: None,
            only_files: false,
            given: Vec::new(alloc),
            files: Vec::new(alloc),
        };
        let mut rest = words;
        while let Some((word, behind)) = rest.split_first() {
            read.take(rows, word.as_str())?;
            rest = behind;
        }
        match read.waiting {
            Some(row) => Err(Fault::NoValue(row.key)),
            None => Ok(read),
        }
    }

    /// Takes a word.
    fn take(&mut self, rows: &[Row], word: &'a str) -> Result<(), Fault<'a>>
        ensures ok { OnOk result
            (step (map known rows.now) word.entry.now (state_of self.old)
            ≡ Some (state_of self.new)) }
        ensures err { IfErr result (λ e. (e ≡ Memory)
            ⊎ (step (map known rows.now) word.entry.now (state_of self.old) ≡ None)) }
    {
        if let Some(row) = self.waiting {
            self.waiting = None;
            return self.give(row, word);
        }
        if self.only_files {
            return self.take_file(word);
        }
        let Some(rest) = cut_dash(word) else {
            return self.take_file(word);
        };
        if rest.is_empty() || begins_number(rest.as_bytes()) {
            return self.take_file(word);
        }
        let Some(name) = cut_dash(rest) else {
            return self.take_letters(rows, rest, word);
        };
        if name.is_empty() {
            self.only_files = true;
            return Ok(());
        }
        self.take_name(rows, name, word)
    }

    /// Takes a file.
    fn take_file(&mut self, word: &'a str) -> Result<(), Fault<'a>>
        ensures ok { OnOk result
            (state_of self.new ≡ with_file word.entry.now (state_of self.old)) }
        ensures err { IfErr result (λ e. e ≡ Memory) }
    {
        self.files.push(word)?;
        Ok(())
    }

    /// Takes an option with its value.
    fn give(&mut self, row: Row, value: &'a str) -> Result<(), Fault<'a>>
        ensures ok { OnOk result
            (state_of self.new ≡ with_given (known row) value.entry.now (state_of self.old)) }
        ensures err { IfErr result (λ e. e ≡ Memory) }
    {
        self.given.push(Given { row, value })?;
        Ok(())
    }

    /// Takes an option by its name, which may have its value behind `=`.
    fn take_name(&mut self, rows: &[Row], text: &'a str, word: &'a str) -> Result<(), Fault<'a>>
        ensures ok { OnOk result
            (named (map known rows.now) text.entry.now (state_of self.old)
            ≡ Some (state_of self.new)) }
        ensures err { IfErr result (λ e. (e ≡ Memory)
            ⊎ (named (map known rows.now) text.entry.now (state_of self.old) ≡ None)) }
    {
        let Some((name, value)) = cut_at_equals(text) else {
            let Some(row) = find_name(rows, text) else {
                return Err(Fault::UnknownName { word, name: text });
            };
            if row.takes_value() {
                self.waiting = Some(row);
                return Ok(());
            }
            return self.give(row, "");
        };
        let Some(row) = find_name(rows, name) else {
            return Err(Fault::UnknownName { word, name });
        };
        if !row.takes_value() {
            return Err(Fault::NoneTaken(row.key));
        }
        self.give(row, value)
    }

    /// Takes options by their letters.
    #[tactic(auto, using(crate::proofs::ReadingSteps::letters_step, crate::proofs::ReadingSteps::letters_end))]
    fn take_letters(&mut self, rows: &[Row], text: &'a str, word: &'a str) -> Result<(), Fault<'a>>
        ensures ok { OnOk result
            (letters (map known rows.now) text.entry.now (state_of self.old)
            ≡ Some (state_of self.new)) }
        ensures err { IfErr result (λ e. (e ≡ Memory)
            ⊎ (letters (map known rows.now) text.entry.now (state_of self.old) ≡ None)) }
    {
        let mut rest = text;
        while !rest.is_empty() {
            let Some((letter, behind)) = cut_letter(rest) else {
                return Err(Fault::UnknownLetter { word, letter: "" });
            };
            let Some(row) = find_letter(rows, letter) else {
                return Err(Fault::UnknownLetter { word, letter });
            };
            if row.takes_value() {
                return self.take_value(row, behind);
            }
            self.give(row, "")?;
            rest = behind;
        }
        Ok(())
    }

    /// Takes an option with what stands behind its letter. If nothing does, the next word is its
    /// value.
    fn take_value(&mut self, row: Row, behind: &'a str) -> Result<(), Fault<'a>>
        ensures ok { OnOk result
            (state_of self.new ≡ valued_letter (known row) behind.entry.now (state_of self.old)) }
        ensures err { IfErr result (λ e. e ≡ Memory) }
    {
        if behind.is_empty() {
            self.waiting = Some(row);
            return Ok(());
        }
        self.give(row, behind)
    }

    /// Whether an option was given.
    pub fn has(&self, key: &str) -> bool
        ensures { result ≡ was_given key.now (state_of self.now) }
    {
        has_key(&self.given, key)
    }

    /// An option with its value: the last one, if it was given more than once.
    pub fn last(&self, key: &str) -> Option<Given<'a>>
        ensures { option_map shown result ≡ last_given key.now (state_of self.now) }
    {
        last_of(&self.given, key)
    }

    /// Those settings, with what all `-o` together add.
    pub(crate) fn add_options(&self, settings: Settings) -> Result<Settings, Fault<'a>>
        ensures ok { IfOk result
            (λ s. with_options (state_of self.now).given settings ≡ Some s) }
        ensures exact { is_ok result
            ≡ is_some (with_options (state_of self.now).given settings) }
    {
        add_options(&self.given, settings)
    }

    /// Whether one of the `-o` asks which settings there are.
    pub(crate) fn asks_settings(&self) -> bool
        ensures { result ≡ asks_settings (state_of self.now) }
    {
        ask_settings(&self.given)
    }

    /// No file, if there is none.
    pub fn no_file(&self) -> Result<(), Fault<'a>>
        ensures ok { OnOk result ((state_of self.now).files ≡ []) }
        ensures exact { is_ok result ≡ nat_eq (length (state_of self.now).files) 0 }
    {
        match self.files.as_slice() {
            [] => Ok(()),
            [more, ..] => Err(Fault::ManyFiles(*more)),
        }
    }

    /// The file, and the word behind it, if there is exactly one or none.
    pub fn file_and_word(&self) -> Result<(&'a str, Option<&'a str>), Fault<'a>>
        ensures ok { IfOk result (λ f. (state_of self.now).files
            ≡ f.0.now ∷ option_to_list (option_map (λ w. w.now) f.1)) }
        ensures exact { is_ok result ≡ (nat_eq (length (state_of self.now).files) 1
            || nat_eq (length (state_of self.now).files) 2) }
    {
        match self.files.as_slice() {
            [] => Err(Fault::FewFiles),
            [file] => Ok((*file, None)),
            [file, word] => Ok((*file, Some(*word))),
            [_, _, more, ..] => Err(Fault::ManyFiles(*more)),
        }
    }

    /// The file, if there is exactly one.
    pub fn one_file(&self) -> Result<&'a str, Fault<'a>>
        ensures ok { IfOk result (λ f. (state_of self.now).files ≡ f.now ∷ []) }
        ensures exact { is_ok result ≡ nat_eq (length (state_of self.now).files) 1 }
    {
        match self.files.as_slice() {
            [] => Err(Fault::FewFiles),
            [file] => Ok(*file),
            [_, more, ..] => Err(Fault::ManyFiles(*more)),
        }
    }

    /// The two files in their order, if there are exactly two.
    pub fn two_files(&self) -> Result<(&'a str, &'a str), Fault<'a>>
        ensures ok { IfOk result (λ f. (state_of self.now).files ≡ f.0.now ∷ f.1.now ∷ []) }
        ensures exact { is_ok result ≡ nat_eq (length (state_of self.now).files) 2 }
    {
        match self.files.as_slice() {
            [] | [_] => Err(Fault::FewFiles),
            [first, second] => Ok((*first, *second)),
            [_, _, more, ..] => Err(Fault::ManyFiles(*more)),
        }
    }
}

/// Whether one of the options has that key.
fn has_key(given: &[Given<'_>], key: &str) -> bool
    ensures { result ≡ list_any (λ g. bytes_eq g.row.key.now key.now) given.now }
{
    given.iter().any(|first| first.row.key == key)
}

/// Whether one of the options is an `-o` that asks which settings there are.
fn ask_settings(given: &[Given<'_>]) -> bool
    ensures { result ≡ list_any (λ g. asks_help (shown g)) given.now }
{
    given.iter().any(|first| asks_help(*first))
}

/// Whether an option is an `-o` that asks which settings there are.
fn asks_help(given: Given<'_>) -> bool
    ensures { result ≡ asks_help (shown given.entry) }
{
    given.row.key == "options" && has_help(given.value)
}

/// Those settings, with what the options among them add that say more of these.
fn add_options<'a>(given: &[Given<'a>], settings: Settings) -> Result<Settings, Fault<'a>>
    ensures ok { IfOk result (λ s. with_options (map shown given.now) settings ≡ Some s) }
    ensures exact { is_ok result ≡ is_some (with_options (map shown given.now) settings) }
{
    let mut added = settings;
    for first in given {
        added = add_option(*first, added)?;
    }
    Ok(added)
}

/// Those settings, with what an option adds.
fn add_option<'a>(given: Given<'a>, settings: Settings) -> Result<Settings, Fault<'a>>
    ensures ok { IfOk result (λ s. with_option (shown given.entry) settings ≡ Some s) }
    ensures exact { is_ok result ≡ is_some (with_option (shown given.entry) settings) }
{
    if given.row.key != "options" {
        return Ok(settings);
    }
    settings.set_all(given.value)
}

/// The last of the options that has that key.
fn last_of<'a>(given: &[Given<'a>], key: &str) -> Option<Given<'a>>
    ensures { option_map shown result ≡ last_of key.now None (map shown given.now) }
{
    let mut found = None;
    for first in given {
        found = later(found, *first, key);
    }
    found
}

/// The option that counts, of one that was found and one behind it.
fn later<'a>(found: Option<Given<'a>>, given: Given<'a>, key: &str) -> Option<Given<'a>>
    ensures { option_map shown result
        ≡ (if is_key key.now (shown given.entry) then Some (shown given.entry)
        else option_map shown found.entry) }
{
    if given.row.key == key {
        Some(given)
    } else {
        found
    }
}

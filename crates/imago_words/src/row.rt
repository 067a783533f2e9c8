// SPDX-License-Identifier: MIT
//! The rows of the table: an option of a command each.
ghost use Rattle.std.specs.Prelude.{◌≡◌, map, option_map};
ghost use Rattle.imago_words.specs.Reading.{known, option_named, option_of_letter, same_name};

use std::fmt::{self, Display};

/// An option of a command.
#[derive(Clone, Copy)]
pub struct Row {
    /// What the program's code calls it. It isn't typed, and nothing prints it.
    pub key: &'static str,
    /// Its letter, which is typed behind a dash; empty if it has none.
    pub letter: &'static str,
    /// Its name, which is typed behind two dashes; empty if it has none.
    pub name: &'static str,
    /// What help calls its value; empty if it takes none.
    pub value: &'static str,
    /// The values that it takes, as `raw or qcow2`; empty if its help says all.
    pub takes: &'static str,
    /// What help says of it.
    pub help: &'static str,
}

impl Row {
    /// Whether the option takes a value.
    pub fn takes_value(&self) -> bool
        ensures { result ≡ (known self.now).takes_value }
    {
        !self.value.is_empty()
    }

    /// The space before its value; empty if it takes none.
    pub(crate) fn gap(&self) -> &'static str {
        if self.takes_value() { " " } else { "" }
    }

    /// What it takes, in words.
    pub(crate) fn taken(&self) -> &'static str {
        if self.takes.is_empty() {
            self.value
        } else {
            self.takes
        }
    }
}

/// An option as it is typed: by its letter, if it has one.
#[derive(Clone, Copy)]
pub(crate) struct Name(pub Row);

impl Display for Name {
    fn fmt<W: fmt::Write>(&self, f: &mut fmt::Formatter<W>) -> fmt::Result {
        if self.0.letter.is_empty() {
            write!(f, "--{}", self.0.name)
        } else {
            write!(f, "-{}", self.0.letter)
        }
    }
}

/// The first option of that name. An empty name is no option's.
pub(crate) fn find_name(rows: &[Row], name: &str) -> Option<Row>
    ensures { option_map known result ≡ option_named (map known rows.now) name.now }
{
    if name.is_empty() {
        return None;
    }
    first_named(rows, name)
}

/// The first option whose name is the same text.
fn first_named(rows: &[Row], name: &str) -> Option<Row>
    ensures { option_map known result ≡ same_name (map known rows.now) name.now }
{
    let mut rest = rows;
    while let Some((row, behind)) = rest.split_first() {
        if row.name == name {
            return Some(*row);
        }
        rest = behind;
    }
    None
}

/// The first option of that letter.
pub(crate) fn find_letter(rows: &[Row], letter: &str) -> Option<Row>
    ensures { option_map known result ≡ option_of_letter (map known rows.now) letter.now }
{
    let mut rest = rows;
    while let Some((row, behind)) = rest.split_first() {
        if row.letter == letter {
            return Some(*row);
        }
        rest = behind;
    }
    None
}

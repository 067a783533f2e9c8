// SPDX-License-Identifier: MIT
//! Why the words of a command line are no command.
ghost use Rattle.std.specs.Prelude.{◌≡◌};
ghost use Rattle.imago_words.specs.declared.fault.Fault.TheVariants.{Memory};

use std::alloc::{AllocError, AllocFailed};

/// Why the words of a command line are no command.
#[derive(Clone, Copy)]
pub enum Fault<'a> {
    /// There is no word.
    NoCommand,
    /// The first word isn't the name of a command.
    UnknownCommand(&'a str),
    /// A word has a letter that is no option of the command.
    UnknownLetter {
        /// The word.
        word: &'a str,
        /// The letter; empty if it isn't ASCII.
        letter: &'a str,
    },
    /// A word has a name that is no option of the command.
    UnknownName {
        /// The word.
        word: &'a str,
        /// The name, without its dashes.
        name: &'a str,
    },
    /// The last word is an option, and its value is missing: the option's key.
    NoValue(&'static str),
    /// The option of that key takes no value, and was given one.
    NoneTaken(&'static str),
    /// The option of that key doesn't take the value that it was given.
    Value(&'static str, &'a str),
    /// `-o` doesn't take a setting, or the value of it.
    Setting(&'a str),
    /// Options don't go together, as is said here.
    Unfit(&'static str),
    /// A word isn't the size that stands there.
    NoSize(&'a str),
    /// A file is missing, or a size.
    FewFiles,
    /// A word is one file too many.
    ManyFiles(&'a str),
    /// Memory was refused.
    Memory,
}

impl From<AllocError> for Fault<'_> {
    ghost from_gives = { λ _ e. e ≡ Memory };

    fn from(_refused: AllocError) -> Self {
        Fault::Memory
    }
}

impl<T: Drop> From<AllocFailed<T>> for Fault<'_> {
    ghost from_gives = { λ _ e. e ≡ Memory };

    fn from(refused: AllocFailed<T>) -> Self {
        let _ = refused;
        Fault::Memory
    }
}

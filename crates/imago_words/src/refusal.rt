// SPDX-License-Identifier: MIT
//! What is told if the words of a command line are no command.
ghost use Rattle.std.specs.Prelude.{◌≡◌};
ghost use Rattle.imago_words.specs.Line.{status_of};

use crate::fault::Fault;
use crate::hint::{Hint, hint_of};
use crate::kind::Kind;
use crate::page::Page;
use crate::row::{Name, Row};
use std::alloc::Global;
use std::fmt::{self, Display};

/// Why the words of a command line are no command. It prints one line, without a newline, which
/// ends with the command's help; a word in it is quoted, and its control characters are escaped.
#[derive(Clone, Copy)]
pub struct Refusal<'a> {
    /// What is wrong with them.
    pub fault: Fault<'a>,
    /// The command that the first word names.
    pub kind: Option<Kind>,
    /// What may help.
    pub hint: Hint,
}

impl<'a> Refusal<'a> {
    /// The refusal of a command line with that fault.
    pub(crate) fn new(alloc: Global, fault: Fault<'a>, kind: Option<Kind>) -> Refusal<'a>
        ensures fault { result.fault ≡ fault.entry }
        ensures kind { result.kind ≡ kind }
    {
        Refusal {
            fault,
            kind,
            hint: hint_of(alloc, &fault, kind),
        }
    }

    /// The exit status.
    pub fn status(&self) -> u8
        ensures { result ≡ status_of self.now }
    {
        match self.kind {
            Some(Kind::Compare) => 2,
            _ => 1,
        }
    }

    /// Tells what is wrong with the words behind a command's name.
    fn fmt_fault<W: fmt::Write>(&self, f: &mut fmt::Formatter<W>, page: &Page) -> fmt::Result {
        match self.fault {
            Fault::FewFiles | Fault::ManyFiles(_) => fmt_files(f, self.fault, page),
            Fault::UnknownLetter { word, .. } | Fault::UnknownName { word, .. } => {
                fmt_option(f, word, self.hint, page)
            }
            Fault::Setting(setting) => fmt_setting(f, setting, self.hint),
            Fault::Unfit(why) => f.write_str(why),
            Fault::NoSize(word) => write!(f, "{word:?} isn't a size such as 64M"),
            _ => fmt_value(f, self.fault, page),
        }
    }

    /// Tells why no command is named.
    fn fmt_unnamed<W: fmt::Write>(&self, f: &mut fmt::Formatter<W>) -> fmt::Result {
        match self.fault {
            Fault::UnknownCommand(word) => write!(f, "{word:?} isn't a command of imago-img")?,
            _ => f.write_str("no command is named")?,
        }
        fmt_hint(f, self.hint)?;
        f.write_str("; see imago-img --help")
    }
}

impl Display for Refusal<'_> {
    fn fmt<W: fmt::Write>(&self, f: &mut fmt::Formatter<W>) -> fmt::Result {
        let Some(kind) = self.kind else {
            return self.fmt_unnamed(f);
        };
        if let Fault::Memory = self.fault {
            return f.write_str("out of memory");
        }
        let page = kind.table();
        self.fmt_fault(f, page)?;
        write!(f, "; see imago-img {} --help", page.name)
    }
}

/// Tells what may help with a word that is no command's name.
fn fmt_hint<W: fmt::Write>(f: &mut fmt::Formatter<W>, hint: Hint) -> fmt::Result {
    match hint {
        Hint::Instead(absent) => write!(f, ": {}", absent.instead),
        Hint::Near(name) => write!(f, " (did you mean {name}?)"),
        Hint::Nothing => Ok(()),
    }
}

/// Tells of an option that the command hasn't.
fn fmt_option<W: fmt::Write>(
    f: &mut fmt::Formatter<W>,
    word: &str,
    hint: Hint,
    page: &Page,
) -> fmt::Result {
    match hint {
        Hint::Instead(absent) => {
            write!(
                f,
                "{} has no {}: {}",
                page.name, absent.name, absent.instead
            )
        }
        Hint::Near(name) => {
            write!(
                f,
                "{} has no option {word:?} (did you mean --{name}?)",
                page.name
            )
        }
        Hint::Nothing => write!(f, "{} has no option {word:?}", page.name),
    }
}

/// Tells of an option's value.
fn fmt_value<W: fmt::Write>(
    f: &mut fmt::Formatter<W>,
    fault: Fault<'_>,
    page: &Page,
) -> fmt::Result {
    let (Fault::NoValue(key) | Fault::NoneTaken(key) | Fault::Value(key, _)) = fault else {
        return Ok(());
    };
    for row in page.rows {
        if row.key == key {
            return fmt_taken(f, fault, row);
        }
    }
    Ok(())
}

/// Tells what an option takes, and what it was given.
fn fmt_taken<W: fmt::Write>(f: &mut fmt::Formatter<W>, fault: Fault<'_>, row: &Row) -> fmt::Result {
    let name = Name(*row);
    match fault {
        Fault::NoneTaken(_) => write!(f, "{name} takes no value"),
        Fault::Value(_, value) => write!(f, "{name} takes {}, not {value:?}", row.taken()),
        _ => write!(f, "{name} takes {}, which is missing", row.taken()),
    }
}

/// Tells of a setting that `-o` doesn't take.
fn fmt_setting<W: fmt::Write>(f: &mut fmt::Formatter<W>, setting: &str, hint: Hint) -> fmt::Result {
    match hint {
        Hint::Instead(absent) => write!(f, "-o {setting:?}: {}", absent.instead),
        _ => write!(
            f,
            "-o takes compat=0.10 or 1.1, cluster_size=512 to 2M and preallocation=off or \
            metadata, not {setting:?}"
        ),
    }
}

/// Tells that there are too few or too many files.
fn fmt_files<W: fmt::Write>(
    f: &mut fmt::Formatter<W>,
    fault: Fault<'_>,
    page: &Page,
) -> fmt::Result {
    write!(f, "{} takes {}; ", page.name, page.files)?;
    match fault {
        Fault::ManyFiles(word) => write!(f, "{word:?} is one file too many"),
        _ => f.write_str(if page.files.contains("SIZE") {
            "one of them is missing"
        } else {
            "a file is missing"
        }),
    }
}

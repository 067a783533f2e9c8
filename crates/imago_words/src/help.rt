// SPDX-License-Identifier: MIT
//! What help prints.
use crate::kind::{KINDS, Kind};
use crate::page::{Page, Setting};
use crate::row::{Name, Row};
use crate::settings::TargetFormat;
use crate::table::QCOW2_SETTINGS;
use std::fmt::{self, Display};

/// The version of the program.
pub const VERSION: &str = "0.2.0";

/// The help of a command, or of the program. Its lines have at most 80 columns.
#[derive(Clone, Copy)]
pub struct Help(pub Option<Kind>);

/// How many columns a line has at most.
const COLUMNS: usize = 80;

/// The column in which the help of an option begins.
const HELP_COLUMN: usize = 24;

impl Display for Help {
    fn fmt<W: fmt::Write>(&self, f: &mut fmt::Formatter<W>) -> fmt::Result {
        let Some(kind) = self.0 else {
            return fmt_program(f);
        };
        let page = kind.table();
        fmt_usage(f, page)?;
        for row in page.rows {
            fmt_row(f, row)?;
        }
        Ok(())
    }
}

/// What `-o` may say of a new file of that format, as `qemu-img` lists it: an option a line.
#[derive(Clone, Copy)]
pub struct SettingsHelp(pub TargetFormat);

/// How many columns the name and the value of a setting take.
const SETTING_COLUMNS: usize = 22;

impl Display for SettingsHelp {
    fn fmt<W: fmt::Write>(&self, f: &mut fmt::Formatter<W>) -> fmt::Result {
        match self.0 {
            TargetFormat::Raw => f.write_str("There are no options for raw.\n"),
            TargetFormat::Qcow2 => fmt_settings(f, &QCOW2_SETTINGS),
        }
    }
}

/// The lines of the settings of a qcow2 file.
fn fmt_settings<W: fmt::Write>(f: &mut fmt::Formatter<W>, settings: &[Setting]) -> fmt::Result {
    f.write_str("Supported qcow2 options:\n")?;
    for setting in settings {
        fmt_setting(f, setting)?;
    }
    Ok(())
}

/// The line of a setting.
fn fmt_setting<W: fmt::Write>(f: &mut fmt::Formatter<W>, setting: &Setting) -> fmt::Result {
    let width = setting
        .name
        .len()
        .saturating_add(setting.value.len())
        .saturating_add(3);
    let rest = SETTING_COLUMNS.saturating_sub(width);
    writeln!(
        f,
        "  {}=<{}>{:rest$} - {}",
        setting.name, setting.value, "", setting.help
    )
}

/// The help of the program.
fn fmt_program<W: fmt::Write>(f: &mut fmt::Formatter<W>) -> fmt::Result {
    f.write_str(
        "Describe, list, check, compare, convert and make disk images\n\n\
        usage: imago-img COMMAND [OPTION..] FILE [FILE]\n\nCommands:\n",
    )?;
    for kind in &KINDS {
        fmt_command(f, kind.table())?;
    }
    f.write_str("\nimago-img COMMAND --help prints the options of a command.\n")
}

/// The line of a command.
fn fmt_command<W: fmt::Write>(f: &mut fmt::Formatter<W>, page: &Page) -> fmt::Result {
    writeln!(f, "  {:8} {}", page.name, page.about)
}

/// What a command does, its usage, and the heading of its options.
fn fmt_usage<W: fmt::Write>(f: &mut fmt::Formatter<W>, page: &Page) -> fmt::Result {
    write!(f, "{}\n\nusage: imago-img {}", page.about, page.name)?;
    fmt_arguments(f, page, page.name.len().saturating_add(18))?;
    f.write_str("\n\nOptions:\n")
}

/// The options and files in the usage of a command. Lines behind the first one are indented.
fn fmt_arguments<W: fmt::Write>(
    f: &mut fmt::Formatter<W>,
    page: &Page,
    indent: usize,
) -> fmt::Result {
    let mut column = indent;
    for row in page.rows {
        column = fmt_gap(f, column, width(row), indent)?;
        fmt_option(f, row)?;
    }
    fmt_gap(f, column, page.files.len(), indent)?;
    f.write_str(page.files)
}

/// An option in the usage of a command.
fn fmt_option<W: fmt::Write>(f: &mut fmt::Formatter<W>, row: &Row) -> fmt::Result {
    write!(f, "[{}{}{}]", Name(*row), row.gap(), row.value)
}

/// A space before a text of that width, or a new line if the text would pass its end. Gives the
/// column behind the text.
fn fmt_gap<W: fmt::Write>(
    f: &mut fmt::Formatter<W>,
    column: usize,
    width: usize,
    indent: usize,
) -> Result<usize, fmt::Error> {
    let end = column.saturating_add(width);
    if end > COLUMNS {
        write!(f, "\n{:indent$}", "")?;
        return Ok(indent.saturating_add(width).saturating_add(1));
    }
    f.write_char(' ')?;
    Ok(end.saturating_add(1))
}

/// How wide an option is in the usage.
fn width(row: &Row) -> usize {
    let name = if row.letter.is_empty() {
        row.name.len().saturating_add(4)
    } else {
        4
    };
    name.saturating_add(row.gap().len())
        .saturating_add(row.value.len())
}

/// The line of an option.
fn fmt_row<W: fmt::Write>(f: &mut fmt::Formatter<W>, row: &Row) -> fmt::Result {
    fmt_names(f, row)?;
    let colon = if row.takes.is_empty() { "" } else { ": " };
    writeln!(f, "{}{colon}{}", row.help, row.takes)
}

/// The letter, the name and the value of an option, filled up to the column of its help.
fn fmt_names<W: fmt::Write>(f: &mut fmt::Formatter<W>, row: &Row) -> fmt::Result {
    let (front, between, width) = match (row.letter.is_empty(), row.name.is_empty()) {
        (true, _) => ("      --", "", 8usize),
        (false, true) => ("  -", "", 4),
        (false, false) => ("  -", ", --", 8),
    };
    let gap = row.gap();
    let width = width.saturating_add(row.name.len());
    let rest = HELP_COLUMN.saturating_sub(width.saturating_add(gap.len()));
    write!(
        f,
        "{front}{}{between}{}{gap}{:rest$}",
        row.letter, row.name, row.value
    )
}

// SPDX-License-Identifier: MIT
//! What may help if a word isn't known.
use crate::cut::cut_at_equals;
use crate::fault::Fault;
use crate::kind::{KINDS, Kind};
use crate::page::{Absent, Page};
use crate::table::{ABSENT, ABSENT_SETTINGS};
use std::alloc::{AllocError, Global};
use strsim::jaro;

/// What may help if a word isn't known.
#[derive(Clone, Copy)]
pub enum Hint {
    /// Nothing is known that does.
    Nothing,
    /// What there is in place of what only qemu-img has.
    Instead(Absent),
    /// The name that may be meant, without dashes.
    Near(&'static str),
}

/// What may help with a fault. Where memory is refused, no name is looked for.
pub(crate) fn hint_of(alloc: Global, fault: &Fault<'_>, kind: Option<Kind>) -> Hint {
    match (fault, kind) {
        (Fault::UnknownCommand(word), _) => hint_of_command(alloc, word),
        (Fault::UnknownLetter { word, letter }, Some(kind)) => {
            let text = word.trim_start_matches('-');
            hint_of_option(alloc, kind.table(), "-", letter, text)
        }
        (Fault::UnknownName { name, .. }, Some(kind)) => {
            hint_of_option(alloc, kind.table(), "--", name, name)
        }
        (Fault::Setting(setting), _) => match absent_named(&ABSENT_SETTINGS, "", named(setting)) {
            Some(absent) => Hint::Instead(absent),
            None => Hint::Nothing,
        },
        _ => Hint::Nothing,
    }
}

/// The name of a setting.
fn named(setting: &str) -> &str {
    match cut_at_equals(setting) {
        Some((name, _)) => name,
        None => setting,
    }
}

/// What may help with a word that is no command's name.
fn hint_of_command(alloc: Global, word: &str) -> Hint {
    if let Some(absent) = absent_named(&ABSENT, "", word) {
        return Hint::Instead(absent);
    }
    let mut best = Best::NONE;
    for kind in &KINDS {
        best = best.or(alloc, word, kind.table().name);
    }
    best.hint()
}

/// What may help with an option that the command hasn't, of that name behind its dashes; the text
/// is what may be meant for another one's name.
fn hint_of_option(alloc: Global, page: &Page, dashes: &str, name: &str, text: &str) -> Hint {
    if let Some(absent) = absent_named(page.absent, dashes, name) {
        return Hint::Instead(absent);
    }
    let mut best = Best::NONE;
    for row in page.rows {
        best = best.or(alloc, text, row.name);
    }
    best.hint()
}

/// What only qemu-img has by that name, behind its dashes.
fn absent_named(list: &[Absent], dashes: &str, name: &str) -> Option<Absent> {
    for absent in list {
        if absent.name.strip_prefix(dashes) == Some(name) {
            return Some(*absent);
        }
    }
    None
}

/// The nearest name so far.
#[derive(Clone, Copy)]
struct Best {
    score: f64,
    name: Option<&'static str>,
}

impl Best {
    /// None yet. A name that is less near than that isn't worth to be told.
    const NONE: Best = Best {
        score: 0.8,
        name: None,
    };

    /// The nearer one of this and a name.
    fn or(self, alloc: Global, text: &str, name: &'static str) -> Best {
        match nearness(alloc, text, name) {
            Ok(score) if score > self.score => Best {
                score,
                name: Some(name),
            },
            _ => self,
        }
    }

    /// The name as a hint.
    fn hint(self) -> Hint {
        match self.name {
            Some(name) => Hint::Near(name),
            None => Hint::Nothing,
        }
    }
}

/// How near a name is to a text, from 0 to 1. Of two letters nothing is told.
fn nearness(alloc: Global, text: &str, name: &str) -> Result<f64, AllocError> {
    if text.len() < 3 {
        return Ok(0.0);
    }
    jaro(alloc, text, name)
}

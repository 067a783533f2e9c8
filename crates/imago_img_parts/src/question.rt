// SPDX-License-Identifier: MIT
//! The questions that commands answer.

use imago_words::command::{Check, Compare, Info, Map, Measure, Vet};
use imago_words::kind::Kind;
use imago_words::settings::TargetFormat;

/// A question. Its answer changes no file.
#[derive(Clone, Copy)]
pub enum Question<'a> {
    /// What the options of a command are, or the commands.
    Help(Option<Kind>),
    /// Which version of the program this is.
    Version,
    /// What `-o` may say of a new file of that format.
    Settings(TargetFormat),
    /// What an image is.
    Info(Info<'a>),
    /// Where the bytes of an image's disk stand.
    Map(Map<'a>),
    /// Which faults an image has.
    Check(Check<'a>),
    /// Whether an image from a stranger is safe to hand on.
    Vet(Vet<'a>),
    /// Whether two images show the same.
    Compare(Compare<'a>),
    /// How long the file of a new image would be.
    Measure(Measure<'a>),
}

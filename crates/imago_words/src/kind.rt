// SPDX-License-Identifier: MIT
//! Which command it is.
ghost use Rattle.std.specs.Prelude.{◌≡◌, map};
ghost use Rattle.imago_words.specs.Line.{kind_named};
ghost use Rattle.imago_words.specs.Options.{options_of};
ghost use Rattle.imago_words.specs.Reading.{known};

use crate::page::Page;
use crate::table::{CHECK, COMPARE, CONVERT, CREATE, INFO, MAP, MEASURE, RESIZE, VET};

/// Which command it is.
#[derive(Clone, Copy, PartialEq, Eq)]
pub enum Kind {
    /// `info`, which tells what an image is.
    Info,
    /// `map`, which tells where the bytes of an image's disk stand.
    Map,
    /// `check`, which looks for the faults of an image.
    Check,
    /// `vet`, which tells whether an image from a stranger is safe to hand on.
    Vet,
    /// `compare`, which tells whether two images have the same disk.
    Compare,
    /// `convert`, which writes an image's disk to another image.
    Convert,
    /// `create`, which makes a new image.
    Create,
    /// `measure`, which tells how long the file of a new image would be.
    Measure,
    /// `resize`, which gives a raw image another size.
    Resize,
}

/// The commands in the order in which help lists them.
pub(crate) static KINDS: [Kind; 9] = [
    Kind::Info,
    Kind::Map,
    Kind::Check,
    Kind::Vet,
    Kind::Compare,
    Kind::Convert,
    Kind::Create,
    Kind::Measure,
    Kind::Resize,
];

impl Kind {
    /// The command of that name.
    #[tactic(auto, unfolding(crate::specs::Line::kind_named))]
    pub fn named(name: &str) -> Option<Kind>
        ensures { result ≡ kind_named name.now }
    {
        match name {
            "info" => Some(Kind::Info),
            "map" => Some(Kind::Map),
            "check" => Some(Kind::Check),
            "vet" => Some(Kind::Vet),
            "compare" => Some(Kind::Compare),
            "convert" => Some(Kind::Convert),
            "create" => Some(Kind::Create),
            "measure" => Some(Kind::Measure),
            "resize" => Some(Kind::Resize),
            _ => None,
        }
    }

    /// Its page of the table.
    pub fn page(self) -> Page
        ensures { map known result.rows.now ≡ options_of self }
    {
        *self.table()
    }

    /// Its page, as it stands in the table.
    pub(crate) fn table(self) -> &'static Page
        ensures { map known result.now.rows.now ≡ options_of self }
    {
        match self {
            Kind::Info => &INFO,
            Kind::Map => &MAP,
            Kind::Check => &CHECK,
            Kind::Vet => &VET,
            Kind::Compare => &COMPARE,
            Kind::Convert => &CONVERT,
            Kind::Create => &CREATE,
            Kind::Measure => &MEASURE,
            Kind::Resize => &RESIZE,
        }
    }
}

// SPDX-License-Identifier: MIT
//! Which paths a command asks a host for.
ghost use Rattle.std.specs.Prelude.{◌≡◌};
ghost use Rattle.imago_img_parts.specs.Reaches.{below_reach, copy_when as copy_where};
ghost use Rattle.imago_img_parts.specs.Reaches.{reach_by, read_when as read_where};

use imago_images::confined::Reach;
use imago_words::command::{Backing, Command, Measured};

/// The paths that a command asks for: it reads those that the command line names, where no other
/// files are opened, or else any; and it makes or changes `OUT`, or `FILE` of `resize`, alone.
pub fn reach_of<'a>(command: &Command<'a>) -> Reach<'a>
    ensures { result ≡ reach_by command.now }
{
    match command {
        Command::Help(_) | Command::Version | Command::Settings(_) => Reach::Nothing,
        Command::Info(asked) => read_when(asked.opening.alone, Reach::File(asked.file)),
        Command::Map(asked) => read_when(asked.opening.alone, Reach::File(asked.file)),
        Command::Check(asked) => read_when(asked.opening.alone, Reach::File(asked.file)),
        Command::Vet(asked) => Reach::File(asked.file),
        Command::Compare(asked) => {
            read_when(asked.opening.alone, Reach::Files(asked.first, asked.second))
        }
        Command::Convert(asked) => copy_when(asked.opening.alone, asked.source, asked.target),
        Command::Create(asked) => below_reach(asked.opening.alone, asked.backing, asked.target),
        Command::Measure(asked) => match asked.disk {
            Measured::File(file) => read_when(asked.opening.alone, Reach::File(file)),
            Measured::Size(_) => Reach::Nothing,
        },
        Command::Resize(asked) => Reach::Copy(asked.file, asked.file),
    }
}

/// The paths of a new image, which is read of its layer below alone, if it has one.
fn below_reach<'a>(alone: bool, backing: Option<Backing<'a>>, target: &'a str) -> Reach<'a>
    ensures { result ≡ below_reach alone backing.entry target.entry }
{
    match backing {
        Some(below) => copy_when(alone, below.file, target),
        None => Reach::Fresh(target),
    }
}

/// The paths that the command line names, where no other files are opened, and else all: these are
/// read.
fn read_when<'a>(alone: bool, named: Reach<'a>) -> Reach<'a>
    ensures { result ≡ read_where alone named.entry }
{
    if alone { named } else { Reach::Reading }
}

/// The same where a file is made too.
fn copy_when<'a>(alone: bool, source: &'a str, target: &'a str) -> Reach<'a>
    ensures { result ≡ copy_where alone source.entry target.entry }
{
    if alone {
        Reach::Copy(source, target)
    } else {
        Reach::ReadingInto(target)
    }
}

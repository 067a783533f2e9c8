// SPDX-License-Identifier: MIT
//! What a script answers to a command.
ghost use Rattle.std.specs.Prelude.{◌≤◌, length};

use crate::digits::write_digits;
use crate::session::Image;
use crate::words::NO_BYTES;
use imago::error::{Error, ErrorKind};
use imago::run::Reply;
use std::io::{self, Write};

/// The answer to a command.
#[derive(Drop)]
pub enum Answer<'a> {
    /// It is done, and answers nothing.
    Done,
    /// Whether a storage has an image of a format.
    Probed(bool),
    /// What an image is.
    Shown(&'a Image),
    /// What a call on an image replied.
    Replied(Reply),
    /// It is refused.
    Refused(ErrorKind),
}

impl<'a> From<Result<Answer<'a>, Error>> for Answer<'a> {
    fn from(outcome: Result<Answer<'a>, Error>) -> Answer<'a> {
        match outcome {
            Ok(answer) => answer,
            Err(error) => Answer::Refused(error.kind()),
        }
    }
}

impl<'a> Answer<'a> {
    /// Prints the answer's line.
    pub fn print<W: Write>(&self, output: &mut W) -> io::Result<()> {
        match self {
            Answer::Done => writeln!(output, "ok"),
            Answer::Probed(found) => writeln!(output, "ok {found}"),
            Answer::Shown(image) => writeln!(output, "ok {image}"),
            Answer::Replied(reply) => print_reply(reply, output),
            Answer::Refused(kind) => writeln!(output, "err {kind:?}"),
        }
    }
}

/// Prints the line of a reply.
fn print_reply<W: Write>(reply: &Reply, output: &mut W) -> io::Result<()> {
    match reply {
        Reply::Done => writeln!(output, "ok"),
        Reply::Data(bytes) => print_bytes(bytes, output),
        Reply::Size(size) => writeln!(output, "ok {size}"),
        Reply::Mapped { mapping, length } => writeln!(output, "ok {length} {mapping}"),
        Reply::DataMapped {
            storage,
            offset,
            length,
        } => writeln!(output, "ok {length} {storage}:{offset:#x}"),
        Reply::Prepared { length, .. } => writeln!(output, "ok {length}"),
        Reply::Refused(error) => {
            let kind = error.kind();
            writeln!(output, "err {kind:?}")
        }
    }
}

/// How many bytes are turned into digits at a time.
const PIECE: usize = 4096;

/// Up to how many bytes are few. Their digits get less room, since a function that has room for
/// digits fills all of it with zeroes before it begins.
const FEW: usize = 256;

/// Prints a line of bytes, in hex. It takes no memory, however many they are.
fn print_bytes<W: Write>(bytes: &[u8], output: &mut W) -> io::Result<()> {
    if bytes.is_empty() {
        return writeln!(output, "ok {NO_BYTES}");
    }
    write!(output, "ok ")?;
    if bytes.len() <= FEW {
        print_few(bytes, output)?;
    } else {
        print_many(bytes, output)?;
    }
    writeln!(output)
}

/// Prints the digits of few bytes.
fn print_few<W: Write>(bytes: &[u8], output: &mut W) -> io::Result<()>
    requires { length bytes.now ≤ 256 }
{
    let mut digits = [0; 2 * FEW];
    let digits = &mut digits[..2 * bytes.len()];
    write_digits(bytes, &mut *digits);
    output.write_all(digits)
}

/// Prints the digits of bytes, piece by piece.
#[inline(never)]
fn print_many<W: Write>(bytes: &[u8], output: &mut W) -> io::Result<()> {
    let mut digits = [0; 2 * PIECE];
    let mut rest = bytes;
    'pieces: while !rest.is_empty() {
        let (piece, others) = rest.split_at(rest.len().min(PIECE));
        let digits = &mut digits[..2 * piece.len()];
        write_digits(piece, &mut *digits);
        output.write_all(digits)?;
        rest = others;
    }
    Ok(())
}

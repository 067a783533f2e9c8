// SPDX-License-Identifier: MIT
//! A script: lines of commands, each answered by a line.
ghost use Rattle.std.specs.Prelude.{◌≤◌};

use crate::command::command_of;
use crate::session::Session;
use crate::stop::Stop;
use crate::words::{Fault, cut_at};
use std::alloc::Global;
use std::io::{BufWriter, Read, Write};

/// Reads a script whole, does its commands in order, prints a line for each, and gives the exit
/// status.
///
/// It is 0 where each line was done, also where a command was refused; 2 where a line is malformed,
/// which is told as the last line; and 1 where the input can't be read, the output can't be
/// written, or there is no memory for the script itself.
pub fn script<R: Read, W: Write>(alloc: Global, input: &mut R, output: &mut W) -> u8
    ensures { result ≤ 2 }
{
    let Ok(mut buffered) = BufWriter::new(alloc, &mut *output) else {
        return status_of(Err(Stop::Memory), output);
    };
    let outcome = answer_all(alloc, input, &mut buffered);
    status_of(outcome, &mut buffered)
}

/// Answers each line of the input that isn't empty and no comment.
fn answer_all<R: Read, W: Write>(alloc: Global, input: &mut R, output: &mut W) -> Result<(), Stop> {
    let mut text = Vec::new(alloc);
    input.read_to_end(&mut text)?;
    let mut session = Session::new(alloc);
    let mut number = 0u64;
    let mut rest = text.as_slice();
    'lines: while !rest.is_empty() {
        let (line, behind) = cut_at(b'\n', rest);
        rest = behind;
        number = number.saturating_add(1);
        if line.is_empty() || line.starts_with(b"#") {
            continue;
        }
        match command_of(alloc, line) {
            Ok(command) => session.answer(command)?.print(output)?,
            Err(Fault::Malformed) => return Err(Stop::BadLine(number)),
            Err(Fault::Memory) => return Err(Stop::Memory),
        }
    }
    Ok(())
}

/// Tells why a script stopped, writes what is left of its output, and gives its exit status.
fn status_of<W: Write>(outcome: Result<(), Stop>, output: &mut W) -> u8
    ensures { result ≤ 2 }
{
    let (status, told) = match outcome {
        Ok(()) => (0, Ok(())),
        Err(Stop::BadLine(number)) => (2, writeln!(output, "bad line {number}")),
        Err(Stop::Memory) => (1, writeln!(output, "err OutOfMemory")),
        Err(Stop::Broken) => (1, Ok(())),
    };
    if told.is_err() || output.flush().is_err() {
        return 1;
    }
    status
}

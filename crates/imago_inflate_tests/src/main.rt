// SPDX-License-Identifier: MIT
//! Decodes the streams of its standard input, for `tools/inflate-against-zlib`; and the tests of
//! `imago_inflate`.
//!
//! The input is one record behind the other. A record has a letter that says what is tried, the
//! number of bytes that there is room for, the length of the stream in bytes, and the stream. Numbers
//! are of four bytes, the lowest first. For each record a line is printed: the fault, or `ok`, how
//! many bytes came out, and how many of the stream went in; then come the bytes themselves.
#![tactic(auto)]

#[cfg(test)]
mod tests;

use imago_inflate::inflate::inflate;
use imago_inflate::whole::inflate_whole;
use imago_inflate::zlib::unzip;
use std::alloc::Global;
use std::io::{self, Read, Write};
use std::process::ExitCode;

/// The most bytes that there is room for.
const MOST: usize = 1048576;

/// The number of four bytes, the lowest first.
fn number(bytes: [u8; 4]) -> usize {
    u32::from_le_bytes(bytes) as usize
}

/// Prints what came out.
fn tell<W: Write>(output: &mut W, bytes: &[u8], used: usize) -> io::Result<()> {
    writeln!(output, "ok {} {used}", bytes.len())?;
    output.write_all(bytes)
}

/// Tries what the letter says: `i` the first bytes, `w` the whole stream, and else zlib's frame.
fn answer<W: Write>(output: &mut W, letter: u8, stream: &[u8], room: &mut [u8]) -> io::Result<()> {
    match letter {
        b'i' => match inflate(stream, room) {
            Ok(()) => tell(output, room, 0),
            Err(fault) => writeln!(output, "{fault}"),
        },
        b'w' => match inflate_whole(stream, room) {
            Ok(ended) => tell(output, &room[..ended.written], ended.used),
            Err(fault) => writeln!(output, "{fault}"),
        },
        _ => match unzip(stream, room) {
            Ok(written) => tell(output, &room[..written], 0),
            Err(fault) => writeln!(output, "{fault}"),
        },
    }
}

/// Answers each record.
fn answer_all<W: Write>(output: &mut W, records: &[u8], room: &mut [u8]) -> io::Result<()> {
    let mut rest = records;
    for _ in 0..records.len() {
        if rest.len() < 9 {
            return Ok(());
        }
        let size = number([rest[1], rest[2], rest[3], rest[4]]).min(room.len());
        let behind = &rest[9..];
        let count = number([rest[5], rest[6], rest[7], rest[8]]).min(behind.len());
        answer(output, rest[0], &behind[..count], &mut room[..size])?;
        rest = &behind[count..];
    }
    Ok(())
}

/// Reads all records, and answers them.
fn run<R: Read, W: Write>(alloc: Global, input: &mut R, output: &mut W) -> io::Result<()> {
    let mut records = Vec::new(alloc);
    input.read_to_end(&mut records)?;
    let mut room = vec![in alloc; 0u8; MOST]?;
    answer_all(output, &records, &mut room)?;
    output.flush()
}

fn main(rt: HostRuntime) -> ExitCode {
    let mut input = rt.reader();
    let mut output = io::writer(&rt);
    match run(rt.alloc(), &mut input, &mut output) {
        Ok(()) => ExitCode::from(0),
        Err(_) => ExitCode::from(1),
    }
}

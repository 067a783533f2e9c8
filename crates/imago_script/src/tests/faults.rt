// SPDX-License-Identifier: MIT
//! Inputs and outputs that fail.

use imago_script_parts::script::script;
use std::alloc::{AllocGlobal, Global};
use std::io::{self, ErrorKind, Read, Write};
use std::process::Abort;

/// Gives its text a byte at a time, and then ends or fails.
#[derive(Drop)]
struct SlowReader<'a> {
    text: &'a [u8],
    breaks: bool,
}

impl<'a> Read for SlowReader<'a> {
    fn read(&mut self, buf: &mut [u8]) -> io::Result<usize> {
        match (self.text.split_first(), buf.first_mut()) {
            (Some((byte, rest)), Some(place)) => {
                *place = *byte;
                self.text = rest;
                Ok(1)
            }
            _ if self.breaks => Err(io::Error::from(ErrorKind::BrokenPipe)),
            _ => Ok(0),
        }
    }
}

/// Has room for so many bytes, takes at most so many at a time, and fails where it is full.
#[derive(Drop)]
struct FullWriter {
    kept: Vec<u8>,
    room: usize,
    most: usize,
}

impl Write for FullWriter {
    fn write(&mut self, buf: &[u8]) -> io::Result<usize> {
        let count = buf.len().min(self.room).min(self.most);
        if count == 0 && !buf.is_empty() {
            return Err(io::Error::from(ErrorKind::BrokenPipe));
        }
        self.kept.extend_from_slice(&buf[..count])?;
        self.room -= count;
        Ok(count)
    }

    fn flush(&mut self) -> io::Result<()> {
        Ok(())
    }
}

fn check_an_input_that_fails_ends_the_script_before_its_first_line(
    rt: &(impl Abort + AllocGlobal),
) {
    for text in [&b""[..], b"size\n", b"hex a 00\nbad line\n"] {
        let mut output = Vec::new(rt.alloc());
        assert_eq!(rt;
            script(
                rt.alloc(),
                &mut SlowReader { text, breaks: true },
                &mut output
            ),
            1
        );
        assert!(rt; output.is_empty() || output.as_slice() == b"err OutOfMemory\n".as_slice());
    }
}

#[test]
fn an_input_that_fails_ends_the_script_before_its_first_line(rt: HostRuntime) {
    check_an_input_that_fails_ends_the_script_before_its_first_line(&rt);
}

/// The status of a script whose output takes so many bytes.
fn status_with_room(alloc: Global, text: &str, room: usize) -> u8 {
    let mut output = FullWriter {
        kept: Vec::new(alloc),
        room,
        most: usize::MAX,
    };
    script(alloc, &mut text.as_bytes(), &mut output)
}

fn check_an_output_that_fails_ends_the_script(rt: &(impl Abort + AllocGlobal)) {
    // Each text, and how many bytes it prints: the last one more than are buffered.
    for (text, printed) in [
        ("size\n", 13),
        ("size\nbad\n", 24),
        ("null n 9\nopen raw n ro\nread 0 100000\nsize\n", 200015),
    ] {
        for room in [0, 1, printed - 1] {
            let mut status = status_with_room(rt.alloc(), text, room);
            if status != 1 {
                // a line less long told that there was no memory for what it reads
                status = status_with_room(rt.alloc(), text, room);
            }
            assert_eq!(rt; status, 1, "{text} {room}");
        }
    }
}

#[test]
fn an_output_that_fails_ends_the_script(rt: HostRuntime) {
    check_an_output_that_fails_ends_the_script(&rt);
}

/// A script, and what it prints.
const TEXT: &[u8] =
    b"hex a 0102\nopen raw a rw\nread 0 4\nwrite 9 00\nshow\nprobe a\nshow it\nsize\n";

const PRINTED: &[u8] =
    b"ok\nok\nok 01020000\nerr UnexpectedEof\nok raw[mem:a]\nerr NotFound\nbad line 7\n";

/// What an output keeps of a script that is read a byte at a time, and its status, where it has
/// room for so many bytes and takes so many at a time.
fn kept(alloc: Global, room: usize, most: usize) -> (u8, Vec<u8>) {
    let mut input = SlowReader {
        text: TEXT,
        breaks: false,
    };
    let mut output = FullWriter {
        kept: Vec::new(alloc),
        room,
        most,
    };
    let status = script(alloc, &mut input, &mut output);
    let FullWriter { kept, .. } = output;
    (status, kept)
}

fn check_an_output_that_fails_after_any_byte_has_what_came_before(rt: &(impl Abort + AllocGlobal)) {
    for room in 0..=PRINTED.len() {
        for most in [1, 5, 4096] {
            let status = if room < PRINTED.len() { 1 } else { 2 };
            let (got, output) = kept(rt.alloc(), room, most);
            if got != status || output.as_slice() != &PRINTED[..room] {
                // Memory was refused once.
                let (got, output) = kept(rt.alloc(), room, most);
                assert_eq!(rt; output.as_slice(), &PRINTED[..room]);
                assert_eq!(rt; got, status);
            }
        }
    }
}

#[test]
fn an_output_that_fails_after_any_byte_has_what_came_before(rt: HostRuntime) {
    check_an_output_that_fails_after_any_byte_has_what_came_before(&rt);
}

// SPDX-License-Identifier: MIT
//! Scripts that end anywhere, have a wrong byte, or are long.

use super::outcome;
use imago_script_parts::script::script;
use std::alloc::Global;
use std::io::{self, Read};
use std::process::Abort;

/// A script with a command of each kind.
const TEXT: [u8; 373] = *b"# A command of each kind.
mem a 16 a5 4 4
hex d 76657273696f6e3d310a52572031205a45524f
null n 9

probe d
open raw a rw
show
size
write 3 0102
read 2 5
zero 8 4
discard zero 0 1
discard any 4 4
discard backing 12 4
map 0 16
data 0 16 keep
grow 20 zero
shrink 12
resize 10 none
flush
sync
open vmdk d lax
map 0 600
write 0 00
mem c 0 00 1 1
open cow c 4
write 3 ff
map 0 600
";

/// What it prints.
const PRINTED: &[u8] = b"ok
ok
ok
ok true
ok
ok raw[mem:a]
ok 16
ok
ok a50102a5a5
ok
ok
ok
ok
ok 16 0/0:0x0/rw
ok 16 0:0x0
ok
ok
ok
ok
ok
ok
ok 512 <zero:explicit>
err Other
ok
ok
ok
ok 4 0/0:0x0/rw
";

/// Whether a line answers a command.
fn is_answer(line: &[u8]) -> bool {
    line == b"ok".as_slice() || line.starts_with(b"ok ") || line.starts_with(b"err ")
}

/// Whether a line tells that the line of that number is malformed.
fn tells_of(line: &[u8], number: u64) -> bool {
    match str::from_utf8(line) {
        Ok(line) => match line.strip_prefix("bad line ") {
            Some(told) => told.parse::<u64>() == Ok(number),
            None => false,
        },
        Err(_) => false,
    }
}

/// Whether a script may print that and end with that status: each command is answered by a line,
/// the first one that is malformed by the last line, and there is no other line. Lines that end
/// before that byte of the script are answered as in `printed`.
fn is_outcome(text: &[u8], same: usize, printed: &[u8], status: u8, output: &[u8]) -> bool {
    let mut answers = output.split(|byte| *byte == b'\n');
    let mut known = printed.split(|byte| *byte == b'\n');
    let mut number = 0u64;
    let mut place = 0usize;
    for line in text.split(|byte| *byte == b'\n') {
        number = number.saturating_add(1);
        place = place.saturating_add(line.len());
        if !line.is_empty() && !line.starts_with(b"#") {
            let Some(answer) = answers.next() else {
                return false;
            };
            let like = known.next();
            if place < same && like != Some(answer) {
                return false;
            }
            if tells_of(answer, number) {
                return status == 2
                    && answers.next() == Some(b"".as_slice())
                    && answers.next().is_none();
            }
            if !is_answer(answer) {
                return false;
            }
        }
        place = place.saturating_add(1);
    }
    status == 0 && answers.next() == Some(b"".as_slice()) && answers.next().is_none()
}

/// A changed script ends as it may. What stands before that byte is as in the one that prints
/// `PRINTED`.
///
/// A test's run refuses one request for memory at most. So a script that ran out of it runs again,
/// and has its memory then.
fn check(rt: &(impl Abort + AllocGlobal), text: &[u8], same: usize) {
    let (status, output) = outcome(rt.alloc(), text);
    if is_outcome(text, same, PRINTED, status, &output) {
        return;
    }
    let (status, output) = outcome(rt.alloc(), text);
    assert!(rt;
        is_outcome(text, same, PRINTED, status, &output),
        "{text:?} {status} {output:?}"
    );
}

fn check_each_beginning_of_a_script(rt: &(impl Abort + AllocGlobal)) {
    for end in 0..=TEXT.len() {
        check(rt, &TEXT[..end], end);
    }
}

#[test]
fn each_beginning_of_a_script(rt: HostRuntime) {
    check_each_beginning_of_a_script(&rt);
}

fn check_each_byte_of_a_script_replaced(rt: &(impl Abort + AllocGlobal)) {
    let mut text = TEXT;
    for place in 0..text.len() {
        let byte = text[place];
        for other in [0, b'\n', b' ', b'#', b'-', b'9', b'f', 0xff] {
            text[place] = other;
            check(rt, &text, place);
        }
        text[place] = byte;
    }
}

#[test]
fn each_byte_of_a_script_replaced(rt: HostRuntime) {
    check_each_byte_of_a_script_replaced(&rt);
}

/// A script of three parts, the middle one a text so many times, which is given piece by piece.
#[derive(Drop)]
struct Long<'a> {
    start: &'a [u8],
    unit: &'a [u8],
    count: usize,
    end: &'a [u8],
    /// What is left of the text that is being given.
    rest: &'a [u8],
}

impl<'a> Long<'a> {
    fn new(start: &'a [u8], unit: &'a [u8], count: usize, end: &'a [u8]) -> Self {
        Long {
            start,
            unit,
            count,
            end,
            rest: b"",
        }
    }

    /// Goes on to the next piece, where this one is given.
    fn advance(&mut self) {
        if !self.rest.is_empty() {
            return;
        }
        if !self.start.is_empty() {
            self.rest = self.start;
            self.start = b"";
        } else if self.count > 0 {
            self.rest = self.unit;
            self.count -= 1;
        } else {
            self.rest = self.end;
            self.end = b"";
        }
    }
}

impl<'a> Read for Long<'a> {
    fn read(&mut self, buf: &mut [u8]) -> io::Result<usize> {
        self.advance();
        let count = self.rest.len().min(buf.len());
        let (piece, rest) = self.rest.split_at(count);
        buf[..count].copy_from_slice(piece);
        self.rest = rest;
        Ok(count)
    }
}

/// What a long script prints, and its status.
fn long_outcome(
    alloc: Global,
    start: &[u8],
    unit: &[u8],
    count: usize,
    end: &[u8],
) -> (u8, Vec<u8>) {
    let mut output = Vec::new(alloc);
    let status = script(alloc, &mut Long::new(start, unit, count, end), &mut output);
    (status, output)
}

/// How many times a piece stands in a long line: 1 MiB are 16384 of 64 bytes.
const PIECES: usize = 16384;

/// Scripts with a long line: what stands before the pieces, a piece, and what stands behind them;
/// what it prints, and its status.
const LONG_LINES: [(&[u8], &[u8], &[u8], &[u8], u8); 14] = [
    (b"#", &[b'a'; 64], b"\nsize\n", b"err NotFound\n", 0),
    (b"", &[b'\n'; 64], b"size\n", b"err NotFound\n", 0),
    (b"", &[b'a'; 64], b"", b"bad line 1\n", 2),
    (b"", &[b' '; 64], b"\nsize\n", b"bad line 1\n", 2),
    (
        b"size\nsize ",
        &[b' '; 64],
        b"",
        b"err NotFound\nbad line 2\n",
        2,
    ),
    (
        b"hex a ",
        &[b'a'; 64],
        b"\nopen raw a ro\nsize\nread 524286 3\n",
        b"ok\nok\nok 524288\nok aaaa00\n",
        0,
    ),
    (b"hex a ", &[b'a'; 64], b"a\nsize\n", b"bad line 1\n", 2),
    (b"hex a ", &[b'a'; 64], b"ag\nsize\n", b"bad line 1\n", 2),
    (b"hex a ", &[b'a'; 64], b" a\nsize\n", b"bad line 1\n", 2),
    (b"hex a ", &[b'-'; 64], b"\nsize\n", b"bad line 1\n", 2),
    (b"write 0 ", &[b'0'; 64], b"\n", b"err NotFound\n", 0),
    (
        b"null ",
        &[b'n'; 64],
        b" 5\nsize\n",
        b"ok\nerr NotFound\n",
        0,
    ),
    (b"open raw ", &[b'n'; 64], b" ro\n", b"err NotFound\n", 0),
    (b"shrink ", &[b'0'; 64], b"1\n", b"err NotFound\n", 0),
];

fn check_long_lines(rt: &(impl Abort + AllocGlobal)) {
    for &(start, unit, end, printed, status) in &LONG_LINES {
        let (got, output) = long_outcome(rt.alloc(), start, unit, PIECES, end);
        if got != status || output.as_slice() != printed {
            // Memory was refused once.
            let (got, output) = long_outcome(rt.alloc(), start, unit, PIECES, end);
            assert_eq!(rt; output.as_slice(), printed);
            assert_eq!(rt; got, status);
        }
    }
}

#[test]
fn long_lines(rt: HostRuntime) {
    check_long_lines(&rt);
}

/// How many lines a long script has.
const LINES: usize = 1000000;

/// Whether that is the answer to so many commands without an open image.
fn is_refused_throughout(status: u8, output: &[u8]) -> bool {
    status == 0
        && output.len() == 13 * LINES
        && output
            .chunks(13)
            .all(|line| line == b"err NotFound\n".as_slice())
}

fn check_many_lines(rt: &(impl Abort + AllocGlobal)) {
    let (status, output) = long_outcome(rt.alloc(), b"", b"size\n", LINES, b"");
    if !is_refused_throughout(status, &output) {
        let (status, output) = long_outcome(rt.alloc(), b"", b"size\n", LINES, b"");
        assert!(rt; is_refused_throughout(status, &output));
    }
}

#[test]
fn many_lines(rt: HostRuntime) {
    check_many_lines(&rt);
}

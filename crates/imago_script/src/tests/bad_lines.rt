// SPDX-License-Identifier: MIT
//! Lines that are no commands.

use super::check;
use std::process::Abort;

/// Texts that are no command, each by one fault.
const BAD_LINES: [&[u8]; 90] = [
    // The words: nothing but bytes that print, and one space between two.
    b" ",
    b" size",
    b"size ",
    b"read  0 1",
    b"read\t0 1",
    b"size\r",
    b"size\0",
    b"size\x7f",
    b"size\x1f",
    b"hex \xc3\xa9 00",
    b"hex a\xff 00",
    b" # a comment begins its line",
    // The command.
    b"Size",
    b"SIZE",
    b"sizes",
    b"siz",
    b"-",
    b"prob a",
    b"map 0",
    b"map 0 1 2",
    b"map x 1",
    b"zero 0",
    b"zero 0 -1",
    b"discard 0 1",
    b"discard none 0 1",
    b"discard any 0",
    b"data 0 1",
    b"data 0 1 kept",
    b"data 0 -1 over",
    b"open vmdk a strict",
    b"open vmdk a Lax",
    b"open vmdk a ro lax",
    b"open vmdk",
    b"probe",
    b"probe a b",
    b"open qcow2 a ro",
    b"open cow a 3",
    b"open cow a",
    b"open cow a 0",
    b"open cow a 2097152",
    b"open cow a 1048577",
    b"open cow a -4",
    b"open cow a 4 rw",
    b"open cow 4",
    // How many words it has.
    b"size 0",
    b"show a",
    b"flush 1",
    b"sync 1",
    b"read 0",
    b"read 0 1 2",
    b"write 0",
    b"write 0 00 00",
    b"write 0 0000 ",
    b"hex a 00 ",
    b"hex  00",
    b"hex a  00",
    b"resize 1",
    b"grow 1",
    b"shrink",
    b"shrink 1 none",
    b"hex a",
    b"null a",
    b"null a 1 1",
    b"mem a 1 00 1",
    b"mem a 1 00 1 1 1",
    b"open",
    b"open raw",
    b"open raw a",
    b"open raw a ro rw",
    // Numbers: digits alone, within 64 bits.
    b"shrink -1",
    b"shrink +1",
    b"shrink 1_000",
    b"shrink 0x10",
    b"shrink 1.0",
    b"shrink 18446744073709551616",
    b"read 0 16777217",
    // Alignments: powers of two.
    b"mem a 1 00 0 1",
    b"mem a 1 00 1 3",
    b"mem a 1 00 18446744073709551615 1",
    // A byte of two digits, and bytes of two each.
    b"mem a 1 0 1 1",
    b"mem a 1 000 1 1",
    b"mem a 1 0g 1 1",
    b"mem a 1 - 1 1",
    b"hex a 0",
    b"hex a 0g",
    b"hex a --",
    b"write 0 001",
    // Modes and accesses.
    b"grow 1 None",
    b"resize 1 allocate",
    b"open raw a wr",
];

fn check_each_ends_the_script(rt: &(impl Abort + AllocGlobal)) {
    for &line in &BAD_LINES {
        check(rt, line, "bad line 1\n", 2);
    }
}

#[test]
fn each_ends_the_script(rt: HostRuntime) {
    check_each_ends_the_script(&rt);
}

/// Scripts with a bad line, and what they print: the lines before it are done, those behind it
/// aren't.
const SCRIPTS: [(&str, &str); 6] = [
    ("read 0 16777217\nsize\n", "bad line 1\n"),
    ("size\nsize!\nsize\n", "err NotFound\nbad line 2\n"),
    ("# no command\n\nhex a 00\n\n#\nnone", "ok\nbad line 6\n"),
    (
        "hex a FF\nopen raw a rw\nread 0 1\n \nread 0 1\n",
        "ok\nok\nok ff\nbad line 4\n",
    ),
    (
        "mem a 1 5A 9223372036854775808 1\nmem b 1 00 1 9223372036854775808\n\
         mem c 1 00 1 9223372036854775809\n",
        "ok\nok\nbad line 3\n",
    ),
    ("size\r\nsize\r\n", "bad line 1\n"),
];

fn check_lines_are_counted_from_one(rt: &(impl Abort + AllocGlobal)) {
    for &(text, printed) in &SCRIPTS {
        check(rt, text.as_bytes(), printed, 2);
    }
}

#[test]
fn lines_are_counted_from_one(rt: HostRuntime) {
    check_lines_are_counted_from_one(&rt);
}

// SPDX-License-Identifier: MIT
//! Bytes are read from digits, and printed as digits, as the crate `hex` does both.

use super::check;
use hex::FromHexError;
use std::alloc::AllocError;
use std::process::Abort;

/// The digits, in either case.
const KINDS: [u8; 22] = *b"0123456789abcdefABCDEF";

/// Fills a text with digits: each two kinds of them stand beside each other, for one byte after
/// another.
fn fill(text: &mut [u8]) {
    for place in 0..text.len() {
        let pair = place / 2;
        let kind = if place % 2 == 0 { pair / 22 } else { pair };
        text[place] = KINDS[kind % 22];
    }
}

/// A script that makes a storage of the bytes of digits and reads it answers as `hex` does.
fn answers_as_hex(rt: &(impl Abort + AllocGlobal), digits: &[u8]) -> Result<(), AllocError> {
    let alloc = rt.alloc();
    let mut text = Vec::new(alloc);
    text.extend_from_slice(b"hex a ")?;
    text.extend_from_slice(digits)?;
    match hex::decode(alloc, digits) {
        Ok(bytes) if !bytes.is_empty() => {
            let read = format!(in alloc; "\nopen raw a ro\nread 0 {}\n", bytes.len())?;
            text.extend_from_slice(read.as_bytes())?;
            let printed = hex::encode(alloc, bytes.as_slice())?;
            let printed = format!(in alloc; "ok\nok\nok {printed}\n")?;
            check(rt, &text, printed.as_str(), 0);
        }
        Err(FromHexError::OutOfMemory) => return Err(AllocError),
        _ => check(rt, &text, "bad line 1\n", 2),
    }
    Ok(())
}

/// The same, once more where the test had no memory itself: its run refuses one request at most.
fn compare(rt: &(impl Abort + AllocGlobal), digits: &[u8]) {
    if answers_as_hex(rt, digits).is_err() {
        assert!(rt; answers_as_hex(rt, digits).is_ok());
    }
}

/// How many digits a text has at most.
const MOST: usize = 16400;

/// How many digits stand near a number of bytes that are read or printed together.
const LENGTHS: [usize; 25] = [
    510, 511, 512, 513, 514, 1022, 1024, 1026, 4094, 4095, 4096, 4097, 4098, 4100, 8190, 8191,
    8192, 8193, 8194, 8196, 12288, 12290, 16382, 16384, 16386,
];

/// A few bytes that are no digits, and a digit.
const FEW_BYTES: [u8; 10] = *b"/:@G`g- \xff7";

/// Places in a long text, near the end of digits that are read together.
const PLACES: [usize; 12] = [
    0, 1, 4093, 4094, 4095, 4096, 4097, 8190, 8191, 8192, 8193, 8199,
];

/// Texts of digits, by their lengths.
fn compare_lengths(rt: &(impl Abort + AllocGlobal)) {
    let mut digits = [0; MOST];
    fill(&mut digits);
    for count in 0..210 {
        compare(rt, &digits[..count]);
    }
    for &count in &LENGTHS {
        compare(rt, &digits[..count.min(MOST)]);
    }
    compare(rt, &digits);
}

/// A text with another byte at a place; it is then as before.
fn compare_with(rt: &(impl Abort + AllocGlobal), digits: &mut [u8], place: usize, byte: u8) {
    if place >= digits.len() {
        return;
    }
    let digit = digits[place];
    digits[place] = byte;
    compare(rt, digits);
    digits[place] = digit;
}

fn check_digits_are_read_and_printed_as_hex_does(rt: &(impl Abort + AllocGlobal)) {
    compare_lengths(rt);
    let mut short = [0; 86];
    fill(&mut short);
    for place in 0..86 {
        for byte in 0..256usize {
            if byte != 10 {
                compare_with(rt, &mut short, place, byte as u8);
            }
        }
    }
    let mut long = [0; 8200];
    fill(&mut long);
    for &place in &PLACES {
        for &byte in &FEW_BYTES {
            compare_with(rt, &mut long, place, byte);
        }
    }
}

#[test]
fn digits_are_read_and_printed_as_hex_does(rt: HostRuntime) {
    check_digits_are_read_and_printed_as_hex_does(&rt);
}

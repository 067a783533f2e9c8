// SPDX-License-Identifier: MIT
//! Scripts, what they print, and how they end.

mod attacks;
mod bad_lines;
mod digits;
mod examples;
mod faults;
mod rows;

use imago_script_parts::script::script;
use std::alloc::Global;
use std::process::Abort;

/// What a script prints, and its status.
fn outcome(alloc: Global, mut text: &[u8]) -> (u8, Vec<u8>) {
    let mut output = Vec::new(alloc);
    let status = script(alloc, &mut text, &mut output);
    (status, output)
}

/// The line that tells of refused memory.
const NO_MEMORY: &[u8] = b"err OutOfMemory\n";

/// Whether a script told that memory was refused. Where it ended for that, this is its last line,
/// behind those that it was to print. Where the output itself had no room, it can't be told there:
/// the output is a beginning of what was to be printed.
fn ran_out(status: u8, output: &[u8], printed: &[u8]) -> bool {
    if status == 1 {
        if printed.starts_with(output) {
            return true;
        }
        let Some(end) = output.len().checked_sub(NO_MEMORY.len()) else {
            return false;
        };
        return &output[end..] == NO_MEMORY && printed.starts_with(&output[..end]);
    }
    output
        .split(|byte| *byte == b'\n')
        .any(|line| line == b"err OutOfMemory".as_slice())
}

/// A script prints that, and ends with that status.
///
/// A test's run refuses one request for memory at most. So a script that ran out of it runs again,
/// and has its memory then.
fn check(rt: &(impl Abort + AllocGlobal), text: &[u8], printed: &str, status: u8) {
    let (got, output) = outcome(rt.alloc(), text);
    if got == status && output.as_slice() == printed.as_bytes() {
        return;
    }
    assert!(rt; ran_out(got, &output, printed.as_bytes()), "{output:?}");
    let (got, output) = outcome(rt.alloc(), text);
    assert_eq!(rt; output.as_slice(), printed.as_bytes());
    assert_eq!(rt; got, status);
}

fn check_the_examples_print_what_stands_beside_them(rt: &(impl Abort + AllocGlobal)) {
    for (_name, text, printed) in examples::EXAMPLES {
        check(rt, text.as_bytes(), printed, 0);
    }
}

#[test]
fn the_examples_print_what_stands_beside_them(rt: HostRuntime) {
    check_the_examples_print_what_stands_beside_them(&rt);
}

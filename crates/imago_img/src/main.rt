// SPDX-License-Identifier: MIT
//! The program `imago-img`: what disk images in files are, where their bytes stand, and their way
//! into raw files.
#![tactic(auto)]

use imago_img_files::guarded::Confined;
use imago_img_parts::run::{run, unread_status};
use imago_img_parts::system::System;
use std::env::{self, Env};
use std::io::{self, BufWriter};
use std::process::ExitCode;

fn main(rt: HostRuntime) -> ExitCode {
    let mut errors = rt.stderr();
    let words = match words(&rt) {
        Ok(words) => words,
        Err(refused) => {
            let _ = eprintln!(rt; "imago-img: the command line can't be read: {refused}");
            return ExitCode::from(refused_status(&rt));
        }
    };
    let mut output = match BufWriter::new(rt.alloc(), io::writer(&rt)) {
        Ok(output) => output,
        Err(refused) => {
            let _ = eprintln!(rt; "imago-img: the output can't be written: {refused}");
            return ExitCode::from(refused_status(&rt));
        }
    };
    let mut host = Confined::new(System::new(&rt));
    ExitCode::from(run(&mut host, &words, &mut output, &mut errors))
}

/// The words of the command line behind the program's name.
fn words(rt: &HostRuntime) -> io::Result<Vec<String>> {
    let mut words = Vec::new(rt.alloc());
    for word in env::args(rt)?.skip(1) {
        words.push(word)?;
    }
    Ok(words)
}

/// The status where the command line can't be read, by its first word. One that is longer than the
/// names of the commands, or isn't UTF-8, is none of them.
fn refused_status(rt: &HostRuntime) -> u8 {
    let mut first = [0; 16];
    let Ok(length) = rt.arg(1, &mut first) else {
        return unread_status("");
    };
    match str::from_utf8(&first[..length]) {
        Ok(word) => unread_status(word),
        Err(_) => unread_status(""),
    }
}

// SPDX-License-Identifier: MIT
//! The program `imago-script`: it reads commands on disk images from its standard input, and prints
//! a line for each.
#![tactic(auto)]

#[cfg(test)]
mod tests;

use imago_script_parts::script::script;
use std::io;
use std::process::ExitCode;

fn main(rt: HostRuntime) -> ExitCode {
    let mut input = rt.reader();
    let mut output = io::writer(&rt);
    ExitCode::from(script(rt.alloc(), &mut input, &mut output))
}

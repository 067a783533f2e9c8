// SPDX-License-Identifier: MIT
//! Scripts.
ghost use Rattle.std.specs.Prelude.{◌≡◌, ◌≤◌, drop};

use crate::front::put_front;
use imago_script_parts::script::script;
use std::alloc::Global;

/// Runs a script, puts as much of what it prints into `output` as fits, and tells in `printed` how
/// many bytes it printed. It answers the script's status: 0 where each line was done, also where a
/// command was refused; 2 where a line is malformed; 1 where there is no memory for the script
/// itself.
///
/// Where more was printed than fits, the same call with a longer output prints the same.
#[unsafe(no_mangle)]
pub extern "C" fn imago_script(
    alloc: Global,
    text: &[u8],
    output: &mut [u8],
    printed: &mut usize,
) -> u32
    ensures status { result ≤ 2 }
    ensures behind { drop printed.new output.new ≡ drop printed.new output.old }
{
    let mut input = text;
    let mut lines = Vec::new(alloc);
    let status = script(alloc, &mut input, &mut lines);
    put_front(output, &lines);
    *printed = lines.len();
    status as u32
}

// SPDX-License-Identifier: MIT
//! What commands print, and how.
ghost use Rattle.std.specs.Prelude.{◌≡◌, OnOk};
ghost use Rattle.imago_img_files.specs.Printed.{HasPrinted, IsAnyText};
ghost use Rattle.imago_img_files.specs.Printed.{is_json as told_as_json};

use crate::failure::Failure;
use imago_words::command::Output;
use std::io::Write;

/// Whether a command prints JSON.
pub fn is_json(output: Output) -> bool
    ensures { result ≡ told_as_json output }
{
    match output {
        Output::Json => true,
        Output::Human => false,
    }
}

/// Prints bytes.
pub(crate) fn print_bytes<W: Write>(bytes: &[u8], output: &mut W) -> Result<(), Failure>
    ensures { OnOk result (HasPrinted IsAnyText (W.contents output.old) (W.contents output.new)) }
{
    match output.write_all(bytes) {
        Ok(()) => Ok(()),
        Err(cause) => Err(Failure::Output(cause)),
    }
}

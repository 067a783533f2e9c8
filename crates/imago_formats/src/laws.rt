// SPDX-License-Identifier: MIT
//! What holds of the definition. The functions do nothing.
ghost use Rattle.imago_formats.specs.Laws.{FirstBytesTell};

/// Bytes behind the first 512 don't count.
pub fn first_bytes_tell()
    ensures { FirstBytesTell }
{}

// SPDX-License-Identifier: MIT
//! The numbers of refusals.
ghost use Rattle.std.specs.Prelude.{◌≡◌};
ghost use Rattle.imago_c.specs.Answer.{code_of};

use imago_storage::error::Error;

/// What a call that succeeded answers.
pub const DONE: u32 = 0;

/// The number of a refusal: `IMAGO_READ_ONLY` of `include/imago.h`, and so on.
pub fn code(refusal: Error) -> u32
    ensures { result ≡ code_of refusal }
{
    match refusal {
        Error::ReadOnly => 1,
        Error::BeyondDisk => 2,
        Error::RangeOverflow => 3,
        Error::WrapAround => 4,
        Error::InvalidData => 5,
        Error::Unsupported => 6,
        Error::NoAccess => 7,
        Error::Device => 8,
        Error::Memory => 9,
        Error::ForeignMapping => 10,
        Error::Denied => 11,
        Error::NotFound => 12,
    }
}

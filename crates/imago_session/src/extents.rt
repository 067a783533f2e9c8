// SPDX-License-Identifier: MIT
//! Images of which the files of the extents are asked for.
ghost use Rattle.std.specs.Prelude.{◌≡◌, ◌+◌, ◌^◌, ◌≤◌, ◌<◌, ◌⊎◌, None, IfSome, IsSome, [], map};
ghost use Rattle.std.specs.Prelude.{length};
ghost use Rattle.std.specs.Prelude.{slice_index_or};
ghost use Rattle.std.specs.String.{string_bytes};

use crate::layer::Layer;
use imago_access::access::FormatAccess;

/// An image of which the files of the extents are asked for.
#[derive(Drop)]
pub(crate) struct Extents {
    pub(crate) image: FormatAccess<Layer>,
    pub(crate) names: Vec<String>,
    /// The number of the file that the first name is of.
    pub(crate) first: usize,
    /// The index of the name that is asked for.
    pub(crate) next: usize,
    ghost fits: { first + next < 2 ^ 64 },
    ghost inside: { next < length names.items },
}

impl Extents {
    /// The number of the file that is asked for.
    pub(crate) fn number(&self) -> usize
        ensures { result ≡ self.now.first + self.now.next }
    {
        self.first + self.next
    }

    /// The name that is asked for.
    pub(crate) fn name(&self) -> Option<&[u8]>
        ensures name { IfSome result (λ name. name.now
            ≡ slice_index_or (map string_bytes self.now.names.items) self.now.next []) }
        ensures some { IsSome result }
    {
        match self.names.get(self.next) {
            Some(name) => Some(name.as_bytes()),
            None => None,
        }
    }
}

/// The index behind that one, if there are more than so many, and files have such numbers.
pub(crate) fn following(first: usize, next: usize, count: usize) -> Option<usize>
    ensures following { IfSome result (λ n. (n ≡ next + 1) × (n < count)) }
    ensures fits { IfSome result (λ n. first + n < 2 ^ 64) }
    ensures last { result ≡ None → (count ≤ next + 1) ⊎ (2 ^ 64 ≤ first + (next + 1)) }
{
    let following = next.checked_add(1)?;
    first.checked_add(following)?;
    if following < count {
        Some(following)
    } else {
        None
    }
}

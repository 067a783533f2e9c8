// SPDX-License-Identifier: MIT
//! Room for more in a list.
ghost use Rattle.std.specs.Prelude.{◌≡◌, ◌+◌, ◌≤◌, length, OnOk, IfErr, IsOk};
ghost use Rattle.std.specs.Vec.{vec_capacity};

use imago_storage::error::Error;

/// Makes room for so many more: as much again as there was where memory allows, so that many small
/// growths cost little, else for exactly those. [`Error::Memory`] is no room for those either.
pub(crate) fn make_room<T>(items: &mut Vec<T>, additional: usize) -> Result<(), Error>
    ensures items { items.new.items ≡ items.old.items }
    ensures room { OnOk result (length items.old.items + additional ≤ vec_capacity items.new) }
    ensures keeps { vec_capacity items.old ≤ vec_capacity items.new }
    ensures succeeds { length items.old.items + additional ≤ vec_capacity items.old → IsOk result }
    ensures memory { IfErr result (λ e. e ≡ Error.Memory) }
{
    if items.reserve(additional).is_ok() {
        return Ok(());
    }
    items.reserve_exact(additional)?;
    Ok(())
}

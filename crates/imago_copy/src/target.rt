// SPDX-License-Identifier: MIT
//! What a disk's bytes are put into.
ghost use Rattle.std.specs.Prelude.{◌≡◌, ℕ, List, Option, Some, None, OnOk, OnErr, replicate};
ghost use Rattle.imago_copy.specs.Appended.{IsAppended, IsPartlyAppended};

use std::io::{self, ErrorKind};

/// What bytes are put into, one after the other: a file, or memory. Counts are in bytes.
///
/// What an implementation can't do, it refuses by an error of its own. The first ones of the bytes
/// that were refused may have been put in then.
pub trait Target {
    /// What was put in so far, where an implementation says it. One over files says `None`, since
    /// no contract says what a file holds.
    ghost contents: { Self → Option (List ℕ) };

    /// The path and the size in bytes of the file that it is to be, where an implementation says
    /// them. No call changes them. What isn't to be a file says `None`.
    ghost made_for: { Self → Option (List ℕ × ℕ) };

    /// Puts bytes behind what was put in before.
    fn append(&mut self, source: &[u8]) -> io::Result<()>
        ensures same { made_for self.new ≡ made_for self.old }
        ensures appended { OnOk result (IsAppended (contents self.old) (contents self.new) source.now) }
        ensures refused { OnErr result
            (IsPartlyAppended (contents self.old) (contents self.new) source.now) };

    /// Puts that many zeroes behind what was put in before.
    fn append_zeroes(&mut self, count: u64) -> io::Result<()>
        ensures same { made_for self.new ≡ made_for self.old }
        ensures appended { OnOk result
            (IsAppended (contents self.old) (contents self.new) (replicate count 0)) }
        ensures refused { OnErr result
            (IsPartlyAppended (contents self.old) (contents self.new) (replicate count 0)) };
}

/// Bytes are put behind those that are there. [`ErrorKind::OutOfMemory`] is no room for them, and
/// changes nothing.
impl Target for Vec<u8> {
    ghost contents = { λ v. Some v.items };

    ghost made_for = { λ _. None };

    fn append(&mut self, source: &[u8]) -> io::Result<()>
        ensures appended { OnOk result
            (IsAppended (Some self.old.items) (Some self.new.items) source.now) }
        ensures refused { OnErr result
            (IsPartlyAppended (Some self.old.items) (Some self.new.items) source.now) }
        ensures left { OnErr result (self.new.items ≡ self.old.items) }
    {
        self.extend_from_slice(source)?;
        Ok(())
    }

    fn append_zeroes(&mut self, count: u64) -> io::Result<()>
        ensures appended { OnOk result
            (IsAppended (Some self.old.items) (Some self.new.items) (replicate count 0)) }
        ensures refused { OnErr result
            (IsPartlyAppended (Some self.old.items) (Some self.new.items) (replicate count 0)) }
        ensures left { OnErr result (self.new.items ≡ self.old.items) }
    {
        let Some(len) = self.len().checked_add(count as usize) else {
            return Err(io::Error::from(ErrorKind::OutOfMemory));
        };
        self.resize(len, 0)?;
        Ok(())
    }
}

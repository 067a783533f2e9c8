// SPDX-License-Identifier: MIT
//! Texts that are made up in place, to be printed at once.
ghost use Rattle.std.specs.Prelude.{◌≡◌, ◌+◌, ◌<◌, ◌≤◌, ◌++◌, [], length, OnOk};
ghost use Rattle.std.specs.Fmt.{decimal};
ghost use Rattle.std.specs.Io.KnownBytes.{Appends};
ghost use Rattle.imago_img_disks.specs.Lines.{column};

use itoa::write_digits;
use std::io::{self, Write};

/// The most digits that a number has.
const MOST_DIGITS: usize = 20;

/// How many bytes a column has: those of a number, and one space at least.
const COLUMN: usize = MOST_DIGITS + 1;

/// The most bytes of a text: room for a line, and for most names of files behind it.
const MOST: usize = 384;

/// A text that is made up in place, one part behind the other.
#[derive(Drop)]
pub(crate) struct Text {
    /// Its bytes, and others behind them.
    bytes: [u8; MOST],
    /// How many bytes it has.
    count: usize,
    ghost within: { count ≤ 384 },
}

impl Text {
    ghost use Rattle.imago_img_disks.specs.Text.{text_of};

    /// No text.
    pub(crate) fn new() -> Self
        ensures text { text_of result ≡ [] }
        ensures count { result.count ≡ 0 }
    {
        Text {
            bytes: [0; MOST],
            count: 0,
        }
    }

    /// Puts bytes behind it.
    pub(crate) fn put(&mut self, source: &[u8])
        requires { self.old.count + length source.now ≤ 384 }
        ensures text { text_of self.new ≡ text_of self.old ++ source.now }
        ensures count { self.new.count ≡ self.old.count + length source.now }
    {
        let end = self.count + source.len();
        self.bytes[self.count..end].copy_from_slice(source);
        self.count = end;
    }

    /// Puts a number behind it.
    pub(crate) fn put_number(&mut self, number: u64)
        requires { self.old.count + 20 ≤ 384 }
        ensures text { text_of self.new ≡ text_of self.old ++ decimal number }
        ensures count { self.new.count ≤ self.old.count + 20 }
    {
        let mut digits = [b' '; MOST_DIGITS + COLUMN];
        let start = write_digits(number, &mut digits, MOST_DIGITS);
        // A copy of a fixed length takes a few instructions. The spaces that it takes along aren't
        // counted.
        self.bytes[self.count..self.count + MOST_DIGITS].copy_from_slice(
            &digits[start..start + MOST_DIGITS],
        );
        self.count += MOST_DIGITS - start;
    }

    /// Puts a number behind it, in a column.
    pub(crate) fn put_column(&mut self, number: u64)
        requires { self.old.count + 21 ≤ 384 }
        ensures text { text_of self.new ≡ text_of self.old ++ column number }
        ensures count { self.new.count ≡ self.old.count + 21 }
    {
        let mut digits = [b' '; MOST_DIGITS + COLUMN];
        let start = write_digits(number, &mut digits, MOST_DIGITS);
        let end = self.count + COLUMN;
        self.bytes[self.count..end].copy_from_slice(&digits[start..start + COLUMN]);
        self.count = end;
    }

    /// Prints it, with a name and an end behind it. It is of no use afterwards.
    pub(crate) fn print_with<W: Write>(
        &mut self,
        output: &mut W,
        name: &[u8],
        end: &[u8],
    ) -> io::Result<()>
        ensures { OnOk result (Appends (W.contents output.old) (W.contents output.new)
            (text_of self.old ++ (name.now ++ end.now))) }
    {
        let room = MOST - self.count;
        if name.len() <= room && end.len() <= room - name.len() {
            self.put(name);
            self.put(end);
            return output.write_all(&self.bytes[..self.count]);
        }
        output.write_all(&self.bytes[..self.count])?;
        output.write_all(name)?;
        output.write_all(end)
    }
}

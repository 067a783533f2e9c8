// SPDX-License-Identifier: MIT
//! How far a copy is.
ghost use Rattle.std.specs.Prelude.{◌≡◌};

use imago_copy::target::Target;
use imago_img_files::host::Host;
use std::io;

/// A target of which the host shows how much was put into it.
pub struct Progress<'a, T, H> {
    target: T,
    host: &'a H,
    /// Whether anything is shown.
    is_shown: bool,
    /// How many bytes were put in, of how many.
    done: u64,
    total: u64,
    /// The hundredths that were shown last.
    shown: u64,
}

impl<'a, T: Target, H: Host> Progress<'a, T, H> {
    /// The target, which is to have that many bytes.
    pub fn new(target: T, host: &'a H, is_shown: bool, total: u64) -> Self
        ensures { result.target ≡ target }
    {
        Progress {
            target,
            host,
            is_shown,
            done: 0,
            total,
            shown: u64::MAX,
        }
    }

    /// The target, of which nothing more is shown.
    pub fn into_target(self) -> T
        ensures { result ≡ self.entry.target }
    {
        let Progress {
            target,
            host,
            is_shown,
            done: _done,
            total: _total,
            shown: _shown,
        } = self;
        if is_shown {
            host.end_progress();
        }
        target
    }

    /// Shows how much is put in, where a hundredth more is.
    fn show(&mut self, more: u64)
        ensures { self.new.target ≡ self.old.target }
    {
        self.done = self.done.saturating_add(more);
        let hundredths = hundredths_of(self.done, self.total);
        if self.is_shown && hundredths != self.shown {
            self.shown = hundredths;
            self.host.show_progress(self.done, self.total, hundredths);
        }
    }
}

/// How many hundredths of a total that is.
fn hundredths_of(done: u64, total: u64) -> u64 {
    match total / 100 {
        0 => 100,
        hundredth => (done / hundredth).min(100),
    }
}

impl<'a, T: Target, H: Host> Target for Progress<'a, T, H> {
    ghost contents = { λ s. T.contents s.target };

    ghost made_for = { λ s. T.made_for s.target };

    fn append(&mut self, source: &[u8]) -> io::Result<()> {
        self.target.append(source)?;
        self.show(source.len() as u64);
        Ok(())
    }

    fn append_zeroes(&mut self, count: u64) -> io::Result<()> {
        self.target.append_zeroes(count)?;
        self.show(count);
        Ok(())
    }
}

// SPDX-License-Identifier: MIT
//! A target that takes bytes so many times, and then refuses.
ghost use Rattle.std.specs.Prelude.{None};

use imago_copy::target::Target;
use std::alloc::Global;
use std::io::{self, ErrorKind};

/// Bytes in memory. They are refused as on a full device once they were put in so many times.
#[derive(Drop)]
pub struct Refusing {
    /// What was put in.
    pub bytes: Vec<u8>,
    /// How many times something may still be put in.
    pub left: u64,
}

impl Refusing {
    /// Nothing yet.
    pub fn new(alloc: Global, left: u64) -> Refusing {
        Refusing {
            bytes: Vec::new(alloc),
            left,
        }
    }

    /// Counts that something is put in.
    fn take_one(&mut self) -> io::Result<()> {
        if self.left == 0 {
            return Err(io::Error::from(ErrorKind::StorageFull));
        }
        self.left -= 1;
        Ok(())
    }
}

impl Target for Refusing {
    ghost contents = { λ _. None };

    ghost made_for = { λ _. None };

    fn append(&mut self, source: &[u8]) -> io::Result<()> {
        self.take_one()?;
        self.bytes.extend_from_slice(source)?;
        Ok(())
    }

    fn append_zeroes(&mut self, count: u64) -> io::Result<()> {
        self.take_one()?;
        Target::append_zeroes(&mut self.bytes, count)
    }
}

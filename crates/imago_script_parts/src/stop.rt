// SPDX-License-Identifier: MIT
//! What ends a script before its last line.

use std::alloc::{AllocError, AllocFailed};
use std::io;

/// What ends a script before its last line.
#[derive(Debug, Drop)]
pub enum Stop {
    /// The line of this number, counted from 1, is malformed.
    BadLine(u64),
    /// There is no memory for the script itself.
    Memory,
    /// The input can't be read, or the output can't be written.
    Broken,
}

impl From<AllocError> for Stop {
    fn from(_e: AllocError) -> Stop {
        Stop::Memory
    }
}

impl<T: Drop> From<AllocFailed<T>> for Stop {
    fn from(_e: AllocFailed<T>) -> Stop {
        Stop::Memory
    }
}

impl From<io::Error> for Stop {
    fn from(e: io::Error) -> Stop {
        match e.kind() {
            io::ErrorKind::OutOfMemory => Stop::Memory,
            _ => Stop::Broken,
        }
    }
}

// SPDX-License-Identifier: MIT
//! How often a host in memory is asked for each path.

#[cfg(test)]
use std::alloc::{AllocError, Global};
use std::cell::Cell;

/// What a host is asked for.
#[derive(Clone, Copy, Debug, PartialEq, Eq)]
pub enum Call {
    /// What a file is, where it is, or where its holes are.
    Look,
    /// Bytes of a file.
    Read,
    /// A file to write into, a new one, or that one goes.
    Write,
}

/// How often each call was made for a path.
#[derive(Drop)]
struct Count {
    path: String,
    looks: Cell<u64>,
    reads: Cell<u64>,
    writes: Cell<u64>,
}

#[cfg(test)]
impl Count {
    /// The counter of a call.
    fn of(&self, call: Call) -> &Cell<u64> {
        match call {
            Call::Look => &self.looks,
            Call::Read => &self.reads,
            Call::Write => &self.writes,
        }
    }
}

/// How often each call was made for each path that is followed, and for all others together.
#[derive(Drop)]
pub struct Asked {
    counts: Vec<Count>,
    others: Cell<u64>,
}

#[cfg(test)]
impl Asked {
    /// No path is followed.
    pub fn new(alloc: Global) -> Self {
        Asked {
            counts: Vec::new(alloc),
            others: Cell::new(0),
        }
    }

    /// Follows a path from now on. Where it is followed already, the first counts go on.
    pub fn follow(&mut self, alloc: Global, path: &str) -> Result<(), AllocError> {
        let path = String::from_str(alloc, path)?;
        self.counts.push(Count {
            path,
            looks: Cell::new(0),
            reads: Cell::new(0),
            writes: Cell::new(0),
        })?;
        Ok(())
    }

    /// Counts a call.
    pub fn note(&self, call: Call, path: &str) {
        for count in &self.counts {
            if count.path.as_str() == path {
                add_one(count.of(call));
                return;
            }
        }
        add_one(&self.others);
    }

    /// How often a call was made for a path that is followed.
    pub fn count(&self, call: Call, path: &str) -> u64 {
        for count in &self.counts {
            if count.path.as_str() == path {
                return count.of(call).get();
            }
        }
        0
    }

    /// How often a call was made for other paths than these. Calls for paths that aren't followed
    /// are of every kind.
    pub fn besides(&self, call: Call, paths: &[&str]) -> u64 {
        let mut sum = self.others.get();
        for count in &self.counts {
            if !is_among(count.path.as_str(), paths) {
                sum = sum.saturating_add(count.of(call).get());
            }
        }
        sum
    }
}

/// Counts one more.
#[cfg(test)]
fn add_one(counter: &Cell<u64>) {
    counter.set(counter.get().saturating_add(1));
}

/// Whether a path is one of these.
#[cfg(test)]
fn is_among(path: &str, paths: &[&str]) -> bool {
    for one in paths {
        if *one == path {
            return true;
        }
    }
    false
}

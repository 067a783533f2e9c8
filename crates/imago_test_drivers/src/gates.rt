// SPDX-License-Identifier: MIT
//! Gates for tests: one that keeps what it was asked, and one that refuses one of its openings.
ghost use Rattle.std.specs.Prelude.{◌≡◌, [], IfOk, IfErr};

use imago_drivers::gate::ImplicitOpenGate;
use imago_storage::error::Error;
use imago_storage::storage::{Storage, StorageOpenOptions};
use std::alloc::Global;

/// The options that a gate was asked with.
#[derive(Debug, Drop)]
pub struct Asked {
    /// The name of the storage, if one was given.
    pub filename: Option<String>,
    /// Whether it is to be writable.
    pub writable: bool,
    /// Whether the host's cache is to be bypassed.
    pub direct: bool,
}

impl Asked {
    ghost use Rattle.imago_storage.specs.Options.{open_options};
    ghost use Rattle.imago_test_drivers.specs.Gates.{asked_options};

    /// A copy of what the options ask for. Refused, it is [`Error::Memory`].
    fn of(alloc: Global, opts: &StorageOpenOptions) -> Result<Asked, Error>
        ensures copied { IfOk result (λ a. asked_options a ≡ open_options opts.now) }
        ensures memory { IfErr result (λ e. e ≡ Error.Memory) }
    {
        let filename = match opts.get_filename() {
            None => None,
            Some(name) => Some(String::from_str(alloc, name)?),
        };
        Ok(Asked {
            filename,
            writable: opts.get_writable(),
            direct: opts.get_direct(),
        })
    }
}

/// A gate that keeps the options of each opening, and then passes it on. Where there is no memory
/// to keep them, the opening is [`Error::Memory`], and neither kept nor passed on.
#[derive(Drop)]
pub struct RecordingGate<G> {
    inner: G,
    asked: Vec<Asked>,
}

impl<G: Drop> RecordingGate<G> {
    ghost use Rattle.imago_test_drivers.specs.Gates.{gate_in, openings};

    /// That gate, with nothing asked yet.
    pub fn new(alloc: Global, inner: G) -> Self
        ensures inner { gate_in result ≡ inner }
        ensures asked { openings result ≡ [] }
    {
        RecordingGate {
            inner,
            asked: Vec::new(alloc),
        }
    }

    /// The options of the openings so far, the first one first.
    pub fn asked(&self) -> &[Asked] {
        &self.asked
    }
}

impl<S: Storage, G: ImplicitOpenGate<S>> ImplicitOpenGate<S> for RecordingGate<G> {
    ghost use Rattle.imago_test_drivers.specs.Gates.{IsRecorded};

    ghost opened = { IsRecorded G.opened };

    fn open_storage(&mut self, alloc: Global, opts: StorageOpenOptions) -> Result<S, Error> {
        let asked = Asked::of(alloc, &opts)?;
        self.asked.push(asked)?;
        self.inner.open_storage(alloc, opts)
    }
}

/// A gate that refuses one of its openings as [`Error::Denied`], the nth, and passes the others on.
#[derive(Drop)]
pub struct NthGate<G> {
    inner: G,
    left: u64,
}

impl<G: Drop> NthGate<G> {
    ghost use Rattle.imago_test_drivers.specs.Gates.{refusing, openings_left};

    /// That gate, whose nth opening is refused, counted from 1. For 0 none is.
    pub fn new(inner: G, nth: u64) -> Self
        ensures inner { refusing result ≡ inner }
        ensures left { openings_left result ≡ nth }
    {
        NthGate { inner, left: nth }
    }
}

impl<S: Storage, G: ImplicitOpenGate<S>> ImplicitOpenGate<S> for NthGate<G> {
    ghost use Rattle.imago_test_drivers.specs.Gates.{IsNthOpening};

    ghost opened = { IsNthOpening G.opened };

    fn open_storage(&mut self, alloc: Global, opts: StorageOpenOptions) -> Result<S, Error> {
        let is_refused = self.left == 1;
        self.left = self.left.saturating_sub(1);
        if is_refused {
            return Err(Error::Denied);
        }
        self.inner.open_storage(alloc, opts)
    }
}

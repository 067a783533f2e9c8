// SPDX-License-Identifier: MIT
//! What may be opened for an image.
ghost use Rattle.std.specs.Prelude.{◌≡◌, ◌++◌, ◌∷◌, [], ℕ, List, OnOk, OnErr, IfErr, IsOk};
ghost use Rattle.std.specs.Prelude.{MatchOption};
ghost use Rattle.std.specs.Option.{option_copied};
ghost use Rattle.std.specs.String.{string_bytes};
ghost use Rattle.imago_storage.specs.Options.{open_options};
ghost use Rattle.imago_drivers.specs.Opening.{Opening, IsDenied, IsPassedOn};

use imago_storage::error::Error;
use imago_storage::storage::{Storage, StorageOpenOptions};
use std::alloc::Global;
use std::collections::{BTreeMap, VecDeque};

/// Decides which storages are opened for an image, and opens them.
///
/// A builder asks a gate for each storage that it wasn't handed. The gate is told the options,
/// which name the storage; it may refuse, or open another one. What it refuses for is passed on.
pub trait ImplicitOpenGate<S: Storage>: Drop {
    /// What an opening is: a relation of the options, the gate before, the gate after, and the
    /// answer. Over a gate that isn't known nothing but the call itself gives it.
    ghost opened: { Opening Self S };

    /// Opens a storage as the options ask, or refuses to.
    fn open_storage(&mut self, alloc: Global, opts: StorageOpenOptions) -> Result<S, Error>
        ensures { opened (open_options opts) self.old self.new result };
}

/// A gate that is lent: every opening goes to the gate behind the borrow.
impl<S: Storage, G: ImplicitOpenGate<S>> ImplicitOpenGate<S> for &mut G {
    ghost opened = { λ o a b r. G.opened o a.now b.now r };

    fn open_storage(&mut self, alloc: Global, opts: StorageOpenOptions) -> Result<S, Error> {
        ImplicitOpenGate::open_storage(&mut **self, alloc, opts)
    }
}

/// A gate that opens nothing: each opening is [`Error::Denied`].
#[derive(Clone, Copy, Debug, Default)]
pub struct DenyImplicitOpenGate(());

impl<S: Storage> ImplicitOpenGate<S> for DenyImplicitOpenGate {
    ghost opened = { IsDenied };

    fn open_storage(&mut self, _alloc: Global, _opts: StorageOpenOptions) -> Result<S, Error> {
        Err(Error::Denied)
    }
}

/// A gate that opens each storage by [`Storage::open`], whose refusals it passes on.
///
/// An image then decides by itself what is opened, so only images that are trusted should be opened
/// with it.
#[derive(Clone, Copy, Debug, Default)]
pub struct PermissiveImplicitOpenGate(());

impl<S: Storage> ImplicitOpenGate<S> for PermissiveImplicitOpenGate {
    ghost opened = { IsPassedOn S.openings };

    fn open_storage(&mut self, _alloc: Global, opts: StorageOpenOptions) -> Result<S, Error> {
        S::open(opts)
    }
}

/// Storages by their names, each of which is handed out once. Of those that share a name the first
/// added is handed out first.
///
/// A name that no storage is left of is forgotten. Such a name, and options without a name, are
/// [`Error::NotFound`]. The other options aren't looked at.
#[derive(Drop)]
pub struct NamedGate<S> {
    alloc: Global,
    queues: BTreeMap<String, VecDeque<S>>,
}

impl<S: Storage> NamedGate<S> {
    ghost use Rattle.imago_drivers.specs.NamedGate.{storages_named, KeepsOtherNames, HasRoomFor};
    ghost use Rattle.imago_drivers.specs.NamedGate.{IsForgotten, first_of};

    /// No storages. It takes no memory.
    pub fn new(alloc: Global) -> Self
        ensures { (name : List ℕ) → storages_named result name ≡ [] }
    {
        NamedGate {
            alloc,
            queues: BTreeMap::new(alloc),
        }
    }

    /// Adds a storage, behind those of the same name. Where memory is refused, the storage is given
    /// back, and the gate has what it had. Where the name has room for one more, none is asked for.
    pub fn add(&mut self, name: String, storage: S) -> Result<(), S>
        ensures added { OnOk result
            (storages_named self.new (string_bytes name) ≡ storages_named self.old
            (string_bytes name) ++ storage ∷ []) }
        ensures refused { OnErr result (storages_named self.new (string_bytes name)
            ≡ storages_named self.old (string_bytes name)) }
        ensures room { HasRoomFor self.old (string_bytes name) → IsOk result }
        ensures given_back { IfErr result (λ s. s ≡ storage) }
        ensures others { KeepsOtherNames self.old self.new (string_bytes name) }
    {
        let Ok(entry) = self.queues.entry(name) else {
            return Err(storage);
        };
        let queue = entry.or_insert(VecDeque::new(self.alloc));
        match queue.push_back(storage) {
            Ok(()) => Ok(()),
            Err(refused) => Err(refused.value),
        }
    }

    /// The storage that is handed out next under that name, if one is left.
    pub fn get(&self, name: &str) -> Option<&S>
        ensures { option_copied result ≡ first_of (storages_named self.now name.now) }
    {
        self.queues.get(name)?.front()
    }

    /// Takes the first storage of that name out. With the last one the name is forgotten.
    fn take(&mut self, name: &str) -> Option<S>
        ensures first { MatchOption result (storages_named self.old name.now ≡ [])
            (λ s. storages_named self.old name.now ≡ s ∷ storages_named self.new name.now) }
        ensures none { MatchOption result (storages_named self.new name.now ≡ []) (λ _. Unit {0}) }
        ensures forgotten { IsForgotten self.new name.now }
        ensures others { KeepsOtherNames self.old self.new name.now }
    {
        let queue = self.queues.get_mut(name)?;
        let storage = queue.pop_front();
        if queue.is_empty() {
            let _ = self.queues.remove(name);
        }
        storage
    }
}

impl<S: Storage> ImplicitOpenGate<S> for NamedGate<S> {
    ghost use Rattle.imago_drivers.specs.NamedGate.{IsHandedOut};

    ghost opened = { λ o a b r. IsHandedOut o.filename a b r };

    fn open_storage(&mut self, _alloc: Global, opts: StorageOpenOptions) -> Result<S, Error> {
        let Some(name) = opts.get_filename() else {
            return Err(Error::NotFound);
        };
        self.take(name).ok_or(Error::NotFound)
    }
}

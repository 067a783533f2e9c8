// SPDX-License-Identifier: MIT
//! What a script has made so far, and what its commands do to it.
ghost use Rattle.std.specs.Prelude.{◌≡◌, None, IsErrOf};
ghost use Rattle.std.specs.Option.{ForSome};
ghost use Rattle.imago.specs.Chain.{driver};

use crate::answer::Answer;
use crate::command::Command;
use crate::script_storage::ScriptStorage;
use crate::stop::Stop;
use crate::words::BlockSize;
use imago::any::AnyDriver;
use imago::cow::Cow;
use imago::drivers::FormatDriverInstance;
use imago::error::{Error, ErrorKind};
use imago::gate::{ImplicitOpenGate, NamedGate};
use imago::mem::MemStorage;
use imago::null::Null;
use imago::raw::Raw;
use imago::run::{Call, Reply, run};
use imago::vmdk::Vmdk;
use imago::{FormatAccess, FormatDriverBuilder, StorageOpenOptions};
use std::alloc::Global;

/// An open image.
pub type Image = FormatAccess<AnyDriver<ScriptStorage>>;

/// The storages that a script has added and not opened, and its open image, in which no prepared
/// mapping waits.
#[derive(Drop)]
pub struct Session {
    alloc: Global,
    storages: NamedGate<ScriptStorage>,
    image: Option<Image>,
    ghost spent: { ForSome image
        (λ i. (⟦<AnyDriver<ScriptStorage> as FormatDriverInstance>⟧.view (driver i)).pending
        ≡ None) },
}

impl Session {
    /// No storages, and no open image.
    pub fn new(alloc: Global) -> Self {
        Session {
            alloc,
            storages: NamedGate::new(alloc),
            image: None,
        }
    }

    /// Does a command. It stops the script only where there is no memory for the script itself.
    pub fn answer(&mut self, command: Command<'_>) -> Result<Answer<'_>, Stop> {
        match command {
            Command::Mem {
                name,
                length,
                byte,
                mem_align,
                req_align,
            } => {
                let Ok(bytes) = vec![in self.alloc; byte; length as usize] else {
                    return Ok(Answer::Refused(ErrorKind::OutOfMemory));
                };
                let storage = MemStorage::named(String::from_str(self.alloc, name)?, bytes);
                self.add(
                    name,
                    ScriptStorage::Mem(storage.with_aligns(mem_align.bytes(), req_align.bytes())),
                )
            }
            Command::Hex { name, bytes } => {
                let storage = MemStorage::named(String::from_str(self.alloc, name)?, bytes);
                self.add(name, ScriptStorage::Mem(storage))
            }
            Command::Null { name, size } => self.add(name, ScriptStorage::Null(Null::new(size))),
            Command::Probe { name } => Ok(Answer::from(self.probe(name))),
            Command::OpenRaw { name, writable } => Ok(Answer::from(self.open_raw(name, writable))),
            Command::OpenVmdk { name, lax } => Ok(Answer::from(self.open_vmdk(name, lax))),
            Command::OpenCow { name, block } => Ok(Answer::from(self.open_cow(name, block))),
            Command::Show => Ok(Answer::from(self.show())),
            Command::Call(call) => Ok(Answer::from(self.call(call))),
        }
    }

    /// Adds a storage.
    fn add(&mut self, name: &str, storage: ScriptStorage) -> Result<Answer<'_>, Stop> {
        let name = String::from_str(self.alloc, name)?;
        match self.storages.add(name, storage) {
            Ok(()) => Ok(Answer::Done),
            Err(_) => Err(Stop::Memory),
        }
    }

    /// Whether a storage has a VMDK descriptor, as far as can be told.
    fn probe(&self, name: &str) -> Result<Answer<'_>, Error> {
        let storage = self.storages.get(name).ok_or(Error::NotFound)?;
        Ok(Answer::Probed(Vmdk::probe(self.alloc, storage)?))
    }

    /// Takes a storage and opens it as a raw image.
    fn open_raw(&mut self, name: &str, writable: bool) -> Result<Answer<'_>, Error> {
        let path = String::from_str(self.alloc, name)?;
        let builder = Raw::builder_path(path).write(writable);
        let driver = builder.open(self.alloc, &mut self.storages)?;
        Ok(self.opened(AnyDriver::Raw(driver)))
    }

    /// Takes a storage and those that its descriptor names, and opens them as a VMDK image.
    fn open_vmdk(&mut self, name: &str, lax: bool) -> Result<Answer<'_>, Error> {
        let path = String::from_str(self.alloc, name)?;
        let builder = Vmdk::builder_path(path).accept_unknown_keys(lax);
        let driver = builder.open(self.alloc, &mut self.storages)?;
        Ok(self.opened(AnyDriver::Vmdk(driver)))
    }

    /// Has the image of that driver as the open one, and lets go of the one that was.
    fn opened(&mut self, top: AnyDriver<ScriptStorage>) -> Answer<'_>
        requires { (⟦<AnyDriver<ScriptStorage> as FormatDriverInstance>⟧.view top).pending ≡ None }
    {
        self.image = Some(FormatAccess::new(top));
        Answer::Done
    }

    /// Takes a storage, and lays a copy-on-write disk with its data there over the open image.
    fn open_cow(&mut self, name: &str, block: BlockSize) -> Result<Answer<'_>, Error>
        ensures { self.old.image ≡ None → IsErrOf result Error.NotFound }
    {
        let size = self.image.as_ref().ok_or(Error::NotFound)?.size();
        let path = String::from_str(self.alloc, name)?;
        let opts = StorageOpenOptions::new().write(true).filename(path);
        let storage = self.storages.open_storage(self.alloc, opts)?;
        let top = Cow::create(self.alloc, storage, size, block.bytes())?;
        self.laid(AnyDriver::Cow(top))
    }

    /// Has the image of that driver above the open one. Where there is no memory for that, the open
    /// image stays.
    fn laid(&mut self, top: AnyDriver<ScriptStorage>) -> Result<Answer<'_>, Error>
        requires { (⟦<AnyDriver<ScriptStorage> as FormatDriverInstance>⟧.view top).pending ≡ None }
        ensures { self.old.image ≡ None → IsErrOf result Error.NotFound }
    {
        let below = self.image.take().ok_or(Error::NotFound)?;
        match Box::new(self.alloc, below) {
            Ok(below) => {
                self.image = Some(FormatAccess::with_backing(top, below));
                Ok(Answer::Done)
            }
            Err(refused) => {
                self.image = Some(refused.value);
                Err(Error::Memory)
            }
        }
    }

    /// The open image, to be printed.
    fn show(&self) -> Result<Answer<'_>, Error>
        ensures { self.now.image ≡ None → IsErrOf result Error.NotFound }
    {
        let image = self.image.as_ref().ok_or(Error::NotFound)?;
        Ok(Answer::Shown(image))
    }

    /// Makes one call on the open image.
    fn call(&mut self, call: Call) -> Result<Answer<'_>, Error>
        ensures { self.old.image ≡ None → IsErrOf result Error.NotFound }
    {
        let image = self.image.as_mut().ok_or(Error::NotFound)?;
        let mut replies = Vec::new(self.alloc);
        run(self.alloc, image, &[call], &mut replies)?;
        match replies.pop() {
            Some(reply) => Ok(Answer::Replied(reply)),
            None => unreachable!(),
        }
    }
}

// SPDX-License-Identifier: MIT
//! A host that is asked for some paths and no others.
ghost use Rattle.std.specs.Prelude.{◌≡◌, ℕ, List, Bool, true};
ghost use Rattle.imago_images.specs.Reach.{is_read, is_made, is_seen, AreAmong};

use crate::files::{FileStatus, Files, WritableFiles};
use crate::guarded::{GuardedFiles, GuardedWritableFiles};
use std::alloc::Global;
use std::io::{self, ErrorKind};

/// Which paths a host is asked for.
#[derive(Clone, Copy)]
pub enum Reach<'a> {
    /// None.
    Nothing,
    /// The one of a file, which is read.
    File(&'a str),
    /// Those of two files, which are read.
    Files(&'a str, &'a str),
    /// The one of a file that is read, and the one of a file that is made or written to, which
    /// isn't read unless it is the same.
    Copy(&'a str, &'a str),
    /// The one of a file that is made, which isn't read.
    Fresh(&'a str),
    /// All, which are read.
    Reading,
    /// All, which are read, and the one of a file that is made or written to.
    ReadingInto(&'a str),
}

impl Reach<'_> {
    /// Whether the file of a path is opened and read.
    pub fn reads(&self, path: &str) -> bool
        ensures { result ≡ is_read self.now path.now }
    {
        match self {
            Reach::Nothing => false,
            Reach::File(file) => path == *file,
            Reach::Files(first, second) => path == *first || path == *second,
            Reach::Copy(source, _) => path == *source,
            Reach::Fresh(_) => false,
            Reach::Reading | Reach::ReadingInto(_) => true,
        }
    }

    /// Whether a path is written to: a new file gets it, or the one that is there is changed.
    pub fn makes(&self, path: &str) -> bool
        ensures { result ≡ is_made self.now path.now }
    {
        match self {
            Reach::Nothing | Reach::File(_) | Reach::Files(_, _) | Reach::Reading => false,
            Reach::Copy(_, target) | Reach::Fresh(target) => path == *target,
            Reach::ReadingInto(target) => path == *target,
        }
    }

    /// Whether a path is looked at.
    pub fn sees(&self, path: &str) -> bool
        ensures { result ≡ is_seen self.now path.now }
    {
        self.reads(path) || self.makes(path)
    }
}

/// A host that is asked for some paths and no others.
///
/// Whatever asks it for another path is refused, as [`ErrorKind::PermissionDenied`], and the host
/// isn't asked. So whoever has a host only by way of this type can name no other path to it: not by
/// what it does at once, and not by what it keeps, as an image that is read later.
#[derive(Drop)]
pub struct Confined<'a, G: GuardedFiles> {
    /// The host that is asked.
    pub host: G,
    /// The paths that it is asked for.
    pub reach: Reach<'a>,
    pub ghost reads: { AreAmong (is_read reach) G.may_read },
    pub ghost looks: { AreAmong (is_seen reach) G.may_look },
    pub ghost makes: { AreAmong (is_made reach) G.may_make },
}

/// The refusal of another path.
pub fn out_of_reach() -> io::Error {
    io::Error::new(ErrorKind::PermissionDenied, "other files aren't permitted")
}

impl<'a, G: GuardedFiles> Confined<'a, G> {
    /// A host that is asked for nothing yet.
    pub fn new(host: G) -> Self
        ensures host { result.host ≡ «host» }
    {
        Confined {
            host,
            reach: Reach::Nothing,
        }
    }

    /// Lets the host be asked for these paths from now on, and for no others.
    pub fn confine(&mut self, reach: Reach<'a>)
        requires reads { AreAmong (is_read reach) G.may_read }
        requires looks { AreAmong (is_seen reach) G.may_look }
        requires makes { AreAmong (is_made reach) G.may_make }
        ensures host { self.new.host ≡ self.old.host }
        ensures reach { self.new.reach ≡ reach.entry }
    {
        self.reach = reach;
    }
}

impl<'a, G: GuardedFiles> Files for Confined<'a, G> {
    type File = G::File;

    ghost contents = { λ c. G.contents c.host };

    ghost statuses = { λ c. G.statuses c.host };

    ghost real_paths = { λ c. G.real_paths c.host };

    fn alloc(&self) -> Global {
        self.host.alloc()
    }

    fn status(&self, path: &str) -> io::Result<FileStatus> {
        if !self.reach.sees(path) {
            return Err(out_of_reach());
        }
        self.host.status(path)
    }

    fn read_at(&self, path: &str, buf: &mut [u8], offset: u64) -> io::Result<()> {
        if !self.reach.reads(path) {
            return Err(out_of_reach());
        }
        self.host.read_at(path, buf, offset)
    }

    fn is_same_file(&self, one: &str, other: &str) -> io::Result<bool> {
        if !self.reach.sees(one) || !self.reach.sees(other) {
            return Err(out_of_reach());
        }
        self.host.is_same_file(one, other)
    }

    fn real_path(&self, path: &str) -> io::Result<String> {
        if !self.reach.sees(path) {
            return Err(out_of_reach());
        }
        self.host.real_path(path)
    }
}

/// A file is opened for writing if it is one that is read and written to.
impl<'a, G: GuardedWritableFiles> WritableFiles for Confined<'a, G> {
    fn open_to_write(&mut self, path: &str) -> io::Result<Self::File> {
        if !self.reach.reads(path) {
            return Err(out_of_reach());
        }
        if !self.reach.makes(path) {
            return Err(out_of_reach());
        }
        self.host.open_to_write(path)
    }
}

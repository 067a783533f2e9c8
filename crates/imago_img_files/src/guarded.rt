// SPDX-License-Identifier: MIT
//! Where the commands find files and make them, of which only some may be asked for.
ghost use Rattle.std.specs.Prelude.{◌≡◌, ℕ, ◌<◌, ◌≤◌, [], List, Option, Some, None, true, false};
ghost use Rattle.std.specs.Prelude.{OnOk, OnErr, IfOk, IfSome, length, option_map, replicate};
ghost use Rattle.std.specs.Prelude.{string_bytes};
ghost use Rattle.imago_storage.specs.Bytes.{bytes_at};
ghost use Rattle.imago_img_files.specs.Files.{Around, begun, ended, with_file, IsMade, IsWhole};
ghost use Rattle.imago_img_files.specs.Files.{IsOverwritten, IsResized, IsWithoutLeftOver};

use crate::host::{FileStatus, Host, LeftOver, Making};
use imago_copy::target::Target;
use imago_images::confined::out_of_reach;
pub use imago_images::confined::{Confined, Reach};
use imago_images::guarded::GuardedFiles;
use std::io;

/// Where the commands find files by their paths, and make them, and only some of the paths may be
/// asked for: as of [`GuardedFiles`], which ones is any set of paths. All [`Host`]s are such hosts,
/// of which each path may be asked for.
pub trait GuardedHost: GuardedFiles {
    ghost use Rattle.imago_images.specs.declared.files.FileStatus.{FileStatus};

    /// A file that is being made.
    type Target: Target;

    /// A file that was there before, and is written over.
    type Existing: Target;

    /// What is told of the files beside their bytes, where an implementation says it.
    ghost around: { Self → Option Around };

    /// What the unfinished file of each path is by itself, where an implementation says it.
    ghost left_overs: { Self → Option (List ℕ → FileStatus) };

    /// As [`Host::run_at`], of a path that may be read.
    fn run_at(&self, path: &str, offset: u64, most: u64) -> (u64, bool)
        requires asked { Self.may_read path.now ≡ true }
        requires some { 0 < most }
        ensures some { 0 < result.0 }
        ensures within { result.0 ≤ most }
        ensures zero { IfSome (Self.contents self.now) (λ files. result.1 ≡ false
            → bytes_at (files path.now) «offset» result.0 ≡ replicate result.0 0) };

    /// As [`Host::size_on_disk`], of a path that may be looked at.
    fn size_on_disk(&self, path: &str) -> Option<u64>
        requires asked { Self.may_look path.now ≡ true };

    /// As [`Host::found`], of a path that may be looked at.
    fn found(&self, path: &str) -> io::Result<Option<FileStatus>>
        requires asked { Self.may_look path.now ≡ true }
        ensures none { IfOk result (λ found. found ≡ None
            → IfSome (around self.now) (λ a. a.there path.now ≡ false)) }
        ensures told { IfOk result (λ found. IfSome found (λ there. IfSome (Self.statuses self.now)
            (λ status_of. there ≡ status_of path.now))) };

    /// As [`Host::is_held`], of a path for which a file may be made.
    fn is_held(&self, path: &str) -> io::Result<bool>
        requires asked { Self.may_make path.now ≡ true }
        ensures held { IfOk result
            (λ held. IfSome (around self.now) (λ a. held ≡ a.held path.now)) };

    /// As [`Host::show_progress`].
    fn show_progress(&self, done: u64, total: u64, hundredths: u64);

    /// As [`Host::end_progress`].
    fn end_progress(&self);

    /// As [`Host::left_over`], of a path for which a file may be made.
    fn left_over(&self, path: &str) -> io::Result<Option<LeftOver>>
        requires asked { Self.may_make path.now ≡ true }
        ensures beside { IfOk result (λ found. IfSome found (λ left. IfSome (around self.now)
            (λ a. string_bytes left.path ≡ a.beside path.now))) }
        ensures told { IfOk result (λ found. IfSome found (λ left. IfSome (left_overs self.now)
            (λ left_of. left.status ≡ left_of path.now))) };

    /// As [`Host::remove_left_over`], of a path for which a file may be made.
    fn remove_left_over(&mut self, path: &str) -> io::Result<()>
        requires asked { Self.may_make path.now ≡ true }
        ensures gone { OnOk result (IsWithoutLeftOver (Self.contents self.old)
            (Self.contents self.new) (around self.old) (around self.new) path.now) }
        ensures same { OnErr result (Self.contents self.new ≡ Self.contents self.old) }
        ensures refused { OnErr result (around self.new ≡ around self.old) };

    /// As [`Host::create`], of a path for which a file may be made.
    fn create(&mut self, path: &str, size: u64, how: Making) -> io::Result<Self::Target>
        requires asked { Self.may_make path.now ≡ true }
        ensures same { Self.contents self.new ≡ Self.contents self.old }
        ensures begun { OnOk result (around self.new ≡ option_map begun (around self.old)) }
        ensures refused { OnErr result (around self.new ≡ around self.old) }
        ensures free { OnOk result (how.replace ≡ false
            → IfSome (around self.old) (λ a. a.there path.now ≡ false)) }
        ensures empty { IfOk result
            (λ t. IfSome (Self.contents self.old) (λ _. Self.Target.contents t ≡ Some [])) }
        ensures made_for { IfOk result (λ t. IfSome (Self.contents self.old)
            (λ _. Self.Target.made_for t ≡ Some (path.now, size))) };

    /// As [`Host::finish`].
    fn finish(&mut self, target: Self::Target) -> io::Result<()>
        requires whole { IfSome (Self.contents self.old)
            (λ _. IsWhole (Self.Target.made_for target) (Self.Target.contents target)) }
        ensures made { OnOk result (IfSome (Self.Target.made_for target)
            (λ m. IsMade (Self.contents self.old) (Self.contents self.new) m.0
            (Self.Target.contents target))) }
        ensures there { OnOk result (IfSome (Self.Target.made_for target) (λ m. around self.new
            ≡ option_map (with_file m.0) (option_map ended (around self.old)))) }
        ensures refused { OnErr result (Self.contents self.new ≡ Self.contents self.old) }
        ensures gone { OnErr result (around self.new ≡ option_map ended (around self.old)) };

    /// As [`Host::abandon`].
    fn abandon(&mut self, target: Self::Target)
        ensures same { Self.contents self.new ≡ Self.contents self.old }
        ensures gone { around self.new ≡ option_map ended (around self.old) };

    /// As [`Host::open_existing`], of a path for which a file may be made.
    fn open_existing(&mut self, path: &str) -> io::Result<Self::Existing>
        requires asked { Self.may_make path.now ≡ true }
        ensures same { Self.contents self.new ≡ Self.contents self.old }
        ensures around { around self.new ≡ around self.old }
        ensures there { OnOk result (IfSome (around self.old) (λ a. a.there path.now ≡ true)) }
        ensures empty { IfOk result
            (λ t. IfSome (Self.contents self.old) (λ _. Self.Existing.contents t ≡ Some [])) }
        ensures made_for { IfOk result (λ t. IfSome (Self.contents self.old)
            (λ files. Self.Existing.made_for t ≡ Some (path.now, length (files path.now)))) };

    /// As [`Host::close_existing`].
    fn close_existing(&mut self, target: Self::Existing)
        requires there { IfSome (Self.contents self.old) (λ _. IfSome (around self.old)
            (λ a. IfSome (Self.Existing.made_for target) (λ m. a.there m.0 ≡ true))) }
        ensures written { IfSome (Self.Existing.made_for target)
            (λ m. IsOverwritten (Self.contents self.old) (Self.contents self.new) m.0
            (Self.Existing.contents target)) }
        ensures around { around self.new ≡ around self.old };

    /// As [`Host::set_length`], of a path for which a file may be made.
    fn set_length(&mut self, path: &str, length: u64) -> io::Result<()>
        requires asked { Self.may_make path.now ≡ true }
        ensures resized { OnOk result (IsResized (Self.contents self.old)
            (Self.contents self.new) path.now «length») }
        ensures same { OnErr result (Self.contents self.new ≡ Self.contents self.old) }
        ensures around { around self.new ≡ around self.old };
}

/// Each path may be asked for.
impl<H: Host> GuardedHost for H {
    type Target = H::Target;

    type Existing = H::Existing;

    ghost around = { λ h. H.around h };

    ghost left_overs = { λ h. H.left_overs h };

    fn run_at(&self, path: &str, offset: u64, most: u64) -> (u64, bool) {
        Host::run_at(self, path, offset, most)
    }

    fn size_on_disk(&self, path: &str) -> Option<u64> {
        Host::size_on_disk(self, path)
    }

    fn found(&self, path: &str) -> io::Result<Option<FileStatus>> {
        Host::found(self, path)
    }

    fn is_held(&self, path: &str) -> io::Result<bool> {
        Host::is_held(self, path)
    }

    fn show_progress(&self, done: u64, total: u64, hundredths: u64) {
        Host::show_progress(self, done, total, hundredths)
    }

    fn end_progress(&self) {
        Host::end_progress(self)
    }

    fn left_over(&self, path: &str) -> io::Result<Option<LeftOver>> {
        Host::left_over(self, path)
    }

    fn remove_left_over(&mut self, path: &str) -> io::Result<()> {
        Host::remove_left_over(self, path)
    }

    fn create(&mut self, path: &str, size: u64, how: Making) -> io::Result<Self::Target> {
        Host::create(self, path, size, how)
    }

    fn finish(&mut self, target: Self::Target) -> io::Result<()> {
        Host::finish(self, target)
    }

    fn abandon(&mut self, target: Self::Target) {
        Host::abandon(self, target)
    }

    fn open_existing(&mut self, path: &str) -> io::Result<Self::Existing> {
        Host::open_existing(self, path)
    }

    fn close_existing(&mut self, target: Self::Existing) {
        Host::close_existing(self, target)
    }

    fn set_length(&mut self, path: &str, length: u64) -> io::Result<()> {
        Host::set_length(self, path, length)
    }
}

/// What may be made is made, and the rest is refused as by [`Files`](crate::host::Files).
impl<'a, G: GuardedHost> Host for Confined<'a, G> {
    type Target = G::Target;

    type Existing = G::Existing;

    ghost around = { λ c. G.around c.host };

    ghost left_overs = { λ c. G.left_overs c.host };

    fn run_at(&self, path: &str, offset: u64, most: u64) -> (u64, bool) {
        if !self.reach.reads(path) {
            return (most, true);
        }
        self.host.run_at(path, offset, most)
    }

    fn size_on_disk(&self, path: &str) -> Option<u64> {
        if !self.reach.sees(path) {
            return None;
        }
        self.host.size_on_disk(path)
    }

    fn found(&self, path: &str) -> io::Result<Option<FileStatus>> {
        if !self.reach.sees(path) {
            return Err(out_of_reach());
        }
        self.host.found(path)
    }

    fn is_held(&self, path: &str) -> io::Result<bool> {
        if !self.reach.makes(path) {
            return Err(out_of_reach());
        }
        self.host.is_held(path)
    }

    fn show_progress(&self, done: u64, total: u64, hundredths: u64) {
        self.host.show_progress(done, total, hundredths)
    }

    fn end_progress(&self) {
        self.host.end_progress()
    }

    fn left_over(&self, path: &str) -> io::Result<Option<LeftOver>> {
        if !self.reach.makes(path) {
            return Err(out_of_reach());
        }
        self.host.left_over(path)
    }

    fn remove_left_over(&mut self, path: &str) -> io::Result<()> {
        if !self.reach.makes(path) {
            return Err(out_of_reach());
        }
        self.host.remove_left_over(path)
    }

    fn create(&mut self, path: &str, size: u64, how: Making) -> io::Result<Self::Target> {
        if !self.reach.makes(path) {
            return Err(out_of_reach());
        }
        self.host.create(path, size, how)
    }

    fn finish(&mut self, target: Self::Target) -> io::Result<()> {
        self.host.finish(target)
    }

    fn abandon(&mut self, target: Self::Target) {
        self.host.abandon(target)
    }

    fn open_existing(&mut self, path: &str) -> io::Result<Self::Existing> {
        if !self.reach.makes(path) {
            return Err(out_of_reach());
        }
        self.host.open_existing(path)
    }

    fn close_existing(&mut self, target: Self::Existing) {
        self.host.close_existing(target)
    }

    fn set_length(&mut self, path: &str, length: u64) -> io::Result<()> {
        if !self.reach.makes(path) {
            return Err(out_of_reach());
        }
        self.host.set_length(path, length)
    }
}

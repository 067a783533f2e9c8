// SPDX-License-Identifier: MIT
//! Where the commands find files, and make them.
ghost use Rattle.std.specs.Prelude.{◌≡◌, ℕ, ◌<◌, ◌≤◌, [], List, Option, Some, None, true, false};
ghost use Rattle.std.specs.Prelude.{OnOk, OnErr, IfOk, IfSome, length, option_map, replicate};
ghost use Rattle.std.specs.Prelude.{string_bytes};
ghost use Rattle.imago_storage.specs.Bytes.{bytes_at};
ghost use Rattle.imago_img_files.specs.Files.{Around, begun, ended, with_file, IsMade, IsWhole};
ghost use Rattle.imago_img_files.specs.Files.{IsOverwritten, IsResized, IsWithoutLeftOver};

use imago_copy::target::Target;
pub use imago_images::files::{FileKind, FileStatus, Files};
use std::io;

/// What the path of a file that is being made ends in, until the file is finished.
pub const UNFINISHED: &str = ".imago-img-unfinished";

/// How a new file is made.
#[derive(Clone, Copy)]
pub struct Making {
    /// Whether it may replace a regular file.
    pub replace: bool,
    /// Whether blocks of 4096 zeroes are left out as holes. Else each byte is written.
    pub sparse: bool,
}

/// The unfinished file that a copy left when it was killed.
#[derive(Drop)]
pub struct LeftOver {
    /// Its path.
    pub path: String,
    /// What it is. A link is looked at itself.
    pub status: FileStatus,
}

/// Where the commands find files by their paths, and make them.
///
/// A file is made under an unfinished path, beside the one that it is to have, and gets that one
/// when it is finished. A copy that is killed leaves the unfinished file. A file that is there may
/// be written over instead: then its bytes change one after the other.
pub trait Host: Files {
    ghost use Rattle.imago_images.specs.declared.files.FileStatus.{FileStatus};

    /// A file that is being made. What its path leads to, and its bytes, are promised once it is
    /// finished. It can't be dropped: it is either finished or abandoned.
    type Target: Target;

    /// A file that was there before, and is written over from its first byte on. It can't be
    /// dropped: it is closed.
    type Existing: Target;

    /// What is told of the files beside their bytes, where an implementation says it.
    ghost around: { Self → Option Around };

    /// What the unfinished file of each path is by itself, where an implementation says it.
    ghost left_overs: { Self → Option (List ℕ → FileStatus) } = { λ _. None };

    /// How many bytes from the offset on, at least one and at most that many, come before the next
    /// hole of the file, and `true`; or how many are in one hole, and `false`.
    fn run_at(&self, path: &str, offset: u64, most: u64) -> (u64, bool)
        requires { 0 < most }
        ensures some { 0 < result.0 }
        ensures within { result.0 ≤ most }
        ensures zero { IfSome (Self.contents self.now) (λ files. result.1 ≡ false
            → bytes_at (files path.now) «offset» result.0 ≡ replicate result.0 0) };

    /// How many bytes of its file system a file takes, which are fewer than its length where it has
    /// holes, if that can be told.
    fn size_on_disk(&self, path: &str) -> Option<u64>;

    /// What a path leads to, if it leads to something: as [`Files::status`] tells it.
    fn found(&self, path: &str) -> io::Result<Option<FileStatus>>
        ensures none { IfOk result (λ found. found ≡ None
            → IfSome (around self.now) (λ a. a.there path.now ≡ false)) }
        ensures told { IfOk result (λ found. IfSome found (λ there. IfSome (Self.statuses self.now)
            (λ status_of. there ≡ status_of path.now))) };

    /// Whether QEMU holds the file of a path: it writes it, or keeps others from that. No file is
    /// held where there is none. This is a look and no lock, so the answer may change at once.
    fn is_held(&self, path: &str) -> io::Result<bool>
        ensures { IfOk result
            (λ held. IfSome (around self.now) (λ a. held ≡ a.held path.now)) };

    /// Shows how many bytes of a copy are done, of how many, and how many hundredths that is.
    fn show_progress(&self, done: u64, total: u64, hundredths: u64);

    /// Ends what was shown of a copy.
    fn end_progress(&self);

    /// The unfinished file that a copy to a path left when it was killed, if there is one.
    fn left_over(&self, path: &str) -> io::Result<Option<LeftOver>>
        ensures beside { IfOk result (λ found. IfSome found (λ left. IfSome (around self.now)
            (λ a. string_bytes left.path ≡ a.beside path.now))) }
        ensures told { IfOk result (λ found. IfSome found (λ left. IfSome (left_overs self.now)
            (λ left_of. left.status ≡ left_of path.now))) };

    /// Removes the unfinished file that a copy to a path left. It is never emptied, since it may be
    /// a second name of a finished file. Refused, it is still there.
    fn remove_left_over(&mut self, path: &str) -> io::Result<()>
        ensures gone { OnOk result (IsWithoutLeftOver (Self.contents self.old)
            (Self.contents self.new) (around self.old) (around self.new) path.now) }
        ensures same { OnErr result (Self.contents self.new ≡ Self.contents self.old) }
        ensures refused { OnErr result (around self.new ≡ around self.old) };

    /// Begins a file of that many bytes for a path, under its unfinished path. What has the path
    /// stays until the new file is finished; where it isn't to be replaced, it is
    /// [`AlreadyExists`](io::ErrorKind::AlreadyExists), and so is what has the unfinished path.
    fn create(&mut self, path: &str, size: u64, how: Making) -> io::Result<Self::Target>
        ensures same { Self.contents self.new ≡ Self.contents self.old }
        ensures begun { OnOk result (around self.new ≡ option_map begun (around self.old)) }
        ensures refused { OnErr result (around self.new ≡ around self.old) }
        ensures free { OnOk result (how.replace ≡ false
            → IfSome (around self.old) (λ a. a.there path.now ≡ false)) }
        ensures empty { IfOk result
            (λ t. IfSome (Self.contents self.old) (λ _. Self.Target.contents t ≡ Some [])) }
        ensures made_for { IfOk result (λ t. IfSome (Self.contents self.old)
            (λ _. Self.Target.made_for t ≡ Some (path.now, size))) };

    /// Gives a file, into which all of its bytes were put, the path for which it was begun. Unless
    /// it is to replace what had the path when it was begun, what came to have the path meanwhile
    /// is [`AlreadyExists`](io::ErrorKind::AlreadyExists). Refused, the file is gone, and what had
    /// the path still has it.
    fn finish(&mut self, target: Self::Target) -> io::Result<()>
        requires whole { IfSome (Self.contents self.old)
            (λ _. IsWhole (Self.Target.made_for target) (Self.Target.contents target)) }
        ensures made { OnOk result (IfSome (Self.Target.made_for target)
            (λ m. IsMade (Self.contents self.old) (Self.contents self.new) m.0
            (Self.Target.contents target))) }
        ensures there { OnOk result (IfSome (Self.Target.made_for target) (λ m. around self.new
            ≡ option_map (with_file m.0) (option_map ended (around self.old)))) }
        ensures refused { OnErr result (Self.contents self.new ≡ Self.contents self.old) }
        ensures gone { OnErr result (around self.new ≡ option_map ended (around self.old)) };

    /// Lets a file go that isn't to be. Nothing is left of it.
    fn abandon(&mut self, target: Self::Target)
        ensures same { Self.contents self.new ≡ Self.contents self.old }
        ensures gone { around self.new ≡ option_map ended (around self.old) };

    /// Opens the file of a path to be written over. None is made or cut by that.
    fn open_existing(&mut self, path: &str) -> io::Result<Self::Existing>
        ensures same { Self.contents self.new ≡ Self.contents self.old }
        ensures around { around self.new ≡ around self.old }
        ensures there { OnOk result (IfSome (around self.old) (λ a. a.there path.now ≡ true)) }
        ensures empty { IfOk result
            (λ t. IfSome (Self.contents self.old) (λ _. Self.Existing.contents t ≡ Some [])) }
        ensures made_for { IfOk result (λ t. IfSome (Self.contents self.old)
            (λ files. Self.Existing.made_for t ≡ Some (path.now, length (files path.now)))) };

    /// Closes a file that was written over. What was put in stands at its start, and behind that
    /// what it had before.
    fn close_existing(&mut self, target: Self::Existing)
        requires there { IfSome (Self.contents self.old) (λ _. IfSome (around self.old)
            (λ a. IfSome (Self.Existing.made_for target) (λ m. a.there m.0 ≡ true))) }
        ensures written { IfSome (Self.Existing.made_for target)
            (λ m. IsOverwritten (Self.contents self.old) (Self.contents self.new) m.0
            (Self.Existing.contents target)) }
        ensures around { around self.new ≡ around self.old };

    /// Gives the regular file of a path that length in bytes: it is cut there, or zeroes are put
    /// behind its bytes. Refused, it is as it was.
    fn set_length(&mut self, path: &str, length: u64) -> io::Result<()>
        ensures resized { OnOk result (IsResized (Self.contents self.old)
            (Self.contents self.new) path.now «length») }
        ensures same { OnErr result (Self.contents self.new ≡ Self.contents self.old) }
        ensures around { around self.new ≡ around self.old };
}

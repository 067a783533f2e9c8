// SPDX-License-Identifier: MIT
//! The interface of a storage: aligned calls on a list of bytes.
ghost use Rattle.std.specs.Prelude.{◌≡◌, ◌≢◌, ℕ, ◌+◌, ◌%◌, ◌↔◌, List, length, replicate, max};
ghost use Rattle.std.specs.Prelude.{false, IsTrue, OnOk, OnErr, IfOk, IfErr, IsErrOf};
ghost use Rattle.std.specs.Option.{option_copied};
ghost use Rattle.std.specs.String.{string_bytes};
ghost use Rattle.imago_storage.specs.Bytes.{splice, OldOrNew, WriteOutcome, IsReadAt, SameOutside};
ghost use Rattle.imago_storage.specs.Bytes.{IsResized, IsZeroFrom};
ghost use Rattle.imago_storage.specs.Calls.{IsPureZeroing, IsMaintained, ShowsNoChange};
ghost use Rattle.imago_storage.specs.Error.{IsDeviceOrMemory, IsNameRefusal, IsPureRefusal};
ghost use Rattle.imago_storage.specs.Faults.{CountsFaults};
ghost use Rattle.imago_storage.specs.Features.{Features, InPlace, MayRunOut, zero_support};
ghost use Rattle.imago_storage.specs.Features.{zero_piece, AreLawful, IsAlignedRequest};
ghost use Rattle.imago_storage.specs.Features.{IsAlignedTo, OthersMayRunOut};
ghost use Rattle.imago_storage.specs.Powers.{IsAlignment};
ghost use Rattle.imago_storage.specs.IoCount.{IoCount, AddsAtMost};
ghost use Rattle.imago_storage.specs.Zeroes.{IsZeroedAsData};
ghost use Rattle.imago_storage.specs.Maintenance.{Maintenance};
ghost use Rattle.imago_storage.specs.Openings.{Openings, IsMade};
ghost use Rattle.imago_storage.specs.Options.{open_options, create_options};
ghost use Rattle.imago_storage.specs.declared.options.ZeroKind.TheVariants.{Any, Allocated};

use crate::align::remainder;
use crate::error::Error;
pub use crate::options::{PreallocateMode, StorageCreateOptions, StorageOpenOptions, ZeroKind};
use std::alloc::Global;
use std::fmt::Display;

/// The size up to which zeroes are written as data in one piece, in bytes.
pub const ZERO_PIECE: u64 = 1048576;

/// Whether that number can be an alignment: a power of two. It tests what constructors require of
/// theirs.
#[tactic(auto, using(crate::proofs::Powers::alignment_test))]
pub fn is_alignment(align: usize) -> bool
    ensures { IsTrue result ↔ IsAlignment align }
{
    align.is_power_of_two()
}

/// That many zero bytes. Refused, it is [`Error::Memory`].
pub fn zero_buffer(alloc: Global, count: usize) -> Result<Vec<u8>, Error>
    ensures zeroes { IfOk result (λ v. v.items ≡ replicate count 0) }
    ensures memory { IfErr result (λ e. e ≡ Error.Memory) }
{
    Ok(vec![in alloc; 0u8; count]?)
}

/// A storage: bytes at offsets from 0 up to its length, which reads as zeroes past it.
///
/// Offsets and lengths are in bytes. The `pure_` calls take requests that are aligned and end
/// within `u64`; callers use [`StorageExt`](crate::ext::StorageExt), which takes any range. A call
/// that takes memory is handed the allocator.
///
/// A refused call answers [`Error::Device`] where the device failed, [`Error::Memory`] where memory
/// was refused, and [`Error::Unsupported`] only where its documentation says so.
pub trait Storage: Display + Drop + Sized {
    /// The bytes, as many as the storage is long.
    ///
    /// Of a storage that doesn't tell its bytes (`tells_bytes` of its features), such as one on a file
    /// of the operating system, they are zeroes: a stand-in for what no contract knows, of the right
    /// length. What clauses say of them is true of the stand-in, and says nothing of the file.
    ghost bytes: { Self → List ℕ };

    /// What never changes: the name, alignments, whether bytes are kept and told, what is offered,
    /// and which calls take memory.
    ghost features: { Self → Features };

    /// How often the device failed in exclusive calls: a count that saturates.
    ghost fault_count: { Self → ℕ };

    /// The pure reads by exclusive calls and the pure writes so far.
    ghost work: { Self → IoCount };

    /// What a flush, a sync, an invalidation, a wait for writes, a discard, a resize, a counted
    /// read, a pure write and a zero write are: only the call itself gives its relation.
    ghost maintenance: { Maintenance Self };

    /// What is opened and created by which options, and which name a relative one stands for: only
    /// the call itself gives its relation.
    ghost openings: { Openings Self };

    /// Opens a storage. Which options are needed depends on the storage. One that isn't opened by
    /// options is [`Error::Unsupported`].
    fn open(opts: StorageOpenOptions) -> Result<Self, Error>
        ensures { openings.opened (open_options opts) result };

    /// Creates a storage and opens it, always as writable. One that isn't created by options is
    /// [`Error::Unsupported`].
    fn create_open(opts: StorageCreateOptions) -> Result<Self, Error>
        ensures { openings.created (create_options opts) result };

    /// Creates a storage. By default it is created and opened, and let go.
    fn create(opts: StorageCreateOptions) -> Result<(), Error>
        ensures { IsMade openings (create_options opts) result }
    {
        let _ = Self::create_open(opts)?;
        Ok(())
    }

    /// The number that a request's length has to be a multiple of, beside
    /// [`req_align`](Self::req_align).
    fn mem_align(&self) -> usize
        ensures { result ≡ (features self.now).mem_align };

    /// The number that a request's offset and length have to be multiples of.
    fn req_align(&self) -> usize
        ensures { result ≡ (features self.now).req_align };

    /// The number that offset and length of a zero write have to be multiples of, a multiple of
    /// [`req_align`](Self::req_align).
    fn zero_align(&self) -> usize
        ensures { result ≡ (features self.now).zero_align };

    /// The number that offset and length of a discard have to be multiples of, a multiple of
    /// [`req_align`](Self::req_align).
    fn discard_align(&self) -> usize
        ensures { result ≡ (features self.now).discard_align };

    /// The length in bytes.
    fn size(&self) -> Result<u64, Error>
        ensures value { IfOk result (λ n. n ≡ length (bytes self.now)) }
        ensures only { IfErr result IsDeviceOrMemory }
        ensures device { IsErrOf result Error.Device → (features self.now).is_reliable ≡ false }
        ensures memory { IsErrOf result Error.Memory
            → OthersMayRunOut (features self.now) };

    /// The name of a storage that is given relative to this one, as `open` takes it. A storage
    /// whose names aren't relative to one another answers [`Error::Unsupported`]; one that knows
    /// which names there are may answer [`Error::NotFound`], [`Error::InvalidData`] or
    /// [`Error::Denied`] for some of them.
    fn resolve_relative_path(&self, alloc: Global, relative: &str) -> Result<String, Error>
        ensures resolved { IfOk result
            (λ name. openings.resolved self.now relative.now (string_bytes name)) }
        ensures only { IfErr result IsNameRefusal }
        ensures unsupported { IsErrOf result Error.Unsupported
            ↔ ((features self.now).resolves_paths ≡ false) }
        ensures device { IsErrOf result Error.Device → (features self.now).is_reliable ≡ false };

    /// The name that the storage can be opened by, if it has one.
    fn get_filename(&self) -> Option<&str>
        ensures { option_copied result ≡ (features self.now).filename };

    /// Fills the buffer with the bytes from the offset on, with 0 past the end. Where the storage
    /// doesn't tell its bytes, contracts say nothing of those in the buffer. Refused, the buffer is
    /// unspecified.
    fn pure_readv(&self, buf: &mut [u8], offset: u64) -> Result<(), Error>
        requires { IsAlignedRequest (features self.now) offset (length buf.old) }
        ensures bytes { IsTrue (features self.now).tells_bytes
            → OnOk result (IsReadAt (bytes self.now) offset buf.new) }
        ensures only { IfErr result IsDeviceOrMemory }
        ensures device { IsErrOf result Error.Device → (features self.now).is_reliable ≡ false }
        ensures memory { IsErrOf result Error.Memory
            → MayRunOut (features self.now).read_memory (length (bytes self.now))
            (offset + length buf.old) };

    /// Reads as [`pure_readv`](Self::pure_readv) does, through an exclusive borrow, so that a fault
    /// is counted.
    fn pure_readv_mut(&mut self, buf: &mut [u8], offset: u64) -> Result<(), Error>
        requires { IsAlignedRequest (features self.old) offset (length buf.old) }
        ensures bytes { IsTrue (features self.old).tells_bytes
            → OnOk result (IsReadAt (bytes self.old) offset buf.new) }
        ensures unchanged { bytes self.new ≡ bytes self.old }
        ensures features { features self.new ≡ features self.old }
        ensures work { AddsAtMost 1 (length buf.old) 0 0 (work self.old) (work self.new) }
        ensures only { IfErr result IsDeviceOrMemory }
        ensures cause { CountsFaults (features self.old).is_reliable (fault_count self.old)
            (fault_count self.new)
            result }
        ensures memory { IsErrOf result Error.Memory
            → MayRunOut (features self.old).read_memory (length (bytes self.old))
            (offset + length buf.old) }
        ensures performed { maintenance.counted offset buf.new self.old self.new result };

    /// Writes the bytes at the offset. The storage grows to the end of the range, by zeroes where
    /// offsets are skipped. Refused, each byte of the range is old or new, all others are old, and
    /// the length is between.
    fn pure_writev(&mut self, source: &[u8], offset: u64) -> Result<(), Error>
        requires { IsAlignedRequest (features self.old) offset (length source.now) }
        ensures written { WriteOutcome (features self.old).keeps_data (bytes self.old)
            (splice (bytes self.old) offset source.now) (bytes self.new) result }
        ensures torn { OnErr result
            (OldOrNew (bytes self.old) (splice (bytes self.old) offset source.now)
            (bytes self.new)) }
        ensures atomic { IsTrue (features self.old).atomic
            → OnErr result (bytes self.new ≡ bytes self.old) }
        ensures features { features self.new ≡ features self.old }
        ensures work { AddsAtMost 0 0 1 (length source.now) (work self.old) (work self.new) }
        ensures only { IfErr result IsDeviceOrMemory }
        ensures cause { CountsFaults (features self.old).is_reliable (fault_count self.old)
            (fault_count self.new)
            result }
        ensures memory { IsErrOf result Error.Memory
            → MayRunOut (features self.old).write_memory (length (bytes self.old))
            (offset + length source.now) }
        ensures performed { maintenance.written offset source.now self.old self.new result };

    /// Zeroes a range with no buffer. A storage that can't do so for that kind answers
    /// [`Error::Unsupported`], with the bytes and the count of faults as they were, and zeroes are
    /// written as data in its place.
    fn zero_in_place(&mut self, offset: u64, count: u64, kind: ZeroKind) -> Result<(), Error>
        requires { IsAlignedTo (features self.old).zero_align offset count }
        ensures written { WriteOutcome (features self.old).keeps_data (bytes self.old)
            (splice (bytes self.old) offset (replicate count 0)) (bytes self.new) result }
        ensures torn { OnErr result
            (OldOrNew (bytes self.old) (splice (bytes self.old) offset (replicate count 0))
            (bytes self.new)) }
        ensures atomic { IsTrue (features self.old).atomic
            → OnErr result (bytes self.new ≡ bytes self.old) }
        ensures unchanged { IsErrOf result Error.Unsupported
            → ShowsNoChange features bytes fault_count self.old self.new }
        ensures features { features self.new ≡ features self.old }
        ensures only { IfErr result IsPureRefusal }
        ensures unsupported { IsErrOf result Error.Unsupported
            ↔ (zero_support (features self.old) kind ≢ InPlace) }
        ensures cause { CountsFaults (features self.old).is_reliable (fault_count self.old)
            (fault_count self.new)
            result }
        ensures memory { IsErrOf result Error.Memory
            → MayRunOut (features self.old).zero_memory (length (bytes self.old)) (offset + count) }
        ensures performed { maintenance.zeroed_in_place kind offset count self.old self.new
            result };

    /// Zeroes a range by pure writes, in pieces of at most 1 MiB or one alignment, from one buffer.
    /// It is [`Error::Unsupported`], with nothing changed, where the count is no multiple of
    /// `mem_align`.
    fn write_zeroes_as_data(&mut self, alloc: Global, offset: u64, count: u64) -> Result<(), Error>
        requires { IsAlignedTo (features self.old).zero_align offset count }
        ensures written { WriteOutcome (features self.old).keeps_data (bytes self.old)
            (splice (bytes self.old) offset (replicate count 0)) (bytes self.new) result }
        ensures features { features self.new ≡ features self.old }
        ensures only { IfErr result IsPureRefusal }
        ensures unchanged { IsErrOf result Error.Unsupported → self.new ≡ self.old }
        ensures unsupported { IsErrOf result Error.Unsupported
            ↔ (count % (features self.old).mem_align ≢ 0) }
        ensures early { IsErrOf result Error.Memory
            → (¬ MayRunOut (features self.old).write_memory (length (bytes self.old))
            (offset + count))
            → self.new ≡ self.old }
        ensures performed { IsZeroedAsData features bytes maintenance work (features self.old)
            offset count self.old self.new result }
        ensures cause { CountsFaults (features self.old).is_reliable (fault_count self.old)
            (fault_count self.new)
            result }
    {
        let mem_align = (*self).mem_align() as u64;
        let req_align = (*self).req_align() as u64;
        if remainder(count, mem_align) != 0 {
            return Err(Error::Unsupported);
        }
        let piece = req_align.max(mem_align).max(ZERO_PIECE);
        let first = piece.min(count);
        let zeroes = zero_buffer(alloc, first as usize)?;
        self.pure_writev(&zeroes, offset)?;
        let mut done = first;
        while done < count {
            let next = piece.min(count - done);
            self.pure_writev(&zeroes[..next as usize], offset + done)?;
            done += next;
        }
        Ok(())
    }

    /// Zeroes a range: in place, or else as data. Refused, each byte of the range is old or zero,
    /// all others are old, and the length is between.
    ///
    /// [`Error::Unsupported`] leaves bytes and the count of faults. A storage that zeroes in place
    /// never answers it; one that writes zeroes as data answers it exactly where the count is no
    /// multiple of `mem_align`; any other may answer it for any range. The buffer of zeroes is
    /// asked for before anything is written.
    fn pure_write_zeroes(&mut self, alloc: Global, offset: u64, count: u64) -> Result<(), Error>
        requires { IsAlignedTo (features self.old).zero_align offset count }
        ensures { IsPureZeroing features bytes fault_count work maintenance Any
            (features self.old).zeroes offset count self.old self.new result }
    {
        match self.zero_in_place(offset, count, ZeroKind::Any) {
            Err(Error::Unsupported) => self.write_zeroes_as_data(alloc, offset, count),
            answer => answer,
        }
    }

    /// Zeroes a range and allocates it: in place, or else as data. It is refused for what
    /// [`pure_write_zeroes`](Self::pure_write_zeroes) is refused for, [`Error::Unsupported`] by how
    /// the storage does these, and leaves the same.
    fn pure_write_allocated_zeroes(
        &mut self,
        alloc: Global,
        offset: u64,
        count: u64,
    ) -> Result<(), Error>
        requires { IsAlignedTo (features self.old).zero_align offset count }
        ensures { IsPureZeroing features bytes fault_count work maintenance Allocated
            (features self.old).allocated_zeroes offset count self.old self.new result }
    {
        match self.zero_in_place(offset, count, ZeroKind::Allocated) {
            Err(Error::Unsupported) => self.write_zeroes_as_data(alloc, offset, count),
            answer => answer,
        }
    }

    /// Says that a range is no longer needed. Its bytes are unspecified afterwards, also where it
    /// is refused; all others, and the length, stay. [`Error::Unsupported`] is answered only by a
    /// storage that offers no discards; it may as well answer `Ok` and do nothing.
    fn pure_discard(&mut self, offset: u64, count: u64) -> Result<(), Error>
        requires { IsAlignedTo (features self.old).discard_align offset count }
        ensures bytes { SameOutside offset count (bytes self.old) (bytes self.new) }
        ensures features { features self.new ≡ features self.old }
        ensures only { IfErr result IsPureRefusal }
        ensures offered { IsErrOf result Error.Unsupported
            → (features self.old).offers_discard ≡ false }
        ensures cause { CountsFaults (features self.old).is_reliable (fault_count self.old)
            (fault_count self.new)
            result }
        ensures memory { IsErrOf result Error.Memory
            → OthersMayRunOut (features self.old) }
        ensures performed { maintenance.discarded offset count self.old self.new result };

    /// Writes what the storage buffers. No byte changes.
    fn flush(&mut self) -> Result<(), Error>
        ensures { IsMaintained features bytes fault_count maintenance.flushed self.old self.new
            result };

    /// Syncs what is written to the hardware. No byte changes.
    fn sync(&mut self) -> Result<(), Error>
        ensures { IsMaintained features bytes fault_count maintenance.synced self.old self.new
            result };

    /// Waits for all writes, zero writes and discards made before. No byte changes.
    fn settle_writes(&mut self) -> Result<(), Error>
        ensures { IsMaintained features bytes fault_count maintenance.settled self.old self.new
            result };

    /// Drops what the storage caches. No byte changes.
    fn invalidate_cache(&mut self) -> Result<(), Error>
        ensures { IsMaintained features bytes fault_count maintenance.invalidated self.old self.new
            result };

    /// Sets the length in bytes. Bytes that stay are kept; new ones are zero, or for
    /// [`PreallocateMode::None`] unspecified, unless the storage adds zeroes in every mode. A
    /// smaller size ignores the mode. Refused, no byte changed; a storage that can't be resized
    /// answers [`Error::Unsupported`].
    fn resize(&mut self, new_size: u64, mode: PreallocateMode) -> Result<(), Error>
        ensures resized { OnOk result (IsResized (bytes self.old) new_size mode (bytes self.new)) }
        ensures filled { IsTrue (features self.old).grows_by_zeroes
            → OnOk result (IsZeroFrom (length (bytes self.old)) (bytes self.new)) }
        ensures unchanged { OnErr result (bytes self.new ≡ bytes self.old) }
        ensures features { features self.new ≡ features self.old }
        ensures only { IfErr result IsPureRefusal }
        ensures offered { IsErrOf result Error.Unsupported → (features self.old).offers_resize
            ≡ false }
        ensures cause { CountsFaults (features self.old).is_reliable (fault_count self.old)
            (fault_count self.new)
            result }
        ensures memory { IsErrOf result Error.Memory
            → MayRunOut (features self.old).resize_memory (length (bytes self.old)) new_size }
        ensures performed { maintenance.resized new_size mode self.old self.new result };

    /// The alignments are powers of two, and those of zero writes and discards multiples of that of
    /// requests. Data that is kept is told.
    ghost lawful: { (s : Self) → AreLawful (features s) };
}

// SPDX-License-Identifier: MIT
//! A storage whose device fails when it is told to.
ghost use Rattle.std.specs.Prelude.{◌≡◌, ◌+◌, ◌^◌, ◌<◌, ◌≤◌, ◌%◌, ◌∷◌, ℕ, [], List, length, max};
ghost use Rattle.std.specs.Prelude.{slice_index, if◌then◌else◌, Bool, true, false, None, Some};
ghost use Rattle.std.specs.Prelude.{OnOk, OnErr, IfErr, IsErrOf, IsOk, refl};
ghost use Rattle.imago_storage.specs.Bytes.{splice};
ghost use Rattle.imago_storage.specs.Faults.{RoseOrSaturated};
ghost use Rattle.imago_storage.specs.Features.{Features};
ghost use Rattle.imago_storage.specs.IoCount.{no_work};
ghost use Rattle.imago_storage.specs.Maintenance.{IsAnyRead, IsAnyWrite, IsAnyZeroing};
ghost use Rattle.imago_storage.specs.Mem.{mem_lawful};
ghost use Rattle.imago_storage.specs.Openings.{no_openings};
ghost use Rattle.imago_storage.specs.Powers.{IsAlignment};
ghost use Rattle.imago_test_storages.specs.Faulty.{faulty_features, features_inside};
ghost use Rattle.imago_test_storages.specs.Faulty.{features_outside, IsPlain, IsNotZeroed};
ghost use Rattle.imago_test_storages.specs.Faulty.{faulty_lawful, is_new, has_grown, IsTornRequest};
ghost use Rattle.imago_test_storages.specs.Faulty.{no_faults, refused_next, after_call};

use imago_storage::error::Error;
use imago_storage::mem::MemStorage;
use imago_storage::storage::{
    PreallocateMode, Storage, StorageCreateOptions, StorageOpenOptions, ZeroKind,
};
use std::alloc::Global;
use std::fmt;

/// Which bytes of a refused write or zero write are new already. The places of a request are
/// counted from 0.
#[derive(Clone, Copy, Debug, PartialEq, Eq, Drop)]
pub enum Tear {
    /// None, and the length is as it was.
    Nothing,
    /// All of them. The storage has grown as far as by a success, here and below.
    All,
    /// Those at the first places, so many.
    First(u64),
    /// Those at odd places.
    Odd,
}

/// A call that is to be refused: how many go through before it, and what it leaves.
#[derive(Clone, Copy, Debug, PartialEq, Eq, Drop)]
struct Armed {
    pass: u64,
    tear: Tear,
}

/// What is refused from now on, and how often the device has failed in an exclusive call.
#[derive(Clone, Copy, Debug, PartialEq, Eq, Drop)]
struct Plan {
    armed: Option<Armed>,
    resizes: u64,
    reads_fail: bool,
    faults: u64,
}

impl Plan {
    /// Counts a call, and answers what it leaves where it is the one that is refused.
    fn count_call(&mut self) -> Option<Tear>
        ensures refused { result ≡ refused_next self.old.armed }
        ensures counted { self.new ≡ record self.old { armed = after_call self.old.armed } }
    {
        let armed = self.armed?;
        if armed.pass == 0 {
            self.armed = None;
            return Some(armed.tear);
        }
        self.armed = Some(Armed {
            pass: armed.pass - 1,
            tear: armed.tear,
        });
        None
    }

    /// The device fails in an exclusive call.
    fn fail(&mut self) -> Result<(), Error>
        ensures device { IsErrOf result Error.Device }
        ensures counted { RoseOrSaturated self.old.faults self.new.faults }
        ensures later { self.old.faults ≤ self.new.faults }
        ensures same { self.new ≡ record self.old { faults = self.new.faults } }
    {
        self.faults = self.faults.saturating_add(1);
        Err(Error::Device)
    }
}

/// Whether the byte at that place of a refused request is new.
fn takes(tear: Tear, place: u64) -> bool
    ensures { result ≡ is_new tear place }
{
    match tear {
        Tear::Nothing => false,
        Tear::All => true,
        Tear::First(count) => place < count,
        Tear::Odd => place % 2 == 1,
    }
}

/// Whether a refused request grows the storage as success does.
fn grows(tear: Tear) -> bool
    ensures { result ≡ has_grown tear }
{
    match tear {
        Tear::Nothing => false,
        Tear::All | Tear::First(_) | Tear::Odd => true,
    }
}

/// Adds zeroes up to that length, if the bytes are fewer.
fn lengthen(inner: &mut MemStorage, len: u64) -> Result<(), Error>
    requires plain { IsPlain (⟦<MemStorage as Storage>⟧.features inner.old) }
    ensures same { (p : ℕ)
        → slice_index (⟦<MemStorage as Storage>⟧.bytes inner.new) p ≡ slice_index
        (⟦<MemStorage as Storage>⟧.bytes inner.old) p }
    ensures grown { OnOk result
        (length (⟦<MemStorage as Storage>⟧.bytes inner.new) ≡ max
        (length (⟦<MemStorage as Storage>⟧.bytes inner.old)) len) }
    ensures unchanged { OnErr result
        (⟦<MemStorage as Storage>⟧.bytes inner.new ≡ ⟦<MemStorage as Storage>⟧.bytes inner.old) }
    ensures features { ⟦<MemStorage as Storage>⟧.features inner.new
        ≡ ⟦<MemStorage as Storage>⟧.features inner.old }
    ensures memory { IfErr result (λ e. e ≡ Error.Memory) }
    ensures inside { len ≤ length (⟦<MemStorage as Storage>⟧.bytes inner.old) → IsOk result }
{
    if len <= inner.as_bytes().len() as u64 {
        return Ok(());
    }
    match inner.resize(len, PreallocateMode::Zero) {
        Ok(()) => Ok(()),
        Err(_) => Err(Error::Memory),
    }
}

/// Puts a byte where there is one.
fn put(inner: &mut MemStorage, at: u64, byte: u8)
    requires plain { IsPlain (⟦<MemStorage as Storage>⟧.features inner.old) }
    requires inside { at < length (⟦<MemStorage as Storage>⟧.bytes inner.old) }
    requires ends { at + 1 < 2 ^ 64 }
    ensures bytes { ⟦<MemStorage as Storage>⟧.bytes inner.new
        ≡ splice (⟦<MemStorage as Storage>⟧.bytes inner.old) at
        (byte ∷ []) }
    ensures features { ⟦<MemStorage as Storage>⟧.features inner.new
        ≡ ⟦<MemStorage as Storage>⟧.features inner.old }
{
    let _ = inner.pure_writev(&[byte], at);
}

/// Puts the byte of one place of a refused request, if it is a new one.
fn put_if_new(inner: &mut MemStorage, tear: Tear, offset: u64, place: u64, byte: u8)
    requires plain { IsPlain (⟦<MemStorage as Storage>⟧.features inner.old) }
    requires inside { offset + place < length (⟦<MemStorage as Storage>⟧.bytes inner.old) }
    requires ends { offset + place + 1 < 2 ^ 64 }
    ensures new { is_new tear place ≡ true
        → ⟦<MemStorage as Storage>⟧.bytes inner.new ≡ splice (⟦<MemStorage as Storage>⟧.bytes
        inner.old) (offset + place) (byte ∷ []) }
    ensures stays { is_new tear place ≡ false
        → ⟦<MemStorage as Storage>⟧.bytes inner.new ≡ ⟦<MemStorage as Storage>⟧.bytes inner.old }
    ensures features { ⟦<MemStorage as Storage>⟧.features inner.new
        ≡ ⟦<MemStorage as Storage>⟧.features inner.old }
{
    if takes(tear, place) {
        put(inner, offset + place, byte);
    }
}

/// Leaves of a write what a refused one does.
fn tear_write(inner: &mut MemStorage, source: &[u8], offset: u64, tear: Tear) -> Result<(), Error>
    requires plain { IsPlain (⟦<MemStorage as Storage>⟧.features inner.old) }
    requires ends { offset + length source.now < 2 ^ 64 }
    ensures torn { OnOk result
        (IsTornRequest tear (⟦<MemStorage as Storage>⟧.bytes inner.old) offset (length source.now)
        (λ k. slice_index source.now k) (⟦<MemStorage as Storage>⟧.bytes inner.new)) }
    ensures unchanged { OnErr result
        (⟦<MemStorage as Storage>⟧.bytes inner.new ≡ ⟦<MemStorage as Storage>⟧.bytes inner.old) }
    ensures features { ⟦<MemStorage as Storage>⟧.features inner.new
        ≡ ⟦<MemStorage as Storage>⟧.features inner.old }
    ensures memory { IfErr result (λ e. e ≡ Error.Memory) }
    ensures inside { offset + length source.now ≤ length (⟦<MemStorage as Storage>⟧.bytes inner.old)
        → IsOk result }
{
    if !grows(tear) {
        return Ok(());
    }
    lengthen(inner, offset + source.len() as u64)?;
    for place in 0..source.len() {
        put_if_new(inner, tear, offset, place as u64, source[place]);
    }
    Ok(())
}

/// Leaves of a zero write what a refused one does.
fn tear_zeroes(inner: &mut MemStorage, offset: u64, count: u64, tear: Tear) -> Result<(), Error>
    requires plain { IsPlain (⟦<MemStorage as Storage>⟧.features inner.old) }
    requires ends { offset + count < 2 ^ 64 }
    ensures torn { OnOk result
        (IsTornRequest tear (⟦<MemStorage as Storage>⟧.bytes inner.old) offset count (λ k. 0)
        (⟦<MemStorage as Storage>⟧.bytes inner.new)) }
    ensures unchanged { OnErr result
        (⟦<MemStorage as Storage>⟧.bytes inner.new ≡ ⟦<MemStorage as Storage>⟧.bytes inner.old) }
    ensures features { ⟦<MemStorage as Storage>⟧.features inner.new
        ≡ ⟦<MemStorage as Storage>⟧.features inner.old }
    ensures memory { IfErr result (λ e. e ≡ Error.Memory) }
    ensures inside { offset + count ≤ length (⟦<MemStorage as Storage>⟧.bytes inner.old)
        → IsOk result }
{
    if !grows(tear) {
        return Ok(());
    }
    lengthen(inner, offset + count)?;
    for place in 0..count {
        put_if_new(inner, tear, offset, place, 0);
    }
    Ok(())
}

/// Bytes in memory behind a device that fails when it is told to. It keeps what is written, isn't
/// reliable, and a refused write may leave a part of its bytes. What it counts as a call is an
/// exclusive pure read, a pure write, a pure zero write and a pure discard.
#[derive(Drop)]
pub struct Faulty {
    inner: MemStorage,
    mem_align: usize,
    req_align: usize,
    zero_align: usize,
    zero_writes: bool,
    plan: Plan,
    ghost mem_power: { IsAlignment mem_align },
    ghost req_power: { IsAlignment req_align },
    ghost zero_power: { IsAlignment zero_align },
    ghost zero_whole: { zero_align % req_align ≡ 0 },
    ghost plain: { IsPlain (⟦<MemStorage as Storage>⟧.features inner) },
}

impl Faulty {
    ghost use Rattle.imago_test_storages.specs.FaultyPlan.{plan_of, not_zeroing, refusing_resizes};
    ghost use Rattle.imago_test_storages.specs.FaultyPlan.{armed_at, failing_reads};

    /// That storage, with a device that doesn't fail yet.
    pub fn new(inner: MemStorage) -> Self
        ensures bytes { ⟦<Faulty as Storage>⟧.bytes result ≡ ⟦<MemStorage as Storage>⟧.bytes inner }
        ensures features { ⟦<Faulty as Storage>⟧.features result ≡ faulty_features true
            (⟦<MemStorage as Storage>⟧.features inner) }
        ensures plan { plan_of result ≡ no_faults }
    {
        let mem_align = inner.mem_align();
        let req_align = inner.req_align();
        let zero_align = inner.zero_align();
        Faulty {
            inner: inner.with_aligns(1, 1),
            mem_align,
            req_align,
            zero_align,
            zero_writes: true,
            plan: Plan {
                armed: None,
                resizes: 0,
                reads_fail: false,
                faults: 0,
            },
        }
    }

    /// Both pure zero writes are [`Error::Unsupported`] from now on, and aren't counted as calls.
    pub fn without_zero_writes(mut self) -> Self
        ensures storage { result ≡ not_zeroing self }
        ensures features { ⟦<Faulty as Storage>⟧.features result ≡ faulty_features false
            (⟦<Faulty as Storage>⟧.features self) }
    {
        self.zero_writes = false;
        self
    }

    /// The next resizes, so many, are [`Error::Device`].
    pub fn refuse_resizes(&mut self, count: u64)
        ensures { self.new ≡ refusing_resizes self.old count }
    {
        self.plan.resizes = count;
    }

    /// The next `pass` calls go through, and the one after is [`Error::Device`] and leaves what the
    /// tear says. A growth that it lacks the memory for is [`Error::Memory`] in its place, with
    /// nothing changed.
    pub fn arm(&mut self, pass: u64, tear: Tear)
        ensures { self.new ≡ armed_at self.old pass tear }
    {
        self.plan.armed = Some(Armed { pass, tear });
    }

    /// Each shared read is [`Error::Device`], or none.
    pub fn fail_reads(&mut self, fails: bool)
        ensures { self.new ≡ failing_reads self.old fails }
    {
        self.plan.reads_fail = fails;
    }

    /// How often the device failed in an exclusive call. The number saturates.
    pub fn faults(&self) -> u64
        ensures { result ≡ ⟦<Faulty as Storage>⟧.fault_count self.now }
    {
        self.plan.faults
    }

    /// The bytes.
    pub fn as_bytes(&self) -> &[u8]
        ensures { result.now ≡ ⟦<Faulty as Storage>⟧.bytes self.now }
    {
        self.inner.as_bytes()
    }

    /// The storage inside.
    pub fn into_inner(self) -> MemStorage
        ensures bytes { ⟦<MemStorage as Storage>⟧.bytes result ≡ ⟦<Faulty as Storage>⟧.bytes self }
        ensures features { ⟦<MemStorage as Storage>⟧.features result ≡ features_inside
            (⟦<Faulty as Storage>⟧.features self) }
    {
        let Faulty {
            inner,
            mem_align,
            req_align,
            zero_align,
            zero_writes: _,
            plan: _,
        } = self;
        inner
            .with_aligns(mem_align, req_align)
            .with_zero_align(zero_align)
    }
}

impl fmt::Display for Faulty {
    fn fmt<W: fmt::Write>(&self, f: &mut fmt::Formatter<W>) -> fmt::Result {
        write!(f, "faulty[{}]", self.inner)
    }
}

impl Storage for Faulty {
    ghost bytes = { λ s. ⟦<MemStorage as Storage>⟧.bytes s.inner };

    ghost features = { λ s. faulty_features s.zero_writes
        (features_outside (⟦<MemStorage as Storage>⟧.features s.inner) s.mem_align s.req_align
        s.zero_align) };

    ghost fault_count = { λ s. s.plan.faults };

    ghost work = { λ _. no_work };

    ghost maintenance = { record {
      flushed = λ a b r. ⟦<MemStorage as Storage>⟧.maintenance.flushed a.inner b.inner r;
      synced = λ a b r. ⟦<MemStorage as Storage>⟧.maintenance.synced a.inner b.inner r;
      invalidated = λ a b r. ⟦<MemStorage as Storage>⟧.maintenance.invalidated a.inner b.inner r;
      settled = λ a b r. ⟦<MemStorage as Storage>⟧.maintenance.settled a.inner b.inner r;
      discarded = λ _ _ a b _. b.inner ≡ a.inner;
      resized = λ n mode a b r. ⟦<MemStorage as Storage>⟧.maintenance.resized n mode a.inner b.inner
          r;
      counted = IsAnyRead;
      written = IsAnyWrite;
      zeroed_in_place = IsAnyZeroing;
      zeroed = IsNotZeroed;
    } };

    ghost openings = { no_openings };

    ghost lawful = { λ s. faulty_lawful s.zero_writes
        (features_outside (⟦<MemStorage as Storage>⟧.features s.inner) s.mem_align s.req_align
        s.zero_align) (mem_lawful (⟦<MemStorage as Storage>⟧.features s.inner).filename s.mem_align
        s.req_align s.zero_align s.mem_power s.req_power s.zero_power s.zero_whole) };

    fn open(_opts: StorageOpenOptions) -> Result<Self, Error> {
        Err(Error::Unsupported)
    }

    fn create_open(_opts: StorageCreateOptions) -> Result<Self, Error> {
        Err(Error::Unsupported)
    }

    fn mem_align(&self) -> usize {
        self.mem_align
    }

    fn req_align(&self) -> usize {
        self.req_align
    }

    fn zero_align(&self) -> usize {
        self.zero_align
    }

    fn discard_align(&self) -> usize {
        self.req_align
    }

    fn size(&self) -> Result<u64, Error> {
        Ok(self.inner.as_bytes().len() as u64)
    }

    fn resolve_relative_path(&self, alloc: Global, relative: &str) -> Result<String, Error> {
        self.inner.resolve_relative_path(alloc, relative)
    }

    fn get_filename(&self) -> Option<&str> {
        self.inner.get_filename()
    }

    fn pure_readv(&self, buf: &mut [u8], offset: u64) -> Result<(), Error> {
        if self.plan.reads_fail {
            return Err(Error::Device);
        }
        self.inner.pure_readv(buf, offset)
    }

    fn pure_readv_mut(&mut self, buf: &mut [u8], offset: u64) -> Result<(), Error> {
        match self.plan.count_call() {
            None => self.inner.pure_readv_mut(buf, offset),
            Some(_) => self.plan.fail(),
        }
    }

    fn pure_writev(&mut self, source: &[u8], offset: u64) -> Result<(), Error> {
        match self.plan.count_call() {
            None => self.inner.pure_writev(source, offset),
            Some(tear) => {
                tear_write(&mut self.inner, source, offset, tear)?;
                self.plan.fail()
            }
        }
    }

    fn zero_in_place(&mut self, offset: u64, count: u64, kind: ZeroKind) -> Result<(), Error> {
        if !self.zero_writes {
            return Err(Error::Unsupported);
        }
        match self.plan.count_call() {
            None => self.inner.zero_in_place(offset, count, kind),
            Some(tear) => {
                tear_zeroes(&mut self.inner, offset, count, tear)?;
                self.plan.fail()
            }
        }
    }

    fn pure_write_zeroes(&mut self, _alloc: Global, offset: u64, count: u64) -> Result<(), Error> {
        self.zero_in_place(offset, count, ZeroKind::Any)
    }

    fn pure_write_allocated_zeroes(
        &mut self,
        _alloc: Global,
        offset: u64,
        count: u64,
    ) -> Result<(), Error> {
        self.zero_in_place(offset, count, ZeroKind::Allocated)
    }

    fn pure_discard(&mut self, offset: u64, count: u64) -> Result<(), Error> {
        match self.plan.count_call() {
            None => self.inner.pure_discard(offset, count),
            Some(_) => self.plan.fail(),
        }
    }

    fn flush(&mut self) -> Result<(), Error> {
        self.inner.flush()
    }

    fn sync(&mut self) -> Result<(), Error> {
        self.inner.sync()
    }

    fn settle_writes(&mut self) -> Result<(), Error> {
        self.inner.settle_writes()
    }

    fn invalidate_cache(&mut self) -> Result<(), Error> {
        self.inner.invalidate_cache()
    }

    fn resize(&mut self, new_size: u64, mode: PreallocateMode) -> Result<(), Error> {
        if self.plan.resizes > 0 {
            self.plan.resizes -= 1;
            return self.plan.fail();
        }
        self.inner.resize(new_size, mode)
    }
}

// SPDX-License-Identifier: MIT
//! A read-only disk that stands behind a header in a storage.
//!
//! Of the calls of a driver only `get_mapping` and `read_mapped` do something here. All others tell
//! a number, or refuse: this is what most of a read-only driver looks like.
ghost use Rattle.std.specs.Prelude.{◌≡◌, ◌+◌, ◌^◌, ◌<◌, false, IsErrOf};
ghost use Rattle.imago.specs.Maintenance.{IsNothing};
ghost use Rattle.imago.specs.Commit.{IsCommit, IsCancel};
ghost use Rattle.imago.specs.CallRelations.{any_calls, IsNotOffered};
ghost use Rattle.imago.specs.Reasons.{none};
ghost use Rattle.imago.specs.DeclaredError.{Error};
ghost use Rattle.imago_examples.specs.BehindHeader.{behind_header_view};
ghost use Rattle.imago_examples.specs.BehindHeaderLaws.{behind_header_lawful, behind_header_causes};

use imago::drivers::{
    Format, FormatDriverInstance, PreallocateMode, PreparedDataMapping, ShallowMapping,
};
use imago::error::Error;
use imago::ext::StorageExt;
use imago::layer::LowerLayer;
use imago::storage::Storage;
use std::alloc::Global;
use std::fmt::{self, Display, Formatter, Write};

/// A disk whose bytes are those of a storage from an offset on. It can't be written to.
#[derive(Drop)]
pub struct BehindHeader<S: Storage> {
    storage: S,
    skip: u64,
    size: u64,
    ghost ends: { skip + size < 2 ^ 64 },
}

impl<S: Storage> BehindHeader<S> {
    /// The disk behind so many bytes of the storage; of no bytes where the storage has no more. It
    /// is refused as the storage's length is.
    pub fn open_image(storage: S, skip: u64) -> Result<Self, Error> {
        let size = storage.size()?;
        Ok(BehindHeader {
            storage,
            skip: skip.min(size),
            size: size.saturating_sub(skip),
        })
    }
}

impl<S: Storage> Display for BehindHeader<S> {
    fn fmt<W: Write>(&self, f: &mut Formatter<W>) -> fmt::Result {
        write!(f, "behind[{}]", self.storage)
    }
}

impl<S: Storage> FormatDriverInstance for BehindHeader<S> {
    type Storage = S;

    type State = ();

    ghost view = { λ d. behind_header_view (S.features d.storage) (S.fault_count d.storage)
        (S.bytes d.storage) d.skip d.size };

    ghost recognizes = { λ _. false };

    ghost probe_reasons = { λ _. none };

    ghost calls = { record any_calls {
      zeroed = λ o n. IsNotOffered;
      discarded_to_zero = λ o n. IsNotOffered;
      discarded_to_any = λ o n. IsNotOffered;
      discarded_to_backing = λ o n. IsNotOffered;
      cut = λ n. IsNotOffered;
      flushed = IsNothing;
      synced = IsNothing;
      invalidated = IsNothing;
    } };

    ghost lawful = { λ d. behind_header_lawful (S.features d.storage) (S.fault_count d.storage)
        (S.bytes d.storage) d.skip d.size (S.lawful d.storage) };

    ghost causes_lawful = { λ d. behind_header_causes (S.features d.storage)
        (S.fault_count d.storage) (S.bytes d.storage) d.skip d.size };

    fn format(&self) -> Format {
        Format::Raw
    }

    fn size(&self) -> u64 {
        self.size
    }

    fn zero_granularity(&self) -> Option<u64> {
        None
    }

    fn writable(&self) -> bool {
        false
    }

    fn takes_backing(&self) -> bool {
        false
    }

    fn has_prepared(&self) -> bool {
        false
    }

    fn probe(_alloc: Global, _storage: &S) -> Result<bool, Error> {
        Ok(false)
    }

    fn collect_storage_dependencies(&self, alloc: Global) -> Result<Vec<&S>, Error> {
        let mut storages = Vec::new(alloc);
        storages.push(&self.storage)?;
        Ok(storages)
    }

    fn storage_count(&self) -> usize {
        1
    }

    fn storage(&self, index: usize) -> Option<&S> {
        if index == 0 {
            Some(&self.storage)
        } else {
            None
        }
    }

    fn get_mapping(&self, offset: u64, _max_length: u64) -> Result<(ShallowMapping, u64), Error> {
        if offset >= self.size {
            return Ok((ShallowMapping::Eof, 0));
        }
        let mapping = ShallowMapping::Raw {
            storage: 0,
            offset: self.skip + offset,
            writable: false,
        };
        Ok((mapping, self.size - offset))
    }

    fn read_mapped(
        &self,
        alloc: Global,
        _storage: usize,
        buf: &mut [u8],
        offset: u64,
    ) -> Result<(), Error> {
        self.storage.read(alloc, buf, offset)
    }

    fn readv_special(&self, _alloc: Global, buf: &mut [u8], _offset: u64) -> Result<(), Error> {
        if buf.is_empty() {
            return Ok(());
        }
        Err(Error::Unsupported)
    }

    fn write_mapped(
        &mut self,
        _alloc: Global,
        _storage: usize,
        _source: &[u8],
        _offset: u64,
    ) -> Result<(), Error>
        ensures refused { IsErrOf result Error.Unsupported }
        ensures unchanged { self.new ≡ self.old }
    {
        Err(Error::Unsupported)
    }

    fn ensure_zero_mapping(
        &mut self,
        _alloc: Global,
        _offset: u64,
        _count: u64,
    ) -> Result<(u64, u64), Error>
        ensures refused { IsErrOf result Error.Unsupported }
        ensures unchanged { self.new ≡ self.old }
    {
        Err(Error::Unsupported)
    }

    fn discard_to_zero(
        &mut self,
        _alloc: Global,
        _offset: u64,
        _count: u64,
    ) -> Result<(u64, u64), Error>
        ensures refused { IsErrOf result Error.Unsupported }
        ensures unchanged { self.new ≡ self.old }
    {
        Err(Error::Unsupported)
    }

    fn discard_to_any(
        &mut self,
        _alloc: Global,
        _offset: u64,
        _count: u64,
    ) -> Result<(u64, u64), Error>
        ensures refused { IsErrOf result Error.Unsupported }
        ensures unchanged { self.new ≡ self.old }
    {
        Err(Error::Unsupported)
    }

    fn discard_to_backing(
        &mut self,
        _alloc: Global,
        _offset: u64,
        _count: u64,
    ) -> Result<(u64, u64), Error>
        ensures refused { IsErrOf result Error.Unsupported }
        ensures unchanged { self.new ≡ self.old }
    {
        Err(Error::Unsupported)
    }

    fn prepare_data_mapping<B: LowerLayer>(
        &mut self,
        _alloc: Global,
        _below: Option<&B>,
        _offset: u64,
        _count: u64,
        _overwrite: bool,
    ) -> Result<PreparedDataMapping<()>, Error>
        ensures refused { IsErrOf result Error.Unsupported }
        ensures unchanged { self.new ≡ self.old }
    {
        Err(Error::Unsupported)
    }

    fn write_prepared(
        &mut self,
        _alloc: Global,
        _mapping: &PreparedDataMapping<()>,
        _source: &[u8],
        _at: u64,
    ) -> Result<(), Error> {
        Err(Error::ForeignMapping)
    }

    fn commit_data_mapping(&mut self, mapping: PreparedDataMapping<()>) -> Result<(), Error>
        ensures call { IsCommit ⟦<BehindHeader<S> as FormatDriverInstance>⟧.view self.old self.new
            mapping result }
    {
        match mapping.into_state() {
            None => Ok(()),
            Some(()) => Err(Error::ForeignMapping),
        }
    }

    fn cancel_data_mapping(&mut self, mapping: PreparedDataMapping<()>)
        ensures call { IsCancel ⟦<BehindHeader<S> as FormatDriverInstance>⟧.view self.old self.new
            mapping }
    {
        let _ = mapping.into_state();
    }

    fn ensure_data_mapping<B: LowerLayer>(
        &mut self,
        _alloc: Global,
        _below: Option<&B>,
        _offset: u64,
        _count: u64,
        _overwrite: bool,
    ) -> Result<(usize, u64, u64), Error>
        ensures refused { IsErrOf result Error.Unsupported }
        ensures unchanged { self.new ≡ self.old }
    {
        Err(Error::Unsupported)
    }

    fn resize_grow<B: LowerLayer>(
        &mut self,
        _alloc: Global,
        _below: Option<&B>,
        _new_size: u64,
        _mode: PreallocateMode,
    ) -> Result<(), Error>
        ensures refused { IsErrOf result Error.Unsupported }
        ensures unchanged { self.new ≡ self.old }
    {
        Err(Error::Unsupported)
    }

    fn resize_shrink(&mut self, _new_size: u64) -> Result<(), Error>
        ensures refused { IsErrOf result Error.Unsupported }
        ensures unchanged { self.new ≡ self.old }
    {
        Err(Error::Unsupported)
    }

    fn flush(&mut self) -> Result<(), Error> {
        Ok(())
    }

    fn sync(&mut self) -> Result<(), Error> {
        Ok(())
    }

    fn invalidate_cache(&mut self) -> Result<(), Error> {
        Ok(())
    }
}

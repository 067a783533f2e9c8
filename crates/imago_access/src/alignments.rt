// SPDX-License-Identifier: MIT
//! The alignments that the storages of an image ask of requests.
ghost use Rattle.std.specs.Prelude.{◌≡◌, ◌<◌};
ghost use Rattle.imago_access.specs.Alignments.{IsGreatest, HasStorage, align_of, has_align};

use crate::access::FormatAccess;
use imago_drivers::drivers::FormatDriverInstance;
use imago_storage::storage::Storage;

/// Which of a storage's alignments is asked for.
#[derive(Clone, Copy)]
pub(crate) enum Alignment {
    Request,
    Memory,
}

/// That alignment of the driver's storage of that index.
fn storage_align<D: FormatDriverInstance>(driver: &D, index: usize, which: Alignment) -> usize
    requires { index < (D.view driver.now).stores.count }
    ensures { result ≡ align_of which ((D.view driver.now).stores.features index) }
{
    let storage = driver.storage(index).unwrap();
    match which {
        Alignment::Request => Storage::req_align(storage),
        Alignment::Memory => Storage::mem_align(storage),
    }
}

/// The greatest of that alignment over the driver's storages, and 1 where it has none.
fn driver_align<D: FormatDriverInstance>(driver: &D, which: Alignment) -> usize
    ensures { IsGreatest
        (HasStorage (align_of which) (D.view driver.now).stores.features
        (D.view driver.now).stores.count)
        result }
{
    let mut greatest: usize = 1;
    for index in 0..driver.storage_count() {
        greatest = greatest.max(storage_align(driver, index, which));
    }
    greatest
}

impl<D: FormatDriverInstance> FormatAccess<D> {
    /// The greatest of that alignment over all storages of all layers, and 1 where there is none.
    fn greatest_align(&self, which: Alignment) -> usize
        ensures { IsGreatest (has_align D.view (align_of which) self.now) result }
    {
        let mut layer = self;
        let mut greatest: usize = 1;
        loop {
            greatest = greatest.max(driver_align(&layer.inner, which));
            match &layer.backing {
                None => return greatest,
                Some(below) => layer = below,
            }
        }
    }

    /// The greatest request alignment over all storages of all layers, in bytes, and 1 where there
    /// is none. It takes no memory.
    ///
    /// A request that comes to a storage with offset and length that are multiples of it, and a
    /// length that is one of [`mem_align`](Self::mem_align) too, is aligned there, whichever
    /// storage it is. Any other may be padded.
    pub fn req_align(&self) -> usize
        ensures { IsGreatest (has_align D.view (λ f. f.req_align) self.now) result }
    {
        self.greatest_align(Alignment::Request)
    }

    /// The greatest memory alignment over all storages of all layers, in bytes, and 1 where there
    /// is none. It takes no memory.
    ///
    /// The length of a request that is aligned at every storage is a multiple of it and of
    /// [`req_align`](Self::req_align).
    pub fn mem_align(&self) -> usize
        ensures { IsGreatest (has_align D.view (λ f. f.mem_align) self.now) result }
    {
        self.greatest_align(Alignment::Memory)
    }
}

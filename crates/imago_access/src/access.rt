// SPDX-License-Identifier: MIT
//! An image: a driver, and what is below it.
ghost use Rattle.std.specs.Prelude.{◌≡◌, None, Some};
ghost use Rattle.std.specs.Option.{option_copied};
ghost use Rattle.std.specs.Borrow.{sem};
ghost use Rattle.imago_access.specs.Chain.{driver, backing, unboxed};
ghost use Rattle.imago_access.specs.Lending.{LendsDriver};

use imago_drivers::drivers::FormatDriverInstance;
use std::fmt::{self, Display, Formatter, Write};

/// An image: a driver, and the image below it, if there is one. Offsets, lengths and sizes are in
/// bytes.
///
/// Letting it go flushes nothing: what is to last is flushed or synced before. Calls that change
/// the disk, but for those that write, commit or cancel a prepared mapping, require that none
/// waits.
///
/// A call that changes a range moves bytes only in those blocks of its driver that the range
/// touches, and, where it makes zeroes, in those granules. All others keep where they stand, also
/// where it is refused.
pub struct FormatAccess<D> {
    /// It lies beside what a driver begins with: a walk down a long chain waits for memory, and
    /// reads as few lines of the processor's cache in each layer as it can.
    pub(crate) backing: Option<Box<FormatAccess<D>>>,
    pub(crate) inner: D,
}

/// A chain of any length is let go of in a loop, which needs no stack.
impl<D: Drop> Drop for FormatAccess<D> {
    fn drop(mut self) {
        loop {
            let FormatAccess { inner: _, backing } = self;
            match backing {
                None => return,
                Some(below) => self = Box::into_inner(below),
            }
        }
    }
}

/// The driver's text, as `cow[mem:top]`. It says nothing of the layers below, which
/// [`backing`](FormatAccess::backing) gives and [`chain_text`](FormatAccess::chain_text) prints.
impl<D: FormatDriverInstance> Display for FormatAccess<D> {
    fn fmt<W: Write>(&self, f: &mut Formatter<W>) -> fmt::Result {
        write!(f, "{}", self.inner)
    }
}

/// The image below, as it is lent to a driver.
pub(crate) fn below<D: FormatDriverInstance>(
    boxed: &Option<Box<FormatAccess<D>>>,
) -> Option<&FormatAccess<D>>
    ensures { option_copied result ≡ unboxed boxed.now }
{
    boxed.as_deref()
}

impl<D: FormatDriverInstance> FormatAccess<D> {
    /// An image with nothing below it.
    pub fn new(inner: D) -> Self
        ensures driver { driver result ≡ inner }
        ensures backing { backing result ≡ None }
    {
        FormatAccess {
            inner,
            backing: None,
        }
    }

    /// An image above another one. Only a driver that takes a backing refers to it.
    pub fn with_backing(inner: D, below: Box<FormatAccess<D>>) -> Self
        ensures driver { driver result ≡ inner }
        ensures backing { backing result ≡ Some below.value }
    {
        FormatAccess {
            inner,
            backing: Some(below),
        }
    }

    /// The driver.
    pub fn inner(&self) -> &D
        ensures { result.now ≡ driver self.now }
    {
        &self.inner
    }

    /// The driver, to be changed. What is left behind the reference is the image's driver from then
    /// on.
    pub fn inner_mut(&mut self) -> &mut D
        ensures* writes_back { sem 𝓛 (LendsDriver D.row self.entry result) }
        ensures value { result.now ≡ driver self.old }
    {
        &mut self.inner
    }

    /// The image below, if there is one.
    pub fn backing(&self) -> Option<&FormatAccess<D>>
        ensures { option_copied result ≡ backing self.now }
    {
        self.backing.as_deref()
    }

    /// The disk's size.
    pub fn size(&self) -> u64
        ensures { result ≡ (D.view (driver self.now)).size }
    {
        self.inner.size()
    }
}

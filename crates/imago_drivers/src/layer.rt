// SPDX-License-Identifier: MIT
//! The layer below a driver.
ghost use Rattle.std.specs.Prelude.{◌≡◌, ℕ, length, OnOk, IfErr, Ok, IsTrue};
ghost use Rattle.imago_drivers.specs.Place.{HasValues};
ghost use Rattle.imago_drivers.specs.CallRelations.{Asking};
ghost use Rattle.imago_drivers.specs.LayerBelow.{LayerBelow, IsLayerBelow, no_layer};
ghost use Rattle.imago_drivers.specs.LayerBelow.{no_layer_lawful, below_reasons};
ghost use Rattle.imago_drivers.specs.Reasons.{allowed};

use imago_storage::error::Error;
use std::alloc::Global;

/// A layer that a driver can stand on: a disk that can be read.
pub trait LowerLayer {
    /// What a driver sees of the layer.
    ghost as_layer_below: { Self → LayerBelow };

    /// What a read is, by its offset and length. Over a layer that isn't known nothing but the read
    /// itself gives its relation.
    ghost reads: { ℕ → ℕ → Asking Self (Unit {0}) };

    /// The size in bytes.
    fn size(&self) -> u64
        ensures { result ≡ (as_layer_below self.now).size };

    /// Fills the buffer with the layer's bytes from the offset on, with 0 past its end; with any
    /// bytes where the layer doesn't tell them. Refused, the buffer is unspecified.
    fn read(&self, alloc: Global, buf: &mut [u8], offset: u64) -> Result<(), Error>
        ensures bytes { IsTrue (as_layer_below self.now).tells_bytes
            → OnOk result (HasValues (as_layer_below self.now).at offset buf.new) }
        ensures refusals { IfErr result
            (allowed (below_reasons (as_layer_below self.now) offset (length buf.old))) }
        ensures answered { reads offset (length buf.old) self.now result };

    /// What holds of each layer: it is zero past its size, and a cause for a part of a range is one
    /// for the whole.
    ghost lawful: { (b : Self) → IsLayerBelow (as_layer_below b) };
}

/// A layer of size 0, which reads as zeroes.
impl LowerLayer for () {
    ghost as_layer_below = { λ _. no_layer };

    ghost reads = { λ o n self result. result ≡ Ok tt };

    ghost lawful = { λ _. no_layer_lawful };

    fn size(&self) -> u64 {
        0
    }

    fn read(&self, _alloc: Global, buf: &mut [u8], _offset: u64) -> Result<(), Error> {
        buf.fill(0);
        Ok(())
    }
}

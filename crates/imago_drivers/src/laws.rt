// SPDX-License-Identifier: MIT
//! What the definitions give for raw images, and for examples that are worked by hand. The
//! functions do nothing; their contracts are proved.
ghost use Rattle.std.specs.Prelude.{◌≡◌, ℕ, ◌^◌, ◌<◌, ◌≤◌, List, length, true, false};
ghost use Rattle.imago_storage.specs.declared.error.Error.{Error};
ghost use Rattle.imago_drivers.specs.Operation.{Operation};
ghost use Rattle.imago_drivers.specs.RawImage.{storage_in};
ghost use Rattle.imago_drivers.specs.Room.{HasRoom, IsPadded};
ghost use Rattle.imago_drivers.specs.Place.{Value, Byte, Stored, End, values, HasStranger};
ghost use Rattle.imago_drivers.specs.Raw.{raw_place};
ghost use Rattle.imago_drivers.specs.Ranges.{IsPartAlignedTo};
ghost use Rattle.imago_drivers.specs.Worked.{four_bytes, seventeens, leading_below};

use crate::drivers::FormatDriverInstance;
use crate::raw::Raw;
use imago_storage::storage::Storage;

/// A raw image has one cause of a refusal: that its storage doesn't offer the operation. A range
/// that ends less than one alignment before the greatest offset may wrap around besides, once it is
/// padded.
pub fn raw_images_refuse_nothing<S: Storage>(image: &Raw<S>)
    ensures { (op : Operation) (o n : ℕ) (e : Error)
        → (IsPadded op → HasRoom (S.features (storage_in image.now)) o n)
        → (⟦<Raw<S> as FormatDriverInstance>⟧.view image.now).limits.cause op o n e
        → (e ≡ Error.Unsupported)
        × ((⟦<Raw<S> as FormatDriverInstance>⟧.view image.now).abilities.offers op ≡ false) }
{
    let _ = image;
}

/// The whole disk of a raw image stands in its storage, so a write inside the disk doesn't grow it.
/// No disk is longer than `u64::MAX` bytes.
pub fn raw_image_stands_in_its_storage<S: Storage>(image: &Raw<S>)
    ensures stored { (⟦<Raw<S> as FormatDriverInstance>⟧.view image.now).size
        ≤ length (S.bytes (storage_in image.now)) }
    ensures fits { (⟦<Raw<S> as FormatDriverInstance>⟧.view image.now).size < 2 ^ 64 }
{
    let _ = image;
}

/// A raw image of the bytes 1, 2, 3, 4 has the byte 3 at 2, in its storage at the same offset,
/// where it may be written. It ends at 4, and shows zeroes from there on.
pub fn raw_image_of_four_bytes()
    ensures third { raw_place 4 four_bytes 2 ≡ Stored 3 0 2 true }
    ensures fourth { raw_place 4 four_bytes 3 ≡ Stored 4 0 3 true }
    ensures end { raw_place 4 four_bytes 4 ≡ End }
    ensures third_value { (below : ℕ → Value) → values below (raw_place 4 four_bytes) 2 ≡ Byte 3 }
    ensures end_value { (below : ℕ → Value) → values below (raw_place 4 four_bytes) 4 ≡ Byte 0 }
{}

/// A disk of 1024 bytes that leads below at the same offset, over 512 bytes of 17, shows 17 up to
/// 511, and zeroes from there on.
pub fn disk_over_a_shorter_layer()
    ensures first { values seventeens leading_below 0 ≡ Byte 17 }
    ensures last_below { values seventeens leading_below 511 ≡ Byte 17 }
    ensures behind_the_layer { values seventeens leading_below 512 ≡ Byte 0 }
    ensures last { values seventeens leading_below 1023 ≡ Byte 0 }
    ensures end { values seventeens leading_below 1024 ≡ Byte 0 }
{}

/// With an alignment of 8 the aligned part of 13 bytes from 3 on is 8 bytes from 8 on. 6 bytes from
/// 1 on have none.
pub fn aligned_parts()
    ensures second_half { IsPartAlignedTo 8 3 13 8 8 }
    ensures nothing { IsPartAlignedTo 8 1 6 1 0 }
{}

/// 4 bytes from 100 on of the storage of a raw image of 8 bytes are not all of writable places,
/// whatever its bytes are.
pub fn mapping_past_a_raw_image()
    ensures { (bytes : List ℕ) → HasStranger (raw_place 8 bytes) 0 100 4 }
{}

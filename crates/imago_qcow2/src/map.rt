// SPDX-License-Identifier: MIT
//! Mappings of places of the disk.
ghost use Rattle.std.specs.Prelude.{◌≡◌, ℕ, ◌+◌, ◌-◌, ◌^◌, ◌<◌, ◌≤◌, true, false, IfOk, IfErr};
ghost use Rattle.std.specs.Prelude.{IfSome};
ghost use Rattle.imago_storage.specs.declared.error.Error.{Error};
ghost use Rattle.imago_drivers.specs.Place.{Place};
ghost use Rattle.imago_drivers.specs.Mapping.{Names};
ghost use Rattle.imago_qcow2.specs.Entry.{place_by};

use crate::entry::GuestCluster;
use imago_drivers::drivers::ShallowMapping;
use imago_storage::error::Error;

/// The mapping of places from that offset of the disk on, of which the first is the `rest`-th of
/// its guest cluster. Refused, it is [`Error::InvalidData`]: the guest cluster's entry is invalid.
pub(crate) fn mapping_of(
    cluster: GuestCluster,
    rest: u64,
    offset: u64,
) -> Result<ShallowMapping, Error>
    requires small { (at : ℕ) → cluster ≡ GuestCluster.Stored at → at + rest < 2 ^ 64 }
    ensures names { (packed : _) (bytes : _) (i : ℕ)
        → IfOk result (λ m. Names m i (place_by packed bytes (rest + i) (offset + i) cluster)) }
    ensures refused { IfErr result
        (λ e. (e ≡ Error.InvalidData) × (cluster ≡ GuestCluster.Invalid)) }
{
    match cluster {
        GuestCluster::Absent => Ok(ShallowMapping::Indirect {
            offset,
            writable: false,
        }),
        GuestCluster::Zero => Ok(ShallowMapping::Zero { explicit: true }),
        GuestCluster::Stored(at) => Ok(ShallowMapping::Raw {
            storage: 0,
            offset: at + rest,
            writable: false,
        }),
        GuestCluster::Compressed { .. } => Ok(ShallowMapping::Special { offset }),
        GuestCluster::Invalid => Err(Error::InvalidData),
    }
}

/// Whether the second number is the first one and `by`.
fn is_behind(first: u64, by: u64, next: u64) -> bool
    ensures yes { result ≡ true → next ≡ first + by }
    ensures no { result ≡ false → next ≡ first + by → ⊥ }
{
    first <= next && next - first == by
}

/// Whether the first mapping, `by` bytes further on, is the next one.
pub(crate) fn goes_on(first: ShallowMapping, by: u64, next: ShallowMapping) -> bool
    ensures yes { result ≡ true → (i : ℕ) (place : Place) → Names next i place
        → Names first (by + i) place }
    ensures no { result ≡ false → (place : Place) → Names next 0 place → Names first by place → ⊥ }
{
    match first {
        ShallowMapping::Raw {
            storage,
            offset,
            writable,
        } => match next {
            ShallowMapping::Raw {
                storage: next_storage,
                offset: next_offset,
                writable: next_writable,
            } => {
                storage == next_storage
                    && writable == next_writable
                    && is_behind(offset, by, next_offset)
            }
            _ => false,
        },
        ShallowMapping::Indirect { offset, writable } => match next {
            ShallowMapping::Indirect {
                offset: next_offset,
                writable: next_writable,
            } => writable == next_writable && is_behind(offset, by, next_offset),
            _ => false,
        },
        ShallowMapping::Zero { explicit } => match next {
            ShallowMapping::Zero {
                explicit: next_explicit,
            } => explicit == next_explicit,
            _ => false,
        },
        ShallowMapping::Special { offset } => match next {
            ShallowMapping::Special {
                offset: next_offset,
            } => is_behind(offset, by, next_offset),
            _ => false,
        },
        ShallowMapping::Eof => false,
    }
}

/// Where in the driver's first storage the bytes stand that a mapping names, if it is one of stored
/// bytes, and so many of them have an offset there.
pub(crate) fn stored_from(mapping: ShallowMapping, most: u64) -> Option<u64>
    ensures { IfSome result
        (λ at. (mapping ≡ ShallowMapping.Raw 0 at false) × (at + most < 2 ^ 64)) }
{
    match mapping {
        ShallowMapping::Raw {
            storage,
            offset,
            writable,
        } => {
            if storage == 0 && !writable && offset <= u64::MAX - most {
                Some(offset)
            } else {
                None
            }
        }
        _ => None,
    }
}

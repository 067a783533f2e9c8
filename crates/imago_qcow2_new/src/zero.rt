// SPDX-License-Identifier: MIT
//! Bytes that are all 0.
ghost use Rattle.std.specs.Prelude.{◌≡◌, ◌<◌, ℕ, length, replicate, slice_index, true, false};

/// Whether all bytes are 0.
#[inline(never)]
pub(crate) fn is_zero(bytes: &[u8]) -> bool
    ensures zero { result ≡ true → bytes.now ≡ replicate (length bytes.now) 0 }
    ensures some { result ≡ false
        → (i : ℕ) × (i < length bytes.now) × (0 < slice_index bytes.now i) }
{
    let mut all = 0;
    for byte in bytes {
        all |= *byte;
    }
    all == 0
}

// SPDX-License-Identifier: MIT
//! Bytes put into a slice.
ghost use Rattle.std.specs.Prelude.{◌≡◌, ◌+◌, ◌≤◌, length};
ghost use Rattle.imago_storage.specs.Bytes.{splice};

/// Puts the source into the bytes, from `start` on.
#[tactic(auto, using(std::proofs::lemmas::List::places), unfolding(crate::specs::Bytes::splice))]
pub(crate) fn overwrite(bytes: &mut [u8], source: &[u8], start: usize)
    requires { start + length source.now ≤ length bytes.old }
    ensures { bytes.new ≡ splice bytes.old start source.now }
{
    bytes[start..start + source.len()].copy_from_slice(source);
}

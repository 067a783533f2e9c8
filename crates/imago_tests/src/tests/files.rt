// SPDX-License-Identifier: MIT
//! Storages and drivers that the tests have in common.
ghost use Rattle.std.specs.Prelude.{◌≡◌, true, IfOk};
ghost use Rattle.imago_vmdk.specs.Image.{is_opened};

use imago::error::Error;
use imago::mem::MemStorage;
use imago::vmdk::Vmdk;
use imago::{DenyImplicitOpenGate, Storage};
use std::alloc::Global;

/// A storage with those bytes.
pub(super) fn stored(alloc: Global, bytes: &[u8]) -> Result<MemStorage, Error> {
    Ok(MemStorage::new(Vec::from_slice(alloc, bytes)?))
}

/// The driver of what a descriptor describes. It has no file beside the descriptor.
pub(super) fn opened_vmdk<S: Storage>(alloc: Global, file: S) -> Result<Vmdk<S>, Error>
    ensures { IfOk result (λ v. is_opened v ≡ true) }
{
    let mut vmdk = Vmdk::open_image(alloc, file, false)?;
    vmdk.open_implicit_dependencies_gated(alloc, &mut DenyImplicitOpenGate::default())?;
    Ok(vmdk)
}

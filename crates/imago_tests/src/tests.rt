// SPDX-License-Identifier: MIT
//! The example that the README gives.
mod compressed;
mod copied;
mod files;
mod formats;
mod laws;
mod tables;

use imago::error::Error;
use imago::format::PreallocateMode;
use imago::mem::MemStorage;
use imago::raw::Raw;
use imago::{DenyImplicitOpenGate, FormatAccess, FormatDriverBuilder, Storage};
use std::alloc::Global;
use std::process::Abort;
use std::test::Fail;

/// The example, over any storage. Answers the size of its disk, too.
fn last_bytes<S: Storage>(alloc: Global, storage: S) -> Result<([u8; 3], u64), Error> {
    let builder = Raw::builder(storage).write(true);
    let gate = DenyImplicitOpenGate::default();
    let mut image = FormatAccess::new(builder.open(alloc, gate)?);
    image.write(alloc, &[1], 9999)?;
    image.resize(alloc, 11000, PreallocateMode::Zero)?;
    let mut bytes = [0xff; 3];
    image.read(alloc, &mut bytes, 9999)?;
    Ok((bytes, image.size()))
}

/// Its storage: 10000 bytes a5 in blocks of 4096.
fn check_the_example(rt: &impl Abort, alloc: Global) -> Result<(), Error> {
    let storage = MemStorage::new(vec![in alloc; 0xa5u8; 10000]?).with_align(4096);
    assert_eq!(rt; last_bytes(alloc, storage)?, ([1, 0, 0], 11000));
    Ok(())
}

#[test]
fn first_taste(rt: HostRuntime) -> Result<(), Fail> {
    check_the_example(&rt, rt.alloc())?;
    Ok(())
}

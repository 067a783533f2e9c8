// SPDX-License-Identifier: MIT
//! Options to open and create storages with.
use super::set_up::{owned, same};
use imago_storage::storage::{PreallocateMode, StorageCreateOptions, StorageOpenOptions};
use std::alloc::Global;
use std::process::Abort;

fn check_options_are_kept(rt: &impl Abort, alloc: Global) {
    let opts = StorageOpenOptions::new()
        .filename(owned(rt, alloc, "a.img"))
        .write(true);
    same(rt, &opts.get_filename(), &Some("a.img"));
    assert!(rt; opts.get_writable() && !opts.get_direct());
    let opts = StorageCreateOptions::default()
        .filename(owned(rt, alloc, "b.img"))
        .size(65536)
        .preallocate(PreallocateMode::Allocate)
        .overwrite(true)
        .modify_open_opts(|opts| opts.direct(true));
    same(rt, &opts.get_filename(), &Some("b.img"));
    same(rt, &opts.get_size(), &65536);
    same(rt, &opts.get_preallocate(), &PreallocateMode::Allocate);
    assert!(rt; opts.get_overwrite() && opts.get_open_options().get_direct());
}

#[test]
fn options_are_kept(rt: HostRuntime) {
    check_options_are_kept(&rt, rt.alloc());
}

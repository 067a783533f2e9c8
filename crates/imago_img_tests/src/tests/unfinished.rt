// SPDX-License-Identifier: MIT
//! New files that aren't finished: what an interrupted copy leaves, and what is done about it.

use super::set_up::check_line;
use crate::memory_host::{MemoryHost, Nature};
use imago_copy::target::Target;
use imago_img_files::host::{Host, Making};
use std::alloc::{AllocError, Global};
use std::io::ErrorKind;
use std::process::Abort;

/// The file that an interrupted copy to `out.raw` left.
const LEFT: &str = "out.raw.imago-img-unfinished";

/// A new file, which replaces none.
const NEW: Making = Making {
    replace: false,
    sparse: true,
};

/// A host with an image, and a file that an interrupted copy left.
fn interrupted(alloc: Global) -> Result<MemoryHost, AllocError> {
    let mut host = MemoryHost::new(alloc, 9, true);
    host.add("disk.raw", b"disk", Nature::Plain)?;
    host.add(LEFT, b"di", Nature::Plain)?;
    host.add("old.raw", b"old", Nature::Plain)?;
    Ok(host)
}

/// A command line, its status, what it tells as an error, whether the unfinished file is still
/// there, and whether `out.raw` is.
type Row = (&'static str, u8, &'static str, bool, bool);

static ROWS: [Row; 7] = [
    (
        "convert disk.raw out.raw",
        1,
        "imago-img: \"out.raw.imago-img-unfinished\": another convert writes it, or left it when \
         it was interrupted; --force removes it\n",
        true,
        false,
    ),
    ("convert --force disk.raw out.raw", 0, "", false, true),
    ("convert --force old.raw out.raw", 0, "", false, true),
    // It isn't removed where the copy is refused for something else.
    (
        "convert --force nothing.raw out.raw",
        1,
        "imago-img: \"nothing.raw\": entity not found\n",
        true,
        false,
    ),
    (
        "convert --force out.raw.imago-img-unfinished out.raw",
        1,
        "imago-img: \"out.raw.imago-img-unfinished\": a file of the image that is read is never \
         replaced\n",
        true,
        false,
    ),
    // It stands beside another path.
    ("convert --force disk.raw old.raw", 0, "", true, false),
    (
        "convert disk.raw old.raw",
        1,
        "imago-img: \"old.raw\": it exists already; --force replaces a file, -n writes into it\n",
        true,
        false,
    ),
];

/// Tries a command line.
fn check_row(rt: &impl Abort, alloc: Global, row: &Row) {
    let &(words, status, errors, is_left, is_made) = row;
    let made = interrupted(alloc);
    assert!(rt; made.is_ok(), "{words}");
    let Ok(mut host) = made else { return };
    check_line(rt, alloc, &mut host, words, (status, "", errors));
    assert_eq!(rt; host.unfinished(), 0, "{words}");
    assert_eq!(rt; host.bytes(LEFT).is_some(), is_left, "{words}");
    assert_eq!(rt; host.bytes("out.raw").is_some(), is_made, "{words}");
}

#[test]
fn an_unfinished_file_is_named_or_removed(rt: HostRuntime) {
    for row in &ROWS {
        check_row(&rt, rt.alloc(), row);
    }
}

/// A link that can't be followed may lead to a file of the image, so it stays.
#[test]
fn what_cannot_be_looked_at_is_not_removed(rt: HostRuntime) {
    let alloc = rt.alloc();
    let mut host = MemoryHost::new(alloc, 9, true);
    let added = host.add("disk.raw", b"disk", Nature::Plain);
    let left = host.add(LEFT, b"", Nature::Barred);
    assert!(&rt; added.is_ok() && left.is_ok());
    let refused = "imago-img: \"out.raw.imago-img-unfinished\": permission denied\n";
    for words in [
        "convert --force disk.raw out.raw",
        "create --force -f qcow2 -b disk.raw -F raw out.raw",
    ] {
        check_line(&rt, alloc, &mut host, words, (1, "", refused));
        assert!(&rt; host.bytes(LEFT).is_some(), "{words}");
        assert!(&rt; host.bytes("out.raw").is_none(), "{words}");
    }
}

/// A file that isn't finished has no path.
fn check_interrupted(rt: &impl Abort, alloc: Global) {
    let mut host = MemoryHost::new(alloc, 9, true);
    let made = host.create("out.raw", 2, NEW);
    assert!(rt; made.is_ok());
    let Ok(mut target) = made else { return };
    let put = target.append(b"d");
    assert!(rt; put.is_ok());
    let _ = target;
    assert!(rt; host.bytes("out.raw").is_none());
}

/// A file that came to have the path meanwhile isn't replaced.
fn check_meanwhile(rt: &impl Abort, alloc: Global) {
    let mut host = MemoryHost::new(alloc, 9, true);
    let made = host.create("out.raw", 0, NEW);
    assert!(rt; made.is_ok());
    let Ok(target) = made else { return };
    let added = host.add("out.raw", b"new", Nature::Plain);
    assert!(rt; added.is_ok());
    let refused = host.finish(target).err().map(|cause| cause.kind());
    assert!(rt; refused == Some(ErrorKind::AlreadyExists));
    assert!(rt; host.bytes("out.raw") == Some(b"new".as_slice()));
}

#[test]
fn a_new_file_gets_its_path_at_the_end(rt: HostRuntime) {
    check_interrupted(&rt, rt.alloc());
    check_meanwhile(&rt, rt.alloc());
}

/// A command line, and how many bytes are shown to be done.
static SHOWN: [(&str, u64); 4] = [
    ("convert old.raw new.raw", 0),
    ("convert -p old.raw new.raw", 3),
    ("convert -S 0 -p old.raw new.raw", 3),
    ("convert -p -q old.raw new.raw", 0),
];

#[test]
fn progress_is_shown_where_it_is_asked_for(rt: HostRuntime) {
    for (words, shown) in &SHOWN {
        let made = interrupted(rt.alloc());
        assert!(&rt; made.is_ok(), "{words}");
        let Ok(mut host) = made else { return };
        check_line(&rt, rt.alloc(), &mut host, words, (0, "", ""));
        assert_eq!(&rt; host.shown(), *shown, "{words}");
    }
}

// SPDX-License-Identifier: MIT
//! Files that are there, and that a disk is written into, or can't be.

use super::set_up::{check_line, words_of};
use crate::memory_host::{MemoryHost, Nature};
use crate::pair_host::PairHost;
use imago_img_files::guarded::Confined;
use imago_img_parts::run::run;
use std::alloc::{AllocError, Global};
use std::process::Abort;

/// A host with an image, and files that it can't be written into.
fn files(alloc: Global) -> Result<MemoryHost, AllocError> {
    let mut host = MemoryHost::new(alloc, 9, true);
    host.add("disk.raw", b"disk", Nature::Plain)?;
    host.add("small.bin", b"abc", Nature::Plain)?;
    host.add("folder", b"", Nature::Folder)?;
    Ok(host)
}

/// A command line, and what it tells as an error.
static REFUSED: [(&str, &str); 4] = [
    (
        "convert -n disk.raw nothing.bin",
        "imago-img: \"nothing.bin\": it doesn't exist; without -n it is made\n",
    ),
    (
        "convert disk.raw -nfraw small.bin",
        "imago-img: \"small.bin\": it has 3 bytes, and the disk has 4\n",
    ),
    (
        "convert -n --force disk.raw folder",
        "imago-img: \"folder\": only a regular file or a block device can be written into\n",
    ),
    (
        "convert -n disk.raw disk.raw",
        "imago-img: \"disk.raw\": a file of the image that is read is never written into\n",
    ),
];

/// Tries a command line. No file is made or changed.
fn check_refused(rt: &impl Abort, alloc: Global, row: &(&'static str, &'static str)) {
    let &(words, errors) = row;
    let made = files(alloc);
    assert!(rt; made.is_ok(), "{words}");
    let Ok(mut host) = made else { return };
    check_line(rt, alloc, &mut host, words, (1, "", errors));
    assert_eq!(rt; host.count(), 3, "{words}");
    assert!(rt;
        host.bytes("disk.raw") == Some(b"disk".as_slice()),
        "{words}"
    );
    assert!(rt;
        host.bytes("small.bin") == Some(b"abc".as_slice()),
        "{words}"
    );
}

#[test]
fn a_disk_is_written_into_what_can_hold_it(rt: HostRuntime) {
    for row in &REFUSED {
        check_refused(&rt, rt.alloc(), row);
    }
}

/// A command line over an image of 256 KiB, which are read at a time, and 4 bytes; how many times
/// something may be put into a file, the status, and how many bytes of the file are those of the
/// image then.
type Row = (&'static str, u64, u8, usize);

static WRITTEN: [Row; 5] = [
    ("convert -n disk.raw out.bin", 9, 0, IMAGE),
    ("convert -n --alone disk.raw out.bin", 9, 0, IMAGE),
    ("convert -n --force disk.raw -fraw out.bin", 2, 0, IMAGE),
    // What was written before a refusal stays.
    ("convert -n disk.raw out.bin", 1, 1, 1 << 18),
    ("convert -n disk.raw out.bin", 0, 1, 0),
];

/// How many bytes the image has, and the file that it is written into.
const IMAGE: usize = (1 << 18) + 4;

const OUT: usize = IMAGE + 3;

/// So many bytes, all the same.
fn filled(alloc: Global, byte: u8, count: usize) -> Result<Vec<u8>, AllocError> {
    vec![in alloc; byte; count]
}

/// An image, and a longer file.
fn pair(alloc: Global, appends: u64) -> Result<PairHost, AllocError> {
    let image = filled(alloc, b'd', IMAGE)?;
    let out = filled(alloc, b'o', OUT)?;
    PairHost::new(alloc, ("disk.raw", image), ("out.bin", out), appends)
}

/// Whether a file begins with so many bytes of the image, and has its own behind them.
fn is_written(bytes: &[u8], count: usize) -> bool {
    let Some((first, rest)) = bytes.split_at_checked(count) else {
        return false;
    };
    bytes.len() == OUT
        && first.iter().all(|byte| *byte == b'd')
        && rest.iter().all(|byte| *byte == b'o')
}

/// Tries a command line. The image stays as it is.
fn check_written(rt: &impl Abort, alloc: Global, row: &Row) {
    let &(words, appends, status, count) = row;
    let (made, list) = (pair(alloc, appends), words_of(alloc, words));
    assert!(rt; made.is_ok() && list.is_ok(), "{words}");
    let (Ok(host), Ok(list)) = (made, list) else {
        return
    };
    let mut host = Confined::new(host);
    let mut output = Vec::new(alloc);
    let mut errors = Vec::new(alloc);
    assert_eq!(rt;
        run(&mut host, &list, &mut output, &mut errors),
        status,
        "{words}"
    );
    let host = host.host;
    let (Some(image), Some(out)) = (host.bytes("disk.raw"), host.bytes("out.bin")) else {
        panic!(rt; "{words}");
    };
    assert!(rt; is_written(out, count), "{words}");
    assert!(rt;
        image.len() == IMAGE && image.iter().all(|byte| *byte == b'd'),
        "{words}"
    );
}

#[test]
fn a_disk_is_written_into_a_file_that_is_there(rt: HostRuntime) {
    for row in &WRITTEN {
        check_written(&rt, rt.alloc(), row);
    }
}

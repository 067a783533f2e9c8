// SPDX-License-Identifier: MIT
//! Files that QEMU holds: no command replaces them, writes into them or resizes them.

use super::set_up::{check_line, words_of};
use crate::memory_host::{MemoryHost, Nature};
use crate::pair_host::PairHost;
use imago_img_files::guarded::Confined;
use imago_img_parts::locks::is_held_in;
use imago_img_parts::run::run;
use std::alloc::{AllocError, Global};
use std::process::Abort;

/// The file that an interrupted copy to `old.raw` left.
const LEFT: &str = "old.raw.imago-img-unfinished";

/// Why a file isn't replaced that is held.
const REFUSED: &str =
    "imago-img: \"old.raw\": Failed to get \"write\" lock. Is another process using the image?\n";

/// And why one isn't changed.
const REFUSED_CHANGE: &str =
    "imago-img: \"out.bin\": Failed to get \"write\" lock. Is another process using the image?\n";

/// A command line, the file that is held, the status, what is told as an error, and whether
/// `old.raw` is what it was.
type Row = (&'static str, &'static str, u8, &'static str, bool);

static REPLACED: [Row; 8] = [
    (
        "convert --force disk.raw old.raw",
        "old.raw",
        1,
        REFUSED,
        true,
    ),
    (
        "convert -U --force -O qcow2 disk.raw old.raw",
        "old.raw",
        1,
        REFUSED,
        true,
    ),
    ("create --force old.raw 1k", "old.raw", 1, REFUSED, true),
    (
        "create --force -f qcow2 -b disk.raw -F raw old.raw",
        "old.raw",
        1,
        REFUSED,
        true,
    ),
    (
        "convert disk.raw old.raw",
        "old.raw",
        1,
        "imago-img: \"old.raw\": it exists already; --force replaces a file, -n writes into it\n",
        true,
    ),
    // What is read may be held, and so may other files.
    ("convert --force disk.raw old.raw", "disk.raw", 0, "", false),
    ("create --force old.raw 1k", "disk.raw", 0, "", false),
    ("create --force old.raw 1k", LEFT, 0, "", false),
];

/// Command lines that change a file which is there.
static CHANGED: [&str; 4] = [
    "convert -n disk.raw out.bin",
    "convert -n --alone -fraw disk.raw out.bin",
    "resize out.bin 2000",
    "resize --shrink -f raw out.bin 3",
];

/// A host with an image, a file, and what an interrupted copy left beside that.
fn files(alloc: Global, held: &str) -> Result<MemoryHost, AllocError> {
    let mut host = MemoryHost::new(alloc, 9, true);
    host.add("disk.raw", b"disk", Nature::Plain)?;
    host.add("old.raw", b"old", Nature::Plain)?;
    host.add(LEFT, b"di", Nature::Plain)?;
    host.hold(held)?;
    Ok(host)
}

/// Tries a command line. The unfinished file is removed where the file is replaced, and else kept.
fn check_replaced(rt: &impl Abort, alloc: Global, row: &Row) {
    let &(words, held, status, errors, is_kept) = row;
    let made = files(alloc, held);
    assert!(rt; made.is_ok(), "{words}");
    let Ok(mut host) = made else { return };
    check_line(rt, alloc, &mut host, words, (status, "", errors));
    let is_old = host.bytes("old.raw") == Some(b"old".as_slice());
    assert_eq!(rt; is_old, is_kept, "{words}");
    assert_eq!(rt; host.bytes(LEFT).is_some(), is_kept, "{words}");
    assert_eq!(rt; host.unfinished(), 0, "{words}");
}

#[test]
fn a_file_that_qemu_holds_is_not_replaced(rt: HostRuntime) {
    for row in &REPLACED {
        check_replaced(&rt, rt.alloc(), row);
    }
}

/// An image, and a longer file. Something may be put into a file once.
fn pair(alloc: Global) -> Result<PairHost, AllocError> {
    let image = vec![in alloc; b'd'; 512]?;
    let out = vec![in alloc; b'o'; 1000]?;
    PairHost::new(alloc, ("disk.raw", image), ("out.bin", out), 1)
}

/// Whether the file is what it was.
fn is_as_before(host: &PairHost) -> bool {
    match host.bytes("out.bin") {
        Some(bytes) => bytes.len() == 1000 && bytes.iter().all(|byte| *byte == b'o'),
        None => false,
    }
}

/// Tries a command line, by which the file is changed unless it is held.
fn check_changed(rt: &impl Abort, alloc: Global, words: &str, held: bool) {
    let (made, list) = (pair(alloc), words_of(alloc, words));
    assert!(rt; made.is_ok() && list.is_ok(), "{words}");
    let (Ok(mut host), Ok(list)) = (made, list) else {
        return
    };
    if held {
        host.hold();
    }
    let mut host = Confined::new(host);
    let mut output = Vec::new(alloc);
    let mut errors = Vec::new(alloc);
    let status = run(&mut host, &list, &mut output, &mut errors);
    assert_eq!(rt; status, held as u8, "{words}");
    assert_eq!(rt; is_as_before(&host.host), held, "{words}");
    let told = if held { REFUSED_CHANGE } else { "" };
    assert!(rt; errors.as_slice() == told.as_bytes(), "{words}");
}

#[test]
fn a_file_that_qemu_holds_is_not_changed(rt: HostRuntime) {
    for words in &CHANGED {
        check_changed(&rt, rt.alloc(), words, true);
        check_changed(&rt, rt.alloc(), words, false);
    }
}

/// What the system tells of locks, and whether QEMU holds file 12345 of device 0xfe00 by it.
static LOCKS: [(&str, bool); 22] = [
    ("", false),
    // A raw image that is written, and one that is read.
    ("1: OFDLCK ADVISORY  READ -1 fe:00:12345 100 101\n", true),
    ("1: OFDLCK ADVISORY  READ -1 fe:00:12345 100 100\n", false),
    // A qcow2 image that is read, and one that is written.
    (
        "1: FLOCK  ADVISORY  WRITE 3849 fe:00:12345 0 EOF\n\
         27: OFDLCK ADVISORY  READ -1 fe:00:12345 203 203\n\
         28: OFDLCK ADVISORY  READ -1 fe:00:12345 201 201\n\
         29: OFDLCK ADVISORY  READ -1 fe:00:12345 100 100\n",
        true,
    ),
    ("1: OFDLCK ADVISORY  READ -1 fe:00:12345 103 103\n", true),
    ("1: OFDLCK ADVISORY  READ -1 fe:00:12345 201 201", true),
    ("1: OFDLCK ADVISORY  READ -1 fe:00:12345 203 203", true),
    ("1: POSIX  ADVISORY  WRITE 77 fe:00:12345 0 EOF\n", true),
    // Other bytes.
    ("1: OFDLCK ADVISORY  READ -1 fe:00:12345 102 102\n", false),
    ("1: OFDLCK ADVISORY  READ -1 fe:00:12345 104 200\n", false),
    ("1: OFDLCK ADVISORY  READ -1 fe:00:12345 202 202\n", false),
    ("1: POSIX  ADVISORY  WRITE 77 fe:00:12345 204 EOF\n", false),
    // Other files.
    ("1: OFDLCK ADVISORY  READ -1 fe:00:12346 100 101\n", false),
    ("1: OFDLCK ADVISORY  READ -1 fe:01:12345 100 101\n", false),
    ("1: OFDLCK ADVISORY  READ -1 fd:00:12345 100 101\n", false),
    // A lock that is waited for, and those of other kinds.
    (
        "1: -> OFDLCK ADVISORY  WRITE -1 fe:00:12345 100 101\n",
        false,
    ),
    ("1: FLOCK  ADVISORY  WRITE 3849 fe:00:12345 0 EOF\n", false),
    ("1: LEASE  ACTIVE    READ 3849 fe:00:12345 0 EOF\n", false),
    // What no system tells.
    ("1: OFDLCK ADVISORY  READ -1 fe:00:12345 101\n", false),
    ("1: OFDLCK ADVISORY  READ -1 FE:00:12345 100 101\n", false),
    (
        "1: OFDLCK ADVISORY  READ -1 fe:00:12345 101 18446744073709551616\n",
        false,
    ),
    ("1: OFDLCK ADVISORY  READ -1 fe::12345 100 101\n", false),
];

/// Locks of file 7 of a device with a long minor number, and of others that are nearly the same.
static LONG: [(&str, bool); 3] = [
    ("9: OFDLCK ADVISORY  READ -1 103:12345:7 101 101\n", true),
    ("9: OFDLCK ADVISORY  READ -1 103:45:7 101 101\n", false),
    ("9: OFDLCK ADVISORY  READ -1 03:12345:7 101 101\n", false),
];

#[test]
fn lines_tell_which_files_qemu_holds(rt: HostRuntime) {
    for (text, held) in &LOCKS {
        assert_eq!(rt; is_held_in(text, 0xfe00, 12345), *held, "{text}");
    }
    for (text, held) in &LONG {
        assert_eq!(rt; is_held_in(text, 0x1231_0345, 7), *held, "{text}");
    }
}

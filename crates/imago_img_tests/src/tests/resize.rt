// SPDX-License-Identifier: MIT
//! Raw images that get another size, or can't.

use super::set_up::words_of;
use crate::pair_host::PairHost;
use imago_img_files::guarded::Confined;
use imago_img_parts::run::run;
use std::alloc::{AllocError, Global};
use std::process::Abort;

/// A command line, the status, what is told, the file that is looked at then, and how many bytes it
/// has.
type Row = (&'static str, u8, &'static str, &'static str, usize);

/// How many bytes both files have.
const BYTES: usize = 1000;

/// What the first one begins as.
const MAGIC: [u8; 4] = *b"QFI\xfb";

static ROWS: [Row; 15] = [
    (
        "resize -f raw out.bin 2000",
        0,
        "Image resized.\n",
        "out.bin",
        2000,
    ),
    // A change counts from whole sectors.
    ("resize out.bin -q +1k", 0, "", "out.bin", 2048),
    (
        "resize --alone --shrink out.bin -1",
        0,
        "Image resized.\n",
        "out.bin",
        1023,
    ),
    ("resize -q out.bin +0", 0, "", "out.bin", 1024),
    ("resize -q --shrink out.bin 3", 0, "", "out.bin", 3),
    (
        "resize out.bin 1000",
        1,
        "imago-img: \"out.bin\": --shrink cuts it from 1024 to 1000 bytes, and the rest is lost\n",
        "out.bin",
        1000,
    ),
    (
        "resize --shrink out.bin 0",
        1,
        "imago-img: \"out.bin\": the new size has to be greater than 0\n",
        "out.bin",
        1000,
    ),
    (
        "resize --shrink out.bin -1k",
        1,
        "imago-img: \"out.bin\": the new size has to be greater than 0\n",
        "out.bin",
        1000,
    ),
    (
        "resize out.bin +9223372036854775807",
        1,
        "imago-img: \"out.bin\": no file is that long\n",
        "out.bin",
        1000,
    ),
    // The host refuses it.
    (
        "resize out.bin 7E",
        1,
        "imago-img: \"out.bin\": out of memory\n",
        "out.bin",
        1000,
    ),
    (
        "resize none.bin 1k",
        1,
        "imago-img: \"none.bin\": entity not found\n",
        "out.bin",
        1000,
    ),
    // Only a raw image is resized.
    (
        "resize -f vmdk out.bin 2k",
        1,
        "imago-img: \"out.bin\": a vmdk image, and only raw ones are resized\n",
        "out.bin",
        1000,
    ),
    (
        "resize disk.img 2k",
        1,
        "imago-img: \"disk.img\": a qcow2 image, and only raw ones are resized\n",
        "disk.img",
        1000,
    ),
    (
        "resize -fvmdk disk.img 2k",
        1,
        "imago-img: \"disk.img\": said to be vmdk, but it is a qcow2 image; say -f qcow2\n",
        "disk.img",
        1000,
    ),
    ("resize -qf raw disk.img 2k", 0, "", "disk.img", 2048),
];

/// Two files: one that begins as a qcow2 image, and another.
fn pair(alloc: Global) -> Result<PairHost, AllocError> {
    let mut disk = vec![in alloc; b'o'; BYTES]?;
    disk[..4].copy_from_slice(&MAGIC);
    let out = vec![in alloc; b'o'; BYTES]?;
    PairHost::new(alloc, ("disk.img", disk), ("out.bin", out), 0)
}

/// Whether a file has those first bytes, and then zeroes: so many in all.
fn is_resized(bytes: &[u8], first: &[u8], count: usize) -> bool {
    let kept = BYTES.min(count);
    let Some((front, back)) = bytes.split_at_checked(kept) else {
        return false;
    };
    let begins = first.len().min(kept);
    bytes.len() == count
        && front[..begins] == first[..begins]
        && front[begins..].iter().all(|byte| *byte == b'o')
        && back.iter().all(|byte| *byte == 0)
}

/// Whether the file of that path has so many bytes, and the other one all that it had.
fn are_as_wanted(host: &PairHost, path: &str, count: usize) -> bool {
    let (Some(disk), Some(out)) = (host.bytes("disk.img"), host.bytes("out.bin")) else {
        return false;
    };
    let (disk_count, out_count) = if path == "out.bin" {
        (BYTES, count)
    } else {
        (count, BYTES)
    };
    is_resized(disk, &MAGIC, disk_count) && is_resized(out, &[], out_count)
}

/// Whether that was told, and nothing else: as output with status 0, and else as an error.
fn is_told(output: &[u8], errors: &[u8], status: u8, told: &str) -> bool {
    if status == 0 {
        return output == told.as_bytes() && errors.is_empty();
    }
    errors == told.as_bytes() && output.is_empty()
}

/// Tries a command line.
fn check_row(rt: &impl Abort, alloc: Global, row: &Row) {
    let &(words, status, told, path, count) = row;
    let (made, list) = (pair(alloc), words_of(alloc, words));
    assert!(rt; made.is_ok() && list.is_ok(), "{words}");
    let (Ok(host), Ok(list)) = (made, list) else {
        return
    };
    let mut host = Confined::new(host);
    let mut output = Vec::new(alloc);
    let mut errors = Vec::new(alloc);
    let ended = run(&mut host, &list, &mut output, &mut errors);
    assert_eq!(rt; ended, status, "{words}");
    assert!(rt; is_told(&output, &errors, status, told), "{words}");
    assert!(rt; are_as_wanted(&host.host, path, count), "{words}");
}

#[test]
fn a_raw_image_gets_another_size(rt: HostRuntime) {
    for row in &ROWS {
        check_row(&rt, rt.alloc(), row);
    }
}

// SPDX-License-Identifier: MIT
//! Which files a host is asked for by command lines.

use super::set_up::{copying, run_on, words_of};
use crate::asked::Call;
use crate::memory_host::{MemoryHost, Nature};
use imago_images::opener::open_image;
use imago_images::opening::{Accepted, Opening, OtherFiles};
use std::alloc::{AllocError, Global};
use std::process::Abort;

/// What `convert` may be asked for besides, and is the only one to write: the new file, its
/// unfinished name and its folder.
static NEW: [&str; 3] = ["out.raw", "out.raw.imago-img-unfinished", "."];

/// A command line with which no other file is opened, its status, and the files that it names.
type Row = (&'static str, u8, &'static [&'static str]);

static ALONE: [Row; 14] = [
    ("vet one.qcow2", 0, &["one.qcow2"]),
    ("vet one.raw", 0, &["one.raw"]),
    ("vet top.qcow2", 2, &["top.qcow2"]),
    ("vet outside.qcow2", 2, &["outside.qcow2"]),
    ("vet outside.vmdk", 2, &["outside.vmdk"]),
    ("vet disk.vmdk", 2, &["disk.vmdk"]),
    ("info --alone one.qcow2", 0, &["one.qcow2"]),
    ("info --alone top.qcow2", 1, &["top.qcow2"]),
    // What isn't in the descriptor's folder isn't looked at for its size either.
    ("info outside.vmdk", 0, &["outside.vmdk"]),
    ("map --alone outside.vmdk", 1, &["outside.vmdk"]),
    ("check --alone one.qcow2", 0, &["one.qcow2"]),
    (
        "compare --alone one.qcow2 one.raw",
        0,
        &["one.qcow2", "one.raw"],
    ),
    ("convert --alone one.qcow2 out.raw", 0, &["one.qcow2"]),
    (
        "convert --alone outside.qcow2 out.raw",
        1,
        &["outside.qcow2"],
    ),
];

/// Command lines with which files beside the image are opened, and the files that they name.
static BESIDE: [Row; 3] = [
    ("compare top.qcow2 top.raw", 0, &["top.qcow2", "top.raw"]),
    ("convert top.qcow2 out.raw", 0, &["top.qcow2"]),
    ("check disk.vmdk", 2, &["disk.vmdk"]),
];

/// A command line over a descriptor whose extents stand in two files by turns, its status, and how
/// often it looks at each file: where it is without links, what it is, and how much room it takes.
type Turns = (&'static str, u8, u64);

static BY_TURNS: [Turns; 2] = [("info turns.vmdk", 0, 3), ("check turns.vmdk", 2, 2)];

/// Any image of that folder is opened.
const IN_FOLDER: Opening = Opening {
    format: None,
    accepted: Accepted::EVERYTHING,
    other_files: OtherFiles::InFolder,
    tables: None,
    longest: None,
};

/// The files behind a command line, which was done, and its status.
fn asked(alloc: Global, words: &str) -> Result<(MemoryHost, u8), AllocError> {
    asked_of(alloc, copying(alloc)?, words)
}

/// The same over these files.
fn asked_of(
    alloc: Global,
    mut host: MemoryHost,
    words: &str,
) -> Result<(MemoryHost, u8), AllocError> {
    for path in &NEW {
        host.follow(path)?;
    }
    let words = words_of(alloc, words)?;
    let (mut output, mut errors) = (Vec::new(alloc), Vec::new(alloc));
    let status = run_on(&mut host, &words, &mut output, &mut errors);
    Ok((host, status))
}

/// How often a call was made for other files than these, but for those of a new one.
fn besides(host: &MemoryHost, call: Call, named: &[&str]) -> u64 {
    let mut count = host.asked().besides(call, named);
    for path in &NEW {
        count = count.saturating_sub(host.asked().count(call, path));
    }
    count
}

/// Tries a command line: it reads each file that it names, and none is opened for writing. Tells
/// whether it asked for any other file.
fn asks_for_others(rt: &impl Abort, alloc: Global, row: &Row) -> bool {
    let &(words, status, named) = row;
    let made = asked(alloc, words);
    assert!(rt; made.is_ok(), "{words}");
    let Ok((host, found)) = made else {
        return false
    };
    assert_eq!(rt; found, status, "{words}");
    for path in named {
        assert!(rt; host.asked().count(Call::Read, path) > 0, "{words}");
    }
    assert_eq!(rt; besides(&host, Call::Write, &[]), 0, "{words}");
    besides(&host, Call::Look, named) > 0 || besides(&host, Call::Read, named) > 0
}

/// A host with a descriptor of so many extents of one sector each, which stand in two files by
/// turns.
fn with_turns(alloc: Global, count: usize) -> Result<MemoryHost, AllocError> {
    let mut text = Vec::new(alloc);
    text.extend_from_slice(b"# Disk DescriptorFile\nversion=1\n")?;
    for turn in 0..count {
        if turn % 2 == 0 {
            text.extend_from_slice(b"RW 1 FLAT \"a.bin\" 0\n")?;
        } else {
            text.extend_from_slice(b"RW 1 FLAT \"parts/b.bin\" 0\n")?;
        }
    }
    let mut host = copying(alloc)?;
    host.add("turns.vmdk", &text, Nature::Plain)?;
    Ok(host)
}

/// How often each of the two files was looked at in which the extents stand.
fn looks_by_turns(host: &MemoryHost) -> (u64, u64) {
    let asked = host.asked();
    (
        asked.count(Call::Look, "a.bin"),
        asked.count(Call::Look, "parts/b.bin"),
    )
}

/// Opens a descriptor of 40 extents: where each file is without links is asked once, and what it
/// is.
fn opens_by_turns(rt: &impl Abort, host: &MemoryHost) {
    let opened = open_image(host, "turns.vmdk", IN_FOLDER);
    assert!(rt; opened.is_ok());
    assert_eq!(rt; looks_by_turns(host), (2, 2));
}

/// Tries a command line over such a descriptor, which asks once for each.
fn asks_by_turns(rt: &impl Abort, alloc: Global, host: MemoryHost, row: Turns) {
    let (words, status, looks) = row;
    let made = asked_of(alloc, host, words);
    assert!(rt; made.is_ok(), "{words}");
    let Ok((host, found)) = made else { return };
    assert_eq!(rt; found, status, "{words}");
    assert_eq!(rt; looks_by_turns(&host), (looks, looks), "{words}");
}

#[test]
fn the_file_of_many_extents_is_looked_at_once(rt: HostRuntime) {
    let host = with_turns(rt.alloc(), 40);
    assert!(&rt; host.is_ok());
    let Ok(host) = &host else { return };
    opens_by_turns(&rt, host);
}

#[test]
fn extents_are_told_and_checked_by_one_look(rt: HostRuntime) {
    for row in &BY_TURNS {
        let host = with_turns(rt.alloc(), 40);
        assert!(&rt; host.is_ok());
        let Ok(host) = host else { return };
        asks_by_turns(&rt, rt.alloc(), host, *row);
    }
}

#[test]
fn only_named_files_are_asked_for(rt: HostRuntime) {
    for row in &ALONE {
        let others = asks_for_others(&rt, rt.alloc(), row);
        assert!(rt; !others, "{}", row.0);
    }
}

#[test]
fn files_beside_the_image_are_asked_for(rt: HostRuntime) {
    for row in &BESIDE {
        let others = asks_for_others(&rt, rt.alloc(), row);
        assert!(rt; others, "{}", row.0);
    }
}

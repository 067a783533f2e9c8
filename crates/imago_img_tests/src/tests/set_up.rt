// SPDX-License-Identifier: MIT
//! The files that the tests have, and how a command line is tried on them.

use crate::memory_host::{MemoryHost, Nature};
use imago_img_files::guarded::Confined;
use imago_img_files::host::Files;
use imago_img_parts::run::run;
use std::alloc::{AllocError, Global};
use std::io::Write;
use std::mem;
use std::process::Abort;

/// A file: zeroes, and bytes behind them.
type FileRow = (&'static str, usize, &'static [u8], Nature);

/// A command line, and what it comes to.
#[derive(Drop)]
pub struct Case {
    /// Its words, with a space between two.
    pub words: &'static str,
    /// How many times something may be put into a new file, and whether it then gets its path.
    pub appends: u64,
    pub finishes: bool,
    pub status: u8,
    pub output: &'static str,
    pub errors: &'static str,
    /// The new file `out.raw`, if there is one: how long it is, and where it isn't zero.
    pub written: Option<(usize, &'static [(usize, &'static [u8])])>,
}

/// The files.
static FILES: [FileRow; 28] = [
    (
        "disk.vmdk",
        0,
        b"# Disk DescriptorFile\nversion=1\nencoding=\"UTF-8\"\n\
        RW 1 FLAT \"a.bin\" 0\nRW 2 ZERO\nRW 1 FLAT \"parts/b.bin\" 1\n",
        Nature::Plain,
    ),
    ("a.bin", 3, b"abc", Nature::Plain),
    ("parts/b.bin", 512, b"xyz", Nature::Plain),
    (
        "barred.vmdk",
        0,
        b"# Disk DescriptorFile\nversion=1\nRW 1 FLAT \"a.bin\" 0\nNOACCESS 1 ZERO\n",
        Nature::Plain,
    ),
    (
        "outside.vmdk",
        0,
        b"# Disk DescriptorFile\nversion=1\nRW 1 FLAT \"/etc/secret\" 0\n",
        Nature::Plain,
    ),
    ("/etc/secret", 0, b"top", Nature::Plain),
    (
        "above.vmdk",
        0,
        b"# Disk DescriptorFile\nversion=1\nRW 1 ZERO\nRW 1 FLAT \"parts/../../b.bin\" 0\n",
        Nature::Plain,
    ),
    (
        "linked.vmdk",
        0,
        b"# Disk DescriptorFile\nversion=1\nRW 1 FLAT \"link.bin\" 0\n",
        Nature::Plain,
    ),
    ("link.bin", 0, b"top", Nature::Link("/etc/secret")),
    // An absolute name that leads into the descriptor's own folder.
    ("/vm", 0, b"", Nature::Folder),
    (
        "/vm/disk.vmdk",
        0,
        b"# Disk DescriptorFile\nversion=1\nRW 1 FLAT \"/vm/flat.bin\" 0\n",
        Nature::Plain,
    ),
    ("/vm/flat.bin", 511, b"f", Nature::Plain),
    (
        "missing.vmdk",
        0,
        b"# Disk DescriptorFile\nversion=1\nRW 1 FLAT \"nowhere.bin\" 0\n",
        Nature::Plain,
    ),
    (
        "secret.vmdk",
        0,
        b"# Disk DescriptorFile\nversion=1\nRW 1 FLAT \"secret.bin\" 0\n",
        Nature::Plain,
    ),
    ("secret.bin", 511, b"s", Nature::Secret),
    (
        "folder.vmdk",
        0,
        b"# Disk DescriptorFile\nversion=1\nRW 1 FLAT \"parts\" 0\n",
        Nature::Plain,
    ),
    ("parts", 0, b"", Nature::Folder),
    (
        "faulty.vmdk",
        0,
        b"# Disk DescriptorFile\nversion=1\nRW x FLAT \"a.bin\" 0\nRW 1 SPARSE \"a.bin\"\n\xff\n",
        Nature::Plain,
    ),
    (
        "later.vmdk",
        0,
        b"# Disk DescriptorFile\nversion=4\n",
        Nature::Plain,
    ),
    ("sparse.vmdk", 0, b"KDMV\x01\x00\x00\x00", Nature::Plain),
    ("long.vmdk", 0, b"# Disk DescriptorFile", Nature::Plain),
    // As ESX names the extents of a disk.
    (
        "esx.vmdk",
        0,
        b"# Disk DescriptorFile\nversion=1\nCID=3ed5c337\nparentCID=ffffffff\n\
        createType=\"vmfs\"\nRW 1 VMFS \"esx-flat.vmdk\"\n",
        Nature::Plain,
    ),
    ("esx-flat.vmdk", 509, b"esx", Nature::Plain),
    ("plain.raw", 2, b"hello", Nature::Plain),
    ("longer.raw", 2, b"hello\0\0", Nature::Plain),
    ("tail.raw", 2, b"hello\0\0end", Nature::Plain),
    ("other.raw", 2, b"hellO", Nature::Plain),
    ("disk.dev", 1, b"dev", Nature::Device),
];

/// A file that is zero but for some parts: how long it is, and where these stand.
pub type PartsRow = (&'static str, usize, &'static [(usize, &'static [u8])]);

/// What the qcow2 images of the tests begin with: clusters of 512 bytes, and a disk of 2048. The L1
/// table stands at 512, and names the L2 table at 1024.
pub const VERSION_2: &[u8] = b"QFI\xfb\0\0\0\x02";

pub const VERSION_3: &[u8] = b"QFI\xfb\0\0\0\x03";

/// qcow2 images, and what they stand above or show. A name of a backing file stands at 200.
static PARTS: [PartsRow; 19] = [
    // Its reference counts stand at 3072, and their table at 2560.
    (
        "one.qcow2",
        3584,
        &[
            (0, VERSION_2),
            (23, b"\x09"),
            (30, b"\x08"),
            (39, b"\x01"),
            (46, b"\x02"),
            (54, b"\x0a\0\0\0\0\x01"),
            (512, b"\x80\0\0\0\0\0\x04"),
            (1032, b"\x80\0\0\0\0\0\x08\0\x80\0\0\0\0\0\x06"),
            (1536, b"1"),
            (2048, b"2"),
            (2566, b"\x0c"),
            (3073, b"\x01\0\x01\0\x01\0\x01\0\x01\0\x01\0\x01"),
        ],
    ),
    ("one.raw", 2048, &[(512, b"2"), (1024, b"1")]),
    // The header extension at 104 has the format of the backing file.
    (
        "top.qcow2",
        2048,
        &[
            (0, VERSION_3),
            (15, b"\xc8\0\0\0\x09"),
            (23, b"\x09"),
            (30, b"\x08"),
            (39, b"\x01"),
            (46, b"\x02"),
            (87, b"\x01"),
            (99, b"\x04\0\0\0\x68"),
            (104, b"\xe2\x79\x2a\xca\0\0\0\x05qcow2"),
            (200, b"mid.qcow2"),
            (518, b"\x04"),
            (1030, b"\x06"),
            (1536, b"t"),
        ],
    ),
    (
        "mid.qcow2",
        2048,
        &[
            (0, VERSION_2),
            (15, b"\xc8\0\0\0\x0e"),
            (23, b"\x09"),
            (30, b"\x08"),
            (39, b"\x01"),
            (46, b"\x02"),
            (200, b"parts/base.raw"),
            (518, b"\x04"),
            (1038, b"\x06"),
            (1536, b"m"),
        ],
    ),
    (
        "parts/base.raw",
        1536,
        &[(0, b"x"), (512, b"y"), (1024, b"b")],
    ),
    ("top.raw", 2048, &[(0, b"t"), (512, b"m"), (1024, b"b")]),
    (
        "outside.qcow2",
        1024,
        &[
            (0, VERSION_2),
            (15, b"\xc8\0\0\0\x0b"),
            (23, b"\x09"),
            (30, b"\x08"),
            (39, b"\x01"),
            (46, b"\x02"),
            (200, b"/etc/secret"),
        ],
    ),
    (
        "linked.qcow2",
        1024,
        &[
            (0, VERSION_2),
            (15, b"\xc8\0\0\0\x08"),
            (23, b"\x09"),
            (30, b"\x08"),
            (39, b"\x01"),
            (46, b"\x02"),
            (200, b"link.bin"),
        ],
    ),
    (
        "circle.qcow2",
        1024,
        &[
            (0, VERSION_2),
            (15, b"\xc8\0\0\0\x0c"),
            (23, b"\x09"),
            (30, b"\x08"),
            (39, b"\x01"),
            (46, b"\x02"),
            (200, b"around.qcow2"),
        ],
    ),
    (
        "around.qcow2",
        1024,
        &[
            (0, VERSION_2),
            (15, b"\xc8\0\0\0\x0c"),
            (23, b"\x09"),
            (30, b"\x08"),
            (39, b"\x01"),
            (46, b"\x02"),
            (200, b"circle.qcow2"),
        ],
    ),
    (
        "lost.qcow2",
        1024,
        &[
            (0, VERSION_2),
            (15, b"\xc8\0\0\0\x0b"),
            (23, b"\x09"),
            (30, b"\x08"),
            (39, b"\x01"),
            (46, b"\x02"),
            (200, b"nowhere.raw"),
        ],
    ),
    (
        "other.qcow2",
        1024,
        &[
            (0, VERSION_3),
            (15, b"\xc8\0\0\0\x07"),
            (23, b"\x09"),
            (30, b"\x08"),
            (39, b"\x01"),
            (46, b"\x02"),
            (99, b"\x04\0\0\0\x68"),
            (104, b"\xe2\x79\x2a\xca\0\0\0\x04luks"),
            (200, b"one.raw"),
        ],
    ),
    // Names that a protocol begins, one of them that of a file.
    (
        "file.qcow2",
        1024,
        &[
            (0, VERSION_2),
            (15, b"\xc8\0\0\0\x0c"),
            (23, b"\x09"),
            (30, b"\x08"),
            (39, b"\x01"),
            (46, b"\x02"),
            (200, b"file:one.raw"),
        ],
    ),
    (
        "json.qcow2",
        1024,
        &[
            (0, VERSION_2),
            (15, b"\xc8\0\0\0\x06"),
            (23, b"\x09"),
            (30, b"\x08"),
            (39, b"\x01"),
            (46, b"\x02"),
            (200, b"json:b"),
        ],
    ),
    (
        "above.qcow2",
        1024,
        &[
            (0, VERSION_2),
            (15, b"\xc8\0\0\0\x09"),
            (23, b"\x09"),
            (30, b"\x08"),
            (39, b"\x01"),
            (46, b"\x02"),
            (200, b"disk.vmdk"),
        ],
    ),
    // Above a file that begins as another format than its name says.
    (
        "trusting.qcow2",
        1024,
        &[
            (0, VERSION_2),
            (15, b"\xc8\0\0\0\x09"),
            (23, b"\x09"),
            (30, b"\x08"),
            (39, b"\x01"),
            (46, b"\x02"),
            (200, b"guest.raw"),
        ],
    ),
    ("guest.raw", 1024, &[(0, VERSION_2)]),
    // No L2 table.
    (
        "bare.qcow2",
        1024,
        &[
            (0, VERSION_2),
            (15, b"\xc8\0\0\0\x09"),
            (23, b"\x09"),
            (30, b"\x08"),
            (39, b"\x01"),
            (46, b"\x02"),
            (200, b"one.qcow2"),
        ],
    ),
    // The first entry has a bit that version 2 doesn't, two name 1536, and one passes the end.
    (
        "faulty.qcow2",
        2048,
        &[
            (0, VERSION_2),
            (23, b"\x09"),
            (30, b"\x08"),
            (39, b"\x01"),
            (46, b"\x02"),
            (518, b"\x04"),
            (1030, b"\x06\x01"),
            (1038, b"\x06"),
            (1046, b"\x06"),
            (1054, b"\x80"),
        ],
    ),
];

/// A host with the files, in which no file can be made.
pub fn files(alloc: Global) -> Result<MemoryHost, AllocError> {
    filled(alloc, MemoryHost::new(alloc, 0, false), &[])
}

/// A host with the files, in which new ones can be made.
pub fn copying(alloc: Global) -> Result<MemoryHost, AllocError> {
    filled(alloc, MemoryHost::new(alloc, 99, true), &[])
}

/// A host with the files and some more.
fn set_up(alloc: Global, case: &Case, more: &[PartsRow]) -> Result<MemoryHost, AllocError> {
    filled(
        alloc,
        MemoryHost::new(alloc, case.appends, case.finishes),
        more,
    )
}

/// A host, with the files and some more put into it.
fn filled(
    alloc: Global,
    mut host: MemoryHost,
    more: &[PartsRow],
) -> Result<MemoryHost, AllocError> {
    for (path, zeroes, bytes, nature) in &FILES {
        let mut whole = vec![in alloc; 0u8; *zeroes]?;
        whole.extend_from_slice(bytes)?;
        host.add(path, &whole, *nature)?;
    }
    for (path, length, parts) in PARTS.iter().chain(more) {
        host.add(path, &expected(alloc, *length, parts)?, Nature::Plain)?;
    }
    Ok(host)
}

/// The words of a command line.
pub fn words_of(alloc: Global, line: &str) -> Result<Vec<String>, AllocError> {
    let mut words = Vec::new(alloc);
    for word in line.split(' ') {
        words.push(String::from_str(alloc, word)?)?;
    }
    Ok(words)
}

/// The bytes that a new file is to have.
pub fn expected(
    alloc: Global,
    length: usize,
    parts: &[(usize, &[u8])],
) -> Result<Vec<u8>, AllocError> {
    let mut bytes = Vec::new(alloc);
    for (offset, part) in parts {
        bytes.resize(*offset, 0)?;
        bytes.extend_from_slice(part)?;
    }
    bytes.resize(length, 0)?;
    Ok(bytes)
}

/// Tries command lines, each on the files as they are at first.
pub fn check_cases(rt: &impl Abort, alloc: Global, cases: &[Case]) {
    check_cases_over(rt, alloc, &[], cases);
}

/// The same, where there are some more files.
pub fn check_cases_over(rt: &impl Abort, alloc: Global, more: &[PartsRow], cases: &[Case]) {
    for case in cases {
        check_case(rt, alloc, more, case);
    }
}

/// Tries a command line.
fn check_case(rt: &impl Abort, alloc: Global, more: &[PartsRow], case: &Case) {
    let words = case.words;
    let made = set_up(alloc, case, more);
    assert!(rt; made.is_ok(), "{words}");
    let Ok(mut host) = made else { return };
    let before = host.count();
    check_line(
        rt,
        alloc,
        &mut host,
        words,
        (case.status, case.output, case.errors),
    );
    check_files(rt, alloc, &host, case, before);
}

/// Tries a command line on files: its status, what it prints, and what it tells as errors.
pub fn check_line(
    rt: &impl Abort,
    alloc: Global,
    host: &mut MemoryHost,
    line: &str,
    wanted: (u8, &str, &str),
) {
    let made = words_of(alloc, line);
    assert!(rt; made.is_ok(), "{line}");
    let Ok(list) = made else { return };
    let mut output = Vec::new(alloc);
    let mut errors = Vec::new(alloc);
    let status = run_on(host, &list, &mut output, &mut errors);
    check_text(rt, line, &output, wanted.1);
    check_text(rt, line, &errors, wanted.2);
    assert_eq!(rt; status, wanted.0, "{line}");
}

/// Does what words ask for on files.
pub fn run_on<W: Write>(
    host: &mut MemoryHost,
    words: &[String],
    output: &mut W,
    errors: &mut Vec<u8>,
) -> u8 {
    let nothing = MemoryHost::new(host.alloc(), 0, false);
    let mut confined = Confined::new(mem::replace(host, nothing));
    let status = run(&mut confined, words, output, errors);
    *host = confined.host;
    status
}

/// What is printed is that text.
fn check_text(rt: &impl Abort, words: &str, printed: &[u8], wanted: &str) {
    let same = printed == wanted.as_bytes();
    assert!(rt; same, "{words}");
}

/// There are as many files as before, and the new one, if there is to be one.
fn check_files(rt: &impl Abort, alloc: Global, host: &MemoryHost, case: &Case, before: usize) {
    let words = case.words;
    assert_eq!(rt; host.unfinished(), 0, "{words}");
    let Some((length, parts)) = case.written else {
        assert_eq!(rt; host.count(), before, "{words}");
        return;
    };
    assert_eq!(rt; host.count(), before.saturating_add(1), "{words}");
    let wanted = expected(alloc, length, parts);
    assert!(rt; wanted.is_ok(), "{words}");
    if let (Some(bytes), Ok(wanted)) = (host.bytes("out.raw"), &wanted) {
        let same = bytes == wanted.as_slice();
        assert!(rt; same, "{words}");
    } else {
        panic!(rt; "{words}");
    }
}

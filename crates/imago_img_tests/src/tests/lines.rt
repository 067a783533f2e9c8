// SPDX-License-Identifier: MIT
//! Command lines: what is read of their words, and the line that tells why one is refused.

use super::set_up::{Case, check_cases, files, run_on, words_of};
use std::alloc::Global;
use std::io::{self, ErrorKind, Write};
use std::process::Abort;

/// A command line that makes no file, its status, its output, and what it tells as an error.
type Row = (&'static str, u8, &'static str, &'static str);

/// What `info --json plain.raw` prints.
const PLAIN: &str = "{ \"filename\": \"plain.raw\", \"format\": \"raw\", \"virtual-size\": 7, \
    \"actual-size\": 7, \"extents\": [] }\n";

/// What `info --help` prints.
const INFO: &str = "Describe an image

usage: imago-img info [-f FMT] [--output OFMT] [--json] [--backing-chain] [-U]
                      [--tables SIZE] [--max-size SIZE] [--strict]
                      [--allow-outside] [--alone] [-h] [-V] FILE

Options:
  -f, --format FMT      The image's format: raw, vmdk or qcow2
      --output OFMT     What is printed: human or json
      --json            The same as --output=json
      --backing-chain   Describe the backing files too
  -U, --force-share     Accepted and ignored: no file is locked
      --tables SIZE     The most memory for tables (256M): a size such as 64M
      --max-size SIZE   Refuse longer disks: a size such as 2T
      --strict          Refuse unknown keys of VMDK descriptors
      --allow-outside   Permit files outside the image's folder
      --alone           Open no other file, whatever an image names
  -h, --help            Print this help
  -V, --version         Print the version
";

/// What `--help` prints.
const HELP: &str = "Describe, list, check, compare, convert and make disk images

usage: imago-img COMMAND [OPTION..] FILE [FILE]

Commands:
  info     Describe an image
  map      List where the bytes of an image's disk are stored
  check    Look for errors in an image
  vet      Tell whether an image from a stranger is safe to hand on
  compare  Compare the disks of two images
  convert  Write an image's disk to another image
  create   Make a new image
  measure  Tell how long the file of a new image would be
  resize   Give a raw image another size

imago-img COMMAND --help prints the options of a command.
";

/// Command lines that are meant.
static MEANT: [Row; 23] = [
    // Options behind files, letters together, values of each form.
    ("info plain.raw --json", 0, PLAIN, ""),
    ("info --output=json plain.raw", 0, PLAIN, ""),
    ("info plain.raw --output json -fraw", 0, PLAIN, ""),
    ("info -U --output=human --json -- plain.raw", 0, PLAIN, ""),
    (
        "check -fqcow2 one.qcow2",
        0,
        "No errors were found on the image.\n",
        "",
    ),
    (
        "check -T none --tables=64k one.qcow2",
        0,
        "No errors were found on the image.\n",
        "",
    ),
    ("compare -pq other.raw longer.raw", 1, "", ""),
    ("compare other.raw longer.raw -qp", 1, "", ""),
    (
        "info -- --json",
        1,
        "",
        "imago-img: \"--json\": entity not found\n",
    ),
    // Each image has its own format.
    (
        "compare -f raw -F qcow2 one.raw one.qcow2",
        0,
        "Images are identical.\n",
        "",
    ),
    ("compare -q -Fraw -fqcow2 one.qcow2 one.raw", 0, "", ""),
    (
        "compare -f raw one.qcow2 one.qcow2",
        1,
        "Content mismatch at offset 0!\n",
        "",
    ),
    (
        "compare -F qcow2 one.raw one.raw",
        2,
        "",
        "imago-img: \"one.raw\": it isn't a qcow2 image, or ends within its header\n",
    ),
    // Whether sizes count.
    (
        "compare -s plain.raw longer.raw",
        1,
        "Strict mode: Image size mismatch!\n",
        "",
    ),
    ("compare -qs plain.raw longer.raw", 1, "", ""),
    (
        "compare -s one.qcow2 one.raw",
        0,
        "Images are identical.\n",
        "",
    ),
    (
        "compare -s plain.raw other.raw",
        1,
        "Content mismatch at offset 6!\n",
        "",
    ),
    // Help, and the version.
    ("--help", 0, HELP, ""),
    ("-h", 0, HELP, ""),
    ("info -h", 0, INFO, ""),
    ("info --help plain.raw", 0, INFO, ""),
    ("--version", 0, "imago-img 0.2.0\n", ""),
    ("compare -V", 0, "imago-img 0.2.0\n", ""),
];

/// Command lines that aren't.
static REFUSED: [Row; 22] = [
    (
        "",
        1,
        "",
        "imago-img: \"\" isn't a command of imago-img; see imago-img --help\n",
    ),
    (
        "copy a.bin",
        1,
        "",
        "imago-img: \"copy\" isn't a command of imago-img; see imago-img --help\n",
    ),
    (
        "convrt plain.raw out.raw",
        1,
        "",
        "imago-img: \"convrt\" isn't a command of imago-img (did you mean convert?); see \
         imago-img --help\n",
    ),
    (
        "snapshot -l one.qcow2",
        1,
        "",
        "imago-img: \"snapshot\" isn't a command of imago-img: snapshots aren't read; each disk is \
         read as it is now; see imago-img --help\n",
    ),
    (
        "\x1b[31m plain.raw",
        1,
        "",
        "imago-img: \"\\u{1b}[31m\" isn't a command of imago-img; see imago-img --help\n",
    ),
    (
        "info",
        1,
        "",
        "imago-img: info takes FILE; a file is missing; see imago-img info --help\n",
    ),
    (
        "info plain.raw \x1b[31m",
        1,
        "",
        "imago-img: info takes FILE; \"\\u{1b}[31m\" is one file too many; see imago-img info \
         --help\n",
    ),
    (
        "convert a.bin b.raw c.raw",
        1,
        "",
        "imago-img: convert takes FILE OUT; \"c.raw\" is one file too many; see imago-img convert \
         --help\n",
    ),
    (
        "info --force a.bin",
        1,
        "",
        "imago-img: info has no option \"--force\" (did you mean --force-share?); see imago-img \
         info --help\n",
    ),
    (
        "compare --json a.bin b.bin",
        2,
        "",
        "imago-img: compare has no option \"--json\"; see imago-img compare --help\n",
    ),
    (
        "map --verbose a.bin",
        1,
        "",
        "imago-img: map has no option \"--verbose\"; see imago-img map --help\n",
    ),
    (
        "info --jsn plain.raw",
        1,
        "",
        "imago-img: info has no option \"--jsn\" (did you mean --json?); see imago-img info \
         --help\n",
    ),
    (
        "info -f qed a.bin",
        1,
        "",
        "imago-img: -f takes raw, vmdk or qcow2, not \"qed\"; see imago-img info --help\n",
    ),
    (
        "info -f",
        1,
        "",
        "imago-img: -f takes raw, vmdk or qcow2, which is missing; see imago-img info --help\n",
    ),
    (
        "check --output=qcow2 plain.raw",
        1,
        "",
        "imago-img: --output takes human or json, not \"qcow2\"; see imago-img check --help\n",
    ),
    (
        "convert -O vmdk plain.raw out.raw",
        1,
        "",
        "imago-img: -O takes raw or qcow2, not \"vmdk\"; see imago-img convert --help\n",
    ),
    (
        "convert -c plain.raw out.raw",
        1,
        "",
        "imago-img: convert has no -c: OUT isn't compressed; see imago-img convert --help\n",
    ),
    (
        "convert -n plain.raw",
        1,
        "",
        "imago-img: convert takes FILE OUT; a file is missing; see imago-img convert --help\n",
    ),
    (
        "convert -S 64k plain.raw out.raw",
        1,
        "",
        "imago-img: -S takes 0 or 4k, not \"64k\"; see imago-img convert --help\n",
    ),
    // Of a comparison, 1 tells that the disks differ, and nothing else.
    (
        "compare plain.raw",
        2,
        "",
        "imago-img: compare takes A B; a file is missing; see imago-img compare --help\n",
    ),
    (
        "compare --json plain.raw other.raw",
        2,
        "",
        "imago-img: compare has no option \"--json\"; see imago-img compare --help\n",
    ),
    (
        "compare -F vdi plain.raw other.raw",
        2,
        "",
        "imago-img: -F takes raw, vmdk or qcow2, not \"vdi\"; see imago-img compare --help\n",
    ),
];

#[test]
fn meant_lines_are_done(rt: HostRuntime) {
    for row in &MEANT {
        check_row(&rt, rt.alloc(), row);
    }
}

#[test]
fn other_lines_are_refused_in_one_line(rt: HostRuntime) {
    for row in &REFUSED {
        check_row(&rt, rt.alloc(), row);
    }
}

/// Tries a command line.
fn check_row(rt: &impl Abort, alloc: Global, row: &Row) {
    let (words, status, output, errors) = row;
    check_cases(
        rt,
        alloc,
        &[Case {
            words,
            appends: 99,
            finishes: true,
            status: *status,
            output,
            errors,
            written: None,
        }],
    );
}

/// An output that can't be written.
#[derive(Drop)]
struct Broken;

impl Write for Broken {
    fn write(&mut self, _buf: &[u8]) -> io::Result<usize> {
        Err(io::Error::from(ErrorKind::BrokenPipe))
    }

    fn flush(&mut self) -> io::Result<()> {
        Ok(())
    }
}

/// The status of a command line whose output can't be written.
fn check_unwritten(rt: &impl Abort, alloc: Global, line: &str, wanted: u8) {
    let (made, list) = (files(alloc), words_of(alloc, line));
    assert!(rt; made.is_ok() && list.is_ok(), "{line}");
    let (Ok(mut host), Ok(list)) = (made, list) else {
        return
    };
    let mut errors = Vec::new(alloc);
    let status = run_on(&mut host, &list, &mut Broken, &mut errors);
    assert_eq!(rt; status, wanted, "{line}");
    let told = errors.starts_with(b"imago-img: the output can't be written: ");
    assert!(rt; told, "{line}");
}

#[test]
fn an_output_that_fails_isnt_told_as_a_difference(rt: HostRuntime) {
    for (line, wanted) in [
        ("compare -h", 2),
        ("compare -V", 2),
        ("compare plain.raw other.raw", 2),
        ("info -h", 1),
        ("-h", 1),
        ("map plain.raw", 1),
    ] {
        check_unwritten(&rt, rt.alloc(), line, wanted);
    }
}

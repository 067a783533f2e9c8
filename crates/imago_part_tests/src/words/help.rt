// SPDX-License-Identifier: MIT
//! What help prints.

use super::set_up::{Case, check_cases};

static CASES: [Case; 17] = [
    Case {
        words: &["--help"],
        status: 0,
        text: GENERAL,
    },
    Case {
        words: &["-h"],
        status: 0,
        text: GENERAL,
    },
    Case {
        words: &["info", "--help"],
        status: 0,
        text: INFO,
    },
    Case {
        words: &["map", "-h"],
        status: 0,
        text: MAP,
    },
    Case {
        words: &["check", "x", "-h"],
        status: 0,
        text: CHECK,
    },
    Case {
        words: &["vet", "-h"],
        status: 0,
        text: VET,
    },
    Case {
        words: &["compare", "-Vh"],
        status: 0,
        text: COMPARE,
    },
    Case {
        words: &["convert", "-h"],
        status: 0,
        text: CONVERT,
    },
    Case {
        words: &["create", "-h"],
        status: 0,
        text: CREATE,
    },
    Case {
        words: &["measure", "-h"],
        status: 0,
        text: MEASURE,
    },
    Case {
        words: &["resize", "-h"],
        status: 0,
        text: RESIZE,
    },
    // What -o may say, whatever else is said. No file is needed, and any number is one.
    Case {
        words: &["create", "-f", "qcow2", "-o", "help"],
        status: 0,
        text: QCOW2_SETTINGS,
    },
    Case {
        words: &[
            "convert",
            "-Oqcow2",
            "-ocluster_size=3k,?,compat=9",
            "a",
            "-S8k",
        ],
        status: 0,
        text: QCOW2_SETTINGS,
    },
    Case {
        words: &[
            "measure", "-O", "qcow2", "-o", "help", "-o", "no=1", "a", "b", "c",
        ],
        status: 0,
        text: QCOW2_SETTINGS,
    },
    Case {
        words: &["create", "-o", "help", "-b", "base", "a", "1G"],
        status: 0,
        text: "There are no options for raw.\n",
    },
    // The help of the command and the version beat it.
    Case {
        words: &["create", "-o", "help", "-h"],
        status: 0,
        text: CREATE,
    },
    Case {
        words: &["convert", "-Oqcow2", "-ohelp", "-V"],
        status: 0,
        text: "imago-img 0.2.0",
    },
];

const QCOW2_SETTINGS: &str = "Supported qcow2 options:
  cluster_size=<size>    - Cluster size: a power of two, 512 to 2M (default 64k)
  compat=<str>           - Format version: 0.10 or v2, 1.1 or v3 (default 1.1)
  compression_type=<str> - Only zlib is accepted
  extended_l2=<bool (on/off)> - Only off is accepted
  lazy_refcounts=<bool (on/off)> - Only off is accepted
  preallocation=<str>    - off or metadata: all tables are written (default off)
  refcount_bits=<num>    - Only 16 is accepted
";

const GENERAL: &str = "Describe, list, check, compare, convert and make disk images

usage: imago-img COMMAND [OPTION..] FILE [FILE]

Commands:
  info     Describe an image
  map      List where the bytes of an image's disk are stored
  check    Look for errors in an image
  vet      Tell whether an image from a stranger is safe to hand on
  compare  Compare the disks of two images
  convert  Write an image's disk to another image
  create   Make a new image
  measure  Tell how long the file of a new image would be
  resize   Give a raw image another size

imago-img COMMAND --help prints the options of a command.
";

const INFO: &str = "Describe an image

usage: imago-img info [-f FMT] [--output OFMT] [--json] [--backing-chain] [-U]
                      [--tables SIZE] [--max-size SIZE] [--strict]
                      [--allow-outside] [--alone] [-h] [-V] FILE

Options:
  -f, --format FMT      The image's format: raw, vmdk or qcow2
      --output OFMT     What is printed: human or json
      --json            The same as --output=json
      --backing-chain   Describe the backing files too
  -U, --force-share     Accepted and ignored: no file is locked
      --tables SIZE     The most memory for tables (256M): a size such as 64M
      --max-size SIZE   Refuse longer disks: a size such as 2T
      --strict          Refuse unknown keys of VMDK descriptors
      --allow-outside   Permit files outside the image's folder
      --alone           Open no other file, whatever an image names
  -h, --help            Print this help
  -V, --version         Print the version
";

const MAP: &str = "List where the bytes of an image's disk are stored

usage: imago-img map [-f FMT] [--output OFMT] [--json] [-U] [--tables SIZE]
                     [--max-size SIZE] [--strict] [--allow-outside] [--alone]
                     [-h] [-V] FILE

Options:
  -f, --format FMT      The image's format: raw, vmdk or qcow2
      --output OFMT     What is printed: human or json
      --json            The same as --output=json
  -U, --force-share     Accepted and ignored: no file is locked
      --tables SIZE     The most memory for tables (256M): a size such as 64M
      --max-size SIZE   Refuse longer disks: a size such as 2T
      --strict          Refuse unknown keys of VMDK descriptors
      --allow-outside   Permit files outside the image's folder
      --alone           Open no other file, whatever an image names
  -h, --help            Print this help
  -V, --version         Print the version
";

const CHECK: &str = "Look for errors in an image

usage: imago-img check [-f FMT] [--output OFMT] [--json] [-U] [-T CACHE]
                       [--tables SIZE] [--max-size SIZE] [--strict]
                       [--allow-outside] [--alone] [-h] [-V] FILE

Options:
  -f, --format FMT      The image's format: raw, vmdk or qcow2
      --output OFMT     What is printed: human or json
      --json            The same as --output=json
  -U, --force-share     Accepted and ignored: no file is locked
  -T CACHE              Accepted and ignored
      --tables SIZE     The most memory for tables (256M): a size such as 64M
      --max-size SIZE   Refuse longer disks: a size such as 2T
      --strict          Refuse unknown keys of VMDK descriptors
      --allow-outside   Permit files outside the image's folder
      --alone           Open no other file, whatever an image names
  -h, --help            Print this help
  -V, --version         Print the version
";

const VET: &str = "Tell whether an image from a stranger is safe to hand on

usage: imago-img vet [-f FMT] [--output OFMT] [--json] [-U] [--tables SIZE]
                     [--max-size SIZE] [--strict] [--alone] [-h] [-V] FILE

Options:
  -f, --format FMT      The image's format: raw, vmdk or qcow2
      --output OFMT     What is printed: human or json
      --json            The same as --output=json
  -U, --force-share     Accepted and ignored: no file is locked
      --tables SIZE     The most memory for tables (256M): a size such as 64M
      --max-size SIZE   Refuse longer disks: a size such as 2T
      --strict          Refuse unknown keys of VMDK descriptors
      --alone           Accepted and ignored: no other file is opened
  -h, --help            Print this help
  -V, --version         Print the version
";

const COMPARE: &str = "Compare the disks of two images

usage: imago-img compare [-f FMT] [-F FMT] [-s] [-p] [-q] [-U] [-T CACHE]
                         [--tables SIZE] [--max-size SIZE] [--strict]
                         [--allow-outside] [--alone] [-h] [-V] A B

Options:
  -f FMT                The format of the first image: raw, vmdk or qcow2
  -F FMT                The format of the second image: raw, vmdk or qcow2
  -s                    Disks of different sizes are different
  -p                    Accepted and ignored
  -q, --quiet           Print nothing but errors
  -U, --force-share     Accepted and ignored: no file is locked
  -T CACHE              Accepted and ignored
      --tables SIZE     The most memory for tables (256M): a size such as 64M
      --max-size SIZE   Refuse longer disks: a size such as 2T
      --strict          Refuse unknown keys of VMDK descriptors
      --allow-outside   Permit files outside the image's folder
      --alone           Open no other file, whatever an image names
  -h, --help            Print this help
  -V, --version         Print the version
";

const CONVERT: &str = "Write an image's disk to another image

usage: imago-img convert [-f FMT] [-O FMT] [-o OPT=V] [--force] [-n] [-S SIZE]
                         [-p] [-q] [-U] [-t CACHE] [-T CACHE] [-m N] [-W] [-C]
                         [-r RATE] [--tables SIZE] [--max-size SIZE] [--strict]
                         [--allow-outside] [--alone] [-h] [-V] FILE OUT

Options:
  -f FMT                The format of FILE: raw, vmdk or qcow2
  -O FMT                The format of OUT: raw or qcow2
  -o OPT=V              Options of OUT, with commas between; -o help lists them
      --force           Replace OUT if it exists
  -n                    Write into OUT, which exists
  -S SIZE               How many zeroes make a hole, 0 for none: 0 or 4k
  -p                    Show the progress
  -q, --quiet           Print nothing but errors
  -U, --force-share     Accepted and ignored: no file is locked
  -t CACHE              Accepted and ignored
  -T CACHE              Accepted and ignored
  -m N                  Accepted and ignored
  -W                    Accepted and ignored
  -C                    Accepted and ignored
  -r RATE               Accepted and ignored
      --tables SIZE     The most memory for tables (256M): a size such as 64M
      --max-size SIZE   Refuse longer disks: a size such as 2T
      --strict          Refuse unknown keys of VMDK descriptors
      --allow-outside   Permit files outside the image's folder
      --alone           Open no other file, whatever an image names
  -h, --help            Print this help
  -V, --version         Print the version
";

const CREATE: &str = "Make a new image

usage: imago-img create [-f FMT] [-o OPT=V] [-b FILE] [-F FMT] [--force] [-q]
                        [--tables SIZE] [--max-size SIZE] [--strict]
                        [--allow-outside] [--alone] [-h] [-V] OUT [SIZE]

Options:
  -f FMT                The format of OUT: raw or qcow2
  -o OPT=V              Options of OUT, with commas between; -o help lists them
  -b FILE               The backing file, by its name from OUT's folder
  -F FMT                The format of the backing file: raw, vmdk or qcow2
      --force           Replace OUT if it exists
  -q, --quiet           Print nothing but errors
      --tables SIZE     The most memory for tables (256M): a size such as 64M
      --max-size SIZE   Refuse longer disks: a size such as 2T
      --strict          Refuse unknown keys of VMDK descriptors
      --allow-outside   Permit files outside the image's folder
      --alone           Open no other file, whatever an image names
  -h, --help            Print this help
  -V, --version         Print the version
";

const MEASURE: &str = "Tell how long the file of a new image would be

usage: imago-img measure [-f FMT] [-O FMT] [-o OPT=V] [--size SIZE]
                         [--output OFMT] [--json] [-U] [--tables SIZE]
                         [--max-size SIZE] [--strict] [--allow-outside]
                         [--alone] [-h] [-V] FILE, or --size SIZE in its place

Options:
  -f FMT                The format of FILE: raw, vmdk or qcow2
  -O FMT                The format of OUT: raw or qcow2
  -o OPT=V              Options of OUT, with commas between; -o help lists them
      --size SIZE       Measure an empty disk: a size such as 64M
      --output OFMT     What is printed: human or json
      --json            The same as --output=json
  -U, --force-share     Accepted and ignored: no file is locked
      --tables SIZE     The most memory for tables (256M): a size such as 64M
      --max-size SIZE   Refuse longer disks: a size such as 2T
      --strict          Refuse unknown keys of VMDK descriptors
      --allow-outside   Permit files outside the image's folder
      --alone           Open no other file, whatever an image names
  -h, --help            Print this help
  -V, --version         Print the version
";

const RESIZE: &str = "Give a raw image another size

usage: imago-img resize [-f FMT] [--shrink] [-q] [--alone] [-h] [-V]
                        FILE [+|-]SIZE

Options:
  -f, --format FMT      The image's format: raw, vmdk or qcow2
      --shrink          Permit a smaller size: the rest is lost
  -q, --quiet           Print nothing but errors
      --alone           Accepted and ignored: no other file is opened
  -h, --help            Print this help
  -V, --version         Print the version
";

#[test]
fn help(rt: HostRuntime) {
    check_cases(&rt, rt.alloc(), &CASES);
}

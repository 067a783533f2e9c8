// SPDX-License-Identifier: MIT
//! Command lines that are refused: each in one line, which quotes words and ends with help.

use super::set_up::{Case, check_cases};

static CASES: [Case; 54] = [
    Case {
        words: &[],
        status: 1,
        text: "no command is named; see imago-img --help",
    },
    Case {
        words: &["inf", "x"],
        status: 1,
        text: "\"inf\" isn't a command of imago-img (did you mean info?); see imago-img --help",
    },
    Case {
        words: &["xyzzy"],
        status: 1,
        text: "\"xyzzy\" isn't a command of imago-img; see imago-img --help",
    },
    Case {
        words: &["--strict", "info", "x"],
        status: 1,
        text: "\"--strict\" isn't a command of imago-img; see imago-img --help",
    },
    Case {
        words: &["\x1b[31m\n"],
        status: 1,
        text: "\"\\u{1b}[31m\\n\" isn't a command of imago-img; see imago-img --help",
    },
    Case {
        words: &["snapshot", "x"],
        status: 1,
        text: "\"snapshot\" isn't a command of imago-img: snapshots aren't read; each disk is \
            read as it is now; see imago-img --help",
    },
    Case {
        words: &["resize", "x"],
        status: 1,
        text: "resize takes FILE [+|-]SIZE; one of them is missing; see imago-img resize --help",
    },
    Case {
        words: &["resize", "x", "+-1G"],
        status: 1,
        text: "\"+-1G\" isn't a size such as 64M; see imago-img resize --help",
    },
    Case {
        words: &["resize", "--preallocation", "full", "x", "1G"],
        status: 1,
        text: "resize has no --preallocation: what is added is a hole, which reads as zeroes; \
            see imago-img resize --help",
    },
    Case {
        words: &["dd", "if=x", "of=y"],
        status: 1,
        text: "\"dd\" isn't a command of imago-img: convert writes the whole disk; \
            see imago-img --help",
    },
    Case {
        words: &["info", "--jsn", "x"],
        status: 1,
        text: "info has no option \"--jsn\" (did you mean --json?); see imago-img info --help",
    },
    Case {
        words: &["info", "-json", "x"],
        status: 1,
        text: "info has no option \"-json\" (did you mean --json?); see imago-img info --help",
    },
    Case {
        words: &["info", "--zzz=1", "x"],
        status: 1,
        text: "info has no option \"--zzz=1\"; see imago-img info --help",
    },
    Case {
        words: &["info", "-Ux", "x"],
        status: 1,
        text: "info has no option \"-Ux\"; see imago-img info --help",
    },
    Case {
        words: &["info", "-ä", "x"],
        status: 1,
        text: "info has no option \"-ä\"; see imago-img info --help",
    },
    Case {
        words: &["info", "-\x07", "x"],
        status: 1,
        text: "info has no option \"-\\u{7}\"; see imago-img info --help",
    },
    Case {
        words: &["info", "--=raw", "x"],
        status: 1,
        text: "info has no option \"--=raw\"; see imago-img info --help",
    },
    Case {
        words: &["info", "--target-format", "raw", "x"],
        status: 1,
        text: "info has no option \"--target-format\"; \
            see imago-img info --help",
    },
    Case {
        words: &["vet", "--allow-outside", "x"],
        status: 1,
        text: "vet has no option \"--allow-outside\"; see imago-img vet --help",
    },
    Case {
        words: &["check", "-r", "all", "x"],
        status: 1,
        text: "check has no -r: errors are reported, not repaired; see imago-img check --help",
    },
    Case {
        words: &["check", "-Ur", "x"],
        status: 1,
        text: "check has no -r: errors are reported, not repaired; see imago-img check --help",
    },
    Case {
        words: &["check", "--output=qcow2", "x"],
        status: 1,
        text: "--output takes human or json, not \"qcow2\"; see imago-img check --help",
    },
    Case {
        words: &["map", "--object=secret,id=0", "x"],
        status: 1,
        text: "map has no --object: encrypted images aren't read; see imago-img map --help",
    },
    Case {
        words: &["convert", "-qc", "a", "b"],
        status: 1,
        text: "convert has no -c: OUT isn't compressed; see imago-img convert --help",
    },
    Case {
        words: &["convert", "-O", "vmdk", "a", "b"],
        status: 1,
        text: "-O takes raw or qcow2, not \"vmdk\"; see imago-img convert --help",
    },
    Case {
        words: &["convert", "-o", "compat=1.1", "a", "b"],
        status: 1,
        text: "a raw file has no options, so -o doesn't go with it; see imago-img convert --help",
    },
    Case {
        words: &["convert", "-nO", "qcow2", "a", "b"],
        status: 1,
        text: "-n writes over the bytes of a raw disk; -O qcow2 makes a new file; \
            see imago-img convert --help",
    },
    Case {
        words: &["convert", "-Oqcow2", "-o", "backing_file=c", "a", "b"],
        status: 1,
        text: "-o \"backing_file=c\": create -b FILE -F FMT names the backing file; \
            see imago-img convert --help",
    },
    Case {
        words: &[
            "convert",
            "-Oqcow2",
            "-o",
            "lazy_refcounts=off,refcount_bits=1",
            "a",
            "b",
        ],
        status: 1,
        text: "-o \"refcount_bits=1\": it has to be 16; see imago-img convert --help",
    },
    Case {
        words: &["create", "-fqcow2", "-o", "cluster_size=3k", "a", "1G"],
        status: 1,
        text: "-o takes compat=0.10 or 1.1, cluster_size=512 to 2M and preallocation=off or \
            metadata, not \"cluster_size=3k\"; see imago-img create --help",
    },
    Case {
        words: &["create", "-fqcow2", "-o", "compat=1.1,", "a", "1G"],
        status: 1,
        text: "-o takes compat=0.10 or 1.1, cluster_size=512 to 2M and preallocation=off or \
            metadata, not \"\"; see imago-img create --help",
    },
    // Help on -o is asked for by that word alone, and of a format that can be made.
    Case {
        words: &["create", "-fqcow2", "-o", "help=1", "a", "1G"],
        status: 1,
        text: "-o takes compat=0.10 or 1.1, cluster_size=512 to 2M and preallocation=off or \
            metadata, not \"help=1\"; see imago-img create --help",
    },
    Case {
        words: &["convert", "-O", "vmdk", "-o", "help"],
        status: 1,
        text: "-O takes raw or qcow2, not \"vmdk\"; see imago-img convert --help",
    },
    Case {
        words: &["info", "-o", "help", "a"],
        status: 1,
        text: "info has no option \"-o\"; see imago-img info --help",
    },
    Case {
        words: &["create", "-fqcow2", "-b", "base", "a"],
        status: 1,
        text: "-b FILE takes -F FMT too, the format of FILE; see imago-img create --help",
    },
    Case {
        words: &["create", "-fqcow2", "-F", "raw", "a", "1G"],
        status: 1,
        text: "-F is the format of -b FILE, which is missing; see imago-img create --help",
    },
    Case {
        words: &["create", "-b", "base", "-F", "raw", "a"],
        status: 1,
        text: "a raw file has no backing file; say -f qcow2; see imago-img create --help",
    },
    Case {
        words: &[
            "create",
            "-fqcow2",
            "-opreallocation=metadata",
            "-bx",
            "-Fraw",
            "a",
        ],
        status: 1,
        text: "preallocation=metadata leaves nothing to a backing file; \
            see imago-img create --help",
    },
    Case {
        words: &["create", "a"],
        status: 1,
        text: "create takes OUT [SIZE]; one of them is missing; see imago-img create --help",
    },
    Case {
        words: &["create", "a", "b"],
        status: 1,
        text: "\"b\" isn't a size such as 64M; see imago-img create --help",
    },
    Case {
        words: &["measure", "--size", "1G", "a"],
        status: 1,
        text: "measure takes FILE, or --size SIZE in its place; \"a\" is one file too many; \
            see imago-img measure --help",
    },
    Case {
        words: &["convert", "-f", "vdi", "a", "b"],
        status: 1,
        text: "-f takes raw, vmdk or qcow2, not \"vdi\"; see imago-img convert --help",
    },
    Case {
        words: &["convert", "-S", "8k", "a", "b"],
        status: 1,
        text: "-S takes 0 or 4k, not \"8k\"; see imago-img convert --help",
    },
    Case {
        words: &["map", "--tables=8E", "x"],
        status: 1,
        text: "--tables takes a size such as 64M, not \"8E\"; see imago-img map --help",
    },
    Case {
        words: &["map", "--tables", "+1", "x"],
        status: 1,
        text: "--tables takes a size such as 64M, not \"+1\"; see imago-img map --help",
    },
    Case {
        words: &["info", "x", "-f"],
        status: 1,
        text: "-f takes raw, vmdk or qcow2, which is missing; see imago-img info --help",
    },
    Case {
        words: &["convert", "a", "b", "-m"],
        status: 1,
        text: "-m takes N, which is missing; see imago-img convert --help",
    },
    Case {
        words: &["info", "--json=yes", "x"],
        status: 1,
        text: "--json takes no value; see imago-img info --help",
    },
    Case {
        words: &["info"],
        status: 1,
        text: "info takes FILE; a file is missing; see imago-img info --help",
    },
    Case {
        words: &["convert", "a"],
        status: 1,
        text: "convert takes FILE OUT; a file is missing; see imago-img convert --help",
    },
    Case {
        words: &["info", "a", "b\x1b[31m"],
        status: 1,
        text: "info takes FILE; \"b\\u{1b}[31m\" is one file too many; see imago-img info --help",
    },
    Case {
        words: &["compare", "a", "b", "c"],
        status: 2,
        text: "compare takes A B; \"c\" is one file too many; see imago-img compare --help",
    },
    Case {
        words: &["compare", "--image-opts", "a", "b"],
        status: 2,
        text: "compare has no --image-opts: name the file by its path, and its format by -f; \
            see imago-img compare --help",
    },
    Case {
        words: &["compare", "--format", "raw", "a", "b"],
        status: 2,
        text: "compare has no --format: -f takes the format of A, and -F that of B; \
            see imago-img compare --help",
    },
];

#[test]
fn refused(rt: HostRuntime) {
    check_cases(&rt, rt.alloc(), &CASES);
}

// SPDX-License-Identifier: MIT
//! Command lines that are commands.

use super::set_up::{Case, check_cases};

static CASES: [Case; 36] = [
    Case {
        words: &["info", "disk.vmdk"],
        status: 0,
        text: "info \"disk.vmdk\" any human",
    },
    Case {
        words: &["info", "-f", "qcow2", "--output=json", "-U", "disk"],
        status: 0,
        text: "info \"disk\" qcow2 json",
    },
    Case {
        words: &["info", "disk", "--json", "--strict", "--allow-outside"],
        status: 0,
        text: "info \"disk\" any json strict outside",
    },
    Case {
        words: &["info", "--backing-chain", "disk"],
        status: 0,
        text: "info \"disk\" any human chain",
    },
    // No other file is opened, whatever is said.
    Case {
        words: &[
            "vet",
            "--max-size=2T",
            "--alone",
            "-fqcow2",
            "--json",
            "disk",
        ],
        status: 0,
        text: "vet \"disk\" qcow2 json alone",
    },
    // The last of several values counts.
    Case {
        words: &[
            "info",
            "-fraw",
            "--format=vmdk",
            "--output",
            "json",
            "--output=human",
            "disk",
        ],
        status: 0,
        text: "info \"disk\" vmdk human",
    },
    Case {
        words: &["map", "--tables=1M", "--tables", "64k", "disk"],
        status: 0,
        text: "map \"disk\" any human tables 65536",
    },
    Case {
        words: &["map", "--tables=7E", "-f", "raw", "disk"],
        status: 0,
        text: "map \"disk\" raw human tables 8070450532247928832",
    },
    Case {
        words: &["check", "--output=human", "-T", "none", "--", "-h"],
        status: 0,
        text: "check \"-h\" any human",
    },
    Case {
        words: &["check", "-", "--force-share"],
        status: 0,
        text: "check \"-\" any human",
    },
    Case {
        words: &["check", "--output=json", "x"],
        status: 0,
        text: "check \"x\" any json",
    },
    Case {
        words: &["compare", "a", "b"],
        status: 0,
        text: "compare \"a\" any \"b\" any",
    },
    Case {
        words: &[
            "compare", "-pqsf", "raw", "-Fqcow2", "-Uqp", "a", "-T", "none", "b", "--strict",
        ],
        status: 0,
        text: "compare \"a\" raw \"b\" qcow2 same-size progress quiet strict",
    },
    Case {
        words: &["compare", "--quiet", "--", "-a", "--quiet"],
        status: 0,
        text: "compare \"-a\" any \"--quiet\" any quiet",
    },
    Case {
        words: &["convert", "disk.qcow2", "disk.raw"],
        status: 0,
        text: "convert \"disk.qcow2\" any \"disk.raw\" raw",
    },
    Case {
        words: &["convert", "-pf", "vmdk", "-O", "raw", "--force", "a", "b"],
        status: 0,
        text: "convert \"a\" vmdk \"b\" raw force progress",
    },
    Case {
        words: &["convert", "-pn", "a", "b"],
        status: 0,
        text: "convert \"a\" any \"b\" raw existing progress",
    },
    // Zeroes are written too, or left out as holes, as they are if nothing is said.
    Case {
        words: &["convert", "-S4k", "-S", "0", "a", "b"],
        status: 0,
        text: "convert \"a\" any \"b\" raw full",
    },
    Case {
        words: &["convert", "-S", "0", "-S", "4096", "a", "b"],
        status: 0,
        text: "convert \"a\" any \"b\" raw",
    },
    // What only tunes is accepted.
    Case {
        words: &[
            "convert", "-t", "none", "-Tnone", "-m8", "-WC", "-r", "1M", "-U", "a", "b",
        ],
        status: 0,
        text: "convert \"a\" any \"b\" raw",
    },
    // A qcow2 target, with what all `-o` together say: the last of a name counts.
    Case {
        words: &["convert", "-O", "qcow2", "a", "b"],
        status: 0,
        text: "convert \"a\" any \"b\" qcow2 Three 16",
    },
    Case {
        words: &[
            "convert",
            "-Oqcow2",
            "-ocompat=0.10,cluster_size=4k,preallocation=metadata",
            "-o",
            "cluster_size=2M,compat=v2,lazy_refcounts=off,refcount_bits=16",
            "-o",
            "extended_l2=off,compression_type=zlib",
            "a",
            "b",
        ],
        status: 0,
        text: "convert \"a\" any \"b\" qcow2 Two 21 tables",
    },
    Case {
        words: &["create", "-f", "qcow2", "-o", "compat=1.1", "x", "1G"],
        status: 0,
        text: "create \"x\" qcow2 Three 16 Some(1073741824)",
    },
    Case {
        words: &[
            "create", "-fqcow2", "-b", "base", "-F", "raw", "x", "--force", "-q",
        ],
        status: 0,
        text: "create \"x\" qcow2 Three 16 over \"base\" raw None force quiet",
    },
    Case {
        words: &["create", "x", "0"],
        status: 0,
        text: "create \"x\" raw Some(0)",
    },
    Case {
        words: &[
            "measure",
            "-O",
            "qcow2",
            "-o",
            "cluster_size=512",
            "x",
            "--json",
        ],
        status: 0,
        text: "measure \"x\" any qcow2 Three 9 json",
    },
    Case {
        words: &["measure", "--size", "5M", "-fraw"],
        status: 0,
        text: "measure 5242880 raw raw human",
    },
    Case {
        words: &["resize", "-fraw", "x", "+1G"],
        status: 0,
        text: "resize \"x\" raw More(1073741824)",
    },
    Case {
        words: &["resize", "x", "-1k", "-q", "--shrink"],
        status: 0,
        text: "resize \"x\" any Fewer(1024) shrink quiet",
    },
    Case {
        words: &["resize", "--format=qcow2", "x", "513"],
        status: 0,
        text: "resize \"x\" qcow2 Said(513)",
    },
    // A negative number is a file's name, since no option is a digit.
    Case {
        words: &["convert", "-q", "-1", "-9"],
        status: 0,
        text: "convert \"-1\" any \"-9\" raw quiet",
    },
    Case {
        words: &["-V"],
        status: 0,
        text: "imago-img 0.2.0",
    },
    Case {
        words: &["--version", "more"],
        status: 0,
        text: "imago-img 0.2.0",
    },
    Case {
        words: &["convert", "-V"],
        status: 0,
        text: "imago-img 0.2.0",
    },
    Case {
        words: &["check", "--version"],
        status: 0,
        text: "imago-img 0.2.0",
    },
    // An empty word is a file.
    Case {
        words: &["info", ""],
        status: 0,
        text: "info \"\" any human",
    },
];

#[test]
fn accepted(rt: HostRuntime) {
    check_cases(&rt, rt.alloc(), &CASES);
}

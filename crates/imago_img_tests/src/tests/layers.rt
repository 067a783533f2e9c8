// SPDX-License-Identifier: MIT
//! Which layer has what, in chains of images that `qemu-img` 7.2 made.
//!
//! The files are those of these commands, and the lines those of `qemu-img map --output=json`, with
//! the names of the files, which it leaves out.
//!
//! ```text
//! qemu-img create -f qcow2 -o cluster_size=512 low.qcow2 3k
//! qemu-io -f qcow2 -c "write -P 0x62 0 512" -c "write -z 512 512" -c "write -P 0x62 1536 512" \
//!     -c "discard 1536 512" -c "write -P 0x42 2k 512" low.qcow2
//! qemu-img create -f qcow2 -o cluster_size=512 -b low.qcow2 -F qcow2 middle.qcow2 5k
//! qemu-io -f qcow2 -c "write -z 3k 512" -c "write -P 0x6d 3584 512" middle.qcow2
//! qemu-img create -f qcow2 -o cluster_size=512 -b middle.qcow2 -F qcow2 high.qcow2 4k
//! qemu-io -f qcow2 -c "write -z 1k 512" -c "write -P 0x74 2560 512" high.qcow2
//! qemu-img create -f qcow2 -o cluster_size=512,compat=0.10 -b low.qcow2 -F qcow2 old.qcow2 4k
//! qemu-io -f qcow2 -c "write -P 0x6f 512 512" -c "write -P 0x6f 2k 512" -c "discard 2k 512" \
//!     old.qcow2
//! qemu-img create -f qcow2 -o cluster_size=512 -b data.raw -F raw on_raw.qcow2 3k
//! ```

use super::set_up::{Case, PartsRow, VERSION_2, VERSION_3, check_cases_over};
use std::alloc::Global;
use std::process::Abort;

/// A command line, and what it prints.
type Row = (&'static str, &'static str);

const LOW: &[u8] = &[b'b'; 512];

const LATER: &[u8] = &[b'B'; 512];

const MIDDLE: &[u8] = &[b'm'; 512];

const HIGH: &[u8] = &[b't'; 512];

const OLD: &[u8] = &[b'o'; 512];

const RAW: &[u8] = &[b'r'; 512];

/// The images, and the raw file below one of them.
static PARTS: [PartsRow; 6] = [
    (
        "low.qcow2",
        3584,
        &[
            (0, VERSION_3),
            (23, b"\x09"),
            (30, b"\x0c"),
            (39, b"\x01"),
            (46, b"\x06"),
            (54, b"\x02"),
            (59, b"\x01"),
            (99, b"\x04\0\0\0p"),
            (518, b"\x04"),
            (1025, b"\x01\0\x01\0\x01\0\x01\0\x01\0\x01\0\x01"),
            (1536, b"\x80"),
            (1542, b"\x08"),
            (2048, b"\x80"),
            (2054, b"\x0a"),
            (2063, b"\x01"),
            (2079, b"\x01\x80"),
            (2086, b"\x0c"),
            (2560, LOW),
            (3072, LATER),
        ],
    ),
    (
        "middle.qcow2",
        3072,
        &[
            (0, VERSION_3),
            (15, b"\x88\0\0\0\x09\0\0\0\x09"),
            (30, b"\x14"),
            (39, b"\x01"),
            (46, b"\x06"),
            (54, b"\x02"),
            (59, b"\x01"),
            (99, b"\x04\0\0\0p"),
            (112, b"\xe2y*\xca\0\0\0\x05qcow2"),
            (136, b"low.qcow2"),
            (518, b"\x04"),
            (1025, b"\x01\0\x01\0\x01\0\x01\0\x01\0\x01"),
            (1536, b"\x80"),
            (1542, b"\x08"),
            (2103, b"\x01\x80"),
            (2110, b"\x0a"),
            (2560, MIDDLE),
        ],
    ),
    (
        "high.qcow2",
        3072,
        &[
            (0, VERSION_3),
            (15, b"\x88\0\0\0\x0c\0\0\0\x09"),
            (30, b"\x10"),
            (39, b"\x01"),
            (46, b"\x06"),
            (54, b"\x02"),
            (59, b"\x01"),
            (99, b"\x04\0\0\0p"),
            (112, b"\xe2y*\xca\0\0\0\x05qcow2"),
            (136, b"middle.qcow2"),
            (518, b"\x04"),
            (1025, b"\x01\0\x01\0\x01\0\x01\0\x01\0\x01"),
            (1536, b"\x80"),
            (1542, b"\x08"),
            (2071, b"\x01"),
            (2088, b"\x80"),
            (2094, b"\x0a"),
            (2560, HIGH),
        ],
    ),
    (
        "old.qcow2",
        3584,
        &[
            (0, VERSION_2),
            (15, b"`\0\0\0\x09\0\0\0\x09"),
            (30, b"\x10"),
            (39, b"\x01"),
            (46, b"\x06"),
            (54, b"\x02"),
            (59, b"\x01"),
            (72, b"\xe2y*\xca\0\0\0\x05qcow2"),
            (96, b"low.qcow2"),
            (518, b"\x04"),
            (1025, b"\x01\0\x01\0\x01\0\x01\0\x01\0\x01\0\x01"),
            (1536, b"\x80"),
            (1542, b"\x08"),
            (2056, b"\x80"),
            (2062, b"\x0a"),
            (2080, b"\x80"),
            (2086, b"\x0c"),
            (2560, OLD),
            (3072, OLD),
        ],
    ),
    ("data.raw", 1536, &[(0, RAW), (512, RAW), (1024, RAW)]),
    (
        "on_raw.qcow2",
        1544,
        &[
            (0, VERSION_3),
            (15, b"\x88\0\0\0\x08\0\0\0\x09"),
            (30, b"\x0c"),
            (39, b"\x01"),
            (46, b"\x06"),
            (54, b"\x02"),
            (59, b"\x01"),
            (99, b"\x04\0\0\0p"),
            (112, b"\xe2y*\xca\0\0\0\x03raw"),
            (136, b"data.raw"),
            (518, b"\x04"),
            (1025, b"\x01\0\x01\0\x01\0\x01"),
        ],
    ),
];

/// What is told of them.
static ROWS: [Row; 6] = [
    (
        "map --json low.qcow2",
        "[{ \"start\": 0, \"length\": 512, \"depth\": 0, \"present\": true, \"zero\": false, \
        \"data\": true, \"offset\": 2560, \"filename\": \"low.qcow2\"},\n\
        { \"start\": 512, \"length\": 512, \"depth\": 0, \"present\": true, \"zero\": true, \
        \"data\": false},\n\
        { \"start\": 1024, \"length\": 512, \"depth\": 0, \"present\": false, \"zero\": true, \
        \"data\": false},\n\
        { \"start\": 1536, \"length\": 512, \"depth\": 0, \"present\": true, \"zero\": true, \
        \"data\": false},\n\
        { \"start\": 2048, \"length\": 512, \"depth\": 0, \"present\": true, \"zero\": false, \
        \"data\": true, \"offset\": 3072, \"filename\": \"low.qcow2\"},\n\
        { \"start\": 2560, \"length\": 512, \"depth\": 0, \"present\": false, \"zero\": true, \
        \"data\": false}]\n",
    ),
    (
        "map --json middle.qcow2",
        "[{ \"start\": 0, \"length\": 512, \"depth\": 1, \"present\": true, \"zero\": false, \
        \"data\": true, \"offset\": 2560, \"filename\": \"low.qcow2\"},\n\
        { \"start\": 512, \"length\": 512, \"depth\": 1, \"present\": true, \"zero\": true, \
        \"data\": false},\n\
        { \"start\": 1024, \"length\": 512, \"depth\": 1, \"present\": false, \"zero\": true, \
        \"data\": false},\n\
        { \"start\": 1536, \"length\": 512, \"depth\": 1, \"present\": true, \"zero\": true, \
        \"data\": false},\n\
        { \"start\": 2048, \"length\": 512, \"depth\": 1, \"present\": true, \"zero\": false, \
        \"data\": true, \"offset\": 3072, \"filename\": \"low.qcow2\"},\n\
        { \"start\": 2560, \"length\": 512, \"depth\": 1, \"present\": false, \"zero\": true, \
        \"data\": false},\n\
        { \"start\": 3072, \"length\": 512, \"depth\": 0, \"present\": true, \"zero\": true, \
        \"data\": false},\n\
        { \"start\": 3584, \"length\": 512, \"depth\": 0, \"present\": true, \"zero\": false, \
        \"data\": true, \"offset\": 2560, \"filename\": \"middle.qcow2\"},\n\
        { \"start\": 4096, \"length\": 1024, \"depth\": 0, \"present\": false, \"zero\": true, \
        \"data\": false}]\n",
    ),
    (
        "map --json high.qcow2",
        "[{ \"start\": 0, \"length\": 512, \"depth\": 2, \"present\": true, \"zero\": false, \
        \"data\": true, \"offset\": 2560, \"filename\": \"low.qcow2\"},\n\
        { \"start\": 512, \"length\": 512, \"depth\": 2, \"present\": true, \"zero\": true, \
        \"data\": false},\n\
        { \"start\": 1024, \"length\": 512, \"depth\": 0, \"present\": true, \"zero\": true, \
        \"data\": false},\n\
        { \"start\": 1536, \"length\": 512, \"depth\": 2, \"present\": true, \"zero\": true, \
        \"data\": false},\n\
        { \"start\": 2048, \"length\": 512, \"depth\": 2, \"present\": true, \"zero\": false, \
        \"data\": true, \"offset\": 3072, \"filename\": \"low.qcow2\"},\n\
        { \"start\": 2560, \"length\": 512, \"depth\": 0, \"present\": true, \"zero\": false, \
        \"data\": true, \"offset\": 2560, \"filename\": \"high.qcow2\"},\n\
        { \"start\": 3072, \"length\": 512, \"depth\": 1, \"present\": true, \"zero\": true, \
        \"data\": false},\n\
        { \"start\": 3584, \"length\": 512, \"depth\": 1, \"present\": true, \"zero\": false, \
        \"data\": true, \"offset\": 2560, \"filename\": \"middle.qcow2\"}]\n",
    ),
    (
        "map --json old.qcow2",
        "[{ \"start\": 0, \"length\": 512, \"depth\": 1, \"present\": true, \"zero\": false, \
        \"data\": true, \"offset\": 2560, \"filename\": \"low.qcow2\"},\n\
        { \"start\": 512, \"length\": 512, \"depth\": 0, \"present\": true, \"zero\": false, \
        \"data\": true, \"offset\": 2560, \"filename\": \"old.qcow2\"},\n\
        { \"start\": 1024, \"length\": 512, \"depth\": 1, \"present\": false, \"zero\": true, \
        \"data\": false},\n\
        { \"start\": 1536, \"length\": 512, \"depth\": 1, \"present\": true, \"zero\": true, \
        \"data\": false},\n\
        { \"start\": 2048, \"length\": 512, \"depth\": 0, \"present\": true, \"zero\": false, \
        \"data\": true, \"offset\": 3072, \"filename\": \"old.qcow2\"},\n\
        { \"start\": 2560, \"length\": 512, \"depth\": 1, \"present\": false, \"zero\": true, \
        \"data\": false},\n\
        { \"start\": 3072, \"length\": 1024, \"depth\": 0, \"present\": false, \"zero\": true, \
        \"data\": false}]\n",
    ),
    (
        "map --json on_raw.qcow2",
        "[{ \"start\": 0, \"length\": 1536, \"depth\": 1, \"present\": true, \"zero\": false, \
        \"data\": true, \"offset\": 0, \"filename\": \"data.raw\"},\n\
        { \"start\": 1536, \"length\": 1536, \"depth\": 0, \"present\": false, \"zero\": true, \
        \"data\": false}]\n",
    ),
    (
        "map middle.qcow2",
        "start                length               kind offset               file\n\
        0                    512                  data 2560                 \"low.qcow2\"\n\
        512                  512                  zero\n\
        1024                 512                  absent\n\
        1536                 512                  zero\n\
        2048                 512                  data 3072                 \"low.qcow2\"\n\
        2560                 512                  absent\n\
        3072                 512                  zero\n\
        3584                 512                  data 2560                 \"middle.qcow2\"\n\
        4096                 1024                 absent\n",
    ),
];

/// Tries the command lines.
fn check_rows(rt: &impl Abort, alloc: Global) {
    for (words, output) in &ROWS {
        check_cases_over(
            rt,
            alloc,
            &PARTS,
            &[Case {
                words,
                appends: 0,
                finishes: true,
                status: 0,
                output,
                errors: "",
                written: None,
            }],
        );
    }
}

#[test]
fn a_map_tells_the_layers(rt: HostRuntime) {
    check_rows(&rt, rt.alloc());
}

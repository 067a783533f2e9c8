// SPDX-License-Identifier: MIT
//! What each command prints, and the file that it makes.

use super::set_up::{Case, check_cases};

/// Command lines that are done.
static CASES: [Case; 16] = [
    Case {
        words: "info disk.vmdk",
        appends: 0,
        finishes: true,
        status: 0,
        output: "image: \"disk.vmdk\"\nfile format: vmdk\nvirtual size: 2 KiB (2048 bytes)\n\
            disk size: 626 B\n\
            extent: FLAT, 512 bytes from 0 of \"a.bin\"\nextent: ZERO, 1024 bytes\n\
            extent: FLAT, 512 bytes from 512 of \"parts/b.bin\"\n",
        errors: "imago-img: warning: \"a.bin\": 6 bytes, and its extent ends at 512: the missing \
            bytes read as 0\n\
            imago-img: warning: \"parts/b.bin\": 515 bytes, and its extent ends at 1024: the \
            missing bytes read as 0\n",
        written: None,
    },
    Case {
        words: "map --json disk.vmdk",
        appends: 0,
        finishes: true,
        status: 0,
        output: "[{ \"start\": 0, \"length\": 3, \"depth\": 0, \"present\": true, \"zero\": true, \
            \"data\": false, \"offset\": 0, \"filename\": \"a.bin\"},\n\
            { \"start\": 3, \"length\": 3, \"depth\": 0, \"present\": true, \"zero\": false, \
            \"data\": true, \"offset\": 3, \"filename\": \"a.bin\"},\n\
            { \"start\": 6, \"length\": 506, \"depth\": 0, \"present\": true, \"zero\": true, \
            \"data\": false, \"offset\": 6, \"filename\": \"a.bin\"},\n\
            { \"start\": 512, \"length\": 1024, \"depth\": 0, \"present\": true, \"zero\": true, \
            \"data\": false},\n\
            { \"start\": 1536, \"length\": 3, \"depth\": 0, \"present\": true, \"zero\": false, \
            \"data\": true, \"offset\": 512, \"filename\": \"parts/b.bin\"},\n\
            { \"start\": 1539, \"length\": 509, \"depth\": 0, \"present\": true, \"zero\": true, \
            \"data\": false, \"offset\": 515, \"filename\": \"parts/b.bin\"}]\n",
        errors: "",
        written: None,
    },
    Case {
        words: "convert disk.vmdk out.raw",
        appends: 99,
        finishes: true,
        status: 0,
        output: "",
        errors: "imago-img: warning: \"a.bin\": 6 bytes, and the image uses it up to 512: the \
            missing bytes read as 0\n\
            imago-img: warning: \"parts/b.bin\": 515 bytes, and the image uses it up to 1024: the \
            missing bytes read as 0\n",
        written: Some((2048, &[(3, b"abc"), (1536, b"xyz")])),
    },
    Case {
        words: "convert -f raw disk.vmdk out.raw",
        appends: 99,
        finishes: true,
        status: 0,
        output: "",
        errors: "",
        written: Some((
            105,
            &[(
                0,
                b"# Disk DescriptorFile\nversion=1\nencoding=\"UTF-8\"\nRW 1 FLAT \"a.bin\" 0\n\
                RW 2 ZERO\nRW 1 FLAT \"parts/b.bin\" 1\n",
            )],
        )),
    },
    Case {
        words: "convert plain.raw -pqO raw -tnone -m 8 -W out.raw -f raw",
        appends: 99,
        finishes: true,
        status: 0,
        output: "",
        errors: "",
        written: Some((7, &[(2, b"hello")])),
    },
    Case {
        words: "convert -S 0 disk.vmdk out.raw",
        appends: 99,
        finishes: true,
        status: 0,
        output: "",
        errors: "imago-img: warning: \"a.bin\": 6 bytes, and the image uses it up to 512: the \
            missing bytes read as 0\n\
            imago-img: warning: \"parts/b.bin\": 515 bytes, and the image uses it up to 1024: the \
            missing bytes read as 0\n",
        written: Some((2048, &[(3, b"abc"), (1536, b"xyz")])),
    },
    Case {
        words: "convert --allow-outside outside.vmdk out.raw",
        appends: 99,
        finishes: true,
        status: 0,
        output: "",
        errors: "imago-img: warning: \"/etc/secret\": 3 bytes, and the image uses it up to 512: \
            the missing bytes read as 0\n",
        written: Some((512, &[(0, b"top")])),
    },
    Case {
        words: "convert -q disk.vmdk out.raw",
        appends: 99,
        finishes: true,
        status: 0,
        output: "",
        errors: "",
        written: Some((2048, &[(3, b"abc"), (1536, b"xyz")])),
    },
    Case {
        words: "convert disk.dev out.raw",
        appends: 99,
        finishes: true,
        status: 0,
        output: "",
        errors: "",
        written: Some((4, &[(1, b"dev")])),
    },
    Case {
        words: "check disk.vmdk",
        appends: 0,
        finishes: true,
        status: 2,
        output: "\"a.bin\": 6 bytes, and its extent ends at 512: the missing bytes read as 0\n\
            \"parts/b.bin\": 515 bytes, and its extent ends at 1024: the missing bytes read as 0\n\
            \n2 errors were found on the image.\n\
            Data may be corrupted, or further writes to the image may corrupt it.\n",
        errors: "",
        written: None,
    },
    Case {
        words: "info esx.vmdk",
        appends: 0,
        finishes: true,
        status: 0,
        output: "image: \"esx.vmdk\"\nfile format: vmdk\nvirtual size: 512 B (512 bytes)\n\
            disk size: 620 B\n\
            extent: VMFS, 512 bytes from 0 of \"esx-flat.vmdk\"\n\
            Format specific information:\n\x20   cid: 1054196535\n\
            \x20   parent cid: 4294967295\n\x20   create type: \"vmfs\"\n",
        errors: "",
        written: None,
    },
    Case {
        words: "info --json esx.vmdk",
        appends: 0,
        finishes: true,
        status: 0,
        output: "{ \"filename\": \"esx.vmdk\", \"format\": \"vmdk\", \"virtual-size\": 512, \
            \"actual-size\": 620, \"extents\": [\n\
            { \"type\": \"VMFS\", \"length\": 512, \"filename\": \"esx-flat.vmdk\", \
            \"offset\": 0, \"file-length\": 512 }], \"format-specific\": { \"type\": \"vmdk\", \
            \"data\": { \"cid\": 1054196535, \"parent-cid\": 4294967295, \
            \"create-type\": \"vmfs\", \"extents\": [\n\
            { \"virtual-size\": 512, \"filename\": \"esx-flat.vmdk\", \"format\": \"VMFS\" }\
            ] } } }\n",
        errors: "",
        written: None,
    },
    Case {
        words: "info --json /vm/disk.vmdk",
        appends: 0,
        finishes: true,
        status: 0,
        output: "{ \"filename\": \"/vm/disk.vmdk\", \"format\": \"vmdk\", \
            \"virtual-size\": 512, \"actual-size\": 571, \"extents\": [\n\
            { \"type\": \"FLAT\", \"length\": 512, \"filename\": \"/vm/flat.bin\", \
            \"offset\": 0, \"file-length\": 512 }], \"format-specific\": { \"type\": \"vmdk\", \
            \"data\": { \"extents\": [\n\
            { \"virtual-size\": 512, \"filename\": \"/vm/flat.bin\", \"format\": \"FLAT\" }\
            ] } } }\n",
        errors: "",
        written: None,
    },
    // What isn't in the descriptor's folder isn't counted.
    Case {
        words: "info outside.vmdk",
        appends: 0,
        finishes: true,
        status: 0,
        output: "image: \"outside.vmdk\"\nfile format: vmdk\n\
            virtual size: 512 B (512 bytes)\ndisk size: 58 B\n\
            extent: FLAT, 512 bytes from 0 of \"/etc/secret\"\n",
        errors: "imago-img: warning: \"/etc/secret\": not in the descriptor's folder; \
            --allow-outside permits it\n",
        written: None,
    },
    Case {
        words: "check --strict esx.vmdk",
        appends: 0,
        finishes: true,
        status: 0,
        output: "No errors were found on the image.\n",
        errors: "",
        written: None,
    },
    Case {
        words: "convert esx.vmdk out.raw",
        appends: 99,
        finishes: true,
        status: 0,
        output: "",
        errors: "",
        written: Some((512, &[(509, b"esx")])),
    },
];

#[test]
fn commands_print_and_make_what_they_should(rt: HostRuntime) {
    check_cases(&rt, rt.alloc(), &CASES);
}

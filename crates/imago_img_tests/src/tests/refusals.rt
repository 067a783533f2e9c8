// SPDX-License-Identifier: MIT
//! What is refused: the line that tells why, the status, and that no file is left or changed.

use super::set_up::{Case, check_cases};

/// A command line that makes no file, its status, its output, and what it tells as an error.
type Row = (&'static str, u8, &'static str, &'static str);

/// Images and files that are refused, and faults that are found.
static ROWS: [Row; 29] = [
    // The file, and its format.
    (
        "info nothing.raw",
        1,
        "",
        "imago-img: \"nothing.raw\": entity not found\n",
    ),
    (
        "map parts",
        1,
        "",
        "imago-img: \"parts\": neither a regular file nor a block device\n",
    ),
    (
        "convert sparse.vmdk out.raw",
        1,
        "",
        "imago-img: \"sparse.vmdk\": a sparse VMDK image, which isn't supported; -f raw takes its \
         bytes as they are\n",
    ),
    (
        "info -f vmdk sparse.vmdk",
        1,
        "",
        "imago-img: \"sparse.vmdk\": a sparse VMDK image, which isn't supported; -f raw takes its \
         bytes as they are\n",
    ),
    (
        "check sparse.vmdk",
        1,
        "",
        "imago-img: \"sparse.vmdk\": a sparse VMDK image, which isn't supported; -f raw takes its \
         bytes as they are\n",
    ),
    (
        "info -f vmdk plain.raw",
        1,
        "",
        "imago-img: \"plain.raw\": the driver or storage does not support this operation; \
         imago-img check tells where\n",
    ),
    (
        "info --strict disk.vmdk",
        1,
        "",
        "imago-img: \"disk.vmdk\": the image's data is invalid; imago-img check tells where\n",
    ),
    (
        "convert barred.vmdk out.raw",
        1,
        "",
        "imago-img: \"barred.vmdk\": this part of the disk may not be accessed\n",
    ),
    // The files of extents.
    (
        "convert outside.vmdk out.raw",
        1,
        "",
        "imago-img: \"outside.vmdk\": its extent \"/etc/secret\" isn't in the descriptor's folder; \
         --allow-outside permits it, or, if it is there, name the image by its absolute path\n",
    ),
    (
        "map above.vmdk",
        1,
        "",
        "imago-img: \"above.vmdk\": its extent \"parts/../../b.bin\" isn't in the descriptor's \
         folder; --allow-outside permits it\n",
    ),
    (
        "convert linked.vmdk out.raw",
        1,
        "",
        "imago-img: \"linked.vmdk\": its extent \"link.bin\" isn't in the descriptor's folder; \
         --allow-outside permits it\n",
    ),
    (
        "convert missing.vmdk out.raw",
        1,
        "",
        "imago-img: \"missing.vmdk\" needs \"nowhere.bin\": entity not found\n",
    ),
    (
        "map folder.vmdk",
        1,
        "",
        "imago-img: \"folder.vmdk\" needs \"parts\": neither a regular file nor a block device\n",
    ),
    (
        "convert secret.vmdk out.raw",
        1,
        "",
        "imago-img: \"secret.bin\": permission denied\n",
    ),
    (
        "compare secret.vmdk plain.raw",
        2,
        "",
        "imago-img: \"secret.bin\": permission denied\n",
    ),
    // The new file.
    (
        "convert plain.raw other.raw",
        1,
        "",
        "imago-img: \"other.raw\": it exists already; --force replaces a file, -n writes into it\n",
    ),
    (
        "convert --force plain.raw plain.raw",
        1,
        "",
        "imago-img: \"plain.raw\": a file of the image that is read is never replaced\n",
    ),
    (
        "convert --force disk.vmdk parts/b.bin",
        1,
        "",
        "imago-img: \"parts/b.bin\": a file of the image that is read is never replaced\n",
    ),
    (
        "convert --force plain.raw disk.dev",
        1,
        "",
        "imago-img: \"disk.dev\": only a regular file can be replaced; -n writes into a block \
         device\n",
    ),
    // What is different, or faulty.
    (
        "compare plain.raw longer.raw",
        0,
        "Warning: Image size mismatch!\nImages are identical.\n",
        "",
    ),
    (
        "compare plain.raw tail.raw",
        1,
        "Warning: Image size mismatch!\nContent mismatch at offset 9!\n",
        "",
    ),
    (
        "compare plain.raw other.raw",
        1,
        "Content mismatch at offset 6!\n",
        "",
    ),
    ("compare --quiet other.raw longer.raw", 1, "", ""),
    (
        "check plain.raw",
        63,
        "",
        "imago-img: \"plain.raw\": a raw file has nothing to check\n",
    ),
    (
        "check /vm/disk.vmdk",
        0,
        "No errors were found on the image.\n",
        "",
    ),
    (
        "info /vm/disk.vmdk",
        0,
        "image: \"/vm/disk.vmdk\"\nfile format: vmdk\nvirtual size: 512 B (512 bytes)\n\
        disk size: 571 B\n\
        extent: FLAT, 512 bytes from 0 of \"/vm/flat.bin\"\n",
        "",
    ),
    (
        "check --strict disk.vmdk",
        2,
        "\"disk.vmdk\", line 3: \"encoding=\\\"UTF-8\\\"\" is invalid\n\n\
         1 errors were found on the image.\n\
         Data may be corrupted, or further writes to the image may corrupt it.\n",
        "",
    ),
    (
        "check faulty.vmdk",
        2,
        "\"faulty.vmdk\", line 3: \"RW x FLAT \\\"a.bin\\\" 0\" is invalid\n\
         \"faulty.vmdk\", line 4: \"RW 1 SPARSE \\\"a.bin\\\"\" isn't supported\n\
         \"faulty.vmdk\", line 5: isn't UTF-8\n\n\
         2 errors were found on the image.\n\
         Data may be corrupted, or further writes to the image may corrupt it.\n",
        "",
    ),
    (
        "check later.vmdk",
        1,
        "",
        "imago-img: \"later.vmdk\" can't be checked: no line says one of the versions 1 to 3, or \
         the file begins as a sparse image\n",
    ),
];

#[test]
fn refusals_tell_why_and_leave_no_file(rt: HostRuntime) {
    for (words, status, output, errors) in &ROWS {
        check_cases(
            &rt,
            rt.alloc(),
            &[Case {
                words,
                appends: 99,
                finishes: true,
                status: *status,
                output,
                errors,
                written: None,
            }],
        );
    }
}

#[test]
fn a_copy_that_fails_leaves_no_file(rt: HostRuntime) {
    for appends in 0..3 {
        check_cases(
            &rt,
            rt.alloc(),
            &[Case {
                words: "convert -q disk.vmdk out.raw",
                appends,
                finishes: true,
                status: 1,
                output: "",
                errors: "imago-img: \"out.raw\": no storage space\n",
                written: None,
            }],
        );
    }
    check_cases(
        &rt,
        rt.alloc(),
        &[Case {
            words: "convert -q disk.vmdk out.raw",
            appends: 3,
            finishes: false,
            status: 1,
            output: "",
            errors: "imago-img: \"out.raw\": permission denied\n",
            written: None,
        }],
    );
}

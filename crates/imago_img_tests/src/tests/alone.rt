// SPDX-License-Identifier: MIT
//! Command lines with which no other files are opened.

use super::set_up::{Case, check_cases};

/// A case of a command line, its status, its output, what it tells as an error, and the length and
/// the parts of the file that it makes, if it makes one.
macro_rules! case {
    ($words:literal, $status:literal, $output:literal, $errors:literal, $written:expr) => {
        Case {
            words: $words,
            appends: 99,
            finishes: true,
            status: $status,
            output: $output,
            errors: $errors,
            written: $written,
        }
    };
}

static CASES: [Case; 12] = [
    // Images that name no other file.
    case!(
        "check --alone one.qcow2",
        0,
        "No errors were found on the image.\n",
        "",
        None
    ),
    case!(
        "compare --alone one.qcow2 one.raw",
        0,
        "Images are identical.\n",
        "",
        None
    ),
    case!(
        "convert --alone one.qcow2 out.raw",
        0,
        "",
        "",
        Some((2048, &[(512, b"2"), (1024, b"1")]))
    ),
    // A qcow2 image that names one below it.
    case!(
        "info --alone top.qcow2",
        1,
        "",
        "imago-img: \"top.qcow2\": its backing file \"mid.qcow2\" isn't opened: other files \
         aren't permitted\n",
        None
    ),
    case!(
        "map --alone top.qcow2",
        1,
        "",
        "imago-img: \"top.qcow2\": its backing file \"mid.qcow2\" isn't opened: other files \
         aren't permitted\n",
        None
    ),
    case!(
        "check --alone top.qcow2",
        1,
        "",
        "imago-img: \"top.qcow2\": its backing file \"mid.qcow2\" isn't opened: other files \
         aren't permitted\n",
        None
    ),
    case!(
        "compare --alone one.qcow2 top.qcow2",
        2,
        "",
        "imago-img: \"top.qcow2\": its backing file \"mid.qcow2\" isn't opened: other files \
         aren't permitted\n",
        None
    ),
    // It beats the permission of others.
    case!(
        "convert --allow-outside --alone outside.qcow2 out.raw",
        1,
        "",
        "imago-img: \"outside.qcow2\": its backing file \"/etc/secret\" isn't opened: other files \
         aren't permitted\n",
        None
    ),
    // A descriptor with extents in other files.
    case!(
        "info --alone outside.vmdk",
        1,
        "",
        "imago-img: \"outside.vmdk\": its extent \"/etc/secret\" isn't opened: other files aren't \
         permitted\n",
        None
    ),
    case!(
        "check --alone outside.vmdk",
        1,
        "",
        "imago-img: \"outside.vmdk\": its extent \"/etc/secret\" isn't opened: other files aren't \
         permitted\n",
        None
    ),
    case!(
        "convert --alone outside.vmdk out.raw",
        1,
        "",
        "imago-img: \"outside.vmdk\": its extent \"/etc/secret\" isn't opened: other files aren't \
         permitted\n",
        None
    ),
    // Without it a file beside the image is opened.
    case!(
        "compare top.qcow2 top.raw",
        0,
        "Images are identical.\n",
        "",
        None
    ),
];

#[test]
fn no_other_files_are_opened(rt: HostRuntime) {
    check_cases(&rt, rt.alloc(), &CASES);
}

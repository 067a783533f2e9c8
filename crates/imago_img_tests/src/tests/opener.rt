// SPDX-License-Identifier: MIT
//! Images opened by their paths: what they show, and why others aren't opened.
ghost use Rattle.std.specs.Prelude.{◌≡◌, None};
ghost use Rattle.imago_access.specs.Chain.{driver};

use super::set_up::files;
use imago_access::access::FormatAccess;
use imago_drivers::drivers::FormatDriverInstance;
use imago_images::files::{Files, WritableFiles};
use imago_images::format::ImageFormat;
use imago_images::opener::{open_image, open_image_to_write};
use imago_images::opening::{Accepted, Opening, OtherFiles};
use std::alloc::Global;
use std::process::Abort;

/// What comes of an opening.
#[derive(Drop)]
enum Opened {
    /// An image of that format and size in bytes, and four bytes at each of those offsets.
    Shows(ImageFormat, u64, &'static [(u64, [u8; 4])]),
    /// A refusal, as it is printed.
    Refused(&'static str),
}

/// A path, which other files may be opened, and what comes of it.
type Row = (&'static str, OtherFiles, Opened);

static ROWS: [Row; 20] = [
    (
        "plain.raw",
        OtherFiles::InFolder,
        Opened::Shows(ImageFormat::Raw, 7, &[(2, *b"hell"), (5, *b"lo\0\0")]),
    ),
    (
        "disk.vmdk",
        OtherFiles::InFolder,
        Opened::Shows(
            ImageFormat::Vmdk,
            2048,
            &[(2, *b"\0abc"), (510, [0; 4]), (1536, *b"xyz\0")],
        ),
    ),
    // A cluster of each of three layers, and one that none has.
    (
        "top.qcow2",
        OtherFiles::InFolder,
        Opened::Shows(
            ImageFormat::Qcow2,
            2048,
            &[
                (0, *b"t\0\0\0"),
                (512, *b"m\0\0\0"),
                (1024, *b"b\0\0\0"),
                (1536, [0; 4]),
            ],
        ),
    ),
    // All of it stands in the files of the descriptor below.
    (
        "above.qcow2",
        OtherFiles::InFolder,
        Opened::Shows(
            ImageFormat::Qcow2,
            2048,
            &[(2, *b"\0abc"), (1536, *b"xyz\0")],
        ),
    ),
    (
        "outside.qcow2",
        OtherFiles::Any,
        Opened::Shows(ImageFormat::Qcow2, 2048, &[(0, *b"top\0")]),
    ),
    (
        "outside.qcow2",
        OtherFiles::InFolder,
        Opened::Refused("\"outside.qcow2\": its backing file \"/etc/secret\" isn't in its folder"),
    ),
    (
        "linked.qcow2",
        OtherFiles::InFolder,
        Opened::Refused("\"linked.qcow2\": its backing file \"link.bin\" isn't in its folder"),
    ),
    (
        "outside.vmdk",
        OtherFiles::InFolder,
        Opened::Refused(
            "\"outside.vmdk\": its extent \"/etc/secret\" isn't in the descriptor's folder",
        ),
    ),
    (
        "linked.vmdk",
        OtherFiles::InFolder,
        Opened::Refused(
            "\"linked.vmdk\": its extent \"link.bin\" isn't in the descriptor's folder",
        ),
    ),
    (
        "plain.raw",
        OtherFiles::None,
        Opened::Shows(ImageFormat::Raw, 7, &[(2, *b"hell")]),
    ),
    (
        "outside.qcow2",
        OtherFiles::None,
        Opened::Refused(
            "\"outside.qcow2\": its backing file \"/etc/secret\" isn't opened: other files \
            aren't permitted",
        ),
    ),
    (
        "linked.vmdk",
        OtherFiles::None,
        Opened::Refused(
            "\"linked.vmdk\": its extent \"link.bin\" isn't opened: other files aren't permitted",
        ),
    ),
    (
        "circle.qcow2",
        OtherFiles::InFolder,
        Opened::Refused(
            "\"circle.qcow2\": backing files lead in a circle: \"circle.qcow2\", \"around.qcow2\", \
            \"circle.qcow2\"",
        ),
    ),
    (
        "lost.qcow2",
        OtherFiles::InFolder,
        Opened::Refused("\"nowhere.raw\": entity not found"),
    ),
    (
        "other.qcow2",
        OtherFiles::InFolder,
        Opened::Refused(
            "\"other.qcow2\": its backing file has the format \"luks\", which isn't supported",
        ),
    ),
    (
        "trusting.qcow2",
        OtherFiles::InFolder,
        Opened::Refused("\"guest.raw\": a qcow2 image in a file whose name ends in .raw"),
    ),
    (
        "parts",
        OtherFiles::InFolder,
        Opened::Refused("\"parts\": neither a regular file nor a block device"),
    ),
    (
        "folder.vmdk",
        OtherFiles::InFolder,
        Opened::Refused("\"parts\": neither a regular file nor a block device"),
    ),
    (
        "sparse.vmdk",
        OtherFiles::InFolder,
        Opened::Refused("\"sparse.vmdk\": a sparse VMDK image, which isn't supported"),
    ),
    (
        "nothing.raw",
        OtherFiles::InFolder,
        Opened::Refused("\"nothing.raw\": entity not found"),
    ),
];

/// An image has that size, and those bytes.
fn shows<D: FormatDriverInstance>(
    rt: &impl Abort,
    alloc: Global,
    image: &FormatAccess<D>,
    size: u64,
    parts: &[(u64, [u8; 4])],
) {
    assert_eq!(rt; image.size(), size);
    for &(offset, bytes) in parts {
        let mut buf = [0xff; 4];
        let read = image.read(alloc, &mut buf, offset);
        assert!(rt; read.is_ok());
        assert_eq!(rt; buf, bytes);
    }
}

/// Opens the image of a row.
fn check_row<H: Files>(rt: &impl Abort, host: &H, row: &Row) {
    let alloc = host.alloc();
    let (path, other_files, opened) = row;
    let how = Opening {
        format: None,
        accepted: Accepted::EVERYTHING,
        other_files: *other_files,
        tables: None,
        longest: None,
    };
    match (open_image(host, path, how), opened) {
        (Ok((format, image)), Opened::Shows(expected, size, parts)) => {
            assert!(rt; format == *expected, "the format of {path}");
            shows(rt, alloc, &image, *size, parts);
        }
        (Err(cause), Opened::Refused(told)) => {
            let text = format!(in alloc; "{cause}");
            assert!(rt;
                matches!(&text, Ok(text) if text.as_str() == *told),
                "{cause}"
            );
        }
        _ => assert!(rt; false, "the opening of {path}"),
    }
}

/// Opens the images of all rows.
fn check_rows<H: Files>(rt: &impl Abort, host: &H) {
    for row in &ROWS {
        check_row(rt, host, row);
    }
}

#[test]
fn images_are_opened_by_their_paths(rt: HostRuntime) {
    let host = files(rt.alloc());
    assert!(&rt; host.is_ok());
    let Ok(host) = &host else { return };
    check_rows(&rt, host);
}

/// How many bytes the tables of each file may have, the path of the image, and why it isn't opened,
/// if it isn't.
type LimitRow = (u64, &'static str, Option<&'static str>);

static LIMITED: [LimitRow; 5] = [
    (520, "top.qcow2", None),
    (
        519,
        "top.qcow2",
        Some("\"top.qcow2\": its tables have more than 519 bytes, which is the limit"),
    ),
    (520, "bare.qcow2", None),
    (
        519,
        "bare.qcow2",
        Some("\"one.qcow2\": its tables have more than 519 bytes, which is the limit"),
    ),
    (
        7,
        "bare.qcow2",
        Some("\"bare.qcow2\": its tables have more than 7 bytes, which is the limit"),
    ),
];

/// Opens the images of all rows with a limit on their tables.
fn check_limited<H: Files>(rt: &impl Abort, host: &H) {
    let alloc = host.alloc();
    for &(most, path, refused) in &LIMITED {
        let how = Opening {
            format: None,
            accepted: Accepted::EVERYTHING,
            other_files: OtherFiles::InFolder,
            tables: Some(most),
            longest: None,
        };
        match (open_image(host, path, how), refused) {
            (Ok(_), None) => {}
            (Err(cause), Some(told)) => {
                let text = format!(in alloc; "{cause}");
                assert!(rt;
                    matches!(&text, Ok(text) if text.as_str() == told),
                    "{cause}"
                );
            }
            _ => assert!(rt; false, "{path} with {most} bytes of tables"),
        }
    }
}

#[test]
fn tables_have_at_most_so_many_bytes(rt: HostRuntime) {
    let host = files(rt.alloc());
    assert!(&rt; host.is_ok());
    let Ok(host) = &host else { return };
    check_limited(&rt, host);
}

/// An image that can't be opened for writing, and why.
type ReadOnlyRow = (&'static str, &'static str);

static READ_ONLY: [ReadOnlyRow; 4] = [
    (
        "top.qcow2",
        "\"top.qcow2\": only raw images can be opened for writing",
    ),
    (
        "disk.vmdk",
        "\"disk.vmdk\": only raw images can be opened for writing",
    ),
    (
        "parts",
        "\"parts\": neither a regular file nor a block device",
    ),
    ("nothing.raw", "\"nothing.raw\": entity not found"),
];

/// How an image is opened for writing.
const TO_WRITE: Opening = Opening {
    format: None,
    accepted: Accepted::EVERYTHING,
    other_files: OtherFiles::None,
    tables: None,
    longest: None,
};

/// Opens a raw image for writing, and changes it.
fn write_raw<H: WritableFiles>(rt: &impl Abort, host: &mut H) {
    match open_image_to_write(host, "plain.raw", TO_WRITE) {
        Ok(mut image) => change(rt, (*host).alloc(), &mut image),
        Err(cause) => assert!(rt; false, "{cause}"),
    }
}

/// Writes to an image whose disk has seven bytes, and reads it back.
fn change<D: FormatDriverInstance>(rt: &impl Abort, alloc: Global, image: &mut FormatAccess<D>)
    requires { (D.view (driver image.old)).pending ≡ None }
{
    assert!(rt; image.write(alloc, b"p!", 5).is_ok());
    shows(rt, alloc, image, 7, &[(2, *b"help"), (6, *b"!\0\0\0")]);
}

/// Tries to open the images of all rows for writing.
fn check_read_only<H: WritableFiles>(rt: &impl Abort, host: &mut H) {
    let alloc = (*host).alloc();
    for &(path, told) in &READ_ONLY {
        let Err(cause) = open_image_to_write(host, path, TO_WRITE) else {
            assert!(rt; false, "{path} was opened for writing");
            return;
        };
        let text = format!(in alloc; "{cause}");
        assert!(rt;
            matches!(&text, Ok(text) if text.as_str() == told),
            "{cause}"
        );
    }
}

#[test]
fn only_raw_images_are_opened_for_writing(rt: HostRuntime) {
    let host = files(rt.alloc());
    assert!(&rt; host.is_ok());
    let Ok(mut host) = host else { return };
    write_raw(&rt, &mut host);
    check_read_only(&rt, &mut host);
}

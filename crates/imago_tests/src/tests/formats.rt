// SPDX-License-Identifier: MIT
//! Images of each format: what their bytes tell, and one driver for all of them.
ghost use Rattle.std.specs.Prelude.{◌≡◌, IsTrue, None};
ghost use Rattle.imago_access.specs.Chain.{driver};

use super::files::{opened_vmdk, stored};
use imago::any::{AnyDriver, detect};
use imago::cow::Cow;
use imago::error::Error;
use imago::format::Format;
use imago::mem::MemStorage;
use imago::qcow2::Qcow2;
use imago::raw::Raw;
use imago::{FormatAccess, FormatDriverInstance, Storage};
use std::alloc::Global;
use std::fmt::Display;
use std::process::Abort;
use std::test::Fail;

/// A file without a magic number.
static TEXT: &[u8] = b"some text";

/// A descriptor of a disk of one sector of zeroes.
static DESCRIPTOR: &[u8] = b"# Disk DescriptorFile\nversion=1\nRW 1 ZERO\n";

/// What stands in the file of a qcow2 image of version 2, in clusters of 512 bytes, and where; all
/// else of its 2048 bytes is zero. The disk has two clusters: no data for the first, and "data" at
/// the start of the second.
static PARTS: [(usize, &[u8]); 8] = [
    (0, b"QFI\xfb\0\0\0\x02"),
    // The cluster's length, the disk's size, the number of L1 entries, and where their table is.
    (23, &[9]),
    (30, &[4]),
    (39, &[1]),
    (46, &[2]),
    // The L1 entry: the L2 table is at 1024. Its second entry: the cluster is at 1536.
    (518, &[4]),
    (1038, &[6]),
    (1536, b"data"),
];

/// The file of that qcow2 image.
pub(super) fn qcow2_file(alloc: Global) -> Result<MemStorage, Error> {
    let mut file = vec![in alloc; 0u8; 2048]?;
    for &(at, bytes) in &PARTS {
        for (to, &byte) in file.iter_mut().skip(at).zip(bytes) {
            *to = byte;
        }
    }
    Ok(MemStorage::new(file))
}

/// An image of any format.
pub(super) type Image<S> = FormatAccess<AnyDriver<S>>;

/// The driver of a writable raw image.
pub(super) fn raw_driver<S: Storage>(file: S) -> Result<AnyDriver<S>, Error> {
    Ok(AnyDriver::from(Raw::open_image(file, true)?))
}

/// The driver of the image that a descriptor describes.
fn vmdk_driver<S: Storage>(alloc: Global, file: S) -> Result<AnyDriver<S>, Error> {
    Ok(AnyDriver::from(opened_vmdk(alloc, file)?))
}

/// The driver of a qcow2 image.
pub(super) fn qcow2_driver<S: Storage>(alloc: Global, file: S) -> Result<AnyDriver<S>, Error> {
    Ok(AnyDriver::from(Qcow2::open_image(alloc, file, false)?))
}

/// The driver of a copy-on-write disk of 1024 bytes, in blocks of 512.
pub(super) fn cow_driver<S: Storage>(alloc: Global, file: S) -> Result<AnyDriver<S>, Error> {
    Ok(AnyDriver::from(Cow::create(alloc, file, 1024, 512)?))
}

/// An image with nothing below it.
pub(super) fn alone<S: Storage>(driver: AnyDriver<S>) -> Image<S> {
    FormatAccess::new(driver)
}

/// An image above another one.
pub(super) fn above<S: Storage>(
    alloc: Global,
    driver: AnyDriver<S>,
    below: Image<S>,
) -> Result<Image<S>, Error> {
    Ok(FormatAccess::with_backing(driver, Box::new(alloc, below)?))
}

/// A layer, and the image that it is the top of.
#[derive(Clone, Copy)]
enum Kind {
    /// The text as a raw image.
    Raw,
    /// What the descriptor describes.
    Vmdk,
    /// The qcow2 file: as an image, above the text.
    Qcow2,
    /// A copy-on-write disk: as an image, above the qcow2 file and the text.
    Cow,
}

/// The driver of a layer of that kind.
fn driver_of(alloc: Global, kind: Kind) -> Result<AnyDriver<MemStorage>, Error> {
    match kind {
        Kind::Raw => raw_driver(stored(alloc, TEXT)?),
        Kind::Vmdk => vmdk_driver(alloc, stored(alloc, DESCRIPTOR)?),
        Kind::Qcow2 => qcow2_driver(alloc, qcow2_file(alloc)?),
        Kind::Cow => cow_driver(alloc, stored(alloc, b"")?),
    }
}

/// An image of these layers, from the lowest up.
fn laid(alloc: Global, layers: &[Kind]) -> Result<Image<MemStorage>, Error> {
    let Some((&lowest, others)) = layers.split_first() else {
        return Err(Error::Unsupported);
    };
    let mut image = alone(driver_of(alloc, lowest)?);
    for &kind in others {
        image = above(alloc, driver_of(alloc, kind)?, image)?;
    }
    Ok(image)
}

/// The layers of an image of that kind, from the lowest up.
fn layers_of(kind: Kind) -> &'static [Kind] {
    match kind {
        Kind::Raw => &[Kind::Raw],
        Kind::Vmdk => &[Kind::Vmdk],
        Kind::Qcow2 => &[Kind::Raw, Kind::Qcow2],
        Kind::Cow => &[Kind::Raw, Kind::Qcow2, Kind::Cow],
    }
}

/// An image of that kind, in memory.
fn made(alloc: Global, kind: Kind) -> Result<Image<MemStorage>, Error> {
    laid(alloc, layers_of(kind))
}

/// Layers of an image, from the lowest up, its text, and that of the whole chain.
type Texts = (&'static [Kind], &'static str, &'static str);

/// The text of an image is its driver's, whatever is below it.
static TEXTS: [Texts; 5] = [
    (&[Kind::Raw], "raw[mem:[9B]]", "raw[mem:[9B]]"),
    (&[Kind::Cow], "cow[mem:[0B]]", "cow[mem:[0B]]"),
    (
        &[Kind::Raw, Kind::Cow],
        "cow[mem:[0B]]",
        "cow[mem:[0B]] over raw[mem:[9B]]",
    ),
    (
        &[Kind::Raw, Kind::Cow, Kind::Cow],
        "cow[mem:[0B]]",
        "cow[mem:[0B]] over cow[mem:[0B]] over raw[mem:[9B]]",
    ),
    (
        &[Kind::Vmdk, Kind::Qcow2],
        "qcow2[mem:[2048B]]",
        "qcow2[mem:[2048B]] over vmdk[mem:[42B]]",
    ),
];

/// What is printed of a value.
fn printed<T: Display>(alloc: Global, value: &T) -> Result<String, Error> {
    Ok(format!(in alloc; "{value}")?)
}

/// The text of an image, and that of its whole chain.
fn texts_of<S: Storage>(alloc: Global, image: &Image<S>) -> Result<(String, String), Error> {
    Ok((printed(alloc, image)?, printed(alloc, &image.chain_text())?))
}

fn check_texts(rt: &impl Abort, alloc: Global) -> Result<(), Error> {
    for &(layers, text, of_chain) in &TEXTS {
        let (own, whole) = texts_of(alloc, &laid(alloc, layers)?)?;
        assert_eq!(rt; own.as_str(), text);
        assert_eq!(rt; whole.as_str(), of_chain);
    }
    Ok(())
}

#[test]
fn an_image_prints_its_driver_alone(rt: HostRuntime) -> Result<(), Fail> {
    check_texts(&rt, rt.alloc())?;
    Ok(())
}

/// Whether a changing call may be made: no prepared mapping waits to be spent.
fn is_spent<D: FormatDriverInstance>(image: &FormatAccess<D>) -> bool
    ensures { IsTrue result → (D.view (driver image.now)).pending ≡ None }
{
    !image.inner().has_prepared()
}

/// Writes bytes to an image.
fn write<D: FormatDriverInstance>(
    rt: &impl Abort,
    alloc: Global,
    image: &mut FormatAccess<D>,
    (source, offset): (&[u8], u64),
) -> Result<(), Error> {
    assert!(rt; is_spent(&*image));
    image.write(alloc, source, offset)
}

/// The same of an image of any format.
pub(super) fn write_to<S: Storage>(
    rt: &impl Abort,
    alloc: Global,
    image: &mut Image<S>,
    source: (&[u8], u64),
) -> Result<(), Error> {
    write(rt, alloc, image, source)
}

/// What an image has: its size, and four bytes at each of those offsets.
type Shown = (u64, &'static [(u64, [u8; 4])]);

/// An image has that.
fn shows<D: FormatDriverInstance>(
    rt: &impl Abort,
    alloc: Global,
    image: &FormatAccess<D>,
    (size, expected): Shown,
) -> Result<(), Error> {
    assert_eq!(rt; image.size(), size);
    for &(offset, bytes) in expected {
        let mut buf = [0xff; 4];
        image.read(alloc, &mut buf, offset)?;
        assert_eq!(rt; buf, bytes);
    }
    Ok(())
}

/// The first file of an image.
fn first_file<S: Storage>(image: &Image<S>) -> Option<&S> {
    image.inner().storage(0)
}

/// Writes bytes to an image, which shows that then. Answers what the write did.
fn written_shows<S: Storage>(
    rt: &impl Abort,
    alloc: Global,
    image: &mut Image<S>,
    written: (&[u8], u64),
    expected: Shown,
) -> Result<Result<(), Error>, Error> {
    let answer = write(rt, alloc, &mut *image, written);
    shows(rt, alloc, &*image, expected)?;
    Ok(answer)
}

/// The same of an image of that kind, which has that first file then, if one is told.
fn on(
    rt: &impl Abort,
    alloc: Global,
    kind: Kind,
    written: (&[u8], u64),
    (expected, file): (Shown, Option<&[u8]>),
) -> Result<Result<(), Error>, Error> {
    let mut image = made(alloc, kind)?;
    let answer = written_shows(rt, alloc, &mut image, written, expected)?;
    if let Some(file) = file {
        let kept = first_file(&image).map(MemStorage::as_bytes);
        assert_eq!(rt; kept, Some(file));
    }
    Ok(answer)
}

/// A write to an image of that kind is refused, and leaves its disk and its first file as they
/// were.
fn refuses_writes(
    rt: &impl Abort,
    alloc: Global,
    kind: Kind,
    (shown, file): (Shown, &[u8]),
) -> Result<(), Error> {
    let answer = on(rt, alloc, kind, (b"new", 0), (shown, Some(file)))?;
    assert_eq!(rt; answer, Err(Error::ReadOnly));
    Ok(())
}

/// Which format a file has.
fn format_in<S: Storage>(alloc: Global, file: S) -> Result<Format, Error> {
    detect(alloc, &file)
}

/// Which format a file of those bytes has.
fn format_of(alloc: Global, bytes: &[u8]) -> Result<Format, Error> {
    format_in(alloc, stored(alloc, bytes)?)
}

fn check_formats(rt: &impl Abort, alloc: Global) -> Result<(), Error> {
    assert_eq!(rt; format_of(alloc, TEXT)?, Format::Raw);
    assert_eq!(rt; format_of(alloc, DESCRIPTOR)?, Format::Vmdk);
    assert_eq!(rt;
        format_of(alloc, qcow2_file(alloc)?.as_bytes())?,
        Format::Qcow2
    );
    assert_eq!(rt; format_of(alloc, b"")?, Format::Raw);
    Ok(())
}

#[test]
fn formats_are_detected(rt: HostRuntime) -> Result<(), Fail> {
    check_formats(&rt, rt.alloc())?;
    Ok(())
}

/// The text, and nothing behind its end.
const OF_TEXT: Shown = (9, &[(5, *b"text"), (7, *b"xt\0\0")]);

const ZEROES: Shown = (512, &[(508, [0; 4])]);

/// A cluster of its own, one of the layer below, and one that ends behind that.
const OF_QCOW2: Shown = (1024, &[(512, *b"data"), (5, *b"text"), (7, *b"xt\0\0")]);

/// "new" over the end of the first block and the start of the second one.
const CHANGED: Shown = (1024, &[(5, *b"text"), (509, *b"\0new"), (512, *b"wata")]);

fn check_each_format(rt: &impl Abort, alloc: Global) -> Result<(), Error> {
    let read_only = Err(Error::ReadOnly);
    assert_eq!(rt;
        on(rt, alloc, Kind::Raw, (b"", 0), (OF_TEXT, None))?,
        Ok(())
    );
    assert_eq!(rt;
        on(rt, alloc, Kind::Vmdk, (b"new", 0), (ZEROES, None))?,
        read_only
    );
    assert_eq!(rt;
        on(rt, alloc, Kind::Qcow2, (b"new", 512), (OF_QCOW2, None))?,
        read_only
    );
    assert_eq!(rt;
        on(rt, alloc, Kind::Cow, (b"new", 510), (CHANGED, None))?,
        Ok(())
    );
    Ok(())
}

#[test]
fn each_format_is_read_and_written(rt: HostRuntime) -> Result<(), Fail> {
    check_each_format(&rt, rt.alloc())?;
    Ok(())
}

#[test]
fn read_only_formats_refuse_writes(rt: HostRuntime) -> Result<(), Fail> {
    let alloc = rt.alloc();
    refuses_writes(&rt, alloc, Kind::Vmdk, (ZEROES, DESCRIPTOR))?;
    let file = qcow2_file(alloc)?;
    refuses_writes(&rt, alloc, Kind::Qcow2, (OF_QCOW2, file.as_bytes()))?;
    Ok(())
}

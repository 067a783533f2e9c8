// SPDX-License-Identifier: MIT
//! What images answer once their extents are opened.
use super::set_up::{Gate, Runs, bytes_of, gate_of, storage_of};
use imago_access::access::FormatAccess;
use imago_drivers::drivers::{FormatDriverInstance, ShallowMapping};
use imago_storage::error::Error;
use imago_storage::mem::MemStorage;
use imago_vmdk::vmdk::Vmdk;
use std::alloc::Global;
use std::process::Abort;

type Image = Vmdk<MemStorage>;

type Mapped = Result<(ShallowMapping, u64), Error>;

/// What the image of a descriptor answers, whose extents stand in `a.img` and `b.img`.
struct Case {
    text: &'static [u8],
    a: Runs,
    b: Runs,
    /// Offsets, greatest lengths, and their mappings.
    mappings: &'static [(u64, u64, Expected)],
    /// Offsets, and the four bytes that are read there.
    reads: &'static [(u64, Result<[u8; 4], Error>)],
    /// The bytes from the disk's begin on, and the refusal of a read of so many, if there is one.
    whole: &'static [(Runs, Result<(), Error>)],
}

/// What a mapping is to be.
#[derive(Clone, Copy)]
enum Expected {
    /// So many explicit zeroes.
    Zeroes(u64),
    /// So many bytes of the storage of that index from the offset on, and whether they can be
    /// written to.
    Raw(usize, u64, bool, u64),
    /// The end.
    End,
    /// A refusal.
    Refused(Error),
}

/// The mapping, or refusal.
fn mapping_of(expected: Expected) -> Mapped {
    match expected {
        Expected::Zeroes(count) => Ok((ShallowMapping::Zero { explicit: true }, count)),
        Expected::Raw(storage, offset, writable, count) => {
            let mapping = ShallowMapping::Raw {
                storage,
                offset,
                writable,
            };
            Ok((mapping, count))
        }
        Expected::End => Ok((ShallowMapping::Eof, 0)),
        Expected::Refused(refusal) => Err(refusal),
    }
}

static CASES: [Case; 5] = [
    Case {
        text: b"version=1\nRW 2 ZERO\nRDONLY 1 FLAT \"a.img\" 3\n",
        a: &[(1536, 1), (600, 2)],
        b: &[],
        mappings: &[
            (0, 4096, Expected::Zeroes(1024)),
            (1023, 0, Expected::Zeroes(1)),
            (1024, 4096, Expected::Raw(1, 1536, false, 512)),
            (1535, 1, Expected::Raw(1, 2047, false, 1)),
            (1536, 1, Expected::End),
            (u64::MAX, 1, Expected::End),
        ],
        reads: &[
            (1022, Ok([0, 0, 2, 2])),
            (1534, Ok([2, 2, 0, 0])),
            (u64::MAX, Ok([0; 4])),
        ],
        whole: &[(&[(1024, 0), (512, 2)], Ok(()))],
    },
    Case {
        text: b"version=1\nRW 1 ZERO\nNOACCESS 1\nRW 1 ZERO\n",
        a: &[],
        b: &[],
        mappings: &[
            (0, 4096, Expected::Zeroes(512)),
            (512, 0, Expected::Refused(Error::NoAccess)),
            (1023, 1, Expected::Refused(Error::NoAccess)),
            (1024, 1, Expected::Zeroes(512)),
        ],
        reads: &[
            (508, Ok([0; 4])),
            (509, Err(Error::NoAccess)),
            (1023, Err(Error::NoAccess)),
            (1024, Ok([0; 4])),
        ],
        whole: &[(&[(512, 0)], Ok(())), (&[(1536, 0)], Err(Error::NoAccess))],
    },
    Case {
        text: b"version=1\nRW 1 FLAT \"a.img\"\nRW 1 FLAT \"b.img\" 1\n",
        a: &[(512, 0xaa)],
        b: &[(512, 1), (88, 0xbb)],
        mappings: &[
            (512, 100, Expected::Raw(2, 512, true, 512)),
            (0, 1, Expected::Raw(1, 0, true, 512)),
        ],
        reads: &[
            (510, Ok([0xaa, 0xaa, 0xbb, 0xbb])),
            (598, Ok([0xbb, 0xbb, 0, 0])),
        ],
        whole: &[(&[(512, 0xaa), (88, 0xbb), (424, 0)], Ok(()))],
    },
    Case {
        text: b"version=1\nRW 0 ZERO\nRW 1 ZERO\nRW 0 FLAT \"b.img\"\nRW 1 FLAT \"a.img\"\n",
        a: &[(1, 7)],
        b: &[(1, 8)],
        mappings: &[
            (0, 600, Expected::Zeroes(512)),
            (512, 600, Expected::Raw(2, 0, true, 512)),
        ],
        reads: &[(510, Ok([0, 0, 7, 0]))],
        whole: &[(&[(512, 0), (1, 7), (511, 0)], Ok(()))],
    },
    Case {
        text: b"version=1\nRW 1 FLAT \"a.img\" 36028797018963967\n",
        a: &[],
        b: &[],
        mappings: &[
            (0, 512, Expected::Raw(1, 0xffff_ffff_ffff_fe00, true, 511)),
            (511, 1, Expected::Refused(Error::InvalidData)),
        ],
        reads: &[(507, Ok([0; 4])), (508, Err(Error::InvalidData))],
        whole: &[
            (&[(511, 0)], Ok(())),
            (&[(512, 0)], Err(Error::InvalidData)),
        ],
    },
];

/// The image of a descriptor, whose extents aren't opened.
fn closed(alloc: Global, text: &[u8]) -> Result<Image, Error> {
    Vmdk::open_image(alloc, storage_of(alloc, text)?, false)
}

fn open_extents(alloc: Global, image: &mut Image, gate: &mut Gate) -> Result<(), Error> {
    image.open_implicit_dependencies_gated(alloc, gate)
}

/// The image of a case.
fn open(alloc: Global, case: &Case) -> Result<Image, Error> {
    let mut gate = gate_of(alloc, &[("a.img", case.a), ("b.img", case.b)], 0)?;
    let mut image = closed(alloc, case.text)?;
    open_extents(alloc, &mut image, &mut gate)?;
    Ok(image)
}

fn opened(alloc: Global, case: &Case) -> Result<Image, Error> {
    match open(alloc, case) {
        Err(Error::Memory) => open(alloc, case),
        answer => answer,
    }
}

/// The four bytes at that offset.
fn read<D: FormatDriverInstance>(
    alloc: Global,
    image: &FormatAccess<D>,
    offset: u64,
) -> Result<[u8; 4], Error> {
    let mut bytes = [0xff; 4];
    let mut answer = image.read(alloc, &mut bytes, offset);
    if answer == Err(Error::Memory) {
        answer = image.read(alloc, &mut bytes, offset);
    }
    answer?;
    Ok(bytes)
}

/// Whether these bytes are read from the disk's begin on.
fn reads_so<D: FormatDriverInstance>(
    alloc: Global,
    image: &FormatAccess<D>,
    runs: Runs,
) -> Result<bool, Error> {
    let expected = bytes_of(alloc, runs)?;
    let mut bytes = vec![in alloc; 0xffu8; expected.len()].or(Err(Error::Memory))?;
    image.read(alloc, &mut bytes, 0)?;
    Ok(bytes == expected)
}

/// The disk's bytes from its begin on are these, or the read of so many is refused so.
fn is_read<D: FormatDriverInstance>(
    rt: &impl Abort,
    alloc: Global,
    image: &FormatAccess<D>,
    runs: Runs,
    answer: Result<(), Error>,
) {
    let mut read = reads_so(alloc, image, runs);
    if read == Err(Error::Memory) {
        read = reads_so(alloc, image, runs);
    }
    match answer {
        Ok(()) => assert!(rt; read == Ok(true)),
        Err(refusal) => assert!(rt; read == Err(refusal)),
    }
}

/// The driver answers as the case says, and so does an image of it.
fn answers<D: FormatDriverInstance>(rt: &impl Abort, alloc: Global, driver: D, case: &Case) {
    for (offset, count, answer) in case.mappings {
        assert!(rt;
            driver.get_mapping(*offset, *count) == mapping_of(*answer),
            "{offset}"
        );
    }
    let image = FormatAccess::new(driver);
    for (offset, answer) in case.reads {
        assert!(rt; read(alloc, &image, *offset) == *answer, "{offset}");
    }
    for (runs, answer) in case.whole {
        is_read(rt, alloc, &image, runs, *answer);
    }
}

fn check_extents_stand_one_after_the_other(rt: &impl Abort, alloc: Global) {
    for case in &CASES {
        let image = opened(alloc, case);
        assert!(rt; image.is_ok());
        if let Ok(image) = image {
            answers(rt, alloc, image, case);
        }
    }
}

#[test]
fn extents_stand_one_after_the_other(rt: HostRuntime) {
    check_extents_stand_one_after_the_other(&rt, rt.alloc());
}

/// An image whose extents aren't opened, of two storages that have bytes: it has its size, and ends
/// everywhere.
static CLOSED: Case = Case {
    text: b"version=1\nRW 1 FLAT \"a.img\"\nRW 1 FLAT \"b.img\" 1\n",
    a: &[],
    b: &[],
    mappings: &[
        (0, 512, Expected::End),
        (1023, 1, Expected::End),
        (1024, 1, Expected::End),
    ],
    reads: &[(0, Ok([0; 4])), (510, Ok([0; 4])), (1022, Ok([0; 4]))],
    whole: &[(&[(1024, 0)], Ok(()))],
};

#[test]
fn an_image_without_extents_reads_as_zeroes(rt: HostRuntime) {
    let mut image = closed(rt.alloc(), CLOSED.text);
    if image.is_err() {
        image = closed(rt.alloc(), CLOSED.text);
    }
    assert!(rt; image.is_ok());
    if let Ok(image) = image {
        answers(&rt, rt.alloc(), image, &CLOSED);
    }
}

/// A descriptor of three extents, or of one past 64 bits, how many of `a`, `b` and `c` a gate has,
/// which opening it refuses, and what opening the extents answers.
static REFUSED: [(&[u8], usize, u64, Error); 7] = [
    (THREE, 0, 0, Error::NotFound),
    (THREE, 1, 0, Error::NotFound),
    (THREE, 2, 0, Error::NotFound),
    (THREE, 3, 1, Error::Denied),
    (THREE, 3, 2, Error::Denied),
    (THREE, 3, 3, Error::Denied),
    (
        b"version=1\nRW 1 FLAT \"a\"\nRW 2 FLAT \"b\" 36028797018963968\n",
        3,
        0,
        Error::InvalidData,
    ),
];

const THREE: &[u8] = b"version=1\nRW 1 FLAT \"a\"\nRW 1 FLAT \"b\"\nRW 1 FLAT \"c\"\n";

static STORAGES: [(&str, Runs); 3] = [("a", &[(512, 1)]), ("b", &[(512, 2)]), ("c", &[(512, 3)])];

/// What a driver tells: its size, how many storages it has, and the mapping of a byte.
fn told<D: FormatDriverInstance>(driver: &D, offset: u64) -> (u64, usize, Mapped) {
    (
        driver.size(),
        driver.storage_count(),
        driver.get_mapping(offset, 1),
    )
}

fn told_by(image: &Image, offset: u64) -> (u64, usize, Mapped) {
    told(image, offset)
}

/// Nothing of the extents is there.
fn is_closed(rt: &impl Abort, image: &Image) {
    assert!(rt; told_by(image, 0) == (1536, 1, mapping_of(Expected::End)));
}

/// Opens the extents by a gate that has the first so many storages, and refuses its nth opening.
fn open_by(alloc: Global, image: &mut Image, count: usize, nth: u64) -> Result<(), Error> {
    let mut gate = gate_of(alloc, &STORAGES[..count.min(3)], nth)?;
    open_extents(alloc, image, &mut gate)
}

/// Opening the extents is refused so, and leaves none of them.
fn is_refused(rt: &impl Abort, alloc: Global, image: &mut Image, row: &(&[u8], usize, u64, Error)) {
    let (_, count, nth, refusal) = row;
    let mut answer = open_by(alloc, image, *count, *nth);
    if answer == Err(Error::Memory) {
        is_closed(rt, image);
        answer = open_by(alloc, image, *count, *nth);
    }
    assert!(rt; answer == Err(*refusal));
    is_closed(rt, image);
}

/// The extents of [`THREE`] are opened then, and once they are, no gate is asked any more.
fn is_opened_then(rt: &impl Abort, alloc: Global, image: &mut Image) {
    let mut answer = open_by(alloc, image, 3, 0);
    if answer == Err(Error::Memory) {
        answer = open_by(alloc, image, 3, 0);
    }
    assert!(rt; answer == Ok(()));
    let mapped = mapping_of(Expected::Raw(2, 88, true, 424));
    assert!(rt; told_by(image, 600) == (1536, 4, mapped));
    let again = open_by(alloc, image, 0, 1);
    assert!(rt; again == Ok(()) || again == Err(Error::Memory));
}

#[test]
fn extents_are_opened_all_or_none(rt: HostRuntime) {
    let alloc = rt.alloc();
    for row in &REFUSED {
        let mut image = closed(alloc, row.0);
        if image.is_err() {
            image = closed(alloc, row.0);
        }
        assert!(rt; image.is_ok());
        if let Ok(mut image) = image {
            is_refused(&rt, alloc, &mut image, row);
            if row.3 != Error::InvalidData {
                is_opened_then(&rt, alloc, &mut image);
            }
        }
    }
}

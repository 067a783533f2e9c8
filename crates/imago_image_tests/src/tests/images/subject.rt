// SPDX-License-Identifier: MIT
//! The images that a sweep is made on. What is done with them is generic, and named once for each
//! type, so that the proofs of the tests stay short.
use super::answer::Answer;
use super::image::{Call, above, alone, make};
use super::rule::Disk;
use super::set_up::{buffer, in_blocks, number, numbers, runs};
use imago_access::access::FormatAccess;
use imago_drivers::drivers::FormatDriverInstance;
use imago_drivers::raw::Raw;
use imago_storage::error::Error;
use imago_storage::mem::MemStorage;
use imago_storage::storage::Storage;
use imago_test_drivers::choppy::Choppy;
use imago_test_drivers::test_driver::TestDriver;
use imago_test_storages::faulty::{Faulty, Tear};
use imago_test_tables::sparse::{Settings, Sparse};
use imago_test_tables::table::Origin;
use std::alloc::Global;
use std::process::Abort;

/// The size of each disk, and of the layer below it, if there is one.
pub(super) const SIZE: usize = 2048;

const LOWER_SIZE: usize = 1200;

/// The first of the bytes of a disk's first storage, and of its second. They differ from offset to
/// offset, and none is zero.
const FIRST: u8 = 1;

const SECOND: u8 = 101;

/// Each byte of the layer below.
const LOWER: u8 = 0xdd;

/// Which driver a disk has.
#[derive(Clone, Copy)]
pub(super) enum Kind {
    /// A raw image.
    Raw,
    /// One in blocks of that length.
    Choppy(u64),
    /// The same, which are its granules.
    Granular(u64),
    /// A table, with nothing below.
    Table,
    /// A table above another one.
    Chain,
}

/// A driver, the alignments of its storages, and whether these offer zero writes.
#[derive(Clone, Copy)]
pub(super) struct Form {
    pub(super) kind: Kind,
    pub(super) align: usize,
    pub(super) zeroes: bool,
}

/// Which call of a storage fails. Of two storages, each fails for itself.
#[derive(Clone, Copy)]
pub(super) enum Fault {
    /// None.
    Never,
    /// One behind so many, of the first storage.
    First(u64, Tear),
    /// The same of the second storage, if there is one.
    Second(u64, Tear),
    /// The next resize.
    Resize,
}

/// An image that calls are made on.
#[derive(Drop)]
pub(super) enum Subject {
    Single(FormatAccess<TestDriver<Faulty>>),
    Table(FormatAccess<Sparse<Faulty>>),
}

/// Where the bytes of a table come from.
fn origin(offset: usize) -> Origin {
    match offset / 100 % 4 {
        0 => Origin::First,
        1 => Origin::Lower,
        2 => Origin::Zero,
        _ => Origin::Second,
    }
}

/// So many entries of a table.
fn table(rt: &impl Abort, alloc: Global, count: usize, lowest: bool) -> Vec<Origin> {
    let mut entries = Vec::new(alloc);
    if entries.resize(count, Origin::First).is_err() {
        entries
            .resize(count, Origin::First)
            .expect(rt, "memory for a table");
    }
    if !lowest {
        for (i, entry) in entries.iter_mut().enumerate() {
            *entry = origin(i);
        }
    }
    entries
}

/// The byte of a table at an offset, without what is below.
fn shown(offset: usize) -> Option<u8> {
    match origin(offset) {
        Origin::First => Some(number(offset, FIRST)),
        Origin::Second => Some(number(offset, SECOND)),
        Origin::Zero => Some(0),
        Origin::Lower | Origin::Barred => None,
    }
}

/// The bytes of the layer below.
fn lower(rt: &impl Abort, alloc: Global, kind: Kind) -> Vec<u8> {
    match kind {
        Kind::Chain => runs(rt, alloc, &[(LOWER_SIZE, LOWER)]),
        _ => Vec::new(alloc),
    }
}

/// A disk as it is at first.
pub(super) fn first_disk(rt: &impl Abort, alloc: Global, kind: Kind) -> Disk {
    let below = lower(rt, alloc, kind);
    let mut bytes = numbers(rt, alloc, SIZE, FIRST);
    if let Kind::Table | Kind::Chain = kind {
        for (i, byte) in bytes.iter_mut().enumerate() {
            *byte = match (shown(i), below.get(i)) {
                (Some(byte), _) => byte,
                (None, Some(byte)) => *byte,
                (None, None) => 0,
            };
        }
    }
    Disk { bytes, below }
}

/// A storage of these bytes that doesn't fail yet.
fn device(rt: &impl Abort, bytes: Vec<u8>, form: Form) -> Faulty {
    let storage = Faulty::new(in_blocks(rt, MemStorage::new(bytes), form.align));
    if form.zeroes {
        return storage;
    }
    storage.without_zero_writes()
}

/// The first storage, or the second, which fails at that call, if it is one of its own.
fn armed(rt: &impl Abort, alloc: Global, form: Form, fault: Fault, second: bool) -> Faulty {
    let first = if second { SECOND } else { FIRST };
    let mut storage = device(rt, numbers(rt, alloc, SIZE, first), form);
    match (fault, second) {
        (Fault::First(pass, tear), false) | (Fault::Second(pass, tear), true) => {
            storage.arm(pass, tear);
        }
        (Fault::Resize, false) => storage.refuse_resizes(1),
        _ => {}
    }
    storage
}

/// A writable table over two storages.
fn sparse<S: Storage>(rt: &impl Abort, first: S, second: S, table: Vec<Origin>) -> Sparse<S> {
    let settings = Settings {
        granularity: 64,
        writable: true,
        fail_commit_after: None,
        fail_granules: false,
    };
    let size = table.len() as u64;
    Sparse::new(first, second, table, size, settings).expect(rt, "a table that fits")
}

/// The layer below a table.
fn lowest(rt: &impl Abort, alloc: Global, form: Form) -> Sparse<Faulty> {
    let first = device(rt, runs(rt, alloc, &[(LOWER_SIZE, LOWER)]), form);
    let second = device(rt, Vec::new(alloc), form);
    sparse(rt, first, second, table(rt, alloc, LOWER_SIZE, true))
}

/// An image of a driver, above one of the other driver, if there is one, where there is memory for
/// it.
fn stacked<D: FormatDriverInstance>(
    alloc: Global,
    driver: D,
    below: Option<D>,
) -> Option<FormatAccess<D>> {
    match below {
        Some(below) => above(alloc, driver, alone(below)),
        None => Some(alone(driver)),
    }
}

/// An image of a table, whose storage fails at that call, where there is memory for it.
fn opened_table(
    rt: &impl Abort,
    alloc: Global,
    form: Form,
    fault: Fault,
) -> Option<FormatAccess<Sparse<Faulty>>> {
    let first = armed(rt, alloc, form, fault, false);
    let second = armed(rt, alloc, form, fault, true);
    let driver = sparse(rt, first, second, table(rt, alloc, SIZE, false));
    let below = match form.kind {
        Kind::Chain => Some(lowest(rt, alloc, form)),
        _ => None,
    };
    stacked(alloc, driver, below)
}

/// An image of one storage.
fn single<S: Storage>(rt: &impl Abort, storage: S, kind: Kind) -> FormatAccess<TestDriver<S>> {
    let raw = Raw::open_image(storage, true).expect(rt, "a raw image");
    alone(match kind {
        Kind::Choppy(cut) => TestDriver::Choppy(Choppy::new(raw, cut)),
        Kind::Granular(cut) => TestDriver::Choppy(Choppy::granular(raw, cut)),
        _ => TestDriver::Raw(raw),
    })
}

/// An image of one storage, which fails at that call.
fn opened_single(
    rt: &impl Abort,
    alloc: Global,
    form: Form,
    fault: Fault,
) -> FormatAccess<TestDriver<Faulty>> {
    single(rt, armed(rt, alloc, form, fault, false), form.kind)
}

impl Subject {
    /// An image of that form, whose storage fails at that call.
    pub(super) fn open(rt: &impl Abort, alloc: Global, form: Form, fault: Fault) -> Subject {
        match form.kind {
            Kind::Table | Kind::Chain => Subject::Table(
                match opened_table(rt, alloc, form, fault) {
                    Some(image) => image,
                    None => opened_table(rt, alloc, form, fault).expect(rt, "memory for a layer"),
                },
            ),
            _ => Subject::Single(opened_single(rt, alloc, form, fault)),
        }
    }

    /// Makes a call once. Answers the bytes of the disk then, too.
    pub(super) fn step(&mut self, rt: &impl Abort, alloc: Global, call: Call) -> (Answer, Vec<u8>) {
        match self {
            Subject::Single(image) => step_on_single(rt, alloc, image, call),
            Subject::Table(image) => step_on_table(rt, alloc, image, call),
        }
    }

    /// How often a device has failed, and the bytes of the layer below.
    pub(super) fn end(&self, rt: &impl Abort, alloc: Global) -> (u64, Vec<u8>) {
        match self {
            Subject::Single(image) => end_of_single(rt, alloc, image),
            Subject::Table(image) => end_of_table(rt, alloc, image),
        }
    }
}

/// Whether bytes are those first, and zeroes behind them.
fn is_begun_by(bytes: &[u8], first: &[u8]) -> bool {
    let Some(rest) = bytes.get(first.len()..) else {
        return false;
    };
    for &byte in rest {
        if byte != 0 {
            return false;
        }
    }
    bytes.get(..first.len()) == Some(first)
}

/// The bytes of an image.
fn contents<D: FormatDriverInstance>(
    rt: &impl Abort,
    alloc: Global,
    image: &FormatAccess<D>,
) -> Vec<u8> {
    let size = image.size();
    assert!(rt; size < 1 << 20, "a short disk");
    let mut bytes = buffer(rt, alloc, size as usize);
    let mut answer = image.read(alloc, &mut bytes, 0);
    if answer == Err(Error::Memory) {
        answer = image.read(alloc, &mut bytes, 0);
    }
    assert_eq!(rt; answer, Ok(()));
    bytes
}

/// The storage of that index.
fn storage_of<'a, D: FormatDriverInstance<Storage = Faulty>>(
    rt: &impl Abort,
    image: &'a FormatAccess<D>,
    index: usize,
) -> &'a Faulty {
    image.inner().storage(index).expect(rt, "a storage")
}

/// Makes a call once. A storage that is all of a disk has its bytes then, and zeroes behind them.
fn step<D: FormatDriverInstance<Storage = Faulty>>(
    rt: &impl Abort,
    alloc: Global,
    image: &mut FormatAccess<D>,
    call: Call,
) -> (Answer, Vec<u8>) {
    let answer = make(rt, alloc, image, call);
    let bytes = contents(rt, alloc, &*image);
    if image.inner().storage_count() == 1 {
        let stored = storage_of(rt, &*image, 0).as_bytes();
        assert!(rt; is_begun_by(stored, &bytes), "other bytes are stored");
    }
    (answer, bytes)
}

/// How often a device has failed, and the bytes of the layer below.
fn end<D: FormatDriverInstance<Storage = Faulty>>(
    rt: &impl Abort,
    alloc: Global,
    image: &FormatAccess<D>,
) -> (u64, Vec<u8>) {
    let mut faults: u64 = 0;
    for index in 0..image.inner().storage_count() {
        faults = faults.saturating_add(storage_of(rt, image, index).faults());
    }
    match image.backing() {
        Some(below) => (faults, contents(rt, alloc, below)),
        None => (faults, Vec::new(alloc)),
    }
}

fn step_on_single(
    rt: &impl Abort,
    alloc: Global,
    image: &mut FormatAccess<TestDriver<Faulty>>,
    call: Call,
) -> (Answer, Vec<u8>) {
    step(rt, alloc, image, call)
}

fn step_on_table(
    rt: &impl Abort,
    alloc: Global,
    image: &mut FormatAccess<Sparse<Faulty>>,
    call: Call,
) -> (Answer, Vec<u8>) {
    step(rt, alloc, image, call)
}

fn end_of_single(
    rt: &impl Abort,
    alloc: Global,
    image: &FormatAccess<TestDriver<Faulty>>,
) -> (u64, Vec<u8>) {
    end(rt, alloc, image)
}

fn end_of_table(
    rt: &impl Abort,
    alloc: Global,
    image: &FormatAccess<Sparse<Faulty>>,
) -> (u64, Vec<u8>) {
    end(rt, alloc, image)
}

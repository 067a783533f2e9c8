// SPDX-License-Identifier: MIT
//! The disks that the tests are made on.
use super::call::{Answer, Call, Kind, Level, Step, kinds, make_lent, on, shown};
use super::model::{BLOCK, Model};
use super::set_up::{equal, numbers};
use imago_access::access::FormatAccess;
use imago_cow::cow::Cow;
use imago_drivers::drivers::{FormatDriverInstance, PreallocateMode};
use imago_drivers::raw::Raw;
use imago_storage::error::Error;
use imago_storage::mem::MemStorage;
use imago_storage::storage::is_alignment;
use imago_test_storages::faulty::{Faulty, Tear};
use std::alloc::Global;
use std::mem::replace;
use std::process::Abort;

/// A driver of disks in guest blocks, over a storage that fails when it is told to.
pub(super) trait Disk {
    /// A disk of that size in blocks, where there is memory for its table.
    fn create(
        rt: &impl Abort,
        alloc: Global,
        storage: Faulty,
        parts: (u64, u64),
    ) -> Result<Self, Error>;

    /// The length of a guest block.
    fn block(&self) -> u64;

    /// How many guest blocks are in data blocks.
    fn used(&self) -> u64;
}

impl Disk for Cow<Faulty> {
    fn create(
        rt: &impl Abort,
        alloc: Global,
        storage: Faulty,
        (size, block): (u64, u64),
    ) -> Result<Self, Error> {
        assert!(rt; block.is_power_of_two() && block <= 1_048_576);
        Cow::create(alloc, storage, size, block)
    }

    fn block(&self) -> u64 {
        self.block_size()
    }

    fn used(&self) -> u64 {
        self.blocks_used()
    }
}

/// A driver of images that other drivers are lent.
pub(super) trait LentDriver {
    /// The image in a storage, which may not be written.
    fn open(rt: &impl Abort, storage: Faulty) -> Self;
}

impl LentDriver for Raw<Faulty> {
    fn open(rt: &impl Abort, storage: Faulty) -> Self {
        Raw::open_image(storage, false).expect(rt, "a raw image")
    }
}

/// The first of the bytes of the layer below. They differ from offset to offset, and none is zero.
const LOWER: u8 = 150;

const LOWER_SIZE: u64 = 50;

/// What a storage held before.
const OLD: u8 = 0x99;

const OLD_LENGTH: u64 = 20;

/// The alignments of a storage.
#[derive(Clone, Copy)]
pub(super) struct Form {
    pub(super) align: usize,
}

/// What fails.
#[derive(Clone, Copy)]
pub(super) enum Fault {
    Never,
    /// The call of the disk's storage behind so many.
    Storage(u64, Tear),
    /// Each read of the layer below, or of the storage of a lowest layer.
    Below,
}

/// A disk above another one, and an image with the bytes of that one, which the driver is lent.
#[derive(Drop)]
pub(super) struct Subject<D, E> {
    image: FormatAccess<D>,
    lent: FormatAccess<E>,
    /// The layer below fails, and so does the lent image.
    fails: bool,
}

/// A storage that fails at that call, or at each read.
fn device(rt: &impl Abort, alloc: Global, form: Form, fault: Fault) -> Faulty {
    assert!(rt; is_alignment(form.align));
    let bytes = equal(rt, alloc, OLD_LENGTH, OLD);
    let mut storage = Faulty::new(MemStorage::new(bytes).with_align(form.align));
    match fault {
        Fault::Never => {}
        Fault::Storage(pass, tear) => storage.arm(pass, tear),
        Fault::Below => storage.fail_reads(true),
    }
    storage
}

/// The simplest storage.
pub(super) const PLAIN: Form = Form { align: 1 };

/// A disk of that size in blocks, over a storage that fails at that call.
pub(super) fn created<D: FormatDriverInstance<Storage = Faulty> + Disk>(
    rt: &impl Abort,
    alloc: Global,
    parts: (u64, u64),
    form: Form,
    fault: Fault,
) -> D {
    match D::create(rt, alloc, device(rt, alloc, form, fault), parts) {
        Ok(driver) => driver,
        Err(_) => {
            let storage = device(rt, alloc, form, fault);
            D::create(rt, alloc, storage, parts).expect(rt, "memory for a table")
        }
    }
}

/// A driver above an image.
pub(super) fn above<D: FormatDriverInstance>(
    rt: &impl Abort,
    driver: D,
    below: Option<Box<FormatAccess<D>>>,
) -> FormatAccess<D> {
    FormatAccess::with_backing(driver, below.expect(rt, "memory for a layer"))
}

/// The layer below, all of it in data blocks. Each read of it fails, or none.
fn lower<D: FormatDriverInstance<Storage = Faulty> + Disk>(
    rt: &impl Abort,
    alloc: Global,
    fails: bool,
) -> FormatAccess<D> {
    let fault = if fails { Fault::Below } else { Fault::Never };
    let driver = created(rt, alloc, (LOWER_SIZE, BLOCK), PLAIN, fault);
    let mut image = FormatAccess::new(driver);
    on(rt, alloc, &mut image, Call::Write(0, LOWER_SIZE, LOWER));
    image
}

/// The layer below, where there is memory for it.
fn boxed_lower<D: FormatDriverInstance<Storage = Faulty> + Disk>(
    rt: &impl Abort,
    alloc: Global,
    fails: bool,
) -> Option<Box<FormatAccess<D>>> {
    match Box::new(alloc, lower(rt, alloc, fails)) {
        Ok(below) => Some(below),
        Err(_) => Box::new(alloc, lower(rt, alloc, fails)).ok(),
    }
}

/// An image with the bytes of the layer below, which a driver is lent. Each read of it fails, or
/// none.
fn lent<E: FormatDriverInstance<Storage = Faulty> + LentDriver>(
    rt: &impl Abort,
    alloc: Global,
    fails: bool,
) -> FormatAccess<E> {
    let bytes = numbers(rt, alloc, LOWER_SIZE, LOWER);
    let mut storage = Faulty::new(MemStorage::new(bytes));
    storage.fail_reads(fails);
    FormatAccess::new(E::open(rt, storage))
}

impl<
    D: FormatDriverInstance<Storage = Faulty> + Disk,
    E: FormatDriverInstance<Storage = Faulty> + LentDriver,
> Subject<D, E> {
    /// A disk of that size above the layer, over a storage that fails at that call.
    pub(super) fn open(
        rt: &impl Abort,
        alloc: Global,
        size: u64,
        form: Form,
        fault: Fault,
    ) -> Self {
        let fault = match fault {
            Fault::Below => Fault::Never,
            other => other,
        };
        let driver = created(rt, alloc, (size, BLOCK), form, fault);
        Subject {
            image: above(rt, driver, boxed_lower(rt, alloc, false)),
            lent: lent(rt, alloc, false),
            fails: false,
        }
    }

    /// Puts a layer that fails, or one that doesn't, in the place of the one below.
    pub(super) fn fail_below(&mut self, rt: &impl Abort, alloc: Global, fails: bool) {
        if self.fails == fails {
            return;
        }
        let spare = created(rt, alloc, (0, BLOCK), PLAIN, Fault::Never);
        let driver = replace(self.image.inner_mut(), spare);
        self.image = above(rt, driver, boxed_lower(rt, alloc, fails));
        self.lent = lent(rt, alloc, fails);
        self.fails = fails;
    }

    /// Makes a call once.
    pub(super) fn make(&mut self, rt: &impl Abort, alloc: Global, step: Step) -> Answer {
        make_lent(rt, alloc, &mut self.image, &self.lent, step)
    }

    /// The bytes of the disk.
    pub(super) fn contents(&self, rt: &impl Abort, alloc: Global) -> Vec<u8> {
        shown(rt, alloc, &self.image)
    }

    /// What its guest blocks are.
    pub(super) fn kinds(&self, rt: &impl Abort, alloc: Global) -> Vec<Kind> {
        kinds(rt, alloc, self.image.inner(), BLOCK)
    }

    /// How many data blocks are used.
    pub(super) fn used(&self) -> u64 {
        self.image.inner().used()
    }

    /// The length of the disk's storage.
    pub(super) fn stored(&self, rt: &impl Abort) -> u64 {
        storage_of(rt, &self.image).as_bytes().len() as u64
    }

    /// How often the disk's storage has failed.
    pub(super) fn faults(&self, rt: &impl Abort) -> u64 {
        storage_of(rt, &self.image).faults()
    }

    /// The bytes of the layer below, which the lent image has too.
    pub(super) fn below(&self, rt: &impl Abort, alloc: Global) -> Vec<u8> {
        let below = shown(rt, alloc, self.image.backing().expect(rt, "a layer below"));
        assert!(rt;
            storage_of(rt, &self.lent).as_bytes() == below.as_slice(),
            "the lent layer has changed"
        );
        below
    }
}

/// The disk as it is at first: each place leads below.
pub(super) fn first_model(rt: &impl Abort, alloc: Global, size: u64) -> Model {
    let below = numbers(rt, alloc, LOWER_SIZE, LOWER);
    let mut model = Model {
        bytes: Vec::new(alloc),
        kinds: Vec::new(alloc),
        below,
        peak: 0,
    };
    let growth = Call::Grow(size, PreallocateMode::None);
    assert_eq!(rt; model.make(rt, (Level::Image, growth), &[]), Answer::Done);
    model
}

/// The length that a storage may have at most.
pub(super) fn longest(model: &Model, form: Form) -> u64 {
    let used = model.peak.saturating_mul(BLOCK);
    used.saturating_add(form.align as u64)
        .saturating_sub(1)
        .max(OLD_LENGTH)
}

/// The storage of an image.
pub(super) fn storage_of<'a, D: FormatDriverInstance<Storage = Faulty>>(
    rt: &impl Abort,
    image: &'a FormatAccess<D>,
) -> &'a Faulty {
    image.inner().storage(0).expect(rt, "a storage")
}

// SPDX-License-Identifier: MIT
//! Three copy-on-write disks above one another.
use super::call::{Call, on, shown, told_mapping};
use super::subject::{Disk, Fault, PLAIN, above, created};
use super::trial::{Trial, try_cow};
use imago_access::access::FormatAccess;
use imago_drivers::drivers::FormatDriverInstance;
use imago_test_storages::faulty::Faulty;
use std::alloc::Global;
use std::process::Abort;

/// A disk's size, its block's length, and what is done to it.
type Layer = (u64, u64, &'static [Call]);

/// The bytes 1 to 12, four explicit zeroes, and a guest block that leads nowhere.
const BOTTOM: Layer = (20, 4, &[Call::Write(0, 12, 1), Call::WriteZeroes(12, 4)]);

/// The bytes 4 and 5 are written, 8 to 12 are explicit zeroes, and the last guest block is given
/// back.
static MIDDLE: Layer = (
    24,
    4,
    &[
        Call::Write(20, 4, 31),
        Call::DiscardToBacking(20, 4),
        Call::Write(4, 2, 21),
        Call::WriteZeroes(8, 4),
    ],
);

/// The byte 9 is written.
const TOP: Layer = (32, 8, &[Call::Write(9, 1, 41)]);

/// What the lower layers show.
static OF_BOTTOM: [u8; 20] = [
    1, 2, 3, 4, 5, 6, 7, 8, 9, 10, 11, 12, 0, 0, 0, 0, 0, 0, 0, 0,
];

static OF_MIDDLE: [u8; 24] = [
    1, 2, 3, 4, 21, 22, 7, 8, 0, 0, 0, 0, 0, 0, 0, 0, 0, 0, 0, 0, 0, 0, 0, 0,
];

/// A call of the top layer, what a range is then, through all layers, and the first bytes of the
/// disk.
type Row = (Call, (u64, u64), (&'static str, u64), [u8; 16]);

const WRITTEN: [u8; 16] = [1, 2, 3, 4, 21, 22, 7, 8, 0, 41, 0, 0, 0, 0, 0, 0];

const GIVEN_BACK: [u8; 16] = [1, 2, 3, 4, 21, 22, 7, 8, 0, 0, 0, 0, 0, 0, 0, 0];

/// Nothing is changed.
const NONE: Call = Call::Shrink(32);

const UNALLOCATED: &str = "<zero:unallocated>";

static ROWS: [Row; 15] = [
    (NONE, (0, 32), ("2/0:0x0/ro", 4), WRITTEN),
    (NONE, (1, 2), ("2/0:0x1/ro", 2), WRITTEN),
    (NONE, (4, 9), ("1/0:0x0/ro", 4), WRITTEN),
    (NONE, (8, 32), ("0/0:0x0/rw", 8), WRITTEN),
    (NONE, (13, 9), ("0/0:0x5/rw", 3), WRITTEN),
    // nothing is below, the lowest layer ends, and so does the next one
    (NONE, (16, 9), (UNALLOCATED, 4), WRITTEN),
    (NONE, (20, 9), (UNALLOCATED, 4), WRITTEN),
    (NONE, (24, 9), (UNALLOCATED, 8), WRITTEN),
    // explicit zeroes of a lower layer
    (
        Call::DiscardToBacking(8, 8),
        (8, 8),
        (UNALLOCATED, 4),
        GIVEN_BACK,
    ),
    (NONE, (12, 4), (UNALLOCATED, 4), GIVEN_BACK),
    (
        Call::WriteZeroes(0, 8),
        (0, 32),
        ("<zero:explicit>", 8),
        [0; 16],
    ),
    (
        Call::DiscardToBacking(0, 8),
        (4, 4),
        ("1/0:0x0/ro", 4),
        GIVEN_BACK,
    ),
    (
        Call::DiscardToAny(8, 8),
        (8, 8),
        ("<zero:explicit>", 8),
        GIVEN_BACK,
    ),
    (
        Call::Write(6, 1, 99),
        (0, 9),
        ("0/0:0x0/rw", 8),
        [1, 2, 3, 4, 21, 22, 99, 8, 0, 0, 0, 0, 0, 0, 0, 0],
    ),
    (
        Call::Write(16, 1, 9),
        (17, 32),
        ("0/0:0x9/rw", 7),
        [1, 2, 3, 4, 21, 22, 99, 8, 0, 0, 0, 0, 0, 0, 0, 0],
    ),
];

/// Makes calls of an image that succeed.
fn on_each<D: FormatDriverInstance<Storage = Faulty> + Disk>(
    rt: &impl Abort,
    alloc: Global,
    image: &mut FormatAccess<D>,
    calls: &[Call],
) {
    for &call in calls {
        on(rt, alloc, image, call);
    }
}

/// A layer above others, or the lowest.
fn layer<D: FormatDriverInstance<Storage = Faulty> + Disk>(
    rt: &impl Abort,
    alloc: Global,
    (size, block, calls): Layer,
    below: Option<Box<FormatAccess<D>>>,
) -> FormatAccess<D> {
    let driver = created(rt, alloc, (size, block), PLAIN, Fault::Never);
    let mut image = match below {
        None => FormatAccess::new(driver),
        Some(_) => above(rt, driver, below),
    };
    on_each(rt, alloc, &mut image, calls);
    image
}

/// The three layers, where there is memory for them.
fn layers<D: FormatDriverInstance<Storage = Faulty> + Disk>(
    rt: &impl Abort,
    alloc: Global,
) -> Option<FormatAccess<D>> {
    let bottom = Box::new(alloc, layer(rt, alloc, BOTTOM, None)).ok()?;
    let middle = Box::new(alloc, layer(rt, alloc, MIDDLE, Some(bottom))).ok()?;
    Some(layer(rt, alloc, TOP, Some(middle)))
}

/// The disk begins with these bytes, and the layers below it are as they were.
fn are_shown<D: FormatDriverInstance<Storage = Faulty> + Disk>(
    rt: &impl Abort,
    alloc: Global,
    image: &FormatAccess<D>,
    bytes: &[u8],
) {
    assert!(rt;
        shown(rt, alloc, image).get(..16) == Some(bytes),
        "other bytes are shown"
    );
    let middle = image.backing().expect(rt, "a layer");
    assert!(rt; shown(rt, alloc, middle).as_slice() == OF_MIDDLE.as_slice());
    let bottom = middle.backing().expect(rt, "a layer");
    assert!(rt; shown(rt, alloc, bottom).as_slice() == OF_BOTTOM.as_slice());
}

/// The rows on three disks that stand on one another.
pub(super) fn stand_on_one_another<D: FormatDriverInstance<Storage = Faulty> + Disk>(
    rt: &impl Abort,
    alloc: Global,
) {
    let mut image = match layers::<D>(rt, alloc) {
        Some(image) => image,
        None => layers(rt, alloc).expect(rt, "memory for layers"),
    };
    for &(call, range, (text, length), bytes) in &ROWS {
        on(rt, alloc, &mut image, call);
        let (mapping, count) = told_mapping(rt, alloc, &image, range);
        assert_eq!(rt; mapping.as_str(), text);
        assert_eq!(rt; count, length);
        are_shown(rt, alloc, &image, &bytes);
    }
}

#[test]
fn three_disks_stand_on_one_another(rt: HostRuntime) {
    try_cow(&rt, rt.alloc(), Trial::Layers);
}

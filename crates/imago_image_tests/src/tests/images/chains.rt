// SPDX-License-Identifier: MIT
//! Images whose layers have different drivers.
use super::answer::Answer;
use super::image::{Call, above, alone, on_driver, script};
use super::set_up::stored;
use imago_access::access::FormatAccess;
use imago_drivers::raw::Raw;
use imago_storage::error::Error;
use imago_storage::mem::MemStorage;
use imago_storage::storage::Storage;
use imago_test_drivers::pattern::{Kind, Pattern};
use imago_test_drivers::test_driver::TestDriver;
use std::alloc::Global;
use std::process::Abort;

/// What shows the layer below at the same offset.
const BELOW: Kind = Kind::Below { writable: true };

/// An image of one kind of place above another image, where there is memory for it.
fn above_kind<S: Storage>(
    alloc: Global,
    kind: Kind,
    size: u64,
    below: FormatAccess<TestDriver<S>>,
) -> Option<FormatAccess<TestDriver<S>>> {
    let driver = TestDriver::Pattern(Pattern::new(kind, size));
    above(alloc, driver, below)
}

/// A layer of each of these kinds and of that size above an image, where there is memory for them.
fn above_each<S: Storage>(
    alloc: Global,
    kinds: &[Kind],
    size: u64,
    below: FormatAccess<TestDriver<S>>,
) -> Option<FormatAccess<TestDriver<S>>> {
    let mut image = below;
    for &kind in kinds {
        image = above_kind(alloc, kind, size, image)?;
    }
    Some(image)
}

/// A raw image for such layers to stand on.
fn lowest<S: Storage>(rt: &impl Abort, storage: S) -> FormatAccess<TestDriver<S>> {
    let raw = Raw::open_image(storage, true).expect(rt, "a raw image");
    alone(TestDriver::Raw(raw))
}

/// Such layers, so often, above an image, where there is memory for them.
fn layers<S: Storage>(
    alloc: Global,
    below: FormatAccess<TestDriver<S>>,
    (kinds, times): (&[Kind], usize),
    size: u64,
) -> Option<FormatAccess<TestDriver<S>>> {
    let mut image = below;
    for _ in 0..times {
        image = above_each(alloc, kinds, size, image)?;
    }
    Some(image)
}

/// The calls on such layers. Answers whether there was memory for them.
fn on_storage<S: Storage>(
    rt: &impl Abort,
    alloc: Global,
    storage: S,
    (kinds, times): (&[Kind], usize),
    size: u64,
    calls: &[(Call, Answer)],
) -> bool {
    match layers(alloc, lowest(rt, storage), (kinds, times), size) {
        Some(mut image) => {
            script(rt, alloc, &mut image, calls);
            true
        }
        None => false,
    }
}

/// The calls on such layers above so many equal bytes. Answers whether there was memory for them.
fn on_once(
    rt: &impl Abort,
    alloc: Global,
    (count, byte): (usize, u8),
    (kinds, times, size): (&[Kind], usize, u64),
    calls: &[(Call, Answer)],
) -> bool {
    let storage = stored(rt, alloc, &[(count, byte)]);
    on_storage(rt, alloc, storage, (kinds, times), size, calls)
}

/// The calls on layers of these kinds and that size above so many equal bytes.
fn on_layers(
    rt: &impl Abort,
    alloc: Global,
    bytes: (usize, u8),
    (kinds, size): (&[Kind], u64),
    calls: &[(Call, Answer)],
) {
    let done = on_once(rt, alloc, bytes, (kinds, 1, size), calls)
        || on_once(rt, alloc, bytes, (kinds, 1, size), calls);
    assert!(rt; done, "memory was refused twice");
}

/// The calls on an image of one kind of place with nothing below it, as a layer above storages of
/// one type has it.
fn on_kind<S: Storage>(
    rt: &impl Abort,
    alloc: Global,
    kind: Kind,
    size: u64,
    calls: &[(Call, Answer)],
) {
    let driver: TestDriver<S> = TestDriver::Pattern(Pattern::new(kind, size));
    on_driver(rt, alloc, driver, calls);
}

/// The same where storages are in memory.
fn on_pattern(rt: &impl Abort, alloc: Global, kind: Kind, size: u64, calls: &[(Call, Answer)]) {
    on_kind::<MemStorage>(rt, alloc, kind, size, calls);
}

static READ_WRITE: [(Call, Answer); 1] = [(Call::Map(0, 512, "1/0:0x0/rw"), Answer::Length(512))];

static READ_ONLY: [(Call, Answer); 1] = [(Call::Map(0, 512, "2/0:0x0/ro"), Answer::Length(512))];

fn check_each_layer_says_whether_it_may_be_written(rt: &impl Abort, alloc: Global) {
    let fixed = Kind::Below { writable: false };
    on_layers(rt, alloc, (1024, 0), (&[BELOW], 1024), &READ_WRITE);
    on_layers(rt, alloc, (1024, 0), (&[BELOW, fixed], 1024), &READ_ONLY);
}

#[test]
fn each_layer_says_whether_it_may_be_written(rt: HostRuntime) {
    check_each_layer_says_whether_it_may_be_written(&rt, rt.alloc());
}

/// Above 512 bytes 11.
static ENDS: [(Call, Answer); 2] = [
    (Call::ReadRuns(0, &[(512, 0x11), (512, 0)]), Answer::Done),
    (
        Call::Map(512, 512, "<zero:unallocated>"),
        Answer::Length(512),
    ),
];

#[test]
fn a_layer_below_may_end_before(rt: HostRuntime) {
    on_layers(&rt, rt.alloc(), (512, 0x11), (&[BELOW], 1024), &ENDS);
}

static EXPLICIT: [(Call, Answer); 1] = [(
    Call::Map(0, 512, "<zero:explicit>"),
    Answer::Length(512),
)];

static UNALLOCATED: [(Call, Answer); 1] = [(
    Call::Map(0, 512, "<zero:unallocated>"),
    Answer::Length(512),
)];

fn check_zeroes_are_explicit_in_the_top_layer_alone(rt: &impl Abort, alloc: Global) {
    on_pattern(rt, alloc, Kind::Zeroes, 512, &EXPLICIT);
    let kinds = [Kind::Zeroes, BELOW];
    on_layers(rt, alloc, (1, 1), (&kinds, 512), &UNALLOCATED);
}

#[test]
fn zeroes_are_explicit_in_the_top_layer_alone(rt: HostRuntime) {
    check_zeroes_are_explicit_in_the_top_layer_alone(&rt, rt.alloc());
}

static SPECIAL: [(Call, Answer); 2] = [
    (Call::Map(2, 4, "<special:0:0x2>"), Answer::Length(4)),
    (Call::Read(2, &[0x5a; 4]), Answer::Done),
];

static UNREADABLE: [(Call, Answer); 2] = [
    (Call::Map(2, 4, "<special:0:0x2>"), Answer::Length(4)),
    (
        Call::Read(2, &[0x5a; 4]),
        Answer::Refused(Error::Unsupported),
    ),
];

fn check_special_bytes_are_read_where_they_can_be(rt: &impl Abort, alloc: Global) {
    let byte = 0x5a;
    let readable = Kind::Special {
        byte,
        readable: true,
    };
    on_pattern(rt, alloc, readable, 8, &SPECIAL);
    let unreadable = Kind::Special {
        byte,
        readable: false,
    };
    on_pattern(rt, alloc, unreadable, 8, &UNREADABLE);
}

#[test]
fn special_bytes_are_read_where_they_can_be(rt: HostRuntime) {
    check_special_bytes_are_read_where_they_can_be(&rt, rt.alloc());
}

/// Above 512 bytes 11.
static KEPT: [(Call, Answer); 5] = [
    (Call::Write(0, &[7]), Answer::Refused(Error::ReadOnly)),
    (Call::Read(0, &[0x11; 2]), Answer::Done),
    (Call::ReadBelow(0, &[0x11; 2]), Answer::Done),
    (Call::Print("pattern[512B]"), Answer::Is(true)),
    (
        Call::PrintChain("pattern[512B] over raw[mem:[512B]]"),
        Answer::Is(true),
    ),
];

fn check_a_pattern_is_not_written_through(rt: &impl Abort, alloc: Global) {
    on_layers(rt, alloc, (512, 0x11), (&[BELOW], 512), &KEPT);
}

#[test]
fn a_pattern_is_not_written_through(rt: HostRuntime) {
    check_a_pattern_is_not_written_through(&rt, rt.alloc());
}

/// On a chain of that many layers above 16 bytes 11.
static CHAIN: [(Call, Answer); 5] = [
    (Call::Read(14, &[0x11, 0x11, 0, 0]), Answer::Done),
    (Call::Map(14, 4, "100000/0:0xe/rw"), Answer::Length(2)),
    (Call::Depth, Answer::Length(100_000)),
    (Call::Aligns, Answer::Aligns(1, 1)),
    (Call::Print("pattern[16B]"), Answer::Is(true)),
];

fn check_a_long_chain_needs_no_stack(rt: &impl Abort, alloc: Global) {
    let done = on_once(rt, alloc, (16, 0x11), (&[BELOW], 100_000, 16), &CHAIN)
        || on_once(rt, alloc, (16, 0x11), (&[BELOW], 100_000, 16), &CHAIN);
    assert!(rt; done, "memory was refused twice");
}

#[test]
fn a_long_chain_needs_no_stack(rt: HostRuntime) {
    check_a_long_chain_needs_no_stack(&rt, rt.alloc());
}

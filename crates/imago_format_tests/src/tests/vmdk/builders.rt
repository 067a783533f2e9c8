// SPDX-License-Identifier: MIT
//! Builders of VMDK images: what they keep, what they ask of a gate, and what they open.
use super::set_up::{Gate, add, name, recorded, storage_of};
use imago_drivers::builder::FormatDriverBuilder;
use imago_drivers::drivers::FormatDriverInstance;
use imago_drivers::gate::{ImplicitOpenGate, NamedGate};
use imago_storage::error::Error;
use imago_storage::mem::MemStorage;
use imago_storage::storage::{Storage, StorageOpenOptions};
use imago_vmdk::vmdk::VmdkOpenBuilder;
use std::alloc::Global;
use std::process::Abort;

/// What opening an image by a builder answers, and asks of a gate with storages `d`, which has the
/// descriptor, `a` and `b`.
struct Case {
    text: &'static [u8],
    /// Whether the descriptor is opened by its path, or handed in.
    at_path: bool,
    write: bool,
    with_options: bool,
    /// Whether keys that aren't known are accepted, if that is told.
    accept: Option<bool>,
    /// Whether VMFS extents are accepted, if that is told.
    vmfs: Option<bool>,
    /// The size of the disk, or the refusal.
    answer: Result<u64, Error>,
    /// The names that are asked for.
    asked: &'static [&'static str],
}

const TWO: &[u8] = b"version=1\nRW 1 FLAT \"a\"\nRDONLY 1 FLAT \"b\"\n";

const ENCODED: &[u8] = b"version=1\nencoding=\"UTF-8\"\nRW 1 ZERO\n";

/// Laid out as QEMU writes `twoGbMaxExtentFlat`, with the line for the encoding that other programs
/// add.
const LAID_OUT: &[u8] =
    b"# Disk DescriptorFile\nversion=1\nencoding=\"UTF-8\"\nCID=1c8a4d02\nparentCID=ffffffff\n\
    createType=\"twoGbMaxExtentFlat\"\n\n# Extent description\nRW 2 FLAT \"a\" 0\n\
    RW 1 FLAT \"b\" 0\n\n# The Disk Data Base\n#DDB\n\nddb.virtualHWVersion = \"4\"\n\
    ddb.geometry.cylinders = \"1\"\nddb.geometry.heads = \"16\"\nddb.geometry.sectors = \"63\"\n\
    ddb.adapterType = \"ide\"\nddb.toolsVersion = \"2147483647\"\n";

/// Extents as ESX names them.
const ESX: &[u8] =
    b"# Disk DescriptorFile\nversion=1\nCID=fffffffe\nparentCID=ffffffff\ncreateType=\"vmfs\"\n\n\
    # Extent description\nRW 2 VMFS \"a\"\nRW 1 VMFS \"b\"\n\nddb.adapterType = \"lsilogic\"\n";

/// A VMFS extent with an offset, which QEMU refuses too.
const ESX_WITH_OFFSET: &[u8] = b"version=1\ncreateType=\"vmfs\"\nRW 1 VMFS \"a\" 0\n";

static CASES: [Case; 21] = [
    Case {
        text: TWO,
        at_path: false,
        write: false,
        with_options: false,
        accept: None,
        vmfs: None,
        answer: Ok(1024),
        asked: &["a", "b"],
    },
    Case {
        text: TWO,
        at_path: true,
        write: false,
        with_options: true,
        accept: None,
        vmfs: None,
        answer: Ok(1024),
        asked: &["d", "a", "b"],
    },
    Case {
        text: TWO,
        at_path: false,
        write: false,
        with_options: true,
        accept: Some(true),
        vmfs: None,
        answer: Ok(1024),
        asked: &["a", "b"],
    },
    Case {
        text: TWO,
        at_path: true,
        write: true,
        with_options: true,
        accept: None,
        vmfs: None,
        answer: Err(Error::Unsupported),
        asked: &[],
    },
    Case {
        text: b"version=1\nRW 1 FLAT \"b\"\nRW 1 FLAT \"c\"\nRW 1 FLAT \"a\"\n",
        at_path: false,
        write: false,
        with_options: false,
        accept: None,
        vmfs: None,
        answer: Err(Error::NotFound),
        asked: &["b", "c"],
    },
    Case {
        text: b"version=1\nRW x FLAT \"b\"\n",
        at_path: false,
        write: false,
        with_options: false,
        accept: None,
        vmfs: None,
        answer: Err(Error::InvalidData),
        asked: &[],
    },
    Case {
        text: ENCODED,
        at_path: false,
        write: false,
        with_options: false,
        accept: None,
        vmfs: None,
        answer: Err(Error::InvalidData),
        asked: &[],
    },
    Case {
        text: ENCODED,
        at_path: true,
        write: false,
        with_options: false,
        accept: Some(true),
        vmfs: None,
        answer: Ok(512),
        asked: &["d"],
    },
    Case {
        text: ENCODED,
        at_path: true,
        write: false,
        with_options: true,
        accept: Some(true),
        vmfs: None,
        answer: Ok(512),
        asked: &["d"],
    },
    Case {
        text: LAID_OUT,
        at_path: true,
        write: false,
        with_options: false,
        accept: None,
        vmfs: None,
        answer: Err(Error::InvalidData),
        asked: &["d"],
    },
    Case {
        text: LAID_OUT,
        at_path: true,
        write: false,
        with_options: false,
        accept: Some(true),
        vmfs: None,
        answer: Ok(1536),
        asked: &["d", "a", "b"],
    },
    Case {
        text: b"version=1\nRW=1\nfoo=1\n",
        at_path: true,
        write: false,
        with_options: false,
        accept: Some(true),
        vmfs: None,
        answer: Ok(0),
        asked: &["d"],
    },
    Case {
        text: b"version=1\nRW x ZERO\n",
        at_path: true,
        write: false,
        with_options: false,
        accept: Some(true),
        vmfs: None,
        answer: Err(Error::InvalidData),
        asked: &["d"],
    },
    Case {
        text: b"version=1\nddb.geometry.heads = \"x\"\n",
        at_path: true,
        write: false,
        with_options: false,
        accept: Some(true),
        vmfs: None,
        answer: Err(Error::InvalidData),
        asked: &["d"],
    },
    Case {
        text: b"version=1\nparentFileNameHint=\"p\"\n",
        at_path: true,
        write: false,
        with_options: false,
        accept: Some(true),
        vmfs: None,
        answer: Err(Error::Unsupported),
        asked: &["d"],
    },
    Case {
        text: b"version=4\nfoo=1\n",
        at_path: true,
        write: false,
        with_options: false,
        accept: Some(true),
        vmfs: None,
        answer: Err(Error::Unsupported),
        asked: &["d"],
    },
    Case {
        text: ESX,
        at_path: true,
        write: false,
        with_options: false,
        accept: None,
        vmfs: None,
        answer: Err(Error::Unsupported),
        asked: &["d"],
    },
    Case {
        text: ESX,
        at_path: true,
        write: false,
        with_options: false,
        accept: Some(true),
        vmfs: Some(false),
        answer: Err(Error::Unsupported),
        asked: &["d"],
    },
    Case {
        text: ESX,
        at_path: true,
        write: false,
        with_options: false,
        accept: None,
        vmfs: Some(true),
        answer: Ok(1536),
        asked: &["d", "a", "b"],
    },
    Case {
        text: ESX_WITH_OFFSET,
        at_path: false,
        write: false,
        with_options: false,
        accept: None,
        vmfs: Some(true),
        answer: Err(Error::InvalidData),
        asked: &[],
    },
    Case {
        text: ENCODED,
        at_path: false,
        write: false,
        with_options: false,
        accept: None,
        vmfs: Some(true),
        answer: Err(Error::InvalidData),
        asked: &[],
    },
];

/// Whether keys that aren't known are accepted is what was set, and they aren't at first.
static ACCEPTED: [Case; 3] = [
    Case {
        text: ENCODED,
        at_path: false,
        write: false,
        with_options: true,
        accept: None,
        vmfs: None,
        answer: Err(Error::InvalidData),
        asked: &[],
    },
    Case {
        text: ENCODED,
        at_path: false,
        write: false,
        with_options: true,
        accept: Some(false),
        vmfs: None,
        answer: Err(Error::InvalidData),
        asked: &[],
    },
    Case {
        text: ENCODED,
        at_path: false,
        write: false,
        with_options: true,
        accept: Some(true),
        vmfs: None,
        answer: Ok(512),
        asked: &[],
    },
];

/// Options with a name of their own, which are writable and direct.
fn options(alloc: Global) -> Result<StorageOpenOptions, Error> {
    let opts = StorageOpenOptions::new().filename(name(alloc, "other")?);
    Ok(opts.write(true).direct(true))
}

/// A builder with the settings of a case, which it keeps. Whether it writes is set twice.
fn set<S: Storage, B: FormatDriverBuilder<S>>(
    rt: &impl Abort,
    alloc: Global,
    builder: B,
    case: &Case,
) -> Result<B, Error> {
    let mut builder = builder.write(!case.write).write(case.write);
    if case.with_options {
        builder = builder.storage_open_options(options(alloc)?);
    }
    assert!(rt; builder.get_image_path() == Some(if case.at_path { "d" } else { "d.vmdk" }));
    assert!(rt; builder.get_writable() == case.write);
    assert!(rt; builder.get_storage_open_options().is_some() == case.with_options);
    Ok(builder)
}

/// The builder of a case, which is told what it accepts. A storage that is handed in has a name.
fn builder(alloc: Global, case: &Case) -> Result<VmdkOpenBuilder<MemStorage>, Error> {
    let builder = if case.at_path {
        VmdkOpenBuilder::new_path(name(alloc, "d")?)
    } else {
        let bytes = storage_of(alloc, case.text)?.into_bytes();
        VmdkOpenBuilder::new(MemStorage::named(name(alloc, "d.vmdk")?, bytes))
    };
    let builder = match case.accept {
        Some(accept) => builder.accept_unknown_keys(accept),
        None => builder,
    };
    match case.vmfs {
        Some(accept) => Ok(builder.accept_vmfs(accept)),
        None => Ok(builder),
    }
}

/// What is printed of an image.
fn printed<D: FormatDriverInstance>(alloc: Global, image: &D) -> Result<String, Error> {
    match format!(in alloc; "{image}") {
        Ok(text) => Ok(text),
        Err(_) => Err(Error::Memory),
    }
}

/// The size of the disk that a builder with the settings of a case opens. One whose descriptor has
/// a name is printed with it.
fn size_by<S: Storage, B: FormatDriverBuilder<S>, G: ImplicitOpenGate<S>>(
    rt: &impl Abort,
    alloc: Global,
    builder: B,
    gate: &mut G,
    case: &Case,
) -> Result<u64, Error> {
    let image = set(rt, alloc, builder, case)?.open(alloc, gate)?;
    assert!(rt; image.format() == B::FORMAT);
    let text = printed(alloc, &image)?;
    assert!(rt; case.at_path || text.as_str() == "vmdk[mem:d.vmdk]");
    Ok(image.size())
}

/// The gate of a case.
fn make_gate(alloc: Global, case: &Case) -> Result<Gate, Error> {
    let mut gate = NamedGate::new(alloc);
    add(alloc, &mut gate, "d", storage_of(alloc, case.text)?)?;
    add(alloc, &mut gate, "a", storage_of(alloc, b"a")?)?;
    add(alloc, &mut gate, "b", storage_of(alloc, b"b")?)?;
    Ok(recorded(alloc, gate, 0))
}

/// The gate was asked for these storages, none of which is to be written.
fn are_asked(rt: &impl Abort, gate: &Gate, case: &Case) {
    assert!(rt; gate.asked().len() == case.asked.len());
    for (asked, path) in gate.asked().iter().zip(case.asked.iter()) {
        assert!(rt; asked.filename.as_deref() == Some(*path));
        assert!(rt; !asked.writable);
        assert!(rt; asked.direct == case.with_options);
    }
}

/// What opening answers, and the gate then.
fn open(rt: &impl Abort, alloc: Global, case: &Case) -> Result<(Result<u64, Error>, Gate), Error> {
    let mut gate = make_gate(alloc, case)?;
    match size_by(rt, alloc, builder(alloc, case)?, &mut gate, case) {
        Err(Error::Memory) => Err(Error::Memory),
        answer => Ok((answer, gate)),
    }
}

/// Each image is opened by its settings.
fn open_each(rt: &impl Abort, alloc: Global, cases: &[Case]) {
    for case in cases {
        let mut opened = open(rt, alloc, case);
        if opened.is_err() {
            opened = open(rt, alloc, case);
        }
        assert!(rt; opened.is_ok());
        if let Ok((answer, gate)) = opened {
            assert!(rt; answer == case.answer);
            are_asked(rt, &gate, case);
        }
    }
}

#[test]
fn images_are_opened_by_their_settings(rt: HostRuntime) {
    open_each(&rt, rt.alloc(), &CASES);
}

#[test]
fn a_builder_keeps_what_is_set(rt: HostRuntime) {
    open_each(&rt, rt.alloc(), &ACCEPTED);
}

/// An image whose descriptor has a name.
static SHOWN: [Case; 1] = [Case {
    text: b"version=1",
    at_path: false,
    write: false,
    with_options: false,
    accept: None,
    vmfs: None,
    answer: Ok(0),
    asked: &[],
}];

#[test]
fn an_image_is_shown_by_its_descriptor(rt: HostRuntime) {
    open_each(&rt, rt.alloc(), &SHOWN);
}

// SPDX-License-Identifier: MIT
//! Long chains of qcow2 images, and chains that lead back.

use super::set_up::{VERSION_2, check_line, expected};
use crate::memory_host::{MemoryHost, Nature};
use std::alloc::{AllocError, Global};
use std::process::Abort;

/// The name of the file of that number.
fn name_of(alloc: Global, number: u64) -> Result<String, AllocError> {
    format!(in alloc; "{number}")
}

/// The first bytes of an image of 512 bytes that has no data, above a file whose name, which is
/// to stand at 200, has no bytes yet.
static HEAD: [(usize, &[u8]); 6] = [
    (0, VERSION_2),
    (15, b"\xc8"),
    (23, b"\x09"),
    (30, b"\x02"),
    (39, b"\x01"),
    (46, b"\x02"),
];

/// Such an image above the file of that name.
fn above(alloc: Global, name: &str) -> Result<Vec<u8>, AllocError> {
    let mut bytes = expected(alloc, 200, &HEAD)?;
    if let Some(count) = bytes.get_mut(19) {
        *count = name.len().min(255) as u8;
    }
    bytes.extend_from_slice(name.as_bytes())?;
    bytes.resize(1024, 0)?;
    Ok(bytes)
}

/// So many images from number 0 on, each above the next one, and the last one above the file of
/// that number.
fn images(alloc: Global, count: u64, last: u64) -> Result<MemoryHost, AllocError> {
    let mut host = MemoryHost::new(alloc, 0, false);
    for number in 0..count {
        let next = if number + 1 < count { number + 1 } else { last };
        let next = name_of(alloc, next)?;
        host.add(
            &name_of(alloc, number)?,
            &above(alloc, &next)?,
            Nature::Plain,
        )?;
    }
    Ok(host)
}

/// So many images, and a raw file of 512 bytes below them.
fn over_raw(alloc: Global, count: u64) -> Result<MemoryHost, AllocError> {
    let mut host = images(alloc, count, count)?;
    let bytes = vec![in alloc; b'x'; 512]?;
    host.add(&name_of(alloc, count)?, &bytes, Nature::Plain)?;
    Ok(host)
}

/// The names of the first files, as they are printed.
fn way(alloc: Global, count: u64) -> Result<String, AllocError> {
    let mut told = String::from_str(alloc, "\"0\"")?;
    for number in 1..count {
        told = format!(in alloc; "{told}, \"{number}\"")?;
    }
    Ok(told)
}

/// What is told of a chain of too many files.
fn too_many(alloc: Global) -> Result<String, AllocError> {
    let told = way(alloc, 200)?;
    format!(in alloc;
        "imago-img: \"0\" needs \"199\": more than 200 files stand one below the other: {told}\n"
    )
}

/// Tries a command line on a chain.
fn check_chain(
    rt: &impl Abort,
    alloc: Global,
    made: Result<MemoryHost, AllocError>,
    wanted: (u8, &str, &str),
) {
    assert!(rt; made.is_ok());
    let Ok(mut host) = made else { return };
    check_line(rt, alloc, &mut host, "map --json 0", wanted);
}

#[test]
fn a_chain_of_200_files_opens(rt: HostRuntime) {
    check_chain(
        &rt,
        rt.alloc(),
        over_raw(rt.alloc(), 199),
        (
            0,
            "[{ \"start\": 0, \"length\": 512, \"depth\": 199, \"present\": true, \"zero\": false, \
            \"data\": true, \"offset\": 0, \"filename\": \"199\"}]\n",
            "",
        ),
    );
}

#[test]
fn a_chain_of_201_files_is_refused(rt: HostRuntime) {
    let errors = too_many(rt.alloc());
    assert!(&rt; errors.is_ok());
    let Ok(errors) = &errors else { return };
    check_chain(&rt, rt.alloc(), over_raw(rt.alloc(), 200), (1, "", errors));
}

#[test]
fn chains_that_lead_back_are_refused(rt: HostRuntime) {
    check_chain(
        &rt,
        rt.alloc(),
        images(rt.alloc(), 1, 0),
        (
            1,
            "",
            "imago-img: \"0\": backing files lead in a circle: \"0\", \"0\"\n",
        ),
    );
    check_chain(
        &rt,
        rt.alloc(),
        images(rt.alloc(), 2, 0),
        (
            1,
            "",
            "imago-img: \"0\": backing files lead in a circle: \"0\", \"1\", \"0\"\n",
        ),
    );
}

// SPDX-License-Identifier: MIT
//! The names of the layer below, as they stand behind the header.
ghost use Rattle.std.specs.Prelude.{◌≡◌, ◌+◌, ◌^◌, ◌<◌, ◌≤◌, [], length, IfOk};
ghost use Rattle.imago_qcow2_new.specs.Names.{AreNames, AreNamesOf, AreBytes};
ghost use Rattle.imago_qcow2_new.specs.Names.{extension, padding};

use crate::format::{Backing, FormatError};
use std::alloc::{AllocError, Global};

/// The type of the header extension that has the name of the backing file's format.
const BACKING_FORMAT: u32 = 0xe279_2aca;

/// How many bytes a name has at most.
const LONGEST_NAME: usize = 1023;

/// How many bytes the longest header has, without what stands behind it.
const HEADER: u64 = 112;

/// What stands behind the header.
#[derive(Drop)]
pub(crate) struct Names {
    /// The extension that has the format's name, the one that ends all, and the file's name.
    pub(crate) bytes: Vec<u8>,
    /// Where the file's name begins there, in bytes.
    pub(crate) start: u64,
    /// Its length in bytes, or 0 where there is none.
    pub(crate) count: u32,
}

impl Names {
    /// No layer below.
    pub(crate) fn none(alloc: Global) -> Names
        ensures start { result.start ≡ 0 }
        ensures count { result.count ≡ 0 }
        ensures bytes { result.bytes.items ≡ [] }
    {
        Names {
            bytes: Vec::new(alloc),
            start: 0,
            count: 0,
        }
    }

    /// That layer below.
    fn new(alloc: Global, backing: Backing<'_>) -> Result<Names, AllocError>
        requires file { length backing.file.now ≤ 1023 }
        requires format { length backing.format.now ≤ 1023 }
        ensures short { IfOk result (λ n. n.count ≤ 1023) }
        ensures are { IfOk result (AreNames backing.entry.file.now backing.entry.format.now) }
        ensures bytes { IfOk result (λ n. AreBytes n.bytes.items) }
    {
        let mut bytes = extension(alloc, backing.format)?;
        let start = bytes.len() as u64;
        bytes.extend_from_slice(backing.file.as_bytes())?;
        bytes_fit(&bytes);
        Ok(Names {
            bytes,
            start,
            count: backing.file.len() as u32,
        })
    }
}

/// The extension that has the name of a format, and the one that ends all.
fn extension(alloc: Global, format: &str) -> Result<Vec<u8>, AllocError>
    requires { length format.now ≤ 1023 }
    ensures { IfOk result (λ v. v.items ≡ extension format.now) }
{
    let mut bytes = Vec::new(alloc);
    bytes.extend_from_slice(&BACKING_FORMAT.to_be_bytes())?;
    bytes.extend_from_slice(&(format.len() as u32).to_be_bytes())?;
    bytes.extend_from_slice(format.as_bytes())?;
    let length = bytes.len() + padding(format.len());
    bytes.resize(length, 0)?;
    Ok(bytes)
}

/// How many zeroes stand behind a name of so many bytes.
fn padding(count: usize) -> usize
    ensures value { result ≡ padding count }
    ensures most { result ≤ 15 }
{
    (8 - count % 8) % 8 + 8
}

/// Each byte is one. The function does nothing; its contract is what is proved.
fn bytes_fit(bytes: &[u8])
    ensures { AreBytes bytes.now }
{
    let _ = bytes;
}

/// The names of that layer below, if they fit into the first cluster.
pub(crate) fn names_of(
    alloc: Global,
    backing: Option<Backing<'_>>,
    cluster: u64,
) -> Result<Names, FormatError>
    requires least { 512 ≤ cluster }
    requires most { cluster ≤ 2097152 }
    ensures start { IfOk result (λ n. n.start < 2 ^ 32) }
    ensures short { IfOk result (λ n. n.count ≤ 1023) }
    ensures inside { IfOk result (λ n. n.start + n.count + 112 ≤ cluster) }
    ensures are { IfOk result (AreNamesOf backing.entry) }
{
    let Some(backing) = backing else {
        return Ok(Names::none(alloc));
    };
    if backing.file.len() > LONGEST_NAME || backing.format.len() > LONGEST_NAME {
        return Err(FormatError::LongName);
    }
    let names = Names::new(alloc, backing)?;
    let room = cluster - HEADER;
    if names.start > room || names.count as u64 > room - names.start {
        return Err(FormatError::LongName);
    }
    Ok(names)
}

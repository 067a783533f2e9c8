// SPDX-License-Identifier: MIT
//! Whether a qcow2 file from a stranger is safe to hand on.
ghost use Rattle.std.specs.Prelude.{◌≡◌, ℕ, List, ◌≤◌, Decides, length, None, IfOk, Ok, IsTrue};
ghost use Rattle.imago_images.specs.HostBytes.{HasBytes};
ghost use Rattle.imago_images.specs.Layers.{SaysBacking};
ghost use Rattle.imago_img_files.specs.Openings.{most_memory};
ghost use Rattle.imago_storage.specs.Bytes.{IsReadAt};
ghost use Rattle.imago_qcow2.specs.Header.{header_of, IsSound};
ghost use Rattle.imago_img_checks.specs.Vetted.{AreSafeTables, IsSafeQcow2};

use crate::finding::{CORRUPT, Fault, Findings, LONGEST_SHOWN, Told};
use crate::vet_tables::{read_bytes, vet_tables};
use imago_file::file::FileStorage;
use imago_file::host::HostFile;
use imago_images::opening::Opening;
use imago_img_files::extension::data_name;
use imago_img_files::failure::{Failure, Reason};
use imago_img_files::looked::unread;
use imago_img_files::opening::MOST_MEMORY;
use imago_img_files::qcow2_info::put;
use imago_qcow2::fault::HeaderFault;
use imago_qcow2::header::{self, HEAD_LENGTH, Header};
use imago_qcow2::number::{number32, number64};
use imago_storage::error::Error;
use imago_storage::ext::StorageExt;
use imago_storage::storage::Storage;
use std::alloc::Global;

/// The incompatible feature that data stand in a file of their own.
const DATA_FILE: u64 = 1 << 2;

/// How many bytes the name of a backing file has at most.
const LONGEST_NAME: u32 = 1023;

/// What is asked of a file besides.
#[derive(Clone, Copy)]
struct Limits {
    /// How many bytes its tables may have.
    tables: u64,
    /// How many bytes its disk may have, where that is limited.
    disk: Option<u64>,
}

/// Whether the header names no file below the image, and what it names.
fn is_alone<S: Storage>(
    storage: &S,
    alloc: Global,
    head: &[u8],
    findings: &mut Findings,
) -> Result<bool, Error>
    requires { 112 ≤ length head.now }
    ensures { IfOk result (λ alone. Decides alone (SaysBacking head.now None)) }
{
    let (start, count) = (number64(head, 8), number32(head, 16));
    if start == 0 || count == 0 {
        return Ok(true);
    }
    let fault = backing_named(storage, alloc, start, count)?;
    findings.add(fault, Some(start))?;
    Ok(false)
}

/// The backing file whose name stands there.
fn backing_named<S: Storage>(
    storage: &S,
    alloc: Global,
    start: u64,
    count: u32,
) -> Result<Fault, Error> {
    if count > LONGEST_NAME {
        return Ok(Fault::BackingOfNoText);
    }
    let mut name = vec![in alloc; 0u8; count as usize]?;
    storage.read(alloc, &mut name, start)?;
    match String::from_utf8(name) {
        Ok(name) => Ok(Fault::Backing(name)),
        Err(_) => Ok(Fault::BackingOfNoText),
    }
}

/// Where a fault of a header stands in it.
fn place_of(fault: HeaderFault) -> u64 {
    match fault {
        HeaderFault::NoImage => 0,
        HeaderFault::Version(_) => 4,
        HeaderFault::BackingName => 8,
        HeaderFault::ClusterBits(_) => 20,
        HeaderFault::Encryption => 32,
        HeaderFault::ShortTable => 36,
        HeaderFault::UnevenTable | HeaderFault::TableBehindEnd => 40,
        HeaderFault::Features(_) | HeaderFault::Compression => 72,
        HeaderFault::RefcountWidth => 96,
        HeaderFault::OwnLength => 100,
        HeaderFault::CompressionType(_) => 104,
    }
}

/// Puts a fault of the header behind the others.
fn add_header(fault: HeaderFault, findings: &mut Findings) -> Result<(), Error> {
    findings.add(Fault::Opening(Reason::Header(fault)), Some(place_of(fault)))?;
    Ok(())
}

/// The external data file of an image whose header begins so, and where its name stands.
fn data_named<S: Storage>(
    storage: &S,
    alloc: Global,
    head: &[u8; HEAD_LENGTH],
) -> Result<(Fault, u64), Error> {
    let bits = number32(head.as_slice(), 20);
    if bits < 9 || bits > 21 {
        return Ok((Fault::DataUnnamed, 72));
    }
    let mut cluster = vec![in alloc; 0u8; 1usize << bits]?;
    storage.read(alloc, &mut cluster, 0)?;
    let Some((begin, name)) = data_name(&cluster, head) else {
        return Ok((Fault::DataUnnamed, 72));
    };
    match str::from_utf8(name) {
        Ok(name) if name.len() <= LONGEST_SHOWN => {
            Ok((Fault::Data(String::from_str(alloc, name)?), begin as u64))
        }
        _ => Ok((Fault::DataUnnamed, begin as u64)),
    }
}

/// Tells each of the features that aren't supported.
fn tell_features<S: Storage>(
    storage: &S,
    alloc: Global,
    head: &[u8; HEAD_LENGTH],
    features: u64,
    findings: &mut Findings,
) -> Result<(), Error> {
    for bit in 0..64u32 {
        let feature = 1u64.wrapping_shl(bit);
        if features & feature == DATA_FILE {
            let (fault, at) = data_named(storage, alloc, head)?;
            findings.add(fault, Some(at))?;
        } else if features & feature != 0 {
            add_header(HeaderFault::Features(feature), findings)?;
        }
    }
    Ok(())
}

/// A header without what isn't supported.
#[derive(Clone, Copy)]
struct Supported {
    head: [u8; HEAD_LENGTH],
    /// The features that were taken out of it.
    features: u64,
}

/// Tells what isn't supported of a header, whose first bytes are given, and takes it out.
fn tell_unsupported<S: Storage>(
    storage: &S,
    alloc: Global,
    first: &[u8],
    file: u64,
    findings: &mut Findings,
) -> Result<Supported, Error> {
    let mut head = [0u8; HEAD_LENGTH];
    put(&mut head, 0, first);
    let mut features: u64 = 0;
    for _step in 0..2u32 {
        match header::read(&head, file) {
            Err(HeaderFault::Encryption) => {
                add_header(HeaderFault::Encryption, findings)?;
                put(&mut head, 32, &[0; 4]);
            }
            Err(HeaderFault::Features(found)) => {
                tell_features(storage, alloc, &head, found, findings)?;
                let rest = number64(&head, 72) & !found;
                put(&mut head, 72, &rest.to_be_bytes());
                features = found;
            }
            _ => {}
        }
    }
    Ok(Supported { head, features })
}

/// Tells all that speaks against a file of that length, whose header has a fault: the first bytes are
/// given.
fn tell_faults<S: Storage>(
    storage: &S,
    alloc: Global,
    first: &[u8],
    file: u64,
    limits: Limits,
    told: &mut Told,
) -> Result<(), Error> {
    let rest = tell_unsupported(storage, alloc, first, file, &mut told.findings)?;
    match header::read(&rest.head, file) {
        Ok(header) => {
            told.say(header);
            let findings = &mut told.findings;
            tell_length(header, limits.disk, findings)?;
            is_alone(storage, alloc, &rest.head, findings)?;
            // Other features change what the entries say.
            if rest.features & !CORRUPT == 0 {
                let most = limits.tables;
                vet_tables(storage, alloc, &rest.head, header, file, most, findings)?;
            }
        }
        Err(fault) => {
            let findings = &mut told.findings;
            add_header(fault, findings)?;
            if has_names(fault) {
                is_alone(storage, alloc, &rest.head, findings)?;
            }
        }
    }
    Ok(())
}

/// Whether a header with that fault still says names: it is one of a version that is known.
fn has_names(fault: HeaderFault) -> bool {
    !matches!(
        fault,
        HeaderFault::NoImage | HeaderFault::Version(_) | HeaderFault::BackingName
    )
}

impl Told {
    /// Tells what a header says.
    fn say(&mut self, header: Header) {
        self.version = Some(header.version());
        self.disk = Some(header.disk_size());
    }
}

/// Tells if the disk of a header is longer than the limit, if there is one.
fn tell_length(header: Header, longest: Option<u64>, findings: &mut Findings) -> Result<(), Error> {
    let size = header.disk_size();
    if let Some(most) = longest {
        if size > most {
            let reason = Reason::DiskTooLong { size, most };
            findings.add(Fault::Opening(reason), Some(24))?;
        }
    }
    Ok(())
}

/// Whether a file is safe within these limits, but for the length of its disk.
fn is_safe<S: Storage>(
    storage: &S,
    alloc: Global,
    limits: Limits,
    told: &mut Told,
) -> Result<bool, Error>
    ensures { IsTrue (S.features storage.now).tells_bytes → IfOk result
        (λ safe. Decides safe (IsSafeQcow2 limits.tables (S.bytes storage.now))) }
{
    let file = storage.size()?;
    let head = read_bytes(storage, alloc, 0, HEAD_LENGTH as u64)?;
    match header::read(&head, file) {
        Ok(header) => {
            told.say(header);
            let most = limits.tables;
            vet_header(
                storage,
                alloc,
                &head,
                header,
                file,
                most,
                &mut told.findings,
            )
        }
        Err(_) => {
            tell_faults(storage, alloc, &head, file, limits, told)?;
            Ok(false)
        }
    }
}

/// The same of a file of that length whose header says that.
fn vet_header<S: Storage>(
    storage: &S,
    alloc: Global,
    head: &[u8],
    header: Header,
    file: u64,
    most: u64,
    findings: &mut Findings,
) -> Result<bool, Error>
    requires len { 112 ≤ length head.now }
    requires says { header_of head.now file ≡ Ok header }
    requires sound { IsSound head.now file header }
    ensures { IsTrue (S.features storage.now).tells_bytes → file ≡ length (S.bytes storage.now)
        → IsReadAt (S.bytes storage.now) 0 head.now
        → IfOk result (λ safe. Decides safe (SaysBacking (S.bytes storage.now) None
        × AreSafeTables most (S.bytes storage.now))) }
{
    let alone = is_alone(storage, alloc, head, findings)?;
    let tables = vet_tables(storage, alloc, head, header, file, most, findings)?;
    if !alone {
        return Ok(false);
    }
    Ok(tables)
}

/// Whether a qcow2 file is safe to hand on, but for the length of its disk, which is tested before.
/// All that speaks against it is put behind the findings.
pub fn vet_qcow2<F: HostFile>(
    alloc: Global,
    path: &str,
    file: &FileStorage<F>,
    how: Opening,
    told: &mut Told,
) -> Result<bool, Failure>
    ensures { (bytes : List ℕ) → HasBytes ⟦<FileStorage<F> as Storage>⟧.features
        ⟦<FileStorage<F> as Storage>⟧.bytes bytes file.now → IfOk result
        (λ safe. Decides safe (IsSafeQcow2 (most_memory how.tables) bytes)) }
{
    let limits = Limits {
        tables: how.tables.unwrap_or(MOST_MEMORY),
        disk: how.longest,
    };
    match is_safe(file, alloc, limits, told) {
        Ok(safe) => Ok(safe),
        Err(cause) => Err(Failure::from(unread(alloc, path, file, cause))),
    }
}

// SPDX-License-Identifier: MIT
//! How a qcow2 file is encrypted, and what the LUKS header in it says. No key is read.

ghost use Rattle.std.specs.Prelude.{◌+◌, ◌≤◌};
ghost use Rattle.std.specs.Prelude.{length as count_of};

use crate::json::quoted;
use imago_qcow2::number::{number32, number64};
use imago_storage::error::Error;
use imago_storage::ext::StorageExt;
use imago_storage::storage::Storage;
use std::alloc::Global;
use std::io::{self, Write};

/// The number for AES in the header of a qcow2 file, as the way in which it is encrypted.
const AES: u32 = 1;

/// The one for LUKS.
pub const LUKS: u32 = 2;

/// How many bytes the header has.
const LENGTH: usize = 592;

/// What it begins with: `LUKS\xba\xbe`, and version 1.
const MAGIC: u64 = 0x4c55_4b53_babe_0001;

/// Where the first of the slots of keys stands.
const SLOTS: usize = 208;

/// How many bytes a slot has.
const SLOT_LENGTH: usize = 48;

/// How many slots there are.
const SLOT_COUNT: usize = 8;

/// What a slot that has a key begins with.
const ACTIVE: u32 = 0x00ac_71f3;

/// What a LUKS header says. What isn't UTF-8 in its names is replaced.
#[derive(Drop)]
pub struct Luks {
    /// The cipher, with the number of bits of its key.
    cipher: String,
    /// How it is used.
    mode: String,
    /// How its initial vectors are made, and by which hash, if by one.
    vectors: String,
    vectors_hash: Option<String>,
    /// The hash for keys.
    hash: String,
    /// The volume's UUID.
    uuid: String,
    /// Where the data begin, in bytes behind the header's beginning.
    payload: u64,
    /// How often the hash of the master key is iterated.
    iterations: u32,
    /// The slots of keys.
    slots: Vec<Slot>,
}

/// A slot for a key.
#[derive(Clone, Copy)]
struct Slot {
    /// Whether it has a key.
    active: bool,
    /// How often the hash of the passphrase is iterated.
    iterations: u32,
    /// Where the key stands, in bytes behind the header's beginning.
    start: u64,
    /// How many stripes the key is split into.
    stripes: u32,
}

/// What the LUKS header says that begins at that offset of a file, if one of version 1 does.
pub fn read_luks<S: Storage>(alloc: Global, file: &S, at: u64) -> Result<Option<Luks>, Error> {
    let mut bytes = [0u8; LENGTH];
    file.read(alloc, &mut bytes, at)?;
    if number64(&bytes, 0) != MAGIC {
        return Ok(None);
    }
    Ok(Some(luks_of(alloc, &bytes)?))
}

/// The words of a cipher's mode, as `xts-plain64` and `cbc-essiv:sha256`: how it is used, how its
/// initial vectors are made, and by which hash, if by one.
fn words_of(mode: &str) -> (&str, &str, Option<&str>) {
    let (used, vectors) = match mode.split_once('-') {
        Some(words) => words,
        None => (mode, ""),
    };
    match vectors.split_once(':') {
        Some((vectors, hash)) => (used, vectors, Some(hash)),
        None => (used, vectors, None),
    }
}

/// The name of a cipher whose master key has that many bytes, with the bits of the cipher's own key:
/// of XTS there are two in the master key.
fn cipher_of(alloc: Global, name: &str, used: &str, length: u32) -> Result<String, Error> {
    let bits = u64::from(length) * if used == "xts" { 4 } else { 8 };
    Ok(format!(in alloc; "{name}-{bits}")?)
}

/// What a LUKS header of these bytes says.
fn luks_of(alloc: Global, bytes: &[u8; LENGTH]) -> Result<Luks, Error> {
    let name = name_in(alloc, &bytes[8..40])?;
    let mode = name_in(alloc, &bytes[40..72])?;
    let (used, vectors, vectors_hash) = words_of(&mode);
    Ok(Luks {
        cipher: cipher_of(alloc, &name, used, number32(bytes, 108))?,
        mode: String::from_str(alloc, used)?,
        vectors: String::from_str(alloc, vectors)?,
        vectors_hash: match vectors_hash {
            Some(hash) => Some(String::from_str(alloc, hash)?),
            None => None,
        },
        hash: name_in(alloc, &bytes[72..104])?,
        uuid: name_in(alloc, &bytes[168..208])?,
        payload: in_sectors(number32(bytes, 104)),
        iterations: number32(bytes, 164),
        slots: slots_of(alloc, bytes)?,
    })
}

/// A name, which ends with its room or before a zero.
fn name_in(alloc: Global, room: &[u8]) -> Result<String, Error> {
    match room.split(|byte| *byte == 0).next() {
        Some(name) => Ok(String::from_utf8_lossy(alloc, name)?),
        None => Ok(String::new(alloc)),
    }
}

/// How many bytes that many sectors have.
fn in_sectors(count: u32) -> u64 {
    512 * u64::from(count)
}

/// All slots.
fn slots_of(alloc: Global, bytes: &[u8; LENGTH]) -> Result<Vec<Slot>, Error> {
    let mut slots = Vec::new(alloc);
    for index in 0..SLOT_COUNT {
        slots.push(slot_at(bytes, SLOTS + SLOT_LENGTH * index))?;
    }
    Ok(slots)
}

/// The slot at that offset.
fn slot_at(bytes: &[u8], at: usize) -> Slot
    requires { at + 48 ≤ count_of bytes.now }
{
    Slot {
        active: number32(bytes, at) == ACTIVE,
        iterations: number32(bytes, at + 4),
        start: in_sectors(number32(bytes, at + 40)),
        stripes: number32(bytes, at + 44),
    }
}

/// Prints as lines how a file is encrypted, if it is in a way that is known.
pub fn print_encryption<W: Write>(
    encryption: Option<u32>,
    luks: &Option<Luks>,
    output: &mut W,
) -> io::Result<()> {
    match (encryption, luks) {
        (Some(LUKS), Some(luks)) => print_luks(luks, output),
        (Some(LUKS), None) => writeln!(output, "    encrypt:\n        format: luks"),
        (Some(AES), _) => writeln!(output, "    encrypt:\n        format: aes"),
        _ => Ok(()),
    }
}

/// Prints what a LUKS header says as lines.
fn print_luks<W: Write>(luks: &Luks, output: &mut W) -> io::Result<()> {
    writeln!(
        output,
        "    encrypt:\n        ivgen alg: {:?}",
        luks.vectors
    )?;
    if let Some(hash) = &luks.vectors_hash {
        writeln!(output, "        ivgen hash alg: {hash:?}")?;
    }
    writeln!(output, "        hash alg: {:?}", luks.hash)?;
    writeln!(output, "        cipher alg: {:?}", luks.cipher)?;
    writeln!(
        output,
        "        uuid: {:?}\n        format: luks",
        luks.uuid
    )?;
    writeln!(
        output,
        "        cipher mode: {:?}\n        slots:",
        luks.mode
    )?;
    for (index, slot) in luks.slots.iter().enumerate() {
        writeln!(output, "            [{index}]:")?;
        print_slot(*slot, output)?;
    }
    writeln!(output, "        payload offset: {}", luks.payload)?;
    writeln!(output, "        master key iters: {}", luks.iterations)
}

/// Prints a slot as lines.
fn print_slot<W: Write>(slot: Slot, output: &mut W) -> io::Result<()> {
    writeln!(output, "                active: {}", slot.active)?;
    if slot.active {
        writeln!(output, "                iters: {}", slot.iterations)?;
    }
    writeln!(output, "                key offset: {}", slot.start)?;
    if slot.active {
        writeln!(output, "                stripes: {}", slot.stripes)?;
    }
    Ok(())
}

/// Prints as a member of a JSON object how a file is encrypted, if it is in a way that is known.
pub fn print_encryption_json<W: Write>(
    alloc: Global,
    encryption: Option<u32>,
    luks: &Option<Luks>,
    output: &mut W,
) -> io::Result<()> {
    match (encryption, luks) {
        (Some(LUKS), Some(luks)) => print_luks_json(alloc, luks, output),
        (Some(LUKS), None) => write!(output, ", \"encrypt\": {{ \"format\": \"luks\" }}"),
        (Some(AES), _) => write!(output, ", \"encrypt\": {{ \"format\": \"aes\" }}"),
        _ => Ok(()),
    }
}

/// Prints what a LUKS header says as a member of a JSON object.
fn print_luks_json<W: Write>(alloc: Global, luks: &Luks, output: &mut W) -> io::Result<()> {
    write!(output, ", \"encrypt\": {{ \"format\": \"luks\"")?;
    write!(output, ", \"ivgen-alg\": {}", quoted(alloc, &luks.vectors)?)?;
    if let Some(hash) = &luks.vectors_hash {
        write!(output, ", \"ivgen-hash-alg\": {}", quoted(alloc, hash)?)?;
    }
    write!(output, ", \"hash-alg\": {}", quoted(alloc, &luks.hash)?)?;
    write!(output, ", \"cipher-alg\": {}", quoted(alloc, &luks.cipher)?)?;
    write!(output, ", \"cipher-mode\": {}", quoted(alloc, &luks.mode)?)?;
    write!(output, ", \"uuid\": {}", quoted(alloc, &luks.uuid)?)?;
    print_slots_json(&luks.slots, output)?;
    write!(output, ", \"payload-offset\": {}", luks.payload)?;
    write!(output, ", \"master-key-iters\": {} }}", luks.iterations)
}

/// Prints slots as a member of a JSON object.
fn print_slots_json<W: Write>(slots: &[Slot], output: &mut W) -> io::Result<()> {
    let mut start = ", \"slots\": [";
    for slot in slots {
        write!(output, "{start}{{ \"active\": {}", slot.active)?;
        if slot.active {
            let (iterations, stripes) = (slot.iterations, slot.stripes);
            write!(output, ", \"iters\": {iterations}, \"stripes\": {stripes}")?;
        }
        write!(output, ", \"key-offset\": {} }}", slot.start)?;
        start = ", ";
    }
    write!(output, "]")
}

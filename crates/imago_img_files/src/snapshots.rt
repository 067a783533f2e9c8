// SPDX-License-Identifier: MIT
//! The snapshots of a qcow2 file, as its table names them.

use crate::failure::SnapshotFault;
use crate::json::quoted;
use crate::sizes::Size;
use crate::times::{Clock, Date};
use imago_qcow2::number::{number32, number64};
use imago_storage::error::Error;
use imago_storage::ext::StorageExt;
use imago_storage::storage::Storage;
use std::alloc::Global;
use std::io::{self, Write};

/// The most bytes that a table of snapshots or bitmaps has.
const LONGEST_TABLE: u64 = 8 << 20;

/// What comes before the id and the name of a snapshot in the table, in bytes.
const FIXED: usize = 40;

/// A snapshot.
#[derive(Drop)]
pub struct Snapshot {
    /// Its id, and its name. What isn't UTF-8 in them is replaced.
    pub id: String,
    pub name: String,
    /// How many bytes the state of the machine has.
    pub state: u64,
    /// When it was taken: seconds since 1970, and nanoseconds of the next one.
    pub seconds: u32,
    pub nanoseconds: u32,
    /// How long the machine had run, in nanoseconds.
    pub clock: u64,
    /// How many instructions it had run, if they were counted.
    pub instructions: Option<u64>,
}

/// Where a table of snapshots or bitmaps begins, how many there are, and where it ends at the
/// latest.
#[derive(Clone, Copy)]
pub struct Table {
    /// Its first byte.
    pub start: u64,
    /// How many entries it has.
    pub count: u32,
    /// The file's length, or where the table has to end before it.
    pub end: u64,
}

/// All snapshots of a file.
pub fn read_snapshots<S: Storage>(
    alloc: Global,
    file: &S,
    table: Table,
) -> Result<Vec<Snapshot>, SnapshotFault> {
    let mut all = Vec::new(alloc);
    let mut at = table.start;
    for _index in 0..table.count {
        let (snapshot, end) = read_snapshot(alloc, file, table, at)?;
        all.push(snapshot)?;
        at = end;
    }
    Ok(all)
}

/// The number of two bytes, the highest first.
pub(crate) fn number16(bytes: &[u8], at: usize) -> u64 {
    match bytes.get(at..at.saturating_add(2)) {
        Some([high, low]) => u64::from(*high) * 256 + u64::from(*low),
        _ => 0,
    }
}

/// So many bytes of a table, from an offset on, if they end where it may and it isn't too long.
pub(crate) fn read_part<S: Storage>(
    alloc: Global,
    file: &S,
    table: Table,
    at: u64,
    part: &mut [u8],
) -> Result<u64, SnapshotFault> {
    let Some(end) = at.checked_add(part.len() as u64) else {
        return Err(SnapshotFault::PastEnd);
    };
    if end > table.end {
        return Err(SnapshotFault::PastEnd);
    }
    if end.saturating_sub(table.start) > LONGEST_TABLE {
        return Err(SnapshotFault::TooLong);
    }
    file.read(alloc, part, at)?;
    Ok(end)
}

/// The text of so many bytes of a table, and where they end.
pub(crate) fn read_text<S: Storage>(
    alloc: Global,
    file: &S,
    table: Table,
    at: u64,
    length: u64,
) -> Result<(String, u64), SnapshotFault> {
    let mut bytes = vec![in alloc; 0u8; length as usize]?;
    let end = read_part(alloc, file, table, at, &mut bytes)?;
    Ok((String::from_utf8_lossy(alloc, &bytes)?, end))
}

/// The snapshot whose entry begins there, and where the next one begins.
fn read_snapshot<S: Storage>(
    alloc: Global,
    file: &S,
    table: Table,
    at: u64,
) -> Result<(Snapshot, u64), SnapshotFault> {
    let mut fixed = [0u8; FIXED];
    let behind = read_part(alloc, file, table, at, &mut fixed)?;
    let more = u64::from(number32(&fixed, 36));
    let names = behind.checked_add(more).ok_or(SnapshotFault::PastEnd)?;
    let (id, end) = read_text(alloc, file, table, names, number16(&fixed, 12))?;
    let (name, end) = read_text(alloc, file, table, end, number16(&fixed, 14))?;
    let next = end
        .checked_next_multiple_of(8)
        .ok_or(SnapshotFault::PastEnd)?;
    let snapshot = Snapshot {
        id,
        name,
        state: state_length(alloc, file, table, behind, &fixed)?,
        seconds: number32(&fixed, 16),
        nanoseconds: number32(&fixed, 20),
        clock: number64(&fixed, 24),
        instructions: instructions_of(alloc, file, table, behind, &fixed)?,
    };
    Ok((snapshot, next))
}

/// How many bytes the state of the machine has: the first number of what an entry has besides, if
/// that is there.
fn state_length<S: Storage>(
    alloc: Global,
    file: &S,
    table: Table,
    behind: u64,
    fixed: &[u8; FIXED],
) -> Result<u64, SnapshotFault> {
    if number32(fixed, 36) < 8 {
        return Ok(u64::from(number32(fixed, 32)));
    }
    let mut large = [0u8; 8];
    read_part(alloc, file, table, behind, &mut large)?;
    Ok(number64(&large, 0))
}

/// How many instructions the machine had run: the third number of what an entry has besides, if
/// that is there and they were counted.
fn instructions_of<S: Storage>(
    alloc: Global,
    file: &S,
    table: Table,
    behind: u64,
    fixed: &[u8; FIXED],
) -> Result<Option<u64>, SnapshotFault> {
    if number32(fixed, 36) < 24 {
        return Ok(None);
    }
    let mut count = [0u8; 8];
    read_part(alloc, file, table, behind.saturating_add(16), &mut count)?;
    match number64(&count, 0) {
        u64::MAX => Ok(None),
        count => Ok(Some(count)),
    }
}

/// Prints how many snapshots there are, and each in a line.
pub fn print_snapshots<W: Write>(snapshots: &[Snapshot], output: &mut W) -> io::Result<()> {
    if snapshots.is_empty() {
        return Ok(());
    }
    writeln!(output, "snapshots: {}", snapshots.len())?;
    for snapshot in snapshots {
        let (id, name, state) = (&snapshot.id, &snapshot.name, Size(snapshot.state));
        let (date, clock) = (Date(snapshot.seconds), Clock(snapshot.clock));
        write!(output, "    id {id:?}, name {name:?}, state of {state}")?;
        write!(output, ", date {date}, VM clock {clock}")?;
        match snapshot.instructions {
            Some(count) => writeln!(output, ", icount {count}")?,
            None => writeln!(output)?,
        }
    }
    Ok(())
}

/// Prints snapshots as a member of a JSON object, if there are any.
pub fn print_snapshots_json<W: Write>(
    alloc: Global,
    snapshots: &[Snapshot],
    output: &mut W,
) -> io::Result<()> {
    if snapshots.is_empty() {
        return Ok(());
    }
    let mut start = ", \"snapshots\": [";
    for snapshot in snapshots {
        write!(output, "{start}")?;
        print_snapshot_json(alloc, snapshot, output)?;
        start = ", ";
    }
    write!(output, "]")
}

/// Prints a snapshot as a JSON object.
fn print_snapshot_json<W: Write>(
    alloc: Global,
    snapshot: &Snapshot,
    output: &mut W,
) -> io::Result<()> {
    let (id, name) = (quoted(alloc, &snapshot.id)?, quoted(alloc, &snapshot.name)?);
    write!(output, "{{ \"id\": {id}, \"name\": {name}")?;
    write!(output, ", \"vm-state-size\": {}", snapshot.state)?;
    write!(output, ", \"date-sec\": {}", snapshot.seconds)?;
    write!(output, ", \"date-nsec\": {}", snapshot.nanoseconds)?;
    let (seconds, rest) = (
        snapshot.clock / 1_000_000_000,
        snapshot.clock % 1_000_000_000,
    );
    write!(
        output,
        ", \"vm-clock-sec\": {seconds}, \"vm-clock-nsec\": {rest}"
    )?;
    if let Some(count) = snapshot.instructions {
        write!(output, ", \"icount\": {count}")?;
    }
    write!(output, " }}")
}

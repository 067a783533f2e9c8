// SPDX-License-Identifier: MIT
//! Whether the descriptor of a VMDK image is in order, and its extents' files hold them.
ghost use Rattle.std.specs.Prelude.{◌≡◌, ◌<◌, map, false, IfOk, IfSome};
ghost use Rattle.std.specs.String.{string_bytes};
ghost use Rattle.imago_vmdk.specs.Line.{extent_with};
ghost use Rattle.imago_images.specs.GateParts.{gate_host, gate_image, gate_files};
ghost use Rattle.imago_images.specs.HostBytes.{HasBytes};
ghost use Rattle.imago_img_checks.specs.Checked.{IsHeld, AreHeld, HasSoundExtents};

use imago_images::file::PathStorage;
use imago_images::gate::{FolderGate, Named};
use imago_images::opening::Opening;
use imago_img_files::extents::{find, tell_fault};
use imago_img_files::failure::{Failure, Unchecked};
use imago_img_files::host::Host;
use imago_img_files::looked::descriptor_text;
use imago_storage::error::Error;
use imago_storage::storage::Storage;
use imago_vmdk::descriptor::{self, Descriptor};
use imago_vmdk::line::{Accepted, Extent, verdict};
use std::alloc::Global;
use std::io::{self, Write};

/// The longest line that is shown, in bytes.
const SHOWN: usize = 200;

/// How many lines of a descriptor aren't accepted.
#[derive(Clone, Copy)]
struct LineCounts {
    /// Those that are invalid.
    faults: u64,
    /// Those that aren't supported.
    unsupported: u64,
}

/// Tells the faults of a descriptor and of its extents' files, and how many there are. One that
/// isn't supported is told, and can't be checked.
pub fn check_vmdk<'a, H: Host, W: Write>(
    host: &'a H,
    path: &str,
    file: &PathStorage<'a, H>,
    how: Opening,
    output: &mut W,
) -> Result<u64, Failure>
    requires { IfSome (H.contents host.now)
        (λ files. HasBytes ⟦<PathStorage<'a, H> as Storage>⟧.features
        ⟦<PathStorage<'a, H> as Storage>⟧.bytes (files path.now) file.now) }
    ensures { IfOk result (λ n. n ≡ 0 → IfSome (H.contents host.now)
        (λ files. HasSoundExtents how files path.now)) }
{
    let text = descriptor_text(host.alloc(), path, file)?;
    let lines = check_lines(path, how.accepted, &text, output).map_err(Failure::Output)?;
    match descriptor::read(host.alloc(), how.accepted, &text) {
        Ok(described) => check_extents(host, path, &described, how, output),
        Err(cause) => tell_whole(host.alloc(), path, lines, cause, output),
    }
}

/// Tells what is wrong with a descriptor that isn't read, of whose lines so many aren't accepted,
/// and how many faults there are. One that only isn't supported can't be checked.
fn tell_whole<W: Write>(
    alloc: Global,
    path: &str,
    lines: LineCounts,
    cause: Error,
    output: &mut W,
) -> Result<u64, Failure>
    ensures { IfOk result (λ n. 0 < n) }
{
    if lines.faults > 0 {
        return Ok(lines.faults);
    }
    if cause == Error::InvalidData {
        let fault = "no descriptor has that length, or its disk's size passes the greatest offset";
        writeln!(output, "{path:?}: {fault}").map_err(Failure::Output)?;
        return Ok(1);
    }
    Err(unchecked(alloc, path, lines, cause))
}

/// Why a descriptor can't be checked that has no fault.
fn unchecked(alloc: Global, path: &str, lines: LineCounts, cause: Error) -> Failure {
    if cause == Error::Memory {
        return Failure::Memory;
    }
    if lines.unsupported > 0 {
        return Failure::of_check(alloc, path, Unchecked::Lines);
    }
    Failure::of_check(alloc, path, Unchecked::Version)
}

/// Tells the lines of a descriptor that are invalid or not supported, and how many there are.
fn check_lines<W: Write>(
    path: &str,
    accepted: Accepted,
    text: &[u8],
    output: &mut W,
) -> io::Result<LineCounts> {
    let mut number: u64 = 0;
    let mut counts = LineCounts {
        faults: 0,
        unsupported: 0,
    };
    for line in text.split(|byte| *byte == b'\n') {
        number = number.saturating_add(1);
        if let Err(cause) = verdict(accepted, line) {
            counts = counts.with(cause);
            tell_line(path, number, line, cause, output)?;
        }
    }
    Ok(counts)
}

impl LineCounts {
    /// With one more line, which isn't accepted for that cause.
    fn with(self, cause: Error) -> LineCounts {
        match cause {
            Error::InvalidData => LineCounts {
                faults: self.faults.saturating_add(1),
                ..self
            },
            _ => LineCounts {
                unsupported: self.unsupported.saturating_add(1),
                ..self
            },
        }
    }
}

/// Tells a line of a descriptor, and why it is invalid. One that is too long isn't shown.
fn tell_line<W: Write>(
    path: &str,
    number: u64,
    line: &[u8],
    cause: Error,
    output: &mut W,
) -> io::Result<()> {
    write!(output, "{path:?}, line {number}: ")?;
    let Ok(line) = str::from_utf8(line) else {
        return writeln!(output, "isn't UTF-8");
    };
    if line.len() <= SHOWN {
        write!(output, "{line:?} ")?;
    }
    writeln!(output, "{}", line_fault(cause))
}

/// What is wrong with a line.
fn line_fault(cause: Error) -> &'static str {
    match cause {
        Error::InvalidData => "is invalid",
        _ => "isn't supported",
    }
}

/// Tells the extents of a descriptor that their files don't hold, and how many there are.
fn check_extents<H: Host, W: Write>(
    host: &H,
    path: &str,
    described: &Descriptor,
    how: Opening,
    output: &mut W,
) -> Result<u64, Failure>
    ensures { IfOk result (λ n. n ≡ 0 → IfSome (H.contents host.now)
        (λ files. AreHeld how.other_files files path.now
        (map (extent_with string_bytes) described.now.extents.items))) }
{
    let mut gate = FolderGate::of(host, path, Named::Extents, how.other_files)?;
    let mut faults: u64 = 0;
    let mut rest = described.extents.as_slice();
    while let Some((extent, behind)) = rest.split_first() {
        rest = behind;
        if tell_extent(host.alloc(), &mut gate, extent, output)? {
            faults = faults.saturating_add(1);
        }
    }
    Ok(faults)
}

/// Tells if the file of an extent doesn't hold it, and answers whether that is so.
fn tell_extent<H: Host, W: Write>(
    alloc: Global,
    gate: &mut FolderGate<'_, '_, H>,
    extent: &Extent<String>,
    output: &mut W,
) -> Result<bool, Failure>
    ensures held { IfOk result
        (λ faulty. faulty ≡ false → IfSome (H.contents (gate_host gate.old))
        (λ files. IsHeld (gate_files gate.old) files (gate_image gate.old)
        (extent_with string_bytes extent.now))) }
    ensures same_host { gate_host gate.new ≡ gate_host gate.old }
    ensures same_image { gate_image gate.new ≡ gate_image gate.old }
    ensures same_files { gate_files gate.new ≡ gate_files gate.old }
{
    let Extent::Flat {
        sectors,
        name,
        offset,
        ..
    } = extent
    else {
        return Ok(false);
    };
    let file = find(alloc, gate, name)?;
    tell_fault(output, "", name, (*offset, *sectors), &file).map_err(Failure::Output)
}

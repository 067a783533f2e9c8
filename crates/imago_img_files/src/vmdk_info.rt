// SPDX-License-Identifier: MIT
//! What a VMDK descriptor is, by its settings and its extents.

use crate::extents::{ExtentFile, bytes_of};
use crate::json::quoted;
use imago_file::name::path_beside;
use imago_vmdk::line::Extent;
use std::alloc::{AllocError, Global};
use std::io::{self, Write};

/// An extent, and what is found under its name if it has one.
pub type Found = (Extent<String>, Option<ExtentFile>);

/// What a descriptor is.
#[derive(Drop)]
pub struct VmdkReport {
    /// What its settings say.
    pub settings: Settings,
    /// Its extents.
    pub extents: Vec<Found>,
}

/// What the settings of a descriptor say, each of which it may leave out. The first line counts
/// that says one.
#[derive(Drop)]
pub struct Settings {
    /// The number of the content, which changes when the disk is written to.
    cid: Option<u32>,
    /// That of the content of the image below.
    parent_cid: Option<u32>,
    /// What kind of image it is.
    create_type: Option<String>,
}

/// What the settings of the descriptor with that text say.
pub fn settings_in(alloc: Global, text: &[u8]) -> Result<Settings, AllocError> {
    let mut settings = Settings {
        cid: None,
        parent_cid: None,
        create_type: None,
    };
    for line in text.split(|byte| *byte == b'\n') {
        if let Some((key, value)) = setting_in(line) {
            settings.take(alloc, key, value)?;
        }
        if settings.is_complete() {
            break;
        }
    }
    Ok(settings)
}

/// The key and the value of the setting that a line says, if it says one.
pub fn setting_in(line: &[u8]) -> Option<(&str, &str)> {
    let (key, value) = str::from_utf8(line).ok()?.split_once('=')?;
    Some((key.trim(), value.trim()))
}

impl Settings {
    /// Takes a setting that isn't known yet.
    fn take(&mut self, alloc: Global, key: &str, value: &str) -> Result<(), AllocError> {
        match key {
            "CID" if self.cid.is_none() => self.cid = hex_number(value),
            "parentCID" if self.parent_cid.is_none() => self.parent_cid = hex_number(value),
            "createType" if self.create_type.is_none() => {
                self.create_type = Some(String::from_str(alloc, inside_quotes(value))?);
            }
            _ => {}
        }
        Ok(())
    }

    /// Whether all is said: lines behind these say nothing more.
    fn is_complete(&self) -> bool {
        self.cid.is_some() && self.parent_cid.is_some() && self.create_type.is_some()
    }

    /// Whether nothing is said.
    fn is_empty(&self) -> bool {
        self.cid.is_none() && self.parent_cid.is_none() && self.create_type.is_none()
    }
}

/// The number that hexadecimal digits are, if they are at most eight.
fn hex_number(text: &str) -> Option<u32> {
    if text.is_empty() || text.len() > 8 {
        return None;
    }
    let mut number = 0u32;
    for byte in text.as_bytes() {
        let digit = char::from(*byte).to_digit(16)?;
        number = number.wrapping_mul(16).wrapping_add(digit);
    }
    Some(number)
}

/// The text without the pair of double quotes round it, if it has one.
pub fn inside_quotes(text: &str) -> &str {
    let Some(rest) = text.strip_prefix('"') else {
        return text;
    };
    match rest.strip_suffix('"') {
        Some(inner) => inner,
        None => text,
    }
}

/// The kind of an extent, as a descriptor has it.
fn kind_of(extent: &Extent<String>) -> &'static str {
    match extent {
        Extent::Zero { .. } => "ZERO",
        Extent::NoAccess { .. } => "NOACCESS",
        Extent::Flat { vmfs: true, .. } => "VMFS",
        Extent::Flat { vmfs: false, .. } => "FLAT",
    }
}

/// The path of an extent's file that the descriptor of a path names, if the extent has one.
fn path_of(
    alloc: Global,
    path: &str,
    extent: &Extent<String>,
) -> Result<Option<String>, AllocError> {
    match extent {
        Extent::Flat { name, .. } => Ok(Some(path_beside(alloc, path, name)?)),
        _ => Ok(None),
    }
}

/// Prints what a descriptor is as lines: each extent, and what its settings say.
pub fn print_vmdk<W: Write>(report: &VmdkReport, output: &mut W) -> io::Result<()> {
    for (extent, _) in &report.extents {
        print_extent(extent, output)?;
    }
    if report.settings.is_empty() {
        return Ok(());
    }
    writeln!(output, "Format specific information:")?;
    print_settings(&report.settings, output)
}

/// Prints an extent as a line.
fn print_extent<W: Write>(extent: &Extent<String>, output: &mut W) -> io::Result<()> {
    let (kind, count) = (kind_of(extent), bytes_of(extent.sectors()));
    write!(output, "extent: {kind}, {count} bytes")?;
    if let Extent::Flat { name, offset, .. } = extent {
        let offset = bytes_of(*offset);
        write!(output, " from {offset} of {name:?}")?;
    }
    writeln!(output)
}

/// Prints what settings say as lines.
fn print_settings<W: Write>(settings: &Settings, output: &mut W) -> io::Result<()> {
    if let Some(cid) = settings.cid {
        writeln!(output, "    cid: {cid}")?;
    }
    if let Some(cid) = settings.parent_cid {
        writeln!(output, "    parent cid: {cid}")?;
    }
    if let Some(create_type) = &settings.create_type {
        writeln!(output, "    create type: {create_type:?}")?;
    }
    Ok(())
}

/// Prints what the descriptor of that path is as members of a JSON object.
pub fn print_vmdk_json<W: Write>(
    alloc: Global,
    path: &str,
    report: &VmdkReport,
    output: &mut W,
) -> io::Result<()> {
    write!(output, ", \"extents\": [")?;
    let mut start = "";
    for found in &report.extents {
        write!(output, "{start}")?;
        print_found(alloc, found, output)?;
        start = ",";
    }
    write!(
        output,
        "], \"format-specific\": {{ \"type\": \"vmdk\", \"data\": {{ "
    )?;
    print_settings_json(alloc, &report.settings, output)?;
    write!(output, "\"extents\": [")?;
    let mut start = "";
    for (extent, _) in &report.extents {
        write!(output, "{start}")?;
        print_part_json(alloc, path, extent, output)?;
        start = ",";
    }
    write!(output, "] }} }}")
}

/// Prints an extent as a JSON object.
fn print_found<W: Write>(alloc: Global, found: &Found, output: &mut W) -> io::Result<()> {
    let (extent, file) = found;
    let (kind, length) = (kind_of(extent), bytes_of(extent.sectors()));
    write!(output, "\n{{ \"type\": \"{kind}\", \"length\": {length}")?;
    if let Extent::Flat { name, offset, .. } = extent {
        let (name, offset) = (quoted(alloc, name)?, bytes_of(*offset));
        write!(output, ", \"filename\": {name}, \"offset\": {offset}")?;
    }
    if let Some(file) = file {
        print_length(file, output)?;
    }
    write!(output, " }}")
}

/// Prints how long the file of an extent is, if it is known.
fn print_length<W: Write>(file: &ExtentFile, output: &mut W) -> io::Result<()> {
    match file {
        ExtentFile::Length(length) => write!(output, ", \"file-length\": {length}"),
        _ => write!(output, ", \"file-length\": null"),
    }
}

/// Prints what settings say as members of a JSON object, each with a comma behind it.
fn print_settings_json<W: Write>(
    alloc: Global,
    settings: &Settings,
    output: &mut W,
) -> io::Result<()> {
    if let Some(cid) = settings.cid {
        write!(output, "\"cid\": {cid}, ")?;
    }
    if let Some(cid) = settings.parent_cid {
        write!(output, "\"parent-cid\": {cid}, ")?;
    }
    if let Some(create_type) = &settings.create_type {
        write!(output, "\"create-type\": {}, ", quoted(alloc, create_type)?)?;
    }
    Ok(())
}

/// Prints an extent of the descriptor of that path as `qemu-img` does, as a JSON object.
fn print_part_json<W: Write>(
    alloc: Global,
    path: &str,
    extent: &Extent<String>,
    output: &mut W,
) -> io::Result<()> {
    let (kind, size) = (kind_of(extent), bytes_of(extent.sectors()));
    write!(output, "\n{{ \"virtual-size\": {size}")?;
    if let Some(file) = path_of(alloc, path, extent)? {
        write!(output, ", \"filename\": {}", quoted(alloc, &file)?)?;
    }
    write!(output, ", \"format\": \"{kind}\" }}")
}

// SPDX-License-Identifier: MIT
//! What an image is.
ghost use Rattle.std.specs.Prelude.{◌≡◌, ℕ, List, map, Ok, IfOk, OnOk, IfSome};
ghost use Rattle.std.specs.String.{string_bytes};
ghost use Rattle.imago_vmdk.specs.Line.{extent_with};
ghost use Rattle.imago_vmdk.specs.Reading.{reading_of};
ghost use Rattle.imago_images.specs.declared.opening.OtherFiles.TheVariants as Others;
ghost use Rattle.imago_images.specs.HostBytes.{HasBytes};
ghost use Rattle.std.specs.Io.KnownBytes.{Appends};
ghost use Rattle.imago_images.specs.Layers.{size_by};
ghost use Rattle.imago_img_files.specs.Described.{HasNoFile, HaveNoFiles, IsDescribed, IsReportOf};
ghost use Rattle.imago_img_files.specs.Described.{NamesNothing};
ghost use Rattle.imago_img_files.specs.Printed.{HasPrinted, IsAnyText, TellsFormat, format_text};

use crate::chain::{Above, NamedBelow, Step, step_below};
use crate::extents::{ExtentFile, Taken, find_counted, tell_fault};
use crate::failure::{Failure, Reason};
use crate::host::Host;
use crate::json::quoted;
use crate::looked::descriptor_text;
use crate::printed::print_bytes;
use crate::qcow2_info::{Qcow2Report, print_qcow2, print_qcow2_json, report_on_qcow2};
use crate::sizes::Size;
use crate::sparse::sparse_type;
use crate::vmdk_info::{Found, Settings, VmdkReport, print_vmdk, print_vmdk_json, settings_in};
use imago_file::name::path_beside;
use imago_images::alone::refuse_another;
use imago_images::file::{PathStorage, look_at};
use imago_images::format::ImageFormat;
use imago_images::gate::{FolderGate, Named};
use imago_images::layer::format_of;
use imago_images::longest::refuse_longer;
use imago_images::opening::{Opening, OtherFiles};
use imago_images::recognised::length_of;
use imago_storage::error::Error;
use imago_storage::storage::Storage;
use imago_vmdk::descriptor::{self, Descriptor};
use imago_vmdk::line::Extent;
use std::alloc::Global;
use std::io::{self, BufWriter, Write};

/// What an image is.
#[derive(Drop)]
struct Report {
    format: ImageFormat,
    /// The disk's size in bytes.
    size: u64,
    /// How many bytes the file takes, if that can be told.
    on_disk: Option<u64>,
    /// What else is told of a VMDK image.
    vmdk: Option<VmdkReport>,
    /// What else is told of a qcow2 image.
    qcow2: Option<Qcow2Report>,
}

/// What is asked about an image.
#[derive(Clone, Copy)]
pub struct Asked {
    /// Whether the answer is JSON.
    pub json: bool,
    /// Whether the images below are described too.
    pub chain: bool,
}

/// The most images that a chain has, as of those that are opened.
const LONGEST_CHAIN: usize = 200;

/// Tells the format, the size and the extents of an image, and warns of extents that their files
/// don't hold. Asked for a chain, it tells the same of each image below, one at a time.
pub fn info<H: Host, W: Write, E: Write>(
    host: &H,
    path: &str,
    how: Opening,
    asked: Asked,
    output: &mut W,
    warnings: &mut E,
) -> Result<(), Failure>
    ensures { OnOk result (HasPrinted (λ text. IfSome (H.contents host.now)
        (λ files. IsDescribed how asked.json path.now (files path.now) text))
        (W.contents output.old) (W.contents output.new)) }
{
    let file = look_at(host, path)?;
    let report = report_on(host, path, &file, how)?;
    let path = String::from_str(host.alloc(), path)?;
    let first = Step { path, file, how };
    tell_images(host, first, report, asked, output, warnings)?;
    Ok(())
}

/// Tells what an image is, or each image of its chain: of the first one, that.
fn tell_images<H: Host, W: Write, E: Write>(
    host: &H,
    first: Step<PathStorage<'_, H>>,
    report: Report,
    asked: Asked,
    output: &mut W,
    warnings: &mut E,
) -> Result<(), Failure>
    ensures { OnOk result (HasPrinted (TellsFormat asked.json report.format report.size)
        (W.contents output.old) (W.contents output.new)) }
{
    if asked.chain {
        return tell_chain(host, first, report, asked.json, output, warnings);
    }
    warn(&report, warnings);
    tell(host.alloc(), &first.path, &report, asked.json, output)?;
    let end: &[u8] = if asked.json { b"\n" } else { b"" };
    print_bytes(end, output)
}

/// What is printed before the first image of a chain, between two of them, and behind the last one.
#[derive(Clone, Copy)]
struct Frame {
    start: &'static [u8],
    between: &'static [u8],
    end: &'static [u8],
}

/// What stands around the images of a chain that are told as lines, or as JSON.
fn frame_of(json: bool) -> Frame {
    if json {
        Frame {
            start: b"[\n",
            between: b",\n",
            end: b"\n]\n",
        }
    } else {
        Frame {
            start: b"",
            between: b"\n",
            end: b"",
        }
    }
}

/// Tells what each image of a chain is: of the first one, that.
fn tell_chain<H: Host, W: Write, E: Write>(
    host: &H,
    first: Step<PathStorage<'_, H>>,
    report: Report,
    json: bool,
    output: &mut W,
    warnings: &mut E,
) -> Result<(), Failure>
    ensures { OnOk result (HasPrinted (TellsFormat json report.format report.size)
        (W.contents output.old) (W.contents output.new)) }
{
    let image = String::from_str(host.alloc(), &first.path)?;
    let mut above = Above::new(host.alloc());
    enter(host, &image, &first, &mut above)?;
    warn(&report, warnings);
    let frame = frame_of(json);
    print_bytes(frame.start, output)?;
    tell(host.alloc(), &first.path, &report, json, output)?;
    tell_below(
        host, &image, first, report, &mut above, json, output, warnings,
    )?;
    print_bytes(frame.end, output)
}

/// Tells what each image is that lies below the first one of the chain, of which that was told.
fn tell_below<H: Host, W: Write, E: Write>(
    host: &H,
    image: &str,
    first: Step<PathStorage<'_, H>>,
    report: Report,
    above: &mut Above,
    json: bool,
    output: &mut W,
    warnings: &mut E,
) -> Result<(), Failure>
    ensures { OnOk result (HasPrinted IsAnyText (W.contents output.old) (W.contents output.new)) }
{
    let mut step = first;
    let mut report = report;
    for _depth in 1..LONGEST_CHAIN {
        let Some(said) = report.named_below() else {
            return Ok(());
        };
        let below = step_below(host, &step.path, step.how, said);
        step = Failure::or_opened(host.alloc(), image, below)?;
        report = report_on_step(host, image, &step, above)?;
        tell_next(host.alloc(), &step.path, &report, json, output, warnings)?;
    }
    refuse_below_last(host, image, &step, &report, above)
}

/// Refuses an image below the last one that a chain may have.
fn refuse_below_last<H: Host>(
    host: &H,
    image: &str,
    last: &Step<PathStorage<'_, H>>,
    report: &Report,
    above: &Above,
) -> Result<(), Failure> {
    let Some(said) = report.named_below() else {
        return Ok(());
    };
    let below = step_below(host, &last.path, last.how, said);
    let below = Failure::or_opened(host.alloc(), image, below)?;
    let refused = above.too_many_below(host.alloc(), &below.path);
    Failure::or_opened(host.alloc(), image, refused)
}

/// Tells what an image is that isn't the first one of its chain.
fn tell_next<W: Write, E: Write>(
    alloc: Global,
    path: &str,
    report: &Report,
    json: bool,
    output: &mut W,
    warnings: &mut E,
) -> Result<(), Failure>
    ensures { OnOk result (HasPrinted IsAnyText (W.contents output.old) (W.contents output.new)) }
{
    warn(report, warnings);
    print_bytes(frame_of(json).between, output)?;
    tell(alloc, path, report, json, output)?;
    Ok(())
}

/// Comes to an image of the chain that begins at the path `image`, and refuses one that is above
/// itself.
fn enter<H: Host>(
    host: &H,
    image: &str,
    step: &Step<PathStorage<'_, H>>,
    above: &mut Above,
) -> Result<(), Failure> {
    let entered = above.enter(host.alloc(), &step.path, &step.file);
    Failure::or_opened(host.alloc(), image, entered)
}

/// Looks at the next image of the chain that begins at the path `image`, and refuses one that is
/// above itself.
fn report_on_step<H: Host>(
    host: &H,
    image: &str,
    step: &Step<PathStorage<'_, H>>,
    above: &mut Above,
) -> Result<Report, Failure> {
    enter(host, image, step, above)?;
    let reported = report_on(host, &step.path, &step.file, step.how);
    Failure::or_needed(host.alloc(), image, reported)
}

impl Report {
    /// What the image says of the one below it, if there is one.
    fn named_below(&self) -> Option<NamedBelow<'_>> {
        match &self.qcow2 {
            Some(found) => found.named_below(),
            None => None,
        }
    }
}

/// Looks at an image, and for the files of its extents.
fn report_on<'a, H: Host>(
    host: &H,
    path: &str,
    file: &PathStorage<'a, H>,
    how: Opening,
) -> Result<Report, Failure>
    ensures { (bytes : List ℕ) → HasBytes ⟦<PathStorage<'a, H> as Storage>⟧.features
        ⟦<PathStorage<'a, H> as Storage>⟧.bytes bytes file.now
        → IfOk result (λ r. IsReportOf how path.now bytes r.format r.size) }
{
    refuse_another(host.alloc(), path, file, how.format, how.other_files)?;
    let format = format_of(host.alloc(), path, file, how.format)?;
    refuse_longer(host.alloc(), path, file, format, how)?;
    let report = report_as(host, path, file, format, how)?;
    Ok(report)
}

/// The same of one of that format.
fn report_as<'a, H: Host>(
    host: &H,
    path: &str,
    file: &PathStorage<'a, H>,
    format: ImageFormat,
    how: Opening,
) -> Result<Report, Failure>
    ensures format { IfOk result (λ r. r.format ≡ format) }
    ensures size { (bytes : List ℕ) → HasBytes ⟦<PathStorage<'a, H> as Storage>⟧.features
        ⟦<PathStorage<'a, H> as Storage>⟧.bytes bytes file.now
        → IfOk result (λ r. r.size ≡ size_by how.accepted format bytes) }
    ensures alone { (bytes : List ℕ) → HasBytes ⟦<PathStorage<'a, H> as Storage>⟧.features
        ⟦<PathStorage<'a, H> as Storage>⟧.bytes bytes file.now
        → OnOk result (how.other_files ≡ Others.None → NamesNothing how.accepted bytes format) }
{
    let on_disk = host.size_on_disk(path);
    match format {
        ImageFormat::Raw => {
            let size = length_of(host.alloc(), path, file)?;
            Ok(Report {
                format,
                size,
                on_disk,
                vmdk: None,
                qcow2: None,
            })
        }
        ImageFormat::Vmdk => {
            let (described, settings) = describe(host, path, file, how)?;
            refuse_files(host.alloc(), path, &described.extents, how.other_files)?;
            let size = described.size;
            let (extents, taken) = found_extents(host, path, described.extents, how)?;
            Ok(Report {
                format,
                size,
                on_disk: on_disk_with(on_disk, taken),
                vmdk: Some(VmdkReport { settings, extents }),
                qcow2: None,
            })
        }
        ImageFormat::Qcow2 => {
            let found = report_on_qcow2(host, path, file, how.other_files)?;
            Ok(Report {
                format,
                size: found.header.disk_size(),
                on_disk,
                vmdk: None,
                qcow2: Some(found),
            })
        }
    }
}

/// How many bytes a descriptor's file takes, with those of its extents' files.
fn on_disk_with(on_disk: Option<u64>, taken: u64) -> Option<u64> {
    Some(on_disk?.saturating_add(taken))
}

/// What a descriptor says, and its settings.
fn describe<'a, H: Host>(
    host: &H,
    path: &str,
    file: &PathStorage<'a, H>,
    how: Opening,
) -> Result<(Descriptor, Settings), Failure>
    ensures { (bytes : List ℕ) → HasBytes ⟦<PathStorage<'a, H> as Storage>⟧.features
        ⟦<PathStorage<'a, H> as Storage>⟧.bytes bytes file.now
        → IfOk result (λ d. reading_of how.accepted bytes
        ≡ Ok (map (extent_with string_bytes) d.0.extents.items, d.0.size)) }
{
    let text = descriptor_text(host.alloc(), path, file)?;
    let settings = settings_in(host.alloc(), &text)?;
    match descriptor::read(host.alloc(), how.accepted, &text) {
        Ok(described) => Ok((described, settings)),
        Err(cause) => Err(not_described(host.alloc(), path, &text, cause)),
    }
}

/// Why a descriptor with that text isn't read: by the type of its image, if its extents are sparse
/// files.
fn not_described(alloc: Global, path: &str, text: &[u8], cause: Error) -> Failure {
    match sparse_type(text) {
        Some(kind) if cause == Error::Unsupported => Failure::of_sparse_type(alloc, path, kind),
        _ => Failure::of_file(alloc, path, Reason::Image(cause)),
    }
}

/// Refuses extents of which one stands in a file, where no other files are opened: as the gate does
/// that lets none through, and before it.
fn refuse_files(
    alloc: Global,
    path: &str,
    extents: &[Extent<String>],
    others: OtherFiles,
) -> Result<(), Failure>
    ensures { OnOk result (others ≡ Others.None
        → HaveNoFiles (map (extent_with string_bytes) extents.now)) }
{
    match others {
        OtherFiles::None => refuse_any_file(alloc, path, extents),
        OtherFiles::InFolder | OtherFiles::Any => Ok(()),
    }
}

/// Refuses extents of which one stands in a file.
fn refuse_any_file(alloc: Global, path: &str, extents: &[Extent<String>]) -> Result<(), Failure>
    ensures { OnOk result (HaveNoFiles (map (extent_with string_bytes) extents.now)) }
{
    let mut rest = extents;
    while let Some((extent, behind)) = rest.split_first() {
        rest = behind;
        refuse_file(alloc, path, extent)?;
    }
    Ok(())
}

/// Refuses an extent that stands in a file.
fn refuse_file(alloc: Global, path: &str, extent: &Extent<String>) -> Result<(), Failure>
    ensures { OnOk result (HasNoFile (extent_with string_bytes extent.now)) }
{
    let Extent::Flat { name, .. } = extent else {
        return Ok(());
    };
    let named = path_beside(alloc, path, name)?;
    Err(Failure::of_file(alloc, path, Reason::NotPermitted(named)))
}

/// The extents of a descriptor, what is found under their names, and how many bytes the files take
/// that are found: each counts once, and one whose size can't be told doesn't.
fn found_extents<H: Host>(
    host: &H,
    path: &str,
    extents: Vec<Extent<String>>,
    how: Opening,
) -> Result<(Vec<Found>, u64), Failure> {
    let mut gate = FolderGate::of(host, path, Named::Extents, how.other_files)?;
    let mut taken = Taken::new(host.alloc());
    let mut all = Vec::new(host.alloc());
    for extent in extents {
        let file = file_of(host, &mut gate, &mut taken, &extent)?;
        all.push((extent, file))?;
    }
    Ok((all, taken.bytes()))
}

/// What is found under the name of an extent, if it has one, and is counted.
fn file_of<H: Host>(
    host: &H,
    gate: &mut FolderGate<'_, '_, H>,
    taken: &mut Taken,
    extent: &Extent<String>,
) -> Result<Option<ExtentFile>, Failure> {
    match extent {
        Extent::Flat { name, .. } => Ok(Some(find_counted(host, gate, taken, name)?)),
        _ => Ok(None),
    }
}

/// Warns of extents that their files don't hold. That it can't be told is no failure.
fn warn<E: Write>(report: &Report, warnings: &mut E) {
    let Some(vmdk) = &report.vmdk else { return };
    for (extent, file) in &vmdk.extents {
        if let (
            Extent::Flat {
                sectors,
                name,
                offset,
                ..
            },
            Some(file),
        ) = (extent, file)
        {
            let part = (*offset, *sectors);
            let _ = tell_fault(warnings, "imago-img: warning: ", name, part, file);
        }
    }
}

/// What is printed of an image besides its format and its size.
#[derive(Drop)]
struct Besides {
    /// The path, as it is printed.
    name: String,
    /// The size in a unit.
    unit: String,
    /// What comes behind the format and the size.
    rest: Vec<u8>,
}

/// What is printed of an image besides its format and its size, as lines or as JSON.
fn render(alloc: Global, path: &str, report: &Report, json: bool) -> Result<Besides, Failure> {
    let name = if json {
        quoted(alloc, path)?
    } else {
        format!(in alloc; "{path:?}")?
    };
    let unit = format!(in alloc; "{}", Size(report.size))?;
    let rest = rendered(alloc, path, report, json).map_err(|_refused| Failure::Memory)?;
    Ok(Besides { name, unit, rest })
}

/// What comes behind the size of an image, in memory. It is refused for want of memory alone.
fn rendered(alloc: Global, path: &str, report: &Report, json: bool) -> io::Result<Vec<u8>> {
    // Short pieces cost less where a buffer gathers them.
    let mut rest = BufWriter::new(alloc, Vec::new(alloc))?;
    print_rest(alloc, path, report, json, &mut rest)?;
    match rest.into_inner() {
        Ok(rest) => Ok(rest),
        Err(refused) => Err(refused.into_error()),
    }
}

/// Prints it as lines, or as a JSON object without a newline behind it.
fn tell<W: Write>(
    alloc: Global,
    path: &str,
    report: &Report,
    json: bool,
    output: &mut W,
) -> Result<(), Failure>
    ensures { OnOk result (HasPrinted (TellsFormat json report.now.format report.now.size)
        (W.contents output.old) (W.contents output.new)) }
{
    let besides = render(alloc, path, report, json)?;
    let (format, size) = (report.format, report.size);
    print_all(format, size, &besides, json, output).map_err(Failure::Output)
}

/// Prints the format and the size of an image, and what is told besides.
fn print_all<W: Write>(
    format: ImageFormat,
    size: u64,
    besides: &Besides,
    json: bool,
    output: &mut W,
) -> io::Result<()>
    ensures { OnOk result (HasPrinted (TellsFormat json format size)
        (W.contents output.old) (W.contents output.new)) }
{
    print_name(&besides.name, json, output)?;
    print_format(format, size, &besides.unit, json, output)?;
    output.write_all(&besides.rest)
}

/// Prints what comes before the format of an image: its path.
fn print_name<W: Write>(name: &str, json: bool, output: &mut W) -> io::Result<()>
    ensures { OnOk result (HasPrinted IsAnyText (W.contents output.old) (W.contents output.new)) }
{
    let start: &[u8] = if json {
        b"{ \"filename\": "
    } else {
        b"image: "
    };
    let end: &[u8] = if json { b"" } else { b"\n" };
    output.write_all(start)?;
    output.write_all(name.as_bytes())?;
    output.write_all(end)
}

/// Prints the format of an image, and its size, in a unit too.
fn print_format<W: Write>(
    format: ImageFormat,
    size: u64,
    unit: &str,
    json: bool,
    output: &mut W,
) -> io::Result<()>
    ensures { OnOk result (Appends (W.contents output.old) (W.contents output.new)
        (format_text json format size unit.now)) }
{
    let name = format.name();
    if json {
        write!(output, ", \"format\": \"{name}\", \"virtual-size\": {size}")
    } else {
        writeln!(
            output,
            "file format: {name}\nvirtual size: {unit} ({size} bytes)"
        )
    }
}

/// Prints what comes behind the size of an image.
fn print_rest<W: Write>(
    alloc: Global,
    path: &str,
    report: &Report,
    json: bool,
    output: &mut W,
) -> io::Result<()> {
    if json {
        print_members(alloc, path, report, output)
    } else {
        print_lines(report, output)
    }
}

/// Prints it as lines.
fn print_lines<W: Write>(report: &Report, output: &mut W) -> io::Result<()> {
    match report.on_disk {
        Some(taken) => writeln!(output, "disk size: {}", Size(taken))?,
        None => writeln!(output, "disk size: unavailable")?,
    }
    if let Some(found) = &report.qcow2 {
        print_qcow2(found, output)?;
    }
    if let Some(found) = &report.vmdk {
        print_vmdk(found, output)?;
    }
    Ok(())
}

/// Prints it as the rest of a JSON object.
fn print_members<W: Write>(
    alloc: Global,
    path: &str,
    report: &Report,
    output: &mut W,
) -> io::Result<()> {
    if let Some(taken) = report.on_disk {
        write!(output, ", \"actual-size\": {taken}")?;
    }
    if let Some(found) = &report.qcow2 {
        print_qcow2_json(alloc, found, output)?;
        return write!(output, " }}");
    }
    match &report.vmdk {
        Some(found) => print_vmdk_json(alloc, path, found, output)?,
        None => write!(output, ", \"extents\": []")?,
    }
    write!(output, " }}")
}

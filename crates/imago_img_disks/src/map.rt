// SPDX-License-Identifier: MIT
//! Where the bytes of an image's disk stand.
ghost use Rattle.std.specs.Prelude.{◌≡◌, ◌+◌, ◌<◌, ◌≤◌, ◌^◌, ◌∷◌, [], None, ℕ, false, true, if◌then◌else◌, IfOk, IfSome, OnOk};
ghost use Rattle.std.specs.Io.KnownBytes.{Appends};
ghost use Rattle.imago_access.specs.Chain.{driver, disk_value};
ghost use Rattle.imago_access.specs.Target.{target, Target};
ghost use Rattle.imago_drivers.specs.Place.{Value};
ghost use Rattle.imago_copy.specs.LayerRuns.{AreLayerRuns};
ghost use Rattle.imago_disk.specs.Disk.{image_of};
ghost use Rattle.imago_img_files.specs.Printed.{HasPrinted};
ghost use Rattle.imago_img_disks.specs.Rows.{HasRows, ShowsZeroes, TellsMap, TellsRows, ending, gap, heading, row_of, rows_text};
ghost use Rattle.imago_img_disks.specs.declared.lines.LineKind.TheVariants as Kinds;

use crate::image::{next_runs, not_read, opened};
use crate::lines::{Line, LineKind, print_line, print_object};
use imago_access::access::FormatAccess;
use imago_any_driver::any::AnyDriver;
use imago_copy::layers::{LayerRun, LayerRuns};
use imago_copy::runs::{Kind, Run};
use imago_disk::disk::Disk;
use imago_drivers::drivers::FormatDriverInstance;
use imago_images::opening::Opening;
use imago_img_files::failure::Failure;
use imago_img_files::host::Host;
use imago_img_files::json::quoted;
use imago_storage::error::Error;
use imago_storage::storage::Storage;
use std::alloc::{AllocError, Global};
use std::io::{self, Write};

/// How rows are printed.
#[derive(Clone, Copy)]
struct Printer {
    json: bool,
    /// Whether none was printed.
    is_first: bool,
}

/// A file of an image.
#[derive(Drop)]
struct NamedFile<'a> {
    path: &'a str,
    /// The path, as it is printed.
    printed: String,
}

/// Tells where the bytes of the disk of the image of that path stand, and which are zero,
/// compressed, or in no layer. Holes of the files are told as zero. No byte is read, so zeroes that
/// are compressed are told as compressed.
///
/// Some thousand runs are told before the next ones are looked for, so the memory that this takes
/// doesn't grow with their number; and where an entry can't be read, those before were told.
pub fn map_image<H: Host, W: Write>(
    host: &H,
    path: &str,
    how: Opening,
    json: bool,
    output: &mut W,
) -> Result<(), Failure>
    ensures { OnOk result (HasPrinted (λ text. IfSome (H.contents host.now)
        (λ files. TellsMap how json files path.now text)) (W.contents output.old)
        (W.contents output.new)) }
{
    let disk = opened(host, path, how)?;
    match print_image(host, &disk, json, output) {
        Ok(printed) => printed.map_err(Failure::Output),
        Err(cause) => Err(not_read(host.alloc(), path, &disk, cause)),
    }
}

/// Prints a disk. An error is its image's refusal, or that of memory, and one inside an answer is
/// the output's.
fn print_image<H: Host, S: Storage, W: Write>(
    host: &H,
    disk: &Disk<S>,
    json: bool,
    output: &mut W,
) -> Result<io::Result<()>, Error>
    ensures { let view = ⟦<AnyDriver<S> as FormatDriverInstance>⟧.view in
        IfOk result (λ printed. OnOk printed (HasPrinted
        (TellsRows json (disk_value view (image_of disk.now))
        (view (driver (image_of disk.now))).size)
        (W.contents output.old) (W.contents output.new))) }
{
    let image = disk.image();
    let files = files_of(host.alloc(), image, json)?;
    print_disk(host, image, &files, json, output)
}

/// Prints the runs of the disk of an image whose layers have those files. An error is the image's
/// refusal, or that of memory, and one inside an answer is the output's.
fn print_disk<H: Host, D: FormatDriverInstance, W: Write>(
    host: &H,
    image: &FormatAccess<D>,
    files: &[Vec<NamedFile<'_>>],
    json: bool,
    output: &mut W,
) -> Result<io::Result<()>, Error>
    ensures { IfOk result (λ printed. OnOk printed (HasPrinted
        (TellsRows json (disk_value D.view image.now) (D.view (driver image.now)).size)
        (W.contents output.old) (W.contents output.new))) }
{
    // No effect at run time: the proof reads from it that the size fits 64 bits.
    let _ = image.size();
    let mut runs = LayerRuns::new(image)?;
    let mut some = Vec::new(host.alloc());
    next_runs(&mut runs, &mut some)?;
    match print_heading(json, output) {
        Ok(()) => {}
        Err(cause) => return Ok(Err(cause)),
    }
    let mut printer = Printer {
        json,
        is_first: true,
    };
    while some.len() > 0 {
        match print_runs(host, &some, files, &mut printer, output) {
            Ok(()) => next_runs(&mut runs, &mut some)?,
            Err(cause) => return Ok(Err(cause)),
        }
    }
    Ok(print_ending(json, output))
}

/// Prints what stands before the rows.
fn print_heading<W: Write>(json: bool, output: &mut W) -> io::Result<()>
    ensures { OnOk result (Appends (W.contents output.old) (W.contents output.new) (heading json)) }
{
    if json {
        output.write_all(b"[")
    } else {
        output.write_all(
            b"start                length               kind offset               file\n",
        )
    }
}

/// Prints what stands behind them.
fn print_ending<W: Write>(json: bool, output: &mut W) -> io::Result<()>
    ensures { OnOk result (Appends (W.contents output.old) (W.contents output.new) (ending json)) }
{
    if json {
        output.write_all(b"]\n")
    } else {
        output.write_all(b"")
    }
}

/// Prints runs of a disk whose layers have those files.
fn print_runs<H: Host, W: Write>(
    host: &H,
    runs: &[LayerRun],
    files: &[Vec<NamedFile<'_>>],
    printer: &mut Printer,
    output: &mut W,
) -> io::Result<()>
    ensures json { printer.new.json ≡ printer.old.json }
    ensures rows { (leads : ℕ → Target) (value : ℕ → Value) (p q : ℕ)
        → AreLayerRuns leads p runs.now q → q < 2 ^ 64 → ShowsZeroes leads value
        → OnOk result (HasRows printer.old.json printer.old.is_first printer.new.is_first value p q
        (W.contents output.old) (W.contents output.new)) }
{
    let mut rest = runs;
    while let Some((run, behind)) = rest.split_first() {
        rest = behind;
        print_run(host, *run, files, printer, output)?;
    }
    Ok(())
}

/// The files of an image, by the depth of the layer and the index of the storage.
fn files_of<D: FormatDriverInstance>(
    alloc: Global,
    image: &FormatAccess<D>,
    json: bool,
) -> Result<Vec<Vec<NamedFile<'_>>>, AllocError> {
    let mut all = Vec::new(alloc);
    let mut layer = Some(image);
    while let Some(here) = layer {
        all.push(files_of_driver(alloc, here.inner(), json)?)?;
        layer = here.backing();
    }
    Ok(all)
}

/// The files of a layer's storages, by their indices. A storage without a name has none.
fn files_of_driver<D: FormatDriverInstance>(
    alloc: Global,
    driver: &D,
    json: bool,
) -> Result<Vec<NamedFile<'_>>, AllocError> {
    let mut files = Vec::new(alloc);
    for index in 0..driver.storage_count() {
        let path = match driver.storage(index) {
            Some(storage) => storage.get_filename().unwrap_or(""),
            None => "",
        };
        files.push(named(alloc, path, json)?)?;
    }
    Ok(files)
}

/// The file of a path.
fn named(alloc: Global, path: &str, json: bool) -> Result<NamedFile<'_>, AllocError> {
    let printed = if json {
        quoted(alloc, path)?
    } else {
        format!(in alloc; "{path:?}")?
    };
    Ok(NamedFile { path, printed })
}

/// Prints a run of a disk whose layers have those files.
fn print_run<H: Host, W: Write>(
    host: &H,
    layer_run: LayerRun,
    files: &[Vec<NamedFile<'_>>],
    printer: &mut Printer,
    output: &mut W,
) -> io::Result<()>
    ensures json { printer.new.json ≡ printer.old.json }
    ensures rows { (leads : ℕ → Target) (value : ℕ → Value) (p q : ℕ)
        → AreLayerRuns leads p (layer_run ∷ []) q → q < 2 ^ 64 → ShowsZeroes leads value
        → OnOk result (HasRows printer.old.json printer.old.is_first printer.new.is_first value p q
        (W.contents output.old) (W.contents output.new)) }
{
    let LayerRun { run, allocation } = layer_run;
    let depth = allocation.depth;
    match run.kind {
        Kind::Stored {
            layer,
            storage,
            offset,
        } => match files.get(layer).and_then(|files| files.get(storage)) {
            Some(file) => print_stored(host, file, &run, depth, offset, printer, output),
            None => printer.print(placeless(&run, LineKind::Data, depth), output),
        },
        Kind::Special { .. } => {
            printer.print(placeless(&run, LineKind::Compressed, depth), output)
        }
        Kind::Zero => {
            let kind = zero_kind(allocation.is_present);
            printer.print(placeless(&run, kind, depth), output)
        }
    }
}

/// A run that stands at no offset of a file.
fn placeless(run: &Run, kind: LineKind, depth: usize) -> Line<'static>
    ensures { result ≡ record {
      start = run.now.at;
      length = run.now.count;
      kind = kind;
      depth = depth;
      place = None;
    } }
{
    Line {
        start: run.at,
        length: run.count,
        kind,
        depth,
        place: None,
    }
}

/// What zeroes are that stand in no file: those of a layer, or of none.
fn zero_kind(is_present: bool) -> LineKind
    ensures { result ≡ (if is_present then Kinds.Zero else Kinds.Absent) }
{
    if is_present {
        LineKind::Zero
    } else {
        LineKind::Absent
    }
}

/// What bytes of a file are, which stand between its holes or in one.
fn stored_kind(is_data: bool) -> LineKind
    ensures { result ≡ (if is_data then Kinds.Data else Kinds.Zero) }
{
    if is_data {
        LineKind::Data
    } else {
        LineKind::Zero
    }
}

/// Prints a run of a file: its holes, and what lies between them.
fn print_stored<H: Host, W: Write>(
    host: &H,
    file: &NamedFile<'_>,
    run: &Run,
    depth: usize,
    start: u64,
    printer: &mut Printer,
    output: &mut W,
) -> io::Result<()>
    ensures json { printer.new.json ≡ printer.old.json }
    ensures rows { (value : ℕ → Value) → run.now.at + run.now.count < 2 ^ 64
        → OnOk result (HasRows printer.old.json printer.old.is_first printer.new.is_first value
        run.now.at (run.now.at + run.now.count) (W.contents output.old) (W.contents output.new)) }
{
    let mut done = 0;
    while done < run.count {
        let offset = start.saturating_add(done);
        let (length, is_data) = host.run_at(file.path, offset, run.count - done);
        let line = Line {
            start: run.at.saturating_add(done),
            length,
            kind: stored_kind(is_data),
            depth,
            place: Some((&file.printed, offset)),
        };
        printer.print(line, output)?;
        done += length;
    }
    Ok(())
}

/// What parts a row from the one before, if that isn't the first one.
fn gap_before(json: bool, is_first: bool) -> &'static [u8]
    ensures { result.now ≡ gap json is_first }
{
    match (json, is_first) {
        (true, false) => b",\n",
        (true, true) => b"",
        (false, _) => b"",
    }
}

impl Printer {
    /// Prints a row.
    fn print<W: Write>(&mut self, line: Line<'_>, output: &mut W) -> io::Result<()>
        ensures json { self.new.json ≡ self.old.json }
        ensures behind { self.new.is_first ≡ false }
        ensures row { OnOk result (Appends (W.contents output.old) (W.contents output.new)
            (rows_text self.old.json self.old.is_first (row_of line.entry ∷ []))) }
    {
        let gap = gap_before(self.json, self.is_first);
        self.is_first = false;
        output.write_all(gap)?;
        if self.json {
            print_object(output, line)
        } else {
            print_line(output, line)
        }
    }
}

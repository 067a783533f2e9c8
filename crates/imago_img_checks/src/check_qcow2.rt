// SPDX-License-Identifier: MIT
//! Whether a qcow2 file is in order: its entries, and the reference counts of its clusters.
ghost use Rattle.std.specs.Prelude.{◌≡◌, ℕ, List, IfOk, IfSome};
ghost use Rattle.imago_qcow2_check.specs.Faults.{verdict_of};
ghost use Rattle.imago_images.specs.Alone.{NamesNoOther};
ghost use Rattle.imago_images.specs.HostBytes.{HasBytes};
ghost use Rattle.imago_img_files.specs.Openings.{most_memory};
ghost use Rattle.imago_img_checks.specs.Checked.{IsQcow2Checked};

use imago_file::file::FileStorage;
use imago_file::host::HostFile;
use imago_images::alone::refuse_below;
use imago_images::file::PathStorage;
use imago_images::layer::open_qcow2_within;
use imago_images::opening::{Opening, OtherFiles};
use imago_img_files::failure::{Failure, OpenError, Reason, Unchecked};
use imago_img_files::host::{Files, Host};
use imago_img_files::opening::MOST_MEMORY;
use imago_qcow2_check::check::{Limits, Report, check};
use imago_qcow2_check::fault::CheckError;
use imago_storage::error::Error;
use imago_storage::storage::Storage;
use std::alloc::Global;
use std::io::{self, Write};

/// How many faults are told; the rest are only counted.
const MOST_FAULTS: usize = 500;

/// Tells the faults of a qcow2 file, and how many corruptions and leaks there are.
pub fn check_qcow2<'a, H: Host, W: Write>(
    host: &'a H,
    path: &str,
    file: PathStorage<'a, H>,
    how: Opening,
    output: &mut W,
) -> Result<(u64, u64), Failure>
    requires { IfSome (H.contents host.now)
        (λ files. HasBytes ⟦<PathStorage<'a, H> as Storage>⟧.features
        ⟦<PathStorage<'a, H> as Storage>⟧.bytes (files path.now) file) }
    ensures says { IfOk result (λ r. IfSome (H.contents host.now)
        (λ files. IsQcow2Checked (most_memory how.tables) (files path.now)
        (verdict_of r.0 r.1))) }
    ensures alone { IfOk result (λ _. IfSome (H.contents host.now)
        (λ files. NamesNoOther how.other_files (files path.now))) }
{
    let most = how.tables.unwrap_or(MOST_MEMORY);
    let report = match report_on(host.alloc(), &file, most) {
        Ok(report) => report,
        Err(cause) => return Err(not_checked(host.alloc(), path, &file, cause)),
    };
    refuse_others(host, path, file, most, how.other_files)?;
    tell_faults(path, &report, output).map_err(Failure::Output)?;
    Ok((report.corruptions, report.leaks))
}

/// Refuses a qcow2 file that names another, where no other files are opened. Its tables may take so
/// many bytes of memory.
fn refuse_others<H: Files, S: Storage>(
    host: &H,
    path: &str,
    file: S,
    most_tables: u64,
    others: OtherFiles,
) -> Result<(), OpenError>
    ensures { (bytes : List ℕ) → HasBytes S.features S.bytes bytes file → IfOk result
        (λ _. NamesNoOther others bytes) }
{
    if others != OtherFiles::None {
        return Ok(());
    }
    let qcow2 = open_qcow2_within(host, path, file, most_tables)?;
    refuse_below(host.alloc(), path, &qcow2, others)?;
    Ok(())
}

/// What a check of a qcow2 file finds, in so many bytes of memory.
fn report_on<S: Storage>(alloc: Global, file: &S, memory: u64) -> Result<Report, CheckError>
    ensures { (bytes : List ℕ) → HasBytes S.features S.bytes bytes file.now → IfOk result
        (λ r. IsQcow2Checked memory bytes (verdict_of r.corruptions r.leaks)) }
{
    let limits = Limits {
        memory,
        faults: MOST_FAULTS,
    };
    let report = check(file, alloc, limits)?;
    Ok(report)
}

/// Why a file can't be checked: by what the host answered, where it refused to read it.
fn not_checked<F: HostFile>(
    alloc: Global,
    path: &str,
    file: &FileStorage<F>,
    cause: CheckError,
) -> Failure {
    if let Some(answer) = file.last_error() {
        return Failure::of_file(alloc, path, Reason::System(answer));
    }
    if cause == CheckError::Storage(Error::Memory) {
        return Failure::Memory;
    }
    Failure::of_check(alloc, path, Unchecked::Qcow2(cause))
}

/// Tells the first faults of a report, each in a line.
fn tell_faults<W: Write>(path: &str, report: &Report, output: &mut W) -> io::Result<()> {
    for fault in &report.faults {
        writeln!(output, "{path:?}: {fault}")?;
    }
    if report.faults.len() == MOST_FAULTS {
        writeln!(
            output,
            "{path:?}: only the first {MOST_FAULTS} faults are listed"
        )?;
    }
    Ok(())
}

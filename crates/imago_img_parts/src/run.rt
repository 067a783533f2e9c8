// SPDX-License-Identifier: MIT
//! The program, over any host.
ghost use Rattle.std.specs.Prelude.{◌≡◌, ◌≤◌, ◌&&◌, ◌||◌, OnOk, OnErr, IfOk, IfSome, is_some, map};
ghost use Rattle.std.specs.Prelude.{Decides, not, option_map, Bool, Option};
ghost use Rattle.std.specs.Prelude.{string_bytes};
ghost use Rattle.imago_words.specs.declared.command.Command.{Command};
ghost use Rattle.imago_words.specs.Line.{Asks, kind_named, status_for, status_of};
ghost use Rattle.imago_images.specs.Reach.{AreAmong, is_made, is_read, is_seen};
ghost use Rattle.imago_img_parts.specs.declared.run.Outcome.TheVariants.{Fine, Checked, Vetted};
ghost use Rattle.imago_qcow2_check.specs.declared.fault.Verdict.{Verdict};
ghost use Rattle.imago_img_checks.specs.Checked.{IsChecked};
ghost use Rattle.imago_img_parts.specs.Commands.{AreToldApart, IsAnswered, IsConcluded};
ghost use Rattle.imago_img_parts.specs.Commands.{IsConvertedBy, IsPerformed, IsRun, IsStatus};
ghost use Rattle.imago_img_parts.specs.Commands.{IsCreated, IsNewlyConverted, IsResizedOrNot};
ghost use Rattle.imago_img_parts.specs.Commands.{outcome_status, outcome_when, refused_status};
ghost use Rattle.imago_img_parts.specs.Commands.{check_status, untold, vet_status};
ghost use Rattle.imago_img_checks.specs.Vetted.{IsVetted};
ghost use Rattle.imago_img_files.specs.Described.{IsDescribed};
ghost use Rattle.imago_img_disks.specs.Disks.{is_left_out};
ghost use Rattle.imago_img_disks.specs.Measures.{IsMeasured};
ghost use Rattle.imago_img_disks.specs.Rows.{TellsMap};
ghost use Rattle.imago_img_disks.specs.NewFiles.{format_by};
ghost use Rattle.imago_img_files.specs.Openings.{how_by, image_format};
ghost use Rattle.imago_img_files.specs.Printed.{HasPrinted, is_json as told_as_json};
ghost use Rattle.imago_img_parts.specs.Reaches.{reach_by};

use crate::commands::{Comparison, compare_images, convert_image, overwrite};
use crate::question::Question;
use crate::reach::reach_of;
use imago_images::confined::Confined;
use imago_images::opening::Opening;
use imago_img_checks::check::check;
use imago_img_checks::vet::vet;
use imago_img_disks::compare::leaves_out;
use imago_img_disks::create::create_image;
use imago_img_disks::map::map_image;
use imago_img_disks::measure::measure;
use imago_img_disks::new_qcow2::{NewQcow2, convert_to_qcow2, new_format};
use imago_img_disks::resize::resize_image;
use imago_img_files::failure::Failure;
use imago_img_files::guarded::GuardedHost;
use imago_img_files::host::{Files, Host, Making};
use imago_img_files::info::{Asked, info};
use imago_img_files::opening::{how_to_open, said_format};
use imago_img_files::printed::is_json;
use imago_qcow2_check::fault::Verdict;
use imago_words::command::{
    Check, Command, Compare, Convert, Create, Info, Map, Measure, Resize, Vet,
};
use imago_words::help::{Help, SettingsHelp, VERSION};
use imago_words::kind::Kind;
use imago_words::refusal::Refusal;
use imago_words::settings::{NewFormat, Settings};
use std::io::{self, Write};

/// The exit status where the format of a file has nothing to check.
const NOTHING_TO_CHECK: u8 = 63;

/// The exit status where a file isn't safe to hand on.
const REFUSED: u8 = 2;

/// What a question comes to.
#[derive(Clone, Copy)]
enum Outcome {
    /// Done, or the same.
    Fine,
    /// Different.
    Unlike,
    /// What is said of a file that was checked, if its format has something to check.
    Checked(Option<Verdict>),
    /// Whether a file is safe to hand on.
    Vetted(bool),
}

impl Outcome {
    /// The exit status for it.
    fn status(self) -> u8
        ensures { result ≡ outcome_status self }
    {
        match self {
            Outcome::Fine => 0,
            Outcome::Unlike => 1,
            Outcome::Checked(Some(verdict)) => verdict.status(),
            Outcome::Checked(None) => NOTHING_TO_CHECK,
            Outcome::Vetted(true) => 0,
            Outcome::Vetted(false) => REFUSED,
        }
    }
}

/// Does what the words of a command line ask for, which don't include the program's name, and gives
/// the exit status. What it is refused for is told in one line of the errors.
///
/// The host is asked for those paths alone which the command that the words ask for may ask for:
/// with `--alone` those that the command line names. What has to be permitted is said of no others,
/// so this holds of whatever is asked of any host, and whatever comes of it.
pub fn run<'w, G: GuardedHost, W: Write, E: Write>(
    host: &mut Confined<'w, G>,
    words: &'w [String],
    output: &mut W,
    errors: &mut E,
) -> u8
    requires reads { (command : Command) → Asks (map string_bytes words.now) command
        → AreAmong (is_read (reach_by command)) G.may_read }
    requires looks { (command : Command) → Asks (map string_bytes words.now) command
        → AreAmong (is_seen (reach_by command)) G.may_look }
    requires makes { (command : Command) → Asks (map string_bytes words.now) command
        → AreAmong (is_made (reach_by command)) G.may_make }
    ensures status { IsStatus result }
    ensures done { IsRun (map string_bytes words.entry.now) (G.statuses host.old.host)
        (G.left_overs host.old.host) (G.contents host.old.host)
        (G.contents host.new.host) (G.around host.old.host) (G.around host.new.host)
        (W.contents output.old) (W.contents output.new) result }
{
    match Command::read(host.alloc(), words) {
        Ok(command) => {
            host.confine(reach_of(&command));
            perform(host, command, refused_status(words), output, errors)
        }
        Err(refusal) => refuse(refusal, errors),
    }
}

/// The status of a command line that is refused, by its first word.
fn refused_status(words: &[String]) -> u8
    ensures most { result ≤ 2 }
    ensures status { result ≡ refused_status (map string_bytes words.now) }
{
    let Some((first, _)) = words.split_first() else {
        return 1;
    };
    status_for(Kind::named(first.as_str()))
}

/// The status where the words of a command line can't be read, by its first word.
pub fn unread_status(first: &str) -> u8
    ensures most { result ≤ 2 }
    ensures status { result ≡ status_for (kind_named first.now) }
{
    status_for(Kind::named(first))
}

/// The same, by the command that the first word names.
fn status_for(kind: Option<Kind>) -> u8
    ensures most { result ≤ 2 }
    ensures status { result ≡ status_for kind }
{
    match kind {
        Some(Kind::Compare) => 2,
        _ => 1,
    }
}

/// Tells why a command line is refused, and gives the status for that.
fn refuse<E: Write>(refusal: Refusal<'_>, errors: &mut E) -> u8
    ensures { result ≡ status_of refusal.entry }
{
    let _ = writeln!(errors, "imago-img: {refusal}");
    refusal.status()
}

/// Does a command, and gives the exit status. Only a command that makes or changes a file has the
/// host to change. That status is the one of a refused command line.
pub fn perform<H: Host, W: Write, E: Write>(
    host: &mut H,
    command: Command<'_>,
    refused: u8,
    output: &mut W,
    errors: &mut E,
) -> u8
    ensures status { refused ≤ 2 → IsStatus result }
    ensures performed { IsPerformed refused command.entry (H.statuses host.old)
        (H.left_overs host.old) (H.contents host.old)
        (H.contents host.new) (H.around host.old) (H.around host.new)
        (W.contents output.old) (W.contents output.new) result }
{
    match command {
        Command::Convert(asked) => convert(host, asked, errors),
        Command::Create(asked) => create(host, asked, errors),
        Command::Resize(asked) => resize(host, asked, output, errors),
        Command::Measure(asked) => ask(&*host, Question::Measure(asked), refused, output, errors),
        Command::Help(kind) => ask(&*host, Question::Help(kind), refused, output, errors),
        Command::Version => ask(&*host, Question::Version, refused, output, errors),
        Command::Settings(of) => ask(&*host, Question::Settings(of), refused, output, errors),
        Command::Info(asked) => ask(&*host, Question::Info(asked), refused, output, errors),
        Command::Map(asked) => ask(&*host, Question::Map(asked), refused, output, errors),
        Command::Check(asked) => ask(&*host, Question::Check(asked), refused, output, errors),
        Command::Vet(asked) => ask(&*host, Question::Vet(asked), refused, output, errors),
        Command::Compare(asked) => ask(&*host, Question::Compare(asked), refused, output, errors),
    }
}

/// Tells why nothing is done, and gives that status.
fn tell<E: Write>(refused: Failure, errors: &mut E, status: u8) -> u8
    ensures { result ≡ status }
{
    let _ = writeln!(errors, "imago-img: {refused}");
    status
}

/// Converts an image, and gives the status.
fn convert<H: Host, E: Write>(host: &mut H, asked: Convert<'_>, errors: &mut E) -> u8
    ensures most { result ≤ 1 }
    ensures converted { IsConvertedBy (how_by asked.entry.source_format asked.entry.opening)
        asked.entry (H.statuses host.old) (H.left_overs host.old) (H.contents host.old)
        (H.contents host.new) (H.around host.old) (H.around host.new) result }
{
    match convert_warned(host, asked, errors) {
        Ok(()) => 0,
        Err(refused) => tell(refused, errors, 1),
    }
}

/// Converts an image, and tells what is to be warned of, unless nothing but errors is to be told.
fn convert_warned<H: Host, E: Write>(
    host: &mut H,
    asked: Convert<'_>,
    warnings: &mut E,
) -> Result<(), Failure>
    ensures converted { OnOk result (IsConvertedBy
        (how_by asked.entry.source_format asked.entry.opening) asked.entry (H.statuses host.old)
        (H.left_overs host.old) (H.contents host.old) (H.contents host.new) (H.around host.old)
        (H.around host.new) 0) }
    ensures refused { OnErr result (IsConvertedBy
        (how_by asked.entry.source_format asked.entry.opening) asked.entry (H.statuses host.old)
        (H.left_overs host.old) (H.contents host.old) (H.contents host.new) (H.around host.old)
        (H.around host.new) 1) }
{
    if asked.quiet {
        return convert_as_asked(host, asked, &mut io::sink());
    }
    convert_as_asked(host, asked, warnings)
}

/// Converts an image to a new file, or into one that is there.
fn convert_as_asked<H: Host, E: Write>(
    host: &mut H,
    asked: Convert<'_>,
    warnings: &mut E,
) -> Result<(), Failure>
    ensures converted { OnOk result (IsConvertedBy
        (how_by asked.entry.source_format asked.entry.opening) asked.entry (H.statuses host.old)
        (H.left_overs host.old) (H.contents host.old) (H.contents host.new) (H.around host.old)
        (H.around host.new) 0) }
    ensures refused { OnErr result (IsConvertedBy
        (how_by asked.entry.source_format asked.entry.opening) asked.entry (H.statuses host.old)
        (H.left_overs host.old) (H.contents host.old) (H.contents host.new) (H.around host.old)
        (H.around host.new) 1) }
{
    let how = how_to_open(asked.source_format, asked.opening);
    let show = asked.progress && !asked.quiet;
    if asked.existing {
        return overwrite(host, asked.source, asked.target, how, show, warnings);
    }
    convert_newly(host, asked, how, show, warnings)
}

/// Converts an image to a new file.
fn convert_newly<H: Host, E: Write>(
    host: &mut H,
    asked: Convert<'_>,
    how: Opening,
    show: bool,
    warnings: &mut E,
) -> Result<(), Failure>
    ensures converted { OnOk result (IsNewlyConverted how asked.entry (H.statuses host.old)
        (H.left_overs host.old) (H.contents host.old) (H.contents host.new) (H.around host.old)
        (H.around host.new) 0) }
    ensures refused { OnErr result (IsNewlyConverted how asked.entry (H.statuses host.old)
        (H.left_overs host.old) (H.contents host.old) (H.contents host.new) (H.around host.old)
        (H.around host.new) 1) }
{
    let (from, to) = (asked.source, asked.target);
    let making = Making {
        replace: asked.force,
        sparse: asked.sparse,
    };
    match asked.target_format {
        NewFormat::Raw => convert_image(host, from, to, how, making, show, warnings),
        NewFormat::Qcow2(settings) => {
            let new = qcow2_of(settings, asked.sparse);
            convert_to_qcow2(host, from, to, how, new, making, show, warnings)
        }
    }
}

/// How a qcow2 file is made of an image, where zeroes are left out or are stored too.
fn qcow2_of(settings: Settings, sparse: bool) -> NewQcow2
    ensures format { result.format ≡ format_by settings }
    ensures all { result.all ≡ (settings.preallocated || not sparse) }
{
    NewQcow2 {
        format: new_format(settings),
        all: settings.preallocated || !sparse,
    }
}

/// Makes a new image, and gives the status.
fn create<H: Host, E: Write>(host: &mut H, asked: Create<'_>, errors: &mut E) -> u8
    ensures most { result ≤ 1 }
    ensures created { IsCreated asked.entry (H.statuses host.old) (H.left_overs host.old)
        (H.contents host.old) (H.contents host.new) (H.around host.old) (H.around host.new)
        result }
{
    match create_as_asked(host, asked) {
        Ok(()) => 0,
        Err(refused) => tell(refused, errors, 1),
    }
}

/// Makes a new image.
fn create_as_asked<H: Host>(host: &mut H, asked: Create<'_>) -> Result<(), Failure>
    ensures created { OnOk result (IsCreated asked.entry (H.statuses host.old)
        (H.left_overs host.old) (H.contents host.old) (H.contents host.new) (H.around host.old)
        (H.around host.new) 0) }
    ensures refused { OnErr result (IsCreated asked.entry (H.statuses host.old)
        (H.left_overs host.old) (H.contents host.old) (H.contents host.new) (H.around host.old)
        (H.around host.new) 1) }
{
    create_image(host, asked)
}

/// Gives a raw image another size, and gives the status. That it can't be told is no failure.
fn resize<H: Host, W: Write, E: Write>(
    host: &mut H,
    asked: Resize<'_>,
    output: &mut W,
    errors: &mut E,
) -> u8
    ensures most { result ≤ 1 }
    ensures resized { IsResizedOrNot asked.entry (H.statuses host.old) (H.contents host.old)
        (H.contents host.new) (H.around host.old) (H.around host.new) result }
{
    match resize_image(host, asked) {
        Ok(()) => {
            tell_resized(asked.quiet, output);
            0
        }
        Err(refused) => tell(refused, errors, 1),
    }
}

/// Tells that an image got another size, unless nothing but errors is to be told.
fn tell_resized<W: Write>(quiet: bool, output: &mut W) {
    if !quiet {
        let _ = writeln!(output, "Image resized.");
    }
}

/// Answers a question, and gives the status.
fn ask<H: Host, W: Write, E: Write>(
    host: &H,
    question: Question<'_>,
    refused: u8,
    output: &mut W,
    errors: &mut E,
) -> u8
    ensures status { refused ≤ 2 → IsStatus result }
    ensures concluded { IsConcluded refused question.entry (H.contents host.now)
        (W.contents output.old) (W.contents output.new) result }
{
    match flushed(host, question, output, errors) {
        Ok(outcome) => outcome.status(),
        Err(failure) => tell(failure, errors, untold(refused, question)),
    }
}

/// The status where a question isn't answered.
fn untold(refused: u8, question: Question<'_>) -> u8
    ensures most { refused ≤ 2 → result ≤ 2 }
    ensures untold { result ≡ untold refused question.entry }
{
    match question {
        Question::Help(_) | Question::Version | Question::Settings(_) => refused,
        Question::Info(_) | Question::Map(_) | Question::Check(_) => 1,
        Question::Measure(_) | Question::Vet(_) => 1,
        Question::Compare(_) => 2,
    }
}

/// Answers a question, and writes out what it printed, also where it was refused in the
/// middle.
fn flushed<H: Host, W: Write, E: Write>(
    host: &H,
    question: Question<'_>,
    output: &mut W,
    errors: &mut E,
) -> Result<Outcome, Failure>
    ensures { IfOk result (λ outcome. IsAnswered question.entry (H.contents host.now)
        (W.contents output.old) (W.contents output.new) outcome) }
{
    let outcome = answer(host, question, output, errors);
    match output.flush() {
        Ok(()) => outcome,
        Err(cause) => Err(Failure::Output(cause)),
    }
}

/// Answers a question.
fn answer<H: Host, W: Write, E: Write>(
    host: &H,
    question: Question<'_>,
    output: &mut W,
    errors: &mut E,
) -> Result<Outcome, Failure>
    ensures { IfOk result (λ outcome. IsAnswered question.entry (H.contents host.now)
        (W.contents output.old) (W.contents output.new) outcome) }
{
    match question {
        Question::Help(kind) => printed(write!(output, "{}", Help(kind))),
        Question::Version => printed(writeln!(output, "imago-img {VERSION}")),
        Question::Settings(of) => printed(write!(output, "{}", SettingsHelp(of))),
        Question::Info(asked) => describe(host, asked, output, errors),
        Question::Map(asked) => list(host, asked, output),
        Question::Check(asked) => look_for_faults(host, asked, output, errors),
        Question::Vet(asked) => look_at_stranger(host, asked, output),
        Question::Compare(asked) => compare(host, asked, output),
        Question::Measure(asked) => measured(host, asked, output),
    }
}

/// Tells how long the file of a new image is.
fn measured<H: Host, W: Write>(
    host: &H,
    asked: Measure<'_>,
    output: &mut W,
) -> Result<Outcome, Failure>
    ensures { IfOk result (λ outcome. (outcome ≡ Fine)
        × HasPrinted (λ text. IfSome (H.contents host.now)
        (λ files. IsMeasured asked.entry files text)) (W.contents output.old)
        (W.contents output.new)) }
{
    measure(host, asked, output)?;
    Ok(Outcome::Fine)
}

/// What comes of a question whose answer is a text.
fn printed(answer: io::Result<()>) -> Result<Outcome, Failure>
    ensures { IfOk result (λ outcome. outcome ≡ Fine) }
{
    match answer {
        Ok(()) => Ok(Outcome::Fine),
        Err(cause) => Err(Failure::Output(cause)),
    }
}

/// Tells what an image is.
fn describe<H: Host, W: Write, E: Write>(
    host: &H,
    asked: Info<'_>,
    output: &mut W,
    errors: &mut E,
) -> Result<Outcome, Failure>
    ensures { IfOk result (λ outcome. (outcome ≡ Fine)
        × HasPrinted (λ text. IfSome (H.contents host.now) (λ files.
        IsDescribed (how_by asked.entry.format asked.entry.opening)
        (told_as_json asked.entry.output) asked.entry.file.now (files asked.entry.file.now) text))
        (W.contents output.old) (W.contents output.new)) }
{
    let how = how_to_open(asked.format, asked.opening);
    let what = Asked {
        json: is_json(asked.output),
        chain: asked.backing_chain,
    };
    info(host, asked.file, how, what, output, errors)?;
    Ok(Outcome::Fine)
}

/// Tells where the bytes of an image's disk stand.
fn list<H: Host, W: Write>(host: &H, asked: Map<'_>, output: &mut W) -> Result<Outcome, Failure>
    ensures { IfOk result (λ outcome. (outcome ≡ Fine)
        × HasPrinted (λ text. IfSome (H.contents host.now) (λ files.
        TellsMap (how_by asked.entry.format asked.entry.opening)
        (told_as_json asked.entry.output) files asked.entry.file.now text))
        (W.contents output.old) (W.contents output.new)) }
{
    let how = how_to_open(asked.format, asked.opening);
    map_image(host, asked.file, how, is_json(asked.output), output)?;
    Ok(Outcome::Fine)
}

/// The outcome of a question that has two answers.
fn outcome_of(is_fine: bool) -> Outcome
    ensures { result ≡ outcome_when is_fine }
{
    if is_fine {
        Outcome::Fine
    } else {
        Outcome::Unlike
    }
}

/// Tells whether an image's file is in order.
fn look_for_faults<H: Host, W: Write, E: Write>(
    host: &H,
    asked: Check<'_>,
    output: &mut W,
    errors: &mut E,
) -> Result<Outcome, Failure>
    ensures { IfOk result (λ outcome. (verdict : Option Verdict) × (outcome ≡ Checked verdict)
        × IfSome (H.contents host.now) (λ files.
        IsChecked (how_by asked.entry.format asked.entry.opening) files asked.entry.file.now
        verdict)) }
{
    let how = how_to_open(asked.format, asked.opening);
    let json = is_json(asked.output);
    let verdict = check(host, asked.file, how, json, output, errors)?;
    Ok(Outcome::Checked(verdict))
}

/// Tells whether a file from a stranger is safe to hand on.
fn look_at_stranger<H: Host, W: Write>(
    host: &H,
    asked: Vet<'_>,
    output: &mut W,
) -> Result<Outcome, Failure>
    ensures { IfOk result (λ outcome. (safe : Bool) × (outcome ≡ Vetted safe)
        × IfSome (H.contents host.now) (λ files. Decides safe
        (IsVetted (how_by asked.entry.format asked.entry.opening) asked.entry.file.now
        (files asked.entry.file.now)))) }
{
    let how = how_to_open(asked.format, asked.opening);
    let safe = vet(host, asked.file, how, is_json(asked.output), output)?;
    Ok(Outcome::Vetted(safe))
}

/// Tells whether two images show the same.
fn compare<H: Host, W: Write>(
    host: &H,
    asked: Compare<'_>,
    output: &mut W,
) -> Result<Outcome, Failure>
    ensures { IfOk result (λ outcome. (alike : Bool) × (outcome ≡ outcome_when alike)
        × IfSome (H.contents host.now) (λ files.
        AreToldApart (how_by asked.entry.first_format asked.entry.opening)
        (option_map image_format asked.entry.second_format) asked.entry.same_size files
        asked.entry.first.now asked.entry.second.now alike)) }
{
    let how = how_to_open(asked.first_format, asked.opening);
    let other = said_format(asked.second_format);
    let same_size = asked.same_size;
    let found = compare_images(host, asked.first, asked.second, how, other, same_size)?;
    if !asked.quiet {
        tell_difference(found, same_size, output).map_err(Failure::Output)?;
    }
    Ok(outcome_of(are_alike(found, same_size)))
}

/// Whether two disks are the same, and have the same size if they have to.
fn are_alike(found: Comparison, same_size: bool) -> bool
    ensures { result ≡ (not (is_left_out same_size found.sizes.0 found.sizes.1)
        && not (is_some found.difference)) }
{
    !leaves_out(same_size, found.sizes.0, found.sizes.1) && found.difference.is_none()
}

/// Tells the first offset at which two images differ, or that they don't, in the words of
/// `qemu-img`. That their sizes differ is told, as there, where what both disks have is the same.
fn tell_difference<W: Write>(found: Comparison, same_size: bool, output: &mut W) -> io::Result<()> {
    let (one, other) = found.sizes;
    if leaves_out(same_size, one, other) {
        return writeln!(output, "Strict mode: Image size mismatch!");
    }
    let common = one.min(other);
    if one != other && found.difference.unwrap_or(common) >= common {
        writeln!(output, "Warning: Image size mismatch!")?;
    }
    match found.difference {
        None => writeln!(output, "Images are identical."),
        Some(offset) => writeln!(output, "Content mismatch at offset {offset}!"),
    }
}

// SPDX-License-Identifier: MIT
//! What a command line asks for.
use crate::format::Format;
use crate::kind::Kind;
use crate::settings::{NewFormat, TargetFormat};

/// What a command line asks for.
#[derive(Clone, Copy)]
pub enum Command<'a> {
    /// The help of a command, or of the program.
    Help(Option<Kind>),
    /// The version of the program.
    Version,
    /// What `-o` may say of a new file of that format.
    Settings(TargetFormat),
    /// To tell what an image is.
    Info(Info<'a>),
    /// To tell where the bytes of an image's disk stand.
    Map(Map<'a>),
    /// To look for the faults of an image.
    Check(Check<'a>),
    /// To tell whether an image from a stranger is safe to hand on.
    Vet(Vet<'a>),
    /// To tell whether two images have the same disk.
    Compare(Compare<'a>),
    /// To write an image's disk to another image.
    Convert(Convert<'a>),
    /// To make a new image.
    Create(Create<'a>),
    /// To tell how long the file of a new image would be.
    Measure(Measure<'a>),
    /// To give a raw image another size.
    Resize(Resize<'a>),
}

/// What is said of each image that a command opens.
#[derive(Clone, Copy)]
pub struct Opening {
    /// Whether unknown keys of VMDK descriptors are refused.
    pub strict: bool,
    /// Whether files outside the image's folder are permitted.
    pub allow_outside: bool,
    /// Whether no files are opened but those that the command line names. This beats
    /// `allow_outside`.
    pub alone: bool,
    /// The most bytes of memory that tables may take, if it was said.
    pub tables: Option<u64>,
    /// The most bytes that a disk may have, if it was said.
    pub max_size: Option<u64>,
}

/// How a command prints.
#[derive(Clone, Copy, PartialEq, Eq)]
pub enum Output {
    /// For people.
    Human,
    /// As JSON.
    Json,
}

impl Output {
    ghost use Rattle.std.specs.Prelude.{◌≡◌};
    ghost use Rattle.imago_words.specs.Commands.{output_named};

    /// The way of that name.
    #[tactic(auto, unfolding(crate::specs::Commands::output_named))]
    pub fn named(name: &str) -> Option<Output>
        ensures { result ≡ output_named name.now }
    {
        match name {
            "human" => Some(Output::Human),
            "json" => Some(Output::Json),
            _ => None,
        }
    }
}

/// What `info` is asked.
#[derive(Clone, Copy)]
pub struct Info<'a> {
    /// The path of the image.
    pub file: &'a str,
    /// The format of the image, if it was said.
    pub format: Option<Format>,
    /// How it is printed.
    pub output: Output,
    /// Whether the files below are described too.
    pub backing_chain: bool,
    /// What holds of each image.
    pub opening: Opening,
}

/// What `map` is asked.
#[derive(Clone, Copy)]
pub struct Map<'a> {
    /// The path of the image.
    pub file: &'a str,
    /// The format of the image, if it was said.
    pub format: Option<Format>,
    /// How it is printed.
    pub output: Output,
    /// What holds of each image.
    pub opening: Opening,
}

/// What `check` is asked.
#[derive(Clone, Copy)]
pub struct Check<'a> {
    /// The path of the image.
    pub file: &'a str,
    /// The format of the image, if it was said.
    pub format: Option<Format>,
    /// How it is printed.
    pub output: Output,
    /// What holds of each image.
    pub opening: Opening,
}

/// What `vet` is asked.
#[derive(Clone, Copy)]
pub struct Vet<'a> {
    /// The path of the image.
    pub file: &'a str,
    /// The format of the image, if it was said.
    pub format: Option<Format>,
    /// How it is printed.
    pub output: Output,
    /// What holds of the image: always that no other file is opened.
    pub opening: Opening,
}

/// What `compare` is asked.
#[derive(Clone, Copy)]
pub struct Compare<'a> {
    /// The path of the first image.
    pub first: &'a str,
    /// The path of the second image.
    pub second: &'a str,
    /// The format of the first image, if it was said.
    pub first_format: Option<Format>,
    /// The format of the second image, if it was said.
    pub second_format: Option<Format>,
    /// Whether disks of two sizes are different.
    pub same_size: bool,
    /// Whether the progress is shown.
    pub progress: bool,
    /// Whether only errors are printed.
    pub quiet: bool,
    /// What holds of each image.
    pub opening: Opening,
}

/// What `convert` is asked.
#[derive(Clone, Copy)]
pub struct Convert<'a> {
    /// The path of the image that is read.
    pub source: &'a str,
    /// The path of the image that is written.
    pub target: &'a str,
    /// The format of the source, if it was said.
    pub source_format: Option<Format>,
    /// The format of the target: raw, if it wasn't said.
    pub target_format: NewFormat,
    /// Whether a target that is there is replaced.
    pub force: bool,
    /// Whether the target is written over, which has to be there. It isn't replaced then.
    pub existing: bool,
    /// Whether blocks of 4096 zeroes are left out of the target as holes. Else each byte is
    /// written.
    pub sparse: bool,
    /// Whether the progress is shown.
    pub progress: bool,
    /// Whether only errors are printed.
    pub quiet: bool,
    /// What holds of each image.
    pub opening: Opening,
}

/// The layer below a new image.
#[derive(Clone, Copy)]
pub struct Backing<'a> {
    /// The name of its file, as the new image is to have it: a relative one stands beside the new
    /// image.
    pub file: &'a str,
    /// Its format.
    pub format: Format,
}

/// What `create` is asked.
#[derive(Clone, Copy)]
pub struct Create<'a> {
    /// The path of the new image.
    pub target: &'a str,
    /// Its format: raw, if it wasn't said.
    pub format: NewFormat,
    /// The layer below, if there is to be one.
    pub backing: Option<Backing<'a>>,
    /// The size of its disk in bytes; that of the layer below, if it wasn't said.
    pub size: Option<u64>,
    /// Whether a target that is there is replaced.
    pub force: bool,
    /// Whether only errors are printed.
    pub quiet: bool,
    /// What holds of the layer below.
    pub opening: Opening,
}

/// The disk of which `measure` tells how long its file would be.
#[derive(Clone, Copy)]
pub enum Measured<'a> {
    /// That of the image of this path.
    File(&'a str),
    /// A disk of so many bytes, all zero.
    Size(u64),
}

/// What `measure` is asked.
#[derive(Clone, Copy)]
pub struct Measure<'a> {
    /// The disk.
    pub disk: Measured<'a>,
    /// The format of the image, if it was said.
    pub source_format: Option<Format>,
    /// The format of the new image: raw, if it wasn't said.
    pub target_format: NewFormat,
    /// How it is printed.
    pub output: Output,
    /// What holds of each image.
    pub opening: Opening,
}

/// The size that a disk is to have.
#[derive(Clone, Copy, Debug, PartialEq, Eq)]
pub enum NewSize {
    /// That many bytes.
    Said(u64),
    /// So many bytes more than it has.
    More(u64),
    /// So many bytes fewer than it has.
    Fewer(u64),
}

/// What `resize` is asked.
#[derive(Clone, Copy)]
pub struct Resize<'a> {
    /// The path of the image.
    pub file: &'a str,
    /// The format of the image, if it was said.
    pub format: Option<Format>,
    /// The size that its disk is to have.
    pub size: NewSize,
    /// Whether the disk may become smaller. What it has behind its new end is lost then.
    pub shrink: bool,
    /// Whether only errors are printed.
    pub quiet: bool,
}

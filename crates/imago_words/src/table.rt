// SPDX-License-Identifier: MIT
//! The table: the commands and their options, as they are typed and as help tells them.
use crate::page::{Absent, Page, Setting};
use crate::row::Row;

/// An option without a value: its key, letter and name, and what help says of it.
macro_rules! flag {
    ($key:literal, $letter:literal, $name:literal, $help:literal) => {
        Row {
            key: $key,
            letter: $letter,
            name: $name,
            value: "",
            takes: "",
            help: $help,
        }
    };
}

/// An option with a value: its key, letter and name, what help calls the value, the values that it
/// takes, and what help says of it.
macro_rules! valued {
    (
        $key:literal, $letter:literal, $name:literal,
        $value:literal, $takes:literal, $help:literal
    ) => {
        Row {
            key: $key,
            letter: $letter,
            name: $name,
            value: $value,
            takes: $takes,
            help: $help,
        }
    };
}

/// An option, or a command, that only qemu-img has.
macro_rules! absent {
    ($name:literal, $instead:literal) => {
        Absent {
            name: $name,
            instead: $instead,
        }
    };
}

/// A setting of a new file: its name, what help calls its value, and what help says of it.
macro_rules! setting {
    ($name:literal, $value:literal, $help:literal) => {
        Setting {
            name: $name,
            value: $value,
            help: $help,
        }
    };
}

const FORMAT: Row = valued!(
    "format",
    "f",
    "format",
    "FMT",
    "raw, vmdk or qcow2",
    "The image's format"
);

const EITHER_FORMAT: Row = valued!(
    "format",
    "f",
    "",
    "FMT",
    "raw, vmdk or qcow2",
    "The format of the first image"
);

const SOURCE_FORMAT: Row = valued!(
    "format",
    "f",
    "",
    "FMT",
    "raw, vmdk or qcow2",
    "The format of FILE"
);

const NEW_FORMAT: Row = valued!(
    "target-format",
    "O",
    "",
    "FMT",
    "raw or qcow2",
    "The format of OUT"
);

const SETTINGS: Row = valued!(
    "options",
    "o",
    "",
    "OPT=V",
    "",
    "Options of OUT, with commas between; -o help lists them"
);

const OUTPUT: Row = valued!(
    "output",
    "",
    "output",
    "OFMT",
    "human or json",
    "What is printed"
);

const JSON: Row = flag!("json", "", "json", "The same as --output=json");

const PROGRESS: Row = flag!("progress", "p", "", "Show the progress");

const QUIET: Row = flag!("quiet", "q", "quiet", "Print nothing but errors");

const STRICT: Row = flag!(
    "strict",
    "",
    "strict",
    "Refuse unknown keys of VMDK descriptors"
);

const OUTSIDE: Row = flag!(
    "allow-outside",
    "",
    "allow-outside",
    "Permit files outside the image's folder"
);

const ALONE: Row = flag!(
    "alone",
    "",
    "alone",
    "Open no other file, whatever an image names"
);

const TABLES: Row = valued!(
    "tables",
    "",
    "tables",
    "SIZE",
    "a size such as 64M",
    "The most memory for tables (256M)"
);

const MAX_SIZE: Row = valued!(
    "max-size",
    "",
    "max-size",
    "SIZE",
    "a size such as 2T",
    "Refuse longer disks"
);

const SHARE: Row = flag!(
    "force-share",
    "U",
    "force-share",
    "Accepted and ignored: no file is locked"
);

const BACKING_CHAIN: Row = flag!(
    "backing-chain",
    "",
    "backing-chain",
    "Describe the backing files too"
);

const ALWAYS_ALONE: Row = flag!(
    "alone",
    "",
    "alone",
    "Accepted and ignored: no other file is opened"
);

const SOURCE_CACHE: Row = valued!("source-cache", "T", "", "CACHE", "", "Accepted and ignored");

const HELP: Row = flag!("help", "h", "help", "Print this help");

const VERSION: Row = flag!("version", "V", "version", "Print the version");

const OBJECT: Absent = absent!("--object", "encrypted images aren't read");

const IMAGE_OPTS: Absent = absent!(
    "--image-opts",
    "name the file by its path, and its format by -f"
);

/// The page of `info`.
pub static INFO: Page = Page {
    name: "info",
    about: "Describe an image",
    files: "FILE",
    rows: &[
        FORMAT,
        OUTPUT,
        JSON,
        BACKING_CHAIN,
        SHARE,
        TABLES,
        MAX_SIZE,
        STRICT,
        OUTSIDE,
        ALONE,
        HELP,
        VERSION,
    ],
    absent: &[OBJECT, IMAGE_OPTS],
};

/// The page of `map`.
pub static MAP: Page = Page {
    name: "map",
    about: "List where the bytes of an image's disk are stored",
    files: "FILE",
    rows: &[
        FORMAT, OUTPUT, JSON, SHARE, TABLES, MAX_SIZE, STRICT, OUTSIDE, ALONE, HELP, VERSION,
    ],
    absent: &[
        absent!("-s", "the whole disk is listed"),
        absent!("--start-offset", "the whole disk is listed"),
        absent!("-l", "the whole disk is listed"),
        absent!("--max-length", "the whole disk is listed"),
        OBJECT,
        IMAGE_OPTS,
    ],
};

/// The page of `check`.
pub static CHECK: Page = Page {
    name: "check",
    about: "Look for errors in an image",
    files: "FILE",
    rows: &[
        FORMAT,
        OUTPUT,
        JSON,
        SHARE,
        SOURCE_CACHE,
        TABLES,
        MAX_SIZE,
        STRICT,
        OUTSIDE,
        ALONE,
        HELP,
        VERSION,
    ],
    absent: &[
        absent!("-r", "errors are reported, not repaired"),
        absent!("--repair", "errors are reported, not repaired"),
        absent!("-q", "its exit status says whether there are errors"),
        OBJECT,
        IMAGE_OPTS,
    ],
};

/// The page of `vet`.
pub static VET: Page = Page {
    name: "vet",
    about: "Tell whether an image from a stranger is safe to hand on",
    files: "FILE",
    rows: &[
        FORMAT,
        OUTPUT,
        JSON,
        SHARE,
        TABLES,
        MAX_SIZE,
        STRICT,
        ALWAYS_ALONE,
        HELP,
        VERSION,
    ],
    absent: &[OBJECT, IMAGE_OPTS],
};

/// The page of `compare`.
pub static COMPARE: Page = Page {
    name: "compare",
    about: "Compare the disks of two images",
    files: "A B",
    rows: &[
        EITHER_FORMAT,
        valued!(
            "second-format",
            "F",
            "",
            "FMT",
            "raw, vmdk or qcow2",
            "The format of the second image"
        ),
        flag!(
            "same-size",
            "s",
            "",
            "Disks of different sizes are different"
        ),
        flag!("progress", "p", "", "Accepted and ignored"),
        QUIET,
        SHARE,
        SOURCE_CACHE,
        TABLES,
        MAX_SIZE,
        STRICT,
        OUTSIDE,
        ALONE,
        HELP,
        VERSION,
    ],
    absent: &[
        absent!("--format", "-f takes the format of A, and -F that of B"),
        OBJECT,
        IMAGE_OPTS,
    ],
};

/// The page of `convert`.
pub static CONVERT: Page = Page {
    name: "convert",
    about: "Write an image's disk to another image",
    files: "FILE OUT",
    rows: &[
        SOURCE_FORMAT,
        NEW_FORMAT,
        SETTINGS,
        flag!("force", "", "force", "Replace OUT if it exists"),
        flag!("existing", "n", "", "Write into OUT, which exists"),
        valued!(
            "sparse",
            "S",
            "",
            "SIZE",
            "0 or 4k",
            "How many zeroes make a hole, 0 for none"
        ),
        PROGRESS,
        QUIET,
        SHARE,
        valued!("cache", "t", "", "CACHE", "", "Accepted and ignored"),
        SOURCE_CACHE,
        valued!("requests", "m", "", "N", "", "Accepted and ignored"),
        flag!("out-of-order", "W", "", "Accepted and ignored"),
        flag!("copy-range", "C", "", "Accepted and ignored"),
        valued!("rate", "r", "", "RATE", "", "Accepted and ignored"),
        TABLES,
        MAX_SIZE,
        STRICT,
        OUTSIDE,
        ALONE,
        HELP,
        VERSION,
    ],
    absent: &[
        absent!("-c", "OUT isn't compressed"),
        absent!("-l", "snapshots aren't read; the disk is read as it is now"),
        absent!("-B", "OUT holds the whole disk"),
        absent!("-b", "OUT holds the whole disk"),
        absent!("-F", "OUT holds the whole disk"),
        absent!(
            "--format",
            "-f takes the format of FILE, and -O that of OUT"
        ),
        absent!(
            "--target-image-opts",
            "name OUT by its path, and its format by -O"
        ),
        absent!("--target-is-zero", "every byte of OUT gets its value"),
        absent!("--salvage", "a byte that can't be read ends convert"),
        absent!("--bitmaps", "OUT has no bitmaps"),
        absent!("--skip-broken-bitmaps", "OUT has no bitmaps"),
        OBJECT,
        IMAGE_OPTS,
    ],
};

/// The page of `create`.
pub static CREATE: Page = Page {
    name: "create",
    about: "Make a new image",
    files: "OUT [SIZE]",
    rows: &[
        valued!(
            "target-format",
            "f",
            "",
            "FMT",
            "raw or qcow2",
            "The format of OUT"
        ),
        SETTINGS,
        valued!(
            "backing",
            "b",
            "",
            "FILE",
            "",
            "The backing file, by its name from OUT's folder"
        ),
        valued!(
            "backing-format",
            "F",
            "",
            "FMT",
            "raw, vmdk or qcow2",
            "The format of the backing file"
        ),
        flag!("force", "", "force", "Replace OUT if it exists"),
        QUIET,
        TABLES,
        MAX_SIZE,
        STRICT,
        OUTSIDE,
        ALONE,
        HELP,
        VERSION,
    ],
    absent: &[
        absent!("-u", "the backing file is opened, so it has to be there"),
        OBJECT,
        IMAGE_OPTS,
    ],
};

/// The page of `measure`.
pub static MEASURE: Page = Page {
    name: "measure",
    about: "Tell how long the file of a new image would be",
    files: "FILE, or --size SIZE in its place",
    rows: &[
        SOURCE_FORMAT,
        NEW_FORMAT,
        SETTINGS,
        valued!(
            "size",
            "",
            "size",
            "SIZE",
            "a size such as 64M",
            "Measure an empty disk"
        ),
        OUTPUT,
        JSON,
        SHARE,
        TABLES,
        MAX_SIZE,
        STRICT,
        OUTSIDE,
        ALONE,
        HELP,
        VERSION,
    ],
    absent: &[
        absent!("-l", "snapshots aren't read; the disk is read as it is now"),
        OBJECT,
        IMAGE_OPTS,
    ],
};

/// The page of `resize`.
pub static RESIZE: Page = Page {
    name: "resize",
    about: "Give a raw image another size",
    files: "FILE [+|-]SIZE",
    rows: &[
        FORMAT,
        flag!(
            "shrink",
            "",
            "shrink",
            "Permit a smaller size: the rest is lost"
        ),
        QUIET,
        ALWAYS_ALONE,
        HELP,
        VERSION,
    ],
    absent: &[
        absent!(
            "--preallocation",
            "what is added is a hole, which reads as zeroes"
        ),
        OBJECT,
        IMAGE_OPTS,
    ],
};

/// The settings of a new qcow2 file.
pub(crate) static QCOW2_SETTINGS: [Setting; 7] = [
    setting!(
        "cluster_size",
        "size",
        "Cluster size: a power of two, 512 to 2M (default 64k)"
    ),
    setting!(
        "compat",
        "str",
        "Format version: 0.10 or v2, 1.1 or v3 (default 1.1)"
    ),
    setting!("compression_type", "str", "Only zlib is accepted"),
    setting!("extended_l2", "bool (on/off)", "Only off is accepted"),
    setting!("lazy_refcounts", "bool (on/off)", "Only off is accepted"),
    setting!(
        "preallocation",
        "str",
        "off or metadata: all tables are written (default off)"
    ),
    setting!("refcount_bits", "num", "Only 16 is accepted"),
];

/// The settings that only qemu-img has.
pub(crate) static ABSENT_SETTINGS: [Absent; 11] = [
    absent!(
        "backing_file",
        "create -b FILE -F FMT names the backing file"
    ),
    absent!(
        "backing_fmt",
        "create -b FILE -F FMT names the backing file"
    ),
    absent!(
        "size",
        "create OUT SIZE gives the size; convert keeps that of FILE"
    ),
    absent!("encryption", "images aren't encrypted"),
    absent!("encrypt.format", "images aren't encrypted"),
    absent!("data_file", "the data of an image stands in its own file"),
    absent!(
        "data_file_raw",
        "the data of an image stands in its own file"
    ),
    absent!("lazy_refcounts", "it has to be off"),
    absent!("refcount_bits", "it has to be 16"),
    absent!("extended_l2", "it has to be off"),
    absent!("compression_type", "it has to be zlib"),
];

/// The commands that only qemu-img has.
pub(crate) static ABSENT: [Absent; 7] = [
    absent!(
        "snapshot",
        "snapshots aren't read; each disk is read as it is now"
    ),
    absent!(
        "rebase",
        "no image is changed; convert writes the whole disk to a new one"
    ),
    absent!(
        "commit",
        "no image is changed; convert writes the whole disk to a new one"
    ),
    absent!(
        "amend",
        "no image is changed; convert writes the whole disk to a new one"
    ),
    absent!("dd", "convert writes the whole disk"),
    absent!("bench", "compare reads two disks whole, and can be timed"),
    absent!("bitmap", "bitmaps aren't read"),
];

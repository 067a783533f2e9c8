// SPDX-License-Identifier: MIT
//! Compares what `System` tells of files with what their attributes tell, asked for at each
//! question: how many bytes come before a file's end or are behind it, and the bytes themselves.
//! One file grows, shrinks and is replaced meanwhile. Which files `System` keeps open is seen where
//! all are replaced: those that it keeps are told to be as long as they were.
//!
//! The files are made in the folder that the program is run in, and removed at the end. The program
//! prints how many questions it asked, and each that was answered otherwise.
#![tactic(auto)]

ghost use Rattle.std.specs.Prelude.{◌<◌};

mod attributes;

use crate::attributes::ByAttributes;
use imago_img_files::host::{Files, Host, Making};
use imago_img_parts::system::System;
use std::fs::{self, File};
use std::io;
use std::process::ExitCode;

/// The file that is made, and changed.
const CHANGED: &str = "changed.bin";

/// Another file, which has three bytes.
const SMALL: &str = "small.bin";

/// The files of which some are kept open.
const CROWD: [&str; 4] = ["one.bin", "two.bin", "three.bin", "four.bin"];

/// Which files are kept open.
#[derive(Drop)]
struct KeptRow {
    /// How many are, at most.
    most: usize,
    /// The order in which they are used.
    used: &'static [&'static str],
    /// Those that are kept open then.
    kept: &'static [&'static str],
}

static KEPT_ROWS: [KeptRow; 7] = [
    KeptRow {
        most: 0,
        used: &["one.bin", "two.bin"],
        kept: &["two.bin"],
    },
    KeptRow {
        most: 1,
        used: &["one.bin", "two.bin", "two.bin"],
        kept: &["two.bin"],
    },
    KeptRow {
        most: 2,
        used: &["one.bin", "two.bin"],
        kept: &["one.bin", "two.bin"],
    },
    KeptRow {
        most: 2,
        used: &["one.bin", "two.bin", "three.bin"],
        kept: &["two.bin", "three.bin"],
    },
    KeptRow {
        most: 2,
        used: &["one.bin", "two.bin", "one.bin", "three.bin"],
        kept: &["one.bin", "three.bin"],
    },
    KeptRow {
        most: 3,
        used: &[
            "one.bin",
            "two.bin",
            "three.bin",
            "two.bin",
            "one.bin",
            "four.bin",
        ],
        kept: &["one.bin", "two.bin", "four.bin"],
    },
    KeptRow {
        most: 16,
        used: &["one.bin", "two.bin", "three.bin", "four.bin"],
        kept: &["one.bin", "two.bin", "three.bin", "four.bin"],
    },
];

/// Lengths of the file, and offsets in each file: around nothing, a sector, a page, and 32 bits.
const LENGTHS: [u64; 12] = [
    0, 1, 2, 511, 512, 513, 4095, 4096, 4097, 1048576, 4294967295, 4294967297,
];

/// More bytes than a file of the crowd has.
const ENOUGH: u64 = 9;

/// Up to how many bytes are asked for.
const MOST: [u64; 6] = [1, 2, 512, 4096, 4294967296, u64::MAX];

/// How a file is made that replaces another one.
const REPLACE: Making = Making {
    replace: true,
    sparse: true,
};

/// How many questions there are for an offset.
const KINDS: u64 = 2;

/// At how many random places questions are asked.
const RANDOM: u64 = 5000;

/// A generator of numbers, SplitMix64 by Steele, Lea and Flood.
#[derive(Drop)]
struct Random {
    state: u64,
}

impl Random {
    /// The next number, of at most so many bits.
    fn bits(&mut self, most: u64) -> u64 {
        self.state = self.state.wrapping_add(0x9e37_79b9_7f4a_7c15);
        let mut mixed = self.state;
        mixed = (mixed ^ (mixed >> 30)).wrapping_mul(0xbf58_476d_1ce4_e5b9);
        mixed = (mixed ^ (mixed >> 27)).wrapping_mul(0x94d0_49bb_1331_11eb);
        mixed ^= mixed >> 31;
        let kept = mixed % most.max(1);
        mixed.wrapping_mul(0x9e37_79b9_7f4a_7c15) >> (63 - kept.min(63))
    }
}

/// The questions that were asked so far.
#[derive(Drop)]
struct Comparison<'a> {
    rt: &'a HostRuntime,
    host: System<'a>,
    before: ByAttributes<'a>,
    asked: u64,
    different: u64,
}

impl<'a> Comparison<'a> {
    /// Whether both read the same bytes, or neither reads any.
    fn reads_same(&self, path: &str, offset: u64) -> bool {
        let mut told = [0xaa; 16];
        let mut right = [0xaa; 16];
        let is_told = self.host.read_at(path, &mut told, offset).is_ok();
        let is_right = self.before.read_at(path, &mut right, offset).is_ok();
        is_told == is_right && told == right
    }

    /// Whether both answer a question the same.
    fn answers_same(&self, kind: u64, path: &str, offset: u64, most: u64) -> bool
        requires { 0 < most }
    {
        match kind {
            0 => {
                let right = self.before.run_at(path, offset, most);
                self.host.run_at(path, offset, most) == right
            }
            _ => self.reads_same(path, offset),
        }
    }

    /// Asks both each question, and begins with another one each time.
    fn ask(&mut self, path: &str, offset: u64, most: u64) {
        let most = most.max(1);
        let first = self.asked / KINDS;
        for step in 0..KINDS {
            let kind = first.wrapping_add(step) % KINDS;
            let is_same = self.answers_same(kind, path, offset, most);
            self.count(is_same, path, offset, most);
        }
    }

    /// Counts a question.
    fn count(&mut self, is_same: bool, path: &str, offset: u64, most: u64) {
        self.asked = self.asked.saturating_add(1);
        if !is_same {
            self.different = self.different.saturating_add(1);
            let _ = println!(self.rt; "{path}, {most} bytes at {offset}: answered otherwise");
        }
    }

    /// Asks for many offsets in a file of that length.
    fn ask_all(&mut self, path: &str, length: u64) {
        for most in MOST {
            for offset in LENGTHS {
                self.ask(path, offset, most);
            }
            self.ask(path, length.saturating_sub(1), most);
            self.ask(path, length, most);
            self.ask(path, length.saturating_add(1), most);
            self.ask(path, u64::MAX, most);
        }
    }

    /// Asks about the file at each length, one byte longer and half as long, and about another one
    /// in between.
    fn ask_lengths(&mut self) -> io::Result<()> {
        let file = File::create(self.rt, CHANGED)?;
        for length in LENGTHS {
            for changed in [length, length.saturating_add(1), length / 2] {
                file.set_len(changed)?;
                self.ask_all(CHANGED, changed);
            }
            self.ask_all(SMALL, 3);
        }
        Ok(())
    }

    /// Asks about a file that another one takes the place of while it is open.
    fn ask_replaced(&mut self) -> io::Result<()> {
        for length in LENGTHS {
            self.ask_all(CHANGED, length);
            fs::remove_file(self.rt, CHANGED)?;
            self.ask_all(CHANGED, length);
            File::create(self.rt, CHANGED)?.set_len(length)?;
            self.ask_all(CHANGED, length);
            self.ask_all(SMALL, 3);
        }
        Ok(())
    }

    /// Asks at random, about a file of random length.
    fn ask_random(&mut self) -> io::Result<()> {
        let file = File::create(self.rt, CHANGED)?;
        let mut random = Random { state: 1 };
        for _ in 0..RANDOM {
            file.set_len(random.bits(34))?;
            self.ask(CHANGED, random.bits(35), random.bits(35));
        }
        Ok(())
    }

    /// Asks about what is no regular file, has no length of its own, or isn't there.
    fn ask_others(&mut self) {
        for path in [
            ".",
            "/dev/null",
            "/dev/zero",
            "/proc/version",
            "missing.bin",
        ] {
            self.ask_all(path, 0);
            self.ask_all(SMALL, 3);
        }
    }

    /// Asks about each file of a crowd whether it is kept open, as the rows say.
    fn ask_kept(&mut self) -> io::Result<()> {
        for row in &KEPT_ROWS {
            for path in CROWD {
                let right = if row.kept.contains(&path) { 1 } else { 2 };
                let told = told_length(self.rt, row, path)?;
                self.count(told == right, path, 0, ENOUGH);
            }
        }
        Ok(())
    }

    /// Asks about a file that was open when `System` itself replaced it.
    fn ask_finished(&mut self) -> io::Result<()> {
        make_crowd(self.rt, 1)?;
        let path = CROWD[0];
        let mut host = System::new(self.rt);
        host.run_at(path, 0, ENOUGH);
        let target = host.create(path, 2, REPLACE)?;
        host.finish(target)?;
        self.count(host.run_at(path, 0, ENOUGH).0 == 2, path, 0, ENOUGH);
        Ok(())
    }

    /// Asks all questions.
    fn ask_each(&mut self) -> io::Result<()> {
        self.ask_lengths()?;
        self.ask_replaced()?;
        self.ask_random()?;
        self.ask_others();
        fs::remove_file(self.rt, CHANGED)?;
        self.ask_kept()?;
        self.ask_finished()?;
        for path in CROWD {
            fs::remove_file(self.rt, path)?;
        }
        Ok(())
    }
}

/// Makes each file of the crowd anew, of that length.
fn make_crowd(rt: &HostRuntime, length: u64) -> io::Result<()> {
    for path in CROWD {
        if fs::exists(rt, path)? {
            fs::remove_file(rt, path)?;
        }
        File::create(rt, path)?.set_len(length)?;
    }
    Ok(())
}

/// How long a file of the crowd is told to be. All have one byte while they are used in the row's
/// order. Files of two bytes replace them then.
fn told_length(rt: &HostRuntime, row: &KeptRow, path: &str) -> io::Result<u64> {
    make_crowd(rt, 1)?;
    let host = System::with_most_open(rt, row.most);
    for used in row.used {
        host.run_at(used, 0, ENOUGH);
    }
    make_crowd(rt, 2)?;
    Ok(host.run_at(path, 0, ENOUGH).0)
}

fn main(rt: HostRuntime) -> ExitCode {
    let mut comparison = Comparison {
        rt: &rt,
        host: System::new(&rt),
        before: ByAttributes::new(&rt),
        asked: 0,
        different: 0,
    };
    let outcome = comparison.ask_each();
    let (asked, different) = (comparison.asked, comparison.different);
    let _ = println!(rt; "{asked} questions, {different} answered otherwise");
    match outcome {
        Ok(()) if different == 0 => ExitCode::from(0),
        Ok(()) => ExitCode::from(1),
        Err(cause) => {
            let _ = println!(rt; "the file can't be changed: {cause}");
            ExitCode::from(2)
        }
    }
}

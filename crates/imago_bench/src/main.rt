// SPDX-License-Identifier: MIT
//! The benchmark's program: a job, on inputs that follow from a seed. It prints a digest of all
//! that the job answers.
//!
//! Its words are the job, how many sets of inputs it is done on, how large the largest input of a
//! set is, and the seed. The others of a set have a half and a quarter of that size. A job that it
//! doesn't know has a status of its own, so that `bench/run` can tell a program that is older than
//! a workload from one that fails.
#![tactic(auto)]

mod commands;
mod deflate;
mod descriptor;
mod digest;
mod files;
mod guest;
mod layers;
mod packed;
mod pieces;
mod qcow2;
mod random;
mod scripts;
mod serving;

use crate::digest::Digest;
use crate::random::Random;
use std::alloc::Global;
use std::env;
use std::process::ExitCode;

/// The jobs that there are.
const JOBS: [&str; 8] = [
    "look", "copy", "serve", "layers", "extents", "script", "packed", "pieces",
];

/// How many of them `each` does: the first ones, whose digest is what the gate expects.
const EACH: usize = 7;

/// Does a job on an input of that size.
fn work(
    alloc: Global,
    random: &mut Random,
    job: &str,
    size: u64,
    digest: &mut Digest,
) -> Option<()> {
    match job {
        "look" => commands::look(alloc, random, size, digest),
        "copy" => commands::copy(alloc, random, size, digest),
        "serve" => serving::serve_all(alloc, random, size, digest),
        "layers" => layers::ask(alloc, random, size, 20000000 / size.max(1), digest),
        "extents" => {
            commands::look_at_extents(alloc, random, size, digest)?;
            serving::read_extents(alloc, random, size, digest)
        }
        "script" => scripts::replay(alloc, random, size, digest),
        "packed" => packed::packed(alloc, random, size, digest),
        "pieces" => pieces::pieces(alloc, random, size, digest),
        _ => None,
    }
}

/// Does a job on so many sets of inputs.
fn work_all(alloc: Global, job: &str, sets: u64, size: u64, seed: u64) -> Option<u64> {
    let mut random = Random::new(seed);
    let mut digest = Digest::new();
    for _ in 0..sets {
        for part in [size / 4, size / 2, size] {
            work(alloc, &mut random, job, part, &mut digest)?;
        }
    }
    Some(digest.value())
}

/// Does each of the first jobs, if none is named.
fn work_named(alloc: Global, job: &str, sets: u64, size: u64, seed: u64) -> Option<u64> {
    if job != "each" {
        return work_all(alloc, job, sets, size, seed);
    }
    let mut digest = Digest::new();
    for job in &JOBS[..EACH] {
        digest.add(work_all(alloc, job, sets, size, seed)?);
    }
    Some(digest.value())
}

/// What comes of the words.
#[derive(Drop)]
enum Outcome {
    /// The digest of all that the job answered.
    Digest(u64),
    /// There is no such job.
    UnknownJob,
    /// The words aren't those of a job, or it couldn't be done.
    Refused,
}

/// What the words of the command line ask for, if they can be read.
fn answer(rt: &HostRuntime) -> Option<Outcome> {
    let mut words = env::args(rt).ok()?.skip(1);
    let job = words.next()?;
    if job.as_str() != "each" && !JOBS.contains(&job.as_str()) {
        return Some(Outcome::UnknownJob);
    }
    let sets = words.next()?.parse().ok()?;
    let size = words.next()?.parse().ok()?;
    let seed = words.next()?.parse().ok()?;
    work_named(rt.alloc(), &job, sets, size, seed).map(Outcome::Digest)
}

fn main(rt: HostRuntime) -> ExitCode {
    match answer(&rt).unwrap_or(Outcome::Refused) {
        Outcome::Digest(digest) => {
            let _ = println!(rt; "{digest:016x}");
            ExitCode::from(0)
        }
        Outcome::UnknownJob => {
            let _ = println!(rt; "unknown job");
            ExitCode::from(2)
        }
        Outcome::Refused => {
            let _ = println!(rt; "refused");
            ExitCode::from(1)
        }
    }
}

// SPDX-License-Identifier: MIT
//! Digests of what jobs answer.
ghost use Rattle.std.specs.Prelude.{◌<◌};

use imago_access::mapping::Mapping;
use imago_access::run::Reply;
use imago_storage::error::Error;
use std::alloc::Global;
use std::simd::{u8x32, u64x4};

/// Two running sums, the second of which has the first after each number, so that it tells their
/// order too, as Fletcher's checksum does.
#[derive(Drop)]
pub struct Digest {
    sum: u64,
    sums: u64,
}

impl Digest {
    /// The digest of nothing.
    pub fn new() -> Self {
        Digest { sum: 1, sums: 0 }
    }

    /// The digest as one number.
    pub fn value(&self) -> u64 {
        let mixed = (self.sum ^ self.sums.rotate_left(29)).wrapping_mul(0x9e37_79b9_7f4a_7c15);
        mixed ^ (mixed >> 32)
    }

    /// Adds a number.
    pub fn add(&mut self, number: u64) {
        self.sum = self.sum.wrapping_add(number);
        self.sums = self.sums.wrapping_add(self.sum);
    }

    /// Adds bytes, and how many they are.
    pub fn add_bytes(&mut self, bytes: &[u8]) {
        let mut run = Run::new();
        run.extend(bytes);
        self.add_run(&run);
    }

    /// Adds the bytes of a run, and how many they are.
    pub fn add_run(&mut self, run: &Run) {
        self.add(run.length);
        for number in run.sum.to_array() {
            self.add(number);
        }
        for number in run.sums.to_array() {
            self.add(number);
        }
        for byte in &run.rest[..run.held()] {
            self.add(u64::from(*byte));
        }
    }

    /// Adds why a call was refused, if it was.
    pub fn add_outcome(&mut self, alloc: Global, outcome: Result<(), Error>) -> Option<()> {
        match outcome {
            Ok(()) => self.add(1),
            Err(error) => self.add_error(alloc, error)?,
        }
        Some(())
    }

    /// Adds an error.
    fn add_error(&mut self, alloc: Global, error: Error) -> Option<()> {
        let told = format!(in alloc; "{error}").ok()?;
        self.add_bytes(told.as_bytes());
        Some(())
    }

    /// Adds the reply to a call of an image.
    pub fn add_reply(&mut self, alloc: Global, reply: &Reply) -> Option<()> {
        match reply {
            Reply::Done => self.add(1),
            Reply::Data(bytes) => self.add_bytes(bytes),
            Reply::Size(size) => self.add(*size),
            Reply::Mapped { mapping, length } => {
                self.add_mapping(mapping);
                self.add(*length);
            }
            Reply::DataMapped { offset, length, .. } => {
                self.add(*offset);
                self.add(*length);
            }
            Reply::Prepared { length, .. } => self.add(*length),
            Reply::Refused(error) => self.add_error(alloc, *error)?,
        }
        Some(())
    }

    /// Adds what a range of an image is.
    pub fn add_mapping(&mut self, mapping: &Mapping) {
        match mapping {
            Mapping::Raw {
                layer,
                storage,
                offset,
                writable,
            } => {
                self.add(*layer as u64);
                self.add(*storage as u64);
                self.add(*offset);
                self.add(u64::from(*writable));
            }
            Mapping::Zero { explicit } => self.add(2 + u64::from(*explicit)),
            Mapping::Eof => self.add(4),
            Mapping::Special { layer, offset } => {
                self.add(*layer as u64);
                self.add(*offset);
            }
        }
    }
}

/// Bytes that come in parts. However they are cut, the run is the same. Eight bytes are one number,
/// and every fourth of these is summed apart, so that the processor does four at once.
#[derive(Drop)]
pub struct Run {
    length: u64,
    sum: u64x4,
    sums: u64x4,
    /// The bytes behind the last whole group of 32, and what is left of earlier ones.
    rest: [u8; 32],
}

impl Run {
    /// No bytes.
    pub fn new() -> Self {
        Run {
            length: 0,
            sum: u64x4::splat(0),
            sums: u64x4::splat(0),
            rest: [0; 32],
        }
    }

    /// Whether it has no byte.
    pub fn is_empty(&self) -> bool {
        self.length == 0
    }

    /// How many bytes wait for a whole group.
    fn held(&self) -> usize
        ensures { result < 32 }
    {
        (self.length % 32) as usize
    }

    /// Adds the bytes that are next.
    pub fn extend(&mut self, bytes: &[u8]) {
        let held = self.held();
        self.length = self.length.wrapping_add(bytes.len() as u64);
        if held == 0 {
            self.add_groups(bytes);
            return;
        }
        let count = bytes.len().min(32 - held);
        self.rest[held..held + count].copy_from_slice(&bytes[..count]);
        if held + count == 32 {
            let group = self.rest;
            self.add_groups(&group);
            self.add_groups(&bytes[count..]);
        }
    }

    /// Sums whole groups of 32 bytes, and keeps what is left.
    fn add_groups(&mut self, bytes: &[u8]) {
        let (groups, rest) = bytes.as_chunks::<32>();
        let mut sum = self.sum;
        let mut sums = self.sums;
        for group in groups {
            sum += u64x4::from_le_bytes(u8x32::from_array(*group));
            sums += sum;
        }
        self.sum = sum;
        self.sums = sums;
        self.rest[..rest.len()].copy_from_slice(rest);
    }
}

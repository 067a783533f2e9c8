// SPDX-License-Identifier: MIT
//! The storages that scripts are made on. Each function names the types of one, so that the proofs
//! of the tests stay short.
use super::make::{Told, make};
use super::script::{Call, NAME};
use imago_storage::mem::MemStorage;
use imago_storage::null::Null;
use imago_storage::storage::is_alignment;
use imago_test_storages::counting::{Counting, Counts};
use imago_test_storages::faulty::{Faulty, Tear};
use imago_test_storages::forgetful::Forgetful;
use imago_test_storages::recording::{Log, Recorded, Recording};
use std::alloc::Global;
use std::process::Abort;

/// Which storage a script is made on.
#[derive(Clone, Copy)]
pub(super) enum Kind {
    /// Bytes in memory.
    Memory,
    /// Zeroes, of that length.
    Zeroes(u64),
    /// A device that fails when it is told to.
    Faulty,
    /// The same without zero writes.
    FaultyUnzeroed,
    /// The same, lent.
    LentUnzeroed,
    /// A storage that counts.
    Counting,
    /// A storage that records.
    Recording,
    /// The same, with zero writes that are made as data.
    AsData,
    /// A storage that records and takes no discards.
    Undiscarded,
    /// A storage that records, lent.
    Lent,
    /// The same, behind reads that can't be relied on.
    Untold,
    /// A device that fails when it is told to, behind such reads.
    UntoldFaulty,
}

/// A storage that calls are made on.
#[derive(Drop)]
pub(super) enum Subject {
    Memory(MemStorage),
    Zeroes(Null),
    Faulty(Faulty),
    LentFaulty(Faulty),
    Counting(Counting),
    Recording(Recording),
    Lent(Recording),
    Untold(Recording),
    UntoldFaulty(Faulty),
}

/// Bytes in memory under a name, with these alignments: of memory, of requests and of zero writes.
pub(super) fn stored(
    rt: &impl Abort,
    name: String,
    bytes: Vec<u8>,
    aligns: (usize, usize, usize),
) -> MemStorage {
    let (mem, req, zero) = aligns;
    assert!(rt; is_alignment(mem) && is_alignment(req) && is_alignment(zero));
    assert!(rt; req > 0 && zero % req == 0);
    MemStorage::named(name, bytes)
        .with_aligns(mem, req)
        .with_zero_align(zero)
}

impl Subject {
    /// A storage of that kind.
    pub(super) fn new(
        rt: &impl Abort,
        kind: Kind,
        name: String,
        bytes: Vec<u8>,
        aligns: (usize, usize, usize),
    ) -> Subject {
        let inner = stored(rt, name, bytes, aligns);
        match kind {
            Kind::Memory => Subject::Memory(inner),
            Kind::Zeroes(size) => Subject::Zeroes(Null::new(size)),
            Kind::Faulty => Subject::Faulty(Faulty::new(inner)),
            Kind::FaultyUnzeroed => Subject::Faulty(Faulty::new(inner).without_zero_writes()),
            Kind::LentUnzeroed => Subject::LentFaulty(Faulty::new(inner).without_zero_writes()),
            Kind::Counting => Subject::Counting(Counting::new(inner)),
            Kind::Recording => Subject::Recording(Recording::new(inner)),
            Kind::AsData => Subject::Recording(Recording::new(inner).with_zeroes_as_data()),
            Kind::Undiscarded => Subject::Recording(Recording::new(inner).without_discards()),
            Kind::Lent => Subject::Lent(Recording::new(inner)),
            Kind::Untold => Subject::Untold(Recording::new(inner)),
            Kind::UntoldFaulty => Subject::UntoldFaulty(Faulty::new(inner)),
        }
    }

    /// Makes a call once. A storage that records forgets what was before.
    pub(super) fn make(&mut self, rt: &impl Abort, alloc: Global, call: Call) -> Told {
        match self {
            Subject::Memory(storage) => make_on_memory(rt, alloc, storage, call),
            Subject::Zeroes(storage) => make_on_zeroes(rt, alloc, storage, call),
            Subject::Faulty(storage) => make_on_faulty(rt, alloc, storage, call),
            Subject::LentFaulty(storage) => make_on_lent_faulty(rt, alloc, storage, call),
            Subject::Counting(storage) => make_on_counting(rt, alloc, storage, call),
            Subject::Recording(storage) => make_on_recording(rt, alloc, storage, call),
            Subject::Lent(storage) => make_on_lent(rt, alloc, storage, call),
            Subject::Untold(storage) => make_on_untold(rt, alloc, storage, call),
            Subject::UntoldFaulty(storage) => make_on_untold_faulty(rt, alloc, storage, call),
        }
    }

    /// Whether its bytes can be looked at.
    pub(super) fn shows_bytes(&self) -> bool {
        match self {
            Subject::Zeroes(_) => false,
            _ => true,
        }
    }

    /// The bytes, or none where they can't be looked at.
    pub(super) fn bytes(&self) -> &[u8] {
        match self {
            Subject::Memory(storage) => storage.as_bytes(),
            Subject::Zeroes(_) => &[],
            Subject::Faulty(storage)
            | Subject::LentFaulty(storage)
            | Subject::UntoldFaulty(storage) => storage.as_bytes(),
            Subject::Counting(storage) => storage.as_bytes(),
            Subject::Recording(storage) | Subject::Lent(storage) | Subject::Untold(storage) => {
                storage.as_bytes()
            }
        }
    }

    /// How often the device has failed in an exclusive call, or what is expected where it isn't
    /// counted.
    pub(super) fn faults(&self, expected: u64) -> u64 {
        match self {
            Subject::Faulty(storage)
            | Subject::LentFaulty(storage)
            | Subject::UntoldFaulty(storage) => storage.faults(),
            _ => expected,
        }
    }

    pub(super) fn arm(&mut self, rt: &impl Abort, pass: u64, tear: Tear) {
        match self {
            Subject::Faulty(storage)
            | Subject::LentFaulty(storage)
            | Subject::UntoldFaulty(storage) => storage.arm(pass, tear),
            _ => assert!(rt; false, "it never fails"),
        }
    }

    pub(super) fn refuse_resizes(&mut self, rt: &impl Abort, count: u64) {
        match self {
            Subject::Faulty(storage) | Subject::UntoldFaulty(storage) => {
                storage.refuse_resizes(count);
            }
            _ => assert!(rt; false, "it never fails"),
        }
    }

    pub(super) fn fail_reads(&mut self, rt: &impl Abort, fails: bool) {
        match self {
            Subject::Faulty(storage) | Subject::UntoldFaulty(storage) => {
                storage.fail_reads(fails);
            }
            _ => assert!(rt; false, "it never fails"),
        }
    }

    /// What reached it by the last call.
    pub(super) fn calls(&self, rt: &impl Abort) -> &[Recorded] {
        match self {
            Subject::Recording(storage) | Subject::Lent(storage) | Subject::Untold(storage) => {
                storage.calls()
            }
            _ => {
                assert!(rt; false, "it records nothing");
                &[]
            }
        }
    }

    /// The shared reads that reached it by the last call.
    pub(super) fn shared_reads(&self, rt: &impl Abort) -> Log {
        match self {
            Subject::Recording(storage) | Subject::Lent(storage) | Subject::Untold(storage) => {
                storage.shared_reads()
            }
            _ => {
                assert!(rt; false, "it records nothing");
                Log::new()
            }
        }
    }

    /// What it counted so far.
    pub(super) fn counts(&self, rt: &impl Abort) -> Counts {
        match self {
            Subject::Counting(storage) => storage.counts(),
            _ => {
                assert!(rt; false, "it counts nothing");
                Counts {
                    reads: 0,
                    bytes_read: 0,
                    writes: 0,
                    bytes_written: 0,
                    longest_write: 0,
                }
            }
        }
    }
}

fn make_on_memory(rt: &impl Abort, alloc: Global, storage: &mut MemStorage, call: Call) -> Told {
    make(rt, alloc, storage, Some(NAME), call)
}

fn make_on_zeroes(rt: &impl Abort, alloc: Global, storage: &mut Null, call: Call) -> Told {
    make(rt, alloc, storage, None, call)
}

fn make_on_faulty(rt: &impl Abort, alloc: Global, storage: &mut Faulty, call: Call) -> Told {
    make(rt, alloc, storage, Some(NAME), call)
}

fn make_on_lent_faulty(rt: &impl Abort, alloc: Global, storage: &mut Faulty, call: Call) -> Told {
    let mut lent = storage;
    make(rt, alloc, &mut lent, Some(NAME), call)
}

fn make_on_counting(rt: &impl Abort, alloc: Global, storage: &mut Counting, call: Call) -> Told {
    make(rt, alloc, storage, Some(NAME), call)
}

fn make_on_recording(rt: &impl Abort, alloc: Global, storage: &mut Recording, call: Call) -> Told {
    storage.clear();
    make(rt, alloc, storage, Some(NAME), call)
}

fn make_on_lent(rt: &impl Abort, alloc: Global, storage: &mut Recording, call: Call) -> Told {
    storage.clear();
    let mut lent = storage;
    make(rt, alloc, &mut lent, Some(NAME), call)
}

fn make_on_untold(rt: &impl Abort, alloc: Global, storage: &mut Recording, call: Call) -> Told {
    storage.clear();
    make(rt, alloc, &mut Forgetful::new(storage), Some(NAME), call)
}

fn make_on_untold_faulty(rt: &impl Abort, alloc: Global, storage: &mut Faulty, call: Call) -> Told {
    make(rt, alloc, &mut Forgetful::new(storage), Some(NAME), call)
}

// SPDX-License-Identifier: MIT
//! Scripts: calls on a storage, with what each has to answer and to leave.
//!
//! A test's run refuses one request for memory at most. So what is refused is made again, and has
//! its memory then.
use super::make::Told;
use super::set_up::{copied, is_old_or_new, owned, runs, same, total};
use super::subject::{Kind, Subject};
use imago_storage::error::Error;
use imago_storage::storage::PreallocateMode;
use imago_test_storages::counting::Counts;
use imago_test_storages::faulty::Tear;
use imago_test_storages::recording::Recorded;
use std::alloc::Global;
use std::process::Abort;

/// Runs of equal bytes, one behind the other. Each is given by its length and its byte.
pub(super) type Runs = &'static [(usize, u8)];

/// The name that each storage in memory has.
pub(super) const NAME: &str = "a.img";

/// A call on a storage. Ranges are given by their offset, and by their length or their bytes.
#[derive(Clone, Copy)]
pub(super) enum Call {
    /// A read by `read`, of these bytes.
    Read(u64, Runs),
    /// A read by `readv`.
    Readv(u64, Runs),
    /// A write by `write`.
    Write(u64, Runs),
    /// A write of so many bytes, each of which tells its offset.
    WriteOffsets(u64, usize),
    /// A write by `writev`.
    Writev(u64, Runs),
    /// A zero write of any range.
    Zero(u64, u64),
    /// A zero write of any range that is to be allocated.
    ZeroAllocated(u64, u64),
    /// A discard of any range.
    Discard(u64, u64),
    /// A pure read.
    PureRead(u64, Runs),
    /// A pure read by an exclusive borrow.
    PureReadMut(u64, Runs),
    /// A pure write.
    PureWrite(u64, Runs),
    /// A pure zero write.
    PureZero(u64, u64),
    /// A pure zero write that is to be allocated.
    PureZeroAllocated(u64, u64),
    /// A pure discard.
    PureDiscard(u64, u64),
    /// A new length.
    Resize(u64, PreallocateMode),
    /// A flush.
    Flush,
    /// A sync.
    Sync,
    /// Settling of writes.
    Settle,
    /// Dropping of caches.
    Invalidate,
}

/// One line of a script.
#[derive(Clone, Copy)]
pub(super) enum Step {
    /// A call that is done, and the bytes that the storage has then.
    Done(Call, Runs),
    /// The same of a call that takes no memory.
    AtOnce(Call, Runs),
    /// A call that is refused, and the bytes that the storage has then.
    Refused(Call, Error, Runs),
    /// The device fails behind so many calls, and leaves what the tear says.
    Arm(u64, Tear),
    /// The next resizes are refused, so many.
    RefuseResizes(u64),
    /// Shared reads fail, or none.
    FailReads(bool),
    /// What reached the storage by the last call.
    Reached(&'static [Recorded]),
    /// The shared reads that reached the storage by the last call.
    Shared(&'static [Recorded]),
    /// What the storage counted so far.
    Counted(Counts),
}

/// A storage, and what is done with it.
pub(super) struct Script {
    /// Which storage it is.
    pub(super) kind: Kind,
    /// Its alignments: of memory, of requests, of zero writes.
    pub(super) aligns: (usize, usize, usize),
    /// Its bytes.
    pub(super) given: Runs,
    /// What is done.
    pub(super) steps: &'static [Step],
}

/// What a call has to answer, and the bytes that the storage has to have then.
#[derive(Clone, Copy)]
struct Expected {
    answer: Result<(), Error>,
    left: Runs,
}

impl Expected {
    /// The call is done.
    fn done(left: Runs) -> Self {
        Expected {
            answer: Ok(()),
            left,
        }
    }

    /// The call is refused.
    fn refused(error: Error, left: Runs) -> Self {
        Expected {
            answer: Err(error),
            left,
        }
    }
}

/// Runs a script.
pub(super) fn check(rt: &impl Abort, alloc: Global, script: &Script) {
    let bytes = runs(rt, alloc, script.given);
    let name = owned(rt, alloc, NAME);
    let mut state = State {
        subject: Subject::new(rt, script.kind, name, bytes, script.aligns),
        armed: None,
        faults: 0,
    };
    for step in script.steps {
        state.step(rt, alloc, *step);
    }
}

/// Runs several scripts.
pub(super) fn check_all(rt: &impl Abort, alloc: Global, scripts: &[Script]) {
    for script in scripts {
        check(rt, alloc, script);
    }
}

/// Where a script stands: its storage, what was armed last, and how often the device has failed in
/// an exclusive call.
#[derive(Drop)]
struct State {
    subject: Subject,
    armed: Option<(u64, Tear)>,
    faults: u64,
}

impl State {
    fn step(&mut self, rt: &impl Abort, alloc: Global, step: Step) {
        match step {
            Step::Done(call, left) => self.make(rt, alloc, call, Expected::done(left)),
            Step::AtOnce(call, left) => {
                let told = self.subject.make(rt, alloc, call);
                self.is_left(rt, alloc, call, told, Expected::done(left));
            }
            Step::Refused(call, error, left) => {
                self.make(rt, alloc, call, Expected::refused(error, left));
            }
            Step::Arm(pass, tear) => {
                self.armed = Some((pass, tear));
                self.subject.arm(rt, pass, tear);
            }
            Step::RefuseResizes(count) => self.subject.refuse_resizes(rt, count),
            Step::FailReads(fails) => self.subject.fail_reads(rt, fails),
            Step::Reached(calls) => same(rt, &self.subject.calls(rt), &calls),
            Step::Shared(reads) => same(rt, &self.subject.shared_reads(rt).calls(), &reads),
            Step::Counted(counts) => same(rt, &self.subject.counts(rt), &counts),
        }
    }

    /// Makes a call. Where it is refused for memory, each byte is old or new, and the next try has
    /// its memory.
    fn make(&mut self, rt: &impl Abort, alloc: Global, call: Call, expected: Expected) {
        let before = copied(rt, alloc, self.subject.bytes());
        let after = runs_of(rt, alloc, &self.subject, expected.left);
        let mut told = self.subject.make(rt, alloc, call);
        if told.0 == Err(Error::Memory) && expected.answer != told.0 {
            let now = self.subject.bytes();
            assert!(rt;
                is_old_or_new(&before, &after, now),
                "bytes that may not stand there"
            );
            self.arm_again(rt);
            told = self.subject.make(rt, alloc, call);
        }
        self.is_left(rt, alloc, call, told, expected);
    }

    /// A call was answered as it has to be, and left what it has to.
    fn is_left(
        &mut self,
        rt: &impl Abort,
        alloc: Global,
        call: Call,
        (answer, size): Told,
        expected: Expected,
    ) {
        same(rt, &answer, &expected.answer);
        self.count(call, answer);
        let bytes = runs_of(rt, alloc, &self.subject, expected.left);
        assert!(rt; self.subject.bytes() == bytes.as_slice(), "other bytes");
        same(rt, &size, &Ok(total(expected.left)));
        same(rt, &self.subject.faults(self.faults), &self.faults);
    }

    /// What was armed just before a call is armed again.
    fn arm_again(&mut self, rt: &impl Abort) {
        if let Some((pass, tear)) = self.armed {
            self.subject.arm(rt, pass, tear);
        }
    }

    /// A device that fails in an exclusive call counts it. Nothing is armed then.
    fn count(&mut self, call: Call, answer: Result<(), Error>) {
        self.armed = None;
        match call {
            Call::Read(..) | Call::Readv(..) | Call::PureRead(..) => {}
            _ => {
                if answer == Err(Error::Device) {
                    self.faults = self.faults.saturating_add(1);
                }
            }
        }
    }
}

/// The bytes that a storage has to show.
fn runs_of(rt: &impl Abort, alloc: Global, subject: &Subject, left: Runs) -> Vec<u8> {
    if subject.shows_bytes() {
        return runs(rt, alloc, left);
    }
    Vec::new(alloc)
}

// SPDX-License-Identifier: MIT
//! A disk beside what it has to show.
use super::call::{Answer, Call, Level, Step};
use super::model::Model;
use super::subject::{Disk, Fault, Form, LentDriver, Subject, first_model, longest};
use imago_drivers::drivers::FormatDriverInstance;
use imago_storage::error::Error;
use imago_test_storages::faulty::Faulty;
use std::alloc::Global;
use std::process::Abort;

pub(super) const MEMORY: Answer = Answer::Refused(Error::Memory);

/// A disk, what it has to show, and where it is stored.
#[derive(Drop)]
pub(super) struct Run<D, E> {
    pub(super) subject: Subject<D, E>,
    pub(super) model: Model,
    form: Form,
}

/// Whether a call was refused.
pub(super) fn is_refusal(answer: Answer) -> bool {
    matches!(answer, Answer::Refused(_))
}

impl<
    D: FormatDriverInstance<Storage = Faulty> + Disk,
    E: FormatDriverInstance<Storage = Faulty> + LentDriver,
> Run<D, E> {
    /// Makes a call once, and compares what it leaves.
    pub(super) fn step(&mut self, rt: &impl Abort, alloc: Global, step: Step) -> Answer {
        let answer = self.subject.make(rt, alloc, step);
        self.subject.fail_below(rt, alloc, false);
        let now = self.subject.contents(rt, alloc);
        let kinds = self.subject.kinds(rt, alloc);
        if is_refusal(answer) {
            assert!(rt; self.model.refuse(step, now, kinds), "other bytes are left");
        } else {
            assert_eq!(rt; answer, self.model.make(rt, step, &now));
            assert!(rt; now == self.model.bytes, "other bytes are shown");
            assert!(rt; kinds == self.model.kinds, "other guest blocks have data");
        }
        assert_eq!(rt; self.subject.used(), self.model.used());
        let stored = self.subject.stored(rt);
        assert!(rt;
            stored <= longest(&self.model, self.form),
            "a data block is lost"
        );
        answer
    }

    /// Makes a call that succeeds once it has its memory.
    pub(super) fn step_on(&mut self, rt: &impl Abort, alloc: Global, step: Step) {
        let mut answer = self.step(rt, alloc, step);
        if answer == MEMORY {
            answer = self.step(rt, alloc, step);
        }
        assert!(rt; !is_refusal(answer), "refused without a fault");
    }

    /// Makes calls of the image, each of which succeeds.
    pub(super) fn on(&mut self, rt: &impl Abort, alloc: Global, calls: &[Call]) {
        for &call in calls {
            self.step_on(rt, alloc, (Level::Image, call));
        }
    }

    /// Makes a call of the image that succeeds, and compares nothing yet. Whether there was memory
    /// for it is answered.
    pub(super) fn begin(&mut self, rt: &impl Abort, alloc: Global, call: Call) -> bool {
        let step = (Level::Image, call);
        let answer = self.subject.make(rt, alloc, step);
        if answer == MEMORY {
            return false;
        }
        assert_eq!(rt; answer, self.model.make(rt, step, &[]));
        true
    }

    /// A disk of that size above the layer.
    pub(super) fn open(
        rt: &impl Abort,
        alloc: Global,
        size: u64,
        form: Form,
        fault: Fault,
    ) -> Self {
        Run {
            subject: Subject::open(rt, alloc, size, form, fault),
            model: first_model(rt, alloc, size),
            form,
        }
    }

    /// The layer below is as it was.
    pub(super) fn keeps_below(&self, rt: &impl Abort, alloc: Global) {
        assert!(rt;
            self.subject.below(rt, alloc) == self.model.below,
            "the layer below has changed"
        );
    }
}

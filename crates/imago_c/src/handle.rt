// SPDX-License-Identifier: MIT
//! A box as its pointer.
ghost use Rattle.std.specs.Prelude.{◌≡◌, Option, Some, None, IsSome, IfSome};
ghost use Rattle.std.specs.Coded.{coded_option};
ghost use Rattle.imago_session.specs.contracts.session.Session.{the_row};
ghost use Rattle.imago_c.specs.Held.{held};
ghost use Rattle.imago_session.specs.declared.session.Session.{Session};

use crate::opaque::Opaque;
use imago_session::session::Session;
use std::alloc::Global;
use std::marker::Model;
use std::ptr::null_mut;

/// What C holds: the pointer of a box, or of nothing.
#[repr(C)]
#[derive(Drop)]
pub struct Handle {
    at: *mut u8,
    alloc: Global,
    pub ghost value: { Option Session } by { coded_option the_row.coded },
}

impl Model for Handle {
    ghost also_owns = { λ l. held l.alloc l.at l.value };
}

impl Handle {
    /// A handle of nothing.
    pub fn closed(alloc: Global) -> Handle
        ensures { result.value ≡ None }
    {
        Handle {
            at: null_mut(),
            alloc,
        }
    }

    /// The handle of a box.
    pub fn of(opaque: Opaque<Session, Global>) -> Handle
        ensures { result.value ≡ Some opaque.value }
    {
        let Opaque { at, alloc } = opaque;
        Handle {
            at: at as *mut u8,
            alloc,
        }
    }

    /// What it has.
    pub fn into_opaque(self) -> Opaque<Session, Global>
        requires { IsSome self.value }
        ensures { IfSome self.value (λ x. result.value ≡ x) }
    {
        let Handle { at, alloc } = self;
        Opaque {
            at: at as *mut Session,
            alloc,
        }
    }
}

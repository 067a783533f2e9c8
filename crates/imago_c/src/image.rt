// SPDX-License-Identifier: MIT
//! What C holds of an image.
ghost use Rattle.std.specs.Prelude.{◌≡◌, ◌↔◌, IsSome, Some, None, true, MatchOption};

use crate::handle::Handle;
use crate::opaque::Opaque;
use imago_session::session::Session;
use std::alloc::Global;
use std::mem;

/// An image, as C holds it: closed, or with a session. C makes it of zeroes, moves it as it likes,
/// and copies it never.
#[repr(C)]
pub struct Image {
    is_open: bool,
    handle: Handle,
    ghost linked: { is_open ≡ true ↔ IsSome handle.value },
}

/// What it has is freed.
impl Drop for Image {
    fn drop(self) {
        let Image { is_open, handle } = self;
        if is_open {
            let _session = handle.into_opaque().into_box();
        }
    }
}

impl Image {
    /// A closed one.
    pub fn closed(alloc: Global) -> Image
        ensures { result.handle.value ≡ None }
    {
        Image {
            is_open: false,
            handle: Handle::closed(alloc),
        }
    }

    /// One with a session.
    pub fn of(session: Box<Session>) -> Image
        ensures { result.handle.value ≡ Some session.value }
    {
        Image {
            is_open: true,
            handle: Handle::of(Opaque::of(session)),
        }
    }

    /// The session, if there is one.
    fn into_session(self) -> Option<Box<Session>>
        ensures { MatchOption result (self.handle.value ≡ None)
            (λ s. self.handle.value ≡ Some s.value) }
    {
        let Image { is_open, handle } = self;
        if is_open {
            return Some(handle.into_opaque().into_box());
        }
        None
    }

    /// Takes the session out.
    pub fn take(&mut self, alloc: Global) -> Option<Box<Session>>
        ensures closed { self.new.handle.value ≡ None }
        ensures session { MatchOption result (self.old.handle.value ≡ None)
            (λ s. self.old.handle.value ≡ Some s.value) }
    {
        mem::replace(self, Image::closed(alloc)).into_session()
    }
}

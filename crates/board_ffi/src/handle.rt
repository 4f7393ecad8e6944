//! What C holds: a pointer to a session, or null.
//!
//! A call borrows the session. The drop of a handle takes it out in parts, which can't be dropped or forgotten:
//! `Parts::end` gives all their memory back.

ghost use Rattle.std.specs.Prelude.{◌≡◌, Some, None, MatchOption};
ghost use Rattle.std.specs.Borrow.{LendsIf, sem};
ghost use Rattle.c_values.specs.Handle.{held, held_coded};
ghost use Rattle.board_ffi.specs.Handle.{Held, session_row};

use c_values::Parts;
pub(crate) use c_values::session_of;
use session::Session;
use std::alloc::Global;
use std::marker::Model;

/// A session, or none.
#[repr(C)]
pub struct Handle {
    at: *mut u8,
    alloc: Global,
    pub ghost session: { Held } by { held_coded session_row },
}

impl Model for Handle {
    ghost also_owns = { λ h. held session_row h.alloc h.at h.session };
}

impl Handle {
    ghost use Rattle.board_ffi.specs.contracts.handle.Handle.{the_row};

    /// The session, if there is one.
    #[inline]
    pub(crate) fn session(&mut self) -> Option<&mut Session>
        ensures* lends { sem 𝓛 (LendsIf the_row session_row self.entry result
            (λ session. record self.entry.now { session = Some session }) self.entry.now) }
        ensures there { MatchOption result (self.old.session ≡ None)
            (λ lent. self.old.session ≡ Some lent.now) }
    {
        if std::ptr::eq(self.at, std::ptr::null_mut()) {
            return None;
        }
        Some(unsafe { &mut *(self.at as *mut Session) })
    }

    /// Holds this session from now on.
    pub(crate) fn put(&mut self, session: Box<Session>)
        ensures { self.new.session ≡ Some session.value }
    {
        *self = Handle::of_parts(Parts::of(session));
    }

    /// A handle of none.
    pub(crate) fn empty(alloc: Global) -> Handle
        ensures { result.session ≡ None }
    {
        Handle {
            at: std::ptr::null_mut(),
            alloc,
        }
    }

    fn of_parts(parts: Parts<Session, Global>) -> Handle
        ensures { result.session ≡ Some parts.value }
    {
        let Parts { ptr, alloc } = parts;
        Handle {
            at: ptr as *mut u8,
            alloc,
        }
    }

    fn into_parts(self) -> Option<Parts<Session, Global>>
        ensures { MatchOption result (self.session ≡ None)
            (λ parts. self.session ≡ Some parts.value) }
    {
        let Handle { at, alloc } = self;
        if std::ptr::eq(at, std::ptr::null_mut()) {
            return None;
        }
        Some(Parts {
            ptr: at as *mut Session,
            alloc,
        })
    }
}

impl Drop for Handle {
    fn drop(self) {
        if let Some(parts) = self.into_parts() {
            parts.end();
        }
    }
}

unsafe impl Send for Handle {}

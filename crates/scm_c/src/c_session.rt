//! The struct of a session that a C program keeps: a flag, and a pointer that owns the session.
ghost use Rattle.std.specs.Prelude.{◌≡◌, IsTrue, None, Option, Some, is_some};
ghost use Rattle.std.specs.Coded.{coded_option};
ghost use Rattle.scm_open_session.specs.declared.open_session.OpenSession.{OpenSession};
ghost use Rattle.scm_open_session.specs.contracts.open_session.OpenSession as open_session;
ghost use Rattle.scm_open_session.specs.Boxes.{box_value};

use crate::raw_box::RawBox;
use scm_open_session::OpenSession;
use std::alloc::Global;
use std::marker::Model;
use std::{mem, ptr};

/// A pointer that owns an open session, or null. C sees a `*mut u8`: the prover rejects
/// `extern "C"` types that reach a `Vec`.
#[repr(C)]
pub struct SessionPtr {
    /// The pointer to the session's block, or null.
    at: *mut u8,
    /// The allocator of the block.
    alloc: Global,
    /// The session in the block, if any.
    pub(crate) ghost value: { Option OpenSession } by { coded_option open_session.the_row.coded },
}

impl Model for SessionPtr {
    ghost use Rattle.scm_c.specs.Ownership.{pointer_owns};
    ghost use Rattle.scm_open_session.specs.contracts.open_session.OpenSession.{the_row};

    ghost also_owns = { λ h. pointer_owns the_row h.alloc h.at h.value };
}

impl SessionPtr {
    /// Returns a null pointer.
    fn none(alloc: Global) -> SessionPtr
        ensures { result.value ≡ None }
    {
        SessionPtr {
            at: ptr::null_mut(),
            alloc,
        }
    }

    /// Returns the pointer of `raw`, without its type.
    fn of(raw: RawBox<OpenSession, Global>) -> SessionPtr
        ensures { result.value ≡ Some raw.value }
    {
        let RawBox { at, alloc } = raw;
        SessionPtr {
            at: at as *mut u8,
            alloc,
        }
    }

    /// Returns the raw box again. The pointer is not null.
    fn into_raw_box(self) -> RawBox<OpenSession, Global>
        requires { IsTrue (is_some self.value) }
        ensures { self.value ≡ Some result.value }
    {
        let SessionPtr { at, alloc } = self;
        RawBox {
            at: at as *mut OpenSession,
            alloc,
        }
    }

    /// Consumes a null pointer, which owns nothing to free.
    fn discard_null(self)
        requires { self.value ≡ None }
    {
        let SessionPtr { at: _, alloc: _ } = self;
    }
}

/// A session as a C program keeps it, `gabro_session`. All zeros if it is closed.
#[repr(C)]
pub struct CSession {
    /// Whether the session is open.
    is_open: bool,
    /// The pointer to the open session. Null if it is closed.
    pub(crate) pointer: SessionPtr,
    ghost ok: { is_open ≡ is_some pointer.value },
}

/// Returns a closed session.
fn closed_session(alloc: Global) -> CSession
    ensures { result.pointer.value ≡ None }
{
    CSession {
        is_open: false,
        pointer: SessionPtr::none(alloc),
    }
}

/// Returns an open session that owns `inner`.
fn session_of(inner: Box<OpenSession>) -> CSession
    ensures { result.pointer.value ≡ Some inner.value }
{
    CSession {
        is_open: true,
        pointer: SessionPtr::of(RawBox::of(inner)),
    }
}

/// Closes `session`, and returns the open session that it owned, if any.
pub(crate) fn take(alloc: Global, session: &mut CSession) -> Option<Box<OpenSession>>
    ensures closed { session.new.pointer.value ≡ None }
    ensures taken { box_value result ≡ session.old.pointer.value }
{
    let CSession { is_open, pointer } = mem::replace(session, closed_session(alloc));
    if is_open {
        Some(pointer.into_raw_box().into_box())
    } else {
        pointer.discard_null();
        None
    }
}

/// Opens `session` with `inner`. Drops the open session that it owned, if any.
fn put(alloc: Global, session: &mut CSession, inner: Box<OpenSession>)
    ensures { session.new.pointer.value ≡ Some inner.value }
{
    drop(take(alloc, session));
    let CSession {
        is_open: _,
        pointer,
    } = mem::replace(session, session_of(inner));
    pointer.discard_null();
}

/// Opens `session` again with what `take` took.
pub(crate) fn give_back(alloc: Global, session: &mut CSession, inner: Option<Box<OpenSession>>)
    requires { session.old.pointer.value ≡ None }
    ensures { session.new.pointer.value ≡ box_value inner }
{
    match inner {
        Some(inner) => put(alloc, session, inner),
        None => {}
    }
}

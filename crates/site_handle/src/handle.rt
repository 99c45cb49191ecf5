//! A pointer to a session, for callers that aren't written in Rattle.

ghost use Rattle.std.specs.Prelude.{◌≡◌, Option, Some, None, IfOk, IfErr, IfSome};
ghost use Rattle.std.specs.Global.{Global as TheGlobal};
ghost use Rattle.site_step.specs.Site.{SiteValue};
ghost use Rattle.site_handle.specs.Held.{handle_owns};

use crate::parts::Parts;
use crate::session::Session;
use std::alloc::Global;
use std::marker::Model;
use std::mem;

/// A site that is held by a pointer, or none. In C it is `struct { void *at; bool full; }`, of
/// which nothing is for C to read or to write, and `{0}` is a handle to none. What it points to is
/// behind no other handle. Contracts see the site.
///
/// Source: this project.
#[repr(C)]
pub struct Handle {
    at: *mut u8,
    full: bool,
    ghost alloc: { TheGlobal },
    pub ghost value: { Option SiteValue },
}

impl Model for Handle {
    ghost also_owns = { λ h. handle_owns h.alloc h.at h.full h.value };
}

impl Handle {
    // A handle to none.
    fn empty() -> Handle
        ensures { result.value ≡ None }
    {
        Handle {
            at: std::ptr::null_mut(),
            full: false,
        }
    }

    // A handle to what the parts hold.
    fn of_parts(parts: Parts<Session, Global>) -> Handle
        ensures { result.value ≡ Some parts.value }
    {
        let Parts { ptr, alloc: _ } = parts;
        Handle {
            at: ptr as *mut u8,
            full: true,
        }
    }

    // The parts of what it holds. The error is that it holds nothing.
    fn into_parts(self, alloc: Global) -> Result<Parts<Session, Global>, u8>
        ensures { IfOk result (λ parts. self.value ≡ Some parts.value)
            × IfErr result (λ _. self.value ≡ None) }
    {
        let Handle { at, full } = self;
        if full {
            return Ok(Parts {
                ptr: at as *mut Session,
                alloc,
            });
        }
        Err(0)
    }

    // Frees what it holds.
    fn close(self, alloc: Global) {
        if let Ok(parts) = self.into_parts(alloc) {
            drop(parts.into_box());
        }
    }

    /// Takes the session out: then the handle is to none. Costs no memory.
    pub fn take(&mut self, alloc: Global) -> Option<Box<Session>>
        ensures some { IfSome result (λ held. self.old.value ≡ Some held.value) }
        ensures none { result ≡ None → self.old.value ≡ None }
        ensures new { self.new.value ≡ None }
    {
        let old = mem::replace(self, Handle::empty());
        match old.into_parts(alloc) {
            Ok(parts) => Some(parts.into_box()),
            Err(_) => None,
        }
    }

    /// Puts a session in. One that was there is dropped. Costs no memory.
    pub fn put(&mut self, alloc: Global, session: Box<Session>)
        ensures { self.new.value ≡ Some session.value }
    {
        let old = mem::replace(self, Handle::of_parts(Parts::of(session)));
        old.close(alloc);
    }
}

unsafe impl Send for Handle {}

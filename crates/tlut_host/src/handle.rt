//! The handle.
ghost use Rattle.std.specs.Prelude.{◌≡◌, true, false, Option, Some, None, is_some, MatchOption};

use crate::held::Held;
use crate::host::NamedSpecialiser;
use crate::loose::Loose;
use std::alloc::Global;

/// A handle to a host, or to none.
///
/// It isn't `Drop`, so that a call that lost its host wouldn't compile: a handle is taken apart, or known to be closed. The
/// allocator has no bytes, and C doesn't see it.
#[repr(C)]
pub struct Handle {
    pub(crate) held: Held,
    pub(crate) is_open: bool,
    alloc: Global,
    ghost same: { is_some held.value ≡ is_open },
}

impl Handle {
    // A handle to no host.
    fn closed(alloc: Global) -> Handle
        ensures { result.held.value ≡ None }
    {
        Handle {
            held: Held::empty(),
            is_open: false,
            alloc,
        }
    }

    // A handle to a host.
    fn of(alloc: Global, host: Box<NamedSpecialiser>) -> Handle
        ensures { result.held.value ≡ Some host.value }
    {
        Handle {
            held: Held::of(Loose::of(host)),
            is_open: true,
            alloc,
        }
    }

    // The host of a handle.
    fn into_host(self) -> Option<Box<NamedSpecialiser>>
        ensures { MatchOption result (self.held.value ≡ None) (λ b. self.held.value ≡ Some b.value) }
    {
        let Handle {
            held,
            is_open,
            alloc,
        } = self;
        if !is_open {
            held.discard();
            return None;
        }
        Some(held.into_loose(alloc).into_box())
    }

    // Lets go of a handle to no host.
    fn discard(self)
        requires { self.held.value ≡ None }
    {
        let Handle {
            held,
            is_open: _,
            alloc: _,
        } = self;
        held.discard();
    }
}

// Takes what a handle is to, and leaves it closed.
pub(crate) fn take(handle: &mut Handle) -> Option<Box<NamedSpecialiser>>
    ensures closed { handle.new.held.value ≡ None }
    ensures taken { MatchOption result (handle.old.held.value ≡ None) (λ b. handle.old.held.value ≡ Some b.value) }
{
    let alloc = handle.alloc;
    std::mem::replace(handle, Handle::closed(alloc)).into_host()
}

// Opens a closed handle to a host.
pub(crate) fn put(handle: &mut Handle, host: Box<NamedSpecialiser>)
    requires { handle.old.held.value ≡ None }
    ensures { handle.new.held.value ≡ Some host.value }
{
    let alloc = handle.alloc;
    std::mem::replace(handle, Handle::of(alloc, host)).discard();
}

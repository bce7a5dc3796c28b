//! The handle at a limited rate.
ghost use Rattle.std.specs.Prelude.{◌≡◌, true, false, Option, Some, None, is_some, MatchOption};

use crate::held_paced::HeldPaced;
use crate::loose::Loose;
use crate::paced::PacedHost;
use std::alloc::Global;

/// A handle to a host at a limited rate, or to none.
///
/// It isn't `Drop`, so that a call that lost its host wouldn't compile: a handle is taken apart, or known to be closed. The
/// allocator has no bytes, and C doesn't see it.
#[repr(C)]
pub struct PacedHandle {
    pub(crate) held: HeldPaced,
    pub(crate) is_open: bool,
    alloc: Global,
    ghost same: { is_some held.value ≡ is_open },
}

impl PacedHandle {
    // A handle to no host.
    fn closed(alloc: Global) -> PacedHandle
        ensures { result.held.value ≡ None }
    {
        PacedHandle {
            held: HeldPaced::empty(),
            is_open: false,
            alloc,
        }
    }

    // A handle to a host.
    fn of(alloc: Global, host: Box<PacedHost>) -> PacedHandle
        ensures { result.held.value ≡ Some host.value }
    {
        PacedHandle {
            held: HeldPaced::of(Loose::of(host)),
            is_open: true,
            alloc,
        }
    }

    // The host of a handle.
    fn into_host(self) -> Option<Box<PacedHost>>
        ensures { MatchOption result (self.held.value ≡ None) (λ b. self.held.value ≡ Some b.value) }
    {
        let PacedHandle {
            held,
            is_open,
            alloc,
        } = self;
        if !is_open {
            held.discard();
            return None;
        }
        Some(held.into_loose(alloc).into_box())
    }

    // Lets go of a handle to no host.
    fn discard(self)
        requires { self.held.value ≡ None }
    {
        let PacedHandle {
            held,
            is_open: _,
            alloc: _,
        } = self;
        held.discard();
    }
}

// Takes what a handle is to, and leaves it closed.
pub(crate) fn take_paced(handle: &mut PacedHandle) -> Option<Box<PacedHost>>
    ensures closed { handle.new.held.value ≡ None }
    ensures taken { MatchOption result (handle.old.held.value ≡ None) (λ b. handle.old.held.value ≡ Some b.value) }
{
    let alloc = handle.alloc;
    std::mem::replace(handle, PacedHandle::closed(alloc)).into_host()
}

// Opens a closed handle to a host.
pub(crate) fn put_paced(handle: &mut PacedHandle, host: Box<PacedHost>)
    requires { handle.old.held.value ≡ None }
    ensures { handle.new.held.value ≡ Some host.value }
{
    let alloc = handle.alloc;
    std::mem::replace(handle, PacedHandle::of(alloc, host)).discard();
}

//! A pointer that C keeps, to a host at a limited rate.
ghost use Rattle.std.specs.Prelude.{◌≡◌, Option, Some, None, is_some, true};
ghost use Rattle.tlut_host.specs.declared.paced.PacedHost.{PacedHost};

use crate::loose::Loose;
use crate::paced::PacedHost;
use std::alloc::Global;
use std::marker::Model;

/// A pointer to a host at a limited rate, or to nothing.
///
/// It isn't `Drop`, so that no code can lose the host by dropping the pointer.
#[repr(C)]
pub struct HeldPaced {
    at: *mut u8,
    ghost value: { Option PacedHost },
}

impl Model for HeldPaced {
    ghost use Rattle.tlut_host.specs.Owned.{held_by_paced};

    ghost also_owns = { λ h. held_by_paced h.at h.value };
}

impl HeldPaced {
    // A pointer to nothing.
    pub(crate) fn empty() -> HeldPaced
        ensures { result.value ≡ None }
    {
        HeldPaced {
            at: std::ptr::null_mut(),
        }
    }

    // The pointer to a host.
    pub(crate) fn of(loose: Loose<PacedHost, Global>) -> HeldPaced
        ensures { result.value ≡ Some loose.value }
    {
        let Loose { at, alloc: _ } = loose;
        HeldPaced { at: at as *mut u8 }
    }

    // The host again.
    pub(crate) fn into_loose(self, alloc: Global) -> Loose<PacedHost, Global>
        requires { is_some self.value ≡ true }
        ensures { self.value ≡ Some result.value }
    {
        let HeldPaced { at } = self;
        Loose {
            at: at as *mut PacedHost,
            alloc,
        }
    }

    // Lets go of a pointer to nothing.
    pub(crate) fn discard(self)
        requires { self.value ≡ None }
    {
        let HeldPaced { at: _ } = self;
    }
}

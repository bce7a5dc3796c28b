//! A pointer that C keeps.
ghost use Rattle.std.specs.Prelude.{◌≡◌, Option, Some, None, is_some, true};
ghost use Rattle.tlut_host.specs.declared.host.NamedSpecialiser.{NamedSpecialiser};

use crate::host::NamedSpecialiser;
use crate::loose::Loose;
use std::alloc::Global;
use std::marker::Model;

/// A pointer to a host, or to nothing.
///
/// It isn't `Drop`, so that no code can lose the host by dropping the pointer.
#[repr(C)]
pub struct Held {
    at: *mut u8,
    ghost value: { Option NamedSpecialiser },
}

impl Model for Held {
    ghost use Rattle.tlut_host.specs.Owned.{held_by};

    ghost also_owns = { λ h. held_by h.at h.value };
}

impl Held {
    // A pointer to nothing.
    pub(crate) fn empty() -> Held
        ensures { result.value ≡ None }
    {
        Held {
            at: std::ptr::null_mut(),
        }
    }

    // The pointer to a host.
    pub(crate) fn of(loose: Loose<NamedSpecialiser, Global>) -> Held
        ensures { result.value ≡ Some loose.value }
    {
        let Loose { at, alloc: _ } = loose;
        Held { at: at as *mut u8 }
    }

    // The host again.
    pub(crate) fn into_loose(self, alloc: Global) -> Loose<NamedSpecialiser, Global>
        requires { is_some self.value ≡ true }
        ensures { self.value ≡ Some result.value }
    {
        let Held { at } = self;
        Loose {
            at: at as *mut NamedSpecialiser,
            alloc,
        }
    }

    // Lets go of a pointer to nothing.
    pub(crate) fn discard(self)
        requires { self.value ≡ None }
    {
        let Held { at: _ } = self;
    }
}

//! What an error is to its callers: out of memory, or a refusal that is reported.
ghost use Rattle.std.specs.Prelude.{◌≡◌, Option, None};
ghost use Rattle.tl_fault.specs.RefusalValue.{RefusalValue};

use crate::refusal::Refusal;
use std::alloc::{AllocError, AllocFailed};

/// An error that means nothing else than that memory ran out. An error type with a variant for that has one `From` for all.
pub trait OutOfMemory: Drop {}

impl OutOfMemory for AllocError {}

impl<T: Drop> OutOfMemory for AllocFailed<T> {}

/// An error that is reported by its refusal, unless memory ran out.
pub trait Reported: Drop {
    ghost reports: { Self → Option RefusalValue };

    /// The refusal that the fault line reports. `None` if memory ran out.
    fn refusal(self) -> Option<Refusal>
        ensures { result ≡ reports self };
}

impl Reported for AllocError {
    ghost reports = { λ _. None };

    fn refusal(self) -> Option<Refusal> {
        None
    }
}

impl<T: Drop> Reported for AllocFailed<T> {
    ghost reports = { λ _. None };

    fn refusal(self) -> Option<Refusal> {
        None
    }
}

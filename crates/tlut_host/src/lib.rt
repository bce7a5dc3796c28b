//! The run-time specialiser for host programs in C: a static library.
//!
//! A host program opens a handle on the bytes of a pack, gives new values to parameters, and gets the configuration bits to
//! rewrite. `include/tlut_host.h` declares the exports for C.
//!
//! # The handle
//!
//! C has a struct with a pointer and whether it is open, and lends it to each call. The pointer is one to bytes, since a host
//! has vectors and can't cross. Its model says what lies there: the box that an open handle owns ([`Held`], `specs/Owned.antt`).
//! So contracts speak of the host (`handle.old.held.value`), and only the functions that take a box apart, put it together and
//! move its pointer have proofs by hand. An export takes the host out of the handle, calls it, and puts it back.
//!
//! # Exports
//!
//! Nothing checks a caller in C. So no export requires anything except memory for its references, and each tests the numbers
//! that it gets. Only the two that open a handle are passed the allocator.
#![tactic(auto)]

mod copy;
mod exports;
mod exports_paced;
mod gather;
mod handle;
mod handle_paced;
mod held;
mod held_paced;
mod host;
mod loose;
mod names;
mod opened;
mod paced;
mod setting;

pub use handle::Handle;
pub use handle_paced::PacedHandle;
pub use held::Held;
pub use held_paced::HeldPaced;
pub use setting::{BitWrite, PackRefusal, ParameterSetting};

//! Refusals: their code, their word and their details.
//!
//! Each call that can refuse its input has its own error type, with one variant per reason and one for out of memory. It is
//! [`Reported`]: its method `refusal` converts it to a [`Refusal`], which is what is printed; out of memory has none. So the
//! code that prints refusals doesn't depend on the variants. `specs/Refusals.antt` defines the words of the details, and which refusals
//! are limits. `specs/OrMemory.antt` is used in clauses about an error that may be out of memory.
//!
//! A [`Name`] holds the bytes of one token. Names are compared byte by byte, so upper and lower case differ. Contracts see a
//! name as the list of its bytes, and [`Names`] as a list of such lists.
#![tactic(auto)]

mod kept;
mod name;
mod names;
mod refusal;
mod reported;

pub use name::Name;
pub use names::Names;
pub use refusal::{Details, Refusal};
pub use reported::{OutOfMemory, Reported};

//! A latch: the `.latch` command.
use tl_text::Name;

/// A latch: one bit of state.
#[derive(Drop)]
pub struct Latch {
    /// The net whose value is the next state.
    pub input: Name,
    /// The net that holds the state.
    pub output: Name,
    /// The clock net. `None` if there is no control or it is `NIL`.
    pub control: Option<Name>,
    /// The initial state: true exactly for the init `1`.
    pub init: bool,
}

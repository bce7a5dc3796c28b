//! The events of a script at a limited rate.
use tl_io::Assign;

/// An event of a script at a limited rate.
#[derive(Debug, Drop)]
pub enum PaceEvent {
    /// Requests values for some parameters, each parameter at most once. Nothing is written yet.
    Ask(Vec<Assign>),
    /// The clock ticks with these values of the regular inputs, in their order.
    Tick(Vec<bool>),
}

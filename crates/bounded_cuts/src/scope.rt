//! Over which cuts flows are taken.

/// The cuts of a node over which its flow is the least.
#[derive(Clone, Copy)]
pub enum Scope {
    /// All of them.
    AnyHeight,
    /// Those of the least height: of a height of at most the node's label.
    LeastHeight,
}

//! The content of the line of an input, a latch, an output or an AND gate.

/// The kind of such a line.
#[derive(Clone, Copy, Debug, PartialEq, Eq)]
pub enum LineKind {
    Input,
    Latch,
    Output,
    And,
}

/// The content of such a line, by literals.
#[derive(Clone, Copy, Debug)]
pub enum Item {
    /// An input, by its literal.
    Input(u32),
    /// A latch: its literal, its next state, and its initial state.
    Latch(u32, u32, bool),
    /// An output, by its literal.
    Output(u32),
    /// An AND gate: its literal and its two fan-ins.
    And(u32, u32, u32),
}

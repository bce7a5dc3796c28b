//! The first tokens of logical lines.

/// The kind of a logical line, by its first token.
#[derive(Clone, Copy, Debug, PartialEq, Eq)]
pub enum Keyword {
    /// `.model`
    Model,
    /// `.inputs`
    Inputs,
    /// `.outputs`
    Outputs,
    /// `.clock`
    Clock,
    /// `.names`
    Names,
    /// `.latch`
    Latch,
    /// `.subckt`
    Subckt,
    /// `.end`
    End,
    /// Another token that begins with `.`.
    Unknown,
    /// A token that doesn't begin with `.`, as in a row.
    Plain,
}

//! A cell of a cover's row.

/// The value that a row requires of one input: `0`, `1`, or `-` for either.
#[derive(Clone, Copy, Debug, PartialEq, Eq)]
pub enum Cell {
    /// `0`: the input is 0.
    Zero,
    /// `1`: the input is 1.
    One,
    /// `-`: the input may be either.
    Any,
}

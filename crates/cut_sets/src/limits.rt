//! How many leaves a cut may have, and how many cuts can lie one after another.

/// The most leaves of a cut.
pub const MOST_LEAVES: usize = 6;

/// The most cuts of all rows together. So their leaves are fewer than 2^32.
pub const MOST_CUTS: usize = 536_870_912;

//! The limit on the work of the LUTs.

/// The maximal work of all LUTs together.
pub const MOST_WORK: u64 = 33_554_432;

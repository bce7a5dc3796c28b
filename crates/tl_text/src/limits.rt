//! Limits that parameter lists and packs share.

/// The most parameters in a list, and so in a pack.
pub const MOST_PARAMETERS: usize = 65_535;

/// The most bytes in a parameter's name.
pub const MOST_NAME_BYTES: usize = 65_535;

//! How many cuts there may be, and how many signatures are tested together.

/// The most minimal cuts that a node may have.
pub const MOST_OF_A_NODE: usize = 4_096;

/// The most minimal cuts that a table may hold.
pub const MOST_OF_A_TABLE: usize = 8_388_608;

// Limits L4 and L5 have these numbers: the contracts name the constants.
const _: () = prove!(MOST_OF_A_NODE == 4_096 && MOST_OF_A_TABLE == 8_388_608);

/// How many signatures are tested together.
pub const GROUP: usize = 8;

/// In a list shorter than this, signatures are tested one by one.
pub const FEWEST_GROUPED: usize = 32;

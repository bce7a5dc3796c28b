//! Limits on costs.

/// The cost of a LUT, not counting its bits.
pub const TABLE_PRICE: u64 = 256;

/// The maximal flow of a node. So the cost of a cut fits 64 bits.
pub const MOST_FLOW: u64 = 1_099_511_627_776;

/// The cost of a cut is below this: it is at most that of a LUT and `MOST_LEAVES` times `MOST_FLOW`.
pub const COST_BOUND: u64 = 8_796_093_022_208;

/// A cut has fewer leaves than this.
pub const LEAVES_BOUND: u64 = 8;

/// A node has no more candidates than this.
pub const PLACE_BOUND: u64 = 512;

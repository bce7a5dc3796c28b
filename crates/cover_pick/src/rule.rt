//! The rules by which a cut is chosen.

/// The rule by which a needed node chooses among its cuts within the required depth.
#[derive(Clone, Copy, Debug, PartialEq, Eq)]
pub enum Rule {
    /// The fewest leaves, then the least height. Gives few bits, and functions of few parameters.
    FewestLeaves,
    /// The least cost, where a leaf that is needed already costs nothing. Gives few LUTs. Two makings of six covers, each with
    /// other flows, give twelve covers, and the first one of the least cost is taken.
    LeastCost,
}

//! The table of the minimal cuts of each node.
ghost use Rattle.std.specs.Prelude.{◌≡◌, ℕ, List, ◌+◌, ◌<◌, ◌≤◌, [], ◌∷◌, ◌++◌, ◌⊎◌, length, OnOk, IfOk, IfErr, slice_get, slice_index_or, slice_range, Some, sum_by, vec_len, vec_capacity};
ghost use Rattle.aig_core.specs.Aig.{node_count, IsAnd};
ghost use Rattle.cut_sets.specs.Cuts.{EachContainsOne};
ghost use Rattle.tl_fault.specs.OrMemory.{OrMemory};
ghost use Rattle.cut_enum.specs.Refusals.{refusal_of};
ghost use Rattle.cut_enum.specs.Limits.{IsLimit};
ghost use Rattle.cut_sets.specs.Rows.{row_at};
ghost use Rattle.cut_enum.specs.Table.{AreRows};
ghost use Rattle.cut_enum.specs.declared.table.CutErr.{CutErr};

use crate::cut::Cut;
use crate::level::Level;
use crate::limits::MOST_OF_A_TABLE;
use crate::row::row_of;
use aig_core::{Graph, Steps};
use cut_sets::{CutRows, FlatCut, MOST_LEAVES};
use std::alloc::{AllocError, Global};
use std::marker::{Brand, Model};
use std::sync::ledger::{Blank, Ledger};
use tl_fault::{Details, OutOfMemory, Refusal, Reported};

/// Why `enumerate` returns no table.
#[derive(Debug, PartialEq, Eq, Drop, thiserror::Error)]
pub enum CutErr {
    /// The first node that has more than `MOST_OF_A_NODE` minimal cuts.
    #[error("too many cuts of node {0}")]
    NodeCuts(u32),
    /// The first node at which the table has more than `MOST_OF_A_TABLE` cuts.
    #[error("too many cuts at node {0}")]
    TotalCuts(u32),
    /// Memory ran out.
    #[error("out of memory")]
    Memory,
}

impl Reported for CutErr {
    ghost use Rattle.cut_enum.specs.Refusals.{refusal_of};

    ghost reports = { refusal_of };

    fn refusal(self) -> Option<Refusal> {
        match self {
            CutErr::NodeCuts(node) => Some(Refusal::new("L4", "NodeCuts", Details::Node(node))),
            CutErr::TotalCuts(node) => Some(Refusal::new("L5", "TotalCuts", Details::Node(node))),
            CutErr::Memory => None,
        }
    }
}

impl<E: OutOfMemory> From<E> for CutErr {
    ghost use Rattle.std.specs.Prelude.{◌≡◌};
    ghost use Rattle.cut_enum.specs.declared.table.CutErr.TheVariants.{Memory};

    ghost from_gives = { λ _ e. e ≡ Memory };

    fn from(_: E) -> CutErr {
        CutErr::Memory
    }
}

/// The minimal cuts of each AND node. A source has none.
#[derive(Drop)]
pub struct CutTable {
    rows: CutRows,
    alloc: Global,
}

impl Model for CutTable {
    ghost use Rattle.std.specs.Prelude.{ℕ, List, ◌≤◌, length, sum_by};
    ghost use Rattle.cut_enum.specs.declared.limits.TheConstants.{MOST_OF_A_TABLE};

    ghost Value = { List (List (List ℕ)) };

    ghost view = { λ t. t.rows };

    ghost invariant = { λ t. sum_by length t.rows ≤ MOST_OF_A_TABLE };
}

// The table, read with this counter of steps.
fn enumerate_with<L: Ledger>(
    alloc: Global,
    graph: &Graph,
    k: u8,
    blank: Blank,
) -> Result<CutTable, CutErr>
    requires least { 2 ≤ k }
    requires most { k ≤ MOST_LEAVES }
    requires name { blank.name ≡ L.name }
    requires parts { blank.parts ≡ L.parts }
    requires some { 0 < L.parts }
    ensures ok { IfOk result (λ table. AreRows graph.now k (node_count graph.now) table) }
    ensures contains { IfOk result (λ table. (n : ℕ) → IsAnd graph.now n → EachContainsOne graph.now k n (row_at table n)) }
    ensures err { IfErr result (OrMemory refusal_of (λ e. IsLimit graph.now k e)) }
{
    let mut steps = Steps::<L>::start(blank);
    let mut table = CutTable::new(alloc)?;
    let mut level = Level::new(alloc);
    for n in 0..graph.len() {
        let row = row_of(alloc, graph, &table, n, k, &mut level, &mut steps)?;
        if row.len() > MOST_OF_A_TABLE - table.total() {
            return Err(CutErr::TotalCuts(n));
        }
        table = table.with_row(&row)?;
    }
    Ok(table)
}

/// The minimal cuts of at most `k` leaves of every AND node, sorted by the number of leaves and then
/// lexicographically. `k` is 2 to 6.
///
/// # Errors
/// `NodeCuts` and `TotalCuts` name exactly the first node that exceeds a limit, and `NodeCuts` comes first if a node
/// exceeds both. `Memory` means that memory ran out.
///
/// # Complexity
/// For a node that has r cuts and whose fan-ins pass on p and q cuts: at most (k + 2) p q tests of two signatures. Then,
/// for each union of few enough leaves, at most r tests of two signatures and a binary search.
///
/// # Source
/// Cong, Wu and Ding, "Cut ranking and pruning", 1999, for merging the fan-ins' lists. The signatures are those of ABC's
/// cut package.
pub fn enumerate(alloc: Global, graph: &Graph, k: u8) -> Result<CutTable, CutErr>
    requires least { 2 ≤ k }
    requires most { k ≤ MOST_LEAVES }
    ensures ok { IfOk result (λ table. AreRows graph.now k (node_count graph.now) table) }
    ensures err { IfErr result (OrMemory refusal_of (λ e. IsLimit graph.now k e)) }

    // What the minimal cuts are good for: nothing that blocks a node has none of them within it.
    ensures contains { IfOk result (λ table. (n : ℕ) → IsAnd graph.now n → EachContainsOne graph.now k n (row_at table n)) }

    // There is one table, one limit at most, and no table where there is a limit.
    ensures one_table { (rows more : List (List (List ℕ))) → AreRows graph.now k (node_count graph.now) rows → AreRows graph.now k (node_count graph.now) more → rows ≡ more }
    ensures once { (e f : CutErr) → IsLimit graph.now k e → IsLimit graph.now k f → e ≡ f }
    ensures excluded { (e : CutErr) (rows : List (List (List ℕ))) → IsLimit graph.now k e → AreRows graph.now k (node_count graph.now) rows → ⊥ }

    // Where a limit is met, that limit is the answer, unless memory ran out first.
    ensures limit { (e : CutErr) → IsLimit graph.now k e → (result ≡ Err e) ⊎ (result ≡ Err CutErr.Memory) }
{
    enumerate_with::<Brand>(alloc, graph, k, Blank::new(1))
}

impl CutTable {
    // No node.
    fn new(alloc: Global) -> Result<CutTable, AllocError>
        ensures { IfOk result (λ t. t ≡ []) }
    {
        let rows = CutRows::new(alloc)?;
        Ok(CutTable { rows, alloc })
    }

    // How many cuts there are.
    fn total(&self) -> usize
        ensures sum { result ≡ sum_by length self.now }
        ensures most { result ≤ MOST_OF_A_TABLE }
    {
        self.rows.total()
    }

    // One more node, with these cuts.
    fn with_row(self, row: &[FlatCut]) -> Result<CutTable, AllocError>
        requires { sum_by length self + length row.now ≤ MOST_OF_A_TABLE }
        ensures { IfOk result (λ t. t ≡ self ++ row.now ∷ []) }
    {
        let CutTable { rows, alloc } = self;
        let rows = rows.with_row(row)?;
        Ok(CutTable { rows, alloc })
    }

    /// The rows of cuts, one for each node.
    pub fn rows(&self) -> &CutRows
        ensures { result.now ≡ self.now }
    {
        &self.rows
    }

    /// The number of a node's cuts.
    pub fn count(&self, n: u32) -> u32
        ensures { result ≡ length (row_at self.now n) }
    {
        self.rows.count(n)
    }

    /// The cut at index `i` of a node's cuts.
    pub fn cut(&self, n: u32, i: u32) -> Cut
        requires { i < length (row_at self.now n) }
        ensures { slice_get (row_at self.now n) i ≡ Some result }
    {
        Cut::of(self.alloc, self.rows.leaves(n, i))
    }

    /// The number of leaves of a cut.
    pub fn leaf_count(&self, n: u32, i: u32) -> usize
        requires { i < length (row_at self.now n) }
        ensures count { result ≡ length (slice_index_or (row_at self.now n) i []) }
        ensures few { result ≤ MOST_LEAVES }
    {
        self.rows.leaves(n, i).len()
    }

    /// The leaves of a cut, in ascending order, without a copy.
    pub fn leaves(&self, n: u32, i: u32) -> &[u32]
        requires { i < length (row_at self.now n) }
        ensures { slice_get (row_at self.now n) i ≡ Some result.now }
    {
        self.rows.leaves(n, i)
    }
}

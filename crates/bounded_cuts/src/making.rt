//! A set of cuts for each AND node of a graph.
ghost use Rattle.std.specs.Prelude.{◌≡◌, ℕ, ◌<◌, ◌≤◌, ◌+◌, ◌*◌, ◌++◌, ◌∷◌, [], length, max, slice_index_or, sum_by, IfOk, OnOk};
ghost use Rattle.aig_core.specs.Aig.{node_count, IsAnd};
ghost use Rattle.cut_sets.specs.Labels.{label_at, AreLeastHeights};
ghost use Rattle.cut_sets.specs.declared.limits.TheConstants.{MOST_CUTS, MOST_LEAVES};
ghost use Rattle.bounded_cuts.specs.Making.{AreLows, AreMade, AreSetsFor, CanMake, IsChosen, count_in, low_in};
ghost use Rattle.bounded_cuts.specs.Sets.{AreServing, places};
ghost use Rattle.bounded_cuts.specs.Worths.{IsWorth};

use crate::candidates::Candidates;
use crate::places::Taking;
use crate::price::Prices;
use crate::sets::{copy_cuts, least_flow, least_low_flow};
use crate::worths::Worth;
use aig_core::Graph;
use cut_sets::{CutRows, FlatCut, MOST_CUTS, MOST_LEAVES, NodeLabels};
use std::alloc::{AllocError, Global};

/// What the sets of a graph are made from.
#[derive(Clone, Copy)]
pub struct Wanted<'a> {
    /// The graph.
    pub graph: &'a Graph,
    /// The most inputs of a LUT, 2 to 6.
    pub k: u8,
    /// The least height of each node's cuts.
    pub labels: &'a NodeLabels,
    /// For each AND node a cut of that height.
    pub lows: &'a [FlatCut],
    /// How many readers are counted of each node.
    pub counts: &'a [u32],
    /// Whether a node costs nothing in the last taking.
    pub favoured: &'a [bool],
}

// The sets of the first nodes, and what these nodes count as leaves.
#[derive(Drop)]
struct Made {
    rows: CutRows,
    worths: Vec<Worth>,
}

// Working memory for one node, allocated once for all.
#[derive(Drop)]
struct Room {
    candidates: Candidates,
    taking: Taking,
    set: Vec<FlatCut>,
}

// The low cut of a node, and the empty one past the last.
fn low_of(lows: &[FlatCut], n: u32) -> FlatCut
    ensures { result ≡ low_in lows.now n }
{
    match lows.get(n as usize) {
        Some(cut) => cut.copy(),
        None => FlatCut::empty(),
    }
}

// How many readers share the flow of a node: one at least.
fn readers(counts: &[u32], n: u32) -> u64
    ensures { result ≡ max 1 (count_in counts.now n) }
{
    u64::from(counts.get(n as usize).copied().unwrap_or(0).max(1))
}

// What a node with these flows counts as a leaf.
fn worth(wanted: &Wanted, n: u32, flow: u64, low_flow: u64) -> Worth
    ensures { IsWorth wanted.now.labels.now wanted.now.favoured.now n flow low_flow result }
{
    let favoured = wanted.favoured.get(n as usize).copied().unwrap_or(false);
    Worth {
        label: wanted.labels.label(n),
        flow,
        low_flow,
        paid: if favoured { 0 } else { flow },
    }
}

// Makes the set of an AND node.
fn make_set(wanted: &Wanted, made: &Made, n: u32, room: &mut Room) -> Result<(), AllocError>
    requires can { CanMake wanted.now }
    requires node { IsAnd wanted.now.graph.now n }
    requires made { AreMade wanted.now n made.now.rows made.now.worths.items }
    ensures { OnOk result (IsChosen wanted.now n made.now.rows made.now.worths.items room.new.candidates.all.items room.new.taking.taken.items room.new.set.items) }
{
    let prices = Prices {
        labels: wanted.labels,
        worths: &made.worths,
    };
    let low = low_of(wanted.lows, n);
    room.candidates
        .fill(wanted.graph, &prices, &made.rows, wanted.k, n, low)?;
    let label = wanted.labels.label(n);
    room.taking
        .take_places(label, wanted.k, &room.candidates.all)?;
    copy_cuts(&room.candidates.all, &room.taking.taken, &mut room.set)
}

// One row and its node's worth more.
fn pushed(made: Made, set: &[FlatCut], worth: Worth) -> Result<Made, AllocError>
    requires { sum_by length made.rows + length set.now ≤ MOST_CUTS }
    ensures { IfOk result (λ more. (more.rows ≡ made.rows ++ set.now ∷ []) × (more.worths.items ≡ made.worths.items ++ worth ∷ [])) }
{
    let Made { rows, mut worths } = made;
    worths.push(worth)?;
    Ok(Made {
        rows: rows.with_row(set)?,
        worths,
    })
}

// Adds the set of an AND node and its flows.
fn push_node(wanted: &Wanted, made: Made, n: u32, room: &mut Room) -> Result<Made, AllocError>
    requires can { CanMake wanted.now }
    requires node { IsAnd wanted.now.graph.now n }
    requires made { AreMade wanted.now n made.rows made.worths.items }
    ensures { IfOk result (λ more. AreMade wanted.now (n + 1) more.rows more.worths.items) }
{
    make_set(wanted, &made, n, room)?;
    let label = wanted.labels.label(n);
    let shared = readers(wanted.counts, n);
    let flow = least_flow(&room.candidates.all, &room.taking.taken) / shared;
    let low_flow = least_low_flow(&room.candidates.all, &room.taking.taken, label) / shared;
    pushed(made, &room.set, worth(wanted, n, flow, low_flow))
}

// Adds the set of a node and its flows: those of a source are empty.
fn next_made(wanted: &Wanted, made: Made, n: u32, room: &mut Room) -> Result<Made, AllocError>
    requires can { CanMake wanted.now }
    requires inside { n < node_count wanted.now.graph.now }
    requires made { AreMade wanted.now n made.rows made.worths.items }
    ensures { IfOk result (λ more. AreMade wanted.now (n + 1) more.rows more.worths.items) }
{
    if n <= wanted.graph.sources() {
        pushed(made, &[], worth(wanted, n, 0, 0))
    } else {
        push_node(wanted, made, n, room)
    }
}

// The sets of all nodes and their flows.
fn all_made(alloc: Global, wanted: &Wanted) -> Result<Made, AllocError>
    requires { CanMake wanted.now }
    ensures { IfOk result (λ all. AreMade wanted.now (node_count wanted.now.graph.now) all.rows all.worths.items) }
{
    let mut room = Room {
        candidates: Candidates::new(alloc),
        taking: Taking::new(alloc),
        set: Vec::new(alloc),
    };
    let mut made = Made {
        rows: CutRows::new(alloc)?,
        worths: Vec::new(alloc),
    };
    for n in 0..wanted.graph.len() {
        made = next_made(wanted, made, n, &mut room)?;
    }
    Ok(made)
}

/// The set of each AND node: at most 2k + 4 cuts, of which one is as low as the node's label. A row for each node; those of
/// sources are empty.
///
/// # Errors
/// Only if memory runs out.
pub fn bounded_sets(alloc: Global, wanted: &Wanted) -> Result<CutRows, AllocError>
    requires least { 2 ≤ wanted.now.k }
    requires few { wanted.now.k ≤ MOST_LEAVES }
    requires labels { AreLeastHeights wanted.now.graph.now wanted.now.k (label_at wanted.now.labels.now) }
    requires lows { AreLows wanted.now.graph.now wanted.now.k (label_at wanted.now.labels.now) wanted.now.lows.now }
    requires room { places wanted.now.k * length wanted.now.graph.now.pairs ≤ MOST_CUTS }
    ensures sets { IfOk result (AreSetsFor wanted.now) }
    ensures serving { IfOk result (AreServing wanted.now.graph.now wanted.now.k (label_at wanted.now.labels.now)) }
{
    // The contract of this call says that the graph's pairs are normal.
    let _count = wanted.graph.len();
    let made = all_made(alloc, wanted)?;
    Ok(made.rows)
}

//! The cuts of one node, from those of its two fan-ins.
ghost use Rattle.std.specs.Prelude.{◌≡◌, ℕ, ◌-◌, ◌/◌, ◌<◌, ◌≤◌, [], ◌∷◌, ◌++◌, if◌then◌else◌, ◌==◌, length, slice_get, OnOk, IfOk, IfErr};
ghost use Rattle.aig_core.specs.Aig.{first_and, node_count, IsNormal, AreNormal};
ghost use Rattle.tl_fault.specs.OrMemory.{OrMemory};
ghost use Rattle.cut_enum.specs.Refusals.{refusal_of};
ghost use Rattle.cut_enum.specs.Limits.{IsLimit};
ghost use Rattle.cut_enum.specs.Merging.{IsRow, IsTooMany, starts_empty, with_own, source_front, front_of, unions_of};
ghost use Rattle.cut_enum.specs.Table.{AreRows};
ghost use Rattle.cut_sets.specs.Rows.{row_at};

use crate::least::merged;
use crate::level::Level;
use crate::limits::MOST_OF_A_NODE;
use crate::signed::Signed;
use crate::table::{CutErr, CutTable};
use aig_core::{Graph, Kind, Pair, Steps};
use cut_sets::{CutRows, FlatCut, MOST_LEAVES};
use std::alloc::{AllocError, Global};
use std::sync::ledger::Ledger;

// Appends a node's cuts.
fn push_all(cuts: &mut Vec<FlatCut>, rows: &CutRows, m: u32) -> Result<(), AllocError>
    ensures { OnOk result (cuts.new.items ≡ cuts.old.items ++ row_at rows.now m) }
{
    for i in 0..rows.count(m) {
        cuts.push(rows.cut(m, i))?;
    }
    Ok(())
}

// Is a node's first cut empty?
fn is_free(rows: &CutRows, m: u32) -> bool
    ensures { result ≡ starts_empty (row_at rows.now m) }
{
    rows.count(m) > 0 && rows.leaves(m, 0).is_empty()
}

// The cut of an AND node alone and its own cuts, or these alone where the empty one is one of them.
fn own_cuts(alloc: Global, rows: &CutRows, m: u32) -> Result<Vec<FlatCut>, AllocError>
    ensures { IfOk result (λ v. v.items ≡ with_own m (row_at rows.now m)) }
{
    let mut cuts = Vec::new(alloc);
    cuts.reserve(rows.count(m) as usize + 1)?;
    if is_free(rows, m) {
        push_all(&mut cuts, rows, m)?;
        return Ok(cuts);
    }
    cuts.push(FlatCut::one(m))?;
    push_all(&mut cuts, rows, m)?;
    Ok(cuts)
}

// The cut of a source alone, or the empty one where it costs nothing.
fn source_cut(graph: &Graph, m: u32) -> FlatCut
    requires { m < first_and graph.now }
    ensures { result ∷ [] ≡ (if m == 0 then [] ∷ [] else source_front m (slice_get graph.now.kinds (m - 1))) }
{
    if m == 0 {
        return FlatCut::empty();
    }
    match graph.kind(m) {
        Kind::Regular => FlatCut::one(m),
        Kind::Parameter => FlatCut::empty(),
    }
}

// What a node hands to its readers: itself and its own cuts, or the empty cut where it costs nothing.
fn front(alloc: Global, graph: &Graph, rows: &CutRows, m: u32) -> Result<Signed, AllocError>
    requires { m < node_count graph.now }
    ensures { IfOk result (λ v. v ≡ front_of graph.now m (row_at rows.now m)) }
{
    if m <= graph.sources() {
        let mut cuts = Vec::new(alloc);
        cuts.push(source_cut(graph, m))?;
        let signed = Signed::of(alloc, cuts)?;
        return Ok(signed);
    }
    let cuts = own_cuts(alloc, rows, m)?;
    Signed::of(alloc, cuts)
}

// The least unions of what the two nodes of a pair hand on.
fn node_row(
    alloc: Global,
    graph: &Graph,
    table: &CutTable,
    n: u32,
    pair: Pair,
    k: u8,
    level: &mut Level,
) -> Result<Vec<FlatCut>, CutErr>
    requires few { k ≤ MOST_LEAVES }
    requires x { pair.x.0 / 2 < node_count graph.now }
    requires y { pair.y.0 / 2 < node_count graph.now }
    requires node { n < node_count graph.now }
    requires pair { IsNormal n pair }
    requires normal { AreNormal (first_and graph.now) graph.now.pairs }
    requires rows { AreRows graph.now k n table.now }
    ensures ok { IfOk result (λ v. v.items ≡ unions_of graph.now k table.now pair) }
    ensures few { IfOk result (λ v. length v.items ≤ MOST_OF_A_NODE) }
    ensures too_many { IfErr result (OrMemory refusal_of (λ e. IsTooMany n (unions_of graph.now k table.now pair) e)) }
{
    let x = pair.x.0 / 2;
    let y = pair.y.0 / 2;
    let xs = front(alloc, graph, table.rows(), x)?;
    let ys = front(alloc, graph, table.rows(), y)?;
    merged(alloc, n, k, &xs, &ys, level)
}

// The cuts of a node, from the table of the nodes below it. The level lends its memory.
pub fn row_of<L: Ledger>(
    alloc: Global,
    graph: &Graph,
    table: &CutTable,
    n: u32,
    k: u8,
    level: &mut Level,
    steps: &mut Steps<L>,
) -> Result<Vec<FlatCut>, CutErr>
    requires least { 2 ≤ k }
    requires most { k ≤ MOST_LEAVES }
    requires node { n < node_count graph.now }
    requires normal { AreNormal (first_and graph.now) graph.now.pairs }
    requires rows { AreRows graph.now k n table.now }
    ensures ok { IfOk result (λ row. IsRow graph.now k n row.items) }
    ensures few { IfOk result (λ row. length row.items ≤ MOST_OF_A_NODE) }
    ensures err { IfErr result (OrMemory refusal_of (λ e. IsLimit graph.now k e)) }
{
    if n <= graph.sources() {
        return Ok(Vec::new(alloc));
    }
    let pair = graph.node(n, steps);
    let row = node_row(alloc, graph, table, n, pair, k, level)?;
    Ok(row)
}

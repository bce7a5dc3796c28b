//! The LUTs of the needed literals, within the limit on their work: one call for each rule of counting it.
ghost use Rattle.std.specs.Prelude.{◌≡◌, IfOk, IfErr};
ghost use Rattle.aig_core.specs.Roots.{lits_of};
ghost use Rattle.tl_fault.specs.OrMemory.{OrMemory};
ghost use Rattle.cover_pick.specs.Refusals.{refusal_of};
ghost use Rattle.cover_pick.specs.Marks.{tables_of};
ghost use Rattle.cover_pick.specs.Work.{IsFree};
ghost use Rattle.cover_pick.specs.Counted.{IsWithin, IsPast};
ghost use Rattle.cover_pick.specs.Picked.{CanMakeTables, IsPastSharing};

use crate::cuts::ChosenCuts;
use crate::free::free_nodes;
use crate::lut::PickErr;
use crate::tables::{LutList, make_tables};
use crate::work::limit_work;
use aig_core::{Graph, Lit};
use std::alloc::Global;

/// The LUTs of the needed literals, where each node is counted for each LUT whose cone has it.
///
/// # Errors
/// `Work` if their work exceeds the limit; `Memory` if memory runs out.
pub fn apart_tables(
    alloc: Global,
    graph: &Graph,
    cuts: &ChosenCuts,
    roots: &[Lit],
) -> Result<LutList, PickErr>
    requires { CanMakeTables graph.now (lits_of roots.now) cuts.now }
    ensures ok { IfOk result (λ made. made ≡ tables_of graph.now (lits_of roots.now) cuts.now) }
    ensures light { IfOk result (λ made. IsWithin graph.now (λ n. ⊥) made.luts) }
    ensures err { IfErr result (OrMemory refusal_of (λ _. IsPast graph.now (λ n. ⊥) (tables_of graph.now (lits_of roots.now) cuts.now).luts)) }
{
    // The proof needs what the contract of this call says of the graph.
    let _count = graph.len();
    let made = make_tables(alloc, graph, cuts, roots)?;
    limit_work(alloc, graph, &[], &made.luts)?;
    Ok(made)
}

/// The LUTs of the needed literals, where the free nodes are counted once for all LUTs.
///
/// # Errors
/// `Work` if their work exceeds the limit; `Memory` if memory runs out.
pub fn sharing_tables(
    alloc: Global,
    graph: &Graph,
    cuts: &ChosenCuts,
    roots: &[Lit],
) -> Result<LutList, PickErr>
    requires { CanMakeTables graph.now (lits_of roots.now) cuts.now }
    ensures ok { IfOk result (λ made. made ≡ tables_of graph.now (lits_of roots.now) cuts.now) }
    ensures light { IfOk result (λ made. IsWithin graph.now (IsFree graph.now made.luts) made.luts) }
    ensures err { IfErr result (OrMemory refusal_of (λ _. IsPastSharing graph.now (tables_of graph.now (lits_of roots.now) cuts.now).luts)) }
{
    // The proof needs what the contract of this call says of the graph.
    let _count = graph.len();
    let made = make_tables(alloc, graph, cuts, roots)?;
    let free = free_nodes(alloc, graph, &made.luts)?;
    limit_work(alloc, graph, &free, &made.luts)?;
    Ok(made)
}

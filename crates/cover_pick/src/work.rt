//! The work of LUTs: what each makes by itself, and the nodes that are counted once for all of them.
ghost use Rattle.std.specs.Prelude.{◌≡◌, ℕ, ◌+◌, ◌*◌, ◌/◌, ◌<◌, ◌≤◌, ◌^◌, [], length, IfOk, IfErr, OnOk};
ghost use Rattle.aig_core.specs.Aig.{node_count, pair_of, IsAnd};
ghost use Rattle.list_laws.specs.Members.{In};
ghost use Rattle.tl_fault.specs.OrMemory.{OrMemory};
ghost use Rattle.cover_pick.specs.Refusals.{refusal_of};
ghost use Rattle.cover_pick.specs.Work.{IsTableWork, IsOwnWork};
ghost use Rattle.cover_pick.specs.Cone.{stamp_at, once_in, with_fan_ins, AreClosed, MeetsCone, HasBelowMet};
ghost use Rattle.cover_pick.specs.Counted.{IsWithin, IsPast, AreCountable, CountOnce, AreMet};

use crate::cone::Search;
use crate::limits::MOST_WORK;
use crate::lut::{Lut, PickErr};
use crate::tables::table_bits;
use aig_core::Graph;
use std::alloc::{AllocError, Global};

// The work of a LUT by itself: its bits times one more than its own nodes.
fn own_work(graph: &Graph, once: &[bool], lut: &Lut, search: &mut Search) -> Result<u64, AllocError>
    requires small { node_count graph.now ≤ 2 ^ 30 }
    requires closed { AreClosed graph.now once.now }
    requires node { lut.now.lit.0 < 2 * node_count graph.now }
    requires len { length search.old.stamps ≡ node_count graph.now }
    requires stamps { (n : ℕ) → stamp_at search.old.stamps n ≤ lut.now.lit.0 }
    requires met { length search.old.met ≡ node_count graph.now }
    requires once { (m : ℕ) → once_in search.old.met m → once_in once.now m }
    ensures work { IfOk result (IsTableWork graph.now (once_in once.now) lut.now) }
    ensures few { IfOk result (λ work. work ≤ 2 ^ 37) }
    ensures len { OnOk result (length search.new.stamps ≡ node_count graph.now) }
    ensures stamps { OnOk result ((n : ℕ) → stamp_at search.new.stamps n ≤ lut.now.lit.0 + 1) }
    ensures met { OnOk result (MeetsCone graph.now once.now lut.now.leaves (lut.now.lit.0 / 2) search.old.met search.new.met) }
{
    let leaves = lut.leaves.leaves();
    let own = search.cone_size(graph, once, leaves, lut.lit.0 / 2, lut.lit.0 + 1)?;
    Ok(table_bits(lut.leaves.len()) as u64 * (1 + own as u64))
}

// The work of all LUTs, each by itself, unless it exceeds the limit.
fn own_works(
    graph: &Graph,
    once: &[bool],
    luts: &[Lut],
    search: &mut Search,
) -> Result<u64, PickErr>
    requires luts { AreCountable graph.now luts.now }
    requires once { CountOnce graph.now luts.now once.now }
    requires len { length search.old.stamps ≡ node_count graph.now }
    requires stamps { (n : ℕ) → stamp_at search.old.stamps n ≡ 0 }
    requires met { AreMet graph.now once.now luts.now luts.now search.old.met }
    ensures own { IfOk result (IsOwnWork graph.now (once_in once.now) luts.now) }
    ensures within { IfOk result (λ work. work ≤ MOST_WORK) }
    ensures met { OnOk result (AreMet graph.now once.now luts.now [] search.new.met) }
    ensures past { IfErr result (OrMemory refusal_of (λ _. IsPast graph.now (once_in once.now) luts.now)) }
{
    // The proof needs what the contract of this call says of the graph.
    let _count = graph.len();
    let mut work = 0;
    for lut in luts {
        work += own_work(graph, once, lut, search)?;
        if work > MOST_WORK {
            return Err(PickErr::Work);
        }
    }
    Ok(work)
}

// Marks the fan-ins of a node as met.
fn meet_fan_ins(graph: &Graph, met: &mut [bool], n: u32)
    requires node { IsAnd graph.now n }
    requires len { length met.old ≡ node_count graph.now }
    ensures { met.new ≡ with_fan_ins (pair_of graph.now n) met.old }
{
    let pair = graph.pair_at(n);
    met[(pair.x.0 / 2) as usize] = true;
    met[(pair.y.0 / 2) as usize] = true;
}

// The number of AND nodes at or below those that are met.
fn count_met(graph: &Graph, met: &mut [bool]) -> u32
    requires { length met.old ≡ node_count graph.now }
    ensures count { HasBelowMet graph.now met.old result }
{
    let first = graph.sources() + 1;
    let above = graph.len() - first;
    let mut count = 0;
    for i in 0..above {
        let n = first + (above - 1 - i);
        if met[n as usize] {
            meet_fan_ins(graph, met, n);
            count += 1;
        }
    }
    count
}

/// Refuses LUTs whose work exceeds the limit, where the marked nodes are counted once.
///
/// Each AND node in the cone of a LUT that isn't marked is read once for that LUT, and each marked one at most once in all. At
/// most the limit and one more cone is walked.
///
/// # Errors
/// `Work` if the work exceeds the limit; `Memory` if memory runs out.
pub fn limit_work(alloc: Global, graph: &Graph, once: &[bool], luts: &[Lut]) -> Result<(), PickErr>
    requires luts { AreCountable graph.now luts.now }
    requires once { CountOnce graph.now luts.now once.now }
    ensures within { OnOk result (IsWithin graph.now (once_in once.now) luts.now) }
    ensures past { IfErr result (OrMemory refusal_of (λ _. IsPast graph.now (once_in once.now) luts.now)) }
{
    let mut search = Search::start(alloc, graph)?;
    let own = own_works(graph, once, luts, &mut search)?;
    let mut met = search.into_met();
    let shared = count_met(graph, &mut met);
    if own + shared as u64 > MOST_WORK {
        return Err(PickErr::Work);
    }
    Ok(())
}

//! The LUTs of the needed literals.
ghost use Rattle.std.specs.Prelude.{◌≡◌, ℕ, List, ◌+◌, ◌*◌, ◌/◌, ◌<◌, ◌≤◌, ◌^◌, length, Option, Some, [], IfOk, IfErr, OnOk};
ghost use Rattle.aig_core.specs.Aig.{node_count};
ghost use Rattle.aig_core.specs.Roots.{lits_of, AreRoots};
ghost use Rattle.list_laws.specs.Members.{In};
ghost use Rattle.cut_sets.specs.declared.limits.TheConstants.{MOST_LEAVES};
ghost use Rattle.tl_fault.specs.OrMemory.{OrMemory};
ghost use Rattle.cover_pick.specs.Refusals.{refusal_of};
ghost use Rattle.cover_pick.specs.Marks.{leaves_of as the_leaves, add_table as with_table, add_marked as with_marked, tables_from, tables_of};

use crate::cuts::ChosenCuts;
use crate::limits::MOST_WORK;
use crate::lut::{Lut, PickErr};
use crate::needed::needed;
use aig_core::{Graph, Kind, Lit};
use cut_enum::Cut;
use std::alloc::Global;
use std::marker::Model;

/// LUTs, and the sum of their bits.
#[derive(Drop)]
pub struct LutList {
    pub luts: Vec<Lut>,
    pub bits: u32,
}

impl Model for LutList {
    ghost use Rattle.cover_pick.specs.Marks.{Made};

    ghost Value = { Made };

    ghost view = { λ t. record { luts = t.luts.items; bits = t.bits } };
}

// The leaves of the LUT of a literal, if it has one.
fn leaves_of(alloc: Global, graph: &Graph, cuts: &ChosenCuts, lit: Lit) -> Option<Cut>
    requires { lit.0 / 2 < node_count graph.now }
    ensures { result ≡ the_leaves graph.now cuts.now lit.0 }
{
    let n = lit.0 / 2;
    if n == 0 {
        return Some(Cut::empty(alloc));
    }
    if n > graph.sources() {
        return cuts.cut(alloc, n);
    }
    match graph.kind(n) {
        Kind::Regular => {
            if lit.0 % 2 == 1 {
                Some(Cut::one(alloc, n))
            } else {
                None
            }
        }
        Kind::Parameter => Some(Cut::empty(alloc)),
    }
}

// The number of bits of a LUT with this many leaves.
pub fn table_bits(leaves: usize) -> u32
    requires { leaves ≤ MOST_LEAVES }
    ensures value { result ≡ 2 ^ leaves }
    ensures few { result ≤ 2 ^ MOST_LEAVES }
{
    1 << leaves
}

// Appends a LUT, unless the bits would exceed the limit on the work, which is no less than they are.
fn add_table(made: &mut LutList, lit: Lit, leaves: Cut) -> Result<(), PickErr>
    requires bits { made.old.bits ≤ MOST_WORK }
    ensures ok { OnOk result (made.new ≡ with_table made.old lit.0 (Some leaves)) }
    ensures within { OnOk result (made.new.bits ≤ MOST_WORK) }
    ensures err { IfErr result (OrMemory refusal_of (λ _. MOST_WORK < (with_table made.old lit.0 (Some leaves)).bits)) }
{
    let base = made.bits;
    let bits = base + table_bits(leaves.len());
    if bits as u64 > MOST_WORK {
        return Err(PickErr::Work);
    }
    made.luts.push(Lut { lit, leaves, base })?;
    made.bits = bits;
    Ok(())
}

// Appends the LUT of a literal, if it is needed and has one.
fn add_marked(
    alloc: Global,
    graph: &Graph,
    cuts: &ChosenCuts,
    made: &mut LutList,
    lit: Lit,
    needed: bool,
) -> Result<(), PickErr>
    requires node { lit.0 / 2 < node_count graph.now }
    requires bits { made.old.bits ≤ MOST_WORK }
    ensures ok { OnOk result (made.new ≡ with_marked graph.now cuts.now made.old lit.0 needed) }
    ensures within { OnOk result (made.new.bits ≤ MOST_WORK) }
    ensures err { IfErr result (OrMemory refusal_of (λ _. MOST_WORK < (with_marked graph.now cuts.now made.old lit.0 needed).bits)) }
{
    if !needed {
        return Ok(());
    }
    match leaves_of(alloc, graph, cuts, lit) {
        None => Ok(()),
        Some(leaves) => add_table(made, lit, leaves),
    }
}

// The LUTs of the marked literals.
fn marked_tables(
    alloc: Global,
    graph: &Graph,
    cuts: &ChosenCuts,
    marks: &[bool],
) -> Result<LutList, PickErr>
    requires { length marks.now ≡ 2 * node_count graph.now }
    ensures ok { IfOk result (λ made. made ≡ tables_from graph.now cuts.now (record { luts = []; bits = 0 }) 0 marks.now) }
    ensures err { IfErr result (OrMemory refusal_of (λ _. MOST_WORK < (tables_from graph.now cuts.now (record { luts = []; bits = 0 }) 0 marks.now).bits)) }
{
    // The proof needs what the contract of this call says of the graph.
    let _count = graph.len();
    let mut made = LutList {
        luts: Vec::new(alloc),
        bits: 0,
    };
    let mut lit = 0;
    for needed in marks {
        add_marked(alloc, graph, cuts, &mut made, Lit(lit), *needed)?;
        lit += 1;
    }
    Ok(made)
}

// The LUTs of the needed literals, in ascending order, unless they have too many bits.
pub fn make_tables(
    alloc: Global,
    graph: &Graph,
    cuts: &ChosenCuts,
    roots: &[Lit],
) -> Result<LutList, PickErr>
    requires cuts { length cuts.now ≡ node_count graph.now }
    requires roots { AreRoots graph.now (lits_of roots.now) }
    requires leaves { (c : List ℕ) (m : ℕ) → In cuts.now (Some c) → In c m → m < node_count graph.now }
    ensures ok { IfOk result (λ made. made ≡ tables_of graph.now (lits_of roots.now) cuts.now) }
    ensures err { IfErr result (OrMemory refusal_of (λ _. MOST_WORK < (tables_of graph.now (lits_of roots.now) cuts.now).bits)) }
{
    let marks = needed(alloc, graph, cuts, roots)?;
    let made = marked_tables(alloc, graph, cuts, &marks)?;
    Ok(made)
}

//! Small graphs whose cuts and values were found by hand.
ghost use Rattle.std.specs.Prelude.{◌≡◌, ◌≤◌, ◌∷◌, [], IfOk};

use crate::pairs::product;
use crate::stop::StageStop;
use aig_core::{Graph, Kind, Lit, lit_value};
use cut_enum::{CutErr, CutTable, enumerate};
use std::alloc::{AllocError, Global};

// The kinds of three sources.
fn three(alloc: Global, first: Kind, second: Kind, third: Kind) -> Result<Vec<Kind>, AllocError>
    ensures { IfOk result (λ kinds. kinds.items ≡ first ∷ second ∷ third ∷ []) }
{
    Ok(vec![in alloc; first, second, third]?)
}

// A multiplexer: the parameter p chooses a if it is 1, else b.
fn multiplexer(alloc: Global) -> Result<Graph, StageStop> {
    let kinds = three(alloc, Kind::Regular, Kind::Regular, Kind::Parameter)?;
    let mut graph = Graph::make(alloc, kinds, 3)?;
    product(&mut graph, Lit(2), Lit(6))?;
    product(&mut graph, Lit(4), Lit(7))?;
    product(&mut graph, Lit(9), Lit(11))?;
    Ok(graph)
}

// The AND of an input with the exclusive or of another input and a parameter: at node 7 the cut of one leaf comes first.
fn counter(alloc: Global) -> Result<Graph, StageStop> {
    let kinds = three(alloc, Kind::Regular, Kind::Parameter, Kind::Regular)?;
    let mut graph = Graph::make(alloc, kinds, 4)?;
    product(&mut graph, Lit(2), Lit(7))?;
    product(&mut graph, Lit(3), Lit(6))?;
    product(&mut graph, Lit(9), Lit(11))?;
    product(&mut graph, Lit(4), Lit(13))?;
    Ok(graph)
}

// Prints the cuts of a node.
fn list_node(rt: &HostRuntime, table: &CutTable, node: u32) -> Result<(), StageStop> {
    for i in 0..table.count(node) {
        let leaves = table.leaves(node, i);
        println!(rt; "  {node} {leaves:?}")?;
    }
    Ok(())
}

// Prints the cuts of each node.
fn list_table(rt: &HostRuntime, graph: &Graph, k: u8) -> Result<(), StageStop>
    requires least { 2 ≤ k }
    requires most { k ≤ 6 }
{
    let table = match enumerate(rt.alloc(), graph, k) {
        Ok(table) => table,
        Err(CutErr::Memory) => return Err(StageStop::Memory),
        Err(_) => return Err(StageStop::Refused),
    };
    for node in 0..graph.len() {
        list_node(rt, &table, node)?;
    }
    Ok(())
}

/// Prints the cuts of each node of both graphs.
pub fn list_cuts(rt: &HostRuntime) -> Result<(), StageStop> {
    println!(rt; "cuts of the multiplexer, at most 2 leaves")?;
    list_table(rt, &multiplexer(rt.alloc())?, 2)?;
    println!(rt; "cuts of the counter, at most 4 leaves")?;
    list_table(rt, &counter(rt.alloc())?, 4)
}

// The value of a literal under the values of the sources.
fn value(alloc: Global, graph: &Graph, sources: &[bool], lit: Lit) -> Result<bool, StageStop> {
    if sources.len() != graph.sources() as usize {
        return Err(StageStop::Refused);
    }
    let values = graph.eval(alloc, sources)?;
    if lit.0 as usize / 2 >= values.len() {
        return Err(StageStop::Refused);
    }
    Ok(lit_value(&values, lit))
}

/// Prints the value of the multiplexer's root for all values of a, b and p.
pub fn list_values(rt: &HostRuntime) -> Result<(), StageStop> {
    let graph = multiplexer(rt.alloc())?;
    println!(rt; "values of the multiplexer by a, b and p")?;
    for number in 0..8u8 {
        let (a, b, p) = (number / 4, number / 2 % 2, number % 2);
        let root = value(rt.alloc(), &graph, &[a == 1, b == 1, p == 1], Lit(13))?;
        println!(rt; "  {a}{b}{p} {root}")?;
    }
    Ok(())
}

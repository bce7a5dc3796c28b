//! The steps of the needed nodes.
ghost use Rattle.std.specs.Prelude.{◌≡◌, ℕ, ◌<◌, ◌≤◌, ◌+◌, Bool, List, true, length, IfOk, OnOk};
ghost use Rattle.aig_core.specs.Aig.{node_count, first_and, IsAnd};
ghost use Rattle.cut_sets.specs.Labels.{label_at, AreLeastHeights};
ghost use Rattle.flow_label.specs.Scratch.{HasRoom};
ghost use Rattle.flow_cert.specs.Steps.{CanBegin, AreDoneTo, AreSteps, DoesNode};
ghost use Rattle.flow_cert.specs.Marks.{mark};

use crate::marks::mark_shared;
use crate::memory::{Memory, new_memory};
use crate::step::step_of;
use aig_core::Graph;
use cert_check::Step;
use cut_sets::NodeLabels;
use std::alloc::{AllocError, Global};

// Adds the step of a node if it is marked, and marks the nodes below that this step needs.
fn visit(
    alloc: Global,
    graph: &Graph,
    labels: &NodeLabels,
    n: u32,
    k: u8,
    memory: &mut Memory,
    marks: &mut Vec<bool>,
    steps: &mut Vec<Step>,
) -> Result<(), AllocError>
    requires node { IsAnd graph.now n }
    requires least { AreLeastHeights graph.now k (label_at labels.now) }
    requires room { HasRoom (node_count graph.now) memory.old.search }
    requires met { length memory.old.met ≡ node_count graph.now }
    requires size { length marks.old.items ≡ node_count graph.now }
    requires high { mark marks.old.items n ≡ true → 1 ≤ label_at labels.now n }
    ensures room { OnOk result (HasRoom (node_count graph.now) memory.new.search) }
    ensures met { OnOk result (length memory.new.met ≡ node_count graph.now) }
    ensures done { OnOk result (DoesNode graph.now k (label_at labels.now) n marks.old.items steps.old.items marks.new.items steps.new.items) }
{
    // The proof needs what the contract of this call says of the graph.
    let _count = graph.len();
    if !marks[n as usize] {
        return Ok(());
    }
    let step = step_of(alloc, graph, labels, n, k, &mut memory.search)?;
    mark_shared(marks, &mut memory.met, &step);
    steps.push(step)?;
    Ok(())
}

// A mark for each node, set where the certificate begins.
fn first_marks(alloc: Global, count: u32, begin: u32) -> Result<Vec<bool>, AllocError>
    requires { begin < count }
    ensures size { IfOk result (λ marks. length marks.items ≡ count) }
    ensures only { IfOk result (λ marks. (m : ℕ) → mark marks.items m ≡ true → (m ≡ begin) × (0 < begin)) }
    ensures begin { IfOk result (λ marks. 0 < begin → mark marks.items begin ≡ true) }
{
    let mut marks = vec![in alloc; false; count as usize]?;
    if begin > 0 {
        marks[begin as usize] = true;
    }
    Ok(marks)
}

// The steps, from the highest node down.
fn steps_down(
    alloc: Global,
    graph: &Graph,
    labels: &NodeLabels,
    k: u8,
    begin: u32,
) -> Result<Vec<Step>, AllocError>
    requires least { AreLeastHeights graph.now k (label_at labels.now) }
    requires begin { CanBegin graph.now (label_at labels.now) begin }
    ensures { IfOk result (λ steps. (marks : List Bool) × AreDoneTo graph.now k (label_at labels.now) begin (first_and graph.now) marks steps.items) }
{
    let first = graph.sources() + 1;
    let count = graph.len() - first;
    let mut memory = new_memory(alloc, graph)?;
    let mut marks = first_marks(alloc, graph.len(), begin)?;
    let mut steps = Vec::new(alloc);
    for i in 0..count {
        let n = first + (count - 1 - i);
        visit(
            alloc,
            graph,
            labels,
            n,
            k,
            &mut memory,
            &mut marks,
            &mut steps,
        )?;
    }
    Ok(steps)
}

/// The steps of the first node of the certificate and of all nodes that these steps need, in ascending order.
///
/// # Errors
/// Only if memory runs out.
pub fn steps_of(
    alloc: Global,
    graph: &Graph,
    labels: &NodeLabels,
    k: u8,
    begin: u32,
) -> Result<Vec<Step>, AllocError>
    requires least { AreLeastHeights graph.now k (label_at labels.now) }
    requires begin { CanBegin graph.now (label_at labels.now) begin }
    ensures { IfOk result (λ steps. AreSteps graph.now k (label_at labels.now) begin steps.items) }
{
    let mut steps = steps_down(alloc, graph, labels, k, begin)?;
    steps.reverse();
    Ok(steps)
}

//! Working memory for one step, allocated once for all steps.
ghost use Rattle.std.specs.Prelude.{◌≡◌, length, IfOk};
ghost use Rattle.aig_core.specs.Aig.{node_count};
ghost use Rattle.flow_label.specs.Scratch.{HasRoom};

use aig_core::Graph;
use flow_label::{Scratch, Stamped, new_scratch};
use std::alloc::{AllocError, Global};

/// The memory of the search for paths, and the nodes that were met on the paths of a step.
#[derive(Drop)]
pub struct Memory {
    pub search: Scratch,
    pub met: Stamped,
}

/// Working memory for the steps of a graph.
///
/// # Errors
/// Only if memory runs out.
pub fn new_memory(alloc: Global, graph: &Graph) -> Result<Memory, AllocError>
    ensures room { IfOk result (λ memory. HasRoom (node_count graph.now) memory.search) }
    ensures met { IfOk result (λ memory. length memory.met ≡ node_count graph.now) }
{
    let search = new_scratch(alloc, graph)?;
    let met = Stamped::new(alloc, graph.len())?;
    Ok(Memory { search, met })
}

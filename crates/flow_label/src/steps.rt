//! How near each node is to a regular source. This orders the search, and nothing that it finds rests on it.
ghost use Rattle.std.specs.Prelude.{◌≡◌, ◌<◌};
ghost use Rattle.aig_core.specs.Aig.{node_count, first_and, IsAnd};

use aig_core::{Graph, Kind};
use std::alloc::{AllocError, Global};

// The steps from a free node.
const NONE: u32 = u32::MAX;

// The number at a place, 0 past the last one.
fn number_at(numbers: &[u32], place: u32) -> u32 {
    numbers.get(place as usize).copied().unwrap_or(0)
}

// The fewest steps from a source.
fn from_source(graph: &Graph, n: u32) -> u32
    requires { n < first_and graph.now }
{
    if n == 0 {
        return NONE;
    }
    match graph.kind(n) {
        Kind::Regular => 0,
        Kind::Parameter => NONE,
    }
}

// The fewest steps from an AND node, one more than those of its nearer fan-in.
fn from_pair(graph: &Graph, numbers: &[u32], n: u32) -> u32
    requires { IsAnd graph.now n }
{
    let pair = graph.pair_at(n);
    let x = number_at(numbers, pair.x.0 / 2);
    let y = number_at(numbers, pair.y.0 / 2);
    let fewest = if x < y { x } else { y };
    if fewest == NONE { NONE } else { fewest + 1 }
}

/// For each node the fewest steps down to a regular source.
///
/// # Errors
/// Only if memory runs out.
pub fn steps_down(alloc: Global, graph: &Graph) -> Result<Vec<u32>, AllocError> {
    let mut numbers = Vec::new(alloc);
    for n in 0..graph.len() {
        let steps = if n <= graph.sources() {
            from_source(graph, n)
        } else {
            from_pair(graph, &numbers, n)
        };
        numbers.push(steps)?;
    }
    Ok(numbers)
}

/// The sources.
///
/// # Errors
/// Only if memory runs out.
pub fn sources_of(alloc: Global, graph: &Graph) -> Result<Vec<u32>, AllocError> {
    let mut nodes = Vec::new(alloc);
    for m in 0..graph.sources() {
        nodes.push(m + 1)?;
    }
    Ok(nodes)
}

// Sets the number at a place, if there is one.
fn set_number(numbers: &mut [u32], place: u32, value: u32) {
    if let Some(number) = numbers.get_mut(place as usize) {
        *number = value;
    }
}

/// For each node the last node that reads it, 0 if none does.
///
/// # Errors
/// Only if memory runs out.
pub fn last_readers(alloc: Global, graph: &Graph) -> Result<Vec<u32>, AllocError> {
    let mut numbers = vec![in alloc; 0; graph.len() as usize]?;
    for n in 0..graph.len() {
        if n > graph.sources() {
            let pair = graph.pair_at(n);
            set_number(&mut numbers, pair.x.0 / 2, n);
            set_number(&mut numbers, pair.y.0 / 2, n);
        }
    }
    Ok(numbers)
}

//! Each pair of many sources, made twice: the second time each is found.

use crate::stop::StageStop;
use aig_core::{AigErr, Graph, Kind, Lit};

const SOURCES: u32 = 1_500;

const PAIRS: u32 = 1_124_250;

/// Returns the product of two literals of a graph.
pub fn product(graph: &mut Graph, a: Lit, b: Lit) -> Result<Lit, StageStop> {
    if a.0 / 2 >= graph.len() || b.0 / 2 >= graph.len() {
        return Err(StageStop::Refused);
    }
    match graph.and(a, b) {
        Ok(lit) => Ok(lit),
        Err(AigErr::Full) => Err(StageStop::Refused),
        Err(AigErr::Memory) => Err(StageStop::Memory),
    }
}

// The literal of a source, by its number from 0.
fn source(number: u32) -> Result<Lit, StageStop> {
    if number >= SOURCES {
        return Err(StageStop::Refused);
    }
    Ok(Lit(2 * (1 + number)))
}

// Makes each pair, and returns how many products are the literal that they have to be: the product with the number r is that
// of the node r after the sources.
fn make_all(graph: &mut Graph) -> Result<u32, StageStop> {
    let mut right = 0u32;
    let (mut i, mut j) = (0u32, 1u32);
    for number in 0..PAIRS {
        let made = product(graph, source(i)?, source(j)?)?;
        if made.0 == 2 * (1 + SOURCES + number) {
            right = right.wrapping_add(1);
        }
        j = j.wrapping_add(1);
        if j == SOURCES {
            i = i.wrapping_add(1);
            j = i.wrapping_add(1);
        }
    }
    Ok(right)
}

/// Makes each pair twice, and prints how many products are right each time.
pub fn make_pairs(rt: &HostRuntime) -> Result<(), StageStop> {
    let kinds = vec![in rt.alloc(); Kind::Regular; SOURCES as usize]?;
    let mut graph = Graph::make(rt.alloc(), kinds, PAIRS)?;
    let first = make_all(&mut graph)?;
    let second = make_all(&mut graph)?;
    let nodes = graph.len();
    println!(rt; "pairs: {first} and {second} products are right, {nodes} nodes")?;
    Ok(())
}

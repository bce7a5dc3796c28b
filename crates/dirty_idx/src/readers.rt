//! The readers of each node of a pack's graph.
ghost use Rattle.std.specs.Prelude.{◌≡◌, ◌^◌, ◌<◌, ◌≤◌, length, IfOk};
ghost use Rattle.aig_core.specs.Aig.{first_and, node_count};
ghost use Rattle.dirty_idx.specs.Listed.{AreOf, lists_of, node_readings, bit_readings};
ghost use Rattle.dirty_idx.specs.Readers.{AreReaders, nodes_of, addresses_of};

use crate::lists::{Lists, Reading};
use aig_core::{Graph, Lit, Steps};
use ppc_pack::Pack;
use std::alloc::{AllocError, Global};
use std::marker::{Brand, Model};
use std::sync::ledger::{Blank, Ledger};

/// For each node of a pack's graph, the AND nodes and the addresses that read it.
#[derive(Drop)]
pub struct Readers {
    nodes: Lists,
    addresses: Lists,
}

impl Model for Readers {
    ghost use Rattle.dirty_idx.specs.Readers.{ReadersValue};

    ghost Value = { ReadersValue };

    ghost view = { λ r. record { nodes = r.nodes; addresses = r.addresses } };
}

// The pairs of node and reader of a graph's AND nodes, counted by this counter.
fn node_readings_with<L: Ledger>(
    alloc: Global,
    graph: &Graph,
    blank: Blank,
) -> Result<Vec<Reading>, AllocError>
    requires name { blank.name ≡ L.name }
    requires parts { blank.parts ≡ L.parts }
    requires some { 0 < L.parts }
    ensures { IfOk result (λ readings. readings.items ≡ node_readings (first_and graph.now) graph.now.pairs) }
{
    let mut steps = Steps::<L>::start(blank);
    let mut readings = Vec::new(alloc);
    for n in 1 + graph.sources()..graph.len() {
        let pair = graph.node(n, &mut steps);
        readings.push(Reading {
            node: pair.x.0 / 2,
            reader: n,
        })?;
        readings.push(Reading {
            node: pair.y.0 / 2,
            reader: n,
        })?;
    }
    Ok(readings)
}

// The AND nodes that read each node of a graph.
fn node_lists(alloc: Global, graph: &Graph) -> Result<Lists, AllocError>
    requires { length graph.now.pairs ≤ 2 ^ 25 }
    ensures { IfOk result (λ lists. lists ≡ lists_of (node_count graph.now) (node_readings (first_and graph.now) graph.now.pairs)) }
{
    let readings = node_readings_with::<Brand>(alloc, graph, Blank::new(1))?;
    Lists::make(alloc, graph.len(), &readings)
}

// The pairs of node and reader of the bits.
fn readings_of_bits(alloc: Global, bits: &[Lit]) -> Result<Vec<Reading>, AllocError>
    requires { length bits.now ≤ 2 ^ 25 }
    ensures { IfOk result (λ readings. readings.items ≡ bit_readings 0 bits.now) }
{
    let mut readings = Vec::with_capacity(alloc, bits.len())?;
    for (address, lit) in bits.iter().enumerate() {
        readings.push(Reading {
            node: lit.0 / 2,
            reader: address as u32,
        })?;
    }
    Ok(readings)
}

// For each node below `count`, the addresses of the bits that read it.
fn address_lists(alloc: Global, count: u32, bits: &[Lit]) -> Result<Lists, AllocError>
    requires nodes { AreOf count (bit_readings 0 bits.now) }
    requires few { length bits.now ≤ 2 ^ 25 }
    ensures { IfOk result (λ lists. lists ≡ lists_of count (bit_readings 0 bits.now)) }
{
    let readings = readings_of_bits(alloc, bits)?;
    Lists::make(alloc, count, &readings)
}

impl Readers {
    /// The readers of a pack, by counting. Time is linear in its nodes and bits.
    ///
    /// `Err` only if memory runs out. No other call allocates memory.
    pub fn make(alloc: Global, pack: &Pack) -> Result<Readers, AllocError>
        ensures { IfOk result (λ readers. AreReaders pack.now readers) }
    {
        let graph = pack.graph();
        let nodes = node_lists(alloc, graph)?;
        let addresses = address_lists(alloc, graph.len(), pack.bits())?;
        Ok(Readers { nodes, addresses })
    }

    /// The AND nodes that have node `n` as a fan-in, ascending.
    pub fn nodes(&self, n: u32) -> &[u32]
        requires { n < length self.now.nodes }
        ensures { result.now ≡ nodes_of self.now n }
    {
        self.nodes.of(n)
    }

    /// The addresses of the bits that are literals of node `n`, ascending.
    pub fn addresses(&self, n: u32) -> &[u32]
        requires { n < length self.now.addresses }
        ensures { result.now ≡ addresses_of self.now n }
    {
        self.addresses.of(n)
    }
}

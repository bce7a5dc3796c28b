//! The walk down from a node through the deep nodes, and the low nodes at which it ends.
ghost use Rattle.std.specs.Prelude.{◌≡◌, ℕ, ◌<◌, ◌≤◌, ◌+◌, length, slice_index, OnOk};
ghost use Rattle.aig_core.specs.Aig.{node_count, IsAnd};
ghost use Rattle.cut_sets.specs.Labels.{label_at};
ghost use Rattle.flow_label.specs.Value.{AreKnownTo};
ghost use Rattle.flow_label.specs.Net.{net_at, AreReaders, AreEnds};
ghost use Rattle.flow_label.specs.Memory.{Reads};
ghost use Rattle.flow_label.specs.Walks.{IsWalked};

use crate::live::is_live;
use crate::scratch::ConeWalk;
use aig_core::Graph;
use cut_sets::NodeLabels;
use std::alloc::AllocError;

// Meets `m`, which `v` reads, if it isn't free and hasn't been met.
fn read(
    graph: &Graph,
    labels: &NodeLabels,
    height: u32,
    walk: &mut ConeWalk,
    m: u32,
    v: u32,
) -> Result<(), AllocError>
    requires inside { m < node_count graph.now }
    requires room { length walk.old.readers ≡ node_count graph.now }
    ensures { OnOk result (Reads graph.now labels.now height m v walk.old walk.new) }
{
    if !is_live(graph, labels, m) || walk.readers.get(m) != 0 {
        return Ok(());
    }
    walk.readers.set(m, v);
    if labels.label(m) + 1 < height {
        walk.ends.push(m)?;
        return Ok(());
    }
    walk.uppers.push(m)?;
    Ok(())
}

// Lets the upper node at a place read its fan-ins.
fn read_at(
    graph: &Graph,
    labels: &NodeLabels,
    n: u32,
    height: u32,
    walk: &mut ConeWalk,
    place: u32,
) -> Result<(), AllocError>
    requires node { IsAnd graph.now n }
    requires high { 2 ≤ height }
    requires known { AreKnownTo graph.now n (label_at labels.now) }
    requires room { length walk.old.readers ≡ node_count graph.now }
    requires inside { place < length walk.old.uppers.items }
    requires walked { IsWalked (net_at graph.now labels.now n height walk.old.readers) walk.old.uppers.items walk.old.ends.items place }
    ensures room { OnOk result (length walk.new.readers ≡ node_count graph.now) }
    ensures walked { OnOk result (IsWalked (net_at graph.now labels.now n height walk.new.readers) walk.new.uppers.items walk.new.ends.items (place + 1)) }
{
    // The proof needs what the contract of this call says of the graph.
    let _count = graph.len();
    let v = walk.uppers[place as usize];
    let pair = graph.pair_at(v);
    read(graph, labels, height, walk, pair.x.0 / 2, v)?;
    read(graph, labels, height, walk, pair.y.0 / 2, v)?;
    Ok(())
}

/// Walks down from `n` through deep nodes. Records the first reader of each node met, and the low nodes met.
///
/// # Errors
/// Only if memory runs out.
pub fn walk_down(
    graph: &Graph,
    labels: &NodeLabels,
    n: u32,
    height: u32,
    walk: &mut ConeWalk,
) -> Result<(), AllocError>
    requires node { IsAnd graph.now n }
    requires high { 2 ≤ height }
    requires known { AreKnownTo graph.now n (label_at labels.now) }
    requires room { length walk.old.readers ≡ node_count graph.now }
    ensures room { OnOk result (length walk.new.readers ≡ node_count graph.now) }
    ensures readers { OnOk result (AreReaders (net_at graph.now labels.now n height walk.new.readers)) }
    ensures ends { OnOk result (AreEnds (net_at graph.now labels.now n height walk.new.readers) walk.new.ends.items) }
{
    // The proof needs what the contract of this call says of the graph.
    let _count = graph.len();
    walk.readers.clear();
    walk.uppers.clear();
    walk.ends.clear();
    walk.uppers.push(n)?;
    let mut place = 0;
    while place < walk.uppers.len() as u32 {
        read_at(graph, labels, n, height, walk, place)?;
        place += 1;
    }
    Ok(())
}

//! Links nodes at one floor after another, by paths from what is linked at the floor before.
ghost use Rattle.std.specs.Prelude.{◌≡◌, ℕ, ◌<◌, ◌≤◌, ◌+◌, ◌^◌, ◌⊎◌, true, [], length, slice_index, OnOk};
ghost use Rattle.aig_core.specs.Aig.{node_count, IsAnd};
ghost use Rattle.list_laws.specs.Members.{In};
ghost use Rattle.cut_sets.specs.Labels.{label_at};
ghost use Rattle.flow_label.specs.Value.{AreKnownTo};
ghost use Rattle.flow_label.specs.Links.{AreLinks, owner_in};
ghost use Rattle.flow_label.specs.Net.{net_of, IsOpen};
ghost use Rattle.flow_label.specs.Scratch.{HasRoom};
ghost use Rattle.flow_label.specs.Memory.{HasTrunks, HasProposed, KeepsTrunks};
ghost use Rattle.flow_label.specs.Trunks.{AreNext, IsGround, IsStretched};

use crate::augment::add_path;
use crate::links::{clear_links, owner};
use crate::live::is_live;
use crate::scratch::{ConeWalk, Links, PathSearch, Scratch, Trunks};
use crate::search::{begin, search_from};
use crate::site::{Ground, Site};
use aig_core::Graph;
use cut_sets::NodeLabels;
use std::alloc::AllocError;

// How many nodes there are from one floor to the next.
const BLOCK: u32 = 512;

// A height that is two more than each label at least.
const ABOVE_ALL: u32 = 2_147_483_648;

// Lets a path end at m, if m is live and below n.
fn propose(
    graph: &Graph,
    labels: &NodeLabels,
    walk: &mut ConeWalk,
    n: u32,
    m: u32,
) -> Result<(), AllocError>
    requires node { n < node_count graph.now }
    requires room { length walk.old.readers ≡ node_count graph.now }
    requires proposed { HasProposed graph.now labels.now n walk.old }
    ensures room { OnOk result (length walk.new.readers ≡ node_count graph.now) }
    ensures proposed { OnOk result (HasProposed graph.now labels.now n walk.new) }
{
    if m >= n || walk.readers.get(m) != 0 || !is_live(graph, labels, m) {
        return Ok(());
    }
    walk.readers.set(m, 1);
    walk.ends.push(m)?;
    Ok(())
}

// Lets paths end at these nodes.
fn propose_nodes(
    graph: &Graph,
    labels: &NodeLabels,
    walk: &mut ConeWalk,
    n: u32,
    nodes: &[u32],
) -> Result<(), AllocError>
    requires node { n < node_count graph.now }
    requires room { length walk.old.readers ≡ node_count graph.now }
    requires proposed { HasProposed graph.now labels.now n walk.old }
    ensures room { OnOk result (length walk.new.readers ≡ node_count graph.now) }
    ensures proposed { OnOk result (HasProposed graph.now labels.now n walk.new) }
{
    for m in nodes {
        propose(graph, labels, walk, n, *m)?;
    }
    Ok(())
}

// Of these nodes and those after the last source or floor, keeps those that a node reads which is n or above it.
fn read_later(
    nodes: &[u32],
    last: &[u32],
    floor: u32,
    n: u32,
    kept: &mut Vec<u32>,
) -> Result<(), AllocError> {
    for m in nodes {
        if last.get(*m as usize).copied().unwrap_or(0) >= n {
            kept.push(*m)?;
        }
    }
    add_block(last, floor, n, kept)
}

// Adds the nodes from a floor up to n that a node reads which is n or above it.
fn add_block(last: &[u32], floor: u32, n: u32, kept: &mut Vec<u32>) -> Result<(), AllocError> {
    for m in floor..n {
        if m > floor && last.get(m as usize).copied().unwrap_or(0) >= n {
            kept.push(m)?;
        }
    }
    Ok(())
}

// Adds a path to each end that can have one.
fn link_ends(site: &Site, links: &mut Links, search: &mut PathSearch) -> Result<(), AllocError>
    requires owners { length links.old.owners ≡ node_count site.now.graph }
    requires seen { length search.old.seen ≡ node_count site.now.graph }
    requires passed { length search.old.passed ≡ node_count site.now.graph }
    ensures linked { OnOk result (AreLinks site.now links.new.owners links.new.starts.items) }
    ensures room { OnOk result (length search.new.seen ≡ node_count site.now.graph) }
    ensures marks { OnOk result (length search.new.passed ≡ node_count site.now.graph) }
{
    clear_links(site, links);
    begin(site, links, search);
    for m in site.ends() {
        if search_from(site, links, search, *m)? {
            add_path(site, links, search)?;
            begin(site, links, search);
        }
    }
    Ok(())
}

// The node of a path from which it comes to m, or m itself.
fn before(site: &Site, links: &Links, m: u32) -> u32
    ensures { result ≤ m }
{
    // The proof needs what the contract of this call says of the site.
    let _node = site.node();
    if !site.is_inner(m) {
        return m;
    }
    let below = site.fan_ins(m);
    if owner(site, links, below.near) == m {
        return below.near;
    }
    if owner(site, links, below.far) == m {
        return below.far;
    }
    m
}

// Down a path from m to the first node that is at or below a floor.
fn follow(site: &Site, links: &Links, m: u32, floor: u32) -> u32 {
    let mut at = m;
    while at > floor {
        let next = before(site, links, at);
        if next >= at {
            return at;
        }
        at = next;
    }
    at
}

// Where the paths that come to ends pass a floor.
fn follow_all(
    site: &Site,
    links: &Links,
    floor: u32,
    passes: &mut Vec<u32>,
) -> Result<(), AllocError> {
    let node = site.node();
    for m in site.ends() {
        if owner(site, links, *m) == node {
            passes.push(follow(site, links, *m, floor))?;
        }
    }
    Ok(())
}

// Whether a path comes to this node as an end.
fn is_linked_end(site: &Site, links: &Links, m: u32) -> bool
    ensures { result ≡ true → IsOpen (net_of site.now) m × (owner_in site.now links.now.owners m ≡ site.now.node) }
{
    m < site.count() && owner(site, links, m) == site.node() && site.is_open(m)
}

// The ends to which paths come.
fn linked_ends(site: &Site, links: &Links, nodes: &mut Vec<u32>) -> Result<(), AllocError>
    ensures { OnOk result ((m : ℕ) → In nodes.new.items m → IsOpen (net_of site.now) m × (owner_in site.now links.now.owners m ≡ site.now.node)) }
{
    nodes.clear();
    for m in site.ends() {
        if is_linked_end(site, links, *m) {
            nodes.push(*m)?;
        }
    }
    Ok(())
}

// Lets the paths end at what `passes` has, and then at the linked nodes and those above them that a node reads which is n or above it.
fn propose_read(
    graph: &Graph,
    labels: &NodeLabels,
    n: u32,
    scratch: &mut Scratch,
) -> Result<(), AllocError>
    requires node { n < node_count graph.now }
    requires room { HasRoom (node_count graph.now) scratch.old }
    ensures room { OnOk result (HasRoom (node_count graph.now) scratch.new) }
    ensures proposed { OnOk result (HasProposed graph.now labels.now n scratch.new.walk) }
    ensures trunks { KeepsTrunks scratch.old.trunks scratch.new.trunks }
{
    scratch.walk.readers.clear();
    scratch.walk.ends.clear();
    read_later(
        &scratch.trunks.nodes,
        &scratch.trunks.last,
        scratch.trunks.top,
        n,
        &mut scratch.trunks.passes,
    )?;
    propose_nodes(graph, labels, &mut scratch.walk, n, &scratch.trunks.passes)
}

// Links what is proposed to the top, and lists in `passes` where the paths pass a floor above it.
fn look_ahead(
    graph: &Graph,
    labels: &NodeLabels,
    n: u32,
    scratch: &mut Scratch,
    floor: u32,
) -> Result<(), AllocError>
    requires node { IsAnd graph.now n }
    requires known { AreKnownTo graph.now n (label_at labels.now) }
    requires low { (m : ℕ) → label_at labels.now m ≤ m }
    requires room { HasRoom (node_count graph.now) scratch.old }
    requires ground { IsGround graph.now n scratch.old.trunks.top scratch.old.trunks.until.items }
    requires proposed { HasProposed graph.now labels.now n scratch.old.walk }
    ensures room { OnOk result (HasRoom (node_count graph.now) scratch.new) }
    ensures trunks { KeepsTrunks scratch.old.trunks scratch.new.trunks }
{
    // The proof needs what the contract of this call says of the graph.
    let _count = graph.len();
    scratch.trunks.passes.clear();
    let site = Site::make(
        graph,
        labels,
        n,
        ABOVE_ALL,
        &scratch.walk,
        &scratch.steps,
        Ground {
            floor: scratch.trunks.top,
            until: &scratch.trunks.until,
        },
    );
    link_ends(&site, &mut scratch.links, &mut scratch.search)?;
    follow_all(&site, &scratch.links, floor, &mut scratch.trunks.passes)
}

// Links what is proposed to the top, and lists in `nodes` what is linked.
fn link_up(
    graph: &Graph,
    labels: &NodeLabels,
    n: u32,
    scratch: &mut Scratch,
) -> Result<(), AllocError>
    requires node { IsAnd graph.now n }
    requires known { AreKnownTo graph.now n (label_at labels.now) }
    requires low { (m : ℕ) → label_at labels.now m ≤ m }
    requires room { HasRoom (node_count graph.now) scratch.old }
    requires ground { IsGround graph.now n scratch.old.trunks.top scratch.old.trunks.until.items }
    requires proposed { HasProposed graph.now labels.now n scratch.old.walk }
    ensures room { OnOk result (HasRoom (node_count graph.now) scratch.new) }
    ensures trunks { KeepsTrunks scratch.old.trunks scratch.new.trunks }
    ensures linked { OnOk result (AreNext graph.now scratch.old.trunks.top scratch.old.trunks.until.items scratch.new.trunks.nodes.items) }
{
    // The proof needs what the contract of this call says of the graph.
    let _count = graph.len();
    let site = Site::make(
        graph,
        labels,
        n,
        ABOVE_ALL,
        &scratch.walk,
        &scratch.steps,
        Ground {
            floor: scratch.trunks.top,
            until: &scratch.trunks.until,
        },
    );
    link_ends(&site, &mut scratch.links, &mut scratch.search)?;
    linked_ends(&site, &scratch.links, &mut scratch.trunks.nodes)?;
    Ok(())
}

// Lets these nodes stay linked up to a floor.
fn stretch(until: &mut Vec<u32>, nodes: &[u32], floor: u32)
    requires { (m : ℕ) → In nodes.now m → m < length until.old.items }
    ensures { IsStretched until.old.items until.new.items nodes.now floor }
{
    for m in nodes {
        until[*m as usize] = floor;
    }
}

// Makes a floor above the others the top.
fn raise(graph: &Graph, n: u32, trunks: &mut Trunks, floor: u32) -> Result<(), AllocError>
    requires trunks { HasTrunks graph.now n trunks.old }
    requires above { trunks.old.top < floor }
    requires below { floor < n }
    requires linked { AreNext graph.now trunks.old.top trunks.old.until.items trunks.old.nodes.items }
    ensures { OnOk result (HasTrunks graph.now n trunks.new) }
{
    trunks.floors.push(floor)?;
    stretch(&mut trunks.until, &trunks.nodes, floor);
    trunks.top = floor;
    Ok(())
}

/// Links nodes at one more floor, if n is two blocks above the top.
///
/// # Errors
/// Only if memory runs out.
pub fn extend(
    graph: &Graph,
    labels: &NodeLabels,
    n: u32,
    scratch: &mut Scratch,
) -> Result<(), AllocError>
    requires node { IsAnd graph.now n }
    requires known { AreKnownTo graph.now n (label_at labels.now) }
    requires low { (m : ℕ) → label_at labels.now m ≤ m }
    requires room { HasRoom (node_count graph.now) scratch.old }
    requires trunks { HasTrunks graph.now n scratch.old.trunks }
    ensures room { OnOk result (HasRoom (node_count graph.now) scratch.new) }
    ensures trunks { OnOk result (HasTrunks graph.now n scratch.new.trunks) }
{
    // The proof needs what the contract of this call says of the graph.
    let _count = graph.len();
    if scratch.trunks.top + 2 * BLOCK >= n {
        return Ok(());
    }
    let floor = scratch.trunks.top + BLOCK;
    scratch.trunks.passes.clear();
    propose_read(graph, labels, floor + BLOCK + 1, scratch)?;
    look_ahead(graph, labels, floor + BLOCK + 1, scratch, floor)?;
    propose_read(graph, labels, floor + 1, scratch)?;
    link_up(graph, labels, floor + 1, scratch)?;
    raise(graph, n, &mut scratch.trunks, floor)
}

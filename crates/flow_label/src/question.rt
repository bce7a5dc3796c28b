//! A low cut of a node, or K + 1 paths to it.
ghost use Rattle.std.specs.Prelude.{◌≡◌, ℕ, ◌<◌, ◌≤◌, ◌+◌, ◌-◌, length, map, IfOk, IfSome, MatchOption, OnOk};
ghost use Rattle.aig_core.specs.Aig.{node_count, IsAnd};
ghost use Rattle.cut_sets.specs.Labels.{label_at};
ghost use Rattle.cut_sets.specs.Paths.{ArePathsTo};
ghost use Rattle.flow_label.specs.Value.{AreKnownTo};
ghost use Rattle.flow_label.specs.Barriers.{IsAnswer, IsHigh, IsBarrier};
ghost use Rattle.flow_label.specs.Links.{AreLinks};
ghost use Rattle.flow_label.specs.LowCuts.{IsFlowCut, IsShown};
ghost use Rattle.flow_label.specs.Lows.{IsNearest};
ghost use Rattle.flow_label.specs.Scratch.{HasRoom};
ghost use Rattle.flow_label.specs.Memory.{Adds, HasWalked, HasTrunks, KeepsTrunks};
ghost use Rattle.flow_label.specs.Net.{net_of, AreReaders};
ghost use Rattle.flow_label.specs.Trunks.{IsGround};

use crate::augment::add_path;
use crate::barrier::{cut_of, keep_unpassed};
use crate::links::clear_links;
use crate::scratch::{Links, PathSearch, Scratch};
use crate::search::{SearchEnd, find};
use crate::site::{Ground, Site};
use crate::tight::is_tight;
use crate::walk::walk_down;
use crate::ways::paths_of;
use aig_core::Graph;
use cut_sets::{FlatCut, MOST_LEAVES, NodeLabels};
use std::alloc::{AllocError, Global};

// Adds paths until there are k + 1, or a search is blocked.
fn add_paths(
    site: &Site,
    links: &mut Links,
    search: &mut PathSearch,
    k: u8,
) -> Result<SearchEnd, AllocError>
    requires linked { AreLinks site.now links.old.owners links.old.starts.items }
    requires none { length links.old.starts.items ≡ 0 }
    requires seen { length search.old.seen ≡ node_count site.now.graph }
    requires passed { length search.old.passed ≡ node_count site.now.graph }
    ensures linked { OnOk result (AreLinks site.now links.new.owners links.new.starts.items) }
    ensures added { IfOk result (Adds site.now k links.new search.new) }
    ensures room { OnOk result (length search.new.seen ≡ node_count site.now.graph) }
    ensures marks { OnOk result (length search.new.passed ≡ node_count site.now.graph) }
{
    for _i in 0..u32::from(k) + 1 {
        match find(site, links, search)? {
            SearchEnd::Found => add_path(site, links, search)?,
            SearchEnd::Blocked => return Ok(SearchEnd::Blocked),
        }
    }
    Ok(SearchEnd::Found)
}

// The cut of what a blocked search met and did not pass. It has no more leaves than there are paths, and is the least low cut
// nearest to the node.
fn low_cut(site: &Site, links: &Links, kept: &[u32], k: u8) -> FlatCut
    requires few { k ≤ MOST_LEAVES }
    requires linked { AreLinks site.now links.now.owners links.now.starts.items }
    requires paths { length links.now.starts.items ≤ k }
    requires readers { AreReaders (net_of site.now) }
    requires barrier { IsBarrier site.now links.now.owners kept.now }
    ensures { IsNearest site.now.graph k site.now.node site.now.height (label_at site.now.labels) result }
{
    // The proof needs what the contract of this call says of the site.
    let _node = site.node();
    match cut_of(kept, k) {
        Some(cut) => cut,
        None => unreachable!(),
    }
}

/// What a flow shows of the cuts of a node.
#[derive(Drop)]
pub enum FlowEnd {
    /// There are k + 1 paths, so each cut is high.
    High,
    /// The least low cut nearest to the node.
    Low(FlatCut),
    /// The floor held up a search, so a deeper one is needed.
    HeldUp,
}

// Sends a flow of at most k + 1 to the node of a site.
fn flow(
    site: &Site,
    links: &mut Links,
    search: &mut PathSearch,
    k: u8,
) -> Result<FlowEnd, AllocError>
    requires few { k ≤ MOST_LEAVES }
    requires readers { AreReaders (net_of site.now) }
    requires owners { length links.old.owners ≡ node_count site.now.graph }
    requires seen { length search.old.seen ≡ node_count site.now.graph }
    requires passed { length search.old.passed ≡ node_count site.now.graph }
    ensures shown { IfOk result (IsShown site.now.graph k site.now.node site.now.height (label_at site.now.labels) site.now.floor) }
    ensures owners { OnOk result (length links.new.owners ≡ node_count site.now.graph) }
    ensures room { OnOk result (length search.new.seen ≡ node_count site.now.graph) }
    ensures marks { OnOk result (length search.new.passed ≡ node_count site.now.graph) }
{
    // The proof needs what the contract of this call says of the site.
    let _node = site.node();
    clear_links(site, links);
    let end = add_paths(site, links, search, k)?;
    search.count_met();
    match end {
        SearchEnd::Found => Ok(FlowEnd::High),
        SearchEnd::Blocked => {
            if !is_tight(site, links, &search.queue) {
                return Ok(FlowEnd::HeldUp);
            }
            keep_unpassed(search)?;
            Ok(FlowEnd::Low(low_cut(site, links, &search.kept, k)))
        }
    }
}

// K + 1 paths, since each cut is high.
fn all_paths(
    alloc: Global,
    site: &Site,
    links: &mut Links,
    search: &mut PathSearch,
    k: u8,
) -> Result<Vec<Vec<u32>>, AllocError>
    requires least { IsHigh site.now.graph k site.now.node site.now.height (label_at site.now.labels) }
    requires readers { AreReaders (net_of site.now) }
    requires full { site.now.floor ≡ length site.now.graph.kinds }
    requires owners { length links.old.owners ≡ node_count site.now.graph }
    requires seen { length search.old.seen ≡ node_count site.now.graph }
    requires passed { length search.old.passed ≡ node_count site.now.graph }
    ensures paths { IfOk result (λ paths. ArePathsTo site.now.graph site.now.node site.now.height (label_at site.now.labels) (map (λ p. p.items) paths.items)) }
    ensures count { IfOk result (λ paths. length paths.items ≡ k + 1) }
    ensures owners { OnOk result (length links.new.owners ≡ node_count site.now.graph) }
    ensures room { OnOk result (length search.new.seen ≡ node_count site.now.graph) }
    ensures marks { OnOk result (length search.new.passed ≡ node_count site.now.graph) }
{
    // The proof needs what the contract of this call says of the site.
    let _node = site.node();
    clear_links(site, links);
    match add_paths(site, links, search, k)? {
        SearchEnd::Found => paths_of(alloc, site, links),
        SearchEnd::Blocked => unreachable!(),
    }
}

// Sends a flow of at most k + 1 to a node from which the walk was made, above a floor.
fn flow_above(
    graph: &Graph,
    labels: &NodeLabels,
    n: u32,
    height: u32,
    k: u8,
    scratch: &mut Scratch,
    floor: u32,
) -> Result<FlowEnd, AllocError>
    requires few { k ≤ MOST_LEAVES }
    requires node { IsAnd graph.now n }
    requires high { 2 ≤ height }
    requires known { AreKnownTo graph.now n (label_at labels.now) }
    requires room { HasRoom (node_count graph.now) scratch.old }
    requires walked { HasWalked graph.now labels.now n height scratch.old }
    requires ground { IsGround graph.now n floor scratch.old.trunks.until.items }
    ensures shown { IfOk result (IsShown graph.now k n height (label_at labels.now) floor) }
    ensures room { OnOk result (HasRoom (node_count graph.now) scratch.new) }
    ensures walked { OnOk result (HasWalked graph.now labels.now n height scratch.new) }
    ensures trunks { KeepsTrunks scratch.old.trunks scratch.new.trunks }
{
    // The proof needs what the contract of this call says of the graph.
    let _count = graph.len();
    let site = Site::make(
        graph,
        labels,
        n,
        height,
        &scratch.walk,
        &scratch.steps,
        Ground {
            floor,
            until: &scratch.trunks.until,
        },
    );
    flow(&site, &mut scratch.links, &mut scratch.search, k)
}

// A low cut by flow, down to one floor after another, each twice as many floors below, and last down to the sources.
fn low_cut_by_flow(
    graph: &Graph,
    labels: &NodeLabels,
    n: u32,
    height: u32,
    k: u8,
    scratch: &mut Scratch,
) -> Result<Option<FlatCut>, AllocError>
    requires few { k ≤ MOST_LEAVES }
    requires node { IsAnd graph.now n }
    requires high { 2 ≤ height }
    requires known { AreKnownTo graph.now n (label_at labels.now) }
    requires room { HasRoom (node_count graph.now) scratch.old }
    requires walked { HasWalked graph.now labels.now n height scratch.old }
    requires trunks { HasTrunks graph.now n scratch.old.trunks }
    ensures answer { IfOk result (λ answer. MatchOption answer (IsHigh graph.now k n height (label_at labels.now)) (λ cut. IsNearest graph.now k n height (label_at labels.now) cut)) }
    ensures room { OnOk result (HasRoom (node_count graph.now) scratch.new) }
    ensures trunks { KeepsTrunks scratch.old.trunks scratch.new.trunks }
{
    let count = scratch.trunks.floors.len();
    let mut back = 1;
    while back <= count {
        let floor = scratch.trunks.floors[count - back];
        match flow_above(graph, labels, n, height, k, scratch, floor)? {
            FlowEnd::High => return Ok(None),
            FlowEnd::Low(cut) => return Ok(Some(cut)),
            FlowEnd::HeldUp => {}
        }
        back *= 2;
    }
    match flow_above(graph, labels, n, height, k, scratch, graph.sources())? {
        FlowEnd::High => Ok(None),
        FlowEnd::Low(cut) => Ok(Some(cut)),
        FlowEnd::HeldUp => unreachable!(),
    }
}

/// A low cut of a node: one of at most `k` leaves, all of labels of at most `height` minus two. `None` if each cut is at least as
/// high as `height`. It is the ends, if there are at most `k`, otherwise the least low cut nearest to the node.
///
/// # Errors
/// Only if memory runs out.
pub fn low_cut_of(
    graph: &Graph,
    labels: &NodeLabels,
    n: u32,
    height: u32,
    k: u8,
    scratch: &mut Scratch,
) -> Result<Option<FlatCut>, AllocError>
    requires few { k ≤ MOST_LEAVES }
    requires node { IsAnd graph.now n }
    requires high { 2 ≤ height }
    requires known { AreKnownTo graph.now n (label_at labels.now) }
    requires room { HasRoom (node_count graph.now) scratch.old }
    requires trunks { HasTrunks graph.now n scratch.old.trunks }
    ensures answer { IfOk result (IsAnswer graph.now k n height (label_at labels.now)) }
    ensures low { IfOk result (λ answer. IfSome answer (λ cut. IsFlowCut graph.now k (label_at labels.now) n (height - 1) cut)) }
    ensures room { OnOk result (HasRoom (node_count graph.now) scratch.new) }
    ensures trunks { KeepsTrunks scratch.old.trunks scratch.new.trunks }
{
    // The proof needs what the contract of this call says of the graph.
    let _count = graph.len();
    walk_down(graph, labels, n, height, &mut scratch.walk)?;
    if let Some(cut) = cut_of(&scratch.walk.ends, k) {
        return Ok(Some(cut));
    }
    low_cut_by_flow(graph, labels, n, height, k, scratch)
}

/// K + 1 paths to a node, each cut of which is at least as high as `height`. Two of them share only the node and nodes of a label
/// of at least `height` minus one.
///
/// # Errors
/// Only if memory runs out.
pub fn paths_to(
    alloc: Global,
    graph: &Graph,
    labels: &NodeLabels,
    n: u32,
    height: u32,
    k: u8,
    scratch: &mut Scratch,
) -> Result<Vec<Vec<u32>>, AllocError>
    requires node { IsAnd graph.now n }
    requires high { 2 ≤ height }
    requires known { AreKnownTo graph.now n (label_at labels.now) }
    requires least { IsHigh graph.now k n height (label_at labels.now) }
    requires room { HasRoom (node_count graph.now) scratch.old }
    ensures paths { IfOk result (λ paths. ArePathsTo graph.now n height (label_at labels.now) (map (λ p. p.items) paths.items)) }
    ensures count { IfOk result (λ paths. length paths.items ≡ k + 1) }
    ensures room { OnOk result (HasRoom (node_count graph.now) scratch.new) }
{
    // The proof needs what the contract of this call says of the graph.
    let _count = graph.len();
    walk_down(graph, labels, n, height, &mut scratch.walk)?;
    let site = Site::make(
        graph,
        labels,
        n,
        height,
        &scratch.walk,
        &scratch.steps,
        Ground {
            floor: graph.sources(),
            until: &scratch.trunks.until,
        },
    );
    all_paths(alloc, &site, &mut scratch.links, &mut scratch.search, k)
}

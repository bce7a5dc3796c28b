//! Working memory for one node, allocated once for all nodes.
ghost use Rattle.std.specs.Prelude.{◌≡◌, [], length, IfOk, ℕ};
ghost use Rattle.aig_core.specs.Aig.{node_count};
ghost use Rattle.flow_label.specs.Scratch.{IsScratch};
ghost use Rattle.flow_label.specs.Stamps.{zeros};
ghost use Rattle.flow_label.specs.Trunks.{AreTrunks};

use crate::stamped::Stamped;
use crate::steps::{last_readers, sources_of, steps_down};
use aig_core::Graph;
use std::alloc::{AllocError, Global};

/// The walk down from a node: the first reader of each node, the upper nodes in the order in which they were met, and the
/// ends.
#[derive(Drop)]
pub struct ConeWalk {
    pub readers: Stamped,
    pub uppers: Vec<u32>,
    pub ends: Vec<u32>,
}

/// The paths: the owner of each node, if it isn't the first one, and the starts of the paths.
#[derive(Drop)]
pub struct Links {
    pub owners: Stamped,
    pub starts: Vec<u32>,
}

/// The search for one more path: whether each node was met, the nodes in the order in which they were met, the place from
/// which each was met, the places that wait, and whether each inner node was passed. `kept` is for the nodes that were met
/// and not passed. `met` counts what the last searches of flows have met.
#[derive(Drop)]
pub struct PathSearch {
    pub seen: Stamped,
    pub queue: Vec<u32>,
    pub backs: Vec<u32>,
    pub stack: Vec<u32>,
    pub passed: Stamped,
    pub kept: Vec<u32>,
    pub met: u32,
}

impl PathSearch {
    ghost use Rattle.std.specs.Prelude.{◌≡◌};

    /// Counts what the last search has met.
    pub fn count_met(&mut self)
        ensures { self.new ≡ record { seen = self.old.seen; queue = self.old.queue; backs = self.old.backs; stack = self.old.stack; passed = self.old.passed; kept = self.old.kept; met = self.new.met } }
    {
        let some = self.queue.len().min(1 << 30) as u32;
        self.met = self.met.saturating_add(some);
    }
}

/// The floors at which nodes are linked, from the lowest up; and for each node up to which floor it stays linked. `top` is the
/// last floor, or the last source if there is none. `nodes` are those that are linked at the top, and `last` has the last reader of
/// each node: what is linked is chosen by them. `passes` is for where paths pass a floor.
#[derive(Drop)]
pub struct Trunks {
    pub floors: Vec<u32>,
    pub until: Vec<u32>,
    pub top: u32,
    pub nodes: Vec<u32>,
    pub last: Vec<u32>,
    pub passes: Vec<u32>,
}

/// All of it, and for each node the fewest steps down to a regular source.
#[derive(Drop)]
pub struct Scratch {
    pub(crate) walk: ConeWalk,
    pub(crate) links: Links,
    pub(crate) search: PathSearch,
    pub(crate) steps: Vec<u32>,
    pub(crate) trunks: Trunks,
}

// The memory of a walk that has met nothing.
fn new_walk(alloc: Global, count: u32) -> Result<ConeWalk, AllocError>
    ensures { IfOk result (λ walk. length walk.readers ≡ count) }
{
    let readers = Stamped::new(alloc, count)?;
    Ok(ConeWalk {
        readers,
        uppers: Vec::new(alloc),
        ends: Vec::new(alloc),
    })
}

// The memory of links without paths.
fn new_links(alloc: Global, count: u32) -> Result<Links, AllocError>
    ensures { IfOk result (λ links. length links.owners ≡ count) }
{
    let owners = Stamped::new(alloc, count)?;
    Ok(Links {
        owners,
        starts: Vec::new(alloc),
    })
}

// The memory of a search that has met nothing.
fn new_search(alloc: Global, count: u32) -> Result<PathSearch, AllocError>
    ensures seen { IfOk result (λ search. length search.seen ≡ count) }
    ensures passed { IfOk result (λ search. length search.passed ≡ count) }
{
    let seen = Stamped::new(alloc, count)?;
    let passed = Stamped::new(alloc, count)?;
    Ok(PathSearch {
        seen,
        queue: Vec::new(alloc),
        backs: Vec::new(alloc),
        stack: Vec::new(alloc),
        passed,
        kept: Vec::new(alloc),
        met: 0,
    })
}

// Trunks without a floor.
fn new_trunks(alloc: Global, graph: &Graph) -> Result<Trunks, AllocError>
    ensures none { IfOk result (λ trunks. trunks.floors.items ≡ []) }
    ensures until { IfOk result (λ trunks. trunks.until.items ≡ zeros (node_count graph.now)) }
    ensures top { IfOk result (λ trunks. trunks.top ≡ length graph.now.kinds) }
{
    let count = graph.len();
    Ok(Trunks {
        floors: Vec::new(alloc),
        until: vec![in alloc; 0; count as usize]?,
        top: graph.sources(),
        nodes: sources_of(alloc, graph)?,
        last: last_readers(alloc, graph)?,
        passes: Vec::new(alloc),
    })
}

/// Working memory for the nodes of a graph.
///
/// # Errors
/// Only if memory runs out.
pub fn new_scratch(alloc: Global, graph: &Graph) -> Result<Scratch, AllocError>
    ensures room { IfOk result (λ scratch. IsScratch (node_count graph.now) scratch.walk.readers scratch.links.owners scratch.search.seen scratch.search.passed) }
    ensures trunks { IfOk result (λ scratch. AreTrunks graph.now 0 scratch.trunks.floors.items scratch.trunks.until.items scratch.trunks.top) }
{
    let count = graph.len();
    let steps = steps_down(alloc, graph)?;
    let walk = new_walk(alloc, count)?;
    let links = new_links(alloc, count)?;
    let search = new_search(alloc, count)?;
    let trunks = new_trunks(alloc, graph)?;
    Ok(Scratch {
        walk,
        links,
        search,
        steps,
        trunks,
    })
}

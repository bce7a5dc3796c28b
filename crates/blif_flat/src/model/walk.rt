//! The walk of the models, as a graph in which each `.subckt` line leads to its model.
ghost use Rattle.std.specs.Prelude.{◌≡◌, [], map, IfOk, MatchResult, IsSome, ◌<◌, List, length, reverse, slice_get, Some, None, OnOk, IfErr};
ghost use Rattle.depth_first.specs.declared.edge.Edge.TheVariants.{Stop as stop_at};
ghost use Rattle.blif_flat.specs.Bodies.Conditions.{walk_fault, WalksTo, WalkTells};
ghost use Rattle.blif_flat.specs.{AreOnce, In, IsWellFormed, IsTold, AreChildrenFirst, SubcktLine};
ghost use Rattle.blif_flat.specs.{refusal_of, ports_value, model_names, line_edge, body_edge, commands_edges, edge_rows, path_fault, with_line, subckt_lines};

use crate::flat_err::FlatErr;
use crate::model::line_check::check_line;
use crate::model::ports::{ModelIndex, Models, Ports};
use depth_first::{Edge, Successors, Walk};
use netlist::{BlifModel, Body, Command, Library, Subckt};
use std::alloc::{AllocError, Global};

// The edge of a line that has a fault.
fn stop(error: FlatErr) -> Result<Edge<()>, AllocError>
    ensures { IfOk result (λ edge. (edge ≡ stop_at tt) × IsSome (refusal_of error)) }
{
    match error {
        FlatErr::Memory => Err(AllocError),
        _ => Ok(Edge::Stop(())),
    }
}

// The edge of a line; the walk has not begun.
fn edge(
    alloc: Global,
    models: &Models<'_>,
    walk: &Walk,
    model: &BlifModel,
    line: u32,
    subckt: &Subckt,
) -> Result<Edge<()>, AllocError>
    requires index { models.now.index.now.names ≡ model_names models.now.list.now }
    requires ports { models.now.ports.now ≡ map ports_value models.now.list.now }
    requires names { AreOnce (model_names models.now.list.now) }
    requires path { walk.now.path ≡ [] }
    ensures { IfOk result (λ edge. edge ≡ line_edge models.now.list.now model.now (record { line = line; subckt = subckt.now })) }
{
    match check_line(alloc, models, walk, model, line, subckt) {
        Ok(n) => Ok(Edge::Node(n)),
        Err(error) => stop(error),
    }
}

// The edge of a command.
fn command_edge(
    alloc: Global,
    models: &Models<'_>,
    walk: &Walk,
    model: &BlifModel,
    command: &Command,
) -> Result<Edge<()>, AllocError>
    requires index { models.now.index.now.names ≡ model_names models.now.list.now }
    requires ports { models.now.ports.now ≡ map ports_value models.now.list.now }
    requires names { AreOnce (model_names models.now.list.now) }
    requires path { walk.now.path ≡ [] }
    ensures { IfOk result (λ edge. edge ≡ body_edge models.now.list.now model.now command.now.line command.now.body) }
{
    match &command.body {
        Body::Cover(_) => Ok(Edge::Pass),
        Body::Latch(_) => Ok(Edge::Pass),
        Body::Subckt(subckt) => edge(alloc, models, walk, model, command.line, subckt),
    }
}

// The edges of a model.
fn edges(
    alloc: Global,
    models: &Models<'_>,
    walk: &Walk,
    model: &BlifModel,
) -> Result<Vec<Edge<()>>, AllocError>
    requires index { models.now.index.now.names ≡ model_names models.now.list.now }
    requires ports { models.now.ports.now ≡ map ports_value models.now.list.now }
    requires names { AreOnce (model_names models.now.list.now) }
    requires path { walk.now.path ≡ [] }
    ensures { IfOk result (λ row. row.items ≡ commands_edges models.now.list.now model.now model.now.commands) }
{
    let mut row = Vec::new(alloc);
    for command in &model.commands {
        row.push(command_edge(alloc, models, walk, model, command)?)?;
    }
    Ok(row)
}

/// The edges of each model, by its number.
#[derive(Drop)]
pub(crate) struct ModelGraph {
    rows: Vec<Vec<Edge<()>>>,
}

impl ModelGraph {
    /// The graph of these models. The walk has not begun. The time is linear in the bytes of the models' lines, on average
    /// over the hashes.
    pub(crate) fn make(
        alloc: Global,
        models: &Models<'_>,
        walk: &Walk,
    ) -> Result<ModelGraph, AllocError>
        requires index { models.now.index.now.names ≡ model_names models.now.list.now }
        requires ports { models.now.ports.now ≡ map ports_value models.now.list.now }
        requires names { AreOnce (model_names models.now.list.now) }
        requires path { walk.now.path ≡ [] }
        ensures { IfOk result (λ graph. map (λ row. row.items) graph.rows.items ≡ edge_rows models.now.list.now models.now.list.now) }
    {
        let mut rows = Vec::new(alloc);
        for model in models.list {
            rows.push(edges(alloc, models, walk, model)?)?;
        }
        Ok(ModelGraph { rows })
    }
}

impl Successors for ModelGraph {
    ghost use Rattle.std.specs.Prelude.{◌<◌, length};
    ghost use Rattle.blif_flat.specs.Bodies.ModelSteps.{edges_at};

    type Stop = ();

    ghost is_node = { λ graph n. n < length graph.rows.items };

    ghost edges = { λ graph n. edges_at (map (λ row. row.items) graph.rows.items) n };

    fn successor(&self, node: u32, place: usize) -> Option<Edge<()>> {
        let row = &self.rows[node as usize];
        match row.get(place) {
            None => None,
            Some(Edge::Node(n)) => Some(Edge::Node(*n)),
            Some(Edge::Stop(())) => Some(Edge::Stop(())),
            Some(Edge::Pass) => Some(Edge::Pass),
        }
    }
}

// The first fault of a command.
fn check_command(
    alloc: Global,
    models: &Models<'_>,
    walk: &Walk,
    model: &BlifModel,
    command: &Command,
) -> Result<(), FlatErr>
    requires index { models.now.index.now.names ≡ model_names models.now.list.now }
    requires ports { models.now.ports.now ≡ map ports_value models.now.list.now }
    requires names { AreOnce (model_names models.now.list.now) }
    ensures ok { OnOk result ((lines : List SubcktLine)
        → walk_fault models.now.list.now walk.now.path model.now (with_line command.now.line command.now.body lines)
        ≡ walk_fault models.now.list.now walk.now.path model.now lines) }
    ensures err { IfErr result (λ e. (lines : List SubcktLine)
        → IsTold e (walk_fault models.now.list.now walk.now.path model.now (with_line command.now.line command.now.body lines))) }
{
    match &command.body {
        Body::Cover(_) => Ok(()),
        Body::Latch(_) => Ok(()),
        Body::Subckt(subckt) => {
            check_line(alloc, models, walk, model, command.line, subckt)?;
            Ok(())
        }
    }
}

// The first fault of a model's lines.
fn check_commands(
    alloc: Global,
    models: &Models<'_>,
    walk: &Walk,
    model: &BlifModel,
) -> Result<(), FlatErr>
    requires index { models.now.index.now.names ≡ model_names models.now.list.now }
    requires ports { models.now.ports.now ≡ map ports_value models.now.list.now }
    requires names { AreOnce (model_names models.now.list.now) }
    ensures ok { OnOk result (walk_fault models.now.list.now walk.now.path model.now (subckt_lines model.now.commands) ≡ None) }
    ensures err { IfErr result (λ e. IsTold e (walk_fault models.now.list.now walk.now.path model.now (subckt_lines model.now.commands))) }
{
    for command in &model.commands {
        check_command(alloc, models, walk, model, command)?;
    }
    Ok(())
}

// The first fault of the lines of the path's last model.
fn check_path(alloc: Global, models: &Models<'_>, walk: &Walk) -> Result<(), FlatErr>
    requires index { models.now.index.now.names ≡ model_names models.now.list.now }
    requires ports { models.now.ports.now ≡ map ports_value models.now.list.now }
    requires names { AreOnce (model_names models.now.list.now) }
    ensures ok { OnOk result (path_fault models.now.list.now walk.now.path ≡ None) }
    ensures err { IfErr result (λ e. IsTold e (path_fault models.now.list.now walk.now.path)) }
{
    match walk.last() {
        None => Ok(()),
        Some(n) => match models.list.get(n as usize) {
            None => Ok(()),
            Some(model) => check_commands(alloc, models, walk, model),
        },
    }
}

// The walk of models that have distinct names.
fn walk_slice(alloc: Global, models: &Models<'_>) -> Result<Walk, FlatErr>
    requires index { models.now.index.now.names ≡ model_names models.now.list.now }
    requires ports { models.now.ports.now ≡ map ports_value models.now.list.now }
    requires names { AreOnce (model_names models.now.list.now) }
    requires some { 0 < length models.now.list.now }
    ensures ok { IfOk result (λ w. WalksTo (record { models = models.now.list.now }) w.begun) }
    ensures children { IfOk result (λ w. AreChildrenFirst (record { models = models.now.list.now }) (reverse w.order)) }
    ensures main { IfOk result (λ w. In w.order 0) }
    ensures err { IfErr result (WalkTells (record { models = models.now.list.now })) }
{
    let mut walk = Walk::make(alloc, models.list.len())?;
    let graph = ModelGraph::make(alloc, models, &walk)?;
    match walk.visit(&graph, 0)? {
        None => Ok(walk),
        Some(_) => match check_path(alloc, models, &walk) {
            Ok(()) => unreachable!(),
            Err(error) => Err(error),
        },
    }
}

/// The walk from the main model through each model that is reached. It has the numbers of the models in the order in which their
/// walks begin, and in the order in which they end, each after the models that it contains. The index and the ports belong to
/// the library. The time is linear in the bytes of all models, on average over the hashes. It doesn't recurse: the chain of
/// models that are being walked is kept in memory.
///
/// # Errors
/// The first of F1 to F4 in the walk: `UnknownModel`, `RecursiveModel`, `UnknownFormal`, `Unconnected`. `Memory` if memory runs
/// out.
pub(crate) fn walk_models(
    alloc: Global,
    library: &Library,
    index: &ModelIndex,
    ports: &[Ports],
) -> Result<Walk, FlatErr>
    requires formed { IsWellFormed library.now }
    requires index { index.now.names ≡ model_names library.now.models }
    requires ports { ports.now ≡ map ports_value library.now.models }
    ensures ok { IfOk result (λ w. WalksTo library.now w.begun) }
    ensures children { IfOk result (λ w. AreChildrenFirst library.now (reverse w.order)) }
    ensures main { IfOk result (λ w. In w.order 0) }
    ensures err { IfErr result (WalkTells library.now) }
{
    let models = Models {
        list: &library.models,
        index,
        ports,
    };
    walk_slice(alloc, &models)
}

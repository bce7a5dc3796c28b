//! A netlist through all stages, from its text to cycles and changes, with the result and the time of each.
ghost use Rattle.cut_sets.specs.declared.limits.TheConstants.{MOST_LEAVES};
ghost use Rattle.std.specs.Prelude.{◌≡◌, ◌≤◌, length, IfOk, IfSome, Some};
ghost use Rattle.tl_text.specs.declared.logical_lines.TheConstants.{MOST_BYTES};
ghost use Rattle.param_list.specs.Parameters.{AreNamed};
ghost use Rattle.aig_core.specs.Roots.{AreRoots, roots_of};
ghost use Rattle.cover_pick.specs.Mapping.{IsMapping};
ghost use Rattle.lut_sim.specs.declared.shape.Shape.{Shape as ShapeValue};
ghost use Rattle.lut_sim.specs.Playable.{IsPlayable};

use crate::bench_err::BenchErr;
use crate::meter::Meter;
use crate::play::{play_changes, play_cycles};
use crate::sources::shape_of;
use crate::stages::{bit_functions, build_graph, flatten_library, pick_cover, read_library};
use aig_core::{Graph, Roots};
use cover_pick::Template;
use lut_sim::Shape;
use netlist::FlatLatch;
use param_list::{Params, read_params};
use spec_core::Specialiser;
use std::alloc::{AllocError, Global};
use tl_io::{DiskShelf, Shelf, Slurp, slurp};
use tl_text::MOST_BYTES;

/// What a run measures: the K of the LUTs, and how many cycles and changes it plays.
#[derive(Clone, Copy)]
pub struct Task {
    pub k: u8,
    pub cycles: u32,
    pub changes: u32,
}

fn read_file<S: Shelf>(alloc: Global, shelf: &mut S, name: &str) -> Result<Vec<u8>, BenchErr>
    ensures { IfOk result (λ text. length text.items ≤ MOST_BYTES) }
{
    match slurp(alloc, shelf, name, MOST_BYTES as u64) {
        Ok(text) => Ok(text),
        Err(Slurp::Memory) => Err(BenchErr::Memory),
        Err(Slurp::ReadFault) => Err(BenchErr::File),
        Err(Slurp::TooLong) => Err(BenchErr::Refused),
    }
}

fn start_states(alloc: Global, latches: &[FlatLatch]) -> Result<Vec<bool>, AllocError> {
    let mut states = Vec::with_capacity(alloc, latches.len())?;
    for latch in latches {
        states.push(latch.init)?;
    }
    Ok(states)
}

// A length as a `u32`, if it fits.
fn short_len(len: usize) -> Option<u32>
    ensures { IfSome result (λ n. n ≡ len) }
{
    u32::try_from(len).ok()
}

// The shape of a mapped graph's sources, if its latches have these states.
fn mapped_shape(
    graph: &Graph,
    roots: &Roots,
    template: &Template,
    params: &Params,
    inits: &[bool],
    k: u8,
) -> Option<Shape>
    requires mapping { IsMapping graph.now k (roots_of roots.now) template.now.luts template.now.bits }
    requires outputs { template.now.outputs ≡ roots.now.outputs }
    requires next { template.now.next ≡ roots.now.next }
    ensures playable { (shape : ShapeValue) → result ≡ Some shape → IsPlayable template.now shape }
    ensures latches { (shape : ShapeValue) → result ≡ Some shape → length inits.now ≡ shape.latches }
{
    let count = short_len(params.list.len())?;
    let latches = short_len(inits.len())?;
    if template.next.len() != inits.len() {
        return None;
    }
    shape_of(graph, count, latches)
}

// Maps a graph, and plays its LUTs.
fn time_graph(
    meter: Meter<'_>,
    task: Task,
    graph: &Graph,
    roots: &Roots,
    params: &Params,
    inits: &[bool],
) -> Result<(), BenchErr>
    requires least { 2 ≤ task.k }
    requires most { task.k ≤ MOST_LEAVES }
    requires roots { AreRoots graph.now (roots_of roots.now) }
    requires params { AreNamed params.now.list }
{
    let template = pick_cover(meter, graph, roots, task.k)?;
    let pack = bit_functions(meter, graph, &template, params, task.k, roots)?;
    let Some(shape) = mapped_shape(graph, roots, &template, params, inits, task.k) else {
        return Err(BenchErr::Refused);
    };
    let mut specialiser = Specialiser::make(meter.rt.alloc(), pack)?;
    play_cycles(
        meter,
        template,
        shape,
        inits,
        specialiser.image(),
        task.cycles,
    )?;
    play_changes(meter, &mut specialiser, task.changes)
}

// Takes the text of a netlist through all stages.
fn time_netlist(meter: Meter<'_>, task: Task, netlist: &[u8], list: &[u8]) -> Result<(), BenchErr>
    requires least { 2 ≤ task.k }
    requires most { task.k ≤ MOST_LEAVES }
    requires netlist { length netlist.now ≤ MOST_BYTES }
    requires list { length list.now ≤ MOST_BYTES }
{
    let library = read_library(meter, netlist)?;
    let flat = flatten_library(meter, &library)?;
    let Ok(params) = read_params(meter.rt.alloc(), list, &flat) else {
        return Err(BenchErr::Refused);
    };
    let (graph, roots) = build_graph(meter, &library, &flat, &params)?;
    let inits = start_states(meter.rt.alloc(), &flat.latches)?;
    time_graph(meter, task, &graph, &roots, &params, &inits)
}

/// Takes a netlist and its parameters, from the files of these names, through all stages, and prints a line for each.
pub fn time_stages(
    meter: Meter<'_>,
    task: Task,
    netlist: &str,
    params: &str,
) -> Result<(), BenchErr>
    requires least { 2 ≤ task.k }
    requires most { task.k ≤ MOST_LEAVES }
{
    let alloc = meter.rt.alloc();
    let mut shelf = DiskShelf::make(*meter.rt);
    let netlist = read_file(alloc, &mut shelf, netlist)?;
    let list = read_file(alloc, &mut shelf, params)?;
    time_netlist(meter, task, &netlist, &list)
}

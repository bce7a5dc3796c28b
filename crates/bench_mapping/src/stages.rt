//! The stages from a text to the functions of its bits.
ghost use Rattle.std.specs.Prelude.{◌≡◌, ◌<◌, ◌≤◌, ◌^◌, length, IfOk, OnOk};
ghost use Rattle.tl_text.specs.declared.logical_lines.TheConstants.{MOST_BYTES};
ghost use Rattle.netlist.specs.ShortPorts.{HasShortPorts};
ghost use Rattle.netlist.specs.WellFormed.{IsWellFormed};
ghost use Rattle.netlist.specs.Bounds.{IsWithinBounds};
ghost use Rattle.netlist.specs.Flat.{IsFlat};
ghost use Rattle.netlist.specs.Sound.{IsSound};
ghost use Rattle.param_list.specs.Parameters.{AreNamed, AreParameters};
ghost use Rattle.aig_core.specs.Aig.{node_count};
ghost use Rattle.aig_core.specs.Roots.{AreRoots, roots_of};
ghost use Rattle.cut_sets.specs.declared.limits.TheConstants.{MOST_LEAVES};
ghost use Rattle.cut_enum.specs.Table.{AreRows};
ghost use Rattle.depth_label.specs.Label.{AreLabelled};
ghost use Rattle.cover_pick.specs.Mapping.{IsMapping};
ghost use Rattle.cover_pick.specs.Work.{IsMakeable};

use crate::bench_err::BenchErr;
use crate::meter::Meter;
use crate::sources::param_count;
use aig_build::build;
use aig_core::{Graph, Roots};
use bit_fun::functions;
use blif_flat::flatten;
use blif_read::read;
use cover_pick::{Template, pick};
use cut_enum::{CutTable, enumerate};
use depth_label::{Labels, labels};
use flow_cert::certify;
use netlist::{Flat, Library};
use param_list::Params;
use ppc_pack::Pack;

/// The library of a text.
pub fn read_library(meter: Meter<'_>, text: &[u8]) -> Result<Library, BenchErr>
    requires { length text.now ≤ MOST_BYTES }
    ensures formed { IfOk result IsWellFormed }
    ensures few { IfOk result (λ library. length library.models < 2 ^ 32) }
    ensures short { IfOk result HasShortPorts }
{
    let start = meter.start()?;
    let Ok(library) = read(meter.rt.alloc(), text) else {
        return Err(BenchErr::Refused);
    };
    let took = meter.took(start)?;
    let models = library.models.len();
    let counts = format!(in meter.rt.alloc(); "{models} models")?;
    meter.show("read", counts.as_str(), took)?;
    Ok(library)
}

/// The flat circuit of a library.
pub fn flatten_library(meter: Meter<'_>, library: &Library) -> Result<Flat, BenchErr>
    requires formed { IsWellFormed library.now }
    requires few { length library.now.models < 2 ^ 32 }
    requires short { HasShortPorts library.now }
    ensures bounds { IfOk result (λ flat. IsWithinBounds library.now flat) }
    ensures flat { IfOk result (λ flat. IsFlat library.now flat) }
    ensures sound { OnOk result (IsSound library.now) }
{
    let start = meter.start()?;
    let Ok(flat) = flatten(meter.rt.alloc(), library) else {
        return Err(BenchErr::Refused);
    };
    let took = meter.took(start)?;
    let inputs = flat.inputs.len();
    let covers = flat.covers.len();
    let latches = flat.latches.len();
    let counts = format!(in meter.rt.alloc();
        "{inputs} inputs, {covers} covers, {latches} latches"
    )?;
    meter.show("flatten", counts.as_str(), took)?;
    Ok(flat)
}

/// The graph of a flat circuit, and its roots.
pub fn build_graph(
    meter: Meter<'_>,
    library: &Library,
    flat: &Flat,
    params: &Params,
) -> Result<(Graph, Roots), BenchErr>
    requires sound { IsSound library.now }
    requires flat { IsFlat library.now flat.now }
    requires bounds { IsWithinBounds library.now flat.now }
    requires params { AreParameters flat.now params.now.list }
    ensures { IfOk result (λ made. AreRoots made.0 (roots_of made.1)) }
{
    let start = meter.start()?;
    let Ok((graph, roots)) = build(meter.rt.alloc(), library, flat, params) else {
        return Err(BenchErr::Refused);
    };
    let took = meter.took(start)?;
    let sources = graph.sources();
    let nodes = graph.len() - 1 - sources;
    let counts = format!(in meter.rt.alloc(); "{sources} sources, {nodes} AND nodes")?;
    meter.show("graph", counts.as_str(), took)?;
    Ok((graph, roots))
}

// How many cuts all nodes of a graph have.
fn total_cuts(graph: &Graph, cuts: &CutTable) -> u64 {
    let mut total = 0u64;
    for n in 0..graph.len() {
        total = total.saturating_add(u64::from(cuts.count(n)));
    }
    total
}

/// The minimal cuts of a graph's nodes.
pub fn list_cuts(meter: Meter<'_>, graph: &Graph, k: u8) -> Result<CutTable, BenchErr>
    requires least { 2 ≤ k }
    requires most { k ≤ MOST_LEAVES }
    ensures { IfOk result (λ table. AreRows graph.now k (node_count graph.now) table) }
{
    let start = meter.start()?;
    let Ok(table) = enumerate(meter.rt.alloc(), graph, k) else {
        return Err(BenchErr::Refused);
    };
    let took = meter.took(start)?;
    let cuts = total_cuts(graph, &table);
    let counts = format!(in meter.rt.alloc(); "{cuts} cuts")?;
    meter.show("cuts", counts.as_str(), took)?;
    Ok(table)
}

// The greatest label.
fn greatest_label(graph: &Graph, labels: &Labels) -> u32 {
    let mut most = 0;
    for n in 0..graph.len() {
        most = labels.label(n).max(most);
    }
    most
}

/// The labels of a graph's nodes.
pub fn label_nodes(
    meter: Meter<'_>,
    graph: &Graph,
    table: &CutTable,
    k: u8,
) -> Result<Labels, BenchErr>
    requires least { 2 ≤ k }
    requires table { AreRows graph.now k (node_count graph.now) table.now }
    ensures { IfOk result (λ labels. AreLabelled graph.now table.now labels) }
{
    let start = meter.start()?;
    let labels = labels(meter.rt.alloc(), graph, table)?;
    let took = meter.took(start)?;
    let greatest = greatest_label(graph, &labels);
    let counts = format!(in meter.rt.alloc(); "greatest {greatest}, K {k}")?;
    meter.show("labels", counts.as_str(), took)?;
    Ok(labels)
}

// The certificate of the least depth.
fn time_certificate(
    meter: Meter<'_>,
    graph: &Graph,
    roots: &Roots,
    table: &CutTable,
    labels: &Labels,
    k: u8,
) -> Result<(), BenchErr>
    requires least { 2 ≤ k }
    requires roots { AreRoots graph.now (roots_of roots.now) }
    requires table { AreRows graph.now k (node_count graph.now) table.now }
    requires labels { AreLabelled graph.now table.now labels.now }
{
    let start = meter.start()?;
    let cert = certify(meter.rt.alloc(), graph, roots, table, labels, k)?;
    let took = meter.took(start)?;
    let depth = cert.depth;
    let counts = format!(in meter.rt.alloc(); "depth {depth}")?;
    meter.show("certificate", counts.as_str(), took)?;
    Ok(())
}

/// The chosen template of a graph for its roots.
pub fn pick_cover(
    meter: Meter<'_>,
    graph: &Graph,
    roots: &Roots,
    k: u8,
) -> Result<Template, BenchErr>
    requires least { 2 ≤ k }
    requires most { k ≤ MOST_LEAVES }
    requires roots { AreRoots graph.now (roots_of roots.now) }
    ensures mapping { IfOk result (λ t. IsMapping graph.now k (roots_of roots.now) t.luts t.bits) }
    ensures light { IfOk result (λ t. IsMakeable graph.now t.luts) }
    ensures outputs { IfOk result (λ t. t.outputs ≡ roots.now.outputs) }
    ensures next { IfOk result (λ t. t.next ≡ roots.now.next) }
{
    let table = list_cuts(meter, graph, k)?;
    let labels = label_nodes(meter, graph, &table, k)?;
    time_certificate(meter, graph, roots, &table, &labels, k)?;
    let start = meter.start()?;
    let Ok(template) = pick(meter.rt.alloc(), graph, roots, &table, &labels) else {
        return Err(BenchErr::Refused);
    };
    let took = meter.took(start)?;
    let tables = template.luts.len();
    let depth = template.depth;
    let counts = format!(in meter.rt.alloc(); "{tables} tables, depth {depth}")?;
    meter.show("cover", counts.as_str(), took)?;
    Ok(template)
}

/// The functions of a template's bits.
pub fn bit_functions(
    meter: Meter<'_>,
    graph: &Graph,
    template: &Template,
    params: &Params,
    k: u8,
    roots: &Roots,
) -> Result<Pack, BenchErr>
    requires mapping { IsMapping graph.now k (roots_of roots.now) template.now.luts template.now.bits }
    requires light { IsMakeable graph.now template.now.luts }
    requires names { AreNamed params.now.list }
{
    // The graph is made for these parameters, so their numbers are equal.
    if param_count(graph) != params.list.len() {
        return Err(BenchErr::Refused);
    }
    let start = meter.start()?;
    let pack = functions(meter.rt.alloc(), graph, template, params)?;
    let took = meter.took(start)?;
    let nodes = pack.graph().len() - 1 - pack.graph().sources();
    let bits = pack.bits().len();
    let counts = format!(in meter.rt.alloc(); "{bits} bits, {nodes} pack nodes")?;
    meter.show("functions", counts.as_str(), took)?;
    Ok(pack)
}

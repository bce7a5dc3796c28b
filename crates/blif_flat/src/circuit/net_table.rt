//! Fills the table of nets: first the instances' covers and latches, then outputs from the inside out, then inputs from the
//! outside in.
ghost use Rattle.std.specs.Prelude.{◌≡◌, ◌++◌, List, [], map, slice_get, IfOk, OnOk, ◌<◌, ◌≤◌, length, None, MatchOption, ◌^◌, ◌∷◌};
ghost use Rattle.std.specs.Option.{option_map, option_and_then};
ghost use Rattle.netlist.specs.SubcktValue.{SubcktValue};
ghost use Rattle.blif_flat.specs.Bodies.Conditions.{AreCoversOf, AreLatchesOf};
ghost use Rattle.blif_flat.specs.{ModelValue, IsNets, AreLinesOf, IsLink, IsWellFormed, IsDriven, AreInstances, IsLight, AreEmptyNets, AreAllNets};
ghost use Rattle.blif_flat.specs.{subckts_of, with_subckt, line_under, link_at, linked_out, linked_in, links_out, links_in, most_weight, gate_body as body_of, output_of_cover as cover_output, output_of_latch as latch_output, with_named, with_covers, with_latches, with_inputs, ports_value, paths_of};
ghost use Rattle.netlist.specs.LibraryValue.{LibraryValue};

use crate::circuit::instances::{Gate, Instance, gate_body};
use crate::circuit::nets::{Nets, pairs_in, pairs_out};
use crate::model::ports::Ports;
use netlist::{BlifModel, Body, Command, Connection, FlatNet, Library, Subckt};
use std::alloc::{AllocError, Global};
use std::marker::Model;
use tl_text::Name;

/// The `.subckt` lines of each model, in line order.
#[derive(Drop)]
pub(crate) struct SubcktLines<'a> {
    models: Vec<Vec<&'a Subckt>>,
}

impl<'a> Model for SubcktLines<'a> {
    ghost use Rattle.std.specs.Prelude.{List, map};
    ghost use Rattle.netlist.specs.SubcktValue.{SubcktValue};

    ghost Value = { List (List SubcktValue) };

    ghost view = { λ l. map (λ v. map (λ s. s.now) v.items) l.models.items };
}

// Adds the line of a command that places a model.
fn add_line<'a>(lines: &mut Vec<&'a Subckt>, body: &'a Body) -> Result<(), AllocError>
    ensures { OnOk result (map (λ s. s.now) lines.new.items ≡ map (λ s. s.now) lines.old.items ++ with_subckt body.now []) }
{
    match body {
        Body::Cover(_) => Ok(()),
        Body::Latch(_) => Ok(()),
        Body::Subckt(subckt) => {
            lines.push(subckt)?;
            Ok(())
        }
    }
}

// The lines of a model's commands.
fn lines_of<'a>(alloc: Global, commands: &'a [Command]) -> Result<Vec<&'a Subckt>, AllocError>
    ensures { IfOk result (λ lines. map (λ s. s.now) lines.items ≡ subckts_of commands.now) }
{
    let mut lines: Vec<&'a Subckt> = Vec::new(alloc);
    for command in commands {
        add_line(&mut lines, &command.body)?;
    }
    Ok(lines)
}

impl<'a> SubcktLines<'a> {
    /// The lines of these models. The time is linear in their commands.
    pub(crate) fn make(
        alloc: Global,
        models: &'a [BlifModel],
    ) -> Result<SubcktLines<'a>, AllocError>
        ensures { IfOk result (λ lines. lines ≡ map (λ (m : ModelValue). subckts_of m.commands) models.now) }
    {
        let mut all: Vec<Vec<&'a Subckt>> = Vec::new(alloc);
        for model in models {
            let lines = lines_of(alloc, &model.commands)?;
            all.push(lines)?;
        }
        Ok(SubcktLines { models: all })
    }

    /// The `.subckt` line with this ordinal in the model with this number, in constant time. `None` if it doesn't exist.
    pub(crate) fn line(&self, model: u32, ordinal: u32) -> Option<&'a Subckt>
        ensures { option_map (λ s. s.now) result ≡ option_and_then (λ (lines : List SubcktValue). slice_get lines ordinal) (slice_get self.now model) }
    {
        match self.models.get(model as usize) {
            None => None,
            Some(lines) => match lines.get(ordinal as usize) {
                None => None,
                Some(&line) => Some(line),
            },
        }
    }
}

// How an instance is connected.
#[derive(Drop)]
struct Link<'a> {
    // The row of the instance that it stands in.
    outer: u32,
    // The ports of its own model.
    ports: &'a Ports,
    // The connections of the line that places it.
    pairs: &'a [Connection],
}

// The line of an ordinal of the model of a row.
fn line_under<'a>(
    lines: &SubcktLines<'a>,
    instances: &[Instance],
    outer: u32,
    ordinal: u32,
) -> Option<&'a Subckt>
    ensures { option_map (λ s. s.now) result ≡ line_under lines.now instances.now outer ordinal }
{
    match instances.get(outer as usize) {
        None => None,
        Some(row) => lines.line(row.model, ordinal),
    }
}

// The instances, and the lines and the ports of all models, which say how each instance is connected.
#[derive(Drop)]
struct Placed<'a, 'b> {
    lines: &'b SubcktLines<'a>,
    ports: &'a [Ports],
    instances: &'a [Instance],
}

// How the instance of a row is connected; `None` for the first one.
fn link_of<'a>(placed: &Placed<'a, '_>, j: u32) -> Option<Link<'a>>
    ensures { (library : LibraryValue) → AreLinesOf library placed.now.lines.now placed.now.ports.now
        → MatchOption result (link_at library placed.now.instances.now j ≡ None)
        (λ link. IsLink (link_at library placed.now.instances.now j) link.outer link.ports.now link.pairs.now) }
{
    let row = placed.instances.get(j as usize)?;
    let outer = row.parent?;
    let subckt = line_under(placed.lines, placed.instances, outer, row.ordinal)?;
    let ports = placed.ports.get(row.model as usize)?;
    Some(Link {
        outer,
        ports,
        pairs: &subckt.pairs,
    })
}

// Copies the nets of the outputs of the instance of a row out.
fn link_out(placed: &Placed<'_, '_>, nets: &mut Nets, j: u32)
    requires { IsNets nets.old }
    ensures out { (library : LibraryValue) → AreLinesOf library placed.now.lines.now placed.now.ports.now
        → nets.new ≡ linked_out nets.old j (link_at library placed.now.instances.now j) }
    ensures nets { IsNets nets.new }
{
    match link_of(placed, j) {
        None => {}
        Some(link) => pairs_out(nets, link.ports, j, link.outer, link.pairs),
    }
}

// Copies the nets of the inputs of the instance of a row in.
fn link_in(placed: &Placed<'_, '_>, nets: &mut Nets, j: u32)
    requires { IsNets nets.old }
    ensures inside { (library : LibraryValue) → AreLinesOf library placed.now.lines.now placed.now.ports.now
        → nets.new ≡ linked_in nets.old j (link_at library placed.now.instances.now j) }
    ensures nets { IsNets nets.new }
{
    match link_of(placed, j) {
        None => {}
        Some(link) => pairs_in(nets, link.ports, j, link.outer, link.pairs),
    }
}

// Copies the nets of all instances' outputs to their actuals, beginning with the last row. The time is linear in the bytes of
// the connections, on average over the hashes.
fn links_out(placed: &Placed<'_, '_>, nets: &mut Nets)
    requires nets { IsNets nets.old }
    requires few { length placed.now.instances.now ≤ most_weight }
    ensures out { (library : LibraryValue) → AreLinesOf library placed.now.lines.now placed.now.ports.now
        → nets.new ≡ links_out library placed.now.instances.now nets.old (length placed.now.instances.now) }
    ensures nets { IsNets nets.new }
{
    let mut left = placed.instances.len() as u32;
    while left > 0 {
        left -= 1;
        link_out(placed, nets, left);
    }
}

// Copies the nets of the actuals to all instances' inputs, beginning with the first row. The time is linear in the bytes of the
// connections, on average over the hashes.
fn links_in(placed: &Placed<'_, '_>, nets: &mut Nets)
    requires nets { IsNets nets.old }
    requires few { length placed.now.instances.now ≤ most_weight }
    ensures inside { (library : LibraryValue) → AreLinesOf library placed.now.lines.now placed.now.ports.now
        → nets.new ≡ links_in library placed.now.instances.now nets.old (length placed.now.instances.now) }
    ensures nets { IsNets nets.new }
{
    for j in 0..placed.instances.len() {
        link_in(placed, nets, j as u32);
    }
}

// Enters a cover at its output's net.
fn set_cover(library: &Library, instances: &[Instance], nets: &mut Nets, gate: &Gate, k: u32)
    requires { IsNets nets.old }
    ensures cover { nets.new ≡ with_named nets.old gate.now.row (option_and_then cover_output (body_of library.now instances.now gate.now)) (FlatNet.Cover k) }
    ensures nets { IsNets nets.new }
{
    if let Some(Body::Cover(cover)) = gate_body(library, instances, *gate) {
        nets.set(gate.row, cover.output.bytes(), FlatNet::Cover(k));
    }
}

// Puts a latch in at its output.
fn set_latch(library: &Library, instances: &[Instance], nets: &mut Nets, gate: &Gate, k: u32)
    requires { IsNets nets.old }
    ensures latch { nets.new ≡ with_named nets.old gate.now.row (option_and_then latch_output (body_of library.now instances.now gate.now)) (FlatNet.Latch k) }
    ensures nets { IsNets nets.new }
{
    if let Some(Body::Latch(latch)) = gate_body(library, instances, *gate) {
        nets.set(gate.row, latch.output.bytes(), FlatNet::Latch(k));
    }
}

// The covers and the latches of the instances of a library.
#[derive(Drop)]
struct Gates<'a> {
    library: &'a Library,
    instances: &'a [Instance],
    covers: &'a [Gate],
    latches: &'a [Gate],
}

// Sets the nets of the covers' outputs to the covers' numbers. The time is linear in the bytes of their names, on average over
// the hashes.
fn set_covers(gates: &Gates<'_>, nets: &mut Nets)
    requires nets { IsNets nets.old }
    requires few { length gates.now.covers.now ≤ most_weight }
    ensures covers { nets.new ≡ with_covers gates.now.library.now gates.now.instances.now nets.old 0 gates.now.covers.now }
    ensures nets { IsNets nets.new }
{
    for (k, gate) in gates.covers.iter().enumerate() {
        set_cover(gates.library, gates.instances, nets, gate, k as u32);
    }
}

// Sets the nets of the latches' outputs to the latches' numbers. The time is linear in the bytes of their names, on average
// over the hashes.
fn set_latches(gates: &Gates<'_>, nets: &mut Nets)
    requires nets { IsNets nets.old }
    requires few { length gates.now.latches.now ≤ most_weight }
    ensures latches { nets.new ≡ with_latches gates.now.library.now gates.now.instances.now nets.old 0 gates.now.latches.now }
    ensures nets { IsNets nets.new }
{
    for (k, gate) in gates.latches.iter().enumerate() {
        set_latch(gates.library, gates.instances, nets, gate, k as u32);
    }
}

// Puts an input of the main model in.
fn set_input(ports: &Ports, nets: &mut Nets, name: &[u8])
    requires nets { IsNets nets.old }
    requires few { length ports.now.inputs < 2 ^ 32 }
    ensures input { nets.new ≡ with_inputs ports.now.inputs nets.old (name.now ∷ []) }
    ensures nets { IsNets nets.new }
{
    if let Some(place) = ports.input_place(name) {
        nets.set(0, name, FlatNet::Input(place as u32));
    }
}

// Puts inputs of the main model in.
fn set_names(ports: &Ports, nets: &mut Nets, names: &[Name])
    requires nets { IsNets nets.old }
    requires few { length ports.now.inputs < 2 ^ 32 }
    ensures inputs { nets.new ≡ with_inputs ports.now.inputs nets.old names.now }
    ensures nets { IsNets nets.new }
{
    for name in names {
        set_input(ports, nets, name.bytes());
    }
}

/// Sets the nets of the main model's inputs to their numbers: the names of its `.inputs`, then those of its `.clock` that aren't
/// among them. The time is linear in their bytes, on average over the hashes.
pub(crate) fn set_inputs(main: &BlifModel, ports: &Ports, nets: &mut Nets)
    requires nets { IsNets nets.old }
    requires few { length ports.now.inputs < 2 ^ 32 }
    ensures inputs { nets.new ≡ with_inputs ports.now.inputs (with_inputs ports.now.inputs nets.old main.now.inputs) main.now.clocks }
    ensures nets { IsNets nets.new }
{
    set_names(ports, nets, &main.inputs);
    set_names(ports, nets, &main.clocks);
}

/// The nets of all instances. The ports, the instances, the covers and the latches belong to the library, and the empty table has
/// slots for their names. `Err` only if memory runs out. The time is linear in the library's commands and in the bytes of the
/// names of all instances, on average over the hashes.
pub(crate) fn fill_nets<'a>(
    alloc: Global,
    library: &'a Library,
    ports: &'a [Ports],
    instances: &'a [Instance],
    covers: &'a [Gate],
    latches: &'a [Gate],
    empty: Nets,
) -> Result<Nets, AllocError>
    requires formed { IsWellFormed library.now }
    requires driven { IsDriven library.now }
    requires light { IsLight library.now }
    requires ports { ports.now ≡ map ports_value library.now.models }
    requires instances { AreInstances library.now instances.now }
    requires covers { AreCoversOf library.now instances.now covers.now }
    requires latches { AreLatchesOf library.now instances.now latches.now }
    requires few_covers { length covers.now ≤ most_weight }
    requires few_latches { length latches.now ≤ most_weight }
    requires empty { AreEmptyNets library.now (paths_of instances.now) empty }
    ensures { IfOk result (λ nets. AreAllNets library.now instances.now nets) }
{
    let main: &BlifModel = &library.models[0];
    let inputs: &Ports = &ports[0];
    let lines = SubcktLines::make(alloc, &library.models)?;
    let gates = Gates {
        library,
        instances,
        covers,
        latches,
    };
    let placed = Placed {
        lines: &lines,
        ports,
        instances,
    };
    let mut nets = empty;
    set_covers(&gates, &mut nets);
    set_latches(&gates, &mut nets);
    set_inputs(main, inputs, &mut nets);
    links_out(&placed, &mut nets);
    links_in(&placed, &mut nets);
    Ok(nets)
}

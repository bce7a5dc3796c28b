//! Names that are driven twice, and names that are read but not driven.
ghost use Rattle.std.specs.Prelude.{◌≡◌, ℕ, List, [], ◌∷◌, ◌++◌, map, None, slice_get, MatchOption};
ghost use Rattle.blif_flat.specs.{ModelValue, Tells, Adds, ArePortsOf, AreOf};
ghost use Rattle.blif_flat.specs.{model_named, ports_value, output_actuals, input_actuals, driven_pairs, read_pairs, control_names, drives, reads, all_drives, twice_in, twice_fault, undriven_in, undriven_fault, model_fault, models_fault, fault_of, models_at};
ghost use Rattle.netlist.specs.LibraryValue.{LibraryValue};

use crate::flat_err::FlatErr;
use crate::model::driven::Driven;
use crate::model::line_check::both_copied;
use crate::model::ports::{ModelIndex, Ports};
use netlist::{BlifModel, Body, Connection, Latch, Library, Subckt};
use std::alloc::Global;
use tl_text::Name;

// A line of a model, and what tells the ports of the models that it places.
#[derive(Clone, Copy)]
struct Site<'a> {
    alloc: Global,
    index: &'a ModelIndex,
    ports: &'a [Ports],
    model: &'a Name,
    line: u32,
}

// Adds a name that a line drives, unless it is driven already.
fn drive(site: &Site, driven: &mut Driven, name: &Name) -> Result<(), FlatErr>
    ensures { Adds result (twice_in site.now.model.now site.now.line driven.old (name.now ∷ [])) driven.old driven.new (name.now ∷ []) }
{
    if driven.add(site.alloc, name.bytes())? {
        return Ok(());
    }
    let (model, name) = both_copied(site.alloc, site.model, name)?;
    Err(FlatErr::DoublyDriven(model, site.line, name))
}

// Tells a name that isn't driven.
fn check_driven(site: &Site, driven: &Driven, name: &Name) -> Result<(), FlatErr>
    ensures { Tells result (undriven_in site.now.model.now site.now.line driven.now (name.now ∷ [])) }
{
    if driven.has(name.bytes()) {
        return Ok(());
    }
    let (model, name) = both_copied(site.alloc, site.model, name)?;
    Err(FlatErr::Undriven(model, site.line, name))
}

// The ports of the model of a name.
fn ports_of<'a>(index: &ModelIndex, ports: &'a [Ports], name: &Name) -> Option<&'a Ports>
    ensures { (library : LibraryValue) → AreOf library index.now.names ports.now
        → MatchOption result (model_named library.models name.now ≡ None) (λ p. ArePortsOf library.models name.now p.now) }
{
    match index.find(name.bytes()) {
        None => None,
        Some(number) => ports.get(number as usize),
    }
}

// Adds the actual of a connection of an output.
fn drive_actual(
    site: &Site,
    driven: &mut Driven,
    ports: &Ports,
    pair: &Connection,
) -> Result<(), FlatErr>
    ensures { (child : ModelValue) → ports.now ≡ ports_value child
        → Adds result (twice_in site.now.model.now site.now.line driven.old (output_actuals child (pair.now ∷ [])))
        driven.old driven.new (output_actuals child (pair.now ∷ [])) }
{
    if ports.is_output(pair.formal.bytes()) {
        drive(site, driven, &pair.actual)
    } else {
        Ok(())
    }
}

fn drive_actuals(
    site: &Site,
    driven: &mut Driven,
    ports: &Ports,
    pairs: &[Connection],
) -> Result<(), FlatErr>
    ensures { (child : ModelValue) → ports.now ≡ ports_value child
        → Adds result (twice_in site.now.model.now site.now.line driven.old (output_actuals child pairs.now))
        driven.old driven.new (output_actuals child pairs.now) }
{
    for pair in pairs {
        drive_actual(site, driven, ports, pair)?;
    }
    Ok(())
}

// Tells the actual of a connection of an input where it isn't driven.
fn check_actual(
    site: &Site,
    driven: &Driven,
    ports: &Ports,
    pair: &Connection,
) -> Result<(), FlatErr>
    ensures { (child : ModelValue) → ports.now ≡ ports_value child
        → Tells result (undriven_in site.now.model.now site.now.line driven.now (input_actuals child (pair.now ∷ []))) }
{
    if ports.is_input(pair.formal.bytes()) {
        check_driven(site, driven, &pair.actual)
    } else {
        Ok(())
    }
}

fn check_actuals(
    site: &Site,
    driven: &Driven,
    ports: &Ports,
    pairs: &[Connection],
) -> Result<(), FlatErr>
    ensures { (child : ModelValue) → ports.now ≡ ports_value child
        → Tells result (undriven_in site.now.model.now site.now.line driven.now (input_actuals child pairs.now)) }
{
    for pair in pairs {
        check_actual(site, driven, ports, pair)?;
    }
    Ok(())
}

fn check_names(site: &Site, driven: &Driven, names: &[Name]) -> Result<(), FlatErr>
    ensures { Tells result (undriven_in site.now.model.now site.now.line driven.now names.now) }
{
    for name in names {
        check_driven(site, driven, name)?;
    }
    Ok(())
}

fn drive_subckt(site: &Site, driven: &mut Driven, subckt: &Subckt) -> Result<(), FlatErr>
    ensures { (library : LibraryValue) → AreOf library site.now.index.now.names site.now.ports.now
        → Adds result (twice_in site.now.model.now site.now.line driven.old (driven_pairs (model_named library.models subckt.now.model) subckt.now.pairs))
        driven.old driven.new (driven_pairs (model_named library.models subckt.now.model) subckt.now.pairs) }
{
    match ports_of(site.index, site.ports, &subckt.model) {
        None => Ok(()),
        Some(child) => drive_actuals(site, driven, child, &subckt.pairs),
    }
}

// Adds the names that a command drives.
fn drive_body(site: &Site, driven: &mut Driven, body: &Body) -> Result<(), FlatErr>
    ensures { (library : LibraryValue) → AreOf library site.now.index.now.names site.now.ports.now
        → Adds result (twice_in site.now.model.now site.now.line driven.old (drives library body.now)) driven.old driven.new (drives library body.now) }
{
    match body {
        Body::Cover(cover) => drive(site, driven, &cover.output),
        Body::Latch(latch) => drive(site, driven, &latch.output),
        Body::Subckt(subckt) => drive_subckt(site, driven, subckt),
    }
}

// Adds the names that a model's commands drive.
fn drive_commands(
    alloc: Global,
    index: &ModelIndex,
    ports: &[Ports],
    model: &BlifModel,
    driven: &mut Driven,
) -> Result<(), FlatErr>
    ensures { (library : LibraryValue) → AreOf library index.now.names ports.now
        → Adds result (twice_fault library model.now.name driven.old model.now.commands) driven.old driven.new (all_drives library model.now.commands) }
{
    for command in &model.commands {
        let site = Site {
            alloc,
            index,
            ports,
            model: &model.name,
            line: command.line,
        };
        drive_body(&site, driven, &command.body)?;
    }
    Ok(())
}

fn check_subckt(site: &Site, driven: &Driven, subckt: &Subckt) -> Result<(), FlatErr>
    ensures { (library : LibraryValue) → AreOf library site.now.index.now.names site.now.ports.now
        → Tells result (undriven_in site.now.model.now site.now.line driven.now (read_pairs (model_named library.models subckt.now.model) subckt.now.pairs)) }
{
    match ports_of(site.index, site.ports, &subckt.model) {
        None => Ok(()),
        Some(child) => check_actuals(site, driven, child, &subckt.pairs),
    }
}

fn check_latch(site: &Site, driven: &Driven, latch: &Latch) -> Result<(), FlatErr>
    ensures { Tells result (undriven_in site.now.model.now site.now.line driven.now (latch.now.input ∷ control_names latch.now.control)) }
{
    check_driven(site, driven, &latch.input)?;
    match &latch.control {
        None => Ok(()),
        Some(control) => check_driven(site, driven, control),
    }
}

// Tells a name that a command reads and that isn't driven.
fn check_body(site: &Site, driven: &Driven, body: &Body) -> Result<(), FlatErr>
    ensures { (library : LibraryValue) → AreOf library site.now.index.now.names site.now.ports.now
        → Tells result (undriven_in site.now.model.now site.now.line driven.now (reads library body.now)) }
{
    match body {
        Body::Cover(cover) => check_names(site, driven, &cover.inputs),
        Body::Latch(latch) => check_latch(site, driven, latch),
        Body::Subckt(subckt) => check_subckt(site, driven, subckt),
    }
}

// Tells a name that a model's commands read and that isn't driven.
fn check_commands(
    alloc: Global,
    index: &ModelIndex,
    ports: &[Ports],
    model: &BlifModel,
    driven: &Driven,
) -> Result<(), FlatErr>
    ensures { (library : LibraryValue) → AreOf library index.now.names ports.now
        → Tells result (undriven_fault library model.now.name driven.now model.now.commands) }
{
    for command in &model.commands {
        let site = Site {
            alloc,
            index,
            ports,
            model: &model.name,
            line: command.line,
        };
        check_body(&site, driven, &command.body)?;
    }
    Ok(())
}

// Tells the first fault of a model's drivers. The own ports are those of this model.
fn check_model(
    alloc: Global,
    index: &ModelIndex,
    ports: &[Ports],
    model: &BlifModel,
    own: &Ports,
) -> Result<(), FlatErr>
    requires { own.now ≡ ports_value model.now }
    ensures { (library : LibraryValue) → AreOf library index.now.names ports.now → Tells result (model_fault library model.now) }
{
    let mut driven = Driven::inputs(alloc, own)?;
    drive_commands(alloc, index, ports, model, &mut driven)?;
    check_commands(alloc, index, ports, model, &driven)?;
    let site = Site {
        alloc,
        index,
        ports,
        model: &model.name,
        line: model.line,
    };
    check_names(&site, &driven, &model.outputs)
}

fn check_number(
    alloc: Global,
    library: &Library,
    index: &ModelIndex,
    ports: &[Ports],
    number: u32,
) -> Result<(), FlatErr>
    requires { AreOf library.now index.now.names ports.now }
    ensures { Tells result (fault_of library.now (slice_get library.now.models number)) }
{
    match library.models.get(number as usize) {
        None => Ok(()),
        Some(model) => check_model(alloc, index, ports, model, &ports[number as usize]),
    }
}

/// Reports the first fault in the drivers of the models with these numbers, in this order. In each model these are the first
/// name that a line drives although it is already driven, then the first name that a line reads although it isn't driven, then
/// the first output that isn't driven. The index and the ports belong to the library. `Err(Memory)` if memory runs out. The
/// time is linear in the models of the order, on average over the hashes.
pub(crate) fn check_drivers(
    alloc: Global,
    library: &Library,
    index: &ModelIndex,
    ports: &[Ports],
    order: &[u32],
) -> Result<(), FlatErr>
    requires { AreOf library.now index.now.names ports.now }
    ensures { Tells result (models_fault library.now (models_at library.now.models order.now)) }
{
    for &number in order {
        check_number(alloc, library, index, ports, number)?;
    }
    Ok(())
}

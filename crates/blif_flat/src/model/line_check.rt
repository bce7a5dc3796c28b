//! The first fault of a `.subckt` line: F1 to F4.
ghost use Rattle.std.specs.Prelude.{◌≡◌, ◌∷◌, ◌++◌, [], IfOk, OnOk, IfErr, None, ◌<◌, length, map, slice_get, Some};
ghost use Rattle.std.specs.Option.{option_map};
ghost use Rattle.depth_first.specs.Walk.{from_node};
ghost use Rattle.blif_flat.specs.Bodies.Conditions.{OfModel};
ghost use Rattle.blif_flat.specs.{UnknownFormal as unknown_formal_of, Unconnected as unconnected_of, IsTold, AreOnce, RecursiveModel as recursive_model_of, IsPlacing};
ghost use Rattle.blif_flat.specs.{ports_value, foreign_formal, open_among, ports_fault, model_names, with_name_of, names_at, line_fault};

use crate::flat_err::FlatErr;
use crate::model::ports::{Models, Ports, formal_index};
use depth_first::Walk;
use netlist::{BlifModel, Connection, Subckt};
use std::alloc::{AllocError, Global};
use tl_fault::Names;
use tl_text::{Name, NameIndex};

/// A copy of a name.
pub(crate) fn copied(alloc: Global, name: &Name) -> Result<Name, AllocError>
    ensures { IfOk result (λ copy. copy ≡ name.now) }
{
    Name::make(alloc, name.bytes())
}

/// Copies of the name of a model and of one that a line of it tells.
pub(crate) fn both_copied(
    alloc: Global,
    model: &Name,
    name: &Name,
) -> Result<(Name, Name), AllocError>
    ensures { IfOk result (λ copies. (copies.0 ≡ model.now) × (copies.1 ≡ name.now)) }
{
    let model = copied(alloc, model)?;
    Ok((model, copied(alloc, name)?))
}

// F3 of a line.
fn check_formals(
    alloc: Global,
    model: &Name,
    line: u32,
    ports: &Ports,
    pairs: &[Connection],
) -> Result<(), FlatErr>
    ensures ok { OnOk result (foreign_formal ports.now pairs.now ≡ None) }
    ensures err { IfErr result (λ e. IsTold e (option_map (λ name. unknown_formal_of model.now line name) (foreign_formal ports.now pairs.now))) }
{
    for pair in pairs {
        let formal = pair.formal.bytes();
        if !(ports.is_input(formal) || ports.has_output(formal)) {
            let (model, name) = both_copied(alloc, model, &pair.formal)?;
            return Err(FlatErr::UnknownFormal(model, line, name));
        }
    }
    Ok(())
}

// F4 of a line, for some of the inputs.
fn check_inputs(
    alloc: Global,
    model: &Name,
    line: u32,
    index: &NameIndex,
    names: &[Name],
) -> Result<(), FlatErr>
    ensures ok { OnOk result (open_among index.now names.now ≡ None) }
    ensures err { IfErr result (λ e. IsTold e (option_map (λ name. unconnected_of model.now line name) (open_among index.now names.now))) }
{
    for name in names {
        if !index.has(name.bytes()) {
            let (model, name) = both_copied(alloc, model, name)?;
            return Err(FlatErr::Unconnected(model, line, name));
        }
    }
    Ok(())
}

/// F3 and F4 of a `.subckt` line with a child model. The time is linear in the bytes of the line and of the child's inputs, on
/// average over the hashes.
pub(crate) fn check_ports(
    alloc: Global,
    model: &BlifModel,
    line: u32,
    subckt: &Subckt,
    child: &BlifModel,
    ports: &Ports,
) -> Result<(), FlatErr>
    requires { ports.now ≡ ports_value child.now }
    ensures ok { OnOk result (ports_fault model.now line subckt.now child.now ≡ None) }
    ensures err { IfErr result (λ e. IsTold e (ports_fault model.now line subckt.now child.now)) }
{
    check_formals(alloc, &model.name, line, ports, &subckt.pairs)?;
    let index = formal_index(alloc, ports.key(), &subckt.pairs)?;
    check_inputs(alloc, &model.name, line, &index, &child.inputs)?;
    check_inputs(alloc, &model.name, line, &index, &child.clocks)
}

// Adds the name of the model of a number.
fn add_name(
    alloc: Global,
    models: &[BlifModel],
    number: u32,
    names: &mut Vec<Name>,
) -> Result<(), AllocError>
    ensures { OnOk result (names.new.items ≡ with_name_of names.old.items (slice_get models.now number)) }
{
    match models.get(number as usize) {
        None => Ok(()),
        Some(model) => {
            names.push(copied(alloc, &model.name)?)?;
            Ok(())
        }
    }
}

// The names of the models of several numbers.
fn names_of(alloc: Global, models: &[BlifModel], numbers: &[u32]) -> Result<Vec<Name>, AllocError>
    ensures { IfOk result (λ names. names.items ≡ names_at models.now numbers.now) }
{
    let mut names: Vec<Name> = Vec::new(alloc);
    for &number in numbers {
        add_name(alloc, models, number, &mut names)?;
    }
    Ok(names)
}

// F2 of a line that places the model of a number.
fn recursive_model(
    alloc: Global,
    models: &[BlifModel],
    walk: &Walk,
    n: u32,
    name: &Name,
) -> Result<FlatErr, AllocError>
    ensures { IfOk result (λ e. e ≡ recursive_model_of (names_at models.now (from_node n walk.now.path) ++ name.now ∷ [])) }
{
    let nodes = walk.path_from(alloc, n)?;
    let mut chain = names_of(alloc, models, &nodes)?;
    chain.push(copied(alloc, name)?)?;
    Ok(FlatErr::RecursiveModel(Names::make(chain)))
}

// F3 and F4 of a line that places the model of a number.
fn check_child(
    alloc: Global,
    models: &Models<'_>,
    n: u32,
    model: &BlifModel,
    line: u32,
    subckt: &Subckt,
) -> Result<(), FlatErr>
    requires within { n < length models.now.list.now }
    requires ports { models.now.ports.now ≡ map ports_value models.now.list.now }
    ensures ok { OnOk result (OfModel models.now.list.now n (λ child. ports_fault model.now line subckt.now child ≡ None)) }
    ensures err { IfErr result (λ e. OfModel models.now.list.now n (λ child. IsTold e (ports_fault model.now line subckt.now child))) }
{
    let child = &models.list[n as usize];
    let child_ports = &models.ports[n as usize];
    check_ports(alloc, model, line, subckt, child, child_ports)
}

/// The number of the model that a line refers to, or the line's first fault of F1 to F4. The models on the walk's path are being
/// walked.
pub(crate) fn check_line(
    alloc: Global,
    models: &Models<'_>,
    walk: &Walk,
    model: &BlifModel,
    line: u32,
    subckt: &Subckt,
) -> Result<u32, FlatErr>
    requires index { models.now.index.now.names ≡ model_names models.now.list.now }
    requires ports { models.now.ports.now ≡ map ports_value models.now.list.now }
    requires names { AreOnce (model_names models.now.list.now) }
    ensures ok { IfOk result (λ n. IsPlacing models.now.list.now walk.now.path model.now (record { line = line; subckt = subckt.now }) n) }
    ensures err { IfErr result (λ e. IsTold e
        (line_fault (record { models = models.now.list.now }) (names_at models.now.list.now walk.now.path) model.now
        (record { line = line; subckt = subckt.now }))) }
{
    match models.index.find(subckt.model.bytes()) {
        None => {
            let (model, name) = both_copied(alloc, &model.name, &subckt.model)?;
            Err(FlatErr::UnknownModel(model, line, name))
        }
        Some(n) => {
            if walk.is_on_path(n) {
                return Err(recursive_model(alloc, models.list, walk, n, &subckt.model)?);
            }
            check_child(alloc, models, n, model, line, subckt)?;
            Ok(n)
        }
    }
}

//! The ports of a flat circuit: its outputs, its regular inputs and its clock nets.
ghost use Rattle.std.specs.Prelude.{◌≡◌, ◌<◌, ◌^◌, ℕ, Bool, List, [], ◌∷◌, ◌++◌, length, map, filter, max, not, IfOk, OnOk, slice_get};
ghost use Rattle.blif_flat.specs.{In, OutPort as OutPortValue, IsDriven, AreInstances, IsNets, AreAllNets, AreNetsOf, IsRegular};
ghost use Rattle.blif_flat.specs.{inputs_of, has_name, paths_of, with_control_net, underscores as underscores_of, most_underscores, regular_places, out_port as port_of, outputs_or, with_unmarked, unmarked_after};

use crate::circuit::instances::Instance;
use crate::circuit::nets::Nets;
use crate::clock::clocks::copies;
use crate::field::flat_gates::net_at;
use netlist::{BlifModel, Library, OutPort};
use std::alloc::{AllocError, Global};
use tl_text::Name;

// The port of an output of the main model.
fn out_port(alloc: Global, nets: &Nets, numbers: &[u32], name: &Name) -> Result<OutPort, AllocError>
    requires { IsNets nets.now }
    ensures { IfOk result (λ port. port ≡ port_of numbers.now nets.now name.now) }
{
    let copy = Name::make(alloc, name.bytes())?;
    Ok(OutPort {
        name: copy,
        net: net_at(nets, numbers, 0, name.bytes()),
    })
}

// The ports of the outputs of the main model.
fn out_ports(
    alloc: Global,
    nets: &Nets,
    numbers: &[u32],
    names: &[Name],
) -> Result<Vec<OutPort>, AllocError>
    requires { IsNets nets.now }
    ensures { IfOk result (λ ports. ports.items ≡ map (port_of numbers.now nets.now) names.now) }
{
    let mut ports = Vec::new(alloc);
    for name in names {
        let port = out_port(alloc, nets, numbers, name)?;
        ports.push(port)?;
    }
    Ok(ports)
}

// The names of the outputs of the main model, and none where there is no model.
fn main_outputs(library: &Library) -> &[Name]
    ensures { result.now ≡ outputs_or (slice_get library.now.models 0) }
{
    match library.models.first() {
        None => &[],
        Some(main) => &main.outputs,
    }
}

/// The outputs of the main model, with their nets.
pub(crate) fn flat_outputs(
    alloc: Global,
    library: &Library,
    instances: &[Instance],
    nets: &Nets,
    numbers: &[u32],
) -> Result<Vec<OutPort>, AllocError>
    requires driven { IsDriven library.now }
    requires instances { AreInstances library.now instances.now }
    requires nets { AreAllNets library.now instances.now nets.now }
    ensures names { IfOk result (λ flat. (r : IsRegular library.now numbers.now) → map (λ (o : OutPortValue). o.name) flat.items ≡ r.main.outputs) }
    ensures nets { IfOk result (λ flat. (r : IsRegular library.now numbers.now)
        → AreNetsOf library.now (regular_places library.now r.main r.test (paths_of instances.now)) []
        r.main.outputs (map (λ (o : OutPortValue). o.net) flat.items)) }
{
    let ports = out_ports(alloc, nets, numbers, main_outputs(library))?;
    Ok(ports)
}

// Adds a copy of a name.
fn add_copy(alloc: Global, names: &mut Vec<Name>, name: &Name) -> Result<(), AllocError>
    ensures { OnOk result (names.new.items ≡ names.old.items ++ name.now ∷ []) }
{
    let copy = Name::make(alloc, name.bytes())?;
    names.push(copy)?;
    Ok(())
}

// Adds a copy of a name where there is a mark at this place and it is off.
fn add_unmarked(
    alloc: Global,
    names: &mut Vec<Name>,
    marks: &[bool],
    i: usize,
    name: &Name,
) -> Result<(), AllocError>
    ensures { OnOk result (names.new.items ≡ with_unmarked names.old.items (slice_get marks.now i) name.now) }
{
    match marks.get(i) {
        None => Ok(()),
        Some(mark) => {
            if *mark {
                return Ok(());
            }
            add_copy(alloc, names, name)
        }
    }
}

// Copies of the names whose marks are off, in order.
fn unmarked(alloc: Global, names: &[Name], marks: &[bool]) -> Result<Vec<Name>, AllocError>
    ensures { IfOk result (λ kept. kept.items ≡ unmarked_after [] names.now marks.now) }
{
    let mut kept = Vec::new(alloc);
    for (i, name) in names.iter().enumerate() {
        add_unmarked(alloc, &mut kept, marks, i, name)?;
    }
    Ok(kept)
}

/// The names of a model's `.inputs` whose marks are off, in order. Each input has a mark.
pub(crate) fn regular_inputs(
    alloc: Global,
    model: &BlifModel,
    marks: &[bool],
) -> Result<Vec<Name>, AllocError>
    ensures { IfOk result (λ names. (test : List ℕ → Bool) → marks.now ≡ map test (inputs_of model.now)
        → names.items ≡ filter (λ name. not (test name)) model.now.inputs) }
{
    let names = unmarked(alloc, &model.inputs, marks)?;
    Ok(names)
}

// Is a name one of these?
fn is_one_of(names: &[Name], name: &Name) -> bool
    ensures { result ≡ has_name names.now name.now }
{
    names.iter().any(|other| name.bytes() == other.bytes())
}

/// The names of a model's `.clock`, and the name of the control if it isn't one of them.
pub(crate) fn clock_names(
    alloc: Global,
    model: &BlifModel,
    control: &Option<Name>,
) -> Result<Vec<Name>, AllocError>
    ensures { IfOk result (λ names. names.items ≡ with_control_net model.now.clocks control.now) }
{
    let mut names = copies(alloc, &model.clocks)?;
    match control {
        None => Ok(names),
        Some(name) => {
            if is_one_of(&model.clocks, name) {
                return Ok(names);
            }
            add_copy(alloc, &mut names, name)?;
            Ok(names)
        }
    }
}

// How many underscores a name begins with.
fn underscores(name: &[u8]) -> u32
    requires { length name.now < 2 ^ 32 }
    ensures { result ≡ underscores_of name.now }
{
    let mut count = 0;
    for &byte in name {
        if byte != b'_' {
            return count;
        }
        count += 1;
    }
    count
}

// The greatest number of leading underscores of names, and at least this one.
fn most_of(names: &[Name], least: u32) -> u32
    requires { (name : List ℕ) → In names.now name → length name < 2 ^ 32 }
    ensures { result ≡ max least (most_underscores names.now) }
{
    let mut most = least;
    for name in names {
        most = most.max(underscores(name.bytes()));
    }
    most
}

/// The greatest number of leading underscores in a port name of a model.
pub(crate) fn most_underscores(model: &BlifModel) -> u32
    requires short { (name : List ℕ) → In (model.now.inputs ++ (model.now.clocks ++ model.now.outputs)) name → length name < 2 ^ 32 }
    ensures { result ≡ most_underscores (model.now.inputs ++ (model.now.clocks ++ model.now.outputs)) }
{
    most_of(
        &model.outputs,
        most_of(&model.clocks, most_of(&model.inputs, 0)),
    )
}

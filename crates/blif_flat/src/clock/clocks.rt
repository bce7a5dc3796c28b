//! The inputs of a model, and which of them are clock nets.
ghost use Rattle.std.specs.Prelude.{◌≡◌, ◌<◌, ℕ, ◌++◌, ◌||◌, not, filter, length, map, slice_get, Some, IfOk, OnOk};
ghost use Rattle.std.specs.Option.{option_and_then};
ghost use Rattle.blif_flat.specs.{has_name, inputs_of, ports_value, input_name, is_control as is_control_of, clock_test};

use crate::model::ports::Ports;
use netlist::BlifModel;
use std::alloc::{AllocError, Global};
use tl_text::{Name, NameIndex};

/// Copies of names, in order. `Err` only if memory runs out.
pub(crate) fn copies(alloc: Global, names: &[Name]) -> Result<Vec<Name>, AllocError>
    ensures { IfOk result (λ all. all.items ≡ names.now) }
{
    let mut all = Vec::new(alloc);
    for name in names {
        all.push(Name::make(alloc, name.bytes())?)?;
    }
    Ok(all)
}

// Is the name in the `.inputs` of the model of these ports?
fn is_listed(model: &BlifModel, ports: &Ports, name: &[u8]) -> bool
    requires { ports.now ≡ ports_value model.now }
    ensures { result ≡ has_name model.now.inputs name.now }
{
    match ports.input_place(name) {
        None => false,
        Some(place) => place < model.inputs.len(),
    }
}

// Adds copies of the names of the `.clock` that aren't in the `.inputs`.
fn add_clocks(
    alloc: Global,
    all: &mut Vec<Name>,
    model: &BlifModel,
    ports: &Ports,
) -> Result<(), AllocError>
    requires { ports.now ≡ ports_value model.now }
    ensures { OnOk result (all.new.items ≡ all.old.items ++ filter (λ name. not (has_name model.now.inputs name)) model.now.clocks) }
{
    for name in &model.clocks {
        if !is_listed(model, ports, name.bytes()) {
            all.push(Name::make(alloc, name.bytes())?)?;
        }
    }
    Ok(())
}

/// Copies of the inputs of a model with these ports: the names of its `.inputs`, then those of its `.clock` that aren't among
/// them. `Err` only if memory runs out. The time is linear in their bytes, on average over the hashes.
pub(crate) fn all_inputs(
    alloc: Global,
    model: &BlifModel,
    ports: &Ports,
) -> Result<Vec<Name>, AllocError>
    requires { ports.now ≡ ports_value model.now }
    ensures { IfOk result (λ inputs. inputs.items ≡ inputs_of model.now) }
{
    let mut inputs = copies(alloc, &model.inputs)?;
    add_clocks(alloc, &mut inputs, model, ports)?;
    Ok(inputs)
}

// Is this the name of the input of a number?
fn is_control(inputs: &[Name], control: Option<u32>, name: &[u8]) -> bool
    requires within { (j : ℕ) → control ≡ Some j → j < length inputs.now }
    ensures { result ≡ is_control_of (option_and_then (slice_get inputs.now) control) name.now }
{
    match control {
        None => false,
        Some(j) => name == inputs[j as usize].bytes(),
    }
}

// For each name, is it among the names of an index, or the input of a number?
fn marks_of(
    alloc: Global,
    clocks: &NameIndex,
    inputs: &[Name],
    control: Option<u32>,
) -> Result<Vec<bool>, AllocError>
    requires within { (j : ℕ) → control ≡ Some j → j < length inputs.now }
    ensures { IfOk result (λ marks. marks.items
        ≡ map (λ name. has_name clocks.now name || is_control_of (option_and_then (slice_get inputs.now) control) name) inputs.now) }
{
    let mut marks = Vec::new(alloc);
    for input in inputs {
        let name = input.bytes();
        marks.push(clocks.has(name) || is_control(inputs, control, name))?;
    }
    Ok(marks)
}

/// For each input of a model, whether it is a name of its `.clock` or the input of this number. The inputs are those of the
/// model. `Err` only if memory runs out. The time is linear in their bytes, on average over the hashes.
pub(crate) fn clock_marks(
    alloc: Global,
    model: &BlifModel,
    inputs: &[Name],
    control: Option<u32>,
) -> Result<Vec<bool>, AllocError>
    requires inputs { inputs.now ≡ inputs_of model.now }
    requires within { (j : ℕ) → control ≡ Some j → j < length inputs.now }
    ensures { IfOk result (λ marks. marks.items ≡ map (clock_test model.now (input_name model.now control)) (inputs_of model.now)) }
{
    let clocks = NameIndex::of(alloc, &model.clocks)?;
    marks_of(alloc, &clocks, inputs, control)
}

//! The inputs that aren't parameters.
ghost use Rattle.std.specs.Prelude.{◌≡◌, ◌<◌, ◌^◌, length, map, Some, IfOk, slice_get};
ghost use Rattle.list_laws.specs.Members.{In};
ghost use Rattle.tl_text.specs.Once.{AreOnce};
ghost use Rattle.param_list.specs.declared.params.Param.{Param as ParamValue};
ghost use Rattle.param_list.specs.Parameters.{param_names, regular_names, AreParameters, IsSplit};
ghost use Rattle.param_list.specs.RegularPlaces.{AreRegularPlaces, marks_of, off_places};

use crate::params::{Param, Params};
use netlist::Flat;
use std::alloc::{AllocError, Global};
use tl_text::Name;

// For each input, whether it is a parameter.
fn marks(alloc: Global, inputs: &[Name], params: &[Param]) -> Result<Vec<bool>, AllocError>
    requires once { AreOnce inputs.now }
    requires places { (p : ParamValue) → In params.now p → slice_get inputs.now p.input ≡ Some p.name }
    ensures { IfOk result (λ marks. marks.items ≡ marks_of inputs.now (param_names params.now)) }
{
    let mut marks = vec![in alloc; false; inputs.len()]?;
    for param in params {
        marks[param.input as usize] = true;
    }
    Ok(marks)
}

// The places of the marks that are false.
fn off(alloc: Global, marks: &[bool]) -> Result<Vec<u32>, AllocError>
    requires { length marks.now < 2 ^ 32 }
    ensures { IfOk result (λ places. places.items ≡ off_places 0 marks.now) }
{
    let mut places = Vec::new(alloc);
    for (i, mark) in marks.iter().enumerate() {
        if !*mark {
            places.push(i as u32)?;
        }
    }
    Ok(places)
}

// The places of the inputs that have no mark.
fn unmarked(alloc: Global, flat: &Flat, params: &Params) -> Result<Vec<u32>, AllocError>
    requires few { length flat.now.inputs < 2 ^ 32 }
    requires once { AreOnce flat.now.inputs }
    requires are { AreParameters flat.now params.now.list }
    ensures { IfOk result (λ places. places.items ≡ off_places 0 (marks_of flat.now.inputs (param_names params.now.list))) }
{
    let marks = marks(alloc, &flat.inputs, &params.list)?;
    let places = off(alloc, &marks)?;
    Ok(places)
}

/// The places of the inputs that aren't parameters, ascending. The names of the inputs differ, there are fewer than 2^32, and
/// the parameters are among them. `Err` only if memory runs out. Time and memory are linear in the inputs and the parameters.
///
/// The names at these places, and then those of the parameters, are the names of the inputs, each once.
pub fn regular(alloc: Global, flat: &Flat, params: &Params) -> Result<Vec<u32>, AllocError>
    requires few { length flat.now.inputs < 2 ^ 32 }
    requires once { AreOnce flat.now.inputs }
    requires are { AreParameters flat.now params.now.list }
    ensures places { IfOk result (λ places. AreRegularPlaces flat.now params.now.list places.items) }
    ensures names { IfOk result (λ places.
        map (slice_get flat.now.inputs) places.items ≡ map (λ name. Some name) (regular_names flat.now params.now.list)) }
    ensures count { IfOk result (λ places. length places.items ≡ length (regular_names flat.now params.now.list)) }
    ensures split { IsSplit flat.now params.now.list }
{
    let places = unmarked(alloc, flat, params)?;
    Ok(places)
}

//! Flattening.
ghost use Rattle.std.specs.Prelude.{◌≡◌, ◌<◌, ◌^◌, Some, IfOk, IfErr, length, map, slice_get};
ghost use Rattle.netlist.specs.ShortPorts.{HasShortPorts};
ghost use Rattle.blif_flat.specs.Bodies.Conditions.{IsIndexed};
ghost use Rattle.blif_flat.specs.{OrMemory, IsWellFormed, IsFault, HasOneFault, HasNoFault, IsWithinBounds, IsLight, IsChecked, IsFlat, HasValues, HasOneFlat, HasCycles, HasOneCycle, IsSound};
ghost use Rattle.blif_flat.specs.{refusal_of};

use crate::circuit::connect::connect;
use crate::clock::clock_check::check_clocks;
use crate::clock::clocks::all_inputs;
use crate::field::assemble::assemble;
use crate::flat_err::FlatErr;
use crate::model::checks::check_models;
use crate::model::ports::{ModelIndex, Ports, all_ports};
use netlist::{BlifModel, Flat, Library, cycle_law, flat_law};
use std::alloc::Global;

// The main model.
fn main_model(library: &Library) -> &BlifModel
    requires { 0 < length library.now.models }
    ensures { slice_get library.now.models 0 ≡ Some result.now }
{
    &library.models[0]
}

// The ports of the main model.
fn main_ports(ports: &[Ports]) -> &Ports
    requires { 0 < length ports.now }
    ensures { slice_get ports.now 0 ≡ Some result.now }
{
    &ports[0]
}

// The flat circuit of a library whose models are checked. The index and the ports belong to the library.
fn flat_circuit(
    alloc: Global,
    library: &Library,
    index: &ModelIndex,
    ports: &[Ports],
) -> Result<Flat, FlatErr>
    requires indexed { IsIndexed library.now index.now.names ports.now }
    requires short { HasShortPorts library.now }
    requires checked { IsChecked library.now }
    ensures flat { IfOk result (λ flat. IsFlat library.now flat) }
    ensures sound { IfOk result (λ flat. IsSound library.now) }
    ensures clean { IfOk result (λ flat. HasNoFault library.now) }
    ensures err { IfErr result (OrMemory refusal_of (IsFault library.now)) }
{
    let main = main_model(library);
    let circuit = connect(alloc, library, index, ports)?;
    let inputs = all_inputs(alloc, main, main_ports(ports))?;
    let clocks = check_clocks(alloc, library, main, &circuit, &inputs)?;
    let flat = assemble(alloc, library, main, &circuit, &inputs, &clocks)?;
    Ok(flat)
}

/// The flat circuit of a library, whose first model is the main one.
///
/// The library must be well formed, as every library that a reader returns. It has a model, and no two models have the same
/// name. No port is repeated in a list, each row of a cover has a cell per input, and no formal is repeated in a `.subckt`
/// line. It has fewer than 2^32 models, and each port name of the main model has fewer than 2^32 bytes.
///
/// Unless memory runs out, the result is `Ok` exactly when the library is sound and not too heavy, that is, when it has no
/// fault. A library has at most one fault.
///
/// The law of the cycle relation holds in every sound library: for all values of inputs and latches, values of all names exist
/// that fit them, and the values of driven names are unique. The flat circuit's fields are those of the library's hierarchical
/// names, and a sound library has at most one such circuit. Evaluating its covers in its order gives these values, and so the
/// outputs and the next states of each cycle, and of each run from the latches' inits. The lengths of its lists are bounded,
/// and its nets and its order are in range (`netlist/specs/Bounds.antt`).
///
/// The time is linear in the library's bytes and in the bytes of the names of all instances, on average over the hashes. All
/// stacks are kept in memory.
///
/// # Errors
/// The first of F1 to F4 in the walk, L2, F5 and F6 of the drivers, F8, F7 and F9 of the clocks, and F10. `Memory` if memory
/// runs out. `specs/Faults.antt` defines the order and the details.
#[tactic(auto, using(crate::proofs::FaultOnceLemmas::one_fault, crate::proofs::FaultOnceLemmas::no_fault))]
pub fn flatten(alloc: Global, library: &Library) -> Result<Flat, FlatErr>
    requires formed { IsWellFormed library.now }
    requires few { length library.now.models < 2 ^ 32 }
    requires short { HasShortPorts library.now }
    ensures sound { IfOk result (λ flat. IsSound library.now) }
    ensures law { IsSound library.now → HasOneCycle library.now }
    ensures once { HasOneFault library.now }
    ensures excluded { IsSound library.now → IsLight library.now → HasNoFault library.now }
    ensures values { IfOk result (λ flat. HasValues library.now flat) }
    ensures one { IsSound library.now → HasOneFlat library.now }
    ensures bounds { IfOk result (λ flat. IsWithinBounds library.now flat) }
    ensures cycles { IfOk result (λ flat. HasCycles library.now flat) }
    ensures light { IfOk result (λ flat. IsLight library.now) }
    ensures clean { IfOk result (λ flat. HasNoFault library.now) }
    ensures err { IfErr result (OrMemory refusal_of (IsFault library.now)) }
{
    cycle_law(library);
    let models = library.models.as_slice();
    let ports = all_ports(alloc, library.key(), models)?;
    let index = ModelIndex::make(alloc, library.key(), models)?;
    check_models(alloc, library, &index, &ports)?;
    let flat = flat_circuit(alloc, library, &index, &ports)?;
    flat_law(library, &flat);
    Ok(flat)
}

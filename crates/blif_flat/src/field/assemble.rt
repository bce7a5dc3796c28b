//! Creates the flat circuit of a library from its circuit and its clock nets.
ghost use Rattle.std.specs.Prelude.{◌≡◌, ◌<◌, ◌^◌, ℕ, Bool, List, ◌++◌, Some, None, IfOk, IfErr, length, slice_get, map, filter, not};
ghost use Rattle.blif_flat.specs.{In, OrMemory, ModelValue, IsDriven, IsFlat, IsLight, LoopWalk, IsLoop, IsCircuit, AreClockNets, IsLogic};
ghost use Rattle.blif_flat.specs.{refusal_of, input_name, clock_test, with_control_net, inputs_of, paths_of, regular_places};

use crate::circuit::connect::Circuit;
use crate::clock::clock_check::ClockNets;
use crate::field::flat_gates::{Numbered, flat_covers, flat_latches, regular_numbers};
use crate::field::flat_ports::{clock_names, flat_outputs, most_underscores, regular_inputs};
use crate::field::loops::cover_order;
use crate::flat_err::FlatErr;
use netlist::{BlifModel, Flat, FlatCover, FlatLatch, Library, OutPort};
use std::alloc::{AllocError, Global};
use tl_text::Name;

// A copy of the name of an input's number.
fn name_of(alloc: Global, inputs: &[Name], number: Option<u32>) -> Result<Option<Name>, AllocError>
    ensures { (main : ModelValue) → inputs.now ≡ inputs_of main → IfOk result (λ name. name ≡ input_name main number) }
{
    match number {
        None => Ok(None),
        Some(j) => match inputs.get(j as usize) {
            None => Ok(None),
            Some(name) => {
                let copy = Name::make(alloc, name.bytes())?;
                Ok(Some(copy))
            }
        },
    }
}

// The covers, the latches and the outputs of a flat circuit.
#[derive(Drop)]
struct Logic {
    covers: Vec<FlatCover>,
    latches: Vec<FlatLatch>,
    outputs: Vec<OutPort>,
}

// The logic of a circuit with these clock nets.
fn flat_logic<'a>(
    alloc: Global,
    library: &'a Library,
    main: &BlifModel,
    circuit: &'a Circuit,
    clocks: &ClockNets,
) -> Result<Logic, AllocError>
    requires driven { IsDriven library.now }
    requires light { IsLight library.now }
    requires main { slice_get library.now.models 0 ≡ Some main.now }
    requires circuit { IsCircuit library.now circuit.now }
    requires clocks { AreClockNets library.now main.now circuit.now.instances.items clocks.now }
    ensures { IfOk result (λ logic. IsLogic library.now main.now
        (regular_places library.now main.now (clock_test main.now (input_name main.now clocks.now.control)) (paths_of circuit.now.instances.items))
        logic.covers.items logic.latches.items logic.outputs.items) }
{
    let instances = circuit.instances.as_slice();
    let nets = &circuit.nets;
    let numbers = regular_numbers(alloc, &clocks.marks)?;
    let list = numbers.as_slice();
    let from = Numbered {
        library,
        instances,
        nets,
        covers: circuit.covers.as_slice(),
        latches: circuit.latches.as_slice(),
        numbers: list,
    };
    let covers = flat_covers(alloc, &from)?;
    let latches = flat_latches(alloc, &from)?;
    let outputs = flat_outputs(alloc, library, instances, nets, list)?;
    Ok(Logic {
        covers,
        latches,
        outputs,
    })
}

// The names of a flat circuit, but those of its outputs.
#[derive(Drop)]
struct Header {
    model: Name,
    inputs: Vec<Name>,
    clocks: Vec<Name>,
    control: Option<Name>,
}

// The names of a circuit with these clock nets.
fn flat_header(
    alloc: Global,
    main: &BlifModel,
    inputs: &[Name],
    clocks: &ClockNets,
) -> Result<Header, AllocError>
    requires inputs { inputs.now ≡ inputs_of main.now }
    ensures model { IfOk result (λ header. header.model ≡ main.now.name) }
    ensures inputs { IfOk result (λ header. (test : List ℕ → Bool) → clocks.now.marks.items ≡ map test (inputs_of main.now)
        → header.inputs.items ≡ filter (λ name. not (test name)) main.now.inputs) }
    ensures clocks { IfOk result (λ header. header.clocks.items ≡ with_control_net main.now.clocks header.control) }
    ensures control { IfOk result (λ header. header.control ≡ input_name main.now clocks.now.control) }
{
    let model = Name::make(alloc, main.name.bytes())?;
    let control = name_of(alloc, inputs, clocks.control)?;
    let names = clock_names(alloc, main, &control)?;
    let regular = regular_inputs(alloc, main, &clocks.marks)?;
    Ok(Header {
        model,
        inputs: regular,
        clocks: names,
        control,
    })
}

/// The flat circuit. The circuit, the main model, its inputs and the clock nets belong to the library. The time is linear in the
/// bytes of the gates' names, on average over the hashes.
///
/// # Errors
/// F10. `Memory` if memory runs out.
pub(crate) fn assemble(
    alloc: Global,
    library: &Library,
    main: &BlifModel,
    circuit: &Circuit,
    inputs: &[Name],
    clocks: &ClockNets,
) -> Result<Flat, FlatErr>
    requires driven { IsDriven library.now }
    requires light { IsLight library.now }
    requires main { slice_get library.now.models 0 ≡ Some main.now }
    requires short { (name : List ℕ) → In (main.now.inputs ++ (main.now.clocks ++ main.now.outputs)) name → length name < 2 ^ 32 }
    requires circuit { IsCircuit library.now circuit.now }
    requires inputs { inputs.now ≡ inputs_of main.now }
    requires clocks { AreClockNets library.now main.now circuit.now.instances.items clocks.now }
    ensures flat { IfOk result (λ flat. IsFlat library.now flat) }
    ensures clean { IfOk result (λ _. LoopWalk library.now None) }
    ensures err { IfErr result (OrMemory refusal_of (IsLoop library.now)) }
{
    let logic = flat_logic(alloc, library, main, circuit, clocks)?;
    let order = cover_order(
        alloc,
        library,
        &circuit.instances,
        &circuit.covers,
        &logic.covers,
        &logic.latches,
        &logic.outputs,
    )?;
    let header = flat_header(alloc, main, inputs, clocks)?;
    let under = most_underscores(main);
    Ok(Flat {
        model: header.model,
        inputs: header.inputs,
        clocks: header.clocks,
        control: header.control,
        outputs: logic.outputs,
        covers: logic.covers,
        latches: logic.latches,
        order,
        under,
    })
}

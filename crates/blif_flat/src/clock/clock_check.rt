//! The clock nets of a circuit, and those that are used as data: as an input of a cover or a latch, or as an output of the main
//! model.
ghost use Rattle.std.specs.Prelude.{◌≡◌, [], slice_get, Some, None, IfOk, IfErr, MatchOption};
ghost use Rattle.blif_flat.specs.Bodies.Conditions.{OfGate, OfMain, TellsData};
ghost use Rattle.blif_flat.specs.{OrMemory, IsDriven, AreInstances, AreGatesAt, IsNets, AreAllNets, AreClockMarks, Tells, IsConnected, IsFault, IsLight, IsCircuit, AreClockNets};
ghost use Rattle.blif_flat.specs.{refusal_of, inputs_of, paths_of, places_at, is_gate, data_of, marked_name, clock_named, name_fault, names_fault};

use crate::circuit::connect::Circuit;
use crate::circuit::instances::{Gate, GateKind, gate_body, gates};
use crate::circuit::nets::Nets;
use crate::clock::clocks::clock_marks;
use crate::clock::controls::check_controls;
use crate::clock::wiring::Wiring;
use crate::flat_err::FlatErr;
use netlist::{BlifModel, Body, FlatNet, Library};
use std::alloc::Global;
use tl_text::Name;

fn marked_input<'a>(inputs: &'a [Name], marks: &[bool], j: u32) -> Option<&'a Name>
    ensures { MatchOption result (marked_name (slice_get marks.now j) (slice_get inputs.now j) ≡ None)
        (λ name. marked_name (slice_get marks.now j) (slice_get inputs.now j) ≡ Some name.now) }
{
    match marks.get(j as usize) {
        None => None,
        Some(mark) => { if *mark { inputs.get(j as usize) } else { None } }
    }
}

// The marked input that a net is.
fn clock_of<'a>(inputs: &'a [Name], marks: &[bool], net: Option<FlatNet>) -> Option<&'a Name>
    ensures { MatchOption result (clock_named inputs.now marks.now net ≡ None) (λ name. clock_named inputs.now marks.now net ≡ Some name.now) }
{
    match net {
        None => None,
        Some(FlatNet::Input(j)) => marked_input(inputs, marks, j),
        Some(FlatNet::Latch(_)) => None,
        Some(FlatNet::Cover(_)) => None,
    }
}

// Tells the net of a name where it is a clock net.
fn check_name(
    alloc: Global,
    nets: &Nets,
    inputs: &[Name],
    marks: &[bool],
    row: u32,
    name: &Name,
) -> Result<(), FlatErr>
    requires { IsNets nets.now }
    ensures { Tells result (name_fault inputs.now marks.now nets.now row name.now) }
{
    match clock_of(inputs, marks, nets.net(row, name.bytes())) {
        None => Ok(()),
        Some(clock) => {
            let clock = Name::make(alloc, clock.bytes())?;
            Err(FlatErr::ClockAsData(clock))
        }
    }
}

// Tells the first clock net of names of an instance.
fn check_names(
    alloc: Global,
    nets: &Nets,
    inputs: &[Name],
    marks: &[bool],
    row: u32,
    names: &[Name],
) -> Result<(), FlatErr>
    requires { IsNets nets.now }
    ensures { Tells result (names_fault inputs.now marks.now nets.now row names.now) }
{
    for name in names {
        check_name(alloc, nets, inputs, marks, row, name)?;
    }
    Ok(())
}

// Tells the first clock net that a cover or a latch takes as data.
fn check_gate(
    alloc: Global,
    library: &Library,
    wiring: &Wiring<'_>,
    marks: &[bool],
    gate: Gate,
) -> Result<(), FlatErr>
    requires instances { AreInstances library.now wiring.now.instances.now }
    requires nets { IsNets wiring.now.nets.now }
    ensures { OfGate wiring.now.instances.now gate (λ p.
        Tells result (names_fault wiring.now.inputs.now marks.now wiring.now.nets.now gate.row (data_of library.now p))) }
{
    match gate_body(library, wiring.instances, gate) {
        None => Ok(()),
        Some(body) => match body {
            Body::Cover(cover) => check_names(
                alloc,
                wiring.nets,
                wiring.inputs,
                marks,
                gate.row,
                &cover.inputs,
            ),
            Body::Latch(latch) => check_name(
                alloc,
                wiring.nets,
                wiring.inputs,
                marks,
                gate.row,
                &latch.input,
            ),
            Body::Subckt(_) => Ok(()),
        },
    }
}

/// Reports the first clock net that is an input of a cover or a latch, in flat order, or else an output of the main model. The
/// wiring and the gates (covers and latches in flat order) belong to the library. The marks show which inputs of its main model
/// are clock nets. The time is linear in the gates and in the bytes of their names, on average over the hashes.
///
/// # Errors
/// `ClockAsData` with the clock net. `Memory` if memory runs out.
pub(crate) fn check_data(
    alloc: Global,
    library: &Library,
    wiring: &Wiring<'_>,
    gates: &[Gate],
    marks: &[bool],
) -> Result<(), FlatErr>
    requires driven { IsDriven library.now }
    requires instances { AreInstances library.now wiring.now.instances.now }
    requires nets { AreAllNets library.now wiring.now.instances.now wiring.now.nets.now }
    requires gates { AreGatesAt (paths_of wiring.now.instances.now) gates.now (places_at library.now is_gate (paths_of wiring.now.instances.now)) }
    requires inputs { OfMain library.now (λ main. wiring.now.inputs.now ≡ inputs_of main) }
    requires marks { OfMain library.now (λ main. AreClockMarks library.now main marks.now) }
    ensures ok { IfOk result (λ _. TellsData library.now wiring.now.instances.now None) }
    ensures err { IfErr result (OrMemory refusal_of (λ r. TellsData library.now wiring.now.instances.now (Some r))) }
{
    for gate in gates {
        check_gate(alloc, library, wiring, marks, *gate)?;
    }
    let main: &BlifModel = &library.models[0];
    check_names(alloc, wiring.nets, wiring.inputs, marks, 0, &main.outputs)
}

/// The number of the input that is the net of the latch controls, and for each input of the main model whether it is a clock net.
#[derive(Drop)]
pub(crate) struct ClockNets {
    pub control: Option<u32>,
    pub marks: Vec<bool>,
}

/// The clock nets. The circuit, the main model and its inputs belong to the library. The time is linear in the bytes of the
/// gates' names, on average over the hashes.
///
/// # Errors
/// The first of F8 and F7 in the latches, then the first F9. `Memory` if memory runs out.
pub(crate) fn check_clocks(
    alloc: Global,
    library: &Library,
    main: &BlifModel,
    circuit: &Circuit,
    inputs: &[Name],
) -> Result<ClockNets, FlatErr>
    requires connected { IsConnected library.now }
    requires driven { IsDriven library.now }
    requires light { IsLight library.now }
    requires main { slice_get library.now.models 0 ≡ Some main.now }
    requires circuit { IsCircuit library.now circuit.now }
    requires inputs { inputs.now ≡ inputs_of main.now }
    ensures ok { IfOk result (λ clocks. AreClockNets library.now main.now circuit.now.instances.items clocks) }
    ensures err { IfErr result (OrMemory refusal_of (IsFault library.now)) }
{
    let wiring = Wiring {
        instances: &circuit.instances,
        nets: &circuit.nets,
        covers: &circuit.covers,
        latches: &circuit.latches,
        inputs,
    };
    let control = check_controls(alloc, library, &wiring)?;
    let marks = clock_marks(alloc, main, inputs, control)?;
    let all = gates(alloc, library, wiring.instances, GateKind::Either)?;
    check_data(alloc, library, &wiring, &all, &marks)?;
    Ok(ClockNets { control, marks })
}

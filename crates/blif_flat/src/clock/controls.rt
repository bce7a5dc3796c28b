//! The controls of the latches. Their net must be one input of the main model.
ghost use Rattle.std.specs.Prelude.{◌≡◌, ◌<◌, ℕ, true, false, [], length, slice_get, Some, None, IfOk, IfErr};
ghost use Rattle.blif_flat.specs.Bodies.Conditions.{AreCoversOf, AreLatchesOf, OfMain, OfPath, OfLatch, NamesLatch};
ghost use Rattle.blif_flat.specs.{OrMemory, IsDriven, IsRead, AreInstances, Clocks, AreAllNets, IsControlled, IsKeptInput, IsSecond, IsMetInput, IsRefused, ControlNext, ControlFault};
ghost use Rattle.blif_flat.specs.{refusal_of, inputs_of, is_latch, paths_of, places_at, input_at};

use crate::circuit::instances::{Gate, Instance, gate_at, gate_latch};
use crate::clock::wiring::Wiring;
use crate::field::written::{write_net, written_cover};
use crate::flat_err::FlatErr;
use netlist::{FlatNet, Library};
use std::alloc::{AllocError, Global};
use tl_text::Name;

// The net of a latch as it is written.
fn write_latch(
    alloc: Global,
    library: &Library,
    wiring: &Wiring<'_>,
    k: u32,
) -> Result<Name, AllocError>
    requires instances { AreInstances library.now wiring.now.instances.now }
    requires latches { AreLatchesOf library.now wiring.now.instances.now wiring.now.latches.now }
    requires here { k < length wiring.now.latches.now }
    ensures { IfOk result (NamesLatch library.now wiring.now.instances.now k) }
{
    let gate = gate_at(wiring.latches, k);
    match gate_latch(library, wiring.instances, gate) {
        None => Name::make(alloc, b""),
        Some(latch) => write_net(alloc, wiring.instances, gate.row, &latch.output),
    }
}

fn input_bytes(inputs: &[Name], i: u32) -> &[u8]
    requires { i < length inputs.now }
    ensures { slice_get inputs.now i ≡ Some result.now }
{
    inputs[i as usize].bytes()
}

// Do two numbers name one input? Equal numbers aren't looked up.
fn same_input(inputs: &[Name], i: u32, j: u32) -> bool
    requires first { i < length inputs.now }
    requires second { j < length inputs.now }
    ensures yes { result ≡ true → slice_get inputs.now i ≡ slice_get inputs.now j }
    ensures no { result ≡ false → ¬ (slice_get inputs.now i ≡ slice_get inputs.now j) }
{
    i == j || input_bytes(inputs, i) == input_bytes(inputs, j)
}

// The number of the control net, where an input is the net of one more control.
fn keep_input(alloc: Global, inputs: &[Name], first: Option<u32>, j: u32) -> Result<u32, FlatErr>
    requires first { (i : ℕ) → first ≡ Some i → i < length inputs.now }
    requires here { j < length inputs.now }
    ensures ok { IfOk result (λ next. IsKeptInput inputs.now first j next) }
    ensures err { IfErr result (OrMemory refusal_of (λ r. IsSecond inputs.now first j r)) }
{
    match first {
        None => Ok(j),
        Some(i) => {
            if same_input(inputs, i, j) {
                return Ok(i);
            }
            let earlier = Name::make(alloc, input_bytes(inputs, i))?;
            let name = Name::make(alloc, input_bytes(inputs, j))?;
            Err(FlatErr::SecondClock(earlier, name))
        }
    }
}

// The number of the control net after the control of a latch in this row.
fn meet_control(
    alloc: Global,
    library: &Library,
    wiring: &Wiring<'_>,
    first: Option<u32>,
    row: u32,
    control: &Name,
) -> Result<Option<u32>, FlatErr>
    requires driven { IsDriven library.now }
    requires instances { AreInstances library.now wiring.now.instances.now }
    requires nets { AreAllNets library.now wiring.now.instances.now wiring.now.nets.now }
    requires covers { AreCoversOf library.now wiring.now.instances.now wiring.now.covers.now }
    requires latches { AreLatchesOf library.now wiring.now.instances.now wiring.now.latches.now }
    requires inputs { OfMain library.now (λ main. wiring.now.inputs.now ≡ inputs_of main) }
    requires first { (j : ℕ) → first ≡ Some j → j < length wiring.now.inputs.now }
    requires here { row < length wiring.now.instances.now }
    ensures ok { IfOk result (λ next. OfPath wiring.now.instances.now row (λ path. IsRead library.now path control.now
        → IsMetInput library.now path control.now (input_at wiring.now.inputs.now first) (input_at wiring.now.inputs.now next))) }
    ensures within { IfOk result (λ next. (j : ℕ) → next ≡ Some j → j < length wiring.now.inputs.now) }
    ensures err { IfErr result (OrMemory refusal_of (λ r. OfPath wiring.now.instances.now row
        (λ path. IsRefused library.now path control.now (input_at wiring.now.inputs.now first) r))) }
{
    match wiring.nets.net(row, control.bytes()) {
        None => Ok(first),
        Some(FlatNet::Input(j)) => Ok(Some(keep_input(alloc, wiring.inputs, first, j)?)),
        Some(FlatNet::Latch(k)) => Err(FlatErr::ClockNotInput(write_latch(
            alloc, library, wiring, k,
        )?)),
        Some(FlatNet::Cover(k)) => Err(FlatErr::ClockNotInput(written_cover(
            alloc,
            library,
            wiring.instances,
            wiring.covers,
            k,
        )?)),
    }
}

// The number of the control net after one more latch.
fn check_control(
    alloc: Global,
    library: &Library,
    wiring: &Wiring<'_>,
    first: Option<u32>,
    gate: Gate,
) -> Result<Option<u32>, FlatErr>
    requires driven { IsDriven library.now }
    requires instances { AreInstances library.now wiring.now.instances.now }
    requires nets { AreAllNets library.now wiring.now.instances.now wiring.now.nets.now }
    requires covers { AreCoversOf library.now wiring.now.instances.now wiring.now.covers.now }
    requires latches { AreLatchesOf library.now wiring.now.instances.now wiring.now.latches.now }
    requires inputs { OfMain library.now (λ main. wiring.now.inputs.now ≡ inputs_of main) }
    requires first { (j : ℕ) → first ≡ Some j → j < length wiring.now.inputs.now }
    requires here { gate.row < length wiring.now.instances.now }
    ensures ok { IfOk result (λ next. OfLatch library.now wiring.now.instances.now gate
        (λ p l. ControlNext library.now p.path l.control (input_at wiring.now.inputs.now first) (input_at wiring.now.inputs.now next))) }
    ensures within { IfOk result (λ next. (j : ℕ) → next ≡ Some j → j < length wiring.now.inputs.now) }
    ensures err { IfErr result (λ e. OrMemory refusal_of (λ r. OfLatch library.now wiring.now.instances.now gate
        (λ p l. ControlFault library.now p.path l.control (input_at wiring.now.inputs.now first) r)) e) }
{
    match gate_latch(library, wiring.instances, gate) {
        None => Ok(first),
        Some(latch) => match &latch.control {
            None => Ok(first),
            Some(control) => meet_control(alloc, library, wiring, first, gate.row, control),
        },
    }
}

/// The number of the input that is the net of all latch controls. `None` if no latch has a control. The wiring belongs to the
/// library. The time is linear in the latches and in the bytes of their controls, on average over the hashes.
///
/// # Errors
/// For the first latch in flat order that has one of these faults: `ClockNotInput` if the net of its control isn't an input of
/// the main model, and `SecondClock` if it differs from that of the earlier latches. `Memory` if memory runs out.
pub(crate) fn check_controls(
    alloc: Global,
    library: &Library,
    wiring: &Wiring<'_>,
) -> Result<Option<u32>, FlatErr>
    requires driven { IsDriven library.now }
    requires instances { AreInstances library.now wiring.now.instances.now }
    requires nets { AreAllNets library.now wiring.now.instances.now wiring.now.nets.now }
    requires covers { AreCoversOf library.now wiring.now.instances.now wiring.now.covers.now }
    requires latches { AreLatchesOf library.now wiring.now.instances.now wiring.now.latches.now }
    requires inputs { OfMain library.now (λ main. wiring.now.inputs.now ≡ inputs_of main) }
    ensures ok { IfOk result (λ control. OfMain library.now (λ main. IsControlled library.now main (paths_of wiring.now.instances.now) control)) }
    ensures err { IfErr result (OrMemory refusal_of (λ r.
        Clocks library.now None (places_at library.now is_latch (paths_of wiring.now.instances.now)) (Some r))) }
{
    let mut first: Option<u32> = None;
    for gate in wiring.latches {
        first = check_control(alloc, library, wiring, first, *gate)?;
    }
    Ok(first)
}

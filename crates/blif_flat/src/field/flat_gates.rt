//! The covers and the latches of a flat circuit. Inputs in their nets are numbered among the regular inputs.
ghost use Rattle.std.specs.Prelude.{◌≡◌, ◌<◌, ◌^◌, length, slice_get, IfOk, []};
ghost use Rattle.std.specs.Option.{option_map};
ghost use Rattle.blif_flat.specs.Bodies.Conditions.{AreCoversOf, AreLatchesOf, AreRegularCovers, AreRegularLatches};
ghost use Rattle.blif_flat.specs.{IsNets, IsDriven, AreInstances, AreAllNets};
ghost use Rattle.blif_flat.specs.{number_or_zero, regular_numbers as numbers_of, renumbered as renumbered_of, regular_net, regular_nets, row_model, cover_inputs as inputs_of, flat_cover as cover_of, made_latch as latch_of, absent_latch as no_latch_value, flat_latch as latch_of_gate};

use crate::circuit::instances::{Gate, Instance, gate_body};
use crate::circuit::nets::Nets;
use netlist::{Body, FlatCover, FlatLatch, FlatNet, Latch, Library};
use std::alloc::{AllocError, Global};
use tl_text::Name;

/// For each mark, the number of earlier marks that are off. `Err` only if memory runs out. The time is linear.
pub(crate) fn regular_numbers(alloc: Global, marks: &[bool]) -> Result<Vec<u32>, AllocError>
    requires few { length marks.now < 2 ^ 32 }
    ensures { IfOk result (λ numbers. numbers.items ≡ numbers_of 0 marks.now) }
{
    let mut numbers = Vec::new(alloc);
    let mut next = 0;
    for &mark in marks {
        numbers.push(next)?;
        if !mark {
            next += 1;
        }
    }
    Ok(numbers)
}

// The number of an input among the regular ones, and 0 where there is no such input.
fn number_at(numbers: &[u32], j: u32) -> u32
    ensures { result ≡ number_or_zero (slice_get numbers.now j) }
{
    match numbers.get(j as usize) {
        None => 0,
        Some(number) => *number,
    }
}

// A net with its regular number.
fn renumbered(numbers: &[u32], net: FlatNet) -> FlatNet
    ensures { result ≡ renumbered_of numbers.now net }
{
    match net {
        FlatNet::Input(j) => FlatNet::Input(number_at(numbers, j)),
        FlatNet::Latch(j) => FlatNet::Latch(j),
        FlatNet::Cover(j) => FlatNet::Cover(j),
    }
}

/// The net of a name of an instance, with inputs numbered among the regular ones. `Input(0)` if nothing drives the name. The
/// time is linear in the name's bytes, on average over the hashes.
pub(crate) fn net_at(nets: &Nets, numbers: &[u32], i: u32, name: &[u8]) -> FlatNet
    requires { IsNets nets.now }
    ensures { result ≡ regular_net numbers.now nets.now i name.now }
{
    match nets.net(i, name) {
        None => FlatNet::Input(0),
        Some(net) => renumbered(numbers, net),
    }
}

/// The nets of several names of an instance, likewise. `Err` only if memory runs out.
pub(crate) fn net_list(
    alloc: Global,
    nets: &Nets,
    numbers: &[u32],
    i: u32,
    names: &[Name],
) -> Result<Vec<FlatNet>, AllocError>
    requires { IsNets nets.now }
    ensures { IfOk result (λ list. list.items ≡ regular_nets numbers.now nets.now i names.now) }
{
    let mut list = Vec::with_capacity(alloc, names.len())?;
    for name in names {
        list.push(net_at(nets, numbers, i, name.bytes()))?;
    }
    Ok(list)
}

// The number of the model of a row.
fn model_of(instances: &[Instance], i: u32) -> u32
    ensures { result ≡ row_model (slice_get instances.now i) }
{
    match instances.get(i as usize) {
        None => 0,
        Some(row) => row.model,
    }
}

// The inputs of a cover, and none where there is no cover.
fn cover_inputs(body: Option<&Body>) -> &[Name]
    ensures { result.now ≡ inputs_of (option_map (λ body. body.now) body.entry) }
{
    match body {
        None => &[],
        Some(Body::Cover(cover)) => &cover.inputs,
        Some(Body::Latch(_)) => &[],
        Some(Body::Subckt(_)) => &[],
    }
}

// The flat cover of a gate.
fn flat_cover(
    alloc: Global,
    library: &Library,
    instances: &[Instance],
    nets: &Nets,
    numbers: &[u32],
    gate: Gate,
) -> Result<FlatCover, AllocError>
    requires { IsNets nets.now }
    ensures { IfOk result (λ cover. cover ≡ cover_of library.now instances.now nets.now numbers.now gate) }
{
    let model = model_of(instances, gate.row);
    let names = cover_inputs(gate_body(library, instances, gate));
    let inputs = net_list(alloc, nets, numbers, gate.row, names)?;
    Ok(FlatCover {
        model,
        command: gate.command,
        inputs,
    })
}

/// The instances of a library with their nets, covers and latches, and the numbers of the inputs among the regular ones.
#[derive(Drop)]
pub(crate) struct Numbered<'a> {
    pub library: &'a Library,
    pub instances: &'a [Instance],
    pub nets: &'a Nets,
    pub covers: &'a [Gate],
    pub latches: &'a [Gate],
    pub numbers: &'a [u32],
}

/// The flat covers. The instances, the nets and the covers belong to the library. `Err` only if memory runs out. The time is
/// linear in the bytes of the covers' inputs, on average over the hashes.
pub(crate) fn flat_covers(alloc: Global, from: &Numbered<'_>) -> Result<Vec<FlatCover>, AllocError>
    requires driven { IsDriven from.now.library.now }
    requires instances { AreInstances from.now.library.now from.now.instances.now }
    requires nets { AreAllNets from.now.library.now from.now.instances.now from.now.nets.now }
    requires covers { AreCoversOf from.now.library.now from.now.instances.now from.now.covers.now }
    ensures { IfOk result (λ flat. AreRegularCovers from.now.library.now from.now.instances.now from.now.numbers.now flat.items) }
{
    let mut flat = Vec::new(alloc);
    for &gate in from.covers {
        let cover = flat_cover(
            alloc,
            from.library,
            from.instances,
            from.nets,
            from.numbers,
            gate,
        )?;
        flat.push(cover)?;
    }
    Ok(flat)
}

// A latch of the instance of this row.
fn made_latch(nets: &Nets, numbers: &[u32], i: u32, latch: &Latch) -> FlatLatch
    requires { IsNets nets.now }
    ensures { result ≡ latch_of numbers.now nets.now i latch.now }
{
    FlatLatch {
        input: net_at(nets, numbers, i, latch.input.bytes()),
        init: latch.init,
        clocked: latch.control.is_some(),
    }
}

// What stands for a latch where there is none.
fn no_latch() -> FlatLatch
    ensures { result ≡ no_latch_value }
{
    FlatLatch {
        input: FlatNet::Input(0),
        init: false,
        clocked: false,
    }
}

// The flat latch of a gate.
fn flat_latch(
    library: &Library,
    instances: &[Instance],
    nets: &Nets,
    numbers: &[u32],
    gate: Gate,
) -> FlatLatch
    requires { IsNets nets.now }
    ensures { result ≡ latch_of_gate library.now instances.now nets.now numbers.now gate }
{
    match gate_body(library, instances, gate) {
        Some(Body::Latch(latch)) => made_latch(nets, numbers, gate.row, latch),
        Some(Body::Cover(_)) => no_latch(),
        Some(Body::Subckt(_)) => no_latch(),
        None => no_latch(),
    }
}

/// The flat latches, likewise.
pub(crate) fn flat_latches(alloc: Global, from: &Numbered<'_>) -> Result<Vec<FlatLatch>, AllocError>
    requires driven { IsDriven from.now.library.now }
    requires instances { AreInstances from.now.library.now from.now.instances.now }
    requires nets { AreAllNets from.now.library.now from.now.instances.now from.now.nets.now }
    requires latches { AreLatchesOf from.now.library.now from.now.instances.now from.now.latches.now }
    ensures { IfOk result (λ flat. AreRegularLatches from.now.library.now from.now.instances.now from.now.numbers.now flat.items) }
{
    let mut flat = Vec::new(alloc);
    for &gate in from.latches {
        let latch = flat_latch(from.library, from.instances, from.nets, from.numbers, gate);
        flat.push(latch)?;
    }
    Ok(flat)
}

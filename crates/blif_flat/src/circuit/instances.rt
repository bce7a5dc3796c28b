//! The instances of a library in flat order, their covers and latches, and the commands of these.
ghost use Rattle.std.specs.Prelude.{◌≡◌, ℕ, ◌+◌, ◌<◌, ◌^◌, List, [], ◌∷◌, ◌++◌, length, reverse, Some, slice_get, IfOk, OnOk, ◌≤◌, None, MatchOption};
ghost use Rattle.std.specs.Option.{option_map};
ghost use Rattle.blif_flat.specs.{ModelValue, AreInstances, IsLight, AreGatesAt, Place, IsGateAt};
ghost use Rattle.blif_flat.specs.{subckts_of, with_subckt, model_names, place_of, number_or_zero, with_entry, entries_from, paths_of, places_at, kind_test, with_commands, with_model, most_weight, body_at, latch_at, numbered_body, place_body, gate_body as body_of};

use crate::model::ports::ModelIndex;
use netlist::{BlifModel, Body, Command, Latch, Library};
use std::alloc::{AllocError, Global};

/// An instance of a model. The first instance is the main model's own.
#[derive(Clone, Copy, Debug, PartialEq, Eq)]
pub(crate) struct Instance {
    /// The number of its model in the library, counted from 0.
    pub model: u32,
    /// The row of the instance that contains it, which is an earlier one. `None` for the first instance.
    pub parent: Option<u32>,
    /// The ordinal of its line among the `.subckt` lines of the containing model, counted from 0.
    pub ordinal: u32,
}

// The number of the model of a name, and 0 where there is none.
fn number_of(index: &ModelIndex, name: &[u8]) -> u32
    ensures { result ≡ number_or_zero (place_of index.now.names name.now) }
{
    match index.find(name) {
        None => 0,
        Some(number) => number,
    }
}

// Adds the entry of a command that places a model.
fn add_entry(
    index: &ModelIndex,
    entries: &mut Vec<Instance>,
    parent: u32,
    body: &Body,
) -> Result<(), AllocError>
    requires few { length entries.old.items + length (with_subckt body.now []) < 2 ^ 32 }
    ensures { OnOk result (entries.new.items ≡ with_entry index.now.names parent entries.old.items body.now) }
{
    match body {
        Body::Cover(_) => Ok(()),
        Body::Latch(_) => Ok(()),
        Body::Subckt(subckt) => {
            let entry = Instance {
                model: number_of(index, subckt.model.bytes()),
                parent: Some(parent),
                ordinal: entries.len() as u32,
            };
            entries.push(entry)?;
            Ok(())
        }
    }
}

// The entries of the commands that place models, in line order.
fn entries_of(
    alloc: Global,
    index: &ModelIndex,
    parent: u32,
    commands: &[Command],
) -> Result<Vec<Instance>, AllocError>
    requires few { length (subckts_of commands.now) < 2 ^ 32 }
    ensures { IfOk result (λ entries. entries.items ≡ entries_from index.now.names parent [] commands.now) }
{
    let mut entries = Vec::new(alloc);
    for command in commands {
        add_entry(index, &mut entries, parent, &command.body)?;
    }
    Ok(entries)
}

// The entries of a model's `.subckt` lines.
fn model_entries(
    alloc: Global,
    index: &ModelIndex,
    parent: u32,
    model: &BlifModel,
) -> Result<Vec<Instance>, AllocError>
    requires few { length (subckts_of model.now.commands) < 2 ^ 32 }
    ensures { IfOk result (λ entries. entries.items ≡ entries_from index.now.names parent [] model.now.commands) }
{
    entries_of(alloc, index, parent, &model.commands)
}

// Moves the entries to the stack, the last one first.
fn move_entries(stack: &mut Vec<Instance>, entries: Vec<Instance>) -> Result<(), AllocError>
    ensures { OnOk result (stack.new.items ≡ stack.old.items ++ reverse entries.items) }
{
    let mut left = entries;
    while let Some(entry) = left.pop() {
        stack.push(entry)?;
    }
    Ok(())
}

// Puts the entries of a model on the stack, the first one on top.
fn push_entries(
    alloc: Global,
    library: &Library,
    index: &ModelIndex,
    stack: &mut Vec<Instance>,
    number: u32,
    place: u32,
) -> Result<(), AllocError>
    requires room { number < length library.now.models }
    requires few { (m : ModelValue) → slice_get library.now.models number ≡ Some m → length (subckts_of m.commands) < 2 ^ 32 }
    ensures { OnOk result ((m : ModelValue) → slice_get library.now.models number ≡ Some m
        → stack.new.items ≡ stack.old.items ++ reverse (entries_from index.now.names place [] m.commands)) }
{
    let model: &BlifModel = &library.models[number as usize];
    let entries = model_entries(alloc, index, place, model)?;
    move_entries(stack, entries)?;
    Ok(())
}

/// The instances of a library in flat order: an instance, then the instances of its `.subckt` lines in line order. There are at
/// most 2^22. `Err` only if memory runs out. The time is linear in the commands of the instances' models, on average over the
/// hashes.
pub(crate) fn instances(
    alloc: Global,
    library: &Library,
    index: &ModelIndex,
) -> Result<Vec<Instance>, AllocError>
    requires names { index.now.names ≡ model_names library.now.models }
    requires light { IsLight library.now }
    ensures { IfOk result (λ rows. AreInstances library.now rows.items) }
{
    let mut stack = Vec::new(alloc);
    let mut rows = Vec::new(alloc);
    stack.push(Instance {
        model: 0,
        parent: None,
        ordinal: 0,
    })?;
    while let Some(entry) = stack.pop() {
        let place = rows.len() as u32;
        rows.push(entry)?;
        push_entries(alloc, library, index, &mut stack, entry.model, place)?;
    }
    Ok(rows)
}

/// A cover or a latch of an instance.
#[derive(Clone, Copy, Debug, PartialEq, Eq)]
pub(crate) struct Gate {
    /// The row of its instance.
    pub row: u32,
    /// Its index among the commands of its model.
    pub command: u32,
}

/// A choice of commands.
#[derive(Clone, Copy, Drop)]
pub(crate) enum GateKind {
    Cover,
    Latch,
    /// Covers and latches.
    Either,
}

// Is the command of the kind?
fn is_of_kind(kind: GateKind, body: &Body) -> bool
    ensures { result ≡ kind_test kind body.now }
{
    match body {
        Body::Cover(_) => !matches!(kind, GateKind::Latch),
        Body::Latch(_) => !matches!(kind, GateKind::Cover),
        Body::Subckt(_) => false,
    }
}

// Adds the commands of the kind as gates of a row.
fn add_commands(
    gates: &mut Vec<Gate>,
    kind: GateKind,
    row: u32,
    commands: &[Command],
) -> Result<(), AllocError>
    requires { length commands.now < 2 ^ 32 }
    ensures { OnOk result (gates.new.items ≡ with_commands (kind_test kind) row 0 gates.old.items commands.now) }
{
    for (place, command) in commands.iter().enumerate() {
        if is_of_kind(kind, &command.body) {
            let command = place as u32;
            gates.push(Gate { row, command })?;
        }
    }
    Ok(())
}

// Adds the gates of the model of a number as those of a row.
fn add_model(
    library: &Library,
    gates: &mut Vec<Gate>,
    kind: GateKind,
    row: u32,
    model: u32,
) -> Result<(), AllocError>
    requires { (m : ModelValue) → slice_get library.now.models model ≡ Some m → length m.commands < 2 ^ 32 }
    ensures { OnOk result (gates.new.items ≡ with_model (kind_test kind) row gates.old.items (slice_get library.now.models model)) }
{
    match library.models.get(model as usize) {
        None => Ok(()),
        Some(model) => add_commands(gates, kind, row, &model.commands),
    }
}

/// The gates of a kind in flat order: those of each instance in line order. The instances are those of the library. There are at
/// most 2^22 gates. `Err` only if memory runs out. The time is linear in the commands of the instances' models.
pub(crate) fn gates(
    alloc: Global,
    library: &Library,
    instances: &[Instance],
    kind: GateKind,
) -> Result<Vec<Gate>, AllocError>
    requires light { IsLight library.now }
    requires instances { AreInstances library.now instances.now }
    ensures gates { IfOk result (λ gates. AreGatesAt (paths_of instances.now) gates.items (places_at library.now (kind_test kind) (paths_of instances.now))) }
    ensures few { IfOk result (λ gates. length gates.items ≤ most_weight) }
{
    let mut gates = Vec::new(alloc);
    for (row, instance) in instances.iter().enumerate() {
        add_model(library, &mut gates, kind, row as u32, instance.model)?;
    }
    Ok(gates)
}

/// The gate with this number.
pub(crate) fn gate_at(gates: &[Gate], k: u32) -> Gate
    requires { k < length gates.now }
    ensures { slice_get gates.now k ≡ Some result }
{
    gates[k as usize]
}

fn command_body(model: &BlifModel, command: u32) -> Option<&Body>
    ensures { option_map (λ body. body.now) result ≡ body_at model.now command }
{
    match model.commands.get(command as usize) {
        None => None,
        Some(found) => Some(&found.body),
    }
}

fn model_body(library: &Library, model: u32, command: u32) -> Option<&Body>
    ensures { option_map (λ body. body.now) result ≡ numbered_body library.now model command }
{
    match library.models.get(model as usize) {
        None => None,
        Some(found) => command_body(found, command),
    }
}

/// The body of a gate's command. If the instances are those of the library, it is the body of the gate's place.
pub(crate) fn gate_body<'a>(
    library: &'a Library,
    instances: &[Instance],
    gate: Gate,
) -> Option<&'a Body>
    ensures body { option_map (λ body. body.now) result ≡ body_of library.now instances.now gate }
    ensures place { AreInstances library.now instances.now → (p : Place) → IsGateAt (paths_of instances.now) gate p
        → MatchOption result (place_body library.now p ≡ None) (λ b. place_body library.now p ≡ Some b.now) }
{
    match instances.get(gate.row as usize) {
        None => None,
        Some(row) => model_body(library, row.model, gate.command),
    }
}

/// The latch of a gate. `None` if its command isn't a latch. The instances are those of the library.
pub(crate) fn gate_latch<'a>(
    library: &'a Library,
    instances: &[Instance],
    gate: Gate,
) -> Option<&'a Latch>
    requires instances { AreInstances library.now instances.now }
    ensures { (p : Place) → IsGateAt (paths_of instances.now) gate p
        → MatchOption result (latch_at library.now p ≡ None) (λ l. latch_at library.now p ≡ Some l.now) }
{
    match gate_body(library, instances, gate) {
        None => None,
        Some(body) => match body {
            Body::Cover(_) => None,
            Body::Latch(latch) => Some(latch),
            Body::Subckt(_) => None,
        },
    }
}

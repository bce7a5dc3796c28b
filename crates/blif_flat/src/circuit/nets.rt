//! The table of the nets of all instances' names. A net is the number of its driver.
ghost use Rattle.std.specs.Prelude.{◌≡◌, ℕ, List, ◌<◌, length, Some, ◌≤◌, [], map, replicate, None, IfOk, slice_get};
ghost use Rattle.std.specs.Option.{option_and_then};
ghost use Rattle.blif_flat.specs.{IsNets, ModelValue, AreInstances, IsLight, AreEmptyNets};
ghost use Rattle.blif_flat.specs.{place_of, slot_number, table_of, with_slot, with_found, copied, pair_out, pairs_out, pair_in, pairs_in, is_input, is_output, ports_value, with_names as with_all_names, body_names, commands_names, paths_of, distinct_names, name_count, starts_from, slot_count, most_weight};

use crate::circuit::instances::Instance;
use crate::model::ports::Ports;
use netlist::{BlifModel, Body, Command, Connection, Cover, FlatNet, Latch, Library};
use std::alloc::{AllocError, Global};
use std::marker::Model;
use tl_text::{NameIndex, TextKey};

/// The slots of an instance: the number of its model, and its first slot.
#[derive(Clone, Copy, Debug, PartialEq, Eq)]
pub(crate) struct Start {
    pub model: u32,
    pub first: usize,
}

/// The nets of the names of all instances. Contracts see a table (`specs/Bodies/NetTable.antt`).
#[derive(Drop)]
pub(crate) struct Nets {
    /// The names of each model.
    names: Vec<NameIndex>,
    /// The slots of each instance.
    starts: Vec<Start>,
    /// A slot for each name of each instance.
    slots: Vec<Option<FlatNet>>,
}

impl Model for Nets {
    ghost use Rattle.blif_flat.specs.Bodies.NetTable.{NetsValue};

    ghost Value = { NetsValue };

    ghost view = { λ n. record { names = n.names.items; starts = n.starts.items; slots = n.slots.items } };
}

// The place of a name among those of the model of a number.
fn place_in(names: &[NameIndex], model: u32, name: &[u8]) -> Option<usize>
    ensures { result ≡ option_and_then (λ (own : List (List ℕ)). place_of own name.now) (slice_get names.now model) }
{
    match names.get(model as usize) {
        None => None,
        Some(own) => own.place(name),
    }
}

// The slot of a name of an instance.
fn slot_of(nets: &Nets, i: u32, name: &[u8]) -> Option<usize>
    requires { IsNets nets.now }
    ensures { result ≡ slot_number nets.now i name.now }
{
    match nets.starts.get(i as usize) {
        None => None,
        Some(start) => match place_in(&nets.names, start.model, name) {
            None => None,
            Some(place) => Some(start.first + place),
        },
    }
}

impl Nets {
    /// A table with these names of the models, these starts of the instances, and these slots.
    pub(crate) fn new(
        names: Vec<NameIndex>,
        starts: Vec<Start>,
        slots: Vec<Option<FlatNet>>,
    ) -> Nets
        ensures { result ≡ record { names = names.items; starts = starts.items; slots = slots.items } }
    {
        Nets {
            names,
            starts,
            slots,
        }
    }

    /// The net of a name of an instance. `None` if nothing drives it, or if the instance or the name doesn't exist. The time is
    /// linear in the name's bytes, on average over the hashes.
    pub(crate) fn net(&self, i: u32, name: &[u8]) -> Option<FlatNet>
        requires { IsNets self.now }
        ensures { result ≡ table_of self.now i name.now }
    {
        match slot_of(self, i, name) {
            None => None,
            Some(k) => match self.slots.get(k) {
                None => None,
                Some(net) => *net,
            },
        }
    }

    // Puts a net into a slot.
    fn put(&mut self, k: usize, net: FlatNet)
        requires { k < length self.old.slots }
        ensures { self.new ≡ with_slot self.old k net }
    {
        self.slots[k] = Some(net);
    }

    /// Sets the net of a name of an instance, if it has a slot. It takes the time of `net`.
    pub(crate) fn set(&mut self, i: u32, name: &[u8], net: FlatNet)
        requires { IsNets self.old }
        ensures found { self.new ≡ with_found self.old (slot_number self.old i name.now) net }
        ensures nets { IsNets self.new }
    {
        match slot_of(self, i, name) {
            None => {}
            Some(k) => self.put(k, net),
        }
    }

    // Copies the net of a name of an instance to a name of another one.
    fn copy(&mut self, from: u32, source: &[u8], to: u32, target: &[u8])
        requires { IsNets self.old }
        ensures copied { self.new ≡ copied self.old to target.now (table_of self.old from source.now) }
        ensures nets { IsNets self.new }
    {
        match self.net(from, source) {
            None => {}
            Some(net) => self.set(to, target, net),
        }
    }
}

// Copies the net of an output's formal inside to its actual outside.
fn pair_out(nets: &mut Nets, ports: &Ports, inner: u32, outer: u32, pair: &Connection)
    requires { IsNets nets.old }
    ensures out { (child : ModelValue) → ports.now ≡ ports_value child → nets.new ≡ pair_out (is_output child) inner outer nets.old pair.now }
    ensures nets { IsNets nets.new }
{
    if ports.is_output(pair.formal.bytes()) {
        nets.copy(inner, pair.formal.bytes(), outer, pair.actual.bytes());
    }
}

/// Copies the nets of a subcircuit's outputs to their actuals. The time is linear in the bytes of the pairs, on average over the
/// hashes.
pub(crate) fn pairs_out(
    nets: &mut Nets,
    ports: &Ports,
    inner: u32,
    outer: u32,
    pairs: &[Connection],
)
    requires { IsNets nets.old }
    ensures out { (child : ModelValue) → ports.now ≡ ports_value child → nets.new ≡ pairs_out (is_output child) inner outer nets.old pairs.now }
    ensures nets { IsNets nets.new }
{
    for pair in pairs {
        pair_out(nets, ports, inner, outer, pair);
    }
}

// Copies the net of an input's actual outside to its formal inside.
fn pair_in(nets: &mut Nets, ports: &Ports, inner: u32, outer: u32, pair: &Connection)
    requires { IsNets nets.old }
    ensures inside { (child : ModelValue) → ports.now ≡ ports_value child → nets.new ≡ pair_in (is_input child) inner outer nets.old pair.now }
    ensures nets { IsNets nets.new }
{
    if ports.is_input(pair.formal.bytes()) {
        nets.copy(outer, pair.actual.bytes(), inner, pair.formal.bytes());
    }
}

/// Copies the nets of the actuals to a subcircuit's inputs. The time is linear in the bytes of the pairs, on average over the
/// hashes.
pub(crate) fn pairs_in(nets: &mut Nets, ports: &Ports, inner: u32, outer: u32, pairs: &[Connection])
    requires { IsNets nets.old }
    ensures inside { (child : ModelValue) → ports.now ≡ ports_value child → nets.new ≡ pairs_in (is_input child) inner outer nets.old pairs.now }
    ensures nets { IsNets nets.new }
{
    for pair in pairs {
        pair_in(nets, ports, inner, outer, pair);
    }
}

// The names and those of a cover.
fn with_cover(alloc: Global, index: NameIndex, cover: &Cover) -> Result<NameIndex, AllocError>
    ensures { IfOk result (λ all. all ≡ with_all_names index (body_names (Body.Cover cover.now))) }
{
    let mut all = index.with_names(alloc, &cover.inputs)?;
    all.add_once(alloc, cover.output.bytes())?;
    Ok(all)
}

// The names and those of a latch.
fn with_latch(alloc: Global, index: NameIndex, latch: &Latch) -> Result<NameIndex, AllocError>
    ensures { IfOk result (λ all. all ≡ with_all_names index (body_names (Body.Latch latch.now))) }
{
    let mut all = index;
    all.add_once(alloc, latch.input.bytes())?;
    all.add_once(alloc, latch.output.bytes())?;
    if let Some(control) = &latch.control {
        all.add_once(alloc, control.bytes())?;
    }
    Ok(all)
}

// The names and the actuals of connections.
fn with_actuals(
    alloc: Global,
    index: NameIndex,
    pairs: &[Connection],
) -> Result<NameIndex, AllocError>
    ensures { IfOk result (λ all. all ≡ with_all_names index (map (λ (pair : Connection). pair.actual) pairs.now)) }
{
    let mut all = index;
    for pair in pairs {
        all.add_once(alloc, pair.actual.bytes())?;
    }
    Ok(all)
}

// The names and those of a command.
fn with_body(alloc: Global, index: NameIndex, body: &Body) -> Result<NameIndex, AllocError>
    ensures { IfOk result (λ all. all ≡ with_all_names index (body_names body.now)) }
{
    match body {
        Body::Cover(cover) => with_cover(alloc, index, cover),
        Body::Latch(latch) => with_latch(alloc, index, latch),
        Body::Subckt(subckt) => with_actuals(alloc, index, &subckt.pairs),
    }
}

// The names and those of commands.
fn with_commands(
    alloc: Global,
    index: NameIndex,
    commands: &[Command],
) -> Result<NameIndex, AllocError>
    ensures { IfOk result (λ all. all ≡ with_all_names index (commands_names commands.now)) }
{
    let mut all = index;
    for command in commands {
        all = with_body(alloc, all, &command.body)?;
    }
    Ok(all)
}

// The names that stand in a model of a netlist of this key, each once.
fn distinct_names(alloc: Global, key: TextKey, model: &BlifModel) -> Result<NameIndex, AllocError>
    ensures { IfOk result (λ all. all ≡ distinct_names model.now) }
{
    let inputs = NameIndex::under(alloc, key, &model.inputs)?;
    let outputs = inputs.with_names(alloc, &model.outputs)?;
    let ports = outputs.with_names(alloc, &model.clocks)?;
    with_commands(alloc, ports, &model.commands)
}

// The names that stand in each model of a netlist of this key.
fn all_distinct_names(
    alloc: Global,
    key: TextKey,
    models: &[BlifModel],
) -> Result<Vec<NameIndex>, AllocError>
    ensures { IfOk result (λ names. names.items ≡ map distinct_names models.now) }
{
    let mut all: Vec<NameIndex> = Vec::new(alloc);
    for model in models {
        let names = distinct_names(alloc, key, model)?;
        all.push(names)?;
    }
    Ok(all)
}

// How many names the model of a number has.
fn name_count(names: &[NameIndex], model: u32) -> usize
    ensures { result ≡ name_count names.now model }
{
    match names.get(model as usize) {
        None => 0,
        Some(names) => names.len(),
    }
}

// The start of each row, and how many slots there are.
fn row_starts(
    alloc: Global,
    names: &[NameIndex],
    instances: &[Instance],
) -> Result<(Vec<Start>, usize), AllocError>
    requires { slot_count names.now instances.now ≤ most_weight }
    ensures { IfOk result (λ made. (made.0.items ≡ starts_from names.now 0 instances.now) × (made.1 ≡ slot_count names.now instances.now)) }
{
    let mut starts = Vec::new(alloc);
    let mut count = 0;
    for row in instances {
        starts.push(Start {
            model: row.model,
            first: count,
        })?;
        count += name_count(names, row.model);
    }
    Ok((starts, count))
}

// Slots without nets.
fn empty_slots(alloc: Global, count: usize) -> Result<Vec<Option<FlatNet>>, AllocError>
    ensures { IfOk result (λ slots. slots.items ≡ replicate count None) }
{
    let slots = vec![in alloc; None; count]?;
    Ok(slots)
}

/// Empty slots for the names of all instances. The instances are those of the library. `Err` only if memory runs out. The time
/// is linear in the bytes of the library's names and in the instances, on average over the hashes.
pub(crate) fn make_nets(
    alloc: Global,
    library: &Library,
    instances: &[Instance],
) -> Result<Nets, AllocError>
    requires light { IsLight library.now }
    requires instances { AreInstances library.now instances.now }
    ensures { IfOk result (λ nets. AreEmptyNets library.now (paths_of instances.now) nets) }
{
    let names = all_distinct_names(alloc, library.key(), &library.models)?;
    let (starts, count) = row_starts(alloc, &names, instances)?;
    let slots = empty_slots(alloc, count)?;
    Ok(Nets::new(names, starts, slots))
}

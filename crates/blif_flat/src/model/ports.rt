//! Formals of connections, ports of models, and models. Each is found by its hash.
ghost use Rattle.std.specs.Prelude.{◌≡◌, [], IfOk, map, ℕ, ◌<◌, ◌^◌, List, length, IfSome};
ghost use Rattle.blif_flat.specs.{formals, has_name, with_names, In, place_of, ModelValue, IsWellFormedModel, is_input as input_of, is_output as output_of, ports_value, AreOnce, model_names, Finds};

use netlist::{BlifModel, Connection};
use std::alloc::{AllocError, Global};
use tl_text::{NameIndex, TextKey};

/// The formals of connections, in a netlist of this key.
pub(crate) fn formal_index(
    alloc: Global,
    key: TextKey,
    pairs: &[Connection],
) -> Result<NameIndex, AllocError>
    ensures { IfOk result (λ all. all ≡ with_names [] (formals pairs.now)) }
{
    let mut all = NameIndex::new(alloc, key);
    for pair in pairs {
        all.add_once(alloc, pair.formal.bytes())?;
    }
    Ok(all)
}

/// The ports of a model.
#[derive(Drop)]
pub(crate) struct Ports {
    /// The names of its `.inputs`, and then those of its `.clock` that aren't among them.
    inputs: NameIndex,
    /// The names of its `.outputs`.
    outputs: NameIndex,
}

impl Ports {
    /// The ports of a model, in a netlist of this key. The time is linear in their bytes, on average over the hashes.
    pub(crate) fn make(alloc: Global, key: TextKey, model: &BlifModel) -> Result<Ports, AllocError>
        requires { IsWellFormedModel model.now }
        ensures { IfOk result (λ ports. ports ≡ ports_value model.now) }
    {
        let inputs = NameIndex::under(alloc, key, &model.inputs)?;
        let inputs = inputs.with_names(alloc, &model.clocks)?;
        let outputs = NameIndex::under(alloc, key, &model.outputs)?;
        Ok(Ports { inputs, outputs })
    }

    /// The key of the netlist.
    pub(crate) fn key(&self) -> TextKey {
        self.inputs.key()
    }

    /// A copy of the inputs. `Err` only if memory runs out. The time is linear in their bytes, on average over the hashes.
    pub(crate) fn copy_inputs(&self, alloc: Global) -> Result<NameIndex, AllocError>
        ensures { IfOk result (λ inputs. inputs ≡ self.now.inputs) }
    {
        self.inputs.copy(alloc)
    }

    /// Whether the name is an input.
    pub(crate) fn is_input(&self, name: &[u8]) -> bool
        ensures among { result ≡ has_name self.now.inputs name.now }
        ensures model { (m : ModelValue) → self.now ≡ ports_value m → result ≡ input_of m name.now }
    {
        self.inputs.has(name)
    }

    /// The place of a name among the inputs, counted from 0. `None` if it isn't an input.
    pub(crate) fn input_place(&self, name: &[u8]) -> Option<usize>
        ensures { result ≡ place_of self.now.inputs name.now }
    {
        self.inputs.place(name)
    }

    /// Whether the name is in the `.outputs`. It may be an input too.
    pub(crate) fn has_output(&self, name: &[u8]) -> bool
        ensures { result ≡ has_name self.now.outputs name.now }
    {
        self.outputs.has(name)
    }

    /// Whether the name is an output and not an input.
    pub(crate) fn is_output(&self, name: &[u8]) -> bool
        ensures { (m : ModelValue) → self.now ≡ ports_value m → result ≡ output_of m name.now }
    {
        !self.is_input(name) && self.has_output(name)
    }
}

/// The ports of each model of a netlist of this key, in order.
pub(crate) fn all_ports(
    alloc: Global,
    key: TextKey,
    models: &[BlifModel],
) -> Result<Vec<Ports>, AllocError>
    requires { (m : ModelValue) → In models.now m → IsWellFormedModel m }
    ensures { IfOk result (λ ports. ports.items ≡ map ports_value models.now) }
{
    let mut all: Vec<Ports> = Vec::new(alloc);
    for model in models {
        let ports = Ports::make(alloc, key, model)?;
        all.push(ports)?;
    }
    Ok(all)
}

/// The names of the models, in order.
#[derive(Drop)]
pub(crate) struct ModelIndex {
    names: NameIndex,
    ghost few: { length names < 2 ^ 32 },
}

impl ModelIndex {
    /// The names of these models, in a netlist of this key. The time is linear in their bytes, on average over the hashes.
    pub(crate) fn make(
        alloc: Global,
        key: TextKey,
        models: &[BlifModel],
    ) -> Result<ModelIndex, AllocError>
        requires once { AreOnce (model_names models.now) }
        requires few { length models.now < 2 ^ 32 }
        ensures { IfOk result (λ index. index.names ≡ model_names models.now) }
    {
        let mut names = NameIndex::new(alloc, key);
        for model in models {
            names.add_once(alloc, model.name.bytes())?;
        }
        Ok(ModelIndex { names })
    }

    /// The number of the model with this name, counted from 0.
    pub(crate) fn find(&self, name: &[u8]) -> Option<u32>
        ensures place { result ≡ place_of self.now.names name.now }
        ensures model { (models : List ModelValue) → self.now.names ≡ model_names models → Finds models name.now result }
    {
        match self.names.place(name) {
            None => None,
            Some(place) => Some(place as u32),
        }
    }
}

/// The models of a library, the index of their names, and the ports of each.
#[derive(Drop)]
pub(crate) struct Models<'a> {
    pub list: &'a [BlifModel],
    pub index: &'a ModelIndex,
    pub ports: &'a [Ports],
}

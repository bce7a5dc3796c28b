//! The flat circuit of a library.
ghost use Rattle.std.specs.Prelude.{◌≡◌, Some, IsSome};
ghost use Rattle.netlist.specs.{cover_behind};

use crate::command::Body;
use crate::cover::Cover;
use crate::library::Library;
use std::marker::Model;
use tl_text::Name;

/// A net, identified by its driver.
#[derive(Clone, Copy, Debug, PartialEq, Eq)]
pub enum FlatNet {
    /// A regular input, by its index in [`Flat::inputs`].
    Input(u32),
    /// A latch, by its index in [`Flat::latches`].
    Latch(u32),
    /// A cover, by its index in [`Flat::covers`].
    Cover(u32),
}

/// An output of the main model.
#[derive(Drop)]
pub struct OutPort {
    pub name: Name,
    pub net: FlatNet,
}

/// A cover of an instance.
#[derive(Drop)]
pub struct FlatCover {
    /// The index of its model in the library, and its index among the model's commands.
    pub model: u32,
    pub command: u32,
    /// The nets of its inputs, in order.
    pub inputs: Vec<FlatNet>,
}

impl Model for FlatCover {
    ghost use Rattle.netlist.specs.FlatCoverValue.{FlatCoverValue};

    ghost Value = { FlatCoverValue };

    ghost view = { λ c. record { model = c.model; command = c.command; inputs = c.inputs.items } };
}

impl FlatCover {
    /// Its cover in the library that was flattened.
    pub fn cover<'a>(&self, library: &'a Library) -> &'a Cover
        requires { IsSome (cover_behind library.now self.now) }
        ensures { cover_behind library.now self.now ≡ Some result.now }
    {
        let model = &library.models[self.model as usize];
        match &model.commands[self.command as usize].body {
            Body::Cover(cover) => cover,
            Body::Latch(_) => unreachable!(),
            Body::Subckt(_) => unreachable!(),
        }
    }
}

/// A latch of an instance.
#[derive(Clone, Copy, Debug, PartialEq, Eq)]
pub struct FlatLatch {
    /// The net of the next state.
    pub input: FlatNet,
    /// The initial state.
    pub init: bool,
    /// Whether it has a control.
    pub clocked: bool,
}

/// A circuit without hierarchy. Its nets are numbered by their drivers.
#[derive(Drop)]
pub struct Flat {
    /// The name of the main model.
    pub model: Name,
    /// The main model's `.inputs` that aren't clock nets, in order.
    pub inputs: Vec<Name>,
    /// The clock nets: the names of the main model's `.clock`, and the net of the latch controls if it isn't one of them.
    pub clocks: Vec<Name>,
    /// The net of the latch controls.
    pub control: Option<Name>,
    /// The main model's outputs, in order.
    pub outputs: Vec<OutPort>,
    /// The covers and the latches of all instances, in flat order: first those of an instance itself in line order, then those
    /// of the instances that it contains, in line order.
    pub covers: Vec<FlatCover>,
    pub latches: Vec<FlatLatch>,
    /// The covers that the outputs and the latch inputs reach, each after the covers that it reads: the depth-first postorder,
    /// left to right, from the outputs and then the latch inputs.
    pub order: Vec<u32>,
    /// The greatest number of leading underscores in a port name of the main model.
    pub under: u32,
}

impl Model for Flat {
    ghost use Rattle.netlist.specs.FlatValue.{FlatValue};

    ghost Value = { FlatValue };

    ghost view = { λ f. record { model = f.model; inputs = f.inputs.items; clocks = f.clocks.items; control = f.control; outputs = f.outputs.items; covers = f.covers.items; latches = f.latches.items; order = f.order.items; under = f.under } };
}

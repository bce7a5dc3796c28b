//! A model and a library of models.
ghost use Rattle.std.specs.Prelude.{◌≡◌};

use crate::command::Command;
use std::marker::Model;
use tl_text::{Name, TextKey};

/// A model: a circuit with ports.
#[derive(Drop)]
pub struct BlifModel {
    pub name: Name,
    /// The logical line of its `.model`, counted from 1.
    pub line: u32,
    /// The names of its `.inputs` lines, in order and without repeats.
    pub inputs: Vec<Name>,
    /// The names of its `.outputs` lines, likewise.
    pub outputs: Vec<Name>,
    /// The names of its `.clock` lines, likewise.
    pub clocks: Vec<Name>,
    /// Its commands, in line order.
    pub commands: Vec<Command>,
}

impl Model for BlifModel {
    ghost use Rattle.netlist.specs.LibraryValue.{ModelValue};

    ghost Value = { ModelValue };

    ghost view = { λ m. record { name = m.name; line = m.line; inputs = m.inputs.items; outputs = m.outputs.items; clocks = m.clocks.items; commands = m.commands.items } };
}

/// The models of a netlist. The first one is the main model.
#[derive(Drop)]
pub struct Library {
    pub models: Vec<BlifModel>,
    key: TextKey,
}

impl Model for Library {
    ghost use Rattle.netlist.specs.LibraryValue.{LibraryValue};

    ghost Value = { LibraryValue };

    ghost view = { λ l. record { models = l.models.items } };
}

impl Library {
    /// The library of these models, from a text of this key.
    pub fn of(models: Vec<BlifModel>, key: TextKey) -> Library
        ensures { result ≡ record { models = models.items } }
    {
        Library { models, key }
    }

    /// The key of the netlist's text, for hashes of its names and nodes.
    pub fn key(&self) -> TextKey {
        self.key
    }
}

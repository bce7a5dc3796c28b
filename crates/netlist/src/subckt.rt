//! A subcircuit: the `.subckt` command.
use std::marker::Model;
use tl_text::Name;

/// A connection of a subcircuit.
#[derive(Drop)]
pub struct Connection {
    /// The name in the placed model.
    pub formal: Name,
    /// The name in the model that contains the subcircuit.
    pub actual: Name,
}

/// A subcircuit: an instance of a model within another model.
#[derive(Drop)]
pub struct Subckt {
    /// The name of the placed model.
    pub model: Name,
    /// Its connections, in the line's order. No formal is repeated.
    pub pairs: Vec<Connection>,
}

impl Model for Subckt {
    ghost use Rattle.netlist.specs.SubcktValue.{SubcktValue};

    ghost Value = { SubcktValue };

    ghost view = { λ s. record { model = s.model; pairs = s.pairs.items } };
}

//! The names that are driven in a model.
ghost use Rattle.std.specs.Prelude.{◌≡◌, not, IfOk, OnOk};
ghost use Rattle.blif_flat.specs.{has_name, with_name};

use crate::model::ports::Ports;
use std::alloc::{AllocError, Global};
use std::marker::Model;
use tl_text::NameIndex;

/// The names that are driven in a model: its inputs, and then those that its commands drive.
#[derive(Drop)]
pub(crate) struct Driven {
    names: NameIndex,
}

impl Model for Driven {
    ghost use Rattle.std.specs.Prelude.{ℕ, List};

    ghost Value = { List (List ℕ) };

    ghost view = { λ d. d.names };
}

impl Driven {
    /// The inputs of the model with these ports. `Err` only if memory runs out. The time is linear in their bytes, on average
    /// over the hashes.
    pub(crate) fn inputs(alloc: Global, ports: &Ports) -> Result<Driven, AllocError>
        ensures { IfOk result (λ driven. driven ≡ ports.now.inputs) }
    {
        let names = ports.copy_inputs(alloc)?;
        Ok(Driven { names })
    }

    /// Whether the name is among them.
    pub(crate) fn has(&self, name: &[u8]) -> bool
        ensures { result ≡ has_name self.now name.now }
    {
        self.names.has(name)
    }

    /// Appends a name unless it is among them, and returns whether it is new. `Err` only if memory runs out.
    pub(crate) fn add(&mut self, alloc: Global, name: &[u8]) -> Result<bool, AllocError>
        ensures added { IfOk result (λ added. added ≡ not (has_name self.old name.now)) }
        ensures ok { OnOk result (self.new ≡ with_name self.old name.now) }
    {
        self.names.add_new(alloc, name)
    }
}

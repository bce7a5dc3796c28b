//! A list of names in a refusal.
use crate::name::Name;
use std::marker::Model;

/// Names in order: of the models in a chain, or of the nets in a cycle.
#[derive(Debug, Drop)]
pub struct Names {
    list: Vec<Name>,
}

impl Model for Names {
    ghost use Rattle.std.specs.Prelude.{ℕ, List};

    ghost Value = { List (List ℕ) };

    ghost view = { λ n. n.list.items };
}

impl Names {
    ghost use Rattle.std.specs.Prelude.{◌≡◌};

    /// A list of these names.
    pub fn make(list: Vec<Name>) -> Names
        ensures { result ≡ list.items }
    {
        Names { list }
    }

    /// The names, in order.
    pub fn list(&self) -> &[Name]
        ensures { result.now ≡ self.now }
    {
        &self.list
    }
}

//! Literals, kinds of sources, pairs and roots.
ghost use Rattle.std.specs.Prelude.{◌≡◌, ◌/◌, ◌<◌, length};
ghost use Rattle.aig_core.specs.And.{complement};
ghost use Rattle.aig_core.specs.Value.{value_of};

use std::marker::Model;

/// A literal: twice a node's index, plus one for its complement.
#[derive(Clone, Copy, Debug, PartialEq, Eq, PartialOrd, Ord, Hash)]
pub struct Lit(pub u32);

/// The kind of a source.
#[derive(Clone, Copy, Debug, PartialEq, Eq)]
pub enum Kind {
    /// An input or a latch: its value changes from cycle to cycle.
    Regular,
    /// A parameter: its value seldom changes.
    Parameter,
}

/// The fan-ins of an AND node: the two literals that it multiplies.
#[derive(Clone, Copy, Debug, PartialEq, Eq, PartialOrd, Ord, Hash)]
pub struct Pair {
    /// The lower literal.
    pub x: Lit,
    /// The higher literal.
    pub y: Lit,
}

/// The literals for which a graph is built: the outputs and the next states of a circuit.
#[derive(Drop)]
pub struct Roots {
    /// The circuit's outputs, in order.
    pub outputs: Vec<Lit>,
    /// The next states of its latches, in order.
    pub next: Vec<Lit>,
}

impl Model for Roots {
    ghost use Rattle.aig_core.specs.Roots.{RootsValue};

    ghost Value = { RootsValue };

    ghost view = { λ r. record { outputs = r.outputs.items; next = r.next.items } };
}

impl Lit {
    /// The complement of this literal: the same node in the other phase.
    pub fn complement(self) -> Lit
        ensures { result.0 ≡ complement self.0 }
    {
        if self.0 % 2 == 0 {
            Lit(self.0 + 1)
        } else {
            Lit(self.0 - 1)
        }
    }
}

/// The value of a literal, given the values of the nodes by their indices. It is the value of its node, inverted if the
/// literal is a complement.
pub fn lit_value(values: &[bool], lit: Lit) -> bool
    requires { lit.0 / 2 < length values.now }
    ensures { result ≡ value_of values.now lit.0 }
{
    values[lit.0 as usize / 2] != (lit.0 % 2 == 1)
}

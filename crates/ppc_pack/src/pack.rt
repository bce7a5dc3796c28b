//! A pack and its configurations.
ghost use Rattle.std.specs.Prelude.{◌≡◌, ◌/◌, ◌<◌, List, Bool, length, map, IfOk};
ghost use Rattle.list_laws.specs.Members.{In};
ghost use Rattle.aig_core.specs.declared.lit.Lit.{Lit as LitValue};
ghost use Rattle.aig_core.specs.Roots.{lits_of};
ghost use Rattle.aig_core.specs.Value.{value_of};
ghost use Rattle.ppc_pack.specs.Pack.{IsPack, IsConf, HasOneConf};

use aig_core::{Graph, Lit, lit_value};
use std::alloc::{AllocError, Global};
use std::marker::Model;
use tl_text::Name;

/// The maximal number of AND nodes of a pack: 2^25.
pub const MOST_PACK_NODES: u32 = 33_554_432;

/// The maximal number of bits of a pack: 2^25.
pub const MOST_PACK_BITS: u32 = 33_554_432;

/// The maximal size of a pack's file, in bytes.
pub const MOST_PACK_BYTES: usize = 536_870_912;

// The limits of packs have these numbers: the contracts name the constants.
const _: () = prove!(
    MOST_PACK_NODES == 33_554_432 && MOST_PACK_BITS == 33_554_432 && MOST_PACK_BYTES == 536_870_912
);

/// A parameter of a pack: its name and its initial value.
#[derive(Debug, Drop)]
pub struct PackParam {
    pub name: Name,
    pub init: bool,
}

/// The bits of a configuration as functions of the parameters: literals of one graph, in the order of their addresses.
#[derive(Drop)]
pub struct Pack {
    params: Vec<PackParam>,
    graph: Graph,
    bits: Vec<Lit>,
}

impl Model for Pack {
    ghost use Rattle.ppc_pack.specs.Pack.{PackValue, IsPack};

    ghost Value = { PackValue };

    ghost view = { λ p. record { params = p.params.items; graph = p.graph; bits = p.bits.items } };

    ghost invariant = { λ p. IsPack p.params.items p.graph p.bits.items };
}

// The values of literals, given the values of the nodes.
fn values_of_lits(
    alloc: Global,
    node_values: &[bool],
    lits: &[Lit],
) -> Result<Vec<bool>, AllocError>
    requires { (l : LitValue) → In lits.now l → l.0 / 2 < length node_values.now }
    ensures { IfOk result (λ bits. bits.items ≡ map (value_of node_values.now) (lits_of lits.now)) }
{
    let mut bits = Vec::with_capacity(alloc, lits.len())?;
    for lit in lits {
        bits.push(lit_value(node_values, *lit))?;
    }
    Ok(bits)
}

impl Pack {
    /// The pack with these parameters, this graph over them, and these bits.
    pub fn make(params: Vec<PackParam>, graph: Graph, bits: Vec<Lit>) -> Pack
        requires { IsPack params.items graph bits.items }
        ensures { result ≡ record { params = params.items; graph = graph; bits = bits.items } }
    {
        Pack {
            params,
            graph,
            bits,
        }
    }

    /// The parameters, in their order.
    pub fn params(&self) -> &[PackParam]
        ensures value { result.now ≡ self.now.params }
        ensures pack { IsPack self.now.params self.now.graph self.now.bits }
    {
        &self.params
    }

    /// The graph. Its sources are the parameters.
    pub fn graph(&self) -> &Graph
        ensures value { result.now ≡ self.now.graph }
        ensures pack { IsPack self.now.params self.now.graph self.now.bits }
    {
        &self.graph
    }

    /// The literal of each bit, in the order of their addresses.
    pub fn bits(&self) -> &[Lit]
        ensures value { result.now ≡ self.now.bits }
        ensures pack { IsPack self.now.params self.now.graph self.now.bits }
    {
        &self.bits
    }

    /// The configuration for given values of the parameters: the value of each bit, in the order of their addresses.
    /// Evaluates the graph once. Time is linear in the nodes and the bits.
    ///
    /// `Err` only if memory runs out.
    pub fn conf(&self, alloc: Global, values: &[bool]) -> Result<Vec<bool>, AllocError>
        requires { length values.now ≡ length self.now.params }
        ensures conf { IfOk result (λ bits. IsConf self.now values.now bits.items) }

        // For any values of the parameters exactly one configuration exists.
        ensures one { (given : List Bool) → length given ≡ length self.now.params → HasOneConf self.now given }
    {
        let node_values = self.graph.eval(alloc, values)?;
        values_of_lits(alloc, &node_values, &self.bits)
    }
}

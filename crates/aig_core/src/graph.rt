//! The graph: its sources, and its AND nodes as a hashed set of pairs in the order of creation.
ghost use Rattle.std.specs.Prelude.{◌≡◌, ℕ, ◌+◌, ◌-◌, ◌*◌, ◌/◌, ◌^◌, ◌<◌, ◌≤◌, ◌↔◌, [], ◌∷◌, ◌++◌, length, Bool, List, Some, None, slice_get, vec_len, IfOk, OnErr, OnOk, position};
ghost use Rattle.aig_core.specs.And.{is_pair};

use crate::lit::{Kind, Lit, Pair, lit_value};
use crate::steps::Steps;
use indexmap::IndexSet;
use std::alloc::{AllocError, AllocFailed, Global};
use std::marker::Model;
use std::sync::ledger::Ledger;
use text_key::TextKey;

/// Why a node was not added.
#[derive(Debug, PartialEq, Eq, Drop, thiserror::Error)]
pub enum AigErr {
    /// The graph holds as many AND nodes as it can.
    #[error("full")]
    Full,
    /// Memory ran out.
    #[error("out of memory")]
    Memory,
}

/// An and-inverter graph with structural hashing.
#[derive(Drop)]
pub struct Graph {
    kinds: Vec<Kind>,
    pairs: IndexSet<Pair, TextKey>,
    max: u32,
}

impl Model for Graph {
    ghost use Rattle.std.specs.Prelude.{length, ◌+◌, ◌<◌, ◌≤◌, ◌^◌};
    ghost use Rattle.aig_core.specs.Aig.{Aig, AreNormal};

    ghost Value = { Aig };

    ghost view = { λ g. record { kinds = g.kinds.items; pairs = g.pairs.keys; max = g.max } };

    ghost use Rattle.aig_core.specs.Keeps.{Keeps};

    ghost invariant = { λ g. Keeps g.kinds.items g.pairs.keys g.max };
}

impl<T: Drop> From<AllocFailed<T>> for AigErr {
    ghost use Rattle.std.specs.Prelude.{◌≡◌};
    ghost use Rattle.aig_core.specs.declared.graph.AigErr.TheVariants.{Memory};

    ghost from_gives = { λ _ e. e ≡ Memory };

    fn from(_: AllocFailed<T>) -> AigErr {
        AigErr::Memory
    }
}

// The place of a pair, by its hash.
fn place_of(pairs: &IndexSet<Pair, TextKey>, pair: Pair) -> Option<usize>
    ensures { result ≡ position (is_pair pair.x.0 pair.y.0) pairs.now.keys }
{
    pairs.get_index_of(&pair)
}

// Appends a new pair.
fn push_new(pairs: &mut IndexSet<Pair, TextKey>, pair: Pair) -> Result<(), AllocError>
    requires { position (is_pair pair.x.0 pair.y.0) pairs.old.keys ≡ None }
    ensures keys { OnOk result (pairs.new.keys ≡ pairs.old.keys ++ pair ∷ []) }
    ensures err { OnErr result (pairs.new.keys ≡ pairs.old.keys) }
{
    pairs.insert_full(pair)?;
    Ok(())
}

impl From<AllocError> for AigErr {
    ghost use Rattle.std.specs.Prelude.{◌≡◌};
    ghost use Rattle.aig_core.specs.declared.graph.AigErr.TheVariants.{Memory};

    ghost from_gives = { λ _ e. e ≡ Memory };

    fn from(_: AllocError) -> AigErr {
        AigErr::Memory
    }
}

impl Graph {
    ghost use Rattle.aig_core.specs.Aig.{IsNormal, Aig, AreNormal, IsLit, IsAnd, first_and, node_count, pair_of};
    ghost use Rattle.aig_core.specs.And.{and_in_order, and_of, with_pairs};
    ghost use Rattle.aig_core.specs.Value.{FitsGraph, HasOneFit, IsProduct, KeepsValues};

    /// A graph with these sources and no AND node, under the key of no text. It can hold at most `max` AND nodes.
    ///
    /// `Err` only if memory runs out.
    pub fn make(alloc: Global, kinds: Vec<Kind>, max: u32) -> Result<Graph, AllocError>
        requires { vec_len kinds + max < 2 ^ 30 }
        ensures { IfOk result (λ g. g ≡ record { kinds = kinds.items; pairs = []; max = max }) }
    {
        Graph::keyed(alloc, TextKey::of(b""), kinds, max)
    }

    /// The same graph, whose pairs are hashed under this key. It is to be the key of a text that determines all pairs, so that
    /// whoever writes the text can't choose pairs that collide.
    ///
    /// `Err` only if memory runs out.
    pub fn keyed(
        alloc: Global,
        key: TextKey,
        kinds: Vec<Kind>,
        max: u32,
    ) -> Result<Graph, AllocError>
        requires { vec_len kinds + max < 2 ^ 30 }
        ensures { IfOk result (λ g. g ≡ record { kinds = kinds.items; pairs = []; max = max }) }
    {
        Ok(Graph {
            kinds,
            pairs: IndexSet::with_hasher(alloc, key),
            max,
        })
    }

    /// The key of the hashes of pairs.
    pub fn key(&self) -> TextKey {
        *self.pairs.hasher()
    }

    /// The number of sources. Their indices begin at 1.
    ///
    /// The contract also says that the graph is normal, as every graph is, and that exactly one list of values fits the graph
    /// for given values of the sources.
    pub fn sources(&self) -> u32
        ensures count { result ≡ length self.now.kinds }
        ensures small { result < 2 ^ 30 }
        ensures normal { AreNormal (first_and self.now) self.now.pairs }
        ensures one { (given : List Bool) → length given ≡ length self.now.kinds → HasOneFit self.now given }
    {
        self.kinds.len() as u32
    }

    /// The number of indices: the constant, the sources and the AND nodes.
    ///
    /// The contract also says what every graph keeps about its pairs.
    pub fn len(&self) -> u32
        ensures count { result ≡ node_count self.now }
        ensures small { result ≤ 2 ^ 30 }
        ensures room { length self.now.pairs ≤ self.now.max }
        ensures normal { AreNormal (first_and self.now) self.now.pairs }
    {
        1 + self.kinds.len() as u32 + self.pairs.len() as u32
    }

    /// The kind of the source with index `n`.
    pub fn kind(&self, n: u32) -> Kind
        requires above { 1 ≤ n }
        requires below { n < first_and self.now }
        ensures { slice_get self.now.kinds (n - 1) ≡ Some result }
    {
        self.kinds[n as usize - 1]
    }

    /// The product of two literals. This is a constant or one of the literals if that is its value, and otherwise the
    /// positive literal of their AND node. The node is created unless it exists (structural hashing).
    ///
    /// `Full` if and only if a new node is needed and `max` of them exist. `Memory` only if memory runs out. Both leave the
    /// graph unchanged. Expected time is constant.
    pub fn and(&mut self, a: Lit, b: Lit) -> Result<Lit, AigErr>
        requires a_in { IsLit self.old a.0 }
        requires b_in { IsLit self.old b.0 }
        ensures lit { IfOk result (λ lit. lit.0 ≡ (and_of self.old a.0 b.0).lit) }
        ensures ok { OnOk result (self.new ≡ with_pairs self.old (and_of self.old a.0 b.0).pairs) }
        ensures err { OnErr result (self.new ≡ self.old) }
        ensures full { (result ≡ Err AigErr.Full) ↔ (self.old.max < length (and_of self.old a.0 b.0).pairs) }

        // The result is a literal of the graph whose value is the product, and all other literals keep their values.
        ensures is_lit { IfOk result (λ lit. IsLit self.new lit.0) }
        ensures product { IfOk result (λ lit. IsProduct self.new a.0 b.0 lit.0) }
        ensures kept { KeepsValues self.old self.new }
    {
        let lit = self.and_in_order(a.0.min(b.0), a.0.max(b.0))?;
        Ok(lit)
    }

    // The product of two literals that are in ascending order.
    fn and_in_order(&mut self, x: u32, y: u32) -> Result<Lit, AigErr>
        requires order { x ≤ y }
        requires y_in { IsLit self.old y }
        ensures lit { IfOk result (λ lit. lit.0 ≡ (and_in_order (first_and self.old) self.old.pairs x y).lit) }
        ensures ok { OnOk result (self.new ≡ with_pairs self.old (and_in_order (first_and self.old) self.old.pairs x y).pairs) }
        ensures err { OnErr result (self.new ≡ self.old) }
        ensures full { (result ≡ Err AigErr.Full) ↔ (self.old.max < length (and_in_order (first_and self.old) self.old.pairs x y).pairs) }
        ensures normal { AreNormal (first_and self.old) self.old.pairs }
    {
        let first = 1 + self.kinds.len() as u32;
        if x == 0 {
            return Ok(Lit(0));
        }
        if x == 1 {
            return Ok(Lit(y));
        }
        if x == y {
            return Ok(Lit(x));
        }
        if x / 2 == y / 2 {
            return Ok(Lit(0));
        }
        let pair = Pair {
            x: Lit(x),
            y: Lit(y),
        };
        match place_of(&self.pairs, pair) {
            Some(i) => Ok(Lit(2 * (first + i as u32))),
            None => {
                let i = self.pairs.len() as u32;
                if i == self.max {
                    return Err(AigErr::Full);
                }
                push_new(&mut self.pairs, pair)?;
                Ok(Lit(2 * (first + i)))
            }
        }
    }

    /// The pair of an AND node, for a caller that counts no steps. Constant time; allocates no memory.
    pub fn pair_at(&self, n: u32) -> Pair
        requires { IsAnd self.now n }
        ensures pair { pair_of self.now n ≡ Some result }
        ensures normal { IsNormal n result }
    {
        self.pairs.as_slice()[n as usize - 1 - self.kinds.len()]
    }

    /// The pair of an AND node. Counts as a step. Constant time; allocates no memory.
    pub fn node<L: Ledger>(&self, n: u32, steps: &mut Steps<L>) -> Pair
        requires { IsAnd self.now n }
        ensures pair { pair_of self.now n ≡ Some result }
        ensures normal { IsNormal n result }
        ensures cost { steps.new ≡ steps.old + 1 }
    {
        steps.tick();
        self.pair_at(n)
    }

    /// The value of each index for given values of the sources. Time is linear in the number of indices.
    ///
    /// `Err` only if memory runs out.
    pub fn eval(&self, alloc: Global, sources: &[bool]) -> Result<Vec<bool>, AllocError>
        requires { length sources.now ≡ length self.now.kinds }
        ensures fits { IfOk result (λ values. FitsGraph self.now sources.now values.items) }

        // For any values of the sources, exactly one list of values fits.
        ensures one { (given : List Bool) → length given ≡ length self.now.kinds → HasOneFit self.now given }
    {
        self.node_values(alloc, sources)
    }

    // The values in the order of the indices.
    fn node_values(&self, alloc: Global, sources: &[bool]) -> Result<Vec<bool>, AllocError>
        requires { length sources.now ≡ length self.now.kinds }
        ensures fits { IfOk result (λ values. FitsGraph self.now sources.now values.items) }
        ensures normal { AreNormal (first_and self.now) self.now.pairs }
    {
        let mut values = Vec::with_capacity(alloc, 1 + self.kinds.len() + self.pairs.len())?;
        values.push(false)?;
        values.extend_from_slice(sources)?;
        for pair in self.pairs.as_slice() {
            let x = lit_value(&values, pair.x);
            let y = lit_value(&values, pair.y);
            values.push(x && y)?;
        }
        Ok(values)
    }
}

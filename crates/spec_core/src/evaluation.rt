//! A pack evaluated for the values of its parameters, and how a change propagates through it.
ghost use Rattle.std.specs.Prelude.{◌≡◌, ℕ, ◌+◌, ◌<◌, ◌≤◌, Bool, List, length, replicate, map, IfOk, MatchOption};
ghost use Rattle.list_laws.specs.Members.{In};
ghost use Rattle.tl_io.specs.Assigns.{AreAssigned};
ghost use Rattle.aig_core.specs.declared.lit.Pair.{Pair as PairValue};
ghost use Rattle.aig_core.specs.Aig.{first_and, node_count, IsAnd, IsNode, AreNormal};
ghost use Rattle.aig_core.specs.Value.{FitsGraph};
ghost use Rattle.ppc_pack.specs.declared.pack.PackParam.{PackParam as PackParamValue};
ghost use Rattle.ppc_pack.specs.Pack.{IsPack, inits_of};
ghost use Rattle.dirty_idx.specs.Marks.{IsLeast, IsEmpty, without};
ghost use Rattle.spec_core.specs.Differences.{config_bit};
ghost use Rattle.spec_core.specs.Sweep.{Belong, bits_under, product_of, with_marks, stored, with_assigned, IsSweeping, IsSwept};
ghost use Rattle.spec_core.specs.Keeps.{params_in, IsIdle, IsChange};

use aig_core::{Steps, lit_value};
use dirty_idx::{CountedPack, Readers, Tiers};
use ppc_pack::{Pack, PackParam};
use std::alloc::{AllocError, Global};
use std::marker::Model;
use std::sync::ledger::Ledger;
use tl_io::Assign;

// A pack for given values of its parameters, and what is out of date after a change. Its pairs are read only by counted
// calls.
#[derive(Drop)]
pub(crate) struct Evaluation {
    pack: CountedPack,
    readers: Readers,
    // The values of the pack's nodes by their indices: the constant, the parameters, and the AND nodes.
    values: Vec<bool>,
    // The AND nodes that must be evaluated again, and the addresses whose literals changed. Both are empty between events.
    nodes: Tiers,
    addresses: Tiers,
}

impl Model for Evaluation {
    ghost use Rattle.spec_core.specs.Sweep.{EvaluationValue, Belong};

    ghost Value = { EvaluationValue };

    ghost view = { λ e. record { pack = e.pack.pack; reads = e.pack.reads; readers = e.readers; now = record { values = e.values.items; nodes = e.nodes; addresses = e.addresses } } };

    ghost invariant = { λ e. Belong e.pack.pack e.readers (record { values = e.values.items; nodes = e.nodes; addresses = e.addresses }) };
}

// Adds each of these numbers to a set.
fn mark_all(marks: &mut Tiers, numbers: &[u32])
    requires { (n : ℕ) → In numbers.now n → n < length marks.old }
    ensures { marks.new ≡ with_marks marks.old numbers.now }
{
    for n in numbers {
        marks.mark(*n);
    }
}

// The initial values of parameters.
fn inits(alloc: Global, params: &[PackParam]) -> Result<Vec<bool>, AllocError>
    ensures { IfOk result (λ values. values.items ≡ inits_of params.now) }
{
    params.iter().map(|param| param.init).collect(alloc)
}

// The initial values of a pack's nodes: one evaluation of its graph.
fn start_values(alloc: Global, pack: &Pack) -> Result<Vec<bool>, AllocError>
    ensures { IfOk result (λ values. FitsGraph pack.now.graph (inits_of pack.now.params) values.items) }
{
    let inits = inits(alloc, pack.params())?;
    pack.graph().eval(alloc, &inits)
}

impl Evaluation {
    // The pack at the initial values.
    //
    // `Err` only if memory runs out. No other call allocates memory.
    pub(crate) fn make(alloc: Global, pack: Pack) -> Result<Evaluation, AllocError>
        ensures pack { IfOk result (λ e. e.pack ≡ pack) }
        ensures unread { IfOk result (λ e. e.reads ≡ 0) }
        ensures idle { IfOk result (λ e. IsIdle e.pack e.now) }
        ensures params { IfOk result (λ e. params_in e.pack e.now.values ≡ inits_of pack.params) }

        // What every pack keeps.
        ensures normal { AreNormal (first_and pack.graph) pack.graph.pairs }
        ensures is { IsPack pack.params pack.graph pack.bits }
    {
        let nodes = Tiers::make(alloc, pack.graph().len())?;
        let addresses = Tiers::make(alloc, pack.bits().len() as u32)?;
        let readers = Readers::make(alloc, &pack)?;
        let values = start_values(alloc, &pack)?;
        Ok(Evaluation {
            pack: CountedPack::unread(pack),
            readers,
            values,
            nodes,
            addresses,
        })
    }

    // The number of bits.
    pub(crate) fn bits(&self) -> u32
        ensures { result ≡ length self.now.pack.bits }
    {
        self.pack.bits().len() as u32
    }

    // The value of the bit at an address under the values of the nodes.
    pub(crate) fn bit(&self, address: u32) -> bool
        requires { address < length self.now.pack.bits }
        ensures { result ≡ config_bit (bits_under self.now.pack self.now.now.values) address }
    {
        lit_value(&self.values, self.pack.bits()[address as usize])
    }

    // The values of all bits.
    pub(crate) fn config(&self, alloc: Global) -> Result<Vec<bool>, AllocError>
        ensures { IfOk result (λ bits. bits.items ≡ bits_under self.now.pack self.now.now.values) }
    {
        let count = self.bits();
        let mut bits = Vec::with_capacity(alloc, count as usize)?;
        for address in 0..count {
            bits.push(self.bit(address))?;
        }
        Ok(bits)
    }

    // The parameters' values.
    pub(crate) fn params(&self) -> &[bool]
        ensures value { result.now ≡ params_in self.now.pack self.now.now.values }
        ensures len { length result.now ≡ length self.now.pack.params }
    {
        &self.values[1..1 + self.pack.params().len()]
    }

    // Stores the value of a node. If the value is new, marks everything that reads the node.
    fn store(&mut self, n: u32, value: bool)
        requires { n < node_count self.old.pack.graph }
        ensures { self.new ≡ record self.old { now = stored self.old.readers self.old.now n value } }
    {
        if self.values[n as usize] != value {
            self.values[n as usize] = value;
            mark_all(&mut self.nodes, self.readers.nodes(n));
            mark_all(&mut self.addresses, self.readers.addresses(n));
        }
    }

    // Gives new values to parameters.
    fn assign(&mut self, assigns: &[Assign])
        requires { AreAssigned (length self.old.pack.graph.kinds) assigns.now }
        ensures { self.new ≡ record self.old { now = with_assigned self.old.readers self.old.now assigns.now } }
    {
        for assign in assigns {
            self.store(1 + assign.param as u32, assign.bit);
        }
    }

    // Takes the least marked node. The contract also says what every evaluation keeps.
    fn take_node(&mut self) -> Option<u32>
        ensures least { MatchOption result (IsEmpty self.old.now.nodes) (λ n. IsLeast self.old.now.nodes n) }
        ensures rest { self.new ≡ record self.old { now = record self.old.now { nodes = without self.old.now.nodes result } } }
        ensures together { Belong self.old.pack self.old.readers self.old.now }
    {
        self.nodes.take_first()
    }

    // Takes the least marked address.
    pub(crate) fn take_address(&mut self) -> Option<u32>
        ensures least { MatchOption result (IsEmpty self.old.now.addresses) (λ a. IsLeast self.old.now.addresses a) }
        ensures rest { self.new ≡ record self.old { now = record self.old.now { addresses = without self.old.now.addresses result } } }
    {
        self.addresses.take_first()
    }

    // Evaluates an AND node again.
    fn visit<L: Ledger>(&mut self, n: u32, steps: &mut Steps<L>)
        requires { IsAnd self.old.pack.graph n }
        ensures value { (pair : PairValue) → IsNode self.old.pack.graph pair n → self.new ≡ record self.old { reads = self.old.reads + 1; now = stored self.old.readers self.old.now n (product_of self.old.now.values pair) } }
        ensures cost { steps.new ≡ steps.old + 1 }
    {
        let pair = self.pack.node(n, steps);
        let x = lit_value(&self.values, pair.x);
        let y = lit_value(&self.values, pair.y);
        self.store(n, x && y);
    }

    // Evaluates the marked nodes and everything that changes with them, the least first.
    fn sweep<L: Ledger>(&mut self, steps: &mut Steps<L>)
        ensures pack { self.new.pack ≡ self.old.pack }
        ensures readers { self.new.readers ≡ self.old.readers }
        ensures together { Belong self.new.pack self.new.readers self.new.now }
        ensures swept { (old new p q : List Bool) → FitsGraph self.old.pack.graph p old → FitsGraph self.old.pack.graph q new → IsSweeping self.old.pack old new self.old.now steps.old steps.old → IsSwept self.old.pack old new self.new.now steps.old steps.new }
        ensures counted { self.new.reads + steps.old ≡ self.old.reads + steps.new }
    {
        while let Some(n) = self.take_node() {
            self.visit(n, steps);
        }
    }

    // Gives new values to parameters, and brings the values of the nodes up to date.
    pub(crate) fn change<L: Ledger>(&mut self, assigns: &[Assign], steps: &mut Steps<L>)
        requires idle { IsIdle self.old.pack self.old.now }
        requires assigns { AreAssigned (length self.old.pack.graph.kinds) assigns.now }
        ensures pack { self.new.pack ≡ self.old.pack }
        ensures change { IsChange self.old.pack assigns.now self.old.now self.new.now steps.old steps.new }
        ensures addresses { length self.new.now.addresses ≡ length self.old.pack.bits }
        ensures counted { self.new.reads + steps.old ≡ self.old.reads + steps.new }
    {
        self.assign(assigns);
        self.sweep(steps);
    }
}

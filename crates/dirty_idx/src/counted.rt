//! A pack whose pairs can be read only by a counted call.
ghost use Rattle.std.specs.Prelude.{◌≡◌, ◌+◌};
ghost use Rattle.aig_core.specs.Aig.{IsAnd, IsNormal, pair_of};
ghost use Rattle.ppc_pack.specs.Pack.{IsPack};

use crate::tally::Tally;
use aig_core::{Lit, Pair, Steps};
use ppc_pack::{Pack, PackParam};
use std::marker::Model;
use std::sync::ledger::Ledger;

/// A pack whose pairs can be read only by [`CountedPack::node`], and the number of these reads.
///
/// A read is a step of the counter that is passed in. It also adds one to a ghost number of the pack. So a clause can say
/// that all reads of a call are steps of one counter.
#[derive(Drop)]
pub struct CountedPack {
    pack: Pack,
    readings: Tally,
}

impl Model for CountedPack {
    ghost use Rattle.dirty_idx.specs.Counted.{CountedValue};

    ghost Value = { CountedValue };

    ghost view = { λ c. record { pack = c.pack; reads = c.readings.total } };
}

impl CountedPack {
    /// A pack that has not been read yet.
    pub fn unread(pack: Pack) -> CountedPack
        ensures { result ≡ record { pack = pack; reads = 0 } }
    {
        CountedPack {
            pack,
            readings: Tally::start(),
        }
    }

    /// The parameters in their order.
    pub fn params(&self) -> &[PackParam]
        ensures value { result.now ≡ self.now.pack.params }
        ensures pack { IsPack self.now.pack.params self.now.pack.graph self.now.pack.bits }
    {
        self.pack.params()
    }

    /// The literal of each bit, in the order of their addresses.
    pub fn bits(&self) -> &[Lit]
        ensures value { result.now ≡ self.now.pack.bits }
        ensures pack { IsPack self.now.pack.params self.now.pack.graph self.now.pack.bits }
    {
        self.pack.bits()
    }

    /// The pair of an AND node. Counts as a step and as a read of the pack. Constant time; allocates no memory.
    pub fn node<L: Ledger>(&mut self, n: u32, steps: &mut Steps<L>) -> Pair
        requires { IsAnd self.old.pack.graph n }
        ensures pair { pair_of self.old.pack.graph n ≡ Some result }
        ensures normal { IsNormal n result }
        ensures read { self.new ≡ record self.old { reads = self.old.reads + 1 } }
        ensures cost { steps.new ≡ steps.old + 1 }
    {
        self.readings.add();
        self.pack.graph().node(n, steps)
    }
}

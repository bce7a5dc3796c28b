//! A specialiser that shows only its changes.
ghost use Rattle.std.specs.Prelude.{◌≡◌, ◌+◌, length};
ghost use Rattle.tl_io.specs.Assigns.{AreAssigned};
ghost use Rattle.ppc_pack.specs.Pack.{IsConf};
ghost use Rattle.spec_core.specs.Events.{IsSet};
ghost use Rattle.spec_core.specs.Touched.{IsWithinTouched};

use crate::specialiser::Specialiser;
use aig_core::Steps;
use std::marker::Model;
use std::sync::ledger::Ledger;
use tl_io::{Assign, Write};

/// A specialiser that can only be asked for changes. Its configuration can't be read, except for the bits that a change
/// rewrites.
#[derive(Drop)]
pub struct Changer {
    specialiser: Specialiser,
}

impl Model for Changer {
    ghost use Rattle.spec_core.specs.Specialiser.{SpecialiserValue};

    ghost Value = { SpecialiserValue };

    ghost view = { λ c. c.specialiser };
}

impl Changer {
    /// Only the changes of this specialiser.
    pub fn over(specialiser: Specialiser) -> Changer
        ensures { result ≡ specialiser }
    {
        Changer { specialiser }
    }

    /// Gives new values to parameters, as [`Specialiser::change`] does.
    pub fn change<L: Ledger>(&mut self, assigns: &[Assign], steps: &mut Steps<L>)
        requires assigns { AreAssigned (length self.old.state.params) assigns.now }
        ensures pack { self.new.pack ≡ self.old.pack }
        ensures set { IsSet self.old.pack assigns.now self.old.state self.new.writes self.new.state }
        ensures cost { IsWithinTouched self.old.pack.graph self.old.state.params self.new.state.params steps.old steps.new }
        ensures counted { self.new.reads + steps.old ≡ self.old.reads + steps.new }
        ensures steady { IsConf self.old.pack self.old.state.params self.old.state.config → IsConf self.old.pack self.new.state.params self.new.state.config }
    {
        self.specialiser.change(assigns, steps);
    }

    /// The writes of the last change, ascending; none before the first.
    pub fn writes(&self) -> &[Write]
        ensures { result.now ≡ self.now.writes }
    {
        self.specialiser.writes()
    }
}

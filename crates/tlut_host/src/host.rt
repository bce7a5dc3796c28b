//! What an open handle holds.
ghost use Rattle.std.specs.Prelude.{◌≡◌, ◌≢◌, ◌<◌, ◌≤◌, [], length, map, Some, slice_get, IfOk, MatchOption};
ghost use Rattle.tl_io.specs.Assigns.{AreAssigned};
ghost use Rattle.ppc_pack.specs.Pack.{IsConf, inits_of};
ghost use Rattle.spec_core.specs.Events.{IsScrub};
ghost use Rattle.tl_text.specs.NameIndex.{place_of};
ghost use Rattle.tlut_host.specs.declared.setting.TheConstants.{DONE};
ghost use Rattle.tlut_host.specs.Calls.{IsUpsetCall};
ghost use Rattle.tlut_host.specs.Kept.{param_names};
ghost use Rattle.tlut_host.specs.Settings.{IsChange, settings_status, assign_of};

use crate::gather::gather;
use crate::setting::{DONE, ParameterSetting, RANGE};
use aig_core::Steps;
use ppc_pack::{Pack, PackParam};
use spec_core::Specialiser;
use std::alloc::{AllocError, Global};
use std::marker::{Brand, Model};
use std::sync::ledger::{Blank, Ledger};
use tl_io::{Assign, Write};
use tl_text::{Name, NameIndex};

/// A specialiser, with the names of its parameters, and room for new values of all of them.
#[derive(Drop)]
pub struct NamedSpecialiser {
    specialiser: Specialiser,
    names: Vec<Name>,
    index: NameIndex,
    assigns: Vec<Assign>,
}

impl Model for NamedSpecialiser {
    ghost use Rattle.std.specs.Prelude.{vec_capacity};
    ghost use Rattle.spec_core.specs.Specialiser.{SpecialiserValue};
    ghost use Rattle.tlut_host.specs.Kept.{IsKept};

    ghost Value = { SpecialiserValue };

    ghost view = { λ h. h.specialiser };

    ghost invariant = { λ h. IsKept h.specialiser.pack.params h.names.items h.index (vec_capacity h.assigns) };
}

// The names of parameters, in their order.
fn names_of(alloc: Global, params: &[PackParam]) -> Result<Vec<Name>, AllocError>
    ensures { IfOk result (λ names. names.items ≡ param_names params.now) }
{
    let mut names = Vec::with_capacity(alloc, params.len())?;
    for param in params {
        names.push(Name::make(alloc, param.name.bytes())?)?;
    }
    Ok(names)
}

// A change, counted by this counter.
fn change_with<L: Ledger>(specialiser: &mut Specialiser, assigns: &[Assign], blank: Blank)
    requires name { blank.name ≡ L.name }
    requires parts { blank.parts ≡ L.parts }
    requires some { 0 < L.parts }
    requires assigns { AreAssigned (length specialiser.old.state.params) assigns.now }
    ensures { IsChange assigns.now specialiser.old specialiser.new }
{
    let mut steps = Steps::<L>::start(blank);
    specialiser.change(assigns, &mut steps);
}

impl NamedSpecialiser {
    // The pack at its initial values. `Err` only if memory runs out. No other call allocates memory.
    pub(crate) fn make(alloc: Global, pack: Pack) -> Result<NamedSpecialiser, AllocError>
        ensures pack { IfOk result (λ h. h.pack ≡ pack) }
        ensures params { IfOk result (λ h. h.state.params ≡ inits_of pack.params) }
        ensures config { IfOk result (λ h. IsConf pack (inits_of pack.params) h.state.config) }
        ensures writes { IfOk result (λ h. h.writes ≡ []) }
    {
        let names = names_of(alloc, pack.params())?;
        let index = NameIndex::of(alloc, &names)?;
        let assigns = Vec::with_capacity(alloc, pack.params().len())?;
        let specialiser = Specialiser::make(alloc, pack)?;
        Ok(NamedSpecialiser {
            specialiser,
            names,
            index,
            assigns,
        })
    }

    // Gives new values to parameters in ascending order, each at most once. Answers `DONE`, or why the settings are refused,
    // and then nothing changes.
    pub(crate) fn set(&mut self, settings: &[ParameterSetting]) -> u32
        ensures status { result ≡ settings_status (length self.old.state.params) 0 settings.now }
        ensures done { result ≡ DONE → IsChange (map assign_of settings.now) self.old self.new }
        ensures refused { result ≢ DONE → self.new ≡ self.old }
    {
        let params = self.specialiser.values().len();
        let status = gather(&mut self.assigns, params, settings);
        if status == DONE {
            change_with::<Brand>(&mut self.specialiser, &self.assigns, Blank::new(1));
        }
        status
    }

    // Flips the configuration bit at an address. `DONE`, or `RANGE` if there is none, and then nothing changes.
    pub(crate) fn upset(&mut self, address: u32) -> u32
        ensures { IsUpsetCall address self.old self.new result }
    {
        if address as usize >= self.specialiser.image().len() {
            return RANGE;
        }
        self.specialiser.upset(address);
        DONE
    }

    // Sets every upset bit right.
    pub(crate) fn scrub(&mut self)
        ensures pack { self.new.pack ≡ self.old.pack }
        ensures scrub { IsScrub self.old.pack self.old.state self.new.writes self.new.state }
        ensures right { IsConf self.old.pack self.new.state.params self.new.state.config }
    {
        self.specialiser.scrub();
    }

    // The name of a parameter, or none if there is none of this number.
    pub(crate) fn name(&self, number: usize) -> Option<&[u8]>
        ensures { MatchOption result (length (param_names self.now.pack.params) ≤ number) (λ n. slice_get (param_names self.now.pack.params) number ≡ Some n.now) }
    {
        let name = self.names.get(number)?;
        Some(name.bytes())
    }

    // The number of the parameter of a name, or none if there is none.
    pub(crate) fn number(&self, name: &[u8]) -> Option<usize>
        ensures { result ≡ place_of (param_names self.now.pack.params) name.now }
    {
        self.index.place(name)
    }

    // The writes of the last event.
    pub(crate) fn writes(&self) -> &[Write]
        ensures { result.now ≡ self.now.writes }
    {
        self.specialiser.writes()
    }

    // The configuration of the device.
    pub(crate) fn image(&self) -> &[bool]
        ensures { result.now ≡ self.now.state.config }
    {
        self.specialiser.image()
    }

    // The values of the parameters.
    pub(crate) fn values(&self) -> &[bool]
        ensures { result.now ≡ self.now.state.params }
    {
        self.specialiser.values()
    }
}

//! A host at a limited rate.
ghost use Rattle.std.specs.Prelude.{◌≡◌, ◌<◌, ◌≤◌, Bool, List, [], length, IfOk};
ghost use Rattle.tl_io.specs.Assigns.{AreAssigned};
ghost use Rattle.ppc_pack.specs.Pack.{IsConf, inits_of};
ghost use Rattle.pace_core.specs.Backlog.{IsBehind, IsLate};
ghost use Rattle.tlut_host.specs.Paced.{IsPacing, IsRequest, IsCatchUp, IsTick};
ghost use Rattle.tlut_host.specs.Calls.{IsAskCall};

use crate::gather::gather;
use crate::setting::{DONE, ParameterSetting};
use aig_core::Steps;
use pace_core::Backlog;
use ppc_pack::Pack;
use spec_core::{Changer, Specialiser};
use std::alloc::{AllocError, Global};
use std::marker::{Brand, Model};
use std::sync::ledger::{Blank, Ledger};
use tl_io::{Assign, Write};

/// The changes of a specialiser, a device that is behind them and takes `rate` bits per tick, and room for new values of all
/// parameters.
#[derive(Drop)]
pub struct PacedHost {
    specialiser: Changer,
    backlog: Backlog,
    assigns: Vec<Assign>,
    params: usize,
    rate: u32,
}

impl Model for PacedHost {
    ghost use Rattle.std.specs.Prelude.{◌+◌, vec_capacity};
    ghost use Rattle.tlut_host.specs.Paced.{PacedValue, IsPacedKept};

    ghost Value = { PacedValue };

    ghost view = { λ p. record {
      pack = p.specialiser.pack;
      params = p.specialiser.state.params;
      config = p.backlog.config;
      writes = p.backlog.writes;
      rate = p.rate;
      looks = p.specialiser.reads + p.backlog.looks;
    } };

    ghost invariant = { λ p. IsPacedKept p.specialiser p.backlog p.rate p.params (vec_capacity p.assigns) };
}

// A request, counted by this counter.
fn request_with<L: Ledger>(
    specialiser: &mut Changer,
    backlog: &mut Backlog,
    assigns: &[Assign],
    blank: Blank,
)
    requires name { blank.name ≡ L.name }
    requires parts { blank.parts ≡ L.parts }
    requires some { 0 < L.parts }
    requires assigns { AreAssigned (length specialiser.old.state.params) assigns.now }
    requires pacing { IsPacing specialiser.old backlog.old }
    ensures { IsRequest assigns.now specialiser.old backlog.old specialiser.new backlog.new }
{
    let mut steps = Steps::<L>::start(blank);
    specialiser.change(assigns, &mut steps);
    backlog.ask(specialiser.writes(), &mut steps);
}

// The writes of a tick, counted by this counter.
fn catch_up_with<L: Ledger>(backlog: &mut Backlog, rate: u32, blank: Blank)
    requires name { blank.name ≡ L.name }
    requires parts { blank.parts ≡ L.parts }
    requires some { 0 < L.parts }
    requires late { IsLate backlog.old }
    ensures { (wanted : List Bool) → IsBehind backlog.old wanted → IsCatchUp rate wanted backlog.old backlog.new }
{
    let mut steps = Steps::<L>::start(blank);
    backlog.catch_up(rate, &mut steps);
}

impl PacedHost {
    // The pack at its initial values, with their configuration on the device. `Err` only if memory runs out. No other call
    // allocates memory.
    pub(crate) fn make(alloc: Global, pack: Pack, rate: u32) -> Result<PacedHost, AllocError>
        requires { 1 ≤ rate }
        ensures pack { IfOk result (λ h. h.pack ≡ pack) }
        ensures params { IfOk result (λ h. h.params ≡ inits_of pack.params) }
        ensures config { IfOk result (λ h. IsConf pack (inits_of pack.params) h.config) }
        ensures writes { IfOk result (λ h. h.writes ≡ []) }
        ensures rate { IfOk result (λ h. h.rate ≡ rate) }
    {
        let params = pack.params().len();
        let assigns = Vec::with_capacity(alloc, params)?;
        let specialiser = Specialiser::make(alloc, pack)?;
        let backlog = Backlog::make(alloc, specialiser.image())?;
        Ok(PacedHost {
            specialiser: Changer::over(specialiser),
            backlog,
            assigns,
            params,
            rate,
        })
    }

    // Requests new values of parameters in ascending order, each at most once, and tells how many bits of the device differ from
    // their configuration. Answers `DONE`, or why the settings are refused, and then nothing changes.
    pub(crate) fn ask(&mut self, settings: &[ParameterSetting], waiting: &mut usize) -> u32
        ensures { IsAskCall settings.now self.old self.new waiting.old waiting.new result }
    {
        let status = gather(&mut self.assigns, self.params, settings);
        if status == DONE {
            request_with::<Brand>(
                &mut self.specialiser,
                &mut self.backlog,
                &self.assigns,
                Blank::new(1),
            );
            *waiting = self.backlog.waiting() as usize;
        }
        status
    }

    // Lets the clock tick: answers whether the device has the configuration of the requested values, and writes the first bits
    // that differ.
    pub(crate) fn tick(&mut self) -> bool
        ensures { IsTick self.old self.new result }
    {
        let is_right = self.backlog.waiting() == 0;
        catch_up_with::<Brand>(&mut self.backlog, self.rate, Blank::new(1));
        is_right
    }

    // The writes of the last tick.
    pub(crate) fn writes(&self) -> &[Write]
        ensures { result.now ≡ self.now.writes }
    {
        self.backlog.writes()
    }
}

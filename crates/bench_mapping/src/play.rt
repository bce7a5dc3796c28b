//! Plays cycles and changes.
ghost use Rattle.std.specs.Prelude.{◌≡◌, ◌<◌, ◌≤◌, ◌^◌, length, IfOk};
ghost use Rattle.lut_sim.specs.Playable.{IsPlayable};

use crate::bench_err::BenchErr;
use crate::meter::Meter;
use crate::random::Random;
use aig_core::Steps;
use cover_pick::Template;
use lut_sim::{Shape, Sim};
use ppc_pack::Pack;
use spec_core::Specialiser;
use std::marker::Brand;
use std::sync::ledger::{Blank, Ledger};
use tl_io::Assign;

// Sets bits to pseudo-random values.
fn draw(random: &mut Random, bits: &mut [bool])
    ensures { length bits.new ≡ length bits.old }
{
    for bit in bits {
        *bit = random.below(2) == 1;
    }
}

// How many of some bits are 1.
fn ones(bits: &[bool]) -> u64 {
    bits.iter().filter(|bit| **bit).count() as u64
}

// Plays cycles under a configuration, each with its own inputs, and returns how many outputs were 1 in all.
fn play(sim: &mut Sim, config: &[bool], inputs: &mut [bool], cycles: u32) -> u64
    requires config { length config.now ≡ sim.old.template.bits }
    requires inputs { length inputs.old ≡ sim.old.shape.regular }
{
    let mut random = Random::new();
    let mut total = 0u64;
    for _ in 0..cycles {
        draw(&mut random, inputs);
        sim.cycle(config, inputs);
        total = total.saturating_add(ones(sim.outputs()));
    }
    total
}

/// Plays cycles of a template under its pack's configuration.
pub fn play_cycles(
    meter: Meter<'_>,
    template: Template,
    shape: Shape,
    inits: &[bool],
    config: &[bool],
    cycles: u32,
) -> Result<(), BenchErr>
    requires playable { IsPlayable template shape }
    requires inits { length inits.now ≡ shape.latches }
{
    if config.len() != template.bits as usize {
        return Err(BenchErr::Refused);
    }
    let mut inputs = vec![in meter.rt.alloc(); false; shape.regular as usize]?;
    let mut sim = Sim::make(meter.rt.alloc(), template, shape, inits)?;
    let start = meter.start()?;
    let total = play(&mut sim, config, &mut inputs, cycles);
    let took = meter.took(start)?;
    let counts = format!(in meter.rt.alloc(); "{cycles}, {total} outputs were 1")?;
    meter.show("cycles", counts.as_str(), took)?;
    Ok(())
}

// Inverts a parameter.
fn turn_with<L: Ledger>(specialiser: &mut Specialiser, param: u16, blank: Blank)
    requires name { blank.name ≡ L.name }
    requires parts { blank.parts ≡ L.parts }
    requires some { 0 < L.parts }
    requires param { param < length specialiser.old.state.params }
    ensures { length specialiser.new.state.params ≡ length specialiser.old.state.params }
{
    let mut steps = Steps::<L>::start(blank);
    let bit = !specialiser.values()[param as usize];
    specialiser.change(&[Assign { param, bit }], &mut steps);
    // The length of the values is a fact of a specialiser that is read.
    let _values = specialiser.values();
}

// Inverts pseudo-random parameters, and returns the number of writes.
fn turn(specialiser: &mut Specialiser, params: u32, changes: u32) -> u64
    requires some { 0 < params }
    requires few { params ≤ 2 ^ 16 }
    requires count { params ≤ length specialiser.old.state.params }
{
    let mut random = Random::new();
    let mut writes = 0u64;
    for _ in 0..changes {
        let param = random.below(params) as u16;
        turn_with::<Brand>(specialiser, param, Blank::new(1));
        writes = writes.saturating_add(specialiser.writes().len() as u64);
    }
    writes
}

/// Makes changes of one parameter each.
pub fn play_changes(
    meter: Meter<'_>,
    specialiser: &mut Specialiser,
    changes: u32,
) -> Result<(), BenchErr> {
    let params = specialiser.values().len();
    if params == 0 || params > 65_536 {
        return Ok(());
    }
    let start = meter.start()?;
    let writes = turn(specialiser, params as u32, changes);
    let took = meter.took(start)?;
    let counts = format!(in meter.rt.alloc(); "{changes}, {writes} writes")?;
    meter.show("changes", counts.as_str(), took)?;
    Ok(())
}

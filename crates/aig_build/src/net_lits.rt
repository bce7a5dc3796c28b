//! The literals of a flat circuit's nets.
ghost use Rattle.std.specs.Prelude.{◌≡◌, ℕ, ◌+◌, ◌*◌, ◌^◌, ◌<◌, ◌≤◌, List, [], false, length, map, replicate, IfOk, OnOk};
ghost use Rattle.list_laws.specs.Members.{In};
ghost use Rattle.netlist.specs.Bounds.{IsWithinBounds};
ghost use Rattle.param_list.specs.declared.params.Param.{Param as ParamValue};
ghost use Rattle.param_list.specs.Parameters.{AreParameters};
ghost use Rattle.aig_build.specs.Walked.{net_lit, net_lits, with_cover, marked, regular_lit as regular_lit_of, index_behind as index_after, regular_lits as regular_lits_of, regular_next, with_param_lits, start_nets, IsHeld};

use aig_core::Lit;
use netlist::{Flat, FlatNet};
use param_list::{Param, Params};
use std::alloc::{AllocError, Global};
use std::marker::Model;

/// The literals of the nets: of the inputs by their places, of the latches by the index of the first one, and of the covers
/// (0 until they are built).
#[derive(Drop)]
pub(crate) struct NetLits {
    inputs: Vec<Lit>,
    latches: u32,
    covers: Vec<Lit>,
}

impl Model for NetLits {
    ghost use Rattle.aig_build.specs.Walked.{NetLitsValue};

    ghost Value = { NetLitsValue };

    ghost view = { λ n. record { inputs = n.inputs.items; latches = n.latches; covers = n.covers.items } };
}

impl NetLits {
    /// The literal of a net.
    pub(crate) fn of(&self, net: FlatNet) -> Lit
        requires { IsHeld self.now net }
        ensures { result ≡ net_lit self.now net }
    {
        match net {
            FlatNet::Input(i) => self.inputs[i as usize],
            FlatNet::Latch(j) => Lit(2 * (self.latches + j)),
            FlatNet::Cover(k) => self.covers[k as usize],
        }
    }

    /// The index of the first latch.
    pub(crate) fn first_latch(&self) -> u32
        ensures { result ≡ self.now.latches }
    {
        self.latches
    }

    /// Sets the literal of a cover.
    pub(crate) fn set_cover(&mut self, k: u32, lit: Lit)
        requires { k < length self.old.covers }
        ensures { self.new ≡ with_cover self.old k lit }
    {
        self.covers[k as usize] = lit;
    }
}

// For each input, whether it is a parameter.
fn marks(alloc: Global, count: usize, params: &[Param]) -> Result<Vec<bool>, AllocError>
    requires { (p : ParamValue) → In params.now p → p.input < count }
    ensures { IfOk result (λ marks. marks.items ≡ marked (replicate count false) params.now) }
{
    let mut marks = vec![in alloc; false; count]?;
    for param in params {
        marks[param.input as usize] = true;
    }
    Ok(marks)
}

// The literal of an input. `next` is the next index for a regular one.
fn regular_lit(next: u32, mark: bool) -> Lit
    requires { next < 2 ^ 30 }
    ensures { result ≡ regular_lit_of next mark }
{
    if mark { Lit(0) } else { Lit(2 * next) }
}

// The next index after an input.
fn index_behind(next: u32, mark: bool) -> u32
    requires { next < 2 ^ 30 }
    ensures { result ≡ index_after next mark }
{
    if mark { next } else { next + 1 }
}

// The literals of the regular inputs in order, and the next index.
fn regular_lits(alloc: Global, marks: &[bool]) -> Result<(Vec<Lit>, u32), AllocError>
    requires { length marks.now < 2 ^ 28 }
    ensures lits { IfOk result (λ r. r.0.items ≡ regular_lits_of 1 marks.now) }
    ensures next { IfOk result (λ r. r.1 ≡ regular_next 1 marks.now) }
{
    let mut lits = Vec::with_capacity(alloc, marks.len())?;
    let mut next: u32 = 1;
    for mark in marks {
        lits.push(regular_lit(next, *mark))?;
        next = index_behind(next, *mark);
    }
    Ok((lits, next))
}

// Sets the literals of the parameters, whose indices begin at `first`.
fn set_param_lits(lits: &mut [Lit], first: u32, params: &[Param])
    requires places { (p : ParamValue) → In params.now p → p.input < length lits.old }
    requires small { first + length params.now < 2 ^ 30 }
    ensures { lits.new ≡ with_param_lits lits.old first params.now }
{
    let mut next = first;
    for param in params {
        lits[param.input as usize] = Lit(2 * next);
        next += 1;
    }
}

/// The literals before any cover is built: the regular inputs have the first indices, then come the parameters in the order
/// of their list, and then the latches.
pub(crate) fn start(alloc: Global, flat: &Flat, params: &Params) -> Result<NetLits, AllocError>
    requires few { length flat.now.inputs < 2 ^ 28 }
    requires short { length params.now.list < 2 ^ 28 }
    requires places { (p : ParamValue) → In params.now.list p → p.input < length flat.now.inputs }
    ensures { IfOk result (λ nets. nets ≡ start_nets flat.now params.now.list) }
{
    let params = params.list.as_slice();
    let marks = marks(alloc, flat.inputs.len(), params)?;
    let (mut inputs, next) = regular_lits(alloc, &marks)?;
    set_param_lits(&mut inputs, next, params);
    let covers = vec![in alloc; Lit(0); flat.covers.len()]?;
    Ok(NetLits {
        inputs,
        latches: next + params.len() as u32,
        covers,
    })
}

/// Replaces `lits` by the literals of these nets.
pub(crate) fn fill(
    lits: &mut Vec<Lit>,
    nets: &NetLits,
    numbers: &[FlatNet],
) -> Result<(), AllocError>
    requires { (net : FlatNet) → In numbers.now net → IsHeld nets.now net }
    ensures { OnOk result (lits.new.items ≡ net_lits nets.now numbers.now) }
{
    lits.clear();
    for net in numbers {
        lits.push(nets.of(*net))?;
    }
    Ok(())
}

//! The source circuit of a command.
ghost use Rattle.std.specs.Prelude.{◌≡◌, map, IfOk};
ghost use Rattle.netlist.specs.declared.flat.FlatLatch.{FlatLatch as LatchValue};
ghost use Rattle.netlist.specs.FlatCycle.{flat_inits};

use crate::netlist_text::Netlist;
use blif_flat::FlatLatch;
use run_text::Params;
use std::alloc::{AllocError, Global};

/// The source circuit of a command: its netlist with its parameters.
#[derive(Drop)]
pub struct Source {
    pub netlist: Netlist,
    pub params: Params,
}

// The initial values of latches.
fn inits(alloc: Global, latches: &[FlatLatch]) -> Result<Vec<bool>, AllocError>
    ensures { IfOk result (λ states. states.items ≡ map (λ (l : LatchValue). l.init) latches.now) }
{
    latches.iter().map(|latch| latch.init).collect(alloc)
}

/// The initial states of a source circuit's latches.
///
/// `Err` only if memory runs out.
pub fn latch_inits(alloc: Global, source: &Source) -> Result<Vec<bool>, AllocError>
    ensures { IfOk result (λ states. states.items ≡ flat_inits source.now.netlist.flat) }
{
    inits(alloc, &source.netlist.flat.latches)
}

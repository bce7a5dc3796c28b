//! Creates the circuit of a library: its instances, their covers and latches, and the nets of all their names.
ghost use Rattle.std.specs.Prelude.{◌≡◌, map, IfOk};
ghost use Rattle.blif_flat.specs.Bodies.Conditions.{IsIndexed};
ghost use Rattle.blif_flat.specs.{IsDriven, IsLight, IsCircuit};

use crate::circuit::instances::{Gate, GateKind, Instance, gates, instances};
use crate::circuit::net_table::fill_nets;
use crate::circuit::nets::{Nets, make_nets};
use crate::model::ports::{ModelIndex, Ports};
use netlist::Library;
use std::alloc::{AllocError, Global};

/// The instances of a library in flat order, their covers and latches, and the nets of all their names.
#[derive(Drop)]
pub(crate) struct Circuit {
    pub instances: Vec<Instance>,
    pub covers: Vec<Gate>,
    pub latches: Vec<Gate>,
    pub nets: Nets,
}

/// The circuit of a library. The index and the ports belong to the library. `Err` only if memory runs out. The time is linear in
/// the bytes of the names of all instances, on average over the hashes.
pub(crate) fn connect(
    alloc: Global,
    library: &Library,
    index: &ModelIndex,
    ports: &[Ports],
) -> Result<Circuit, AllocError>
    requires indexed { IsIndexed library.now index.now.names ports.now }
    requires driven { IsDriven library.now }
    requires light { IsLight library.now }
    ensures { IfOk result (λ circuit. IsCircuit library.now circuit) }
{
    let instances = instances(alloc, library, index)?;
    let covers = gates(alloc, library, &instances, GateKind::Cover)?;
    let latches = gates(alloc, library, &instances, GateKind::Latch)?;
    let empty = make_nets(alloc, library, &instances)?;
    let nets = fill_nets(alloc, library, ports, &instances, &covers, &latches, empty)?;
    Ok(Circuit {
        instances,
        covers,
        latches,
        nets,
    })
}

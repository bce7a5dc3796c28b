//! Checks the models: the walk, the weight, the drivers.
ghost use Rattle.std.specs.Prelude.{◌≡◌, ◌<◌, ◌^◌, length, map, IfOk, IfErr};
ghost use Rattle.blif_flat.specs.{OrMemory, IsWellFormed, refusal_of, ports_value, model_names, IsChecked, IsFault};

use crate::flat_err::FlatErr;
use crate::model::drivers::check_drivers;
use crate::model::ports::{ModelIndex, Ports};
use crate::model::walk::walk_models;
use crate::model::weight::check_weight;
use netlist::Library;
use std::alloc::Global;

/// Walks the models from the main one, computes the weight of the main model, and checks the drivers of the walked models. The
/// index and the ports belong to the library. The time is linear in the bytes of all models, and of the ports of the
/// subcircuits of walked models, on average over the hashes.
///
/// # Errors
/// The first of F1 to F4 in the walk, then L2, then the first of F5 and F6 in the order in which the walk begins the models.
/// `Memory` if memory runs out.
pub(crate) fn check_models(
    alloc: Global,
    library: &Library,
    index: &ModelIndex,
    ports: &[Ports],
) -> Result<(), FlatErr>
    requires formed { IsWellFormed library.now }
    requires names { index.now.names ≡ model_names library.now.models }
    requires ports { ports.now ≡ map ports_value library.now.models }
    ensures ok { IfOk result (λ _. IsChecked library.now) }
    ensures err { IfErr result (OrMemory refusal_of (IsFault library.now)) }
{
    let walked = walk_models(alloc, library, index, ports)?;
    check_weight(alloc, library, index, walked.order())?;
    check_drivers(alloc, library, index, ports, walked.begun())
}

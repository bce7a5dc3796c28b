//! The law of the circuit that [`put_aag`](crate::put_aag) writes.
ghost use Rattle.aiger_io.specs.GraphCircuit.{graph_circuit, IsWrittenFrom, IsGraphsCircuit};

use aig_core::{Graph, Roots};
use netlist::Flat;
use param_list::Params;

/// The law of the circuit of a graph, which [`put_aag`](crate::put_aag) writes. If its names are clean, as those of a netlist
/// are, its text follows the format, apart from equal names; and if no two names are equal, it is read as the same circuit.
/// For all values of inputs and latches, there are values of the variables that fit the lines, and any two agree on what the
/// lines define. The cycles and runs, with values of the regular inputs and then of the parameters, are those of the library
/// from which the graph was built.
///
/// The body is empty: the call is its contract.
pub fn graph_law(flat: &Flat, params: &Params, regular: &[u32], graph: &Graph, roots: &Roots)
    requires { IsWrittenFrom flat.now params.now.list regular.now graph.now roots.now }
    ensures circuit { IsGraphsCircuit flat.now params.now.list graph.now roots.now (graph_circuit flat.now params.now.list regular.now graph.now roots.now) }
{
    // The proof needs what the contracts of these calls say of the graph.
    let _sources = graph.sources();
    let _count = graph.len();
}

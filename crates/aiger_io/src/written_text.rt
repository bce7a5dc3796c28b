//! Writing the text of a graph.
ghost use Rattle.std.specs.Prelude.{◌≡◌, ◌+◌, ◌<◌, ◌≤◌, ◌^◌, ℕ, [], length, slice_index_or};
ghost use Rattle.std.specs.List.{flat_map, range_with_len};
ghost use Rattle.aig_core.specs.Aig.{first_and};
ghost use Rattle.tl_io.specs.Sink.{IsPut};
ghost use Rattle.tl_piece.specs.Added.{IsAdded};
ghost use Rattle.netlist.specs.declared.flat.OutPort.{OutPort as OutPortValue};
ghost use Rattle.param_list.specs.declared.params.Param.{Param as ParamValue};
ghost use Rattle.aiger_io.specs.GraphCircuit.{input_count, input_item, latch_item, output_item, gate_item, graph_circuit, IsWrittenFrom, lines_text, symbols_text};
ghost use Rattle.aiger_io.specs.WrittenText.{numbered_text, item_text, symbol_text, circuit_text};

use crate::header::Header;
use crate::written_line::{add_gate, add_header, add_latch, add_literal, add_symbol};
use aig_core::{Graph, Lit, Roots};
use netlist::{Flat, FlatLatch, OutPort};
use param_list::{Param, Params};
use tl_io::{Failed, Sink};
use tl_piece::{WriteBuffer, Writer};
use tl_text::Name;

// Adds the lines of `count` inputs.
fn add_inputs<O: Sink>(count: u32, writer: &mut Writer<'_, O>)
    requires { count < 2 ^ 30 }
    ensures { IsAdded O.seen writer.old (flat_map (λ (n : ℕ). item_text (input_item n)) (range_with_len 1 count)) writer.new }
{
    for i in 0..count {
        add_literal(2 * (1 + i), writer);
    }
}

// Adds the lines of the latches, whose variables follow those of the inputs.
fn add_latches<O: Sink>(
    inputs: u32,
    latches: &[FlatLatch],
    next: &[Lit],
    writer: &mut Writer<'_, O>,
)
    requires few { 1 + inputs + length latches.now ≤ 2 ^ 30 }
    requires same { length next.now ≡ length latches.now }
    ensures { IsAdded O.seen writer.old (numbered_text (λ k latch. item_text (latch_item inputs next.now k latch)) 0 latches.now) writer.new }
{
    for (k, latch) in latches.iter().enumerate() {
        add_latch(2 * (1 + inputs + k as u32), next[k].0, latch.init, writer);
    }
}

// Adds the lines of outputs.
fn add_outputs<O: Sink>(outputs: &[Lit], writer: &mut Writer<'_, O>)
    ensures { IsAdded O.seen writer.old (flat_map (λ l. item_text (output_item l)) outputs.now) writer.new }
{
    for l in outputs {
        add_literal(l.0, writer);
    }
}

// Adds the lines of AND nodes.
fn add_gates<O: Sink>(graph: &Graph, writer: &mut Writer<'_, O>)
    ensures { IsAdded O.seen writer.old (numbered_text (λ n pair. item_text (gate_item n pair)) (first_and graph.now) graph.now.pairs) writer.new }
{
    let first = 1 + graph.sources();
    let count = graph.len() - first;
    for i in 0..count {
        let pair = graph.pair_at(first + i);
        add_gate(2 * (first + i), pair.y.0, pair.x.0, writer);
    }
}

// The name at a place; empty if there is none.
fn name_at(names: &[Name], place: u32) -> &[u8]
    ensures { result.now ≡ slice_index_or names.now place [] }
{
    match names.get(place as usize) {
        Some(name) => name.bytes(),
        None => b"".as_slice(),
    }
}

// Adds the symbols of the regular inputs.
fn add_regular<O: Sink>(inputs: &[Name], regular: &[u32], writer: &mut Writer<'_, O>)
    requires { length regular.now < 2 ^ 30 }
    ensures { IsAdded O.seen writer.old (numbered_text (λ k i. symbol_text 105 k (slice_index_or inputs.now i [])) 0 regular.now) writer.new }
{
    for (k, place) in regular.iter().enumerate() {
        add_symbol(b'i', k as u32, name_at(inputs, *place), writer);
    }
}

// Adds the symbols of the parameters. The first one has this ordinal.
fn add_params<O: Sink>(first: u32, params: &[Param], writer: &mut Writer<'_, O>)
    requires { first + length params.now < 2 ^ 30 }
    ensures { IsAdded O.seen writer.old (numbered_text (λ k (p : ParamValue). symbol_text 105 k p.name) first params.now) writer.new }
{
    for (k, param) in params.iter().enumerate() {
        add_symbol(b'i', first + k as u32, param.name.bytes(), writer);
    }
}

// Adds the symbols of outputs.
fn add_names<O: Sink>(outputs: &[OutPort], writer: &mut Writer<'_, O>)
    requires { length outputs.now < 2 ^ 32 }
    ensures { IsAdded O.seen writer.old (numbered_text (λ k (o : OutPortValue). symbol_text 111 k o.name) 0 outputs.now) writer.new }
{
    for (k, output) in outputs.iter().enumerate() {
        add_symbol(b'o', k as u32, output.name.bytes(), writer);
    }
}

// Adds the header and the lines of a graph with this number of inputs.
fn add_lines<O: Sink>(
    inputs: u32,
    flat: &Flat,
    graph: &Graph,
    roots: &Roots,
    writer: &mut Writer<'_, O>,
)
    requires sources { length graph.now.kinds ≡ inputs + length flat.now.latches }
    requires next { length roots.now.next ≡ length flat.now.latches }
    requires few { length roots.now.outputs < 2 ^ 32 }
    ensures { IsAdded O.seen writer.old (lines_text inputs flat.now graph.now roots.now) writer.new }
{
    let header = Header {
        variables: graph.len() - 1,
        inputs,
        latches: flat.latches.len() as u32,
        outputs: roots.outputs.len() as u32,
        ands: graph.len() - 1 - graph.sources(),
    };
    add_header(&header, writer);
    add_inputs(inputs, writer);
    add_latches(inputs, &flat.latches, &roots.next, writer);
    add_outputs(&roots.outputs, writer);
    add_gates(graph, writer);
}

// The number of inputs.
fn count_inputs(regular: &[u32], params: &Params) -> u32
    requires { input_count regular.now params.now.list < 2 ^ 30 }
    ensures { result ≡ input_count regular.now params.now.list }
{
    regular.len() as u32 + params.list.len() as u32
}

// Adds the symbols of all inputs and outputs.
fn add_symbols<O: Sink>(flat: &Flat, params: &Params, regular: &[u32], writer: &mut Writer<'_, O>)
    requires few_inputs { input_count regular.now params.now.list < 2 ^ 30 }
    requires few_outputs { length flat.now.outputs < 2 ^ 32 }
    ensures { IsAdded O.seen writer.old (symbols_text flat.now params.now.list regular.now) writer.new }
{
    add_regular(&flat.inputs, regular, writer);
    add_params(regular.len() as u32, &params.list, writer);
    add_names(&flat.outputs, writer);
}

/// Writes the text of the circuit of a graph (`specs/GraphCircuit.antt`), in pieces of 4,096 bytes (the last may be shorter).
/// Its inputs are the regular ones, whose places are passed in, and then the parameters. It has a symbol for each input and
/// each output. Allocates no memory; time is linear in the text.
///
/// [`graph_law`](crate::graph_law) says what this circuit keeps.
///
/// # Errors
/// `Failed` only if the sink's count of faults rose. A prefix of the text is then written.
pub fn put_aag<O: Sink>(
    flat: &Flat,
    params: &Params,
    regular: &[u32],
    graph: &Graph,
    roots: &Roots,
    out: &mut O,
) -> Result<(), Failed>
    requires { IsWrittenFrom flat.now params.now.list regular.now graph.now roots.now }
    ensures put { IsPut (O.seen out.old) (circuit_text (graph_circuit flat.now params.now.list regular.now graph.now roots.now)) (O.seen out.new) result }
{
    // The proof needs what the contract of this call says of the graph.
    let _sources = graph.sources();
    let inputs = count_inputs(regular, params);
    let mut piece = WriteBuffer::new();
    let mut writer = Writer::over(out, &mut piece);
    add_lines(inputs, flat, graph, roots, &mut writer);
    add_symbols(flat, params, regular, &mut writer);
    writer.finish()
}

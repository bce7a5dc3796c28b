//! Writing the parts of a pack file.
ghost use Rattle.std.specs.Prelude.{◌≡◌, ◌+◌, ◌≤◌, ◌<◌, ◌++◌, length};
ghost use Rattle.std.specs.Int.{w32};
ghost use Rattle.list_laws.specs.Members.{In};
ghost use Rattle.tl_piece.specs.Added.{IsAdded};
ghost use Rattle.tl_text.specs.declared.limits.TheConstants.{MOST_NAME_BYTES as MOST_LENGTH, MOST_PARAMETERS as MOST};
ghost use Rattle.aig_core.specs.Aig.{first_and, IsNormal};
ghost use Rattle.ppc_pack.specs.declared.pack.PackParam.{PackParam as ParamValue};
ghost use Rattle.ppc_pack.specs.declared.pack.TheConstants.{MOST_PACK_BITS as MOST_BITS};
ghost use Rattle.ppc_file.specs.Numbers.{spelled};
ghost use Rattle.ppc_file.specs.Bytes.{head_bytes, bit_byte, param_bytes, node_bytes, params_part, nodes_part, bits_part};

use crate::add_number::{add_number, add_short};
use crate::version::Version;
use aig_core::{Graph, Lit, Pair};
use ppc_pack::PackParam;
use tl_io::Sink;
use tl_piece::Writer;

// Writes the four letters of the magic and the version.
pub(crate) fn add_head<O: Sink>(version: Version, writer: &mut Writer<'_, O>)
    ensures { IsAdded O.seen writer.old (head_bytes version) writer.new }
{
    match version {
        Version::One => writer.add_text(b"TPPC\x00\x01"),
        Version::Two => writer.add_text(b"TPPC\x00\x02"),
    }
}

// The byte of an initial value.
fn init_byte(init: bool) -> u8
    ensures { result ≡ bit_byte init }
{
    if init { 1 } else { 0 }
}

// Writes a parameter.
fn add_param<O: Sink>(version: Version, param: &PackParam, writer: &mut Writer<'_, O>)
    requires { length param.now.name ≤ MOST_LENGTH }
    ensures { IsAdded O.seen writer.old (param_bytes version param.now) writer.new }
{
    let name = param.name.bytes();
    add_short(version, name.len() as u16, writer);
    writer.add_text(name);
    writer.add_byte(init_byte(param.init));
}

// Writes the number of parameters, and each of them.
pub(crate) fn add_params<O: Sink>(
    version: Version,
    params: &[PackParam],
    writer: &mut Writer<'_, O>,
)
    requires few { length params.now ≤ MOST }
    requires short { (p : ParamValue) → In params.now p → length p.name ≤ MOST_LENGTH }
    ensures { IsAdded O.seen writer.old (params_part version (length params.now) params.now) writer.new }
{
    add_short(version, params.len() as u16, writer);
    for param in params {
        add_param(version, param, writer);
    }
}

// The two numbers that encode the fan-ins of the node with an index.
fn told(version: Version, node: u32, pair: Pair) -> (u32, u32)
    requires normal { IsNormal node pair }
    requires small { node < 2147483648 }
    ensures { node_bytes version node pair ≡ spelled version w32 result.0 ++ spelled version w32 result.1 }
{
    match version {
        Version::One => (pair.x.0, pair.y.0),
        Version::Two => (2 * node - pair.y.0, pair.y.0 - pair.x.0),
    }
}

// Writes the fan-ins of the node with an index.
fn add_node<O: Sink>(version: Version, node: u32, pair: Pair, writer: &mut Writer<'_, O>)
    requires normal { IsNormal node pair }
    requires small { node < 2147483648 }
    ensures { IsAdded O.seen writer.old (node_bytes version node pair) writer.new }
{
    let (first, second) = told(version, node, pair);
    add_number(version, first, writer);
    add_number(version, second, writer);
}

// Writes the number of nodes of a graph, and each of them.
pub(crate) fn add_nodes<O: Sink>(version: Version, graph: &Graph, writer: &mut Writer<'_, O>)
    ensures { IsAdded O.seen writer.old (nodes_part version (first_and graph.now) (length graph.now.pairs) graph.now.pairs) writer.new }
{
    let first = 1 + graph.sources();
    let count = graph.len() - first;
    add_number(version, count, writer);
    for number in 0..count {
        let node = first + number;
        add_node(version, node, graph.pair_at(node), writer);
    }
}

// Writes the number of bits, and each of them.
pub(crate) fn add_bits<O: Sink>(version: Version, bits: &[Lit], writer: &mut Writer<'_, O>)
    requires { length bits.now ≤ MOST_BITS }
    ensures { IsAdded O.seen writer.old (bits_part version (length bits.now) bits.now) writer.new }
{
    add_number(version, bits.len() as u32, writer);
    for lit in bits {
        add_number(version, lit.0, writer);
    }
}

//! The bits of a pack file.
ghost use Rattle.std.specs.Prelude.{◌≡◌, ◌≤◌, [], length, IfOk, IfErr};
ghost use Rattle.tl_fault.specs.OrMemory.{OrMemory};
ghost use Rattle.ppc_pack.specs.declared.pack.TheConstants.{MOST_PACK_BYTES};
ghost use Rattle.ppc_file.specs.Fronts.{in_nodes, in_bits};
ghost use Rattle.ppc_file.specs.PackFile.{IsPackFault};
ghost use Rattle.ppc_file.specs.Reading.{StandsAt};
ghost use Rattle.ppc_file.specs.Refusals.{refusal_of};

use crate::field::{bit, bit_count};
use crate::pack_err::PackErr;
use crate::version::Version;
use aig_core::{Graph, Lit};
use ppc_pack::PackParam;
use std::alloc::Global;

// As many bits as the file states, and the bytes after them.
fn read_each<'a>(
    alloc: Global,
    version: Version,
    params: &[PackParam],
    graph: &Graph,
    count: u32,
    file: &[u8],
    rest: &'a [u8],
) -> Result<(Vec<Lit>, &'a [u8]), PackErr>
    requires short { length file.now ≤ MOST_PACK_BYTES }
    requires sources { length graph.now.kinds ≡ length params.now }
    requires stands { StandsAt file.now (in_bits version params.now graph.now.pairs count []) rest.now }
    ensures stands { IfOk result (λ x. StandsAt file.now (in_bits version params.now graph.now.pairs (length x.0.items) x.0.items) x.1.now) }
    ensures fault { IfErr result (OrMemory refusal_of (IsPackFault file.now)) }
{
    let total = file.len() as u32;
    let nodes = graph.len();
    let mut bits = Vec::new(alloc);
    let mut rest = rest;
    for _ in 0..count {
        let (literal, behind) = bit(version, total, nodes, rest)?;
        bits.push(literal)?;
        rest = behind;
    }
    Ok((bits, rest))
}

// The bits of a file, which follow its nodes, and the bytes after them. Time and memory are linear in their bytes.
pub(crate) fn read_bits<'a>(
    alloc: Global,
    version: Version,
    params: &[PackParam],
    graph: &Graph,
    file: &[u8],
    rest: &'a [u8],
) -> Result<(Vec<Lit>, &'a [u8]), PackErr>
    requires short { length file.now ≤ MOST_PACK_BYTES }
    requires sources { length graph.now.kinds ≡ length params.now }
    requires stands { StandsAt file.now (in_nodes version params.now (length graph.now.pairs) graph.now.pairs) rest.now }
    ensures stands { IfOk result (λ x. StandsAt file.now (in_bits version params.now graph.now.pairs (length x.0.items) x.0.items) x.1.now) }
    ensures fault { IfErr result (OrMemory refusal_of (IsPackFault file.now)) }
{
    let (count, rest) = bit_count(version, file.len() as u32, rest)?;
    read_each(alloc, version, params, graph, count, file, rest)
}

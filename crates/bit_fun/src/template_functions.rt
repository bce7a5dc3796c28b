//! The functions of a template's bits over one graph: its pack.
ghost use Rattle.std.specs.Prelude.{◌≡◌, ℕ, ◌+◌, ◌-◌, ◌*◌, ◌/◌, ◌^◌, ◌<◌, ◌≤◌, List, [], Bool, length, map, replicate, reverse, IfOk, OnOk};
ghost use Rattle.list_laws.specs.Members.{In};
ghost use Rattle.param_list.specs.Parameters.{AreNamed};
ghost use Rattle.aig_core.specs.declared.lit.Kind.TheVariants.{Parameter};
ghost use Rattle.aig_core.specs.Aig.{first_and, node_count, AreNormal, IsAnd};
ghost use Rattle.cover_pick.specs.declared.lut.Lut.{Lut as LutValue};
ghost use Rattle.tl_text.specs.declared.limits.TheConstants.{MOST_PARAMETERS};
ghost use Rattle.cover_pick.specs.declared.limits.TheConstants.{MOST_WORK};
ghost use Rattle.cover_pick.specs.Work.{IsMakeable};
ghost use Rattle.cover_pick.specs.Free.{AreFree};
ghost use Rattle.ppc_pack.specs.Pack.{IsPack};
ghost use Rattle.bit_fun.specs.Parameters.{param_count};
ghost use Rattle.bit_fun.specs.Configuration.{IsMapped, HasEachBit, HasOneConfiguration, HaveFunctions};
ghost use Rattle.bit_fun.specs.PackOf.{pack_param, IsPackOf, HasOnePack};
ghost use Rattle.bit_fun.specs.PackLaw.{HasConfigurations};
ghost use Rattle.bit_fun.specs.ConeFunctions.{lit_of, HaveSourceLits, HaveSourceLitsTo, AreLits, HasRoom, IsTableWithin, IsTableIn, IsGrown, AddsBits, AddsLaterBits, HasAllTables};

use crate::cone_functions::make_bit;
use crate::cone_graph::walk_cone;
use crate::marks::mark_order;
use aig_core::{Graph, Kind, Lit};
use cover_pick::{Lut, Template, free_nodes};
use depth_first::Walk;
use param_list::Params;
use ppc_pack::{MOST_PACK_NODES, Pack, PackParam};
use std::alloc::{AllocError, Global};
use tl_text::{Name, TextKey};

// Sets the literal of source `i` if it is a parameter; `count` parameters come before it. Returns the number of parameters up
// to and including it.
fn set_source(graph: &Graph, i: u32, count: u32, lits: &mut [Lit]) -> u32
    requires few { param_count graph.now.kinds ≤ MOST_PARAMETERS }
    requires small { length graph.now.kinds < 2 ^ 30 }
    requires source { i < length graph.now.kinds }
    requires before { HaveSourceLitsTo graph.now i count lits.old }
    ensures { HaveSourceLitsTo graph.now (i + 1) result lits.new }
{
    match graph.kind(i + 1) {
        Kind::Regular => count,
        Kind::Parameter => {
            lits[i as usize + 1] = Lit(2 * (count + 1));
            count + 1
        }
    }
}

// A literal for each node: 0 for the constant, the source in the pack for a parameter; the others are set later.
fn source_lits(alloc: Global, graph: &Graph) -> Result<Vec<Lit>, AllocError>
    requires { param_count graph.now.kinds ≤ MOST_PARAMETERS }
    ensures lits { IfOk result (λ lits. HaveSourceLits graph.now lits.items) }
    ensures below { IfOk result (λ lits. (m : ℕ) → lit_of lits.items m < 2 * (1 + param_count graph.now.kinds)) }
{
    let mut lits = vec![in alloc; Lit(0); graph.len() as usize]?;
    let mut count = 0;
    for i in 0..graph.sources() {
        count = set_source(graph, i, count, &mut lits);
    }
    Ok(lits)
}

// Appends the literals of a LUT's bits from the second on.
fn push_bits(
    graph: &Graph,
    table: &Lut,
    order: &[u32],
    pack: &mut Graph,
    lits: &mut [Lit],
    bits: &mut Vec<Lit>,
) -> Result<(), AllocError>
    requires normal { AreNormal (first_and graph.now) graph.now.pairs }
    requires table { IsTableIn graph.now table.now }
    requires nodes { (n : ℕ) → In order.now n → IsAnd graph.now n }
    requires lits { AreLits graph.now pack.old lits.old }
    requires room { length pack.old.pairs + (2 ^ length table.now.leaves - 1) * length order.now ≤ pack.old.max }
    ensures made { OnOk result (AddsLaterBits graph.now table.now (reverse order.now) pack.old lits.old bits.old.items pack.new lits.new bits.new.items) }
    ensures grown { OnOk result (IsGrown graph.now pack.old pack.new ((2 ^ length table.now.leaves - 1) * length order.now) lits.new) }
{
    let count = 1u32 << table.leaves.len();
    for v in 1..count {
        let bit = make_bit(graph, table, order, v, pack, lits)?;
        bits.push(bit)?;
    }
    Ok(())
}

// Appends the literals of a LUT's bits, v ascending. After the first of them the walk passes over the free nodes of the cone,
// whose literals are kept.
fn push_table(
    graph: &Graph,
    free: &[bool],
    table: &Lut,
    kept: &mut [bool],
    walk: &mut Walk,
    pack: &mut Graph,
    lits: &mut [Lit],
    bits: &mut Vec<Lit>,
) -> Result<(), AllocError>
    requires normal { AreNormal (first_and graph.now) graph.now.pairs }
    requires table { IsTableIn graph.now table.now }
    requires lits { AreLits graph.now pack.old lits.old }
    requires long { length kept.old ≡ node_count graph.now }
    requires room { HasRoom graph.now free.now table.now kept.old pack.old }
    requires count { walk.old.count ≡ node_count graph.now }
    ensures made { OnOk result (AddsBits graph.now table.now free.now pack.old kept.old lits.old bits.old.items pack.new kept.new lits.new bits.new.items) }
    ensures few { OnOk result (IsTableWithin graph.now free.now table.now pack.old kept.old pack.new kept.new) }
    ensures long { length kept.new ≡ length kept.old }
    ensures count { walk.new.count ≡ walk.old.count }
{
    let top = table.lit.0 / 2;
    let leaves = table.leaves.leaves();
    // The proof needs what the contract of this call says of the list.
    let _count = table.leaves.len();
    walk_cone(graph, leaves, kept, top, walk)?;
    let order = walk.order();
    let first = make_bit(graph, table, order, 0, pack, lits)?;
    bits.push(first)?;
    mark_order(free, order, kept);
    walk_cone(graph, leaves, kept, top, walk)?;
    push_bits(graph, table, walk.order(), pack, lits, bits)?;
    Ok(())
}

// The literals of the bits of all LUTs, in the order of their addresses.
fn push_tables(
    alloc: Global,
    graph: &Graph,
    tables: &[Lut],
    pack: &mut Graph,
    lits: &mut [Lit],
    walk: &mut Walk,
) -> Result<Vec<Lit>, AllocError>
    requires normal { AreNormal (first_and graph.now) graph.now.pairs }
    requires tables { (t : LutValue) → In tables.now t → IsTableIn graph.now t }
    requires light { IsMakeable graph.now tables.now }
    requires literals { AreLits graph.now pack.old lits.old }
    requires sources { HaveSourceLits graph.now lits.old }
    requires room { length pack.old.pairs + MOST_WORK ≤ pack.old.max }
    requires count { walk.old.count ≡ node_count graph.now }
    ensures { IfOk result (λ bits. HasAllTables graph.now tables.now pack.old pack.new lits.new bits.items) }
{
    let free = free_nodes(alloc, graph, tables)?;
    let mut kept = vec![in alloc; false; graph.len() as usize]?;
    let mut bits = Vec::new(alloc);
    for table in tables {
        push_table(graph, &free, table, &mut kept, walk, pack, lits, &mut bits)?;
    }
    Ok(bits)
}

// The parameters of a list as parameters of a pack.
fn pack_params(alloc: Global, params: &Params) -> Result<Vec<PackParam>, AllocError>
    ensures { IfOk result (λ made. made.items ≡ map pack_param params.now.list) }
{
    let mut made = Vec::new(alloc);
    for param in params.list.as_slice() {
        let name = Name::make(alloc, param.name.bytes())?;
        made.push(PackParam {
            name,
            init: param.init,
        })?;
    }
    Ok(made)
}

// A graph over the parameters of a list as its sources, with room for the nodes of a pack and this key.
fn empty_graph(alloc: Global, key: TextKey, params: &Params) -> Result<Graph, AllocError>
    requires { AreNamed params.now.list }
    ensures { IfOk result (λ g. g ≡ record { kinds = replicate (length params.now.list) Parameter; pairs = []; max = MOST_PACK_NODES }) }
{
    let kinds = vec![in alloc; Kind::Parameter; params.list.len()]?;
    Graph::keyed(alloc, key, kinds, MOST_PACK_NODES)
}

// The pack of a template.
fn make_pack(
    alloc: Global,
    graph: &Graph,
    template: &Template,
    params: &Params,
) -> Result<Pack, AllocError>
    requires { HaveFunctions graph.now template.now.luts params.now.list }
    ensures pack { IfOk result (λ pack. IsPackOf graph.now template.now.luts params.now.list pack) }
    ensures kept { IfOk result (λ pack. IsPack pack.params pack.graph pack.bits) }
    ensures normal { IfOk result (λ pack. AreNormal (first_and pack.graph) pack.graph.pairs) }
{
    let mut lits = source_lits(alloc, graph)?;
    let mut walk = Walk::make(alloc, graph.len() as usize)?;
    let mut pack = empty_graph(alloc, graph.key(), params)?;
    let tables = template.luts.as_slice();
    let bits = push_tables(alloc, graph, tables, &mut pack, &mut lits, &mut walk)?;
    // The proof needs what the contract of this call says of the pack.
    let _nodes = pack.len();
    let pack_params = pack_params(alloc, params)?;
    Ok(Pack::make(pack_params, pack, bits))
}

/// The functions of a template's bits, as a pack.
///
/// For each address of a LUT, one pass over the postorder of its cone builds the functions of its nodes, each once. The
/// function of a node above no leaf of a LUT is the same at each address, so it is built once, at the first address whose LUT
/// has the node in its cone, and passes for later addresses leave it out. So time is at most linear in the graph and in the
/// work of the LUTs by either rule, and the pack has at most as many nodes as this work. The depth of calls doesn't grow with
/// the graph.
///
/// # Errors
/// Only if memory runs out.
pub fn functions(
    alloc: Global,
    graph: &Graph,
    template: &Template,
    params: &Params,
) -> Result<Pack, AllocError>
    requires mapped { IsMapped graph.now template.now.luts }
    requires light { IsMakeable graph.now template.now.luts }
    requires count { param_count graph.now.kinds ≡ length params.now.list }
    requires names { AreNamed params.now.list }
    ensures pack { IfOk result (λ pack. IsPackOf graph.now template.now.luts params.now.list pack) }
    ensures conf { IfOk result (λ pack. HasConfigurations graph.now template.now.luts pack) }

    // It keeps what every pack keeps, and its graph keeps what every graph does.
    ensures kept { IfOk result (λ pack. IsPack pack.params pack.graph pack.bits) }
    ensures normal { IfOk result (λ pack. AreNormal (first_and pack.graph) pack.graph.pairs) }

    // Exactly one pack of these parameters exists.
    ensures one { HasOnePack graph.now template.now.luts params.now.list }

    // For any values of the parameters there is exactly one bit at each address, and exactly one configuration.
    ensures bit { HasEachBit graph.now template.now.luts }
    ensures configuration { (given : List Bool) → length given ≡ param_count graph.now.kinds → HasOneConfiguration graph.now template.now.luts given }
{
    make_pack(alloc, graph, template, params)
}

//! The functions of a cone's nodes. One pass over its postorder builds the literal of each node once.
ghost use Rattle.std.specs.Prelude.{◌≡◌, ℕ, ◌+◌, ◌*◌, ◌/◌, ◌<◌, ◌≤◌, Bool, List, ◌∷◌, [], length, reverse, IfOk, OnOk};
ghost use Rattle.list_laws.specs.Members.{In};
ghost use Rattle.list_laws.specs.Digits.{bit_value};
ghost use Rattle.aig_core.specs.Aig.{first_and, AreNormal, IsAnd, IsLit};
ghost use Rattle.aig_core.specs.And.{and_of, with_pairs};
ghost use Rattle.cut_sets.specs.declared.limits.TheConstants.{MOST_LEAVES};
ghost use Rattle.bit_fun.specs.PackOf.{phase_literal};
ghost use Rattle.bit_fun.specs.ConeFunctions.{fan_in, with_leaves, AreLits, IsGrown, IsMadeOver, IsTableIn, AddsBit};

use aig_core::{AigErr, Graph, Lit};
use cover_pick::Lut;
use list_laws::digit;
use std::alloc::AllocError;

// A literal in the phase of another one: complemented if that is odd.
fn in_phase_of(lit: Lit, made: Lit) -> Lit
    ensures { result.0 ≡ phase_literal lit.0 made.0 }
{
    if lit.0 % 2 == 1 {
        made.complement()
    } else {
        made
    }
}

// The literal of a fan-in.
fn fan_in_lit(lits: &[Lit], lit: Lit) -> Lit
    requires { lit.0 / 2 < length lits.now }
    ensures { result.0 ≡ fan_in lits.now lit.0 }
{
    in_phase_of(lit, lits[lit.0 as usize / 2])
}

// The product of two literals in a pack that has room for a node.
fn product_of(pack: &mut Graph, a: Lit, b: Lit) -> Result<Lit, AllocError>
    requires a_in { IsLit pack.old a.0 }
    requires b_in { IsLit pack.old b.0 }
    requires room { length pack.old.pairs < pack.old.max }
    ensures lit { IfOk result (λ lit. lit.0 ≡ (and_of pack.old a.0 b.0).lit) }
    ensures ok { OnOk result (pack.new ≡ with_pairs pack.old (and_of pack.old a.0 b.0).pairs) }
    ensures is_lit { IfOk result (λ lit. IsLit pack.new lit.0) }
{
    match pack.and(a, b) {
        Ok(lit) => Ok(lit),
        Err(AigErr::Memory) => Err(AllocError),
        Err(AigErr::Full) => unreachable!(),
    }
}

// Sets the literal of an AND node, given those of its fan-ins.
fn make_node(graph: &Graph, n: u32, pack: &mut Graph, lits: &mut [Lit]) -> Result<(), AllocError>
    requires node { IsAnd graph.now n }
    requires lits { AreLits graph.now pack.old lits.old }
    requires room { length pack.old.pairs < pack.old.max }
    ensures { OnOk result (IsMadeOver graph.now pack.old lits.old (n ∷ []) pack.new lits.new) }
{
    let pair = graph.pair_at(n);
    let x = fan_in_lit(lits, pair.x);
    let y = fan_in_lit(lits, pair.y);
    lits[n as usize] = product_of(pack, x, y)?;
    Ok(())
}

// Sets the literals of the nodes in an order, one after another.
fn make_nodes(
    graph: &Graph,
    order: &[u32],
    pack: &mut Graph,
    lits: &mut [Lit],
) -> Result<(), AllocError>
    requires nodes { (n : ℕ) → In order.now n → IsAnd graph.now n }
    requires lits { AreLits graph.now pack.old lits.old }
    requires room { length pack.old.pairs + length order.now ≤ pack.old.max }
    ensures { OnOk result (IsMadeOver graph.now pack.old lits.old (reverse order.now) pack.new lits.new) }
{
    for n in order {
        make_node(graph, *n, pack, lits)?;
    }
    Ok(())
}

// The constant literal of a bit.
fn bit_lit(bit: bool) -> Lit
    ensures { result.0 ≡ bit_value bit }
{
    Lit(u32::from(bit))
}

// Sets each leaf to the constant of its digit in `v`.
fn set_leaves(leaves: &[u32], v: u32, lits: &mut [Lit])
    requires few { length leaves.now ≤ MOST_LEAVES }
    requires inside { (m : ℕ) → In leaves.now m → m < length lits.old }
    ensures { lits.new ≡ with_leaves lits.old v 0 leaves.now }
{
    let mut place = 0;
    for leaf in leaves {
        lits[*leaf as usize] = bit_lit(digit(v, place));
        place += 1;
    }
}

// The literal of a LUT's bit for the leaf values `v`.
pub fn make_bit(
    graph: &Graph,
    table: &Lut,
    order: &[u32],
    v: u32,
    pack: &mut Graph,
    lits: &mut [Lit],
) -> Result<Lit, AllocError>
    requires normal { AreNormal (first_and graph.now) graph.now.pairs }
    requires few { length table.now.leaves ≤ MOST_LEAVES }
    requires table { IsTableIn graph.now table.now }
    requires nodes { (n : ℕ) → In order.now n → IsAnd graph.now n }
    requires lits { AreLits graph.now pack.old lits.old }
    requires room { length pack.old.pairs + length order.now ≤ pack.old.max }
    ensures made { IfOk result (AddsBit graph.now table.now v (reverse order.now) pack.old lits.old pack.new lits.new) }
    ensures grown { OnOk result (IsGrown graph.now pack.old pack.new (length order.now) lits.new) }
{
    set_leaves(table.leaves.leaves(), v, lits);
    make_nodes(graph, order, pack, lits)?;
    Ok(fan_in_lit(lits, table.lit))
}
